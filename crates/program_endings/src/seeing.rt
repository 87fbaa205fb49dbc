//! How contracts see what programs are given: a word for all of it, by the kinds of which it is.
ghost use Rattle.driver.specs.Place.{source_rules};
ghost use Rattle.offline_programs.specs.Saying.{Saying, saying};
ghost use Rattle.program_endings.specs.Records.{GivenDisk, ProgramView, Streams, given_disk, program_view, streams, writing};
ghost use Rattle.sheet_files.specs.Closing.{Closable, closable};

use arrivals::Sources;
use offline_programs::Says;
use sheet_files::Close;
use std::io::Write;

/// How a program is seen that is given a disk, sources and an output of these kinds: `⟦<(D, S, W) as Kinds>⟧.seen`.
pub trait Kinds {
    type Disk;

    type Sources;

    type Output;

    ghost seen: { ProgramView Self.Disk Self.Sources Self.Output };
}

impl<D: Close, S: Sources, W: Write> Kinds for (D, S, W) {
    type Disk = D;

    type Sources = S;

    type Output = W;

    ghost seen = { program_view (closable D.view D.closed) (source_rules S.after S.wakes S.clock) W.contents };
}

/// How a disk is seen and closed, `⟦<D as Closes>⟧.how`, and one that a program is given: `⟦<D as Closes>⟧.given disk`.
pub trait Closes: Close {
    ghost how: { Closable Self };

    ghost given: { Self → GivenDisk Self };
}

impl<D: Close> Closes for D {
    ghost how = { closable D.view D.closed };

    ghost given = { given_disk (closable D.view D.closed) };
}

/// What was said on a stream, from before to after: `⟦<E as Heard>⟧.said errors.old errors.new`.
pub trait Heard: Says {
    ghost said: { Self → Self → Saying Self };
}

impl<E: Says> Heard for E {
    ghost said = { saying E.contents E.tried };
}

/// What was written on an output and said on a stream of errors, each from before to after: `⟦<(W, E) as Both>⟧.streams output.old
/// output.new errors.old errors.new`.
pub trait Both {
    type Output;

    type Errors;

    ghost streams: { Self.Output → Self.Output → Self.Errors → Self.Errors → Streams Self.Output Self.Errors };
}

impl<W: Write, E: Says> Both for (W, E) {
    type Output = W;

    type Errors = E;

    ghost streams = { λ written writes said says. streams (writing W.contents written writes) (saying E.contents E.tried said says) };
}
