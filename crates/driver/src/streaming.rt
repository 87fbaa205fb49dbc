//! A program over a disk that prints with a voice on a stream.
ghost use Rattle.std.specs.Prelude.{true};
ghost use Rattle.disk_model.specs.Disk.{SameDisk};
ghost use Rattle.driver.specs.Noted.{noting_rules, printed_so_far};
ghost use Rattle.driver.specs.Place.{agenda_rules, rules, source_rules};
ghost use Rattle.driver.specs.Over.{Over as IsOver, program_parts};

use crate::agenda::Agenda;
use crate::noting::Noting;
use crate::over::{Over, run_over};
use crate::stamped::Stamped;
use crate::voiced::Voiced;
use arrivals::Sources;
use disk_model::Disk;
use offline_programs::RunFault;
use std::alloc::Global;
use tellings::Tells;

/// What such a program gives back, and what it came to.
pub struct OverStream<D, S, W, A> {
    pub disk: D,
    pub sources: S,
    pub writer: W,
    pub agenda: A,
    /// Whether all of the text went out that was tried last.
    pub whole: bool,
    /// Why it ended early, where it did.
    pub answer: Result<(), RunFault>,
}

/// Runs a program over a disk as [`run_over`](crate::run_over) does, and prints with a voice on a stream, which is stamped before each text.
pub fn run_voiced<D: Disk, S: Sources, T: Tells + Copy, W: Stamped, A: Agenda>(
    alloc: Global,
    disk: D,
    sources: S,
    voiced: Voiced<T, W>,
    agenda: A,
) -> OverStream<D, S, W, A>
    ensures same { SameDisk (D.view disk) (D.view result.disk) }
    ensures over { IsOver (rules (agenda_rules A.rules A.joins)
        (source_rules S.after S.wakes S.clock) (noting_rules T.voice W.held))
        (program_parts (D.view disk) sources (printed_so_far (W.contents voiced.writer) true)
        agenda)
        (program_parts (D.view result.disk) result.sources (printed_so_far
        (W.contents result.writer) result.whole) result.agenda) result.answer }
{
    let sink = Noting {
        sink: voiced,
        whole: true,
    };
    let Over {
        disk,
        sources,
        sink,
        agenda,
        answer,
    } = run_over(alloc, disk, sources, sink, agenda);
    let Noting {
        sink: Voiced { tells: _, writer },
        whole,
    } = sink;
    OverStream {
        disk,
        sources,
        writer,
        agenda,
        whole,
        answer,
    }
}
