//! The program `run` over a worksheet's files, in words and without a limit of time, from its files on.
ghost use Rattle.std.specs.Prelude.{◌≡◌, IfErr, IfOk, None, Some};
ghost use Rattle.program_endings.specs.LiveProgram.{LiveEnded};
ghost use Rattle.program_endings.specs.Programs.{EndsUnopened};
ghost use Rattle.program_endings.specs.ScriptProgram as meant;
ghost use Rattle.program_endings.specs.ScriptProgram.{RunsRead, RunsWhole, ScriptEnds, ScriptOpened, script_setting};
ghost use Rattle.program_endings.specs.Passing.{passed, run};

use crate::live_program::{LineSetting, end_live};
use crate::passing::{GivenBack, Resources};
use crate::seeing::{Heard, Kinds};
use crate::strict_program::end_strict;
use crate::telling::no_files;
use crate::{Ending, end_program};
use arrivals::Sources;
use bstr::ByteSlice;
use driver::Stamped;
use live::{LiveLine, Manner, read_live_line};
use offline_programs::{Says, read_input};
use script_agenda::{Ran, RunResources, run_read};
use sheet_files::Close;
use sheet_text::LineFault;
use std::alloc::Global;
use std::io::Read;
use tellings::InWords;

/// Whether a line has a form that `live` has and a script doesn't.
#[tactic(auto, using(crate::proofs::Forms::form_steps))]
fn says_form(alloc: Global, line: &[u8]) -> bool
    ensures { result ≡ meant.says_form line.now }
{
    match read_live_line(alloc, line) {
        Ok(
            LiveLine::PrintField(_)
            | LiveLine::WaitFor(_)
            | LiveLine::Interrupt(_)
            | LiveLine::Export(_)
            | LiveLine::Begin
            | LiveLine::End,
        ) => true,
        Ok(LiveLine::Script(_)) => false,
        // A command, for whose bytes there is no memory, is one of a script.
        Err(LineFault::BadLine | LineFault::OutOfMemory) => false,
    }
}

/// Whether one of a script's lines has such a form.
fn has_form(alloc: Global, script: &[u8]) -> bool
    ensures { result ≡ meant.has_form script.now }
{
    script.lines().any(|line| says_form(alloc, line))
}

/// Takes the lines of a script one by one over the worksheet on a disk, as `live` does it where lines come first.
fn run_by_lines<W: Stamped, E: Says, D: Close, S: Sources>(
    alloc: Global,
    strict: bool,
    script: &[u8],
    outside: RunResources<D, S, W>,
    errors: &mut E,
) -> GivenBack<Ending, S, W>
    ensures { LiveEnded (script_setting strict W.held) (Some script.now)
        (run ⟦<(D, S, W) as Kinds>⟧.seen outside result) (⟦<E as Heard>⟧.said errors.old errors.new)
        result.ending }
{
    let setting = LineSetting {
        alloc,
        manner: Manner {
            lines_first: true,
            limit: None,
            strict,
        },
        tells: InWords,
    };
    let mut lines = script;
    end_live(setting, &mut lines, outside, errors)
}

/// Runs a script over the worksheet on a disk, and closes the disk at the end.
fn run_as_script<W: Stamped, E: Says, D: Close, S: Sources>(
    alloc: Global,
    strict: bool,
    script: &[u8],
    outside: RunResources<D, S, W>,
    errors: &mut E,
) -> GivenBack<Ending, S, W>
    ensures { RunsWhole (script_setting strict W.held) script.now
        (run ⟦<(D, S, W) as Kinds>⟧.seen outside result) (⟦<E as Heard>⟧.said errors.old errors.new)
        result.ending }
{
    let Ran { outside, answer } = run_read(alloc, script, strict, outside);
    let RunResources {
        disk,
        sources,
        output,
    } = outside;
    disk.close();
    GivenBack {
        ending: end_strict(answer, errors),
        sources,
        output,
    }
}

/// The one or the other, by what stands in the script.
fn run_whole<W: Stamped, E: Says, D: Close, S: Sources>(
    alloc: Global,
    strict: bool,
    script: &[u8],
    outside: RunResources<D, S, W>,
    errors: &mut E,
) -> GivenBack<Ending, S, W>
    ensures { RunsRead (script_setting strict W.held) script.now
        (run ⟦<(D, S, W) as Kinds>⟧.seen outside result) (⟦<E as Heard>⟧.said errors.old errors.new)
        result.ending }
{
    if has_form(alloc, script) {
        run_by_lines(alloc, strict, script, outside, errors)
    } else {
        run_as_script(alloc, strict, script, outside, errors)
    }
}

/// Reads a script whole, and runs it over the worksheet on a disk.
fn run_on<R: Read, W: Stamped, E: Says, D: Close, S: Sources>(
    alloc: Global,
    strict: bool,
    input: &mut R,
    outside: RunResources<D, S, W>,
    errors: &mut E,
) -> GivenBack<Ending, S, W>
    ensures { ScriptEnds (script_setting strict W.held) (R.remaining input.old)
        (run ⟦<(D, S, W) as Kinds>⟧.seen outside result) (⟦<E as Heard>⟧.said errors.old errors.new)
        result.ending }
{
    match read_input(alloc, input) {
        Ok(whole) => run_whole(alloc, strict, whole.as_slice(), outside, errors),
        Err(fault) => {
            let RunResources {
                disk,
                sources,
                output,
            } = outside;
            disk.close();
            GivenBack {
                ending: end_program(Err(fault), errors),
                sources,
                output,
            }
        }
    }
}

/// The whole program `run` on its files, or on why they weren't opened, strict or not: the script comes from
/// `input`, which is read whole, and only where there are files, and what its lines give goes to the output, each
/// line or group of commands flushed. The line of a fault goes to `errors`, and so does that of the line after
/// which a strict run stopped. Sources and output are given back.
///
/// A script of which a line has a form that only `live` has (`print ID`, `wait SECONDS`, `interrupt NAME`, `export
/// FORMAT`, `begin`, `end`) is taken line by line, as by [`run_live`](crate::run_live) where lines come first.
pub fn run_script<R: Read, W: Stamped, E: Says, D: Close, S: Sources>(
    alloc: Global,
    strict: bool,
    input: &mut R,
    given: Resources<D, S, W>,
    errors: &mut E,
) -> GivenBack<Ending, S, W>
    // Why there are no files is printed; the input isn't read.
    ensures unopened { IfErr given.files
        (λ why. (input.new ≡ input.old)
        × EndsUnopened (passed ⟦<(D, S, W) as Kinds>⟧.seen given result)
        (⟦<E as Heard>⟧.said errors.old errors.new) result.ending why) }

    ensures files { IfOk given.files
        (ScriptOpened (script_setting strict W.held) (R.remaining input.old)
        (passed ⟦<(D, S, W) as Kinds>⟧.seen given result)
        (⟦<E as Heard>⟧.said errors.old errors.new) result.ending) }
{
    let Resources {
        files,
        sources,
        output,
    } = given;
    match files {
        Ok(disk) => {
            let outside = RunResources {
                disk,
                sources,
                output,
            };
            run_on(alloc, strict, input, outside, errors)
        }
        Err(why) => GivenBack {
            ending: end_program(Err(no_files(why)), errors),
            sources,
            output,
        },
    }
}
