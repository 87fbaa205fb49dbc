//! The programs `live`, `run --json` and `run --timeout` over a worksheet's files, from its files on.
ghost use Rattle.std.specs.Prelude.{◌≡◌, ◌&&◌, Err, IfErr, IfOk, Ok, true};
ghost use Rattle.line_agenda.specs.LinesAt.{LinesAt, stopped_at};
ghost use Rattle.arrivals.specs.Held.{nothing_held};
ghost use Rattle.program_endings.specs.Ending.{TellsFault, status_of};
ghost use Rattle.program_endings.specs.LiveProgram as meant;
ghost use Rattle.program_endings.specs.LiveProgram.{EndsFaulted, EndsFramed, FaultReported, LastReported, LiveAnswer, LiveBegun, LiveEnded, LiveOpened, LiveUnopened, LivedEnds, LivesOn, live_setting};
ghost use Rattle.program_endings.specs.Records.{writing};
ghost use Rattle.program_endings.specs.StrictProgram.{TellsStop, strict_status};
ghost use Rattle.program_endings.specs.Passing.{passed, run, run_so_far};

use crate::passing::{Completed, GivenBack, Resources};
use crate::seeing::{Heard, Kinds};
use crate::strict_program::end_strict;
use crate::telling::no_files;
use crate::{Ending, end_program};
use arrivals::{InputLines, Sources};
use driver::{OverStream, Stamped, Voiced, run_voiced};
use line_agenda::ByLines;
use live::Manner;
use offline_programs::{RunFault, Says};
use script_agenda::RunResources;
use sheet_files::Close;
use std::alloc::Global;
use std::io::{Read, Write};
use tellings::{Boundary, Tells};

/// How the lines of an input are taken, and how what comes of them is printed.
#[derive(Clone, Copy)]
pub struct LineSetting<T> {
    /// Where memory is taken from.
    pub alloc: Global,
    pub manner: Manner,
    /// The voice of what is printed.
    pub tells: T,
}

/// What a run of lines answered: the number of the line after which a strict one stopped, if it did.
type Lived<S, W> = Completed<Result<Option<u64>, RunFault>, S, W>;

/// A fault is printed last.
fn with_fault<S, W: Write, T: Tells + Copy>(
    why: RunFault,
    tells: T,
    mut output: W,
    sources: S,
) -> Lived<S, W>
    ensures answer { result.answer ≡ Err why }
    ensures last { FaultReported T.voice W.contents output result.output result.whole why }
    ensures sources { result.sources ≡ sources }
{
    let whole = tells.fault(why, &mut output);
    Completed {
        answer: Err(why),
        whole,
        sources,
        output,
    }
}

/// Whether a run prints a fault itself.
pub(crate) fn is_printed(why: RunFault) -> bool
    ensures { result ≡ meant.is_printed why }
{
    match why {
        RunFault::Output | RunFault::Open(_) => false,
        RunFault::Input
        | RunFault::InputTooLong
        | RunFault::OutOfMemory
        | RunFault::Host(_)
        | RunFault::InUse
        | RunFault::SecondFile => true,
    }
}

/// What a program answers after a run of lines that stopped there, if they did.
fn answer_after(run: Result<(), RunFault>, stopped: Option<u64>) -> Result<Option<u64>, RunFault>
    ensures { (lines : LinesAt) → stopped ≡ stopped_at lines
        → result ≡ meant.answer_after run lines }
{
    match run {
        Ok(()) => Ok(stopped),
        Err(why) => Err(why),
    }
}

/// Runs over a disk with these lines, and closes the disk at the end.
fn live_on<R: Read, W: Stamped, D: Close, S: Sources, T: Tells + Copy>(
    setting: LineSetting<T>,
    lines: InputLines<R>,
    outside: RunResources<D, S, W>,
) -> Lived<S, W>
where
    R: Drop,
    requires { lines.held ≡ nothing_held }
    ensures { LivesOn (live_setting setting.manner T.voice W.held) (R.remaining lines.reader)
        (run_so_far ⟦<(D, S, W) as Kinds>⟧.seen outside result) result.whole result.answer }
{
    let voiced = Voiced {
        tells: setting.tells,
        writer: outside.output,
    };
    let agenda = ByLines::new(setting.alloc, setting.manner, lines);
    let OverStream {
        disk,
        sources,
        writer,
        agenda,
        whole,
        answer,
    } = run_voiced(setting.alloc, outside.disk, outside.sources, voiced, agenda);
    disk.close();
    let stopped = agenda.stopped_at();
    Completed {
        answer: answer_after(answer, stopped),
        whole,
        sources,
        output: writer,
    }
}

/// Prints the voice's last message, after which a strict input may have stopped.
fn with_end<S, W: Write, T: Tells + Copy>(
    stopped: Option<u64>,
    tells: T,
    mut output: W,
    sources: S,
) -> Lived<S, W>
    ensures ended { EndsFramed T.voice (writing W.contents output result.output) result.whole
        stopped result.answer }
    ensures sources { result.sources ≡ sources }
{
    match tells.frame(Boundary::End, &mut output) {
        Ok(()) => Completed {
            answer: Ok(stopped),
            whole: true,
            sources,
            output,
        },
        Err(why) => with_fault(why, tells, output, sources),
    }
}

/// Prints a fault last, where the run didn't, of whose last text this is known.
fn with_run_fault<S, W: Write, T: Tells + Copy>(
    why: RunFault,
    whole: bool,
    tells: T,
    output: W,
    sources: S,
) -> Lived<S, W>
    ensures answer { result.answer ≡ Err why }
    ensures ended { EndsFaulted T.voice (writing W.contents output result.output) whole result.whole
        why }
    ensures sources { result.sources ≡ sources }
{
    if is_printed(why) {
        return Completed {
            answer: Err(why),
            whole,
            sources,
            output,
        };
    }
    with_fault(why, tells, output, sources)
}

/// Prints what stands last after a run.
fn end_lived<S, W: Write, T: Tells + Copy>(lived: Lived<S, W>, tells: T) -> Lived<S, W>
    ensures ended { LivedEnds T.voice (writing W.contents lived.output result.output) lived.answer
        lived.whole result.whole result.answer }
    ensures sources { result.sources ≡ lived.sources }
{
    let Completed {
        answer,
        whole,
        sources,
        output,
    } = lived;
    match answer {
        Ok(stopped) => with_end(stopped, tells, output, sources),
        Err(why) => with_run_fault(why, whole, tells, output, sources),
    }
}

/// Runs over a disk with these lines, and prints what stands last.
fn live_lines<R: Read, W: Stamped, D: Close, S: Sources, T: Tells + Copy>(
    setting: LineSetting<T>,
    lines: InputLines<R>,
    outside: RunResources<D, S, W>,
) -> Lived<S, W>
where
    R: Drop,
    requires { lines.held ≡ nothing_held }
    ensures { LiveBegun (live_setting setting.manner T.voice W.held) (R.remaining lines.reader)
        (run_so_far ⟦<(D, S, W) as Kinds>⟧.seen outside result) result.whole result.answer }
{
    let tells = setting.tells;
    end_lived(live_on(setting, lines, outside), tells)
}

/// Runs over a disk with the lines of an input, and prints what stands last.
fn live_read<R: Read, W: Stamped, D: Close, S: Sources, T: Tells + Copy>(
    setting: LineSetting<T>,
    input: &mut R,
    outside: RunResources<D, S, W>,
) -> Lived<S, W>
    ensures { LiveBegun (live_setting setting.manner T.voice W.held) (R.remaining input.old)
        (run_so_far ⟦<(D, S, W) as Kinds>⟧.seen outside result) result.whole result.answer }
{
    match InputLines::new(setting.alloc, input) {
        Ok(lines) => live_lines(setting, lines, outside),
        Err(_) => {
            outside.disk.close();
            with_fault(
                RunFault::OutOfMemory,
                setting.tells,
                outside.output,
                outside.sources,
            )
        }
    }
}

/// Writes the voice's first message, goes on live, and prints what stands last.
fn live_framed<R: Read, W: Stamped, D: Close, S: Sources, T: Tells + Copy>(
    setting: LineSetting<T>,
    input: &mut R,
    mut outside: RunResources<D, S, W>,
) -> Lived<S, W>
    ensures { LiveAnswer (live_setting setting.manner T.voice W.held) (R.remaining input.old)
        (run_so_far ⟦<(D, S, W) as Kinds>⟧.seen outside result) result.whole result.answer }
{
    match setting.tells.frame(Boundary::Hello, &mut outside.output) {
        Ok(()) => live_read(setting, input, outside),
        Err(why) => {
            outside.disk.close();
            with_fault(why, setting.tells, outside.output, outside.sources)
        }
    }
}

/// Tells a fault last, and whether all went out.
fn tell_last<A: Copy, W: Write, T: Tells>(
    answer: Result<A, RunFault>,
    tells: &T,
    output: &mut W,
) -> bool
    ensures { LastReported T.voice W.contents output.old output.new result answer }
{
    match answer {
        Ok(_) => true,
        Err(fault) => tells.fault(fault, output),
    }
}

/// This ending, as one that was reported only where what stands last went out.
pub(crate) fn with_last(ending: Ending, said: bool) -> Ending
    ensures { result ≡ record { status = ending.status; reported = ending.reported && said } }
{
    Ending {
        status: ending.status,
        reported: ending.reported && said,
    }
}

/// Ends the program by what it answered: a fault is printed on standard error, and on standard output where
/// its voice has it.
pub(crate) fn end_reported<W: Write, E: Says, T: Tells>(
    answer: Result<bool, RunFault>,
    tells: &T,
    output: &mut W,
    errors: &mut E,
) -> Ending
    ensures last { LastReported T.voice W.contents output.old output.new result.reported answer }
    ensures status { result.status ≡ status_of answer }
    ensures reported { TellsFault (⟦<E as Heard>⟧.said errors.old errors.new) result.reported
        answer }
{
    let said = tell_last(answer, tells, output);
    with_last(end_program(answer, errors), said)
}

/// Ends the program by what it answered, where its last text went out or didn't: a fault, or the number of the line after which it
/// stopped, is printed on standard error.
fn end_stopped<E: Says>(answer: Result<Option<u64>, RunFault>, said: bool, errors: &mut E) -> Ending
    ensures last { result.reported ≡ true → said ≡ true }
    ensures status { result.status ≡ strict_status answer }
    ensures reported { TellsStop (⟦<E as Heard>⟧.said errors.old errors.new) result.reported
        answer }
{
    with_last(end_strict(answer, errors), said)
}

/// Holds the worksheet on a disk open, and tells the fault, or where it stopped.
pub(crate) fn end_live<R: Read, W: Stamped, E: Says, D: Close, S: Sources, T: Tells + Copy>(
    setting: LineSetting<T>,
    input: &mut R,
    outside: RunResources<D, S, W>,
    errors: &mut E,
) -> GivenBack<Ending, S, W>
    ensures { LiveEnded (live_setting setting.manner T.voice W.held) (R.remaining input.old)
        (run ⟦<(D, S, W) as Kinds>⟧.seen outside result) (⟦<E as Heard>⟧.said errors.old errors.new)
        result.ending }
{
    let Completed {
        answer,
        whole,
        sources,
        output,
    } = live_framed(setting, input, outside);
    GivenBack {
        ending: end_stopped(answer, whole, errors),
        sources,
        output,
    }
}

/// The whole program `live`, or `run` line by line where lines come first, on its files, or on why they weren't
/// opened: its lines come from `input`, which is read only where there are files, and what comes of them and
/// of interpreters goes to the output, flushed at once. The line of a fault goes to `errors`, and so does that of
/// the line after which a strict input stopped. Sources and output are given back.
pub fn run_live<R: Read, W: Stamped, E: Says, D: Close, S: Sources, T: Tells + Copy>(
    setting: LineSetting<T>,
    input: &mut R,
    given: Resources<D, S, W>,
    errors: &mut E,
) -> GivenBack<Ending, S, W>
    // It is printed before a line is read.
    ensures unopened { IfErr given.files
        (λ why. (input.new ≡ input.old)
        × LiveUnopened T.voice (passed ⟦<(D, S, W) as Kinds>⟧.seen given result)
        (⟦<E as Heard>⟧.said errors.old errors.new) result.ending why) }

    ensures files { IfOk given.files
        (LiveOpened (live_setting setting.manner T.voice W.held) (R.remaining input.old)
        (passed ⟦<(D, S, W) as Kinds>⟧.seen given result)
        (⟦<E as Heard>⟧.said errors.old errors.new) result.ending) }
{
    let Resources {
        files,
        sources,
        mut output,
    } = given;
    match files {
        Ok(disk) => {
            let outside = RunResources {
                disk,
                sources,
                output,
            };
            end_live(setting, input, outside, errors)
        }
        Err(why) => GivenBack {
            ending: end_reported(Err(no_files(why)), &setting.tells, &mut output, errors),
            sources,
            output,
        },
    }
}
