//! A run of a script over a worksheet on a disk, with its interpreters.
ghost use Rattle.std.specs.Prelude.{◌≡◌, false};
ghost use Rattle.disk_model.specs.Disk.{SameDisk};
ghost use Rattle.driver.specs.Place.{source_rules};
ghost use Rattle.script_agenda.specs.Run as meant;
ghost use Rattle.script_agenda.specs.Run.{RanRead, RanScript, outside, running_rules};
ghost use Rattle.script_agenda.specs.ScriptAt.{ScriptAt, stopped_line};

use crate::by_script::ByScript;
use arrivals::Sources;
use bstr::ByteSlice;
use disk_model::Disk;
use driver::{OverStream, Stamped, Voiced, run_voiced};
use offline_programs::{RunFault, read_input};
use std::alloc::Global;
use std::io::Read;
use tellings::InWords;

/// What is outside of a run: its disk, the sources of all that comes, the interpreters among them, and where it writes.
#[derive(Drop)]
pub struct RunResources<D: Disk, S, W> {
    pub disk: D,
    pub sources: S,
    pub output: W,
}

/// What a run of a script answers, and what it gives back.
#[derive(Drop)]
pub struct Ran<D: Disk, S, W> {
    /// The disk, with what was reported; the sources; and the output.
    pub outside: RunResources<D, S, W>,
    /// The number of the line after which it stopped, where it is strict and did; or why it ended early.
    pub answer: Result<Option<u64>, RunFault>,
}

/// What a run answers, of a script that stopped there, if it did. Where not all of the last text went out, the output failed.
fn answer_after(
    run: Result<(), RunFault>,
    whole: bool,
    stopped: Option<u64>,
) -> Result<Option<u64>, RunFault>
    ensures { (at : ScriptAt) → stopped ≡ stopped_line at
        → result ≡ meant.script_answer run whole at }
{
    if !whole {
        return Err(RunFault::Output);
    }
    match run {
        Ok(()) => Ok(stopped),
        Err(why) => Err(why),
    }
}

/// Runs a script that was read: as `run` does, or strictly, up to the first line that goes wrong. That is one that isn't known, one
/// that is refused, or one by which lines or requests were lost, since an interpreter ended. No line after that is taken.
///
/// Faults are those of `run`, but that there is none of its reader.
pub fn run_read<W: Stamped, D: Disk, S: Sources>(
    alloc: Global,
    script: &[u8],
    strict: bool,
    given: RunResources<D, S, W>,
) -> Ran<D, S, W>
    ensures same { SameDisk (D.view given.disk) (D.view result.outside.disk) }
    ensures ran { RanScript (running_rules (source_rules S.after S.wakes S.clock) W.held) strict
        script.now (outside (D.view given.disk) given.sources (W.contents given.output))
        (outside (D.view result.outside.disk) result.outside.sources
        (W.contents result.outside.output)) result.answer }
{
    let RunResources {
        disk,
        sources,
        output,
    } = given;
    let voiced = Voiced {
        tells: InWords,
        writer: output,
    };
    let agenda = ByScript::new(alloc, script.lines(), strict);
    let OverStream {
        disk,
        sources,
        writer,
        agenda,
        whole,
        answer,
    } = run_voiced(alloc, disk, sources, voiced, agenda);
    let stopped = agenda.stopped_at();
    Ran {
        outside: RunResources {
            disk,
            sources,
            output: writer,
        },
        answer: answer_after(answer, whole, stopped),
    }
}

/// Runs a script over the worksheet on a disk, with its interpreters as children, and writes what its lines give: the replies to a
/// command and to all that comes of it, those of a `wait`, the worksheet at `print`, and `bad line N` where a line isn't known. Lines
/// are numbered from 1. (docs/use/SCRIPT.md has the lines, docs/dev/EDGE.md what comes of a command and of a wait.)
///
/// The script is read whole before the disk is opened. Commands one after another that only change the worksheet are taken together,
/// up to 65,536 of them or 1 MiB of lines: all that they give is durable at once, and then their replies are written and flushed. What
/// any other event gives is durable before its effect is carried out, and written and flushed then. So whoever reads `ok` can rely on it. At
/// the end of the script, and at a fault, each life that goes on is stopped, in the order in which their sessions were made, and
/// nothing is written of that.
///
/// `Input` where the reader fails, an interruption included, `InputTooLong` where it gives more than `LONGEST_STANDARD_INPUT` bytes,
/// `Open` where the disk isn't opened: nothing was written, and no child was called. `Host` where the host has a fault, and
/// `OutOfMemory`: what was returned before is written and no more, and nothing of commands that were taken together when the disk failed.
/// `Output` where the writer fails, a flush included: a part of the last text may have gone out, and no clause says what is written then.
pub fn run<R: Read, W: Stamped, D: Disk, S: Sources>(
    alloc: Global,
    reader: &mut R,
    given: RunResources<D, S, W>,
) -> Ran<D, S, W>
    ensures same { SameDisk (D.view given.disk) (D.view result.outside.disk) }
    ensures ran { RanRead (running_rules (source_rules S.after S.wakes S.clock) W.held)
        (R.remaining reader.old) (outside (D.view given.disk) given.sources
        (W.contents given.output))
        (outside (D.view result.outside.disk) result.outside.sources
        (W.contents result.outside.output)) result.answer }
{
    match read_input(alloc, reader) {
        Ok(script) => run_read(alloc, script.as_slice(), false, given),
        Err(fault) => Ran {
            outside: given,
            answer: Err(fault),
        },
    }
}
