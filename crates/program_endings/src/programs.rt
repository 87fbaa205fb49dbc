//! The programs over a worksheet's files, from their files on: how each ends, and what it says on
//! which stream.
ghost use Rattle.std.specs.Prelude.{◌≡◌, ◌≤◌, IfErr, IfOk};
ghost use Rattle.program_endings.specs.Programs.{CreateEnds, ShowEnds, ShownOf, TellsMake};
ghost use Rattle.program_endings.specs.Records.{writing};

use crate::ending::{answered, ended};
use crate::messages::NotMade;
use crate::seeing::{Both, Closes, Heard};
use crate::telling::no_files;
use crate::{Ending, end_program};
use child_calls::Children;
use offline_programs::{RunFault, Says, Shown, show};
use sheet_files::{Close, FilesFault, MakeFault};
use std::alloc::Global;
use std::io::Write;

/// Tells on a line why no worksheet was made.
pub(crate) fn end_create<E: Says>(why: MakeFault, errors: &mut E) -> Ending
    ensures { (result.status ≡ 1)
        × TellsMake (⟦<E as Heard>⟧.said errors.old errors.new) result.reported why }
{
    ended(1, errors.say(&NotMade { why }))
}

/// Lays an empty worksheet on a disk, closes the disk, and tells where that failed why.
fn create_on<D: Close, E: Says>(disk: D, errors: &mut E) -> Ending
    requires { 11 ≤ (D.view disk).room }
    ensures { CreateEnds (⟦<D as Closes>⟧.given disk) (⟦<E as Heard>⟧.said errors.old errors.new)
        result }
{
    match journal::create(disk) {
        Ok(made) => {
            made.close();
            ended(0, true)
        }
        Err(fault) => {
            fault.disk.close();
            end_create(MakeFault::Create(fault.cause), errors)
        }
    }
}

/// The whole program `create` on its files, or on why they weren't made: lays an empty worksheet,
/// and tells on a line of `errors` why there is none.
pub fn run_create<D: Close, E: Says>(files: Result<D, MakeFault>, errors: &mut E) -> Ending
    requires { IfOk files (λ disk. 11 ≤ (D.view disk).room) }

    ensures no_files { IfErr files
        (λ why. (result.status ≡ 1)
        × TellsMake (⟦<E as Heard>⟧.said errors.old errors.new) result.reported why) }

    // What becomes of the disk, and what is said of it.
    ensures files { IfOk files
        (λ disk. CreateEnds (⟦<D as Closes>⟧.given disk) (⟦<E as Heard>⟧.said errors.old errors.new)
        result) }
{
    match files {
        Ok(disk) => create_on(disk, errors),
        Err(why) => end_create(why, errors),
    }
}

/// Writes the worksheet of a disk, and closes the disk at the end.
fn show_disk<D: Close, W: Write>(alloc: Global, disk: D, output: &mut W) -> Result<bool, RunFault>
    ensures { ShownOf (⟦<D as Closes>⟧.given disk) (writing W.contents output.old output.new)
        result }
{
    let Shown { disk, answer } = show(alloc, disk, output);
    disk.close();
    answered(answer)
}

/// The whole program `show` on its files, or on why they weren't opened: the worksheet goes to
/// `output`, and the line of a fault to `errors`.
pub fn run_show<D: Close, W: Write, E: Says>(
    alloc: Global,
    files: Result<D, FilesFault>,
    output: &mut W,
    errors: &mut E,
) -> Ending
    ensures { ShowEnds ⟦<D as Closes>⟧.how files
        (⟦<(W, E) as Both>⟧.streams output.old output.new errors.old errors.new) result }
{
    let answer = match files {
        Ok(disk) => show_disk(alloc, disk, output),
        Err(why) => Err(no_files(why)),
    };
    end_program(answer, errors)
}
