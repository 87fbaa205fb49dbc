//! The program `rescue` over a worksheet's files, from its files on.
ghost use Rattle.std.specs.Prelude.{◌≡◌, ◌≤◌, List, IfErr, IfOk, Result};
ghost use Rattle.program_endings.specs.Programs.{TellsMake};
ghost use Rattle.program_endings.specs.RescueProgram.{DiskIsRead, FilesAreRead, RescueDone, RescueEnds, TellsRescueFault, TellsRescued, rescue_status, said_streams};
ghost use Rattle.recovery.specs.Sheets.{Makes};
ghost use Rattle.worksheet.specs.declared.op.Op.{Op};

use crate::ending::ended;
use crate::programs::end_create;
use crate::seeing::{Closes, Heard};
use crate::telling::no_files;
use crate::{Ending, end_program};
use disk_model::Disk;
use journal::CreateCause;
use offline_programs::{FrontFault, RescueFault, RunFault, Saved, Says, read_front, save_rescued};
use recovery::Rescued;
use sheet_files::{Close, FilesFault, MakeFault};
use std::alloc::Global;

/// What stands on a worksheet's disk before the first damage. Where that can't be had the disk is closed.
fn read_disk<D: Close>(alloc: Global, disk: D) -> Result<Rescued<D>, RunFault>
    ensures read { DiskIsRead ⟦<D as Closes>⟧.how disk result }
    ensures made { IfOk result (λ found. (ops : List Op) × Makes ops found.sheet.contents) }
{
    match read_front(alloc, disk) {
        Ok(found) => Ok(found),
        Err(FrontFault { fault, disk }) => {
            disk.close();
            Err(fault)
        }
    }
}

/// What stands in a worksheet's files before the first damage, or why that can't be had.
pub fn read_rescued<D: Close>(
    alloc: Global,
    files: Result<D, FilesFault>,
) -> Result<Rescued<D>, RunFault>
    ensures read { FilesAreRead ⟦<D as Closes>⟧.how files result }
    ensures made { IfOk result (λ found. (ops : List Op) × Makes ops found.sheet.contents) }
{
    match files {
        Ok(disk) => read_disk(alloc, disk),
        Err(why) => Err(no_files(why)),
    }
}

/// Tells on a line why nothing was rescued.
fn refuse_rescue<E: Says>(why: RescueFault, errors: &mut E) -> Ending
    ensures { (result.status ≡ 1)
        × TellsRescueFault (⟦<E as Heard>⟧.said errors.old errors.new) result.reported why }
{
    match why {
        RescueFault::NotEmpty => end_create(MakeFault::Create(CreateCause::NotEmpty), errors),
        RescueFault::Run(fault) => end_program(Err(fault), errors),
    }
}

/// Ends the program by what the writing of the new worksheet answered.
fn end_rescue<E: Says>(answer: Result<(), RescueFault>, errors: &mut E) -> Ending
    ensures { (result.status ≡ rescue_status answer)
        × TellsRescued (⟦<E as Heard>⟧.said errors.old errors.new) result.reported answer }
{
    match answer {
        Ok(()) => ended(0, true),
        Err(why) => refuse_rescue(why, errors),
    }
}

/// Writes what was rescued to a new disk, closes the disk, and ends the program.
fn rescue_on<D: Disk, N: Close, W: Says, E: Says>(
    alloc: Global,
    found: &Rescued<D>,
    disk: N,
    output: &mut W,
    errors: &mut E,
) -> Ending
    requires room { 11 ≤ (N.view disk).room }
    requires made { (ops : List Op) × Makes ops found.now.sheet.contents }
    ensures { RescueDone (⟦<N as Closes>⟧.given disk) found.now
        (said_streams (⟦<W as Heard>⟧.said output.old output.new)
        (⟦<E as Heard>⟧.said errors.old errors.new)) result }
{
    let Saved { disk, answer } = save_rescued(alloc, found, disk, output);
    disk.close();
    end_rescue(answer, errors)
}

/// Writes what was rescued to the files of its new worksheet, where they were made, and ends the program.
fn rescue_to<D: Disk, N: Close, W: Says, E: Says>(
    alloc: Global,
    found: &Rescued<D>,
    files: Result<N, MakeFault>,
    output: &mut W,
    errors: &mut E,
) -> Ending
    requires room { IfOk files (λ disk. 11 ≤ (N.view disk).room) }
    requires made { (ops : List Op) × Makes ops found.now.sheet.contents }

    ensures no_files { IfErr files
        (λ why. (output.new ≡ output.old) × (result.status ≡ 1)
        × TellsMake (⟦<E as Heard>⟧.said errors.old errors.new) result.reported why) }

    // What becomes of the disk, and what is said of it.
    ensures files { IfOk files
        (λ disk. RescueDone (⟦<N as Closes>⟧.given disk) found.now
        (said_streams (⟦<W as Heard>⟧.said output.old output.new)
        (⟦<E as Heard>⟧.said errors.old errors.new)) result) }
{
    match files {
        Ok(disk) => rescue_on(alloc, found, disk, output, errors),
        Err(why) => end_create(why, errors),
    }
}

/// The end of the program `rescue` on the files of its new worksheet, or on why they weren't made: what
/// was rescued is written there, how much it is goes to `output`, and the line of a fault to `errors`. Last of
/// all the disk that it was rescued from is closed.
pub fn run_rescue<D: Close, N: Close, W: Says, E: Says>(
    alloc: Global,
    found: Rescued<D>,
    files: Result<N, MakeFault>,
    output: &mut W,
    errors: &mut E,
) -> Ending
    requires room { IfOk files (λ disk. 11 ≤ (N.view disk).room) }
    requires made { (ops : List Op) × Makes ops found.sheet.contents }
    ensures { RescueEnds D.closed ⟦<N as Closes>⟧.how files found
        (said_streams (⟦<W as Heard>⟧.said output.old output.new)
        (⟦<E as Heard>⟧.said errors.old errors.new)) result }
{
    let ending = rescue_to(alloc, &found, files, output, errors);
    found.disk.close();
    ending
}
