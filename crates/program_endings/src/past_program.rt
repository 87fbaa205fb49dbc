//! The programs over what a worksheet was, from its files on: `history`, `show --at`, `export --at`, and what
//! `restore` reads.
ghost use Rattle.std.specs.Prelude.{◌≡◌, List, IfOk};
ghost use Rattle.program_endings.specs.PastProgram.{DiskIsPast, EndsPast, FilesArePast, HistoryEnds, HistoryOf, PastExported, PastShown};
ghost use Rattle.program_endings.specs.Records.{writing};
ghost use Rattle.recovery.specs.Sheets.{Makes};
ghost use Rattle.worksheet.specs.declared.op.Op.{Op};

use crate::ending::{answered, ended};
use crate::export_program::{ExportForm, end_export};
use crate::messages::NoPast;
use crate::seeing::{Both, Closes, Heard};
use crate::telling::no_files;
use crate::{Ending, end_program};
use offline_programs::{RunFault, Says, tell_sheet};
use past::{Listed, PastFault, Unread, list_changes, read_first};
use recovery::Rescued;
use sheet_export::write_in_format;
use sheet_files::{Close, FilesFault};
use std::alloc::Global;
use std::io::Write;

/// Tells on a line why an earlier worksheet can't be had.
pub fn end_past<E: Says>(why: PastFault, errors: &mut E) -> Ending
    ensures { EndsPast (⟦<E as Heard>⟧.said errors.old errors.new) result why }
{
    ended(1, errors.say(&NoPast { why }))
}

/// The worksheet of the first changes on a disk. Where that can't be had the disk is closed.
fn read_disk<D: Close>(alloc: Global, disk: D, count: u64) -> Result<Rescued<D>, PastFault>
    ensures read { DiskIsPast ⟦<D as Closes>⟧.how count disk result }
    ensures made { IfOk result (λ found. (ops : List Op) × Makes ops found.sheet.contents) }
{
    match read_first(alloc, disk, count) {
        Ok(found) => Ok(found),
        Err(Unread { fault, disk }) => {
            disk.close();
            Err(fault)
        }
    }
}

/// The worksheet after its first so many changes, or why that can't be had.
pub fn read_past<D: Close>(
    alloc: Global,
    files: Result<D, FilesFault>,
    count: u64,
) -> Result<Rescued<D>, PastFault>
    ensures read { FilesArePast ⟦<D as Closes>⟧.how count files result }
    ensures made { IfOk result (λ found. (ops : List Op) × Makes ops found.sheet.contents) }
{
    match files {
        Ok(disk) => read_disk(alloc, disk, count),
        Err(why) => Err(PastFault::Run(no_files(why))),
    }
}

/// The end of the program `show` of an earlier worksheet: it goes to `output`, and the line of a fault to
/// `errors`. The disk is closed.
pub fn run_show_past<D: Close, W: Write, E: Says>(
    found: Rescued<D>,
    output: &mut W,
    errors: &mut E,
) -> Ending
    ensures { PastShown D.closed found
        (⟦<(W, E) as Both>⟧.streams output.old output.new errors.old errors.new) result }
{
    let answer = tell_sheet(&found.sheet, output);
    found.disk.close();
    end_program(answered(answer), errors)
}

/// The end of the program `export` of an earlier worksheet: it goes to `output` in this form, and the line of a
/// fault to `errors`. The disk is closed.
pub fn run_export_past<D: Close, W: Write, E: Says>(
    alloc: Global,
    found: Rescued<D>,
    form: &ExportForm<'_>,
    output: &mut W,
    errors: &mut E,
) -> Ending
    ensures { PastExported D.closed found form.now.format form.now.title.now
        (⟦<(W, E) as Both>⟧.streams output.old output.new errors.old errors.new) result }
{
    let answer = write_in_format(alloc, form.format, form.title, &found.sheet, output);
    found.disk.close();
    end_export(answer, errors)
}

/// Lists the changes of a disk, and closes it.
fn list_disk<D: Close, W: Write>(alloc: Global, disk: D, output: &mut W) -> Result<(), RunFault>
    ensures { HistoryOf (⟦<D as Closes>⟧.given disk) (writing W.contents output.old output.new)
        result }
{
    let Listed { disk, answer } = list_changes(alloc, disk, output);
    disk.close();
    answer
}

/// The whole program `history` on its files, or on why they weren't opened: the list of the changes goes to
/// `output`, and the line of a fault to `errors`.
pub fn run_history<D: Close, W: Write, E: Says>(
    alloc: Global,
    files: Result<D, FilesFault>,
    output: &mut W,
    errors: &mut E,
) -> Ending
    ensures { HistoryEnds ⟦<D as Closes>⟧.how files
        (⟦<(W, E) as Both>⟧.streams output.old output.new errors.old errors.new) result }
{
    let answer = match files {
        Ok(disk) => list_disk(alloc, disk, output),
        Err(why) => Err(no_files(why)),
    };
    end_program(answered(answer), errors)
}
