//! The program `export` over a worksheet's files, from its files on.
ghost use Rattle.std.specs.Prelude.{◌≡◌};
ghost use Rattle.program_endings.specs.ExportProgram.{ExportEnds, ExportedFrom, TellsExported, export_status};
ghost use Rattle.program_endings.specs.Records.{writing};

use crate::Ending;
use crate::ending::ended;
use crate::messages::NotExported;
use crate::seeing::{Both, Closes, Heard};
use crate::telling::no_files;
use offline_programs::Says;
use sheet_export::{ExportFault, Exported, Format, export};
use sheet_files::{Close, FilesFault};
use std::alloc::Global;
use std::io::Write;

/// In which format a worksheet is written, and with which title, where the format has one.
#[derive(Clone, Copy)]
pub struct ExportForm<'a> {
    pub format: Format,
    pub title: &'a [u8],
}

/// Writes the worksheet of a disk in this form, and closes the disk at the end.
fn export_disk<D: Close, W: Write>(
    alloc: Global,
    disk: D,
    form: &ExportForm<'_>,
    output: &mut W,
) -> Result<(), ExportFault>
    ensures { ExportedFrom (⟦<D as Closes>⟧.given disk) form.now.format form.now.title.now
        (writing W.contents output.old output.new) result }
{
    let Exported { disk, answer } = export(alloc, form.format, disk, form.title, output);
    disk.close();
    answer
}

/// Ends the program by what an export answered.
pub(crate) fn end_export<E: Says>(answer: Result<(), ExportFault>, errors: &mut E) -> Ending
    ensures { (result.status ≡ export_status answer)
        × TellsExported (⟦<E as Heard>⟧.said errors.old errors.new) result.reported answer }
{
    match answer {
        Ok(()) => ended(0, true),
        Err(fault) => ended(1, errors.say(&NotExported { why: fault })),
    }
}

/// The whole program `export` on its files, or on why they weren't opened: the worksheet goes to
/// `output` in this form, and the line of a fault to `errors`.
pub fn run_export<D: Close, W: Write, E: Says>(
    alloc: Global,
    files: Result<D, FilesFault>,
    form: &ExportForm<'_>,
    output: &mut W,
    errors: &mut E,
) -> Ending
    ensures { ExportEnds ⟦<D as Closes>⟧.how files form.now.format form.now.title.now
        (⟦<(W, E) as Both>⟧.streams output.old output.new errors.old errors.new) result }
{
    let answer = match files {
        Ok(disk) => export_disk(alloc, disk, form, output),
        Err(why) => Err(ExportFault::Run(no_files(why))),
    };
    end_export(answer, errors)
}
