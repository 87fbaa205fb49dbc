//! A worksheet in print.
ghost use Rattle.std.specs.Prelude.{◌≡◌, IfErr, IsErrOf, OnOk};
ghost use Rattle.std.specs.Io.KnownBytes.{Appends};
ghost use Rattle.disk_model.specs.Disk.{InModel, Looks, Rises, SameDisk, bytes_on};
ghost use Rattle.worksheet.specs.Contents.{Contents};
ghost use Rattle.recovery.specs.Sheets.{IsSheetImage};
ghost use Rattle.sheet_text.specs.Texts as printed;
ghost use Rattle.offline_programs.specs.Faults.{TellsShow};
ghost use Rattle.offline_programs.specs.declared.fault.RunFault.TheVariants as reported;
ghost use Rattle.journal.specs.declared.opening.OpenCause.TheVariants as opens;

use crate::RunFault;
use crate::writing::tell_sheet;
use disk_model::Disk;
use journal::OpenFault;
use recovery::Store;
use std::alloc::Global;
use std::io::Write;

/// What `show` answers, and the disk that it was given.
#[derive(Drop)]
pub struct Shown<D: Disk> {
    /// The disk, on which reads alone were made.
    pub disk: D,
    /// Nothing, or why the worksheet wasn't written.
    pub answer: Result<(), RunFault>,
}

/// Writes the worksheet that a disk stands for, as `print` does. The disk is only read: no byte of it changes.
///
/// `Open` where the disk isn't opened: nothing was written. `Output` where the writer fails: a part
/// of the text may have gone out.
pub fn show<D: Disk, W: Write>(alloc: Global, disk: D, writer: &mut W) -> Shown<D>
    ensures shown { InModel (D.view disk) ((sheet : Contents)
        → IsSheetImage sheet (bytes_on (D.view disk))
        → OnOk result.answer
        (Appends (W.contents writer.old) (W.contents writer.new) (printed.sheet_text sheet))) }
    ensures found { InModel (D.view disk) (OnOk result.answer ((sheet : Contents)
        × IsSheetImage sheet (bytes_on (D.view disk)))) }
    ensures fault { IfErr result.answer (TellsShow (D.view disk) (writer.new ≡ writer.old)) }

    // It changes no byte, and at every moment each image is one that a crash could leave at the start.
    ensures same { SameDisk (D.view disk) (D.view result.disk) }
    ensures looks { InModel (D.view disk)
        (Looks (D.view disk).history (D.view result.disk).history) }

    // That the disk failed is reported only where it did.
    ensures failed { IsErrOf result.answer (reported.Open opens.Disk)
        → Rises (D.view disk).faults (D.view result.disk).faults }

    // Where anything else is answered, no call of the disk failed.
    ensures steady { (IsErrOf result.answer (reported.Open opens.Disk) → ⊥)
        → (D.view result.disk).faults ≡ (D.view disk).faults }
{
    match Store::open(alloc, disk) {
        Ok(store) => {
            let answer = tell_sheet(store.sheet(), writer);
            Shown {
                disk: store.into_disk(),
                answer,
            }
        }
        Err(OpenFault { cause, disk }) => Shown {
            disk,
            answer: Err(RunFault::Open(cause)),
        },
    }
}
