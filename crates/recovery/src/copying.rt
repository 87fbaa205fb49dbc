//! A worksheet again, in memory.
ghost use Rattle.std.specs.Prelude.{◌≡◌, List, IfOk, IsTrue};
ghost use Rattle.disk_model.specs.Disk.{Leaves};
ghost use Rattle.worksheet.specs.declared.op.Op.{Op};
ghost use Rattle.recovery.specs.Sheets.{IsSheetImage, Makes};

use crate::saving::save;
use crate::store::Store;
use disk_model::{Disk, GREATEST_ROOM, MemoryDisk};
use journal::OutOfMemory;
use std::alloc::Global;
use worksheet::Sheet;

// The worksheet that stands on a disk which was made an image of this one.
fn sheet_on<D: Disk>(alloc: Global, disk: D, sheet: &Sheet) -> Result<Sheet, OutOfMemory>
    requires model { IsTrue (D.view disk).keeps_model }
    requires saved { Leaves (IsSheetImage sheet.now.contents) (D.view disk).history.now }
    ensures { IfOk result (λ copy. copy.contents ≡ sheet.now.contents) }
{
    // Only the clauses speak of it.
    let _sheet = sheet;
    match Store::open(alloc, disk) {
        Ok(store) => Ok(store.into_sheet()),
        Err(_) => Err(OutOfMemory),
    }
}

/// The same worksheet again. It is written to a disk in memory of the greatest room, and read from there.
///
/// Allowed ops must have made the worksheet, as those of a store have.
pub fn copy_sheet(alloc: Global, sheet: &Sheet) -> Result<Sheet, OutOfMemory>
    requires { (ops : List Op) × Makes ops sheet.now.contents }
    ensures { IfOk result (λ copy. copy.contents ≡ sheet.now.contents) }
{
    match save(alloc, MemoryDisk::new(alloc, GREATEST_ROOM), sheet) {
        Ok(disk) => sheet_on(alloc, disk, sheet),
        Err(_) => Err(OutOfMemory),
    }
}
