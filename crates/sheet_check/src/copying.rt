//! The copy of a worksheet that is evaluated again.
ghost use Rattle.std.specs.Prelude.{◌≡◌, List, IfSome, IsTrue};
ghost use Rattle.worksheet.specs.declared.op.Op.{Op};
ghost use Rattle.disk_model.specs.Disk.{Leaves, greatest_room};
ghost use Rattle.recovery.specs.Sheets.{IsSheetImage, Makes};
ghost use Rattle.session_engine.specs.World.{World};
ghost use Rattle.session_engine.specs.Host.{IsHost};
ghost use Rattle.sheet_check.specs.Check.{IsCopy};

use disk_model::{Disk, GREATEST_ROOM, MemoryDisk};
use recovery::save;
use session_engine::Host;
use std::alloc::Global;
use worksheet::Sheet;

/// A host on a disk that was made a copy of a worksheet.
fn open_saved<D: Disk>(alloc: Global, disk: D, sheet: &Sheet) -> Option<Host<D>>
    requires made { (ops : List Op) × Makes ops sheet.now.contents }
    requires model { IsTrue (D.view disk).keeps_model }
    requires room { (D.view disk).room ≡ greatest_room }
    requires saved { Leaves (IsSheetImage sheet.now.contents) (D.view disk).history.now }
    ensures { IfSome result (λ host. (w : World) × IsHost host w
        × IsCopy sheet.now.contents w host.store.disk) }
{
    // Only the clauses speak of it.
    let _sheet = sheet;
    match Host::open(alloc, disk) {
        Ok(host) => Some(host),
        Err(_) => None,
    }
}

/// A host on a copy of a worksheet, which is written to a disk in memory of the greatest room. None where
/// memory was refused.
pub(crate) fn open_copy(alloc: Global, sheet: &Sheet) -> Option<Host<MemoryDisk>>
    requires { (ops : List Op) × Makes ops sheet.now.contents }
    ensures { IfSome result (λ host. (w : World) × IsHost host w
        × IsCopy sheet.now.contents w host.store.disk) }
{
    match save(alloc, MemoryDisk::new(alloc, GREATEST_ROOM), sheet) {
        Ok(disk) => open_saved(alloc, disk, sheet),
        Err(_) => None,
    }
}
