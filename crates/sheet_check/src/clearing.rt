//! The copy of a worksheet on which the fields that are checked show nothing.
ghost use Rattle.std.specs.Prelude.{◌≡◌, ◌++◌, IfOk, IfSome, IsTrue, List, OnOk, true};
ghost use Rattle.worksheet.specs.declared.op.Op.{Op};
ghost use Rattle.disk_model.specs.Disk.{Leaves};
ghost use Rattle.recovery.specs.Sheets.{IsSheetImage, Makes};
ghost use Rattle.session_engine.specs.World.{World};
ghost use Rattle.session_engine.specs.Host.{IsHost};
ghost use Rattle.sheet_check.specs.Check.{IsCopy};
ghost use Rattle.sheet_check.specs.Together as together;

use crate::copying::open_copy;
use check_report::Chosen;
use disk_model::{Disk, GREATEST_ROOM, MemoryDisk};
use recovery::{Store, save};
use session_engine::Host;
use std::alloc::{AllocError, Global};
use worksheet::{Op, Sheet};

/// Clears the field with this number, where the worksheet has one. Whether that was done.
fn clear_field<D: Disk>(store: &mut Store<D>, id: u32) -> bool
    ensures { result ≡ true → store.new.sheet.contents
        ≡ together.cleared_if (together.refusal_of store.old.sheet.contents id)
        store.old.sheet.contents id }
{
    worksheet::laws::sheet_after();
    let clear = Op::Clear { id };
    match store.sheet().check(&clear) {
        Ok(()) => store.commit(clear).is_ok(),
        Err(_) => true,
    }
}

/// Clears the field with this number where it is checked, and leaves any other. Whether that was done.
fn clear_chosen<D: Disk>(store: &mut Store<D>, is_chosen: bool, id: u32) -> bool
    ensures { result ≡ true → store.new.sheet.contents
        ≡ together.cleared_at is_chosen store.old.sheet.contents id }
{
    if is_chosen {
        clear_field(store, id)
    } else {
        true
    }
}

/// Clears the fields of a worksheet that are checked, one after another. Whether that was done.
fn clear_fields<D: Disk>(store: &mut Store<D>, chosen: &Chosen, sheet: &Sheet) -> bool
    ensures { result ≡ true → store.new.sheet.contents
        ≡ together.cleared chosen.now sheet.now.contents.fields store.old.sheet.contents }
{
    let mut fields = sheet.fields();
    while let Some(field) = fields.next() {
        if !clear_chosen(store, chosen.has(field), field.id) {
            return false;
        }
    }
    true
}

/// A store on a disk that was made a copy of a worksheet.
fn store_saved<D: Disk>(alloc: Global, disk: D, sheet: &Sheet) -> Option<Store<D>>
    requires model { IsTrue (D.view disk).keeps_model }
    requires saved { Leaves (IsSheetImage sheet.now.contents) (D.view disk).history.now }
    ensures { IfSome result (λ store. store.sheet.contents ≡ sheet.now.contents) }
{
    // Only the clauses speak of it.
    let _sheet = sheet;
    match Store::open(alloc, disk) {
        Ok(store) => Some(store),
        Err(_) => None,
    }
}

/// A store on a copy of a worksheet in memory. None where memory was refused.
fn store_copy(alloc: Global, sheet: &Sheet) -> Option<Store<MemoryDisk>>
    requires { (ops : List Op) × Makes ops sheet.now.contents }
    ensures { IfSome result (λ store. store.sheet.contents ≡ sheet.now.contents) }
{
    match save(alloc, MemoryDisk::new(alloc, GREATEST_ROOM), sheet) {
        Ok(disk) => store_saved(alloc, disk, sheet),
        Err(_) => None,
    }
}

/// A host on a copy of a worksheet on which the fields that are checked show nothing. None where memory was
/// refused.
pub(crate) fn open_cleared(
    alloc: Global,
    chosen: &Chosen,
    sheet: &Sheet,
) -> Option<Host<MemoryDisk>>
    requires { (ops : List Op) × Makes ops sheet.now.contents }
    ensures { IfSome result (λ host. (w : World) × IsHost host w
        × IsCopy (together.cleared chosen.now sheet.now.contents.fields sheet.now.contents) w
        host.store.disk) }
{
    let Some(mut store) = store_copy(alloc, sheet) else {
        return None;
    };
    if clear_fields(&mut store, chosen, sheet) {
        open_copy(alloc, store.sheet())
    } else {
        None
    }
}

/// Puts the number of a field that is checked after others.
fn put_chosen(ids: &mut Vec<u32>, is_chosen: bool, id: u32) -> Result<(), AllocError>
    ensures { OnOk result (ids.new.items ≡ ids.old.items ++ together.id_of_chosen is_chosen id) }
{
    if is_chosen {
        ids.push(id)?;
    }
    Ok(())
}

/// The numbers of the fields of a worksheet that are checked.
pub(crate) fn checked_ids(
    alloc: Global,
    chosen: &Chosen,
    sheet: &Sheet,
) -> Result<Vec<u32>, AllocError>
    ensures { IfOk result (λ ids. ids.items ≡ together.checked_ids chosen.now
        sheet.now.contents.fields) }
{
    let mut ids = Vec::new(alloc);
    let mut fields = sheet.fields();
    while let Some(field) = fields.next() {
        put_chosen(&mut ids, chosen.has(field), field.id)?;
    }
    Ok(ids)
}
