//! The worksheet of payloads.
ghost use Rattle.std.specs.Prelude.{◌≡◌, ◌≤◌, [], List, ℕ, IfOk, IfErr, OnErr, OnOk, IsErrOf, MatchResult};
ghost use Rattle.disk_model.specs.Disk.{InModel, Looks, Rises, SameDisk};
ghost use Rattle.worksheet.specs.declared.op.Op.{Op};
ghost use Rattle.journal.specs.Area.{IsPayload};
ghost use Rattle.journal.specs.Limits.{longest_payload};
ghost use Rattle.journal.specs.Opening.{HasGiven};
ghost use Rattle.recovery.specs.Sheets.{Makes};
ghost use Rattle.recovery.specs.inside.Taken.{disk_taken, TakesAll, TakesOps, Refuses, RefusesFrom};

use crate::reading::{DecodeFault, decode, set_in};
use block_tree::Text;
use disk_model::Disk;
use journal::{Journal, Next, OpenCause, OpenFault, Opening, Payload};
use std::alloc::Global;
use worksheet::{SetFault, Sheet};

// Does what the op of a payload says.
fn take_op(alloc: Global, sheet: &mut Sheet, payload: &Payload) -> Result<(), OpenCause>
    requires { IsPayload longest_payload payload.now.bytes }
    ensures taken { (ops : List Op) → Makes ops sheet.old.contents
        → OnOk result (TakesOps ops payload.now.bytes sheet.new.contents) }
    ensures refused { (ops : List Op) → Makes ops sheet.old.contents
        → IfErr result (Refuses ops payload.now) }
    ensures as_before { OnErr result (sheet.new.contents ≡ sheet.old.contents) }
    ensures passing { IsErrOf result OpenCause.Disk → ⊥ }
{
    let op = match decode(alloc, payload.bytes.as_slice()) {
        Ok(op) => op,
        Err(DecodeFault::Unreadable) => return Err(OpenCause::Damaged(payload.gate)),
        Err(DecodeFault::OutOfMemory) => return Err(OpenCause::OutOfMemory),
    };
    if sheet.check(&op).is_err() {
        return Err(OpenCause::Damaged(payload.gate));
    }
    if let Err(_) = sheet.apply(op) {
        return Err(OpenCause::OutOfMemory);
    }
    Ok(())
}

/// Does what a payload says. A payload that is no op's, or whose op is refused, is reported as
/// `Damaged` with its gate, and changes nothing. An input takes the memory of `room`, in which that of
/// the field's earlier one is left: a journal may have many records, and most are of inputs.
pub(crate) fn take(
    alloc: Global,
    sheet: &mut Sheet,
    room: &mut Text,
    payload: &Payload,
) -> Result<(), OpenCause>
    requires { IsPayload longest_payload payload.now.bytes }
    ensures taken { (ops : List Op) → Makes ops sheet.old.contents
        → OnOk result (TakesOps ops payload.now.bytes sheet.new.contents) }
    ensures refused { (ops : List Op) → Makes ops sheet.old.contents
        → IfErr result (Refuses ops payload.now) }
    ensures as_before { OnErr result (sheet.new.contents ≡ sheet.old.contents) }
    ensures passing { IsErrOf result OpenCause.Disk → ⊥ }
{
    let Some((id, input)) = set_in(payload.bytes.as_slice()) else {
        return take_op(alloc, sheet, payload);
    };
    match sheet.set(id, input, room) {
        Ok(()) => Ok(()),
        Err(SetFault::Refused) => Err(OpenCause::Damaged(payload.gate)),
        Err(SetFault::OutOfMemory) => Err(OpenCause::OutOfMemory),
    }
}

/// The journal of an opening that has given nothing, and the worksheet of its payloads. One payload
/// after another is taken, and none is kept.
pub(crate) fn take_all<D: Disk>(
    alloc: Global,
    opening: Opening<D>,
) -> Result<(Journal<D>, Sheet), OpenFault<D>>
    requires { opening.gate ≤ opening.end }
    ensures same { SameDisk opening.disk (disk_taken D.view result) }
    ensures made { IfOk result (λ found. (ops : List Op) × Makes ops found.1.contents) }
    ensures taken { InModel opening.disk
        ((payloads : List (List ℕ)) → HasGiven opening [] payloads
        → IfOk result (λ found. TakesAll payloads found.0 found.1.contents)) }
    ensures refused { InModel opening.disk
        ((payloads : List (List ℕ)) → HasGiven opening [] payloads
        → IfErr result (λ e. RefusesFrom payloads e.cause)) }
    ensures looks { InModel opening.disk
        (Looks opening.disk.history (disk_taken D.view result).history) }
    ensures faulty { IfErr result
        (λ e. e.cause ≡ OpenCause.Disk → Rises opening.disk.faults (D.view e.disk).faults) }
    ensures steady { MatchResult result
        (λ found. found.0.disk.faults ≡ opening.disk.faults)
        (λ e. (e.cause ≡ OpenCause.Disk → ⊥) → (D.view e.disk).faults ≡ opening.disk.faults) }
{
    let mut opening = opening;
    let mut sheet = Sheet::new(alloc);
    let mut room = Text::from_string(String::new(alloc));
    loop {
        match opening.next() {
            Ok(Next::Payload(mut following, payload)) => {
                if let Err(cause) = take(alloc, &mut sheet, &mut room, &payload) {
                    let disk = following.into_disk();
                    return Err(OpenFault { cause, disk });
                }
                following.reuse(payload);
                opening = following;
            }
            Ok(Next::End(journal)) => return Ok((journal, sheet)),
            Err(fault) => return Err(fault),
        }
    }
}
