//! The worksheet of the first changes of a journal.
ghost use Rattle.std.specs.Prelude.{◌≡◌, ◌≤◌, [], List, ℕ, length, IfErr, IfOk, IsErrOf, MatchResult, OnErr, OnOk};
ghost use Rattle.disk_model.specs.Disk.{InModel, Looks, Rises, SameDisk, bytes_on, greatest_room};
ghost use Rattle.journal.specs.Area.{IsPayload, first_gate};
ghost use Rattle.journal.specs.Front.{HasGivenFront};
ghost use Rattle.journal.specs.Limits.{longest_payload};
ghost use Rattle.journal.specs.Open.{IsPassing};
ghost use Rattle.past.specs.Earlier.{FirstAreRead, answer_read, disk_read};
ghost use Rattle.past.specs.inside.First.{FindsFirst, lack};
ghost use Rattle.past.specs.declared.fault.PastFault.TheVariants as past;
ghost use Rattle.offline_programs.specs.declared.fault.RunFault.TheVariants as reported;
ghost use Rattle.recovery.specs.Rescued.{disk_rescued};
ghost use Rattle.recovery.specs.Sheets.{Makes};
ghost use Rattle.recovery.specs.inside.Taken.{Refuses, TakesOps};
ghost use Rattle.worksheet.specs.declared.op.Op.{Op};

use crate::PastFault;
use crate::changes::{do_op, op_of};
use disk_model::Disk;
use journal::{Front, InFront, OpenCause, OpenFault, Payload};
use offline_programs::RunFault;
use recovery::{Rescued, end_rescue, longest_rescue};
use std::alloc::Global;
use worksheet::Sheet;

/// Why so many changes weren't read, and the disk.
#[derive(Drop)]
pub struct Unread<D: Disk> {
    /// Why they weren't read.
    pub fault: PastFault,
    /// The disk, on which reads alone were made.
    pub disk: D,
}

/// Does what a payload says, or tells why it isn't taken.
fn take(alloc: Global, sheet: &mut Sheet, payload: &Payload) -> Result<(), OpenCause>
    requires { IsPayload longest_payload payload.now.bytes }
    ensures taken { (ops : List Op) → Makes ops sheet.old.contents
        → OnOk result (TakesOps ops payload.now.bytes sheet.new.contents) }
    ensures refused { (ops : List Op) → Makes ops sheet.old.contents
        → IfErr result (Refuses ops payload.now) }
    ensures as_before { OnErr result (sheet.new.contents ≡ sheet.old.contents) }
    ensures passing { IsErrOf result OpenCause.Disk → ⊥ }
{
    match op_of(alloc, sheet, payload) {
        Ok(op) => do_op(sheet, op),
        Err(cause) => Err(cause),
    }
}

/// Takes so many payloads of a front that has given nothing, or those before the first damage where these
/// are fewer.
fn take_first<D: Disk>(
    alloc: Global,
    front: Front<D>,
    count: u64,
) -> Result<Rescued<D>, OpenFault<D>>
    requires first { front.gate ≡ first_gate }
    requires end { front.gate ≤ front.end }
    requires small { front.end ≤ greatest_room }
    ensures same { SameDisk front.disk (disk_rescued D.view result) }
    ensures made { IfOk result (λ found. (ops : List Op)
        × Makes ops found.sheet.contents × (found.kept ≡ length ops)) }
    ensures most { IfOk result (λ found. found.kept ≤ count) }
    ensures found { InModel front.disk ((payloads : List (List ℕ)) → HasGivenFront front [] payloads
        → IfOk result (FindsFirst (bytes_on front.disk) count)) }
    ensures cause { IfErr result (λ e. IsPassing e.cause) }
    ensures looks { InModel front.disk
        (Looks front.disk.history (disk_rescued D.view result).history) }
    ensures faulty { IfErr result
        (λ e. e.cause ≡ OpenCause.Disk → Rises front.disk.faults (D.view e.disk).faults) }
    ensures steady { MatchResult result
        (λ found. (D.view found.disk).faults ≡ front.disk.faults)
        (λ e. (e.cause ≡ OpenCause.Disk → ⊥) → (D.view e.disk).faults ≡ front.disk.faults) }
{
    let mut front = front;
    let mut sheet = Sheet::new(alloc);
    let mut kept = 0;
    while kept < count {
        match front.next() {
            Ok(InFront::Payload(following, payload)) => {
                if let Err(cause) = take(alloc, &mut sheet, &payload) {
                    return end_rescue(following.into_disk(), sheet, kept, cause);
                }
                front = following;
                kept += 1;
            }
            Ok(InFront::End(disk, damage)) => {
                return Ok(Rescued {
                    disk,
                    sheet,
                    kept,
                    damage,
                });
            }
            Err(fault) => return Err(fault),
        }
    }
    Ok(Rescued {
        disk: front.into_disk(),
        sheet,
        kept,
        damage: None,
    })
}

/// Why there are fewer changes than so many: they end, or there is a damage after them.
fn lacking<D: Disk>(found: Rescued<D>, count: u64) -> Unread<D>
    ensures { result ≡ record { fault = lack count found.damage; disk = found.disk } }
{
    let Rescued { disk, damage, .. } = found;
    let fault = match damage {
        Some(gate) => PastFault::Run(RunFault::Open(OpenCause::Damaged(gate))),
        None => PastFault::NoChange(count),
    };
    Unread { fault, disk }
}

/// The front of a disk that isn't read further.
fn not_begun<D: Disk>(fault: OpenFault<D>) -> Unread<D>
    ensures { result ≡ record { fault = past.Run (reported.Open fault.cause); disk = fault.disk } }
{
    let OpenFault { cause, disk } = fault;
    Unread {
        fault: PastFault::Run(RunFault::Open(cause)),
        disk,
    }
}

/// The worksheet of the first so many changes that stand on a disk. It reads no further, so a damage after
/// them is no fault, and it changes no byte.
///
/// `NoChange` where the journal is whole and has fewer; `Damaged` where fewer stand before the first damage.
pub fn read_first<D: Disk>(alloc: Global, disk: D, count: u64) -> Result<Rescued<D>, Unread<D>>
    ensures { FirstAreRead D.view count disk (disk_read result) (answer_read result) }
{
    longest_rescue();
    let front = match Front::begin(alloc, disk) {
        Ok(front) => front,
        Err(fault) => return Err(not_begun(fault)),
    };
    let found = match take_first(alloc, front, count) {
        Ok(found) => found,
        Err(fault) => return Err(not_begun(fault)),
    };
    if found.kept < count {
        Err(lacking(found, count))
    } else {
        Ok(found)
    }
}
