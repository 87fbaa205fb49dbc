//! The worksheet at the front of a damaged disk.
ghost use Rattle.std.specs.Prelude.{◌≡◌, ◌≤◌, [], List, ℕ, length, IfErr, IfOk, MatchResult};
ghost use Rattle.disk_model.specs.Disk.{InModel, Looks, Rises, SameDisk, bytes_on, greatest_room};
ghost use Rattle.worksheet.specs.declared.op.Op.{Op};
ghost use Rattle.worksheet.specs.Ops.{sheet_of};
ghost use Rattle.journal.specs.Area.{first_gate};
ghost use Rattle.journal.specs.Front.{HasGivenFront, TellsHeader};
ghost use Rattle.journal.specs.Open.{IsPassing};
ghost use Rattle.recovery.specs.Rescued.{IsRescued, disk_rescued};
ghost use Rattle.recovery.specs.Sheets.{Makes};
ghost use Rattle.recovery.specs.inside.Rescuing.{FindsRescued, Stops};

use crate::opening::take;
use block_tree::Text;
use disk_model::Disk;
use journal::{Front, InFront, OpenCause, OpenFault};
use std::alloc::Global;
use worksheet::Sheet;

/// What stands on a disk before its first damage.
#[derive(Drop)]
pub struct Rescued<D: Disk> {
    /// The disk, as it stands.
    pub disk: D,
    /// The worksheet that the kept ops make.
    pub sheet: Sheet,
    /// How many ops are kept.
    pub kept: u64,
    /// The offset of the gate after them where that, or the payload after it, is damaged; none where
    /// the journal is whole.
    pub damage: Option<u64>,
}

// Takes what a front that has given nothing gives, up to the first payload that is no op's or whose op
// is refused.
fn take_front<D: Disk>(alloc: Global, front: Front<D>) -> Result<Rescued<D>, OpenFault<D>>
    requires first { front.gate ≡ first_gate }
    requires end { front.gate ≤ front.end }
    requires small { front.end ≤ greatest_room }
    ensures same { SameDisk front.disk (disk_rescued D.view result) }
    ensures made { IfOk result (λ found. (ops : List Op)
        × Makes ops found.sheet.contents × (found.kept ≡ length ops)) }
    ensures found { InModel front.disk ((payloads : List (List ℕ)) → HasGivenFront front [] payloads
        → IfOk result (FindsRescued (bytes_on front.disk))) }
    ensures cause { IfErr result (λ e. IsPassing e.cause) }
    ensures looks { InModel front.disk
        (Looks front.disk.history (disk_rescued D.view result).history) }
    ensures faulty { IfErr result
        (λ e. e.cause ≡ OpenCause.Disk → Rises front.disk.faults (D.view e.disk).faults) }
    ensures steady { MatchResult result
        (λ found. (D.view found.disk).faults ≡ front.disk.faults)
        (λ e. (e.cause ≡ OpenCause.Disk → ⊥) → (D.view e.disk).faults ≡ front.disk.faults) }
{
    let mut front = front;
    let mut sheet = Sheet::new(alloc);
    let mut room = Text::from_string(String::new(alloc));
    let mut kept = 0;
    loop {
        match front.next() {
            Ok(InFront::Payload(following, payload)) => {
                if let Err(cause) = take(alloc, &mut sheet, &mut room, &payload) {
                    return end_rescue(following.into_disk(), sheet, kept, cause);
                }
                front = following;
                kept += 1;
            }
            Ok(InFront::End(disk, damage)) => {
                return Ok(Rescued {
                    disk,
                    sheet,
                    kept,
                    damage,
                });
            }
            Err(fault) => return Err(fault),
        }
    }
}

/// Ends a rescue at a payload that isn't taken: where it is refused, what was taken before is kept.
pub fn end_rescue<D: Disk>(
    disk: D,
    sheet: Sheet,
    kept: u64,
    cause: OpenCause,
) -> Result<Rescued<D>, OpenFault<D>>
    ensures stops { Stops disk sheet kept cause result }
    ensures disk { disk_rescued D.view result ≡ D.view disk }
{
    match cause {
        OpenCause::Damaged(gate) => Ok(Rescued {
            disk,
            sheet,
            kept,
            damage: Some(gate),
        }),
        _ => Err(OpenFault { cause, disk }),
    }
}

/// The ops that stand on a disk before its first damage, as the worksheet that they make. Of a disk
/// that opens they are all. Of one that [`Store::open`](crate::Store::open) refuses as damaged they are
/// those in front of the first bad gate. That gate is damaged, or its payload is no op's, or its op is
/// refused by the worksheet so far. Nothing after that gate is read as an op. It writes nothing
/// (docs/trust/FORMAT.md, "Rescue").
///
/// A disk without a header is refused as `NotASheet`; damage is no refusal here.
pub fn rescue<D: Disk>(alloc: Global, disk: D) -> Result<Rescued<D>, OpenFault<D>>
    ensures same { SameDisk (D.view disk) (disk_rescued D.view result) }

    // Whether the disk keeps the model or not, the worksheet is made by so many allowed ops.
    ensures made { IfOk result (λ found. (ops : List Op)
        × Makes ops found.sheet.contents × (found.kept ≡ length ops)) }

    ensures found { InModel (D.view disk)
        (IfOk result (λ found. (ops : List Op) × IsRescued (bytes_on (D.view disk)) ops found.damage
        × (found.sheet.contents ≡ sheet_of ops) × (found.kept ≡ length ops))) }
    ensures fault { InModel (D.view disk)
        (IfErr result (λ e. TellsHeader (bytes_on (D.view disk)) e.cause)) }

    // It changes no byte, and at every moment each image is one that a crash could leave at the start.
    ensures looks { InModel (D.view disk)
        (Looks (D.view disk).history (disk_rescued D.view result).history) }

    // A failure of the disk is reported as one, and nothing else is.
    ensures faulty { IfErr result
        (λ e. e.cause ≡ OpenCause.Disk → Rises (D.view disk).faults (D.view e.disk).faults) }
    ensures steady { MatchResult result
        (λ found. (D.view found.disk).faults ≡ (D.view disk).faults)
        (λ e. (e.cause ≡ OpenCause.Disk → ⊥) → (D.view e.disk).faults ≡ (D.view disk).faults) }
{
    match Front::begin(alloc, disk) {
        Ok(front) => take_front(alloc, front),
        Err(fault) => Err(fault),
    }
}
