//! Payloads that are owed to a journal.
ghost use Rattle.std.specs.Prelude.{◌≡◌, ◌+◌, ◌++◌, ◌∷◌, ◌≤◌, [], List, ℕ, length, false, true, OnOk, OnErr, MatchResult};
ghost use Rattle.disk_model.specs.Disk.{InModel, LeavesOnly, SameDisk, Rises, bytes_on};
ghost use Rattle.journal.specs.Area.{records};
ghost use Rattle.journal.specs.Kept.{BeforeOrAfter, EitherStands, Fits, Keeps, other_of};
ghost use Rattle.journal.specs.Owed.{owed_disk};
ghost use Rattle.recovery.specs.inside.Base.{disk_of, end_in, gathers, is_closed, owed_to, real_of, start_in, MayOweIn, KeepsIn, MayOwe};

use crate::base::Base;
use disk_model::{Disk, DiskFault};
use journal::{AppendFault, Frame, Group, Journal};

/// Owes a payload to a journal.
pub(crate) fn owe<D: Disk>(journal: Journal<D>, group: Group, frame: &Frame) -> Base<D>
    requires place { Fits journal.disk.room (journal.end + length (records group.payloads))
        (length frame.now) }
    requires memory { 5 + length frame.now ≤ group.place }
    requires owing { MayOwe journal group.payloads }

    ensures owing { MayOweIn result }
    ensures gathers { gathers result ≡ true }
    ensures real { real_of D.view result ≡ journal.disk }
    ensures start { start_in result ≡ journal.end }
    ensures open { is_closed result ≡ false }
    ensures ends { end_in result
        ≡ journal.end + length (records group.payloads) + 5 + length frame.now }
    ensures same { SameDisk (owed_disk journal.disk journal.end group.payloads)
        (disk_of D.view result) }
    ensures steady { (disk_of D.view result).faults ≡ journal.disk.faults }
    ensures other { InModel journal.disk (other_of (bytes_on (disk_of D.view result))
        ≡ other_of (bytes_on (owed_disk journal.disk journal.end group.payloads))) }
    ensures ok { InModel journal.disk ((payloads : List (List ℕ))
        → Keeps (owed_disk journal.disk journal.end group.payloads).history
        (journal.end + length (records group.payloads)) payloads
        → KeepsIn result (payloads ++ frame.now ∷ [])) }
    ensures any_moment { InModel journal.disk ((payloads : List (List ℕ))
        → Keeps (owed_disk journal.disk journal.end group.payloads).history
        (journal.end + length (records group.payloads)) payloads
        → LeavesOnly
        (BeforeOrAfter (owed_disk journal.disk journal.end group.payloads).history.now payloads
        frame.now) (owed_disk journal.disk journal.end group.payloads).history
        (disk_of D.view result).history) }
{
    // Called for their contracts alone: of the disk, which holds an image that a crash may leave, and of the frame.
    let _room = journal.room();
    let _len = frame.payload_len();
    let mut group = group;
    match group.push(frame) {
        Ok(()) => Base::Gathering(journal, group),
        Err(_) => unreachable!(),
    }
}

/// Makes durable what is owed to a journal, and drops the group.
pub(crate) fn write_group<D: Disk>(
    journal: Journal<D>,
    group: Group,
) -> (Base<D>, Result<(), DiskFault>)
    requires { MayOwe journal group.payloads }

    ensures same { SameDisk journal.disk (real_of D.view result.0) }
    ensures flushed { OnOk result.1 ((owed_to result.0 ≡ [])
        × (disk_of D.view result.0 ≡ real_of D.view result.0)) }
    ensures ok { OnOk result.1 ((is_closed result.0 ≡ false) × (end_in result.0 ≡ journal.end
        + length (records group.payloads))
        × ((real_of D.view result.0).faults ≡ journal.disk.faults)) }
    ensures closed { OnErr result.1 ((is_closed result.0 ≡ true)
        × Rises journal.disk.faults (real_of D.view result.0).faults) }
    ensures keeps { OnOk result.1 (InModel journal.disk ((payloads : List (List ℕ))
        → Keeps (owed_disk journal.disk journal.end group.payloads).history
        (journal.end + length (records group.payloads)) payloads → KeepsIn result.0 payloads)) }
    ensures owing { MayOweIn result.0 }
    ensures written { gathers result.0 ≡ false }
    ensures nothing { group.payloads ≡ [] → MatchResult result.1
        (λ _. real_of D.view result.0 ≡ journal.disk) (λ _. ⊥) }
    ensures any_moment { InModel journal.disk ((before payloads : List (List ℕ))
        → Keeps journal.disk.history journal.end before
        → Keeps (owed_disk journal.disk journal.end group.payloads).history
        (journal.end + length (records group.payloads)) payloads
        → LeavesOnly (EitherStands before payloads) journal.disk.history
        (real_of D.view result.0).history) }
{
    // Called for its contract alone: the disk holds an image that a crash may leave.
    let _room = journal.room();
    match journal.append_all(&group) {
        Ok(journal) => (Base::Open(journal), Ok(())),
        Err(AppendFault::Disk(disk)) => (Base::Closed(disk), Err(DiskFault)),
        Err(AppendFault::JournalFull(_)) => unreachable!(),
    }
}
