//! Groups of payloads, each committed by one gate.
ghost use Rattle.std.specs.Prelude.{◌≡◌, ◌≢◌, ◌+◌, ◌++◌, ◌↔◌, [], List, ℕ, length, IfOk, IsTrue, MatchResult};
ghost use Rattle.disk_model.specs.Disk.{InModel, LeavesOnly, Rises, SameDisk, bytes_on};
ghost use Rattle.journal.specs.Kept.{BeforeOrAll, Fits, FitsAll, Keeps, active_of, other_of};
ghost use Rattle.journal.specs.Area.{all_added_at, records};

use crate::append::add;
use crate::{AppendFault, Group, Journal, LONGEST_PAYLOAD};
use disk_model::{Disk, DiskFault};

impl<D: Disk> Journal<D> {
    ghost use Rattle.journal.specs.Journal.{disk_after, HandsBack, IsFull, IsFaulty};

    /// Whether the payloads of a group fit after the end: the end, their records and the next gate are
    /// together at most the disk's room. It takes no memory.
    pub fn fits_all(&self, group: &Group) -> bool
        ensures { IsTrue result ↔ FitsAll self.now.disk.room self.now.end group.now.payloads }
    {
        let room = self.disk.room();
        self.end < room && group.records_len() < room - self.end
    }

    /// Whether a payload of so many bytes fits after those of a group, were they appended. It takes no
    /// memory.
    pub fn fits_after(&self, group: &Group, payload_len: u64) -> bool
        ensures { IsTrue result ↔ Fits self.now.disk.room
            (self.now.end + length (records group.now.payloads)) payload_len }
    {
        let room = self.disk.room();
        let owed = group.records_len();
        payload_len <= LONGEST_PAYLOAD
            && self.end < room
            && owed < room - self.end
            && payload_len + 5 < room - self.end - owed
    }

    /// Adds the payloads of a group, which one gate commits: they are durable at `Ok`, all of them, and
    /// a crash leaves all or none. Of a group without a payload no call is made. It takes no memory
    /// (docs/trust/FORMAT.md, "Append").
    ///
    /// Payloads that don't fit, as [`Journal::fits_all`] says, are refused with `JournalFull`; a call
    /// on the disk that fails, with `Disk`.
    pub fn append_all(self, group: &Group) -> Result<Journal<D>, AppendFault<D>>
        ensures same { SameDisk self.disk (disk_after D.view result) }
        ensures other { InModel self.disk
            (other_of (bytes_on (disk_after D.view result)) ≡ other_of (bytes_on self.disk)) }

        ensures ok { InModel self.disk
            ((payloads : List (List ℕ)) → Keeps self.disk.history self.end payloads
            → IfOk result (λ journal. Keeps journal.disk.history journal.end
            (payloads ++ group.now.payloads))) }

        // These bytes are then on the disk.
        ensures written { InModel self.disk
            (IfOk result (λ journal. group.now.payloads ≢ [] → active_of (bytes_on journal.disk)
            ≡ all_added_at self.end group.now.payloads (active_of (bytes_on self.disk)))) }

        // A crash at any moment of the call leaves the payloads from before it, with all of these or with none.
        ensures any_moment { InModel self.disk
            ((payloads : List (List ℕ)) → Keeps self.disk.history self.end payloads
            → LeavesOnly (BeforeOrAll self.disk.history.now payloads group.now.payloads)
            self.disk.history
            (disk_after D.view result).history) }

        ensures ends { IfOk result (λ journal. journal.end ≡ self.end + length
            (records group.now.payloads)) }

        // Of a group without a payload no call is made.
        ensures nothing { group.now.payloads ≡ []
            → MatchResult result (λ journal. journal ≡ self) (λ _. ⊥) }

        ensures unchanged { HandsBack result self }
        ensures full { IsFull result ↔ (group.now.payloads ≢ [])
            × (FitsAll self.disk.room self.end group.now.payloads → ⊥) }
        ensures faulty { IsFaulty result
            → Rises self.disk.faults (disk_after D.view result).faults }
        ensures steady { (IsFaulty result → ⊥)
            → (disk_after D.view result).faults ≡ self.disk.faults }
    {
        if group.is_empty() {
            return Ok(self);
        }
        if !self.fits_all(group) {
            return Err(AppendFault::JournalFull(self));
        }
        let Journal {
            mut disk,
            active,
            end,
        } = self;
        let records = group.past_gate();
        if let Err(DiskFault) = add(&mut disk, active, end, records) {
            return Err(AppendFault::Disk(disk));
        }
        Ok(Journal {
            disk,
            active,
            end: end + records.len() as u64,
        })
    }
}
