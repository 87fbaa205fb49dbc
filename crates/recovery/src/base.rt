//! What a store stands on.
ghost use Rattle.std.specs.Prelude.{◌≡◌, ◌≤◌, ◌+◌, ◌++◌, ◌∷◌, ◌↔◌, [], List, ℕ, length, false, true, OnOk, OnErr, IsTrue, MatchResult, vec_capacity};
ghost use Rattle.disk_model.specs.Disk.{InModel, IsImage, LeavesOnly, SameDisk, Rises, bytes_on};
ghost use Rattle.journal.specs.Kept.{BeforeOrAfter, EitherStands, Fits, FitsAgain, other_of};
ghost use Rattle.journal.specs.Limits.{longest_payload};
ghost use Rattle.journal.specs.Sources.{HoldsEach};

use crate::fault::CheckpointFault;
use crate::owing::{owe, write_group};
use disk_model::{Disk, DiskFault};
use journal::{AppendFault, Frame, Group, Journal, OutOfMemory, Source};

/// A journal, or one to which payloads are owed, or a disk that has failed and is written no more.
#[derive(Drop)]
pub(crate) enum Base<D: Disk> {
    Open(Journal<D>),
    Gathering(Journal<D>, Group),
    Closed(D),
}

impl<D: Disk> Base<D> {
    ghost use Rattle.recovery.specs.inside.Base.{disk_of, end_in, gathers, is_closed, owed_to, place_for, real_of, start_in, AgainAnswers, HasPlaceIn, MayOweIn, KeepsIn, KeepsSome, RealKeeps};

    /// Adds a payload for which there is a place, or owes it. A failure of the disk closes it.
    pub(crate) fn with(self, frame: &Frame) -> (Base<D>, Result<(), DiskFault>)
        requires place { HasPlaceIn self (length frame.now) }
        requires memory { 5 + length frame.now ≤ place_for self }
        requires owing { MayOweIn self }

        ensures owing { MayOweIn result.0 }
        ensures real { gathers self ≡ true → (real_of D.view result.0 ≡ real_of D.view self)
            × (gathers result.0 ≡ true) }
        ensures start { gathers self ≡ true → start_in result.0 ≡ start_in self }
        ensures written { gathers self ≡ false → gathers result.0 ≡ false }
        ensures at_once { OnErr result.1 (gathers self ≡ false) }
        ensures still_open { gathers self ≡ true → is_closed result.0 ≡ false }

        ensures same { SameDisk (disk_of D.view self) (disk_of D.view result.0) }
        ensures other { InModel (disk_of D.view self)
            (other_of (bytes_on (disk_of D.view result.0))
            ≡ other_of (bytes_on (disk_of D.view self))) }
        ensures open { OnOk result.1 (is_closed result.0 ≡ false) }
        ensures steady { OnOk result.1
            ((disk_of D.view result.0).faults ≡ (disk_of D.view self).faults) }
        ensures ends { OnOk result.1 (end_in result.0 ≡ end_in self + 5 + length frame.now) }
        ensures closed { OnErr result.1
            ((is_closed result.0 ≡ true)
            × Rises (disk_of D.view self).faults (disk_of D.view result.0).faults) }

        ensures ok { InModel (disk_of D.view self)
            ((payloads : List (List ℕ)) → KeepsIn self payloads
            → OnOk result.1 (KeepsIn result.0 (payloads ++ frame.now ∷ []))) }
        ensures any_moment { InModel (disk_of D.view self)
            ((payloads : List (List ℕ)) → KeepsIn self payloads
            → LeavesOnly (BeforeOrAfter (disk_of D.view self).history.now payloads frame.now)
            (disk_of D.view self).history (disk_of D.view result.0).history) }
    {
        match self {
            Base::Open(journal) => match journal.append(frame) {
                Ok(journal) => (Base::Open(journal), Ok(())),
                Err(AppendFault::Disk(disk)) => (Base::Closed(disk), Err(DiskFault)),
                Err(AppendFault::JournalFull(_)) => unreachable!(),
            },
            Base::Gathering(journal, group) => (owe(journal, group, frame), Ok(())),
            Base::Closed(_) => unreachable!(),
        }
    }

    /// Writes these payloads in place of its own. A failure of the disk closes it.
    pub(crate) fn again<S: Source>(
        self,
        source: &S,
        batch: &mut Vec<u8>,
    ) -> (Base<D>, Result<(), CheckpointFault>)
        requires open { is_closed self ≡ false }
        requires flushed { owed_to self ≡ [] }
        requires room { FitsAgain (disk_of D.view self).room (S.payloads source.now) }
        requires memory { HoldsEach (vec_capacity batch.old) (S.payloads source.now) }

        ensures same { SameDisk (disk_of D.view self) (disk_of D.view result.0) }
        ensures owing { MayOweIn result.0 }
        ensures written { gathers result.0 ≡ false }
        ensures answers { AgainAnswers D.view self result.0 (S.payloads source.now) result.1 }
        ensures any_moment { InModel (disk_of D.view self)
            ((payloads : List (List ℕ)) → KeepsIn self payloads
            → LeavesOnly (EitherStands payloads (S.payloads source.now))
            (disk_of D.view self).history
            (disk_of D.view result.0).history) }
    {
        match self {
            Base::Open(journal) => match journal.rewrite_from(source, batch) {
                Ok(journal) => (Base::Open(journal), Ok(())),
                Err(AppendFault::Disk(disk)) => (Base::Closed(disk), Err(CheckpointFault::Disk)),
                Err(AppendFault::JournalFull(_)) => unreachable!(),
            },
            // Nothing is owed, so it goes on without the group.
            Base::Gathering(journal, _) => match journal.rewrite_from(source, batch) {
                Ok(journal) => (Base::Open(journal), Ok(())),
                Err(AppendFault::Disk(disk)) => (Base::Closed(disk), Err(CheckpointFault::Disk)),
                Err(AppendFault::JournalFull(_)) => unreachable!(),
            },
            Base::Closed(_) => unreachable!(),
        }
    }

    /// Whether it is open and a payload of so many bytes fits.
    pub(crate) fn has_place(&self, payload_len: u64) -> bool
        ensures { IsTrue result ↔ (is_closed self.now ≡ false)
            × Fits (disk_of D.view self.now).room (end_in self.now) payload_len }
    {
        match self {
            Base::Open(journal) => journal.fits(payload_len),
            Base::Gathering(journal, group) => journal.fits_after(group, payload_len),
            Base::Closed(_) => false,
        }
    }

    /// The most bytes that an area may have, of one that is open.
    pub(crate) fn room(&self) -> u64
        requires { is_closed self.now ≡ false }
        ensures room { result ≡ (disk_of D.view self.now).room }
        ensures content_stays { InModel (real_of D.view self.now)
            (IsImage (real_of D.view self.now).history.now (bytes_on (real_of D.view self.now))) }
    {
        match self {
            Base::Open(journal) | Base::Gathering(journal, _) => journal.room(),
            Base::Closed(_) => unreachable!(),
        }
    }

    /// Whether something is owed.
    pub(crate) fn owes(&self) -> bool
        ensures { result ≡ false → owed_to self.now ≡ [] }
    {
        match self {
            Base::Gathering(_, group) => !group.is_empty(),
            Base::Open(_) | Base::Closed(_) => false,
        }
    }

    pub(crate) fn is_closed(&self) -> bool
        ensures { result ≡ is_closed self.now }
    {
        matches!(self, Base::Closed(_))
    }

    /// The disk, as it stands.
    pub(crate) fn into_disk(self) -> D
        ensures { D.view result ≡ real_of D.view self }
    {
        match self {
            Base::Open(journal) => journal.into_disk(),
            Base::Gathering(journal, _) => journal.into_disk(),
            Base::Closed(disk) => disk,
        }
    }

    /// From now on payloads are owed, in this group, which has none yet, if they aren't already.
    pub(crate) fn gather(self, group: Group) -> Base<D>
        requires { group.payloads ≡ [] }
        ensures disk { disk_of D.view result ≡ disk_of D.view self }
        ensures real { real_of D.view result ≡ real_of D.view self }
        ensures end { end_in result ≡ end_in self }
        ensures start { start_in result ≡ start_in self }
        ensures closed { is_closed result ≡ is_closed self }
        ensures owed { owed_to result ≡ owed_to self }
        ensures gathers { is_closed self ≡ false → gathers result ≡ true }
        ensures keeps { (payloads : List (List ℕ)) → KeepsIn self payloads
            → KeepsIn result payloads }
        ensures owing { MayOweIn self → (is_closed self ≡ false → KeepsSome D.view self)
            → MayOweIn result }
    {
        match self {
            Base::Open(journal) => Base::Gathering(journal, group),
            other => other,
        }
    }

    /// Makes memory for a payload of so many bytes, where it is to be owed. Refused, nothing has changed.
    pub(crate) fn make_place(&mut self, payload_len: u64) -> Result<(), OutOfMemory>
        requires { payload_len ≤ longest_payload }
        ensures disk { disk_of D.view self.new ≡ disk_of D.view self.old }
        ensures real { real_of D.view self.new ≡ real_of D.view self.old }
        ensures end { end_in self.new ≡ end_in self.old }
        ensures start { start_in self.new ≡ start_in self.old }
        ensures closed { is_closed self.new ≡ is_closed self.old }
        ensures owed { owed_to self.new ≡ owed_to self.old }
        ensures gathers { gathers self.new ≡ gathers self.old }
        ensures place { OnOk result (5 + payload_len ≤ place_for self.new) }
        ensures owing { MayOweIn self.old → MayOweIn self.new }
        ensures keeps { (payloads : List (List ℕ)) → KeepsIn self.old payloads
            → KeepsIn self.new payloads }
    {
        match self {
            Base::Gathering(_, group) => group.make_place(payload_len),
            Base::Open(_) | Base::Closed(_) => Ok(()),
        }
    }

    /// Drops what is owed, and leaves the disk as it stands. From then on payloads are written at once.
    pub(crate) fn withdraw(self) -> Base<D>
        ensures disk { disk_of D.view result ≡ real_of D.view self }
        ensures real { real_of D.view result ≡ real_of D.view self }
        ensures end { end_in result ≡ start_in self }
        ensures owed { owed_to result ≡ [] }
        ensures gathers { gathers result ≡ false }
        ensures closed { is_closed result ≡ is_closed self }
        ensures owing { MayOweIn result }
        ensures keeps { (payloads : List (List ℕ)) → RealKeeps self payloads
            → KeepsIn result payloads }
    {
        match self {
            Base::Gathering(journal, _) => Base::Open(journal),
            Base::Open(journal) => Base::Open(journal),
            Base::Closed(disk) => Base::Closed(disk),
        }
    }

    /// Makes durable what is owed. Nothing is owed after it, and payloads are written at once. A failure
    /// of the disk closes it.
    pub(crate) fn flush(self) -> (Base<D>, Result<(), DiskFault>)
        requires { MayOweIn self }
        ensures same { SameDisk (real_of D.view self) (real_of D.view result.0) }
        ensures flushed { OnOk result.1 ((owed_to result.0 ≡ [])
            × (disk_of D.view result.0 ≡ real_of D.view result.0)) }
        ensures ok { OnOk result.1 ((is_closed result.0 ≡ is_closed self)
            × (end_in result.0 ≡ end_in self)
            × ((real_of D.view result.0).faults ≡ (real_of D.view self).faults)) }
        ensures closed { OnErr result.1 ((is_closed result.0 ≡ true)
            × Rises (real_of D.view self).faults (real_of D.view result.0).faults) }
        ensures keeps { OnOk result.1 (InModel (disk_of D.view self)
            ((payloads : List (List ℕ)) → KeepsIn self payloads → KeepsIn result.0 payloads)) }
        ensures owing { MayOweIn result.0 }
        ensures written { gathers result.0 ≡ false }
        ensures nothing { owed_to self ≡ [] → MatchResult result.1
            (λ _. real_of D.view result.0 ≡ real_of D.view self) (λ _. ⊥) }

        // A crash at any moment of the call leaves the payloads that the disk had, or all of them.
        ensures any_moment { InModel (disk_of D.view self) (is_closed self ≡ false
            → (before payloads : List (List ℕ)) → RealKeeps self before → KeepsIn self payloads
            → LeavesOnly (EitherStands before payloads) (real_of D.view self).history
            (real_of D.view result.0).history) }
    {
        match self {
            Base::Gathering(journal, group) => write_group(journal, group),
            other => (other, Ok(())),
        }
    }
}
