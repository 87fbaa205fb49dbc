//! A journal on a disk that it owns.
ghost use Rattle.std.specs.Prelude.{◌≡◌, ◌<◌, ◌≤◌, ◌+◌, ◌++◌, ◌∷◌, ◌↔◌, [], List, ℕ, length, IfOk, IfErr, IsTrue, MatchResult, vec_capacity};
ghost use Rattle.disk_model.specs.Disk.{ChangesArea, InModel, IsImage, LeavesOnly, Looks, Reaches, SameDisk, Torn, Rises, bytes_on, greatest_room, other_area};
ghost use Rattle.journal.specs.Payloads.{payloads_in, AreGates};
ghost use Rattle.journal.specs.Open.{AreEmpty, Tells};
ghost use Rattle.journal.specs.Kept.{BeforeOrAfter, EitherStands, Fits, FitsAgain, Keeps, ImageStandsFor, active_area, active_of, other_of};
ghost use Rattle.journal.specs.Area.{added_at, end_of, first_gate, records};
ghost use Rattle.journal.specs.Sources.{HoldsEach};
ghost use Rattle.journal.specs.inside.Active.{HasEnd};

use crate::append::add_one;
use crate::layout::FIRST_GATE;
use crate::renewal::write_from;
use crate::rewrite::{end_of_frames, other, write_again};
use crate::{
    CreateCause, CreateFault, Frame, LONGEST_PAYLOAD, Next, OpenCause, Opening, Payload, Source,
    create,
};
use disk_model::{Area, Disk, DiskFault};
use std::alloc::Global;
use std::marker::Model;

/// Records on a disk, each after a gate (docs/trust/FORMAT.md, "The journal").
///
/// Contracts see its disk and the offset of its closed gate. What it keeps there is said by
/// `Keeps`: `create` and `open` give it, `append` carries it on.
#[derive(Drop)]
pub struct Journal<D: Disk> {
    pub(crate) disk: D,
    pub(crate) active: Area,
    pub(crate) end: u64,
}

impl<D: Disk> Model for Journal<D> {
    ghost use Rattle.std.specs.Prelude.{◌≤◌};
    ghost use Rattle.disk_model.specs.Disk.{InModel, greatest_room, bytes_on};
    ghost use Rattle.journal.specs.Area.{first_gate};
    ghost use Rattle.journal.specs.Kept.{JournalView};
    ghost use Rattle.journal.specs.inside.Active.{HasEnd};

    ghost Value = { JournalView };

    ghost view = { λ j. record { disk = D.view j.disk; end = j.end } };

    ghost invariant = { λ j. (first_gate ≤ j.end) × (j.end ≤ greatest_room)
        × InModel (D.view j.disk) (HasEnd j.active j.end (bytes_on (D.view j.disk))) };
}

/// An opening that was refused, and the disk.
#[derive(Drop)]
pub struct OpenFault<D: Disk> {
    /// Why it was refused.
    pub cause: OpenCause,
    /// The disk, as it stands.
    pub disk: D,
}

/// An append that was refused.
#[derive(Drop)]
pub enum AppendFault<D: Disk> {
    /// The payload doesn't fit. The journal is as it was.
    JournalFull(Journal<D>),
    /// The disk failed. The payload may be on it or not; the disk is to be opened again.
    Disk(D),
}

impl<D: Disk> Journal<D> {
    ghost use Rattle.journal.specs.Journal.{disk_created, opened, disk_after, GivesPayloads, HandsBack, IsFull, IsFaulty};

    /// Opens a disk that a crash may have left, and gives the payloads that it stands for, in
    /// order, each with the offset of its gate. It writes nothing (docs/trust/FORMAT.md, "Opening").
    pub fn open(alloc: Global, disk: D) -> Result<(Journal<D>, Vec<Payload>), OpenFault<D>>
        ensures same { SameDisk (D.view disk) (opened D.view result) }

        ensures found { InModel (D.view disk)
            (IfOk result (λ found. Keeps found.0.disk.history found.0.end
            (payloads_in found.1.items))) }
        ensures gates { InModel (D.view disk)
            (IfOk result (λ found. AreGates first_gate found.1.items)) }
        ensures fault { InModel (D.view disk)
            (IfErr result (λ e. Tells (bytes_on (D.view disk)) e.cause)) }

        // A disk that stands for payloads gives these and no others, unless it fails or memory is refused.
        ensures exact { InModel (D.view disk)
            ((payloads : List (List ℕ)) → ImageStandsFor (bytes_on (D.view disk)) payloads
            → GivesPayloads payloads result) }

        // It changes no byte, and at every moment each image is one that a crash could leave at the start.
        ensures looks { InModel (D.view disk)
            (Looks (D.view disk).history (opened D.view result).history) }

        // A failure of the disk is reported as one, and nothing else is.
        ensures faulty { IfErr result
            (λ e. e.cause ≡ OpenCause.Disk → Rises (D.view disk).faults (D.view e.disk).faults) }
        ensures steady { MatchResult result
            (λ found. found.0.disk.faults ≡ (D.view disk).faults)
            (λ e. (e.cause ≡ OpenCause.Disk → ⊥) → (D.view e.disk).faults ≡ (D.view disk).faults) }
    {
        let mut opening = match Opening::begin(alloc, disk) {
            Ok(opening) => opening,
            Err(fault) => return Err(fault),
        };
        let mut payloads = Vec::new(alloc);
        loop {
            match opening.next() {
                Ok(Next::Payload(following, payload)) => {
                    if let Err(_) = payloads.push(payload) {
                        let (cause, disk) = (OpenCause::OutOfMemory, following.into_disk());
                        return Err(OpenFault { cause, disk });
                    }
                    opening = following;
                }
                Ok(Next::End(journal)) => return Ok((journal, payloads)),
                Err(fault) => return Err(fault),
            }
        }
    }

    /// Lays an empty journal on an empty disk of at least 11 bytes of room, as [`create`] does, and is
    /// that journal. It takes no memory.
    pub fn create(disk: D) -> Result<Journal<D>, CreateFault<D>>
        requires { 11 ≤ (D.view disk).room }

        ensures same { SameDisk (D.view disk) (disk_created D.view result) }

        // The journal is durable, and stands for no payload.
        ensures empty { InModel (D.view disk)
            (IfOk result (λ journal. AreEmpty (bytes_on (D.view disk))
            × Keeps journal.disk.history journal.end [])) }

        ensures not_empty { InModel (D.view disk)
            (IfErr result (λ e. e.cause ≡ CreateCause.NotEmpty → AreEmpty (bytes_on (D.view disk))
            → ⊥)) }

        // A disk that isn't empty is left as it was, whatever fails.
        ensures untouched { InModel (D.view disk)
            (IfErr result (λ e. (AreEmpty (bytes_on (D.view disk)) → ⊥)
            → Looks (D.view disk).history (D.view e.disk).history)) }

        // A crash at any moment of the call leaves the eleven bytes of area First torn at most, and area
        // Second untouched.
        ensures any_moment { InModel (D.view disk)
            (LeavesOnly (Reaches (ChangesArea Area.First (Torn 0 11)) (D.view disk).history.now)
            (D.view disk).history (disk_created D.view result).history) }

        ensures ends { IfOk result (λ journal. journal.end ≡ first_gate) }

        // A failure of the disk is reported as one, and nothing else is.
        ensures faulty { IfErr result
            (λ e. e.cause ≡ CreateCause.Disk → Rises (D.view disk).faults (D.view e.disk).faults) }
        ensures steady { MatchResult result
            (λ journal. journal.disk.faults ≡ (D.view disk).faults)
            (λ e. (e.cause ≡ CreateCause.Disk → ⊥)
            → (D.view e.disk).faults ≡ (D.view disk).faults) }
    {
        match create(disk) {
            Ok(disk) => Ok(Journal::ending_at(disk, Area::First, FIRST_GATE)),
            Err(fault) => Err(fault),
        }
    }

    // The journal of this disk, whose closed gate is there.
    pub(crate) fn ending_at(disk: D, active: Area, end: u64) -> Journal<D>
        requires following { first_gate ≤ end }
        requires small { end ≤ greatest_room }
        requires inside { InModel (D.view disk) (HasEnd active end (bytes_on (D.view disk))) }
        ensures { result ≡ record { disk = D.view disk; end = end } }
    {
        Journal { disk, active, end }
    }

    /// The most bytes that an area may have: the disk's room.
    pub fn room(&self) -> u64
        ensures room { result ≡ self.now.disk.room }

        // What a read gives is one of the images that a crash may leave.
        ensures content_stays { InModel self.now.disk
            (IsImage self.now.disk.history.now (bytes_on self.now.disk)) }
    {
        self.disk.room()
    }

    /// Whether a payload of so many bytes fits after the end. Then it has at most 33,554,432 bytes, and
    /// the end, 5 bytes, the payload and the next gate are together at most the disk's room. It takes
    /// no memory.
    pub fn fits(&self, payload_len: u64) -> bool
        ensures { IsTrue result ↔ Fits self.now.disk.room self.now.end payload_len }
    {
        payload_len <= LONGEST_PAYLOAD && self.end + 5 + payload_len < self.disk.room()
    }

    /// Adds a payload, which is durable at `Ok`. It takes no memory (docs/trust/FORMAT.md, "Append").
    ///
    /// A payload that doesn't fit, as [`Journal::fits`] tells, is refused with `JournalFull`; a call
    /// on the disk that fails, with `Disk`.
    pub fn append(self, frame: &Frame) -> Result<Journal<D>, AppendFault<D>>
        ensures same { SameDisk self.disk (disk_after D.view result) }
        ensures other { InModel self.disk
            (other_of (bytes_on (disk_after D.view result)) ≡ other_of (bytes_on self.disk)) }

        ensures ok { InModel self.disk
            ((payloads : List (List ℕ)) → Keeps self.disk.history self.end payloads
            → IfOk result (λ journal. Keeps journal.disk.history journal.end
            (payloads ++ frame.now ∷ []))) }

        // These bytes are then on the disk.
        ensures written { InModel self.disk
            (IfOk result (λ journal. active_of (bytes_on journal.disk) ≡ added_at self.end frame.now
            (active_of (bytes_on self.disk)))) }

        // A crash at any moment of the call leaves the payloads from before it, with the new one or without.
        ensures any_moment { InModel self.disk
            ((payloads : List (List ℕ)) → Keeps self.disk.history self.end payloads
            → LeavesOnly (BeforeOrAfter self.disk.history.now payloads frame.now) self.disk.history
            (disk_after D.view result).history) }

        // The record takes five bytes and its payload's, also over a disk outside the model.
        ensures ends { IfOk result (λ journal. journal.end ≡ self.end + 5 + length frame.now) }

        ensures unchanged { HandsBack result self }
        ensures full { IsFull result ↔ (Fits self.disk.room self.end (length frame.now) → ⊥) }
        ensures faulty { IsFaulty result
            → Rises self.disk.faults (disk_after D.view result).faults }
        ensures steady { (IsFaulty result → ⊥)
            → (disk_after D.view result).faults ≡ self.disk.faults }
    {
        if !self.fits(frame.payload_len()) {
            return Err(AppendFault::JournalFull(self));
        }
        let Journal {
            mut disk,
            active,
            end,
        } = self;
        let bytes = frame.bytes();
        if let Err(DiskFault) = add_one(&mut disk, active, end, bytes) {
            return Err(AppendFault::Disk(disk));
        }
        Ok(Journal {
            disk,
            active,
            end: end + bytes.len() as u64,
        })
    }

    /// Writes these payloads in place of the journal's own. They are laid into the area that isn't active;
    /// once they are durable there, that area becomes the active one, and that is durable at `Ok`. It
    /// takes no memory (docs/trust/FORMAT.md, "Rewrite").
    ///
    /// Payloads for which an area has no room are refused with `JournalFull`; a call on the disk that
    /// fails, with `Disk`.
    pub fn rewrite(self, frames: &[Frame]) -> Result<Journal<D>, AppendFault<D>>
        ensures same { SameDisk self.disk (disk_after D.view result) }

        ensures ok { InModel self.disk
            ((payloads : List (List ℕ)) → Keeps self.disk.history self.end payloads
            → IfOk result (λ journal. Keeps journal.disk.history journal.end frames.now)) }

        // A crash at any moment of the call leaves the payloads from before it, or these.
        ensures any_moment { InModel self.disk
            ((payloads : List (List ℕ)) → Keeps self.disk.history self.end payloads
            → LeavesOnly (EitherStands payloads frames.now) self.disk.history
            (disk_after D.view result).history) }

        // The area that wasn't active is it then.
        ensures turned { InModel self.disk
            (IfOk result (λ journal. active_area (bytes_on journal.disk)
            ≡ other_area (active_area (bytes_on self.disk)))) }

        ensures ends { IfOk result (λ journal. journal.end ≡ end_of frames.now) }

        ensures unchanged { HandsBack result self }
        ensures full { IsFull result ↔ (FitsAgain self.disk.room frames.now → ⊥) }
        ensures faulty { IsFaulty result
            → Rises self.disk.faults (disk_after D.view result).faults }
        ensures steady { (IsFaulty result → ⊥)
            → (disk_after D.view result).faults ≡ self.disk.faults }
    {
        let Some(end) = end_of_frames(self.disk.room(), frames) else {
            return Err(AppendFault::JournalFull(self));
        };
        let Journal {
            mut disk,
            active,
            end: _,
        } = self;
        let area = other(active);
        if let Err(DiskFault) = write_again(&mut disk, area, frames) {
            return Err(AppendFault::Disk(disk));
        }
        Ok(Journal {
            disk,
            active: area,
            end,
        })
    }

    /// The same by the payloads of a source, which are made a batch at a time. An area has room for them,
    /// and `batch` has memory for a batch and any of their records, so it takes none.
    pub fn rewrite_from<S: Source>(
        self,
        source: &S,
        batch: &mut Vec<u8>,
    ) -> Result<Journal<D>, AppendFault<D>>
        requires room { FitsAgain self.disk.room (S.payloads source.now) }
        requires memory { HoldsEach (vec_capacity batch.old) (S.payloads source.now) }

        ensures same { SameDisk self.disk (disk_after D.view result) }

        ensures ok { InModel self.disk
            ((payloads : List (List ℕ)) → Keeps self.disk.history self.end payloads
            → IfOk result (λ journal. Keeps journal.disk.history journal.end
            (S.payloads source.now))) }

        // A crash at any moment of the call leaves the payloads from before it, or these.
        ensures any_moment { InModel self.disk
            ((payloads : List (List ℕ)) → Keeps self.disk.history self.end payloads
            → LeavesOnly (EitherStands payloads (S.payloads source.now)) self.disk.history
            (disk_after D.view result).history) }

        // The area that wasn't active is it then.
        ensures turned { InModel self.disk
            (IfOk result (λ journal. active_area (bytes_on journal.disk)
            ≡ other_area (active_area (bytes_on self.disk)))) }

        ensures ends { IfOk result (λ journal. journal.end ≡ end_of (S.payloads source.now)) }
        ensures fits { IsFull result → ⊥ }
        ensures faulty { IsFaulty result
            → Rises self.disk.faults (disk_after D.view result).faults }
        ensures steady { (IsFaulty result → ⊥)
            → (disk_after D.view result).faults ≡ self.disk.faults }
    {
        let Journal {
            mut disk,
            active,
            end: _,
        } = self;
        let area = other(active);
        match write_from(&mut disk, area, source, batch) {
            Ok(end) => Ok(Journal {
                disk,
                active: area,
                end,
            }),
            Err(DiskFault) => Err(AppendFault::Disk(disk)),
        }
    }

    /// The disk, as it stands.
    pub fn into_disk(self) -> D
        ensures { D.view result ≡ self.disk }
    {
        let Journal { disk, .. } = self;
        disk
    }
}
