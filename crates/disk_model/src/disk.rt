//! A disk as a journal sees it.
ghost use Rattle.std.specs.Prelude.{◌≡◌, ◌+◌, ◌≤◌, length, take, drop, IfOk, OnOk};
ghost use Rattle.disk_model.specs.Disk.{DiskView, InModel, Called, Looks, Writes, Syncs, IsImage, area_of, greatest_room, bytes_on};

/// The greatest room of a disk, in bytes.
pub const GREATEST_ROOM: u64 = 2_147_483_648;

/// One of the two areas of a disk.
#[derive(Clone, Copy, Debug, PartialEq, Eq)]
pub enum Area {
    /// The first one. A journal has its header here.
    First,
    /// The second one. A rewritten journal may be here.
    Second,
}

/// A call on a disk failed. The disk counted a failure in that call.
#[derive(Clone, Copy, Debug, PartialEq, Eq)]
pub struct DiskFault;

/// Two areas of bytes, each of which can grow up to the disk's room (docs/trust/FORMAT.md, "What a crash
/// may leave").
///
/// A disk counts its failures, and its contract speaks of them always. A disk that keeps the model
/// has a history too: its state at each moment, and with it the images that a crash may leave
/// there. What is asked of a call's offsets, and what is said of bytes and images, holds for such a
/// disk. A disk that doesn't keep the model, as a real file, owes none of it and may be called with
/// any offsets. Whether the model is kept never changes.
pub trait Disk: Drop {
    /// The disk as contracts see it.
    ghost view: { Self → DiskView };

    /// How long an area may become, in bytes.
    fn room(&self) -> u64
        ensures room { result ≡ (view self.now).room }
        ensures bound { result ≤ greatest_room };

    /// The length of an area in bytes, at most the room.
    fn len(&mut self, area: Area) -> Result<u64, DiskFault>
        ensures called { Called result (view self.old) (view self.new) }
        ensures bound { IfOk result (λ n. n ≤ (view self.old).room) }

        ensures looks { InModel (view self.old)
            (Looks (view self.old).history (view self.new).history) }
        ensures length { InModel (view self.old)
            (IfOk result (λ n. n ≡ length (area_of area (bytes_on (view self.old))))) };

    /// Fills the buffer with the bytes from `offset` on, all of them within the area's length.
    fn read(&mut self, area: Area, offset: u64, buffer: &mut [u8]) -> Result<(), DiskFault>
        requires { InModel (view self.old)
            (offset + length buffer.old ≤ length (area_of area (bytes_on (view self.old)))) }

        ensures called { Called result (view self.old) (view self.new) }

        ensures looks { InModel (view self.old)
            (Looks (view self.old).history (view self.new).history) }
        ensures bytes { InModel (view self.old)
            (OnOk result (buffer.new ≡ take (length buffer.old)
            (drop offset (area_of area (bytes_on (view self.old)))))) };

    /// Puts bytes over what stands at `offset`, and past the end. They begin at most at the area's
    /// length, and end at most at the room. A write that fails may be torn.
    fn write_at(&mut self, area: Area, offset: u64, bytes: &[u8]) -> Result<(), DiskFault>
        requires { InModel (view self.old)
            ((offset ≤ length (area_of area (bytes_on (view self.old))))
            × (offset + length bytes.now ≤ (view self.old).room)) }

        ensures called { Called result (view self.old) (view self.new) }

        ensures writes { InModel (view self.old)
            (Writes area offset bytes.now result (view self.old).history (view self.new).history) };

    /// Brings the writes of an area onto the disk. They outlive each crash after its `Ok`.
    fn sync(&mut self, area: Area) -> Result<(), DiskFault>
        ensures called { Called result (view self.old) (view self.new) }

        ensures syncs { InModel (view self.old)
            (Syncs area result (view self.old).history (view self.new).history) };

    /// No area may become longer.
    ghost small: { (disk : Self) → (view disk).room ≤ greatest_room };

    /// What a read gives is one of the images that a crash may leave.
    ghost content_stays: { (disk : Self)
        → InModel (view disk) (IsImage (view disk).history.now (bytes_on (view disk))) };
}
