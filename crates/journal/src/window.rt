//! Reads of an area through a window of at most 65,536 bytes.
ghost use Rattle.std.specs.Prelude.{◌≡◌, ◌+◌, ◌-◌, ◌≤◌, List, ℕ, [], length, take, drop, IfErr, IfOk, OnOk, vec_len};
ghost use Rattle.disk_model.specs.Disk.{InModel, area_of, bytes_on, greatest_room};
ghost use Rattle.journal.specs.Open.{IsPassing};
ghost use Rattle.journal.specs.inside.Reads.{Begins, Fails, Reads, longest_read};

use crate::OpenCause;
use disk_model::{Area, Disk, DiskFault};
use std::alloc::{AllocError, Global};
use std::mem;

// The most bytes that are read at once.
const LONGEST_READ: u64 = 65_536;

/// Some bytes of an area, from `start` on. None at `limit` or after it is read.
#[derive(Drop)]
pub(crate) struct Window {
    alloc: Global,
    pub(crate) area: Area,
    pub(crate) limit: u64,
    start: u64,
    bytes: Vec<u8>,
    // Memory for the next copy.
    spare: Vec<u8>,
    ghost small: { limit ≤ greatest_room },
    ghost inside: { start + vec_len bytes ≤ limit },
}

// Room for so many bytes: that of the buffer, where it has as many.
fn room_in(alloc: Global, buffer: Vec<u8>, len: u64) -> Result<Vec<u8>, OpenCause>
    ensures len { IfOk result (λ room. vec_len room ≡ len) }
    ensures memory { IfErr result (λ cause. cause ≡ OpenCause.OutOfMemory) }
{
    if buffer.len() as u64 == len {
        return Ok(buffer);
    }
    match vec![in alloc; 0u8; len as usize] {
        Ok(room) => Ok(room),
        Err(_) => Err(OpenCause::OutOfMemory),
    }
}

// So many bytes of an area, in one read. They take the buffer's room where it is as long.
fn read_part<D: Disk>(
    alloc: Global,
    disk: &mut D,
    area: Area,
    at: u64,
    len: u64,
    buffer: Vec<u8>,
) -> Result<Vec<u8>, OpenCause>
    requires short { len ≤ longest_read }
    requires inside { InModel (D.view disk.old)
        (at + len ≤ length (area_of area (bytes_on (D.view disk.old)))) }
    ensures reads { Reads (Fails result) (D.view disk.old) (D.view disk.new) }
    ensures cause { IfErr result IsPassing }
    ensures len { IfOk result (λ bytes. vec_len bytes ≡ len) }
    ensures bytes { InModel (D.view disk.old)
        (IfOk result (λ bytes. Begins bytes.items
        (drop at (area_of area (bytes_on (D.view disk.old)))))) }
{
    let mut bytes = match room_in(alloc, buffer, len) {
        Ok(bytes) => bytes,
        Err(cause) => return Err(cause),
    };
    match disk.read(area, at, &mut bytes) {
        Ok(()) => Ok(bytes),
        Err(DiskFault) => Err(OpenCause::Disk),
    }
}

// The first bytes, so many at most.
fn front_of(bytes: &[u8], most: u64) -> &[u8]
    ensures { result.now ≡ take most bytes.now }
{
    if bytes.len() as u64 <= most {
        return bytes;
    }
    let (front, _) = bytes.split_at(most as usize);
    front
}

impl Window {
    ghost use Rattle.journal.specs.inside.Window.{Shows};

    /// A window on an area, which has this length. It shows nothing yet.
    pub(crate) fn new(alloc: Global, area: Area, limit: u64) -> Window
        requires { limit ≤ greatest_room }
        ensures area { result.area ≡ area }
        ensures limit { result.limit ≡ limit }
        ensures shows { (area : List ℕ) → limit ≡ length area → Shows result area }
    {
        Window {
            alloc,
            area,
            limit,
            start: 0,
            bytes: Vec::new(alloc),
            spare: Vec::new(alloc),
        }
    }

    /// Has the window show the bytes from `at` on, of which `need` are needed.
    pub(crate) fn fill<D: Disk>(
        &mut self,
        disk: &mut D,
        at: u64,
        need: u64,
    ) -> Result<(), OpenCause>
        requires inside { at + need ≤ self.old.limit }
        requires short { need ≤ longest_read }
        requires shows { InModel (D.view disk.old)
            (Shows self.old (area_of self.old.area (bytes_on (D.view disk.old)))) }
        ensures reads { Reads (Fails result) (D.view disk.old) (D.view disk.new) }
        ensures cause { IfErr result IsPassing }
        ensures area { self.new.area ≡ self.old.area }
        ensures limit { self.new.limit ≡ self.old.limit }
        ensures from { OnOk result (self.new.start ≤ at) }
        ensures to { OnOk result (at + need ≤ self.new.start + vec_len self.new.bytes) }
        ensures shows { InModel (D.view disk.old)
            (OnOk result (Shows self.new (area_of self.old.area (bytes_on (D.view disk.old))))) }
    {
        if self.start <= at && at + need <= self.start + self.bytes.len() as u64 {
            return Ok(());
        }
        let len = (self.limit - at).min(LONGEST_READ);
        // The bytes that were shown are read over, so that reads of one length share memory.
        let Window {
            alloc,
            area,
            limit,
            start: _,
            bytes: buffer,
            spare,
        } = mem::replace(self, Window::new(self.alloc, self.area, self.limit));
        match read_part(alloc, disk, area, at, len, buffer) {
            Ok(bytes) => {
                *self = Window {
                    alloc,
                    area,
                    limit,
                    start: at,
                    bytes,
                    spare,
                };
                Ok(())
            }
            Err(cause) => Err(cause),
        }
    }

    /// The bytes that the window shows from `at` on.
    pub(crate) fn following(&self, at: u64) -> &[u8]
        requires from { self.now.start ≤ at }
        requires to { at ≤ self.now.start + vec_len self.now.bytes }
        ensures len { at + length result.now ≡ self.now.start + vec_len self.now.bytes }
        ensures shows { (area : List ℕ) → Shows self.now area → Begins result.now (drop at area) }
    {
        let (_, following) = self.bytes.split_at((at - self.start) as usize);
        following
    }

    // A vector without bytes that has memory for so many: the spare one, where that has.
    fn room(&mut self, len: u64) -> Result<Vec<u8>, AllocError>
        ensures items { IfOk result (λ room. room.items ≡ []) }
        ensures area { self.new.area ≡ self.old.area }
        ensures limit { self.new.limit ≡ self.old.limit }
        ensures shows { (area : List ℕ) → Shows self.old area → Shows self.new area }
    {
        let mut spare = mem::replace(&mut self.spare, Vec::new(self.alloc));
        if (spare.capacity() as u64) < len {
            return Vec::with_capacity(self.alloc, len as usize);
        }
        spare.clear();
        Ok(spare)
    }

    /// Keeps memory for the next copy, where it is no more than a read has.
    pub(crate) fn keep(&mut self, memory: Vec<u8>)
        ensures area { self.new.area ≡ self.old.area }
        ensures limit { self.new.limit ≡ self.old.limit }
        ensures shows { (area : List ℕ) → Shows self.old area → Shows self.new area }
    {
        if memory.capacity() as u64 <= LONGEST_READ {
            self.spare = memory;
        }
    }

    /// So many bytes of the area from `at` on, read in parts.
    pub(crate) fn copy<D: Disk>(
        &mut self,
        disk: &mut D,
        at: u64,
        len: u64,
    ) -> Result<Vec<u8>, OpenCause>
        requires inside { at + len ≤ self.old.limit }
        requires shows { InModel (D.view disk.old)
            (Shows self.old (area_of self.old.area (bytes_on (D.view disk.old)))) }
        ensures reads { Reads (Fails result) (D.view disk.old) (D.view disk.new) }
        ensures cause { IfErr result IsPassing }
        ensures area { self.new.area ≡ self.old.area }
        ensures limit { self.new.limit ≡ self.old.limit }
        ensures shows { InModel (D.view disk.old)
            (OnOk result (Shows self.new (area_of self.old.area (bytes_on (D.view disk.old))))) }
        ensures len { IfOk result (λ bytes. vec_len bytes ≡ len) }
        ensures bytes { InModel (D.view disk.old)
            (IfOk result (λ bytes. Begins bytes.items
            (drop at (area_of self.old.area (bytes_on (D.view disk.old)))))) }
    {
        let Ok(mut bytes) = self.room(len) else {
            return Err(OpenCause::OutOfMemory);
        };
        while (bytes.len() as u64) < len {
            let here = at + bytes.len() as u64;
            if let Err(cause) = self.fill(disk, here, 1) {
                return Err(cause);
            }
            let part = front_of(self.following(here), len - bytes.len() as u64);
            if let Err(AllocError) = bytes.extend_from_slice(part) {
                return Err(OpenCause::OutOfMemory);
            }
        }
        Ok(bytes)
    }
}
