//! A disk in memory, which keeps a record of its calls.
ghost use Rattle.std.specs.Prelude.{◌≡◌, ◌≤◌, ◌<◌, ◌+◌, ◌^◌, [], length, take, drop, IfOk, OnOk, OnErr};
ghost use Rattle.disk_model.specs.Disk.{Called, InModel, Looks, Syncs, Writes, area_of, greatest_room, overwritten, bytes_on};
ghost use Rattle.disk_model.specs.Calls.{Notes, after_sync, after_write, fresh, history_after, started_with, step, with_area};
ghost use Rattle.disk_model.specs.inside.Replay.{stays_an_image};

use crate::crash::area_image;
use crate::{Area, Choice, Disk, DiskFault, OutOfMemory};
use std::alloc::{AllocError, Global};

/// A call that was made, and did something.
#[derive(Drop)]
pub(crate) enum Call {
    Look,
    Write(Area, u64, Vec<u8>),
    Sync(Area),
}

/// A disk in memory, for tests.
///
/// It keeps the model, and a record of its calls (`len`, `read`, `write_at` and `sync`), from which
/// [`MemoryDisk::crash`] draws what a crash leaves. A call whose record can't grow is a fault: it
/// does nothing, isn't on record, and counts as a failure.
#[derive(Drop)]
pub struct MemoryDisk {
    alloc: Global,
    room: u64,
    faults: u64,
    first_start: Vec<u8>,
    second_start: Vec<u8>,
    calls: Vec<Call>,
    first: Vec<u8>,
    second: Vec<u8>,
    ghost small: { room ≤ greatest_room },
    ghost first_is: { first.items ≡ (history_after
        (started_with (record { first = first_start.items; second = second_start.items }))
        calls.items).now.first.content },
    ghost second_is: { second.items ≡ (history_after
        (started_with (record { first = first_start.items; second = second_start.items }))
        calls.items).now.second.content },
    ghost first_fits: { length first.items ≤ room },
    ghost second_fits: { length second.items ≤ room },
}

impl MemoryDisk {
    ghost use Rattle.disk_model.specs.Memory.{view_of};
    ghost use Rattle.disk_model.specs.Crash.{Crashed};

    /// An empty disk of this room in bytes, of which there are at most 2,147,483,648.
    pub fn new(alloc: Global, room: u64) -> MemoryDisk
        requires { room ≤ greatest_room }
        ensures { view_of result ≡ fresh room (record { first = []; second = [] }) }
    {
        MemoryDisk {
            alloc,
            room,
            faults: 0,
            first_start: Vec::new(alloc),
            second_start: Vec::new(alloc),
            calls: Vec::new(alloc),
            first: Vec::new(alloc),
            second: Vec::new(alloc),
        }
    }

    /// A disk of this room whose first area holds these bytes, and whose second area is empty.
    /// There are at most as many as the room, which is at most 2,147,483,648. It fails where memory
    /// is refused.
    pub fn holding(alloc: Global, room: u64, first: Vec<u8>) -> Result<MemoryDisk, OutOfMemory>
        requires room { room ≤ greatest_room }
        requires fits { length first.items ≤ room }
        ensures { IfOk result (λ disk. view_of disk ≡ fresh room
            (record { first = first.items; second = [] })) }
    {
        MemoryDisk::with_areas(alloc, room, first, Vec::new(alloc))
    }

    // A disk that was made with these bytes.
    fn with_areas(
        alloc: Global,
        room: u64,
        first: Vec<u8>,
        second: Vec<u8>,
    ) -> Result<MemoryDisk, OutOfMemory>
        requires room { room ≤ greatest_room }
        requires first_fits { length first.items ≤ room }
        requires second_fits { length second.items ≤ room }
        ensures { IfOk result (λ disk. view_of disk ≡ fresh room
            (record { first = first.items; second = second.items })) }
    {
        Ok(MemoryDisk {
            alloc,
            room,
            faults: 0,
            first_start: first.as_slice().to_vec(alloc)?,
            second_start: second.as_slice().to_vec(alloc)?,
            calls: Vec::new(alloc),
            first,
            second,
        })
    }

    /// How many calls are on record: the moment now.
    pub fn calls(&self) -> u64
        ensures { result ≡ length (view_of self.now).history.past }
    {
        self.calls.len() as u64
    }

    /// What a read would give of an area. It is no call on the disk.
    pub fn content(&self, area: Area) -> &[u8]
        ensures { result.now ≡ area_of area (bytes_on (view_of self.now)) }
    {
        match area {
            Area::First => &self.first,
            Area::Second => &self.second,
        }
    }

    /// A disk that holds what a crash by this choice leaves, with no call on record. The choice's
    /// moment is at most `calls()`. It fails where memory is refused.
    pub fn crash(&self, choice: &Choice) -> Result<MemoryDisk, OutOfMemory>
        requires { choice.now.moment ≤ length (view_of self.now).history.past }
        ensures { IfOk result (λ disk. Crashed choice.now.moment choice.now.fill choice.now.grown
            (view_of self.now) (view_of disk)) }
    {
        let calls = &self.calls[..choice.moment as usize];
        let first = area_image(self.alloc, &self.first_start, calls, Area::First, choice)?;
        let second = area_image(self.alloc, &self.second_start, calls, Area::Second, choice)?;
        MemoryDisk::with_areas(self.alloc, self.room, first, second)
    }
}

/// Writes bytes over what is there, from this offset on, and past the end. At an error, where memory is
/// refused, nothing has changed.
pub fn overwrite(content: &mut Vec<u8>, offset: usize, bytes: &[u8]) -> Result<(), AllocError>
    requires inside { offset ≤ length content.old.items }
    requires fits { offset + length bytes.now < 2 ^ 64 }
    ensures ok { OnOk result (content.new.items ≡ overwritten content.old.items offset bytes.now) }
    ensures err { OnErr result (content.new.items ≡ content.old.items) }
{
    let end = offset + bytes.len();
    if end > content.len() {
        content.resize(end, 0)?;
    }
    content[offset..end].copy_from_slice(bytes);
    Ok(())
}

// Notes a write and makes it. A refused growth counts as a failure, and then nothing has changed.
fn write(
    alloc: Global,
    calls: &mut Vec<Call>,
    content: &mut Vec<u8>,
    area: Area,
    offset: u64,
    bytes: &[u8],
) -> Result<(), AllocError>
    requires inside { offset ≤ length content.old.items }
    requires fits { offset + length bytes.now < 2 ^ 64 }
    ensures ok { OnOk result (content.new.items ≡ overwritten content.old.items offset bytes.now) }
    ensures err { OnErr result (content.new.items ≡ content.old.items) }
    ensures noted { OnOk result
        (Notes calls.old.items calls.new.items (with_area area (after_write offset bytes.now))) }
    ensures not_noted { OnErr result (calls.new.items ≡ calls.old.items) }
{
    let copy = Vec::from_slice(alloc, bytes)?;
    calls.reserve(1)?;
    overwrite(content, offset as usize, bytes)?;
    match calls.push(Call::Write(area, offset, copy)) {
        Ok(()) => Ok(()),
        Err(_) => unreachable!(),
    }
}

// Notes a call that writes nothing.
#[tactic(auto, using(crate::proofs::Record::noted))]
fn note(calls: &mut Vec<Call>, call: Call) -> Result<(), AllocError>
    ensures noted { OnOk result (Notes calls.old.items calls.new.items (λ s. step s call)) }
    ensures not_noted { OnErr result (calls.new.items ≡ calls.old.items) }
{
    Ok(calls.push(call)?)
}

impl Disk for MemoryDisk {
    ghost use Rattle.disk_model.specs.Memory.{Records, start_of, view_of};

    ghost view = { view_of };

    ghost small = { λ m. m.small };

    ghost content_stays = { λ m model. stays_an_image (start_of m) m.calls.items };

    fn room(&self) -> u64 {
        self.room
    }

    #[tactic(auto, using(crate::proofs::Record::looked))]
    fn len(&mut self, area: Area) -> Result<u64, DiskFault>
        ensures called { Called result (view_of self.old) (view_of self.new) }
        ensures bound { IfOk result (λ n. n ≤ (view_of self.old).room) }
        ensures looks { InModel (view_of self.old)
            (Looks (view_of self.old).history (view_of self.new).history) }
        ensures length { InModel (view_of self.old)
            (IfOk result (λ n. n ≡ length (area_of area (bytes_on (view_of self.old))))) }
        ensures records { Records result (λ s. s) (view_of self.old) (view_of self.new) }
    {
        // Its type says that the count is a u64.
        let _faults = self.faults;
        if let Err(AllocError) = note(&mut self.calls, Call::Look) {
            self.faults = self.faults.saturating_add(1);
            return Err(DiskFault);
        }
        Ok(match area {
            Area::First => self.first.len() as u64,
            Area::Second => self.second.len() as u64,
        })
    }

    #[tactic(auto, using(crate::proofs::Record::looked))]
    fn read(&mut self, area: Area, offset: u64, buffer: &mut [u8]) -> Result<(), DiskFault>
        requires { InModel (view_of self.old)
            (offset + length buffer.old ≤ length (area_of area (bytes_on (view_of self.old)))) }
        ensures called { Called result (view_of self.old) (view_of self.new) }
        ensures looks { InModel (view_of self.old)
            (Looks (view_of self.old).history (view_of self.new).history) }
        ensures bytes { InModel (view_of self.old)
            (OnOk result (buffer.new ≡ take (length buffer.old)
            (drop offset (area_of area (bytes_on (view_of self.old)))))) }
        ensures records { Records result (λ s. s) (view_of self.old) (view_of self.new) }
    {
        // Its type says that the count is a u64.
        let _faults = self.faults;
        if let Err(AllocError) = note(&mut self.calls, Call::Look) {
            self.faults = self.faults.saturating_add(1);
            return Err(DiskFault);
        }
        let at = offset as usize;
        let end = at + buffer.len();
        match area {
            Area::First => buffer.copy_from_slice(&self.first[at..end]),
            Area::Second => buffer.copy_from_slice(&self.second[at..end]),
        }
        Ok(())
    }

    fn write_at(&mut self, area: Area, offset: u64, bytes: &[u8]) -> Result<(), DiskFault>
        requires { InModel (view_of self.old)
            ((offset ≤ length (area_of area (bytes_on (view_of self.old))))
            × (offset + length bytes.now ≤ (view_of self.old).room)) }
        ensures called { Called result (view_of self.old) (view_of self.new) }
        ensures writes { InModel (view_of self.old)
            (Writes area offset bytes.now result (view_of self.old).history
            (view_of self.new).history) }
        ensures records { Records result (with_area area (after_write offset bytes.now))
            (view_of self.old) (view_of self.new) }
    {
        // Its type says that the count is a u64.
        let _faults = self.faults;
        match area {
            Area::First => {
                if let Err(AllocError) = write(
                    self.alloc,
                    &mut self.calls,
                    &mut self.first,
                    Area::First,
                    offset,
                    bytes,
                ) {
                    self.faults = self.faults.saturating_add(1);
                    return Err(DiskFault);
                }
            }
            Area::Second => {
                if let Err(AllocError) = write(
                    self.alloc,
                    &mut self.calls,
                    &mut self.second,
                    Area::Second,
                    offset,
                    bytes,
                ) {
                    self.faults = self.faults.saturating_add(1);
                    return Err(DiskFault);
                }
            }
        }
        Ok(())
    }

    fn sync(&mut self, area: Area) -> Result<(), DiskFault>
        ensures called { Called result (view_of self.old) (view_of self.new) }
        ensures syncs { InModel (view_of self.old)
            (Syncs area result (view_of self.old).history (view_of self.new).history) }
        ensures records { Records result (with_area area after_sync) (view_of self.old)
            (view_of self.new) }
    {
        // Its type says that the count is a u64.
        let _faults = self.faults;
        if let Err(AllocError) = note(&mut self.calls, Call::Sync(area)) {
            self.faults = self.faults.saturating_add(1);
            return Err(DiskFault);
        }
        Ok(())
    }
}
