//! Calls while no memory is left.
ghost use Rattle.std.specs.Prelude.{◌≤◌};

use super::desk::{Appended, SESSION, append, cause_of, empty, empty_in, frame, has, rewrite};
use disk_model::{Area, Disk, DiskFault, MemoryDisk};
use journal::{CreateCause, Frame, Journal, OpenCause, Opening, create};
use std::alloc::Global;
use tests_desk::exhausted;

// Why a disk isn't created while no memory is left.
fn refused(alloc: Global, disk: MemoryDisk) -> Option<CreateCause> {
    match exhausted(alloc) {
        Ok(_held) => cause_of(disk),
        Err(_) => None,
    }
}

// Appends a payload of nine bytes. Nine bytes fit then, and ten do where they are to.
fn append_fitting<D: Disk>(
    journal: Journal<D>,
    frame: &Frame,
    ten_fit: bool,
) -> Option<Appended<D>> {
    if journal.fits(9) && journal.fits(10) == ten_fit {
        Some(append(journal, frame))
    } else {
        None
    }
}

// The same while no memory is left.
fn append_without<D: Disk>(
    alloc: Global,
    journal: Journal<D>,
    frame: &Frame,
    ten_fit: bool,
) -> Option<Appended<D>> {
    match exhausted(alloc) {
        Ok(_held) => append_fitting(journal, frame, ten_fit),
        Err(_) => None,
    }
}

// The disk in memory of an append that fails so.
fn failed(alloc: Global, frame: &Frame) -> Option<MemoryDisk> {
    match append_without(alloc, empty_in(alloc, 25)?, frame, false)? {
        Appended::Failed(disk) => Some(disk),
        _ => None,
    }
}

// Whether a payload is taken on a disk without one.
fn takes(alloc: Global, disk: MemoryDisk, frame: &Frame) -> bool {
    match empty(alloc, disk) {
        Some(journal) => append(journal, frame).done().is_some(),
        None => false,
    }
}

fn fails_and_takes(alloc: Global) -> Option<bool> {
    let frame = frame(alloc, &SESSION)?;
    let disk = failed(alloc, &frame)?;
    Some(takes(alloc, disk, &frame))
}

#[test]
fn without_memory_the_disk_fails_and_nothing_breaks(rt: HostRuntime) {
    let cause = refused(rt.alloc(), MemoryDisk::new(rt.alloc(), 25));
    assert!(rt; cause == Some(CreateCause::Disk));
    assert!(rt; fails_and_takes(rt.alloc()) == Some(true));
}

// An area of 64 bytes at most.
#[derive(Drop)]
struct ArrayArea {
    bytes: [u8; 64],
    len: usize,
    ghost fits: { len ≤ 64 },
}

impl ArrayArea {
    fn new() -> ArrayArea {
        ArrayArea {
            bytes: [0; 64],
            len: 0,
        }
    }

    fn read(&self, offset: u64, buffer: &mut [u8]) -> bool {
        let at = offset as usize;
        if at > 64 || buffer.len() > 64 - at {
            return false;
        }
        buffer.copy_from_slice(&self.bytes[at..at + buffer.len()]);
        true
    }

    fn write(&mut self, offset: u64, bytes: &[u8]) -> bool {
        let at = offset as usize;
        if at > 64 || bytes.len() > 64 - at {
            return false;
        }
        let end = at + bytes.len();
        self.bytes[at..end].copy_from_slice(bytes);
        if self.len < end {
            self.len = end;
        }
        true
    }
}

// A disk of two arrays, whose calls take no memory. Nothing is claimed of its bytes.
#[derive(Drop)]
struct ArrayDisk {
    first: ArrayArea,
    second: ArrayArea,
    faults: u64,
}

impl ArrayDisk {
    fn new() -> ArrayDisk {
        ArrayDisk {
            first: ArrayArea::new(),
            second: ArrayArea::new(),
            faults: 0,
        }
    }
}

impl Disk for ArrayDisk {
    ghost use Rattle.disk_model.specs.Disk.{unclaimed};
    ghost use Rattle.disk_model.specs.Calls.{started_with};
    ghost use Rattle.std.specs.Prelude.{false, []};
    ghost use Rattle.std.proofs.Common.{arith};

    ghost view = { λ d. record {
      room = 64;
      faults = d.faults;
      keeps_model = false;
      history = started_with (record { first = []; second = [] });
    } };

    ghost small = { λ d. Prim.omega arith };

    ghost content_stays = { λ d h. unclaimed h };

    fn room(&self) -> u64 {
        64
    }

    fn len(&mut self, area: Area) -> Result<u64, DiskFault> {
        let _faults = self.faults;
        match area {
            Area::First => Ok(self.first.len as u64),
            Area::Second => Ok(self.second.len as u64),
        }
    }

    fn read(&mut self, area: Area, offset: u64, buffer: &mut [u8]) -> Result<(), DiskFault> {
        let _faults = self.faults;
        let done = match area {
            Area::First => self.first.read(offset, buffer),
            Area::Second => self.second.read(offset, buffer),
        };
        if !done {
            self.faults = self.faults.saturating_add(1);
            return Err(DiskFault);
        }
        Ok(())
    }

    fn write_at(&mut self, area: Area, offset: u64, bytes: &[u8]) -> Result<(), DiskFault> {
        let _faults = self.faults;
        let done = match area {
            Area::First => self.first.write(offset, bytes),
            Area::Second => self.second.write(offset, bytes),
        };
        if !done {
            self.faults = self.faults.saturating_add(1);
            return Err(DiskFault);
        }
        Ok(())
    }

    fn sync(&mut self, _area: Area) -> Result<(), DiskFault> {
        let _faults = self.faults;
        Ok(())
    }
}

// An empty disk that was made while no memory was left.
fn created_without_memory(alloc: Global) -> Option<ArrayDisk> {
    let disk = ArrayDisk::new();
    match exhausted(alloc) {
        Ok(_held) => create(disk).ok(),
        Err(_) => None,
    }
}

// An empty journal on it.
fn empty_without_memory(alloc: Global) -> Option<Journal<ArrayDisk>> {
    empty(alloc, created_without_memory(alloc)?)
}

// The session after the closed gate of a journal on a disk of an array, which took it while no memory
// was left.
fn with_session_on_array(alloc: Global) -> Option<ArrayDisk> {
    let frame = frame(alloc, &SESSION)?;
    let journal = empty_without_memory(alloc)?;
    let journal = append_without(alloc, journal, &frame, true)?.done()?;
    Some(journal.into_disk())
}

fn has_session(alloc: Global, disk: ArrayDisk) -> bool {
    has(alloc, disk, &[(10, &SESSION)])
}

fn is_appended(alloc: Global) -> Option<bool> {
    Some(has_session(alloc, with_session_on_array(alloc)?))
}

#[test]
fn create_and_append_take_no_memory(rt: HostRuntime) {
    assert!(rt; is_appended(rt.alloc()) == Some(true));
}

// A journal that was made while no memory was left.
fn made_without_memory(alloc: Global) -> Option<Journal<ArrayDisk>> {
    let disk = ArrayDisk::new();
    match exhausted(alloc) {
        Ok(_held) => Journal::create(disk).ok(),
        Err(_) => None,
    }
}

fn is_made(alloc: Global) -> Option<bool> {
    let journal = made_without_memory(alloc)?;
    Some(has(alloc, journal.into_disk(), &[]))
}

#[test]
fn a_new_journal_takes_no_memory(rt: HostRuntime) {
    assert!(rt; is_made(rt.alloc()) == Some(true));
}

// Rewrites the journal while no memory is left.
fn rewritten(
    alloc: Global,
    journal: Journal<ArrayDisk>,
    frame: &Frame,
) -> Option<Journal<ArrayDisk>> {
    match exhausted(alloc) {
        Ok(_held) => rewrite(journal, std::slice::from_ref(frame)).done(),
        Err(_) => None,
    }
}

// Into the second area, and back.
fn is_rewritten_twice(alloc: Global) -> Option<bool> {
    let frame = frame(alloc, &SESSION)?;
    let journal = rewritten(alloc, empty_without_memory(alloc)?, &frame)?;
    let journal = rewritten(alloc, journal, &frame)?;
    Some(has_session(alloc, journal.into_disk()))
}

#[test]
fn a_rewrite_takes_no_memory(rt: HostRuntime) {
    assert!(rt; is_rewritten_twice(rt.alloc()) == Some(true));
}

// Why an opening isn't begun.
fn cause_of_begin(alloc: Global, disk: ArrayDisk) -> Option<OpenCause> {
    match Opening::begin(alloc, disk) {
        Ok(_) => None,
        Err(fault) => Some(fault.cause),
    }
}

fn cause_of_begin_without(alloc: Global, disk: ArrayDisk) -> Option<OpenCause> {
    match exhausted(alloc) {
        Ok(_held) => cause_of_begin(alloc, disk),
        Err(_) => None,
    }
}

fn begins_without(alloc: Global) -> Option<OpenCause> {
    cause_of_begin_without(alloc, with_session_on_array(alloc)?)
}

// Why an opening gives no payload.
fn cause_of_next(opening: Opening<ArrayDisk>) -> Option<OpenCause> {
    match opening.next() {
        Ok(_) => None,
        Err(fault) => Some(fault.cause),
    }
}

fn cause_of_next_without(alloc: Global, opening: Opening<ArrayDisk>) -> Option<OpenCause> {
    match exhausted(alloc) {
        Ok(_held) => cause_of_next(opening),
        Err(_) => None,
    }
}

fn gives_without(alloc: Global) -> Option<OpenCause> {
    let disk = with_session_on_array(alloc)?;
    cause_of_next_without(alloc, Opening::begin(alloc, disk).ok()?)
}

// None is left as it begins, and once it has begun.
#[test]
fn an_opening_without_memory(rt: HostRuntime) {
    assert!(rt; begins_without(rt.alloc()) == Some(OpenCause::OutOfMemory));
    assert!(rt; gives_without(rt.alloc()) == Some(OpenCause::OutOfMemory));
}
