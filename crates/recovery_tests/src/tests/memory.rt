//! Commits while no memory is left.
ghost use Rattle.std.specs.Prelude.{◌≤◌, ◌+◌, IfSome};

use super::desk::{Outcome, created, has_session, prepared, put, put_session, session, store_on};
use disk_model::{Area, Disk, DiskFault, MemoryDisk};
use journal::create;
use recovery::{Store, code_len};
use std::alloc::Global;
use tests_desk::exhausted;
use worksheet::Op;

// A disk in an array: its calls take no memory, and it keeps no model.
#[derive(Drop)]
struct FixedDisk {
    first: [u8; 100],
    len: usize,
    faults: u64,
}

impl FixedDisk {
    // Where so many bytes stand, where they lie in the array.
    fn place(area: Area, offset: u64, len: usize) -> Option<usize>
        ensures { IfSome result (λ start. start + len ≤ 100) }
    {
        if area == Area::Second || offset > 100 || len > 100 - offset as usize {
            return None;
        }
        Some(offset as usize)
    }
}

impl Disk for FixedDisk {
    ghost use Rattle.disk_model.specs.Disk.{unclaimed};
    ghost use Rattle.disk_model.specs.Calls.{started_with};
    ghost use Rattle.std.specs.Prelude.{false, []};
    ghost use Rattle.std.proofs.Common.{arith};

    ghost view = { λ d. record {
      room = 100;
      faults = d.faults;
      keeps_model = false;
      history = started_with (record { first = []; second = [] });
    } };

    ghost small = { λ d. Prim.omega arith };

    ghost content_stays = { λ d h. unclaimed h };

    fn room(&self) -> u64 {
        100
    }

    fn len(&mut self, area: Area) -> Result<u64, DiskFault> {
        let _faults = self.faults;
        match area {
            Area::First => Ok(self.len.min(100) as u64),
            Area::Second => Ok(0),
        }
    }

    fn read(&mut self, area: Area, offset: u64, buffer: &mut [u8]) -> Result<(), DiskFault> {
        let _faults = self.faults;
        let Some(start) = FixedDisk::place(area, offset, buffer.len()) else {
            self.faults = self.faults.saturating_add(1);
            return Err(DiskFault);
        };
        buffer.copy_from_slice(&self.first[start..start + buffer.len()]);
        Ok(())
    }

    fn write_at(&mut self, area: Area, offset: u64, bytes: &[u8]) -> Result<(), DiskFault> {
        let _faults = self.faults;
        let Some(start) = FixedDisk::place(area, offset, bytes.len()) else {
            self.faults = self.faults.saturating_add(1);
            return Err(DiskFault);
        };
        self.first[start..start + bytes.len()].copy_from_slice(bytes);
        self.len = self.len.max(start + bytes.len());
        Ok(())
    }

    fn sync(&mut self, _area: Area) -> Result<(), DiskFault> {
        let _faults = self.faults;
        Ok(())
    }
}

// An empty disk in an array.
fn fixed_disk() -> Option<FixedDisk> {
    let empty = FixedDisk {
        first: [0; 100],
        len: 0,
        faults: 0,
    };
    create(empty).ok()
}

// What came of a prepared session that is committed while no memory is left.
#[derive(Clone, Copy, PartialEq, Eq)]
enum Ready {
    /// It is on the disk, and in the worksheet.
    Done,
    /// The disk failed, and the worksheet has no session.
    Failed,
    /// Memory was left, or another answer came.
    Wrong,
}

fn ready_of(is_exhausted: bool, is_done: bool, has_session: bool) -> Ready {
    if !is_exhausted || is_done != has_session {
        Ready::Wrong
    } else if is_done {
        Ready::Done
    } else {
        Ready::Failed
    }
}

fn put_without<D: Disk>(alloc: Global, store: &mut Store<D>, op: Op) -> Ready {
    if store.sheet().check(&op).is_err() {
        return Ready::Wrong;
    }
    match store.prepare(&op) {
        Ok(frame) => {
            let held = exhausted(alloc);
            let is_done = store.commit_ready(op, frame).is_ok();
            ready_of(held.is_ok(), is_done, has_session(store))
        }
        Err(_) => Ready::Wrong,
    }
}

fn put_session_without<D: Disk>(alloc: Global, store: &mut Store<D>) -> Ready {
    match session(alloc) {
        Some(op) => put_without(alloc, store, op),
        None => Ready::Wrong,
    }
}

fn fits<D: Disk>(store: &Store<D>) -> bool {
    store.fits(&Op::Clear { id: 1 })
}

// Whether what fits, and the length of a payload, is reported while no memory is left.
fn fits_without<D: Disk>(alloc: Global, store: &Store<D>) -> bool {
    match exhausted(alloc) {
        Ok(_held) => fits(store) && code_len(&Op::Clear { id: 1 }) == 5,
        Err(_) => false,
    }
}

fn is_fixed_disk_kept(alloc: Global, disk: FixedDisk) -> bool {
    match store_on(alloc, disk) {
        Some(store) => has_session(&store),
        None => false,
    }
}

fn is_done_without(alloc: Global, store: Store<FixedDisk>) -> bool {
    let mut store = store;
    let fits = fits_without(alloc, &store);
    let put = put_session_without(alloc, &mut store);
    fits && put == Ready::Done && is_fixed_disk_kept(alloc, store.into_disk())
}

fn is_done_on_a_fixed_disk(alloc: Global) -> Option<bool> {
    let store = store_on(alloc, fixed_disk()?)?;
    Some(is_done_without(alloc, store))
}

#[test]
fn a_prepared_commit_takes_no_memory(rt: HostRuntime) {
    assert!(rt; is_done_on_a_fixed_disk(rt.alloc()) == Some(true));
}

// Whether the store is closed by a disk in memory, which fails.
fn is_closed_without(alloc: Global, store: &mut Store<MemoryDisk>) -> bool {
    let fits = fits_without(alloc, store);
    let put = put_session_without(alloc, store);
    let then = put_session(alloc, store);
    fits && put == Ready::Failed && then == Outcome::Closed
}

#[test]
fn without_memory_a_disk_in_memory_fails(rt: HostRuntime) {
    let is_closed = match created(rt.alloc(), 100) {
        Some(mut store) => is_closed_without(rt.alloc(), &mut store),
        None => false,
    };
    assert!(rt; is_closed);
}

// Whether an op is neither prepared nor committed for lack of memory.
fn is_refused(store: &mut Store<MemoryDisk>, op: &Op, other: Op) -> bool {
    let no_frame = prepared(store, op);
    let refused = put(store, other);
    no_frame == Outcome::OutOfMemory && refused == Outcome::OutOfMemory
}

fn is_refused_without(alloc: Global, store: &mut Store<MemoryDisk>, op: &Op, other: Op) -> bool {
    match exhausted(alloc) {
        Ok(_held) => is_refused(store, op, other),
        Err(_) => false,
    }
}

fn is_session_refused(alloc: Global, store: &mut Store<MemoryDisk>) -> Option<bool> {
    let op = session(alloc)?;
    let other = session(alloc)?;
    Some(is_refused_without(alloc, store, &op, other))
}

// Whether it is refused, and the store goes on.
fn goes_on(alloc: Global, store: &mut Store<MemoryDisk>) -> bool {
    let refused = is_session_refused(alloc, store);
    refused == Some(true) && !has_session(store) && fits(store)
}

#[test]
fn without_memory_nothing_is_committed(rt: HostRuntime) {
    let goes_on = match created(rt.alloc(), 100) {
        Some(mut store) => goes_on(rt.alloc(), &mut store),
        None => false,
    };
    assert!(rt; goes_on);
}
