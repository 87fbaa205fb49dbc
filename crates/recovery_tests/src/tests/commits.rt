//! Commits, and what they leave where the disk fails or a crash comes.
use super::desk::{
    Outcome, created, empty_disk, has_session, new, prepared, put_session, session, store_of,
    store_on,
};
use disk_model::{Area, Choice, Disk, Fill, FuseDisk, FuseMode, MemoryDisk};
use recovery::{CommitFault, Store};
use std::alloc::Global;
use worksheet::Op;

fn is_answered(store: &Store<MemoryDisk>) -> Option<bool> {
    let field = store.sheet().field(1)?;
    Some(field.answer.is_some())
}

fn is_answered_on(alloc: Global, disk: MemoryDisk) -> Option<bool> {
    is_answered(&store_on(alloc, disk)?)
}

// Whether field 1 is answered on the disk that a crash leaves.
fn is_answered_at(alloc: Global, disk: &MemoryDisk, moment: u64, fill: Fill) -> Option<bool> {
    if moment > disk.calls() {
        return None;
    }
    let choice = Choice {
        moment,
        fill,
        grown: true,
    };
    is_answered_on(alloc, disk.crash(&choice).ok()?)
}

// Whether it is so where a crash comes before the last sync, and answered after it.
fn is_answered_by(alloc: Global, disk: &MemoryDisk, fill: Fill, before: bool) -> bool {
    let calls = disk.calls();
    if calls == 0 {
        return false;
    }
    let earlier = is_answered_at(alloc, disk, calls - 1, fill);
    let later = is_answered_at(alloc, disk, calls, fill);
    earlier == Some(before) && later == Some(true)
}

fn is_answered_by_each(alloc: Global, disk: &MemoryDisk) -> bool {
    let new = is_answered_by(alloc, disk, Fill::New, true);
    let old = is_answered_by(alloc, disk, Fill::Old, false);
    let byte = is_answered_by(alloc, disk, Fill::Byte(23), false);
    new && old && byte
}

#[test]
fn a_crash_before_the_last_sync(rt: HostRuntime) {
    let is_answered = match store_of(rt.alloc(), 100, 4) {
        Some(store) => is_answered_by_each(rt.alloc(), &store.into_disk()),
        None => false,
    };
    assert!(rt; is_answered);
}

fn is_clear(op: &Op) -> bool {
    matches!(op, Op::Clear { id: 1 })
}

fn is_full_of_the_clear(committed: &Result<(), CommitFault>) -> bool {
    match committed {
        Err(CommitFault::Full(op)) => is_clear(op),
        _ => false,
    }
}

// Whether clearing field 1 comes back, for it doesn't fit.
fn is_given_back(store: &mut Store<MemoryDisk>) -> bool {
    let op = Op::Clear { id: 1 };
    if store.sheet().check(&op).is_err() {
        return false;
    }
    is_full_of_the_clear(&store.commit(op))
}

fn does_not_fit(store: &Store<MemoryDisk>) -> bool {
    !store.fits(&Op::Clear { id: 1 })
}

fn is_full(store: Store<MemoryDisk>) -> bool {
    let mut store = store;
    let is_full = does_not_fit(&store) && is_given_back(&mut store);
    let len = store.into_disk().content(Area::First).len();
    is_full && len == 40
}

#[test]
fn an_op_that_does_not_fit(rt: HostRuntime) {
    let is_full = match store_of(rt.alloc(), 40, 2) {
        Some(store) => is_full(store),
        None => false,
    };
    assert!(rt; is_full);
}

// Commits an op by two calls, and tells the length of its payload.
fn put_prepared(store: &mut Store<MemoryDisk>, op: Op) -> Option<u64> {
    if store.sheet().check(&op).is_err() {
        return None;
    }
    match store.prepare(&op) {
        Ok(frame) => {
            let len = frame.payload_len();
            store.commit_ready(op, frame).ok()?;
            Some(len)
        }
        Err(_) => None,
    }
}

// Whether the session is put so, has 9 bytes, and no field fits after it.
fn is_put_prepared(store: &mut Store<MemoryDisk>, session: Op, new: &Op) -> bool {
    let len = put_prepared(store, session);
    let has_session = has_session(store);
    let next = prepared(store, new);
    len == Some(9) && has_session && next == Outcome::Full
}

fn is_put_to_the_end(alloc: Global) -> Option<bool> {
    let new = new(alloc)?;
    let session = session(alloc)?;
    let mut store = created(alloc, 25)?;
    let is_put = is_put_prepared(&mut store, session, &new);
    let len = store.into_disk().content(Area::First).len();
    Some(is_put && len == 25)
}

#[test]
fn a_prepared_op_is_committed(rt: HostRuntime) {
    assert!(rt; is_put_to_the_end(rt.alloc()) == Some(true));
}

fn prepare_session<D: Disk>(alloc: Global, store: &mut Store<D>) -> Outcome {
    match session(alloc) {
        Some(op) => prepared(store, &op),
        None => Outcome::Refused,
    }
}

// Whether a commit finds that the disk fails, and then the store is closed and has no session.
fn is_closed<D: Disk>(alloc: Global, store: &mut Store<D>) -> bool {
    let failed = put_session(alloc, store) == Outcome::Disk;
    let closed = put_session(alloc, store) == Outcome::Closed;
    let refused = prepare_session(alloc, store) == Outcome::Closed;
    let fits = store.fits(&Op::Clear { id: 1 });
    failed && closed && refused && !fits && !has_session(store)
}

// What became of the session.
#[derive(Clone, Copy, PartialEq, Eq)]
enum Fate {
    Kept,
    Lost,
    /// The store wasn't closed, or its disk doesn't open.
    Wrong,
}

fn left_on(alloc: Global, disk: MemoryDisk) -> Fate {
    match store_on(alloc, disk) {
        Some(store) => {
            if has_session(&store) {
                Fate::Kept
            } else {
                Fate::Lost
            }
        }
        None => Fate::Wrong,
    }
}

fn left_by(alloc: Global, store: Store<FuseDisk<MemoryDisk>>) -> Fate {
    let mut store = store;
    let is_closed = is_closed(alloc, &mut store);
    let left = left_on(alloc, store.into_disk().into_inner());
    if is_closed { left } else { Fate::Wrong }
}

fn left_over(alloc: Global, disk: FuseDisk<MemoryDisk>) -> Fate {
    match store_on(alloc, disk) {
        Some(store) => left_by(alloc, store),
        None => Fate::Wrong,
    }
}

// Whether the session is there again after the disk failed within its commit. The opening took the
// calls 1 to 3.
fn left(alloc: Global, k: u64, mode: FuseMode) -> Fate {
    match empty_disk(alloc, 100) {
        Some(disk) => left_over(alloc, FuseDisk::new(disk, k, mode)),
        None => Fate::Wrong,
    }
}

// The record is written and synced, and then its gate is.
#[test]
fn a_store_whose_disk_failed_is_closed(rt: HostRuntime) {
    let alloc = rt.alloc();
    assert!(rt; left(alloc, 4, FuseMode::From) == Fate::Lost);
    assert!(rt; left(alloc, 5, FuseMode::Only) == Fate::Lost);
    assert!(rt; left(alloc, 6, FuseMode::From) == Fate::Lost);
    assert!(rt; left(alloc, 7, FuseMode::From) == Fate::Kept);
    assert!(rt; left(alloc, 7, FuseMode::Only) == Fate::Kept);
}
