//! Ops, and stores on disks in memory.
use block_tree::{Octets, Sequence};
use disk_model::{Disk, MemoryDisk};
use journal::create;
use meta_format::read_block;
use recovery::{CommitFault, PrepareFault, Store};
use std::alloc::Global;
use worksheet::Op;

/// Area First after the session, the field, the clearing and the answer of the worked example.
pub const AREA: [u8; 76] = [
    0x54, 0x4d, 0x57, 0x53, 0x48, 0x45, 0x45, 0x54, 0x01, 0x41, // header
    0x52, 0x00, 0x00, 0x00, 0x09, 0x01, 0x01, 0x61, 0x00, 0x01, 0x00, 0x02, 0x73, 0x68, // session
    0x52, 0x00, 0x00, 0x00, 0x0a, 0x02, 0x00, 0x00, 0x00, 0x00, 0x01, 0x61, 0x00, 0x01, 0x78, // new
    0x52, 0x00, 0x00, 0x00, 0x05, 0x06, 0x00, 0x00, 0x00, 0x01, // clear
    0x52, 0x00, 0x00, 0x00, 0x15, 0x07, 0x00, 0x00, 0x00, 0x01, 0x00, 0x02, 0x3e, 0x20, 0x02, 0x76,
    0x65, 0x72, 0x62, 0x61, 0x74, 0x69, 0x6d, 0x3a, 0x41, 0x05, // answer
    0x00,
];

fn octets(alloc: Global, bytes: &[u8]) -> Option<Octets> {
    Octets::from_slice(alloc, bytes).ok()
}

/// Session `a`, plain, with the word `sh`.
pub fn session(alloc: Global) -> Option<Op> {
    let mut words = Vec::new(alloc);
    words.push(octets(alloc, b"sh")?).ok()?;
    Some(Op::Session {
        name: octets(alloc, b"a")?,
        tab: false,
        words: Sequence::from_vec(words),
    })
}

/// A field of it with the input `x`.
pub fn new(alloc: Global) -> Option<Op> {
    Some(Op::New {
        after: 0,
        session: octets(alloc, b"a")?,
        input: octets(alloc, b"x")?,
    })
}

/// The answer to field 1 with this output, and the prompt `> `.
pub fn answer(alloc: Global, output: &[u8]) -> Option<Op> {
    let prompt = octets(alloc, b"> ")?;
    let output = read_block(alloc, output).ok()?;
    Some(Op::Answer {
        id: 1,
        prompt,
        output,
    })
}

/// A disk in memory with an empty journal.
pub fn empty_disk(alloc: Global, room: u64) -> Option<MemoryDisk> {
    if room < 11 || room > 2_147_483_648 {
        return None;
    }
    create(MemoryDisk::new(alloc, room)).ok()
}

/// A disk in memory whose area First has these bytes.
pub fn holding(alloc: Global, first: &[u8]) -> Option<MemoryDisk> {
    if first.len() > 100 {
        return None;
    }
    let first = first.to_vec(alloc).ok()?;
    MemoryDisk::holding(alloc, 100, first).ok()
}

pub fn store_on<D: Disk>(alloc: Global, disk: D) -> Option<Store<D>> {
    Store::open(alloc, disk).ok()
}

pub fn created(alloc: Global, room: u64) -> Option<Store<MemoryDisk>> {
    store_on(alloc, empty_disk(alloc, room)?)
}

/// What came of an op.
#[derive(Clone, Copy, PartialEq, Eq)]
pub enum Outcome {
    Done,
    /// The worksheet doesn't allow it.
    Refused,
    Full,
    OutOfMemory,
    Disk,
    Closed,
}

fn outcome_of(committed: &Result<(), CommitFault>) -> Outcome {
    match committed {
        Ok(()) => Outcome::Done,
        Err(CommitFault::Full(_)) => Outcome::Full,
        Err(CommitFault::OutOfMemory(_)) => Outcome::OutOfMemory,
        Err(CommitFault::Disk) => Outcome::Disk,
        Err(CommitFault::Closed) => Outcome::Closed,
    }
}

/// Commits an op.
pub fn put<D: Disk>(store: &mut Store<D>, op: Op) -> Outcome {
    if store.sheet().check(&op).is_err() {
        return Outcome::Refused;
    }
    outcome_of(&store.commit(op))
}

/// Prepares the record of an op.
pub fn prepared<D: Disk>(store: &mut Store<D>, op: &Op) -> Outcome {
    if store.sheet().check(op).is_err() {
        return Outcome::Refused;
    }
    match store.prepare(op) {
        Ok(_) => Outcome::Done,
        Err(PrepareFault::Full) => Outcome::Full,
        Err(PrepareFault::OutOfMemory) => Outcome::OutOfMemory,
        Err(PrepareFault::Closed) => Outcome::Closed,
    }
}

/// Whether the worksheet has session `a`.
pub fn has_session<D: Disk>(store: &Store<D>) -> bool {
    store.sheet().session(b"a").is_some()
}

// The ops of the worked example, in order.
fn op(alloc: Global, number: usize) -> Option<Op> {
    match number {
        0 => session(alloc),
        1 => new(alloc),
        2 => Some(Op::Clear { id: 1 }),
        _ => answer(alloc, b"\x02verbatim:A\x05"),
    }
}

/// Commits an op, where there is one.
pub fn put_if<D: Disk>(store: &mut Store<D>, op: Option<Op>) -> Outcome {
    match op {
        Some(op) => put(store, op),
        None => Outcome::Refused,
    }
}

/// Commits session `a`.
pub fn put_session<D: Disk>(alloc: Global, store: &mut Store<D>) -> Outcome {
    put_if(store, session(alloc))
}

fn are_put(alloc: Global, store: &mut Store<MemoryDisk>, ops: usize) -> bool {
    for number in 0..ops {
        if put_if(store, op(alloc, number)) != Outcome::Done {
            return false;
        }
    }
    true
}

/// A store with the first ops of the worked example.
pub fn store_of(alloc: Global, room: u64, ops: usize) -> Option<Store<MemoryDisk>> {
    let mut store = created(alloc, room)?;
    if are_put(alloc, &mut store, ops) {
        Some(store)
    } else {
        None
    }
}
