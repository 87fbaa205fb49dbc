//! Disks in memory, and journals on them.
use disk_model::{Area, Disk, MemoryDisk};
use journal::{AppendFault, CreateCause, Frame, Journal, Payload, create};
use std::alloc::Global;

/// The payload of a session `a`, plain, with the word `sh`.
pub const SESSION: [u8; 9] = [1, 1, 0x61, 0, 1, 0, 2, 0x73, 0x68];

/// Area First with the payloads of a session, a field, a clearing and an answer.
pub const AREA: [u8; 76] = [
    0x54, 0x4d, 0x57, 0x53, 0x48, 0x45, 0x45, 0x54, 0x01, 0x41, // header
    0x52, 0x00, 0x00, 0x00, 0x09, 0x01, 0x01, 0x61, 0x00, 0x01, 0x00, 0x02, 0x73, 0x68, // session
    0x52, 0x00, 0x00, 0x00, 0x0a, 0x02, 0x00, 0x00, 0x00, 0x00, 0x01, 0x61, 0x00, 0x01, 0x78, // new
    0x52, 0x00, 0x00, 0x00, 0x05, 0x06, 0x00, 0x00, 0x00, 0x01, // clear
    0x52, 0x00, 0x00, 0x00, 0x15, 0x07, 0x00, 0x00, 0x00, 0x01, 0x00, 0x02, 0x3e, 0x20, 0x02, 0x76,
    0x65, 0x72, 0x62, 0x61, 0x74, 0x69, 0x6d, 0x3a, 0x41, 0x05, // answer
    0x00,
];

/// A disk in memory with an empty journal.
pub fn created(alloc: Global, room: u64) -> Option<MemoryDisk> {
    if room < 11 || room > 100 {
        return None;
    }
    create(MemoryDisk::new(alloc, room)).ok()
}

/// A disk in memory whose area First has these bytes.
pub fn holding(alloc: Global, first: &[u8]) -> Option<MemoryDisk> {
    if first.len() > 100 {
        return None;
    }
    let first = first.to_vec(alloc).ok()?;
    MemoryDisk::holding(alloc, 100, first).ok()
}

/// Why a disk isn't created.
pub fn cause_of<D: Disk>(disk: D) -> Option<CreateCause> {
    if disk.room() < 11 {
        return None;
    }
    match create(disk) {
        Ok(_) => None,
        Err(fault) => Some(fault.cause),
    }
}

pub fn opened<D: Disk>(alloc: Global, disk: D) -> Option<(Journal<D>, Vec<Payload>)> {
    Journal::open(alloc, disk).ok()
}

/// A journal on a disk that has no payload.
pub fn empty<D: Disk>(alloc: Global, disk: D) -> Option<Journal<D>> {
    let (journal, payloads) = opened(alloc, disk)?;
    if payloads.is_empty() {
        Some(journal)
    } else {
        None
    }
}

/// An empty journal on a disk in memory.
pub fn empty_in(alloc: Global, room: u64) -> Option<Journal<MemoryDisk>> {
    empty(alloc, created(alloc, room)?)
}

pub fn frame(alloc: Global, payload: &[u8]) -> Option<Frame> {
    if payload.is_empty() || payload.len() > 100 {
        return None;
    }
    Frame::new(alloc, payload).ok()
}

/// What became of an append or a rewrite, with the journal or its disk.
#[derive(Drop)]
pub enum Appended<D: Disk> {
    Done(Journal<D>),
    Full(Journal<D>),
    Failed(D),
}

impl<D: Disk> Appended<D> {
    pub fn done(self) -> Option<Journal<D>> {
        match self {
            Appended::Done(journal) => Some(journal),
            _ => None,
        }
    }

    pub fn full(self) -> Option<Journal<D>> {
        match self {
            Appended::Full(journal) => Some(journal),
            _ => None,
        }
    }
}

pub fn append<D: Disk>(journal: Journal<D>, frame: &Frame) -> Appended<D> {
    match journal.append(frame) {
        Ok(journal) => Appended::Done(journal),
        Err(AppendFault::JournalFull(journal)) => Appended::Full(journal),
        Err(AppendFault::Disk(disk)) => Appended::Failed(disk),
    }
}

pub fn rewrite<D: Disk>(journal: Journal<D>, frames: &[Frame]) -> Appended<D> {
    match journal.rewrite(frames) {
        Ok(journal) => Appended::Done(journal),
        Err(AppendFault::JournalFull(journal)) => Appended::Full(journal),
        Err(AppendFault::Disk(disk)) => Appended::Failed(disk),
    }
}

/// What becomes of one payload more.
pub fn put<D: Disk>(alloc: Global, journal: Journal<D>, payload: &[u8]) -> Option<Appended<D>> {
    match frame(alloc, payload) {
        Some(frame) => Some(append(journal, &frame)),
        None => None,
    }
}

/// A journal on a disk in memory with the payload of the session.
pub fn with_session(alloc: Global, room: u64) -> Option<Journal<MemoryDisk>> {
    put(alloc, empty_in(alloc, room)?, &SESSION)?.done()
}

/// Whether area First has the session alone, and area Second nothing.
pub fn has_session_alone(disk: &MemoryDisk) -> bool {
    let area = b"TMWSHEET\x01A\x52\x00\x00\x00\x09\x01\x01a\x00\x01\x00\x02sh\x00".as_slice();
    disk.content(Area::First) == area && disk.content(Area::Second).is_empty()
}

// Whether these payloads follow these gates.
fn are(payloads: &[Payload], want: &[(u64, &[u8])]) -> bool {
    if payloads.len() != want.len() {
        return false;
    }
    for (payload, (gate, bytes)) in payloads.iter().zip(want) {
        if payload.gate != *gate || payload.bytes.as_slice() != *bytes {
            return false;
        }
    }
    true
}

/// Whether the disk opens to these payloads, after these gates.
pub fn has<D: Disk>(alloc: Global, disk: D, want: &[(u64, &[u8])]) -> bool {
    match opened(alloc, disk) {
        Some((_, payloads)) => are(payloads.as_slice(), want),
        None => false,
    }
}
