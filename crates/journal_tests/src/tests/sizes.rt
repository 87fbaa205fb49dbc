//! Journals: the longest payload, and very many.
use disk_model::MemoryDisk;
use journal::{Frame, Journal, Payload, create};
use std::alloc::Global;

// An empty journal on a disk of the greatest room.
fn empty(alloc: Global) -> Option<Journal<MemoryDisk>> {
    let disk = create(MemoryDisk::new(alloc, 2_147_483_648)).ok()?;
    let (journal, _payloads) = Journal::open(alloc, disk).ok()?;
    Some(journal)
}

// A journal with one payload more.
fn longer(
    alloc: Global,
    journal: Journal<MemoryDisk>,
    payload: &[u8],
) -> Option<Journal<MemoryDisk>> {
    if payload.is_empty() || payload.len() > 33_554_432 {
        return None;
    }
    let frame = Frame::new(alloc, payload).ok()?;
    journal.append(&frame).ok()
}

// The payloads to which the disk of a journal opens.
fn payloads_of(alloc: Global, journal: Journal<MemoryDisk>) -> Option<Vec<Payload>> {
    let (_journal, payloads) = Journal::open(alloc, journal.into_disk()).ok()?;
    Some(payloads)
}

// A payload of the greatest length, whose bytes go round.
fn longest(alloc: Global) -> Option<Vec<u8>> {
    let mut bytes = Vec::with_capacity(alloc, 33_554_432).ok()?;
    let mut byte = 0u8;
    for _ in 0..33_554_432u32 {
        bytes.push(byte).ok()?;
        byte = byte.wrapping_add(7);
    }
    Some(bytes)
}

// Whether a journal keeps the longest payload.
fn keeps_the_longest(alloc: Global) -> Option<bool> {
    let payload = longest(alloc)?;
    let journal = longer(alloc, empty(alloc)?, payload.as_slice())?;
    match payloads_of(alloc, journal)?.as_slice() {
        [only] => Some(only.gate == 10 && only.bytes.as_slice() == payload.as_slice()),
        _ => Some(false),
    }
}

#[test]
fn the_longest_payload_is_appended_and_read(rt: HostRuntime) {
    assert!(rt; keeps_the_longest(rt.alloc()) == Some(true));
}

// A journal with so many payloads, the numbers from 1 on.
fn numbered(alloc: Global, count: u32) -> Option<Journal<MemoryDisk>> {
    let mut journal = empty(alloc)?;
    for i in 0..count {
        let number = i.saturating_add(1);
        journal = longer(alloc, journal, &number.to_be_bytes())?;
    }
    Some(journal)
}

// Whether these are the numbers from 1 on.
fn are_numbered(payloads: &[Payload]) -> bool {
    let mut number = 0u32;
    for payload in payloads {
        number = number.saturating_add(1);
        if payload.bytes.as_slice() != number.to_be_bytes().as_slice() {
            return false;
        }
    }
    true
}

// How many payloads a journal of so many opens to, where they are the numbers from 1 on.
fn found(alloc: Global, count: u32) -> Option<usize> {
    let payloads = payloads_of(alloc, numbered(alloc, count)?)?;
    if are_numbered(payloads.as_slice()) {
        Some(payloads.len())
    } else {
        None
    }
}

#[test]
fn a_hundred_thousand_payloads(rt: HostRuntime) {
    assert!(rt; found(rt.alloc(), 100_000) == Some(100_000));
}
