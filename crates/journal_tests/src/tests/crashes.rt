//! What a crash leaves of an append.
use super::desk::{SESSION, created, empty, opened, put};
use disk_model::{Choice, Fill, MemoryDisk};
use journal::Payload;
use std::alloc::Global;

fn is_session(payload: &Payload) -> bool {
    payload.gate == 10 && payload.bytes.as_slice() == SESSION.as_slice()
}

// How many payloads a disk has, each of them the session's.
fn count_on(alloc: Global, disk: MemoryDisk) -> Option<usize> {
    let (_, payloads) = opened(alloc, disk)?;
    for payload in &payloads {
        if !is_session(payload) {
            return None;
        }
    }
    Some(payloads.len())
}

// How many a crash leaves.
fn left_by(alloc: Global, disk: &MemoryDisk, choice: &Choice) -> Option<usize> {
    if choice.moment > disk.calls() {
        return None;
    }
    count_on(alloc, disk.crash(choice).ok()?)
}

fn fill(number: u32) -> Fill {
    match number {
        0 => Fill::Old,
        1 => Fill::New,
        2 => Fill::Torn(1),
        3 => Fill::Byte(0),
        _ => Fill::Byte(0x52),
    }
}

// Whether each crash at this moment leaves one payload, or none where that may be.
fn leaves(alloc: Global, disk: &MemoryDisk, moment: u64, or_none: bool) -> bool {
    for number in 0..10u32 {
        let choice = Choice {
            moment,
            fill: fill(number / 2),
            grown: number % 2 == 1,
        };
        match left_by(alloc, disk, &choice) {
            Some(1) => {}
            Some(0) if or_none => {}
            _ => return false,
        }
    }
    true
}

// The same of each moment from this one on, and of the last one that it leaves one payload.
fn each_leaves(alloc: Global, disk: &MemoryDisk, start: u64) -> bool {
    for moment in start..disk.calls() {
        if !leaves(alloc, disk, moment, true) {
            return false;
        }
    }
    leaves(alloc, disk, disk.calls(), false)
}

fn is_there_or_absent(alloc: Global) -> Option<bool> {
    let disk = created(alloc, 25)?;
    let start = disk.calls();
    let journal = put(alloc, empty(alloc, disk)?, &SESSION)?.done()?;
    Some(each_leaves(alloc, &journal.into_disk(), start))
}

#[test]
fn a_crash_leaves_the_record_or_none(rt: HostRuntime) {
    assert!(rt; is_there_or_absent(rt.alloc()) == Some(true));
}
