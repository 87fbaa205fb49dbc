//! Payloads in place of a journal's own.
use super::desk::{
    Appended, SESSION, empty_in, frame, has, has_session_alone, rewrite, with_session,
};
use disk_model::{Area, MemoryDisk};
use journal::{Frame, Journal};
use std::alloc::Global;

fn frames(alloc: Global, count: u32) -> Option<Vec<Frame>> {
    let mut frames = Vec::new(alloc);
    for _ in 0..count {
        frames.push(frame(alloc, &SESSION)?).ok()?;
    }
    Some(frames)
}

// What becomes of so many sessions in place of the payloads.
fn sessions(
    alloc: Global,
    journal: Journal<MemoryDisk>,
    count: u32,
) -> Option<Appended<MemoryDisk>> {
    match frames(alloc, count) {
        Some(frames) => Some(rewrite(journal, frames.as_slice())),
        None => None,
    }
}

fn is_as_before(alloc: Global) -> Option<bool> {
    let journal = sessions(alloc, with_session(alloc, 25)?, 2)?.full()?;
    Some(has_session_alone(&journal.into_disk()))
}

#[test]
fn payloads_without_room_are_not_written(rt: HostRuntime) {
    assert!(rt; is_as_before(rt.alloc()) == Some(true));
}

// Whether the selector names area Second, and that has 39 bytes.
fn is_in_second(disk: &MemoryDisk) -> bool {
    disk.content(Area::First).get(9) == Some(&0x42) && disk.content(Area::Second).len() == 39
}

fn has_two(alloc: Global, disk: MemoryDisk) -> bool {
    is_in_second(&disk) && has(alloc, disk, &[(10, &SESSION), (24, &SESSION)])
}

fn fill_the_room(alloc: Global) -> Option<bool> {
    let journal = sessions(alloc, with_session(alloc, 39)?, 2)?.done()?;
    Some(has_two(alloc, journal.into_disk()))
}

#[test]
fn payloads_that_fill_the_room(rt: HostRuntime) {
    assert!(rt; fill_the_room(rt.alloc()) == Some(true));
}

fn has_one(alloc: Global, disk: MemoryDisk) -> bool {
    is_in_second(&disk) && has(alloc, disk, &[(10, &SESSION)])
}

fn ends_at_the_gate(alloc: Global) -> Option<bool> {
    let journal = sessions(alloc, empty_in(alloc, 50)?, 2)?.done()?;
    let journal = sessions(alloc, journal, 0)?.done()?;
    let journal = sessions(alloc, journal, 1)?.done()?;
    Some(has_one(alloc, journal.into_disk()))
}

// The second area has the older and longer journal after the last gate of the newer one.
#[test]
fn what_is_after_the_last_gate_is_no_record(rt: HostRuntime) {
    assert!(rt; ends_at_the_gate(rt.alloc()) == Some(true));
}
