//! Hosts one after another on one disk.
use super::desk::{CHOICES, answer, calls_of_create, choice, left, line, open};
use super::stories::{Reported, Story, disk_of, opening_disk, shows, tells};
use disk_model::{Choice, MemoryDisk};
use session_engine::Host;
use std::alloc::Global;

// An answer that the earlier interpreter gave counts for nothing, and the line can be evaluated again, by the
// first life of this host.
fn begins_again(alloc: Global, host: &mut Host<MemoryDisk>) -> bool {
    let is_stale = tells(host, answer(alloc), Reported::Nothing);
    let is_open = shows(alloc, host, Story::Example.following(4));
    let is_asked = tells(host, line(alloc, b"eval 1"), Reported::Asked);
    is_stale && is_open && is_asked
}

fn begins_again_on(alloc: Global, disk: MemoryDisk) -> bool {
    match open(alloc, disk) {
        Some(mut host) => begins_again(alloc, &mut host),
        None => false,
    }
}

// Whether it is so on what this crash leaves.
fn forgets_the_earlier_life(alloc: Global, disk: &MemoryDisk, choice: &Choice) -> bool {
    match left(disk, choice) {
        Some(left) => begins_again_on(alloc, left),
        None => false,
    }
}

fn each_forgets(alloc: Global, disk: &MemoryDisk) -> bool {
    for number in 0..CHOICES {
        if !forgets_the_earlier_life(alloc, disk, &choice(disk.calls(), number)) {
            return false;
        }
    }
    true
}

#[test]
fn a_crash_between_the_banner_and_the_answer(rt: HostRuntime) {
    let forgets = match opening_disk(rt.alloc(), Story::Example, 4) {
        Some(disk) => each_forgets(rt.alloc(), &disk),
        None => false,
    };
    assert!(rt; forgets);
}

// How many of the events of the example a worksheet shows at least: what a host that finds it has to do is
// the rest.
fn found(alloc: Global, host: &Host<MemoryDisk>) -> Option<u32> {
    for count in 0..6u32 {
        if shows(alloc, host, Story::Example.following(count)) {
            return Some(count);
        }
    }
    None
}

// The same of what a crash leaves.
fn found_after(alloc: Global, disk: &MemoryDisk, choice: &Choice) -> Option<u32> {
    let host = open(alloc, left(disk, choice)?)?;
    found(alloc, &host)
}

// Whether each crash of this kind, at each moment, leaves at least what so many events made.
fn keeps(alloc: Global, disk: &MemoryDisk, number: u32, count: u32) -> bool {
    for moment in 0..disk.calls().saturating_add(1) {
        match found_after(alloc, disk, &choice(moment, number)) {
            Some(found) if found >= count => {}
            _ => return false,
        }
    }
    true
}

// A first host is cut off by a crash of this kind, a second one plays what is missing and is cut off by a
// crash of the same kind at each moment: what a third one finds is no less than what the second one found.
fn nothing_is_lost(alloc: Global, disk: &MemoryDisk, moment: u64, number: u32) -> Option<bool> {
    let crash = choice(moment, number);
    let count = found_after(alloc, disk, &crash)?;
    let second = disk_of(alloc, left(disk, &crash)?, Story::Example, (count, 5))?;
    Some(keeps(alloc, &second, number, count))
}

// The same of a crash at each moment from this one on.
fn is_lost_nowhere(alloc: Global, disk: &MemoryDisk, first: u64, number: u32) -> bool {
    for moment in first..disk.calls().saturating_add(1) {
        if nothing_is_lost(alloc, disk, moment, number) != Some(true) {
            return false;
        }
    }
    true
}

fn nothing_is_lost_in_turn(alloc: Global, number: u32) -> Option<bool> {
    let first = calls_of_create(alloc)?;
    let disk = opening_disk(alloc, Story::Example, 5)?;
    Some(is_lost_nowhere(alloc, &disk, first, number))
}

#[test]
fn two_crashes_one_after_another(rt: HostRuntime) {
    for number in 0..CHOICES {
        let is_kept = nothing_is_lost_in_turn(rt.alloc(), number);
        assert!(rt; is_kept == Some(true), "choice {number}");
    }
}
