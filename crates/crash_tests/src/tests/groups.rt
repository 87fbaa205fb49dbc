//! Events that one gate commits: their bytes and calls beside those of single steps, a crash at each of their moments, a
//! disk that fails at each of their calls, and what no group takes.
use super::desk::{created, line, open};
use super::failing::calls_of;
use super::moments::{each_choice_leaves, moments_leave};
use super::stories::{Step, Story, calls_after, opening_disk, shows, take, takes, tells_each};
use disk_model::{Area, Disk, FuseDisk, FuseMode, MemoryDisk};
use host_events::{Event, HostFault, Outcome, Reply};
use journal::create;
use session_engine::{GroupFault, Host};
use std::alloc::Global;
use worksheet::Refusal;

// Those for which there is no memory are left out, and then fewer outcomes come.
fn first_events(alloc: Global, count: u32) -> Vec<Event> {
    let mut events = Vec::new(alloc);
    for number in 0..count {
        if let Some(event) = Story::Example.event(alloc, number) {
            let _ = events.push(event);
        }
    }
    events
}

// Whether a host takes so many events as a group, with what they tell.
fn plays(alloc: Global, host: &mut Host<MemoryDisk>, count: u32) -> bool {
    match host.play_group(first_events(alloc, count)) {
        Ok(outcomes) => tells_each(Story::Example, outcomes.as_slice(), count),
        Err(_) => false,
    }
}

// The disk of a host that took so many events as a group, and the others one by one.
fn disk_of_group(alloc: Global, count: u32) -> Option<MemoryDisk> {
    let mut host = open(alloc, created(alloc)?)?;
    let is_taken = plays(alloc, &mut host, count)
        && takes(alloc, &mut host, Story::Example, (count, 5));
    if is_taken { Some(host.close()) } else { None }
}

// How many calls it made, where its areas have the bytes that single steps leave.
fn calls_of_group(alloc: Global, count: u32) -> Option<u64> {
    let start = calls_after(alloc, Story::Example, 0)?;
    let single = opening_disk(alloc, Story::Example, 5)?;
    let disk = disk_of_group(alloc, count)?;
    let is_same = disk.content(Area::First) == single.content(Area::First)
        && disk.content(Area::Second) == single.content(Area::Second);
    if is_same {
        disk.calls().checked_sub(start)
    } else {
        None
    }
}

// Four of the five events give an op each. The calls of a record are four, and so are those of a group.
#[test]
fn a_group_is_written_as_one(rt: HostRuntime) {
    let alloc = rt.alloc();
    for (count, calls) in [(0, 16), (1, 16), (2, 12), (3, 8), (4, 8), (5, 4)] {
        assert!(rt;
            calls_of_group(alloc, count) == Some(calls),
            "{count} events"
        );
    }
}

// A crash leaves none of its events or all; none before the gate was written, and all once the call has ended.
fn is_whole_or_absent(alloc: Global) -> Option<bool> {
    let story = Story::Example;
    let start = calls_after(alloc, story, 0)?;
    let disk = disk_of_group(alloc, 5)?;
    let (written, end) = (start.saturating_add(2), start.saturating_add(4));
    Some(
        disk.calls() == end
            && moments_leave(alloc, &disk, (start, written), story, (0, 0))
            && moments_leave(alloc, &disk, (written, end), story, (0, 5))
            && each_choice_leaves(alloc, &disk, end, story, (5, 5)),
    )
}

#[test]
fn a_crash_within_a_group(rt: HostRuntime) {
    assert!(rt; is_whole_or_absent(rt.alloc()) == Some(true));
}

// Whether the disk failed in the group, and the host is closed.
fn fails(alloc: Global, host: &mut Host<FuseDisk<MemoryDisk>>) -> bool {
    let is_failed = match host.play_group(first_events(alloc, 5)) {
        Err(GroupFault::Disk) => true,
        _ => false,
    };
    is_failed && take(alloc, host, Story::Example, 0) == Step::Failed(HostFault::Closed)
}

fn shows_none_or_all(alloc: Global, disk: MemoryDisk) -> bool {
    let story = Story::Example;
    match open(alloc, disk) {
        Some(host) => {
            shows(alloc, &host, story.following(0)) || shows(alloc, &host, story.following(5))
        }
        None => false,
    }
}

fn fails_at(alloc: Global, k: u64, mode: FuseMode) -> Option<bool> {
    let mut host = open(alloc, FuseDisk::new(created(alloc)?, k, mode))?;
    let is_failed = fails(alloc, &mut host);
    Some(is_failed && shows_none_or_all(alloc, host.close().into_inner()))
}

// How many of the first calls after the opening make it fail so.
fn failures(alloc: Global, mode: FuseMode) -> Option<u32> {
    let opening = calls_of(alloc, Story::Example, 0)?;
    let mut count = 0u32;
    for k in 1..9u64 {
        if fails_at(alloc, opening.saturating_add(k), mode) == Some(true) {
            count = count.saturating_add(1);
        }
    }
    Some(count)
}

#[test]
fn a_disk_that_fails_in_a_group(rt: HostRuntime) {
    assert!(rt; failures(rt.alloc(), FuseMode::Only) == Some(4));
    assert!(rt; failures(rt.alloc(), FuseMode::From) == Some(4));
}

// A checkpoint is in no group: nothing is taken, and the events come back.
fn hands_back(alloc: Global, host: &mut Host<MemoryDisk>) -> bool {
    let mut events = first_events(alloc, 2);
    if let Some(event) = line(alloc, b"checkpoint") {
        let _ = events.push(event);
    }
    match host.play_group(events) {
        Err(GroupFault::Checkpoint(back)) => back.len() == 3,
        _ => false,
    }
}

fn leaves_a_checkpoint(alloc: Global) -> Option<bool> {
    let start = calls_after(alloc, Story::Example, 0)?;
    let mut host = open(alloc, created(alloc)?)?;
    let is_back = hands_back(alloc, &mut host) && shows(alloc, &host, Story::Example.following(0));
    Some(is_back && host.close().calls() == start)
}

#[test]
fn a_group_with_a_checkpoint(rt: HostRuntime) {
    assert!(rt; leaves_a_checkpoint(rt.alloc()) == Some(true));
}

fn is_refused(outcome: &Outcome) -> bool {
    match &outcome.reply {
        Reply::Refused(refusal) => *refusal == Refusal::JournalFull,
        _ => false,
    }
}

// Whether the first of two events is taken, and the second one has no room.
fn fills(alloc: Global, host: &mut Host<MemoryDisk>) -> bool {
    match host.play_group(first_events(alloc, 2)) {
        Ok(outcomes) => match outcomes.as_slice() {
            [_, second] => is_refused(second) && shows(alloc, host, Story::Example.following(1)),
            _ => false,
        },
        Err(_) => false,
    }
}

fn keeps_what_fits(alloc: Global) -> Option<bool> {
    let disk = create(MemoryDisk::new(alloc, 30)).ok()?;
    let mut host = open(alloc, disk)?;
    let is_filled = fills(alloc, &mut host);
    let kept = open(alloc, host.close())?;
    Some(is_filled && shows(alloc, &kept, Story::Example.following(1)))
}

#[test]
fn a_group_that_does_not_fit(rt: HostRuntime) {
    assert!(rt; keeps_what_fits(rt.alloc()) == Some(true));
}
