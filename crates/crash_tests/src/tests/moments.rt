//! A crash at each moment, with each choice of what the pending writes left.
use super::desk::{CHOICES, choice, created, left, open};
use super::stories::{Story, calls_after, disk_of, opening_disk, shows};
use disk_model::{Choice, MemoryDisk};
use host_events::Event;
use session_engine::Host;
use std::alloc::Global;

fn shows_either(
    alloc: Global,
    host: &Host<MemoryDisk>,
    story: Story,
    (start, stop): (u32, u32),
) -> bool {
    shows(alloc, host, story.following(start)) || shows(alloc, host, story.following(stop))
}

// Whether this crash leaves the worksheet after one of two counts of events.
fn is_left(
    alloc: Global,
    disk: &MemoryDisk,
    choice: &Choice,
    story: Story,
    counts: (u32, u32),
) -> bool {
    let Some(left) = left(disk, choice) else {
        return false;
    };
    match open(alloc, left) {
        Some(host) => shows_either(alloc, &host, story, counts),
        None => false,
    }
}

/// Whether each choice of a crash at this moment leaves one of two worksheets.
pub fn each_choice_leaves(
    alloc: Global,
    disk: &MemoryDisk,
    moment: u64,
    story: Story,
    counts: (u32, u32),
) -> bool {
    for number in 0..CHOICES {
        if !is_left(alloc, disk, &choice(moment, number), story, counts) {
            return false;
        }
    }
    true
}

/// Whether each crash from this moment to that one leaves one of two worksheets.
pub fn moments_leave(
    alloc: Global,
    disk: &MemoryDisk,
    (first, last): (u64, u64),
    story: Story,
    counts: (u32, u32),
) -> bool {
    for moment in first..last.saturating_add(1) {
        if !each_choice_leaves(alloc, disk, moment, story, counts) {
            return false;
        }
    }
    true
}

// A crash within this event leaves the worksheet before it, or with it; after its `Ok` with it alone.
fn is_whole_or_absent(alloc: Global, story: Story, number: u32) -> Option<bool> {
    let end = number.saturating_add(1);
    let first = calls_after(alloc, story, number)?;
    let disk = opening_disk(alloc, story, end)?;
    let last = disk.calls();
    let within = moments_leave(alloc, &disk, (first, last), story, (number, end));
    Some(within && each_choice_leaves(alloc, &disk, last, story, (end, end)))
}

// The first event at which a crash leaves something else.
fn first_torn(alloc: Global, story: Story) -> Option<u32> {
    for number in 0..story.len() {
        if is_whole_or_absent(alloc, story, number) != Some(true) {
            return Some(number);
        }
    }
    None
}

#[test]
fn a_crash_within_each_event(rt: HostRuntime) {
    for story in [Story::Example, Story::Lost, Story::Fields, Story::Line] {
        assert_eq!(rt; first_torn(rt.alloc(), story), None);
    }
}

// How many calls so many events make after the opening.
fn calls_of(alloc: Global, story: Story, count: u32) -> Option<u64> {
    let start = calls_after(alloc, story, 0)?;
    calls_after(alloc, story, count)?.checked_sub(start)
}

// A record is written and synced, and then its gate is; the banner makes no call, nor does half an answer, and the
// end that keeps a reason is a change.
#[test]
fn each_change_is_four_calls(rt: HostRuntime) {
    let alloc = rt.alloc();
    for (count, calls) in [(1, 4), (2, 8), (3, 12), (4, 12), (5, 16)] {
        assert!(rt;
            calls_of(alloc, Story::Example, count) == Some(calls),
            "{count} events"
        );
    }
    for (count, calls) in [(5, 12), (6, 16)] {
        assert!(rt;
            calls_of(alloc, Story::Lost, count) == Some(calls),
            "{count} events"
        );
    }
}

// Whether an opening of the worksheet after so many events makes calls, and a crash at each of their
// moments loses nothing.
fn is_kept_in_the_opening(alloc: Global, disk: MemoryDisk, count: u32) -> Option<bool> {
    let first = disk.calls();
    let disk = disk_of(alloc, disk, Story::Example, (0, 0))?;
    let last = disk.calls();
    let counts = (count, count);
    Some(last > first && moments_leave(alloc, &disk, (first, last), Story::Example, counts))
}

fn openings_keep(alloc: Global) -> Option<bool> {
    let empty = is_kept_in_the_opening(alloc, created(alloc)?, 0)?;
    let answered = opening_disk(alloc, Story::Example, 5)?;
    Some(empty && is_kept_in_the_opening(alloc, answered, 5)?)
}

// The opening of a new worksheet, and one of a worksheet that has the answer.
#[test]
fn a_crash_within_an_opening(rt: HostRuntime) {
    assert!(rt; openings_keep(rt.alloc()) == Some(true));
}

// Those for which there is no memory are left out, and then fewer outcomes come.
fn events(alloc: Global) -> Vec<Event> {
    let mut events = Vec::new(alloc);
    for number in 0..5u32 {
        if let Some(event) = Story::Example.event(alloc, number) {
            let _ = events.push(event);
        }
    }
    events
}

// Whether a host takes these events, five of them, as one list.
fn plays_all(host: &mut Host<MemoryDisk>, events: Vec<Event>) -> bool {
    match host.play(events) {
        Ok(outcomes) => outcomes.len() == 5,
        Err(_) => false,
    }
}

// The disk of a host that was given the five events as one list.
fn disk_of_play(alloc: Global) -> Option<MemoryDisk> {
    let mut host = open(alloc, created(alloc)?)?;
    if plays_all(&mut host, events(alloc)) {
        Some(host.close())
    } else {
        None
    }
}

// Which worksheets the moments of an event's calls lie between. Each change is four calls.
fn within_change(number: u32) -> (u32, u32) {
    match number {
        3 => (4, 5),
        _ => (number, number.saturating_add(1)),
    }
}

fn each_change_leaves(alloc: Global, disk: &MemoryDisk, start: u64) -> bool {
    for number in 0..4u32 {
        let first = start.saturating_add(4 * number as u64);
        let moments = (first, first.saturating_add(4));
        if !moments_leave(alloc, disk, moments, Story::Example, within_change(number)) {
            return false;
        }
    }
    disk.calls() == start.saturating_add(16)
}

fn is_whole_in_a_play(alloc: Global) -> Option<bool> {
    let start = calls_after(alloc, Story::Example, 0)?;
    let disk = disk_of_play(alloc)?;
    Some(each_change_leaves(alloc, &disk, start))
}

#[test]
fn a_crash_within_a_play(rt: HostRuntime) {
    assert!(rt; is_whole_in_a_play(rt.alloc()) == Some(true));
}
