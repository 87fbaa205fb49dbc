//! Commands that are taken as a whole or not at all: the calls that they make, a crash at each of their moments, a disk that
//! fails at each of their calls, and refusals, which leave the disk untouched.
use super::desk::{created, line, open};
use super::failing::calls_of;
use super::moments::{each_choice_leaves, moments_leave};
use super::stories::{Step, Story, calls_after, opening_disk, shows, take, tells_each};
use disk_model::{Area, Disk, FuseDisk, FuseMode, MemoryDisk};
use host_events::{Event, HostFault, Outcome, Reply};
use journal::create;
use session_engine::{Edits, Host, Whole, WholeFault};
use std::alloc::Global;
use worksheet::Refusal;

const STORY: Story = Story::Fields;

// The first four events of the story are commands that only change the worksheet.
const ALL: u32 = 4;

fn add(edits: &mut Edits, event: Option<Event>) -> Option<()> {
    match event {
        Some(Event::Command(command)) => edits.add(command).ok(),
        _ => None,
    }
}

// So many first commands of the story, then a line that is refused, then those that are left of them.
fn with_refusal(alloc: Global, count: u32) -> Option<Edits> {
    let mut edits = Edits::new(alloc);
    for number in 0..ALL {
        if number == count {
            add(&mut edits, line(alloc, b"set 9 x"))?;
        }
        add(&mut edits, STORY.event(alloc, number))?;
    }
    if count >= ALL {
        add(&mut edits, line(alloc, b"set 9 x"))?;
    }
    Some(edits)
}

// So many first commands of the story.
fn first_edits(alloc: Global, count: u32) -> Option<Edits> {
    let mut edits = Edits::new(alloc);
    for number in 0..count {
        add(&mut edits, STORY.event(alloc, number))?;
    }
    Some(edits)
}

fn plays<D: Disk>(alloc: Global, host: &mut Host<D>, count: u32) -> Option<bool> {
    match host.play_whole(first_edits(alloc, count)?) {
        Ok(Whole::Taken(outcomes)) => Some(tells_each(STORY, outcomes.as_slice(), count)),
        _ => Some(false),
    }
}

// The disk of a host that took so many commands as a whole.
fn disk_of_whole(alloc: Global, count: u32) -> Option<MemoryDisk> {
    let mut host = open(alloc, created(alloc)?)?;
    if plays(alloc, &mut host, count)? {
        Some(host.close())
    } else {
        None
    }
}

// How many calls it made, where its areas have the bytes that single steps leave.
fn calls_of_whole(alloc: Global, count: u32) -> Option<u64> {
    let start = calls_after(alloc, STORY, 0)?;
    let single = opening_disk(alloc, STORY, count)?;
    let disk = disk_of_whole(alloc, count)?;
    let is_same = disk.content(Area::First) == single.content(Area::First)
        && disk.content(Area::Second) == single.content(Area::Second);
    if is_same {
        disk.calls().checked_sub(start)
    } else {
        None
    }
}

#[test]
fn a_whole_is_written_as_one(rt: HostRuntime) {
    let alloc = rt.alloc();
    for (count, calls) in [(0, 0), (1, 4), (2, 4), (3, 4), (4, 4)] {
        assert!(rt;
            calls_of_whole(alloc, count) == Some(calls),
            "{count} commands"
        );
    }
}

// A crash leaves none of them or all; none before the gate was written, and all once the call has ended.
fn is_whole_or_absent(alloc: Global) -> Option<bool> {
    let start = calls_after(alloc, STORY, 0)?;
    let disk = disk_of_whole(alloc, ALL)?;
    let (written, end) = (start.saturating_add(2), start.saturating_add(4));
    Some(
        disk.calls() == end
            && moments_leave(alloc, &disk, (start, written), STORY, (0, 0))
            && moments_leave(alloc, &disk, (written, end), STORY, (0, ALL))
            && each_choice_leaves(alloc, &disk, end, STORY, (ALL, ALL)),
    )
}

#[test]
fn a_crash_within_a_whole(rt: HostRuntime) {
    assert!(rt; is_whole_or_absent(rt.alloc()) == Some(true));
}

// Whether the disk failed, and the host is closed.
fn fails(alloc: Global, host: &mut Host<FuseDisk<MemoryDisk>>) -> Option<bool> {
    let is_failed = match host.play_whole(first_edits(alloc, ALL)?) {
        Err(fault) => fault == WholeFault::Disk,
        Ok(_) => false,
    };
    let is_closed = match host.play_whole(first_edits(alloc, 1)?) {
        Err(fault) => fault == WholeFault::Closed,
        Ok(_) => false,
    };
    Some(is_failed && is_closed && take(alloc, host, STORY, 0) == Step::Failed(HostFault::Closed))
}

fn shows_none_or_all(alloc: Global, disk: MemoryDisk) -> bool {
    match open(alloc, disk) {
        Some(host) => {
            shows(alloc, &host, STORY.following(0)) || shows(alloc, &host, STORY.following(ALL))
        }
        None => false,
    }
}

fn fails_at(alloc: Global, k: u64, mode: FuseMode) -> Option<bool> {
    let mut host = open(alloc, FuseDisk::new(created(alloc)?, k, mode))?;
    let is_failed = fails(alloc, &mut host)?;
    Some(is_failed && shows_none_or_all(alloc, host.close().into_inner()))
}

// How many of the first calls after the opening make it fail so.
fn failures(alloc: Global, mode: FuseMode) -> Option<u32> {
    let opening = calls_of(alloc, STORY, 0)?;
    let mut count = 0u32;
    for k in 1..9u64 {
        if fails_at(alloc, opening.saturating_add(k), mode) == Some(true) {
            count = count.saturating_add(1);
        }
    }
    Some(count)
}

#[test]
fn a_disk_that_fails_in_a_whole(rt: HostRuntime) {
    assert!(rt; failures(rt.alloc(), FuseMode::Only) == Some(4));
    assert!(rt; failures(rt.alloc(), FuseMode::From) == Some(4));
}

fn is_refused(outcome: &Outcome, wanted: Refusal) -> bool {
    match &outcome.reply {
        Reply::Refused(refusal) => *refusal == wanted,
        _ => false,
    }
}

// Whether the command after so many is refused for this, the first ones being reported as by themselves.
fn refuses(host: &mut Host<MemoryDisk>, edits: Edits, count: u32, wanted: Refusal) -> bool {
    match host.play_whole(edits) {
        Ok(Whole::Refused { before, last }) => {
            tells_each(STORY, before.as_slice(), count) && is_refused(&last, wanted)
        }
        _ => false,
    }
}

// A refusal after so many commands: none is taken and no call is made, and after it all are taken.
fn leaves_all(alloc: Global, count: u32) -> Option<bool> {
    let start = calls_after(alloc, STORY, 0)?;
    let mut host = open(alloc, created(alloc)?)?;
    let is_refused = refuses(
        &mut host,
        with_refusal(alloc, count)?,
        count,
        Refusal::NoField,
    ) && shows(alloc, &host, STORY.following(0));
    let is_taken = plays(alloc, &mut host, ALL)? && shows(alloc, &host, STORY.following(ALL));
    Some(is_refused && is_taken && host.close().calls() == start.saturating_add(4))
}

#[test]
fn a_refusal_in_a_whole(rt: HostRuntime) {
    let alloc = rt.alloc();
    for count in 0..ALL + 1 {
        assert!(rt;
            leaves_all(alloc, count) == Some(true),
            "after {count} commands"
        );
    }
}

// The journal has room for the first command, and not for the second.
fn is_full_for_two(alloc: Global) -> Option<bool> {
    let disk = create(MemoryDisk::new(alloc, 30)).ok()?;
    let mut host = open(alloc, disk)?;
    let is_refused = refuses(&mut host, first_edits(alloc, 2)?, 1, Refusal::JournalFull)
        && shows(alloc, &host, STORY.following(0));
    let is_taken = plays(alloc, &mut host, 1)?;
    let kept = open(alloc, host.close())?;
    Some(is_refused && is_taken && shows(alloc, &kept, STORY.following(1)))
}

#[test]
fn a_whole_that_does_not_fit(rt: HostRuntime) {
    assert!(rt; is_full_for_two(rt.alloc()) == Some(true));
}
