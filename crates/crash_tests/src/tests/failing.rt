//! A disk whose calls fail, each in turn, and checkpoints while memory is short.
use super::desk::{calls_of_create, created, open};
use super::stories::{Step, Story, calls_after, shows, take, take_from, takes};
use disk_model::{FuseDisk, FuseMode, MemoryDisk};
use host_events::{Command, Event, HostFault, Reply};
use journal::OpenCause;
use session_engine::Host;
use std::alloc::Global;
use tests_desk::exhausted;
use worksheet::Refusal;

// What is missing after so many events is taken, and then all is there.
fn is_completed(alloc: Global, host: &mut Host<MemoryDisk>, story: Story, count: u32) -> bool {
    let taken = takes(alloc, host, story, (story.missing(count), story.len()));
    taken && shows(alloc, host, story.following(story.len()))
}

fn is_complete_on(alloc: Global, disk: MemoryDisk, story: Story) -> bool {
    match open(alloc, disk) {
        Some(host) => shows(alloc, &host, story.following(story.len())),
        None => false,
    }
}

// A host that is opened again shows the worksheet before the event that failed, or after it, and what
// is missing is taken and kept. A worksheet that is there before and after the event is one before it.
fn is_mended(alloc: Global, disk: MemoryDisk, story: Story, (number, end): (u32, u32)) -> bool {
    let Some(mut host) = open(alloc, disk) else {
        return false;
    };
    let count = if shows(alloc, &host, story.following(number)) {
        number
    } else {
        end
    };
    shows(alloc, &host, story.following(count))
        && is_completed(alloc, &mut host, story, count)
        && is_complete_on(alloc, host.close(), story)
}

// How far a story came on a disk that fails at its k-th call.
#[derive(Clone, Copy, PartialEq, Eq)]
enum Came {
    /// The disk failed while it was opened.
    NotOpened,
    /// So many events were taken, the disk failed in the next one, and the host is closed.
    Closed(u32),
    /// All were taken.
    Done,
    /// It ended otherwise.
    Other,
}

// The last two of these: so many events were taken, and this came of the next one.
fn came_of(alloc: Global, host: &mut Host<FuseDisk<MemoryDisk>>, story: Story) -> Came {
    match take_from(alloc, host, story, (0, story.len())) {
        (_, Step::Taken) => Came::Done,
        (count, Step::Failed(HostFault::Disk)) => {
            let again = take(alloc, host, story, count);
            if again == Step::Failed(HostFault::Closed)
                && shows(alloc, host, story.following(count))
            {
                Came::Closed(count)
            } else {
                Came::Other
            }
        }
        _ => Came::Other,
    }
}

// Which worksheets may be there then: that after so many events, or after so many.
fn may_be(came: Came, story: Story) -> (u32, u32) {
    match came {
        Came::Closed(count) => (count, count.saturating_add(1)),
        Came::Done => (story.len(), story.len()),
        Came::NotOpened | Came::Other => (0, 0),
    }
}

// How far the story came, where the disk opens again and is mended so.
fn mended(alloc: Global, came: Came, disk: MemoryDisk, story: Story) -> Came {
    if is_mended(alloc, disk, story, may_be(came, story)) {
        came
    } else {
        Came::Other
    }
}

fn runs(alloc: Global, host: Host<FuseDisk<MemoryDisk>>, story: Story) -> Came {
    let mut host = host;
    let came = came_of(alloc, &mut host, story);
    mended(alloc, came, host.close().into_inner(), story)
}

fn runs_over(alloc: Global, disk: FuseDisk<MemoryDisk>, story: Story) -> Came {
    match Host::open(alloc, disk) {
        Ok(host) => runs(alloc, host, story),
        Err(fault) => {
            let is_disk = fault.cause == OpenCause::Disk;
            let came = if is_disk {
                Came::NotOpened
            } else {
                Came::Other
            };
            mended(alloc, came, fault.disk.into_inner(), story)
        }
    }
}

// How far a story comes where the k-th call fails, with what is left mended.
fn comes(alloc: Global, story: Story, k: u64, mode: FuseMode) -> Came {
    match created(alloc) {
        Some(disk) => runs_over(alloc, FuseDisk::new(disk, k, mode), story),
        None => Came::Other,
    }
}

/// How many calls the opening of a new worksheet and so many events make.
pub fn calls_of(alloc: Global, story: Story, count: u32) -> Option<u64> {
    let before = calls_of_create(alloc)?;
    calls_after(alloc, story, count)?.checked_sub(before)
}

// The first of these calls whose failure brings the story elsewhere.
fn first_other(
    alloc: Global,
    story: Story,
    (first, last): (u64, u64),
    wanted: Came,
    mode: FuseMode,
) -> Option<u64> {
    for k in first..last {
        if comes(alloc, story, k.saturating_add(1), mode) != wanted {
            return Some(k);
        }
    }
    None
}

// Whether an event makes calls, and each of them fails there.
fn event_fails(alloc: Global, story: Story, number: u32, mode: FuseMode) -> Option<bool> {
    let first = calls_of(alloc, story, number)?;
    let last = calls_of(alloc, story, number.saturating_add(1))?;
    let other = first_other(alloc, story, (first, last), Came::Closed(number), mode);
    Some(last > first && other.is_none())
}

// How many events fail so.
fn failing(alloc: Global, story: Story, mode: FuseMode) -> u32 {
    let mut count = 0u32;
    for number in 0..story.len() {
        if event_fails(alloc, story, number, mode) == Some(true) {
            count = count.saturating_add(1);
        }
    }
    count
}

// Whether each call of the opening fails there, and a call after the last one nowhere.
fn ends_fail(alloc: Global, story: Story, mode: FuseMode) -> Option<bool> {
    let opening = calls_of(alloc, story, 0)?;
    let all = calls_of(alloc, story, story.len())?;
    let opened = first_other(alloc, story, (0, opening), Came::NotOpened, mode);
    let done = first_other(alloc, story, (all, all.saturating_add(2)), Came::Done, mode);
    Some(opening > 0 && all > opening && opened.is_none() && done.is_none())
}

// Whether so many events fail, which are those that change the worksheet, and the opening.
fn fails_rightly(alloc: Global, story: Story, changes: u32) -> bool {
    failing(alloc, story, FuseMode::From) == changes
        && failing(alloc, story, FuseMode::Only) == changes
        && ends_fail(alloc, story, FuseMode::From) == Some(true)
        && ends_fail(alloc, story, FuseMode::Only) == Some(true)
}

#[test]
fn a_disk_that_fails_at_each_call(rt: HostRuntime) {
    assert!(rt; fails_rightly(rt.alloc(), Story::Example, 4));
    assert!(rt; fails_rightly(rt.alloc(), Story::Lost, 4));
    assert!(rt; fails_rightly(rt.alloc(), Story::Fields, 12));
}

// What came of a checkpoint while memory is short.
enum Short {
    Made,
    Refused,
    /// The disk in memory had none for its record of the calls.
    Failed,
    Other,
}

fn short_of(reply: &Reply) -> Short {
    match reply {
        Reply::Done => Short::Made,
        Reply::Refused(Refusal::OutOfMemory) => Short::Refused,
        _ => Short::Other,
    }
}

fn checkpoint(host: &mut Host<MemoryDisk>) -> Short {
    match host.step(Event::Command(Command::Checkpoint)) {
        Ok(outcome) => short_of(&outcome.reply),
        Err(HostFault::Disk) => Short::Failed,
        Err(_) => Short::Other,
    }
}

// How many checkpoints are refused while no memory is left, and then one block more each time.
fn refusals(alloc: Global, host: &mut Host<MemoryDisk>) -> Option<u32> {
    let mut held = exhausted(alloc).ok()?;
    for count in 0..20_000u32 {
        match checkpoint(host) {
            Short::Refused => {}
            Short::Made | Short::Failed => return Some(count),
            Short::Other => return None,
        }
        drop(held.pop());
    }
    None
}

// Some are refused, and each of them leaves the worksheet and the disk as they were.
fn is_kept_without_memory(alloc: Global) -> Option<bool> {
    let story = Story::Fields;
    let before = calls_after(alloc, story, 4)?;
    let mut host = open(alloc, created(alloc)?)?;
    let is_taken = takes(alloc, &mut host, story, (0, 4));
    let refused = refusals(alloc, &mut host)?;
    let is_same = shows(alloc, &host, story.following(4));
    let disk = host.close();
    let is_written = disk.calls() > before;
    Some(is_taken && refused > 0 && is_same && is_written && is_mended(alloc, disk, story, (4, 5)))
}

#[test]
fn a_checkpoint_without_memory(rt: HostRuntime) {
    assert!(rt; is_kept_without_memory(rt.alloc()) == Some(true));
}
