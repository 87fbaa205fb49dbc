//! Records that one gate commits.
use super::desk::{AREA, SESSION, empty, empty_in, frame, opened};
use disk_model::{Area, Choice, Disk, Fill, FuseDisk, FuseMode, MemoryDisk};
use journal::{AppendFault, Group, Journal};
use std::alloc::Global;

const NEW: [u8; 10] = [2, 0, 0, 0, 0, 1, 0x61, 0, 1, 0x78];

const CLEAR: [u8; 5] = [6, 0, 0, 0, 1];

// The first so many of the session, the field and the clearing.
fn group_of(alloc: Global, count: usize) -> Option<Group> {
    let mut group = Group::new(alloc).ok()?;
    if count > 0 {
        group.push(&frame(alloc, &SESSION)?).ok()?;
    }
    if count > 1 {
        group.push(&frame(alloc, &NEW)?).ok()?;
    }
    if count > 2 {
        group.push(&frame(alloc, &CLEAR)?).ok()?;
    }
    Some(group)
}

fn paid(alloc: Global, count: usize) -> Option<Journal<MemoryDisk>> {
    let group = group_of(alloc, count)?;
    empty_in(alloc, 100)?.append_all(&group).ok()
}

// Whether the area is that of single appends, and how many calls were made since the journal was there.
fn lies(alloc: Global, count: usize, len: usize, calls: u64) -> Option<bool> {
    let before = empty_in(alloc, 100)?.into_disk().calls();
    let disk = paid(alloc, count)?.into_disk();
    let area = disk.content(Area::First);
    let same = match area.len() == len && len > 10 && len <= 76 {
        true => area[..len - 1] == AREA[..len - 1] && area[len - 1] == 0,
        false => false,
    };
    Some(same && disk.calls().wrapping_sub(before) == calls)
}

#[test]
fn the_bytes_of_a_group(rt: HostRuntime) {
    let alloc = rt.alloc();
    assert!(rt; lies(alloc, 0, 11, 0) == Some(true));
    assert!(rt; lies(alloc, 1, 25, 4) == Some(true));
    assert!(rt; lies(alloc, 2, 40, 4) == Some(true));
    assert!(rt; lies(alloc, 3, 50, 4) == Some(true));
}

fn fill(number: u32) -> Fill {
    match number {
        0 => Fill::Old,
        1 => Fill::New,
        2 => Fill::Torn(1),
        3 => Fill::Torn(20),
        4 => Fill::Byte(0),
        _ => Fill::Byte(0x52),
    }
}

fn left_by(alloc: Global, disk: &MemoryDisk, choice: &Choice) -> Option<usize> {
    if choice.moment > disk.calls() {
        return None;
    }
    let (_, payloads) = opened(alloc, disk.crash(choice).ok()?)?;
    Some(payloads.len())
}

// Whether each crash at this moment leaves none or all of three, each of them somewhere where both are said to be.
fn leaves(alloc: Global, disk: &MemoryDisk, moment: u64, none: bool, all: bool) -> bool {
    let (mut some_none, mut some_all) = (false, false);
    for number in 0..12u32 {
        let choice = Choice {
            moment,
            fill: fill(number / 2),
            grown: number % 2 == 1,
        };
        match left_by(alloc, disk, &choice) {
            Some(0) => some_none = true,
            Some(3) => some_all = true,
            _ => return false,
        }
    }
    some_none == none && some_all == all
}

fn each_leaves(alloc: Global) -> Option<bool> {
    let start = empty_in(alloc, 100)?.into_disk().calls();
    let disk = paid(alloc, 3)?.into_disk();
    if start > 1_000 {
        return None;
    }
    Some(
        leaves(alloc, &disk, start, true, false)
            && leaves(alloc, &disk, start + 1, true, false)
            && leaves(alloc, &disk, start + 2, true, false)
            && leaves(alloc, &disk, start + 3, true, true)
            && leaves(alloc, &disk, start + 4, false, true),
    )
}

#[test]
fn a_crash_leaves_all_of_a_group_or_none(rt: HostRuntime) {
    assert!(rt; each_leaves(rt.alloc()) == Some(true));
}

// A group that is filled again in its memory.
fn again(alloc: Global) -> Option<bool> {
    let mut group = group_of(alloc, 2)?;
    let journal = empty_in(alloc, 100)?.append_all(&group).ok()?;
    group.clear();
    let cleared = group.is_empty() && group.records_len() == 0;
    group.push(&frame(alloc, &CLEAR)?).ok()?;
    let disk = journal.append_all(&group).ok()?.into_disk();
    Some(cleared && disk.content(Area::First).starts_with(&AREA[..49]))
}

#[test]
fn a_group_again(rt: HostRuntime) {
    assert!(rt; again(rt.alloc()) == Some(true));
}

// One that has a byte too many, and a disk that fails at its k-th call.
fn too_long(alloc: Global) -> Option<bool> {
    let group = group_of(alloc, 3)?;
    match empty_in(alloc, 49)?.append_all(&group) {
        Err(AppendFault::JournalFull(journal)) => {
            Some(journal.into_disk().content(Area::First) == b"TMWSHEET\x01A\x00".as_slice())
        }
        _ => Some(false),
    }
}

#[test]
fn a_group_that_does_not_fit(rt: HostRuntime) {
    assert!(rt; too_long(rt.alloc()) == Some(true));
}

fn fails_at(alloc: Global, k: u64) -> Option<bool> {
    let group = group_of(alloc, 3)?;
    let disk = empty_in(alloc, 100)?.into_disk();
    // Its first two calls are those of the opening: a sync and a look at the length, and a read.
    let journal = empty(alloc, FuseDisk::new(disk, k, FuseMode::Only))?;
    match journal.append_all(&group) {
        Ok(_) => Some(false),
        Err(AppendFault::JournalFull(_)) => Some(false),
        Err(AppendFault::Disk(disk)) => {
            let (_, payloads) = opened(alloc, disk.into_inner())?;
            Some(payloads.is_empty() || payloads.len() == 3)
        }
    }
}

// How many of the first calls make it fail, so that a later opening finds none of the group or all of it.
fn failures(alloc: Global) -> usize {
    (1..20u64)
        .filter(|k| fails_at(alloc, *k) == Some(true))
        .count()
}

#[test]
fn a_disk_that_fails_while_a_group_is_paid(rt: HostRuntime) {
    assert!(rt; failures(rt.alloc()) == 4);
}
