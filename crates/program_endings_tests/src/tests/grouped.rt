//! A script whose commands are taken together: what a crash leaves at each moment, and a disk that fails.
use arrivals::ScriptedSources;
use child_calls::Scripted;
use disk_model::{Area, Choice, Disk, Fill, FuseDisk, FuseMode, MemoryDisk};
use host_events::HostFault;
use offline_programs::{RunFault, show};
use script_agenda::{Ran, RunResources, run};
use std::alloc::Global;

/// How many fields the scripts make.
pub(super) const FIELDS: u32 = 1_100;

/// How many of them are in the first group of the script with a long remark, which the session begins.
const FIRST: u32 = 1_023;

/// What a crash leaves of the ranges that were being written.
const FILLS: [Fill; 4] = [Fill::Old, Fill::New, Fill::Torn(20), Fill::Byte(0x52)];

pub(super) fn created(alloc: Global) -> Option<MemoryDisk> {
    journal::create(MemoryDisk::new(alloc, 1_000_000)).ok()
}

// A session and so many fields. A line for which there is no memory is left out.
pub(super) fn script(alloc: Global, fields: u32) -> Vec<u8> {
    let mut text = Vec::new(alloc);
    let _ = text.extend_from_slice(b"# fields\nsession a plain p\n\n");
    for _ in 0..fields {
        let _ = text.extend_from_slice(b"new 0 a x\n");
    }
    text
}

// The same of all fields, with a remark between them of the bytes that a group has at most.
fn script_with_a_long_remark(alloc: Global) -> Vec<u8> {
    let mut text = script(alloc, FIRST);
    let _ = text.extend_from_slice(b"# ");
    for _ in 0..1_024u32 {
        let _ = text.extend_from_slice(&[b'x'; 1_024]);
    }
    let _ = text.extend_from_slice(b"\n");
    for _ in FIRST..FIELDS {
        let _ = text.extend_from_slice(b"new 0 a x\n");
    }
    text
}

fn ran<D: Disk>(alloc: Global, disk: D, script: &[u8]) -> Ran<D, ScriptedSources, Vec<u8>> {
    let children = Scripted::new(alloc, Vec::new(alloc));
    let mut reader = script;
    let given = RunResources {
        disk,
        sources: ScriptedSources::new(children, Vec::new(alloc)),
        output: Vec::new(alloc),
    };
    run(alloc, &mut reader, given)
}

// The disk after a run that ends well, with so many lines of text.
fn disk_of(alloc: Global, disk: MemoryDisk, script: &[u8], lines: usize) -> Option<MemoryDisk> {
    let Ran { outside, answer } = ran(alloc, disk, script);
    if answer.is_ok() && lines_of(outside.output.as_slice(), b'\n') == lines {
        Some(outside.disk)
    } else {
        None
    }
}

// How often this byte is there.
pub(super) fn lines_of(text: &[u8], wanted: u8) -> usize {
    let mut count = 0usize;
    for byte in text {
        if *byte == wanted {
            count = count.saturating_add(1);
        }
    }
    count
}

// How many fields a disk shows.
pub(super) fn fields_of<D: Disk>(alloc: Global, disk: D) -> Option<usize> {
    let mut text: Vec<u8> = Vec::new(alloc);
    let shown = show(alloc, disk, &mut text);
    if shown.answer.is_ok() {
        Some(lines_of(text.as_slice(), b'#'))
    } else {
        None
    }
}

// Whether each crash at this moment leaves one of two counts of fields.
pub(super) fn leaves(
    alloc: Global,
    disk: &MemoryDisk,
    moment: u64,
    either: (usize, usize),
) -> bool {
    for fill in FILLS {
        let choice = Choice {
            moment,
            fill,
            grown: true,
        };
        if moment > disk.calls() {
            return false;
        }
        let Ok(crashed) = disk.crash(&choice) else {
            return false;
        };
        let found = fields_of(alloc, crashed);
        if found != Some(either.0) && found != Some(either.1) {
            return false;
        }
    }
    true
}

// Whether two groups, of four calls each, are there whole or not at all.
fn is_whole_or_absent(alloc: Global) -> Option<bool> {
    let empty = disk_of(alloc, created(alloc)?, b"", 0)?;
    let start = empty.calls();
    let lines = FIELDS.saturating_add(1) as usize;
    let disk = disk_of(
        alloc,
        created(alloc)?,
        script_with_a_long_remark(alloc).as_slice(),
        lines,
    )?;
    let (first, all) = (FIRST as usize, FIELDS as usize);
    let mut is_so = disk.calls() == start.saturating_add(8);
    for (call, either) in [
        (0, (0, 0)),
        (2, (0, 0)),
        (3, (0, first)),
        (4, (first, first)),
        (6, (first, first)),
        (7, (first, all)),
        (8, (all, all)),
    ] {
        is_so = is_so && leaves(alloc, &disk, start.saturating_add(call), either);
    }
    Some(is_so)
}

#[test]
fn a_crash_within_a_script(rt: HostRuntime) {
    assert!(rt; is_whole_or_absent(rt.alloc()) == Some(true));
}

// Whether its bytes are those that one run for each command leaves.
fn has_the_bytes_of_single_records(alloc: Global) -> Option<bool> {
    let together = disk_of(alloc, created(alloc)?, script(alloc, 5).as_slice(), 6)?;
    let mut single = disk_of(alloc, created(alloc)?, b"session a plain p\n", 1)?;
    for _ in 0..5u32 {
        single = disk_of(alloc, single, b"new 0 a x\n", 1)?;
    }
    Some(
        together.content(Area::First) == single.content(Area::First)
            && together.content(Area::Second) == single.content(Area::Second),
    )
}

#[test]
fn the_bytes_of_a_script(rt: HostRuntime) {
    assert!(rt; has_the_bytes_of_single_records(rt.alloc()) == Some(true));
}

// Whether a disk that fails at this call of the group is reported so, with none of its replies, and has none of its
// fields or all.
fn fails_at(alloc: Global, call: u64) -> Option<bool> {
    let empty = disk_of(alloc, created(alloc)?, b"", 0)?;
    let made = created(alloc)?;
    let opening = empty.calls().saturating_sub(made.calls());
    let disk = FuseDisk::new(made, opening.saturating_add(call), FuseMode::From);
    let Ran { outside, answer } = ran(alloc, disk, script(alloc, 3).as_slice());
    let is_silent = outside.output.is_empty();
    let found = fields_of(alloc, outside.disk.into_inner());
    Some(
        answer == Err(RunFault::Host(HostFault::Disk))
            && is_silent
            && (found == Some(0) || found == Some(3)),
    )
}

#[test]
fn a_disk_that_fails_within_a_script(rt: HostRuntime) {
    for call in 1..5u64 {
        assert!(rt; fails_at(rt.alloc(), call) == Some(true), "call {call}");
    }
}
