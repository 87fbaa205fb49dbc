//! Lines of `live` that were there together: what a crash leaves at each moment, and a disk that fails.
use super::grouped::{FIELDS, created, fields_of, leaves, lines_of, script};
use arrivals::{InputLines, ScriptedSources};
use child_calls::Scripted;
use disk_model::{Area, Disk, FuseDisk, FuseMode, MemoryDisk};
use driver::{Over, Voiced, run_over};
use host_events::HostFault;
use line_agenda::ByLines;
use live::Manner;
use offline_programs::RunFault;
use std::alloc::Global;
use tellings::InWords;

/// How many fields the first group makes. The session before it stands alone, with an empty line after it.
const FIRST: u32 = 1_024;

// What lines left over a disk, and what was printed of them.
struct Left<D> {
    disk: D,
    answer: Result<(), RunFault>,
    printed: Vec<u8>,
}

// Lines that come first, over a disk.
fn lived<D: Disk>(alloc: Global, disk: D, script: &[u8]) -> Option<Left<D>> {
    let children = Scripted::new(alloc, Vec::new(alloc));
    let sources = ScriptedSources::new(children, Vec::new(alloc));
    let manner = Manner {
        lines_first: true,
        limit: None,
        strict: false,
    };
    let agenda = ByLines::new(alloc, manner, InputLines::new(alloc, script).ok()?);
    let sink = Voiced {
        tells: InWords,
        writer: Vec::new(alloc),
    };
    let Over {
        disk,
        sources: _sources,
        sink,
        agenda: _agenda,
        answer,
    } = run_over(alloc, disk, sources, sink, agenda);
    Some(Left {
        disk,
        answer,
        printed: sink.writer,
    })
}

// The disk after lines that end well, with so many lines of text.
fn disk_of(alloc: Global, disk: MemoryDisk, script: &[u8], lines: usize) -> Option<MemoryDisk> {
    let Left {
        disk,
        answer,
        printed,
    } = lived(alloc, disk, script)?;
    if answer.is_ok() && lines_of(printed.as_slice(), b'\n') == lines {
        Some(disk)
    } else {
        None
    }
}

// Whether the session and two groups, of four calls each, are there whole or not at all.
fn is_whole_or_absent(alloc: Global) -> Option<bool> {
    let empty = disk_of(alloc, created(alloc)?, b"", 0)?;
    let start = empty.calls();
    let lines = FIELDS.saturating_add(1) as usize;
    let disk = disk_of(
        alloc,
        created(alloc)?,
        script(alloc, FIELDS).as_slice(),
        lines,
    )?;
    let (first, all) = (FIRST as usize, FIELDS as usize);
    let mut is_so = disk.calls() == start.saturating_add(12);
    for (call, either) in [
        (0, (0, 0)),
        (6, (0, 0)),
        (7, (0, first)),
        (8, (first, first)),
        (10, (first, first)),
        (11, (first, all)),
        (12, (all, all)),
    ] {
        is_so = is_so && leaves(alloc, &disk, start.saturating_add(call), either);
    }
    Some(is_so)
}

#[test]
fn a_crash_within_lines_that_came_together(rt: HostRuntime) {
    assert!(rt; is_whole_or_absent(rt.alloc()) == Some(true));
}

// Whether its bytes are those that one line for each command leaves.
fn has_the_bytes_of_single_records(alloc: Global) -> Option<bool> {
    let together = disk_of(alloc, created(alloc)?, script(alloc, 5).as_slice(), 6)?;
    let mut single = disk_of(alloc, created(alloc)?, b"session a plain p\n", 1)?;
    for _ in 0..5u32 {
        single = disk_of(alloc, single, b"new 0 a x\n", 1)?;
    }
    Some(
        together.content(Area::First) == single.content(Area::First)
            && together.content(Area::Second) == single.content(Area::Second),
    )
}

#[test]
fn the_bytes_of_lines_that_came_together(rt: HostRuntime) {
    assert!(rt; has_the_bytes_of_single_records(rt.alloc()) == Some(true));
}

// Whether a disk that fails at this call of the group after the session is reported so, with the reply to the session
// alone, and has none of the fields or all.
fn fails_at(alloc: Global, call: u64) -> Option<bool> {
    let one = disk_of(alloc, created(alloc)?, b"session a plain p\n", 1)?;
    let made = created(alloc)?;
    let before = one.calls().saturating_sub(made.calls());
    let disk = FuseDisk::new(made, before.saturating_add(call), FuseMode::From);
    let Left {
        disk,
        answer,
        printed,
    } = lived(alloc, disk, script(alloc, 3).as_slice())?;
    let found = fields_of(alloc, disk.into_inner());
    Some(
        answer == Err(RunFault::Host(HostFault::Disk))
            && printed.as_slice() == b"ok\n".as_slice()
            && (found == Some(0) || found == Some(3)),
    )
}

#[test]
fn a_disk_that_fails_while_lines_are_taken_together(rt: HostRuntime) {
    for call in 1..5u64 {
        assert!(rt; fails_at(rt.alloc(), call) == Some(true), "call {call}");
    }
}
