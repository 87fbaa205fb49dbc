//! Openings of the worked example. Areas that are damaged are cases of `programs`, `data/areas.sh`.
use super::desk::{AREA, SESSION, has, holding};
use disk_model::{Area, FuseDisk, FuseMode, MemoryDisk};
use journal::{Journal, OpenCause, OpenFault};
use std::alloc::Global;

fn has_all(alloc: Global, disk: MemoryDisk) -> bool {
    has(
        alloc,
        disk,
        &[
            (10, &SESSION),
            (24, &AREA[29..39]),
            (39, &[6, 0, 0, 0, 1]),
            (49, &AREA[54..75]),
        ],
    )
}

#[test]
fn the_worked_example_opens(rt: HostRuntime) {
    let has_all = match holding(rt.alloc(), &AREA) {
        Some(disk) => has_all(rt.alloc(), disk),
        None => false,
    };
    assert!(rt; has_all);
}

// What an opening gives.
#[derive(Clone, Copy, PartialEq, Eq)]
enum Given {
    /// So many payloads.
    Payloads(usize),
    /// That the disk failed, and nothing was written.
    Disk,
    Other,
}

fn failed(fault: OpenFault<FuseDisk<MemoryDisk>>) -> Given {
    let cause = fault.cause;
    let disk = fault.disk.into_inner();
    if cause == OpenCause::Disk && disk.content(Area::First) == AREA.as_slice() {
        Given::Disk
    } else {
        Given::Other
    }
}

fn opened_over(alloc: Global, disk: FuseDisk<MemoryDisk>) -> Given {
    match Journal::open(alloc, disk) {
        Ok((_, payloads)) => Given::Payloads(payloads.len()),
        Err(fault) => failed(fault),
    }
}

// What an opening of the example gives over this fuse.
fn opened(alloc: Global, k: u64, mode: FuseMode) -> Given {
    match holding(alloc, &AREA) {
        Some(disk) => opened_over(alloc, FuseDisk::new(disk, k, mode)),
        None => Given::Other,
    }
}

fn reported_if(fails: bool) -> Given {
    if fails {
        Given::Disk
    } else {
        Given::Payloads(4)
    }
}

// An opening syncs area First, asks for its length and reads it.
#[test]
fn an_opening_over_a_failing_disk(rt: HostRuntime) {
    let alloc = rt.alloc();
    for k in 0..6u64 {
        assert!(rt; opened(alloc, k, FuseMode::From) == reported_if(k <= 3));
        assert!(rt; opened(alloc, k, FuseMode::Only) == reported_if(k >= 1 && k <= 3));
    }
}
