//! Openings over a disk that fails. Those of areas that are damaged are cases of `programs`,
//! `data/areas.sh`.
use super::desk::{AREA, has_session, holding};
use disk_model::{Area, FuseDisk, FuseMode, MemoryDisk};
use journal::{OpenCause, OpenFault};
use recovery::Store;
use std::alloc::Global;

// What an opening gives.
#[derive(Clone, Copy, PartialEq, Eq)]
enum Given {
    /// The worksheet of the example.
    Sheet,
    /// That the disk failed, and nothing was written.
    Disk,
    Other,
}

fn failed(fault: OpenFault<FuseDisk<MemoryDisk>>) -> Given {
    let cause = fault.cause;
    let disk = fault.disk.into_inner();
    if cause == OpenCause::Disk && disk.content(Area::First) == AREA.as_slice() {
        Given::Disk
    } else {
        Given::Other
    }
}

fn found(store: &Store<FuseDisk<MemoryDisk>>) -> Given {
    if has_session(store) {
        Given::Sheet
    } else {
        Given::Other
    }
}

fn opened_over(alloc: Global, disk: FuseDisk<MemoryDisk>) -> Given {
    match Store::open(alloc, disk) {
        Ok(store) => found(&store),
        Err(fault) => failed(fault),
    }
}

fn opened(alloc: Global, k: u64, mode: FuseMode) -> Given {
    match holding(alloc, &AREA) {
        Some(disk) => opened_over(alloc, FuseDisk::new(disk, k, mode)),
        None => Given::Other,
    }
}

fn reported_if(fails: bool) -> Given {
    if fails { Given::Disk } else { Given::Sheet }
}

// An opening syncs area First, asks for its length and reads it.
#[test]
fn an_opening_over_a_failing_disk(rt: HostRuntime) {
    let alloc = rt.alloc();
    for k in 0..6u64 {
        assert!(rt; opened(alloc, k, FuseMode::From) == reported_if(k <= 3));
        assert!(rt; opened(alloc, k, FuseMode::Only) == reported_if(k >= 1 && k <= 3));
    }
}
