//! Rescues over disks that fail.
use super::desk::{AREA, holding};
use disk_model::{FuseDisk, FuseMode, MemoryDisk};
use journal::OpenCause;
use recovery::rescue;
use std::alloc::Global;

// What a rescue tells.
#[derive(Clone, Copy, PartialEq, Eq)]
enum Reported {
    /// So many ops are kept.
    Kept(u64),
    /// The disk failed.
    Disk,
    Other,
}

fn reported_over(alloc: Global, disk: FuseDisk<MemoryDisk>) -> Reported {
    match rescue(alloc, disk) {
        Ok(found) => Reported::Kept(found.kept),
        Err(fault) if fault.cause == OpenCause::Disk => Reported::Disk,
        Err(_) => Reported::Other,
    }
}

// What is reported of the worked example where its disk fails at this call.
fn reported_at(alloc: Global, k: u64) -> Reported {
    match holding(alloc, &AREA) {
        Some(disk) => reported_over(alloc, FuseDisk::new(disk, k, FuseMode::Only)),
        None => Reported::Other,
    }
}

// A sync, the length and one read.
#[test]
fn a_rescue_tells_a_failure_of_its_disk(rt: HostRuntime) {
    let alloc = rt.alloc();
    for k in 1..4u64 {
        assert!(rt; reported_at(alloc, k) == Reported::Disk, "call {k}");
    }
    assert!(rt; reported_at(alloc, 4) == Reported::Kept(4));
}
