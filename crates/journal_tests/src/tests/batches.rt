//! Payloads one after another, and what is proved of them by the contract of an append alone.
ghost use Rattle.std.specs.Prelude.{◌++◌, List, ℕ, IfOk};
ghost use Rattle.disk_model.specs.Disk.{InModel, LeavesOnly, SameDisk};
ghost use Rattle.journal.specs.Kept.{Keeps};
ghost use Rattle.journal_tests.specs.Batch.{SomeFirst};
ghost use Rattle.journal.specs.Journal.{disk_after};

use super::desk::{SESSION, empty_in, frame, has};
use disk_model::{Disk, MemoryDisk};
use journal::{AppendFault, Frame, Journal};
use std::alloc::Global;

// How a layer above carries the journal's promises on, by its contract alone. It appends payloads in
// order. A crash at any moment leaves the payloads from before the call, and after them the first
// ones of these.
fn append_all<D: Disk>(journal: Journal<D>, frames: &[Frame]) -> Result<Journal<D>, AppendFault<D>>
    ensures same { SameDisk journal.disk (disk_after D.view result) }

    ensures ok { InModel journal.disk
        ((payloads : List (List ℕ)) → Keeps journal.disk.history journal.end payloads
        → IfOk result (λ after. Keeps after.disk.history after.end (payloads ++ frames.now))) }

    ensures any_moment { InModel journal.disk
        ((payloads : List (List ℕ)) → Keeps journal.disk.history journal.end payloads
        → LeavesOnly (SomeFirst payloads frames.now) journal.disk.history
        (disk_after D.view result).history) }
{
    let mut journal = journal;
    for frame in frames {
        match journal.append(frame) {
            Ok(after) => journal = after,
            Err(fault) => return Err(fault),
        }
    }
    Ok(journal)
}

// A disk with these payloads.
fn disk_of(alloc: Global, frames: &[Frame]) -> Option<MemoryDisk> {
    match append_all(empty_in(alloc, 40)?, frames) {
        Ok(journal) => Some(journal.into_disk()),
        Err(_) => None,
    }
}

fn has_both(alloc: Global, frames: &[Frame]) -> bool {
    match disk_of(alloc, frames) {
        Some(disk) => has(alloc, disk, &[(10, &SESSION), (24, &[7])]),
        None => false,
    }
}

fn keeps_both(alloc: Global) -> Option<bool> {
    let frames = [frame(alloc, &SESSION)?, frame(alloc, &[7])?];
    Some(has_both(alloc, &frames))
}

#[test]
fn payloads_in_order(rt: HostRuntime) {
    assert!(rt; keeps_both(rt.alloc()) == Some(true));
}
