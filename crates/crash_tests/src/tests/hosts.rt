//! A host in front of a test: events in short, and what it tells of them in lines.
use super::desk::open;
use super::events::{Step, event};
use super::reported::{fields, reported};
use disk_model::MemoryDisk;
use host_events::Event;
use journal::create;
use session_engine::Host;
use std::alloc::Global;

fn created(alloc: Global, room: u64) -> Option<MemoryDisk> {
    if room < 11 || room > 1_000 {
        return None;
    }
    create(MemoryDisk::new(alloc, room)).ok()
}

/// A host on a new worksheet, on a disk in memory of this room.
pub fn opened(alloc: Global, room: u64) -> Option<Host<MemoryDisk>> {
    open(alloc, created(alloc, room)?)
}

fn tells_of(alloc: Global, host: &mut Host<MemoryDisk>, event: Event, want: &str) -> bool {
    match reported(alloc, host, event) {
        Ok(text) => text.as_str() == want,
        Err(_) => false,
    }
}

/// Whether the host tells these lines of this event.
pub fn tells_one(alloc: Global, host: &mut Host<MemoryDisk>, step: &Step<'_>, want: &str) -> bool {
    match event(alloc, step) {
        Some(event) => tells_of(alloc, host, event, want),
        None => false,
    }
}

/// Whether the worksheet of the host has these fields.
pub fn shows(alloc: Global, host: &Host<MemoryDisk>, want: &str) -> bool {
    match fields(alloc, host) {
        Ok(text) => text.as_str() == want,
        Err(_) => false,
    }
}

/// The same of the worksheet that a disk has.
pub fn keeps(alloc: Global, disk: MemoryDisk, want: &str) -> bool {
    match open(alloc, disk) {
        Some(host) => shows(alloc, &host, want),
        None => false,
    }
}
