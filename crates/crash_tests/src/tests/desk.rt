//! Events of session `a`, worksheets on disks in memory, and what a crash may leave of them.
use bytes::Bytes;
use disk_model::{Choice, Disk, Fill, MemoryDisk};
use host_events::{ChildEvent, Event};
use journal::create;
use session_engine::Host;
use sheet_text::{ScriptLine, read_line};
use std::alloc::Global;
use worksheet::Name;

/// What came of the first child of the session.
pub fn child(event: ChildEvent) -> Option<Event> {
    let name = Name::new(b"a")?;
    Some(Event::Child {
        name,
        life: 1,
        event,
    })
}

pub fn piece(alloc: Global, bytes: &[u8]) -> Option<Event> {
    let bytes = Bytes::copy_from_slice(alloc, bytes).ok()?;
    child(ChildEvent::Piece(bytes))
}

/// The command of a line.
pub fn line(alloc: Global, text: &[u8]) -> Option<Event> {
    match read_line(alloc, text) {
        Ok(ScriptLine::Command(command)) => Some(Event::Command(command)),
        _ => None,
    }
}

/// The piece that answers the line.
pub fn answer(alloc: Global) -> Option<Event> {
    piece(alloc, b"\x02verbatim:A\x05")
}

/// An empty worksheet on a disk in memory.
pub fn created(alloc: Global) -> Option<MemoryDisk> {
    create(MemoryDisk::new(alloc, 100)).ok()
}

/// How many calls the disk of a new worksheet has on record.
pub fn calls_of_create(alloc: Global) -> Option<u64> {
    let disk = created(alloc)?;
    Some(disk.calls())
}

pub fn open<D: Disk>(alloc: Global, disk: D) -> Option<Host<D>> {
    Host::open(alloc, disk).ok()
}

/// How many choices of a crash are tried at each moment.
pub const CHOICES: u32 = 16;

// What the ranges of pending writes hold after it.
fn fill(number: u32) -> Fill {
    match number {
        0 => Fill::Old,
        1 => Fill::New,
        2 => Fill::Torn(1),
        3 => Fill::Byte(0),
        4 => Fill::Byte(0x52),
        5 => Fill::Byte(0x41),
        6 => Fill::Byte(0x42),
        _ => Fill::Byte(255),
    }
}

/// The k-th of the choices of a crash at a moment: of `CHOICES`.
pub fn choice(moment: u64, number: u32) -> Choice {
    Choice {
        moment,
        fill: fill(number / 2),
        grown: number % 2 == 0,
    }
}

/// The disk that a crash leaves, where the disk has such a moment.
pub fn left(disk: &MemoryDisk, choice: &Choice) -> Option<MemoryDisk> {
    if choice.moment > disk.calls() {
        return None;
    }
    disk.crash(choice).ok()
}
