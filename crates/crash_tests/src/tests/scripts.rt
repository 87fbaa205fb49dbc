//! Scripts of events, what is reported of each, and what is left after them.
use super::events::{BANNER, Step};
use super::hosts::{keeps, opened, shows, tells_one};
use disk_model::{Area, MemoryDisk};
use session_engine::Host;
use std::alloc::Global;

/// Events one after another, each with what is reported of it.
#[derive(Clone, Copy)]
pub enum Script {
    /// The five events of the worked area.
    Example,
    /// The first two of them, and an evaluation for which the disk has no room.
    NoRoom,
    /// The first four, an answer for which it has none, and a command on the host that is closed then.
    NoRoomForAnswer,
    /// The first four, half an answer, and the end: the disk has no room for the reason.
    NoRoomForReason,
    /// A life that doesn't start, and the next one.
    NextLife,
    /// A request, whose field gets another input and goes before it is answered.
    Request,
}

fn example(number: u32) -> (Step<'static>, &'static str) {
    match number {
        0 => (Step::Session("sh"), "ok\n"),
        1 => (Step::New(0, "x"), "field 1\n"),
        2 => (Step::Eval(1), "asked 1\nstart a 1 sh\n"),
        3 => (Step::Piece(1, BANNER), "banner a\nsend a 1 x\n"),
        _ => (Step::Piece(1, "\x02verbatim:A\x05"), "answered 1\n"),
    }
}

fn no_room(number: u32) -> (Step<'static>, &'static str) {
    match number {
        0 | 1 => example(number),
        _ => (Step::Eval(1), "refused 16 JournalFull\n"),
    }
}

fn no_room_for_answer(number: u32) -> (Step<'static>, &'static str) {
    match number {
        0..=3 => example(number),
        4 => (Step::Piece(1, "\x02verbatim:A\x05"), "fault JournalFull\n"),
        _ => (Step::Session("sh"), "fault Closed\n"),
    }
}

fn no_room_for_reason(number: u32) -> (Step<'static>, &'static str) {
    match number {
        0..=3 => example(number),
        4 => (Step::Piece(1, "\x02verbatim:hal"), "nothing\n"),
        _ => (Step::End(1), "ended a Ended lost 1\nkill a 1\n"),
    }
}

fn next_life(number: u32) -> (Step<'static>, &'static str) {
    match number {
        0..=2 => example(number),
        3 => (Step::StartRefused(1), "ended a StartRefused lost 1\n"),
        4 => (Step::Eval(1), "asked 2\nstart a 2 sh\n"),
        5 => (Step::Piece(1, BANNER), "nothing\n"),
        _ => (Step::Piece(2, BANNER), "banner a\nsend a 2 x\n"),
    }
}

fn request(number: u32) -> (Step<'static>, &'static str) {
    match number {
        0 => (Step::Tab("p"), "ok\n"),
        1 => (Step::New(0, "h"), "field 1\n"),
        2 => (Step::Complete(1, 1), "asked 1\nstart a 1 p\n"),
        3 => (Step::Set(1, "other"), "ok\n"),
        4 => (
            Step::Piece(1, BANNER),
            "banner a\nsend a 1 \x10(complete \"h\" 1)\n",
        ),
        5 => (Step::Remove(1), "ok\n"),
        _ => (Step::Piece(1, "\x02scheme:\"\"\x05"), "completed 1 \n"),
    }
}

impl Script {
    /// An event of it, numbered from 0, and what is reported of it.
    pub fn step(self, number: u32) -> (Step<'static>, &'static str) {
        match self {
            Script::Example => example(number),
            Script::NoRoom => no_room(number),
            Script::NoRoomForAnswer => no_room_for_answer(number),
            Script::NoRoomForReason => no_room_for_reason(number),
            Script::NextLife => next_life(number),
            Script::Request => request(number),
        }
    }
}

/// Whether a host tells what is wanted of the first events, so many.
pub fn tells(alloc: Global, host: &mut Host<MemoryDisk>, script: Script, count: u32) -> bool {
    for number in 0..count {
        let (step, want) = script.step(number);
        if !tells_one(alloc, host, &step, want) {
            return false;
        }
    }
    true
}

fn has_length(disk: &MemoryDisk, length: usize) -> bool {
    disk.content(Area::First).len() == length
}

// Whether a host tells so much and shows these fields, its first area is so long then, and its disk keeps
// them.
fn leaves(
    alloc: Global,
    host: Host<MemoryDisk>,
    script: Script,
    count: u32,
    (length, fields): (usize, &str),
) -> bool {
    let mut host = host;
    let is_reported = tells(alloc, &mut host, script, count) && shows(alloc, &host, fields);
    let disk = host.close();
    is_reported && has_length(&disk, length) && keeps(alloc, disk, fields)
}

// The same of a new worksheet on a disk of this room.
fn leaves_in(alloc: Global, room: u64, script: Script, count: u32, left: (usize, &str)) -> bool {
    match opened(alloc, room) {
        Some(host) => leaves(alloc, host, script, count, left),
        None => false,
    }
}

#[test]
fn rooms_of_40_50_and_60_bytes(rt: HostRuntime) {
    let alloc = rt.alloc();
    let left = (50, "1 x ?\n");
    assert!(rt; leaves_in(alloc, 40, Script::NoRoom, 3, (40, "1 x ?\n")));
    assert!(rt; leaves_in(alloc, 50, Script::NoRoomForAnswer, 6, left));
    assert!(rt; leaves_in(alloc, 60, Script::NoRoomForReason, 6, left));
}

// The area of the next life has the session, the field and a clearing with a reason and one more; that of
// the request its session, a field, an input and a removal.
#[test]
fn a_life_after_one_that_did_not_start_and_a_request(rt: HostRuntime) {
    let alloc = rt.alloc();
    let next = (71, "1 x ?\n");
    assert!(rt; leaves_in(alloc, 1_000, Script::NextLife, 7, next));
    assert!(rt; leaves_in(alloc, 1_000, Script::Request, 7, (66, "")));
}
