//! Which events hosts take, and what their worksheets have after each.
use super::desk::{answer, child, created, line, open, piece};
use disk_model::{Disk, MemoryDisk};
use host_events::{ChildEvent, Closed, Event, HostFault, Outcome, Reply};
use session_engine::Host;
use sheet_text::sheet_text;
use std::alloc::Global;

/// Which events a host takes.
#[derive(Clone, Copy)]
pub enum Story {
    /// The worked example: the session, its field, an evaluation, the banner and the answer.
    Example,
    /// The same up to the banner, half an answer, and the interpreter's end.
    Lost,
    /// Fields and checkpoints. The second and the fourth checkpoint are shorter than what stands in their
    /// area, the third one is longer.
    Fields,
    /// The worked example, and its line evaluated again, with a checkpoint after each event.
    Line,
}

fn example_event(alloc: Global, number: u32) -> Option<Event> {
    match number {
        0 => line(alloc, b"session a plain sh"),
        1 => line(alloc, b"new 0 a x"),
        2 => line(alloc, b"eval 1"),
        3 => piece(alloc, b"\x02verbatim:\x05"),
        _ => answer(alloc),
    }
}

fn lost_event(alloc: Global, number: u32) -> Option<Event> {
    match number {
        0..=3 => example_event(alloc, number),
        4 => piece(alloc, b"\x02verbatim:hal"),
        _ => child(ChildEvent::End),
    }
}

fn field_line(number: u32) -> &'static [u8] {
    match number {
        0 => b"session a plain p",
        1 => b"new 0 a x",
        2 => b"remove 1",
        3 => b"new 0 a y",
        5 => b"set 2 z",
        7 => b"new 0 a w",
        9 => b"remove 2",
        10 => b"remove 3",
        _ => b"checkpoint",
    }
}

fn line_event(alloc: Global, number: u32) -> Option<Event> {
    if number % 2 == 1 {
        return line(alloc, b"checkpoint");
    }
    match number / 2 {
        5 => line(alloc, b"eval 1"),
        number => example_event(alloc, number),
    }
}

/// What a host tells of an event, in short.
#[derive(Clone, Copy, PartialEq, Eq)]
pub enum Reported {
    Done,
    Field(u32),
    /// The first life has the line.
    Asked,
    Banner,
    Answer,
    Ended,
    Nothing,
    Other,
}

fn reported_of_example(number: u32) -> Reported {
    match number {
        0 => Reported::Done,
        1 => Reported::Field(1),
        2 | 5 => Reported::Asked,
        3 => Reported::Banner,
        _ => Reported::Answer,
    }
}

fn reported_of_lost(number: u32) -> Reported {
    match number {
        4 => Reported::Nothing,
        5 => Reported::Ended,
        _ => reported_of_example(number),
    }
}

fn reported_of_field(number: u32) -> Reported {
    match number {
        1 => Reported::Field(1),
        3 => Reported::Field(2),
        7 => Reported::Field(3),
        _ => Reported::Done,
    }
}

/// What a worksheet has: the number of its next field, and what is printed of its fields.
#[derive(Clone, Copy)]
pub struct Has {
    session: bool,
    next: u32,
    text: &'static [u8],
}

fn with(next: u32, text: &'static [u8]) -> Has {
    Has {
        session: true,
        next,
        text,
    }
}

const NOTHING: Has = Has {
    session: false,
    next: 1,
    text: b"",
};

fn example_after(count: u32) -> Has {
    match count {
        0 => NOTHING,
        1 => with(1, b""),
        2..=4 => with(2, b"#1 a\n> x\n?\n"),
        _ => with(2, b"#1 a\n> x\nA\n"),
    }
}

fn lost_after(count: u32) -> Has {
    match count {
        0..=4 => example_after(count),
        5 => with(2, b"#1 a\n> x\n?\n"),
        _ => with(2, b"#1 a\n> x\n? Ended\n"),
    }
}

fn field_after(count: u32) -> Has {
    match count {
        0 => NOTHING,
        1 => with(1, b""),
        2 => with(2, b"#1 a\n> x\n?\n"),
        3 => with(2, b""),
        4 | 5 => with(3, b"#2 a\n> y\n?\n"),
        6 | 7 => with(3, b"#2 a\n> z\n?\n"),
        8 | 9 => with(4, b"#3 a\n> w\n?\n#2 a\n> z\n?\n"),
        10 => with(4, b"#3 a\n> w\n?\n"),
        _ => with(4, b""),
    }
}

fn line_after(count: u32) -> Has {
    match count {
        0 => NOTHING,
        1 | 2 => with(1, b""),
        9 | 10 => with(2, b"#1 a\n> x\nA\n"),
        _ => with(2, b"#1 a\n> x\n?\n"),
    }
}

impl Story {
    /// How many events it has.
    pub fn len(self) -> u32 {
        match self {
            Story::Example => 5,
            Story::Lost => 6,
            Story::Fields | Story::Line => 12,
        }
    }

    /// Its events, numbered from 0.
    pub fn event(self, alloc: Global, number: u32) -> Option<Event> {
        match self {
            Story::Example => example_event(alloc, number),
            Story::Lost => lost_event(alloc, number),
            Story::Fields => line(alloc, field_line(number)),
            Story::Line => line_event(alloc, number),
        }
    }

    fn reported(self, number: u32) -> Reported {
        match self {
            Story::Example => reported_of_example(number),
            Story::Lost => reported_of_lost(number),
            Story::Fields => reported_of_field(number),
            Story::Line if number % 2 == 1 => Reported::Done,
            Story::Line => reported_of_example(number / 2),
        }
    }

    /// What a worksheet has after so many events.
    pub fn following(self, count: u32) -> Has {
        match self {
            Story::Example => example_after(count),
            Story::Lost => lost_after(count),
            Story::Fields => field_after(count),
            Story::Line => line_after(count),
        }
    }

    /// The event from which on a host takes what is missing, where it finds what is there after so
    /// many. No life goes on for it, so a line without an answer or a reason is evaluated again.
    pub fn missing(self, count: u32) -> u32 {
        match self {
            Story::Example | Story::Lost if count > 2 && count < self.len() => 2,
            _ => count,
        }
    }
}

fn reported_by(reply: &Reply) -> Reported {
    match reply {
        Reply::Done => Reported::Done,
        Reply::Field(id) => Reported::Field(*id),
        Reply::Asked(1) => Reported::Asked,
        Reply::Nothing => Reported::Nothing,
        Reply::Child(reported) => match (&reported.closed, &reported.ended) {
            (Some(Closed::Banner(_)), None) => Reported::Banner,
            (Some(Closed::Line(1)), None) => Reported::Answer,
            (None, Some(_)) => Reported::Ended,
            _ => Reported::Other,
        },
        _ => Reported::Other,
    }
}

/// What came of an event.
#[derive(Clone, Copy, PartialEq, Eq)]
pub enum Step {
    Taken,
    Failed(HostFault),
    /// Something else was reported.
    Wrong,
}

fn give<D: Disk>(host: &mut Host<D>, event: Event, wanted: Reported) -> Step {
    match host.step(event) {
        Ok(outcome) if reported_by(&outcome.reply) == wanted => Step::Taken,
        Ok(_) => Step::Wrong,
        Err(fault) => Step::Failed(fault),
    }
}

/// Whether a host tells this of an event, where there is one.
pub fn tells(host: &mut Host<MemoryDisk>, event: Option<Event>, wanted: Reported) -> bool {
    match event {
        Some(event) => give(host, event, wanted) == Step::Taken,
        None => false,
    }
}

/// Whether these outcomes are those of so many first events of a story.
pub fn tells_each(story: Story, outcomes: &[Outcome], count: u32) -> bool {
    let mut number = 0u32;
    for outcome in outcomes {
        if reported_by(&outcome.reply) != story.reported(number) {
            return false;
        }
        number = number.saturating_add(1);
    }
    number == count
}

/// A host takes one event of a story.
pub fn take<D: Disk>(alloc: Global, host: &mut Host<D>, story: Story, number: u32) -> Step {
    match story.event(alloc, number) {
        Some(event) => give(host, event, story.reported(number)),
        None => Step::Wrong,
    }
}

/// How many events were taken, from this number on up to that one, before the first that wasn't, and what
/// came of that.
pub fn take_from<D: Disk>(
    alloc: Global,
    host: &mut Host<D>,
    story: Story,
    (from, to): (u32, u32),
) -> (u32, Step) {
    for number in from..to {
        let step = take(alloc, host, story, number);
        if step != Step::Taken {
            return (number, step);
        }
    }
    (to, Step::Taken)
}

pub fn takes<D: Disk>(alloc: Global, host: &mut Host<D>, story: Story, events: (u32, u32)) -> bool {
    take_from(alloc, host, story, events).1 == Step::Taken
}

/// Whether the worksheet of a host has this.
pub fn shows<D: Disk>(alloc: Global, host: &Host<D>, wanted: Has) -> bool {
    let mut text: Vec<u8> = Vec::new(alloc);
    let is_printed = sheet_text(host.sheet(), &mut text).is_ok();
    let sheet = host.sheet();
    is_printed
        && text.as_slice() == wanted.text
        && sheet.next_id() == wanted.next
        && sheet.session(b"a").is_some() == wanted.session
}

/// The disk of a host that has taken these events on this one.
pub fn disk_of(
    alloc: Global,
    disk: MemoryDisk,
    story: Story,
    events: (u32, u32),
) -> Option<MemoryDisk> {
    let mut host = open(alloc, disk)?;
    if takes(alloc, &mut host, story, events) {
        Some(host.close())
    } else {
        None
    }
}

/// The disk of a host on a new worksheet that has taken so many events.
pub fn opening_disk(alloc: Global, story: Story, count: u32) -> Option<MemoryDisk> {
    disk_of(alloc, created(alloc)?, story, (0, count))
}

/// How many calls it has on record.
pub fn calls_after(alloc: Global, story: Story, count: u32) -> Option<u64> {
    let disk = opening_disk(alloc, story, count)?;
    Some(disk.calls())
}
