//! Inputs and answers of each size.
use block_tree::{Octets, Sequence};
use bytes::Bytes;
use disk_model::MemoryDisk;
use host_events::{ChildEvent, Closed, Command, Event, Outcome, Reply};
use journal::create;
use session_engine::Host;
use std::alloc::Global;
use worksheet::Name;

// The longest input, in bytes.
const LONGEST: u32 = 4_095;

// How many replies of each kind were returned.
#[derive(Clone, Copy, Debug, PartialEq, Eq)]
struct Tally {
    done: u32,
    fields: u32,
    asked: u32,
    banners: u32,
    answers: u32,
    completed: u32,
    nothing: u32,
    others: u32,
}

const NONE: Tally = Tally {
    done: 0,
    fields: 0,
    asked: 0,
    banners: 0,
    answers: 0,
    completed: 0,
    nothing: 0,
    others: 0,
};

fn count(number: &mut u32) {
    *number = number.saturating_add(1);
}

impl Tally {
    fn add(&mut self, reply: &Reply) {
        match reply {
            Reply::Done => count(&mut self.done),
            Reply::Field(_) => count(&mut self.fields),
            Reply::Asked(1) => count(&mut self.asked),
            Reply::Nothing => count(&mut self.nothing),
            Reply::Child(reported) => match &reported.closed {
                Some(Closed::Banner(_)) => count(&mut self.banners),
                Some(Closed::Line(_)) => count(&mut self.answers),
                Some(Closed::Complete(_, Ok(_))) => count(&mut self.completed),
                Some(Closed::Complete(_, Err(_))) | None => count(&mut self.others),
            },
            _ => count(&mut self.others),
        }
    }
}

// So many bytes of one kind.
fn times(alloc: Global, byte: u8, len: u32) -> Option<Vec<u8>> {
    Vec::from_elem(alloc, byte, len as usize).ok()
}

fn words(alloc: Global) -> Option<Vec<Octets>> {
    let mut words = Vec::new(alloc);
    words.push(Octets::from_slice(alloc, b"p").ok()?).ok()?;
    Some(words)
}

fn session(alloc: Global) -> Option<Command> {
    Some(Command::Session {
        name: Octets::from_slice(alloc, b"a").ok()?,
        tab: true,
        words: Sequence::from_vec(words(alloc)?),
    })
}

// A field of session `a` at the front, whose input has so many bytes.
fn new(alloc: Global, len: u32) -> Option<Command> {
    let input = times(alloc, b'x', len)?;
    Some(Command::New {
        after: 0,
        session: Octets::from_slice(alloc, b"a").ok()?,
        input: Octets::from_vec(input),
    })
}

// The answer: a block whose text has so many bytes.
fn answer(alloc: Global, len: u32) -> Option<Vec<u8>> {
    let text = times(alloc, b'y', len)?;
    let mut bytes = Vec::from_slice(alloc, b"\x02verbatim:").ok()?;
    bytes.extend_from_slice(text.as_slice()).ok()?;
    bytes.push(5).ok()?;
    Some(bytes)
}

// Adds an event. One for which there is no memory is not counted, and so the count is not as wanted.
fn add(events: &mut Vec<Event>, event: Event) {
    let _ = events.push(event);
}

fn add_command(events: &mut Vec<Event>, command: Command) {
    add(events, Event::Command(command));
}

fn add_if(events: &mut Vec<Event>, command: Option<Command>) {
    if let Some(command) = command {
        add_command(events, command);
    }
}

fn piece(alloc: Global, bytes: &[u8]) -> Option<Event> {
    let name = Name::new(b"a")?;
    let piece = Bytes::copy_from_slice(alloc, bytes).ok()?;
    Some(Event::Child {
        name,
        life: 1,
        event: ChildEvent::Piece(piece),
    })
}

fn add_piece(alloc: Global, events: &mut Vec<Event>, bytes: &[u8]) {
    if let Some(event) = piece(alloc, bytes) {
        add(events, event);
    }
}

// Pieces of so many bytes, the last one what is left.
fn add_pieces(alloc: Global, events: &mut Vec<Event>, bytes: &[u8], size: usize) {
    if size == 0 {
        return;
    }
    for piece in bytes.chunks(size) {
        add_piece(alloc, events, piece);
    }
}

fn add_answer(alloc: Global, events: &mut Vec<Event>, len: u32) {
    if let Some(bytes) = answer(alloc, len) {
        add_pieces(alloc, events, bytes.as_slice(), len as usize);
    }
}

// What is done with a field once it is answered: its completions are asked for, with the cursor at the
// end of its input, and there are none; then an empty input, its place after field 1, no output, and no
// field.
fn add_end(alloc: Global, events: &mut Vec<Event>, id: u32, len: u32) {
    add_command(events, Command::Complete { id, cursor: len });
    add_piece(alloc, events, b"\x02scheme:\"\"\x05");
    let input = Octets::from_vec(Vec::new(alloc));
    add_command(events, Command::Set { id, input });
    add_command(events, Command::Move { id, after: 1 });
    add_command(events, Command::Clear { id });
    add_command(events, Command::Remove { id });
}

// The events of one size: a field with such an input, its evaluation, and an answer of such a size in
// pieces of that size. Field 1 is there before, so the field of size 1 has number 2.
fn add_round(alloc: Global, events: &mut Vec<Event>, len: u32) {
    let id = len.saturating_add(1);
    add_if(events, new(alloc, len));
    add_command(events, Command::Eval { id });
    if len == 1 {
        add_piece(alloc, events, b"\x02verbatim:\x05");
    }
    add_answer(alloc, events, len);
    add_end(alloc, events, id, len);
}

// The session and field 1.
fn add_start(alloc: Global, events: &mut Vec<Event>) {
    add_if(events, session(alloc));
    add_if(events, new(alloc, 1));
}

// The events of this size, or those before the first.
fn events_of(alloc: Global, len: u32) -> Vec<Event> {
    let mut events = Vec::new(alloc);
    if len == 0 {
        add_start(alloc, &mut events);
    } else {
        add_round(alloc, &mut events, len);
    }
    events
}

fn all_events(alloc: Global) -> Vec<Event> {
    let mut events = Vec::new(alloc);
    add_start(alloc, &mut events);
    for len in 1..LONGEST + 1 {
        add_round(alloc, &mut events, len);
    }
    events
}

// An empty worksheet on a disk of the greatest room.
fn created(alloc: Global) -> Option<MemoryDisk> {
    create(MemoryDisk::new(alloc, 2_147_483_648)).ok()
}

fn opened(alloc: Global) -> Option<Host<MemoryDisk>> {
    Host::open(alloc, created(alloc)?).ok()
}

// Gives the host an event, and counts what it tells.
fn step(host: &mut Host<MemoryDisk>, event: Event, tally: &mut Tally) {
    match host.step(event) {
        Ok(outcome) => tally.add(&outcome.reply),
        Err(_) => count(&mut tally.others),
    }
}

fn step_each(host: &mut Host<MemoryDisk>, events: Vec<Event>, tally: &mut Tally) {
    for event in events {
        step(host, event, tally);
    }
}

fn swept_on(alloc: Global, host: &mut Host<MemoryDisk>) -> Tally {
    let mut tally = NONE;
    for len in 0..LONGEST + 1 {
        step_each(host, events_of(alloc, len), &mut tally);
    }
    tally
}

fn swept_by_step(alloc: Global) -> Tally {
    match opened(alloc) {
        Some(mut host) => swept_on(alloc, &mut host),
        None => NONE,
    }
}

fn tally_of(outcomes: &[Outcome]) -> Tally {
    let mut tally = NONE;
    for outcome in outcomes {
        tally.add(&outcome.reply);
    }
    tally
}

fn played_on(host: &mut Host<MemoryDisk>, events: Vec<Event>) -> Tally {
    match host.play(events) {
        Ok(outcomes) => tally_of(outcomes.as_slice()),
        Err(_) => NONE,
    }
}

fn swept_by_play(alloc: Global) -> Tally {
    match opened(alloc) {
        Some(mut host) => played_on(&mut host, all_events(alloc)),
        None => NONE,
    }
}

// All is accepted, and each answer closes: the session and four commands of each size are done, each
// field is made, evaluated and asked for completions, and each piece but the last of its answer gives
// nothing. An answer of n bytes and 11 around it comes in 12 pieces where n is 1, in 7, 5, 4, 4, 3, 3, 3,
// 3 and 3 from 2 to 10, and then in 2.
const WANTED: Tally = Tally {
    done: 1 + 4 * LONGEST,
    fields: 1 + LONGEST,
    asked: 2 * LONGEST,
    banners: 1,
    answers: LONGEST,
    completed: LONGEST,
    nothing: 11 + 6 + 4 + 3 + 3 + 2 + 2 + 2 + 2 + 2 + (LONGEST - 10),
    others: 0,
};

#[test]
fn each_size_by_step(rt: HostRuntime) {
    let tally = swept_by_step(rt.alloc());
    assert_eq!(rt; tally, WANTED);
}

#[test]
fn each_size_by_play(rt: HostRuntime) {
    let tally = swept_by_play(rt.alloc());
    assert_eq!(rt; tally, WANTED);
}
