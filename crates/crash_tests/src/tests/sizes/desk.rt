//! Hosts on disks of the greatest room, and events for them.
use crate::tests::desk::open;
use block_tree::{Octets, Sequence};
use bytes::Bytes;
use disk_model::MemoryDisk;
use host_events::{ChildEvent, Command, Event, Reply};
use journal::create;
use session_engine::Host;
use std::alloc::Global;
use worksheet::Name;

/// An empty worksheet on a disk with this room.
pub fn created(alloc: Global, room: u64) -> Option<MemoryDisk> {
    if room < 11 || room > 2_147_483_648 {
        return None;
    }
    create(MemoryDisk::new(alloc, room)).ok()
}

/// A host on a new worksheet, whose disk has the greatest room.
pub fn opened(alloc: Global) -> Option<Host<MemoryDisk>> {
    open(alloc, created(alloc, 2_147_483_648)?)
}

/// So many bytes of one kind.
pub fn times(alloc: Global, byte: u8, len: usize) -> Option<Vec<u8>> {
    Vec::from_elem(alloc, byte, len).ok()
}

/// The front, the middle and the back.
pub fn joined(alloc: Global, front: &[u8], middle: &[u8], back: &[u8]) -> Option<Vec<u8>> {
    let mut all = Vec::with_capacity(alloc, front.len()).ok()?;
    all.extend_from_slice(front).ok()?;
    all.extend_from_slice(middle).ok()?;
    all.extend_from_slice(back).ok()?;
    Some(all)
}

fn octets(alloc: Global, bytes: &[u8]) -> Option<Octets> {
    Octets::from_slice(alloc, bytes).ok()
}

/// A session whose interpreter answers requests of completions.
pub fn session(alloc: Global, name: &[u8], words: Vec<Octets>) -> Option<Event> {
    let name = octets(alloc, name)?;
    Some(Event::Command(Command::Session {
        name,
        tab: true,
        words: Sequence::from_vec(words),
    }))
}

// One word of one byte.
fn short_words(alloc: Global) -> Option<Vec<Octets>> {
    let mut words = Vec::new(alloc);
    words.push(octets(alloc, b"p")?).ok()?;
    Some(words)
}

/// A field after another one.
pub fn new(alloc: Global, after: u32, session: &[u8], input: &[u8]) -> Option<Event> {
    let session = octets(alloc, session)?;
    Some(Event::Command(Command::New {
        after,
        session,
        input: octets(alloc, input)?,
    }))
}

/// A piece from the interpreter of a life.
pub fn piece(alloc: Global, name: &[u8], life: u32, bytes: &[u8]) -> Option<Event> {
    let name = Name::new(name)?;
    let bytes = Bytes::copy_from_slice(alloc, bytes).ok()?;
    Some(Event::Child {
        name,
        life,
        event: ChildEvent::Piece(bytes),
    })
}

/// What is reported of an event, in short.
#[derive(Clone, Copy, Debug, PartialEq, Eq)]
enum Reported {
    /// A command isn't refused.
    Done,
    /// Something of a child.
    Child,
    Nothing,
    /// It is refused, or a fault.
    Other,
}

fn reported_by(reply: &Reply) -> Reported {
    match reply {
        Reply::Done | Reply::Field(_) | Reply::Asked(_) => Reported::Done,
        Reply::Child(_) => Reported::Child,
        Reply::Nothing => Reported::Nothing,
        Reply::Refused(_) => Reported::Other,
    }
}

fn give(host: &mut Host<MemoryDisk>, event: Event) -> Reported {
    match host.step(event) {
        Ok(outcome) => reported_by(&outcome.reply),
        Err(_) => Reported::Other,
    }
}

fn give_if(host: &mut Host<MemoryDisk>, event: Option<Event>) -> Reported {
    match event {
        Some(event) => give(host, event),
        None => Reported::Other,
    }
}

/// Whether an event is done, where there is one: a command that isn't refused.
pub fn is_done(host: &mut Host<MemoryDisk>, event: Option<Event>) -> bool {
    give_if(host, event) == Reported::Done
}

/// Whether something is reported of these bytes, which come in pieces of at most 65,536 bytes: of the
/// last one, where nothing comes of the others.
pub fn is_reported(
    alloc: Global,
    host: &mut Host<MemoryDisk>,
    (name, life): (&[u8], u32),
    bytes: &[u8],
) -> bool {
    let mut last = Reported::Nothing;
    for part in bytes.chunks(65_536) {
        if last != Reported::Nothing {
            return false;
        }
        last = give_if(host, piece(alloc, name, life, part));
    }
    last == Reported::Child
}

fn short_session(alloc: Global) -> Option<Event> {
    session(alloc, b"a", short_words(alloc)?)
}

/// Whether session `a` gets field 1, and its first life gives its banner and waits for the answer to it,
/// on a new worksheet.
pub fn asks(alloc: Global, host: &mut Host<MemoryDisk>) -> bool {
    let session = is_done(host, short_session(alloc));
    let field = is_done(host, new(alloc, 0, b"a", b"x"));
    let eval = is_done(host, Some(Event::Command(Command::Eval { id: 1 })));
    let banner = is_reported(alloc, host, (b"a", 1), b"\x02verbatim:\x05");
    session && field && eval && banner
}
