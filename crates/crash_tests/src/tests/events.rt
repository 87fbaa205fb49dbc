//! Events of session `a`, in short.
use block_tree::{Octets, Sequence};
use bytes::Bytes;
use host_events::{ChildEvent, Command, Event};
use std::alloc::Global;
use worksheet::Name;

/// A block with no text, as a banner.
pub const BANNER: &str = "\x02verbatim:\x05";

/// What happens to a host.
#[derive(Clone, Copy)]
pub enum Step<'a> {
    /// Session `a` begins, plain, with this word.
    Session(&'a str),
    /// The same with an interpreter that answers requests of completions.
    Tab(&'a str),
    /// A field of it is made after this one, with this input.
    New(u32, &'a str),
    Set(u32, &'a str),
    Remove(u32),
    Eval(u32),
    Complete(u32, u32),
    /// These bytes came from the child of this life.
    Piece(u32, &'a str),
    StartRefused(u32),
    End(u32),
}

fn octets(alloc: Global, text: &str) -> Option<Octets> {
    Octets::from_slice(alloc, text.as_bytes()).ok()
}

fn words(alloc: Global, word: &str) -> Option<Vec<Octets>> {
    let mut words = Vec::new(alloc);
    words.push(octets(alloc, word)?).ok()?;
    Some(words)
}

fn session(alloc: Global, tab: bool, word: &str) -> Option<Command> {
    let words = words(alloc, word)?;
    Some(Command::Session {
        name: octets(alloc, "a")?,
        tab,
        words: Sequence::from_vec(words),
    })
}

fn new(alloc: Global, after: u32, input: &str) -> Option<Command> {
    let session = octets(alloc, "a")?;
    Some(Command::New {
        after,
        session,
        input: octets(alloc, input)?,
    })
}

fn set(alloc: Global, id: u32, input: &str) -> Option<Command> {
    Some(Command::Set {
        id,
        input: octets(alloc, input)?,
    })
}

fn command(alloc: Global, step: &Step<'_>) -> Option<Command> {
    match step {
        Step::Session(word) => session(alloc, false, word),
        Step::Tab(word) => session(alloc, true, word),
        Step::New(after, input) => new(alloc, *after, input),
        Step::Set(id, input) => set(alloc, *id, input),
        Step::Remove(id) => Some(Command::Remove { id: *id }),
        Step::Eval(id) => Some(Command::Eval { id: *id }),
        Step::Complete(id, cursor) => Some(Command::Complete {
            id: *id,
            cursor: *cursor,
        }),
        Step::Piece(_, _) | Step::StartRefused(_) | Step::End(_) => None,
    }
}

// What came of a call on the child of a life of session `a`.
fn child(life: u32, event: ChildEvent) -> Option<Event> {
    let name = Name::new(b"a")?;
    Some(Event::Child { name, life, event })
}

fn piece(alloc: Global, life: u32, text: &str) -> Option<Event> {
    let bytes = Bytes::copy_from_slice(alloc, text.as_bytes()).ok()?;
    child(life, ChildEvent::Piece(bytes))
}

pub fn event(alloc: Global, step: &Step<'_>) -> Option<Event> {
    match step {
        Step::Piece(life, text) => piece(alloc, *life, text),
        Step::StartRefused(life) => child(*life, ChildEvent::StartRefused),
        Step::End(life) => child(*life, ChildEvent::End),
        _ => Some(Event::Command(command(alloc, step)?)),
    }
}
