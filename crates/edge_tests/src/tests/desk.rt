//! Hosts on disks in memory, and what they tell in short.
use block_tree::{Octets, OutOfMemory, Sequence};
use child_calls::Children;
use child_edge::{serve, wait};
use disk_model::MemoryDisk;
use host_events::{ChildReply, Closed, Command, Reply};
use journal::create;
use session_engine::Host;
use std::alloc::Global;
use std::fmt::Write;
use std::str;
use worksheet::Field;

/// A session whose program is run with one word, and one field of it.
#[derive(Clone, Copy)]
pub struct Asked<'a> {
    pub name: &'a str,
    pub program: &'a str,
    pub word: &'a str,
    pub input: &'a str,
}

fn octets(alloc: Global, text: &str) -> Result<Octets, OutOfMemory> {
    Octets::from_slice(alloc, text.as_bytes())
}

fn session(alloc: Global, asked: &Asked<'_>) -> Result<Command, OutOfMemory> {
    let mut words = Vec::new(alloc);
    words.push(octets(alloc, asked.program)?)?;
    words.push(octets(alloc, asked.word)?)?;
    Ok(Command::Session {
        name: octets(alloc, asked.name)?,
        tab: false,
        words: Sequence::from_vec(words),
    })
}

fn field(alloc: Global, asked: &Asked<'_>) -> Result<Command, OutOfMemory> {
    Ok(Command::New {
        after: 0,
        session: octets(alloc, asked.name)?,
        input: octets(alloc, asked.input)?,
    })
}

fn stop(alloc: Global, name: &str) -> Result<Command, OutOfMemory> {
    Ok(Command::Stop {
        name: octets(alloc, name)?,
    })
}

fn shown(bytes: &[u8]) -> &str {
    match str::from_utf8(bytes) {
        Ok(text) => text,
        Err(_) => "?",
    }
}

fn add_child(text: &mut String, child: &ChildReply) -> Result<(), OutOfMemory> {
    let name = shown(child.name.as_slice());
    match &child.closed {
        Some(Closed::Banner(_)) => write!(text, "banner {name}, ")?,
        Some(Closed::Line(id)) => write!(text, "answered {id}, ")?,
        Some(Closed::Complete(id, _)) => write!(text, "completed {id}, ")?,
        None => {}
    }
    if let Some(ended) = &child.ended {
        let reason = ended.reason;
        let lost = ended.lost.len();
        write!(text, "ended {name} {reason:?} lost {lost}, ")?;
    }
    Ok(())
}

fn add_reply(text: &mut String, reply: &Reply) -> Result<(), OutOfMemory> {
    match reply {
        Reply::Done => write!(text, "ok, "),
        Reply::Field(id) => write!(text, "field {id}, "),
        Reply::Asked(_) => write!(text, "asked, "),
        Reply::Refused(refusal) => write!(text, "refused {refusal:?}, "),
        Reply::Child(child) => add_child(text, child),
        Reply::Nothing => write!(text, "nothing, "),
    }
}

fn add_replies(text: &mut String, replies: &[Reply]) -> Result<(), OutOfMemory> {
    for reply in replies {
        add_reply(text, reply)?;
    }
    Ok(())
}

// Serves a command, and adds what is reported.
fn serve_one<C: Children>(
    alloc: Global,
    host: &mut Host<MemoryDisk>,
    children: &mut C,
    text: &mut String,
    command: Command,
) -> Result<(), OutOfMemory> {
    match serve(alloc, host, children, command) {
        Ok(replies) => add_replies(text, replies.as_slice()),
        Err(_) => write!(text, "a fault, "),
    }
}

// Waits, and adds what is reported.
fn wait_all<C: Children>(
    alloc: Global,
    host: &mut Host<MemoryDisk>,
    children: &mut C,
    text: &mut String,
) -> Result<(), OutOfMemory> {
    write!(text, "wait: ")?;
    match wait(alloc, host, children) {
        Ok(replies) => add_replies(text, replies.as_slice()),
        Err(_) => write!(text, "a fault, "),
    }
}

// Makes a session with a field of this number, and evaluates it; adds what is reported.
fn evaluate<C: Children>(
    alloc: Global,
    host: &mut Host<MemoryDisk>,
    children: &mut C,
    text: &mut String,
    (asked, id): (&Asked<'_>, u32),
) -> Result<(), OutOfMemory> {
    serve_one(alloc, host, children, text, session(alloc, asked)?)?;
    serve_one(alloc, host, children, text, field(alloc, asked)?)?;
    serve_one(alloc, host, children, text, Command::Eval { id })
}

// The same of each, numbered from 1.
fn evaluate_each<C: Children>(
    alloc: Global,
    host: &mut Host<MemoryDisk>,
    children: &mut C,
    text: &mut String,
    all: &[Asked<'_>],
) -> Result<(), OutOfMemory> {
    let mut id: u32 = 0;
    for asked in all {
        id = id.saturating_add(1);
        evaluate(alloc, host, children, text, (asked, id))?;
    }
    Ok(())
}

// Stops each session, and adds what is reported.
fn stop_each<C: Children>(
    alloc: Global,
    host: &mut Host<MemoryDisk>,
    children: &mut C,
    text: &mut String,
    all: &[Asked<'_>],
) -> Result<(), OutOfMemory> {
    write!(text, "stop: ")?;
    for asked in all {
        serve_one(alloc, host, children, text, stop(alloc, asked.name)?)?;
    }
    Ok(())
}

// A host on a new worksheet.
fn opened(alloc: Global) -> Option<Host<MemoryDisk>> {
    let disk = create(MemoryDisk::new(alloc, 1_000_000)).ok()?;
    Host::open(alloc, disk).ok()
}

fn add_field(text: &mut String, field: &Field) -> Result<(), OutOfMemory> {
    let (id, input) = (field.id, field.input.as_str());
    match &field.answer {
        Some(answer) => {
            let prompt = shown(answer.prompt.as_slice());
            write!(text, "{id}: {prompt}{input}, answered, ")
        }
        None => match field.lost {
            Some(reason) => write!(text, "{id}: > {input}, {reason:?}, "),
            None => write!(text, "{id}: > {input}, open, "),
        },
    }
}

fn add_fields(text: &mut String, host: &Host<MemoryDisk>) -> Result<(), OutOfMemory> {
    write!(text, "fields: ")?;
    for field in host.sheet().fields() {
        add_field(text, field)?;
    }
    Ok(())
}

// Adds what the host tells of it all.
fn tell<C: Children>(
    alloc: Global,
    host: &mut Host<MemoryDisk>,
    children: &mut C,
    text: &mut String,
    all: &[Asked<'_>],
) -> Result<(), OutOfMemory> {
    evaluate_each(alloc, host, children, text, all)?;
    wait_all(alloc, host, children, text)?;
    stop_each(alloc, host, children, text, all)?;
    add_fields(text, host)
}

/// What a host on a new worksheet tells in short: sessions with a field each, which are evaluated; a wait
/// for them; a stop of each; and the fields that it has then.
pub fn reported<C: Children>(alloc: Global, children: &mut C, all: &[Asked<'_>]) -> Option<String> {
    let mut host = opened(alloc)?;
    let mut text = String::new(alloc);
    match tell(alloc, &mut host, children, &mut text, all) {
        Ok(()) => Some(text),
        Err(_) => None,
    }
}

/// Whether it tells this.
pub fn tells<C: Children>(alloc: Global, children: &mut C, all: &[Asked<'_>], want: &str) -> bool {
    match reported(alloc, children, all) {
        Some(text) => text.as_str() == want,
        None => false,
    }
}
