//! The greatest worksheet.
use super::desk::{is_done, is_reported, joined, new, opened, session, times};
use crate::tests::desk::open;
use block_tree::{Block, Octets};
use disk_model::MemoryDisk;
use host_events::{Command, Event};
use meta_format::read_block;
use session_engine::Host;
use std::alloc::Global;
use std::fmt::Write;
use worksheet::{Answer, Field, Session};

// How many sessions and fields a worksheet has at most.
const SESSIONS: u32 = 64;

const FIELDS: u32 = 10_000;

fn name_of(alloc: Global, number: u32) -> Option<String> {
    let mut name = String::new(alloc);
    write!(name, "session-with-a-long-name-{number:07}").ok()?;
    Some(name)
}

// The session of a field: the fields go round the sessions.
fn session_of(alloc: Global, id: u32) -> Option<String> {
    name_of(alloc, id.saturating_sub(1) % SESSIONS)
}

// 16 words of 1,024 bytes, each of another byte.
fn words(alloc: Global) -> Option<Vec<Octets>> {
    let mut words = Vec::new(alloc);
    for byte in b'a'..b'q' {
        words
            .push(Octets::from_vec(times(alloc, byte, 1_024)?))
            .ok()?;
    }
    Some(words)
}

// The input of a field: its number after zeros, 4,095 bytes in all.
fn input_of(alloc: Global, id: u32) -> Option<String> {
    let mut input = String::new(alloc);
    write!(input, "{id:04095}").ok()?;
    Some(input)
}

fn session_event(alloc: Global, number: u32) -> Option<Event> {
    let name = name_of(alloc, number)?;
    session(alloc, name.as_bytes(), words(alloc)?)
}

fn add_sessions(alloc: Global, host: &mut Host<MemoryDisk>) -> bool {
    for number in 0..SESSIONS {
        if !is_done(host, session_event(alloc, number)) {
            return false;
        }
    }
    true
}

fn field_event(alloc: Global, after: u32) -> Option<Event> {
    let id = after.saturating_add(1);
    let name = session_of(alloc, id)?;
    let input = input_of(alloc, id)?;
    new(alloc, after, name.as_bytes(), input.as_bytes())
}

fn add_fields(alloc: Global, host: &mut Host<MemoryDisk>) -> bool {
    for after in 0..FIELDS {
        if !is_done(host, field_event(alloc, after)) {
            return false;
        }
    }
    true
}

// A block with a prompt of 1,024 bytes in it.
fn with_prompt(alloc: Global, byte: u8) -> Option<Vec<u8>> {
    let prompt = times(alloc, byte, 1_024)?;
    joined(
        alloc,
        b"\x02verbatim:A\x02prompt#",
        prompt.as_slice(),
        b"\x05\x05",
    )
}

// A block of 16,777,216 bytes, full of escapes that stand for themselves: what is kept of it is longer
// by half.
fn longest(alloc: Global) -> Option<Vec<u8>> {
    let mut text = Vec::with_capacity(alloc, 16_777_216).ok()?;
    text.extend_from_slice(b"\x02verbatim:y").ok()?;
    for _ in 0..8_388_602u32 {
        text.extend_from_slice(b"\x1b[").ok()?;
    }
    text.push(5).ok()?;
    Some(text)
}

fn evaluates(host: &mut Host<MemoryDisk>, id: u32) -> bool {
    is_done(host, Some(Event::Command(Command::Eval { id })))
}

// Whether something is reported of these bytes of the first session's first life.
fn is_given(alloc: Global, host: &mut Host<MemoryDisk>, bytes: Option<Vec<u8>>) -> bool {
    match (name_of(alloc, 0), bytes) {
        (Some(name), Some(bytes)) => {
            is_reported(alloc, host, (name.as_bytes(), 1), bytes.as_slice())
        }
        _ => false,
    }
}

// Answers of the first session: field 1 under a prompt of 1,024 bytes of p, field 65 under one of q, with
// the longest block.
fn add_answers(alloc: Global, host: &mut Host<MemoryDisk>) -> bool {
    let is_asked = evaluates(host, 1) && evaluates(host, 65);
    let banner = is_given(alloc, host, with_prompt(alloc, b'p'));
    let first = is_given(alloc, host, with_prompt(alloc, b'q'));
    let other = is_given(alloc, host, longest(alloc));
    is_asked && banner && first && other
}

// Makes the greatest worksheet of a new one.
fn is_made(alloc: Global, host: &mut Host<MemoryDisk>) -> bool {
    let sessions = add_sessions(alloc, host);
    let fields = add_fields(alloc, host);
    let answers = add_answers(alloc, host);
    sessions && fields && answers
}

// Whether a session has this number, and its words.
fn is_session(alloc: Global, session: &Session, number: u32) -> Option<bool> {
    let name = name_of(alloc, number)?;
    let words = words(alloc)?;
    let is_named = session.name.as_slice() == name.as_bytes();
    Some(is_named && session.tab && session.words.as_slice() == words.as_slice())
}

fn has_sessions(alloc: Global, host: &Host<MemoryDisk>) -> Option<bool> {
    let mut number = 0u32;
    for session in host.sheet().sessions() {
        if !is_session(alloc, session, number)? {
            return Some(false);
        }
        number = number.saturating_add(1);
    }
    Some(number == SESSIONS)
}

// Whether a field has this number, its input and its session.
fn is_field(alloc: Global, field: &Field, id: u32) -> Option<bool> {
    let name = session_of(alloc, id)?;
    let input = input_of(alloc, id)?;
    let is_named = field.session.as_slice() == name.as_bytes();
    Some(field.id == id && is_named && field.input.as_str() == input.as_str())
}

fn has_fields(alloc: Global, host: &Host<MemoryDisk>) -> Option<bool> {
    let mut id = 0u32;
    for field in host.sheet().fields() {
        id = id.saturating_add(1);
        if !is_field(alloc, field, id)? {
            return Some(false);
        }
    }
    Some(id == FIELDS && host.sheet().next_id() == FIELDS + 1)
}

// Whether an answer has this prompt and this output.
fn is_answer(answer: &Answer, prompt: &[u8], output: &Block) -> bool {
    answer.prompt.as_slice() == prompt && answer.output == *output
}

// Whether a field has an answer with a prompt of 1,024 bytes of this kind, and this output.
fn has_answer(alloc: Global, host: &Host<MemoryDisk>, id: u32, byte: u8, output: &Block) -> bool {
    let Some(prompt) = times(alloc, byte, 1_024) else {
        return false;
    };
    match host.sheet().field(id) {
        Some(field) => match &field.answer {
            Some(answer) => is_answer(answer, prompt.as_slice(), output),
            None => false,
        },
        None => false,
    }
}

fn block(alloc: Global, spelling: &[u8]) -> Option<Block> {
    read_block(alloc, spelling).ok()
}

fn longest_block(alloc: Global) -> Option<Block> {
    let longest = longest(alloc)?;
    block(alloc, longest.as_slice())
}

fn has_answers(alloc: Global, host: &Host<MemoryDisk>) -> Option<bool> {
    let short = block(alloc, b"\x02verbatim:A\x05")?;
    let longest = longest_block(alloc)?;
    let first = has_answer(alloc, host, 1, b'p', &short);
    let other = has_answer(alloc, host, 65, b'q', &longest);
    Some(first && other)
}

// Whether a worksheet is the greatest one.
fn is_greatest(alloc: Global, host: &Host<MemoryDisk>) -> bool {
    let sessions = has_sessions(alloc, host);
    let fields = has_fields(alloc, host);
    let answers = has_answers(alloc, host);
    sessions == Some(true) && fields == Some(true) && answers == Some(true)
}

fn is_greatest_on(alloc: Global, disk: MemoryDisk) -> bool {
    match open(alloc, disk) {
        Some(host) => is_greatest(alloc, &host),
        None => false,
    }
}

fn is_made_and_kept(alloc: Global, host: Host<MemoryDisk>) -> bool {
    let mut host = host;
    let is_made = is_made(alloc, &mut host);
    let is_greatest = is_greatest(alloc, &host);
    is_made && is_greatest && is_greatest_on(alloc, host.close())
}

// The greatest worksheet is made, and stands there when it is opened again.
#[test]
fn the_greatest_worksheet_is_kept(rt: HostRuntime) {
    let is_kept = match opened(rt.alloc()) {
        Some(host) => is_made_and_kept(rt.alloc(), host),
        None => false,
    };
    assert!(rt; is_kept);
}
