//! Scripts of a worksheet, and what comes of them, in lines.
//!
//! A line of a script is an op, which is done where it is allowed. `make OP` makes room for an op, and `room OP`
//! looks for it. While no memory is left `-take OP` does an op, and `-both OP` makes room for it before.
//! `sessions COUNT` and its like do an op so many times. `sheet`, `counts`, `first`, `words NAME` and
//! `prompt LENGTH` are looks.
use super::ops::{answer, block, new, op, session};
use std::alloc::Global;
use std::fmt::Write;
use std::str;
use tests_desk::exhausted;
use worksheet::{Answer, Field, Op, Refusal, Sheet};

// Adds words to a text. Where there is no room for them the text lacks them, and so isn't as wanted.
fn add(text: &mut String, words: &str) {
    let _ = text.push_str(words);
}

fn shown(bytes: &[u8]) -> &str {
    match str::from_utf8(bytes) {
        Ok(text) => text,
        Err(_) => "?",
    }
}

// Does an op where it is allowed, and tells the refusal.
fn take(sheet: &mut Sheet, op: Op) -> Option<Refusal> {
    if let Err(refusal) = sheet.check(&op) {
        return Some(refusal);
    }
    match sheet.apply(op) {
        Ok(()) => None,
        Err(_) => Some(Refusal::OutOfMemory),
    }
}

// The same where there was memory for the op.
fn take_if(sheet: &mut Sheet, op: Option<Op>) -> Option<Refusal> {
    match op {
        Some(op) => take(sheet, op),
        None => Some(Refusal::OutOfMemory),
    }
}

fn add_refusal(text: &mut String, refusal: Option<Refusal>) {
    match refusal {
        Some(refusal) => {
            let _ = writeln!(text, "{} {}", refusal.number(), refusal.name());
        }
        None => add(text, "ok\n"),
    }
}

// What is done with an op.
#[derive(Clone, Copy)]
enum Act {
    Take,
    MakeRoom,
    LookForRoom,
    MakeRoomAndTake,
}

fn add_room(text: &mut String, has_room: bool) {
    add(text, if has_room { "room\n" } else { "no room\n" });
}

fn make_room(text: &mut String, sheet: &mut Sheet, op: &Op) {
    match sheet.make_room(op) {
        Ok(()) => add_room(text, sheet.has_room(op)),
        Err(_) => add(text, "no memory for room\n"),
    }
}

fn add_act(text: &mut String, sheet: &mut Sheet, act: Act, op: Op) {
    match act {
        Act::Take => add_refusal(text, take(sheet, op)),
        Act::MakeRoom => make_room(text, sheet, &op),
        Act::LookForRoom => add_room(text, sheet.has_room(&op)),
        Act::MakeRoomAndTake => {
            make_room(text, sheet, &op);
            add_refusal(text, take(sheet, op));
        }
    }
}

fn add_op(alloc: Global, text: &mut String, sheet: &mut Sheet, act: Act, words: &str) {
    match op(alloc, words) {
        Some(op) => add_act(text, sheet, act, op),
        None => add(text, "no op\n"),
    }
}

fn add_act_without(alloc: Global, text: &mut String, sheet: &mut Sheet, act: Act, op: Op) {
    match exhausted(alloc) {
        Ok(_held) => add_act(text, sheet, act, op),
        Err(_) => add(text, "memory is left\n"),
    }
}

fn add_op_without(alloc: Global, text: &mut String, sheet: &mut Sheet, act: Act, words: &str) {
    match op(alloc, words) {
        Some(op) => add_act_without(alloc, text, sheet, act, op),
        None => add(text, "no op\n"),
    }
}

// Session s1, s2 and so on.
fn adds_session(alloc: Global, sheet: &mut Sheet, number: u32) -> bool {
    match format!(in alloc; "s{number}") {
        Ok(name) => take_if(sheet, session(alloc, name.as_str(), "p|a b")).is_none(),
        Err(_) => false,
    }
}

fn adds_field(alloc: Global, sheet: &mut Sheet, after: u32) -> bool {
    take_if(sheet, new(alloc, after, "x")).is_none()
}

// A field that has this number, and is removed.
fn gives_number(alloc: Global, sheet: &mut Sheet, id: u32) -> bool {
    let made = adds_field(alloc, sheet, 0);
    let removed = take(sheet, Op::Remove { id });
    made && removed.is_none()
}

fn adds_one(alloc: Global, sheet: &mut Sheet, what: &str, number: u32) -> bool {
    match what {
        "sessions" => adds_session(alloc, sheet, number),
        "front" => adds_field(alloc, sheet, 0),
        "behind" => adds_field(alloc, sheet, number.saturating_sub(1)),
        "numbers" => gives_number(alloc, sheet, number),
        _ => false,
    }
}

fn adds_all(alloc: Global, sheet: &mut Sheet, what: &str, count: u32) -> bool {
    for number in 0..count {
        if !adds_one(alloc, sheet, what, number.saturating_add(1)) {
            return false;
        }
    }
    true
}

// So many sessions, fields at the front, fields each after the one before, or numbers that are given out.
fn add_many(alloc: Global, text: &mut String, sheet: &mut Sheet, what: &str, count: &str) {
    match count.parse::<u32>() {
        Ok(count) if adds_all(alloc, sheet, what, count) => add(text, "all\n"),
        _ => add(text, "not all\n"),
    }
}

fn add_answer(alloc: Global, text: &mut String, answer: &Answer) {
    let _ = write!(text, " answered {}", shown(answer.prompt.as_slice()));
    match block(alloc) {
        Some(output) if answer.output == output => add(text, "A"),
        _ => add(text, "another"),
    }
}

fn add_field(alloc: Global, text: &mut String, field: &Field) {
    let (id, input) = (field.id, field.input.as_str());
    let _ = write!(text, "{id} {} {input}:", shown(field.session.as_slice()));
    if let Some(answer) = &field.answer {
        add_answer(alloc, text, answer);
    }
    if let Some(reason) = field.lost {
        let _ = write!(text, " lost {reason:?}");
    }
    add(text, "\n");
}

fn add_first(alloc: Global, text: &mut String, sheet: &Sheet) {
    match sheet.field(1) {
        Some(field) => add_field(alloc, text, field),
        None => add(text, "no field 1\n"),
    }
}

fn session_count(sheet: &Sheet) -> u32 {
    let mut count = 0u32;
    for _ in sheet.sessions() {
        count = count.saturating_add(1);
    }
    count
}

fn add_counts(text: &mut String, sheet: &Sheet) {
    let (next, sessions) = (sheet.next_id(), session_count(sheet));
    let _ = writeln!(text, "next {next}, sessions {sessions}");
}

fn add_sheet(alloc: Global, text: &mut String, sheet: &Sheet) {
    add_counts(text, sheet);
    for field in sheet.fields() {
        add_field(alloc, text, field);
    }
}

// How many words a session has.
fn add_words(text: &mut String, sheet: &Sheet, name: &str) {
    match sheet.session(name.as_bytes()) {
        Some(session) => {
            let _ = writeln!(text, "words {}", session.words.as_slice().len());
        }
        None => add(text, "no session\n"),
    }
}

// An answer to field 1 whose prompt has so many bytes.
fn long_answer(alloc: Global, count: &str) -> Option<Op> {
    let mut prompt = String::new(alloc);
    for _ in 0..count.parse::<u32>().ok()? {
        prompt.push('>').ok()?;
    }
    answer(alloc, 1, prompt.as_str())
}

// Whether the worksheet takes it.
fn add_prompt(alloc: Global, text: &mut String, sheet: &Sheet, count: &str) {
    match long_answer(alloc, count) {
        Some(op) => add_refusal(text, sheet.check(&op).err()),
        None => add(text, "no op\n"),
    }
}

fn add_look(alloc: Global, text: &mut String, sheet: &Sheet, look: &str, rest: &str) {
    match look {
        "sheet" => add_sheet(alloc, text, sheet),
        "counts" => add_counts(text, sheet),
        "first" => add_first(alloc, text, sheet),
        "words" => add_words(text, sheet, rest),
        "prompt" => add_prompt(alloc, text, sheet, rest),
        _ => add(text, "no look\n"),
    }
}

fn add_line(alloc: Global, text: &mut String, sheet: &mut Sheet, line: &str) {
    let (verb, rest) = match line.split_once(' ') {
        Some(parts) => parts,
        None => (line, ""),
    };
    match verb {
        "make" => add_op(alloc, text, sheet, Act::MakeRoom, rest),
        "room" => add_op(alloc, text, sheet, Act::LookForRoom, rest),
        "-take" => add_op_without(alloc, text, sheet, Act::Take, rest),
        "-both" => add_op_without(alloc, text, sheet, Act::MakeRoomAndTake, rest),
        "sessions" | "front" | "behind" | "numbers" => add_many(alloc, text, sheet, verb, rest),
        "sheet" | "counts" | "first" | "words" | "prompt" => {
            add_look(alloc, text, sheet, verb, rest)
        }
        _ => add_op(alloc, text, sheet, Act::Take, line),
    }
}

fn add_lines(alloc: Global, text: &mut String, sheet: &mut Sheet, script: &str) {
    for line in script.lines() {
        add_line(alloc, text, sheet, line);
    }
}

// What a worksheet tells of a script. The text has room for so many bytes that no line takes memory for it.
fn reported(alloc: Global, sheet: &mut Sheet, script: &str) -> Option<String> {
    let mut text = String::with_capacity(alloc, 1_000).ok()?;
    add_lines(alloc, &mut text, sheet, script);
    Some(text)
}

/// Whether a worksheet with the session a, of one word, tells this of a script.
pub fn is_reported(alloc: Global, script: &str, want: &str) -> bool {
    let mut sheet = Sheet::new(alloc);
    let has_session = take_if(&mut sheet, session(alloc, "a", "p")).is_none();
    match reported(alloc, &mut sheet, script) {
        Some(text) => has_session && text.as_str() == want,
        None => false,
    }
}
