//! Scripts of a life, and what it tells of them, in lines.
//!
//! Each line of a script is an item or a piece of the stream. A line of input follows `>`, and has the number of its line in the script,
//! counted from 2. What follows `!` is done while no memory is left.
ghost use Rattle.std.specs.Prelude.{IfSome};
ghost use Rattle.plugin_core.specs.Items.{IsAskable};

use block_tree::{Block, Octets, Text};
use meta_format::write_block;
use plugin_core::{AcceptFault, Answered, Item, Life, Reason, Step};
use scheme_text::{BadCompletion, Completions};
use std::alloc::Global;
use std::fmt::Write;
use std::str;
use tests_desk::exhausted;

fn line(alloc: Global, id: u32, text: &[u8]) -> Option<Item>
    ensures { IfSome result IsAskable }
{
    match Octets::from_slice(alloc, text) {
        Ok(text) => Some(Item::Line { id, text }),
        Err(_) => None,
    }
}

/// Life 7, which begins with this text as line 1.
pub fn begun(alloc: Global, text: &str) -> Option<Life> {
    Life::begin(alloc, 7, line(alloc, 1, text.as_bytes())?).ok()
}

// Life 7, which begins with a request in front of `h`.
fn begun_by_request(alloc: Global) -> Option<Life> {
    let text = Text::from_string(String::from_str(alloc, "h").ok()?);
    let item = Item::Complete {
        id: 1,
        text,
        cursor: 0,
    };
    Life::begin(alloc, 7, item).ok()
}

fn shown(bytes: &[u8]) -> &str {
    match str::from_utf8(bytes) {
        Ok(text) => text,
        Err(_) => "?",
    }
}

// Adds words to a text. Where there is no room for them the text lacks them, and so isn't as wanted.
fn add(text: &mut String, words: &str) {
    let _ = text.push_str(words);
}

fn add_bytes(text: &mut String, bytes: &[u8]) {
    add(text, shown(bytes));
}

// A block in its canonical spelling.
fn add_block(alloc: Global, text: &mut String, block: &Block) {
    let mut bytes = Vec::new(alloc);
    let _ = write_block(block, &mut bytes);
    add_bytes(text, bytes.as_slice());
}

// The root and the completions each in brackets, or `bad`.
fn add_completed(text: &mut String, reported: &Result<Completions, BadCompletion>) {
    match reported {
        Ok(reported) => {
            let _ = write!(text, "[{}]", shown(reported.root.as_slice()));
            for completion in reported.rest.as_slice() {
                let _ = write!(text, " [{}]", shown(completion.as_slice()));
            }
        }
        Err(_) => add(text, "bad"),
    }
}

fn add_answered(alloc: Global, text: &mut String, answered: &Answered) {
    match answered {
        Answered::Banner(output) => {
            add(text, "banner ");
            add_block(alloc, text, output);
        }
        Answered::Line { id, prompt, output } => {
            let _ = write!(text, "line {id} [{}] ", shown(prompt.as_slice()));
            add_block(alloc, text, output);
        }
        Answered::Complete { id, result } => {
            let _ = write!(text, "completed {id} ");
            add_completed(text, result);
        }
    }
    add(text, "\n");
}

// Each part of a step as a line. What is sent has its line feed.
fn add_step(alloc: Global, text: &mut String, step: &Step) {
    if let Some(answered) = &step.answered {
        add_answered(alloc, text, answered);
    }
    if let Some(input) = &step.default_input {
        let _ = writeln!(text, "default {}", shown(input.as_slice()));
    }
    if let Some(bytes) = &step.send {
        let _ = write!(text, "send {}", shown(bytes.as_slice()));
    }
    if let Some(ended) = &step.ended {
        let _ = writeln!(text, "ended {:?} lost {}", ended.reason, ended.lost.len());
    }
}

// Gives a piece to a life that goes on, and adds its step.
fn add_piece(alloc: Global, text: &mut String, life: &mut Life, piece: &[u8]) {
    if life.over() {
        return add(text, "the life is over\n");
    }
    match life.piece(piece) {
        Ok(step) => add_step(alloc, text, &step),
        Err(_) => add(text, "no memory\n"),
    }
}

fn add_piece_without(alloc: Global, text: &mut String, life: &mut Life, piece: &[u8]) {
    match exhausted(alloc) {
        Ok(_held) => add_piece(alloc, text, life, piece),
        Err(_) => add(text, "memory is left\n"),
    }
}

fn add_item(text: &mut String, item: &Item) {
    match item {
        Item::Line { id, text: line } => {
            let _ = writeln!(text, "line {id} {}", shown(line.as_slice()));
        }
        Item::Complete {
            id,
            text: _,
            cursor: _,
        } => {
            let _ = writeln!(text, "request {id}");
        }
    }
}

// An item that is given back, and why.
fn add_refused(text: &mut String, fault: &AcceptFault) {
    match fault {
        AcceptFault::Full(item) => {
            add(text, "full: ");
            add_item(text, item);
        }
        AcceptFault::OutOfMemory(item) => {
            add(text, "no memory: ");
            add_item(text, item);
        }
    }
}

fn add_accepted(text: &mut String, accepted: &Result<Option<Octets>, AcceptFault>) {
    match accepted {
        Ok(Some(bytes)) => {
            add(text, "send ");
            add_bytes(text, bytes.as_slice());
        }
        Ok(None) => {}
        Err(fault) => add_refused(text, fault),
    }
}

// Gives an item to a life that goes on, and adds what is to be sent now, or why it is refused.
fn add_accept(text: &mut String, life: &mut Life, item: Item)
    requires { IsAskable item }
{
    if life.over() {
        return add(text, "the life is over\n");
    }
    add_accepted(text, &life.accept(item));
}

fn add_accept_without(alloc: Global, text: &mut String, life: &mut Life, item: Item)
    requires { IsAskable item }
{
    match exhausted(alloc) {
        Ok(_held) => add_accept(text, life, item),
        Err(_) => add(text, "memory is left\n"),
    }
}

// Gives a line of input, and adds what comes of it.
fn add_input(alloc: Global, text: &mut String, life: &mut Life, id: u32, input: &[u8]) {
    match line(alloc, id, input) {
        Some(item) => add_accept(text, life, item),
        None => add(text, "no line\n"),
    }
}

fn add_input_without(alloc: Global, text: &mut String, life: &mut Life, id: u32, input: &[u8]) {
    match line(alloc, id, input) {
        Some(item) => add_accept_without(alloc, text, life, item),
        None => add(text, "no line\n"),
    }
}

fn add_line(alloc: Global, text: &mut String, life: &mut Life, number: u32, line: &[u8]) {
    match line {
        [b'!', b'>', input @ ..] => add_input_without(alloc, text, life, number, input),
        [b'!', piece @ ..] => add_piece_without(alloc, text, life, piece),
        [b'>', input @ ..] => add_input(alloc, text, life, number, input),
        _ => add_piece(alloc, text, life, line),
    }
}

/// Does the lines of a script, one after another, and adds what is reported.
pub fn add_lines(alloc: Global, text: &mut String, life: &mut Life, script: &str) {
    let mut number = 1u32;
    for line in script.lines() {
        number = number.saturating_add(1);
        add_line(alloc, text, life, number, line.as_bytes());
    }
}

fn add_waiting(text: &mut String, life: &Life) {
    for id in 1..6u32 {
        if life.waits_for(id) {
            let _ = write!(text, " {id}");
        }
    }
    add(text, "\n");
}

/// Adds the life's number and prompt, how many items wait, and which of the lines 1 to 5 do.
pub fn add_life(text: &mut String, life: &Life) {
    let number = life.number();
    if life.over() {
        let _ = writeln!(text, "life {number} is over");
    } else {
        let prompt = shown(life.prompt());
        let _ = write!(text, "life {number} [{prompt}] waits {}:", life.waiting());
        add_waiting(text, life);
    }
}

/// Ends a life, and adds the first four items that are lost.
pub fn add_lost(text: &mut String, life: Life) {
    if life.over() {
        return add(text, "the life is over\n");
    }
    let mut ended = life.finish(Reason::Ended);
    let _ = writeln!(text, "{:?}", ended.reason);
    for _ in 0..4u32 {
        match ended.lost.pop() {
            Some(item) => add_item(text, &item),
            None => add(text, "none\n"),
        }
    }
}

/// A text without a byte, with room for so many that no line takes memory for it.
pub fn empty_text(alloc: Global) -> Option<String> {
    String::with_capacity(alloc, 1_000).ok()
}

fn tells(alloc: Global, life: &mut Life, script: &str, want: &str) -> bool {
    match empty_text(alloc) {
        Some(mut text) => {
            add_lines(alloc, &mut text, life, script);
            add_life(&mut text, life);
            text.as_str() == want
        }
        None => false,
    }
}

/// Whether this is reported of a script, and then of the life, which begins with this line.
pub fn is_reported(alloc: Global, first: &str, script: &str, want: &str) -> bool {
    match begun(alloc, first) {
        Some(mut life) => tells(alloc, &mut life, script, want),
        None => false,
    }
}

/// The same of a life that begins with a request in front of `h`.
pub fn is_reported_after_a_request(alloc: Global, script: &str, want: &str) -> bool {
    match begun_by_request(alloc) {
        Some(mut life) => tells(alloc, &mut life, script, want),
        None => false,
    }
}
