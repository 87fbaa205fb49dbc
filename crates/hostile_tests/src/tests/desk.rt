//! Hosts on disks in memory, and what they report of scripts. A line of a script is served over children.
//! One after `!` is served while no memory is left. One after `.` is a step of the host alone, so that no
//! block stays that replies had, and one after `-` such a step while no memory is left.
use child_calls::Children;
use child_edge::{EdgeCause, EdgeFault, serve, wait};
use disk_model::MemoryDisk;
use host_events::{Command, Event, HostFault, Reply};
use journal::create;
use session_engine::Host;
use sheet_text::{ScriptLine, read_line, reply_text, sheet_text};
use std::alloc::Global;
use tests_desk::exhausted;

// An empty worksheet on a disk in memory.
fn created(alloc: Global) -> Option<MemoryDisk> {
    create(MemoryDisk::new(alloc, 1_000_000)).ok()
}

fn open(alloc: Global, disk: MemoryDisk) -> Option<Host<MemoryDisk>> {
    Host::open(alloc, disk).ok()
}

/// A host on a new worksheet.
pub fn opened(alloc: Global) -> Option<Host<MemoryDisk>> {
    open(alloc, created(alloc)?)
}

/// A text without a byte, with room for so many that no line takes memory for it.
pub fn empty_text(alloc: Global) -> Option<Vec<u8>> {
    Vec::with_capacity(alloc, 1_000).ok()
}

// Adds words to a text. Where there is no room for them the text lacks them, and so isn't as wanted.
fn add(text: &mut Vec<u8>, words: &str) {
    let _ = text.extend_from_slice(words.as_bytes());
}

fn add_reply(text: &mut Vec<u8>, reply: &Reply) {
    if reply_text(reply, text).is_err() {
        add(text, "no room\n");
    }
}

fn add_replies(text: &mut Vec<u8>, replies: &[Reply]) {
    for reply in replies {
        add_reply(text, reply);
    }
}

fn fault_text(fault: HostFault) -> &'static str {
    match fault {
        HostFault::Closed => "closed\n",
        HostFault::Disk => "disk\n",
        HostFault::OutOfMemory => "no memory\n",
        HostFault::JournalFull => "full\n",
    }
}

fn cause_text(cause: EdgeCause) -> &'static str {
    match cause {
        EdgeCause::Host(fault) => fault_text(fault),
        EdgeCause::OutOfMemory => "no memory for the edge\n",
    }
}

fn add_fault(text: &mut Vec<u8>, fault: &EdgeFault) {
    add_replies(text, fault.replies.as_slice());
    add(text, cause_text(fault.cause));
}

fn add_serve<C: Children>(
    alloc: Global,
    host: &mut Host<MemoryDisk>,
    children: &mut C,
    command: Command,
    text: &mut Vec<u8>,
) {
    match serve(alloc, host, children, command) {
        Ok(replies) => add_replies(text, replies.as_slice()),
        Err(fault) => add_fault(text, &fault),
    }
}

fn add_wait<C: Children>(
    alloc: Global,
    host: &mut Host<MemoryDisk>,
    children: &mut C,
    text: &mut Vec<u8>,
) {
    add(text, "wait\n");
    match wait(alloc, host, children) {
        Ok(replies) => add_replies(text, replies.as_slice()),
        Err(fault) => add_fault(text, &fault),
    }
}

// Adds the worksheet in print.
fn add_sheet(host: &Host<MemoryDisk>, text: &mut Vec<u8>) {
    if sheet_text(host.sheet(), text).is_err() {
        add(text, "no room\n");
    }
}

fn add_read<C: Children>(
    alloc: Global,
    host: &mut Host<MemoryDisk>,
    children: &mut C,
    line: ScriptLine,
    text: &mut Vec<u8>,
) {
    match line {
        ScriptLine::Command(command) => add_serve(alloc, host, children, command, text),
        ScriptLine::Wait => add_wait(alloc, host, children, text),
        ScriptLine::Print => add_sheet(host, text),
        ScriptLine::Skip => add(text, "skipped\n"),
    }
}

fn add_read_without<C: Children>(
    alloc: Global,
    host: &mut Host<MemoryDisk>,
    children: &mut C,
    line: ScriptLine,
    text: &mut Vec<u8>,
) {
    match exhausted(alloc) {
        Ok(_held) => add_read(alloc, host, children, line, text),
        Err(_) => add(text, "memory is left\n"),
    }
}

// Gives the host an event, and adds its reply or its fault.
fn add_step(host: &mut Host<MemoryDisk>, event: Event, text: &mut Vec<u8>) {
    match host.step(event) {
        Ok(outcome) => add_reply(text, &outcome.reply),
        Err(fault) => add(text, fault_text(fault)),
    }
}

/// The same while no memory is left.
pub fn add_step_without(
    alloc: Global,
    host: &mut Host<MemoryDisk>,
    event: Event,
    text: &mut Vec<u8>,
) {
    match exhausted(alloc) {
        Ok(_held) => add_step(host, event, text),
        Err(_) => add(text, "memory is left\n"),
    }
}

// The line of a script, where it is one.
fn read(alloc: Global, line: &[u8]) -> Option<ScriptLine> {
    read_line(alloc, line).ok()
}

/// The command of a line, as an event.
pub fn command(alloc: Global, line: &[u8]) -> Option<Event> {
    match read(alloc, line)? {
        ScriptLine::Command(command) => Some(Event::Command(command)),
        _ => None,
    }
}

fn step_line(alloc: Global, host: &mut Host<MemoryDisk>, line: &[u8], text: &mut Vec<u8>) {
    match command(alloc, line) {
        Some(event) => add_step(host, event, text),
        None => add(text, "no command\n"),
    }
}

fn step_line_without(alloc: Global, host: &mut Host<MemoryDisk>, line: &[u8], text: &mut Vec<u8>) {
    match command(alloc, line) {
        Some(event) => add_step_without(alloc, host, event, text),
        None => add(text, "no command\n"),
    }
}

fn serve_line<C: Children>(
    alloc: Global,
    host: &mut Host<MemoryDisk>,
    children: &mut C,
    line: &[u8],
    text: &mut Vec<u8>,
) {
    match read(alloc, line) {
        Some(line) => add_read(alloc, host, children, line, text),
        None => add(text, "a bad line\n"),
    }
}

fn serve_line_without<C: Children>(
    alloc: Global,
    host: &mut Host<MemoryDisk>,
    children: &mut C,
    line: &[u8],
    text: &mut Vec<u8>,
) {
    match read(alloc, line) {
        Some(line) => add_read_without(alloc, host, children, line, text),
        None => add(text, "a bad line\n"),
    }
}

fn add_line<C: Children>(
    alloc: Global,
    host: &mut Host<MemoryDisk>,
    children: &mut C,
    line: &[u8],
    text: &mut Vec<u8>,
) {
    match line {
        [b'!', line @ ..] => serve_line_without(alloc, host, children, line, text),
        [b'.', line @ ..] => step_line(alloc, host, line, text),
        [b'-', line @ ..] => step_line_without(alloc, host, line, text),
        _ => serve_line(alloc, host, children, line, text),
    }
}

/// Does the lines of a script, one after another, and adds what is reported.
pub fn add_lines<C: Children>(
    alloc: Global,
    host: &mut Host<MemoryDisk>,
    children: &mut C,
    script: &str,
    text: &mut Vec<u8>,
) {
    for line in script.lines() {
        add_line(alloc, host, children, line.as_bytes(), text);
    }
}

/// Whether this is reported of a script.
pub fn tells<C: Children>(
    alloc: Global,
    host: &mut Host<MemoryDisk>,
    children: &mut C,
    script: &str,
    want: &str,
) -> bool {
    match empty_text(alloc) {
        Some(mut text) => {
            add_lines(alloc, host, children, script, &mut text);
            are(&text, want)
        }
        None => false,
    }
}

/// Whether the bytes are these.
pub fn are(bytes: &Vec<u8>, want: &str) -> bool {
    bytes.as_slice() == want.as_bytes()
}

/// The worksheet of the host in print.
pub fn sheet(alloc: Global, host: &Host<MemoryDisk>) -> Option<Vec<u8>> {
    let mut text = empty_text(alloc)?;
    add_sheet(host, &mut text);
    Some(text)
}

fn prints(alloc: Global, host: &Host<MemoryDisk>, want: &str) -> bool {
    match sheet(alloc, host) {
        Some(text) => are(&text, want),
        None => false,
    }
}

/// Whether the worksheet that a disk has is this in print.
pub fn keeps(alloc: Global, disk: MemoryDisk, want: &str) -> bool {
    match open(alloc, disk) {
        Some(host) => prints(alloc, &host, want),
        None => false,
    }
}

/// Whether a script on a new worksheet tells this, over these children.
pub fn is_reported<C: Children>(alloc: Global, children: &mut C, script: &str, want: &str) -> bool {
    match opened(alloc) {
        Some(mut host) => tells(alloc, &mut host, children, script, want),
        None => false,
    }
}
