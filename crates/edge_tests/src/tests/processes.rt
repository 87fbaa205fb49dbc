//! What is done to processes: each call on a child, over processes that are made up.
use super::made_up::{Calls, Runtime};
use block_tree::{Octets, OutOfMemory};
use child_calls::{Children, Processes, ReceiveFault, Received};
use std::alloc::Global;
use std::os::fd::AsRawFd;
use std::process;
use std::process::OpenProcess;
use worksheet::Name;

fn name() -> Option<Name> {
    Name::new(b"a")
}

fn octets(alloc: Global, words: &[&str]) -> Result<Vec<Octets>, OutOfMemory> {
    let mut list = Vec::new(alloc);
    for word in words {
        list.push(Octets::from_slice(alloc, word.as_bytes())?)?;
    }
    Ok(list)
}

// Whether this life of session `a` is started with these words.
fn starts_as<R: process::Processes + Drop>(
    alloc: Global,
    children: &mut Processes<R>,
    words: &[&str],
    life: u32,
) -> bool
where
    <R::Started as OpenProcess>::Stdin: AsRawFd,
{
    match (name(), octets(alloc, words)) {
        (Some(name), Ok(words)) => children.start(name, life, words.as_slice()).is_ok(),
        _ => false,
    }
}

// Whether the first one is.
fn starts<R: process::Processes + Drop>(
    alloc: Global,
    children: &mut Processes<R>,
    words: &[&str],
) -> bool
where
    <R::Started as OpenProcess>::Stdin: AsRawFd,
{
    starts_as(alloc, children, words, 1)
}

// Whether a line of five bytes is sent to this life of session `a`.
fn sends<R: process::Processes + Drop>(children: &mut Processes<R>, life: u32) -> bool
where
    <R::Started as OpenProcess>::Stdin: AsRawFd,
{
    match name() {
        Some(name) => children.send(name, life, b"line\n").is_ok(),
        None => false,
    }
}

// Whether this life of session `a` is stopped.
fn stops<R: process::Processes + Drop>(children: &mut Processes<R>, life: u32) -> bool
where
    <R::Started as OpenProcess>::Stdin: AsRawFd,
{
    match name() {
        Some(name) => children.stop(name, life).is_ok(),
        None => false,
    }
}

// How long a piece of the first life of session `a` is: 0 is the end of its output.
fn received<R: process::Processes + Drop>(children: &mut Processes<R>) -> Option<usize>
where
    <R::Started as OpenProcess>::Stdin: AsRawFd,
{
    match children.receive(name()?, 1) {
        Ok(Received::Piece(piece)) => Some(piece.as_slice().len()),
        Ok(Received::End) => Some(0),
        Err(ReceiveFault::Child | ReceiveFault::OutOfMemory) => None,
    }
}

const WORDS: [&str; 4] = ["p", "one", "two", "three"];

// Whether a child that starts gets so many words, and pipes on its input and output.
fn is_started(alloc: Global, calls: &Calls) -> bool {
    let mut children = Processes::new(calls.runtime(), alloc);
    let is_started = starts(alloc, &mut children, &WORDS);
    is_started && calls.words.get() == 3 && calls.pipes.get()
}

#[test]
fn a_child_gets_its_words_and_its_pipes(rt: HostRuntime) {
    let calls = Calls::none(rt.alloc());
    assert!(rt; is_started(rt.alloc(), &calls));
}

// Whether the started life alone gets its line, all of it, and none where its input is closed.
fn is_sent(alloc: Global, calls: &Calls) -> bool {
    let mut children = Processes::new(calls.runtime(), alloc);
    let is_started = starts(alloc, &mut children, &WORDS);
    let to_it = (sends(&mut children, 1), calls.sent.get());
    let to_another = (sends(&mut children, 2), calls.sent.get());
    calls.closed.set(true);
    let to_closed = sends(&mut children, 1);
    is_started && to_it == (true, 5) && to_another == (false, 5) && !to_closed
}

#[test]
fn a_life_gets_all_that_is_sent_to_it(rt: HostRuntime) {
    let calls = Calls::none(rt.alloc());
    assert!(rt; is_sent(rt.alloc(), &calls));
}

// What is received of a child whose next reads are interrupted so many times.
fn received_after(alloc: Global, calls: &Calls, interrupts: u32) -> Option<usize> {
    let mut children = Processes::new(calls.runtime(), alloc);
    let is_started = starts(alloc, &mut children, &WORDS);
    calls.interrupts.set(interrupts);
    let received = received(&mut children);
    if is_started { received } else { None }
}

#[test]
fn a_read_is_tried_again_a_thousand_times(rt: HostRuntime) {
    let calls = Calls::none(rt.alloc());
    for (interrupts, piece) in [(0, Some(65_536)), (1_000, Some(65_536)), (1_001, None)] {
        assert!(rt;
            received_after(rt.alloc(), &calls, interrupts) == piece,
            "{interrupts} times"
        );
    }
}

// Whether a stop kills the child of this life and waits for it, and then nothing is left of it.
fn is_stopped(alloc: Global, calls: &Calls) -> bool {
    let mut children = Processes::new(calls.runtime(), alloc);
    let is_started = starts(alloc, &mut children, &WORDS);
    let another = (stops(&mut children, 2), calls.kills.get());
    let it = (stops(&mut children, 1), calls.kills.get(), calls.ends.get());
    let again = stops(&mut children, 1);
    let is_forgotten = received(&mut children).is_none();
    is_started && another == (false, 0) && it == (true, 1, 1) && !again && is_forgotten
}

#[test]
fn a_stop_kills_and_waits_and_forgets(rt: HostRuntime) {
    let calls = Calls::none(rt.alloc());
    assert!(rt; is_stopped(rt.alloc(), &calls));
}

// Whether this life of session `a` is interrupted.
fn interrupts<R: process::Processes + Drop>(children: &mut Processes<R>, life: u32) -> bool
where
    <R::Started as OpenProcess>::Stdin: AsRawFd,
{
    match name() {
        Some(name) => children.interrupt(name, life).is_ok(),
        None => false,
    }
}

// Whether an interrupt of this life alone starts another program, with three words and no pipe for its input, and is a
// fault where that doesn't say that it sent it. The child isn't killed and goes on.
fn is_interrupted(alloc: Global, calls: &Calls) -> bool {
    let mut children = Processes::new(calls.runtime(), alloc);
    let is_started = starts(alloc, &mut children, &WORDS);
    let another = (interrupts(&mut children, 2), calls.starts.get());
    let unsent = (interrupts(&mut children, 1), calls.starts.get());
    calls.says_sent.set(true);
    let it = (
        interrupts(&mut children, 1),
        calls.starts.get(),
        calls.kills.get(),
    );
    let goes_on = sends(&mut children, 1);
    is_started
        && another == (false, 1)
        && unsent == (false, 2)
        && it == (true, 3, 0)
        && calls.words.get() == 3
        && !calls.pipes.get()
        && goes_on
}

#[test]
fn an_interrupt_is_sent_by_a_program(rt: HostRuntime) {
    let calls = Calls::none(rt.alloc());
    assert!(rt; is_interrupted(rt.alloc(), &calls));
}

// Whether a child whose start takes all memory is started, and can be stopped.
fn is_kept(alloc: Global, calls: &Calls) -> bool {
    let mut children = Processes::new(calls.runtime(), alloc);
    calls.memory.set(Some(alloc));
    let is_started = starts(alloc, &mut children, &WORDS);
    calls.held.set(Vec::new(alloc));
    let is_stopped = stops(&mut children, 1);
    is_started && calls.starts.get() == 1 && is_stopped
}

#[test]
fn the_place_of_a_child_is_made_before_it_runs(rt: HostRuntime) {
    let calls = Calls::none(rt.alloc());
    assert!(rt; is_kept(rt.alloc(), &calls));
}

// How many of so many lives are started, and get a line each once all are.
fn lives(alloc: Global, calls: &Calls, count: u32) -> u32 {
    let mut children = Processes::new(calls.runtime(), alloc);
    if are_started(alloc, &mut children, count) {
        are_sent(&mut children, count)
    } else {
        0
    }
}

fn are_started(alloc: Global, children: &mut Processes<Runtime<'_>>, count: u32) -> bool {
    for life in 0..count {
        if !starts_as(alloc, children, &WORDS, life) {
            return false;
        }
    }
    true
}

fn are_sent(children: &mut Processes<Runtime<'_>>, count: u32) -> u32 {
    let mut lives = 0u32;
    for life in 0..count {
        if sends(children, life) {
            lives = lives.saturating_add(1);
        }
    }
    lives
}

#[test]
fn sixty_four_children_run_at_a_time(rt: HostRuntime) {
    let calls = Calls::none(rt.alloc());
    assert!(rt; lives(rt.alloc(), &calls, 64) == 64);
    assert!(rt; calls.starts.get() == 64 && calls.sent.get() == 320);
}
