//! Plays of many events.
use super::desk::{asks, created, joined, opened, piece, times};
use crate::tests::desk::open;
use disk_model::MemoryDisk;
use host_events::{Command, Event, HostFault};
use session_engine::{Host, PlayFault};
use std::alloc::Global;

// So many events that take the answer of field 1 away. Those for which there is no memory are left out, and
// then fewer outcomes come.
fn clears(alloc: Global, count: u32) -> Vec<Event> {
    let mut events = Vec::new(alloc);
    for _ in 0..count {
        let _ = events.push(Event::Command(Command::Clear { id: 1 }));
    }
    events
}

fn outcomes_of(host: &mut Host<MemoryDisk>, events: Vec<Event>) -> Option<usize> {
    match host.play(events) {
        Ok(outcomes) => Some(outcomes.len()),
        Err(_) => None,
    }
}

// How many outcomes a play of so many events has.
fn outcomes(alloc: Global, count: u32) -> Option<usize> {
    let mut host = opened(alloc)?;
    let is_asked = asks(alloc, &mut host);
    let outcomes = outcomes_of(&mut host, clears(alloc, count));
    if is_asked { outcomes } else { None }
}

#[test]
fn a_play_of_more_than_a_hundred_thousand_events(rt: HostRuntime) {
    assert!(rt; outcomes(rt.alloc(), 120_000) == Some(120_000));
}

fn long_answer(alloc: Global) -> Option<Event> {
    let text = times(alloc, b'y', 100)?;
    let answer = joined(alloc, b"\x02verbatim:", text.as_slice(), b"\x05")?;
    piece(alloc, b"a", 1, answer.as_slice())
}

fn fault_of(host: &mut Host<MemoryDisk>, event: Event) -> Option<HostFault> {
    match host.step(event) {
        Ok(_) => None,
        Err(fault) => Some(fault),
    }
}

// Whether the host is closed by an answer for which its disk has no room.
fn is_closed(alloc: Global, host: &mut Host<MemoryDisk>) -> bool {
    let is_asked = asks(alloc, host);
    match long_answer(alloc) {
        Some(event) => is_asked && fault_of(host, event) == Some(HostFault::JournalFull),
        None => false,
    }
}

// The fault of a play, where it has no outcome.
fn fault_alone(fault: &PlayFault) -> Option<HostFault> {
    let PlayFault::Stopped { outcomes, fault } = fault else {
        return None;
    };
    if outcomes.is_empty() {
        Some(*fault)
    } else {
        None
    }
}

fn fault_of_play(host: &mut Host<MemoryDisk>, events: Vec<Event>) -> Option<HostFault> {
    match host.play(events) {
        Ok(_) => None,
        Err(fault) => fault_alone(&fault),
    }
}

// The fault of a play of so many events on a closed host.
fn fault_of_closed(alloc: Global, count: u32) -> Option<HostFault> {
    let mut host = open(alloc, created(alloc, 100)?)?;
    let is_closed = is_closed(alloc, &mut host);
    let fault = fault_of_play(&mut host, clears(alloc, count));
    if is_closed { fault } else { None }
}

#[test]
fn a_play_on_a_closed_host(rt: HostRuntime) {
    for count in [1, 1_000, 120_000] {
        let fault = fault_of_closed(rt.alloc(), count);
        assert!(rt; fault == Some(HostFault::Closed), "{count} events");
    }
}
