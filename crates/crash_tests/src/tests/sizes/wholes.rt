//! Commands that are taken as a whole on a worksheet with the most fields.
use super::desk::{is_done, new, opened, session};
use block_tree::Octets;
use disk_model::MemoryDisk;
use host_events::{Command, Event};
use session_engine::{Edits, Host, Whole};
use std::alloc::Global;

// How many fields a worksheet has at most.
const FIELDS: u32 = 10_000;

// How many commands a transaction has at most.
const MOST: u32 = 1_024;

fn short_session(alloc: Global) -> Option<Event> {
    let mut words = Vec::new(alloc);
    words.push(Octets::from_slice(alloc, b"p").ok()?).ok()?;
    session(alloc, b"a", words)
}

fn add_fields(alloc: Global, host: &mut Host<MemoryDisk>) -> bool {
    for after in 0..FIELDS {
        if !is_done(host, new(alloc, after, b"a", b"x")) {
            return false;
        }
    }
    true
}

fn set(alloc: Global, id: u32) -> Option<Command> {
    let input = Octets::from_slice(alloc, b"y").ok()?;
    Some(Command::Set { id, input })
}

// So many fields from this one on get another input.
fn sets(alloc: Global, first: u32, count: u32) -> Option<Edits> {
    let mut edits = Edits::new(alloc);
    for number in 0..count {
        edits.add(set(alloc, first.saturating_add(number))?).ok()?;
    }
    Some(edits)
}

// How many outcomes these commands have, or that many before the refusal of the next.
fn outcomes(host: &mut Host<MemoryDisk>, edits: Edits) -> Option<Result<usize, usize>> {
    match host.play_whole(edits) {
        Ok(Whole::Taken(outcomes)) => Some(Ok(outcomes.len())),
        Ok(Whole::Refused { before, last: _ }) => Some(Err(before.len())),
        Err(_) => None,
    }
}

// How many fields have this input.
fn count_inputs(host: &Host<MemoryDisk>, input: &str) -> u32 {
    let mut count = 0u32;
    for field in host.sheet().fields() {
        if field.input.as_str() == input {
            count = count.saturating_add(1);
        }
    }
    count
}

fn opened_with_fields(alloc: Global) -> Option<Host<MemoryDisk>> {
    let mut host = opened(alloc)?;
    let is_made = is_done(&mut host, short_session(alloc)) && add_fields(alloc, &mut host);
    if is_made { Some(host) } else { None }
}

// The last of the fields that are set isn't there, and then all are.
fn is_whole(alloc: Global) -> Option<bool> {
    let mut host = opened_with_fields(alloc)?;
    let first = FIELDS.saturating_sub(MOST).saturating_add(2);
    let refused = outcomes(&mut host, sets(alloc, first, MOST)?);
    let untouched = count_inputs(&host, "y");
    let taken = outcomes(&mut host, sets(alloc, first.saturating_sub(1), MOST)?);
    let changed = count_inputs(&host, "y");
    Some(
        refused == Some(Err(1_023))
            && untouched == 0
            && taken == Some(Ok(1_024))
            && changed == MOST,
    )
}

#[test]
fn a_whole_of_the_most_commands(rt: HostRuntime) {
    assert!(rt; is_whole(rt.alloc()) == Some(true));
}
