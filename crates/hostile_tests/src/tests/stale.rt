//! What comes of children that no life goes on for.
use super::children::none;
use super::desk::{opened, tells};
use bytes::Bytes;
use disk_model::MemoryDisk;
use host_events::{ChildEvent, Event, Outcome, Reply};
use session_engine::Host;
use std::alloc::Global;
use worksheet::Name;

fn child(name: &[u8], life: u32, event: ChildEvent) -> Option<Event> {
    let name = Name::new(name)?;
    Some(Event::Child { name, life, event })
}

fn piece(alloc: Global, name: &[u8], life: u32) -> Option<Event> {
    let bytes = Bytes::copy_from_slice(alloc, b"\x02verbatim:A\x05").ok()?;
    child(name, life, ChildEvent::Piece(bytes))
}

// Events of a life that there isn't, and a fault of a stop.
fn stale(alloc: Global, number: u32) -> Option<Event> {
    match number {
        0 => piece(alloc, b"a", 4_294_967_295),
        1 => piece(alloc, b"b", 1),
        2 => piece(alloc, b"a", 0),
        3 => piece(alloc, b"a", 2),
        4 => child(b"b", 1, ChildEvent::End),
        5 => child(b"a", 2, ChildEvent::StartRefused),
        6 => child(b"a", 0, ChildEvent::ReadFault),
        7 => child(b"a", 4_294_967_295, ChildEvent::SendFault),
        8 => child(b"b", 0, ChildEvent::Stalled),
        _ => child(b"a", 1, ChildEvent::StopFault),
    }
}

fn has_nothing(outcome: &Outcome) -> bool {
    matches!(&outcome.reply, Reply::Nothing) && outcome.effect.is_none()
}

fn gives_nothing(host: &mut Host<MemoryDisk>, event: Event) -> bool {
    match host.step(event) {
        Ok(outcome) => has_nothing(&outcome),
        Err(_) => false,
    }
}

fn is_stale(alloc: Global, host: &mut Host<MemoryDisk>, number: u32) -> bool {
    match stale(alloc, number) {
        Some(event) => gives_nothing(host, event),
        None => false,
    }
}

// The first of these events of which something comes, or 10.
fn first_taken(alloc: Global, host: &mut Host<MemoryDisk>) -> u32 {
    for number in 0..10u32 {
        if !is_stale(alloc, host, number) {
            return number;
        }
    }
    10
}

fn tells_so(alloc: Global, host: &mut Host<MemoryDisk>, script: &str, want: &str) -> bool {
    let mut children = none(alloc);
    tells(alloc, host, &mut children, script, want)
}

// The first life of the host waits with one line. The first event of which something comes, where the
// worksheet stays as it was.
fn first_taken_in_flight(alloc: Global, host: &mut Host<MemoryDisk>) -> Option<u32> {
    let script = "session a plain p\nnew 0 a x\n.eval 1";
    let is_asked = tells_so(alloc, host, script, "ok\nfield 1\nasked\n");
    let first = first_taken(alloc, host);
    let is_open = tells_so(alloc, host, "print", "#1 a\n> x\n?\n");
    if is_asked && is_open {
        Some(first)
    } else {
        None
    }
}

#[test]
fn nothing_of_lives_that_are_none(rt: HostRuntime) {
    let first = match opened(rt.alloc()) {
        Some(mut host) => first_taken_in_flight(rt.alloc(), &mut host),
        None => None,
    };
    assert!(rt; first == Some(10));
}

// The same events on a host that has no session at all.
#[test]
fn nothing_on_an_empty_worksheet(rt: HostRuntime) {
    let first = match opened(rt.alloc()) {
        Some(mut host) => first_taken(rt.alloc(), &mut host),
        None => 0,
    };
    assert!(rt; first == 10);
}
