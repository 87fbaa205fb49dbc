//! Events of a host while no memory is left.
use super::children::none;
use super::desk::{add_step_without, are, command, empty_text, keeps, opened, tells};
use bytes::Bytes;
use disk_model::MemoryDisk;
use host_events::{ChildEvent, Event};
use journal::OpenCause;
use session_engine::Host;
use std::alloc::Global;
use tests_desk::exhausted;
use worksheet::Name;

// Two items wait in the first life of session `a`: a request and a line, or the lines of fields 1 and 2.
#[derive(Clone, Copy)]
enum Waiting {
    Request,
    Lines,
}

fn script_of(waiting: Waiting) -> &'static str {
    match waiting {
        Waiting::Request => ".session a tab p\n.new 0 a x\n.complete 1 1\n.eval 1",
        Waiting::Lines => {
            ".session a plain p\n.new 0 a x\n.new 1 a y\n.new 2 a z\n.eval 1\n.eval 2"
        }
    }
}

fn reported_of(waiting: Waiting) -> &'static str {
    match waiting {
        Waiting::Request => "ok\nfield 1\nasked\nasked\n",
        Waiting::Lines => "ok\nfield 1\nfield 2\nfield 3\nasked\nasked\n",
    }
}

// Whether these wait now.
fn is_ready(alloc: Global, host: &mut Host<MemoryDisk>, waiting: Waiting) -> bool {
    let mut children = none(alloc);
    tells(
        alloc,
        host,
        &mut children,
        script_of(waiting),
        reported_of(waiting),
    )
}

// A host where these wait.
fn ready(alloc: Global, waiting: Waiting) -> Option<Host<MemoryDisk>> {
    let mut host = opened(alloc)?;
    if is_ready(alloc, &mut host, waiting) {
        Some(host)
    } else {
        None
    }
}

fn child(life: u32, event: ChildEvent) -> Option<Event> {
    let name = Name::new(b"a")?;
    Some(Event::Child { name, life, event })
}

fn piece(alloc: Global, life: u32) -> Option<Event> {
    let bytes = Bytes::copy_from_slice(alloc, b"\x02verbatim:A\x05").ok()?;
    child(life, ChildEvent::Piece(bytes))
}

// Ends of a life, stale events, and a piece.
fn event(alloc: Global, number: u32) -> Option<Event> {
    match number {
        0 => command(alloc, b"stop a"),
        1 => child(1, ChildEvent::StartRefused),
        2 => child(1, ChildEvent::End),
        3 => child(1, ChildEvent::ReadFault),
        4 => child(1, ChildEvent::SendFault),
        5 => child(1, ChildEvent::Stalled),
        6 => child(1, ChildEvent::StopFault),
        7 => child(2, ChildEvent::End),
        8 => piece(alloc, 2),
        9 => command(alloc, b"stop b"),
        _ => piece(alloc, 1),
    }
}

// Whether this is reported of an event while no memory is left.
fn tells_without(alloc: Global, host: &mut Host<MemoryDisk>, event: Event, want: &str) -> bool {
    match empty_text(alloc) {
        Some(mut text) => {
            add_step_without(alloc, host, event, &mut text);
            are(&text, want)
        }
        None => false,
    }
}

fn tells_event(alloc: Global, host: &mut Host<MemoryDisk>, number: u32, want: &str) -> bool {
    match event(alloc, number) {
        Some(event) => tells_without(alloc, host, event, want),
        None => false,
    }
}

fn ends_so(alloc: Global, waiting: Waiting, number: u32, want: &str) -> bool {
    match ready(alloc, waiting) {
        Some(mut host) => tells_event(alloc, &mut host, number, want),
        None => false,
    }
}

// What is reported of the first nine events where a request waits first: an end gives no op.
fn reported(number: u32) -> &'static str {
    match number {
        0 => "ended a Stopped lost 2\n",
        1 => "ended a StartRefused lost 2\n",
        2 => "ended a Ended lost 2\n",
        3 => "ended a ReadFault lost 2\n",
        4 => "ended a SendFault lost 2\n",
        5 => "ended a Stalled lost 2\n",
        9 => "refused 1 NoSession\n",
        _ => "",
    }
}

#[test]
fn ends_take_no_memory(rt: HostRuntime) {
    for number in 0..10u32 {
        assert!(rt;
            ends_so(rt.alloc(), Waiting::Request, number, reported(number)),
            "event {number}"
        );
    }
}

// Where a line waits first, its field keeps the reason, and that takes memory.
fn wants(number: u32) -> &'static str {
    match number {
        0 => "refused 17 OutOfMemory\n",
        1..=5 => "no memory\n",
        _ => reported(number),
    }
}

#[test]
fn reasons_take_memory(rt: HostRuntime) {
    for number in 0..10u32 {
        assert!(rt;
            ends_so(rt.alloc(), Waiting::Lines, number, wants(number)),
            "event {number}"
        );
    }
}

// A command while no memory is left, the worksheet then, and the command once there is some.
fn refused_and_done(number: u32) -> &'static str {
    match number {
        0 => "-session b plain p\nprint\nsession b plain p",
        1 => "-new 3 a v\nprint\nnew 3 a v",
        2 => "-set 3 w\nprint\nset 3 w",
        3 => "-move 3 0\nprint\nmove 3 0",
        4 => "-clear 3\nprint\nclear 3",
        5 => "-eval 3\nprint\neval 3",
        _ => "-remove 3\nprint\nremove 3",
    }
}

// It is refused, and changes nothing.
fn reported_of_both(number: u32) -> &'static str {
    match number {
        1 => { "refused 17 OutOfMemory\n#1 a\n> x\n?\n#2 a\n> y\n?\n#3 a\n> z\n?\nfield 4\n" }
        5 => { "refused 17 OutOfMemory\n#1 a\n> x\n?\n#2 a\n> y\n?\n#3 a\n> z\n?\nasked\n" }
        _ => "refused 17 OutOfMemory\n#1 a\n> x\n?\n#2 a\n> y\n?\n#3 a\n> z\n?\nok\n",
    }
}

fn is_done_later(alloc: Global, host: &mut Host<MemoryDisk>, number: u32) -> bool {
    let mut children = none(alloc);
    tells(
        alloc,
        host,
        &mut children,
        refused_and_done(number),
        reported_of_both(number),
    )
}

fn is_refused_and_then_done(alloc: Global, number: u32) -> bool {
    match ready(alloc, Waiting::Lines) {
        Some(mut host) => is_done_later(alloc, &mut host, number),
        None => false,
    }
}

#[test]
fn commands_are_refused_without_memory(rt: HostRuntime) {
    for number in 0..7u32 {
        assert!(rt;
            is_refused_and_then_done(rt.alloc(), number),
            "command {number}"
        );
    }
}

// What those three fields look like.
const THREE: &str = "#1 a\n> x\n?\n#2 a\n> y\n?\n#3 a\n> z\n?\n";

fn is_closed_by_a_piece(alloc: Global, host: &mut Host<MemoryDisk>) -> bool {
    let is_fault = tells_event(alloc, host, 10, "no memory\n");
    let mut children = none(alloc);
    let is_closed = tells(alloc, host, &mut children, "-clear 3", "closed\n");
    is_fault && is_closed
}

fn is_closed_and_whole(alloc: Global, host: Host<MemoryDisk>) -> bool {
    let mut host = host;
    let is_closed = is_closed_by_a_piece(alloc, &mut host);
    is_closed && keeps(alloc, host.close(), THREE)
}

// A piece of a life that goes on is a fault then: the host is closed, and its disk has what it reported.
#[test]
fn a_piece_without_memory_closes_the_host(rt: HostRuntime) {
    let is_whole = match ready(rt.alloc(), Waiting::Lines) {
        Some(host) => is_closed_and_whole(rt.alloc(), host),
        None => false,
    };
    assert!(rt; is_whole);
}

// The disk of an opening that is refused: a disk in memory fails where its record of calls can't grow.
fn refused(alloc: Global, disk: MemoryDisk) -> Option<MemoryDisk> {
    match Host::open(alloc, disk) {
        Ok(_) => None,
        Err(fault) => {
            if fault.cause == OpenCause::Disk {
                Some(fault.disk)
            } else {
                None
            }
        }
    }
}

fn refused_without(alloc: Global, disk: MemoryDisk) -> Option<MemoryDisk> {
    match exhausted(alloc) {
        Ok(_held) => refused(alloc, disk),
        Err(_) => None,
    }
}

fn opens_later(alloc: Global, disk: MemoryDisk) -> bool {
    match refused_without(alloc, disk) {
        Some(disk) => keeps(alloc, disk, THREE),
        None => false,
    }
}

// It is refused, and the disk opens once there is memory.
#[test]
fn an_opening_without_memory(rt: HostRuntime) {
    let opens = match ready(rt.alloc(), Waiting::Lines) {
        Some(host) => opens_later(rt.alloc(), host.close()),
        None => false,
    };
    assert!(rt; opens);
}
