//! The places of closed standard streams, over files that are made up.
use super::made_up::{Calls, MadeUp};
use sheet_files::{ClosedStreams, HoldFault, hold_closed};
use std::alloc::Global;

const OPEN: ClosedStreams = ClosedStreams {
    input: false,
    output: false,
    errors: false,
};

const INPUT: ClosedStreams = ClosedStreams {
    input: true,
    output: false,
    errors: false,
};

const OUTPUT: ClosedStreams = ClosedStreams {
    input: false,
    output: true,
    errors: false,
};

const ERRORS: ClosedStreams = ClosedStreams {
    input: false,
    output: false,
    errors: true,
};

const ALL: ClosedStreams = ClosedStreams {
    input: true,
    output: true,
    errors: true,
};

// What comes of it to hold the places of closed streams, where the first opens fail, by these calls.
fn holds(
    alloc: Global,
    closed: ClosedStreams,
    shut: u32,
    lines: &str,
) -> Option<Result<(), HoldFault>> {
    let calls = Calls::new(alloc);
    calls.shut.set(shut);
    let runtime = MadeUp {
        alloc,
        calls: &calls,
    };
    let held = match hold_closed(&runtime, closed) {
        Ok(_) => Ok(()),
        Err(fault) => Err(fault),
    };
    if calls.are(lines) { Some(held) } else { None }
}

#[test]
fn the_place_of_a_closed_stream_is_held(rt: HostRuntime) {
    let one = "open to read /\n";
    let three = "open to read /\nopen to read /\nopen to read /\n";
    assert!(rt; holds(rt.alloc(), OPEN, 9, "") == Some(Ok(())));
    assert!(rt; holds(rt.alloc(), INPUT, 0, one) == Some(Ok(())));
    assert!(rt; holds(rt.alloc(), OUTPUT, 0, one) == Some(Ok(())));
    assert!(rt; holds(rt.alloc(), ERRORS, 0, one) == Some(Ok(())));
    assert!(rt; holds(rt.alloc(), ALL, 0, three) == Some(Ok(())));
}

#[test]
fn a_place_is_held_by_what_there_is(rt: HostRuntime) {
    let here = "open to read /\nopen to read .\n";
    let read = "open to read /\nopen to read .\nopen to read /dev/null\n";
    let write = "open to read /\nopen to read .\nopen to write /dev/null\n";
    assert!(rt; holds(rt.alloc(), OUTPUT, 1, here) == Some(Ok(())));
    assert!(rt; holds(rt.alloc(), INPUT, 2, write) == Some(Ok(())));
    assert!(rt; holds(rt.alloc(), OUTPUT, 2, read) == Some(Ok(())));
    assert!(rt; holds(rt.alloc(), INPUT, 3, write) == Some(Err(HoldFault::Input)));
    assert!(rt; holds(rt.alloc(), OUTPUT, 3, read) == Some(Err(HoldFault::Output)));
    assert!(rt; holds(rt.alloc(), ERRORS, 3, read) == Some(Err(HoldFault::Output)));
}
