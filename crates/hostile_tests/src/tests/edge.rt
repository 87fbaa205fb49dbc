//! Commands and waits while no memory is left, and children of which nothing can be read.
use super::children::{answering, unreadable};
use super::desk::{is_reported, opened, tells};
use child_calls::Scripted;
use child_edge::stop_all;
use disk_model::MemoryDisk;
use session_engine::Host;
use std::alloc::Global;
use tests_desk::exhausted;
use worksheet::Name;

// Whether a script tells this over a child that answers one line.
fn is_answered(alloc: Global, script: &str, want: &str) -> bool {
    match answering(alloc) {
        Some(mut children) => is_reported(alloc, &mut children, script, want),
        None => false,
    }
}

// The same over one of which nothing can be read.
fn is_lost(alloc: Global, script: &str, want: &str) -> bool {
    match unreadable(alloc) {
        Some(mut children) => is_reported(alloc, &mut children, script, want),
        None => false,
    }
}

#[test]
fn a_read_that_fails(rt: HostRuntime) {
    let script = "session a plain p\nnew 0 a x\neval 1\nwait\nprint";
    let want = "ok\nfield 1\nasked\nwait\nended a ReadFault lost 1\n#1 a\n> x\n? ReadFault\n";
    assert!(rt; is_lost(rt.alloc(), script, want));
}

// The command is not done, and nothing is reported of it. It is done once there is memory.
#[test]
fn a_command_that_is_served_without_memory(rt: HostRuntime) {
    let script = ".session a plain p\n.new 0 a x\n!eval 1\neval 1\nwait";
    let want = "ok\nfield 1\nno memory for the edge\nasked\nwait\nbanner a\nanswered 1\n";
    assert!(rt; is_answered(rt.alloc(), script, want));
}

// No byte is lost: the wait that follows has the banner and the answer.
#[test]
fn a_wait_without_memory_loses_nothing(rt: HostRuntime) {
    let script = "session a plain p\nnew 0 a x\neval 1\n!wait\nwait\nprint";
    let want =
        "ok\nfield 1\nasked\nwait\nno memory for the edge\nwait\nbanner a\nanswered 1\n#1 a\n> x\nA\n";
    assert!(rt; is_answered(rt.alloc(), script, want));
}

// Whether the first life of session `a` waits with one line.
fn waits(host: &Host<MemoryDisk>, name: Name) -> bool {
    match host.life(name) {
        Some(life) => life.number == 1 && life.waiting == 1,
        None => false,
    }
}

fn shows(host: &Host<MemoryDisk>, name: Name) -> bool {
    let has_prompt = host.prompt(name) == Some(b"> ".as_slice());
    let has_field = host.sheet().field(1).is_some();
    has_prompt && has_field
}

// What a host shows, and the stop of all lives.
fn looks(host: &Host<MemoryDisk>, children: &mut Scripted, name: Name) -> bool {
    let waits = waits(host, name);
    let shows = shows(host, name);
    stop_all(host, children);
    waits && shows
}

fn looks_without(
    alloc: Global,
    host: &Host<MemoryDisk>,
    children: &mut Scripted,
    name: Name,
) -> bool {
    match exhausted(alloc) {
        Ok(_held) => looks(host, children, name),
        Err(_) => false,
    }
}

fn asks_and_looks(alloc: Global, host: &mut Host<MemoryDisk>, children: &mut Scripted) -> bool {
    let script = "session a plain p\nnew 0 a x\neval 1";
    let is_asked = tells(alloc, host, children, script, "ok\nfield 1\nasked\n");
    match Name::new(b"a") {
        Some(name) => is_asked && looks_without(alloc, host, children, name),
        None => false,
    }
}

fn looks_over(alloc: Global, children: &mut Scripted) -> bool {
    match opened(alloc) {
        Some(mut host) => asks_and_looks(alloc, &mut host, children),
        None => false,
    }
}

fn looks_take_no_memory(alloc: Global) -> bool {
    match answering(alloc) {
        Some(mut children) => looks_over(alloc, &mut children),
        None => false,
    }
}

#[test]
fn looks_and_the_stop_of_all_take_no_memory(rt: HostRuntime) {
    assert!(rt; looks_take_no_memory(rt.alloc()));
}
