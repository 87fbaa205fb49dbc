//! How many lives a host begins, and events of a play.
use super::events::event;
use super::hosts::{opened, shows};
use super::reported::played;
use super::scripts::{Script, tells};
use block_tree::Octets;
use disk_model::MemoryDisk;
use host_events::{Command, Event, Reply};
use session_engine::Host;
use std::alloc::Global;
use worksheet::Refusal;

// What is reported of a request at the end of field 1.
#[derive(Clone, Copy, Debug, PartialEq, Eq)]
enum Reported {
    Accepted,
    Refused(Refusal),
    Fault,
}

fn reported_by(reply: &Reply) -> Reported {
    match reply {
        Reply::Refused(refusal) => Reported::Refused(*refusal),
        _ => Reported::Accepted,
    }
}

fn give(host: &mut Host<MemoryDisk>, command: Command) -> Reported {
    match host.step(Event::Command(command)) {
        Ok(outcome) => reported_by(&outcome.reply),
        Err(_) => Reported::Fault,
    }
}

fn request(host: &mut Host<MemoryDisk>) -> Reported {
    give(host, Command::Complete { id: 1, cursor: 1 })
}

fn stop(alloc: Global, host: &mut Host<MemoryDisk>) -> Reported {
    match Octets::from_slice(alloc, b"a") {
        Ok(name) => give(host, Command::Stop { name }),
        Err(_) => Reported::Fault,
    }
}

// How many requests are accepted, each of which begins a life that is stopped then, up to so many.
fn lives(alloc: Global, host: &mut Host<MemoryDisk>, most: u32) -> u32 {
    for number in 0..most {
        if request(host) != Reported::Accepted || stop(alloc, host) != Reported::Accepted {
            return number;
        }
    }
    most
}

fn spends_all(alloc: Global, host: &mut Host<MemoryDisk>) -> bool {
    let is_ready = tells(alloc, host, Script::Request, 2);
    let lives = lives(alloc, host, 100_000);
    is_ready && lives == 100_000 && request(host) == Reported::Refused(Refusal::LivesSpent)
}

#[test]
fn so_many_lives_begin_and_no_more(rt: HostRuntime) {
    let spends_all = match opened(rt.alloc(), 1_000) {
        Some(mut host) => spends_all(rt.alloc(), &mut host),
        None => false,
    };
    assert!(rt; spends_all);
}

// The events of the worked area. What there is no memory for is left out, and then less is reported.
fn events(alloc: Global) -> Vec<Event> {
    let mut events = Vec::new(alloc);
    for number in 0..5u32 {
        if let Some(event) = event(alloc, &Script::Example.step(number).0) {
            let _ = events.push(event);
        }
    }
    events
}

// Whether a host tells these lines of a play of these events.
fn tells_all(alloc: Global, host: &mut Host<MemoryDisk>, events: Vec<Event>, want: &str) -> bool {
    match played(alloc, host, events) {
        Ok(text) => text.as_str() == want,
        Err(_) => false,
    }
}

fn plays_all(alloc: Global, host: &mut Host<MemoryDisk>) -> bool {
    let want = "ok\nfield 1\nasked 1\nstart a 1 sh\nbanner a\nsend a 1 x\nanswered 1\n";
    let tells = tells_all(alloc, host, events(alloc), want);
    tells && shows(alloc, host, "1 > x \x02verbatim:A\x05\n")
}

#[test]
fn events_of_a_play(rt: HostRuntime) {
    let plays = match opened(rt.alloc(), 1_000) {
        Some(mut host) => plays_all(rt.alloc(), &mut host),
        None => false,
    };
    assert!(rt; plays);
}
