//! Children of which one call fails, each in turn.
ghost use Rattle.std.specs.Prelude.{IfOk};
ghost use Rattle.child_calls.specs.Answers.{HasSize};

use super::desk::{add_lines, empty_text, keeps, opened, sheet};
use block_tree::Octets;
use bytes::Bytes;
use child_calls::{ChildFault, Children, ReceiveFault, Received};
use disk_model::MemoryDisk;
use session_engine::Host;
use std::alloc::Global;
use std::str;
use worksheet::Name;

fn piece(alloc: Global) -> Result<Received, ReceiveFault>
    ensures { IfOk result HasSize }
{
    match Bytes::copy_from_slice(alloc, b"\x02verbatim:A\x05") {
        Ok(piece) => Ok(Received::Piece(piece)),
        Err(_) => Err(ReceiveFault::OutOfMemory),
    }
}

// The calls on a child.
#[derive(Clone, Copy, Debug, PartialEq, Eq)]
enum Kind {
    Start,
    Send,
    Receive,
    Stop,
}

/// Gives a block at each receive: the banner, and then an answer for each line. The k-th call fails.
#[derive(Drop)]
struct Broken {
    alloc: Global,
    k: u32,
    calls: u32,
    failed: Option<Kind>,
}

impl Broken {
    fn new(alloc: Global, k: u32) -> Broken {
        Broken {
            alloc,
            k,
            calls: 0,
            failed: None,
        }
    }

    // Counts a call that takes no memory.
    fn count(&mut self, kind: Kind) -> Result<(), ChildFault> {
        let fails = self.calls == self.k;
        self.calls = self.calls.saturating_add(1);
        if fails {
            self.failed = Some(kind);
            return Err(ChildFault);
        }
        Ok(())
    }
}

impl Children for Broken {
    ghost after = { λ _ _ _ _. Unit {0} };

    fn start(&mut self, _name: Name, _life: u32, _words: &[Octets]) -> Result<(), ChildFault> {
        self.count(Kind::Start)
    }

    fn send(&mut self, _name: Name, _life: u32, _bytes: &[u8]) -> Result<(), ChildFault> {
        self.count(Kind::Send)
    }

    fn receive(&mut self, _name: Name, _life: u32) -> Result<Received, ReceiveFault> {
        let got = piece(self.alloc)?;
        match self.count(Kind::Receive) {
            Ok(()) => Ok(got),
            Err(_) => Err(ReceiveFault::Child),
        }
    }

    // No effect of a host is an interrupt.
    fn interrupt(&mut self, _name: Name, _life: u32) -> Result<(), ChildFault> {
        Err(ChildFault)
    }

    fn stop(&mut self, _name: Name, _life: u32) -> Result<(), ChildFault> {
        self.count(Kind::Stop)
    }
}

const SCRIPT: &str =
    "session a plain p\nsession b plain p\nnew 0 a x\nnew 1 b y\neval 1\neval 2\nwait\neval 1\nwait\nstop a\neval 1\neval 2\nwait\nstop b";

// Whether the end that is reported is that of the call that failed.
fn tells_of(text: &str, failed: Option<Kind>) -> bool {
    let refused = text.contains("StartRefused lost 1\n") == (failed == Some(Kind::Start));
    let sent = text.contains("SendFault lost 1\n") == (failed == Some(Kind::Send));
    let read = text.contains("ReadFault lost 1\n") == (failed == Some(Kind::Receive));
    refused && sent && read
}

// The whole answer, or none, or why.
fn is_answer(line: &str) -> bool {
    line == "A"
        || line == "?"
        || line == "? StartRefused"
        || line == "? SendFault"
        || line == "? ReadFault"
}

fn is_line(number: u32, line: &str) -> bool {
    match number {
        0 => line == "#1 a",
        1 => line == "> x",
        3 => line == "#2 b",
        4 => line == "> y",
        2 | 5 => is_answer(line),
        _ => false,
    }
}

// Whether each field of a worksheet in print shows the whole answer, or none, or why.
fn is_whole(sheet: &str) -> bool {
    let mut number = 0u32;
    for line in sheet.lines() {
        if !is_line(number, line) {
            return false;
        }
        number = number.saturating_add(1);
    }
    number == 6
}

fn shown(text: &Vec<u8>) -> &str {
    match str::from_utf8(text.as_slice()) {
        Ok(text) => text,
        Err(_) => "?",
    }
}

// Whether the script tells of the call that failed.
fn plays(alloc: Global, host: &mut Host<MemoryDisk>, children: &mut Broken) -> bool {
    match empty_text(alloc) {
        Some(mut text) => {
            add_lines(alloc, host, children, SCRIPT, &mut text);
            tells_of(shown(&text), children.failed)
        }
        None => false,
    }
}

// Whether the worksheet of the host is whole, and the same once it is opened again.
fn is_kept(alloc: Global, host: Host<MemoryDisk>) -> bool {
    match sheet(alloc, &host) {
        Some(text) => is_whole(shown(&text)) && keeps(alloc, host.close(), shown(&text)),
        None => false,
    }
}

// What came of the script.
#[derive(Clone, Copy, Debug, PartialEq, Eq)]
enum Came {
    NoneFailed,
    Failed(Kind),
    /// What was reported, or what is kept, is not as it has to be.
    Wrong,
}

fn call_failed(failed: Option<Kind>) -> Came {
    match failed {
        Some(kind) => Came::Failed(kind),
        None => Came::NoneFailed,
    }
}

fn fails_on(alloc: Global, host: Host<MemoryDisk>, k: u32) -> Came {
    let mut host = host;
    let mut children = Broken::new(alloc, k);
    let is_reported = plays(alloc, &mut host, &mut children);
    let is_kept = is_kept(alloc, host);
    if is_reported && is_kept {
        call_failed(children.failed)
    } else {
        Came::Wrong
    }
}

// The script where the k-th call fails.
fn fails_at(alloc: Global, k: u32) -> Came {
    match opened(alloc) {
        Some(host) => fails_on(alloc, host, k),
        None => Came::Wrong,
    }
}

// How many calls of each kind failed, each in its turn; None where something was wrong.
fn failures(alloc: Global) -> Option<[u32; 4]> {
    let mut kinds = [0u32; 4];
    for k in 0..100u32 {
        match fails_at(alloc, k) {
            Came::Failed(Kind::Start) => kinds[0] = kinds[0].saturating_add(1),
            Came::Failed(Kind::Send) => kinds[1] = kinds[1].saturating_add(1),
            Came::Failed(Kind::Receive) => kinds[2] = kinds[2].saturating_add(1),
            Came::Failed(Kind::Stop) => kinds[3] = kinds[3].saturating_add(1),
            Came::NoneFailed => return Some(kinds),
            Came::Wrong => return None,
        }
    }
    None
}

// Two starts and one after a stop; a line for each of five evaluations; three banners and five answers; two
// stops.
#[test]
fn each_call_fails_in_turn(rt: HostRuntime) {
    assert!(rt; failures(rt.alloc()) == Some([3, 5, 8, 2]));
}
