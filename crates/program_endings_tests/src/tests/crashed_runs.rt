//! The call of the theorem, made: a script is run over a disk in memory, which is crashed after each number of the run's calls, and opened.
//! Its contract says what opens, and not that something does: that is seen here.
use super::grouped;
use arrivals::ScriptedSources;
use block_tree::Queue;
use bstr::ByteSlice;
use child_calls::{Got, Part, PieceBytes, Scripted};
use disk_model::{Choice, Fill, MemoryDisk};
use driver::Voiced;
use driver_visits::{AfterCrash, RanThenCrashed, run_then_crash};
use script_agenda::ByScript;
use sheet_text::sheet_text;
use std::alloc::Global;
use tellings::InWords;
use worksheet::Name;

/// A `print` ends a group, so that each change is acknowledged by itself. The line of field 1 is answered before the second one.
const SCRIPT: &[u8] =
    b"session a plain p\nnew 0 a x\nprint\neval 1\nwait\nprint\nnew 1 a y\nprint\nset 1 z\nprint\nremove 2\n";

/// What the interpreter writes: its banner, and the answer.
const PIECES: [&[u8]; 2] = [b"\x02verbatim:p\x05", b"\x02verbatim:2\x05"];

/// The worksheet as it is printed before the script and after each of its changes that shows.
const TEXTS: [&[u8]; 6] = [
    b"",
    b"#1 a\n> x\n?\n",
    b"#1 a\n> x\n2\n",
    b"#1 a\n> x\n2\n#2 a\n> y\n?\n",
    b"#1 a\n> z\n?\n#2 a\n> y\n?\n",
    b"#1 a\n> z\n?\n",
];

/// The place of the last of them.
const LAST: usize = 5;

/// What a crash leaves of the ranges that were written since the last sync.
const FILLS: [(Fill, bool); 5] = [
    (Fill::Old, false),
    (Fill::New, true),
    (Fill::Torn(3), true),
    (Fill::Torn(20), false),
    (Fill::Byte(0x52), true),
];

/// A disk with an empty worksheet, and no call on record.
fn begun(alloc: Global) -> Option<MemoryDisk> {
    let made = grouped::created(alloc)?;
    let now = Choice {
        moment: made.calls(),
        fill: Fill::New,
        grown: true,
    };
    made.crash(&now).ok()
}

/// Whether the piece gets its place.
fn is_added(alloc: Global, receives: &mut Queue<Got>, bytes: &[u8]) -> bool {
    if bytes.is_empty() || bytes.len() > 65_536 {
        return false;
    }
    match Vec::from_slice(alloc, bytes) {
        Ok(bytes) if !bytes.is_empty() && bytes.len() <= 65_536 => receives
            .push(Got::Piece(PieceBytes::from_vec(bytes)))
            .is_ok(),
        _ => false,
    }
}

/// The life of session `a` that gives these pieces.
fn interpreter(alloc: Global) -> Option<Scripted> {
    let mut receives = Queue::new(alloc);
    for bytes in PIECES {
        if !is_added(alloc, &mut receives, bytes) {
            return None;
        }
    }
    let part = Part {
        name: Name::new(b"a")?,
        life: 1,
        start: true,
        sends: Queue::new(alloc),
        receives,
        interrupt: true,
        stop: true,
    };
    let mut parts = Vec::new(alloc);
    parts.push(part).ok()?;
    Some(Scripted::new(alloc, parts))
}

/// What a run that is crashed at a moment comes to.
enum Crashed {
    /// The run has no such moment.
    NotReached,
    /// The worksheet that opens, as it is printed.
    Worksheet(Vec<u8>),
}

/// What opens after the run and a crash; None where nothing does, or the run has a fault.
fn left(alloc: Global, choice: &Choice) -> Option<Crashed> {
    let sources = ScriptedSources::new(interpreter(alloc)?, Vec::new(alloc));
    let sink = Voiced {
        tells: InWords,
        writer: Vec::new(alloc),
    };
    let agenda = ByScript::new(alloc, SCRIPT.lines(), false);
    let RanThenCrashed {
        disk: _,
        sources: _,
        sink: _,
        agenda: _,
        answer,
        opened,
    } = run_then_crash(alloc, begun(alloc)?, sources, sink, agenda, choice);
    if answer.is_err() {
        return None;
    }
    match opened {
        AfterCrash::NotReached => Some(Crashed::NotReached),
        AfterCrash::Opened(Ok(host)) => {
            let mut text = Vec::new(alloc);
            match sheet_text(host.sheet(), &mut text) {
                Ok(()) => Some(Crashed::Worksheet(text)),
                Err(_) => None,
            }
        }
        _ => None,
    }
}

/// How many moments the run has, where a crash at each leaves a worksheet of the script, none an earlier one than the moment before it, and the last
/// one that of all. None where that isn't so.
fn moments(alloc: Global, fill: Fill, grown: bool) -> Option<u64> {
    let mut shown = 0;
    for moment in 0..1_000u64 {
        let choice = Choice {
            moment,
            fill,
            grown,
        };
        match left(alloc, &choice)? {
            Crashed::NotReached if shown == LAST => return Some(moment),
            Crashed::NotReached => return None,
            Crashed::Worksheet(text) => {
                let found = TEXTS.iter().position(|one| *one == text.as_slice())?;
                if found < shown {
                    return None;
                }
                shown = found;
            }
        }
    }
    None
}

#[test]
fn no_crash_of_a_run_leaves_less_than_one_before(rt: HostRuntime) {
    for (fill, grown) in FILLS {
        // Six changes on the disk, each with two writes and two syncs at least.
        let found = moments(rt.alloc(), fill, grown);
        assert!(rt; found >= Some(24), "{found:?} moments");
    }
}
