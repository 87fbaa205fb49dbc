//! Children of which each byte counts, with what is reported typed in. Whole examples and real interpreters
//! are cases of `programs`, `data/children.sh`.
use crate::tests::desk::{Asked, reported, tells};
use crate::tests::talkers::{Silent, Turned};
use block_tree::{OutOfMemory, Queue};
use child_calls::{Got, Part, PieceBytes, Scripted};
use std::alloc::Global;
use worksheet::Name;

const BANNER: &[u8] = b"\x02verbatim:Hello\x02prompt#Input 1] \x05\x05";

const ANSWER: &[u8] = b"\x02verbatim:\x02latex:$x^2$\x05\x02prompt#Input 2] \x05\x05";

fn piece(alloc: Global, bytes: &[u8]) -> Option<Got> {
    let bytes = Vec::from_slice(alloc, bytes).ok()?;
    if bytes.is_empty() || bytes.len() > 65_536 {
        return None;
    }
    Some(Got::Piece(PieceBytes::from_vec(bytes)))
}

// Whether the piece gets its place.
fn is_added(alloc: Global, receives: &mut Queue<Got>, bytes: &[u8]) -> bool {
    match piece(alloc, bytes) {
        Some(piece) => receives.push(piece).is_ok(),
        None => false,
    }
}

fn receives_of(alloc: Global, pieces: &[&[u8]]) -> Option<Queue<Got>> {
    let mut receives = Queue::new(alloc);
    for bytes in pieces {
        if !is_added(alloc, &mut receives, bytes) {
            return None;
        }
    }
    Some(receives)
}

// The life of session `a` that gives these pieces.
fn part(alloc: Global, pieces: &[&[u8]]) -> Option<Part> {
    let name = Name::new(b"a")?;
    let receives = receives_of(alloc, pieces)?;
    Some(Part {
        name,
        life: 1,
        start: true,
        sends: Queue::new(alloc),
        receives,
        interrupt: true,
        stop: true,
    })
}

fn scripted(alloc: Global, pieces: &[&[u8]]) -> Option<Scripted> {
    let mut parts = Vec::new(alloc);
    parts.push(part(alloc, pieces)?).ok()?;
    Some(Scripted::new(alloc, parts))
}

fn asked<'a>(name: &'a str, program: &'a str, word: &'a str, input: &'a str) -> Asked<'a> {
    Asked {
        name,
        program,
        word,
        input,
    }
}

fn single_bytes<'a>(alloc: Global, all: &[&'a [u8]]) -> Result<Vec<&'a [u8]>, OutOfMemory> {
    let mut pieces = Vec::new(alloc);
    for bytes in all {
        for byte in bytes.chunks(1) {
            pieces.push(byte)?;
        }
    }
    Ok(pieces)
}

// Whether the same is reported of a banner and an answer that come byte by byte as of whole ones.
fn is_reported_by_bytes(alloc: Global) -> Option<bool> {
    let pieces = single_bytes(alloc, &[BANNER, ANSWER]).ok()?;
    let mut children = scripted(alloc, pieces.as_slice())?;
    Some(tells(
        alloc,
        &mut children,
        &[asked("a", "sh", "p", "x^2")],
        "ok, field 1, asked, wait: banner a, answered 1, stop: ended a Stopped lost 0, fields: 1: Input 1] x^2, answered, ",
    ))
}

#[test]
fn prompts_in_pieces_of_one_byte(rt: HostRuntime) {
    assert!(rt; is_reported_by_bytes(rt.alloc()) == Some(true));
}

// How often a child that never answers is received from, and how often it is stopped, if this is reported.
fn stalled(alloc: Global) -> Option<(u32, u32)> {
    let mut children = Silent::new(alloc);
    let is_reported = tells(
        alloc,
        &mut children,
        &[asked("a", "sh", "p", "x")],
        "ok, field 1, asked, wait: ended a Stalled lost 1, stop: ok, fields: 1: > x, Stalled, ",
    );
    if is_reported {
        Some((children.receives, children.stops))
    } else {
        None
    }
}

#[test]
fn a_session_that_stalls(rt: HostRuntime) {
    assert!(rt; stalled(rt.alloc()) == Some((100_000, 1)));
}

// How often is received from the first session, where both are answered, the second one first.
fn turned(alloc: Global) -> Option<u32> {
    let mut children = Turned::new(alloc);
    let all = [asked("a", "p", "p", "x"), asked("b", "p", "p", "x")];
    let is_reported = tells_in_turn(alloc, &mut children, &all);
    if is_reported {
        Some(children.receives)
    } else {
        None
    }
}

fn tells_in_turn(alloc: Global, children: &mut Turned, all: &[Asked<'_>]) -> bool {
    match reported(alloc, children, all) {
        Some(text) => {
            text.as_str()
                .contains("wait: banner b, banner a, answered 2, answered 1, stop: ")
        }
        None => false,
    }
}

#[test]
fn the_first_session_waits_for_the_second(rt: HostRuntime) {
    assert!(rt; matches!(turned(rt.alloc()), Some(0..=1_000)));
}
