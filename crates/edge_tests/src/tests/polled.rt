//! Real children and a real pipe, polled.
use arrivals::{Input, InputLines, NextLine, Polled, Sources, Woken};
use block_tree::{Octets, OutOfMemory};
use child_calls::{Children, Processes, Received, Seat};
use std::alloc::Global;
use std::io::{PipeReader, PipeWriter, Write, pipe};
use std::os::fd::{AsRawFd, RawFd};
use std::thread::sleep;
use std::time::Duration;
use worksheet::Name;

type Real<'a> = Polled<Processes<&'a HostRuntime>, &'a HostRuntime>;

fn real(rt: &HostRuntime, input: RawFd) -> Option<Real<'_>> {
    let children = Processes::new(rt, rt.alloc());
    Polled::new(rt.alloc(), children, input, rt).ok()
}

fn words(alloc: Global, script: &str) -> Result<Vec<Octets>, OutOfMemory> {
    let mut words = Vec::new(alloc);
    for word in ["sh", "-c", script] {
        words.push(Octets::from_slice(alloc, word.as_bytes())?)?;
    }
    Ok(words)
}

// Starts the first life of the session with this name, of one letter, with this script.
fn start(alloc: Global, real: &mut Real<'_>, name: &[u8], script: &str) -> Option<()> {
    let words = words(alloc, script).ok()?;
    real.start(Name::new(name)?, 1, words.as_slice()).ok()
}

// Receives from a life, and stops it at its end. Its letter, small for a piece.
fn hear(real: &mut Real<'_>, seat: Seat) -> u8 {
    let letter = match seat.name.as_slice() {
        [letter, ..] => *letter,
        [] => b'?',
    };
    match real.receive(seat.name, seat.life) {
        Ok(Received::Piece(_)) => letter,
        Ok(Received::End) => match real.stop(seat.name, seat.life) {
            Ok(()) => letter.to_ascii_uppercase(),
            Err(_) => b'!',
        },
        Err(_) => b'!',
    }
}

// Whose turn it is: the letter of a life, which is received from, `.` for the input, `-` where time is over.
fn turn(real: &mut Real<'_>, input: Input, patience: Option<u64>) -> u8 {
    match real.watch(input, patience) {
        Ok(Woken::Life(seat)) => hear(real, seat),
        Ok(Woken::Input) => b'.',
        Ok(Woken::TimeOver) => b'-',
        Err(_) => b'!',
    }
}

fn turns_of_two(alloc: Global, real: &mut Real<'_>) -> Option<[u8; 5]> {
    start(alloc, real, b"s", "sleep 2; echo")?;
    start(alloc, real, b"q", "echo")?;
    let mut turns = [0; 5];
    turns[0] = turn(real, Input::HeldBack, None);
    turns[1] = turn(real, Input::HeldBack, None);
    turns[2] = turn(real, Input::HeldBack, Some(20));
    turns[3] = turn(real, Input::HeldBack, None);
    turns[4] = turn(real, Input::HeldBack, Some(1_000_000_000));
    Some(turns)
}

fn two_children(rt: &HostRuntime) -> Option<[u8; 5]> {
    let mut real = real(rt, -1)?;
    turns_of_two(rt.alloc(), &mut real)
}

// The quick one is returned first, its end at once though nothing was asked of it, and then the slow one.
#[test]
fn each_child_is_reported_when_it_has_something(rt: HostRuntime) {
    assert!(rt; two_children(&rt) == Some(*b"qQ-sS"));
}

// How many pieces of a child that floods come one by one between the turns of an input that always has a
// line: 10, or fewer where two come in a row.
fn alternating(real: &mut Real<'_>) -> u32 {
    let mut pieces: u32 = 0;
    let mut is_after_piece = false;
    for _ in 0..10_000_000u32 {
        let is_piece = turn(real, Input::Ready, None) == b'f';
        if is_piece && is_after_piece || pieces >= 10 {
            return pieces;
        }
        if is_piece {
            pieces = pieces.wrapping_add(1);
        }
        is_after_piece = is_piece;
    }
    pieces
}

fn pieces_of_flood(alloc: Global, real: &mut Real<'_>) -> Option<u32> {
    start(alloc, real, b"f", "yes")?;
    let pieces = alternating(real);
    real.stop(Name::new(b"f")?, 1).ok()?;
    Some(pieces)
}

fn flooded(rt: &HostRuntime) -> Option<u32> {
    let mut real = real(rt, -1)?;
    pieces_of_flood(rt.alloc(), &mut real)
}

#[test]
fn a_flood_and_lines_take_turns(rt: HostRuntime) {
    assert!(rt; flooded(&rt) == Some(10));
}

// The turns of children that are all at their end before the first watch, the last of which is stopped when
// the two others had a turn each.
fn turns_of_three(rt: &HostRuntime, real: &mut Real<'_>) -> Option<[u8; 6]> {
    for name in [b"a", b"b", b"c"] {
        start(rt.alloc(), real, name, "echo")?;
    }
    sleep(rt, Duration::from_secs(2));
    let mut turns = [0; 6];
    turns[0] = turn(real, Input::HeldBack, None);
    turns[1] = turn(real, Input::HeldBack, None);
    real.stop(Name::new(b"c")?, 1).ok()?;
    turns[2] = turn(real, Input::HeldBack, None);
    turns[3] = turn(real, Input::HeldBack, None);
    turns[4] = turn(real, Input::HeldBack, Some(0));
    turns[5] = turn(real, Input::Ready, None);
    Some(turns)
}

fn three_children(rt: &HostRuntime) -> Option<[u8; 6]> {
    let mut real = real(rt, -1)?;
    turns_of_three(rt, &mut real)
}

// Each has its turn before any has a second, and one that was stopped has none; a line that is there already
// waits for no one.
#[test]
fn children_that_are_ready_take_turns(rt: HostRuntime) {
    assert!(rt; three_children(&rt) == Some(*b"abAB-."));
}

// The turns of two children that are ready, of which the second is stopped when the first had its turn, and another
// is started under its name and number.
fn turns_of_another(rt: &HostRuntime, real: &mut Real<'_>) -> Option<[u8; 2]> {
    let first = Name::new(b"a")?;
    let second = Name::new(b"b")?;
    start(rt.alloc(), real, b"a", "echo; exec sleep 60")?;
    start(rt.alloc(), real, b"b", "echo; exec sleep 60")?;
    sleep(rt, Duration::from_secs(2));
    let mut turns = [0; 2];
    turns[0] = turn(real, Input::HeldBack, None);
    real.stop(second, 1).ok()?;
    start(rt.alloc(), real, b"b", "exec sleep 60")?;
    turns[1] = turn(real, Input::HeldBack, Some(20));
    real.stop(first, 1).ok()?;
    real.stop(second, 1).ok()?;
    Some(turns)
}

fn another_child(rt: &HostRuntime) -> Option<[u8; 2]> {
    let mut real = real(rt, -1)?;
    turns_of_another(rt, &mut real)
}

// The other one has nothing as yet, so it has no turn: a receive from it would wait beyond the time.
#[test]
fn the_turn_of_a_life_is_not_that_of_another(rt: HostRuntime) {
    assert!(rt; another_child(&rt) == Some(*b"a-"));
}

// One line of an input that is polled and read: its first byte; `-` at the end.
fn line(real: &mut Real<'_>, lines: &mut InputLines<PipeReader>) -> Option<u8> {
    for _ in 0..10u32 {
        match lines.next() {
            NextLine::Line => return lines.line().first().copied(),
            NextLine::End => return Some(b'-'),
            NextLine::TooLong => return None,
            NextLine::More => {}
        }
        if turn(real, Input::Empty, None) != b'.' {
            return None;
        }
        lines.fill().ok()?;
    }
    None
}

fn lines_of(
    real: &mut Real<'_>,
    lines: &mut InputLines<PipeReader>,
    writer: PipeWriter,
) -> Option<[u8; 3]> {
    let mut writer = writer;
    writer.write_all(b"one\ntw").ok()?;
    let first = line(real, lines)?;
    writer.write_all(b"o").ok()?;
    drop(writer);
    let second = line(real, lines)?;
    let end = line(real, lines)?;
    Some([first, second, end])
}

fn piped(rt: &HostRuntime) -> Option<[u8; 3]> {
    let (reader, writer) = pipe(rt).ok()?;
    let mut real = real(rt, reader.as_raw_fd())?;
    let mut lines = InputLines::new(rt.alloc(), reader).ok()?;
    lines_of(&mut real, &mut lines, writer)
}

// The line is there before the next is written, and the end of the input is reported.
#[test]
fn an_input_is_reported_and_read_to_its_end(rt: HostRuntime) {
    assert!(rt; piped(&rt) == Some(*b"ot-"));
}

// Where a host was started with SIGINT ignored its children would be, too.
const HANDLER: &str =
    "exec env --default-signal=INT sh -c 'trap \"echo I\" INT; echo; while :; do :; done'";

const NO_HANDLER: &str = "exec env --default-signal=INT sh -c 'echo; while :; do :; done'";

// The turns of a child that goes on after an interrupt, of one that ends of it, and of one beside them.
fn turns_of_interrupted(alloc: Global, real: &mut Real<'_>) -> Option<[u8; 6]> {
    let handler = Name::new(b"h")?;
    let none = Name::new(b"n")?;
    let mut turns = [0; 6];
    start(alloc, real, b"o", "echo; exec sleep 60")?;
    turns[0] = turn(real, Input::HeldBack, None);
    start(alloc, real, b"h", HANDLER)?;
    turns[1] = turn(real, Input::HeldBack, None);
    real.interrupt(handler, 1).ok()?;
    turns[2] = turn(real, Input::HeldBack, None);
    start(alloc, real, b"n", NO_HANDLER)?;
    turns[3] = turn(real, Input::HeldBack, None);
    real.interrupt(none, 1).ok()?;
    turns[4] = turn(real, Input::HeldBack, None);
    turns[5] = turn(real, Input::HeldBack, Some(20));
    real.stop(handler, 1).ok()?;
    real.stop(Name::new(b"o")?, 1).ok()?;
    Some(turns)
}

fn interrupted(rt: &HostRuntime) -> Option<[u8; 6]> {
    let mut real = real(rt, -1)?;
    turns_of_interrupted(rt.alloc(), &mut real)
}

// The one with a handler writes and goes on, the one without is at its end, and nothing else is touched.
#[test]
fn an_interrupt_is_reported_to_its_life_alone(rt: HostRuntime) {
    assert!(rt; interrupted(&rt) == Some(*b"ohhnN-"));
}
