//! Lines that are read and texts that are written while no memory is left.
use block_tree::{Block, Octets, OutOfMemory, Sequence};
use host_events::{Command, Reply};
use meta_format::read_block;
use sheet_text::{LineFault, ScriptLine, block_text, read_line, reply_text, sheet_text, tree_text};
use std::alloc::Global;
use tests_desk::exhausted;
use worksheet::{Op, Refusal, Sheet};

fn octets(alloc: Global, bytes: &[u8]) -> Result<Octets, OutOfMemory> {
    Octets::from_slice(alloc, bytes)
}

fn session(alloc: Global) -> Result<Op, OutOfMemory> {
    let mut words = Vec::new(alloc);
    words.push(octets(alloc, b"p")?)?;
    Ok(Op::Session {
        name: octets(alloc, b"a")?,
        tab: false,
        words: Sequence::from_vec(words),
    })
}

// A field at the front.
fn new(alloc: Global, input: &[u8]) -> Result<Op, OutOfMemory> {
    Ok(Op::New {
        after: 0,
        session: octets(alloc, b"a")?,
        input: octets(alloc, input)?,
    })
}

fn block(alloc: Global, bytes: &[u8]) -> Result<Block, OutOfMemory> {
    match read_block(alloc, bytes) {
        Ok(block) => Ok(block),
        Err(_) => Err(OutOfMemory),
    }
}

// A session, three fields of it, and the answer to the last one, which stands first.
fn op(alloc: Global, number: u32) -> Result<Op, OutOfMemory> {
    match number {
        0 => session(alloc),
        1 => new(alloc, b"z"),
        2 => new(alloc, b"y"),
        3 => new(alloc, b"x"),
        _ => Ok(Op::Answer {
            id: 3,
            prompt: octets(alloc, b"> ")?,
            output: block(alloc, b"\x02verbatim:A\x05")?,
        }),
    }
}

fn takes(sheet: &mut Sheet, op: Op) -> bool {
    sheet.check(&op).is_ok() && sheet.apply(op).is_ok()
}

fn filled(alloc: Global) -> Result<Sheet, OutOfMemory> {
    let mut sheet = Sheet::new(alloc);
    for number in 0..5 {
        if !takes(&mut sheet, op(alloc, number)?) {
            return Err(OutOfMemory);
        }
    }
    Ok(sheet)
}

// Whether a line that wants memory says so, and one that wants none is read.
fn are_read(alloc: Global) -> bool {
    matches!(read_line(alloc, b"new 0 a x"), Err(LineFault::OutOfMemory))
        && matches!(
            read_line(alloc, b"move 1 2"),
            Ok(ScriptLine::Command(Command::Move { id: 1, after: 2 }))
        )
}

// Whether all texts are written.
fn are_written(output: &Block, sheet: &Sheet, out: &mut Vec<u8>) -> bool {
    tree_text(output, out).is_ok()
        && block_text(output, out).is_ok()
        && sheet_text(sheet, out).is_ok()
        && reply_text(&Reply::Field(7), out).is_ok()
        && reply_text(&Reply::Refused(Refusal::OutOfMemory), out).is_ok()
}

const TEXT: &[u8] =
    b"{verbatim:{prompt#a\\x09b\\x7f\\x0a}\"}{prompt#a\tb\\x7f\n}\"#3 a\n> x\nA\n#2 a\n> y\n?\n#1 a\n> z\n?\nfield 7\nrefused 17 OutOfMemory\n";

// Whether lines are read and these texts are written while no memory is left.
fn take_no_memory(alloc: Global, output: &Block, sheet: &Sheet) -> Option<bool> {
    let mut out: Vec<u8> = Vec::with_capacity(alloc, 1_000).ok()?;
    let held = exhausted(alloc).ok()?;
    let done = are_read(alloc) && are_written(output, sheet, &mut out);
    drop(held);
    Some(done && out.as_slice() == TEXT)
}

// The same of the texts of a worksheet and an output.
fn are_texts_written(alloc: Global) -> Option<bool> {
    let output = block(alloc, b"\x02verbatim:\x02prompt#a\tb\x7f\n\x05\"\x05").ok()?;
    let sheet = filled(alloc).ok()?;
    take_no_memory(alloc, &output, &sheet)
}

#[test]
fn texts_take_no_memory(rt: HostRuntime) {
    assert!(rt; are_texts_written(rt.alloc()) == Some(true));
}
