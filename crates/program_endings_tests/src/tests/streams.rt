//! Streams that are read in parts of three bytes, readers and writers that fail, and one that takes all memory.
use offline_programs::{Message, RunFault, Says};
use program_endings::{Ending, Total, blocks, end_total, run_blocks, tell_worksheet};
use std::alloc::Global;
use std::io;
use std::io::{Read, Write};
use tests_desk::{Exhausting, Full, InterruptedOnce, Parts, Unflushed};

/// A stream of errors that takes nothing.
#[derive(Drop)]
pub struct Deaf;

impl Write for Deaf {
    fn write(&mut self, buf: &[u8]) -> io::Result<usize> {
        Full.write(buf)
    }

    fn flush(&mut self) -> io::Result<()> {
        Full.flush()
    }
}

impl Says for Deaf {
    ghost tried = { λ _ _ _ _. Unit {0} };

    fn say<M: Message>(&mut self, message: &M) -> bool {
        message.write(self).is_ok()
    }
}

// Whether `blocks` prints this text of the stream, and gives this answer.
fn prints(alloc: Global, stream: &[u8], text: &[u8], whole: bool) -> bool {
    let mut reader = Parts {
        rest: stream,
        fails: false,
    };
    let mut out: Vec<u8> = Vec::new(alloc);
    let answer = blocks(alloc, &mut reader, &mut out);
    answer == Ok(whole) && out.as_slice() == text
}

#[test]
fn a_stream_that_is_read_in_parts(rt: HostRuntime) {
    let stream = b"noise\x02verbatim:4\x02prompt#In 2] \x05\x05\x02a:\x1b";
    let text = b"5 32 {verbatim:4{prompt#In 2] }}\nunfinished 32\n";
    assert!(rt; prints(rt.alloc(), stream, text, false));
}

// The fault of this reader, where nothing was written.
fn reader_fault<R: Read>(alloc: Global, reader: &mut R) -> Option<RunFault> {
    let mut out: Vec<u8> = Vec::new(alloc);
    let answer = blocks(alloc, reader, &mut out);
    if out.is_empty() { answer.err() } else { None }
}

// The fault of this writer.
fn writer_fault<W: Write>(alloc: Global, stream: &[u8], writer: &mut W) -> Option<RunFault> {
    let mut reader = stream;
    blocks(alloc, &mut reader, writer).err()
}

// That of one that fails after a block.
fn fault_of_parts(alloc: Global) -> Option<RunFault> {
    let mut parts = Parts {
        rest: b"\x02a:\x05",
        fails: true,
    };
    reader_fault(alloc, &mut parts)
}

// That of one that is interrupted.
fn fault_of_interrupted(alloc: Global) -> Option<RunFault> {
    let mut interrupted = InterruptedOnce {
        rest: b"\x02a:\x05",
        interrupted: false,
    };
    reader_fault(alloc, &mut interrupted)
}

#[test]
fn a_reader_or_a_writer_that_fails(rt: HostRuntime) {
    assert!(rt; fault_of_parts(rt.alloc()) == Some(RunFault::Input));
    assert!(rt; fault_of_interrupted(rt.alloc()) == Some(RunFault::Input));
    assert!(rt; writer_fault(rt.alloc(), b"\x02a:\x05", &mut Full) == Some(RunFault::Output));
}

#[test]
fn a_flush_that_fails_is_reported_whatever_the_stream(rt: HostRuntime) {
    let streams: [&[u8]; 4] = [b"", b"\x02a:\x05", b"\x02:", b"\x02a"];
    for stream in streams {
        let fault = writer_fault(rt.alloc(), stream, &mut Unflushed);
        assert!(rt; fault == Some(RunFault::Output));
    }
}

// What `blocks` writes of a stream whose reader takes all memory at its end, where it did and all was written.
fn without_memory(alloc: Global, stream: &[u8]) -> Option<Vec<u8>> {
    let mut out: Vec<u8> = Vec::with_capacity(alloc, 1_000).ok()?;
    let mut reader = Exhausting {
        alloc,
        rest: stream,
        held: Vec::new(alloc),
    };
    let answer = blocks(alloc, &mut reader, &mut out);
    let is_held = !reader.held.is_empty();
    drop(reader);
    if is_held && answer == Ok(false) {
        Some(out)
    } else {
        None
    }
}

// Whether it writes this.
fn prints_without_memory(alloc: Global, stream: &[u8], text: &[u8]) -> bool {
    match without_memory(alloc, stream) {
        Some(out) => out.as_slice() == text,
        None => false,
    }
}

#[test]
fn without_memory_a_stream_is_printed(rt: HostRuntime) {
    let stream = b"\x02a:\x02b#\x1b\x05\x05\x05noise\x02c:x\x05\x02d";
    let text = b"0 10 {a:{b#\\x05}}\n15 20 {c:x}\nunfinished 20\n";
    assert!(rt; prints_without_memory(rt.alloc(), stream, text));
}

// The input of one block.
fn a_block() -> Parts<'static> {
    Parts {
        rest: b"\x02a:\x05",
        fails: false,
    }
}

// How the program ends over a full output, and what it writes on its errors.
fn ends_full(alloc: Global, said: &[u8]) -> bool {
    let mut errors: Vec<u8> = Vec::new(alloc);
    let mut input = a_block();
    let ended = run_blocks(alloc, &mut input, &mut Full, &mut errors);
    ended
        == Ending {
            status: 1,
            reported: true,
        }
        && errors.as_slice() == said
}

// How it ends where its errors can't be written either.
fn ends_withheld(alloc: Global) -> Ending {
    let mut input = a_block();
    run_blocks(alloc, &mut input, &mut Full, &mut Deaf)
}

#[test]
fn a_full_output_is_reported(rt: HostRuntime) {
    assert!(rt; ends_full(rt.alloc(), b"fault 42 Output\n"));
    assert!(rt;
        ends_withheld(rt.alloc())
            == Ending {
                status: 1,
                reported: false
            }
    );
}

// How a check of several worksheets ends whose total this writer doesn't take, and what it writes on its errors.
fn ends_without_total<W: Write>(alloc: Global, writer: &mut W, said: &[u8]) -> bool {
    let mut errors: Vec<u8> = Vec::new(alloc);
    let ended = end_total(Total::none(), writer, &mut errors);
    ended
        == Ending {
            status: 1,
            reported: true,
        }
        && errors.as_slice() == said
}

#[test]
fn a_total_that_is_not_written_is_a_fault(rt: HostRuntime) {
    assert!(rt; ends_without_total(rt.alloc(), &mut Full, b"fault 42 Output\n"));
    assert!(rt; ends_without_total(rt.alloc(), &mut Unflushed, b"fault 42 Output\n"));
    assert!(rt;
        end_total(Total::none(), &mut Full, &mut Deaf)
            == Ending {
                status: 1,
                reported: false
            }
    );
}

// Whether this is the line above the report of the worksheet at a path.
fn is_named(alloc: Global, path: &str, line: &[u8]) -> bool {
    let mut out: Vec<u8> = Vec::new(alloc);
    tell_worksheet(path, &mut out).is_ok() && out.as_slice() == line
}

#[test]
fn a_path_is_on_one_line_which_is_flushed(rt: HostRuntime) {
    assert!(rt; is_named(rt.alloc(), "a b/c", b"worksheet a b/c\n"));
    assert!(rt;
        is_named(
            rt.alloc(),
            "a\nworksheet b\x7f\\",
            b"worksheet a\\x0aworksheet b\\x7f\\\n"
        )
    );
    assert!(rt; tell_worksheet("a", &mut Unflushed).is_err());
}
