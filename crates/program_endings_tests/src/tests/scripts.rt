//! Scripts over memory whose readers and writers fail, or whose reader takes all memory.
use offline_programs::{RunFault, run_memory};
use std::alloc::Global;
use std::io;
use std::io::Read;
use tests_desk::{Exhausting, Full, InterruptedOnce, Parts, Unflushed};

// What a script gives whose reader takes all memory, where it did.
fn without_memory(alloc: Global, script: &[u8]) -> Option<Vec<u8>> {
    let mut out: Vec<u8> = Vec::with_capacity(alloc, 1_000).ok()?;
    let mut reader = Exhausting {
        alloc,
        rest: script,
        held: Vec::new(alloc),
    };
    let ran = run_memory(alloc, &mut reader, &mut out);
    let is_held = !reader.held.is_empty();
    drop(reader);
    if is_held && ran == Ok(()) {
        Some(out)
    } else {
        None
    }
}

// Whether it gives this text.
fn gives_without_memory(alloc: Global, script: &[u8], text: &[u8]) -> bool {
    match without_memory(alloc, script) {
        Some(out) => out.as_slice() == text,
        None => false,
    }
}

#[test]
fn without_memory_a_script_goes_on(rt: HostRuntime) {
    let script = b"session a plain p\nremove 1\nwait\n";
    let text = b"refused 17 OutOfMemory\nrefused 2 NoField\nbad line 3\n";
    assert!(rt; gives_without_memory(rt.alloc(), script, text));
}

// The fault of this reader, where nothing was written.
fn reader_fault<R: Read>(alloc: Global, reader: &mut R) -> Option<RunFault> {
    let mut out: Vec<u8> = Vec::new(alloc);
    let answer = run_memory(alloc, reader, &mut out);
    if out.is_empty() { answer.err() } else { None }
}

// The fault of this writer.
fn writer_fault<W: io::Write>(alloc: Global, writer: &mut W) -> Option<RunFault> {
    let mut reader = b"remove 1\n".as_slice();
    run_memory(alloc, &mut reader, writer).err()
}

// That of one that fails after a line.
fn fault_of_parts(alloc: Global) -> Option<RunFault> {
    let mut parts = Parts {
        rest: b"remove 1\n",
        fails: true,
    };
    reader_fault(alloc, &mut parts)
}

// That of one that is interrupted.
fn fault_of_interrupted(alloc: Global) -> Option<RunFault> {
    let mut interrupted = InterruptedOnce {
        rest: b"remove 1\n",
        interrupted: false,
    };
    reader_fault(alloc, &mut interrupted)
}

#[test]
fn a_reader_or_a_writer_of_a_script_that_fails(rt: HostRuntime) {
    assert!(rt; fault_of_parts(rt.alloc()) == Some(RunFault::Input));
    assert!(rt; fault_of_interrupted(rt.alloc()) == Some(RunFault::Input));
    assert!(rt; writer_fault(rt.alloc(), &mut Full) == Some(RunFault::Output));
    assert!(rt; writer_fault(rt.alloc(), &mut Unflushed) == Some(RunFault::Output));
}
