//! Runs of scripts over a disk, where the reader or the writer fails, and strict ones.
use arrivals::ScriptedSources;
use child_calls::Scripted;
use disk_model::MemoryDisk;
use offline_programs::RunFault;
use script_agenda::{Ran, RunResources, run, run_read};
use std::alloc::Global;
use std::io::{BufWriter, Write};
use tests_desk::{Full, Parts, Unflushed};

// An empty worksheet, and where the text of a run over it goes.
fn over<W: Drop>(alloc: Global, output: W) -> Option<RunResources<MemoryDisk, ScriptedSources, W>> {
    let disk = journal::create(MemoryDisk::new(alloc, 1_000)).ok()?;
    let children = Scripted::new(alloc, Vec::new(alloc));
    let sources = ScriptedSources::new(children, Vec::new(alloc));
    Some(RunResources {
        disk,
        sources,
        output,
    })
}

// The fault of a reader that fails after a line, where nothing was written.
fn reader_fault(alloc: Global) -> Option<RunFault> {
    let mut reader = Parts {
        rest: b"session a plain p\n",
        fails: true,
    };
    let text: Vec<u8> = Vec::new(alloc);
    let Ran { outside, answer } = run(alloc, &mut reader, over(alloc, text)?);
    if outside.output.is_empty() {
        answer.err()
    } else {
        None
    }
}

// That of a script of a session whose text goes to this writer.
fn writer_fault<W: Write + Drop>(alloc: Global, writer: W) -> Option<RunFault> {
    let writer = BufWriter::with_capacity(alloc, 64, writer).ok()?;
    let mut reader = b"session b plain p\nnew 0 b y\neval 1\n".as_slice();
    run(alloc, &mut reader, over(alloc, writer)?).answer.err()
}

#[test]
fn a_reader_that_fails(rt: HostRuntime) {
    assert!(rt; reader_fault(rt.alloc()) == Some(RunFault::Input));
}

#[test]
fn a_writer_that_fails(rt: HostRuntime) {
    assert!(rt; writer_fault(rt.alloc(), Full) == Some(RunFault::Output));
}

#[test]
fn a_flush_that_fails(rt: HostRuntime) {
    assert!(rt; writer_fault(rt.alloc(), Unflushed) == Some(RunFault::Output));
}

// The line after which a strict run of a script over an empty worksheet stops, if it does.
fn stopped(alloc: Global, script: &[u8]) -> Option<Option<u64>> {
    let text: Vec<u8> = Vec::new(alloc);
    run_read(alloc, script, true, over(alloc, text)?)
        .answer
        .ok()
}

#[test]
fn a_strict_run_to_its_end(rt: HostRuntime) {
    assert!(rt; stopped(rt.alloc(), b"session a plain p\n#\n") == Some(None));
}

#[test]
fn a_strict_run_that_stops(rt: HostRuntime) {
    assert!(rt; stopped(rt.alloc(), b"session a plain p\nfoo\nbar\n") == Some(Some(2)));
}
