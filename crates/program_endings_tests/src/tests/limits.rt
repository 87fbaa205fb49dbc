//! A writer that fails in the middle of a text, and how often an input is read.
use offline_programs::{RunFault, run_memory};
use program_endings::blocks;
use std::alloc::Global;
use tests_desk::{Counted, Narrow};

// Whether a writer with this room gets this text of the script, and the run fails for it.
fn fails_after(alloc: Global, script: &[u8], text: &[u8]) -> bool {
    let mut reader = script;
    let mut out = Narrow {
        taken: Vec::new(alloc),
        room: text.len(),
    };
    let answer = run_memory(alloc, &mut reader, &mut out);
    answer == Err(RunFault::Output) && out.taken.as_slice() == text
}

#[test]
fn a_writer_that_fails_in_the_middle(rt: HostRuntime) {
    let script: &[u8] = b"session a plain p\nnew 0 a x\nnew 1 a y\nprint\nremove 9\n";
    let text: &[u8] = b"ok\nfield 1\nfield 2\n#1 a\n> x\n?\n#2 a\n> y\n?\nrefused 2 NoField\n";
    for room in 0..text.len() {
        assert!(rt;
            fails_after(rt.alloc(), script, &text[..room]),
            "{room} bytes"
        );
    }
}

// How often `blocks` reads this whole stream.
fn reads_of_blocks(alloc: Global, bytes: &[u8]) -> Option<u64> {
    let mut out: Vec<u8> = Vec::new(alloc);
    let mut reader = Counted {
        rest: bytes,
        reads: 0,
    };
    match blocks(alloc, &mut reader, &mut out) {
        Ok(true) => Some(reader.reads),
        _ => None,
    }
}

// How often `run_memory` reads this script.
fn reads_of_script(alloc: Global, bytes: &[u8]) -> Option<u64> {
    let mut out: Vec<u8> = Vec::new(alloc);
    let mut reader = Counted {
        rest: bytes,
        reads: 0,
    };
    match run_memory(alloc, &mut reader, &mut out) {
        Ok(()) => Some(reader.reads),
        Err(_) => None,
    }
}

#[test]
fn no_read_follows_the_end_of_the_input(rt: HostRuntime) {
    for (text, reads) in [("", 1), ("abc", 2), ("abc\n\n#\n", 4)] {
        assert!(rt;
            reads_of_blocks(rt.alloc(), text.as_bytes()) == Some(reads),
            "{text:?}"
        );
        assert!(rt;
            reads_of_script(rt.alloc(), text.as_bytes()) == Some(reads),
            "{text:?}"
        );
    }
}
