//! The program's own file code over files in memory, which keep the model of a file.
use arrivals::ScriptedSources;
use child_calls::Scripted;
use offline_programs::show;
use script_agenda::{Ran, RunResources, run};
use sheet_files::{DiskFile, FileDisk, Lock, MemoryFile};
use std::alloc::Global;

// A kind of files. The borrow checker doesn't know which impl a file in memory has, but which this has.
trait Kind {
    type File: DiskFile + Drop;

    fn empty(alloc: Global) -> Self::File;
}

struct InMemory;

impl Kind for InMemory {
    type File = MemoryFile;

    fn empty(alloc: Global) -> MemoryFile {
        MemoryFile::new(alloc)
    }
}

// What `show` prints of a new worksheet after this script.
fn shown_after<K: Kind>(alloc: Global, script: &[u8]) -> Option<Vec<u8>> {
    let first = K::empty(alloc);
    let second = K::empty(alloc);
    let disk = FileDisk::of(first, Some(second), Lock::Exclusive).ok()?;
    let disk = journal::create(disk).ok()?;
    let children = Scripted::new(alloc, Vec::new(alloc));
    let mut reader = script;
    let output: Vec<u8> = Vec::new(alloc);
    let given = RunResources {
        disk,
        sources: ScriptedSources::new(children, Vec::new(alloc)),
        output,
    };
    let Ran { outside, answer } = run(alloc, &mut reader, given);
    answer.ok()?;
    let mut shown: Vec<u8> = Vec::new(alloc);
    show(alloc, outside.disk, &mut shown).answer.ok()?;
    Some(shown)
}

fn shows(alloc: Global, script: &[u8], text: &[u8]) -> bool {
    match shown_after::<InMemory>(alloc, script) {
        Some(shown) => shown.as_slice() == text,
        None => false,
    }
}

#[test]
fn a_worksheet_in_files_in_memory(rt: HostRuntime) {
    let script = b"session b plain p\nnew 0 b first\nnew 1 b second\ncheckpoint\nset 1 changed\n";
    let text = b"#1 b\n> changed\n?\n#2 b\n> second\n?\n";
    assert!(rt; shows(rt.alloc(), script.as_slice(), text.as_slice()));
}
