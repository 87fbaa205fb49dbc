//! How `create`, `show` and `rescue` end, over disks in memory and over files.
ghost use Rattle.std.specs.Prelude.{◌≤◌, IfOk};
ghost use Rattle.disk_model.specs.Disk.{greatest_room};

use super::opened;
use super::streams::Deaf;
use disk_model::{FuseDisk, FuseMode, MemoryDisk};
use host_events::HostFault;
use journal::{CreateCause, OpenCause};
use offline_programs::RunFault;
use program_endings::{Ending, end_program, read_rescued, run_create, run_rescue, run_show};
use sheet_files::{Close, FilesFault, MakeFault};
use std::alloc::Global;
use std::io::Write;
use tests_desk::{Full, Unflushed, exhausted};

// Area First of a worksheet: session `a` with the word `sh`, field 1 with the input `x`, its output
// cleared, and its answer `A`.
const SHEET: &[u8] =
    b"TMWSHEET\x01A\x52\0\0\0\x09\x01\x01a\0\x01\0\x02sh\x52\0\0\0\x0a\x02\0\0\0\0\x01a\0\x01x\x52\0\0\0\x05\x06\0\0\0\x01\x52\0\0\0\x15\x07\0\0\0\x01\0\x02> \x02verbatim:A\x05\0";

fn ending(status: u8, reported: bool) -> Ending {
    Ending { status, reported }
}

// Each fault that a program can end by, and the line that tells it.
const REPORTED: [(RunFault, &[u8]); 14] = [
    (RunFault::Host(HostFault::Closed), b"fault 20 Closed\n"),
    (RunFault::Host(HostFault::Disk), b"fault 21 Disk\n"),
    (
        RunFault::Host(HostFault::OutOfMemory),
        b"fault 22 OutOfMemory\n",
    ),
    (
        RunFault::Host(HostFault::JournalFull),
        b"fault 23 JournalFull\n",
    ),
    (
        RunFault::Open(OpenCause::Damaged(10)),
        b"fault 30 Damaged 10\n",
    ),
    (
        RunFault::Open(OpenCause::NotASheet),
        b"fault 31 NotASheet\n",
    ),
    (RunFault::Open(OpenCause::Disk), b"fault 32 Disk\n"),
    (
        RunFault::Open(OpenCause::OutOfMemory),
        b"fault 33 OutOfMemory\n",
    ),
    (RunFault::InUse, b"fault 35 InUse\n"),
    (RunFault::SecondFile, b"fault 38 SecondFile\n"),
    (RunFault::Input, b"fault 40 Input\n"),
    (RunFault::InputTooLong, b"fault 41 InputTooLong\n"),
    (RunFault::Output, b"fault 42 Output\n"),
    (RunFault::OutOfMemory, b"fault 43 OutOfMemory\n"),
];

// Whether a program that ends by this fault writes this on its errors alone.
fn tells(alloc: Global, fault: RunFault, said: &[u8]) -> bool {
    let mut errors: Vec<u8> = Vec::new(alloc);
    let ended = end_program(Err(fault), &mut errors);
    ended == ending(1, true) && errors.as_slice() == said
}

#[test]
fn each_fault_is_reported_on_a_line(rt: HostRuntime) {
    for (fault, said) in REPORTED {
        assert!(rt; tells(rt.alloc(), fault, said), "{fault}");
    }
}

// Whether `create` on an empty disk of 11 bytes of room ends so, and writes this on its errors.
fn creates(alloc: Global, status: u8, said: &[u8]) -> bool {
    let mut errors: Vec<u8> = Vec::new(alloc);
    let ended = run_create(Ok(MemoryDisk::new(alloc, 11)), &mut errors);
    ended == ending(status, true) && errors.as_slice() == said
}

// The same on a disk with one byte.
fn creates_on_a_byte(alloc: Global, status: u8, said: &[u8]) -> Option<bool> {
    let mut errors: Vec<u8> = Vec::new(alloc);
    let bytes = Vec::from_slice(alloc, &[0]).ok()?;
    let disk = MemoryDisk::holding(alloc, 100, bytes).ok()?;
    let ended = run_create(Ok(disk), &mut errors);
    Some(ended == ending(status, true) && errors.as_slice() == said)
}

#[test]
fn create_tells_what_failed(rt: HostRuntime) {
    assert!(rt; creates(rt.alloc(), 0, b""));
    assert!(rt; creates_on_a_byte(rt.alloc(), 1, b"fault 34 NotEmpty\n") == Some(true));
}

// The same on a disk that fails.
fn creates_on_a_broken_disk(alloc: Global, status: u8, said: &[u8]) -> bool {
    let mut errors: Vec<u8> = Vec::new(alloc);
    let broken = FuseDisk::new(MemoryDisk::new(alloc, 100), 1, FuseMode::From);
    let ended = run_create(Ok(broken), &mut errors);
    ended == ending(status, true) && errors.as_slice() == said
}

#[test]
fn create_tells_a_disk_that_fails(rt: HostRuntime) {
    assert!(rt; creates_on_a_broken_disk(rt.alloc(), 1, b"fault 32 Disk\n"));
}

// The same without files.
fn creates_without_files(alloc: Global, why: MakeFault, said: &[u8]) -> bool {
    let mut errors: Vec<u8> = Vec::new(alloc);
    let none: Result<MemoryDisk, MakeFault> = Err(why);
    let ended = run_create(none, &mut errors);
    ended == ending(1, true) && errors.as_slice() == said
}

#[test]
fn create_without_files(rt: HostRuntime) {
    let alloc = rt.alloc();
    let disk = MakeFault::Create(CreateCause::Disk);
    let there = MakeFault::Create(CreateCause::NotEmpty);
    assert!(rt; creates_without_files(alloc, disk, b"fault 32 Disk\n"));
    assert!(rt; creates_without_files(alloc, there, b"fault 34 NotEmpty\n"));
    assert!(rt; creates_without_files(alloc, MakeFault::InUse, b"fault 35 InUse\n"));
    assert!(rt; creates_without_files(alloc, MakeFault::SecondFile, b"fault 38 SecondFile\n"));
    let none: Result<MemoryDisk, MakeFault> = Err(there);
    assert!(rt; run_create(none, &mut Deaf) == ending(1, false));
}

// A disk with these bytes in area First.
fn holding(alloc: Global, first: &[u8]) -> Option<MemoryDisk> {
    if first.len() > 1_000 {
        return None;
    }
    let bytes = Vec::from_slice(alloc, first).ok()?;
    MemoryDisk::holding(alloc, 1_000, bytes).ok()
}

// Whether `show` of these files ends so, and writes this on its output and its errors.
fn shows_files(
    alloc: Global,
    files: Result<MemoryDisk, FilesFault>,
    status: u8,
    (out, said): (&[u8], &[u8]),
) -> bool {
    let mut output: Vec<u8> = Vec::new(alloc);
    let mut errors: Vec<u8> = Vec::new(alloc);
    let ended = run_show(alloc, files, &mut output, &mut errors);
    ended == ending(status, true) && output.as_slice() == out && errors.as_slice() == said
}

#[test]
fn show_without_files(rt: HostRuntime) {
    let none: Result<MemoryDisk, FilesFault> = Err(FilesFault::Disk);
    assert!(rt; shows_files(rt.alloc(), none, 1, (b"", b"fault 32 Disk\n")));
    let used: Result<MemoryDisk, FilesFault> = Err(FilesFault::InUse);
    assert!(rt; shows_files(rt.alloc(), used, 1, (b"", b"fault 35 InUse\n")));
    let second: Result<MemoryDisk, FilesFault> = Err(FilesFault::SecondFile);
    assert!(rt; shows_files(rt.alloc(), second, 1, (b"", b"fault 38 SecondFile\n")));
}

// Whether `show` over this output tells that it could not be written.
fn shows_on_a_bad<W: Write>(alloc: Global, output: &mut W) -> Option<bool> {
    let mut errors: Vec<u8> = Vec::new(alloc);
    let files: Result<MemoryDisk, FilesFault> = Ok(holding(alloc, SHEET)?);
    let ended = run_show(alloc, files, output, &mut errors);
    Some(ended == ending(1, true) && errors.as_slice() == b"fault 42 Output\n".as_slice())
}

#[test]
fn show_tells_an_output_that_fails(rt: HostRuntime) {
    assert!(rt; shows_on_a_bad(rt.alloc(), &mut Full) == Some(true));
    assert!(rt; shows_on_a_bad(rt.alloc(), &mut Unflushed) == Some(true));
}

// Whether a rescue to these files ends with status 1, and writes this on its errors alone. All memory is taken before it, or none.
fn rescues_to<N: Close>(
    alloc: Global,
    files: Result<N, MakeFault>,
    takes_memory: bool,
    said: &[u8],
) -> Option<bool>
    requires { IfOk files (λ disk. 11 ≤ (N.view disk).room) }
{
    let mut output: Vec<u8> = Vec::new(alloc);
    let mut errors: Vec<u8> = Vec::with_capacity(alloc, 100).ok()?;
    let sheet: Result<MemoryDisk, FilesFault> = Ok(holding(alloc, SHEET)?);
    let Ok(found) = read_rescued(alloc, sheet) else {
        return None;
    };
    let held = if takes_memory {
        exhausted(alloc).ok()?
    } else {
        Vec::new(alloc)
    };
    let ended = run_rescue(alloc, found, files, &mut output, &mut errors);
    let is_reported = ended == ending(1, true) && errors.as_slice() == said;
    Some(is_reported && output.is_empty() && held.is_empty() != takes_memory)
}

// The same to an empty disk with this much room.
fn rescues_to_room(alloc: Global, room: u64, takes_memory: bool, said: &[u8]) -> Option<bool>
    requires { (11 ≤ room) × (room ≤ greatest_room) }
{
    rescues_to(alloc, Ok(MemoryDisk::new(alloc, room)), takes_memory, said)
}

#[test]
fn a_rescue_that_does_not_fit(rt: HostRuntime) {
    let reported = rescues_to_room(rt.alloc(), 40, false, b"fault 23 JournalFull\n");
    assert!(rt; reported == Some(true));
}

#[test]
fn a_rescue_without_memory(rt: HostRuntime) {
    let reported = rescues_to_room(rt.alloc(), 1_000, true, b"fault 33 OutOfMemory\n");
    assert!(rt; reported == Some(true));
}

// The same to a disk with one byte.
fn rescues_to_a_byte(alloc: Global, said: &[u8]) -> Option<bool> {
    let bytes = Vec::from_slice(alloc, &[0]).ok()?;
    let disk = MemoryDisk::holding(alloc, 100, bytes).ok()?;
    rescues_to(alloc, Ok(disk), false, said)
}

#[test]
fn a_rescue_to_a_disk_that_is_not_empty(rt: HostRuntime) {
    assert!(rt; rescues_to_a_byte(rt.alloc(), b"fault 34 NotEmpty\n") == Some(true));
}

// The same to a disk that fails.
fn rescues_to_a_broken_disk(alloc: Global, said: &[u8]) -> Option<bool> {
    let broken = FuseDisk::new(MemoryDisk::new(alloc, 1_000), 1, FuseMode::From);
    rescues_to(alloc, Ok(broken), false, said)
}

#[test]
fn a_rescue_to_a_disk_that_fails(rt: HostRuntime) {
    assert!(rt; rescues_to_a_broken_disk(rt.alloc(), b"fault 32 Disk\n") == Some(true));
}

/// Whether `show` of the worksheet in these files ends so, and writes this on its output and its errors.
pub fn shows_path(rt: &HostRuntime, path: &str, status: u8, (out, said): (&[u8], &[u8])) -> bool {
    let mut output: Vec<u8> = Vec::new(rt.alloc());
    let mut errors: Vec<u8> = Vec::new(rt.alloc());
    let files = opened::open_to_read(rt, rt.alloc(), path);
    let ended = run_show(rt.alloc(), files, &mut output, &mut errors);
    ended == ending(status, true) && output.as_slice() == out && errors.as_slice() == said
}
