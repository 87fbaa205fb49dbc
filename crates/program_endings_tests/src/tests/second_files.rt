//! The second file of a worksheet: its path, its lock and its length.
use super::file_calls::{are_in_use, creates, opens, over, reads};
use super::made_up::{Calls, Locks, There};
use journal::CreateCause;
use sheet_files::{FilesFault, MakeFault};
use std::alloc::Global;

// Whether nothing is done at a path like that of a second file where it can't be read whether a worksheet's
// first file lies beside it.
fn is_looked_at_first(alloc: Global) -> bool {
    let calls = over(alloc, There::All);
    calls.unreadable.set(true);
    let beside = "look for s\nopen to read s\nread s 0 3\n";
    creates(&calls, alloc, "s.alt") == Err(MakeFault::Create(CreateCause::Disk))
        && calls.are(beside)
        && opens(&calls, alloc, "s.alt") == Err(FilesFault::Disk)
        && reads(&calls, alloc, "s.alt") == Err(FilesFault::Disk)
        && calls.end_in(beside)
}

#[test]
fn a_path_like_that_of_a_second_file(rt: HostRuntime) {
    assert!(rt; is_looked_at_first(rt.alloc()));
}

// Whether a worksheet is left to one who has its second file alone.
fn second_is_left_alone(alloc: Global) -> bool {
    let calls = over(alloc, There::All);
    calls.locks.set(Locks::SecondTaken);
    are_in_use(
        &calls,
        alloc,
        "follow s\nlook for s\nopen s\nlock s\nidentify s\n\
         look for s.alt\nopen s.alt\nidentify s\nidentify s.alt\nlock s.alt\n\
         follow s\nlook for s\nopen to read s\nlock to read s\nidentify s\n\
         look for s.alt\nopen to read s.alt\nidentify s\nidentify s.alt\nlock to read s.alt\n",
    )
}

// The same of one that is made.
fn second_is_not_made(alloc: Global) -> bool {
    let calls = Calls::new(alloc);
    calls.locks.set(Locks::SecondTaken);
    creates(&calls, alloc, "s") == Err(MakeFault::InUse)
        && calls.end_in("lock s\nmake s.alt\nlock s.alt\n")
}

#[test]
fn a_worksheet_whose_second_file_another_has_is_left_alone(rt: HostRuntime) {
    assert!(rt; second_is_left_alone(rt.alloc()));
    assert!(rt; second_is_not_made(rt.alloc()));
}

// What comes of worksheets that are opened to be written, and to be read, whose files have these lengths.
fn of_lengths(
    alloc: Global,
    lengths: (u64, u64),
) -> (Result<(), FilesFault>, Result<(), FilesFault>) {
    let calls = over(alloc, There::All);
    calls.lengths.set(lengths);
    (opens(&calls, alloc, "s"), reads(&calls, alloc, "s"))
}

#[test]
fn no_file_is_written_that_is_too_long(rt: HostRuntime) {
    let room = 2_147_483_648;
    assert!(rt; of_lengths(rt.alloc(), (room, room)) == (Ok(()), Ok(())));
    let refused = (Err(FilesFault::Disk), Ok(()));
    assert!(rt; of_lengths(rt.alloc(), (room + 1, 0)) == refused);
    assert!(rt; of_lengths(rt.alloc(), (11, room + 1)) == refused);
}
