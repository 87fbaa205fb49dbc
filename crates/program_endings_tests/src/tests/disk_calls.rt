//! The calls that a disk of two files makes on them.
use super::file_calls::{FIRST_READ, over};
use super::made_up::{MadeUp, There};
use super::opened;
use disk_model::{Area, Disk};
use std::alloc::Global;
use std::io::ErrorKind;

// Whether the calls of this area are these, after those of an opening, and each works.
fn area_calls(alloc: Global, area: Area, lines: &str) -> bool {
    let calls = over(alloc, There::All);
    let Ok(mut disk) = opened::open(
        &MadeUp {
            alloc,
            calls: &calls,
        },
        alloc,
        "s",
    ) else {
        return false;
    };
    let mut bytes = [0u8; 5];
    let works = disk.len(area) == Ok(7)
        && disk.read(area, 1, &mut bytes).is_ok()
        && disk.write_at(area, 9, b"abcd").is_ok()
        && disk.sync(area).is_ok();
    works && calls.end_in(lines)
}

#[test]
fn calls_come_to_the_file_of_their_area_whole(rt: HostRuntime) {
    let first = "sync .\nmeasure s\nread s 1 3\nread s 4 2\n\
                 write s 9 3\nwrite s 12 1\nsync the data of s\n";
    let second = "sync .\nmeasure s.alt\nread s.alt 1 3\nread s.alt 4 2\n\
                  write s.alt 9 3\nwrite s.alt 12 1\nsync the data of s.alt\n";
    assert!(rt; area_calls(rt.alloc(), Area::First, first));
    assert!(rt; area_calls(rt.alloc(), Area::Second, second));
}

// Whether a disk that is only read makes these calls after those of its opening, and writes nothing.
fn read_calls(alloc: Global, area: Area, lines: &str) -> bool {
    let calls = over(alloc, There::All);
    let Ok(mut disk) = opened::open_to_read(
        &MadeUp {
            alloc,
            calls: &calls,
        },
        alloc,
        "s",
    ) else {
        return false;
    };
    let mut bytes = [0u8; 5];
    let works = disk.len(area) == Ok(7)
        && disk.read(area, 1, &mut bytes).is_ok()
        && disk.write_at(area, 9, b"abcd").is_err()
        && disk.sync(area).is_ok();
    works && calls.end_in(lines)
}

#[test]
fn a_disk_that_is_only_read_writes_nothing(rt: HostRuntime) {
    let first = "lock to read s.alt\nmeasure s\nread s 1 3\nread s 4 2\nsync the data of s\n";
    let second =
        "lock to read s.alt\nmeasure s.alt\nread s.alt 1 3\nread s.alt 4 2\nsync the data of s.alt\n";
    assert!(rt; read_calls(rt.alloc(), Area::First, first));
    assert!(rt; read_calls(rt.alloc(), Area::Second, second));
}

// Whether each call on a second file that is missing fails, and none is made.
fn fails_without_a_second_file(alloc: Global) -> bool {
    let calls = over(alloc, There::First);
    let Ok(mut disk) = opened::open_to_read(
        &MadeUp {
            alloc,
            calls: &calls,
        },
        alloc,
        "v/w/sheet",
    ) else {
        return false;
    };
    let mut bytes = [0u8; 5];
    let fails = disk.len(Area::Second).is_err()
        && disk.read(Area::Second, 0, &mut bytes).is_err()
        && disk.write_at(Area::Second, 0, b"abcd").is_err()
        && disk.sync(Area::Second).is_err();
    fails && calls.are(FIRST_READ)
}

#[test]
fn calls_on_a_second_file_that_is_missing(rt: HostRuntime) {
    assert!(rt; fails_without_a_second_file(rt.alloc()));
}

// What a sync answers that the file refuses so, of a disk that is written, and of one that is read.
fn syncs(alloc: Global, area: Area, why: ErrorKind) -> Option<(bool, bool)> {
    let calls = over(alloc, There::All);
    let files = MadeUp {
        alloc,
        calls: &calls,
    };
    let mut written = opened::open(&files, alloc, "s").ok()?;
    let mut read = opened::open_to_read(&files, alloc, "s").ok()?;
    calls.stuck.set(Some(why));
    Some((written.sync(area).is_ok(), read.sync(area).is_ok()))
}

// But of a file system that can only be read, where there is nothing to bring out.
#[test]
fn a_sync_that_fails_is_a_fault(rt: HostRuntime) {
    let alloc = rt.alloc();
    let nothing = Some((false, true));
    assert!(rt; syncs(alloc, Area::First, ErrorKind::Other) == Some((false, false)));
    assert!(rt; syncs(alloc, Area::Second, ErrorKind::Other) == Some((false, false)));
    assert!(rt; syncs(alloc, Area::First, ErrorKind::InvalidInput) == nothing);
    assert!(rt; syncs(alloc, Area::Second, ErrorKind::ReadOnlyFilesystem) == nothing);
}

// Whether nothing comes to a file after a sync of this area that failed: a later sync that works would say
// nothing of what the first one left out.
fn ends_by_a_failed_sync(alloc: Global, area: Area, lines: &str) -> bool {
    let calls = over(alloc, There::All);
    let Ok(mut disk) = opened::open(
        &MadeUp {
            alloc,
            calls: &calls,
        },
        alloc,
        "s",
    ) else {
        return false;
    };
    calls.stuck.set(Some(ErrorKind::Other));
    let failed = disk.sync(area).is_err();
    calls.stuck.set(None);
    let mut bytes = [0u8; 5];
    let ended = disk.sync(Area::First).is_err()
        && disk.sync(Area::Second).is_err()
        && disk.len(area).is_err()
        && disk.read(area, 1, &mut bytes).is_err()
        && disk.write_at(area, 7, b"abcd").is_err();
    failed && ended && calls.end_in(lines)
}

#[test]
fn no_sync_is_believed_after_one_that_failed(rt: HostRuntime) {
    let first = "sync .\nsync the data of s\n";
    let second = "sync .\nsync the data of s.alt\n";
    assert!(rt; ends_by_a_failed_sync(rt.alloc(), Area::First, first));
    assert!(rt; ends_by_a_failed_sync(rt.alloc(), Area::Second, second));
}
