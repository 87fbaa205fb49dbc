//! The calls by which a worksheet's two files are made and opened.
use super::made_up::{Calls, Locks, MadeUp, There};
use super::opened;
use journal::CreateCause;
use sheet_files::{FilesFault, MakeFault};
use std::alloc::Global;
use std::io::ErrorKind;

// What comes of a worksheet that is made at a path.
pub fn creates(calls: &Calls, alloc: Global, path: &str) -> Result<(), MakeFault> {
    match opened::create(&MadeUp { alloc, calls }, alloc, path) {
        Ok(_) => Ok(()),
        Err(why) => Err(why),
    }
}

// The same of one that is opened.
pub fn opens(calls: &Calls, alloc: Global, path: &str) -> Result<(), FilesFault> {
    match opened::open(&MadeUp { alloc, calls }, alloc, path) {
        Ok(_) => Ok(()),
        Err(why) => Err(why),
    }
}

// The same of one that is opened to read.
pub fn reads(calls: &Calls, alloc: Global, path: &str) -> Result<(), FilesFault> {
    match opened::open_to_read(&MadeUp { alloc, calls }, alloc, path) {
        Ok(_) => Ok(()),
        Err(why) => Err(why),
    }
}

// Calls over files that are there.
pub fn over(alloc: Global, there: There) -> Calls {
    let calls = Calls::new(alloc);
    calls.there.set(there);
    calls
}

// Whether a worksheet is made at a path by these calls.
fn creates_by(alloc: Global, path: &str, lines: &str) -> bool {
    let calls = Calls::new(alloc);
    creates(&calls, alloc, path) == Ok(()) && calls.are(lines)
}

#[test]
fn create_syncs_both_files_and_then_their_folder(rt: HostRuntime) {
    assert!(rt;
        creates_by(
            rt.alloc(),
            "w/sheet",
            "look for w/sheet\nlook for w/sheet.alt\nmake w/sheet\nlock w/sheet\nmake w/sheet.alt\n\
         lock w/sheet.alt\nsync w/sheet\nsync w/sheet.alt\nopen to read w\nsync w\n"
        )
    );
    assert!(rt;
        creates_by(
            rt.alloc(),
            "sheet",
            "look for sheet\nlook for sheet.alt\nmake sheet\nlock sheet\nmake sheet.alt\n\
         lock sheet.alt\nsync sheet\nsync sheet.alt\nopen to read .\nsync .\n"
        )
    );
    assert!(rt;
        creates_by(
            rt.alloc(),
            "/sheet",
            "look for /sheet\nlook for /sheet.alt\nmake /sheet\nlock /sheet\nmake /sheet.alt\n\
         lock /sheet.alt\nsync /sheet\nsync /sheet.alt\nopen to read /\nsync /\n"
        )
    );
}

// The calls of an opening to read that comes to no second file.
pub const FIRST_READ: &str =
    "follow v/w/sheet\nlook for v/w/sheet\nopen to read v/w/sheet\nlock to read v/w/sheet\n\
     identify v/w/sheet\nlook for v/w/sheet.alt\n";

// Whether a worksheet is opened by these calls, and to read by the others.
fn opens_by(alloc: Global, there: There, path: &str, lines: &str, to_read: &str) -> bool {
    let written = over(alloc, there);
    let read = over(alloc, there);
    opens(&written, alloc, path) == Ok(())
        && written.are(lines)
        && reads(&read, alloc, path) == Ok(())
        && read.are(to_read)
}

// The first file is locked before the second one is opened or made, and before anything is read; then that one
// is. Where the worksheet is written both are measured, and their names are brought onto the disk.
#[test]
fn a_worksheet_is_locked_before_its_second_file_is_opened(rt: HostRuntime) {
    let found =
        "follow v/w/sheet\nlook for v/w/sheet\nopen v/w/sheet\nlock v/w/sheet\nidentify v/w/sheet\n\
         look for v/w/sheet.alt\nopen v/w/sheet.alt\nidentify v/w/sheet\nidentify v/w/sheet.alt\n\
         lock v/w/sheet.alt\nmeasure v/w/sheet\nmeasure v/w/sheet.alt\nopen to read v/w\nsync v/w\n";
    let read =
        "follow v/w/sheet\nlook for v/w/sheet\nopen to read v/w/sheet\nlock to read v/w/sheet\n\
         identify v/w/sheet\nlook for v/w/sheet.alt\nopen to read v/w/sheet.alt\n\
         identify v/w/sheet\nidentify v/w/sheet.alt\nlock to read v/w/sheet.alt\n";
    assert!(rt; opens_by(rt.alloc(), There::All, "v/w/sheet", found, read));
}

// To write it is made where the first file doesn't say that the worksheet lies in it.
#[test]
fn a_second_file_that_is_missing(rt: HostRuntime) {
    let made =
        "follow v/w/sheet\nlook for v/w/sheet\nopen v/w/sheet\nlock v/w/sheet\nidentify v/w/sheet\n\
         look for v/w/sheet.alt\nread v/w/sheet 0 3\nread v/w/sheet 3 3\nread v/w/sheet 6 3\n\
         read v/w/sheet 9 2\nmake v/w/sheet.alt\nidentify v/w/sheet\nidentify v/w/sheet.alt\n\
         lock v/w/sheet.alt\nmeasure v/w/sheet\nmeasure v/w/sheet.alt\nopen to read v/w\nsync v/w\n";
    assert!(rt; opens_by(rt.alloc(), There::First, "v/w/sheet", made, FIRST_READ));
}

// The second file is the one beside the file that a link leads to.
#[test]
fn a_link_is_followed_to_both_files(rt: HostRuntime) {
    let far =
        "follow link\nlook for far/sheet\nopen far/sheet\nlock far/sheet\nidentify far/sheet\n\
         look for far/sheet.alt\nopen far/sheet.alt\nidentify far/sheet\nidentify far/sheet.alt\n\
         lock far/sheet.alt\nmeasure far/sheet\nmeasure far/sheet.alt\nopen to read far\nsync far\n";
    let read = "follow link\nlook for far/sheet\nopen to read far/sheet\nlock to read far/sheet\n\
         identify far/sheet\nlook for far/sheet.alt\nopen to read far/sheet.alt\n\
         identify far/sheet\nidentify far/sheet.alt\nlock to read far/sheet.alt\n";
    assert!(rt; opens_by(rt.alloc(), There::Linked, "link", far, read));
}

// Where it can't be found where a path leads, one that is no link stands as it is.
#[test]
fn a_path_that_can_not_be_followed(rt: HostRuntime) {
    let here = "follow s\nlook for s\nopen s\nlock s\nidentify s\n\
         look for s.alt\nopen s.alt\nidentify s\nidentify s.alt\nlock s.alt\n\
         measure s\nmeasure s.alt\nopen to read .\nsync .\n";
    let read = "follow s\nlook for s\nopen to read s\nlock to read s\nidentify s\n\
         look for s.alt\nopen to read s.alt\nidentify s\nidentify s.alt\nlock to read s.alt\n";
    assert!(rt; opens_by(rt.alloc(), There::Lost, "s", here, read));
    let link = "follow link\nlook for link\nfollow link\nlook for link\n";
    assert!(rt; is_refused_over(rt.alloc(), There::Lost, "link", link));
}

// Whether a worksheet is opened neither to write nor to read, and these are the calls.
fn is_refused(calls: &Calls, alloc: Global, path: &str, lines: &str) -> bool {
    opens(calls, alloc, path) == Err(FilesFault::Disk)
        && reads(calls, alloc, path) == Err(FilesFault::Disk)
        && calls.are(lines)
}

// The same over files that are there.
fn is_refused_over(alloc: Global, there: There, path: &str, lines: &str) -> bool {
    is_refused(&over(alloc, there), alloc, path, lines)
}

#[test]
fn what_is_no_plain_file_is_not_opened(rt: HostRuntime) {
    let twice = "follow s\nlook for s\nfollow s\nlook for s\n";
    assert!(rt; is_refused_over(rt.alloc(), There::Folders, "s", twice));
    let link = "follow s\nlook for s\nopen s\nlock s\nidentify s\nlook for s.alt\n\
         follow s\nlook for s\nopen to read s\nlock to read s\nidentify s\nlook for s.alt\n";
    assert!(rt; is_refused_over(rt.alloc(), There::SecondLink, "s", link));
}

// The calls of two openings that come to the first file alone.
const FIRST_ALONE: &str = "follow s\nlook for s\nopen s\nlock s\nidentify s\n\
     follow s\nlook for s\nopen to read s\nlock to read s\nidentify s\n";

// The calls of two openings of both files.
const BOTH: &str = "follow s\nlook for s\nopen s\nlock s\nidentify s\n\
     look for s.alt\nopen s.alt\nidentify s\nidentify s.alt\n\
     follow s\nlook for s\nopen to read s\nlock to read s\nidentify s\n\
     look for s.alt\nopen to read s.alt\nidentify s\nidentify s.alt\n";

// Whether files with so many names are refused by these calls.
fn names_are_refused(alloc: Global, names: (u64, u64), lines: &str) -> bool {
    let calls = over(alloc, There::All);
    calls.names.set(names);
    is_refused(&calls, alloc, "s", lines)
}

#[test]
fn a_file_with_two_names_or_none_is_refused(rt: HostRuntime) {
    assert!(rt; names_are_refused(rt.alloc(), (2, 1), FIRST_ALONE));
    assert!(rt; names_are_refused(rt.alloc(), (0, 1), FIRST_ALONE));
    assert!(rt; names_are_refused(rt.alloc(), (1, 2), BOTH));
}

// Whether files are refused that are one.
fn one_file_is_refused(alloc: Global) -> bool {
    let calls = over(alloc, There::All);
    calls.numbers.set((8, 8));
    is_refused(&calls, alloc, "s", BOTH)
}

// Whether files are refused that are no plain ones once they are opened.
fn no_plain_file_is_refused(alloc: Global) -> bool {
    let calls = over(alloc, There::All);
    calls.plain.set(false);
    is_refused(&calls, alloc, "s", FIRST_ALONE)
}

#[test]
fn a_second_file_that_is_the_first_one_is_refused(rt: HostRuntime) {
    assert!(rt; one_file_is_refused(rt.alloc()));
    assert!(rt; no_plain_file_is_refused(rt.alloc()));
}

// Whether each opening tells that another has the worksheet, and these are the calls.
pub fn are_in_use(calls: &Calls, alloc: Global, lines: &str) -> bool {
    opens(calls, alloc, "s") == Err(FilesFault::InUse)
        && reads(calls, alloc, "s") == Err(FilesFault::InUse)
        && calls.are(lines)
}

// Whether a worksheet that is there is left to the one who has it.
fn is_left_alone(alloc: Global) -> bool {
    let calls = over(alloc, There::All);
    calls.locks.set(Locks::Taken);
    are_in_use(
        &calls,
        alloc,
        "follow s\nlook for s\nopen s\nlock s\n\
         follow s\nlook for s\nopen to read s\nlock to read s\n",
    )
}

// The same of one that is made.
fn is_not_made(alloc: Global) -> bool {
    let calls = Calls::new(alloc);
    calls.locks.set(Locks::Taken);
    creates(&calls, alloc, "s") == Err(MakeFault::InUse)
        && calls.are("look for s\nlook for s.alt\nmake s\nlock s\n")
}

#[test]
fn a_worksheet_that_another_has_is_left_alone(rt: HostRuntime) {
    assert!(rt; is_left_alone(rt.alloc()));
    assert!(rt; is_not_made(rt.alloc()));
}

// The calls of two openings of both files that succeed.
const WITHOUT_LOCKS: &str = "follow s\nlook for s\nopen s\nlock s\nidentify s\n\
     look for s.alt\nopen s.alt\nidentify s\nidentify s.alt\nlock s.alt\n\
     measure s\nmeasure s.alt\nopen to read .\nsync .\n\
     follow s\nlook for s\nopen to read s\nlock to read s\nidentify s\n\
     look for s.alt\nopen to read s.alt\nidentify s\nidentify s.alt\nlock to read s.alt\n";

// Whether worksheets are made and opened where the file system has no locks.
fn goes_on_without_locks(alloc: Global) -> bool {
    let empty = Calls::new(alloc);
    empty.locks.set(Locks::None);
    let calls = over(alloc, There::All);
    calls.locks.set(Locks::None);
    creates(&empty, alloc, "s") == Ok(())
        && opens(&calls, alloc, "s") == Ok(())
        && reads(&calls, alloc, "s") == Ok(())
        && calls.are(WITHOUT_LOCKS)
}

#[test]
fn a_file_system_without_locks(rt: HostRuntime) {
    assert!(rt; goes_on_without_locks(rt.alloc()));
}

// Whether no worksheet is made or opened where its lock fails.
fn is_refused_without_its_lock(alloc: Global) -> bool {
    let empty = Calls::new(alloc);
    empty.locks.set(Locks::Failed);
    let calls = over(alloc, There::All);
    calls.locks.set(Locks::Failed);
    creates(&empty, alloc, "s") == Err(MakeFault::Create(CreateCause::Disk))
        && empty.are("look for s\nlook for s.alt\nmake s\nlock s\n")
        && is_refused(
            &calls,
            alloc,
            "s",
            "follow s\nlook for s\nopen s\nlock s\n\
             follow s\nlook for s\nopen to read s\nlock to read s\n",
        )
}

#[test]
fn a_lock_that_fails(rt: HostRuntime) {
    assert!(rt; is_refused_without_its_lock(rt.alloc()));
}

// What comes of a worksheet that is made, and of one that is opened, where each sync fails.
fn stuck(alloc: Global) -> (Result<(), MakeFault>, Result<(), FilesFault>) {
    let calls = Calls::new(alloc);
    calls.stuck.set(Some(ErrorKind::Other));
    let made = creates(&calls, alloc, "w/sheet");
    calls.there.set(There::First);
    (made, opens(&calls, alloc, "w/sheet"))
}

#[test]
fn a_sync_that_fails_makes_no_worksheet(rt: HostRuntime) {
    let failed = Err(MakeFault::Create(CreateCause::Disk));
    assert!(rt; stuck(rt.alloc()) == (failed, Err(FilesFault::Disk)));
}

// What comes of a worksheet that is made where this sync fails alone.
fn makes_with_one_stuck(alloc: Global, at: u32) -> Result<(), MakeFault> {
    let calls = Calls::new(alloc);
    calls.stuck_once.set(at);
    creates(&calls, alloc, "s")
}

// The same of one that is opened to be written.
fn opens_with_one_stuck(alloc: Global, there: There) -> Result<(), FilesFault> {
    let calls = over(alloc, there);
    calls.stuck_once.set(1);
    opens(&calls, alloc, "s")
}

#[test]
fn each_sync_of_a_making_or_an_opening_counts(rt: HostRuntime) {
    let failed = Err(MakeFault::Create(CreateCause::Disk));
    assert!(rt; makes_with_one_stuck(rt.alloc(), 1) == failed);
    assert!(rt; makes_with_one_stuck(rt.alloc(), 2) == failed);
    assert!(rt; makes_with_one_stuck(rt.alloc(), 3) == failed);
    assert!(rt; makes_with_one_stuck(rt.alloc(), 4) == Ok(()));
    assert!(rt; opens_with_one_stuck(rt.alloc(), There::All) == Err(FilesFault::Disk));
    assert!(rt; opens_with_one_stuck(rt.alloc(), There::First) == Err(FilesFault::Disk));
}

// Whether a worksheet isn't made whose first file another makes between the look and the making.
fn is_made_meanwhile(alloc: Global) -> bool {
    let calls = Calls::new(alloc);
    calls.shut.set(1);
    calls.shut_by.set(ErrorKind::AlreadyExists);
    creates(&calls, alloc, "s") == Err(MakeFault::Create(CreateCause::NotEmpty))
        && calls.are("look for s\nlook for s.alt\nmake s\n")
}

#[test]
fn a_file_that_is_made_meanwhile_is_reported_as_there(rt: HostRuntime) {
    assert!(rt; is_made_meanwhile(rt.alloc()));
}

// Whether no second file is made where the first one, which may say that the worksheet lies in it, can't be read.
fn makes_none_unread(alloc: Global) -> bool {
    let calls = over(alloc, There::First);
    calls.unreadable.set(true);
    opens(&calls, alloc, "s") == Err(FilesFault::Disk)
        && calls.end_in("look for s.alt\nread s 0 3\n")
}

#[test]
fn no_second_file_is_made_after_a_first_one_that_can_not_be_read(rt: HostRuntime) {
    assert!(rt; makes_none_unread(rt.alloc()));
}
