//! The two files of a worksheet, in folders of the tests' own.
use super::opened;
use super::programs::shows_path;
use journal::CreateCause;
use program_endings::{Ending, run_create};
use sheet_files::{FilesFault, MakeFault};
use std::fs::{File, Permissions};
use std::os::unix::fs::{PermissionsExt, symlink};
use std::{fs, io};

// What `create` lays on area First.
const EMPTY_SHEET: &[u8] = b"TMWSHEET\x01A\x00";

// An empty folder of this name.
fn folder(rt: &HostRuntime, name: &str) -> io::Result<()> {
    let _ = fs::remove_dir_all(rt, name);
    fs::create_dir(rt, name)
}

fn creates(rt: &HostRuntime, path: &str) -> Result<(), MakeFault> {
    match opened::create(rt, rt.alloc(), path) {
        Ok(_) => Ok(()),
        Err(why) => Err(why),
    }
}

fn opens(rt: &HostRuntime, path: &str) -> Result<(), FilesFault> {
    match opened::open(rt, rt.alloc(), path) {
        Ok(_) => Ok(()),
        Err(why) => Err(why),
    }
}

// What comes of a worksheet that is opened to read.
fn reads(rt: &HostRuntime, path: &str) -> Result<(), FilesFault> {
    match opened::open_to_read(rt, rt.alloc(), path) {
        Ok(_) => Ok(()),
        Err(why) => Err(why),
    }
}

// Whether the file has these bytes.
fn has(rt: &HostRuntime, path: &str, bytes: &[u8]) -> bool {
    match fs::read(rt, path) {
        Ok(found) => found.as_slice() == bytes,
        Err(_) => false,
    }
}

fn is_done(done: io::Result<()>) -> bool {
    done.is_ok()
}

fn is_there(rt: &HostRuntime, path: &str) -> bool {
    fs::symlink_metadata(rt, path).is_ok()
}

// Whether `create` ends so, and writes this on its errors.
fn create_ends(rt: &HostRuntime, path: &str, status: u8, said: &[u8]) -> bool {
    let mut errors: Vec<u8> = Vec::new(rt.alloc());
    let ended = run_create(opened::create(rt, rt.alloc(), path), &mut errors);
    let want = Ending {
        status,
        reported: true,
    };
    ended == want && errors.as_slice() == said
}

#[test]
fn create_makes_both_files(rt: HostRuntime) {
    assert!(rt; is_done(folder(&rt, "create_makes_both_files")));
    let path = "create_makes_both_files/sheet";
    assert!(rt; create_ends(&rt, path, 0, b""));
    assert!(rt; has(&rt, path, EMPTY_SHEET));
    assert!(rt; has(&rt, "create_makes_both_files/sheet.alt", b""));

    // A second time it is refused, and nothing is changed.
    assert!(rt; create_ends(&rt, path, 1, b"fault 34 NotEmpty\n"));
    assert!(rt; has(&rt, path, EMPTY_SHEET));
    assert!(rt; is_done(fs::remove_dir_all(&rt, "create_makes_both_files")));
}

// Files, folders and links that are there, for what is not created.
fn make_things(rt: &HostRuntime) -> io::Result<()> {
    folder(rt, "not_created")?;
    fs::write(rt, "not_created/first", b"x".as_slice())?;
    fs::write(rt, "not_created/second.alt", b"".as_slice())?;
    fs::create_dir(rt, "not_created/folder")?;
    fs::create_dir(rt, "not_created/other.alt")?;
    symlink(rt, "nowhere", "not_created/link")?;
    symlink(rt, "nowhere", "not_created/alias.alt")
}

// Whether nothing is created for this path, which has something, so that the other file isn't there.
fn is_not_created(rt: &HostRuntime, path: &str, missing: &str) -> bool {
    creates(rt, path) == Err(MakeFault::Create(CreateCause::NotEmpty)) && !is_there(rt, missing)
}

#[test]
fn what_is_there_is_not_created(rt: HostRuntime) {
    assert!(rt; is_done(make_things(&rt)));
    for (path, missing) in [
        ("not_created/first", "not_created/first.alt"),
        ("not_created/second", "not_created/second"),
        ("not_created/folder", "not_created/folder.alt"),
        ("not_created/other", "not_created/other"),
        ("not_created/link", "not_created/link.alt"),
        ("not_created/alias", "not_created/alias"),
    ] {
        assert!(rt; is_not_created(&rt, path, missing), "{path}");
    }
    assert!(rt; !is_there(&rt, "not_created/nowhere"));
    assert!(rt; has(&rt, "not_created/first", b"x"));
    assert!(rt; is_done(fs::remove_dir_all(&rt, "not_created")));
}

#[test]
fn what_can_not_be_made_is_a_fault_of_the_disk(rt: HostRuntime) {
    assert!(rt; is_done(folder(&rt, "not_made")));
    assert!(rt; is_done(fs::write(&rt, "not_made/file", b"x".as_slice())));
    let failed = Err(MakeFault::Create(CreateCause::Disk));
    for path in [
        "",
        "not_made/none/sheet",
        "not_made/file/sheet",
        "not_made/\0",
    ] {
        assert!(rt; creates(&rt, path) == failed, "{path:?}");
    }
    assert!(rt; !is_there(&rt, ".alt") && !is_there(&rt, "not_made/none"));
    assert!(rt; has(&rt, "not_made/file", b"x"));
    assert!(rt; is_done(fs::remove_dir_all(&rt, "not_made")));
}

// Whether the worksheet is opened, and has this second file then.
fn opens_with(rt: &HostRuntime, second: &[u8]) -> bool {
    opens(rt, "second_made/sheet") == Ok(()) && has(rt, "second_made/sheet.alt", second)
}

// Whether a worksheet whose first file is this is refused, and gets no second file.
fn is_refused_with(rt: &HostRuntime, first: &[u8]) -> bool {
    fs::write(rt, "second_lost/sheet", first).is_ok()
        && opens(rt, "second_lost/sheet") == Err(FilesFault::Disk)
        && has(rt, "second_lost/sheet", first)
        && !is_there(rt, "second_lost/sheet.alt")
}

// Whether one of which this is the first file gets a second one.
fn is_given_another(rt: &HostRuntime, first: &[u8]) -> bool {
    fs::write(rt, "second_lost/sheet", first).is_ok()
        && opens(rt, "second_lost/sheet") == Ok(())
        && is_there(rt, "second_lost/sheet.alt")
        && fs::remove_file(rt, "second_lost/sheet.alt").is_ok()
}

#[test]
fn a_second_file_that_was_lost_is_not_made(rt: HostRuntime) {
    assert!(rt; is_done(folder(&rt, "second_lost")));
    assert!(rt; is_refused_with(&rt, b"TMWSHEET\x01B\0"));
    assert!(rt; is_refused_with(&rt, b"TMWSHEET\x01BR"));
    assert!(rt; is_given_another(&rt, b"TMWSHEET\x01B"));
    assert!(rt; is_given_another(&rt, b"TMWSHEET\x01C\0"));
    assert!(rt; is_given_another(&rt, b"TMWSHEET\x02B\0"));
    assert!(rt; is_done(fs::remove_dir_all(&rt, "second_lost")));
}

#[test]
fn a_missing_second_file_is_made(rt: HostRuntime) {
    assert!(rt; is_done(folder(&rt, "second_made")));
    assert!(rt; is_done(fs::write(&rt, "second_made/sheet", EMPTY_SHEET)));
    assert!(rt; opens_with(&rt, b""));
    assert!(rt; has(&rt, "second_made/sheet", EMPTY_SHEET));

    // One that is there is left as it is.
    assert!(rt; is_done(fs::write(&rt, "second_made/sheet.alt", b"y".as_slice())));
    assert!(rt; opens_with(&rt, b"y"));
    assert!(rt; is_done(fs::remove_dir_all(&rt, "second_made")));
}

// Things that are no worksheet.
fn make_no_sheets(rt: &HostRuntime) -> io::Result<()> {
    folder(rt, "not_opened")?;
    fs::create_dir(rt, "not_opened/folder")?;
    fs::write(rt, "not_opened/sheet", EMPTY_SHEET)?;
    fs::create_dir(rt, "not_opened/sheet.alt")?;
    symlink(rt, "nowhere", "not_opened/link")
}

#[test]
fn what_can_not_be_opened_is_a_fault_of_the_disk(rt: HostRuntime) {
    assert!(rt; is_done(make_no_sheets(&rt)));
    for path in [
        "",
        "not_opened/none",
        "not_opened/folder",
        "not_opened/sheet",
        "not_opened/link",
        "not_opened/sheet/in",
        "not_opened/\0",
    ] {
        assert!(rt; opens(&rt, path) == Err(FilesFault::Disk), "{path:?}");
    }
    for made in [
        ".alt",
        "not_opened/none",
        "not_opened/none.alt",
        "not_opened/folder.alt",
        "not_opened/link.alt",
        "not_opened/nowhere",
    ] {
        assert!(rt; !is_there(&rt, made), "{made}");
    }
    assert!(rt; has(&rt, "not_opened/sheet", EMPTY_SHEET));
    assert!(rt; is_done(fs::remove_dir_all(&rt, "not_opened")));
}

// Whether the file is opened where it may be read and else is a fault, and then has no second one.
fn is_opened_or_not(rt: &HostRuntime, path: &str, second: &str) -> bool {
    let may_read = fs::read(rt, path).is_ok();
    let expected = if may_read {
        Ok(())
    } else {
        Err(FilesFault::Disk)
    };
    opens(rt, path) == expected && is_there(rt, second) == may_read
}

// A file without permissions is read by the superuser alone.
#[test]
fn a_file_that_may_not_be_read_is_not_opened(rt: HostRuntime) {
    assert!(rt; is_done(folder(&rt, "not_read")));
    assert!(rt; is_done(fs::write(&rt, "not_read/sheet", EMPTY_SHEET)));
    assert!(rt; is_done(fs::set_permissions(&rt, "not_read/sheet", Permissions::from_mode(0))));
    assert!(rt; is_opened_or_not(&rt, "not_read/sheet", "not_read/sheet.alt"));
    assert!(rt; is_done(fs::remove_dir_all(&rt, "not_read")));
}

// A new file of this length.
fn make_long(rt: &HostRuntime, path: &str, len: u64) -> io::Result<()> {
    let file = File::create(rt, path)?;
    file.set_len(len)
}

fn has_len(rt: &HostRuntime, path: &str, len: u64) -> bool {
    match fs::metadata(rt, path) {
        Ok(found) => found.len() == len,
        Err(_) => false,
    }
}

// It is looked at, and is no worksheet.
#[test]
fn a_file_as_long_as_the_room(rt: HostRuntime) {
    assert!(rt; is_done(folder(&rt, "as_long")));
    assert!(rt; is_done(make_long(&rt, "as_long/sheet", 2_147_483_648)));
    assert!(rt; shows_path(&rt, "as_long/sheet", 1, (b"", b"fault 31 NotASheet\n")));
    assert!(rt; is_done(fs::remove_dir_all(&rt, "as_long")));
}

#[test]
fn a_file_longer_than_the_room(rt: HostRuntime) {
    assert!(rt; is_done(folder(&rt, "too_long")));
    assert!(rt; is_done(make_long(&rt, "too_long/sheet", 2_147_483_649)));
    assert!(rt; shows_path(&rt, "too_long/sheet", 1, (b"", b"fault 32 Disk\n")));
    assert!(rt; has_len(&rt, "too_long/sheet", 2_147_483_649));
    assert!(rt; is_done(fs::remove_dir_all(&rt, "too_long")));
}

// What an opening to write and one to read answer while this disk is held.
fn beside<D: Drop>(
    rt: &HostRuntime,
    held: D,
    path: &str,
) -> (Result<(), FilesFault>, Result<(), FilesFault>) {
    let answers = (opens(rt, path), reads(rt, path));
    drop(held);
    answers
}

// Whether a worksheet that is made, or opened, is locked as long as it is held.
fn is_locked(rt: &HostRuntime, path: &str) -> Option<bool> {
    let both = (Err(FilesFault::InUse), Err(FilesFault::InUse));
    let made = opened::create(rt, rt.alloc(), path).ok()?;
    let beside_made = beside(rt, made, path);
    let opened = opened::open(rt, rt.alloc(), path).ok()?;
    let beside_opened = beside(rt, opened, path);
    let read = opened::open_to_read(rt, rt.alloc(), path).ok()?;
    let beside_read = beside(rt, read, path);
    let others_read = (Err(FilesFault::InUse), Ok(()));
    Some(beside_made == both && beside_opened == both && beside_read == others_read)
}

#[test]
fn a_worksheet_has_one_writer_or_readers(rt: HostRuntime) {
    assert!(rt; is_done(folder(&rt, "locked")));
    assert!(rt; is_locked(&rt, "locked/sheet") == Some(true));
    assert!(rt; opens(&rt, "locked/sheet") == Ok(()));
    assert!(rt; is_done(fs::remove_dir_all(&rt, "locked")));
}

// Worksheets that have a second name, or whose second file is another's or the first one.
fn make_shared_files(rt: &HostRuntime) -> io::Result<()> {
    folder(rt, "shared")?;
    fs::write(rt, "shared/sheet", EMPTY_SHEET)?;
    fs::hard_link(rt, "shared/sheet", "shared/name")?;
    fs::write(rt, "shared/same", EMPTY_SHEET)?;
    fs::hard_link(rt, "shared/same", "shared/same.alt")?;
    fs::write(rt, "shared/other", EMPTY_SHEET)?;
    fs::hard_link(rt, "shared/sheet", "shared/other.alt")?;
    fs::write(rt, "shared/linked", EMPTY_SHEET)?;
    symlink(rt, "linked", "shared/linked.alt")
}

#[test]
fn a_file_that_is_shared_is_not_opened(rt: HostRuntime) {
    assert!(rt; is_done(make_shared_files(&rt)));
    for path in [
        "shared/sheet",
        "shared/name",
        "shared/same",
        "shared/other",
        "shared/linked",
    ] {
        assert!(rt; opens(&rt, path) == Err(FilesFault::Disk), "{path}");
        assert!(rt; reads(&rt, path) == Err(FilesFault::Disk), "{path}");
    }
    assert!(rt; !is_there(&rt, "shared/sheet.alt") && !is_there(&rt, "shared/name.alt"));
    assert!(rt; is_done(fs::remove_dir_all(&rt, "shared")));
}

// Whether nothing is made, opened or read at this path, since a worksheet's second file has it.
fn is_second(rt: &HostRuntime, path: &str) -> bool {
    creates(rt, path) == Err(MakeFault::SecondFile)
        && opens(rt, path) == Err(FilesFault::SecondFile)
        && reads(rt, path) == Err(FilesFault::SecondFile)
}

#[test]
fn a_second_file_is_no_worksheet(rt: HostRuntime) {
    assert!(rt; is_done(folder(&rt, "second")));
    assert!(rt; is_done(fs::write(&rt, "second/sheet", EMPTY_SHEET)));
    assert!(rt; opens(&rt, "second/sheet") == Ok(()));
    assert!(rt; is_second(&rt, "second/sheet.alt"));
    assert!(rt; is_done(fs::remove_file(&rt, "second/sheet.alt")));
    assert!(rt; is_second(&rt, "second/sheet.alt"));
    assert!(rt; !is_there(&rt, "second/sheet.alt") && !is_there(&rt, "second/sheet.alt.alt"));
    assert!(rt; is_done(fs::write(&rt, "second/sheet", b"TMWSHEET\x02A\x00")));
    assert!(rt; creates(&rt, "second/sheet.alt") == Ok(()));
    assert!(rt; is_done(fs::remove_dir_all(&rt, "second")));
}

// Links in two folders to one worksheet.
fn make_links(rt: &HostRuntime) -> io::Result<()> {
    folder(rt, "links")?;
    fs::create_dir(rt, "links/far")?;
    fs::write(rt, "links/sheet", EMPTY_SHEET)?;
    symlink(rt, "../sheet", "links/far/link")?;
    symlink(rt, "far/link", "links/again")
}

#[test]
fn a_link_has_the_second_file_of_what_it_leads_to(rt: HostRuntime) {
    assert!(rt; is_done(make_links(&rt)));
    for path in ["links/far/link", "links/again"] {
        assert!(rt; opens(&rt, path) == Ok(()), "{path}");
        assert!(rt; reads(&rt, path) == Ok(()), "{path}");
    }
    assert!(rt; is_there(&rt, "links/sheet.alt"));
    assert!(rt; !is_there(&rt, "links/far/link.alt") && !is_there(&rt, "links/again.alt"));
    assert!(rt; is_done(fs::remove_dir_all(&rt, "links")));
}
