//! The two files of a worksheet: their paths, and the real place in which they are made and opened.
ghost use Rattle.std.specs.Prelude.{◌≡◌, IfOk, string_bytes};
ghost use Rattle.sheet_files.specs.Names.{Brings, LocksBy, OpenedFor, second_name, tells_no_locks};
ghost use Rattle.sheet_files.specs.declared.sheet_file.Lock.TheVariants.{Exclusive};

use crate::holding::{ClosedStreams, Held, hold_closed};
use crate::outputs::is_output;
use crate::programs::is_there_to_start;
use crate::{HoldFault, Identity, Lock, Names, OpenedFile, SheetFile};
use journal::FIRST_OF_SECOND;
use std::alloc::{Alloc, Global};
use std::env::Env;
use std::fs::{OpenFile, OpenOptions, TryLockError};
use std::io::ErrorKind;
use std::os::unix::fs::FileExt;
use std::rt::Files;
use std::{fs, io, str};

/// What the path of the second file ends in, after that of the first one.
const ENDING: &str = ".alt";

/// How many bytes each first file of this version begins with: its header without the selector.
const MAGIC: usize = 9;

/// The path of area Second.
pub(crate) fn second_path(alloc: Global, path: &str) -> io::Result<String>
    ensures { IfOk result (λ second. string_bytes second ≡ second_name path.now) }
{
    let mut second = String::from_str(alloc, path)?;
    second.push_str(ENDING)?;
    Ok(second)
}

/// The folder in which a path stands, as a path.
pub fn folder_of(path: &str) -> &str {
    match path.rfind('/') {
        None => ".",
        Some(0) => "/",
        Some(end) => path.get(..end).unwrap_or("."),
    }
}

/// The path of the file that a path leads to, without a link in it, so that one file has one second
/// file. Where the system can't say it, as where it is no text, the path stands as it is: a link is
/// refused then by `open_plain`.
pub(crate) fn resolved<R: Files>(rt: &R, alloc: Global, path: &str) -> io::Result<String> {
    match rt.canonicalize(alloc, path) {
        Ok(found) => Ok(found.into_string()),
        Err(_) => Ok(String::from_str(alloc, path)?),
    }
}

/// Whether something has this name, a link that leads nowhere too.
fn is_there<R: Files>(rt: &R, path: &str) -> io::Result<bool> {
    match fs::symlink_metadata(rt, path) {
        Ok(_) => Ok(true),
        Err(error) if error.kind() == ErrorKind::NotFound => Ok(false),
        Err(error) => Err(error),
    }
}

/// Whether a file system says by this that it has no locks. One that has some and lends none, as a network file system whose lock
/// service is down (ENOLCK), doesn't: there another program may have the file.
fn has_no_locks(kind: ErrorKind) -> bool
    ensures { result ≡ tells_no_locks kind }
{
    matches!(kind, ErrorKind::Unsupported | ErrorKind::InvalidInput)
}

/// Takes a lock, and answers whether another has the file. A file system without locks has none that
/// could be held by another.
fn is_in_use<F: SheetFile>(file: &F, lock: Lock) -> io::Result<bool>
    ensures { LocksBy F.locked file.now lock result }
{
    match file.take_lock(lock) {
        Ok(()) => Ok(false),
        Err(TryLockError::WouldBlock) => Ok(true),
        Err(TryLockError::Error(error)) => {
            if has_no_locks(error.kind()) {
                return Ok(false);
            }
            Err(error)
        }
    }
}

/// Opens a plain file that is there: to read alone for a shared lock, else to write too. What is none
/// is refused before it is opened, since opening a pipe would wait for its other end; and so is one to which
/// the program's own output goes.
fn open_plain<R: Files>(rt: &R, path: &str, lock: Lock) -> io::Result<OpenedFile<R::File>>
    ensures { OpenedFor lock result }
{
    let found = fs::symlink_metadata(rt, path)?;
    if !found.is_file() || is_output(rt, &found) {
        return Err(io::Error::from(ErrorKind::InvalidInput));
    }
    let reads_only = matches!(lock, Lock::Shared);
    let file = OpenOptions::new()
        .read(true)
        .write(!reads_only)
        .open(rt, path)?;
    Ok(OpenedFile { file, reads_only })
}

/// Whether a file begins as each first file of this version does.
fn begins_sheet<F: FileExt>(file: &F) -> io::Result<bool> {
    let mut magic = [0; MAGIC];
    match file.read_exact_at(&mut magic, 0) {
        Ok(()) => Ok(FIRST_OF_SECOND.starts_with(&magic)),
        Err(error) if error.kind() == ErrorKind::UnexpectedEof => Ok(false),
        Err(error) => Err(error),
    }
}

/// Whether a worksheet's first file lies at a path. What is no plain file is none, nor is a link: the second
/// file stands beside what it leads to.
fn has_first<F: FileExt, R: Files<File = F>>(rt: &R, path: &str) -> io::Result<bool> {
    match open_plain(rt, path, Lock::Shared) {
        Ok(opened) => begins_sheet(&opened.file),
        Err(error) if matches!(error.kind(), ErrorKind::NotFound | ErrorKind::InvalidInput) => Ok(
            false,
        ),
        Err(error) => Err(error),
    }
}

/// Which file this is, where it is a plain one that has one name.
fn single<F: SheetFile>(file: &F) -> io::Result<Identity> {
    let identity = file.identity()?;
    if identity.is_plain && identity.names == 1 {
        Ok(identity)
    } else {
        Err(io::Error::from(ErrorKind::InvalidInput))
    }
}

/// Whether a first file says that its worksheet lies in the second one. It has a gate after that, as each
/// first file.
fn names_second<F: FileExt>(first: &F) -> io::Result<bool> {
    let mut header = [0; 11];
    match first.read_exact_at(&mut header, 0) {
        Ok(()) => Ok(header.starts_with(FIRST_OF_SECOND)),
        Err(error) if error.kind() == ErrorKind::UnexpectedEof => Ok(false),
        Err(error) => Err(error),
    }
}

/// Opens the folder of a path and brings it onto the disk.
fn bring_folder<F: SheetFile + Drop, R: Files<File = F>>(rt: &R, path: &str) -> io::Result<()>
    ensures { Brings F.brought result }
{
    let folder = OpenOptions::new().read(true).open(rt, folder_of(path))?;
    folder.bring()
}

/// The files that a runtime reaches, of a program that found these standard streams closed. Of what most of its calls do nothing
/// is claimed; but that a lock is asked for of the file in question, that a file or a folder is brought onto
/// the disk, and that a file which counts as opened to read alone was asked for so.
#[derive(Drop)]
pub struct FileNames<R: Files + Drop> {
    rt: R,
    closed: ClosedStreams,
    held: Option<Held<R::File>>,
}

impl<R: Files + Drop> FileNames<R> {
    /// No place of a stream is held as yet.
    pub fn new(rt: R, closed: ClosedStreams) -> FileNames<R> {
        FileNames {
            rt,
            closed,
            held: None,
        }
    }
}

impl<F: SheetFile + Drop, R: Files<File = F> + Env + Alloc + Drop> Names<OpenedFile<F>>
    for FileNames<R> {
    ghost holds = { λ _ _ _. Unit {0} };

    ghost leads = { λ _ _ _ _. Unit {0} };

    ghost is_second_file = { λ _ _ _ _. Unit {0} };

    ghost looks = { λ _ _ _ _. Unit {0} };

    ghost makes = { λ _ _ result _. OpenedFor Exclusive result };

    ghost opens = { λ _ _ lock result _. OpenedFor lock result };

    ghost locks = { λ _ opened lock result _. LocksBy F.locked opened.file lock result };

    ghost is_single = { λ _ _ _ _. Unit {0} };

    ghost are_two = { λ _ _ _ _ _. Unit {0} };

    ghost measures = { λ _ _ _ _. Unit {0} };

    ghost reads = { λ _ _ _ _. Unit {0} };

    ghost syncs = { λ _ opened result _. F.brought opened.file result };

    ghost syncs_folder = { λ _ _ result _. Brings F.brought result };

    ghost finds = { λ _ _ _. Unit {0} };

    fn hold(&mut self) -> Result<(), HoldFault> {
        self.held = Some(hold_closed(&self.rt, self.closed)?);
        Ok(())
    }

    fn resolve(&mut self, alloc: Global, path: &str) -> io::Result<String> {
        resolved(&self.rt, alloc, path)
    }

    fn is_second(&mut self, path: &str) -> io::Result<bool> {
        match path.strip_suffix(ENDING) {
            Some(first) => has_first(&self.rt, first),
            None => Ok(false),
        }
    }

    fn look(&mut self, path: &str) -> io::Result<bool> {
        is_there(&self.rt, path)
    }

    fn make(&mut self, path: &str) -> io::Result<OpenedFile<F>> {
        let file = OpenOptions::new()
            .read(true)
            .write(true)
            .create_new(true)
            .open(&self.rt, path)?;
        Ok(OpenedFile {
            file,
            reads_only: false,
        })
    }

    fn open(&mut self, path: &str, lock: Lock) -> io::Result<OpenedFile<F>> {
        open_plain(&self.rt, path, lock)
    }

    fn lock(&mut self, opened: &OpenedFile<F>, lock: Lock) -> io::Result<bool> {
        is_in_use(&opened.file, lock)
    }

    fn single(&mut self, opened: &OpenedFile<F>) -> io::Result<()> {
        single(&opened.file)?;
        Ok(())
    }

    fn two(&mut self, first: &OpenedFile<F>, second: &OpenedFile<F>) -> io::Result<()> {
        if single(&first.file)? == single(&second.file)? {
            return Err(io::Error::from(ErrorKind::InvalidInput));
        }
        Ok(())
    }

    fn length(&mut self, opened: &OpenedFile<F>) -> io::Result<u64> {
        Ok(opened.file.metadata()?.len())
    }

    fn names_second(&mut self, first: &OpenedFile<F>) -> io::Result<bool> {
        names_second(&first.file)
    }

    fn sync(&mut self, opened: &OpenedFile<F>) -> io::Result<()> {
        opened.file.bring()
    }

    fn sync_folder(&mut self, path: &str) -> io::Result<()> {
        bring_folder(&self.rt, path)
    }

    fn has_program(&self, name: &[u8]) -> bool {
        match str::from_utf8(name) {
            Ok(name) => is_there_to_start(&self.rt, name),
            Err(_) => true,
        }
    }
}
