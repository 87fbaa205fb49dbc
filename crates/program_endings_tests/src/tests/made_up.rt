//! Files that are made up: each call on them is listed, and they hold nothing.
use sheet_files::{Identity, Lock, SheetFile, SystemFile};
use std::alloc::{Allocator, Global};
use std::cell::{Cell, RefCell};
use std::env::{Env, FillError};
use std::fmt::Write;
use std::fs::{Metadata, OpenFile, OpenOptions, TryLockError};
use std::io;
use std::io::{ErrorKind, SeekFrom};
use std::os::unix::fs::FileExt;
use std::path::PathBuf;
use std::rt::Files;

/// The calls so far, a line each, and what becomes of the next ones.
#[derive(Drop)]
pub struct Calls {
    list: RefCell<String>,
    /// How many opens fail, from the next one on, and why.
    pub shut: Cell<u32>,
    pub shut_by: Cell<ErrorKind>,
    /// Whether each read fails.
    pub unreadable: Cell<bool>,
    /// What is there before a file is made.
    pub there: Cell<There>,
    /// Whether each sync fails, and why.
    pub stuck: Cell<Option<ErrorKind>>,
    /// Which sync fails alone: the next one is 1, and 0 is none.
    pub stuck_once: Cell<u32>,
    /// What becomes of a lock.
    pub locks: Cell<Locks>,
    /// How many names the first file of a worksheet has, and how many the second.
    pub names: Cell<(u64, u64)>,
    /// How long they are once they are open.
    pub lengths: Cell<(u64, u64)>,
    /// The numbers of these files.
    pub numbers: Cell<(u64, u64)>,
    /// Whether what was opened is a plain file.
    pub plain: Cell<bool>,
}

/// What a file system has before a file is made.
#[derive(Clone, Copy, PartialEq, Eq)]
pub enum There {
    /// No file.
    Nothing,
    /// Each file.
    All,
    /// Each but the second one of a worksheet.
    First,
    /// What is no plain file, at each path.
    Folders,
    /// The same at the path of the second file alone.
    SecondLink,
    /// Each file, and the path `link` leads to the path `far/sheet`.
    Linked,
    /// The same, but where it leads can't be found.
    Lost,
}

/// What becomes of a lock that is asked for.
#[derive(Clone, Copy, PartialEq, Eq)]
pub enum Locks {
    Free,
    Taken,
    /// The second file of a worksheet is taken alone.
    SecondTaken,
    /// The file system has none.
    None,
    /// It can't be had, for another reason.
    Failed,
}

impl Calls {
    /// No call as yet, and all are going to succeed.
    pub fn new(alloc: Global) -> Calls {
        Calls {
            list: RefCell::new(String::new(alloc)),
            shut: Cell::new(0),
            shut_by: Cell::new(ErrorKind::PermissionDenied),
            unreadable: Cell::new(false),
            there: Cell::new(There::Nothing),
            stuck: Cell::new(None),
            stuck_once: Cell::new(0),
            locks: Cell::new(Locks::Free),
            names: Cell::new((1, 1)),
            lengths: Cell::new((7, 7)),
            numbers: Cell::new((8, 9)),
            plain: Cell::new(true),
        }
    }

    fn note(&self, what: &str, path: &str) {
        if let Ok(mut list) = self.list.try_borrow_mut() {
            let _ = writeln!(list, "{what} {path}");
        }
    }

    fn note_bytes(&self, what: &str, path: &str, offset: u64, count: usize) {
        if let Ok(mut list) = self.list.try_borrow_mut() {
            let _ = writeln!(list, "{what} {path} {offset} {count}");
        }
    }

    /// Whether these are the calls.
    pub fn are(&self, lines: &str) -> bool {
        match self.list.try_borrow() {
            Ok(list) => list.as_str() == lines,
            Err(_) => false,
        }
    }

    /// Whether the last calls are these.
    pub fn end_in(&self, lines: &str) -> bool {
        match self.list.try_borrow() {
            Ok(list) => list.as_str().ends_with(lines),
            Err(_) => false,
        }
    }

    // Whether this open fails.
    fn is_shut(&self) -> bool {
        let shut = self.shut.get();
        self.shut.set(shut.saturating_sub(1));
        shut > 0
    }

    // What stands at a path.
    fn found(&self, path: &str) -> io::Result<Metadata> {
        let second = path.ends_with(".alt");
        match self.there.get() {
            There::Nothing => Err(io::Error::from(ErrorKind::NotFound)),
            There::First if second => Err(io::Error::from(ErrorKind::NotFound)),
            There::SecondLink if second => Ok(Metadata::of_symlink(3)),
            There::Linked | There::Lost if path == "link" => Ok(Metadata::of_symlink(9)),
            There::Folders => Ok(Metadata::of_dir()),
            There::All | There::First | There::SecondLink | There::Linked | There::Lost => {
                Ok(Metadata::of_file(7))
            }
        }
    }

    // Where a path leads.
    fn leads<'b>(&self, path: &'b str) -> io::Result<&'b str> {
        match self.there.get() {
            There::Lost => Err(io::Error::from(ErrorKind::InvalidData)),
            There::Linked if path == "link" => Ok("far/sheet"),
            _ => Ok(path),
        }
    }

    fn answer(&self) -> io::Result<()> {
        let at = self.stuck_once.get();
        self.stuck_once.set(at.saturating_sub(1));
        match self.stuck.get() {
            Some(why) => Err(io::Error::from(why)),
            None if at == 1 => Err(io::Error::from(ErrorKind::Other)),
            None => Ok(()),
        }
    }
}

/// A runtime that has such files.
#[derive(Clone, Copy, Drop)]
pub struct MadeUp<'a> {
    pub alloc: Global,
    pub calls: &'a Calls,
}

/// One of its files, open.
#[derive(Drop)]
pub struct MadeUpFile<'a> {
    path: String,
    calls: &'a Calls,
}

impl MadeUpFile<'_> {
    // Whether it is the second file of a worksheet.
    fn is_second(&self) -> bool {
        self.path.as_str().ends_with(".alt")
    }
}

// What an open asks for.
fn verb(how: &OpenOptions) -> &'static str {
    if how.asks_create_new() {
        "make"
    } else if how.asks_create() {
        "open or make"
    } else if how.asks_read() && how.asks_write() {
        "open"
    } else if how.asks_read() {
        "open to read"
    } else {
        "open to write"
    }
}

pub fn unsupported<T>() -> io::Result<T> {
    Err(io::Error::from(ErrorKind::Unsupported))
}

/// It has no words and no environment.
impl Env for MadeUp<'_> {
    fn arg(&self, _i: usize, _buf: &mut [u8]) -> Result<usize, FillError> {
        Err(FillError::NotPresent)
    }

    fn var(&self, _name: &str, _buf: &mut [u8]) -> Result<usize, FillError> {
        Err(FillError::NotPresent)
    }

    fn var_at(&self, _i: usize, _buf: &mut [u8]) -> Result<usize, FillError> {
        Err(FillError::NotPresent)
    }
}

impl<'a> Files for MadeUp<'a> {
    type File = MadeUpFile<'a>;

    type Dir = MadeUpFile<'a>;

    fn open_file(&self, how: &OpenOptions, path: &str) -> io::Result<MadeUpFile<'a>> {
        self.calls.note(verb(how), path);
        if self.calls.is_shut() {
            return Err(io::Error::from(self.calls.shut_by.get()));
        }
        Ok(MadeUpFile {
            path: String::from_str(self.alloc, path)?,
            calls: self.calls,
        })
    }

    fn open_dir(&self, _path: &str) -> io::Result<MadeUpFile<'a>> {
        unsupported()
    }

    fn metadata(&self, _path: &str) -> io::Result<Metadata> {
        unsupported()
    }

    fn symlink_metadata(&self, path: &str) -> io::Result<Metadata> {
        self.calls.note("look for", path);
        self.calls.found(path)
    }

    fn canonicalize<B: Allocator>(&self, alloc: B, path: &str) -> io::Result<PathBuf<B>> {
        self.calls.note("follow", path);
        Ok(PathBuf::from_str(alloc, self.calls.leads(path)?)?)
    }

    fn copy(&self, _from: &str, _to: &str) -> io::Result<u64> {
        unsupported()
    }

    fn rename(&self, _from: &str, _to: &str) -> io::Result<()> {
        unsupported()
    }

    fn remove_file(&self, _path: &str) -> io::Result<()> {
        unsupported()
    }

    fn create_dir(&self, _path: &str) -> io::Result<()> {
        unsupported()
    }

    fn remove_dir(&self, _path: &str) -> io::Result<()> {
        unsupported()
    }

    fn remove_dir_all<B: Allocator>(&self, _alloc: B, _path: &str) -> io::Result<()> {
        unsupported()
    }
}

impl OpenFile for MadeUpFile<'_> {
    fn metadata(&self) -> io::Result<Metadata> {
        self.calls.note("measure", self.path.as_str());
        let (first, second) = self.calls.lengths.get();
        Ok(Metadata::of_file(if self.is_second() { second } else { first }))
    }

    fn set_len(&self, _size: u64) -> io::Result<()> {
        unsupported()
    }

    fn sync_all(&self) -> io::Result<()> {
        self.calls.note("sync", self.path.as_str());
        self.calls.answer()
    }

    fn sync_data(&self) -> io::Result<()> {
        self.calls.note("sync the data of", self.path.as_str());
        self.calls.answer()
    }
}

impl SheetFile for MadeUpFile<'_> {
    ghost locked = { λ _ _ _. Unit {0} };

    ghost brought = { λ _ _. Unit {0} };

    fn bring(&self) -> io::Result<()> {
        self.sync_all()
    }

    fn take_lock(&self, lock: Lock) -> Result<(), TryLockError> {
        let what = match lock {
            Lock::Shared => "lock to read",
            Lock::Exclusive => "lock",
        };
        self.calls.note(what, self.path.as_str());
        match self.calls.locks.get() {
            Locks::Free => Ok(()),
            Locks::SecondTaken if !self.is_second() => Ok(()),
            Locks::Taken | Locks::SecondTaken => Err(TryLockError::WouldBlock),
            Locks::None => Err(TryLockError::Error(io::Error::from(ErrorKind::Unsupported))),
            Locks::Failed => Err(TryLockError::Error(io::Error::from(ErrorKind::Other))),
        }
    }

    fn identity(&self) -> io::Result<Identity> {
        self.calls.note("identify", self.path.as_str());
        let second = self.is_second();
        let (names, others) = self.calls.names.get();
        let (number, other) = self.calls.numbers.get();
        Ok(Identity {
            device: 1,
            number: if second { other } else { number },
            names: if second { others } else { names },
            is_plain: self.calls.plain.get(),
        })
    }
}

// Nothing is claimed of what it holds, as of a real file.
impl SystemFile for MadeUpFile<'_> {
    ghost measures = { λ _ _ _. Unit {0} };

    ghost gets = { λ _ _ _ _ _. Unit {0} };

    ghost puts = { λ _ _ _ _ _. Unit {0} };

    ghost flushes = { λ _ _ _. Unit {0} };

    ghost ends = { λ _. Unit {0} };

    fn measure(&mut self) -> io::Result<u64> {
        Ok(self.metadata()?.len())
    }

    fn get(&mut self, buffer: &mut [u8], offset: u64) -> io::Result<()> {
        self.read_exact_at(buffer, offset)
    }

    fn put(&mut self, bytes: &[u8], offset: u64) -> io::Result<()> {
        self.write_all_at(bytes, offset)
    }

    fn flush_data(&mut self) -> io::Result<()> {
        self.sync_data()
    }

    fn end(self) {}
}

// At most three bytes at a time.
impl FileExt for MadeUpFile<'_> {
    fn read_at(&self, buf: &mut [u8], offset: u64) -> io::Result<usize> {
        let count = buf.len().min(3);
        self.calls
            .note_bytes("read", self.path.as_str(), offset, count);
        if self.calls.unreadable.get() {
            return Err(io::Error::from(ErrorKind::Other));
        }
        Ok(count)
    }

    fn write_at(&self, buf: &[u8], offset: u64) -> io::Result<usize> {
        let count = buf.len().min(3);
        self.calls
            .note_bytes("write", self.path.as_str(), offset, count);
        Ok(count)
    }
}

impl io::Read for MadeUpFile<'_> {
    fn read(&mut self, _buf: &mut [u8]) -> io::Result<usize> {
        Err(io::Error::from(ErrorKind::Unsupported))
    }
}

impl io::Write for MadeUpFile<'_> {
    fn write(&mut self, _buf: &[u8]) -> io::Result<usize> {
        Err(io::Error::from(ErrorKind::Unsupported))
    }

    fn flush(&mut self) -> io::Result<()> {
        unsupported()
    }
}

impl io::Seek for MadeUpFile<'_> {
    fn seek(&mut self, _to: SeekFrom) -> io::Result<u64> {
        unsupported()
    }
}
