//! What a worksheet asks of a file, beside that it is read, written and synced.
ghost use Rattle.std.specs.Prelude.{Result};
ghost use Rattle.std.specs.declared.fs.locks.TryLockError.{TryLockError};
ghost use Rattle.std.specs.declared.io.Error.{Error};

use crate::SystemFile;
use std::fs::{File, OpenFile, TryLockError};
use std::io;
use std::os::unix::fs::{FileExt, MetadataExt};

/// A lock on a whole file. It is advisory: it binds those alone who ask for it.
#[derive(Clone, Copy, Debug, PartialEq, Eq)]
pub enum Lock {
    /// Others may have this one too, and none may have the other.
    Shared,
    /// Nobody else has any.
    Exclusive,
}

/// Which file an open one is, and of what kind.
#[derive(Clone, Copy, Debug, PartialEq, Eq)]
pub struct Identity {
    /// The device that it lies on.
    pub device: u64,
    /// Its number on that device.
    pub number: u64,
    /// How many names it has: more than one where it has hard links, and none where it was removed.
    pub names: u64,
    /// Whether it is a plain file: no folder, device, pipe or socket.
    pub is_plain: bool,
}

/// An open file in which a worksheet can lie. That a lock was asked for, and that it was brought onto the disk as a
/// whole, stands in relations, as with the calls of `SystemFile`.
pub trait SheetFile: OpenFile + FileExt + SystemFile {
    ghost use Rattle.sheet_files.specs.declared.sheet_file.Lock.{Lock};

    ghost locked: { Self → Lock → Result (Unit {0}) TryLockError → Type 0 };

    ghost brought: { Self → Result (Unit {0}) Error → Type 0 };

    /// Takes a lock, without waiting for it. It is this open's own, so no other has it, and it goes
    /// when the file is closed, also by the end of a program that was killed. `WouldBlock` where
    /// another open has one that forbids it; another error where it can't be had, or where the file
    /// system has no locks.
    fn take_lock(&self, lock: Lock) -> Result<(), TryLockError>
        ensures { locked self.now lock result };

    /// Brings it onto the disk, with its length and what else the system keeps of it. Of a folder these are its names.
    fn bring(&self) -> io::Result<()>
        ensures { brought self.now result };

    /// Which file this is.
    fn identity(&self) -> io::Result<Identity>;
}

impl SheetFile for File {
    ghost locked = { λ _ _ _. Unit {0} };

    ghost brought = { λ _ _. Unit {0} };

    fn take_lock(&self, lock: Lock) -> Result<(), TryLockError> {
        match lock {
            Lock::Shared => self.try_lock_shared(),
            Lock::Exclusive => self.try_lock(),
        }
    }

    fn bring(&self) -> io::Result<()> {
        self.sync_all()
    }

    fn identity(&self) -> io::Result<Identity> {
        let found = self.metadata()?;
        Ok(Identity {
            device: found.dev(),
            number: found.ino(),
            names: found.nlink(),
            is_plain: found.is_file(),
        })
    }
}
