//! A disk that a program ends with by closing it.
use crate::{DiskFile, FileDisk};
use disk_model::{Disk, FuseDisk, MemoryDisk};

/// A disk that is closed when a program has done with it.
///
/// A disk that is dropped leaves no contract anything to speak of. That one was closed, and as which, the
/// relation says: generic code has it of a disk by that call alone, and can do nothing to the disk after it.
/// So a contract that says of the closed disk what was done to it says so of all that the program did.
pub trait Close: Disk {
    /// The disk was closed as it is.
    ghost closed: { Self → Type 0 };

    /// Ends with the disk. What it holds is let go, files and their locks.
    fn close(self)
        ensures { closed self };
}

/// Both files are let go as they are, the locks on them too.
impl<F: DiskFile + Drop> Close for FileDisk<F> {
    ghost use Rattle.sheet_files.specs.DiskFile.{LetGo};

    ghost closed = { λ disk. LetGo F.let_go disk.first disk.second };

    fn close(self) {
        self.close_files();
    }
}

impl Close for MemoryDisk {
    ghost closed = { λ _. Unit {0} };

    fn close(self) {}
}

impl<D: Close> Close for FuseDisk<D> {
    ghost closed = { λ _. Unit {0} };

    fn close(self) {}
}
