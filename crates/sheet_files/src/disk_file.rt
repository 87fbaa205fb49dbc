//! A file as a disk speaks to it.
ghost use Rattle.std.specs.Prelude.{◌≡◌, ◌+◌, ◌≤◌, ℕ, List, Result, length, take, drop, IfOk, OnOk, false};
ghost use Rattle.std.specs.declared.io.Error.{Error};
ghost use Rattle.disk_model.specs.Disk.{greatest_room};
ghost use Rattle.sheet_files.specs.DiskFile.{FileView, FileImage, FileSyncs, FileWrites, InFile, IsFresh, IsStill, Loses, Now, Passes, real_file};

use crate::SystemFile;
use std::io;

/// An open file, of which a disk asks five things, and how it was opened. A call that may change something
/// is given the moment at which it is made: the number of that call among all on the disk's files.
///
/// A file that keeps the model has a state at each moment: what a read gives, and what a crash may
/// leave. A real file keeps none, and nothing is claimed of what it holds; but that each look, read, write and sync
/// is one of the file itself, as the relations say.
pub trait DiskFile {
    /// The file as contracts see it.
    ghost view: { Self → FileView };

    /// A look at its length: the file before it, the answer, and the file after it.
    ghost measured: { Self → Result ℕ Error → Self → Type 0 };

    /// A read: the file before it, where it begins, the answer, what the buffer holds then, and the file after it.
    ghost got: { Self → ℕ → Result (Unit {0}) Error → List ℕ → Self → Type 0 };

    /// A write: the file before it, the bytes, where they go, the answer, and the file after it.
    ghost written: { Self → List ℕ → ℕ → Result (Unit {0}) Error → Self → Type 0 };

    /// A sync of its data: the file before it, the answer, and the file after it.
    ghost synced: { Self → Result (Unit {0}) Error → Self → Type 0 };

    /// The file, and from which moment on it says that nothing has happened to it.
    ghost began: { Self → Result ℕ Error → Type 0 };

    /// The file was let go as it is.
    ghost let_go: { Self → Type 0 };

    /// A moment from which on nothing has happened to the file. It fails where a sync of this
    /// opening has failed.
    fn begins(&self) -> io::Result<u64>
        ensures asked { began self.now result }
        ensures fresh { IfOk result (λ moment. IsFresh moment (view self.now)) };

    /// Whether it was opened to read alone. Only then may a sync that failed have had nothing to bring out.
    fn is_read_only(&self) -> bool
        ensures { result ≡ (view self.now).reads_only };

    /// Its length in bytes.
    fn len(&mut self) -> io::Result<u64>
        ensures asked { measured self.old result self.new }
        ensures same { view self.new ≡ view self.old }
        ensures length { InFile (view self.old) ((view self.old).lost ≡ false
            → IfOk result (λ n. Now (view self.old) (λ a. n ≡ length a.content))) };

    /// Fills the buffer with the bytes from `offset` on, where all of them are within the length.
    fn read(&mut self, buffer: &mut [u8], offset: u64) -> io::Result<()>
        ensures asked { got self.old offset result buffer.new self.new }
        ensures same { view self.new ≡ view self.old }
        ensures bytes { InFile (view self.old) ((view self.old).lost ≡ false
            → OnOk result (Now (view self.old)
            (λ a. offset + length buffer.old ≤ length a.content
            → buffer.new ≡ take (length buffer.old) (drop offset a.content)))) };

    /// Puts bytes over what stands at `offset`, and past the end. They begin at most at the length.
    fn write(&mut self, moment: u64, bytes: &[u8], offset: u64) -> io::Result<()>
        requires { IsStill moment (view self.old) }

        ensures asked { written self.old bytes.now offset result self.new }
        ensures passes { Passes moment (view self.old) (view self.new) }
        ensures sound { (view self.new).lost ≡ (view self.old).lost }
        ensures writes { InFile (view self.old)
            (offset ≤ length ((view self.old).before moment).content
            → offset + length bytes.now ≤ greatest_room
            → FileWrites offset bytes.now result
            ((view self.old).before moment) ((view self.new).before (moment + 1))) };

    /// Brings its data onto the disk.
    fn sync(&mut self, moment: u64) -> io::Result<()>
        requires { IsStill moment (view self.old) }

        ensures asked { synced self.old result self.new }
        ensures passes { Passes moment (view self.old) (view self.new) }
        ensures lost { Loses result (view self.old) (view self.new) }
        ensures syncs { InFile (view self.old) ((view self.old).lost ≡ false
            → FileSyncs (view self.old).reads_only result ((view self.old).before moment)
            ((view self.new).before (moment + 1))) };

    /// Lets it go, as the last of its calls.
    fn close(self)
        ensures { let_go self };

    /// What a read gives is one of the images that a crash may leave.
    ghost content_stays: { (file : Self)
        → InFile (view file) (Now (view file) (λ a. FileImage a a.content)) };
}

/// An open file of the system, and whether it was opened to read alone: the system's own doesn't tell.
#[derive(Drop)]
pub struct OpenedFile<F: Drop> {
    pub(crate) file: F,
    pub(crate) reads_only: bool,
}

/// Of its bytes nothing is claimed. Each call is one of the system's file, with the same answer, and none gets the moment.
impl<F: SystemFile + Drop> DiskFile for OpenedFile<F> {
    ghost use Rattle.std.specs.Prelude.{◌≡◌, Ok};
    ghost use Rattle.disk_model.specs.Disk.{unclaimed};

    ghost view = { λ opened. real_file opened.reads_only };

    ghost measured = { λ old result new. F.measures old.file result new.file };

    ghost got = { λ old offset result bytes new. F.gets old.file offset result bytes new.file };

    ghost written = { λ old bytes offset result new. F.puts old.file bytes offset result new.file };

    ghost synced = { λ old result new. F.flushes old.file result new.file };

    ghost began = { λ _ result. result ≡ Ok 0 };

    ghost let_go = { λ opened. F.ends opened.file };

    ghost content_stays = { λ _ kept. unclaimed kept };

    fn begins(&self) -> io::Result<u64> {
        Ok(0)
    }

    fn is_read_only(&self) -> bool {
        self.reads_only
    }

    fn len(&mut self) -> io::Result<u64> {
        self.file.measure()
    }

    fn read(&mut self, buffer: &mut [u8], offset: u64) -> io::Result<()> {
        self.file.get(buffer, offset)
    }

    fn write(&mut self, _moment: u64, bytes: &[u8], offset: u64) -> io::Result<()> {
        self.file.put(bytes, offset)
    }

    fn sync(&mut self, _moment: u64) -> io::Result<()> {
        self.file.flush_data()
    }

    fn close(self) {
        self.file.end();
    }
}
