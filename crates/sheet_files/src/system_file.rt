//! The system's calls on an open file.
ghost use Rattle.std.specs.Prelude.{◌≡◌, ℕ, List, Result, length};
ghost use Rattle.std.specs.declared.io.Error.{Error};

use std::fs::{File, OpenFile};
use std::io;
use std::os::unix::fs::FileExt;

/// An open file of the system. What a call did stands in a relation: the file before it, what it asks for, its
/// answer, and the file after it. Code that is generic over files has the relation by that call alone, so it can't
/// leave the call out, make another one or change its answer. The system's own files have `Unit` for each:
/// what stands in no clause is the one line of each call.
///
/// No call knows how many were made before it.
pub trait SystemFile {
    ghost measures: { Self → Result ℕ Error → Self → Type 0 };

    // The offset, the answer, and what the buffer holds then.
    ghost gets: { Self → ℕ → Result (Unit {0}) Error → List ℕ → Self → Type 0 };

    ghost puts: { Self → List ℕ → ℕ → Result (Unit {0}) Error → Self → Type 0 };

    ghost flushes: { Self → Result (Unit {0}) Error → Self → Type 0 };

    ghost ends: { Self → Type 0 };

    /// How long it is, in bytes.
    fn measure(&mut self) -> io::Result<u64>
        ensures { measures self.old result self.new };

    /// Fills the buffer with its bytes from `offset` on.
    fn get(&mut self, buffer: &mut [u8], offset: u64) -> io::Result<()>
        ensures filled { length buffer.new ≡ length buffer.old }
        ensures asked { gets self.old offset result buffer.new self.new };

    /// Puts all of these bytes at `offset`.
    fn put(&mut self, bytes: &[u8], offset: u64) -> io::Result<()>
        ensures { puts self.old bytes.now offset result self.new };

    /// Brings its data onto the disk.
    fn flush_data(&mut self) -> io::Result<()>
        ensures { flushes self.old result self.new };

    /// Lets it go.
    fn end(self)
        ensures { ends self };
}

impl SystemFile for File {
    ghost measures = { λ _ _ _. Unit {0} };

    ghost gets = { λ _ _ _ _ _. Unit {0} };

    ghost puts = { λ _ _ _ _ _. Unit {0} };

    ghost flushes = { λ _ _ _. Unit {0} };

    ghost ends = { λ _. Unit {0} };

    fn measure(&mut self) -> io::Result<u64> {
        Ok(self.metadata()?.len())
    }

    fn get(&mut self, buffer: &mut [u8], offset: u64) -> io::Result<()> {
        self.read_exact_at(buffer, offset)
    }

    fn put(&mut self, bytes: &[u8], offset: u64) -> io::Result<()> {
        self.write_all_at(bytes, offset)
    }

    fn flush_data(&mut self) -> io::Result<()> {
        self.sync_data()
    }

    fn end(self) {}
}
