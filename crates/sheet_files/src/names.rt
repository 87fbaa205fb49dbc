//! A place of files, as a worksheet's two files are made and opened there.
ghost use Rattle.std.specs.Prelude.{ℕ, List, Bool, Result, IfOk, string_bytes};
ghost use Rattle.std.specs.declared.io.Error.{Error};
ghost use Rattle.sheet_files.specs.declared.files_fault.HoldFault.{HoldFault};
ghost use Rattle.sheet_files.specs.declared.sheet_file.Lock.{Lock};

use crate::{HoldFault, Lock};
use std::alloc::Global;
use std::io;

/// A place of files. What its calls do stands in relations: the place before a call, what it asks for,
/// its answer, and the place after it. A real place, of which nothing is claimed, has `Unit` for each.
///
/// Who opens files over any place has nothing else to do with a file: it can be neither read nor
/// written, synced or locked but by these calls.
pub trait Names<F> {
    ghost holds: { Self → Result (Unit {0}) HoldFault → Self → Type 0 };

    ghost leads: { Self → List ℕ → List ℕ → Self → Type 0 };

    ghost is_second_file: { Self → List ℕ → Result Bool Error → Self → Type 0 };

    ghost looks: { Self → List ℕ → Result Bool Error → Self → Type 0 };

    ghost makes: { Self → List ℕ → Result F Error → Self → Type 0 };

    ghost opens: { Self → List ℕ → Lock → Result F Error → Self → Type 0 };

    ghost locks: { Self → F → Lock → Result Bool Error → Self → Type 0 };

    ghost is_single: { Self → F → Result (Unit {0}) Error → Self → Type 0 };

    ghost are_two: { Self → F → F → Result (Unit {0}) Error → Self → Type 0 };

    ghost measures: { Self → F → Result ℕ Error → Self → Type 0 };

    ghost reads: { Self → F → Result Bool Error → Self → Type 0 };

    ghost syncs: { Self → F → Result (Unit {0}) Error → Self → Type 0 };

    ghost syncs_folder: { Self → List ℕ → Result (Unit {0}) Error → Self → Type 0 };

    ghost finds: { Self → List ℕ → Bool → Type 0 };

    /// Sees to it that no file takes the place of a closed standard stream.
    fn hold(&mut self) -> Result<(), HoldFault>
        ensures { holds self.old result self.new };

    /// The path of the file that a path leads to, without a link in it.
    fn resolve(&mut self, alloc: Global, path: &str) -> io::Result<String>
        ensures { IfOk result (λ found. leads self.old path.now (string_bytes found) self.new) };

    /// Whether this is the path of a worksheet's second file: it ends in `.alt`, and at the path without
    /// that ending lies a worksheet's first file.
    fn is_second(&mut self, path: &str) -> io::Result<bool>
        ensures { is_second_file self.old path.now result self.new };

    /// Whether something has this name, a link that leads nowhere too.
    fn look(&mut self, path: &str) -> io::Result<bool>
        ensures { looks self.old path.now result self.new };

    /// Makes a file, to read and to write. One that is there is refused.
    fn make(&mut self, path: &str) -> io::Result<F>
        ensures { makes self.old path.now result self.new };

    /// Opens a plain file that is there: to read alone for a shared lock, else to write too.
    fn open(&mut self, path: &str, lock: Lock) -> io::Result<F>
        ensures { opens self.old path.now lock result self.new };

    /// Takes a lock, and answers whether another has the file.
    fn lock(&mut self, file: &F, lock: Lock) -> io::Result<bool>
        ensures { locks self.old file.now lock result self.new };

    /// Sees to it that a file is a plain one that has one name.
    fn single(&mut self, file: &F) -> io::Result<()>
        ensures { is_single self.old file.now result self.new };

    /// Sees to it that two files are two, each of which has one name.
    fn two(&mut self, first: &F, second: &F) -> io::Result<()>
        ensures { are_two self.old first.now second.now result self.new };

    /// How long a file is, in bytes.
    fn length(&mut self, file: &F) -> io::Result<u64>
        ensures { measures self.old file.now result self.new };

    /// Reads of a first file whether its worksheet lies in the second one.
    fn names_second(&mut self, first: &F) -> io::Result<bool>
        ensures { reads self.old first.now result self.new };

    /// Brings a file onto the disk.
    fn sync(&mut self, file: &F) -> io::Result<()>
        ensures { syncs self.old file.now result self.new };

    /// Brings the names of the folder of this path onto the disk.
    fn sync_folder(&mut self, path: &str) -> io::Result<()>
        ensures { syncs_folder self.old path.now result self.new };

    /// Whether there is a program of this name to start, as a start looks for it. Where that can't be found out it
    /// counts as there.
    fn has_program(&self, name: &[u8]) -> bool
        ensures { finds self.now name.now result };
}
