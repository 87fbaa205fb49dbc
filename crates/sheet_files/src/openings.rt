//! How a disk has a worksheet's two files of a place: by calls that give both, or a fault and none.
ghost use Rattle.std.specs.Prelude.{◌≡◌, ℕ, Bool, IfOk, List, Result, string_bytes};
ghost use Rattle.sheet_files.specs.Names.{second_name};
ghost use Rattle.sheet_files.specs.declared.files_fault.FilesFault.{FilesFault};
ghost use Rattle.sheet_files.specs.declared.files_fault.HoldFault.{HoldFault};
ghost use Rattle.sheet_files.specs.declared.files_fault.MakeFault.{MakeFault};
ghost use Rattle.sheet_files.specs.declared.openings.Pair.{Pair};

use crate::pairing::second_path;
use crate::{FilesFault, HoldFault, MakeFault, Names, opening};
use std::alloc::Global;
use std::io;

/// A worksheet's files. Of one that is only read the second may be missing.
#[derive(Drop)]
pub struct Pair<F: Drop> {
    pub first: F,
    pub second: Option<F>,
}

/// A place of files as a disk uses it. At a fault it gives no file, and files are had in no other way. So whoever can write files and has
/// this place alone has none to write where an opening answers a fault.
///
/// Each place of files is one (`Names`): what it does there is generic over files that can neither be read nor written.
pub trait Openings<F: Drop> {
    ghost holds: { Self → Result (Unit {0}) HoldFault → Self → Type 0 };

    ghost makes_pair: { Self → List ℕ → Result (Pair F) MakeFault → Self → Type 0 };

    ghost opens_pair: { Self → List ℕ → Result (Pair F) FilesFault → Self → Type 0 };

    ghost reads_pair: { Self → List ℕ → Result (Pair F) FilesFault → Self → Type 0 };

    ghost finds: { Self → List ℕ → Bool → Type 0 };

    /// Sees to it that no file takes the place of a closed standard stream.
    fn hold_places(&mut self) -> Result<(), HoldFault>
        ensures { holds self.old result self.new };

    /// Makes both files.
    fn make_pair(&mut self, alloc: Global, path: &str) -> Result<Pair<F>, MakeFault>
        ensures { makes_pair self.old path.now result self.new };

    /// Opens both files to be written.
    fn open_pair(&mut self, alloc: Global, path: &str) -> Result<Pair<F>, FilesFault>
        ensures { opens_pair self.old path.now result self.new };

    /// Opens the files to read alone.
    fn read_pair(&mut self, alloc: Global, path: &str) -> Result<Pair<F>, FilesFault>
        ensures { reads_pair self.old path.now result self.new };

    /// Whether there is a program of this name to start.
    fn is_program(&self, name: &[u8]) -> bool
        ensures { finds self.now name.now result };
}

/// The path of the file that a path leads to, and the one of the second file beside that.
fn found_paths<F, N: Names<F>>(
    names: &mut N,
    alloc: Global,
    path: &str,
) -> io::Result<(String, String)>
    ensures found { IfOk result (λ paths. N.leads names.old path.now (string_bytes paths.0) names.new) }
    ensures second { IfOk result (λ paths. string_bytes paths.1
        ≡ second_name (string_bytes paths.0)) }
{
    let found = names.resolve(alloc, path)?;
    let second = second_path(alloc, found.as_str())?;
    Ok((found, second))
}

impl<F: Drop, N: Names<F>> Openings<F> for N {
    ghost use Rattle.std.specs.Prelude.{IfOk};
    ghost use Rattle.sheet_files.specs.Names.{DiskMade, DiskOpened, DiskRead};

    ghost holds = { λ old result new. N.holds old result new };

    ghost makes_pair = { λ old path result new. IfOk result (λ pair. DiskMade N.Names path pair.first pair.second old new) };

    ghost opens_pair = { λ old path result new. IfOk result (λ pair. DiskOpened N.Names path pair.first pair.second old new) };

    ghost reads_pair = { λ old path result new. IfOk result (λ pair. DiskRead N.Names path pair.first pair.second old new) };

    ghost finds = { λ place name is_there. N.finds place name is_there };

    fn hold_places(&mut self) -> Result<(), HoldFault> {
        self.hold()
    }

    fn make_pair(&mut self, alloc: Global, path: &str) -> Result<Pair<F>, MakeFault> {
        let alt = second_path(alloc, path)?;
        let (first, second) = opening::create(self, path, alt.as_str())?;
        Ok(Pair {
            first,
            second: Some(second),
        })
    }

    fn open_pair(&mut self, alloc: Global, path: &str) -> Result<Pair<F>, FilesFault> {
        let (path, alt) = found_paths(self, alloc, path)?;
        let (first, second) = opening::open(self, path.as_str(), alt.as_str())?;
        Ok(Pair {
            first,
            second: Some(second),
        })
    }

    fn read_pair(&mut self, alloc: Global, path: &str) -> Result<Pair<F>, FilesFault> {
        let (path, alt) = found_paths(self, alloc, path)?;
        let (first, second) = opening::open_to_read(self, path.as_str(), alt.as_str())?;
        Ok(Pair { first, second })
    }

    fn is_program(&self, name: &[u8]) -> bool {
        self.has_program(name)
    }
}
