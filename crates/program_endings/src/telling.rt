//! What a program tells that has no files of a worksheet, or no place of a stream.
ghost use Rattle.std.specs.Prelude.{◌≡◌, Err, OnOk};
ghost use Rattle.std.specs.Io.KnownBytes.{Appends};
ghost use Rattle.program_endings.specs.Ending.{TellsFault};
ghost use Rattle.program_endings.specs.Faults as printed;

use crate::seeing::Heard;
use crate::{Ending, end_program};
use journal::{CreateCause, OpenCause};
use offline_programs::{RunFault, Says};
use sheet_files::{FilesFault, HoldFault, MakeFault};
use sheet_text::WriteFault;
use std::io::Write;

/// The fault of a program that has no files of a worksheet.
pub(crate) fn no_files(why: FilesFault) -> RunFault
    ensures { result ≡ printed.no_files why }
{
    match why {
        FilesFault::InUse => RunFault::InUse,
        FilesFault::SecondFile => RunFault::SecondFile,
        FilesFault::Disk => RunFault::Open(OpenCause::Disk),
    }
}

/// The fault of a program that can't hold the place of a closed stream.
fn no_place(why: HoldFault) -> RunFault
    ensures { result ≡ printed.no_place why }
{
    match why {
        HoldFault::Input => RunFault::Input,
        HoldFault::Output => RunFault::Output,
    }
}

/// Ends a program that can't hold the place of a closed stream: the fault is printed on a line.
pub fn end_unheld<E: Says>(why: HoldFault, errors: &mut E) -> Ending
    ensures status { result.status ≡ 1 }
    ensures reported { TellsFault (⟦<E as Heard>⟧.said errors.old errors.new) result.reported
        (Err (printed.no_place why)) }
{
    end_program(Err(no_place(why)), errors)
}

/// Writes why no worksheet was made on a line: `fault N NAME`.
pub fn create_fault_text<W: Write>(why: MakeFault, out: &mut W) -> Result<(), WriteFault>
    ensures { OnOk result
        (Appends (W.contents out.old) (W.contents out.new) (printed.create_fault_text why)) }
{
    match why {
        MakeFault::Create(CreateCause::NotEmpty) => out.write_all(b"fault 34 NotEmpty\n"),
        MakeFault::Create(CreateCause::Disk) => out.write_all(b"fault 32 Disk\n"),
        MakeFault::InUse => out.write_all(b"fault 35 InUse\n"),
        MakeFault::SecondFile => out.write_all(b"fault 38 SecondFile\n"),
    }
    .map_err(|_| WriteFault)
}
