//! Why a worksheet wasn't written in a format.
ghost use Rattle.std.specs.Prelude.{OnOk};
ghost use Rattle.std.specs.Io.KnownBytes.{Appends};
ghost use Rattle.sheet_export.specs.Formats as printed;

use crate::fixed::write_bytes;
use offline_programs::{RunFault, fault_text};
use sheet_text::WriteFault;
use std::io::Write;
use thiserror::Error;

/// Why a worksheet wasn't written in a format.
#[derive(Clone, Copy, Debug, PartialEq, Eq, Error)]
pub enum ExportFault {
    /// 36: a session has a word with a space, and no line of a script makes it, or there are more than
    /// 10,000 fields. Nothing was written.
    #[error("no script makes the worksheet")]
    NoScript,
    /// 30 to 33, and 35 where another program has the worksheet: its disk was not opened. 43: there was no
    /// memory for a notebook or for JSON. At these nothing was written. 42: the writer failed; a part of the
    /// text may have gone out.
    #[error("the worksheet was not written")]
    Run(RunFault),
}

/// Writes a fault on a line: `fault N NAME`, and after a damage the offset of its gate.
pub fn export_fault_text<W: Write>(fault: ExportFault, out: &mut W) -> Result<(), WriteFault>
    ensures { OnOk result
        (Appends (W.contents out.old) (W.contents out.new) (printed.export_fault_text fault)) }
{
    match fault {
        ExportFault::NoScript => write_bytes(b"fault 36 NoScript\n", out),
        ExportFault::Run(why) => fault_text(why, out),
    }
}
