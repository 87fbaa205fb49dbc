//! Why an earlier worksheet can't be had.
ghost use Rattle.std.specs.Prelude.{OnOk};
ghost use Rattle.std.specs.Io.KnownBytes.{Appends};
ghost use Rattle.past.specs.Faults as printed;

use offline_programs::{RunFault, fault_text};
use sheet_text::WriteFault;
use std::io::Write;
use thiserror::Error;

/// Why an earlier worksheet can't be had.
#[derive(Clone, Copy, Debug, PartialEq, Eq, Error)]
pub enum PastFault {
    /// 39: the journal is whole, and has fewer changes than this.
    #[error("the worksheet has no change with this number")]
    NoChange(u64),
    /// 30: so many changes don't stand before the first damage. 31 to 33, 35 and 38: the disk was not opened.
    #[error("the worksheet was not read")]
    Run(RunFault),
}

/// Writes a fault on a line: `fault N NAME`, and after it the number of the change that there isn't, or the
/// offset of a damaged gate.
pub fn past_fault_text<W: Write>(fault: PastFault, out: &mut W) -> Result<(), WriteFault>
    ensures { OnOk result
        (Appends (W.contents out.old) (W.contents out.new) (printed.past_fault_text fault)) }
{
    match fault {
        PastFault::NoChange(number) => {
            writeln!(out, "fault 39 NoChange {number}").map_err(|_| WriteFault)
        }
        PastFault::Run(why) => fault_text(why, out),
    }
}
