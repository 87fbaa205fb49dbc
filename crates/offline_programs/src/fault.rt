//! Why a program ended early.
ghost use Rattle.std.specs.Prelude.{OnOk};
ghost use Rattle.std.specs.Io.KnownBytes.{Appends};
ghost use Rattle.offline_programs.specs.Faults as printed;

use host_events::HostFault;
use journal::OpenCause;
use sheet_text::WriteFault;
use std::io::Write;
use thiserror::Error;

/// Why a program ended early. The numbers and names that it prints are those of `fault_text`.
#[derive(Clone, Copy, Debug, PartialEq, Eq, Error)]
pub enum RunFault {
    /// 40: the reader failed. Lines are read again after an interruption (crate `arrivals`); a stream that is read whole is not.
    #[error("the input could not be read")]
    Input,
    /// 41: the input has more than 67,108,864 bytes. Also where more would be taken together, numbered or counted than can be,
    /// to which no input within the limits comes.
    #[error("the input is too long")]
    InputTooLong,
    /// 42: the writer failed. A part of the text may have gone out.
    #[error("the output could not be written")]
    Output,
    /// 43: memory was refused.
    #[error("out of memory")]
    OutOfMemory,
    /// 20 to 23: the host had a fault.
    #[error("the host had a fault")]
    Host(HostFault),
    /// 30 to 33: the worksheet's disk was not opened.
    #[error("the worksheet was not opened")]
    Open(OpenCause),
    /// 35: another program has the worksheet. Nothing was done.
    #[error("the worksheet is in use")]
    InUse,
    /// 38: the path is that of a worksheet's second file. Nothing was done.
    #[error("this is the second file of a worksheet")]
    SecondFile,
}

fn host_fault_text<W: Write>(fault: HostFault, out: &mut W) -> Result<(), WriteFault>
    ensures { OnOk result
        (Appends (W.contents out.old) (W.contents out.new) (printed.host_fault_text fault)) }
{
    match fault {
        HostFault::Closed => out.write_all(b"fault 20 Closed\n"),
        HostFault::Disk => out.write_all(b"fault 21 Disk\n"),
        HostFault::OutOfMemory => out.write_all(b"fault 22 OutOfMemory\n"),
        HostFault::JournalFull => out.write_all(b"fault 23 JournalFull\n"),
    }
    .map_err(|_| WriteFault)
}

fn open_fault_text<W: Write>(cause: OpenCause, out: &mut W) -> Result<(), WriteFault>
    ensures { OnOk result
        (Appends (W.contents out.old) (W.contents out.new) (printed.open_fault_text cause)) }
{
    match cause {
        OpenCause::Damaged(gate) => writeln!(out, "fault 30 Damaged {gate}"),
        OpenCause::NotASheet => out.write_all(b"fault 31 NotASheet\n"),
        OpenCause::Disk => out.write_all(b"fault 32 Disk\n"),
        OpenCause::OutOfMemory => out.write_all(b"fault 33 OutOfMemory\n"),
    }
    .map_err(|_| WriteFault)
}

/// Writes a fault on a line: `fault N NAME`, and after a damage the offset of its gate.
pub fn fault_text<W: Write>(fault: RunFault, out: &mut W) -> Result<(), WriteFault>
    ensures { OnOk result
        (Appends (W.contents out.old) (W.contents out.new) (printed.fault_text fault)) }
{
    match fault {
        RunFault::Input => out.write_all(b"fault 40 Input\n").map_err(|_| WriteFault),
        RunFault::InputTooLong => {
            out.write_all(b"fault 41 InputTooLong\n")
                .map_err(|_| WriteFault)
        }
        RunFault::Output => out.write_all(b"fault 42 Output\n").map_err(|_| WriteFault),
        RunFault::OutOfMemory => out
            .write_all(b"fault 43 OutOfMemory\n")
            .map_err(|_| WriteFault),
        RunFault::Host(why) => host_fault_text(why, out),
        RunFault::Open(why) => open_fault_text(why, out),
        RunFault::InUse => out.write_all(b"fault 35 InUse\n").map_err(|_| WriteFault),
        RunFault::SecondFile => out
            .write_all(b"fault 38 SecondFile\n")
            .map_err(|_| WriteFault),
    }
}
