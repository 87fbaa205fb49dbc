//! Why an evaluation didn't come to its end.
ghost use Rattle.std.specs.Prelude.{OnOk};
ghost use Rattle.std.specs.Io.KnownBytes.{Appends};
ghost use Rattle.evaluation.specs.Faults as printed;

use offline_programs::{RunFault, fault_text};
use sheet_text::WriteFault;
use std::io::Write;
use tellings::write_named;
use worksheet::Name;

/// Why an evaluation didn't come to its end.
#[derive(Clone, Copy, Debug, PartialEq, Eq)]
pub enum EvalFault {
    /// 37: no field has this number, which was asked for. Nothing was evaluated or written.
    NoField(u32),
    /// 44: the program of this session, of which a field is to be evaluated, isn't there. Nothing was evaluated or
    /// written.
    NoProgram(Name),
    /// A fault that other programs have too.
    Run(RunFault),
}

/// Writes on a line that the program of this session isn't there.
fn no_program_text<W: Write>(name: Name, out: &mut W) -> Result<(), WriteFault>
    ensures { OnOk result (Appends (W.contents out.old) (W.contents out.new)
        (printed.no_program_text name)) }
{
    write_named(b"fault 44 NoProgram ", name, out).map_err(|_| WriteFault)
}

/// Writes a fault on a line: `fault N NAME`, and the number that no field has, or the session whose program isn't
/// there.
pub fn eval_fault_text<W: Write>(fault: EvalFault, out: &mut W) -> Result<(), WriteFault>
    ensures { OnOk result
        (Appends (W.contents out.old) (W.contents out.new) (printed.eval_fault_text fault)) }
{
    match fault {
        EvalFault::NoField(id) => writeln!(out, "fault 37 NoField {id}").map_err(|_| WriteFault),
        EvalFault::NoProgram(name) => no_program_text(name, out),
        EvalFault::Run(why) => fault_text(why, out),
    }
}
