//! The lines that programs say on their stream of errors, beside that of a `RunFault`.
ghost use Rattle.std.specs.Prelude.{Some};
ghost use Rattle.evaluation.specs.Faults as evaluated;
ghost use Rattle.past.specs.Faults as gone;
ghost use Rattle.program_endings.specs.Faults as printed;
ghost use Rattle.program_endings.specs.StrictProgram.{stopped_after_text, stopped_text};
ghost use Rattle.sheet_export.specs.Formats as exported;

use crate::create_fault_text;
use evaluation::{EvalFault, eval_fault_text};
use offline_programs::Message;
use past::{PastFault, past_fault_text};
use sheet_export::{ExportFault, export_fault_text};
use sheet_files::MakeFault;
use sheet_text::WriteFault;
use std::io::Write;

/// The line after which a strict run stopped, by its number, from 1.
#[derive(Clone, Copy)]
pub(crate) struct StoppedAt {
    pub line: u64,
}

impl Message for StoppedAt {
    ghost text = { λ at. Some (stopped_text at.line) };

    fn write<W: Write>(&self, out: &mut W) -> Result<(), WriteFault> {
        let number = self.line;
        writeln!(out, "stopped at line {number}").map_err(|_| WriteFault)
    }
}

/// The field after which a strict evaluation stopped, by its number.
#[derive(Clone, Copy)]
pub(crate) struct StoppedAfter {
    pub field: u32,
}

impl Message for StoppedAfter {
    ghost text = { λ after. Some (stopped_after_text after.field) };

    fn write<W: Write>(&self, out: &mut W) -> Result<(), WriteFault> {
        let number = self.field;
        writeln!(out, "stopped at field {number}").map_err(|_| WriteFault)
    }
}

/// Why no worksheet was made.
#[derive(Clone, Copy)]
pub(crate) struct NotMade {
    pub why: MakeFault,
}

impl Message for NotMade {
    ghost text = { λ made. Some (printed.create_fault_text made.why) };

    fn write<W: Write>(&self, out: &mut W) -> Result<(), WriteFault> {
        create_fault_text(self.why, out)
    }
}

/// Why a worksheet wasn't exported.
#[derive(Clone, Copy)]
pub(crate) struct NotExported {
    pub why: ExportFault,
}

impl Message for NotExported {
    ghost text = { λ made. Some (exported.export_fault_text made.why) };

    fn write<W: Write>(&self, out: &mut W) -> Result<(), WriteFault> {
        export_fault_text(self.why, out)
    }
}

/// Why an earlier worksheet can't be had.
#[derive(Clone, Copy)]
pub(crate) struct NoPast {
    pub why: PastFault,
}

impl Message for NoPast {
    ghost text = { λ past. Some (gone.past_fault_text past.why) };

    fn write<W: Write>(&self, out: &mut W) -> Result<(), WriteFault> {
        past_fault_text(self.why, out)
    }
}

/// Why no field was evaluated, or why an evaluation broke off.
#[derive(Clone, Copy)]
pub(crate) struct NotEvaluated {
    pub why: EvalFault,
}

impl Message for NotEvaluated {
    ghost text = { λ made. Some (evaluated.eval_fault_text made.why) };

    fn write<W: Write>(&self, out: &mut W) -> Result<(), WriteFault> {
        eval_fault_text(self.why, out)
    }
}
