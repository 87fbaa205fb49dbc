//! A check of several worksheets: what is written beside the report of each, and how it ends.
ghost use Rattle.std.specs.Prelude.{◌≡◌, ◌++◌, ◌∷◌, ◌+◌, ◌<◌, ◌^◌, ◌&&◌, ◌==◌, [], Err, List, OnOk};
ghost use Rattle.std.specs.Io.KnownBytes.{Appends};
ghost use Rattle.offline_programs.specs.declared.fault.RunFault.TheVariants as fault;
ghost use Rattle.sheet_check.specs.declared.named.CheckFault.TheVariants as checks;
ghost use Rattle.check_report.specs.Words.{errors_part, new_part};
ghost use Rattle.program_endings.specs.Ending.{EndsAs};
ghost use Rattle.program_endings.specs.SeveralProgram.{IsBounded, TotalEnds, ending_of, faults_part, summed_part, total_of, total_text, worksheet_line};
ghost use Rattle.program_endings.specs.SeveralProgram as several;
ghost use Rattle.program_endings.specs.inside.Totals as inside;
ghost use Rattle.program_endings.specs.declared.check_program.CheckEnding.{CheckEnding};
ghost use Rattle.program_endings.specs.declared.ending.Ending.{Ending};

use crate::check_program::CheckEnding;
use crate::ending::ended;
use crate::seeing::{Both, Heard};
use crate::{Ending, end_program};
use check_report::{VerdictCounts, write_and_flush};
use offline_programs::{RunFault, Says};
use sheet_check::CheckFault;
use sheet_text::{WriteFault, write_line};
use std::io::Write;

/// What the checks of several worksheets came to, one after another.
// No type says how many words there may be, so sums of 32 bits take more than 64.
#[derive(Clone, Copy, Debug, PartialEq, Eq)]
pub struct Total {
    /// How many worksheets they are.
    pub worksheets: u64,
    /// Fields whose output is the one that they show.
    pub same: u128,
    /// Fields whose output is another.
    pub differ: u128,
    /// Fields to which no answer came.
    pub unanswered: u128,
    /// Fields whose answer that came is an error, or has one in it.
    pub errors: u128,
    /// How many answers came to fields that show none.
    pub new: u128,
    /// Worksheets whose check met a fault; their fields aren't counted.
    pub faults: u64,
    /// Whether the check of each ended well.
    pub passed: bool,
    /// Whether all that each had to say went out.
    pub reported: bool,
}

impl Total {
    /// Of no worksheet.
    pub fn none() -> Total
        ensures total { result ≡ total_of [] }
        ensures bounded { IsBounded result }
    {
        Total {
            worksheets: 0,
            same: 0,
            differ: 0,
            unanswered: 0,
            errors: 0,
            new: 0,
            faults: 0,
            passed: true,
            reported: true,
        }
    }

    /// Whether each ended well, and one more too.
    fn passes(self, ending: Ending) -> bool
        ensures { result ≡ (self.passed && (ending.status == 0)) }
    {
        self.passed && ending.status == 0
    }

    /// With the counts of one worksheet more.
    fn with_counts(self, counts: VerdictCounts, ending: Ending) -> Total
        requires bounded { IsBounded self }
        requires few { self.worksheets < 2 ^ 63 }
        ensures counted { result ≡ inside.with_counts counts ending self }
        ensures bounded { IsBounded result }
    {
        Total {
            worksheets: self.worksheets + 1,
            same: self.same + u128::from(counts.same),
            differ: self.differ + u128::from(counts.differ),
            unanswered: self.unanswered + u128::from(counts.unanswered),
            errors: self.errors + u128::from(counts.errors),
            new: self.new + u128::from(counts.new),
            faults: self.faults,
            passed: self.passes(ending),
            reported: self.reported && ending.reported,
        }
    }

    /// With one worksheet more, whose check met a fault.
    fn with_fault(self, ending: Ending) -> Total
        requires bounded { IsBounded self }
        requires few { self.worksheets < 2 ^ 63 }
        ensures counted { result ≡ inside.with_fault ending self }
        ensures bounded { IsBounded result }
    {
        Total {
            worksheets: self.worksheets + 1,
            same: self.same,
            differ: self.differ,
            unanswered: self.unanswered,
            errors: self.errors,
            new: self.new,
            faults: self.faults + 1,
            passed: self.passes(ending),
            reported: self.reported && ending.reported,
        }
    }

    /// With one worksheet more, whose check ended so.
    #[tactic(auto, using(crate::proofs::Totals::more))]
    pub fn with(self, end: CheckEnding) -> Total
        requires bounded { IsBounded self }
        requires few { self.worksheets < 2 ^ 63 }
        ensures total { (ends : List CheckEnding) → self ≡ total_of ends
            → result ≡ total_of (ends ++ end ∷ []) }
        ensures number { result.worksheets ≡ self.worksheets + 1 }
        ensures bounded { IsBounded result }
    {
        match end.answer {
            Ok(counts) => self.with_counts(counts, end.ending),
            Err(_) => self.with_fault(end.ending),
        }
    }

    /// How the program ends that has this total.
    pub fn ending(self) -> Ending
        ensures { result ≡ ending_of self }
    {
        if self.passed {
            ended(0, self.reported)
        } else {
            ended(1, self.reported)
        }
    }
}

/// Whether this is that the output failed.
fn failed_output(why: RunFault) -> bool
    ensures { result ≡ several.failed_output why }
{
    match why {
        RunFault::Output => true,
        RunFault::Input
        | RunFault::InputTooLong
        | RunFault::OutOfMemory
        | RunFault::Host(_)
        | RunFault::Open(_)
        | RunFault::SecondFile
        | RunFault::InUse => false,
    }
}

/// Whether the output failed, so that nothing more can be written.
pub fn is_unwritten(end: CheckEnding) -> bool
    ensures { result ≡ several.is_unwritten end.answer }
{
    match end.answer {
        Ok(_) => false,
        Err(CheckFault::NoField(_)) => false,
        Err(CheckFault::Run(why)) => failed_output(why),
    }
}

/// Writes the line above the report of the worksheet at a path, and flushes it. A byte below 32 in the path,
/// and 127, is `\x` and two hexadecimal digits, so it is one line.
#[tactic(auto, using(crate::proofs::Lines::steps))]
pub fn tell_worksheet<W: Write>(path: &str, output: &mut W) -> Result<(), WriteFault>
    ensures { OnOk result (Appends (W.contents output.old) (W.contents output.new)
        (worksheet_line path.now)) }
{
    output.write_all(b"worksheet ").map_err(|_| WriteFault)?;
    write_line(path.as_bytes(), output)?;
    write_and_flush(b"\n", output)?;
    Ok(())
}

/// Ends the check of a worksheet above whose report no line could be written: nothing of it was done.
pub fn end_unwritten<E: Says>(errors: &mut E) -> CheckEnding
    ensures answer { result.answer ≡ Err (checks.Run fault.Output) }
    ensures ends { EndsAs (⟦<E as Heard>⟧.said errors.old errors.new) result.ending
        (Err fault.Output) }
{
    let ending = end_program(Err(RunFault::Output), errors);
    CheckEnding {
        answer: Err(CheckFault::Run(RunFault::Output)),
        ending,
    }
}

/// Writes how many answers are errors, where some are.
fn write_errors<W: Write>(errors: u128, out: &mut W) -> Result<(), WriteFault>
    ensures { OnOk result (Appends (W.contents out.old) (W.contents out.new) (errors_part errors)) }
{
    if errors == 0 {
        return Ok(());
    }
    write!(out, " errors {errors}").map_err(|_| WriteFault)
}

/// Writes how many answers came to fields that show none, where some did.
fn write_new<W: Write>(new: u128, out: &mut W) -> Result<(), WriteFault>
    ensures { OnOk result (Appends (W.contents out.old) (W.contents out.new) (new_part new)) }
{
    if new == 0 {
        return Ok(());
    }
    write!(out, " new {new}").map_err(|_| WriteFault)
}

/// Writes how many worksheets met a fault, where some did.
fn write_faults<W: Write>(faults: u64, out: &mut W) -> Result<(), WriteFault>
    ensures { OnOk result (Appends (W.contents out.old) (W.contents out.new) (faults_part faults)) }
{
    match faults {
        0 => Ok(()),
        _ => write!(out, " faults {faults}").map_err(|_| WriteFault),
    }
}

/// Writes how many worksheets there are, and their counts.
fn write_summed<W: Write>(total: Total, out: &mut W) -> Result<(), WriteFault>
    ensures { OnOk result (Appends (W.contents out.old) (W.contents out.new) (summed_part total)) }
{
    let Total {
        worksheets,
        same,
        differ,
        unanswered,
        errors: _,
        new: _,
        faults: _,
        passed: _,
        reported: _,
    } = total;
    write!(
        out,
        "total of {worksheets} worksheets: same {same} differ {differ} unanswered {unanswered}"
    )
    .map_err(|_| WriteFault)
}

/// Writes the line of a total, and flushes it.
#[tactic(auto, using(crate::proofs::Lines::steps))]
fn write_total<W: Write>(total: Total, out: &mut W) -> Result<(), WriteFault>
    ensures { OnOk result (Appends (W.contents out.old) (W.contents out.new) (total_text total)) }
{
    write_summed(total, out)?;
    write_errors(total.errors, out)?;
    write_new(total.new, out)?;
    write_faults(total.faults, out)?;
    write_and_flush(b"\n", out)?;
    Ok(())
}

/// The end of a check whose total can't be written.
fn end_unsummed<E: Says>(total: Total, errors: &mut E) -> Ending
    ensures { (last : Ending)
        × EndsAs (⟦<E as Heard>⟧.said errors.old errors.new) last (Err fault.Output)
        × (result ≡ record { status = 1; reported = total.reported && last.reported }) }
{
    let last = end_program(Err(RunFault::Output), errors);
    ended(1, total.reported && last.reported)
}

/// The end of a check of several worksheets: their total goes to `output`, and is flushed. Where that fails
/// it is the fault `Output`, with its line on `errors`.
pub fn end_total<W: Write, E: Says>(total: Total, output: &mut W, errors: &mut E) -> Ending
    ensures { TotalEnds total
        (⟦<(W, E) as Both>⟧.streams output.old output.new errors.old errors.new) result }
{
    match write_total(total, output) {
        Ok(()) => total.ending(),
        Err(_) => end_unsummed(total, errors),
    }
}
