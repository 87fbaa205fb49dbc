//! The program `check` over a worksheet's files, from its files on.
ghost use Rattle.std.specs.Prelude.{◌≡◌, Err, Result};
ghost use Rattle.check_report.specs.declared.verdict.VerdictCounts.{VerdictCounts};
ghost use Rattle.sheet_check.specs.declared.named.CheckFault.TheVariants as checks;
ghost use Rattle.program_endings.specs.Ending.{EndsAs};
ghost use Rattle.program_endings.specs.CheckProgram.{CheckDone, CheckEnds, EndsChecked, LastInJson, LastOfCheck, all_same, answer_of_check, check_passes, finds_any};
ghost use Rattle.program_endings.specs.Faults as printed;
ghost use Rattle.program_endings.specs.Records.{writing};
ghost use Rattle.program_endings.specs.Passing.{passed, run};

use crate::ending::ended;
use crate::eval_program::{Missing, end_without};
use crate::live_program::end_reported;
use crate::messages::NotEvaluated;
use crate::passing::{GivenBack, Resources};
use crate::seeing::{Heard, Kinds};
use crate::telling::no_files;
use crate::{Ending, end_program};
use arrivals::Sources;
use check_report::{Chosen, ReportFormat, VerdictCounts};
use evaluation::EvalFault;
use offline_programs::Says;
use script_agenda::RunResources;
use sheet_check::{CheckFault, CheckManner, Checked, Progress, check};
use sheet_files::{Close, FilesFault};
use std::alloc::Global;
use std::io::Write;
use tellings::InJson;

/// How a check of one worksheet ended.
#[derive(Clone, Copy, Debug, PartialEq, Eq)]
pub struct CheckEnding {
    /// How many evaluations came to what, or the fault that the check met.
    pub answer: Result<VerdictCounts, CheckFault>,
    /// How the program ends that checks this worksheet alone.
    pub ending: Ending,
}

/// Whether no output differs, and no field was left unanswered.
fn are_same(counts: VerdictCounts) -> bool
    ensures { result ≡ all_same counts }
{
    counts.differ == 0 && counts.unanswered == 0
}

/// Whether any field was checked, where those of one session are asked for.
pub(crate) fn found_any(chosen: &Chosen, counts: VerdictCounts) -> bool
    ensures { result ≡ finds_any chosen.now counts }
{
    match &chosen.only {
        None => true,
        Some(_) => counts.total() > 0,
    }
}

/// Whether a check ends well.
fn is_passed(chosen: &Chosen, counts: VerdictCounts) -> bool
    ensures { result ≡ check_passes chosen.now counts }
{
    are_same(counts) && found_any(chosen, counts)
}

/// Ends the program where no field has a number that is named.
fn end_missing<E: Says>(id: u32, errors: &mut E) -> Ending
    ensures { EndsChecked (⟦<E as Heard>⟧.said errors.old errors.new) result
        (Err (checks.NoField id)) }
{
    let why = EvalFault::NoField(id);
    ended(1, errors.say(&NotEvaluated { why }))
}

/// Ends the program by what it answered: a fault is a line.
pub(crate) fn end_in_words<E: Says>(answer: Result<bool, CheckFault>, errors: &mut E) -> Ending
    ensures { EndsChecked (⟦<E as Heard>⟧.said errors.old errors.new) result answer }
{
    match answer {
        Ok(passed) => end_program(Ok(passed), errors),
        Err(CheckFault::Run(why)) => end_program(Err(why), errors),
        Err(CheckFault::NoField(id)) => end_missing(id, errors),
    }
}

/// Ends the program by what it answered: a fault is a line, and an object on the output, too.
fn end_in_json<W: Write, E: Says>(
    alloc: Global,
    answer: Result<bool, CheckFault>,
    output: &mut W,
    errors: &mut E,
) -> Ending
    ensures last { LastInJson (writing W.contents output.old output.new) result.reported answer }
    ensures ends { EndsChecked (⟦<E as Heard>⟧.said errors.old errors.new) result answer }
{
    match answer {
        Ok(passed) => end_program(Ok(passed), errors),
        Err(CheckFault::Run(why)) => end_reported(Err(why), &InJson { alloc }, output, errors),
        Err(CheckFault::NoField(id)) => end_without(
            Missing::Field(id),
            &InJson { alloc },
            output,
            errors,
        ),
    }
}

/// Ends the program by what it answered: a fault is printed on both streams where the report is JSON.
fn end_report<W: Write, E: Says>(
    alloc: Global,
    format: ReportFormat,
    answer: Result<bool, CheckFault>,
    output: &mut W,
    errors: &mut E,
) -> Ending
    ensures last { LastOfCheck format (writing W.contents output.old output.new) result.reported
        answer }
    ensures ends { EndsChecked (⟦<E as Heard>⟧.said errors.old errors.new) result answer }
{
    match format {
        ReportFormat::Json => end_in_json(alloc, answer, output, errors),
        ReportFormat::Text
        | ReportFormat::Whole
        | ReportFormat::Tap
        | ReportFormat::Junit
        | ReportFormat::Accepting => end_in_words(answer, errors),
    }
}

/// Ends the program by what a check answered.
pub(crate) fn end_check<W: Write, E: Says>(
    manner: &CheckManner<'_>,
    answer: Result<VerdictCounts, CheckFault>,
    output: &mut W,
    errors: &mut E,
) -> Ending
    ensures last { LastOfCheck manner.now.request.now.format (writing W.contents output.old
        output.new) result.reported
        (answer_of_check manner.now.request.now.chosen answer) }
    ensures ends { EndsChecked (⟦<E as Heard>⟧.said errors.old errors.new) result
        (answer_of_check manner.now.request.now.chosen answer) }
{
    let answer = match answer {
        Ok(counts) => Ok(is_passed(&manner.request.chosen, counts)),
        Err(fault) => Err(fault),
    };
    end_report(manner.alloc, manner.request.format, answer, output, errors)
}

/// Ends the program where the files of its worksheet weren't opened.
pub(crate) fn end_unopened<W: Write, E: Says>(
    manner: &CheckManner<'_>,
    why: FilesFault,
    output: &mut W,
    errors: &mut E,
) -> CheckEnding
    ensures answer { result.answer ≡ Err (checks.Run (printed.no_files why)) }
    ensures last { LastOfCheck manner.now.request.now.format (writing W.contents output.old
        output.new) result.ending.reported
        (Err (checks.Run (printed.no_files why))) }
    ensures ends { EndsAs (⟦<E as Heard>⟧.said errors.old errors.new) result.ending
        (Err (printed.no_files why)) }
{
    let fault = CheckFault::Run(no_files(why));
    let ending = end_report(
        manner.alloc,
        manner.request.format,
        Err(fault),
        output,
        errors,
    );
    CheckEnding {
        answer: Err(fault),
        ending,
    }
}

/// Checks the worksheet on a disk, and closes the disk at the end.
fn check_on<D: Close, C: Sources, P: Progress, W: Write, E: Says>(
    manner: &CheckManner<'_>,
    outside: RunResources<D, C, W>,
    progress: &mut P,
    errors: &mut E,
) -> GivenBack<CheckEnding, C, W>
    ensures { CheckDone manner.now.request.now (run ⟦<(D, C, W) as Kinds>⟧.seen outside result)
        (⟦<E as Heard>⟧.said errors.old errors.new) result.ending }
{
    let RunResources {
        disk,
        sources,
        mut output,
    } = outside;
    let Checked {
        disk,
        sources,
        answer,
    } = check(manner, disk, sources, progress, &mut output);
    disk.close();
    let ending = end_check(manner, answer, &mut output, errors);
    GivenBack {
        ending: CheckEnding { answer, ending },
        sources,
        output,
    }
}

/// The whole program `check` on its files, or on why they weren't opened: the report goes to the output,
/// each part flushed when it is known, and the line of a fault to `errors`; one in JSON has the fault
/// last. `progress` shows how far it is, and nothing at its end. What the check answered is
/// given beside how the program ends, and sources and output are given back.
pub fn run_check<D: Close, C: Sources, P: Progress, W: Write, E: Says>(
    manner: &CheckManner<'_>,
    given: Resources<D, C, W>,
    progress: &mut P,
    errors: &mut E,
) -> GivenBack<CheckEnding, C, W>
    ensures { CheckEnds manner.now.request.now given.files
        (passed ⟦<(D, C, W) as Kinds>⟧.seen given result)
        (⟦<E as Heard>⟧.said errors.old errors.new) result.ending }
{
    let Resources {
        files,
        sources,
        mut output,
    } = given;
    match files {
        Ok(disk) => {
            let outside = RunResources {
                disk,
                sources,
                output,
            };
            check_on(manner, outside, progress, errors)
        }
        Err(why) => GivenBack {
            ending: end_unopened(manner, why, &mut output, errors),
            sources,
            output,
        },
    }
}
