//! The program `check --accept` over a worksheet's files, from its files on.
ghost use Rattle.std.specs.Prelude.{◌≡◌, Result};
ghost use Rattle.check_report.specs.declared.verdict.VerdictCounts.{VerdictCounts};
ghost use Rattle.program_endings.specs.AcceptProgram.{AcceptDone, AcceptEnds, accept_setting, accepts_all, answer_of_acceptance};
ghost use Rattle.program_endings.specs.CheckProgram.{EndsChecked};
ghost use Rattle.program_endings.specs.Passing.{passed, run};

use crate::check_program::{end_in_words, found_any};
use crate::passing::{GivenBack, Resources};
use crate::seeing::{Heard, Kinds};
use crate::telling::no_files;
use crate::{Ending, end_program};
use arrivals::Sources;
use check_report::{Chosen, VerdictCounts};
use driver::Stamped;
use offline_programs::Says;
use script_agenda::RunResources;
use sheet_check::{CheckFault, CheckManner, Checked, Progress, check_accepting};
use sheet_files::Close;

/// Whether a check that accepts ends well: no field was left unanswered, and, where those of one session
/// are asked for, any was checked.
fn are_accepted(chosen: &Chosen, counts: VerdictCounts) -> bool
    ensures { result ≡ accepts_all chosen.now counts }
{
    counts.unanswered == 0 && found_any(chosen, counts)
}

/// Ends the program by what a check that accepts answered.
fn end_acceptance<E: Says>(
    chosen: &Chosen,
    answer: Result<VerdictCounts, CheckFault>,
    errors: &mut E,
) -> Ending
    ensures { EndsChecked (⟦<E as Heard>⟧.said errors.old errors.new) result
        (answer_of_acceptance chosen.now answer) }
{
    match answer {
        Ok(counts) => end_in_words(Ok(are_accepted(chosen, counts)), errors),
        Err(fault) => end_in_words(Err(fault), errors),
    }
}

/// Checks the worksheet on a disk and accepts what differs, and closes the disk at the end.
fn accept_on<D: Close, C: Sources, P: Progress, W: Stamped, E: Says>(
    manner: &CheckManner<'_>,
    outside: RunResources<D, C, W>,
    progress: &mut P,
    errors: &mut E,
) -> GivenBack<Ending, C, W>
    ensures { AcceptDone (accept_setting manner.now.request.now W.held) (run ⟦<(D, C, W) as Kinds>⟧.seen outside result)
        (⟦<E as Heard>⟧.said errors.old errors.new) result.ending }
{
    let RunResources {
        disk,
        sources,
        mut output,
    } = outside;
    let Checked {
        disk,
        sources,
        answer,
    } = check_accepting(manner, disk, sources, progress, &mut output);
    disk.close();
    GivenBack {
        ending: end_acceptance(&manner.request.chosen, answer, errors),
        sources,
        output,
    }
}

/// The whole program `check --accept` on its files, which are opened to write, or on why they weren't
/// opened: the report goes to the output, each part flushed once what it tells is on the disk, and the
/// line of a fault to `errors`. `progress` shows how far it is, and nothing at its end. Sources and output are given back.
pub fn run_accept<D: Close, C: Sources, P: Progress, W: Stamped, E: Says>(
    manner: &CheckManner<'_>,
    given: Resources<D, C, W>,
    progress: &mut P,
    errors: &mut E,
) -> GivenBack<Ending, C, W>
    ensures { AcceptEnds (accept_setting manner.now.request.now W.held) given.files
        (passed ⟦<(D, C, W) as Kinds>⟧.seen given result)
        (⟦<E as Heard>⟧.said errors.old errors.new) result.ending }
{
    let Resources {
        files,
        sources,
        output,
    } = given;
    match files {
        Ok(disk) => {
            let outside = RunResources {
                disk,
                sources,
                output,
            };
            accept_on(manner, outside, progress, errors)
        }
        Err(why) => GivenBack {
            ending: end_program(Err(no_files(why)), errors),
            sources,
            output,
        },
    }
}
