//! The program `check` over a worksheet's files, from its files on, whose fields go side by side.
ghost use Rattle.program_endings.specs.TogetherProgram.{TogetherDone, TogetherEnds};
ghost use Rattle.program_endings.specs.Passing.{passed, run};

use crate::check_program::{CheckEnding, end_check, end_unopened};
use crate::passing::{GivenBack, Resources};
use crate::seeing::{Heard, Kinds};
use arrivals::Sources;
use offline_programs::Says;
use script_agenda::RunResources;
use sheet_check::{CheckSetup, Checked, Progress, check_together};
use sheet_files::Close;
use std::io::Write;

/// Checks the worksheet on a disk, fields of several sessions side by side, and closes the disk at the end.
fn check_together_on<D: Close, C: Sources, P: Progress, W: Write, E: Says>(
    beside: &CheckSetup<'_>,
    outside: RunResources<D, C, W>,
    progress: &mut P,
    errors: &mut E,
) -> GivenBack<CheckEnding, C, W>
    ensures { TogetherDone beside.now.jobs beside.now.manner.request.now
        (run ⟦<(D, C, W) as Kinds>⟧.seen outside result) (⟦<E as Heard>⟧.said errors.old errors.new)
        result.ending }
{
    let RunResources {
        disk,
        sources,
        mut output,
    } = outside;
    let Checked {
        disk,
        sources,
        answer,
    } = check_together(beside, disk, sources, progress, &mut output);
    disk.close();
    let ending = end_check(&beside.manner, answer, &mut output, errors);
    GivenBack {
        ending: CheckEnding { answer, ending },
        sources,
        output,
    }
}

/// The whole program `check` of fields side by side on its files, or on why they weren't opened: the report goes to
/// the output once the last answer came, but of fields of one session as by [`run_check`](crate::run_check), and the
/// line of a fault to `errors`; one in JSON has the fault last. `progress` shows how far the report is, and nothing
/// at its end. What the check answered is given beside how the program ends, and sources and output are given back.
pub fn run_check_together<D: Close, C: Sources, P: Progress, W: Write, E: Says>(
    beside: &CheckSetup<'_>,
    given: Resources<D, C, W>,
    progress: &mut P,
    errors: &mut E,
) -> GivenBack<CheckEnding, C, W>
    ensures { TogetherEnds beside.now.jobs beside.now.manner.request.now given.files
        (passed ⟦<(D, C, W) as Kinds>⟧.seen given result)
        (⟦<E as Heard>⟧.said errors.old errors.new) result.ending }
{
    let Resources {
        files,
        sources,
        mut output,
    } = given;
    match files {
        Ok(disk) => {
            let outside = RunResources {
                disk,
                sources,
                output,
            };
            check_together_on(beside, outside, progress, errors)
        }
        Err(why) => GivenBack {
            ending: end_unopened(&beside.manner, why, &mut output, errors),
            sources,
            output,
        },
    }
}
