//! How the program ends where its words ask for nothing that there is.
ghost use Rattle.std.specs.Prelude.{◌≡◌, ◌≢◌, Err, None, Some};
ghost use Rattle.std.specs.declared.io.ErrorKind.TheVariants as io_kind;
ghost use Rattle.clap.specs.Words.{kind_of};
ghost use Rattle.clap.specs.declared.error.kind.ErrorKind.TheVariants as kind;
ghost use Rattle.host_cli.specs.Refused.{RefusesJobs, RefusesPlan, RefusesRequest, RefusesSeveral, RefusesWith, RefusesWords, ShowsHelp, ShowsText, no_check_seconds_text, no_changes_text, no_format_text, no_run_seconds_text};
ghost use Rattle.host_cli.specs.inside.Refusing.{refusal_text};
ghost use Rattle.program_endings.specs.Ending.{TellsFault};
ghost use Rattle.offline_programs.specs.declared.fault.RunFault.TheVariants as fault;

use crate::plans::{JobsFault, PlanFault, SeveralFault};
use check_report::RequestFault;
use clap::error::ErrorKind;
use offline_programs::{Message, RunFault, Says};
use program_endings::{Ending, Heard, end_program};
use sheet_text::WriteFault;
use std::io;
use std::io::Write;

/// The end of a program whose words are refused.
fn refused(reported: bool) -> Ending
    ensures { result ≡ record { status = 2; reported = reported } }
{
    Ending {
        status: 2,
        reported,
    }
}

/// Why `clap` gave no task, or the help that was asked for.
#[derive(Clone, Copy)]
struct FromClap<'a> {
    error: &'a clap::Error,
}

impl Message for FromClap<'_> {
    ghost text = { λ _. None };

    fn write<W: Write>(&self, out: &mut W) -> Result<(), WriteFault> {
        let error = self.error;
        write!(out, "{error}").map_err(|_| WriteFault)
    }
}

/// Why words ask for nothing that there is, and the task whose help says more.
#[derive(Clone, Copy)]
struct Refusal<'a> {
    why: &'a str,
    task: &'a str,
}

impl Message for Refusal<'_> {
    ghost text = { λ it. Some (refusal_text it.why.now it.task.now) };

    fn write<W: Write>(&self, out: &mut W) -> Result<(), WriteFault> {
        let why = self.why;
        let task = self.task;
        write!(
            out,
            "error: {why}\n\nFor more information, try 'tmhost {task} --help'.\n"
        )
        .map_err(|_| WriteFault)
    }
}

/// Ends the program where `clap` gave no task for its words: help that was asked for goes to `output`,
/// and why the words are refused to `errors`. Help that can't be written is `Output`, and lack of
/// memory is reported as the program's own.
pub fn refuse_words<W: Says, E: Says>(error: &clap::Error, output: &mut W, errors: &mut E) -> Ending
    ensures memory { kind_of error.now ≡ kind.OutOfMemory → (output.new ≡ output.old)
        × (result.status ≡ 1)
        × TellsFault (⟦<E as Heard>⟧.said errors.old errors.new) result.reported
        (Err fault.OutOfMemory) }
    ensures shown { ShowsText (kind_of error.now)
        → ShowsHelp (⟦<W as Heard>⟧.said output.old output.new)
        (⟦<E as Heard>⟧.said errors.old errors.new) result }
    ensures refused { kind_of error.now ≢ kind.OutOfMemory → (ShowsText (kind_of error.now) → ⊥)
        → (output.new ≡ output.old)
        × RefusesWords (⟦<E as Heard>⟧.said errors.old errors.new) result }
{
    match error.kind() {
        ErrorKind::OutOfMemory => end_program(Err(RunFault::OutOfMemory), errors),
        ErrorKind::DisplayHelp | ErrorKind::DisplayVersion => {
            if output.say(&FromClap { error }) {
                Ending {
                    status: 0,
                    reported: true,
                }
            } else {
                end_program(Err(RunFault::Output), errors)
            }
        }
        _ => refused(errors.say(&FromClap { error })),
    }
}

/// Ends the program where its words can't be had: a word that is not UTF-8 gives status 2 without a
/// text, and lack of memory is reported.
pub fn refuse_unread_words<E: Says>(kind: io::ErrorKind, errors: &mut E) -> Ending
    ensures memory { kind ≡ io_kind.OutOfMemory → (result.status ≡ 1)
        × TellsFault (⟦<E as Heard>⟧.said errors.old errors.new) result.reported
        (Err fault.OutOfMemory) }
    ensures refused { kind ≢ io_kind.OutOfMemory
        → (errors.new ≡ errors.old) × (result.status ≡ 2) }
{
    match kind {
        io::ErrorKind::OutOfMemory => end_program(Err(RunFault::OutOfMemory), errors),
        _ => refused(true),
    }
}

/// Refuses words that ask for nothing that there is, for this reason, and names the task whose help says more.
fn refuse_with<E: Says>(why: &str, task: &str, errors: &mut E) -> Ending
    ensures { RefusesWith (refusal_text why.now task.now)
        (⟦<E as Heard>⟧.said errors.old errors.new) result }
{
    refused(errors.say(&Refusal { why, task }))
}

/// Refuses words that ask for a format that there isn't.
pub(crate) fn refuse_format<E: Says>(errors: &mut E) -> Ending
    ensures { RefusesWith no_format_text (⟦<E as Heard>⟧.said errors.old errors.new) result }
{
    refuse_with(
        "there is no such format: FORMAT is script, markdown, html, notebook or json",
        "export",
        errors,
    )
}

/// Refuses words that name no number of changes.
pub(crate) fn refuse_changes<E: Says>(errors: &mut E) -> Ending
    ensures { RefusesWith no_changes_text (⟦<E as Heard>⟧.said errors.old errors.new) result }
{
    refuse_with(
        "this is no number of changes: N is a number, as `tmhost history` lists them",
        "history",
        errors,
    )
}

/// Ends the program where the words of `eval` ask for nothing that there is.
pub(crate) fn refuse_plan<E: Says>(why: PlanFault, errors: &mut E) -> Ending
    ensures { RefusesPlan why (⟦<E as Heard>⟧.said errors.old errors.new) result }
{
    match why {
        PlanFault::Seconds => refuse_with(
            "this is no time: SECONDS is a number from 1 to 1000000",
            "eval",
            errors,
        ),
        PlanFault::Id => refuse_with("this is no field: ID is a number, as 3", "eval", errors),
        PlanFault::Both => refuse_with("--from goes with no ID after PATH", "eval", errors),
        PlanFault::Jobs => refuse_with(
            "this is no number of jobs: N is a number from 1 to 64",
            "eval",
            errors,
        ),
        PlanFault::Strict => refuse_with(
            "--jobs goes with no --strict and no --stop-at-error",
            "eval",
            errors,
        ),
        PlanFault::Changed => refuse_with(
            "--changed goes with no ID after PATH, no --from and no --unanswered",
            "eval",
            errors,
        ),
        PlanFault::OutOfMemory => end_program(Err(RunFault::OutOfMemory), errors),
    }
}

/// Refuses words of `run` that name no time.
pub(crate) fn refuse_run_limit<E: Says>(errors: &mut E) -> Ending
    ensures { RefusesWith no_run_seconds_text (⟦<E as Heard>⟧.said errors.old errors.new) result }
{
    refuse_with(
        "this is no time: SECONDS is a number from 1 to 1000000",
        "run",
        errors,
    )
}

/// Refuses words of `check` that name no time.
pub(crate) fn refuse_check_limit<E: Says>(errors: &mut E) -> Ending
    ensures { RefusesWith no_check_seconds_text (⟦<E as Heard>⟧.said errors.old errors.new) result }
{
    refuse_with(
        "this is no time: SECONDS is a number from 1 to 1000000",
        "check",
        errors,
    )
}

/// Refuses words of `check` that name no number of sessions.
pub(crate) fn refuse_jobs<E: Says>(why: JobsFault, errors: &mut E) -> Ending
    ensures { RefusesJobs why (⟦<E as Heard>⟧.said errors.old errors.new) result }
{
    match why {
        JobsFault::Number => refuse_with(
            "this is no number of jobs: N is a number from 1 to 64",
            "check",
            errors,
        ),
        JobsFault::Accepting => refuse_with("--jobs goes with no --accept", "check", errors),
    }
}

/// Refuses words of `check` that ask for more of several worksheets than there is.
pub(crate) fn refuse_several<E: Says>(why: SeveralFault, errors: &mut E) -> Ending
    ensures { RefusesSeveral why (⟦<E as Heard>⟧.said errors.old errors.new) result }
{
    match why {
        SeveralFault::Format => refuse_with(
            "several PATHs go with no FORMAT but text",
            "check",
            errors,
        ),
        SeveralFault::Accepting => refuse_with(
            "--accept goes with one PATH alone",
            "check",
            errors,
        ),
        SeveralFault::Compared => refuse_with(
            "--compare goes with one PATH alone",
            "check",
            errors,
        ),
        SeveralFault::LeftOut => refuse_with(
            "--leave-out goes with one PATH alone",
            "check",
            errors,
        ),
    }
}

/// Ends the program where the words of `check` ask for none.
pub(crate) fn refuse_request<E: Says>(why: RequestFault, errors: &mut E) -> Ending
    ensures { RefusesRequest why (⟦<E as Heard>⟧.said errors.old errors.new) result }
{
    match why {
        RequestFault::Format => refuse_with(
            "there is no such format: FORMAT is text, tap, junit or json",
            "check",
            errors,
        ),
        RequestFault::Session => refuse_with(
            "no session can have this name: NAME is 1 to 32 letters, digits, `_` and `-`",
            "check",
            errors,
        ),
        RequestFault::Ids => refuse_with(
            "these are no fields: IDS are numbers and ranges of them, as 3,7-9",
            "check",
            errors,
        ),
        RequestFault::Both => refuse_with("--json goes with no --format", "check", errors),
        RequestFault::Whole => refuse_with(
            "--whole goes with no FORMAT but text, and with no --accept",
            "check",
            errors,
        ),
        RequestFault::Accepting => refuse_with(
            "--accept goes with no FORMAT but text",
            "check",
            errors,
        ),
        RequestFault::OutOfMemory => end_program(Err(RunFault::OutOfMemory), errors),
    }
}
