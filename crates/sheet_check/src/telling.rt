//! What a field came to, as it is reported.
ghost use Rattle.std.specs.Prelude.{◌≡◌, IfErr, IfOk, OnOk};
ghost use Rattle.std.specs.Io.KnownBytes.{Appends};
ghost use Rattle.session_engine.specs.World.{World};
ghost use Rattle.session_engine.specs.Host.{IsHost};
ghost use Rattle.check_report.specs.Chosen.{Judged};
ghost use Rattle.check_report.specs.Errors as errors;
ghost use Rattle.check_report.specs.Reports.{case as case_of, case_in, case_text};
ghost use Rattle.sheet_check.specs.Evaluated.{came_if, reason_shown_in, shown_in};
ghost use Rattle.sheet_check.specs.Progress.{LeavesLine, MakesRoom};
ghost use Rattle.sheet_check.specs.inside.Checking.{Withheld};

use crate::manner::CheckManner;
use crate::progress::{Progress, Sight};
use block_tree::Reason;
use check_report::{
    Case, Judgement, ReportFault, ReportFormat, Verdict, brings_error, is_written, report_case,
};
use disk_model::Disk;
use offline_programs::RunFault;
use session_engine::Host;
use sheet_json::Took;
use std::alloc::Global;
use std::io::Write;
use worksheet::{Answer, Field};

/// A field that was evaluated again.
#[derive(Clone, Copy)]
pub(crate) struct Tried<'a> {
    /// Which case of the report it is.
    pub(crate) number: u64,
    pub(crate) field: &'a Field,
    /// Whether the answer that it shows on the copy then is one that came.
    pub(crate) is_there: bool,
    /// What the evaluation took, where that is known.
    pub(crate) took: Option<Took>,
}

/// The answer that came to a field, where one did, and the reason that it shows for none.
#[derive(Clone, Copy)]
struct FieldAnswer<'a> {
    came: &'a Option<Answer>,
    lost: Option<Reason>,
}

/// Takes the line of progress away, where what a field came to is written.
pub(crate) fn make_room<P: Progress>(format: ReportFormat, verdict: Verdict, progress: &mut P)
    ensures { MakesRoom format P.shows verdict progress.old progress.new }
{
    if is_written(format, verdict) {
        progress.show(Sight::Nothing);
    }
}

/// Tells a case.
///
/// `OutOfMemory`: nothing was written. `Output`: a part may have gone out.
fn tell_case<W: Write>(
    alloc: Global,
    format: ReportFormat,
    case: &Case<'_>,
    writer: &mut W,
) -> Result<(), RunFault>
    ensures ok { OnOk result (Appends (W.contents writer.old) (W.contents writer.new)
        (case_text format case.now.number (case_in case.now))) }
    ensures err { IfErr result (Withheld (W.contents writer.old) (W.contents writer.new)) }
{
    match report_case(alloc, format, case, writer) {
        Ok(()) => Ok(()),
        Err(ReportFault::OutOfMemory) => Err(RunFault::OutOfMemory),
        Err(ReportFault::Output) => Err(RunFault::Output),
    }
}

/// Tells a case in the place of the line of progress.
fn tell_in_its_place<W: Write, P: Progress>(
    manner: &CheckManner<'_>,
    case: &Case<'_>,
    progress: &mut P,
    writer: &mut W,
) -> Result<(), RunFault>
    ensures ok { OnOk result (Appends (W.contents writer.old) (W.contents writer.new)
        (case_text manner.now.request.now.format case.now.number (case_in case.now))) }
    ensures err { IfErr result (Withheld (W.contents writer.old) (W.contents writer.new)) }
    ensures room { MakesRoom manner.now.request.now.format P.shows case.now.verdict progress.old
        progress.new }
{
    make_room(manner.request.format, case.verdict, progress);
    tell_case(manner.alloc, manner.request.format, case, writer)
}

/// Judges the answer that came to a field by the one that it shows, and tells what that came to.
fn tell_verdict<W: Write, P: Progress>(
    manner: &CheckManner<'_>,
    tried: &Tried<'_>,
    answered: &FieldAnswer<'_>,
    progress: &mut P,
    writer: &mut W,
) -> Result<Judgement, RunFault>
    ensures ok { IfOk result (λ j. Judged manner.now.request.now.chosen tried.now.field.now
        answered.now.came.now j.verdict
        × (j.error ≡ errors.brings_error answered.now.came.now)
        × Appends (W.contents writer.old) (W.contents writer.new)
        (case_text manner.now.request.now.format tried.now.number
        (case_of tried.now.field.now answered.now.came.now answered.now.lost j.verdict
        tried.now.took))) }
    ensures err { IfErr result (Withheld (W.contents writer.old) (W.contents writer.new)) }
    ensures room { IfOk result (λ j.
        MakesRoom manner.now.request.now.format P.shows j.verdict progress.old progress.new) }
    ensures left { IfErr result (λ _. LeavesLine P.shows progress.old progress.new) }
{
    let verdict = manner.request.chosen.judge(tried.field, answered.came);
    let case = Case {
        number: tried.number,
        field: tried.field,
        came: answered.came,
        lost: answered.lost,
        verdict,
        took: tried.took,
    };
    match tell_in_its_place(manner, &case, progress, writer) {
        Ok(()) => Ok(Judgement {
            verdict,
            error: brings_error(answered.came),
        }),
        Err(fault) => Err(fault),
    }
}

/// Tells what a field came to that shows this now on the copy.
fn tell_shown<W: Write, P: Progress>(
    manner: &CheckManner<'_>,
    tried: &Tried<'_>,
    now: &Field,
    progress: &mut P,
    writer: &mut W,
) -> Result<Judgement, RunFault>
    ensures ok { IfOk result (λ j.
        Judged manner.now.request.now.chosen tried.now.field.now
        (came_if tried.now.is_there now.now.answer) j.verdict
        × (j.error ≡ errors.brings_error (came_if tried.now.is_there now.now.answer))
        × Appends (W.contents writer.old) (W.contents writer.new)
        (case_text manner.now.request.now.format tried.now.number
        (case_of tried.now.field.now (came_if tried.now.is_there now.now.answer) now.now.lost
        j.verdict tried.now.took))) }
    ensures err { IfErr result (Withheld (W.contents writer.old) (W.contents writer.new)) }
    ensures room { IfOk result (λ j.
        MakesRoom manner.now.request.now.format P.shows j.verdict progress.old progress.new) }
    ensures left { IfErr result (λ _. LeavesLine P.shows progress.old progress.new) }
{
    let lost = now.lost;
    if tried.is_there {
        let answered = FieldAnswer {
            came: &now.answer,
            lost,
        };
        tell_verdict(manner, tried, &answered, progress, writer)
    } else {
        let answered = FieldAnswer { came: &None, lost };
        tell_verdict(manner, tried, &answered, progress, writer)
    }
}

/// Tells what a field came to by what it shows on the copy now.
pub(crate) fn tell_what_came<D: Disk, W: Write, P: Progress>(
    manner: &CheckManner<'_>,
    host: &Host<D>,
    tried: &Tried<'_>,
    progress: &mut P,
    writer: &mut W,
) -> Result<Judgement, RunFault>
    ensures ok { (w : World) → IsHost host.now w → IfOk result (λ j.
        Judged manner.now.request.now.chosen tried.now.field.now
        (came_if tried.now.is_there (shown_in w tried.now.field.now.id)) j.verdict
        × (j.error ≡ errors.brings_error (came_if tried.now.is_there
        (shown_in w tried.now.field.now.id)))
        × Appends (W.contents writer.old) (W.contents writer.new)
        (case_text manner.now.request.now.format tried.now.number
        (case_of tried.now.field.now (came_if tried.now.is_there
        (shown_in w tried.now.field.now.id)) (reason_shown_in w tried.now.field.now.id) j.verdict
        tried.now.took))) }
    ensures err { IfErr result (Withheld (W.contents writer.old) (W.contents writer.new)) }
    ensures room { IfOk result (λ j.
        MakesRoom manner.now.request.now.format P.shows j.verdict progress.old progress.new) }
    ensures left { IfErr result (λ _. LeavesLine P.shows progress.old progress.new) }
{
    match host.sheet().field(tried.field.id) {
        None => {
            let answered = FieldAnswer {
                came: &None,
                lost: None,
            };
            tell_verdict(manner, tried, &answered, progress, writer)
        }
        Some(now) => tell_shown(manner, tried, now, progress, writer),
    }
}
