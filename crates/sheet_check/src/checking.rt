//! The check of a worksheet.
ghost use Rattle.std.specs.Prelude.{◌≡◌, ◌+◌, ◌≤◌, ◌<◌, ◌^◌, List, Err, IfErr, IfNone, IfOk, IfSome, OnOk, length, true};
ghost use Rattle.std.specs.Io.KnownBytes.{Appends};
ghost use Rattle.worksheet.specs.declared.op.Op.{Op};
ghost use Rattle.recovery.specs.Sheets.{Makes};
ghost use Rattle.session_engine.specs.World.{World};
ghost use Rattle.session_engine.specs.Host.{IsHost};
ghost use Rattle.child_edge.specs.Faithful.{at};
ghost use Rattle.disk_model.specs.Disk.{Rises};
ghost use Rattle.offline_programs.specs.declared.fault.RunFault.TheVariants as reported;
ghost use Rattle.journal.specs.declared.opening.OpenCause.TheVariants as opens;
ghost use Rattle.check_report.specs.Chosen.{is_chosen};
ghost use Rattle.check_report.specs.Reports.{opening_text};
ghost use Rattle.check_report.specs.Verdicts.{total};
ghost use Rattle.sheet_check.specs.Check.{CheckAnswer, OnlyRead, SheetAnswer, passage};
ghost use Rattle.sheet_check.specs.declared.named.CheckFault.TheVariants as checks;
ghost use Rattle.sheet_check.specs.Progress.{CheckShows, FieldsLeft, FieldsShow, LeavesLine, MakesRoom, SheetShows, checked_count, display};
ghost use Rattle.sheet_check.specs.inside.Checking.{FieldFailed, FieldShown, FieldWrote, FieldsEnded, FieldsFailed, FieldsStopped, FieldsWrote, OnCopy, ShownWrote, question};
ghost use Rattle.live.specs.Records.{left};
ghost use Rattle.sheet_check.specs.Evaluated.{checking_by};

use crate::closing::tell_counts;
use crate::copying::open_copy;
use crate::driving::{CopyDriver, Gave, drive_copy, into_sources};
use crate::evaluating::evaluate;
use crate::manner::CheckManner;
use crate::named::{CheckFault, check_named};
use crate::places::FieldPlace;
use crate::progress::{Progress, Sight};
use crate::sessions::count_checked;
use crate::telling::{Tried, tell_what_came};
use arrivals::Sources;
use check_report::{Judgement, ReportFormat, VerdictCounts, open_report};
use child_edge::stop_all;
use disk_model::Disk;
use journal::OpenFault;
use offline_programs::RunFault;
use recovery::Store;
use std::io::Write;
use worksheet::Sheet;

/// Evaluates a field that is checked, and tells what that came to.
fn check_shown<D: Disk, C: Sources, W: Write, P: Progress>(
    place: &FieldPlace<'_>,
    driver: &mut CopyDriver<D, C>,
    progress: &mut P,
    writer: &mut W,
) -> Result<Judgement, RunFault>
    requires chosen { is_chosen place.now.manner.request.now.chosen place.now.field.now ≡ true }
    requires few { total place.now.counts < 2 ^ 31 }
    ensures ok { (w : World) → IsHost driver.old.host w → IfOk result (ShownWrote
        (checking_by C.after C.clock C.wakes place.now.manner.request.now)
        (question (total place.now.counts + 1) place.now.field.now)
        (at w driver.old.sources driver.old.host.store.disk)
        (left driver.new.host driver.new.sources (W.contents writer.old) (W.contents writer.new))) }
    ensures err { (w : World) → IsHost driver.old.host w → IfErr result (FieldFailed
        (checking_by C.after C.clock C.wakes place.now.manner.request.now)
        place.now.field.now (at w driver.old.sources driver.old.host.store.disk)
        (left driver.new.host driver.new.sources (W.contents writer.old) (W.contents writer.new))) }
    ensures room { IfOk result (λ j.
        MakesRoom place.now.manner.request.now.format P.shows j.verdict progress.old progress.new) }
    ensures left { IfErr result (λ _. LeavesLine P.shows progress.old progress.new) }
{
    let came = match evaluate(driver, place.manner.request.limit, place.field) {
        Ok(came) => came,
        Err(fault) => return Err(fault),
    };
    let tried = Tried {
        number: place.number(),
        field: place.field,
        is_there: came.is_there,
        took: Some(came.took),
    };
    tell_what_came(&place.manner, &driver.host, &tried, progress, writer)
}

/// Checks a field, where it is one of those that are. The counts with what that came to, which are shown.
fn check_field<D: Disk, C: Sources, W: Write, P: Progress>(
    place: &FieldPlace<'_>,
    driver: &mut CopyDriver<D, C>,
    progress: &mut P,
    writer: &mut W,
) -> Result<VerdictCounts, RunFault>
    requires few { total place.now.counts < 2 ^ 31 }
    requires errors { place.now.counts.errors ≤ total place.now.counts }
    ensures ok { (w : World) → IsHost driver.old.host w → IfOk result (FieldWrote
        (checking_by C.after C.clock C.wakes place.now.manner.request.now)
        place.now.field.now (at w driver.old.sources driver.old.host.store.disk)
        (left driver.new.host driver.new.sources (W.contents writer.old) (W.contents writer.new))
        place.now.counts) }
    ensures bound { IfOk result (λ after. total after ≤ total place.now.counts + 1) }
    ensures errors { IfOk result (λ after. after.errors ≤ total after) }
    ensures err { (w : World) → IsHost driver.old.host w → IfErr result (FieldFailed
        (checking_by C.after C.clock C.wakes place.now.manner.request.now)
        place.now.field.now (at w driver.old.sources driver.old.host.store.disk)
        (left driver.new.host driver.new.sources (W.contents writer.old) (W.contents writer.new))) }
    ensures shown { IfOk result (λ after.
        FieldShown (display place.now.manner.request.now.format P.shows) place.now.all place.now.counts
        after progress.old progress.new) }
    ensures left { IfErr result (λ _. LeavesLine P.shows progress.old progress.new) }
{
    if !place.manner.request.chosen.has(place.field) {
        return Ok(place.counts);
    }
    match check_shown(place, driver, progress, writer) {
        Ok(judgement) => Ok(place.counted(judgement, progress)),
        Err(fault) => Err(fault),
    }
}

/// Writes what stands first in a report.
pub(crate) fn tell_opening<W: Write>(format: ReportFormat, writer: &mut W) -> Result<(), RunFault>
    ensures ok { OnOk result (Appends (W.contents writer.old) (W.contents writer.new)
        (opening_text format)) }
    ensures err { IfErr result (λ why. why ≡ RunFault.Output) }
{
    open_report(format, writer).map_err(|_| RunFault::Output)
}

/// Checks the fields of a worksheet in their order, after what stands first in their report.
fn check_fields<D: Disk, C: Sources, W: Write, P: Progress>(
    manner: &CheckManner<'_>,
    sheet: &Sheet,
    driver: &mut CopyDriver<D, C>,
    progress: &mut P,
    writer: &mut W,
) -> Result<VerdictCounts, RunFault>
    requires { length sheet.now.contents.fields < 2 ^ 31 }
    ensures ok { (w : World) → IsHost driver.old.host w → IfOk result (FieldsWrote
        (checking_by C.after C.clock C.wakes manner.now.request.now)
        sheet.now.contents.fields (at w driver.old.sources driver.old.host.store.disk)
        (left driver.new.host driver.new.sources (W.contents writer.old) (W.contents writer.new))) }
    ensures err { (w : World) → IsHost driver.old.host w → IfErr result (FieldsFailed
        (checking_by C.after C.clock C.wakes manner.now.request.now)
        sheet.now.contents.fields (at w driver.old.sources driver.old.host.store.disk)
        (left driver.new.host driver.new.sources (W.contents writer.old) (W.contents writer.new))) }
    ensures shown { IfOk result (λ counts.
        FieldsShow (display manner.now.request.now.format P.shows)
        (checked_count manner.now.request.now.chosen sheet.now.contents.fields) progress.old counts
        progress.new) }
    ensures left { IfErr result (λ _.
        FieldsLeft (display manner.now.request.now.format P.shows)
        (checked_count manner.now.request.now.chosen sheet.now.contents.fields) progress.old
        progress.new) }
{
    let all = count_checked(&manner.request.chosen, sheet);
    if let Err(fault) = tell_opening(manner.request.format, writer) {
        return Err(fault);
    }
    let mut counts = VerdictCounts::none();
    let mut fields = sheet.fields();
    while let Some(field) = fields.next() {
        let place = FieldPlace {
            manner: *manner,
            field,
            counts,
            all,
        };
        match check_field(&place, driver, progress, writer) {
            Ok(after) => counts = after,
            Err(fault) => return Err(fault),
        }
    }
    Ok(counts)
}

/// Checks the fields, takes the line of progress away, and stops each life that goes on.
fn check_and_stop<D: Disk, C: Sources, W: Write, P: Progress>(
    manner: &CheckManner<'_>,
    sheet: &Sheet,
    driver: &mut CopyDriver<D, C>,
    progress: &mut P,
    writer: &mut W,
) -> Result<VerdictCounts, RunFault>
    requires { length sheet.now.contents.fields < 2 ^ 31 }
    ensures ok { (w : World) → IsHost driver.old.host w → IfOk result (FieldsEnded
        (checking_by C.after C.clock C.wakes manner.now.request.now)
        sheet.now.contents.fields w driver.old.host.store.disk
        (passage driver.old.sources driver.new.sources (W.contents writer.old)
        (W.contents writer.new))) }
    ensures err { (w : World) → IsHost driver.old.host w → IfErr result (FieldsStopped
        (checking_by C.after C.clock C.wakes manner.now.request.now)
        sheet.now.contents.fields w driver.old.host.store.disk
        (passage driver.old.sources driver.new.sources (W.contents writer.old)
        (W.contents writer.new))) }
    ensures shown { SheetShows (display manner.now.request.now.format P.shows)
        (checked_count manner.now.request.now.chosen sheet.now.contents.fields)
        progress.old progress.new result }
{
    let counted = check_fields(manner, sheet, driver, progress, writer);
    progress.show(Sight::Nothing);
    stop_all(&driver.host, &mut driver.sources);
    counted
}

/// Checks a worksheet on a copy of it, whose host ends here. None where there is no memory for the copy.
fn checked_on_copy<C: Sources, W: Write, P: Progress>(
    manner: &CheckManner<'_>,
    sheet: &Sheet,
    sources: C,
    progress: &mut P,
    writer: &mut W,
) -> Gave<Option<Result<VerdictCounts, RunFault>>, C>
    requires made { (ops : List Op) × Makes ops sheet.now.contents }
    requires few { length sheet.now.contents.fields < 2 ^ 31 }
    ensures none { IfNone result.answer ((result.sources ≡ sources) × (writer.new ≡ writer.old)
        × (progress.new ≡ progress.old)) }
    ensures some { IfSome result.answer (λ counted. OnCopy
        (checking_by C.after C.clock C.wakes manner.now.request.now)
        sheet.now.contents
        (passage sources result.sources (W.contents writer.old) (W.contents writer.new)) counted) }
    ensures shown { IfSome result.answer (λ counted. SheetShows
        (display manner.now.request.now.format P.shows)
        (checked_count manner.now.request.now.chosen sheet.now.contents.fields)
        progress.old progress.new counted) }
{
    let Some(host) = open_copy(manner.alloc, sheet) else {
        return Gave {
            answer: None,
            sources,
        };
    };
    let mut driver = drive_copy(manner.alloc, host, sources);
    let counted = check_and_stop(manner, sheet, &mut driver, progress, writer);
    Gave {
        answer: Some(counted),
        sources: into_sources(driver),
    }
}

/// Checks a worksheet on a copy of it, and tells the counts.
pub(crate) fn check_sheet<C: Sources, W: Write, P: Progress>(
    manner: &CheckManner<'_>,
    sheet: &Sheet,
    sources: C,
    progress: &mut P,
    writer: &mut W,
) -> Gave<Result<VerdictCounts, RunFault>, C>
    requires { (ops : List Op) × Makes ops sheet.now.contents }
    ensures checked { SheetAnswer
        (checking_by C.after C.clock C.wakes manner.now.request.now)
        sheet.now.contents (passage sources result.sources (W.contents writer.old)
        (W.contents writer.new))
        ((writer.new ≡ writer.old) × (result.sources ≡ sources)) result.answer }
    ensures shown { SheetShows (display manner.now.request.now.format P.shows)
        (checked_count manner.now.request.now.chosen sheet.now.contents.fields)
        progress.old progress.new result.answer }
{
    worksheet::laws::ops_make_worksheets();
    let Gave { answer, sources } = checked_on_copy(manner, sheet, sources, progress, writer);
    Gave {
        answer: tell_counts(manner.request.format, answer, progress, writer),
        sources,
    }
}

/// What a check answers, and the disk and the sources that it was given.
#[derive(Drop)]
pub struct Checked<D: Disk, C> {
    /// The disk: only read, or by `check_accepting` also written.
    pub disk: D,
    pub sources: C,
    /// How many evaluations came to what, or why the check ended early.
    pub answer: Result<VerdictCounts, CheckFault>,
}

/// Checks the worksheet on a disk: evaluates each field that is checked, in their order, on a
/// copy of the worksheet in memory and with interpreters of its own, each up to its end before the
/// next, and compares the output that came with the one that the field shows. The prompt is no part of
/// it. Each difference is written and flushed when it is known, and the counts at the end
/// (docs/use/CHECK.md). A field whose evaluation gave no answer is counted as unanswered, and the next one
/// is checked with a new interpreter.
///
/// With a limit, a field may take so many seconds from when its line was sent. Then its interpreter is
/// interrupted, and where an item still waits two seconds later it has stalled: the field is unanswered.
///
/// After each field that was checked `progress` shows how far the check is. That is taken away before a
/// difference is written, at the end, before the counts, and at a fault.
///
/// At the end and at a fault each life that goes on is stopped. The disk is only read, and the
/// worksheet there stays as it is.
///
/// `Open` where the disk isn't opened, `NoField` where the worksheet lacks a field whose number is left out or
/// compared: nothing was done. `OutOfMemory`, also where the copy has no room in memory, `Host` where the host of
/// the copy has another fault, `Input` where the sources can't be watched, and `InputTooLong` after 2^64 - 1 rounds
/// of one field: what was reported before is written. `Output` where the writer fails: a part of the text may have
/// gone out.
pub fn check<D: Disk, C: Sources, W: Write, P: Progress>(
    manner: &CheckManner<'_>,
    disk: D,
    sources: C,
    progress: &mut P,
    writer: &mut W,
) -> Checked<D, C>
    ensures checked { CheckAnswer
        (checking_by C.after C.clock C.wakes manner.now.request.now)
        (D.view disk) (passage sources result.sources (W.contents writer.old)
        (W.contents writer.new))
        ((writer.new ≡ writer.old) × (result.sources ≡ sources)) result.answer }
    ensures read { OnlyRead (D.view disk) (D.view result.disk) }

    ensures shown { CheckShows (display manner.now.request.now.format P.shows)
        manner.now.request.now.chosen (D.view disk)
        progress.old progress.new result.answer }

    // That the disk failed is reported only where it did.
    ensures failed { result.answer ≡ Err (checks.Run (reported.Open opens.Disk))
        → Rises (D.view disk).faults (D.view result.disk).faults }

    // Where anything else is answered, no call of the disk failed.
    ensures steady { (result.answer ≡ Err (checks.Run (reported.Open opens.Disk)) → ⊥)
        → (D.view result.disk).faults ≡ (D.view disk).faults }
{
    match Store::open(manner.alloc, disk) {
        Ok(store) => {
            let Gave { answer, sources } = check_named(
                manner,
                store.sheet(),
                sources,
                progress,
                writer,
            );
            Checked {
                disk: store.into_disk(),
                sources,
                answer,
            }
        }
        Err(OpenFault { cause, disk }) => Checked {
            disk,
            sources,
            answer: Err(CheckFault::Run(RunFault::Open(cause))),
        },
    }
}
