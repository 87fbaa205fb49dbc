//! The check of a worksheet whose fields are evaluated side by side.
ghost use Rattle.std.specs.Prelude.{◌≡◌, ◌<◌, ◌^◌, List, Err, IfErr, IfNone, IfOk, IfSome, length};
ghost use Rattle.worksheet.specs.declared.op.Op.{Op};
ghost use Rattle.recovery.specs.Sheets.{Makes};
ghost use Rattle.session_engine.specs.World.{World};
ghost use Rattle.session_engine.specs.Host.{IsHost};
ghost use Rattle.child_edge.specs.Faithful.{at};
ghost use Rattle.disk_model.specs.Disk.{Rises};
ghost use Rattle.offline_programs.specs.declared.fault.RunFault.TheVariants as reported;
ghost use Rattle.journal.specs.declared.opening.OpenCause.TheVariants as opens;
ghost use Rattle.live.specs.Records.{left};
ghost use Rattle.sheet_check.specs.Check.{IsCopy, OnlyRead, passage};
ghost use Rattle.sheet_check.specs.declared.named.CheckFault.TheVariants as checks;
ghost use Rattle.sheet_check.specs.Progress.{CheckShows, FieldsLeft, FieldsShow, SheetShows, checked_count, display};
ghost use Rattle.sheet_check.specs.Together.{TellsBySessions, TellsTogether, TogetherAnswer, TogetherTells, cleared, together_by};
ghost use Rattle.sheet_check.specs.inside.Comparing.{BrokeTogether, CameTogether, EndedTogether, FailedTogether, OnCleared, ReportedTogether};

use crate::checking::{Checked, check_sheet};
use crate::clearing::{checked_ids, open_cleared};
use crate::closing::tell_counts;
use crate::comparing::compare_fields;
use crate::driving::{CopyDriver, Gave, checking_plan, drive_copy, drive_plan, into_sources};
use crate::evaluating::copy_fault;
use crate::manner::CheckSetup;
use crate::named::{CheckFault, check_named_together};
use crate::progress::{Progress, Sight};
use crate::sessions::has_several;
use arrivals::Sources;
use check_report::VerdictCounts;
use child_edge::stop_all;
use disk_model::Disk;
use journal::OpenFault;
use offline_programs::RunFault;
use recovery::Store;
use std::io::Write;
use worksheet::Sheet;

/// Evaluates the fields of a worksheet that are checked, on a copy of it. The marks of that are in the driver's
/// sink.
fn evaluate_checked<D: Disk, C: Sources>(
    beside: &CheckSetup<'_>,
    sheet: &Sheet,
    driver: &mut CopyDriver<D, C>,
) -> Result<(), RunFault>
    requires { (w : World) × IsHost driver.old.host w }
    ensures ok { (w : World) → IsHost driver.old.host w → IfOk result (λ done. CameTogether
        (together_by C.after C.clock C.wakes beside.now.jobs beside.now.manner.request.now)
        sheet.now.contents.fields (at w driver.old.sources driver.old.host.store.disk)
        driver.new.host driver.new.sources driver.new.sink.kept) }
    ensures err { (w : World) → IsHost driver.old.host w → IfErr result (BrokeTogether
        (together_by C.after C.clock C.wakes beside.now.jobs beside.now.manner.request.now)
        sheet.now.contents.fields (at w driver.old.sources driver.old.host.store.disk)
        driver.new.host driver.new.sources) }
{
    let manner = beside.manner;
    let Ok(ids) = checked_ids(manner.alloc, &manner.request.chosen, sheet) else {
        return Err(RunFault::OutOfMemory);
    };
    let plan = checking_plan(ids, manner.request.limit, beside.jobs);
    match drive_plan(driver, plan) {
        Ok(()) => Ok(()),
        Err(fault) => Err(copy_fault(fault)),
    }
}

/// Evaluates the fields that are checked on a copy, compares them with the worksheet, and reports them.
fn check_together_on<D: Disk, C: Sources, W: Write, P: Progress>(
    beside: &CheckSetup<'_>,
    sheet: &Sheet,
    driver: &mut CopyDriver<D, C>,
    progress: &mut P,
    writer: &mut W,
) -> Result<VerdictCounts, RunFault>
    requires few { length sheet.now.contents.fields < 2 ^ 31 }
    requires stands { (w : World) × IsHost driver.old.host w }
    ensures ok { (w : World) → IsHost driver.old.host w → IfOk result (ReportedTogether
        (together_by C.after C.clock C.wakes beside.now.jobs beside.now.manner.request.now)
        sheet.now.contents.fields (at w driver.old.sources driver.old.host.store.disk)
        (left driver.new.host driver.new.sources (W.contents writer.old) (W.contents writer.new))) }
    ensures err { (w : World) → IsHost driver.old.host w → IfErr result (FailedTogether
        (together_by C.after C.clock C.wakes beside.now.jobs beside.now.manner.request.now)
        sheet.now.contents.fields (at w driver.old.sources driver.old.host.store.disk)
        (left driver.new.host driver.new.sources (W.contents writer.old) (W.contents writer.new))) }
    ensures shown { IfOk result (λ counts.
        FieldsShow (display beside.now.manner.request.now.format P.shows)
        (checked_count beside.now.manner.request.now.chosen sheet.now.contents.fields) progress.old
        counts progress.new) }
    ensures left { IfErr result (λ _.
        FieldsLeft (display beside.now.manner.request.now.format P.shows)
        (checked_count beside.now.manner.request.now.chosen sheet.now.contents.fields) progress.old
        progress.new) }
{
    match evaluate_checked(beside, sheet, driver) {
        Ok(()) => compare_fields(&beside.manner, sheet, driver, progress, writer),
        Err(fault) => Err(fault),
    }
}

/// Evaluates, compares and reports them, takes the line of progress away, and stops each life that goes on.
fn check_together_and_stop<D: Disk, C: Sources, W: Write, P: Progress>(
    beside: &CheckSetup<'_>,
    sheet: &Sheet,
    driver: &mut CopyDriver<D, C>,
    progress: &mut P,
    writer: &mut W,
) -> Result<VerdictCounts, RunFault>
    requires few { length sheet.now.contents.fields < 2 ^ 31 }
    requires stands { (w : World) × IsHost driver.old.host w }
    ensures ok { (w : World) → IsHost driver.old.host w
        → IsCopy (cleared beside.now.manner.request.now.chosen sheet.now.contents.fields
        sheet.now.contents) w driver.old.host.store.disk
        → IfOk result (EndedTogether
        (together_by C.after C.clock C.wakes beside.now.jobs beside.now.manner.request.now)
        sheet.now.contents (passage driver.old.sources driver.new.sources (W.contents writer.old)
        (W.contents writer.new))) }
    ensures err { (w : World) → IsHost driver.old.host w
        → IsCopy (cleared beside.now.manner.request.now.chosen sheet.now.contents.fields
        sheet.now.contents) w driver.old.host.store.disk
        → IfErr result (TellsTogether
        (together_by C.after C.clock C.wakes beside.now.jobs beside.now.manner.request.now)
        sheet.now.contents (passage driver.old.sources driver.new.sources (W.contents writer.old)
        (W.contents writer.new)) ⊥) }
    ensures shown { SheetShows (display beside.now.manner.request.now.format P.shows)
        (checked_count beside.now.manner.request.now.chosen sheet.now.contents.fields)
        progress.old progress.new result }
{
    let counted = check_together_on(beside, sheet, driver, progress, writer);
    progress.show(Sight::Nothing);
    stop_all(&driver.host, &mut driver.sources);
    counted
}

/// Checks a worksheet on a copy of it, whose host ends here. None where there is no memory for the copy.
fn together_on_copy<C: Sources, W: Write, P: Progress>(
    beside: &CheckSetup<'_>,
    sheet: &Sheet,
    sources: C,
    progress: &mut P,
    writer: &mut W,
) -> Gave<Option<Result<VerdictCounts, RunFault>>, C>
    requires made { (ops : List Op) × Makes ops sheet.now.contents }
    requires few { length sheet.now.contents.fields < 2 ^ 31 }
    ensures none { IfNone result.answer ((result.sources ≡ sources) × (writer.new ≡ writer.old)
        × (progress.new ≡ progress.old)) }
    ensures some { IfSome result.answer (OnCleared
        (together_by C.after C.clock C.wakes beside.now.jobs beside.now.manner.request.now)
        sheet.now.contents (passage sources result.sources (W.contents writer.old)
        (W.contents writer.new))) }
    ensures shown { IfSome result.answer (λ counted. SheetShows
        (display beside.now.manner.request.now.format P.shows)
        (checked_count beside.now.manner.request.now.chosen sheet.now.contents.fields)
        progress.old progress.new counted) }
{
    let manner = beside.manner;
    let Some(host) = open_cleared(manner.alloc, &manner.request.chosen, sheet) else {
        return Gave {
            answer: None,
            sources,
        };
    };
    let mut driver = drive_copy(manner.alloc, host, sources);
    let counted = check_together_and_stop(beside, sheet, &mut driver, progress, writer);
    Gave {
        answer: Some(counted),
        sources: into_sources(driver),
    }
}

/// Checks a worksheet on a copy of it, and tells the counts.
fn check_sheet_together<C: Sources, W: Write, P: Progress>(
    beside: &CheckSetup<'_>,
    sheet: &Sheet,
    sources: C,
    progress: &mut P,
    writer: &mut W,
) -> Gave<Result<VerdictCounts, RunFault>, C>
    requires { (ops : List Op) × Makes ops sheet.now.contents }
    ensures checked { TogetherTells
        (together_by C.after C.clock C.wakes beside.now.jobs beside.now.manner.request.now)
        sheet.now.contents (passage sources result.sources (W.contents writer.old)
        (W.contents writer.new))
        ((writer.new ≡ writer.old) × (result.sources ≡ sources)) result.answer }
    ensures shown { SheetShows (display beside.now.manner.request.now.format P.shows)
        (checked_count beside.now.manner.request.now.chosen sheet.now.contents.fields)
        progress.old progress.new result.answer }
{
    worksheet::laws::ops_make_worksheets();
    let Gave { answer, sources } = together_on_copy(beside, sheet, sources, progress, writer);
    Gave {
        answer: tell_counts(beside.manner.request.format, answer, progress, writer),
        sources,
    }
}

/// Checks a worksheet on a copy of it, and tells the counts: side by side where the fields that are checked are of
/// several sessions, and else one after another.
pub(crate) fn check_by_sessions<C: Sources, W: Write, P: Progress>(
    beside: &CheckSetup<'_>,
    sheet: &Sheet,
    sources: C,
    progress: &mut P,
    writer: &mut W,
) -> Gave<Result<VerdictCounts, RunFault>, C>
    requires { (ops : List Op) × Makes ops sheet.now.contents }
    ensures checked { TellsBySessions
        (together_by C.after C.clock C.wakes beside.now.jobs beside.now.manner.request.now)
        sheet.now.contents (passage sources result.sources (W.contents writer.old)
        (W.contents writer.new))
        ((writer.new ≡ writer.old) × (result.sources ≡ sources)) result.answer }
    ensures shown { SheetShows (display beside.now.manner.request.now.format P.shows)
        (checked_count beside.now.manner.request.now.chosen sheet.now.contents.fields)
        progress.old progress.new result.answer }
{
    if has_several(&beside.manner.request.chosen, sheet) {
        check_sheet_together(beside, sheet, sources, progress, writer)
    } else {
        check_sheet(&beside.manner, sheet, sources, progress, writer)
    }
}

/// Checks the worksheet on a disk as [`check`](crate::check) does, but evaluates fields of up to `jobs` sessions
/// side by side, of each session one at a time. The copy has nothing to show for the fields that are checked
/// until their answers come. What came waits there until the last answer has: then each field is compared and
/// reported, in the worksheet's order, as by `check`. Where the fields that are checked are of one session it is
/// `check`, which reports each when it is known.
///
/// With a limit, the time of fields that wait together begins when the last of them was asked, and again at each banner or answer of one
/// of them. A field whose time was over is unanswered, whatever came after its interpreter was interrupted, and the fields after it are
/// checked.
///
/// At the end and at a fault each life that goes on is stopped. The disk is only read, and the worksheet there
/// stays as it is.
///
/// `Open` where the disk isn't opened, `NoField` where the worksheet lacks a field whose number is left out or
/// compared: nothing was done. `OutOfMemory` where there is no memory for the copy, and that, `Host`, `Input` and `InputTooLong` where the
/// evaluation has such a fault: nothing was written. `OutOfMemory` where there is no memory for what is reported: what was reported before
/// is written. (A line that is refused for lack of memory leaves its field unanswered.) `Output` where the writer fails: a part of the text
/// may have gone out.
pub fn check_together<D: Disk, C: Sources, W: Write, P: Progress>(
    beside: &CheckSetup<'_>,
    disk: D,
    sources: C,
    progress: &mut P,
    writer: &mut W,
) -> Checked<D, C>
    ensures checked { TogetherAnswer
        (together_by C.after C.clock C.wakes beside.now.jobs beside.now.manner.request.now)
        (D.view disk) (passage sources result.sources (W.contents writer.old)
        (W.contents writer.new))
        ((writer.new ≡ writer.old) × (result.sources ≡ sources)) result.answer }
    ensures read { OnlyRead (D.view disk) (D.view result.disk) }

    ensures shown { CheckShows (display beside.now.manner.request.now.format P.shows)
        beside.now.manner.request.now.chosen (D.view disk)
        progress.old progress.new result.answer }

    // That the disk failed is reported only where it did.
    ensures failed { result.answer ≡ Err (checks.Run (reported.Open opens.Disk))
        → Rises (D.view disk).faults (D.view result.disk).faults }

    // Where anything else is answered, no call of the disk failed.
    ensures steady { (result.answer ≡ Err (checks.Run (reported.Open opens.Disk)) → ⊥)
        → (D.view result.disk).faults ≡ (D.view disk).faults }
{
    match Store::open(beside.manner.alloc, disk) {
        Ok(store) => {
            let Gave { answer, sources } = check_named_together(
                beside,
                store.sheet(),
                sources,
                progress,
                writer,
            );
            Checked {
                disk: store.into_disk(),
                sources,
                answer,
            }
        }
        Err(OpenFault { cause, disk }) => Checked {
            disk,
            sources,
            answer: Err(CheckFault::Run(RunFault::Open(cause))),
        },
    }
}
