//! The check of a worksheet whose answers that differ, or are new, are accepted.
ghost use Rattle.std.specs.Prelude.{◌≡◌, ◌+◌, ◌≤◌, ◌<◌, ◌^◌, [], List, Err, IfErr, IfNone, IfOk, IfSome, Some, false, length, true};
ghost use Rattle.disk_model.specs.Disk.{DiskView, Rises};
ghost use Rattle.worksheet.specs.declared.op.Op.{Op};
ghost use Rattle.worksheet.specs.Checks.{has_field};
ghost use Rattle.recovery.specs.Sheets.{Makes};
ghost use Rattle.session_engine.specs.World.{World};
ghost use Rattle.session_engine.specs.Host.{IsHost};
ghost use Rattle.child_edge.specs.Faithful.{at};
ghost use Rattle.sheet_check.specs.Kept.{Stores};
ghost use Rattle.offline_programs.specs.declared.fault.RunFault.TheVariants as reported;
ghost use Rattle.journal.specs.declared.opening.OpenCause.TheVariants as opens;
ghost use Rattle.check_report.specs.Chosen.{is_chosen};
ghost use Rattle.check_report.specs.Verdicts.{total};
ghost use Rattle.check_report.specs.declared.report.ReportFormat.TheVariants as format;
ghost use Rattle.sheet_check.specs.Accept.{AcceptAnswer, AcceptLeft, FiledAll, SheetAccepts, acceptance, accepted, accepting_by, filing};
ghost use Rattle.sheet_check.specs.Check.{IsCopy, passage};
ghost use Rattle.sheet_check.specs.declared.named.CheckFault.TheVariants as checks;
ghost use Rattle.sheet_check.specs.Progress.{CheckShows, FieldsLeft, FieldsShow, LeavesLine, SheetShows, checked_count, display};
ghost use Rattle.sheet_check.specs.inside.Accepting.{FieldBroke, FieldsBroke, FieldsTook, GoesOn, OnCopy, Puts, StampedSo, putting};
ghost use Rattle.sheet_check.specs.inside.Checking.{FieldShown, FieldWrote, FieldsEnded};
ghost use Rattle.live.specs.Records.{left};

use crate::accept_shown::accept_shown;
use crate::checking::Checked;
use crate::closing::tell_counts;
use crate::copying::open_copy;
use crate::driving::{CopyDriver, Gave, drive_copy, into_sources};
use crate::manner::{CheckManner, Suite};
use crate::named::{CheckFault, accept_named};
use crate::places::FieldPlace;
use crate::progress::{Progress, Sight};
use crate::sessions::count_checked;
use arrivals::Sources;
use check_report::{ReportFormat, VerdictCounts};
use child_edge::stop_all;
use disk_model::Disk;
use driver::Stamped;
use journal::OpenFault;
use offline_programs::RunFault;
use recovery::{Store, one_sheet};

/// Checks a field, where it is one of those that are, and accepts what came where it differs or is new. The counts with what that came to, which are shown.
fn accept_field<D: Disk, S: Disk, C: Sources, W: Stamped, P: Progress>(
    place: &FieldPlace<'_>,
    driver: &mut CopyDriver<D, C>,
    store: &mut Store<S>,
    progress: &mut P,
    writer: &mut W,
) -> Result<VerdictCounts, RunFault>
    requires few { total place.now.counts < 2 ^ 31 }
    requires errors { place.now.counts.errors ≤ total place.now.counts }
    requires stands { (w : World) × IsHost driver.old.host w }
    requires open { store.old.closed ≡ false }
    requires there { has_field store.old.sheet.contents place.now.field.now.id ≡ true }
    requires at_once { store.old.gathers ≡ false }
    ensures written { store.old.gathers ≡ false → store.new.gathers ≡ false }
    ensures ok { (w : World) → IsHost driver.old.host w → IfOk result (λ after. (wrote : FieldWrote
        (accepting_by C.after C.clock C.wakes place.now.manner.request.now)
        place.now.field.now (at w driver.old.sources driver.old.host.store.disk)
        (left driver.new.host driver.new.sources (W.contents writer.old) (W.contents writer.new))
        place.now.counts after)
        × Puts (putting store.old store.new) (accepted wrote.0)) }
    ensures bound { IfOk result (λ after. total after ≤ total place.now.counts + 1) }
    ensures errors { IfOk result (λ after. after.errors ≤ total after) }
    ensures err { (w : World) → IsHost driver.old.host w → IfErr result (FieldBroke
        (accepting_by C.after C.clock C.wakes place.now.manner.request.now)
        place.now.field.now (at w driver.old.sources driver.old.host.store.disk)
        (left driver.new.host driver.new.sources (W.contents writer.old) (W.contents writer.new))
        (putting store.old store.new)) }
    ensures stamped { is_chosen place.now.manner.request.now.chosen place.now.field.now ≡ true
        → StampedSo W.held (W.contents writer.old) store.new.disk result }
    ensures shown { IfOk result (λ after.
        FieldShown (display format.Accepting P.shows) place.now.all place.now.counts after
        progress.old progress.new) }
    ensures left { IfErr result (λ _. LeavesLine P.shows progress.old progress.new) }
{
    if !place.manner.request.chosen.has(place.field) {
        return Ok(place.counts);
    }
    match accept_shown(place, driver, store, progress, writer) {
        Ok(judgement) => Ok(place.counted(judgement, progress)),
        Err(fault) => Err(fault),
    }
}

/// Checks the fields of a worksheet in their order, and accepts the answers that differ or are new.
fn accept_fields<D: Disk, S: Disk, C: Sources, W: Stamped, P: Progress>(
    suite: &Suite<'_>,
    driver: &mut CopyDriver<D, C>,
    store: &mut Store<S>,
    progress: &mut P,
    writer: &mut W,
) -> Result<VerdictCounts, RunFault>
    requires few { length suite.now.sheet.now.contents.fields < 2 ^ 31 }
    requires stands { (w : World) × IsHost driver.old.host w }
    requires goes_on { GoesOn suite.now.sheet.now.contents store.old }
    requires at_once { store.old.gathers ≡ false }
    ensures written { store.old.gathers ≡ false → store.new.gathers ≡ false }
    ensures ok { (w : World) → IsHost driver.old.host w → (ops : List Op) → (disk : DiskView)
        → Stores ops [] disk store.old → IfOk result (FieldsTook
        (accepting_by C.after C.clock C.wakes suite.now.manner.request.now)
        suite.now.sheet.now.contents.fields (at w driver.old.sources driver.old.host.store.disk)
        (left driver.new.host driver.new.sources (W.contents writer.old) (W.contents writer.new))
        (filing W.held ops disk store.new.disk)) }
    ensures err { (w : World) → IsHost driver.old.host w → (ops : List Op) → (disk : DiskView)
        → Stores ops [] disk store.old → IfErr result (FieldsBroke
        (accepting_by C.after C.clock C.wakes suite.now.manner.request.now)
        suite.now.sheet.now.contents.fields (at w driver.old.sources driver.old.host.store.disk)
        (left driver.new.host driver.new.sources (W.contents writer.old) (W.contents writer.new))
        (filing W.held ops disk store.new.disk)) }
    ensures shown { IfOk result (λ counts.
        FieldsShow (display format.Accepting P.shows)
        (checked_count suite.now.manner.request.now.chosen suite.now.sheet.now.contents.fields)
        progress.old counts progress.new) }
    ensures left { IfErr result (λ _.
        FieldsLeft (display format.Accepting P.shows)
        (checked_count suite.now.manner.request.now.chosen suite.now.sheet.now.contents.fields)
        progress.old progress.new) }
{
    let all = count_checked(&suite.manner.request.chosen, suite.sheet);
    let mut counts = VerdictCounts::none();
    let mut fields = suite.sheet.fields();
    while let Some(field) = fields.next() {
        let place = FieldPlace {
            manner: suite.manner,
            field,
            counts,
            all,
        };
        match accept_field(&place, driver, store, progress, writer) {
            Ok(after) => counts = after,
            Err(fault) => return Err(fault),
        }
    }
    Ok(counts)
}

/// Checks the fields and accepts answers, takes the line of progress away, and stops each life that goes on.
fn accept_and_stop<D: Disk, S: Disk, C: Sources, W: Stamped, P: Progress>(
    suite: &Suite<'_>,
    driver: &mut CopyDriver<D, C>,
    store: &mut Store<S>,
    progress: &mut P,
    writer: &mut W,
) -> Result<VerdictCounts, RunFault>
    requires few { length suite.now.sheet.now.contents.fields < 2 ^ 31 }
    requires stands { (w : World) × IsHost driver.old.host w }
    requires goes_on { GoesOn suite.now.sheet.now.contents store.old }
    requires at_once { store.old.gathers ≡ false }
    ensures written { store.old.gathers ≡ false → store.new.gathers ≡ false }
    ensures ok { (w : World) → IsHost driver.old.host w → (ops : List Op) → (disk : DiskView)
        → Stores ops [] disk store.old → IfOk result (λ counts. (ended : FieldsEnded
        (accepting_by C.after C.clock C.wakes suite.now.manner.request.now)
        suite.now.sheet.now.contents.fields w driver.old.host.store.disk
        (passage driver.old.sources driver.new.sources (W.contents writer.old)
        (W.contents writer.new)) counts)
        × FiledAll (filing W.held ops disk store.new.disk) (W.contents writer.old) ended.0) }
    ensures err { (w : World) → IsHost driver.old.host w
        → IsCopy suite.now.sheet.now.contents w driver.old.host.store.disk
        → (ops : List Op) → (disk : DiskView) → Stores ops [] disk store.old
        → IfErr result (AcceptLeft
        (accepting_by C.after C.clock C.wakes suite.now.manner.request.now)
        suite.now.sheet.now.contents
        (passage driver.old.sources driver.new.sources (W.contents writer.old)
        (W.contents writer.new)) (filing W.held ops disk store.new.disk)) }
    ensures shown { SheetShows (display format.Accepting P.shows)
        (checked_count suite.now.manner.request.now.chosen suite.now.sheet.now.contents.fields)
        progress.old progress.new result }
{
    let counted = accept_fields(suite, driver, store, progress, writer);
    progress.show(Sight::Nothing);
    stop_all(&driver.host, &mut driver.sources);
    counted
}

/// Checks a worksheet on a copy of it, and accepts the answers that differ or are new in the store, which had
/// the same. None where there is no memory for the copy.
fn accepted_on_copy<S: Disk, C: Sources, W: Stamped, P: Progress>(
    suite: &Suite<'_>,
    sources: C,
    store: &mut Store<S>,
    progress: &mut P,
    writer: &mut W,
) -> Gave<Option<Result<VerdictCounts, RunFault>>, C>
    requires made { (ops : List Op) × Makes ops suite.now.sheet.now.contents }
    requires few { length suite.now.sheet.now.contents.fields < 2 ^ 31 }
    requires goes_on { GoesOn suite.now.sheet.now.contents store.old }
    requires at_once { store.old.gathers ≡ false }
    ensures written { store.old.gathers ≡ false → store.new.gathers ≡ false }
    ensures none { IfNone result.answer ((result.sources ≡ sources) × (writer.new ≡ writer.old)
        × (progress.new ≡ progress.old) × (store.new ≡ store.old)) }
    ensures some { (ops : List Op) → (disk : DiskView) → Stores ops [] disk store.old
        → IfSome result.answer (OnCopy
        (accepting_by C.after C.clock C.wakes suite.now.manner.request.now)
        suite.now.sheet.now.contents
        (passage sources result.sources (W.contents writer.old) (W.contents writer.new))
        (filing W.held ops disk store.new.disk)) }
    ensures shown { IfSome result.answer (λ counted. SheetShows (display format.Accepting P.shows)
        (checked_count suite.now.manner.request.now.chosen suite.now.sheet.now.contents.fields)
        progress.old progress.new counted) }
{
    let Some(host) = open_copy(suite.manner.alloc, suite.sheet) else {
        return Gave {
            answer: None,
            sources,
        };
    };
    let mut driver = drive_copy(suite.manner.alloc, host, sources);
    let counted = accept_and_stop(suite, &mut driver, store, progress, writer);
    Gave {
        answer: Some(counted),
        sources: into_sources(driver),
    }
}

/// Checks the worksheet of a store on a copy of it, accepts answers in the store, and compares with a second copy, which stays as the
/// worksheet was. None where there is no memory for the copies.
fn accepted_on_copies<S: Disk, C: Sources, W: Stamped, P: Progress>(
    manner: &CheckManner<'_>,
    sources: C,
    store: &mut Store<S>,
    progress: &mut P,
    writer: &mut W,
) -> Gave<Option<Result<VerdictCounts, RunFault>>, C>
    requires made { (ops : List Op) × Makes ops store.old.sheet.contents }
    requires few { length store.old.sheet.contents.fields < 2 ^ 31 }
    requires goes_on { GoesOn store.old.sheet.contents store.old }
    requires at_once { store.old.gathers ≡ false }
    ensures written { store.old.gathers ≡ false → store.new.gathers ≡ false }
    ensures none { IfNone result.answer ((result.sources ≡ sources) × (writer.new ≡ writer.old)
        × (progress.new ≡ progress.old) × (store.new ≡ store.old)) }
    ensures some { (ops : List Op) → (disk : DiskView) → Stores ops [] disk store.old
        → IfSome result.answer (OnCopy
        (accepting_by C.after C.clock C.wakes manner.now.request.now)
        store.old.sheet.contents
        (passage sources result.sources (W.contents writer.old) (W.contents writer.new))
        (filing W.held ops disk store.new.disk)) }
    ensures shown { IfSome result.answer (λ counted. SheetShows (display format.Accepting P.shows)
        (checked_count manner.now.request.now.chosen store.old.sheet.contents.fields)
        progress.old progress.new counted) }
{
    one_sheet();
    match open_copy(manner.alloc, store.sheet()) {
        Some(was) => {
            let suite = Suite {
                manner: *manner,
                sheet: was.sheet(),
            };
            accepted_on_copy(&suite, sources, store, progress, writer)
        }
        None => Gave {
            answer: None,
            sources,
        },
    }
}

/// Checks the worksheet of a store, accepts the answers that differ or are new, and tells the counts.
pub(crate) fn accept_sheet<S: Disk, C: Sources, W: Stamped, P: Progress>(
    manner: &CheckManner<'_>,
    sources: C,
    store: &mut Store<S>,
    progress: &mut P,
    writer: &mut W,
) -> Gave<Result<VerdictCounts, RunFault>, C>
    requires made { (ops : List Op) × Makes ops store.old.sheet.contents }
    requires goes_on { GoesOn store.old.sheet.contents store.old }
    requires at_once { store.old.gathers ≡ false }
    ensures written { store.old.gathers ≡ false → store.new.gathers ≡ false }
    ensures accepted { (ops : List Op) → (disk : DiskView) → Stores ops [] disk store.old
        → SheetAccepts
        (accepting_by C.after C.clock C.wakes manner.now.request.now)
        store.old.sheet.contents
        (passage sources result.sources (W.contents writer.old) (W.contents writer.new))
        ((writer.new ≡ writer.old) × (result.sources ≡ sources))
        (filing W.held ops disk store.new.disk) result.answer }
    ensures shown { SheetShows (display format.Accepting P.shows)
        (checked_count manner.now.request.now.chosen store.old.sheet.contents.fields)
        progress.old progress.new result.answer }
{
    worksheet::laws::ops_make_worksheets();
    let Gave { answer, sources } = accepted_on_copies(manner, sources, store, progress, writer);
    Gave {
        answer: tell_counts(ReportFormat::Accepting, answer, progress, writer),
        sources,
    }
}

/// Checks the worksheet on a disk as `check` does, and accepts the answers that differ or are new: each of them is
/// put into its field, with the prompt that came with it, and is durable before its difference is
/// written, with a line `accepted ID` after it. Where the output is the same, where no answer came, or none
/// in time, and where a field is left out, nothing is put anywhere. The worksheet is then the one from before with
/// those answers, in their order, and no other change.
///
/// `Open` where the disk isn't opened, `NoField` where the worksheet lacks a field whose number is left out or
/// compared: nothing was done. `Host(JournalFull)` where an answer doesn't fit
/// on the disk, or on that of the copy; `Host(Disk)` where the disk failed: one answer more than was reported
/// may be on it. `Output` where the writer fails: the answer of the case whose text was tried is on it, too, and of that text a
/// part may have gone out. `OutOfMemory`, `Host` of another fault of the copy's
/// host, and `Input` and `InputTooLong` as of `check`: what was reported is on the disk, and no more.
pub fn check_accepting<D: Disk, C: Sources, W: Stamped, P: Progress>(
    manner: &CheckManner<'_>,
    disk: D,
    sources: C,
    progress: &mut P,
    writer: &mut W,
) -> Checked<D, C>
    ensures accepted { AcceptAnswer
        (accepting_by C.after C.clock C.wakes manner.now.request.now)
        (acceptance W.held (D.view disk) (D.view result.disk))
        (passage sources result.sources (W.contents writer.old) (W.contents writer.new))
        ((writer.new ≡ writer.old) × (result.sources ≡ sources)) result.answer }

    ensures shown { CheckShows (display format.Accepting P.shows) manner.now.request.now.chosen
        (D.view disk)
        progress.old progress.new result.answer }

    // That the disk can't be read is reported only where it failed.
    ensures failed { result.answer ≡ Err (checks.Run (reported.Open opens.Disk))
        → Rises (D.view disk).faults (D.view result.disk).faults }

    // Lack of memory at the opening is reported only where no call of the disk failed.
    ensures memory { result.answer ≡ Err (checks.Run (reported.Open opens.OutOfMemory))
        → (D.view result.disk).faults ≡ (D.view disk).faults }
{
    match Store::open(manner.alloc, disk) {
        Ok(mut store) => {
            let Gave { answer, sources } = accept_named(
                manner, sources, &mut store, progress, writer,
            );
            Checked {
                disk: store.into_disk(),
                sources,
                answer,
            }
        }
        Err(OpenFault { cause, disk }) => Checked {
            disk,
            sources,
            answer: Err(CheckFault::Run(RunFault::Open(cause))),
        },
    }
}
