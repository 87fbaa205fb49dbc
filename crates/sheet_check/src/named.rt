//! The fields that a check names by their numbers, where a worksheet has them.
ghost use Rattle.std.specs.Prelude.{◌≡◌, [], List, false, find};
ghost use Rattle.disk_model.specs.Disk.{DiskView};
ghost use Rattle.worksheet.specs.declared.op.Op.{Op};
ghost use Rattle.recovery.specs.Sheets.{Makes};
ghost use Rattle.check_report.specs.declared.report.ReportFormat.TheVariants as formats;
ghost use Rattle.evaluation.specs.Meant as meant;
ghost use Rattle.sheet_check.specs.Accept.{SheetAccepts, accepting_by, filing};
ghost use Rattle.sheet_check.specs.Check.{SheetAnswer, passage};
ghost use Rattle.sheet_check.specs.Kept.{Stores};
ghost use Rattle.sheet_check.specs.Named.{ByNames, missing_named};
ghost use Rattle.sheet_check.specs.Named as named;
ghost use Rattle.sheet_check.specs.Progress.{SheetShows, checked_count, display};
ghost use Rattle.sheet_check.specs.Together.{TellsBySessions, together_by};
ghost use Rattle.sheet_check.specs.inside.Accepting.{GoesOn};
ghost use Rattle.sheet_check.specs.Evaluated.{checking_by};

use crate::accept_fields::accept_sheet;
use crate::checking::check_sheet;
use crate::driving::Gave;
use crate::manner::{CheckManner, CheckSetup};
use crate::progress::Progress;
use crate::together::check_by_sessions;
use arrivals::Sources;
use check_report::{Chosen, Ids, VerdictCounts};
use disk_model::Disk;
use driver::Stamped;
use offline_programs::RunFault;
use recovery::Store;
use std::io::Write;
use worksheet::Sheet;

/// Why a check didn't come to its end.
#[derive(Clone, Copy, Debug, PartialEq, Eq)]
pub enum CheckFault {
    /// 37: no field has this number, which is one of those that are left out or compared. Nothing was evaluated,
    /// and nothing of a field was written.
    NoField(u32),
    /// A fault that other programs have too.
    Run(RunFault),
}

/// What a check answers by what came of it.
fn answer_as(counted: Result<VerdictCounts, RunFault>) -> Result<VerdictCounts, CheckFault>
    ensures { result ≡ named.answer_as counted }
{
    match counted {
        Ok(counts) => Ok(counts),
        Err(why) => Err(CheckFault::Run(why)),
    }
}

/// Whether no field has this number.
fn is_missing(sheet: &Sheet, id: u32) -> bool
    ensures { result ≡ meant.is_missing sheet.now.contents.fields id }
{
    sheet.field(id).is_none()
}

/// Whether no field has the first or the last of these numbers.
fn lacks_end(sheet: &Sheet, ids: Ids) -> bool
    ensures { result ≡ named.lacks_end sheet.now.contents.fields ids }
{
    is_missing(sheet, ids.first) || is_missing(sheet, ids.last)
}

/// Which of them no field has, and of two the first.
fn missing_end(sheet: &Sheet, ids: Ids) -> u32
    ensures { result ≡ named.missing_end sheet.now.contents.fields ids }
{
    if is_missing(sheet, ids.first) {
        ids.first
    } else {
        ids.last
    }
}

/// The first of these that lack a field.
fn first_lacking(sheet: &Sheet, ids: &[Ids]) -> Option<Ids>
    ensures { result ≡ find (named.lacks_end sheet.now.contents.fields) ids.now }
{
    ids.iter().copied().find(|one| lacks_end(sheet, *one))
}

/// The first number of these that no field has.
fn missing_of(sheet: &Sheet, ids: &[Ids]) -> Option<u32>
    ensures { result ≡ named.missing_of sheet.now.contents.fields ids.now }
{
    match first_lacking(sheet, ids) {
        None => None,
        Some(one) => Some(missing_end(sheet, one)),
    }
}

/// The first number that no field has, of those that alone are compared.
fn missing_compared(chosen: &Chosen, sheet: &Sheet) -> Option<u32>
    ensures { result ≡ named.missing_compared sheet.now.contents.fields chosen.now.compared }
{
    match &chosen.compared {
        None => None,
        Some(ids) => missing_of(sheet, ids.as_slice()),
    }
}

/// The first number that is named and that no field has.
fn missing_named(chosen: &Chosen, sheet: &Sheet) -> Option<u32>
    ensures { result ≡ named.missing_named chosen.now sheet.now.contents.fields }
{
    match missing_of(sheet, chosen.left_out.as_slice()) {
        Some(id) => Some(id),
        None => missing_compared(chosen, sheet),
    }
}

/// Checks a worksheet, where it has the fields that are named.
pub(crate) fn check_named<C: Sources, W: Write, P: Progress>(
    manner: &CheckManner<'_>,
    sheet: &Sheet,
    sources: C,
    progress: &mut P,
    writer: &mut W,
) -> Gave<Result<VerdictCounts, CheckFault>, C>
    requires { (ops : List Op) × Makes ops sheet.now.contents }
    ensures checked { ByNames (missing_named manner.now.request.now.chosen
        sheet.now.contents.fields)
        ((writer.new ≡ writer.old) × (result.sources ≡ sources))
        (SheetAnswer
        (checking_by C.after C.clock C.wakes manner.now.request.now)
        sheet.now.contents (passage sources result.sources (W.contents writer.old)
        (W.contents writer.new))
        ((writer.new ≡ writer.old) × (result.sources ≡ sources))) result.answer }
    ensures shown { ByNames (missing_named manner.now.request.now.chosen sheet.now.contents.fields)
        (progress.new ≡ progress.old)
        (SheetShows (display manner.now.request.now.format P.shows)
        (checked_count manner.now.request.now.chosen sheet.now.contents.fields) progress.old
        progress.new) result.answer }
{
    match missing_named(&manner.request.chosen, sheet) {
        Some(id) => Gave {
            answer: Err(CheckFault::NoField(id)),
            sources,
        },
        None => {
            let Gave { answer, sources } = check_sheet(manner, sheet, sources, progress, writer);
            Gave {
                answer: answer_as(answer),
                sources,
            }
        }
    }
}

/// Checks a worksheet, where it has the fields that are named: side by side where the fields that are checked are of several sessions.
pub(crate) fn check_named_together<C: Sources, W: Write, P: Progress>(
    beside: &CheckSetup<'_>,
    sheet: &Sheet,
    sources: C,
    progress: &mut P,
    writer: &mut W,
) -> Gave<Result<VerdictCounts, CheckFault>, C>
    requires { (ops : List Op) × Makes ops sheet.now.contents }
    ensures checked { ByNames (missing_named beside.now.manner.request.now.chosen
        sheet.now.contents.fields)
        ((writer.new ≡ writer.old) × (result.sources ≡ sources))
        (TellsBySessions
        (together_by C.after C.clock C.wakes beside.now.jobs beside.now.manner.request.now)
        sheet.now.contents (passage sources result.sources (W.contents writer.old)
        (W.contents writer.new))
        ((writer.new ≡ writer.old) × (result.sources ≡ sources))) result.answer }
    ensures shown { ByNames (missing_named beside.now.manner.request.now.chosen
        sheet.now.contents.fields)
        (progress.new ≡ progress.old)
        (SheetShows (display beside.now.manner.request.now.format P.shows)
        (checked_count beside.now.manner.request.now.chosen sheet.now.contents.fields) progress.old
        progress.new) result.answer }
{
    match missing_named(&beside.manner.request.chosen, sheet) {
        Some(id) => Gave {
            answer: Err(CheckFault::NoField(id)),
            sources,
        },
        None => {
            let Gave { answer, sources } = check_by_sessions(
                beside, sheet, sources, progress, writer,
            );
            Gave {
                answer: answer_as(answer),
                sources,
            }
        }
    }
}

/// Checks the worksheet of a store, where it has the fields that are named, and accepts the answers that differ or are new.
pub(crate) fn accept_named<S: Disk, C: Sources, W: Stamped, P: Progress>(
    manner: &CheckManner<'_>,
    sources: C,
    store: &mut Store<S>,
    progress: &mut P,
    writer: &mut W,
) -> Gave<Result<VerdictCounts, CheckFault>, C>
    requires made { (ops : List Op) × Makes ops store.old.sheet.contents }
    requires goes_on { GoesOn store.old.sheet.contents store.old }
    requires at_once { store.old.gathers ≡ false }
    ensures written { store.old.gathers ≡ false → store.new.gathers ≡ false }
    ensures accepted { (ops : List Op) → (disk : DiskView) → Stores ops [] disk store.old
        → ByNames (missing_named manner.now.request.now.chosen store.old.sheet.contents.fields)
        (((writer.new ≡ writer.old) × (result.sources ≡ sources)) × (store.new ≡ store.old))
        (SheetAccepts
        (accepting_by C.after C.clock C.wakes manner.now.request.now)
        store.old.sheet.contents
        (passage sources result.sources (W.contents writer.old) (W.contents writer.new))
        ((writer.new ≡ writer.old) × (result.sources ≡ sources)) (filing W.held ops disk store.new.disk))
        result.answer }
    ensures shown { ByNames (missing_named manner.now.request.now.chosen
        store.old.sheet.contents.fields)
        (progress.new ≡ progress.old)
        (SheetShows (display formats.Accepting P.shows)
        (checked_count manner.now.request.now.chosen store.old.sheet.contents.fields) progress.old
        progress.new) result.answer }
{
    let missing = missing_named(&manner.request.chosen, store.sheet());
    match missing {
        Some(id) => Gave {
            answer: Err(CheckFault::NoField(id)),
            sources,
        },
        None => {
            let Gave { answer, sources } = accept_sheet(manner, sources, store, progress, writer);
            Gave {
                answer: answer_as(answer),
                sources,
            }
        }
    }
}
