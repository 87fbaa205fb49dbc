//! What fields came to that were evaluated together, compared and reported in the worksheet's order.
ghost use Rattle.std.specs.Prelude.{◌+◌, ◌≤◌, ◌<◌, ◌^◌, IfErr, IfOk, length};
ghost use Rattle.session_engine.specs.World.{World};
ghost use Rattle.session_engine.specs.Host.{IsHost};
ghost use Rattle.check_report.specs.Verdicts.{total};
ghost use Rattle.sheet_check.specs.Progress.{FieldsLeft, FieldsShow, LeavesLine, checked_count, display};
ghost use Rattle.sheet_check.specs.inside.Checking.{FieldShown, Withheld};
ghost use Rattle.sheet_check.specs.inside.Comparing.{FieldReported, FieldsReported, ReportBroke, comparing};

use crate::checking::tell_opening;
use crate::driving::CopyDriver;
use crate::manner::CheckManner;
use crate::marked::is_in_time;
use crate::places::FieldPlace;
use crate::progress::Progress;
use crate::sessions::count_checked;
use crate::telling::{Tried, tell_what_came};
use arrivals::Sources;
use check_report::VerdictCounts;
use disk_model::Disk;
use offline_programs::RunFault;
use std::io::Write;
use worksheet::Sheet;

/// Compares a field, where it is one of those that are checked, with what it shows on the copy, and tells what
/// that came to. The counts with that, which are shown.
fn compare_field<D: Disk, C: Sources, W: Write, P: Progress>(
    place: &FieldPlace<'_>,
    driver: &CopyDriver<D, C>,
    progress: &mut P,
    writer: &mut W,
) -> Result<VerdictCounts, RunFault>
    requires few { total place.now.counts < 2 ^ 31 }
    requires errors { place.now.counts.errors ≤ total place.now.counts }
    ensures ok { (w : World) → IsHost driver.now.host w → IfOk result (FieldReported
        (comparing place.now.manner.request.now.chosen place.now.manner.request.now.format w
        driver.now.sink.kept) place.now.field.now
        (W.contents writer.old) (W.contents writer.new) place.now.counts) }
    ensures bound { IfOk result (λ after. total after ≤ total place.now.counts + 1) }
    ensures errors { IfOk result (λ after. after.errors ≤ total after) }
    ensures err { IfErr result (Withheld (W.contents writer.old) (W.contents writer.new)) }
    ensures shown { IfOk result (λ after.
        FieldShown (display place.now.manner.request.now.format P.shows) place.now.all place.now.counts
        after progress.old progress.new) }
    ensures left { IfErr result (λ _. LeavesLine P.shows progress.old progress.new) }
{
    if !place.manner.request.chosen.has(place.field) {
        return Ok(place.counts);
    }
    let tried = Tried {
        number: place.number(),
        field: place.field,
        is_there: is_in_time(driver.sink.kept.as_slice(), place.field.id),
        took: None,
    };
    match tell_what_came(&place.manner, &driver.host, &tried, progress, writer) {
        Ok(judgement) => Ok(place.counted(judgement, progress)),
        Err(fault) => Err(fault),
    }
}

/// Compares the fields of a worksheet in their order, after what stands first in their report.
pub(crate) fn compare_fields<D: Disk, C: Sources, W: Write, P: Progress>(
    manner: &CheckManner<'_>,
    sheet: &Sheet,
    driver: &CopyDriver<D, C>,
    progress: &mut P,
    writer: &mut W,
) -> Result<VerdictCounts, RunFault>
    requires { length sheet.now.contents.fields < 2 ^ 31 }
    ensures ok { (w : World) → IsHost driver.now.host w → IfOk result (FieldsReported
        (comparing manner.now.request.now.chosen manner.now.request.now.format w
        driver.now.sink.kept) sheet.now.contents.fields
        (W.contents writer.old) (W.contents writer.new)) }
    ensures err { (w : World) → IsHost driver.now.host w → IfErr result (ReportBroke
        (comparing manner.now.request.now.chosen manner.now.request.now.format w
        driver.now.sink.kept) sheet.now.contents.fields
        (W.contents writer.old) (W.contents writer.new)) }
    ensures shown { IfOk result (λ counts.
        FieldsShow (display manner.now.request.now.format P.shows)
        (checked_count manner.now.request.now.chosen sheet.now.contents.fields) progress.old counts
        progress.new) }
    ensures left { IfErr result (λ _.
        FieldsLeft (display manner.now.request.now.format P.shows)
        (checked_count manner.now.request.now.chosen sheet.now.contents.fields) progress.old
        progress.new) }
{
    let all = count_checked(&manner.request.chosen, sheet);
    if let Err(fault) = tell_opening(manner.request.format, writer) {
        return Err(fault);
    }
    let mut counts = VerdictCounts::none();
    let mut fields = sheet.fields();
    while let Some(field) = fields.next() {
        let place = FieldPlace {
            manner: *manner,
            field,
            counts,
            all,
        };
        match compare_field(&place, driver, progress, writer) {
            Ok(after) => counts = after,
            Err(fault) => return Err(fault),
        }
    }
    Ok(counts)
}
