//! `check`, by what its words ask for: to compare, or to accept what differs too; of one worksheet, or of several.
ghost use Rattle.std.specs.Prelude.{◌≡◌, []};
ghost use Rattle.command_words.specs.Asked.{check_view};
ghost use Rattle.host_cli.specs.Plans.{plan_of, word_texts};
ghost use Rattle.host_cli.specs.Tasks.{AcceptsHeld, ChecksAs, ChecksBy, ChecksPaths, Compares, ComparesEach, ComparesNext, DoesCheck, TogetherAs};

use crate::outside::{Outside, Performed, System, SystemView, ended, give};
use crate::plans::{are_several, read_check_jobs, read_limit, several_fault};
use crate::refusing::{refuse_check_limit, refuse_jobs, refuse_request, refuse_several};
use check_report::{FieldWords, ReportFormat as Report, ReportWords, read_request};
use command_words::CheckWords;
use program_endings::{
    CheckEnding, GivenBack, Total, end_total, end_unheld, end_unwritten, is_unwritten, run_accept,
    run_check, run_check_together, tell_worksheet,
};
use sheet_check::{CheckManner, CheckSetup};
use sheet_files::Places;
use std::alloc::Global;

/// How the check of a worksheet ended, and what is outside then.
struct Compared<Y: System> {
    end: CheckEnding,
    outside: Outside<Y>,
}

/// `check` of the worksheet at a path, of one field after another.
fn check_as<Y: System>(mut outside: Outside<Y>, beside: &CheckSetup<'_>, path: &str) -> Compared<Y>
    ensures does { ChecksAs ⟦<Y as SystemView>⟧.outer outside result.outside result.end path.now
        (plan_of beside.now) }
    ensures leaves { result.outside.input ≡ outside.input }
{
    let files = outside.places.open_to_read(path);
    let (given, mut kept) = give(outside, files);
    let GivenBack {
        ending: end,
        sources,
        output,
    } = run_check(&beside.manner, given, &mut kept.progress, &mut kept.errors);
    Compared {
        end,
        outside: kept.with(sources, output),
    }
}

/// `check` of the worksheet at a path, of fields side by side.
fn check_together_as<Y: System>(
    mut outside: Outside<Y>,
    beside: &CheckSetup<'_>,
    path: &str,
) -> Compared<Y>
    ensures does { TogetherAs ⟦<Y as SystemView>⟧.outer outside result.outside result.end path.now
        (plan_of beside.now) }
    ensures leaves { result.outside.input ≡ outside.input }
{
    let files = outside.places.open_to_read(path);
    let (given, mut kept) = give(outside, files);
    let GivenBack {
        ending: end,
        sources,
        output,
    } = run_check_together(beside, given, &mut kept.progress, &mut kept.errors);
    Compared {
        end,
        outside: kept.with(sources, output),
    }
}

/// Checks a worksheet, once the places of closed streams are held: its sessions side by side where that is asked
/// for, and else one field after another.
fn compare<Y: System>(outside: Outside<Y>, beside: &CheckSetup<'_>, path: &str) -> Compared<Y>
    ensures does { Compares ⟦<Y as SystemView>⟧.outer outside result.outside result.end path.now
        (plan_of beside.now) }
    ensures leaves { result.outside.input ≡ outside.input }
{
    if beside.jobs <= 1 {
        check_as(outside, beside, path)
    } else {
        check_together_as(outside, beside, path)
    }
}

/// `check` of the worksheet at a path whose answers are accepted, once the places of closed streams are held.
fn accept_as<Y: System>(
    mut outside: Outside<Y>,
    manner: &CheckManner<'_>,
    path: &str,
) -> Performed<Y>
    ensures does { AcceptsHeld ⟦<Y as SystemView>⟧.outer outside result.outside result.ending
        path.now manner.now.request.now }
    ensures leaves { result.outside.input ≡ outside.input }
{
    let files = outside.places.open(path);
    let (given, mut kept) = give(outside, files);
    let GivenBack {
        ending,
        sources,
        output,
    } = run_accept(manner, given, &mut kept.progress, &mut kept.errors);
    ended(ending, kept.with(sources, output))
}

/// `check` of the worksheet at one path, with answers that are accepted or without.
fn check_by<Y: System>(mut outside: Outside<Y>, beside: &CheckSetup<'_>, path: &str) -> Performed<Y>
    ensures does { ChecksBy ⟦<Y as SystemView>⟧.outer outside result.outside result.ending path.now
        (plan_of beside.now) }
    ensures leaves { result.outside.input ≡ outside.input }
{
    if let Err(why) = outside.places.hold() {
        let ending = end_unheld(why, &mut outside.errors);
        return Performed { ending, outside };
    }
    match beside.manner.request.format {
        Report::Accepting => accept_as(outside, &beside.manner, path),
        Report::Text | Report::Whole | Report::Tap | Report::Junit | Report::Json => {
            let Compared { end, outside } = compare(outside, beside, path);
            ended(end.ending, outside)
        }
    }
}

/// One worksheet of several: a line with its path, and its check.
fn compare_next<Y: System>(
    mut outside: Outside<Y>,
    beside: &CheckSetup<'_>,
    path: &str,
) -> Compared<Y>
    ensures does { ComparesNext ⟦<Y as SystemView>⟧.outer outside result.outside result.end path.now
        (plan_of beside.now) }
    ensures leaves { result.outside.input ≡ outside.input }
{
    match tell_worksheet(path, &mut outside.output) {
        Ok(()) => compare(outside, beside, path),
        Err(_) => Compared {
            end: end_unwritten(&mut outside.errors),
            outside,
        },
    }
}

/// Worksheets one after another, and their total. Where the output fails nothing comes after that.
#[tactic(auto, using(crate::proofs::EachChecked::each_steps))]
fn compare_each<Y: System>(
    mut outside: Outside<Y>,
    beside: &CheckSetup<'_>,
    paths: &[&str],
) -> Performed<Y>
    ensures does { ComparesEach ⟦<Y as SystemView>⟧.outer (plan_of beside.now) []
        (word_texts paths.now) outside result.outside result.ending }
    ensures leaves { result.outside.input ≡ outside.input }
{
    let mut total = Total::none();
    for path in paths {
        let Compared { end, outside: left } = compare_next(outside, beside, path);
        outside = left;
        total = total.with(end);
        if is_unwritten(end) {
            return Performed {
                ending: total.ending(),
                outside,
            };
        }
    }
    Performed {
        ending: end_total(total, &mut outside.output, &mut outside.errors),
        outside,
    }
}

/// `check` of the worksheet at a path, or of several that the words name.
fn check_paths<Y: System>(
    mut outside: Outside<Y>,
    beside: &CheckSetup<'_>,
    path: &str,
    words: &CheckWords<'_>,
) -> Performed<Y>
    ensures does { ChecksPaths ⟦<Y as SystemView>⟧.outer outside result.outside result.ending
        path.now (check_view words.now) (plan_of beside.now) }
    ensures leaves { result.outside.input ≡ outside.input }
{
    if !are_several(words.paths.as_slice()) {
        return check_by(outside, beside, path);
    }
    let format = beside.manner.request.format;
    if let Some(why) = several_fault(format, words.leave_out, words.compare) {
        return ended(refuse_several(why, &mut outside.errors), outside);
    }
    match outside.places.hold() {
        Ok(()) => compare_each(outside, beside, words.paths.as_slice()),
        Err(why) => ended(end_unheld(why, &mut outside.errors), outside),
    }
}

/// `check` of the worksheet at a path, or of several, as the words ask for it.
pub(crate) fn check_at<Y: System>(
    alloc: Global,
    mut outside: Outside<Y>,
    path: &str,
    words: CheckWords<'_>,
) -> Performed<Y>
    ensures does { DoesCheck ⟦<Y as SystemView>⟧.outer outside result.outside result.ending path.now
        (check_view words.entry) }
    ensures leaves { result.outside.input ≡ outside.input }
{
    let Some(limit) = read_limit(words.timeout) else {
        return ended(refuse_check_limit(&mut outside.errors), outside);
    };
    let jobs = match read_check_jobs(words.jobs, words.accept, words.timeout) {
        Ok(jobs) => jobs,
        Err(why) => return ended(refuse_jobs(why, &mut outside.errors), outside),
    };
    let report = ReportWords {
        accept: words.accept,
        whole: words.whole,
        json: words.json,
        format: words.format,
    };
    let fields = FieldWords {
        only: words.only,
        left_out: words.leave_out,
        compared: words.compare,
        all: words.all,
    };
    match read_request(alloc, report, fields, limit) {
        Ok(request) => {
            let manner = CheckManner {
                alloc,
                request: &request,
            };
            check_paths(outside, &CheckSetup { manner, jobs }, path, &words)
        }
        Err(why) => ended(refuse_request(why, &mut outside.errors), outside),
    }
}
