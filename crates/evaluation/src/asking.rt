//! Which field is asked next.
ghost use Rattle.std.specs.Prelude.{◌≡◌, ◌<◌, ◌≤◌, ◌^◌, Option, None, Some, false, length, slice_get};
ghost use Rattle.std.specs.Option.{option_copied};
ghost use Rattle.evaluation.specs.Meant as meant;
ghost use Rattle.evaluation.specs.inside.Beside as inside;

use crate::choosing::is_answered;
use crate::lasts::{Last, last_asked};
use crate::plan::{Plan, Stand};
use check_report::tells_error;
use worksheet::{Field, Sheet};

/// Whether this field shows no answer.
fn shows_none(field: Option<&Field>) -> bool
    ensures { result ≡ meant.shows_none (option_copied field.entry) }
{
    match field {
        None => false,
        Some(field) => !is_answered(field),
    }
}

/// Whether this field shows no answer, or one that is an error where that is wrong too.
fn is_wrong_field(at_errors: bool, field: Option<&Field>) -> bool
    ensures { result ≡ meant.is_wrong_field at_errors (option_copied field.entry) }
{
    match field {
        None => false,
        Some(field) => match &field.answer {
            None => true,
            Some(answer) => at_errors && tells_error(&answer.output),
        },
    }
}

/// Whether the field with this number, where there is one, shows no answer.
fn is_lost(sheet: &Sheet, id: Option<u32>) -> bool
    ensures { result ≡ meant.is_lost sheet.now.contents.fields id }
{
    match id {
        None => false,
        Some(id) => shows_none(sheet.field(id)),
    }
}

/// Whether the field that was asked last of this one's session shows no answer.
fn is_after_lost(sheet: &Sheet, lasts: &[Last], field: Option<&Field>) -> bool
    ensures { result ≡ meant.is_after_lost sheet.now.contents.fields lasts.now
        (option_copied field.entry) }
{
    match field {
        None => false,
        Some(field) => is_lost(sheet, last_asked(lasts, field.session)),
    }
}

/// Whether the field with this number is passed over, by the one of its session that was asked last.
pub fn is_passed_over(plan: &Plan, sheet: &Sheet, lasts: &[Last], id: u32) -> bool
    ensures { result ≡ meant.is_passed_over plan.now sheet.now.contents.fields lasts.now id }
{
    !plan.keep_going && is_after_lost(sheet, lasts, sheet.field(id))
}

/// Whether the field at this place of those that are to be evaluated is passed over.
fn is_passed(plan: &Plan, sheet: &Sheet, lasts: &[Last], ids: &[u32], at: usize) -> bool
    requires { at < length ids.now }
    ensures { result ≡ meant.is_passed plan.now sheet.now.contents.fields lasts.now ids.now at }
{
    is_passed_over(plan, sheet, lasts, ids[at])
}

/// The next place, from this one on, whose field isn't passed over, or their number where there is none.
#[tactic(auto, using(crate::proofs::Meaning::next_steps))]
pub fn next_of(plan: &Plan, sheet: &Sheet, lasts: &[Last], ids: &[u32], from: usize) -> usize
    requires { from ≤ length ids.now }
    ensures next { meant.IsNext plan.now sheet.now.contents.fields lasts.now ids.now from result }
    ensures within { result ≤ length ids.now }
    ensures found { result < length ids.now
        → meant.is_passed plan.now sheet.now.contents.fields lasts.now ids.now result ≡ false }
{
    for at in from..ids.len() {
        if !is_passed(plan, sheet, lasts, ids, at) {
            return at;
        }
    }
    ids.len()
}

/// Whether the field that was asked last went wrong.
fn last_went_wrong(at_errors: bool, sheet: &Sheet, stand: &Stand) -> bool
    ensures { result ≡ meant.last_went_wrong at_errors sheet.now.contents.fields stand.now }
{
    stand.at_once || is_wrong_field(at_errors, sheet.field(stand.field))
}

/// The number of the field after which a strict evaluation stops here, if it does.
pub fn stop_field(plan: &Plan, sheet: &Sheet, stand: &Stand) -> Option<u32>
    ensures { result ≡ meant.stop_field plan.now sheet.now.contents.fields stand.now }
{
    if plan.strict && last_went_wrong(plan.at_errors, sheet, stand) {
        Some(stand.field)
    } else {
        None
    }
}

/// Whether the first field that was neither asked nor passed over is the next one.
pub(crate) fn is_due(plan: &Plan, sheet: &Sheet, ids: &[u32], stand: &Stand) -> bool
    requires few { length ids.now < 2 ^ 32 }
    requires there { stand.now.taken < length ids.now }
    ensures { result ≡ inside.is_due plan.now sheet.now.contents.fields ids.now stand.now }
{
    stop_field(plan, sheet, stand).is_none()
        && !is_passed(plan, sheet, stand.lasts.as_slice(), ids, stand.taken)
}

/// The number at this place.
pub fn id_at(ids: &[u32], place: usize) -> u32
    requires { place < length ids.now }
    ensures { slice_get ids.now place ≡ Some result }
{
    ids[place]
}
