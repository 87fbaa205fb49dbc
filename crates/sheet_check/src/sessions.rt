//! How many fields are checked, and whether they are of several sessions.
ghost use Rattle.std.specs.Prelude.{◌≡◌, ◌<◌, ◌^◌, find, length};
ghost use Rattle.std.specs.List.{list_any};
ghost use Rattle.std.specs.Option.{option_copied};
ghost use Rattle.check_report.specs.Chosen.{is_chosen};
ghost use Rattle.sheet_check.specs.Progress.{checked_count};
ghost use Rattle.sheet_check.specs.Together as together;

use check_report::Chosen;
use worksheet::{Field, Name, Sheet};

/// Whether a field is checked, and isn't of this session.
fn is_checked_beside(chosen: &Chosen, session: Name, field: &Field) -> bool
    ensures { result ≡ together.is_checked_beside chosen.now session field.now }
{
    chosen.has(field) && field.session != session
}

/// The first field of a worksheet that is checked.
fn first_checked<'a>(chosen: &Chosen, sheet: &'a Sheet) -> Option<&'a Field>
    ensures { option_copied result ≡ find (is_chosen chosen.now) sheet.now.contents.fields }
{
    sheet.fields().find(|field| chosen.has(field))
}

/// Whether a field of a worksheet is checked that isn't of this session.
fn has_beside(chosen: &Chosen, session: Name, sheet: &Sheet) -> bool
    ensures { result ≡ list_any (together.is_checked_beside chosen.now session)
        sheet.now.contents.fields }
{
    sheet
        .fields()
        .any(|field| is_checked_beside(chosen, session, field))
}

/// Whether the fields of a worksheet that are checked are of several sessions.
pub(crate) fn has_several(chosen: &Chosen, sheet: &Sheet) -> bool
    ensures { result ≡ together.have_several chosen.now sheet.now.contents.fields }
{
    match first_checked(chosen, sheet) {
        None => false,
        Some(first) => has_beside(chosen, first.session, sheet),
    }
}

/// How many fields of a worksheet are checked.
pub(crate) fn count_checked(chosen: &Chosen, sheet: &Sheet) -> u32
    requires { length sheet.now.contents.fields < 2 ^ 31 }
    ensures { result ≡ checked_count chosen.now sheet.now.contents.fields }
{
    let mut count: u32 = 0;
    let mut fields = sheet.fields();
    while let Some(field) = fields.next() {
        if chosen.has(field) {
            count += 1;
        }
    }
    count
}
