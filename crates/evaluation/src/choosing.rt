//! Which fields are evaluated.
ghost use Rattle.std.specs.Prelude.{◌≡◌, ◌++◌, ◌&&◌, IfOk, OnOk, find};
ghost use Rattle.std.specs.Option.{option_copied};
ghost use Rattle.worksheet.specs.Contents.{Contents};
ghost use Rattle.evaluation.specs.Meant as meant;
ghost use Rattle.evaluation.specs.inside.Choosing as choosing;

use crate::plan::{Plan, Spared, Which};
use block_tree::Octets;
use std::alloc::{AllocError, Global};
use worksheet::{Field, Name, Session, Sheet};

/// Whether a field shows an answer.
pub(crate) fn is_answered(field: &Field) -> bool
    ensures { result ≡ meant.is_answered field.now }
{
    field.answer.is_some()
}

/// Whether one of these numbers is that of a field.
fn is_one_of(ids: &[u32], field: &Field) -> bool
    ensures { result ≡ meant.is_one_of ids.now field.now }
{
    ids.iter().any(|id| *id == field.id)
}

/// Whether a field is one of those that are asked for, where the one before it is one of them or isn't.
fn is_asked_for(which: &Which, before: bool, field: &Field) -> bool
    ensures { result ≡ choosing.is_asked_for which.now before field.now }
{
    match which {
        Which::All => true,
        Which::Named(ids) => is_one_of(ids.as_slice(), field),
        Which::From(id) => before || field.id == *id,
    }
}

/// Whether these words are `true` alone, a program that answers nothing.
fn is_true_alone(words: &[Octets]) -> bool
    ensures { result ≡ meant.is_true_alone words.now }
{
    match words {
        [word] => word.as_slice() == b"true".as_slice(),
        _ => false,
    }
}

/// Whether a session is one of prose.
fn has_prose(session: Option<&Session>) -> bool
    ensures { result ≡ meant.has_prose (option_copied session.entry) }
{
    match session {
        None => false,
        Some(session) => is_true_alone(session.words.as_slice()),
    }
}

/// Whether a field is prose, by its session.
pub(crate) fn is_prose(sheet: &Sheet, field: &Field) -> bool
    ensures { result ≡ meant.is_prose sheet.now.contents.sessions field.now }
{
    has_prose(sheet.session(field.session.as_slice()))
}

/// Whether fields are asked for by their numbers.
fn are_named(which: &Which) -> bool
    ensures { result ≡ meant.are_named which.now }
{
    match which {
        Which::Named(_) => true,
        Which::All | Which::From(_) => false,
    }
}

/// Whether a field lacks an answer: it shows none, and isn't prose.
pub(crate) fn is_lacking(sheet: &Sheet, field: &Field) -> bool
    ensures { result ≡ meant.is_lacking sheet.now.contents.sessions field.now }
{
    !is_answered(field) && !is_prose(sheet, field)
}

/// Whether this session is one of these.
fn is_in(sessions: &[Name], session: Name) -> bool
    ensures { result ≡ choosing.is_in sessions.now session }
{
    sessions.iter().any(|one| *one == session)
}

/// Puts a session after these, where it isn't one of them.
fn put_session(sessions: &mut Vec<Name>, session: Name) -> Result<(), AllocError>
    ensures { OnOk result (sessions.new.items ≡ choosing.with_session sessions.old.items session) }
{
    if !is_in(sessions.as_slice(), session) {
        sessions.push(session)?;
    }
    Ok(())
}

/// Puts the session of a field after these, where the field lacks an answer.
fn put_if_lacking(sessions: &mut Vec<Name>, sheet: &Sheet, field: &Field) -> Result<(), AllocError>
    ensures { OnOk result (sessions.new.items ≡ choosing.with_session_if
        (meant.is_lacking sheet.now.contents.sessions field.now) sessions.old.items
        field.now.session) }
{
    if is_lacking(sheet, field) {
        put_session(sessions, field.session)?;
    }
    Ok(())
}

/// The sessions in which a field lacks an answer.
#[tactic(auto, using(crate::proofs::Changes::change_steps))]
fn changed_in(alloc: Global, sheet: &Sheet) -> Result<Vec<Name>, AllocError>
    ensures { IfOk result (λ sessions. choosing.AreChanged sheet.now.contents sessions.items) }
{
    let mut sessions = Vec::new(alloc);
    let mut fields = sheet.fields();
    while let Some(field) = fields.next() {
        put_if_lacking(&mut sessions, sheet, field)?;
    }
    Ok(sessions)
}

/// The same where those of others are spared, which alone has to know them.
fn changed_for(alloc: Global, spared: Spared, sheet: &Sheet) -> Result<Vec<Name>, AllocError>
    ensures { IfOk result (λ sessions. choosing.AreKnown spared sheet.now.contents sessions.items) }
{
    match spared {
        Spared::Nothing | Spared::Answered => Ok(Vec::new(alloc)),
        Spared::Unchanged => changed_in(alloc, sheet),
    }
}

/// Whether a field that is asked for isn't evaluated, where these sessions are changed.
fn is_spared(spared: Spared, changed: &[Name], field: &Field) -> bool
    ensures { (sheet : Contents) → choosing.AreKnown spared sheet changed.now
        → result ≡ meant.is_spared spared sheet field.now }
{
    match spared {
        Spared::Nothing => false,
        Spared::Answered => is_answered(field),
        Spared::Unchanged => !is_in(changed, field.session),
    }
}

/// Whether a field that is asked for is to be evaluated, where these sessions are changed.
fn is_meant(plan: &Plan, sheet: &Sheet, changed: &[Name], field: &Field) -> bool
    requires { choosing.AreKnown plan.now.spared sheet.now.contents changed.now }
    ensures { result ≡ meant.is_meant plan.now sheet.now.contents field.now }
{
    !is_spared(plan.spared, changed, field) && (are_named(&plan.which) || !is_prose(sheet, field))
}

/// Whether a field is to be evaluated, which is asked for or isn't, where these sessions are changed.
fn is_chosen(plan: &Plan, sheet: &Sheet, changed: &[Name], asked: bool, field: &Field) -> bool
    requires { choosing.AreKnown plan.now.spared sheet.now.contents changed.now }
    ensures { result ≡ (asked && meant.is_meant plan.now sheet.now.contents field.now) }
{
    asked && is_meant(plan, sheet, changed, field)
}

/// Puts the number of a field after these, where it is chosen.
fn put_if(ids: &mut Vec<u32>, chosen: bool, id: u32) -> Result<(), AllocError>
    ensures { OnOk result (ids.new.items ≡ ids.old.items ++ choosing.id_if chosen id) }
{
    if chosen {
        ids.push(id)?;
    }
    Ok(())
}

/// The numbers of the fields that are to be evaluated, in the worksheet's order.
#[tactic(auto, using(crate::proofs::Meaning::meant_steps))]
pub(crate) fn meant_in(alloc: Global, plan: &Plan, sheet: &Sheet) -> Result<Vec<u32>, AllocError>
    ensures { IfOk result (λ ids. ids.items ≡ meant.meant_in plan.now sheet.now.contents) }
{
    let changed = changed_for(alloc, plan.spared, sheet)?;
    let mut ids = Vec::new(alloc);
    let mut asked = false;
    let mut fields = sheet.fields();
    while let Some(field) = fields.next() {
        asked = is_asked_for(&plan.which, asked, field);
        let chosen = is_chosen(plan, sheet, changed.as_slice(), asked, field);
        put_if(&mut ids, chosen, field.id)?;
    }
    Ok(ids)
}

/// Whether no field has this number.
fn is_missing(sheet: &Sheet, id: u32) -> bool
    ensures { result ≡ meant.is_missing sheet.now.contents.fields id }
{
    sheet.field(id).is_none()
}

/// The first of these numbers that no field has.
fn missing_of(ids: &[u32], sheet: &Sheet) -> Option<u32>
    ensures { result ≡ find (meant.is_missing sheet.now.contents.fields) ids.now }
{
    ids.iter().copied().find(|id| is_missing(sheet, *id))
}

/// The first number that is asked for and that no field has.
pub fn missing_in(which: &Which, sheet: &Sheet) -> Option<u32>
    ensures { result ≡ meant.missing_in which.now sheet.now.contents.fields }
{
    match which {
        Which::All => None,
        Which::Named(ids) => missing_of(ids.as_slice(), sheet),
        Which::From(id) => missing_of(&[*id], sheet),
    }
}
