//! The order in which fields are asked.
ghost use Rattle.std.specs.Prelude.{◌≡◌, ◌<◌, [], IfOk, Some, length, slice_get};
ghost use Rattle.std.specs.Option.{option_copied};
ghost use Rattle.evaluation.specs.Rounds as rounds;

use crate::choosing::meant_in;
use crate::plan::Plan;
use std::alloc::{AllocError, Global};
use worksheet::{Field, Name, Sheet};

/// A field that is to be evaluated.
#[derive(Clone, Copy, Debug)]
pub(crate) struct Placed {
    /// How many of its session are to be evaluated before it.
    pub(crate) round: usize,
    /// Its number.
    pub(crate) id: u32,
}

/// Whether this field is of this session.
pub(crate) fn is_field_of(session: Name, field: Option<&Field>) -> bool
    ensures { result ≡ rounds.is_field_of session (option_copied field.entry) }
{
    match field {
        None => false,
        Some(field) => field.session == session,
    }
}

/// The one of these at this place.
fn placed_at(all: &[Placed], at: usize) -> Placed
    requires { at < length all.now }
    ensures { slice_get all.now at ≡ Some result }
{
    all[at]
}

/// The round of the next field of this session, where these are placed: one more than that of its last one.
fn next_round(sheet: &Sheet, all: &[Placed], session: Name) -> usize
    requires { all.now ≡ rounds.with_rounds sheet.now.contents.fields []
        (rounds.placed_ids all.now) }
    ensures { result ≡ rounds.count_of sheet.now.contents.fields session
        (rounds.placed_ids all.now) }
{
    for at in (0..all.len()).rev() {
        let last = placed_at(all, at);
        if is_field_of(session, sheet.field(last.id)) {
            return last.round + 1;
        }
    }
    0
}

/// The round of a field, where these are placed.
fn round_of(sheet: &Sheet, all: &[Placed], field: Option<&Field>) -> usize
    requires { all.now ≡ rounds.with_rounds sheet.now.contents.fields []
        (rounds.placed_ids all.now) }
    ensures { result ≡ rounds.of_its_session sheet.now.contents.fields (rounds.placed_ids all.now)
        (option_copied field.entry) }
{
    match field {
        None => 0,
        Some(field) => next_round(sheet, all, field.session),
    }
}

/// The field with this number, with its round, where these are placed.
fn placed_after(sheet: &Sheet, all: &[Placed], id: u32) -> Placed
    requires { all.now ≡ rounds.with_rounds sheet.now.contents.fields []
        (rounds.placed_ids all.now) }
    ensures there { result.id ≡ id }
    ensures round { result.round ≡ rounds.round_of sheet.now.contents.fields
        (rounds.placed_ids all.now) id }
{
    Placed {
        round: round_of(sheet, all, sheet.field(id)),
        id,
    }
}

/// These fields, each with its round.
fn with_rounds(alloc: Global, sheet: &Sheet, ids: &[u32]) -> Result<Vec<Placed>, AllocError>
    ensures { IfOk result (λ all. all.items ≡ rounds.with_rounds sheet.now.contents.fields []
        ids.now) }
{
    let mut all = Vec::new(alloc);
    for id in ids {
        let placed = placed_after(sheet, all.as_slice(), *id);
        all.push(placed)?;
    }
    Ok(all)
}

/// The numbers of these fields.
fn placed_ids(alloc: Global, all: &[Placed]) -> Result<Vec<u32>, AllocError>
    ensures { IfOk result (λ ids. ids.items ≡ rounds.placed_ids all.now) }
{
    let mut ids = Vec::new(alloc);
    for field in all {
        ids.push(field.id)?;
    }
    Ok(ids)
}

/// These fields round by round.
fn by_rounds(alloc: Global, sheet: &Sheet, ids: &[u32]) -> Result<Vec<u32>, AllocError>
    ensures { IfOk result (λ order. order.items ≡ rounds.by_rounds sheet.now.contents.fields
        ids.now) }
{
    let mut all = with_rounds(alloc, sheet, ids)?;
    // Fields of one round keep their order.
    all.sort_by_key(|field| field.round)?;
    placed_ids(alloc, all.as_slice())
}

/// These fields in the order in which they are asked.
fn in_order(
    alloc: Global,
    plan: &Plan,
    sheet: &Sheet,
    ids: Vec<u32>,
) -> Result<Vec<u32>, AllocError>
    ensures { IfOk result (λ order. order.items ≡ rounds.order_of plan.now sheet.now.contents.fields
        ids.items) }
{
    if plan.jobs <= 1 {
        Ok(ids)
    } else {
        by_rounds(alloc, sheet, ids.as_slice())
    }
}

/// The numbers of the fields that are to be evaluated, in the order in which they are asked.
pub fn asked_in(alloc: Global, plan: &Plan, sheet: &Sheet) -> Result<Vec<u32>, AllocError>
    ensures { IfOk result (λ ids. ids.items ≡ rounds.asking_order plan.now sheet.now.contents) }
{
    let ids = meant_in(alloc, plan, sheet)?;
    in_order(alloc, plan, sheet, ids)
}
