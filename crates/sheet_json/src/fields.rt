//! Fields and sessions as JSON.
ghost use Rattle.std.specs.Prelude.{◌≡◌, IfOk, None, false};
ghost use Rattle.serde_json.specs.View.{view};
ghost use Rattle.sheet_json.specs.Objects.{telling_data};
ghost use Rattle.sheet_json.specs.Objects as json;
ghost use Rattle.sheet_json.specs.Shown as shown;
ghost use Rattle.sheet_json.specs.Tellings as reported;
ghost use Rattle.sheet_text.specs.InputLines.{unfolded};

use crate::members::Members;
use block_tree::Reason;
use serde_json::Value;
use sheet_text::reason_name;
use std::alloc::{AllocError, Global};
use worksheet::{Answer, Field};

/// A field that shows an answer; its input has a line feed for each U+2028, as in each of these.
fn answered_field(alloc: Global, field: &Field, answer: &Answer) -> Result<Value, AllocError>
    ensures { IfOk result (λ value. view value ≡ json.field_with field.now.id field.now.session
        (unfolded field.now.input) (reported.answered answer.now.prompt answer.now.output)) }
{
    let members = Members::new(alloc)
        .count("id", field.id as u64)?
        .input(field.input.as_str())?
        .blocks("output", &answer.output)?
        .bytes("prompt", answer.prompt.as_slice())?
        .bytes("session", field.session.as_slice())?
        .shown("shown", &answer.output)?
        .text("state", "answered")?;
    Ok(members.done())
}

/// A field whose line was lost.
fn lost_field(alloc: Global, field: &Field, why: Reason) -> Result<Value, AllocError>
    ensures { IfOk result (λ value. view value ≡ json.field_with field.now.id field.now.session
        (unfolded field.now.input) (reported.lost why)) }
{
    let members = Members::new(alloc)
        .count("id", field.id as u64)?
        .input(field.input.as_str())?
        .text("reason", reason_name(why))?
        .bytes("session", field.session.as_slice())?
        .text("state", "lost")?;
    Ok(members.done())
}

/// A field without both.
fn open_field(alloc: Global, field: &Field, waits: bool) -> Result<Value, AllocError>
    ensures { IfOk result (λ value. view value ≡ json.field_with field.now.id field.now.session
        (unfolded field.now.input) (shown.state_shown waits None None)) }
{
    let members = Members::new(alloc)
        .count("id", field.id as u64)?
        .input(field.input.as_str())?
        .bytes("session", field.session.as_slice())?
        .text("state", if waits { "waiting" } else { "empty" })?;
    Ok(members.done())
}

/// A field, of which a host knows whether its line waits.
fn field_value(alloc: Global, field: &Field, waits: bool) -> Result<Value, AllocError>
    ensures { IfOk result (λ value. view value ≡ json.field_data
        (shown.field_reported waits field.now)) }
{
    match (&field.answer, field.lost) {
        (Some(answer), _) => answered_field(alloc, field, answer),
        (None, Some(why)) => lost_field(alloc, field, why),
        (None, None) => open_field(alloc, field, waits),
    }
}

/// The field that a line asks for.
pub fn asked_field_value(
    alloc: Global,
    line: u64,
    field: &Field,
    waits: bool,
) -> Result<Value, AllocError>
    ensures { IfOk result (λ value. view value
        ≡ telling_data (reported.field line (shown.field_reported waits field.now))) }
{
    let inside = field_value(alloc, field, waits)?;
    Members::new(alloc)
        .with("field", inside)?
        .count("line", line)?
        .typed("field")
}

/// One of the fields that a line asks for.
pub fn part_value(alloc: Global, line: u64, field: &Field, waits: bool) -> Result<Value, AllocError>
    ensures { IfOk result (λ value. view value
        ≡ telling_data (reported.part line (shown.field_reported waits field.now))) }
{
    let inside = field_value(alloc, field, waits)?;
    Members::new(alloc)
        .with("field", inside)?
        .count("line", line)?
        .with("more", Value::Bool(true))?
        .typed("field")
}

/// A field of a worksheet that no host has.
pub fn shown_field_value(alloc: Global, field: &Field) -> Result<Value, AllocError>
    ensures { IfOk result (λ value. view value
        ≡ telling_data (reported.shown (shown.field_reported false field.now))) }
{
    let inside = field_value(alloc, field, false)?;
    Members::new(alloc).with("field", inside)?.typed("field")
}
