//! Fields that a check evaluated, as JSON.
ghost use Rattle.std.specs.Prelude.{◌≡◌, IfOk, codes};
ghost use Rattle.serde_json.specs.Data.{put as with_member};
ghost use Rattle.serde_json.specs.View.{members_view, view};
ghost use Rattle.sheet_json.specs.Objects.{telling_data};
ghost use Rattle.sheet_json.specs.Objects as json;
ghost use Rattle.sheet_json.specs.Tellings as reported;
ghost use Rattle.sheet_text.specs.InputLines.{unfolded};

use crate::members::Members;
use block_tree::Reason;
use serde_json::{Value, json};
use sheet_text::reason_name;
use std::alloc::{AllocError, Global};
use worksheet::{Answer, Field};

/// What the evaluation of a field took.
#[derive(Clone, Copy, Debug, PartialEq, Eq)]
pub struct Took {
    /// Milliseconds from when it was asked to when its answer was there, or known not to come.
    pub millis: u64,
    /// Whether no interpreter of its session was there when it was asked, so that one was to be started.
    pub started: bool,
}

/// An answer, or that there is none.
fn answer_value(alloc: Global, answer: &Option<Answer>) -> Result<Value, AllocError>
    ensures { IfOk result (λ value. view value ≡ json.answer_data answer.now) }
{
    match answer {
        None => Ok(Value::Null),
        Some(answer) => {
            let members = Members::new(alloc)
                .blocks("output", &answer.output)?
                .bytes("prompt", answer.prompt.as_slice())?
                .shown("shown", &answer.output)?;
            Ok(members.done())
        }
    }
}

/// Members with the answer that a field shows.
fn with_answer(
    alloc: Global,
    members: Members,
    answer: &Option<Answer>,
) -> Result<Members, AllocError>
    ensures { IfOk result (λ more. members_view more.map.entries
        ≡ with_member (codes "shows") (json.answer_data answer.now)
        (members_view members.map.entries)) }
{
    let shows = answer_value(alloc, answer)?;
    members.with("shows", shows)
}

/// The reason why a field shows no answer, where it shows one.
fn why_value(alloc: Global, why: Option<Reason>) -> Result<Value, AllocError>
    ensures { IfOk result (λ value. view value ≡ json.why_data why) }
{
    match why {
        None => Ok(Value::Null),
        Some(why) => {
            let reason = reason_name(why);
            json!(in alloc; reason)
        }
    }
}

/// What an evaluation took, where it is known.
fn took_value(alloc: Global, took: Option<Took>) -> Result<Value, AllocError>
    ensures { IfOk result (λ value. view value ≡ json.took_data took) }
{
    match took {
        None => Ok(Value::Null),
        Some(took) => {
            let members = Members::new(alloc)
                .count("millis", took.millis)?
                .with("started", Value::Bool(took.started))?;
            Ok(members.done())
        }
    }
}

/// Members with what an evaluation took.
fn with_took(alloc: Global, members: Members, took: Option<Took>) -> Result<Members, AllocError>
    ensures { IfOk result (λ more. members_view more.map.entries
        ≡ with_member (codes "took") (json.took_data took) (members_view members.map.entries)) }
{
    let took = took_value(alloc, took)?;
    members.with("took", took)
}

/// A field to which the output came that it shows.
pub fn same_value(alloc: Global, field: &Field, took: Option<Took>) -> Result<Value, AllocError>
    ensures { IfOk result (λ value. view value
        ≡ telling_data (reported.checked field.now.id field.now.session took reported.same)) }
{
    let members = Members::new(alloc)
        .count("id", field.id as u64)?
        .bytes("session", field.session.as_slice())?;
    with_took(alloc, members, took)?
        .text("verdict", "same")?
        .typed("checked")
}

/// A field that isn't compared.
pub fn left_out_value(alloc: Global, field: &Field, took: Option<Took>) -> Result<Value, AllocError>
    ensures { IfOk result (λ value. view value
        ≡ telling_data (reported.checked field.now.id field.now.session took reported.left_out)) }
{
    let members = Members::new(alloc)
        .count("id", field.id as u64)?
        .bytes("session", field.session.as_slice())?;
    with_took(alloc, members, took)?
        .text("verdict", "left_out")?
        .typed("checked")
}

/// A field to which another output came; its input has a line feed for each U+2028, as in the next ones.
pub fn differs_value(
    alloc: Global,
    field: &Field,
    came: &Option<Answer>,
    took: Option<Took>,
) -> Result<Value, AllocError>
    ensures { IfOk result (λ value. view value
        ≡ telling_data (reported.checked field.now.id field.now.session took
        (reported.differs (unfolded field.now.input) field.now.answer came.now))) }
{
    let came = answer_value(alloc, came)?;
    let members = Members::new(alloc).with("came", came)?;
    let members = with_answer(alloc, members, &field.answer)?
        .count("id", field.id as u64)?
        .input(field.input.as_str())?
        .bytes("session", field.session.as_slice())?;
    with_took(alloc, members, took)?
        .text("verdict", "differs")?
        .typed("checked")
}

/// A field to which no answer came, and the reason that it then shows, where it shows one.
pub fn unanswered_value(
    alloc: Global,
    field: &Field,
    why: Option<Reason>,
    took: Option<Took>,
) -> Result<Value, AllocError>
    ensures { IfOk result (λ value. view value
        ≡ telling_data (reported.checked field.now.id field.now.session took
        (reported.unanswered (unfolded field.now.input) field.now.answer why))) }
{
    let reason = why_value(alloc, why)?;
    let members = Members::new(alloc).with("reason", reason)?;
    let members = with_answer(alloc, members, &field.answer)?
        .count("id", field.id as u64)?
        .input(field.input.as_str())?
        .bytes("session", field.session.as_slice())?;
    with_took(alloc, members, took)?
        .text("verdict", "unanswered")?
        .typed("checked")
}

/// A field that shows no answer, and the one that came.
pub fn new_value(
    alloc: Global,
    field: &Field,
    came: &Option<Answer>,
    took: Option<Took>,
) -> Result<Value, AllocError>
    ensures { IfOk result (λ value. view value
        ≡ telling_data (reported.checked field.now.id field.now.session took
        (reported.new (unfolded field.now.input) came.now))) }
{
    let came = answer_value(alloc, came)?;
    let members = Members::new(alloc)
        .with("came", came)?
        .count("id", field.id as u64)?
        .input(field.input.as_str())?
        .bytes("session", field.session.as_slice())?;
    with_took(alloc, members, took)?
        .text("verdict", "new")?
        .typed("checked")
}
