//! The first and the last objects, and what comes of a limit of time.
ghost use Rattle.std.specs.Prelude.{◌≡◌, IfOk};
ghost use Rattle.serde_json.specs.View.{view};
ghost use Rattle.sheet_json.specs.Objects.{telling_data};
ghost use Rattle.sheet_json.specs.Tellings as reported;

use crate::members::Members;
use serde_json::Value;
use std::alloc::{AllocError, Global};

/// What comes first.
pub fn hello_value(alloc: Global) -> Result<Value, AllocError>
    ensures { IfOk result (λ value. view value ≡ telling_data reported.hello) }
{
    Members::new(alloc)
        .count("format", 1)?
        .text("program", "tmhost")?
        .count("protocol", 2)?
        .text("version", "0.1.0")?
        .typed("hello")
}

/// The last object, where the input came to its end.
pub fn end_value(alloc: Global) -> Result<Value, AllocError>
    ensures { IfOk result (λ value. view value ≡ telling_data reported.end) }
{
    Members::new(alloc).typed("end")
}

/// The time of this field is over, and its interpreter was interrupted, or not: what came of it, as a word.
pub fn over_value(alloc: Global, id: u32, outcome: &str) -> Result<Value, AllocError>
    ensures { IfOk result (λ value. view value ≡ telling_data (reported.over id outcome.now)) }
{
    Members::new(alloc)
        .count("id", id as u64)?
        .text("outcome", outcome)?
        .typed("over")
}

/// What the fields of a worksheet show at the end of an evaluation.
#[derive(Clone, Copy, Debug)]
pub struct Counted {
    /// How many show an answer.
    pub answered: u64,
    /// How many don't.
    pub unanswered: u64,
    /// How many show an answer that is an error.
    pub errors: u64,
}

/// How many fields of a worksheet show an answer at the end of an evaluation, how many don't, and how many an error.
pub fn counted_value(alloc: Global, counted: Counted) -> Result<Value, AllocError>
    ensures { IfOk result (λ value. view value
        ≡ telling_data (reported.counted counted.answered counted.unanswered counted.errors)) }
{
    Members::new(alloc)
        .count("answered", counted.answered)?
        .count("errors", counted.errors)?
        .count("unanswered", counted.unanswered)?
        .typed("counted")
}

/// The same of an evaluation with a limit of time: for how many fields it was over, and how many were
/// passed over.
pub fn counted_in_time_value(
    alloc: Global,
    counted: Counted,
    over: u64,
    passed: u64,
) -> Result<Value, AllocError>
    ensures { IfOk result (λ value. view value
        ≡ telling_data (reported.counted_in_time counted.answered counted.unanswered counted.errors
        over passed)) }
{
    Members::new(alloc)
        .count("answered", counted.answered)?
        .count("errors", counted.errors)?
        .count("over", over)?
        .count("passed", passed)?
        .count("unanswered", counted.unanswered)?
        .typed("counted")
}

/// The fault that no field has this number.
pub fn no_field_value(alloc: Global, id: u32) -> Result<Value, AllocError>
    ensures { IfOk result (λ value. view value ≡ telling_data (reported.no_field id)) }
{
    Members::new(alloc)
        .count("id", id as u64)?
        .text("name", "NoField")?
        .count("number", 37)?
        .typed("fault")
}

/// The fault that the program of this session isn't there.
pub fn no_program_value(alloc: Global, session: &[u8]) -> Result<Value, AllocError>
    ensures { IfOk result (λ value. view value ≡ telling_data (reported.no_program session.now)) }
{
    Members::new(alloc)
        .text("name", "NoProgram")?
        .count("number", 44)?
        .bytes("session", session)?
        .typed("fault")
}

/// A fault, and the offset of a damage.
pub fn fault_value(
    alloc: Global,
    number: u32,
    name: &str,
    offset: Option<u64>,
) -> Result<Value, AllocError>
    ensures { IfOk result (λ value. view value ≡ telling_data
        (reported.fault number name.now offset)) }
{
    let members = Members::new(alloc)
        .text("name", name)?
        .count("number", number as u64)?;
    match offset {
        None => members.typed("fault"),
        Some(offset) => members.count("offset", offset)?.typed("fault"),
    }
}
