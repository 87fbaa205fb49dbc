//! Replies to lines as JSON.
ghost use Rattle.std.specs.Prelude.{◌≡◌, IfOk};
ghost use Rattle.std.specs.Option.{option_copied};
ghost use Rattle.serde_json.specs.View.{view};
ghost use Rattle.sheet_json.specs.Objects.{telling_data, text_or_null};
ghost use Rattle.sheet_json.specs.Tellings as reported;

use crate::bytes::bytes_value;
use crate::members::Members;
use serde_json::Value;
use std::alloc::{AllocError, Global};
use worksheet::Refusal;

/// A command was done.
pub fn done_value(alloc: Global, line: u64) -> Result<Value, AllocError>
    ensures { IfOk result (λ value. view value ≡ telling_data (reported.reply line reported.done)) }
{
    Members::new(alloc).count("line", line)?.typed("done")
}

/// A field was made, with this number.
pub fn made_value(alloc: Global, line: u64, id: u32) -> Result<Value, AllocError>
    ensures { IfOk result (λ value. view value ≡ telling_data
        (reported.reply line (reported.made id))) }
{
    Members::new(alloc)
        .count("id", id as u64)?
        .count("line", line)?
        .typed("made")
}

/// The life with this number has the item.
pub fn asked_value(alloc: Global, line: u64, life: u32) -> Result<Value, AllocError>
    ensures { IfOk result (λ value. view value ≡ telling_data
        (reported.reply line (reported.asked life))) }
{
    Members::new(alloc)
        .count("life", life as u64)?
        .count("line", line)?
        .typed("asked")
}

/// A command was refused.
pub fn refused_value(alloc: Global, line: u64, why: Refusal) -> Result<Value, AllocError>
    ensures { IfOk result (λ value. view value ≡ telling_data
        (reported.reply line (reported.refused why))) }
{
    Members::new(alloc)
        .count("line", line)?
        .text("name", why.name())?
        .count("number", why.number() as u64)?
        .typed("refused")
}

/// A line isn't known.
pub fn bad_value(alloc: Global, line: u64) -> Result<Value, AllocError>
    ensures { IfOk result (λ value. view value ≡ telling_data (reported.reply line reported.bad)) }
{
    Members::new(alloc).count("line", line)?.typed("bad")
}

/// A line does nothing.
pub fn nothing_value(alloc: Global, line: u64) -> Result<Value, AllocError>
    ensures { IfOk result (λ value. view value ≡ telling_data
        (reported.reply line reported.nothing)) }
{
    Members::new(alloc).count("line", line)?.typed("nothing")
}

/// The interpreter of a session was interrupted, or not: what came of it, as a word.
pub fn interrupted_value(alloc: Global, line: u64, outcome: &str) -> Result<Value, AllocError>
    ensures { IfOk result (λ value. view value ≡ telling_data
        (reported.reply line (reported.interrupted outcome.now))) }
{
    Members::new(alloc)
        .count("line", line)?
        .text("outcome", outcome)?
        .typed("interrupted")
}

/// A transaction ends, from this first one on, of which nothing was done.
pub fn undone_value(alloc: Global, first: u64, line: u64) -> Result<Value, AllocError>
    ensures { IfOk result (λ value. view value ≡ telling_data
        (reported.reply line (reported.undone first))) }
{
    Members::new(alloc)
        .count("from", first)?
        .count("line", line)?
        .typed("undone")
}

/// A wait is over, since no item waits, or since its time is over.
pub fn waited_value(alloc: Global, line: u64, timed_out: bool) -> Result<Value, AllocError>
    ensures { IfOk result (λ value. view value ≡ telling_data
        (reported.reply line (reported.waited timed_out))) }
{
    Members::new(alloc)
        .count("line", line)?
        .text("over", if timed_out { "time" } else { "idle" })?
        .typed("waited")
}

/// A text, or that there is none.
fn export_value(alloc: Global, text: Option<&[u8]>) -> Result<Value, AllocError>
    ensures { IfOk result (λ value. view value ≡ text_or_null (option_copied text.entry)) }
{
    match text {
        None => Ok(Value::Null),
        Some(text) => bytes_value(alloc, text),
    }
}

/// A worksheet in the format of this name, or that it has no text there.
pub fn exported_value(
    alloc: Global,
    line: u64,
    format: &str,
    text: Option<&[u8]>,
) -> Result<Value, AllocError>
    ensures { IfOk result (λ value. view value
        ≡ telling_data (reported.exported line format.now (option_copied text.entry))) }
{
    let text = export_value(alloc, text)?;
    Members::new(alloc)
        .with("text", text)?
        .text("format", format)?
        .count("line", line)?
        .typed("exported")
}
