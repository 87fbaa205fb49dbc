//! What comes of interpreters as JSON.
ghost use Rattle.std.specs.Prelude.{◌≡◌, IfOk};
ghost use Rattle.std.specs.Option.{option_copied};
ghost use Rattle.serde_json.specs.View.{view};
ghost use Rattle.sheet_json.specs.Objects.{telling_data};
ghost use Rattle.sheet_json.specs.Objects as json;
ghost use Rattle.sheet_json.specs.Tellings as reported;
ghost use Rattle.sheet_text.specs.Blocks as printed;

use crate::bytes::bytes_value;
use crate::members::Members;
use block_tree::{Block, Octets, Queue, Reason};
use plugin_core::Item;
use scheme_text::Completions;
use serde_json::Value;
use sheet_text::{block_text, reason_name};
use std::alloc::{AllocError, Global};

/// An output as a worksheet shows it.
fn shown_bytes(alloc: Global, output: &Block) -> Result<Vec<u8>, AllocError>
    ensures { IfOk result (λ bytes. bytes.items ≡ printed.block_text output.now) }
{
    let mut bytes = Vec::new(alloc);
    match block_text(output, &mut bytes) {
        Ok(()) => Ok(bytes),
        Err(_) => Err(AllocError),
    }
}

/// An output as a worksheet shows it, as JSON.
pub fn shown_value(alloc: Global, output: &Block) -> Result<Value, AllocError>
    ensures { IfOk result (λ value. view value ≡ json.shown_data output.now) }
{
    let bytes = shown_bytes(alloc, output)?;
    bytes_value(alloc, bytes.as_slice())
}

/// A prompt, where it is known.
fn prompt_value(alloc: Global, next: Option<&[u8]>) -> Result<Value, AllocError>
    ensures { IfOk result (λ value. view value ≡ json.prompt_data (option_copied next.entry)) }
{
    match next {
        None => Ok(Value::Null),
        Some(prompt) => bytes_value(alloc, prompt),
    }
}

/// A banner closed, and this is the prompt of the line that would be asked next, where it is known.
pub fn banner_value(
    alloc: Global,
    session: &[u8],
    life: u32,
    output: &Block,
    next: Option<&[u8]>,
) -> Result<Value, AllocError>
    ensures { IfOk result (λ value. view value
        ≡ telling_data (reported.event session.now life (reported.banner output.now
        (option_copied next.entry)))) }
{
    let next = prompt_value(alloc, next)?;
    Members::new(alloc)
        .with("next", next)?
        .count("life", life as u64)?
        .blocks("output", output)?
        .bytes("session", session)?
        .shown("shown", output)?
        .typed("banner")
}

/// The answer to the line of a field closed, which shows it with this prompt from then on. The prompt of the line
/// that would be asked next is another, where it is known.
pub fn answered_value(
    alloc: Global,
    session: &[u8],
    life: u32,
    id: u32,
    prompt: &[u8],
    output: &Block,
    next: Option<&[u8]>,
) -> Result<Value, AllocError>
    ensures { IfOk result (λ value. view value
        ≡ telling_data (reported.event session.now life (reported.answer id prompt.now output.now
        (option_copied next.entry)))) }
{
    let next = prompt_value(alloc, next)?;
    Members::new(alloc)
        .with("next", next)?
        .count("id", id as u64)?
        .count("life", life as u64)?
        .blocks("output", output)?
        .bytes("prompt", prompt)?
        .bytes("session", session)?
        .shown("shown", output)?
        .typed("answered")
}

#[tactic(auto, using(crate::proofs::Lists::list_steps))]
/// Texts in a row.
pub(crate) fn texts_value(alloc: Global, texts: &[Octets]) -> Result<Value, AllocError>
    ensures { IfOk result (λ value. view value ≡ json.texts_data texts.now) }
{
    let mut values = Vec::new(alloc);
    for text in texts {
        let value = bytes_value(alloc, text.as_slice())?;
        values.push(value)?;
    }
    Ok(Value::Array(values))
}

/// The completions, or that the answer tells none.
fn completions_value(alloc: Global, given: Option<&Completions>) -> Result<Value, AllocError>
    ensures { IfOk result (λ value. view value ≡ json.completions_data
        (option_copied given.entry)) }
{
    match given {
        None => Ok(Value::Null),
        Some(given) => {
            let rest = texts_value(alloc, given.rest.as_slice())?;
            let members = Members::new(alloc)
                .with("rest", rest)?
                .bytes("root", given.root.as_slice())?;
            Ok(members.done())
        }
    }
}

/// The answer to a request of completions closed.
pub fn completed_value(
    alloc: Global,
    session: &[u8],
    life: u32,
    id: u32,
    given: Option<&Completions>,
) -> Result<Value, AllocError>
    ensures { IfOk result (λ value. view value ≡ telling_data
        (reported.event session.now life (reported.completed id (option_copied given.entry)))) }
{
    let reported = completions_value(alloc, given)?;
    Members::new(alloc)
        .with("told", reported)?
        .count("id", id as u64)?
        .count("life", life as u64)?
        .bytes("session", session)?
        .typed("completed")
}

/// The default input of an answer.
pub fn default_value(
    alloc: Global,
    session: &[u8],
    life: u32,
    text: &[u8],
) -> Result<Value, AllocError>
    ensures { IfOk result (λ value. view value
        ≡ telling_data (reported.event session.now life (reported.input text.now))) }
{
    Members::new(alloc)
        .count("life", life as u64)?
        .bytes("session", session)?
        .bytes("text", text)?
        .typed("default")
}

/// An item that was lost.
fn lost_value(alloc: Global, item: &Item) -> Result<Value, AllocError>
    ensures { IfOk result (λ value. view value ≡ json.lost_data item.now) }
{
    match item {
        Item::Line { id, text } => {
            let members = Members::new(alloc)
                .count("id", *id as u64)?
                .bytes("text", text.as_slice())?;
            Ok(members.done())
        }
        Item::Complete { id, text, cursor } => {
            let members = Members::new(alloc)
                .count("cursor", *cursor as u64)?
                .count("id", *id as u64)?
                .text("text", text.as_str())?;
            Ok(members.done())
        }
    }
}

#[tactic(auto, using(crate::proofs::Lists::queue_steps))]
/// The items that were lost, in order.
fn losts_value(alloc: Global, lost: &Queue<Item>) -> Result<Value, AllocError>
    ensures { IfOk result (λ value. view value ≡ json.losts_data lost.now) }
{
    let mut values = Vec::new(alloc);
    for place in 0..lost.len() {
        if let Some(item) = lost.get(place) {
            let value = lost_value(alloc, item)?;
            values.push(value)?;
        }
    }
    Ok(Value::Array(values))
}

/// A life ended by itself, and these items were lost.
pub fn ended_value(
    alloc: Global,
    session: &[u8],
    life: u32,
    why: Reason,
    lost: &Queue<Item>,
) -> Result<Value, AllocError>
    ensures { IfOk result (λ value. view value
        ≡ telling_data (reported.event session.now life (reported.ended why lost.now))) }
{
    let items = losts_value(alloc, lost)?;
    Members::new(alloc)
        .with("lost", items)?
        .count("life", life as u64)?
        .text("reason", reason_name(why))?
        .bytes("session", session)?
        .typed("ended")
}

/// A limit of time was over, and the interpreter of a life was interrupted, or not: what came of it, as a word.
pub fn warned_value(
    alloc: Global,
    session: &[u8],
    life: u32,
    outcome: &str,
) -> Result<Value, AllocError>
    ensures { IfOk result (λ value. view value
        ≡ telling_data (reported.event session.now life (reported.warned outcome.now))) }
{
    Members::new(alloc)
        .count("life", life as u64)?
        .text("outcome", outcome)?
        .bytes("session", session)?
        .typed("interrupted")
}

/// What the interpreter of a life wrote that ends no block. It is kept nowhere, and it is no answer.
pub fn partial_value(
    alloc: Global,
    session: &[u8],
    life: u32,
    bytes: &[u8],
) -> Result<Value, AllocError>
    ensures { IfOk result (λ value. view value
        ≡ telling_data (reported.event session.now life (reported.partial bytes.now))) }
{
    Members::new(alloc)
        .bytes("bytes", bytes)?
        .count("life", life as u64)?
        .bytes("session", session)?
        .typed("partial")
}

/// A life was ended by a line, and these items were lost.
pub fn stopped_value(
    alloc: Global,
    line: u64,
    session: &[u8],
    life: u32,
    lost: &Queue<Item>,
) -> Result<Value, AllocError>
    ensures { IfOk result (λ value. view value
        ≡ telling_data (reported.stopped line session.now life lost.now)) }
{
    let items = losts_value(alloc, lost)?;
    Members::new(alloc)
        .with("lost", items)?
        .count("life", life as u64)?
        .count("line", line)?
        .bytes("session", session)?
        .typed("stopped")
}
