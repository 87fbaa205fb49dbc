//! What closed, as JSON.
ghost use Rattle.std.specs.Prelude.{◌≡◌, IfOk, option_map};
ghost use Rattle.std.specs.Option.{option_copied};
ghost use Rattle.serde_json.specs.View.{view};
ghost use Rattle.sheet_json.specs.Objects.{event_data};
ghost use Rattle.sheet_json.specs.Replies as replies;

use crate::events::{answered_value, banner_value, completed_value};
use host_events::Closed;
use serde_json::Value;
use std::alloc::{AllocError, Global};
use worksheet::{Answer, Field, Sheet};

/// The answer that a field shows, and the prompt of the line that would be asked next.
fn answer_value(
    alloc: Global,
    session: &[u8],
    life: u32,
    id: u32,
    answer: &Option<Answer>,
    next: Option<&[u8]>,
) -> Result<Option<Value>, AllocError>
    ensures { IfOk result (λ value. option_map view value
        ≡ option_map (event_data session.now life) (replies.answer_event (option_copied next.entry)
        id answer.now)) }
{
    match answer {
        None => Ok(None),
        Some(answer) => {
            let prompt = answer.prompt.as_slice();
            let output = &answer.output;
            Ok(Some(answered_value(alloc, session, life, id, prompt, output, next)?))
        }
    }
}

/// The answer that a field shows, where there is the field.
fn shown_answer_value(
    alloc: Global,
    session: &[u8],
    life: u32,
    id: u32,
    field: Option<&Field>,
    next: Option<&[u8]>,
) -> Result<Option<Value>, AllocError>
    ensures { IfOk result (λ value. option_map view value
        ≡ option_map (event_data session.now life)
        (replies.answer_shown (option_copied next.entry) id (option_copied field.entry))) }
{
    match field {
        None => Ok(None),
        Some(field) => answer_value(alloc, session, life, id, &field.answer, next),
    }
}

/// What closed, where this is the worksheet after it, and the prompt of the line that would be asked next, where
/// it is known.
pub fn closed_value(
    alloc: Global,
    sheet: &Sheet,
    session: &[u8],
    life: u32,
    closed: &Closed,
    next: Option<&[u8]>,
) -> Result<Option<Value>, AllocError>
    ensures { IfOk result (λ value. option_map view value
        ≡ option_map (event_data session.now life)
        (replies.closed_event sheet.now.contents (option_copied next.entry) closed.now)) }
{
    match closed {
        Closed::Banner(output) => Ok(Some(banner_value(alloc, session, life, output, next)?)),
        Closed::Line(id) => {
            shown_answer_value(alloc, session, life, *id, sheet.field(*id), next)
        }
        Closed::Complete(id, Ok(given)) => {
            Ok(Some(completed_value(alloc, session, life, *id, Some(given))?))
        }
        Closed::Complete(id, Err(_)) => {
            Ok(Some(completed_value(alloc, session, life, *id, None)?))
        }
    }
}
