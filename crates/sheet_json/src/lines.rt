//! A value on a line of its own.
ghost use Rattle.std.specs.Prelude.{◌≡◌, ◌≤◌, IfOk, false};
ghost use Rattle.serde_json.specs.Data.{depth};
ghost use Rattle.serde_json.specs.Read.{max_depth};
ghost use Rattle.serde_json.specs.View.{view};
ghost use Rattle.serde_json.specs.Written.{has_float};
ghost use Rattle.sheet_json.specs.Lines.{HasCounts, json_line};
ghost use Rattle.sheet_json.specs.Lines as lines;
ghost use Rattle.sheet_json.specs.Objects.{telling_data};
ghost use Rattle.sheet_json.specs.Sheets.{telling_line};
ghost use Rattle.sheet_json.specs.Tellings.{Telling};

use serde_json::Value;
use std::alloc::{AllocError, Global};

/// The line of a value: its text without a space, and a line feed.
///
/// What stands in front of the line feed reads as the value, by the reader of `serde_json`; and no byte
/// of that ends a line, whatever stands in the value's strings.
pub fn line_bytes(alloc: Global, value: &Value) -> Result<Vec<u8>, AllocError>
    ensures text { IfOk result (λ bytes. has_float (view value.now) ≡ false → bytes.items
        ≡ json_line (view value.now)) }
    ensures reads { IfOk result (λ bytes. depth (view value.now) ≤ max_depth → lines.ReadsAs
        bytes.items (view value.now)) }
    ensures within { IfOk result (λ bytes. has_float (view value.now) ≡ false → HasCounts
        (view value.now) → lines.IsOneLine bytes.items) }
{
    let mut bytes = value.to_vec(alloc)?;
    bytes.push(b'\n')?;
    Ok(bytes)
}

/// The line of a message.
pub fn reported_bytes(alloc: Global, value: &Value) -> Result<Vec<u8>, AllocError>
    ensures { (t : Telling) → view value.now ≡ telling_data t
        → IfOk result (λ bytes. bytes.items ≡ telling_line t) }
{
    line_bytes(alloc, value)
}
