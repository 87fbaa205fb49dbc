//! A worksheet that no host has, whole.
ghost use Rattle.std.specs.Prelude.{◌≡◌, ◌++◌, IfOk, OnOk, false};
ghost use Rattle.serde_json.specs.View.{view};
ghost use Rattle.serde_json.specs.Written.{has_float};
ghost use Rattle.sheet_json.specs.Lines.{json_line};
ghost use Rattle.sheet_json.specs.Sheets.{fields_text, sheet_lines, telling_line};
ghost use Rattle.sheet_json.specs.Shown.{still_field, whole_of};
ghost use Rattle.sheet_json.specs.Tellings as reported;

use crate::ends::{end_value, hello_value};
use crate::fields::shown_field_value;
use crate::lines::line_bytes;
use crate::sheets::whole_value;
use serde_json::Value;
use std::alloc::{AllocError, Global};
use worksheet::{Field, Sheet};

/// Adds the line of a value.
fn push_line(alloc: Global, value: &Value, bytes: &mut Vec<u8>) -> Result<(), AllocError>
    requires { has_float (view value.now) ≡ false }
    ensures { OnOk result (bytes.new.items ≡ bytes.old.items ++ json_line (view value.now)) }
{
    let line = line_bytes(alloc, value)?;
    bytes.extend_from_slice(line.as_slice())?;
    Ok(())
}

/// Adds the first object.
#[tactic(auto, using(crate::proofs::NoFloats::reported_has_none))]
fn push_hello(alloc: Global, bytes: &mut Vec<u8>) -> Result<(), AllocError>
    ensures { OnOk result (bytes.new.items ≡ bytes.old.items ++ telling_line reported.hello) }
{
    let value = hello_value(alloc)?;
    push_line(alloc, &value, bytes)
}

/// Adds a field.
#[tactic(auto, using(crate::proofs::NoFloats::field_has_none))]
fn push_field(alloc: Global, field: &Field, bytes: &mut Vec<u8>) -> Result<(), AllocError>
    ensures { OnOk result (bytes.new.items ≡ bytes.old.items ++ telling_line
        (still_field field.now)) }
{
    let value = shown_field_value(alloc, field)?;
    push_line(alloc, &value, bytes)
}

/// Adds the fields in their order.
#[tactic(auto, using(crate::proofs::Wholly::field_steps))]
fn push_fields(alloc: Global, sheet: &Sheet, bytes: &mut Vec<u8>) -> Result<(), AllocError>
    ensures { OnOk result (bytes.new.items
        ≡ bytes.old.items ++ fields_text sheet.now.contents.fields) }
{
    let mut fields = sheet.fields();
    while let Some(field) = fields.next() {
        push_field(alloc, field, bytes)?;
    }
    Ok(())
}

/// Adds what the fields are together.
#[tactic(auto, using(crate::proofs::NoFloats::whole_has_none))]
fn push_whole(alloc: Global, sheet: &Sheet, bytes: &mut Vec<u8>) -> Result<(), AllocError>
    ensures { OnOk result (bytes.new.items
        ≡ bytes.old.items ++ telling_line (whole_of sheet.now.contents)) }
{
    let value = whole_value(alloc, sheet)?;
    push_line(alloc, &value, bytes)
}

/// Adds the last object.
#[tactic(auto, using(crate::proofs::NoFloats::reported_has_none))]
fn push_end(alloc: Global, bytes: &mut Vec<u8>) -> Result<(), AllocError>
    ensures { OnOk result (bytes.new.items ≡ bytes.old.items ++ telling_line reported.end) }
{
    let value = end_value(alloc)?;
    push_line(alloc, &value, bytes)
}

/// The text of a worksheet that no host has, whole in memory: the first object, an object for each field
/// in its order, what they are together, and the last object.
#[tactic(auto, using(crate::proofs::Wholly::sheet_made))]
pub fn sheet_bytes(alloc: Global, sheet: &Sheet) -> Result<Vec<u8>, AllocError>
    ensures { IfOk result (λ bytes. bytes.items ≡ sheet_lines sheet.now.contents) }
{
    let mut bytes = Vec::new(alloc);
    push_hello(alloc, &mut bytes)?;
    push_fields(alloc, sheet, &mut bytes)?;
    push_whole(alloc, sheet, &mut bytes)?;
    push_end(alloc, &mut bytes)?;
    Ok(bytes)
}
