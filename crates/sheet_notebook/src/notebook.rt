//! A worksheet as a notebook.
ghost use Rattle.std.specs.Prelude.{◌≡◌, ◌++◌, IfOk, Some, IsUtf8, codes, string_bytes, true};
ghost use Rattle.std.specs.Fmt.{decimal};
ghost use Rattle.serde_json.specs.Read.{read};
ghost use Rattle.serde_json.specs.View.{view};
ghost use Rattle.sheet_notebook.specs.Notebook as notebook;
ghost use Rattle.sheet_notebook.specs.Strings as shown;
ghost use Rattle.sheet_text.specs.InputLines as lines;

use crate::empty::shows_nothing;
use crate::outputs::outputs_in;
use crate::strings::string_of;
use block_tree::Block;
use serde_json::{Map, Value, json, put};
use sheet_text::unfolded;
use std::alloc::{AllocError, Global};
use worksheet::{Answer, Field, Sheet};

/// The id of a cell.
fn id_of(alloc: Global, number: u32) -> Result<String, AllocError>
    ensures { IfOk result (λ text. string_bytes text ≡ codes "field-" ++ decimal number) }
{
    format!(in alloc; "field-{}", number)
}

/// The outputs of an answer: none where it shows nothing.
fn answer_outputs(alloc: Global, output: &Block) -> Result<Value, AllocError>
    ensures { IfOk result (λ value. view value ≡ notebook.answer_outputs output.now) }
{
    if shows_nothing(output) {
        return json!(in alloc; []);
    }
    outputs_in(alloc, output.node())
}

/// The outputs of a cell: none of a field without an answer.
fn outputs_of(alloc: Global, answer: &Option<Answer>) -> Result<Value, AllocError>
    ensures { IfOk result (λ value. view value ≡ notebook.outputs_of answer.now) }
{
    match answer {
        None => json!(in alloc; []),
        Some(answer) => answer_outputs(alloc, &answer.output),
    }
}

/// The session of a field, under the name of this program.
fn metadata_of(alloc: Global, field: &Field) -> Result<Value, AllocError>
    ensures { IfOk result (λ value. view value ≡ notebook.cell_metadata field.now) }
{
    let session = string_of(alloc, field.session.as_slice(), true)?;
    json!(in alloc; {"tmhost": {"session": session}})
}

/// The input of a field, with a line feed for each U+2028.
fn source_of(alloc: Global, field: &Field) -> Result<String, AllocError>
    ensures { IfOk result
        (λ text. string_bytes text ≡ shown.string_of true (lines.unfolded field.now.input)) }
{
    let input = unfolded(alloc, field.input.as_str())?;
    let source = string_of(alloc, input.as_bytes(), true)?;
    Ok(source)
}

/// A field as a cell of code.
#[tactic(auto, unfolding(crate::specs::Notebook::cell_of))]
fn cell_of(alloc: Global, field: &Field) -> Result<Value, AllocError>
    ensures { IfOk result (λ value. view value ≡ notebook.cell_of field.now) }
{
    let mut cell = Map::new(alloc);
    put(
        &mut cell,
        alloc,
        "cell_type",
        Value::try_from_str(alloc, "code")?,
    )?;
    put(&mut cell, alloc, "execution_count", Value::Null)?;
    put(&mut cell, alloc, "id", Value::from(id_of(alloc, field.id)?))?;
    put(&mut cell, alloc, "metadata", metadata_of(alloc, field)?)?;
    put(
        &mut cell,
        alloc,
        "outputs",
        outputs_of(alloc, &field.answer)?,
    )?;
    put(
        &mut cell,
        alloc,
        "source",
        Value::from(source_of(alloc, field)?),
    )?;
    Ok(Value::Object(cell))
}

/// The cells of the fields, in their order.
#[tactic(auto, using(crate::proofs::Cells::cell_steps))]
fn cells_of(alloc: Global, sheet: &Sheet) -> Result<Value, AllocError>
    ensures { IfOk result (λ value. view value ≡ notebook.cells_of sheet.now.contents.fields) }
{
    let mut cells = Vec::new(alloc);
    let mut fields = sheet.fields();
    while let Some(field) = fields.next() {
        let cell = cell_of(alloc, field)?;
        cells.push(cell)?;
    }
    Ok(Value::Array(cells))
}

/// The notebook of a worksheet.
fn notebook_of(alloc: Global, sheet: &Sheet) -> Result<Value, AllocError>
    ensures { IfOk result (λ value. view value ≡ notebook.notebook sheet.now.contents) }
{
    let cells = cells_of(alloc, sheet)?;
    json!(in alloc; {"cells": cells, "metadata": {}, "nbformat": 4, "nbformat_minor": 5})
}

/// The text of a worksheet as a notebook of nbformat 4.5, whole in memory. What it reads as is the
/// notebook, by the reader of `serde_json`.
pub fn notebook_bytes(alloc: Global, sheet: &Sheet) -> Result<Vec<u8>, AllocError>
    ensures text { IfOk result (λ bytes. bytes.items ≡ notebook.notebook_text sheet.now.contents) }
    ensures utf8 { IfOk result (λ bytes. IsUtf8 bytes.items) }
    ensures reads { IfOk result
        (λ bytes. read bytes.items ≡ Some (notebook.notebook sheet.now.contents)) }
{
    let notebook = notebook_of(alloc, sheet)?;
    notebook.to_vec(alloc)
}
