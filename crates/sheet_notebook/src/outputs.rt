//! An answer as outputs of a cell.
ghost use Rattle.std.specs.Prelude.{◌≡◌, IfOk, OnOk, map, option_map, string_bytes};
ghost use Rattle.std.specs.List.{list_any};
ghost use Rattle.block_tree.specs.View.{piece_of, tree_of};
ghost use Rattle.serde_json.specs.Data.{array};
ghost use Rattle.serde_json.specs.View.{items_of, view};
ghost use Rattle.sheet_notebook.specs.Notebook as notebook;
ghost use Rattle.sheet_notebook.specs.Parts as part;
ghost use Rattle.sheet_notebook.specs.Pictures.{drawn_as};
ghost use Rattle.sheet_notebook.specs.Strings as shown;
ghost use Rattle.sheet_notebook.specs.inside.Outputs.{AddsOutputs};

use crate::formulas::formula_of_node;
use crate::pictures::{PictureKind, is_error_tag, is_output_tag, picture_kind, picture_text};
use crate::strings::{inside_string, node_string, string_of};
use block_tree::{Item, Node};
use serde_json::{Value, json};
use sheet_text::is_bare_tag;
use std::alloc::{AllocError, Global};

/// An output as text.
fn plain_bundle(alloc: Global, node: &Node) -> Result<Value, AllocError>
    ensures { IfOk result (λ value. view value ≡ notebook.plain_bundle (tree_of node.now)) }
{
    let plain = node_string(alloc, node)?;
    json!(in alloc; {"text/plain": plain})
}

/// A formula, and beside it its TeX as text.
fn formula_bundle(alloc: Global, formula: &[u8]) -> Result<Value, AllocError>
    ensures { IfOk result (λ value. view value ≡ notebook.formula_bundle formula.now) }
{
    let tex = string_of(alloc, formula, true)?;
    let plain = string_of(alloc, formula, true)?;
    json!(in alloc; {"text/latex": tex, "text/plain": plain})
}

/// A picture, and beside it what it is.
fn picture_bundle(alloc: Global, kind: PictureKind, text: &[u8]) -> Result<Value, AllocError>
    ensures { IfOk result (λ value. view value ≡ notebook.picture_bundle kind text.now) }
{
    let data = string_of(alloc, text, true)?;
    match kind {
        PictureKind::Png => {
            json!(in alloc; {"image/png": data, "text/plain": "A picture (PNG)"})
        }
        PictureKind::Jpeg => {
            json!(in alloc; {"image/jpeg": data, "text/plain": "A picture (JPEG)"})
        }
        PictureKind::Svg => {
            json!(in alloc; {"image/svg+xml": data, "text/plain": "A picture (SVG)"})
        }
    }
}

/// What an interpreter answered.
fn result_of(alloc: Global, given: Value) -> Result<Value, AllocError>
    ensures { IfOk result (λ value. view value ≡ notebook.result_of (view given)) }
{
    json!(in alloc; {
        "data": given,
        "execution_count": null,
        "metadata": {},
        "output_type": "execute_result"
    })
}

/// What it showed.
fn display_of(alloc: Global, given: Value) -> Result<Value, AllocError>
    ensures { IfOk result (λ value. view value ≡ notebook.display_of (view given)) }
{
    json!(in alloc; {"data": given, "metadata": {}, "output_type": "display_data"})
}

/// What it printed.
fn stream_of(alloc: Global, printed: String) -> Result<Value, AllocError>
    ensures { IfOk result (λ value. view value ≡ notebook.stream_data (string_bytes printed)) }
{
    json!(in alloc; {"name": "stdout", "output_type": "stream", "text": printed})
}

/// What it reports as an error.
fn error_of(alloc: Global, node: &Node) -> Result<Value, AllocError>
    ensures { IfOk result
        (λ value. view value ≡ notebook.error_data (shown.items_string (tree_of node.now).items)) }
{
    let reported = inside_string(alloc, node)?;
    let line = inside_string(alloc, node)?;
    json!(in alloc; {"ename": "Error", "evalue": reported, "output_type": "error", "traceback": [line]})
}

/// A picture that isn't drawn, by its format.
fn undrawn_of(alloc: Global, name: &[u8]) -> Result<Value, AllocError>
    ensures { IfOk result
        (λ value. view value ≡ notebook.stream_data (notebook.undrawn_text name.now)) }
{
    let format = string_of(alloc, name, false)?;
    let mut text = String::new(alloc);
    text.push_str("{")?;
    text.push_str(format.as_str())?;
    text.push_str(": not drawn}")?;
    stream_of(alloc, text)
}

/// A picture of this format.
fn picture_output(alloc: Global, name: &[u8], text: &[u8]) -> Result<Value, AllocError>
    ensures { IfOk result (λ value. view value
        ≡ notebook.picture_output (drawn_as name.now text.now) name.now text.now) }
{
    match picture_kind(name, text) {
        Some(kind) => {
            let bundle = picture_bundle(alloc, kind, text)?;
            display_of(alloc, bundle)
        }
        None => undrawn_of(alloc, name),
    }
}

/// A formula as an answer.
fn formula_output(alloc: Global, formula: &[u8]) -> Result<Value, AllocError>
    ensures { IfOk result
        (λ value. view value ≡ notebook.result_of (notebook.formula_bundle formula.now)) }
{
    let bundle = formula_bundle(alloc, formula)?;
    result_of(alloc, bundle)
}

/// A picture or a formula, if a node is one.
#[tactic(auto, using(crate::proofs::Pieces::item_rules))]
fn media_of(alloc: Global, node: &Node) -> Result<Option<Value>, AllocError>
    ensures { IfOk result (λ found. option_map view found ≡ notebook.media_of (tree_of node.now)) }
{
    if let Some(text) = picture_text(node) {
        let value = picture_output(alloc, node.tag.name.as_slice(), text)?;
        return Ok(Some(value));
    }
    if let Some(formula) = formula_of_node(node) {
        let value = formula_output(alloc, formula)?;
        return Ok(Some(value));
    }
    Ok(None)
}

/// An error, a picture or a formula, if a node is one.
#[tactic(auto, using(crate::proofs::Pieces::item_rules))]
fn own_output(alloc: Global, node: &Node, in_output: bool) -> Result<Option<Value>, AllocError>
    ensures { IfOk result
        (λ found. option_map view found ≡ notebook.own_output in_output (tree_of node.now)) }
{
    if is_error_tag(&node.tag, in_output) {
        let value = error_of(alloc, node)?;
        return Ok(Some(value));
    }
    media_of(alloc, node)
}

/// The same, or the node as text.
fn node_output(alloc: Global, node: &Node, in_output: bool) -> Result<Value, AllocError>
    ensures { IfOk result
        (λ value. view value ≡ notebook.block_output in_output (tree_of node.now)) }
{
    match own_output(alloc, node, in_output)? {
        Some(value) => Ok(value),
        None => {
            let text = node_string(alloc, node)?;
            stream_of(alloc, text)
        }
    }
}

/// The same of a whole output, whose text is an answer.
fn whole_output(alloc: Global, node: &Node) -> Result<Value, AllocError>
    ensures { IfOk result (λ value. view value ≡ notebook.whole_output (tree_of node.now)) }
{
    match own_output(alloc, node, false)? {
        Some(value) => Ok(value),
        None => {
            let bundle = plain_bundle(alloc, node)?;
            result_of(alloc, bundle)
        }
    }
}

/// A part as an output.
#[tactic(auto, using(crate::proofs::Pieces::item_rules))]
fn part_output(alloc: Global, item: &Item, in_output: bool) -> Result<Value, AllocError>
    ensures { IfOk result
        (λ value. view value ≡ notebook.part_output (in_output, piece_of item.now)) }
{
    match item {
        Item::Text(text) => {
            let printed = string_of(alloc, text.as_slice(), true)?;
            stream_of(alloc, printed)
        }
        Item::Block(inner) => node_output(alloc, inner, in_output),
    }
}

/// Whether a node is a picture or a formula.
#[tactic(auto, using(crate::proofs::Pieces::item_rules))]
fn is_media(node: &Node) -> bool
    ensures { result ≡ notebook.is_media (tree_of node.now) }
{
    picture_text(node).is_some() || formula_of_node(node).is_some()
}

/// Whether a part is an error, a picture or a formula.
#[tactic(auto, using(crate::proofs::Pieces::item_rules))]
fn is_own_part(item: &Item, in_output: bool) -> bool
    ensures { result ≡ notebook.is_own_part (in_output, piece_of item.now) }
{
    match item {
        Item::Text(_) => false,
        Item::Block(inner) => is_error_tag(&inner.tag, in_output) || is_media(inner),
    }
}

/// Whether one of these is, each as a part.
#[tactic(auto, using(crate::proofs::Parts::part_steps))]
fn any_own_part(items: &[Item], in_output: bool) -> bool
    ensures { result
        ≡ list_any notebook.is_own_part (part.parts_in in_output (map piece_of items.now)) }
{
    let mut rest = items;
    while let Some((item, others)) = rest.split_first() {
        if is_own_part(item, in_output) {
            return true;
        }
        rest = others;
    }
    false
}

/// Whether a block opens the channel of answers, in an output of another kind.
fn opens_answer(node: &Node, in_output: bool) -> bool
    ensures { result ≡ part.opens_answer in_output (tree_of node.now) }
{
    !in_output && is_output_tag(&node.tag)
}

/// Whether an item has a part that is an output of its own.
#[tactic(auto, using(crate::proofs::Parts::part_steps))]
fn has_own_part(item: &Item, in_output: bool) -> bool
    ensures { result
        ≡ list_any notebook.is_own_part (part.parts_at in_output (piece_of item.now)) }
{
    match item {
        Item::Text(_) => false,
        Item::Block(inner) => {
            if opens_answer(inner, in_output) {
                any_own_part(inner.items.as_slice(), true)
            } else {
                is_own_part(item, in_output)
            }
        }
    }
}

/// Whether the parts of a node are outputs of their own.
#[tactic(auto, using(crate::proofs::Parts::part_steps))]
fn has_parts(node: &Node) -> bool
    ensures { result ≡ notebook.has_parts (tree_of node.now) }
{
    let in_output = is_output_tag(&node.tag);
    let mut rest = node.items.as_slice();
    while let Some((item, others)) = rest.split_first() {
        if has_own_part(item, in_output) {
            return is_bare_tag(&node.tag);
        }
        rest = others;
    }
    false
}

/// Adds items as outputs, each as a part.
#[tactic(auto, using(crate::proofs::Parts::part_steps))]
fn push_parts(
    alloc: Global,
    items: &[Item],
    in_output: bool,
    outputs: &mut Vec<Value>,
) -> Result<(), AllocError>
    ensures { OnOk result (AddsOutputs outputs.old.items outputs.new.items
        (part.parts_in in_output (map piece_of items.now))) }
{
    let mut rest = items;
    while let Some((item, others)) = rest.split_first() {
        outputs.push(part_output(alloc, item, in_output)?)?;
        rest = others;
    }
    Ok(())
}

/// Adds the parts of an item as outputs.
#[tactic(auto, using(crate::proofs::Parts::part_steps))]
fn push_item(
    alloc: Global,
    item: &Item,
    in_output: bool,
    outputs: &mut Vec<Value>,
) -> Result<(), AllocError>
    ensures { OnOk result (AddsOutputs outputs.old.items outputs.new.items
        (part.parts_at in_output (piece_of item.now))) }
{
    match item {
        Item::Block(inner) if opens_answer(inner, in_output) => {
            push_parts(alloc, inner.items.as_slice(), true, outputs)
        }
        _ => {
            outputs.push(part_output(alloc, item, in_output)?)?;
            Ok(())
        }
    }
}

/// The parts of a node, each as an output of its own.
#[tactic(auto, using(crate::proofs::Parts::part_steps))]
fn part_outputs(alloc: Global, node: &Node) -> Result<Value, AllocError>
    ensures { IfOk result (λ value. view value
        ≡ array (items_of (map notebook.part_output (part.output_parts (tree_of node.now))))) }
{
    let in_output = is_output_tag(&node.tag);
    let mut outputs = Vec::new(alloc);
    let mut rest = node.items.as_slice();
    while let Some((item, others)) = rest.split_first() {
        push_item(alloc, item, in_output, &mut outputs)?;
        rest = others;
    }
    Ok(Value::Array(outputs))
}

/// What an interpreter printed, showed and answered, in its order, or the output as one.
#[tactic(auto, unfolding(crate::specs::Notebook::outputs_in))]
pub(crate) fn outputs_in(alloc: Global, node: &Node) -> Result<Value, AllocError>
    ensures { IfOk result (λ value. view value ≡ notebook.outputs_in (tree_of node.now)) }
{
    if has_parts(node) {
        return part_outputs(alloc, node);
    }
    let whole = whole_output(alloc, node)?;
    json!(in alloc; [whole])
}
