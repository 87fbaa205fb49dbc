//! Blocks as JSON.
ghost use Rattle.std.specs.Prelude.{◌≡◌, IfOk};
ghost use Rattle.block_tree.specs.View.{piece_of, tree_of};
ghost use Rattle.serde_json.specs.View.{items_view, view};
ghost use Rattle.sheet_json.specs.Blocks as json;

use crate::bytes::bytes_value;
use crate::members::Members;
use block_tree::{Block, Item, Node, Tag};
use serde_json::Value;
use std::alloc::{AllocError, Global};

/// Whether a block is a channel, as a word.
fn kind_name(channel: bool) -> &'static str
    ensures { result.now ≡ json.kind_name channel }
{
    if channel { "channel" } else { "format" }
}

/// A block with the values of what stands in it.
fn framed(alloc: Global, tag: &Tag, inside: Vec<Value>) -> Result<Value, AllocError>
    ensures { IfOk result (λ value. view value
        ≡ json.block_object tag.now.channel tag.now.name (items_view inside.items)) }
{
    let members = Members::new(alloc)
        .with("items", Value::Array(inside))?
        .text("kind", kind_name(tag.channel))?
        .bytes("tag", tag.name.as_slice())?;
    Ok(members.done())
}

/// What stands in a block: a text, or a block.
#[cycle(json)]
#[tactic(auto, using(crate::proofs::Nodes::node_steps))]
fn item_value(alloc: Global, item: &Item) -> Result<Value, AllocError>
    ensures { IfOk result (λ value. view value ≡ json.piece_data (piece_of item.now)) }
{
    match item {
        Item::Text(text) => bytes_value(alloc, text.as_slice()),
        Item::Block(inner) => node_value(alloc, inner),
    }
}

/// A node, with all that stands in it.
#[cycle(json)]
#[tactic(auto, using(crate::proofs::Nodes::node_steps))]
fn node_value(alloc: Global, node: &Node) -> Result<Value, AllocError>
    ensures { IfOk result (λ value. view value ≡ json.tree_data (tree_of node.now)) }
{
    let mut inside = Vec::new(alloc);
    for item in &node.items {
        let value = item_value(alloc, item)?;
        inside.push(value)?;
    }
    framed(alloc, &node.tag, inside)
}

/// A block, with all its tags.
pub fn block_value(alloc: Global, block: &Block) -> Result<Value, AllocError>
    ensures { IfOk result (λ value. view value ≡ json.tree_data block.now) }
{
    node_value(alloc, block.node())
}
