//! The texts of channels.
ghost use Rattle.std.specs.Prelude.{◌≡◌, ◌++◌, IfOk, OnOk, option_map};
ghost use Rattle.block_tree.specs.Output.{text_of, text_on_channel};
ghost use Rattle.block_tree.specs.View.{tree_of};

use crate::{Block, Item, Node, Octets, OutOfMemory};
use std::alloc::Global;

/// Adds the text of a block: the texts in it at any depth, without tags.
fn add_text(node: &Node, into: &mut Vec<u8>) -> Result<(), OutOfMemory>
    ensures { OnOk result (into.new.items ≡ into.old.items ++ text_of (tree_of node.now).items) }
{
    for item in &node.items {
        match item {
            Item::Text(text) => into.extend_from_slice(text.as_slice())?,
            Item::Block(inner) => add_text(inner, into)?,
        }
    }
    Ok(())
}

/// The block of this channel that opens last, the node itself included.
fn last_channel<'a>(node: &'a Node, name: &[u8]) -> Option<&'a Node>
    ensures { option_map (λ found. text_of (tree_of found.now).items) result
        ≡ text_on_channel name.now (tree_of node.now) }
{
    let mut found = None;
    for item in &node.items {
        if let Item::Block(inner) = item {
            if let Some(later) = last_channel(inner, name) {
                found = Some(later);
            }
        }
    }
    if found.is_none() && node.tag.channel && node.tag.name.as_slice() == name {
        return Some(node);
    }
    found
}

/// The text of the block of this channel that opens last in a block, the block itself included; none
/// where there is no such channel. The text is not cut.
/// (TeXmacs manual, interfacing: channels, prompts and default input.)
pub fn channel_text(
    alloc: Global,
    block: &Block,
    name: &[u8],
) -> Result<Option<Octets>, OutOfMemory>
    ensures { IfOk result (λ text. text ≡ text_on_channel name.now block.now) }
{
    match last_channel(&block.node, name) {
        None => Ok(None),
        Some(node) => {
            let mut text = Vec::new(alloc);
            add_text(node, &mut text)?;
            Ok(Some(Octets::from_vec(text)))
        }
    }
}
