//! Outputs: blocks without prompts and default inputs.
ghost use Rattle.std.specs.Prelude.{◌≡◌, ◌||◌, IfOk, OnOk, map};
ghost use Rattle.block_tree.specs.inside.Asides.{has_aside};
ghost use Rattle.block_tree.specs.inside.Growing.{text_after};
ghost use Rattle.block_tree.specs.Output.{is_aside, output, output_items};
ghost use Rattle.block_tree.specs.Tree.{items_from};
ghost use Rattle.block_tree.specs.View.{piece_of, tree_of};

use crate::{Block, Item, Node, Octets, OutOfMemory, Tag, TagName};
use std::alloc::Global;

/// Whether this is the tag of a prompt or of a default input.
fn is_aside_tag(tag: &Tag) -> bool
    ensures { result ≡ is_aside tag.now.channel tag.now.name }
{
    tag.channel
        && (tag.name.as_slice() == b"prompt".as_slice()
            || tag.name.as_slice() == b"input".as_slice())
}

/// Adds a text, to the last item where that is a text.
#[tactic(auto, using(crate::proofs::Outputs::grown))]
fn push_text(alloc: Global, items: &mut Vec<Item>, text: &[u8]) -> Result<(), OutOfMemory>
    ensures { OnOk result (items_from (map piece_of items.new.items)
        ≡ text_after (items_from (map piece_of items.old.items)) text.now) }
{
    match items.pop() {
        Some(Item::Text(mut last)) => {
            last.extend(text)?;
            items.push(Item::Text(last))?;
        }
        Some(Item::Block(last)) => {
            let text = Octets::from_vec(text.to_vec(alloc)?);
            items.push(Item::Block(last))?;
            items.push(Item::Text(text))?;
        }
        None => {
            let text = Octets::from_vec(text.to_vec(alloc)?);
            items.push(Item::Text(text))?;
        }
    }
    Ok(())
}

/// The node without the prompts and default inputs in it.
#[tactic(auto, using(crate::proofs::Outputs::output_rules))]
fn without_asides(alloc: Global, node: &Node) -> Result<Node, OutOfMemory>
    ensures { IfOk result (λ kept. tree_of kept
        ≡ record (tree_of node.now) { items = output_items (tree_of node.now).items }) }
{
    let mut items = Vec::new(alloc);
    for item in &node.items {
        match item {
            Item::Text(text) => push_text(alloc, &mut items, text.as_slice())?,
            Item::Block(inner) => {
                if !is_aside_tag(&inner.tag) {
                    let kept = without_asides(alloc, inner)?;
                    items.push(Item::Block(kept))?;
                }
            }
        }
    }
    items.shrink_to_fit();
    let name = node.tag.name.copy()?;
    let tag = Tag {
        channel: node.tag.channel,
        name,
    };
    Ok(Node { tag, items })
}

/// Whether a prompt or a default input stands in the node, at any depth.
fn has_asides(node: &Node) -> bool
    ensures { result ≡ has_aside (tree_of node.now).items }
{
    for item in &node.items {
        if let Item::Block(inner) = item {
            if is_aside_tag(&inner.tag) || has_asides(inner) {
                return true;
            }
        }
    }
    false
}

/// Whether the node is a prompt or a default input, or one stands in it.
fn holds_aside(node: &Node) -> bool
    ensures { result ≡ (is_aside (tree_of node.now).channel (tree_of node.now).name
        || has_aside (tree_of node.now).items) }
{
    is_aside_tag(&node.tag) || has_asides(node)
}

/// The output of a block: the block without its prompts and default inputs at any depth, with
/// neighbouring texts joined. Where the block is itself one of these, an empty `verbatim` block.
/// (TeXmacs manual, interfacing: channels, prompts and default input.)
#[tactic(auto, using(crate::proofs::Outputs::output_is_block))]
pub fn output_of(alloc: Global, block: &Block) -> Result<Block, OutOfMemory>
    ensures { IfOk result (λ kept. kept ≡ output block.now) }
{
    if is_aside_tag(&block.node.tag) {
        let name = TagName::from_slice(alloc, b"verbatim")?;
        let tag = Tag {
            channel: false,
            name,
        };
        let node = Node {
            tag,
            items: Vec::new(alloc),
        };
        Ok(Block { node })
    } else {
        let node = without_asides(alloc, &block.node)?;
        Ok(Block { node })
    }
}

impl Block {
    /// The output of the block, as `output_of` tells it. A block without prompts and default inputs is its
    /// own output, and takes no memory.
    pub fn into_output(self, alloc: Global) -> Result<Block, OutOfMemory>
        ensures { IfOk result (λ kept. kept ≡ output self) }
    {
        if holds_aside(&self.node) {
            output_of(alloc, &self)
        } else {
            Ok(self)
        }
    }
}
