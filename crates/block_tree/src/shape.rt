//! Which trees are blocks.
ghost use Rattle.std.specs.Prelude.{◌≡◌, ◌&&◌, false, nat_le};
ghost use Rattle.block_tree.specs.inside.Reading.{is_right};
ghost use Rattle.block_tree.specs.Shape.{depth, is_tag_name, longest_tag};
ghost use Rattle.block_tree.specs.View.{tree_of};

use crate::{Item, Node};

/// The most bytes of a tag's name.
pub const LONGEST_TAG: usize = 64;

/// The most blocks in one another, the outer one among them.
pub const MOST_LEVELS: u32 = 32;

fn is_name(name: &[u8]) -> bool
    ensures { result ≡ is_tag_name longest_tag name.now }
{
    if name.is_empty() || name.len() > LONGEST_TAG {
        return false;
    }
    for c in name {
        if *c < 32 || *c == b':' || *c == b'#' {
            return false;
        }
    }
    true
}

/// Whether each tag is right, no text is empty and no two texts stand side by side, at any depth.
pub fn is_plain_node(node: &Node) -> bool
    ensures { result ≡ (is_tag_name longest_tag (tree_of node.now).name
        && is_right longest_tag false
        (tree_of node.now).items) }
{
    if !is_name(node.tag.name.as_slice()) {
        return false;
    }
    let mut after_text = false;
    for item in &node.items {
        match item {
            Item::Text(text) => {
                if after_text || text.as_slice().is_empty() {
                    return false;
                }
                after_text = true;
            }
            Item::Block(inner) => {
                if !is_plain_node(inner) {
                    return false;
                }
                after_text = false;
            }
        }
    }
    true
}

/// Whether the node is at most so deep.
pub fn fits_in(node: &Node, most: u32) -> bool
    ensures { result ≡ nat_le (depth (tree_of node.now)) most }
{
    if most == 0 {
        return false;
    }
    for item in &node.items {
        if let Item::Block(inner) = item {
            if !fits_in(inner, most - 1) {
                return false;
            }
        }
    }
    true
}
