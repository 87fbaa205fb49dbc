//! The last byte of a block as it is printed.
ghost use Rattle.std.specs.Prelude.{◌≡◌};
ghost use Rattle.std.specs.List.{last_or};
ghost use Rattle.block_tree.specs.View.{tree_of};
ghost use Rattle.sheet_text.specs.Blocks.{block_text};
ghost use Rattle.sheet_text.specs.Escape.{on_lines};
ghost use Rattle.sheet_text.specs.Texts as printed;

use crate::blocks::is_bare_tag;
use crate::escape::last_printed;
use block_tree::{Block, Item, Node};

/// The last byte of printed bytes, or that before them where there are none.
#[tactic(auto, using(crate::proofs::LastBytes::text_ends))]
fn text_end(bytes: &[u8], before: Option<u8>) -> Option<u8>
    ensures { result ≡ last_or before (on_lines bytes.now) }
{
    match bytes.last() {
        None => before,
        Some(byte) => Some(last_printed(*byte, true)),
    }
}

/// The last byte of a block as a worksheet shows it, or that before it where nothing is shown.
fn shown_end(node: &Node, before: Option<u8>) -> Option<u8>
    ensures { result ≡ last_or before (block_text (tree_of node.now)) }
{
    if !is_bare_tag(&node.tag) {
        return Some(b'}');
    }
    let mut end = before;
    for item in &node.items {
        end = match item {
            Item::Text(text) => text_end(text.as_slice(), end),
            Item::Block(inner) => shown_end(inner, end),
        };
    }
    end
}

/// Whether a text, printed on the lines that it has, ends in a line feed.
pub(crate) fn text_ends_line(text: &[u8]) -> bool
    ensures { result ≡ printed.ends_line (on_lines text.now) }
{
    match text_end(text, None) {
        None => false,
        Some(byte) => byte == b'\n',
    }
}

/// Whether a block, as a worksheet shows it, ends in a line feed.
pub(crate) fn ends_line(block: &Block) -> bool
    ensures { result ≡ printed.ends_line (block_text block.now) }
{
    match shown_end(block.node(), None) {
        None => false,
        Some(byte) => byte == b'\n',
    }
}
