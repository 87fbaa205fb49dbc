//! Outputs that show nothing.
ghost use Rattle.std.specs.Prelude.{◌≡◌, ◌&&◌};
ghost use Rattle.block_tree.specs.View.{tree_of};
ghost use Rattle.sheet_notebook.specs.Empty as empty;
ghost use Rattle.sheet_notebook.specs.inside.Blank.{are_blank};
ghost use Rattle.sheet_text.specs.Blocks.{is_bare};

use block_tree::{Block, Item, Node};
use sheet_text::is_bare_tag;

/// Whether no tag of a node is shown and no text in it has a byte, at any depth.
#[tactic(auto, using(crate::proofs::Blanks::blank_rules))]
fn is_blank(node: &Node) -> bool
    ensures { result ≡ (is_bare (tree_of node.now).channel (tree_of node.now).name && are_blank
        (tree_of node.now).items) }
{
    if !is_bare_tag(&node.tag) {
        return false;
    }
    for item in &node.items {
        match item {
            Item::Text(text) => {
                if !text.as_slice().is_empty() {
                    return false;
                }
            }
            Item::Block(inner) => {
                if !is_blank(inner) {
                    return false;
                }
            }
        }
    }
    true
}

/// Whether `print` shows no byte of an output, as of a line without a value.
#[tactic(auto, using(crate::proofs::Blanks::nothing_rules))]
pub fn shows_nothing(output: &Block) -> bool
    ensures { result ≡ empty.shows_nothing output.now }
{
    is_blank(output.node())
}
