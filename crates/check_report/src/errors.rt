//! Whether an output is an error, or has one in it.
ghost use Rattle.std.specs.Prelude.{◌≡◌};
ghost use Rattle.block_tree.specs.View.{tree_of};
ghost use Rattle.check_report.specs.Errors as errors;

use block_tree::{Block, Item, Node};
use sheet_notebook::{is_error_tag, is_output_tag};
use worksheet::Answer;

/// Whether an error stands in the node, at any depth, which is one of the channel of answers or not.
fn has_error(node: &Node, in_output: bool) -> bool
    ensures { result ≡ errors.has_error in_output (tree_of node.now).items }
{
    for item in &node.items {
        if let Item::Block(inner) = item {
            if is_error_tag(&inner.tag, in_output) || has_error(inner, is_output_tag(&inner.tag)) {
                return true;
            }
        }
    }
    false
}

/// Whether an output is an error, or has one in it (docs/use/PROTOCOL.md, "Errors").
pub fn tells_error(output: &Block) -> bool
    ensures { result ≡ errors.tells_error output.now }
{
    let node = output.node();
    is_error_tag(&node.tag, false) || has_error(node, is_output_tag(&node.tag))
}

/// Whether an answer came that is an error, or has one in it.
pub fn brings_error(came: &Option<Answer>) -> bool
    ensures { result ≡ errors.brings_error came.now }
{
    match came {
        None => false,
        Some(answer) => tells_error(&answer.output),
    }
}
