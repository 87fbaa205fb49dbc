//! Whether two trees are equal.
ghost use Rattle.std.specs.Prelude.{◌≡◌};
ghost use Rattle.block_tree.specs.Same.{same_piece, same_tree};
ghost use Rattle.block_tree.specs.View.{piece_of, tree_of};

use crate::{Item, Node};

/// Whether two nodes have the same tag and equal items.
#[tactic(auto, using(crate::proofs::Views::same_rules))]
#[cycle(same)]
pub fn same_node(a: &Node, b: &Node) -> bool
    ensures { result ≡ same_tree (tree_of a.now) (tree_of b.now) }
{
    if a.tag.channel != b.tag.channel || a.tag.name != b.tag.name {
        return false;
    }
    if a.items.len() != b.items.len() {
        return false;
    }
    for i in 0..a.items.len() {
        if !same_item(&a.items[i], &b.items[i]) {
            return false;
        }
    }
    true
}

#[cycle(same)]
fn same_item(a: &Item, b: &Item) -> bool
    ensures { result ≡ same_piece (piece_of a.now) (piece_of b.now) }
{
    match (a, b) {
        (Item::Text(x), Item::Text(y)) => x == y,
        (Item::Block(x), Item::Block(y)) => same_node(x, y),
        _ => false,
    }
}
