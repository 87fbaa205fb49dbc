//! Copies of trees.
ghost use Rattle.std.specs.Prelude.{◌≡◌, IfOk};
ghost use Rattle.block_tree.specs.View.{piece_of, tree_of};

use crate::{Item, Node, OutOfMemory, Tag};

/// A copy of a tree.
#[cycle(copy)]
pub fn copy_node(node: &Node) -> Result<Node, OutOfMemory>
    ensures { IfOk result (λ copy. tree_of copy ≡ tree_of node.now) }
{
    let mut items = Vec::with_capacity(*node.items.allocator(), node.items.len())?;
    for item in &node.items {
        let copied = copy_item(item)?;
        items.push(copied)?;
    }
    let name = node.tag.name.copy()?;
    let tag = Tag {
        channel: node.tag.channel,
        name,
    };
    Ok(Node { tag, items })
}

#[cycle(copy)]
fn copy_item(item: &Item) -> Result<Item, OutOfMemory>
    ensures { IfOk result (λ copy. piece_of copy ≡ piece_of item.now) }
{
    match item {
        Item::Text(text) => Ok(Item::Text(text.copy()?)),
        Item::Block(node) => Ok(Item::Block(copy_node(node)?)),
    }
}
