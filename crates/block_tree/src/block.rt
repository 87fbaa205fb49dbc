//! Blocks.
ghost use Rattle.std.specs.Prelude.{◌≡◌, IsTrue, IfOk, MatchResult};
ghost use Rattle.block_tree.specs.Shape.{is_block};
ghost use Rattle.block_tree.specs.View.{tree_of};

use crate::compare::same_node;
use crate::copy::copy_node;
use crate::shape::{MOST_LEVELS, fits_in, is_plain_node};
use crate::{Node, OutOfMemory};
use std::marker::Model;

/// A block: a tree whose tags are right (1 to 64 bytes, each at least 32, no ':' and no '#'), which has
/// no empty text and no two texts side by side, and at most 32 blocks in one another.
///
/// Contracts see it as its tree. (TeXmacs manual, interfacing: formatted output. What a tag is, and the
/// limits: docs/use/PROTOCOL.md, "Spelling of blocks".)
#[derive(Debug, Drop)]
pub struct Block {
    pub(crate) node: Node,
}

impl Model for Block {
    ghost use Rattle.std.specs.Prelude.{◌≡◌, true};
    ghost use Rattle.block_tree.specs.Tree.{Tree};
    ghost use Rattle.block_tree.specs.inside.Code.{coded_tree};
    ghost use Rattle.block_tree.specs.View.{tree_of};
    ghost use Rattle.block_tree.specs.Shape.{is_block};

    ghost Value = { Tree };

    ghost coded = { coded_tree };

    ghost view = { λ block. tree_of block.node };

    ghost invariant = { λ block. is_block (tree_of block.node) ≡ true };
}

impl Block {
    /// The block, or the node again where it is none. No memory is taken.
    #[tactic(auto, using(crate::proofs::Shapes::right_proper))]
    pub fn new(node: Node) -> Result<Block, Node>
        ensures cases { MatchResult result (λ block. (block ≡ tree_of node)
            × IsTrue (is_block (tree_of node))) (λ back. (back ≡ node)
            × (IsTrue (is_block (tree_of node)) → ⊥)) }
    {
        // The depth first: it stops at the limit, however deep the node is.
        if fits_in(&node, MOST_LEVELS) && is_plain_node(&node) {
            Ok(Block { node })
        } else {
            Err(node)
        }
    }

    /// The tree of the block, as plain data.
    pub fn node(&self) -> &Node
        ensures same { tree_of result.now ≡ self.now }
        ensures right { IsTrue (is_block self.now) }
    {
        &self.node
    }

    /// A copy, by the allocator of this block. It fails where memory is refused.
    pub fn copy(&self) -> Result<Block, OutOfMemory>
        ensures { IfOk result (λ copy. copy ≡ self.now) }
    {
        let node = copy_node(&self.node)?;
        Ok(Block { node })
    }
}

/// Two blocks are equal where their trees are; `equal_blocks` is the law.
impl PartialEq for Block {
    ghost use Rattle.block_tree.specs.Same.{same_tree, same_tree_per};

    ghost eq = { same_tree };

    ghost laws = { same_tree_per };

    fn eq(&self, other: &Block) -> bool {
        same_node(&self.node, &other.node)
    }
}

impl Eq for Block {
    ghost use Rattle.block_tree.specs.Same.{same_tree_equiv};

    ghost laws = { same_tree_equiv };
}
