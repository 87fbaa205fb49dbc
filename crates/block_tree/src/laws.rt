//! Laws of blocks: functions without a body, whose contracts are the statements.
ghost use Rattle.std.specs.Prelude.{◌≡◌, ◌↔◌, ℕ, true, IsTrue};
ghost use Rattle.block_tree.specs.inside.Marks.{marks};
ghost use Rattle.block_tree.specs.Same.{same_tree};
ghost use Rattle.block_tree.specs.Shape.{is_block_within};
ghost use Rattle.block_tree.specs.Tree.{Tree};

/// What `==` answers of two blocks, `same_tree`, is true exactly where their trees are one.
pub fn equal_blocks()
    ensures { (a b : Tree) → IsTrue (same_tree a b) ↔ (a ≡ b) }
{}

/// The marks of a block tell which block it is, whatever the limits of its tags and its depth.
pub fn equal_marks()
    ensures { (tag deep : ℕ) (a b : Tree) → is_block_within tag deep a ≡ true
        → is_block_within tag deep b ≡ true → marks a ≡ marks b → a ≡ b }
{}
