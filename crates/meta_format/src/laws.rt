//! What the definitions imply, as contracts of functions that do nothing.

ghost use Rattle.std.specs.Prelude.{◌≡◌, ◌≤◌, ◌*◌, ◌⊎◌, ℕ, List, [], ◌++◌, length, max, true};
ghost use Rattle.block_tree.specs.Tree.{Tree};
ghost use Rattle.block_tree.specs.Output.{output};
ghost use Rattle.block_tree.specs.Shape.{is_block_within};
ghost use Rattle.meta_format.specs.Limits.{Limits, IsRoomy};
ghost use Rattle.meta_format.specs.Spelling.{Spells};
ghost use Rattle.meta_format.specs.Canonical.{canonical};
ghost use Rattle.meta_format.specs.Stream.{Outer, Stream};
ghost use Rattle.meta_format.specs.Faults.{Kind, FirstFault, IsSound};
ghost use Rattle.meta_format.specs.Reader.{Faults, CloseWithin};

/// No bytes spell two blocks.
pub fn one_block()
    ensures { (most : Limits) (b c : Tree) (s : List ℕ) → Spells most b s → Spells most c s
        → b ≡ c }
{}

/// No spelling of a block begins another: nothing follows it there.
pub fn no_front()
    ensures { (most : Limits) (b c : Tree) (s t : List ℕ) → Spells most b s → Spells most c (s ++ t)
        → t ≡ [] }
{}

/// The canonical spelling of a block spells it.
pub fn canonical_spelling()
    ensures { (most : Limits) (b : Tree) → is_block_within most.tag most.levels b ≡ true
        → Spells most b (canonical b) }
{}

/// A block grows to at most one and a half times its length when it is written canonically.
pub fn canonical_growth()
    ensures { (most : Limits) (b : Tree) (s : List ℕ) → Spells most b s
        → 2 * length (canonical b) ≤ 3 * length s }
{}

/// An output has no more bytes than its block, both written canonically, or the 11 of an empty `verbatim` block.
pub fn output_length()
    ensures { (b : Tree) → length (canonical (output b)) ≤ max 11 (length (canonical b)) }
{}

/// A stream has one reading: its outer blocks with their offsets, and its open tail. So it does not
/// matter how it is cut into pieces.
pub fn one_reading()
    ensures { (most : Limits) → IsRoomy most
        → (s : List ℕ) (blocks others : List Outer) (tail rest : List ℕ) → Stream most s blocks tail
        → Stream most s others rest → (blocks ≡ others) × (tail ≡ rest) }
{}

/// A stream has one first fault, of one kind.
pub fn one_fault()
    ensures { (most : Limits) → IsRoomy most → (s : List ℕ) (at place : ℕ) (kind other : Kind)
        → FirstFault most s at kind → FirstFault most s place other
        → (at ≡ place) × (kind ≡ other) }
{}

/// Every stream has a reading, also one with a fault.
pub fn a_reading()
    ensures { (most : Limits) → IsRoomy most → (s : List ℕ)
        → (blocks : List Outer) × (tail : List ℕ) × Stream most s blocks tail }
{}

/// Every stream has no fault, or a first one with blocks before it.
pub fn a_fault_or_none()
    ensures { (most : Limits) → IsRoomy most → (s : List ℕ)
        → IsSound most s ⊎ ((at : ℕ) × (kind : Kind) × (blocks : List Outer)
        × Faults most s at kind blocks) }
{}

/// More bytes after a stream without a fault leave its blocks as they are. The further ones close in
/// these bytes, and then the stream has no fault either, or its first one lies in them.
pub fn blocks_stay()
    ensures { (most : Limits) → IsRoomy most → (s p : List ℕ) (blocks : List Outer) (tail : List ℕ)
        → Stream most s blocks tail → IsSound most s
        → (more : List Outer) × CloseWithin (length s) (length (s ++ p)) more
        × (((tail : List ℕ) × Stream most (s ++ p) (blocks ++ more) tail
        × IsSound most (s ++ p)) ⊎ ((at : ℕ) × (kind : Kind)
        × Faults most (s ++ p) at kind (blocks ++ more))) }
{}
