//! The levels that are open.

ghost use Rattle.std.specs.Prelude.{◌≡◌, ◌≤◌, ◌<◌, ◌+◌, [], ◌∷◌, ◌++◌, map, vec_len, OnOk, IfOk, IfSome, IfNone, ◌-◌, true, All};
ghost use Rattle.block_tree.specs.inside.Marks.{letter, open_mark, close_mark};
ghost use Rattle.block_tree.specs.inside.Nodes.{node_marks as marks, is_right_node};
ghost use Rattle.block_tree.specs.Shape.{is_tag_name, longest_tag};
ghost use Rattle.meta_format.specs.inside.Levels.{level_marks, stack_marks, IsRight, IsLevel};

use block_tree::{Item, Node, Octets, OutOfMemory, Tag};
use std::alloc::Global;
use std::mem;

#[derive(Drop)]
pub struct Level {
    pub tag: Tag,
    pub items: Vec<Item>,
    pub text: Vec<u8>,
}

#[tactic(auto, using(crate::proofs::RightLevels::level_rules))]
/// Puts the text that was read so far after the items.
fn flush(alloc: Global, level: &mut Level) -> Result<(), OutOfMemory>
    ensures ok { OnOk result (level_marks level.new ≡ level_marks level.old) }
    ensures no_text { OnOk result (level.new.text.items ≡ []) }
    ensures right { OnOk result (IsLevel level.old → IsRight level.new) }
{
    if !level.text.is_empty() {
        let mut text = mem::replace(&mut level.text, Vec::new(alloc));
        text.shrink_to_fit();
        level.items.push(Item::Text(Octets::from_vec(text)))?;
    }
    Ok(())
}

fn put_letter(level: &mut Level, c: u8) -> Result<(), OutOfMemory>
    ensures right { OnOk result (IsLevel level.old → IsLevel level.new) }
    ensures marks { OnOk result (level_marks level.new ≡ level_marks level.old ++ letter c ∷ []) }
{
    level.text.push(c)?;
    Ok(())
}

fn put_letters(level: &mut Level, text: &[u8]) -> Result<(), OutOfMemory>
    ensures right { OnOk result (IsLevel level.old → IsLevel level.new) }
    ensures marks { OnOk result (level_marks level.new
        ≡ level_marks level.old ++ map letter text.now) }
{
    level.text.extend_from_slice(text)?;
    Ok(())
}

#[tactic(auto, using(crate::proofs::Stacks::tree_rules, crate::proofs::RightLevels::level_rules))]
fn put_block(alloc: Global, level: &mut Level, node: Node) -> Result<(), OutOfMemory>
    requires { is_right_node node ≡ true }
    ensures right { OnOk result (IsLevel level.old → IsLevel level.new) }
    ensures marks { OnOk result (level_marks level.new ≡ level_marks level.old ++ marks node) }
{
    flush(alloc, level)?;
    level.items.push(Item::Block(node))?;
    Ok(())
}

pub fn add_letter(levels: &mut Vec<Level>, c: u8) -> Result<(), OutOfMemory>
    requires some { 0 < vec_len levels.old }
    requires right { All IsLevel levels.old.items }
    ensures right { OnOk result (All IsLevel levels.new.items) }
    ensures marks { OnOk result (stack_marks levels.new.items
        ≡ stack_marks levels.old.items ++ letter c ∷ []) }
    ensures count { OnOk result (vec_len levels.new ≡ vec_len levels.old) }
{
    let top = levels.len() - 1;
    put_letter(&mut levels[top], c)?;
    Ok(())
}

/// The bytes of a text, many at once.
pub fn add_letters(levels: &mut Vec<Level>, text: &[u8]) -> Result<(), OutOfMemory>
    requires some { 0 < vec_len levels.old }
    requires right { All IsLevel levels.old.items }
    ensures right { OnOk result (All IsLevel levels.new.items) }
    ensures marks { OnOk result (stack_marks levels.new.items
        ≡ stack_marks levels.old.items ++ map letter text.now) }
    ensures count { OnOk result (vec_len levels.new ≡ vec_len levels.old) }
{
    let top = levels.len() - 1;
    put_letters(&mut levels[top], text)?;
    Ok(())
}

/// The block that a level makes.
#[tactic(auto, using(crate::proofs::Stacks::tree_rules, crate::proofs::RightLevels::level_rules))]
pub fn node_of(alloc: Global, mut level: Level) -> Result<Node, OutOfMemory>
    requires { IsLevel level }
    ensures right { IfOk result (λ n. is_right_node n ≡ true) }
    ensures marks { IfOk result (λ n. marks n ≡ level_marks level ++ close_mark ∷ []) }
{
    flush(alloc, &mut level)?;
    level.items.shrink_to_fit();
    Ok(Node {
        tag: level.tag,
        items: level.items,
    })
}

pub fn add_block(alloc: Global, levels: &mut Vec<Level>, node: Node) -> Result<(), OutOfMemory>
    requires some { 0 < vec_len levels.old }
    requires right { All IsLevel levels.old.items }
    requires plain { is_right_node node ≡ true }
    ensures right { OnOk result (All IsLevel levels.new.items) }
    ensures marks { OnOk result (stack_marks levels.new.items
        ≡ stack_marks levels.old.items ++ marks node) }
    ensures count { OnOk result (vec_len levels.new ≡ vec_len levels.old) }
{
    let top = levels.len() - 1;
    put_block(alloc, &mut levels[top], node)?;
    Ok(())
}

/// A level is begun.
pub fn add_level(alloc: Global, levels: &mut Vec<Level>, tag: Tag) -> Result<(), OutOfMemory>
    requires tag { is_tag_name longest_tag tag.name ≡ true }
    requires right { All IsLevel levels.old.items }
    ensures right { OnOk result (All IsLevel levels.new.items) }
    ensures marks { OnOk result (stack_marks levels.new.items
        ≡ stack_marks levels.old.items ++ open_mark tag.channel tag.name ∷ []) }
    ensures count { OnOk result (vec_len levels.new ≡ vec_len levels.old + 1) }
{
    levels.push(Level {
        tag,
        items: Vec::new(alloc),
        text: Vec::new(alloc),
    })?;
    Ok(())
}

/// The innermost level ends: with the block where it is the outermost one.
pub fn end_level(alloc: Global, levels: &mut Vec<Level>) -> Result<Option<Node>, OutOfMemory>
    requires some { 0 < vec_len levels.old }
    requires right { All IsLevel levels.old.items }
    ensures right { OnOk result (All IsLevel levels.new.items) }
    ensures plain { IfOk result (λ node. IfSome node (λ n. is_right_node n ≡ true)) }
    ensures outer { IfOk result (λ node. IfSome node (λ n. (vec_len levels.old ≡ 1)
        × (levels.new.items ≡ []) × (marks n ≡ stack_marks levels.old.items ++ close_mark ∷ []))) }
    ensures inner { IfOk result (λ node. IfNone node ((vec_len levels.new + 1 ≡ vec_len levels.old)
        × (1 ≤ vec_len levels.new)
        × (stack_marks levels.new.items ≡ stack_marks levels.old.items ++ close_mark ∷ []))) }
{
    let Some(level) = levels.pop() else {
        unreachable!()
    };
    let node = node_of(alloc, level)?;
    if levels.is_empty() {
        return Ok(Some(node));
    }
    add_block(alloc, levels, node)?;
    Ok(None)
}
