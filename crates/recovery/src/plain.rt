//! Answers of one text alone that is spelled as it is, as most short ones are. They are read at once:
//! a payload that is taken apart so needs no reader of blocks, and isn't written again.
ghost use Rattle.std.specs.Prelude.{◌≡◌, ◌∷◌, ◌++◌, map, IfOk, IfSome};
ghost use Rattle.block_tree.specs.Tree.{items_from};
ghost use Rattle.block_tree.specs.View.{piece_of};
ghost use Rattle.meta_format.specs.Canonical.{canonical};
ghost use Rattle.recovery.specs.Code.{IsPayloadOf};
ghost use Rattle.recovery.specs.inside.Plain.{plain_block, plain_items};

use crate::reading::asked_of;
use crate::runs::split_plain;
use block_tree::{Block, Item, Node, Octets, OutOfMemory, Tag, TagName};
use memchr::memchr2;
use std::alloc::Global;
use worksheet::Op;

// What stands in front of the first colon, and what follows that, where no # stands in front of it.
fn split_colon(bytes: &[u8]) -> Option<(&[u8], &[u8])>
    ensures { IfSome result (λ x. bytes.now ≡ x.0.now ++ 58 ∷ x.1.now) }
{
    let place = memchr2(b':', b'#', bytes)?;
    let (front, following) = bytes.split_at(place);
    let [b':', rest @ ..] = following else {
        return None;
    };
    Some((front, rest))
}

// The name and the text of a block that has one text and no more, where that is spelled as it is. The
// text may be empty.
#[tactic(auto, using(crate::proofs::OneText::plain_spelling))]
fn plain_parts(bytes: &[u8]) -> Option<(&[u8], &[u8])>
    ensures { IfSome result (λ x. bytes.now ≡ canonical (plain_block x.0.now x.1.now)) }
{
    let [2, inside @ ..] = bytes else {
        return None;
    };
    let (name, body) = split_colon(inside)?;
    let [text @ .., 5] = body else {
        return None;
    };
    let (plain, special) = split_plain(text);
    let [] = special else {
        return None;
    };
    Some((name, plain))
}

// What stands in the block of one text: nothing where that is empty.
#[tactic(auto, using(crate::proofs::OneText::item_rules))]
fn items_with(alloc: Global, text: &[u8]) -> Result<Vec<Item>, OutOfMemory>
    ensures { IfOk result (λ items. items_from (map piece_of items.items) ≡ plain_items text.now) }
{
    if text.is_empty() {
        return Ok(Vec::new(alloc));
    }
    let text = Octets::from_slice(alloc, text)?;
    let mut items = Vec::with_capacity(alloc, 1)?;
    items.push(Item::Text(text))?;
    Ok(items)
}

// The block of one text, where this is the name of a tag.
fn block_with(alloc: Global, name: &[u8], text: &[u8]) -> Result<Option<Block>, OutOfMemory>
    ensures { IfOk result (λ found. IfSome found (λ block. block ≡ plain_block name.now text.now)) }
{
    let name = TagName::from_slice(alloc, name)?;
    let items = items_with(alloc, text)?;
    let tag = Tag {
        channel: false,
        name,
    };
    match Block::new(Node { tag, items }) {
        Ok(block) => Ok(Some(block)),
        Err(_) => Ok(None),
    }
}

/// The answer whose payload has these bytes after its kind, where its output is one text that is
/// spelled as it is. Of other bytes it says nothing.
pub(crate) fn plain_answer_of(alloc: Global, bytes: &[u8]) -> Result<Option<Op>, OutOfMemory>
    ensures { IfOk result (λ found. IfSome found (λ op. IsPayloadOf op (7 ∷ bytes.now))) }
{
    let Ok((id, prompt, rest)) = asked_of(bytes) else {
        return Ok(None);
    };
    let Some((name, text)) = plain_parts(rest) else {
        return Ok(None);
    };
    let Some(output) = block_with(alloc, name, text)? else {
        return Ok(None);
    };
    let prompt = Octets::from_slice(alloc, prompt)?;
    Ok(Some(Op::Answer { id, prompt, output }))
}
