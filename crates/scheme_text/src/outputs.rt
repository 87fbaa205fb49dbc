//! Which outputs hold an answer.
ghost use Rattle.std.specs.Prelude.{◌≡◌, map};
ghost use Rattle.std.specs.List.{list_all};
ghost use Rattle.std.specs.Option.{option_copied};
ghost use Rattle.block_tree.specs.Tree.{items_from};
ghost use Rattle.block_tree.specs.View.{piece_of, tree_of};
ghost use Rattle.scheme_text.specs.Outputs as reported;

use block_tree::{Item, Node, Tag};

const FORM_FEED: u8 = 12;

/// Tab, line feed, form feed, carriage return or space.
pub(crate) fn is_white(byte: u8) -> bool
    ensures { result ≡ reported.is_white byte }
{
    byte == b'\t' || byte == b'\n' || byte == FORM_FEED || byte == b'\r' || byte == b' '
}

pub(crate) fn are_white(bytes: &[u8]) -> bool
    ensures { result ≡ list_all reported.is_white bytes.now }
{
    bytes.iter().all(|byte| is_white(*byte))
}

fn is_format(tag: &Tag, name: &[u8]) -> bool
    ensures { result ≡ reported.is_format name.now tag.now.channel tag.now.name }
{
    !tag.channel && tag.name.as_slice() == name
}

/// The text of at most one text and no block.
#[tactic(auto, using(crate::proofs::Items::item_rules))]
fn lone_text(items: &[Item]) -> Option<&[u8]>
    ensures { option_copied result ≡ reported.lone_text (items_from (map piece_of items.now)) }
{
    let Some((item, others)) = items.split_first() else {
        return Some(b"");
    };
    match item {
        Item::Block(_) => None,
        Item::Text(text) => match others.first() {
            None => Some(text.as_slice()),
            Some(_) => None,
        },
    }
}

/// The text of one block of the format `scheme` among white space, or of none.
#[tactic(auto, using(crate::proofs::Items::found_rules))]
fn text_among_blanks(items: &[Item]) -> Option<&[u8]>
    ensures { option_copied result
        ≡ reported.text_among_blanks (items_from (map piece_of items.now)) }
{
    let mut found: Option<&Node> = None;
    for item in items {
        match item {
            Item::Text(text) => {
                if !are_white(text.as_slice()) {
                    return None;
                }
            }
            Item::Block(inner) => {
                if found.is_some() || !is_format(&inner.tag, b"scheme") {
                    return None;
                }
                found = Some(inner);
            }
        }
    }
    match found {
        None => Some(b""),
        Some(inner) => lone_text(&inner.items),
    }
}

/// The text that is read for an output.
#[tactic(auto, using(crate::proofs::Items::item_rules))]
pub(crate) fn answer_text(output: &Node) -> Option<&[u8]>
    ensures { option_copied result ≡ reported.answer_text (tree_of output.now) }
{
    if is_format(&output.tag, b"scheme") {
        return lone_text(&output.items);
    }
    if is_format(&output.tag, b"verbatim") {
        return text_among_blanks(&output.items);
    }
    None
}
