//! Outputs that are a formula between dollars.
ghost use Rattle.std.specs.Prelude.{◌≡◌, ◌<◌, ◌≤◌, ◌+◌, false, length, cond, Some, None, map, option_map};
ghost use Rattle.std.specs.List.{list_all};
ghost use Rattle.std.specs.Option.{option_copied};
ghost use Rattle.block_tree.specs.Tree.{items_from};
ghost use Rattle.block_tree.specs.View.{piece_of, tree_of};
ghost use Rattle.sheet_notebook.specs.Formulas as formula;

use block_tree::{Block, Item, Node};
use sheet_text::{is_bare_tag, is_plain};

/// Whether a byte stands for itself in a formula.
fn is_formula_byte(byte: u8) -> bool
    ensures { result ≡ formula.is_formula_byte byte }
{
    is_plain(byte, false) && byte != b'`'
}

/// Whether the address of a link could begin, after spaces or at once.
fn opens_address(bytes: &[u8]) -> bool
    ensures { result ≡ formula.opens_address bytes.now }
{
    let mut rest = bytes;
    while let Some((byte, others)) = rest.split_first() {
        if *byte != b' ' {
            return *byte == b'(';
        }
        rest = others;
    }
    false
}

/// Whether a link, an image, an element, a remark or an address could begin with a byte and those after it.
fn begins_markup(byte: u8, rest: &[u8]) -> bool
    ensures { result ≡ formula.begins_markup byte rest.now }
{
    (byte == b']' && opens_address(rest)) || (byte == b'<' && !rest.starts_with(b" "))
}

/// Whether attributes of what stands in front of them could begin.
fn begins_attributes(byte: u8, rest: &[u8]) -> bool
    ensures { result ≡ formula.begins_attributes byte rest.now }
{
    byte == b'{' && rest.starts_with(b":")
}

/// Whether two backslashes stand before a brace, which pandoc reads as escaped within `\text`.
fn hides_brace(byte: u8, rest: &[u8]) -> bool
    ensures { result ≡ formula.hides_brace byte rest.now }
{
    byte == b'\\' && (rest.starts_with(b"\\{") || rest.starts_with(b"\\}"))
}

/// Whether a reader could take what stands beside a byte and those after it for something else.
fn changes_marks(byte: u8, rest: &[u8]) -> bool
    ensures { result ≡ formula.changes_marks byte rest.now }
{
    begins_attributes(byte, rest) || hides_brace(byte, rest)
}

/// Whether markup could begin with a byte and those after it, as some reader sees them.
fn may_begin_markup(byte: u8, rest: &[u8]) -> bool
    ensures { result ≡ formula.may_begin_markup byte rest.now }
{
    begins_markup(byte, rest) || changes_marks(byte, rest)
}

/// Whether one could anywhere in a text.
fn has_markup(bytes: &[u8]) -> bool
    ensures { result ≡ formula.has_markup bytes.now }
{
    let mut rest = bytes;
    while let Some((byte, others)) = rest.split_first() {
        if may_begin_markup(*byte, others) {
            return true;
        }
        rest = others;
    }
    false
}

/// Whether each byte stands for itself in a formula.
fn are_plain(text: &[u8]) -> bool
    ensures { result ≡ list_all formula.is_formula_byte text.now }
{
    text.iter().all(|byte| is_formula_byte(*byte))
}

/// Whether a text is no more than text, whatever reads it.
fn is_still(text: &[u8]) -> bool
    ensures { result ≡ formula.is_still text.now }
{
    are_plain(text) && !has_markup(text)
}

fn is_no_dollar(byte: u8) -> bool
    ensures { result ≡ formula.is_no_dollar byte }
{
    byte != b'$'
}

/// Whether a text has no dollar.
fn has_no_dollar(text: &[u8]) -> bool
    ensures { result ≡ list_all formula.is_no_dollar text.now }
{
    text.iter().all(|byte| is_no_dollar(*byte))
}

/// Whether bytes have no dollar, and no backslash at their end, which would make the dollar after it another one.
fn is_inside(inside: &[u8]) -> bool
    ensures { result ≡ formula.is_inside inside.now }
{
    has_no_dollar(inside) && !inside.ends_with(b"\\")
}

/// Whether there is a byte that shows something.
fn is_seen(byte: Option<u8>) -> bool
    ensures { result ≡ formula.is_seen byte }
{
    match byte {
        None => false,
        Some(byte) => byte > b' ' && byte < 127,
    }
}

/// Whether such bytes stand at both ends.
fn is_tight(inside: &[u8]) -> bool
    ensures { result ≡ formula.is_tight inside.now }
{
    is_seen(inside.first().copied()) && is_seen(inside.last().copied())
}

/// How many braces are open after a byte that closes none.
fn depth_with(depth: usize, byte: u8) -> usize
    requires { depth < 9223372036854775807 }
    ensures { result ≡ formula.depth_with depth byte }
{
    if byte == b'{' { depth + 1 } else { depth }
}

/// Whether each brace that closes one has it, and none stays open.
fn closes(bytes: &[u8]) -> bool
    ensures { result ≡ formula.closes false 0 bytes.now }
{
    let mut rest = bytes;
    let mut depth = 0;
    let mut escaped = false;
    while let Some((byte, others)) = rest.split_first() {
        if escaped {
            escaped = false;
        } else if *byte == b'}' {
            if depth == 0 {
                return false;
            }
            depth -= 1;
        } else {
            escaped = *byte == b'\\';
            depth = depth_with(depth, *byte);
        }
        rest = others;
    }
    depth == 0
}

/// Whether a text may stand between these dollars.
fn may_stand(dollars: &[u8], inside: &[u8]) -> bool
    ensures { result ≡ formula.may_stand dollars.now inside.now }
{
    is_inside(inside) && closes(inside) && (dollars.len() == 2 || is_tight(inside))
}

/// Whether a text has these dollars at both ends.
fn has_ends(dollars: &[u8], text: &[u8]) -> bool
    ensures { result ≡ formula.has_ends dollars.now text.now }
{
    text.starts_with(dollars) && text.ends_with(dollars)
}

/// Whether that is so, and what is between them may stand there.
fn stands_between(dollars: &[u8], text: &[u8]) -> bool
    requires { length dollars.now + length dollars.now < length text.now }
    ensures { result ≡ formula.stands_between dollars.now text.now }
{
    let size = dollars.len();
    has_ends(dollars, text) && may_stand(dollars, &text[size..text.len() - size])
}

/// Whether a text is something between these dollars.
fn is_between(dollars: &[u8], text: &[u8]) -> bool
    requires { length dollars.now ≤ 2 }
    ensures { result ≡ formula.is_between dollars.now text.now }
{
    dollars.len() + dollars.len() < text.len() && stands_between(dollars, text)
}

/// Whether a text is a formula within a line, or on its own, that is no more than text where no reader knows it.
#[tactic(auto, unfolding(crate::specs::Formulas::is_formula))]
fn is_formula(text: &[u8]) -> bool
    ensures { result ≡ formula.is_formula text.now }
{
    is_still(text) && (is_between(b"$", text) || is_between(b"$$", text))
}

/// The text, if it is a formula.
fn formula_of_text(text: &[u8]) -> Option<&[u8]>
    ensures { option_copied result ≡ cond (formula.is_formula text.now) (Some text.now) None }
{
    if is_formula(text) { Some(text) } else { None }
}

/// The formula that these items are, if they are one.
#[tactic(auto, using(crate::proofs::Pieces::item_rules))]
fn formula_in(items: &[Item]) -> Option<&[u8]>
    ensures { option_copied result ≡ formula.formula_in (items_from (map piece_of items.now)) }
{
    let Some((item, others)) = items.split_first() else {
        return None;
    };
    match item {
        Item::Block(_) => None,
        Item::Text(text) => match others.first() {
            None => formula_of_text(text.as_slice()),
            Some(_) => None,
        },
    }
}

/// The formula that a node is, if it is one.
#[tactic(auto, using(crate::proofs::Pieces::item_rules))]
pub(crate) fn formula_of_node(node: &Node) -> Option<&[u8]>
    ensures { option_copied result ≡ formula.formula_of (tree_of node.now) }
{
    if !node.tag.channel && node.tag.name.as_slice() == b"latex".as_slice() {
        formula_in(node.items.as_slice())
    } else {
        None
    }
}

/// The formula that an output is, if it is one: a block of the format `latex` with one text, between
/// single or double dollars, that is no more than text where a reader of Markdown knows no formulas.
pub fn formula_of(output: &Block) -> Option<&[u8]>
    ensures { option_copied result ≡ formula.formula_of output.now }
{
    formula_of_node(output.node())
}

/// The formula that these items are as one block, if they are one.
#[tactic(auto, using(crate::proofs::Pieces::item_rules))]
fn formula_last(items: &[Item]) -> Option<&[u8]>
    ensures { option_copied result ≡ formula.formula_last (items_from (map piece_of items.now)) }
{
    let Some((item, others)) = items.split_first() else {
        return None;
    };
    match item {
        Item::Text(_) => None,
        Item::Block(inner) => match others.first() {
            None => formula_of_node(inner),
            Some(_) => None,
        },
    }
}

/// The text and the formula after it that these items are, if they are those.
#[tactic(auto, using(crate::proofs::Pieces::item_rules))]
fn text_and_formula(items: &[Item]) -> Option<(&[u8], &[u8])>
    ensures { option_map (λ found. (found.0.now, found.1.now)) result
        ≡ formula.text_and_formula (items_from (map piece_of items.now)) }
{
    let Some((item, others)) = items.split_first() else {
        return None;
    };
    match item {
        Item::Block(_) => None,
        Item::Text(text) => match formula_last(others) {
            None => None,
            Some(formula) => Some((text.as_slice(), formula)),
        },
    }
}

/// The text and the formula after it that a node is, if it is those.
#[tactic(auto, using(crate::proofs::Pieces::item_rules))]
fn formula_after_node(node: &Node) -> Option<(&[u8], &[u8])>
    ensures { option_map (λ found. (found.0.now, found.1.now)) result
        ≡ formula.formula_after (tree_of node.now) }
{
    if is_bare_tag(&node.tag) {
        text_and_formula(node.items.as_slice())
    } else {
        None
    }
}

/// The text that an output prints and the formula after it, if it is these two, of an interpreter that prints before
/// it gives its value: a block without a tag in braces that has a text, and then a block that is a formula.
pub fn formula_after(output: &Block) -> Option<(&[u8], &[u8])>
    ensures { option_map (λ found. (found.0.now, found.1.now)) result
        ≡ formula.formula_after output.now }
{
    formula_after_node(output.node())
}
