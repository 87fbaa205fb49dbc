//! Blocks of an output that are pictures, and those that are errors.
ghost use Rattle.std.specs.Prelude.{◌≡◌, ◌≤◌, false, map};
ghost use Rattle.std.specs.Option.{option_copied};
ghost use Rattle.block_tree.specs.Tree.{items_from};
ghost use Rattle.block_tree.specs.View.{piece_of, tree_of};
ghost use Rattle.sheet_notebook.specs.Pictures as picture;

use block_tree::{Item, Node, Tag};

/// What a picture is drawn as.
#[derive(Clone, Copy, Debug, PartialEq, Eq)]
pub enum PictureKind {
    /// `image/png`, whose text is base64.
    Png,
    /// `image/jpeg`, whose text is base64.
    Jpeg,
    /// `image/svg+xml`, whose text is the picture.
    Svg,
}

/// Whether a byte is a letter, a digit, `+` or `/` (RFC 4648, table 1).
fn is_symbol(byte: u8) -> bool
    ensures { result ≡ picture.is_symbol_byte byte }
{
    (b'A' <= byte && byte <= b'Z')
        || (b'a' <= byte && byte <= b'z')
        || (b'0' <= byte && byte <= b'9')
        || byte == b'+'
        || byte == b'/'
}

/// The place of the next symbol in its group of four.
fn next_place(place: usize) -> usize
    requires { place ≤ 3 }
    ensures next { result ≡ picture.next_place place }
    ensures within { result ≤ 3 }
{
    if place == 3 { 0 } else { place + 1 }
}

/// Whether a text is base64 (RFC 4648, section 4), with no other byte in it.
#[tactic(auto, unfolding(crate::specs::Pictures::is_base64))]
fn is_base64(text: &[u8]) -> bool
    ensures { result ≡ picture.is_base64 text.now }
{
    let mut rest = text;
    let mut place = 0;
    let mut padded = false;
    while let Some((byte, others)) = rest.split_first() {
        if *byte == b'=' {
            if place < 2 {
                return false;
            }
            padded = true;
        } else if padded || !is_symbol(*byte) {
            return false;
        }
        place = next_place(place);
        rest = others;
    }
    place == 0
}

/// Whether a text is base64 that begins like this.
#[tactic(auto, unfolding(crate::specs::Pictures::is_base64_of))]
fn is_base64_of(magic: &[u8], text: &[u8]) -> bool
    ensures { result ≡ picture.is_base64_of magic.now text.now }
{
    text.starts_with(magic) && is_base64(text)
}

/// Whether a text could be an SVG: it begins with an element `svg` or with an XML declaration.
#[tactic(auto, unfolding(crate::specs::Pictures::is_svg))]
fn is_svg(text: &[u8]) -> bool
    ensures { result ≡ picture.is_svg text.now }
{
    text.starts_with(b"<svg") || text.starts_with(b"<?xml")
}

/// What a picture of this format is drawn as; none where its text doesn't begin as one of its kind, or isn't
/// base64 where it has to be.
pub fn picture_kind(name: &[u8], text: &[u8]) -> Option<PictureKind>
    ensures { result ≡ picture.drawn_as name.now text.now }
{
    if name == b"image/png;base64".as_slice() {
        return if is_base64_of(b"iVBORw0KGgoAAAANSUhEU", text) {
            Some(PictureKind::Png)
        } else {
            None
        };
    }
    if name == b"image/jpeg;base64".as_slice() {
        return if is_base64_of(b"/9j/", text) {
            Some(PictureKind::Jpeg)
        } else {
            None
        };
    }
    if name == b"image/svg+xml".as_slice() && is_svg(text) {
        return Some(PictureKind::Svg);
    }
    None
}

/// The text that these items are, if they are one.
#[tactic(auto, using(crate::proofs::Pieces::item_rules))]
fn only_text(items: &[Item]) -> Option<&[u8]>
    ensures { option_copied result ≡ picture.only_text (items_from (map piece_of items.now)) }
{
    let Some((item, others)) = items.split_first() else {
        return None;
    };
    match item {
        Item::Block(_) => None,
        Item::Text(text) => match others.first() {
            None => Some(text.as_slice()),
            Some(_) => None,
        },
    }
}

/// The text of a picture, if a block is one: it holds one text, and its format is a MIME type of pictures.
#[tactic(auto, using(crate::proofs::Pieces::item_rules))]
pub fn picture_text(node: &Node) -> Option<&[u8]>
    ensures { option_copied result ≡ picture.picture_of (tree_of node.now) }
{
    if !node.tag.channel && node.tag.name.as_slice().starts_with(b"image/") {
        only_text(node.items.as_slice())
    } else {
        None
    }
}

/// Whether a tag is the channel of answers.
pub fn is_output_tag(tag: &Tag) -> bool
    ensures { result ≡ picture.is_output_tag tag.now.channel tag.now.name }
{
    tag.channel && tag.name.as_slice() == b"output".as_slice()
}

/// Whether a block of this tag is an error, where it stands in one of the channel of answers or not.
pub fn is_error_tag(tag: &Tag, in_output: bool) -> bool
    ensures { result ≡ picture.is_error_tag in_output tag.now.channel tag.now.name }
{
    (tag.channel && tag.name.as_slice() == b"error".as_slice()) || (in_output && is_output_tag(tag))
}
