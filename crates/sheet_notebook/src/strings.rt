//! Texts of a notebook, which are characters.
ghost use Rattle.std.specs.Prelude.{◌≡◌, ◌++◌, ◌∷◌, [], IfOk, OnOk, false, string_bytes};
ghost use Rattle.block_tree.specs.View.{tree_of};
ghost use Rattle.sheet_text.specs.Blocks.{sign};
ghost use Rattle.sheet_text.specs.Escape as escape;
ghost use Rattle.sheet_notebook.specs.Strings as shown;
ghost use Rattle.sheet_notebook.specs.inside.Adds.{Adds};

use block_tree::{Item, Node, Tag};
use bstr::decode_utf8;
use sheet_text::{hex_digit, is_bare_tag};
use std::alloc::{AllocError, Global};

/// Whether a character is printed as itself.
fn is_plain_character(character: char, keeps_lines: bool) -> bool
    ensures { result ≡ escape.is_plain keeps_lines character }
{
    if character == '\t' || character == '\n' {
        keeps_lines
    } else {
        character >= ' ' && character != '\x7f'
    }
}

/// Adds a byte as `\x` and two digits.
#[tactic(auto, using(crate::proofs::Adding::steps))]
fn push_escaped(byte: u8, text: &mut String) -> Result<(), AllocError>
    ensures { OnOk result (Adds (string_bytes text.old) (string_bytes text.new)
        (escape.escaped_byte byte)) }
{
    let high = hex_digit(byte / 16);
    let low = hex_digit(byte % 16);
    text.push_str("\\x")?;
    text.push(char::from(high))?;
    text.push(char::from(low))?;
    Ok(())
}

/// Adds the character that begins with a byte, or the byte as `\x` and two digits where none does, or
/// where the character isn't printed as itself.
fn push_first(
    character: Option<char>,
    byte: u8,
    keeps_lines: bool,
    text: &mut String,
) -> Result<(), AllocError>
    ensures { OnOk result
        (Adds (string_bytes text.old) (string_bytes text.new)
        (shown.first_string keeps_lines byte character)) }
{
    match character {
        None => push_escaped(byte, text),
        Some(character) => {
            if is_plain_character(character, keeps_lines) {
                text.push(character)
            } else {
                push_escaped(byte, text)
            }
        }
    }
}

/// How many bytes of a character follow its first.
fn others_of(character: Option<char>, size: usize) -> usize
    ensures { result ≡ shown.others_of (record { char = character; size = size }) }
{
    if character.is_some() {
        size.saturating_sub(1)
    } else {
        0
    }
}

/// Adds a text: its characters that are printed as themselves, and every other byte as `\x` and two
/// digits. Tabs and line feeds stay where lines are kept.
#[tactic(auto, using(crate::proofs::Adding::text_steps))]
fn push_text(bytes: &[u8], keeps_lines: bool, text: &mut String) -> Result<(), AllocError>
    ensures { OnOk result (Adds (string_bytes text.old) (string_bytes text.new)
        (shown.string_of keeps_lines bytes.now)) }
{
    let mut rest = bytes;
    let mut left = 0;
    while let Some((byte, others)) = rest.split_first() {
        if left > 0 {
            left -= 1;
        } else {
            let (character, size) = decode_utf8(rest);
            push_first(character, *byte, keeps_lines, text)?;
            left = others_of(character, size);
        }
        rest = others;
    }
    Ok(())
}

/// A text on one line, or on as many as it has.
pub(crate) fn string_of(
    alloc: Global,
    bytes: &[u8],
    keeps_lines: bool,
) -> Result<String, AllocError>
    ensures { IfOk result (λ text. string_bytes text ≡ shown.string_of keeps_lines bytes.now) }
{
    let mut text = String::new(alloc);
    push_text(bytes, keeps_lines, &mut text)?;
    Ok(text)
}

/// Adds a tag, after its brace.
#[tactic(auto, using(crate::proofs::Adding::steps))]
fn push_tag(tag: &Tag, text: &mut String) -> Result<(), AllocError>
    ensures { OnOk result (Adds (string_bytes text.old) (string_bytes text.new)
        (123 ∷ (shown.string_of false tag.now.name ++ sign tag.now.channel ∷ []))) }
{
    text.push('{')?;
    push_text(tag.name.as_slice(), false, text)?;
    if tag.channel {
        text.push('#')
    } else {
        text.push(':')
    }
}

/// Adds what comes after a block with a tag.
fn close_tag(text: &mut String) -> Result<(), AllocError>
    ensures { OnOk result (Adds (string_bytes text.old) (string_bytes text.new) (125 ∷ [])) }
{
    text.push('}')
}

/// Adds a block as a worksheet shows it.
#[tactic(auto, using(crate::proofs::Blocks::block_steps))]
fn push_node(node: &Node, text: &mut String) -> Result<(), AllocError>
    ensures { OnOk result (Adds (string_bytes text.old) (string_bytes text.new)
        (shown.block_string (tree_of node.now))) }
{
    let bare = is_bare_tag(&node.tag);
    if !bare {
        push_tag(&node.tag, text)?;
    }
    for item in &node.items {
        match item {
            Item::Text(bytes) => push_text(bytes.as_slice(), true, text)?,
            Item::Block(inner) => push_node(inner, text)?,
        }
    }
    if !bare {
        close_tag(text)?;
    }
    Ok(())
}

/// A block as a worksheet shows it.
pub(crate) fn node_string(alloc: Global, node: &Node) -> Result<String, AllocError>
    ensures { IfOk result (λ text. string_bytes text ≡ shown.block_string (tree_of node.now)) }
{
    let mut text = String::new(alloc);
    push_node(node, &mut text)?;
    Ok(text)
}

/// Adds what a block holds.
#[tactic(auto, using(crate::proofs::Blocks::block_steps))]
fn push_inside(node: &Node, text: &mut String) -> Result<(), AllocError>
    ensures { OnOk result (Adds (string_bytes text.old) (string_bytes text.new)
        (shown.items_string (tree_of node.now).items)) }
{
    for item in &node.items {
        match item {
            Item::Text(bytes) => push_text(bytes.as_slice(), true, text)?,
            Item::Block(inner) => push_node(inner, text)?,
        }
    }
    Ok(())
}

/// What a block holds, as a worksheet shows it.
pub(crate) fn inside_string(alloc: Global, node: &Node) -> Result<String, AllocError>
    ensures { IfOk result
        (λ text. string_bytes text ≡ shown.items_string (tree_of node.now).items) }
{
    let mut text = String::new(alloc);
    push_inside(node, &mut text)?;
    Ok(text)
}
