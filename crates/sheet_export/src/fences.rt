//! The fences of Markdown's code blocks, and how long they must be.
ghost use Rattle.std.specs.Prelude.{◌≡◌, ◌++◌, ◌∷◌, [], IfOk, OnOk};
ghost use Rattle.std.specs.Io.KnownBytes.{Appends};
ghost use Rattle.block_tree.specs.View.{tree_of};
ghost use Rattle.sheet_export.specs.Fences.{fence_length, fence_of};
ghost use Rattle.sheet_export.specs.Markdown.{input_code};
ghost use Rattle.sheet_export.specs.inside.Scan as scan;
ghost use Rattle.sheet_text.specs.Blocks.{block_text, sign};
ghost use Rattle.sheet_text.specs.Escape.{on_line, on_lines};
ghost use Rattle.sheet_text.specs.Texts.{in_lines};

use crate::fixed::write_bytes;
use block_tree::{Block, Item, Node, Tag};
use sheet_text::{WriteFault, is_bare_tag};
use std::io::Write;

/// What the fence of a text must be, as far as the text goes.
#[derive(Clone, Copy)]
pub(crate) struct Fence {
    /// One more than the backquotes at the end of the text.
    ending: usize,
    /// More than stand side by side anywhere in it, and at least three.
    length: usize,
}

/// The fence with a byte more. More backquotes than can be counted, which no memory holds, are reported
/// as a writer that fails.
fn with_byte(before: Fence, byte: u8) -> Result<Fence, WriteFault>
    ensures { IfOk result (λ fence. fence ≡ scan.with_byte before byte) }
{
    if byte != b'`' {
        return Ok(Fence {
            ending: 1,
            length: before.length,
        });
    }
    let ending = before.ending.checked_add(1).ok_or(WriteFault)?;
    Ok(Fence {
        ending,
        length: before.length.max(ending),
    })
}

/// The fence with a text more. What is printed for a byte that isn't printed as itself has no backquote.
#[tactic(auto, using(crate::proofs::Scans::byte_steps))]
fn with_text(before: Fence, bytes: &[u8]) -> Result<Fence, WriteFault>
    ensures { IfOk result (λ fence. fence ≡ scan.with_bytes before bytes.now) }
{
    let mut fence = before;
    for byte in bytes {
        fence = with_byte(fence, *byte)?;
    }
    Ok(fence)
}

/// What comes after the name of a tag.
fn sign_of(tag: &Tag) -> u8
    ensures { result ≡ sign tag.now.channel }
{
    if tag.channel { b'#' } else { b':' }
}

/// The fence with a tag more, after its brace.
fn with_tag(before: Fence, tag: &Tag) -> Result<Fence, WriteFault>
    ensures { IfOk result (λ fence. fence ≡ scan.with_bytes before
        (123 ∷ (on_line tag.now.name ++ sign tag.now.channel ∷ []))) }
{
    let opened = with_byte(before, b'{')?;
    let named = with_text(opened, tag.name.as_slice())?;
    let signed = with_byte(named, sign_of(tag))?;
    Ok(signed)
}

/// The fence with a block more, as a worksheet shows it.
fn with_node(before: Fence, node: &Node) -> Result<Fence, WriteFault>
    ensures { IfOk result (λ fence. fence ≡ scan.with_bytes before
        (block_text (tree_of node.now))) }
{
    let bare = is_bare_tag(&node.tag);
    let mut fence = before;
    if !bare {
        fence = with_tag(fence, &node.tag)?;
    }
    for item in &node.items {
        match item {
            Item::Text(text) => fence = with_text(fence, text.as_slice())?,
            Item::Block(inner) => fence = with_node(fence, inner)?,
        }
    }
    if !bare {
        fence = with_byte(fence, b'}')?;
    }
    Ok(fence)
}

/// The length of the fence of an input, on as many lines as it has; no backquote stands in the U+2028 between them.
pub(crate) fn line_fence(bytes: &[u8]) -> Result<usize, WriteFault>
    ensures { IfOk result (λ length. length ≡ fence_length (input_code bytes.now ++ 10 ∷ [])) }
{
    let fence = with_text(
        Fence {
            ending: 1,
            length: 3,
        },
        bytes,
    )?;
    Ok(fence.length)
}

/// The length of the fence of a text of an output, in whole lines.
pub(crate) fn text_fence(text: &[u8]) -> Result<usize, WriteFault>
    ensures { IfOk result (λ length. length ≡ fence_length (in_lines (on_lines text.now))) }
{
    let fence = with_text(
        Fence {
            ending: 1,
            length: 3,
        },
        text,
    )?;
    Ok(fence.length)
}

/// The length of the fence of an output, as a worksheet shows it.
pub(crate) fn output_fence(output: &Block) -> Result<usize, WriteFault>
    ensures { IfOk result (λ length. length ≡ fence_length (in_lines (block_text output.now))) }
{
    let fence = with_node(
        Fence {
            ending: 1,
            length: 3,
        },
        output.node(),
    )?;
    Ok(fence.length)
}

/// Writes a fence of this length.
#[tactic(auto, using(crate::proofs::Appending::steps))]
pub(crate) fn write_fence<W: Write>(length: usize, out: &mut W) -> Result<(), WriteFault>
    ensures { OnOk result (Appends (W.contents out.old) (W.contents out.new) (fence_of length)) }
{
    for _ in 0..length {
        write_bytes(b"`", out)?;
    }
    Ok(())
}
