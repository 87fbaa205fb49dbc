//! Blocks as they are printed.
ghost use Rattle.std.specs.Prelude.{◌≡◌, ◌++◌, ◌∷◌, [], OnOk};
ghost use Rattle.std.specs.Io.KnownBytes.{Appends};
ghost use Rattle.sheet_text.specs.Escape.{on_line};
ghost use Rattle.sheet_text.specs.Blocks.{is_bare, sign};
ghost use Rattle.sheet_text.specs.Blocks as printed;
ghost use Rattle.block_tree.specs.View.{tree_of};

use crate::WriteFault;
use crate::escape::{write_line, write_lines};
use block_tree::{Block, Item, Node, Tag};
use std::io::Write;

/// Writes a tag, after its brace.
#[tactic(auto, using(crate::proofs::Appending::steps))]
fn open_tag<W: Write>(tag: &Tag, out: &mut W) -> Result<(), WriteFault>
    ensures { OnOk result
        (Appends (W.contents out.old) (W.contents out.new)
        (123 ∷ (on_line tag.now.name ++ sign tag.now.channel ∷ []))) }
{
    out.write_all(b"{").map_err(|_| WriteFault)?;
    write_line(tag.name.as_slice(), out)?;
    if tag.channel {
        out.write_all(b"#").map_err(|_| WriteFault)
    } else {
        out.write_all(b":").map_err(|_| WriteFault)
    }
}

#[tactic(auto, using(crate::proofs::Appending::tree_steps))]
fn write_tree<W: Write>(node: &Node, out: &mut W) -> Result<(), WriteFault>
    ensures { OnOk result
        (Appends (W.contents out.old) (W.contents out.new) (printed.tree_text (tree_of node.now))) }
{
    open_tag(&node.tag, out)?;
    for item in &node.items {
        match item {
            Item::Text(text) => write_line(text.as_slice(), out)?,
            Item::Block(inner) => write_tree(inner, out)?,
        }
    }
    out.write_all(b"}").map_err(|_| WriteFault)?;
    Ok(())
}

/// Writes a block with all its tags on one line, without a line feed: `{verbatim:Hi {prompt#> }}`.
pub fn tree_text<W: Write>(block: &Block, out: &mut W) -> Result<(), WriteFault>
    ensures { OnOk result
        (Appends (W.contents out.old) (W.contents out.new) (printed.tree_text block.now)) }
{
    write_tree(block.node(), out)
}

/// Whether the tag isn't shown.
pub fn is_bare_tag(tag: &Tag) -> bool
    ensures { result ≡ is_bare tag.now.channel tag.now.name }
{
    if tag.channel {
        tag.name.as_slice() == b"output".as_slice()
    } else {
        tag.name.as_slice() == b"verbatim".as_slice()
    }
}

#[tactic(auto, using(crate::proofs::Appending::block_steps))]
fn write_shown<W: Write>(node: &Node, out: &mut W) -> Result<(), WriteFault>
    ensures { OnOk result
        (Appends (W.contents out.old) (W.contents out.new)
        (printed.block_text (tree_of node.now))) }
{
    let bare = is_bare_tag(&node.tag);
    if !bare {
        open_tag(&node.tag, out)?;
    }
    for item in &node.items {
        match item {
            Item::Text(text) => write_lines(text.as_slice(), out)?,
            Item::Block(inner) => write_shown(inner, out)?,
        }
    }
    if !bare {
        out.write_all(b"}").map_err(|_| WriteFault)?;
    }
    Ok(())
}

/// Writes a block as a worksheet shows it, without a line feed of its own: the format `verbatim` and
/// the channel `output` as what stands in them, every other block with its tag in braces. Tabs and
/// line feeds in texts stay.
pub fn block_text<W: Write>(block: &Block, out: &mut W) -> Result<(), WriteFault>
    ensures { OnOk result
        (Appends (W.contents out.old) (W.contents out.new) (printed.block_text block.now)) }
{
    write_shown(block.node(), out)
}
