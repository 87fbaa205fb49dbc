//! The writer of blocks.

ghost use Rattle.std.specs.Prelude.{◌≡◌, ◌++◌, OnOk, OnErr, take, vec_len};
ghost use Rattle.std.specs.List.{flat_map};
ghost use Rattle.block_tree.specs.View.{tree_of};
ghost use Rattle.meta_format.specs.Canonical.{escape, canonical};

use block_tree::{Block, Item, Node, OutOfMemory};

fn write_byte(c: u8, out: &mut Vec<u8>) -> Result<(), OutOfMemory>
    ensures ok { OnOk result (out.new.items ≡ out.old.items ++ escape c) }
    ensures kept { take (vec_len out.old) out.new.items ≡ out.old.items }
{
    if c == 2 || c == 5 || c == 27 {
        out.push(27)?;
    }
    out.push(c)?;
    Ok(())
}

#[tactic(auto, using(crate::proofs::Written::keep_rules))]
fn write_text(text: &[u8], out: &mut Vec<u8>) -> Result<(), OutOfMemory>
    ensures ok { OnOk result (out.new.items ≡ out.old.items ++ flat_map escape text.now) }
    ensures kept { take (vec_len out.old) out.new.items ≡ out.old.items }
{
    for c in text {
        write_byte(*c, out)?;
    }
    Ok(())
}

#[tactic(auto, using(crate::proofs::Written::write_rules))]
fn write_node(node: &Node, out: &mut Vec<u8>) -> Result<(), OutOfMemory>
    ensures ok { OnOk result (out.new.items ≡ out.old.items ++ canonical (tree_of node.now)) }
    ensures kept { take (vec_len out.old) out.new.items ≡ out.old.items }
{
    out.push(2)?;
    out.extend_from_slice(node.tag.name.as_slice())?;
    out.push(if node.tag.channel { b'#' } else { b':' })?;
    for item in &node.items {
        match item {
            Item::Text(text) => write_text(text.as_slice(), out)?,
            Item::Block(inner) => write_node(inner, out)?,
        }
    }
    out.push(5)?;
    Ok(())
}

/// Writes a block after the other bytes, in its canonical spelling: 27 stands before each 2, 5 and 27
/// of a text, and nowhere else. Where memory is refused, the bytes are as before.
/// (docs/use/PROTOCOL.md, spelling of blocks.)
pub fn write_block(block: &Block, out: &mut Vec<u8>) -> Result<(), OutOfMemory>
    ensures ok { OnOk result (out.new.items ≡ out.old.items ++ canonical block.now) }
    ensures err { OnErr result (out.new.items ≡ out.old.items) }
{
    let before = out.len();
    let written = write_node(block.node(), out);
    if written.is_err() {
        out.truncate(before);
    }
    written
}
