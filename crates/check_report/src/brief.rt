//! Outputs as a report shows them: as a worksheet does, but each picture by its size and a sum.
ghost use Rattle.std.specs.Prelude.{◌≡◌, ◌++◌, ◌∷◌, [], IfSome, OnOk, Option};
ghost use Rattle.std.specs.List.{flat_map};
ghost use Rattle.std.specs.Io.KnownBytes.{Appends};
ghost use Rattle.block_tree.specs.View.{tree_of};
ghost use Rattle.sheet_text.specs.Blocks.{framed, sign};
ghost use Rattle.sheet_text.specs.Escape.{on_line};
ghost use Rattle.sheet_text.specs.Texts.{in_lines, no_answer_line};
ghost use Rattle.sheet_text.specs.Texts as printed;
ghost use Rattle.check_report.specs.Brief as brief;

use crate::writing::write_bytes;
use block_tree::{Item, Node, Reason, Tag};
use sha2::{Digest, Sha256};
use sheet_notebook::picture_text;
use sheet_text::{WriteFault, hex_digit, is_bare_tag, write_line, write_lines, write_no_answer};
use std::alloc::Global;
use std::io::Write;
use worksheet::Answer;

/// How many bytes of a digest a sum has.
const SUM_BYTES: usize = 4;

/// Writes bytes as two hexadecimal digits each, in lower case.
fn write_digits<W: Write>(bytes: &[u8], out: &mut W) -> Result<(), WriteFault>
    ensures { OnOk result
        (Appends (W.contents out.old) (W.contents out.new) (flat_map brief.two_digits bytes.now)) }
{
    for byte in bytes {
        out.write_all(&[hex_digit(*byte / 16), hex_digit(*byte % 16)])
            .map_err(|_| WriteFault)?;
    }
    Ok(())
}

/// Writes the sum of a text: the first four bytes of its SHA-256 (FIPS 180-4), as eight hexadecimal digits.
fn write_sum<W: Write>(text: &[u8], out: &mut W) -> Result<(), WriteFault>
    ensures { OnOk result
        (Appends (W.contents out.old) (W.contents out.new) (brief.sum_digits text.now)) }
{
    let digest = Sha256::digest(text);
    write_digits(&digest[..SUM_BYTES], out)
}

/// Writes how many bytes the text of a picture has.
fn write_size<W: Write>(size: usize, out: &mut W) -> Result<(), WriteFault>
    ensures { OnOk result
        (Appends (W.contents out.old) (W.contents out.new) (brief.size_part size)) }
{
    write!(out, " {size} bytes").map_err(|_| WriteFault)
}

/// Writes what stands in the place of a picture's text: how many bytes that has, and its sum.
#[tactic(auto, using(crate::proofs::Brevity::steps))]
fn write_size_and_sum<W: Write>(text: &[u8], out: &mut W) -> Result<(), WriteFault>
    ensures { OnOk result
        (Appends (W.contents out.old) (W.contents out.new) (brief.size_and_sum text.now)) }
{
    write_size(text.len(), out)?;
    write_bytes(b", sum ", out)?;
    write_sum(text, out)?;
    Ok(())
}

/// Writes a tag, after its brace.
#[tactic(auto, using(crate::proofs::Brevity::steps))]
fn open_tag<W: Write>(tag: &Tag, out: &mut W) -> Result<(), WriteFault>
    ensures { OnOk result
        (Appends (W.contents out.old) (W.contents out.new)
        (123 ∷ (on_line tag.now.name ++ sign tag.now.channel ∷ []))) }
{
    write_bytes(b"{", out)?;
    write_line(tag.name.as_slice(), out)?;
    if tag.channel {
        write_bytes(b"#", out)
    } else {
        write_bytes(b":", out)
    }
}

/// Writes a picture: its tag, its size and its sum.
#[tactic(auto, using(crate::proofs::Brevity::tag_steps))]
fn write_picture<W: Write>(tag: &Tag, text: &[u8], out: &mut W) -> Result<(), WriteFault>
    ensures { OnOk result
        (Appends (W.contents out.old) (W.contents out.new)
        (framed tag.now.channel tag.now.name (brief.size_and_sum text.now))) }
{
    open_tag(tag, out)?;
    write_size_and_sum(text, out)?;
    write_bytes(b"}", out)?;
    Ok(())
}

#[tactic(auto, using(crate::proofs::Brevity::block_steps))]
fn write_brief<W: Write>(node: &Node, out: &mut W) -> Result<(), WriteFault>
    ensures { OnOk result
        (Appends (W.contents out.old) (W.contents out.new) (brief.brief_text (tree_of node.now))) }
{
    if let Some(text) = picture_text(node) {
        return write_picture(&node.tag, text, out);
    }
    let bare = is_bare_tag(&node.tag);
    if !bare {
        open_tag(&node.tag, out)?;
    }
    for item in &node.items {
        match item {
            Item::Text(text) => write_lines(text.as_slice(), out)?,
            Item::Block(inner) => write_brief(inner, out)?,
        }
    }
    if !bare {
        write_bytes(b"}", out)?;
    }
    Ok(())
}

/// Whether a text ends in a line feed.
#[tactic(auto, using(crate::proofs::Brevity::end_steps))]
fn ends_line(text: &[u8]) -> bool
    ensures { result ≡ printed.ends_line text.now }
{
    match text.last() {
        None => false,
        Some(byte) => *byte == b'\n',
    }
}

/// A text as whole lines: with a line feed after it where it is empty or doesn't end in one.
fn whole_lines(text: Vec<u8>) -> Option<Vec<u8>>
    ensures { IfSome result (λ lines. lines.items ≡ in_lines text.items) }
{
    let mut text = text;
    if ends_line(text.as_slice()) {
        return Some(text);
    }
    match text.push(b'\n') {
        Ok(()) => Some(text),
        Err(_) => None,
    }
}

/// The line of a field without an answer, with the reason for that if there is one.
fn no_answer(alloc: Global, lost: Option<Reason>) -> Option<Vec<u8>>
    ensures { IfSome result (λ lines. lines.items ≡ no_answer_line lost) }
{
    let mut text = Vec::new(alloc);
    match write_no_answer(lost, &mut text) {
        Ok(()) => Some(text),
        Err(_) => None,
    }
}

/// The output of an answer in whole lines, as a report shows it, in memory; or `?` where there is none, with the reason
/// for that if there is one. None where there is no memory for it.
pub(crate) fn brief_in_memory(
    alloc: Global,
    answer: &Option<Answer>,
    lost: Option<Reason>,
) -> Option<Vec<u8>>
    ensures { IfSome result (λ lines. lines.items ≡ brief.brief_lines answer.now lost) }
{
    let Some(answer) = answer else {
        return no_answer(alloc, lost);
    };
    let mut text = Vec::new(alloc);
    match write_brief(answer.output.node(), &mut text) {
        Ok(()) => whole_lines(text),
        Err(_) => None,
    }
}
