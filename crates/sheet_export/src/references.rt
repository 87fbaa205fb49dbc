//! Bytes as they stand in a page.
ghost use Rattle.std.specs.Prelude.{◌≡◌, OnOk};
ghost use Rattle.std.specs.Io.KnownBytes.{Appends};
ghost use Rattle.sheet_text.specs.Escape.{escaped_byte};
ghost use Rattle.sheet_export.specs.References as page;

use crate::fixed::write_bytes;
use bstr::decode_utf8;
use sheet_text::{WriteFault, hex_digit, is_plain};
use std::io::Write;

/// Writes a byte, a mark of HTML as its reference.
fn write_reference<W: Write>(byte: u8, out: &mut W) -> Result<(), WriteFault>
    ensures { OnOk result (Appends (W.contents out.old) (W.contents out.new)
        (page.reference byte)) }
{
    if byte == b'&' {
        return write_bytes(b"&amp;", out);
    }
    if byte == b'<' {
        return write_bytes(b"&lt;", out);
    }
    if byte == b'>' {
        return write_bytes(b"&gt;", out);
    }
    if byte == b'"' {
        return write_bytes(b"&quot;", out);
    }
    if byte == b'\'' {
        return write_bytes(b"&#39;", out);
    }
    write_bytes(&[byte], out)
}

/// Writes a byte as `\x` and two digits.
fn write_escaped<W: Write>(byte: u8, out: &mut W) -> Result<(), WriteFault>
    ensures { OnOk result
        (Appends (W.contents out.old) (W.contents out.new) (escaped_byte byte)) }
{
    let high = hex_digit(byte / 16);
    let low = hex_digit(byte % 16);
    write_bytes(&[b'\\', b'x', high, low], out)
}

/// Writes a byte that belongs to a character, or to none.
fn write_byte<W: Write>(
    byte: u8,
    belongs: bool,
    keeps_lines: bool,
    out: &mut W,
) -> Result<(), WriteFault>
    ensures { OnOk result
        (Appends (W.contents out.old) (W.contents out.new)
        (page.html_byte keeps_lines belongs byte)) }
{
    if belongs && is_plain(byte, keeps_lines) {
        write_reference(byte, out)
    } else {
        write_escaped(byte, out)
    }
}

/// How many bytes the character has that begins here, and 0 where none does.
fn character_length(bytes: &[u8]) -> usize
    ensures { result ≡ page.character_length bytes.now }
{
    let (character, size) = decode_utf8(bytes);
    if character.is_some() { size } else { 0 }
}

/// How many of these bytes, from the first, belong to one character, where so many of it are left.
fn belonging(left: usize, bytes: &[u8]) -> usize
    ensures { result ≡ page.belonging left bytes.now }
{
    if left > 0 {
        left
    } else {
        character_length(bytes)
    }
}

/// Writes bytes as `print` shows them, each mark of HTML as its reference, and each byte that is part
/// of no character of UTF-8 as `\x` and two digits. Tabs and line feeds stay where lines are kept.
#[tactic(auto, using(crate::proofs::Texts::text_steps))]
pub(crate) fn write_text<W: Write>(
    bytes: &[u8],
    keeps_lines: bool,
    out: &mut W,
) -> Result<(), WriteFault>
    ensures { OnOk result
        (Appends (W.contents out.old) (W.contents out.new) (page.html_text keeps_lines bytes.now)) }
{
    let mut rest = bytes;
    let mut left = 0;
    while let Some((byte, others)) = rest.split_first() {
        let belongs = belonging(left, rest);
        write_byte(*byte, belongs > 0, keeps_lines, out)?;
        left = belongs.saturating_sub(1);
        rest = others;
    }
    Ok(())
}
