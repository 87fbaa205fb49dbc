//! Texts as they stand in XML 1.0.
ghost use Rattle.std.specs.Prelude.{◌≡◌, OnOk};
ghost use Rattle.std.specs.Io.KnownBytes.{Appends};
ghost use Rattle.check_report.specs.Xml as xml;

use crate::writing::write_bytes;
use bstr::decode_utf8;
use sheet_text::WriteFault;
use std::io::Write;

/// Writes a byte, a mark of XML as its reference.
fn write_reference<W: Write>(byte: u8, out: &mut W) -> Result<(), WriteFault>
    ensures { OnOk result (Appends (W.contents out.old) (W.contents out.new)
        (xml.xml_reference byte)) }
{
    if byte == b'&' {
        return write_bytes(b"&amp;", out);
    }
    if byte == b'<' {
        return write_bytes(b"&lt;", out);
    }
    if byte == b'>' {
        return write_bytes(b"&gt;", out);
    }
    if byte == b'"' {
        return write_bytes(b"&quot;", out);
    }
    write_bytes(&[byte], out)
}

/// Whether a byte is no control character, or a tab or a line feed.
fn is_kept(byte: u8) -> bool
    ensures { result ≡ xml.stays_in_xml byte }
{
    byte >= 32 || byte == b'\t' || byte == b'\n'
}

/// Writes a byte that belongs to a character, or to none.
fn write_byte<W: Write>(byte: u8, belongs: bool, out: &mut W) -> Result<(), WriteFault>
    ensures { OnOk result
        (Appends (W.contents out.old) (W.contents out.new) (xml.xml_byte belongs byte)) }
{
    if belongs && is_kept(byte) {
        write_reference(byte, out)
    } else {
        write_bytes(&[0xEF, 0xBF, 0xBD], out)
    }
}

/// Whether there is a character, and it isn't U+FFFE or U+FFFF.
fn is_allowed(character: Option<char>) -> bool
    ensures { result ≡ xml.is_allowed character }
{
    match character {
        None => false,
        Some(character) => character != '\u{FFFE}' && character != '\u{FFFF}',
    }
}

/// How many bytes the character has that begins here, and 0 where none does that XML can have.
fn character_length(bytes: &[u8]) -> usize
    ensures { result ≡ xml.xml_length bytes.now }
{
    let (character, size) = decode_utf8(bytes);
    if is_allowed(character) { size } else { 0 }
}

/// How many of these bytes, from the first, belong to one character, where so many of it are left.
fn belonging(left: usize, bytes: &[u8]) -> usize
    ensures { result ≡ xml.xml_belonging left bytes.now }
{
    if left > 0 {
        left
    } else {
        character_length(bytes)
    }
}

/// Writes a text, each mark of XML as its reference, and U+FFFD for each byte that is part of no
/// character which XML can have.
#[tactic(auto, using(crate::proofs::Texts::text_steps))]
pub(crate) fn write_text<W: Write>(text: &[u8], out: &mut W) -> Result<(), WriteFault>
    ensures { OnOk result
        (Appends (W.contents out.old) (W.contents out.new) (xml.xml_text text.now)) }
{
    let mut rest = text;
    let mut left = 0;
    while let Some((byte, others)) = rest.split_first() {
        let belongs = belonging(left, rest);
        write_byte(*byte, belongs > 0, out)?;
        left = belongs.saturating_sub(1);
        rest = others;
    }
    Ok(())
}
