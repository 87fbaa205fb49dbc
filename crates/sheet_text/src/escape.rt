//! Bytes as they are printed.
ghost use Rattle.std.specs.Prelude.{◌≡◌, ◌<◌, OnOk, ℕ, Option, Some};
ghost use Rattle.std.specs.List.{flat_map, last_or};
ghost use Rattle.std.specs.Io.KnownBytes.{Appends};
ghost use Rattle.sheet_text.specs.Escape.{byte_in_quotes, escaped_byte, hex, in_quotes, on_line, on_lines, printed_byte};
ghost use Rattle.sheet_text.specs.Escape as escape;

use crate::WriteFault;
use crate::plain::plain_end;
use std::io::Write;

/// The most bytes that are printed for a byte.
const MOST_PRINTED: usize = 4;

/// A hexadecimal digit, in lower case.
pub fn hex_digit(n: u8) -> u8
    requires { n < 16 }
    ensures { result ≡ hex n }
{
    if n < 10 { b'0' + n } else { b'a' - 10 + n }
}

/// Whether a byte is printed as itself.
#[inline(always)]
pub fn is_plain(byte: u8, keeps_lines: bool) -> bool
    ensures { result ≡ escape.is_plain keeps_lines byte }
{
    if byte == b'\t' || byte == b'\n' {
        keeps_lines
    } else {
        byte >= 32 && byte != 127
    }
}

/// The last byte of what is printed for a byte.
pub(crate) fn last_printed(byte: u8, keeps_lines: bool) -> u8
    ensures { (before : Option ℕ) → last_or before (printed_byte keeps_lines byte) ≡ Some result }
{
    if is_plain(byte, keeps_lines) {
        byte
    } else {
        hex_digit(byte % 16)
    }
}

/// What is printed for a byte that isn't printed as itself.
#[inline(always)]
fn escaped(byte: u8) -> [u8; MOST_PRINTED]
    ensures { result ≡ escaped_byte byte }
{
    let high = hex_digit(byte / 16);
    let low = hex_digit(byte % 16);
    // By a number, since a load of four bytes waits where they were stored one by one.
    u32::from_le_bytes([b'\\', b'x', high, low]).to_le_bytes()
}

fn write_byte<W: Write>(byte: u8, keeps_lines: bool, out: &mut W) -> Result<(), WriteFault>
    ensures { OnOk result
        (Appends (W.contents out.old) (W.contents out.new) (printed_byte keeps_lines byte)) }
{
    if is_plain(byte, keeps_lines) {
        return out.write_all(&[byte]).map_err(|_| WriteFault);
    }
    out.write_all(&escaped(byte)).map_err(|_| WriteFault)
}

/// Writes a run of bytes as they are; most runs between bytes that aren't printed as themselves are empty.
#[inline(always)]
fn write_run<W: Write>(run: &[u8], out: &mut W) -> Result<(), WriteFault>
    ensures { OnOk result (Appends (W.contents out.old) (W.contents out.new) run.now) }
{
    if run.is_empty() {
        return Ok(());
    }
    out.write_all(run).map_err(|_| WriteFault)
}

/// Writes bytes, those that are printed as themselves as many at once as stand side by side.
fn write_bytes<W: Write>(bytes: &[u8], keeps_lines: bool, out: &mut W) -> Result<(), WriteFault>
    ensures { OnOk result
        (Appends (W.contents out.old) (W.contents out.new)
        (flat_map (printed_byte keeps_lines) bytes.now)) }
{
    let mut start = 0;
    while start < bytes.len() {
        let end = plain_end(bytes, start, keeps_lines);
        write_run(&bytes[start..end], out)?;
        if end == bytes.len() {
            return Ok(());
        }
        write_byte(bytes[end], keeps_lines, out)?;
        start = end + 1;
    }
    Ok(())
}

/// Writes bytes so that they stay on one line: each below 32, and 127, as `\x` and two hexadecimal
/// digits in lower case, every other byte as itself.
pub fn write_line<W: Write>(bytes: &[u8], out: &mut W) -> Result<(), WriteFault>
    ensures { OnOk result (Appends (W.contents out.old) (W.contents out.new) (on_line bytes.now)) }
{
    write_bytes(bytes, false, out)?;
    Ok(())
}

/// Writes bytes like `write_line`, but tabs and line feeds as themselves.
pub fn write_lines<W: Write>(bytes: &[u8], out: &mut W) -> Result<(), WriteFault>
    ensures { OnOk result (Appends (W.contents out.old) (W.contents out.new) (on_lines bytes.now)) }
{
    write_bytes(bytes, true, out)?;
    Ok(())
}

/// Writes a byte as it stands between quotes.
fn write_byte_in_quotes<W: Write>(byte: u8, out: &mut W) -> Result<(), WriteFault>
    ensures { OnOk result
        (Appends (W.contents out.old) (W.contents out.new) (byte_in_quotes byte)) }
{
    if byte == b'"' || byte == b'\\' {
        return out.write_all(&[b'\\', byte]).map_err(|_| WriteFault);
    }
    write_byte(byte, false, out)
}

/// Writes bytes as they stand between quotes.
fn write_in_quotes<W: Write>(bytes: &[u8], out: &mut W) -> Result<(), WriteFault>
    ensures { OnOk result
        (Appends (W.contents out.old) (W.contents out.new) (flat_map byte_in_quotes bytes.now)) }
{
    for byte in bytes {
        write_byte_in_quotes(*byte, out)?;
    }
    Ok(())
}

/// Writes bytes between quotes like `write_line`, but a backslash before a quote and a backslash.
#[tactic(auto, using(crate::proofs::Appending::steps))]
pub(crate) fn write_quoted<W: Write>(bytes: &[u8], out: &mut W) -> Result<(), WriteFault>
    ensures { OnOk result (Appends (W.contents out.old) (W.contents out.new)
        (in_quotes bytes.now)) }
{
    out.write_all(b"\"").map_err(|_| WriteFault)?;
    write_in_quotes(bytes, out)?;
    out.write_all(b"\"").map_err(|_| WriteFault)?;
    Ok(())
}
