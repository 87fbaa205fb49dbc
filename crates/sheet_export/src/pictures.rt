//! Pictures of a page: images with all of their bytes in their addresses.
ghost use Rattle.std.specs.Prelude.{◌≡◌, OnOk, false};
ghost use Rattle.std.specs.Io.KnownBytes.{Appends};
ghost use Rattle.sheet_export.specs.Pictures as page;

use crate::fixed;
use crate::fixed::write_bytes;
use crate::references::write_text;
use sheet_notebook::{PictureKind, picture_kind};
use sheet_text::WriteFault;
use std::io::Write;

/// The symbol of six bits (RFC 4648, table 1).
fn symbol_of(bits: u8) -> u8
    ensures { result ≡ page.symbol_of bits }
{
    if bits < 26 {
        b'A' + bits
    } else if bits < 52 {
        b'a' + (bits - 26)
    } else if bits < 62 {
        b'0' + (bits - 52)
    } else if bits == 62 {
        b'+'
    } else {
        b'/'
    }
}

/// Writes the symbols of three bytes.
fn write_three<W: Write>(a: u8, b: u8, c: u8, out: &mut W) -> Result<(), WriteFault>
    ensures { OnOk result
        (Appends (W.contents out.old) (W.contents out.new) (page.symbols_of a b c)) }
{
    let first = symbol_of(a / 4);
    let second = symbol_of(a % 4 * 16 + b / 16);
    let third = symbol_of(b % 16 * 4 + c / 64);
    let fourth = symbol_of(c % 64);
    write_bytes(&[first, second, third, fourth], out)
}

/// Writes the symbols of two bytes at the end.
fn write_two<W: Write>(a: u8, b: u8, out: &mut W) -> Result<(), WriteFault>
    ensures { OnOk result
        (Appends (W.contents out.old) (W.contents out.new) (page.symbols_of_two a b)) }
{
    let first = symbol_of(a / 4);
    let second = symbol_of(a % 4 * 16 + b / 16);
    let third = symbol_of(b % 16 * 4);
    write_bytes(&[first, second, third, b'='], out)
}

/// Writes the symbols of one byte at the end.
fn write_one<W: Write>(a: u8, out: &mut W) -> Result<(), WriteFault>
    ensures { OnOk result
        (Appends (W.contents out.old) (W.contents out.new) (page.symbols_of_one a)) }
{
    let first = symbol_of(a / 4);
    let second = symbol_of(a % 4 * 16);
    write_bytes(&[first, second, b'=', b'='], out)
}

/// Writes bytes in base64 (RFC 4648, section 4).
#[tactic(auto, using(crate::proofs::Groups::group_steps))]
fn write_base64<W: Write>(bytes: &[u8], out: &mut W) -> Result<(), WriteFault>
    ensures { OnOk result
        (Appends (W.contents out.old) (W.contents out.new) (page.in_base64 bytes.now)) }
{
    let mut rest = bytes;
    while let Some((a, following)) = rest.split_first() {
        let Some((b, further)) = following.split_first() else {
            return write_one(*a, out);
        };
        let Some((c, others)) = further.split_first() else {
            return write_two(*a, *b, out);
        };
        write_three(*a, *b, *c, out)?;
        rest = others;
    }
    Ok(())
}

/// Writes what stands in front of a picture's base64.
fn write_start<W: Write>(kind: PictureKind, out: &mut W) -> Result<(), WriteFault>
    ensures { OnOk result
        (Appends (W.contents out.old) (W.contents out.new) (page.image_start kind)) }
{
    match kind {
        PictureKind::Png => write_bytes(fixed::PNG_START, out),
        PictureKind::Jpeg => write_bytes(fixed::JPEG_START, out),
        PictureKind::Svg => write_bytes(fixed::SVG_START, out),
    }
}

/// Writes a picture's base64: of an SVG that of its text, of the others their text.
fn write_data<W: Write>(kind: PictureKind, text: &[u8], out: &mut W) -> Result<(), WriteFault>
    ensures { OnOk result
        (Appends (W.contents out.old) (W.contents out.new) (page.image_data kind text.now)) }
{
    match kind {
        PictureKind::Png => write_bytes(text, out),
        PictureKind::Jpeg => write_bytes(text, out),
        PictureKind::Svg => write_base64(text, out),
    }
}

/// Writes an image.
#[tactic(auto, using(crate::proofs::Appending::steps))]
fn write_image<W: Write>(kind: PictureKind, text: &[u8], out: &mut W) -> Result<(), WriteFault>
    ensures { OnOk result
        (Appends (W.contents out.old) (W.contents out.new) (page.image_html kind text.now)) }
{
    write_start(kind, out)?;
    write_data(kind, text, out)?;
    write_bytes(fixed::IMAGE_END, out)
}

/// Writes what is shown of a picture that isn't drawn: its format.
#[tactic(auto, using(crate::proofs::Appending::steps))]
fn write_undrawn<W: Write>(name: &[u8], out: &mut W) -> Result<(), WriteFault>
    ensures { OnOk result
        (Appends (W.contents out.old) (W.contents out.new) (page.undrawn_html name.now)) }
{
    write_bytes(b"{", out)?;
    write_text(name, false, out)?;
    write_bytes(b": not drawn}", out)
}

/// Writes a picture of this format: as an image where it begins as one of its kind, else what it is.
pub(crate) fn write_picture<W: Write>(
    name: &[u8],
    text: &[u8],
    out: &mut W,
) -> Result<(), WriteFault>
    ensures { OnOk result
        (Appends (W.contents out.old) (W.contents out.new) (page.picture_html name.now text.now)) }
{
    match picture_kind(name, text) {
        Some(kind) => write_image(kind, text, out),
        None => write_undrawn(name, out),
    }
}
