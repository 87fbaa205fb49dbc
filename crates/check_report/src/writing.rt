//! Bytes and numbers, as they are.
ghost use Rattle.std.specs.Prelude.{OnOk};
ghost use Rattle.std.specs.Fmt.{decimal};
ghost use Rattle.std.specs.Io.KnownBytes.{Appends};

use sheet_text::WriteFault;
use std::io::Write;

/// Writes bytes as they are.
pub(crate) fn write_bytes<W: Write>(bytes: &[u8], out: &mut W) -> Result<(), WriteFault>
    ensures { OnOk result (Appends (W.contents out.old) (W.contents out.new) bytes.now) }
{
    out.write_all(bytes).map_err(|_| WriteFault)
}

/// Writes a number.
pub(crate) fn write_number<W: Write>(number: u64, out: &mut W) -> Result<(), WriteFault>
    ensures { OnOk result (Appends (W.contents out.old) (W.contents out.new) (decimal number)) }
{
    write!(out, "{}", number).map_err(|_| WriteFault)
}

/// Writes the number of a field.
pub(crate) fn write_id<W: Write>(id: u32, out: &mut W) -> Result<(), WriteFault>
    ensures { OnOk result (Appends (W.contents out.old) (W.contents out.new) (decimal id)) }
{
    write!(out, "{}", id).map_err(|_| WriteFault)
}

/// Writes a text that is in memory, and flushes it.
pub fn write_and_flush<W: Write>(text: &[u8], writer: &mut W) -> Result<(), WriteFault>
    ensures { OnOk result (Appends (W.contents writer.old) (W.contents writer.new) text.now) }
{
    write_bytes(text, writer)?;
    writer.flush().map_err(|_| WriteFault)?;
    Ok(())
}
