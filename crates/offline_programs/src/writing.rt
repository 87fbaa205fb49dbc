//! The texts that programs write.
ghost use Rattle.std.specs.Prelude.{◌≡◌, IfErr, OnOk};
ghost use Rattle.std.specs.Io.KnownBytes.{Appends};
ghost use Rattle.sheet_text.specs.Texts as printed;
ghost use Rattle.offline_programs.specs.Memory.{bad_line, replies_text};

use crate::RunFault;
use host_events::Reply;
use sheet_text::{reply_text, sheet_text};
use std::io::Write;
use worksheet::Sheet;

/// Writes that a line isn't known.
pub(crate) fn write_bad_line<W: Write>(number: u64, writer: &mut W) -> Result<(), RunFault>
    ensures ok { OnOk result
        (Appends (W.contents writer.old) (W.contents writer.new) (bad_line number)) }
    ensures err { IfErr result (λ fault. fault ≡ RunFault.Output) }
{
    writeln!(writer, "bad line {number}").map_err(|_| RunFault::Output)?;
    Ok(())
}

/// Writes a reply.
pub(crate) fn write_reply<W: Write>(reply: &Reply, writer: &mut W) -> Result<(), RunFault>
    ensures ok { OnOk result
        (Appends (W.contents writer.old) (W.contents writer.new) (printed.reply_text reply.now)) }
    ensures err { IfErr result (λ fault. fault ≡ RunFault.Output) }
{
    reply_text(reply, writer).map_err(|_| RunFault::Output)?;
    Ok(())
}

/// Writes a worksheet, as `print` does.
pub(crate) fn write_sheet<W: Write>(sheet: &Sheet, writer: &mut W) -> Result<(), RunFault>
    ensures ok { OnOk result
        (Appends (W.contents writer.old) (W.contents writer.new)
        (printed.sheet_text sheet.now.contents)) }
    ensures err { IfErr result (λ fault. fault ≡ RunFault.Output) }
{
    sheet_text(sheet, writer).map_err(|_| RunFault::Output)?;
    Ok(())
}

/// Writes the texts of replies, and flushes them: whoever reads them can rely on them.
pub fn tell_replies<W: Write>(replies: &[Reply], writer: &mut W) -> Result<(), RunFault>
    ensures ok { OnOk result
        (Appends (W.contents writer.old) (W.contents writer.new) (replies_text replies.now)) }
    ensures err { IfErr result (λ fault. fault ≡ RunFault.Output) }
{
    for reply in replies {
        write_reply(reply, writer)?;
    }
    writer.flush().map_err(|_| RunFault::Output)?;
    Ok(())
}

/// Writes that a line isn't known, and flushes it.
pub fn tell_bad_line<W: Write>(number: u64, writer: &mut W) -> Result<(), RunFault>
    ensures ok { OnOk result
        (Appends (W.contents writer.old) (W.contents writer.new) (bad_line number)) }
    ensures err { IfErr result (λ fault. fault ≡ RunFault.Output) }
{
    write_bad_line(number, writer)?;
    writer.flush().map_err(|_| RunFault::Output)?;
    Ok(())
}

/// Writes a worksheet, and flushes it.
pub fn tell_sheet<W: Write>(sheet: &Sheet, writer: &mut W) -> Result<(), RunFault>
    ensures ok { OnOk result
        (Appends (W.contents writer.old) (W.contents writer.new)
        (printed.sheet_text sheet.now.contents)) }
    ensures err { IfErr result (λ fault. fault ≡ RunFault.Output) }
{
    write_sheet(sheet, writer)?;
    writer.flush().map_err(|_| RunFault::Output)?;
    Ok(())
}
