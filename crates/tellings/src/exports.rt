//! A worksheet in a format, in words or as a line of JSON.
ghost use Rattle.std.specs.Prelude.{◌≡◌, ◌++◌, IfErr, IfOk, None, OnOk, Option, Some};
ghost use Rattle.std.specs.Option.{option_map};
ghost use Rattle.std.specs.Io.KnownBytes.{Appends};
ghost use Rattle.sheet_export.specs.Formats as exports;
ghost use Rattle.tellings.specs.Json.{exported_json, in_json, text_reported};
ghost use Rattle.tellings.specs.Voice.{IsWithheld, Unwritten, WroteLine};
ghost use Rattle.tellings.specs.Words.{exported_words, needs_json};

use crate::writing::write_made;
use offline_programs::RunFault;
use sheet_export::{
    ExportFault, Format, format_name, html_page, markdown_text, script_text, write_in_format,
};
use sheet_json::exported_value;
use std::alloc::Global;
use std::io::Write;
use worksheet::Sheet;

/// The title of a page.
const TITLE: &[u8] = b"worksheet";

/// Writes the lines that make a worksheet again, or that there are none.
fn write_script<W: Write>(sheet: &Sheet, writer: &mut W) -> Result<(), RunFault>
    ensures ok { OnOk result (Appends (W.contents writer.old) (W.contents writer.new)
        (exported_words Format.Script sheet.now.contents)) }
    ensures err { IfErr result (λ fault. fault ≡ RunFault.Output) }
{
    match script_text(sheet, writer) {
        Ok(()) => Ok(()),
        Err(ExportFault::NoScript) => writer
            .write_all(b"no script\n")
            .map_err(|_| RunFault::Output),
        Err(ExportFault::Run(_)) => Err(RunFault::Output),
    }
}

/// Writes a name between two texts.
fn write_between<W: Write>(
    before: &[u8],
    name: &str,
    after: &[u8],
    writer: &mut W,
) -> Result<(), RunFault>
    ensures ok { OnOk result (Appends (W.contents writer.old) (W.contents writer.new)
        (before.now ++ name.now ++ after.now)) }
    ensures err { IfErr result (λ fault. fault ≡ RunFault.Output) }
{
    writer.write_all(before).map_err(|_| RunFault::Output)?;
    writer
        .write_all(name.as_bytes())
        .map_err(|_| RunFault::Output)?;
    writer.write_all(after).map_err(|_| RunFault::Output)?;
    Ok(())
}

/// Writes that a format takes memory, which words don't.
fn write_needs_json<W: Write>(format: Format, writer: &mut W) -> Result<(), RunFault>
    ensures ok { OnOk result (Appends (W.contents writer.old) (W.contents writer.new)
        (needs_json format)) }
    ensures err { IfErr result (λ fault. fault ≡ RunFault.Output) }
{
    write_between(b"export ", format_name(format), b" needs --json\n", writer)
}

/// Writes a worksheet in a format, or that it isn't written in it.
fn write_words<W: Write>(format: Format, sheet: &Sheet, writer: &mut W) -> Result<(), RunFault>
    ensures ok { OnOk result (Appends (W.contents writer.old) (W.contents writer.new)
        (exported_words format sheet.now.contents)) }
    ensures err { IfErr result (λ fault. fault ≡ RunFault.Output) }
{
    match format {
        Format::Script => write_script(sheet, writer),
        Format::Markdown => markdown_text(sheet, writer).map_err(|_| RunFault::Output),
        Format::Html => html_page(TITLE, sheet, writer).map_err(|_| RunFault::Output),
        Format::Notebook | Format::Json => write_needs_json(format, writer),
    }
}

/// The same, and flushes it.
pub(crate) fn tell_words<W: Write>(
    format: Format,
    sheet: &Sheet,
    writer: &mut W,
) -> Result<(), RunFault>
    ensures ok { OnOk result (Appends (W.contents writer.old) (W.contents writer.new)
        (exported_words format sheet.now.contents)) }
    ensures err { IfErr result (λ fault. fault ≡ RunFault.Output) }
{
    write_words(format, sheet, writer)?;
    writer.flush().map_err(|_| RunFault::Output)?;
    Ok(())
}

/// The text of a worksheet in a format, made whole, where it has one.
fn whole_text(alloc: Global, format: Format, sheet: &Sheet) -> Result<Option<Vec<u8>>, RunFault>
    ensures ok { IfOk result (λ text. option_map (λ bytes. bytes.items) text
        ≡ text_reported format sheet.now.contents) }
    ensures err { IfErr result (λ fault. fault ≡ RunFault.OutOfMemory) }
{
    let mut bytes = Vec::new(alloc);
    match write_in_format(alloc, format, TITLE, sheet, &mut bytes) {
        Ok(()) => Ok(Some(bytes)),
        Err(ExportFault::NoScript) => Ok(None),
        Err(ExportFault::Run(_)) => Err(RunFault::OutOfMemory),
    }
}

/// Writes a worksheet in a format on its line, or that it has no text there.
pub(crate) fn write_exported<W: Write>(
    alloc: Global,
    line: u64,
    format: Format,
    sheet: &Sheet,
    writer: &mut W,
) -> Result<(), RunFault>
    ensures wrote { WroteLine result (W.contents writer.old) (W.contents writer.new)
        (exported_json line format sheet.now.contents) }
    ensures err { IfErr result (IsWithheld in_json) }
    ensures unwritten { IfErr result (Unwritten writer.old writer.new) }
{
    let name = format_name(format);
    match whole_text(alloc, format, sheet) {
        Ok(None) => write_made(alloc, exported_value(alloc, line, name, None), writer),
        Ok(Some(text)) => {
            let value = exported_value(alloc, line, name, Some(text.as_slice()));
            write_made(alloc, value, writer)
        }
        Err(fault) => Err(fault),
    }
}
