//! A worksheet on a disk, written in a format.
ghost use Rattle.std.specs.Prelude.{◌≡◌, IfErr, IsErrOf, OnOk, Some, false, true, []};
ghost use Rattle.std.specs.Io.KnownBytes.{Appends};
ghost use Rattle.disk_model.specs.Disk.{InModel, Looks, Rises, SameDisk, bytes_on};
ghost use Rattle.journal.specs.declared.opening.OpenCause.TheVariants as opens;
ghost use Rattle.recovery.specs.Sheets.{IsSheetImage};
ghost use Rattle.sheet_export.specs.Formats as exports;
ghost use Rattle.sheet_export.specs.Formats.{ReadsBack, TellsExport, TellsText};
ghost use Rattle.sheet_export.specs.declared.fault.ExportFault.TheVariants as fault;
ghost use Rattle.offline_programs.specs.declared.fault.RunFault.TheVariants as run;
ghost use Rattle.worksheet.specs.Contents.{Contents};

use crate::fault::ExportFault;
use crate::fixed::write_bytes;
use crate::html::html_page;
use crate::markdown::markdown_text;
use crate::script::{has_script, write_script};
use disk_model::Disk;
use journal::OpenFault;
use offline_programs::RunFault;
use recovery::Store;
use sheet_json::sheet_bytes;
use sheet_notebook::notebook_bytes;
use std::alloc::Global;
use std::io::Write;
use worksheet::Sheet;

/// What a worksheet is written as.
#[derive(Clone, Copy, Debug, PartialEq, Eq)]
pub enum Format {
    /// The lines that make it again, without its answers.
    Script,
    /// Markdown, with its answers as code.
    Markdown,
    /// A page of HTML that stands alone.
    Html,
    /// A notebook of nbformat 4.5, with its answers as outputs.
    Notebook,
    /// Lines of JSON, with its answers as trees of blocks.
    Json,
}

/// The format of this name: `script`, `markdown`, `html`, `notebook` or `json`. None where there is none of it.
pub fn format_named(name: &str) -> Option<Format>
    ensures { result ≡ exports.format_named name.now }
{
    format_in_bytes(name.as_bytes())
}

/// The same of a name in bytes.
pub fn format_in_bytes(name: &[u8]) -> Option<Format>
    ensures { result ≡ exports.format_named name.now }
{
    if name == b"script".as_slice() {
        Some(Format::Script)
    } else if name == b"markdown".as_slice() {
        Some(Format::Markdown)
    } else if name == b"html".as_slice() {
        Some(Format::Html)
    } else if name == b"notebook".as_slice() {
        Some(Format::Notebook)
    } else if name == b"json".as_slice() {
        Some(Format::Json)
    } else {
        None
    }
}

/// The name of a format, by which `format_named` finds it.
pub fn format_name(format: Format) -> &'static str
    ensures name { result.now ≡ exports.format_name format }
    ensures found { exports.format_named result.now ≡ Some format }
{
    match format {
        Format::Script => "script",
        Format::Markdown => "markdown",
        Format::Html => "html",
        Format::Notebook => "notebook",
        Format::Json => "json",
    }
}

/// The last part of a path, which is the title of a page.
pub fn last_part(path: &[u8]) -> &[u8]
    ensures { result.now ≡ exports.last_part path.now }
{
    let mut part = path;
    let mut rest = path;
    while let Some((byte, others)) = rest.split_first() {
        if *byte == b'/' {
            part = others;
        }
        rest = others;
    }
    part
}

/// Writes the lines that make a worksheet again: its sessions, then its fields in their order, each
/// after the one before it. Answers are no part of it.
///
/// `NoScript` where a session has a word with a space, which a line can't have, or there are more than
/// 10,000 fields: nothing was written.
/// `Output` where the writer fails: a part of the lines may have gone out.
#[tactic(auto, using(crate::proofs::Faults::writing_faults))]
pub fn script_text<W: Write>(sheet: &Sheet, out: &mut W) -> Result<(), ExportFault>
    ensures ok { OnOk result ((exports.has_text Format.Script sheet.now.contents ≡ true)
        × Appends (W.contents out.old) (W.contents out.new)
        (exports.text_in Format.Script [] sheet.now.contents)) }
    ensures err { IfErr result
        (TellsText Format.Script sheet.now.contents (out.new ≡ out.old)) }
{
    if !has_script(sheet) {
        return Err(ExportFault::NoScript);
    }
    match write_script(sheet, out) {
        Ok(()) => Ok(()),
        Err(_) => Err(ExportFault::Run(RunFault::Output)),
    }
}

/// Writes a worksheet as Markdown, and tells a failure as the program does.
#[tactic(auto, using(crate::proofs::Faults::writing_faults))]
fn write_markdown<W: Write>(sheet: &Sheet, out: &mut W) -> Result<(), ExportFault>
    ensures ok { OnOk result
        (Appends (W.contents out.old) (W.contents out.new)
        (exports.text_in Format.Markdown [] sheet.now.contents)) }
    ensures err { IfErr result (TellsText Format.Markdown sheet.now.contents (out.new ≡ out.old)) }
{
    match markdown_text(sheet, out) {
        Ok(()) => Ok(()),
        Err(_) => Err(ExportFault::Run(RunFault::Output)),
    }
}

/// Writes a worksheet as a page, and tells a failure as the program does.
#[tactic(auto, using(crate::proofs::Faults::writing_faults))]
fn write_page<W: Write>(title: &[u8], sheet: &Sheet, out: &mut W) -> Result<(), ExportFault>
    ensures ok { OnOk result
        (Appends (W.contents out.old) (W.contents out.new)
        (exports.text_in Format.Html title.now sheet.now.contents)) }
    ensures err { IfErr result (TellsText Format.Html sheet.now.contents (out.new ≡ out.old)) }
{
    match html_page(title, sheet, out) {
        Ok(()) => Ok(()),
        Err(_) => Err(ExportFault::Run(RunFault::Output)),
    }
}

/// Writes a worksheet as a notebook of nbformat 4.5, whose text is made whole before its first byte is
/// written.
///
/// `OutOfMemory` where there is no memory for it: nothing was written. `Output` where the writer fails: a
/// part of the text may have gone out.
#[tactic(auto, using(crate::proofs::Faults::writing_faults))]
pub fn write_notebook<W: Write>(
    alloc: Global,
    sheet: &Sheet,
    out: &mut W,
) -> Result<(), ExportFault>
    ensures ok { OnOk result
        (Appends (W.contents out.old) (W.contents out.new)
        (exports.text_in Format.Notebook [] sheet.now.contents)) }
    ensures reads { OnOk result (ReadsBack Format.Notebook sheet.now.contents) }
    ensures err { IfErr result
        (TellsText Format.Notebook sheet.now.contents (out.new ≡ out.old)) }
{
    match notebook_bytes(alloc, sheet) {
        Err(_) => Err(ExportFault::Run(RunFault::OutOfMemory)),
        Ok(bytes) => match write_bytes(bytes.as_slice(), out) {
            Ok(()) => Ok(()),
            Err(_) => Err(ExportFault::Run(RunFault::Output)),
        },
    }
}

/// Writes a worksheet as lines of JSON, which are made whole before the first byte is written.
#[tactic(auto, using(crate::proofs::Faults::writing_faults))]
fn write_json<W: Write>(alloc: Global, sheet: &Sheet, out: &mut W) -> Result<(), ExportFault>
    ensures ok { OnOk result
        (Appends (W.contents out.old) (W.contents out.new)
        (exports.text_in Format.Json [] sheet.now.contents)) }
    ensures err { IfErr result
        (TellsText Format.Json sheet.now.contents (out.new ≡ out.old)) }
{
    match sheet_bytes(alloc, sheet) {
        Err(_) => Err(ExportFault::Run(RunFault::OutOfMemory)),
        Ok(lines) => match write_bytes(lines.as_slice(), out) {
            Ok(()) => Ok(()),
            Err(_) => Err(ExportFault::Run(RunFault::Output)),
        },
    }
}

/// Writes a worksheet in a format, with this title where the format has one.
///
/// `NoScript` where the worksheet has no text in this format, and `OutOfMemory` where there is no memory for
/// a notebook or for JSON: nothing was written. `Output` where the writer fails: a part of the text may have
/// gone out.
pub fn write_in_format<W: Write>(
    alloc: Global,
    format: Format,
    title: &[u8],
    sheet: &Sheet,
    out: &mut W,
) -> Result<(), ExportFault>
    ensures ok { OnOk result ((exports.has_text format sheet.now.contents ≡ true)
        × Appends (W.contents out.old) (W.contents out.new)
        (exports.text_in format title.now sheet.now.contents)) }
    ensures reads { OnOk result (ReadsBack format sheet.now.contents) }
    ensures err { IfErr result
        (TellsText format sheet.now.contents (out.new ≡ out.old)) }
{
    match format {
        Format::Script => script_text(sheet, out),
        Format::Markdown => write_markdown(sheet, out),
        Format::Html => write_page(title, sheet, out),
        Format::Notebook => write_notebook(alloc, sheet, out),
        Format::Json => write_json(alloc, sheet, out),
    }
}

/// Writes the same, and flushes it.
#[tactic(auto, using(crate::proofs::Faults::writing_faults))]
fn tell_in<W: Write>(
    alloc: Global,
    format: Format,
    title: &[u8],
    sheet: &Sheet,
    out: &mut W,
) -> Result<(), ExportFault>
    ensures ok { OnOk result ((exports.has_text format sheet.now.contents ≡ true)
        × Appends (W.contents out.old) (W.contents out.new)
        (exports.text_in format title.now sheet.now.contents)) }
    ensures reads { OnOk result (ReadsBack format sheet.now.contents) }
    ensures err { IfErr result
        (TellsText format sheet.now.contents (out.new ≡ out.old)) }
{
    match write_in_format(alloc, format, title, sheet, out) {
        Ok(()) => match out.flush() {
            Ok(()) => Ok(()),
            Err(_) => Err(ExportFault::Run(RunFault::Output)),
        },
        Err(fault) => Err(fault),
    }
}

/// What an export answers, and the disk that it was given.
#[derive(Drop)]
pub struct Exported<D: Disk> {
    /// The disk, on which reads alone were made.
    pub disk: D,
    /// Nothing, or why the worksheet wasn't written.
    pub answer: Result<(), ExportFault>,
}

/// Writes the worksheet that a disk stands for in a format, with this title where the format has one.
/// The disk is only read: no byte of it changes.
///
/// `Open` where the disk isn't opened, `NoScript` where the worksheet has no text in this format, and
/// `OutOfMemory` where there is no memory for a notebook or for JSON: nothing was written. `Output` where the
/// writer fails: a part of the text may have gone out.
#[tactic(auto, using(crate::proofs::Faults::not_opened))]
pub fn export<D: Disk, W: Write>(
    alloc: Global,
    format: Format,
    disk: D,
    title: &[u8],
    writer: &mut W,
) -> Exported<D>
    ensures written { InModel (D.view disk) ((sheet : Contents)
        → IsSheetImage sheet (bytes_on (D.view disk))
        → OnOk result.answer ((exports.has_text format sheet ≡ true)
        × Appends (W.contents writer.old) (W.contents writer.new)
        (exports.text_in format title.now sheet))) }
    ensures reads { InModel (D.view disk) ((sheet : Contents)
        → IsSheetImage sheet (bytes_on (D.view disk))
        → OnOk result.answer (ReadsBack format sheet)) }
    ensures found { InModel (D.view disk) (OnOk result.answer ((sheet : Contents)
        × IsSheetImage sheet (bytes_on (D.view disk)))) }
    ensures without { InModel (D.view disk)
        (IsErrOf result.answer fault.NoScript → (sheet : Contents)
        × IsSheetImage sheet (bytes_on (D.view disk)) × (exports.has_text format sheet ≡ false)) }
    ensures fault { IfErr result.answer (TellsExport format (D.view disk)
        (writer.new ≡ writer.old)) }

    // It changes no byte, and at every moment each image is one that a crash could leave at the start.
    ensures same { SameDisk (D.view disk) (D.view result.disk) }
    ensures looks { InModel (D.view disk)
        (Looks (D.view disk).history (D.view result.disk).history) }

    // That the disk failed is reported only where it did.
    ensures failed { IsErrOf result.answer (fault.Run (run.Open opens.Disk))
        → Rises (D.view disk).faults (D.view result.disk).faults }

    // Where anything else is answered, no call of the disk failed.
    ensures steady { (IsErrOf result.answer (fault.Run (run.Open opens.Disk)) → ⊥)
        → (D.view result.disk).faults ≡ (D.view disk).faults }
{
    match Store::open(alloc, disk) {
        Ok(store) => {
            let answer = tell_in(alloc, format, title, store.sheet(), writer);
            Exported {
                disk: store.into_disk(),
                answer,
            }
        }
        Err(OpenFault { cause, disk }) => Exported {
            disk,
            answer: Err(ExportFault::Run(RunFault::Open(cause))),
        },
    }
}
