//! A report, in each of its formats.
ghost use Rattle.std.specs.Prelude.{◌≡◌, IfErr, OnOk};
ghost use Rattle.std.specs.Io.KnownBytes.{Appends};
ghost use Rattle.check_report.specs.Points.{point};
ghost use Rattle.check_report.specs.Reports.{Unreported, case_in, case_text, closing_text, is_written as is_written_in, is_written_in_words as is_written_words, opening_text, telling_of};
ghost use Rattle.check_report.specs.Words as printed;
ghost use Rattle.check_report.specs.Tap as taps;
ghost use Rattle.check_report.specs.Junit as junits;
ghost use Rattle.sheet_json.specs.Sheets.{telling_line};

use crate::cases::Case;
use crate::junit::{write_case, write_head, write_tail};
use crate::objects::{case_in_memory, write_end, write_hello};
use crate::tap::{write_plan, write_point, write_version};
use crate::verdict::{Verdict, VerdictCounts};
use crate::wording::{report_accepting, report_whole, report_words};
use crate::words::{verdict_in_memory, write_accepted_counts, write_counts};
use crate::writing::write_and_flush;
use sheet_text::WriteFault;
use std::alloc::Global;
use std::io::Write;

/// How a report is written.
#[derive(Clone, Copy, Debug, PartialEq, Eq)]
pub enum ReportFormat {
    /// In words, which people read: what differs, and the counts.
    Text,
    /// The same, with both outputs whole where one differs.
    Whole,
    /// As TAP, version 13: a test point for each field.
    Tap,
    /// In JUnit's XML: a test case for each field.
    Junit,
    /// As lines of JSON: an object for each field.
    Json,
    /// In words, where answers that differ are accepted: that is said after each.
    Accepting,
}

/// Why a part of a report wasn't written.
#[derive(Clone, Copy, Debug, PartialEq, Eq)]
pub enum ReportFault {
    /// There was no memory for it, and nothing was written.
    OutOfMemory,
    /// The writer failed, and a part may have gone out.
    Output,
}

/// Writes what stands first in a report, and flushes it.
pub fn open_report<W: Write>(format: ReportFormat, writer: &mut W) -> Result<(), WriteFault>
    ensures { OnOk result (Appends (W.contents writer.old) (W.contents writer.new)
        (opening_text format)) }
{
    match format {
        ReportFormat::Text | ReportFormat::Whole | ReportFormat::Accepting => return Ok(()),
        ReportFormat::Tap => write_version(writer)?,
        ReportFormat::Junit => write_head(writer)?,
        ReportFormat::Json => write_hello(writer)?,
    }
    writer.flush().map_err(|_| WriteFault)
}

/// Writes what stands last in a report.
fn write_closing<W: Write>(
    format: ReportFormat,
    counts: VerdictCounts,
    writer: &mut W,
) -> Result<(), WriteFault>
    ensures { OnOk result (Appends (W.contents writer.old) (W.contents writer.new)
        (closing_text format counts)) }
{
    match format {
        ReportFormat::Text | ReportFormat::Whole => write_counts(counts, writer),
        ReportFormat::Tap => write_plan(counts.total(), writer),
        ReportFormat::Junit => write_tail(writer),
        ReportFormat::Json => write_end(counts, writer),
        ReportFormat::Accepting => write_accepted_counts(counts, writer),
    }
}

/// Writes what stands last in a report, and flushes it.
pub fn close_report<W: Write>(
    format: ReportFormat,
    counts: VerdictCounts,
    writer: &mut W,
) -> Result<(), WriteFault>
    ensures { OnOk result (Appends (W.contents writer.old) (W.contents writer.new)
        (closing_text format counts)) }
{
    write_closing(format, counts, writer)?;
    writer.flush().map_err(|_| WriteFault)?;
    Ok(())
}

/// Whether anything is written in words of a field that came to this.
fn is_written_in_words(verdict: Verdict) -> bool
    ensures { result ≡ is_written_words verdict }
{
    matches!(
        verdict,
        Verdict::Differs | Verdict::Unanswered | Verdict::New
    )
}

/// Whether anything is written of a field that came to this.
pub fn is_written(format: ReportFormat, verdict: Verdict) -> bool
    ensures { result ≡ is_written_in format verdict }
{
    match format {
        ReportFormat::Text | ReportFormat::Whole | ReportFormat::Accepting => is_written_in_words(
            verdict,
        ),
        ReportFormat::Tap | ReportFormat::Junit | ReportFormat::Json => true,
    }
}

/// Writes a field as a test point of TAP, and flushes it.
fn write_as_point<W: Write>(
    case: &Case<'_>,
    reported: &[u8],
    writer: &mut W,
) -> Result<(), WriteFault>
    ensures { OnOk result (Appends (W.contents writer.old) (W.contents writer.new)
        (taps.tap_point case.now.number (point case.now.field.now.id case.now.field.now.session
        case.now.field.now.input case.now.verdict case.now.took reported.now))) }
{
    write_point(case, reported, writer)?;
    writer.flush().map_err(|_| WriteFault)?;
    Ok(())
}

/// Writes a field as a case in JUnit's XML, and flushes it.
fn write_as_case<W: Write>(
    case: &Case<'_>,
    reported: &[u8],
    writer: &mut W,
) -> Result<(), WriteFault>
    ensures { OnOk result (Appends (W.contents writer.old) (W.contents writer.new)
        (junits.junit_case (point case.now.field.now.id case.now.field.now.session
        case.now.field.now.input case.now.verdict case.now.took reported.now))) }
{
    write_case(case, reported, writer)?;
    writer.flush().map_err(|_| WriteFault)?;
    Ok(())
}

/// Tells a field as a test point of TAP.
fn report_point<W: Write>(alloc: Global, case: &Case<'_>, writer: &mut W) -> Result<(), ReportFault>
    ensures ok { OnOk result (Appends (W.contents writer.old) (W.contents writer.new)
        (taps.tap_point case.now.number (point case.now.field.now.id case.now.field.now.session
        case.now.field.now.input case.now.verdict case.now.took
        (printed.verdict_text case.now.field.now case.now.came.now case.now.lost case.now.verdict)))) }
    ensures err { IfErr result (Unreported (W.contents writer.old) (W.contents writer.new)) }
{
    let Some(reported) = verdict_in_memory(alloc, case.field, case.came, case.lost, case.verdict)
    else {
        return Err(ReportFault::OutOfMemory);
    };
    match write_as_point(case, reported.as_slice(), writer) {
        Ok(()) => Ok(()),
        Err(_) => Err(ReportFault::Output),
    }
}

/// Tells a field as a case in JUnit's XML.
fn report_junit<W: Write>(alloc: Global, case: &Case<'_>, writer: &mut W) -> Result<(), ReportFault>
    ensures ok { OnOk result (Appends (W.contents writer.old) (W.contents writer.new)
        (junits.junit_case (point case.now.field.now.id case.now.field.now.session
        case.now.field.now.input case.now.verdict case.now.took
        (printed.verdict_text case.now.field.now case.now.came.now case.now.lost case.now.verdict)))) }
    ensures err { IfErr result (Unreported (W.contents writer.old) (W.contents writer.new)) }
{
    let Some(reported) = verdict_in_memory(alloc, case.field, case.came, case.lost, case.verdict)
    else {
        return Err(ReportFault::OutOfMemory);
    };
    match write_as_case(case, reported.as_slice(), writer) {
        Ok(()) => Ok(()),
        Err(_) => Err(ReportFault::Output),
    }
}

/// Tells a field as a line of JSON.
fn report_json<W: Write>(alloc: Global, case: &Case<'_>, writer: &mut W) -> Result<(), ReportFault>
    ensures ok { OnOk result (Appends (W.contents writer.old) (W.contents writer.new)
        (telling_line (telling_of (case_in case.now)))) }
    ensures err { IfErr result (Unreported (W.contents writer.old) (W.contents writer.new)) }
{
    let Some(line) = case_in_memory(alloc, case) else {
        return Err(ReportFault::OutOfMemory);
    };
    match write_and_flush(line.as_slice(), writer) {
        Ok(()) => Ok(()),
        Err(_) => Err(ReportFault::Output),
    }
}

/// Tells what a field came to, which is a case, and flushes it.
pub fn report_case<W: Write>(
    alloc: Global,
    format: ReportFormat,
    case: &Case<'_>,
    writer: &mut W,
) -> Result<(), ReportFault>
    ensures ok { OnOk result (Appends (W.contents writer.old) (W.contents writer.new)
        (case_text format case.now.number (case_in case.now))) }
    ensures err { IfErr result (Unreported (W.contents writer.old) (W.contents writer.new)) }
{
    match format {
        ReportFormat::Text => report_words(alloc, case, writer),
        ReportFormat::Whole => report_whole(alloc, case, writer),
        ReportFormat::Tap => report_point(alloc, case, writer),
        ReportFormat::Junit => report_junit(alloc, case, writer),
        ReportFormat::Json => report_json(alloc, case, writer),
        ReportFormat::Accepting => report_accepting(alloc, case, writer),
    }
}
