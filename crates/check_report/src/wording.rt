//! What a report in words says of a field.
ghost use Rattle.std.specs.Prelude.{IfErr, OnOk};
ghost use Rattle.std.specs.Io.KnownBytes.{Appends};
ghost use Rattle.check_report.specs.Reports.{Unreported};
ghost use Rattle.check_report.specs.Words as printed;

use crate::brief::brief_in_memory;
use crate::cases::Case;
use crate::hunks::{Hunk, find_hunk};
use crate::report::ReportFault;
use crate::verdict::Verdict;
use crate::words::{
    OutputPair, acceptance_in_memory, outputs_in_memory, write_addition, write_change,
    write_difference,
};
use crate::writing::write_and_flush;
use block_tree::Reason;
use sheet_text::WriteFault;
use std::alloc::Global;
use std::io::Write;
use worksheet::{Answer, Field};

/// Writes a difference in words, and flushes it.
fn write_words<W: Write>(
    field: &Field,
    shown: &[u8],
    came: &[u8],
    writer: &mut W,
) -> Result<(), WriteFault>
    ensures { OnOk result (Appends (W.contents writer.old) (W.contents writer.new)
        (printed.difference_of field.now shown.now came.now)) }
{
    write_difference(field, shown, came, writer)?;
    writer.flush().map_err(|_| WriteFault)?;
    Ok(())
}

/// Tells in words how an answer differs from that of its field, or that none came.
fn report_difference<W: Write>(
    alloc: Global,
    field: &Field,
    came: &Option<Answer>,
    lost: Option<Reason>,
    writer: &mut W,
) -> Result<(), ReportFault>
    ensures ok { OnOk result (Appends (W.contents writer.old) (W.contents writer.new)
        (printed.difference_text field.now came.now lost)) }
    ensures err { IfErr result (Unreported (W.contents writer.old) (W.contents writer.new)) }
{
    let Some(both) = outputs_in_memory(alloc, field, came, lost) else {
        return Err(ReportFault::OutOfMemory);
    };
    match write_words(field, both.shown.as_slice(), both.came.as_slice(), writer) {
        Ok(()) => Ok(()),
        Err(_) => Err(ReportFault::Output),
    }
}

/// Writes in words where an output differs, and flushes it.
fn write_in_part<W: Write>(
    field: &Field,
    both: &OutputPair,
    hunk: Hunk,
    writer: &mut W,
) -> Result<(), WriteFault>
    ensures { OnOk result (Appends (W.contents writer.old) (W.contents writer.new)
        (printed.change_of hunk field.now both.now.shown.items both.now.came.items)) }
{
    write_change(field, both, hunk, writer)?;
    writer.flush().map_err(|_| WriteFault)?;
    Ok(())
}

/// Tells in words where the output of an answer differs from that of its field.
fn report_change<W: Write>(
    alloc: Global,
    field: &Field,
    came: &Option<Answer>,
    lost: Option<Reason>,
    writer: &mut W,
) -> Result<(), ReportFault>
    ensures ok { OnOk result (Appends (W.contents writer.old) (W.contents writer.new)
        (printed.change_text field.now came.now lost)) }
    ensures err { IfErr result (Unreported (W.contents writer.old) (W.contents writer.new)) }
{
    let Some(both) = outputs_in_memory(alloc, field, came, lost) else {
        return Err(ReportFault::OutOfMemory);
    };
    let Some(hunk) = find_hunk(alloc, both.shown.as_slice(), both.came.as_slice()) else {
        return Err(ReportFault::OutOfMemory);
    };
    match write_in_part(field, &both, hunk, writer) {
        Ok(()) => Ok(()),
        Err(_) => Err(ReportFault::Output),
    }
}

/// Writes in words a field that shows no output, and the one that came, and flushes it.
fn write_added<W: Write>(field: &Field, came: &[u8], writer: &mut W) -> Result<(), WriteFault>
    ensures { OnOk result (Appends (W.contents writer.old) (W.contents writer.new)
        (printed.addition_of field.now came.now)) }
{
    write_addition(field, came, writer)?;
    writer.flush().map_err(|_| WriteFault)?;
    Ok(())
}

/// Tells in words the answer that came to a field which shows none.
fn report_addition<W: Write>(
    alloc: Global,
    field: &Field,
    came: &Option<Answer>,
    lost: Option<Reason>,
    writer: &mut W,
) -> Result<(), ReportFault>
    ensures ok { OnOk result (Appends (W.contents writer.old) (W.contents writer.new)
        (printed.new_text field.now came.now lost)) }
    ensures err { IfErr result (Unreported (W.contents writer.old) (W.contents writer.new)) }
{
    let Some(came) = brief_in_memory(alloc, came, lost) else {
        return Err(ReportFault::OutOfMemory);
    };
    match write_added(field, came.as_slice(), writer) {
        Ok(()) => Ok(()),
        Err(_) => Err(ReportFault::Output),
    }
}

/// Tells a field in words, with whole outputs.
pub(crate) fn report_whole<W: Write>(
    alloc: Global,
    case: &Case<'_>,
    writer: &mut W,
) -> Result<(), ReportFault>
    ensures ok { OnOk result (Appends (W.contents writer.old) (W.contents writer.new)
        (printed.whole_text case.now.field.now case.now.came.now case.now.lost
        case.now.verdict)) }
    ensures err { IfErr result (Unreported (W.contents writer.old) (W.contents writer.new)) }
{
    match case.verdict {
        Verdict::Same | Verdict::LeftOut => Ok(()),
        Verdict::Differs | Verdict::Unanswered => report_difference(
            alloc, case.field, case.came, case.lost, writer,
        ),
        Verdict::New => report_addition(alloc, case.field, case.came, case.lost, writer),
    }
}

/// Tells a field in words.
pub(crate) fn report_words<W: Write>(
    alloc: Global,
    case: &Case<'_>,
    writer: &mut W,
) -> Result<(), ReportFault>
    ensures ok { OnOk result (Appends (W.contents writer.old) (W.contents writer.new)
        (printed.verdict_text case.now.field.now case.now.came.now case.now.lost
        case.now.verdict)) }
    ensures err { IfErr result (Unreported (W.contents writer.old) (W.contents writer.new)) }
{
    match case.verdict {
        Verdict::Same | Verdict::LeftOut => Ok(()),
        Verdict::Differs => report_change(alloc, case.field, case.came, case.lost, writer),
        Verdict::Unanswered => report_difference(alloc, case.field, case.came, case.lost, writer),
        Verdict::New => report_addition(alloc, case.field, case.came, case.lost, writer),
    }
}

/// Tells a field in words, where answers that differ are accepted.
pub(crate) fn report_accepting<W: Write>(
    alloc: Global,
    case: &Case<'_>,
    writer: &mut W,
) -> Result<(), ReportFault>
    ensures ok { OnOk result (Appends (W.contents writer.old) (W.contents writer.new)
        (printed.acceptance_text case.now.field.now case.now.came.now case.now.lost
        case.now.verdict)) }
    ensures err { IfErr result (Unreported (W.contents writer.old) (W.contents writer.new)) }
{
    let Some(reported) = acceptance_in_memory(alloc, case.field, case.came, case.lost, case.verdict)
    else {
        return Err(ReportFault::OutOfMemory);
    };
    match write_and_flush(reported.as_slice(), writer) {
        Ok(()) => Ok(()),
        Err(_) => Err(ReportFault::Output),
    }
}
