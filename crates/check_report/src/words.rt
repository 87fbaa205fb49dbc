//! A report in words.
ghost use Rattle.std.specs.Prelude.{◌≡◌, ◌++◌, IfSome, OnOk, codes};
ghost use Rattle.std.specs.Io.KnownBytes.{Appends};
ghost use Rattle.check_report.specs.Brief.{brief_lines};
ghost use Rattle.check_report.specs.Words as printed;

use crate::brief::brief_in_memory;
use crate::hunks::{Hunk, find_hunk, write_hunk};
use crate::verdict::{Verdict, VerdictCounts};
use crate::writing::write_bytes;
use block_tree::Reason;
use bstr::ByteSlice;
use sheet_text::{WriteFault, write_input, write_number};
use std::alloc::Global;
use std::io::Write;
use worksheet::{Answer, Field};

/// The two outputs of a difference in memory: the one that a field shows, and the one that came.
#[derive(Drop)]
pub(crate) struct OutputPair {
    pub(crate) shown: Vec<u8>,
    pub(crate) came: Vec<u8>,
}

/// Both outputs. None where there is no memory for them.
pub(crate) fn outputs_in_memory(
    alloc: Global,
    field: &Field,
    came: &Option<Answer>,
    lost: Option<Reason>,
) -> Option<OutputPair>
    ensures shown { IfSome result (λ both. both.shown.items ≡ brief_lines field.now.answer field.now.lost) }
    ensures came { IfSome result (λ both. both.came.items ≡ brief_lines came.now lost) }
{
    let Some(shown) = brief_in_memory(alloc, &field.answer, field.lost) else {
        return None;
    };
    match brief_in_memory(alloc, came, lost) {
        Some(came) => Some(OutputPair { shown, came }),
        None => None,
    }
}

/// Writes each line of a text with a mark in front.
#[tactic(auto, using(crate::proofs::Marking::mark_steps))]
fn write_marked<W: Write>(mark: &[u8], text: &[u8], writer: &mut W) -> Result<(), WriteFault>
    ensures { OnOk result
        (Appends (W.contents writer.old) (W.contents writer.new)
        (printed.marked mark.now text.now)) }
{
    let mut lines = text.lines_with_terminator();
    while let Some(line) = lines.next() {
        writer.write_all(mark).map_err(|_| WriteFault)?;
        writer.write_all(line).map_err(|_| WriteFault)?;
    }
    Ok(())
}

/// Writes the lines of a field, and those of the two outputs with their marks.
pub(crate) fn write_difference<W: Write>(
    field: &Field,
    shown: &[u8],
    came: &[u8],
    writer: &mut W,
) -> Result<(), WriteFault>
    ensures { OnOk result
        (Appends (W.contents writer.old) (W.contents writer.new)
        (printed.difference_of field.now shown.now came.now)) }
{
    write_number(field, writer)?;
    write_input(field, writer)?;
    write_marked(b"- ", shown, writer)?;
    write_marked(b"+ ", came, writer)?;
    Ok(())
}

/// Writes the line that says that two outputs are the same in print.
fn write_alike<W: Write>(writer: &mut W) -> Result<(), WriteFault>
    ensures { OnOk result (Appends (W.contents writer.old) (W.contents writer.new)
        (codes "= the same in print\n")) }
{
    write_bytes(b"= the same in print\n", writer)
}

/// Writes how the lines of an output became those of another, by their hunk.
fn write_changed<W: Write>(
    hunk: Hunk,
    shown: &[u8],
    came: &[u8],
    writer: &mut W,
) -> Result<(), WriteFault>
    ensures { OnOk result (Appends (W.contents writer.old) (W.contents writer.new)
        (printed.changed_lines hunk shown.now came.now)) }
{
    if shown == came {
        write_alike(writer)
    } else {
        write_hunk(hunk, shown, came, writer)
    }
}

/// Writes the lines of a field, and how its output became the one that came, by their hunk.
pub(crate) fn write_change<W: Write>(
    field: &Field,
    both: &OutputPair,
    hunk: Hunk,
    writer: &mut W,
) -> Result<(), WriteFault>
    ensures { OnOk result (Appends (W.contents writer.old) (W.contents writer.new)
        (printed.change_of hunk field.now both.now.shown.items both.now.came.items)) }
{
    write_number(field, writer)?;
    write_input(field, writer)?;
    write_changed(hunk, both.shown.as_slice(), both.came.as_slice(), writer)?;
    Ok(())
}

/// Where the output of an answer differs from that of its field, in memory.
fn change_in_memory(
    alloc: Global,
    field: &Field,
    came: &Option<Answer>,
    lost: Option<Reason>,
) -> Option<Vec<u8>>
    ensures { IfSome result (λ text. text.items ≡ printed.change_text field.now came.now lost) }
{
    let Some(both) = outputs_in_memory(alloc, field, came, lost) else {
        return None;
    };
    let Some(hunk) = find_hunk(alloc, both.shown.as_slice(), both.came.as_slice()) else {
        return None;
    };
    let mut text = Vec::new(alloc);
    match write_change(field, &both, hunk, &mut text) {
        Ok(()) => Some(text),
        Err(_) => None,
    }
}

/// How an answer differs from that of its field, or that none came, in memory.
fn difference_in_memory(
    alloc: Global,
    field: &Field,
    came: &Option<Answer>,
    lost: Option<Reason>,
) -> Option<Vec<u8>>
    ensures { IfSome result (λ text. text.items ≡ printed.difference_text field.now came.now lost) }
{
    let Some(both) = outputs_in_memory(alloc, field, came, lost) else {
        return None;
    };
    let mut text = Vec::new(alloc);
    match write_difference(
        field,
        both.shown.as_slice(),
        both.came.as_slice(),
        &mut text,
    ) {
        Ok(()) => Some(text),
        Err(_) => None,
    }
}

/// Writes a field that shows no output, and the one that came.
pub(crate) fn write_addition<W: Write>(
    field: &Field,
    came: &[u8],
    writer: &mut W,
) -> Result<(), WriteFault>
    ensures { OnOk result (Appends (W.contents writer.old) (W.contents writer.new)
        (printed.addition_of field.now came.now)) }
{
    write_number(field, writer)?;
    write_input(field, writer)?;
    write_marked(b"+ ", came, writer)?;
    Ok(())
}

/// The same in memory.
fn addition_in_memory(
    alloc: Global,
    field: &Field,
    came: &Option<Answer>,
    lost: Option<Reason>,
) -> Option<Vec<u8>>
    ensures { IfSome result (λ text. text.items ≡ printed.new_text field.now came.now lost) }
{
    let Some(came) = brief_in_memory(alloc, came, lost) else {
        return None;
    };
    let mut text = Vec::new(alloc);
    match write_addition(field, came.as_slice(), &mut text) {
        Ok(()) => Some(text),
        Err(_) => None,
    }
}

/// What is written of a field that came to this, in memory. None where there is none for it.
pub(crate) fn verdict_in_memory(
    alloc: Global,
    field: &Field,
    came: &Option<Answer>,
    lost: Option<Reason>,
    verdict: Verdict,
) -> Option<Vec<u8>>
    ensures { IfSome result (λ text. text.items
        ≡ printed.verdict_text field.now came.now lost verdict) }
{
    match verdict {
        Verdict::Same | Verdict::LeftOut => Some(Vec::new(alloc)),
        Verdict::Differs => change_in_memory(alloc, field, came, lost),
        Verdict::Unanswered => difference_in_memory(alloc, field, came, lost),
        Verdict::New => addition_in_memory(alloc, field, came, lost),
    }
}

/// Writes that the answer which came to a field is accepted.
fn write_accepted<W: Write>(id: u32, writer: &mut W) -> Result<(), WriteFault>
    ensures { OnOk result (Appends (W.contents writer.old) (W.contents writer.new)
        (printed.accepted_line id)) }
{
    write!(writer, "accepted {id}\n").map_err(|_| WriteFault)
}

/// A text with the line after it that says that the answer which came to a field is accepted.
fn with_accepted(text: Vec<u8>, id: u32) -> Option<Vec<u8>>
    ensures { IfSome result (λ whole. whole.items ≡ text.items ++ printed.accepted_line id) }
{
    let mut text = text;
    match write_accepted(id, &mut text) {
        Ok(()) => Some(text),
        Err(_) => None,
    }
}

/// What is written of a field that came to this, where answers that differ are accepted, in memory.
/// None where there is none for it.
pub fn acceptance_in_memory(
    alloc: Global,
    field: &Field,
    came: &Option<Answer>,
    lost: Option<Reason>,
    verdict: Verdict,
) -> Option<Vec<u8>>
    ensures { IfSome result (λ text. text.items
        ≡ printed.acceptance_text field.now came.now lost verdict) }
{
    match verdict {
        Verdict::Same | Verdict::LeftOut => Some(Vec::new(alloc)),
        Verdict::Unanswered => difference_in_memory(alloc, field, came, lost),
        Verdict::Differs => match change_in_memory(alloc, field, came, lost) {
            Some(text) => with_accepted(text, field.id),
            None => None,
        },
        Verdict::New => match addition_in_memory(alloc, field, came, lost) {
            Some(text) => with_accepted(text, field.id),
            None => None,
        },
    }
}

/// Writes how many were left out, where some were.
fn write_left_out<W: Write>(left_out: u32, writer: &mut W) -> Result<(), WriteFault>
    ensures { OnOk result (Appends (W.contents writer.old) (W.contents writer.new)
        (printed.left_out_part left_out)) }
{
    match left_out {
        0 => Ok(()),
        _ => write!(writer, " left out {left_out}").map_err(|_| WriteFault),
    }
}

/// Writes how many answers are errors, where some are.
fn write_errors<W: Write>(errors: u32, writer: &mut W) -> Result<(), WriteFault>
    ensures { OnOk result (Appends (W.contents writer.old) (W.contents writer.new)
        (printed.errors_part errors)) }
{
    if errors == 0 {
        return Ok(());
    }
    write!(writer, " errors {errors}").map_err(|_| WriteFault)
}

/// Writes how many answers came to fields that show none, where some did.
fn write_new<W: Write>(new: u32, writer: &mut W) -> Result<(), WriteFault>
    ensures { OnOk result (Appends (W.contents writer.old) (W.contents writer.new)
        (printed.new_part new)) }
{
    if new == 0 {
        return Ok(());
    }
    write!(writer, " new {new}").map_err(|_| WriteFault)
}

/// Writes how many were compared, by what they came to.
fn write_compared<W: Write>(counts: VerdictCounts, writer: &mut W) -> Result<(), WriteFault>
    ensures { OnOk result (Appends (W.contents writer.old) (W.contents writer.new)
        (printed.compared_part counts)) }
{
    let VerdictCounts {
        same,
        differ,
        unanswered,
        left_out: _,
        errors: _,
        new: _,
    } = counts;
    write!(
        writer,
        "same {same} differ {differ} unanswered {unanswered}"
    )
    .map_err(|_| WriteFault)
}

/// Writes how many were compared, by what they came to, where those that differ were accepted.
fn write_accepted_part<W: Write>(counts: VerdictCounts, writer: &mut W) -> Result<(), WriteFault>
    ensures { OnOk result (Appends (W.contents writer.old) (W.contents writer.new)
        (printed.accepted_part counts)) }
{
    let VerdictCounts {
        same,
        differ,
        unanswered,
        left_out: _,
        errors: _,
        new: _,
    } = counts;
    write!(
        writer,
        "same {same} accepted {differ} unanswered {unanswered}"
    )
    .map_err(|_| WriteFault)
}

/// Writes the counts, where those that differ were accepted.
#[tactic(auto, using(crate::proofs::Written::steps))]
pub(crate) fn write_accepted_counts<W: Write>(
    counts: VerdictCounts,
    writer: &mut W,
) -> Result<(), WriteFault>
    ensures { OnOk result (Appends (W.contents writer.old) (W.contents writer.new)
        (printed.accepted_counts_text counts)) }
{
    write_accepted_part(counts, writer)?;
    write_left_out(counts.left_out, writer)?;
    write_errors(counts.errors, writer)?;
    write_new(counts.new, writer)?;
    write_bytes(b"\n", writer)?;
    Ok(())
}

/// Writes the counts.
#[tactic(auto, using(crate::proofs::Written::steps))]
pub(crate) fn write_counts<W: Write>(
    counts: VerdictCounts,
    writer: &mut W,
) -> Result<(), WriteFault>
    ensures { OnOk result (Appends (W.contents writer.old) (W.contents writer.new)
        (printed.counts_text counts)) }
{
    write_compared(counts, writer)?;
    write_left_out(counts.left_out, writer)?;
    write_errors(counts.errors, writer)?;
    write_new(counts.new, writer)?;
    write_bytes(b"\n", writer)?;
    Ok(())
}
