//! A worksheet as Markdown.
ghost use Rattle.std.specs.Prelude.{◌≡◌, ◌++◌, ◌∷◌, [], OnOk};
ghost use Rattle.std.specs.Io.KnownBytes.{Appends};
ghost use Rattle.sheet_export.specs.Fences.{fenced_by};
ghost use Rattle.sheet_export.specs.Markdown as markdown;
ghost use Rattle.sheet_text.specs.Escape.{on_lines};
ghost use Rattle.sheet_text.specs.Texts.{in_lines, output_lines};

use crate::fences::{line_fence, output_fence, text_fence, write_fence};
use crate::fixed::write_bytes;
use crate::html::write_reason_name;
use block_tree::Reason;
use sheet_notebook::{formula_after, formula_of, shows_nothing};
use sheet_text::{WriteFault, write_input_lines, write_output as write_lines, write_text};
use std::io::Write;
use worksheet::{Answer, Field, Sheet};

/// Writes the session of a field.
fn write_session<W: Write>(field: &Field, out: &mut W) -> Result<(), WriteFault>
    ensures { OnOk result
        (Appends (W.contents out.old) (W.contents out.new) field.now.session) }
{
    write_bytes(field.session.as_slice(), out)
}

/// Writes the lines of a field's input.
fn write_given<W: Write>(field: &Field, out: &mut W) -> Result<(), WriteFault>
    ensures { OnOk result
        (Appends (W.contents out.old) (W.contents out.new) (markdown.input_code field.now.input)) }
{
    write_input_lines(field.input.as_str(), b"\n", out)
}

/// Writes an input between fences of this length.
fn write_code<W: Write>(length: usize, field: &Field, out: &mut W) -> Result<(), WriteFault>
    ensures { OnOk result
        (Appends (W.contents out.old) (W.contents out.new)
        (fenced_by length field.now.session (markdown.input_code field.now.input ++ 10 ∷ []))) }
{
    write_fence(length, out)?;
    write_session(field, out)?;
    write_bytes(b"\n", out)?;
    write_given(field, out)?;
    write_bytes(b"\n", out)?;
    write_fence(length, out)?;
    write_bytes(b"\n", out)?;
    Ok(())
}

fn write_input<W: Write>(field: &Field, out: &mut W) -> Result<(), WriteFault>
    ensures { OnOk result
        (Appends (W.contents out.old) (W.contents out.new) (markdown.input_markdown field.now)) }
{
    let length = line_fence(field.input.as_bytes())?;
    write_code(length, field, out)?;
    Ok(())
}

/// Writes an output between fences of this length.
#[tactic(auto, using(crate::proofs::Appending::steps))]
fn write_shown<W: Write>(
    length: usize,
    answer: &Option<Answer>,
    lost: Option<Reason>,
    out: &mut W,
) -> Result<(), WriteFault>
    ensures { OnOk result
        (Appends (W.contents out.old) (W.contents out.new)
        (fenced_by length [] (output_lines answer.now lost))) }
{
    write_fence(length, out)?;
    write_bytes(b"\n", out)?;
    write_lines(answer, lost, out)?;
    write_fence(length, out)?;
    write_bytes(b"\n", out)?;
    Ok(())
}

/// Writes a formula on a line.
#[tactic(auto, using(crate::proofs::Appending::steps))]
fn write_formula<W: Write>(formula: &[u8], out: &mut W) -> Result<(), WriteFault>
    ensures { OnOk result
        (Appends (W.contents out.old) (W.contents out.new) (formula.now ++ 10 ∷ [])) }
{
    write_bytes(formula, out)?;
    write_bytes(b"\n", out)?;
    Ok(())
}

/// Writes a text that was printed between fences of this length.
#[tactic(auto, using(crate::proofs::Appending::steps))]
fn write_printed<W: Write>(length: usize, printed: &[u8], out: &mut W) -> Result<(), WriteFault>
    ensures { OnOk result
        (Appends (W.contents out.old) (W.contents out.new)
        (fenced_by length [] (in_lines (on_lines printed.now)))) }
{
    write_fence(length, out)?;
    write_bytes(b"\n", out)?;
    write_text(printed, out)?;
    write_fence(length, out)?;
    write_bytes(b"\n", out)?;
    Ok(())
}

/// Writes a text that was printed, and the formula after it.
#[tactic(auto, using(crate::proofs::Appending::steps))]
fn write_after<W: Write>(printed: &[u8], formula: &[u8], out: &mut W) -> Result<(), WriteFault>
    ensures { OnOk result
        (Appends (W.contents out.old) (W.contents out.new)
        (markdown.printed_markdown printed.now formula.now)) }
{
    let length = text_fence(printed)?;
    write_printed(length, printed, out)?;
    write_bytes(b"\n", out)?;
    write_formula(formula, out)?;
    Ok(())
}

/// Writes why a field lost its line.
fn write_reason<W: Write>(reason: Reason, out: &mut W) -> Result<(), WriteFault>
    ensures { OnOk result
        (Appends (W.contents out.old) (W.contents out.new)
        (markdown.no_answer_markdown (Some reason))) }
{
    write_bytes(b"*no answer: ", out)?;
    write_reason_name(reason, out)?;
    write_bytes(b"*\n", out)?;
    Ok(())
}

/// Writes that there is no answer, with the reason if there is one.
fn write_no_answer<W: Write>(lost: Option<Reason>, out: &mut W) -> Result<(), WriteFault>
    ensures { OnOk result
        (Appends (W.contents out.old) (W.contents out.new) (markdown.no_answer_markdown lost)) }
{
    match lost {
        None => write_bytes(b"*no answer*\n", out),
        Some(reason) => write_reason(reason, out),
    }
}

/// Writes an output, or that there is none.
fn write_output<W: Write>(
    answer: &Option<Answer>,
    lost: Option<Reason>,
    out: &mut W,
) -> Result<(), WriteFault>
    ensures { OnOk result
        (Appends (W.contents out.old) (W.contents out.new)
        (markdown.output_markdown answer.now lost)) }
{
    let Some(given) = answer else {
        return write_no_answer(lost, out);
    };
    if let Some((printed, formula)) = formula_after(&given.output) {
        return write_after(printed, formula, out);
    }
    if let Some(formula) = formula_of(&given.output) {
        return write_formula(formula, out);
    }
    let length = output_fence(&given.output)?;
    write_shown(length, answer, lost, out)
}

/// Whether there is an answer, and it shows nothing.
fn answers_nothing(answer: &Option<Answer>) -> bool
    ensures { result ≡ markdown.answers_nothing answer.now }
{
    match answer {
        None => false,
        Some(given) => shows_nothing(&given.output),
    }
}

/// Writes an output, or that there is none, after an empty line, and nothing where an answer shows nothing.
#[tactic(auto, using(crate::proofs::Appending::steps))]
fn write_outcome<W: Write>(field: &Field, out: &mut W) -> Result<(), WriteFault>
    ensures { OnOk result
        (Appends (W.contents out.old) (W.contents out.new) (markdown.outcome_markdown field.now)) }
{
    if answers_nothing(&field.answer) {
        return Ok(());
    }
    write_bytes(b"\n", out)?;
    write_output(&field.answer, field.lost, out)?;
    Ok(())
}

/// Writes a field.
fn write_field<W: Write>(field: &Field, out: &mut W) -> Result<(), WriteFault>
    ensures { OnOk result
        (Appends (W.contents out.old) (W.contents out.new) (markdown.field_markdown field.now)) }
{
    write_input(field, out)?;
    write_outcome(field, out)?;
    Ok(())
}

/// Writes a field after an empty line.
#[tactic(auto, using(crate::proofs::Appending::steps))]
fn write_next<W: Write>(field: &Field, out: &mut W) -> Result<(), WriteFault>
    ensures { OnOk result
        (Appends (W.contents out.old) (W.contents out.new)
        (10 ∷ markdown.field_markdown field.now)) }
{
    write_bytes(b"\n", out)?;
    write_field(field, out)?;
    Ok(())
}

/// Writes a worksheet as Markdown: for each field its input as code of its session, and its output as
/// code, or as the formula that it is, with the text that was printed in front of it, or a note that there is none.
/// An output that shows nothing is left out.
///
/// After a `WriteFault` a part of the text may have gone out.
#[tactic(auto, using(crate::proofs::FieldsAfter::markdown_steps))]
pub fn markdown_text<W: Write>(sheet: &Sheet, out: &mut W) -> Result<(), WriteFault>
    ensures { OnOk result
        (Appends (W.contents out.old) (W.contents out.new) (markdown.markdown sheet.now.contents)) }
{
    let mut fields = sheet.fields();
    let Some(first) = fields.next() else {
        return Ok(());
    };
    write_field(first, out)?;
    while let Some(field) = fields.next() {
        write_next(field, out)?;
    }
    Ok(())
}
