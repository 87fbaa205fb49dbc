//! Worksheets as they are printed.
ghost use Rattle.std.specs.Prelude.{OnOk};
ghost use Rattle.std.specs.Io.KnownBytes.{Appends};
ghost use Rattle.sheet_text.specs.Escape.{on_line, on_lines};
ghost use Rattle.sheet_text.specs.Texts as printed;

use crate::blocks::block_text;
use crate::ends::{ends_line, text_ends_line};
use crate::escape::{write_line, write_lines};
use crate::fault::WriteFault;
use crate::inputs::write_input_lines;
use crate::replies::reason_name;
use block_tree::Reason;
use std::io::Write;
use worksheet::{Answer, Field, Sheet};

/// Writes `#`, the number of a field and its session.
///
/// After a `WriteFault` a part of the text may have gone out, as of each of these calls.
#[tactic(auto, using(crate::proofs::Appending::steps))]
pub fn write_number<W: Write>(field: &Field, out: &mut W) -> Result<(), WriteFault>
    ensures { OnOk result
        (Appends (W.contents out.old) (W.contents out.new) (printed.number_line field.now)) }
{
    write!(out, "#{} ", field.id).map_err(|_| WriteFault)?;
    out.write_all(field.session.as_slice())
        .map_err(|_| WriteFault)?;
    out.write_all(b"\n").map_err(|_| WriteFault)?;
    Ok(())
}

/// Writes the prompt of an answer, or `> ` where there is none.
fn write_prompt<W: Write>(answer: &Option<Answer>, out: &mut W) -> Result<(), WriteFault>
    ensures { OnOk result
        (Appends (W.contents out.old) (W.contents out.new)
        (on_line (printed.prompt_shown answer.now))) }
{
    match answer {
        None => write_line(b"> ", out),
        Some(answer) => write_line(answer.prompt.as_slice(), out),
    }
}

/// Writes the prompt and the input of a field, each further line of it after `. `.
#[tactic(auto, using(crate::proofs::Appending::steps))]
pub fn write_input<W: Write>(field: &Field, out: &mut W) -> Result<(), WriteFault>
    ensures { OnOk result
        (Appends (W.contents out.old) (W.contents out.new) (printed.input_line field.now)) }
{
    write_prompt(&field.answer, out)?;
    write_input_lines(field.input.as_str(), b"\n. ", out)?;
    out.write_all(b"\n").map_err(|_| WriteFault)?;
    Ok(())
}

/// Writes `?`, and the reason why there is no answer, if there is one.
#[tactic(auto, using(crate::proofs::Appending::steps))]
pub fn write_no_answer<W: Write>(lost: Option<Reason>, out: &mut W) -> Result<(), WriteFault>
    ensures { OnOk result
        (Appends (W.contents out.old) (W.contents out.new) (printed.no_answer_line lost)) }
{
    match lost {
        None => out.write_all(b"?\n").map_err(|_| WriteFault),
        Some(reason) => writeln!(out, "? {}", reason_name(reason)).map_err(|_| WriteFault),
    }
}

/// Writes an output in whole lines, or `?` where there is none, with the reason after it if it has one.
#[tactic(auto, using(crate::proofs::Appending::steps))]
pub fn write_output<W: Write>(
    answer: &Option<Answer>,
    lost: Option<Reason>,
    out: &mut W,
) -> Result<(), WriteFault>
    ensures { OnOk result
        (Appends (W.contents out.old) (W.contents out.new) (printed.output_lines answer.now lost)) }
{
    let Some(answer) = answer else {
        return write_no_answer(lost, out);
    };
    block_text(&answer.output, out)?;
    if !ends_line(&answer.output) {
        out.write_all(b"\n").map_err(|_| WriteFault)?;
    }
    Ok(())
}

/// Writes a text of an output in whole lines, as `write_output` writes an output.
#[tactic(auto, using(crate::proofs::Appending::steps))]
pub fn write_text<W: Write>(text: &[u8], out: &mut W) -> Result<(), WriteFault>
    ensures { OnOk result
        (Appends (W.contents out.old) (W.contents out.new)
        (printed.in_lines (on_lines text.now))) }
{
    write_lines(text, out)?;
    if !text_ends_line(text) {
        out.write_all(b"\n").map_err(|_| WriteFault)?;
    }
    Ok(())
}

/// Writes one field, as `sheet_text` does.
///
/// After a `WriteFault` a part of the text may have gone out.
#[tactic(auto, using(crate::proofs::Appending::steps))]
pub fn field_text<W: Write>(field: &Field, out: &mut W) -> Result<(), WriteFault>
    ensures { OnOk result
        (Appends (W.contents out.old) (W.contents out.new) (printed.field_text field.now)) }
{
    write_number(field, out)?;
    write_input(field, out)?;
    write_output(&field.answer, field.lost, out)?;
    Ok(())
}

/// Writes a worksheet: for each field in order `#`, its number and its session; its prompt and its
/// input; and its output, or `?` where it has none, with the reason after it if it has one. An output that is `?`, or `? `
/// and a reason's name, looks the same; `Sheet::field` tells them apart. An empty worksheet has no line.
///
/// After a `WriteFault` a part of the text may have gone out.
#[tactic(auto, using(crate::proofs::Fields::field_steps))]
pub fn sheet_text<W: Write>(sheet: &Sheet, out: &mut W) -> Result<(), WriteFault>
    ensures { OnOk result
        (Appends (W.contents out.old) (W.contents out.new)
        (printed.sheet_text sheet.now.contents)) }
{
    let mut fields = sheet.fields();
    while let Some(field) = fields.next() {
        field_text(field, out)?;
    }
    Ok(())
}
