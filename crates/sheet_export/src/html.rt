//! The page of a worksheet.
ghost use Rattle.std.specs.Prelude.{◌≡◌, ◌++◌, ◌∷◌, [], OnOk, false};
ghost use Rattle.std.specs.Io.KnownBytes.{Appends};
ghost use Rattle.block_tree.specs.View.{tree_of};
ghost use Rattle.sheet_text.specs.Blocks.{sign};
ghost use Rattle.sheet_text.specs.Replies.{reason_name as reason_text};
ghost use Rattle.sheet_text.specs.Texts as printed;
ghost use Rattle.sheet_export.specs.References.{html_text};
ghost use Rattle.std.specs.Fmt.{decimal};
ghost use Rattle.sheet_export.specs.Html as html;

use crate::fixed;
use crate::fixed::write_bytes;
use crate::pictures::write_picture;
use crate::references::write_text;
use crate::style::STYLE;
use block_tree::{Block, Item, Node, Reason, Tag};
use sheet_notebook::{is_error_tag, is_output_tag, picture_text, shows_nothing};
use sheet_text::{WriteFault, is_bare_tag, next_line, reason_name};
use std::io::Write;
use worksheet::{Answer, Field, Sheet};

/// Writes a tag, after its brace.
#[tactic(auto, using(crate::proofs::Appending::steps))]
fn open_tag<W: Write>(tag: &Tag, out: &mut W) -> Result<(), WriteFault>
    ensures { OnOk result
        (Appends (W.contents out.old) (W.contents out.new)
        (123 ∷ (html_text false tag.now.name ++ sign tag.now.channel ∷ []))) }
{
    write_bytes(b"{", out)?;
    write_text(tag.name.as_slice(), false, out)?;
    if tag.channel {
        write_bytes(b"#", out)
    } else {
        write_bytes(b":", out)
    }
}

/// Whether a block of this tag is of the format `latex`.
fn is_tex_tag(tag: &Tag) -> bool
    ensures { result ≡ html.is_tex tag.now.channel tag.now.name }
{
    !tag.channel && tag.name.as_slice() == b"latex".as_slice()
}

/// Writes what stands in front of what a block holds: the beginning of a span, or a brace and the tag.
fn open_block<W: Write>(tag: &Tag, in_output: bool, out: &mut W) -> Result<(), WriteFault>
    ensures { OnOk result
        (Appends (W.contents out.old) (W.contents out.new)
        (html.block_start in_output tag.now.channel tag.now.name)) }
{
    if is_error_tag(tag, in_output) {
        write_bytes(fixed::ERROR_START, out)
    } else if is_tex_tag(tag) {
        write_bytes(fixed::TEX_START, out)
    } else {
        open_tag(tag, out)
    }
}

/// Writes what comes after it: the end of the span, or a brace.
fn close_block<W: Write>(tag: &Tag, in_output: bool, out: &mut W) -> Result<(), WriteFault>
    ensures { OnOk result
        (Appends (W.contents out.old) (W.contents out.new)
        (html.block_end in_output tag.now.channel tag.now.name)) }
{
    if is_error_tag(tag, in_output) {
        write_bytes(fixed::ERROR_END, out)
    } else if is_tex_tag(tag) {
        write_bytes(fixed::TEX_END, out)
    } else {
        write_bytes(b"}", out)
    }
}

/// Whether a block of this tag is shown without one, and is no error.
fn is_unmarked_tag(tag: &Tag, in_output: bool) -> bool
    ensures { result ≡ html.is_unmarked in_output tag.now.channel tag.now.name }
{
    is_bare_tag(tag) && !is_error_tag(tag, in_output)
}

/// Writes a block, which stands in one of the channel of answers or not.
#[tactic(auto, using(crate::proofs::Appending::block_steps))]
fn write_shown<W: Write>(node: &Node, in_output: bool, out: &mut W) -> Result<(), WriteFault>
    ensures { OnOk result
        (Appends (W.contents out.old) (W.contents out.new)
        (html.block_html in_output (tree_of node.now))) }
{
    if let Some(text) = picture_text(node) {
        return write_picture(node.tag.name.as_slice(), text, out);
    }
    let is_output = is_output_tag(&node.tag);
    let unmarked = is_unmarked_tag(&node.tag, in_output);
    if !unmarked {
        open_block(&node.tag, in_output, out)?;
    }
    for item in &node.items {
        match item {
            Item::Text(text) => write_text(text.as_slice(), true, out)?,
            Item::Block(inner) => write_shown(inner, is_output, out)?,
        }
    }
    if !unmarked {
        close_block(&node.tag, in_output, out)?;
    }
    Ok(())
}

fn write_number<W: Write>(number: u32, out: &mut W) -> Result<(), WriteFault>
    ensures { OnOk result (Appends (W.contents out.old) (W.contents out.new) (decimal number)) }
{
    write!(out, "{}", number).map_err(|_| WriteFault)
}

/// Writes the session of a field.
fn write_session<W: Write>(field: &Field, out: &mut W) -> Result<(), WriteFault>
    ensures { OnOk result
        (Appends (W.contents out.old) (W.contents out.new) (html_text false field.now.session)) }
{
    write_text(field.session.as_slice(), false, out)
}

/// Writes the lines of an input.
fn write_lines<W: Write>(input: &str, out: &mut W) -> Result<(), WriteFault>
    ensures { OnOk result
        (Appends (W.contents out.old) (W.contents out.new) (html.lines_html input.now)) }
{
    let (first, mut following) = next_line(input);
    write_text(first.as_bytes(), false, out)?;
    while let Some(rest) = following {
        write_bytes(b"\n", out)?;
        let (line, others) = next_line(rest);
        write_text(line.as_bytes(), false, out)?;
        following = others;
    }
    Ok(())
}

/// Writes the lines of a field's input.
fn write_given<W: Write>(field: &Field, out: &mut W) -> Result<(), WriteFault>
    ensures { OnOk result
        (Appends (W.contents out.old) (W.contents out.new) (html.lines_html field.now.input)) }
{
    write_lines(field.input.as_str(), out)
}

/// Writes a block as a worksheet shows it.
fn write_block<W: Write>(block: &Block, out: &mut W) -> Result<(), WriteFault>
    ensures { OnOk result
        (Appends (W.contents out.old) (W.contents out.new)
        (html.block_html false block.now)) }
{
    write_shown(block.node(), false, out)
}

/// Writes the anchor of a field, its number and its session.
fn write_head<W: Write>(field: &Field, out: &mut W) -> Result<(), WriteFault>
    ensures { OnOk result
        (Appends (W.contents out.old) (W.contents out.new) (html.field_head field.now)) }
{
    write_bytes(fixed::FIELD_START, out)?;
    write_number(field.id, out)?;
    write_bytes(fixed::ANCHOR_END, out)?;
    write_number(field.id, out)?;
    write_bytes(fixed::LINK_END, out)?;
    write_number(field.id, out)?;
    write_bytes(fixed::NUMBER_END, out)?;
    write_session(field, out)?;
    write_bytes(fixed::SESSION_END, out)?;
    Ok(())
}

/// Writes the prompt of an answer, or `> ` where there is none.
fn write_prompt<W: Write>(answer: &Option<Answer>, out: &mut W) -> Result<(), WriteFault>
    ensures { OnOk result
        (Appends (W.contents out.old) (W.contents out.new)
        (html_text false (printed.prompt_shown answer.now))) }
{
    match answer {
        None => write_text(b"> ", false, out),
        Some(answer) => write_text(answer.prompt.as_slice(), false, out),
    }
}

/// Writes the prompt and the input of a field.
fn write_input<W: Write>(field: &Field, out: &mut W) -> Result<(), WriteFault>
    ensures { OnOk result
        (Appends (W.contents out.old) (W.contents out.new) (html.input_html field.now)) }
{
    write_bytes(fixed::INPUT_START, out)?;
    write_prompt(&field.answer, out)?;
    write_bytes(fixed::PROMPT_END, out)?;
    write_given(field, out)?;
    write_bytes(fixed::INPUT_END, out)?;
    Ok(())
}

/// Writes an output in its element.
fn write_element<W: Write>(output: &Block, out: &mut W) -> Result<(), WriteFault>
    ensures { OnOk result
        (Appends (W.contents out.old) (W.contents out.new) (html.element_html output.now)) }
{
    write_bytes(fixed::OUTPUT_START, out)?;
    write_block(output, out)?;
    write_bytes(fixed::OUTPUT_END, out)?;
    Ok(())
}

/// Writes an output, if it shows something.
#[tactic(auto, using(crate::proofs::Appending::steps))]
fn write_answer<W: Write>(answer: &Answer, out: &mut W) -> Result<(), WriteFault>
    ensures { OnOk result
        (Appends (W.contents out.old) (W.contents out.new) (html.answer_html answer.now)) }
{
    if shows_nothing(&answer.output) {
        return Ok(());
    }
    write_element(&answer.output, out)
}

/// Writes the name of a reason.
pub(crate) fn write_reason_name<W: Write>(reason: Reason, out: &mut W) -> Result<(), WriteFault>
    ensures { OnOk result (Appends (W.contents out.old) (W.contents out.new) (reason_text reason)) }
{
    write_bytes(reason_name(reason).as_bytes(), out)
}

/// Writes why a field lost its line.
fn write_reason<W: Write>(reason: Reason, out: &mut W) -> Result<(), WriteFault>
    ensures { OnOk result
        (Appends (W.contents out.old) (W.contents out.new) (html.reason_html reason)) }
{
    write_bytes(fixed::LOST_START, out)?;
    write_reason_name(reason, out)?;
    write_bytes(fixed::LOST_END, out)?;
    Ok(())
}

/// Writes that there is no answer, with the reason if there is one.
fn write_no_answer<W: Write>(lost: Option<Reason>, out: &mut W) -> Result<(), WriteFault>
    ensures { OnOk result
        (Appends (W.contents out.old) (W.contents out.new) (html.no_answer_html lost)) }
{
    match lost {
        None => write_bytes(fixed::NO_ANSWER, out),
        Some(reason) => write_reason(reason, out),
    }
}

/// Writes an output, or a mark that there is no answer.
fn write_output<W: Write>(
    answer: &Option<Answer>,
    lost: Option<Reason>,
    out: &mut W,
) -> Result<(), WriteFault>
    ensures { OnOk result
        (Appends (W.contents out.old) (W.contents out.new) (html.output_html answer.now lost)) }
{
    match answer {
        None => write_no_answer(lost, out),
        Some(answer) => write_answer(answer, out),
    }
}

fn write_field<W: Write>(field: &Field, out: &mut W) -> Result<(), WriteFault>
    ensures { OnOk result
        (Appends (W.contents out.old) (W.contents out.new) (html.field_html field.now)) }
{
    write_head(field, out)?;
    write_input(field, out)?;
    write_output(&field.answer, field.lost, out)?;
    write_bytes(fixed::FIELD_END, out)?;
    Ok(())
}

/// Writes the fields in order.
#[tactic(auto, using(crate::proofs::Fields::field_steps))]
fn write_fields<W: Write>(sheet: &Sheet, out: &mut W) -> Result<(), WriteFault>
    ensures { OnOk result
        (Appends (W.contents out.old) (W.contents out.new)
        (html.fields_html sheet.now.contents)) }
{
    let mut fields = sheet.fields();
    while let Some(field) = fields.next() {
        write_field(field, out)?;
    }
    Ok(())
}

/// Writes what stands in front of the first field.
fn write_page_head<W: Write>(title: &[u8], out: &mut W) -> Result<(), WriteFault>
    ensures { OnOk result
        (Appends (W.contents out.old) (W.contents out.new) (html.page_head title.now)) }
{
    write_bytes(fixed::META, out)?;
    write_text(title, false, out)?;
    write_bytes(fixed::TITLE_END, out)?;
    write_bytes(STYLE, out)?;
    write_bytes(fixed::STYLE_END, out)?;
    write_text(title, false, out)?;
    write_bytes(fixed::HEADING_END, out)?;
    Ok(())
}

/// Writes a worksheet as a page that stands alone, with this title.
///
/// After a `WriteFault` a part of the page may have gone out.
pub fn html_page<W: Write>(title: &[u8], sheet: &Sheet, out: &mut W) -> Result<(), WriteFault>
    ensures { OnOk result
        (Appends (W.contents out.old) (W.contents out.new)
        (html.page title.now sheet.now.contents)) }
{
    write_page_head(title, out)?;
    write_fields(sheet, out)?;
    write_bytes(fixed::PAGE_END, out)?;
    Ok(())
}
