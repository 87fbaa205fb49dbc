//! In words.
ghost use Rattle.std.specs.Prelude.{◌≡◌, ◌++◌, ◌∷◌, [], ℕ, IfErr, OnOk};
ghost use Rattle.std.specs.Option.{option_copied};
ghost use Rattle.std.specs.Io.KnownBytes.{Appends};
ghost use Rattle.worksheet.specs.Checks.{field_in};
ghost use Rattle.offline_programs.specs.Memory.{replies_text};
ghost use Rattle.sheet_text.specs.Texts as texts;
ghost use Rattle.tellings.specs.Voice.{numbered_text};
ghost use Rattle.tellings.specs.Words.{answers_text, errors_text, evaluation_text, field_shown, in_words, interrupt_text, over_line, overs_text, undone_line};
ghost use Rattle.worksheet.specs.Contents.{Contents};

use crate::exports::tell_words;
use crate::{Boundary, Counts, Note, Overs, Tells};
use child_edge::Interrupted;
use disk_model::Disk;
use host_events::{Outcome, Reply};
use offline_programs::{RunFault, tell_bad_line, tell_replies, tell_sheet};
use session_engine::Host;
use sheet_export::Format;
use sheet_text::{field_text, reply_text};
use std::io::Write;
use worksheet::{Field, Name, Refusal, Sheet};

/// Words that people read. Nothing is taken of memory.
#[derive(Clone, Copy, Debug)]
pub struct InWords;

/// Writes one field, or that there is none.
fn show_field<W: Write>(field: Option<&Field>, writer: &mut W) -> Result<(), RunFault>
    ensures ok { OnOk result (Appends (W.contents writer.old) (W.contents writer.new)
        (field_shown (option_copied field.entry))) }
    ensures err { IfErr result (λ fault. fault ≡ RunFault.Output) }
{
    match field {
        Some(field) => field_text(field, writer).map_err(|_| RunFault::Output),
        None => reply_text(&Reply::Refused(Refusal::NoField), writer).map_err(|_| RunFault::Output),
    }
}

/// Writes the field with this number, or that there is none, and flushes it.
fn tell_field<W: Write>(sheet: &Sheet, id: u32, writer: &mut W) -> Result<(), RunFault>
    ensures ok { OnOk result (Appends (W.contents writer.old) (W.contents writer.new)
        (field_shown (field_in sheet.now.contents.fields id))) }
    ensures err { IfErr result (λ fault. fault ≡ RunFault.Output) }
{
    show_field(sheet.field(id), writer)?;
    writer.flush().map_err(|_| RunFault::Output)?;
    Ok(())
}

/// Writes the reply of an outcome.
fn write_outcome<W: Write>(outcome: &Outcome, writer: &mut W) -> Result<(), RunFault>
    ensures ok { OnOk result (Appends (W.contents writer.old) (W.contents writer.new)
        (texts.reply_text outcome.now.reply)) }
    ensures err { IfErr result (λ fault. fault ≡ RunFault.Output) }
{
    reply_text(&outcome.reply, writer).map_err(|_| RunFault::Output)
}

/// Writes the replies of outcomes, and flushes them.
fn tell_outcomes<W: Write>(outcomes: &[Outcome], writer: &mut W) -> Result<(), RunFault>
    ensures ok { (line : ℕ) (sheet : Contents)
        → OnOk result (Appends (W.contents writer.old) (W.contents writer.new)
        (numbered_text in_words line sheet outcomes.now)) }
    ensures err { IfErr result (λ fault. fault ≡ RunFault.Output) }
{
    for outcome in outcomes {
        write_outcome(outcome, writer)?;
    }
    writer.flush().map_err(|_| RunFault::Output)?;
    Ok(())
}

/// Writes what came of a life.
fn write_event<W: Write>(reply: &Reply, writer: &mut W) -> Result<(), RunFault>
    ensures ok { OnOk result (Appends (W.contents writer.old) (W.contents writer.new)
        (texts.reply_text reply.now)) }
    ensures err { IfErr result (λ fault. fault ≡ RunFault.Output) }
{
    reply_text(reply, writer).map_err(|_| RunFault::Output)
}

/// Writes what came of lives, in order.
fn write_events<W: Write>(replies: &[Reply], writer: &mut W) -> Result<(), RunFault>
    ensures ok { OnOk result (Appends (W.contents writer.old) (W.contents writer.new)
        (replies_text replies.now)) }
    ensures err { IfErr result (λ fault. fault ≡ RunFault.Output) }
{
    for reply in replies {
        write_event(reply, writer)?;
    }
    Ok(())
}

/// Writes a line of a word, with the space after it, and a session's name.
///
/// `Output` where the writer fails: a part of the line may have gone out.
pub fn write_named<W: Write>(word: &[u8], name: Name, writer: &mut W) -> Result<(), RunFault>
    ensures ok { OnOk result (Appends (W.contents writer.old) (W.contents writer.new)
        (word.now ++ name ++ 10 ∷ [])) }
    ensures err { IfErr result (λ fault. fault ≡ RunFault.Output) }
{
    writer.write_all(word).map_err(|_| RunFault::Output)?;
    writer
        .write_all(name.as_slice())
        .map_err(|_| RunFault::Output)?;
    writer.write_all(b"\n").map_err(|_| RunFault::Output)?;
    Ok(())
}

/// Writes what came of the wish to interrupt the interpreter of this session.
fn show_interrupt<W: Write>(
    name: Name,
    reported: Interrupted,
    writer: &mut W,
) -> Result<(), RunFault>
    ensures ok { OnOk result (Appends (W.contents writer.old) (W.contents writer.new)
        (interrupt_text name reported)) }
    ensures err { IfErr result (λ fault. fault ≡ RunFault.Output) }
{
    match reported {
        Interrupted::NoSession => reply_text(&Reply::Refused(Refusal::NoSession), writer).map_err(
            |_| RunFault::Output,
        ),
        Interrupted::Idle => write_named(b"idle ", name, writer),
        Interrupted::Sent => write_named(b"interrupted ", name, writer),
        Interrupted::Failed => write_named(b"failed ", name, writer),
    }
}

/// The same, and flushes it.
fn tell_interrupt<W: Write>(
    name: Name,
    reported: Interrupted,
    writer: &mut W,
) -> Result<(), RunFault>
    ensures ok { OnOk result (Appends (W.contents writer.old) (W.contents writer.new)
        (interrupt_text name reported)) }
    ensures err { IfErr result (λ fault. fault ≡ RunFault.Output) }
{
    show_interrupt(name, reported, writer)?;
    writer.flush().map_err(|_| RunFault::Output)?;
    Ok(())
}

/// Tells that the time of a field is over, and flushes it.
fn tell_over<W: Write>(id: u32, writer: &mut W) -> Result<(), RunFault>
    ensures ok { OnOk result (Appends (W.contents writer.old) (W.contents writer.new)
        (over_line id)) }
    ensures err { IfErr result (λ fault. fault ≡ RunFault.Output) }
{
    writeln!(writer, "over {id}").map_err(|_| RunFault::Output)?;
    writer.flush().map_err(|_| RunFault::Output)?;
    Ok(())
}

/// Tells that nothing was done of a transaction, and flushes it.
fn tell_undone<W: Write>(first: u64, last: u64, writer: &mut W) -> Result<(), RunFault>
    ensures ok { OnOk result (Appends (W.contents writer.old) (W.contents writer.new)
        (undone_line first last)) }
    ensures err { IfErr result (λ fault. fault ≡ RunFault.Output) }
{
    writeln!(writer, "undone {first} {last}").map_err(|_| RunFault::Output)?;
    writer.flush().map_err(|_| RunFault::Output)?;
    Ok(())
}

/// Writes how many fields show an answer.
fn write_answers<W: Write>(counts: Counts, writer: &mut W) -> Result<(), RunFault>
    ensures ok { OnOk result (Appends (W.contents writer.old) (W.contents writer.new)
        (answers_text counts)) }
    ensures err { IfErr result (λ fault. fault ≡ RunFault.Output) }
{
    let Counts {
        answered,
        unanswered,
        errors: _,
        overs: _,
    } = counts;
    writeln!(writer, "answered {answered} unanswered {unanswered}").map_err(|_| RunFault::Output)?;
    Ok(())
}

/// Writes how many fields show an error, where one does.
fn write_errors<W: Write>(errors: usize, writer: &mut W) -> Result<(), RunFault>
    ensures ok { OnOk result (Appends (W.contents writer.old) (W.contents writer.new)
        (errors_text errors)) }
    ensures err { IfErr result (λ fault. fault ≡ RunFault.Output) }
{
    if errors == 0 {
        return Ok(());
    }
    writeln!(writer, "errors {errors}").map_err(|_| RunFault::Output)?;
    Ok(())
}

/// Writes how many fields were over and how many were passed over, where these are counted.
fn write_overs<W: Write>(overs: Option<Overs>, writer: &mut W) -> Result<(), RunFault>
    ensures ok { OnOk result (Appends (W.contents writer.old) (W.contents writer.new)
        (overs_text overs)) }
    ensures err { IfErr result (λ fault. fault ≡ RunFault.Output) }
{
    let Some(Overs { over, passed }) = overs else {
        return Ok(());
    };
    writeln!(writer, "over {over} passed {passed}").map_err(|_| RunFault::Output)?;
    Ok(())
}

/// Tells what an evaluation came to, and flushes it.
fn tell_counts<W: Write>(counts: Counts, writer: &mut W) -> Result<(), RunFault>
    ensures ok { OnOk result (Appends (W.contents writer.old) (W.contents writer.new)
        (evaluation_text counts)) }
    ensures err { IfErr result (λ fault. fault ≡ RunFault.Output) }
{
    write_answers(counts, writer)?;
    write_errors(counts.errors, writer)?;
    write_overs(counts.overs, writer)?;
    writer.flush().map_err(|_| RunFault::Output)?;
    Ok(())
}

#[tactic(auto, using(crate::proofs::Cut::cut_steps))]
impl Tells for InWords {
    ghost use Rattle.tellings.specs.Words.{in_words};
    ghost use Rattle.tellings.specs.inside.Lines.{words_in_no_lines};

    ghost voice = { in_words };

    ghost to_lines = { words_in_no_lines };

    fn frame<W: Write>(&self, _frame: Boundary, _writer: &mut W) -> Result<(), RunFault> {
        Ok(())
    }

    fn note<W: Write>(&self, note: Note, writer: &mut W) -> Result<(), RunFault> {
        match note {
            Note::Bad(line) => tell_bad_line(line, writer),
            Note::Nothing(_) | Note::Waited(_, _) => Ok(()),
            Note::Interrupted(_, name, reported) => tell_interrupt(name, reported, writer),
            Note::Over(id, _) => tell_over(id, writer),
            Note::Warned(seat, reported) => tell_interrupt(seat.name, reported, writer),
            Note::Counted(counts) => tell_counts(counts, writer),
            Note::Undone(first, last) => tell_undone(first, last, writer),
        }
    }

    fn outcomes<W: Write>(
        &self,
        _first: u64,
        _sheet: &Sheet,
        outcomes: &[Outcome],
        writer: &mut W,
    ) -> Result<(), RunFault> {
        tell_outcomes(outcomes, writer)
    }

    fn lives<D: Disk, W: Write>(
        &self,
        _host: &Host<D>,
        replies: &[Reply],
        writer: &mut W,
    ) -> Result<(), RunFault> {
        write_events(replies, writer)
    }

    fn events<D: Disk, W: Write>(
        &self,
        _host: &Host<D>,
        replies: &[Reply],
        writer: &mut W,
    ) -> Result<(), RunFault> {
        tell_replies(replies, writer)
    }

    fn sheet<D: Disk, W: Write>(
        &self,
        _line: u64,
        host: &Host<D>,
        writer: &mut W,
    ) -> Result<(), RunFault> {
        tell_sheet(host.sheet(), writer)
    }

    fn field<D: Disk, W: Write>(
        &self,
        _line: u64,
        id: u32,
        host: &Host<D>,
        writer: &mut W,
    ) -> Result<(), RunFault> {
        tell_field(host.sheet(), id, writer)
    }

    fn export<W: Write>(
        &self,
        _line: u64,
        format: Format,
        sheet: &Sheet,
        writer: &mut W,
    ) -> Result<(), RunFault> {
        tell_words(format, sheet, writer)
    }

    fn fault<W: Write>(&self, _why: RunFault, _writer: &mut W) -> bool {
        true
    }
}
