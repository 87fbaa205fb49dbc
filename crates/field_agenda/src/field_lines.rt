//! Fields as lines: the Nth field that is asked or passed over is the line 2N - 1, and its wait the next one.

ghost use Rattle.std.specs.Prelude.{◌≡◌, ◌+◌, ◌<◌, ◌^◌, IfErr, OnOk, length};
ghost use Rattle.std.specs.Io.KnownBytes.{Appends};
ghost use Rattle.tellings.specs.Voice.{CutShort, IsWithheld, numbered_text};
ghost use Rattle.field_agenda.specs.FieldLines as lines;

use disk_model::Disk;
use host_events::{Outcome, Reply};
use offline_programs::RunFault;
use session_engine::Host;
use sheet_export::Format;
use std::io::Write;
use std::slice;
use tellings::{Boundary, Note, Tells};
use worksheet::Sheet;

/// A voice that is given the number of a field in the place of a line's.
#[derive(Clone, Copy, Debug)]
pub struct FieldLines<T> {
    pub tells: T,
}

/// The number of the line of a field.
fn line_of(field: u64) -> u64
    ensures { result ≡ lines.line_of_field field }
{
    field.saturating_mul(2).saturating_sub(1)
}

/// Tells what the command gave that asked the field with this number in their order.
fn tell_one<T: Tells, W: Write>(
    tells: &T,
    field: u64,
    sheet: &Sheet,
    outcome: &Outcome,
    writer: &mut W,
) -> Result<(), RunFault>
    ensures ok { OnOk result (Appends (W.contents writer.old) (W.contents writer.new)
        (T.voice.reply (lines.line_of_field field) sheet.now.contents outcome.now.reply)) }
    ensures err { IfErr result (IsWithheld T.voice) }
    ensures cut { IfErr result (CutShort T.voice.in_lines (W.contents writer.old) (W.contents writer.new)
        (T.voice.reply (lines.line_of_field field) sheet.now.contents outcome.now.reply)) }
{
    tells.outcomes(line_of(field), sheet, slice::from_ref(outcome), writer)
}

/// Tells what commands gave that asked as many fields, from the one with this number in their order on.
fn tell_each<T: Tells, W: Write>(
    tells: &T,
    first: u64,
    sheet: &Sheet,
    outcomes: &[Outcome],
    writer: &mut W,
) -> Result<(), RunFault>
    requires { first + length outcomes.now < 2 ^ 64 }
    ensures ok { OnOk result (Appends (W.contents writer.old) (W.contents writer.new)
        (numbered_text (lines.by_field_lines T.voice) first sheet.now.contents outcomes.now)) }
    ensures err { IfErr result (IsWithheld T.voice) }
    ensures cut { IfErr result (CutShort T.voice.in_lines (W.contents writer.old) (W.contents writer.new)
        (numbered_text (lines.by_field_lines T.voice) first sheet.now.contents outcomes.now)) }
{
    let mut field = first;
    for outcome in outcomes {
        tell_one(tells, field, sheet, outcome, writer)?;
        field += 1;
    }
    Ok(())
}

impl<T: Tells> Tells for FieldLines<T> {
    ghost use Rattle.field_agenda.specs.FieldLines.{by_field_lines};
    ghost use Rattle.field_agenda.specs.inside.Lines.{fields_keep_to_lines};

    ghost voice = { by_field_lines T.voice };

    ghost to_lines = { fields_keep_to_lines T.voice T.to_lines };

    fn frame<W: Write>(&self, frame: Boundary, writer: &mut W) -> Result<(), RunFault> {
        self.tells.frame(frame, writer)
    }

    fn note<W: Write>(&self, note: Note, writer: &mut W) -> Result<(), RunFault> {
        self.tells.note(note, writer)
    }

    fn outcomes<W: Write>(
        &self,
        first: u64,
        sheet: &Sheet,
        outcomes: &[Outcome],
        writer: &mut W,
    ) -> Result<(), RunFault> {
        tell_each(&self.tells, first, sheet, outcomes, writer)
    }

    fn lives<D: Disk, W: Write>(
        &self,
        host: &Host<D>,
        replies: &[Reply],
        writer: &mut W,
    ) -> Result<(), RunFault> {
        self.tells.lives(host, replies, writer)
    }

    fn events<D: Disk, W: Write>(
        &self,
        host: &Host<D>,
        replies: &[Reply],
        writer: &mut W,
    ) -> Result<(), RunFault> {
        self.tells.events(host, replies, writer)
    }

    fn sheet<D: Disk, W: Write>(
        &self,
        line: u64,
        host: &Host<D>,
        writer: &mut W,
    ) -> Result<(), RunFault> {
        self.tells.sheet(line_of(line), host, writer)
    }

    fn field<D: Disk, W: Write>(
        &self,
        line: u64,
        id: u32,
        host: &Host<D>,
        writer: &mut W,
    ) -> Result<(), RunFault> {
        self.tells.field(line_of(line), id, host, writer)
    }

    fn export<W: Write>(
        &self,
        line: u64,
        format: Format,
        sheet: &Sheet,
        writer: &mut W,
    ) -> Result<(), RunFault> {
        self.tells.export(line_of(line), format, sheet, writer)
    }

    fn fault<W: Write>(&self, why: RunFault, writer: &mut W) -> bool {
        self.tells.fault(why, writer)
    }
}
