//! As lines of JSON.
ghost use Rattle.std.specs.Prelude.{◌≡◌, ◌+◌, ◌<◌, ◌^◌, IfErr, OnOk, length, true};
ghost use Rattle.std.specs.Option.{option_copied};
ghost use Rattle.std.specs.Io.KnownBytes.{Appends};
ghost use Rattle.tellings.specs.Json as texts;
ghost use Rattle.session_engine.specs.World.{World};
ghost use Rattle.session_engine.specs.Host.{IsHost};
ghost use Rattle.tellings.specs.Voice.{CutShort, IsWithheld, Unwritten, WroteLine, lives_text, numbered_text};
ghost use Rattle.worksheet.specs.Contents.{Contents};

use crate::exports::write_exported;
use crate::notes_json::write_note;
use crate::sheets_json::{write_field, write_sheet};
use crate::writing::{write_if, write_made};
use crate::{Boundary, Note, Tells, faults};
use disk_model::Disk;
use host_events::{ChildReply, Outcome, Reply};
use offline_programs::RunFault;
use session_engine::Host;
use sheet_export::Format;
use sheet_json::{
    asked_value, closed_value, default_value, done_value, end_value, ended_value, fault_value,
    hello_value, made_value, no_field_value, no_program_value, nothing_value, refused_value,
    stopped_value,
};
use std::alloc::Global;
use std::io::Write;
use worksheet::Sheet;

/// Lines of JSON, which programs read. Each is made whole in memory before its first byte is written.
#[derive(Clone, Copy, Debug)]
pub struct InJson {
    pub alloc: Global,
}

/// What closed, where anything did, and the prompt of the line that would be asked next, where it is known.
fn write_closed<W: Write>(
    alloc: Global,
    sheet: &Sheet,
    next: Option<&[u8]>,
    child: &ChildReply,
    writer: &mut W,
) -> Result<(), RunFault>
    ensures wrote { WroteLine result (W.contents writer.old) (W.contents writer.new)
        (texts.closed_json sheet.now.contents (option_copied next.entry) child.now) }
    ensures err { IfErr result (IsWithheld texts.in_json) }
    ensures unwritten { IfErr result (Unwritten writer.old writer.new) }
{
    match &child.closed {
        None => Ok(()),
        Some(closed) => {
            let name = child.name.as_slice();
            write_if(
                alloc,
                closed_value(alloc, sheet, name, child.life, closed, next),
                writer,
            )
        }
    }
}

/// The default input of what closed, where it has one.
fn write_default<W: Write>(
    alloc: Global,
    child: &ChildReply,
    writer: &mut W,
) -> Result<(), RunFault>
    ensures wrote { WroteLine result (W.contents writer.old) (W.contents writer.new)
        (texts.default_json child.now) }
    ensures err { IfErr result (IsWithheld texts.in_json) }
    ensures unwritten { IfErr result (Unwritten writer.old writer.new) }
{
    match &child.default_input {
        None => Ok(()),
        Some(text) => {
            let name = child.name.as_slice();
            write_made(
                alloc,
                default_value(alloc, name, child.life, text.as_slice()),
                writer,
            )
        }
    }
}

/// The end of the life, where it ended.
fn write_ended<W: Write>(alloc: Global, child: &ChildReply, writer: &mut W) -> Result<(), RunFault>
    ensures wrote { WroteLine result (W.contents writer.old) (W.contents writer.new)
        (texts.ended_json child.now) }
    ensures err { IfErr result (IsWithheld texts.in_json) }
    ensures unwritten { IfErr result (Unwritten writer.old writer.new) }
{
    match &child.ended {
        None => Ok(()),
        Some(ended) => {
            let name = child.name.as_slice();
            let value = ended_value(alloc, name, child.life, ended.reason, &ended.lost);
            write_made(alloc, value, writer)
        }
    }
}

/// What came of a life.
fn write_child<W: Write>(
    alloc: Global,
    sheet: &Sheet,
    next: Option<&[u8]>,
    child: &ChildReply,
    writer: &mut W,
) -> Result<(), RunFault>
    ensures ok { OnOk result (Appends (W.contents writer.old) (W.contents writer.new)
        (texts.child_json sheet.now.contents (option_copied next.entry) child.now)) }
    ensures err { IfErr result (IsWithheld texts.in_json) }
    ensures cut { IfErr result (CutShort true (W.contents writer.old) (W.contents writer.new)
        (texts.child_json sheet.now.contents (option_copied next.entry) child.now)) }
{
    write_closed(alloc, sheet, next, child, writer)?;
    write_default(alloc, child, writer)?;
    write_ended(alloc, child, writer)?;
    Ok(())
}

/// What came of a life, with the prompt that its host knows, and nothing of another reply.
fn write_came<D: Disk, W: Write>(
    alloc: Global,
    host: &Host<D>,
    reply: &Reply,
    writer: &mut W,
) -> Result<(), RunFault>
    ensures ok { (w : World) → IsHost host.now w
        → OnOk result (Appends (W.contents writer.old) (W.contents writer.new)
        (texts.came_json w reply.now)) }
    ensures err { IfErr result (IsWithheld texts.in_json) }
    ensures cut { (w : World) → IsHost host.now w
        → IfErr result (CutShort true (W.contents writer.old) (W.contents writer.new)
        (texts.came_json w reply.now)) }
{
    match reply {
        Reply::Child(child) => {
            write_child(alloc, host.sheet(), host.prompt(child.name), child, writer)
        }
        Reply::Done | Reply::Field(_) | Reply::Asked(_) | Reply::Refused(_) | Reply::Nothing => Ok(
            (),
        ),
    }
}

/// What came of lives, in order, with what their host knows.
fn write_lives<D: Disk, W: Write>(
    alloc: Global,
    host: &Host<D>,
    replies: &[Reply],
    writer: &mut W,
) -> Result<(), RunFault>
    ensures ok { (w : World) → IsHost host.now w
        → OnOk result (Appends (W.contents writer.old) (W.contents writer.new)
        (lives_text texts.in_json w replies.now)) }
    ensures err { IfErr result (IsWithheld texts.in_json) }
    ensures cut { (w : World) → IsHost host.now w
        → IfErr result (CutShort true (W.contents writer.old) (W.contents writer.new)
        (lives_text texts.in_json w replies.now)) }
{
    for reply in replies {
        write_came(alloc, host, reply, writer)?;
    }
    Ok(())
}

/// The end of a life that a line stopped.
fn write_stopped<W: Write>(
    alloc: Global,
    line: u64,
    child: &ChildReply,
    writer: &mut W,
) -> Result<(), RunFault>
    ensures wrote { WroteLine result (W.contents writer.old) (W.contents writer.new)
        (texts.stopped_json line child.now) }
    ensures err { IfErr result (IsWithheld texts.in_json) }
    ensures unwritten { IfErr result (Unwritten writer.old writer.new) }
{
    let name = child.name.as_slice();
    match &child.ended {
        None => write_made(alloc, done_value(alloc, line), writer),
        Some(ended) => {
            let value = stopped_value(alloc, line, name, child.life, &ended.lost);
            write_made(alloc, value, writer)
        }
    }
}

/// The reply to a line.
fn write_reply<W: Write>(
    alloc: Global,
    line: u64,
    reply: &Reply,
    writer: &mut W,
) -> Result<(), RunFault>
    ensures wrote { WroteLine result (W.contents writer.old) (W.contents writer.new)
        (texts.reply_json line reply.now) }
    ensures err { IfErr result (IsWithheld texts.in_json) }
    ensures unwritten { IfErr result (Unwritten writer.old writer.new) }
{
    match reply {
        Reply::Done => write_made(alloc, done_value(alloc, line), writer),
        Reply::Field(id) => write_made(alloc, made_value(alloc, line, *id), writer),
        Reply::Asked(life) => write_made(alloc, asked_value(alloc, line, *life), writer),
        Reply::Refused(why) => write_made(alloc, refused_value(alloc, line, *why), writer),
        Reply::Child(child) => write_stopped(alloc, line, child, writer),
        Reply::Nothing => write_made(alloc, nothing_value(alloc, line), writer),
    }
}

/// The replies to as many lines as there are outcomes, from this line on.
fn write_outcomes<W: Write>(
    alloc: Global,
    first: u64,
    outcomes: &[Outcome],
    writer: &mut W,
) -> Result<(), RunFault>
    requires { first + length outcomes.now < 2 ^ 64 }
    ensures ok { (sheet : Contents)
        → OnOk result (Appends (W.contents writer.old) (W.contents writer.new)
        (numbered_text texts.in_json first sheet outcomes.now)) }
    ensures err { IfErr result (IsWithheld texts.in_json) }
    ensures cut { (sheet : Contents)
        → IfErr result (CutShort true (W.contents writer.old) (W.contents writer.new)
        (numbered_text texts.in_json first sheet outcomes.now)) }
{
    let mut line = first;
    for outcome in outcomes {
        write_reply(alloc, line, &outcome.reply, writer)?;
        line += 1;
    }
    Ok(())
}

/// What stands first or last.
fn write_frame<W: Write>(alloc: Global, frame: Boundary, writer: &mut W) -> Result<(), RunFault>
    ensures wrote { WroteLine result (W.contents writer.old) (W.contents writer.new)
        (texts.frame_json frame) }
    ensures err { IfErr result (IsWithheld texts.in_json) }
    ensures unwritten { IfErr result (Unwritten writer.old writer.new) }
{
    match frame {
        Boundary::Hello => write_made(alloc, hello_value(alloc), writer),
        Boundary::End => write_made(alloc, end_value(alloc), writer),
        Boundary::NoField(id) => write_made(alloc, no_field_value(alloc, id), writer),
        Boundary::NoProgram(name) => write_made(
            alloc,
            no_program_value(alloc, name.as_slice()),
            writer,
        ),
    }
}

/// A fault.
fn write_fault<W: Write>(alloc: Global, why: RunFault, writer: &mut W) -> Result<(), RunFault>
    ensures wrote { WroteLine result (W.contents writer.old) (W.contents writer.new)
        (texts.fault_json why) }
    ensures err { IfErr result (IsWithheld texts.in_json) }
    ensures unwritten { IfErr result (Unwritten writer.old writer.new) }
{
    let (number, name, offset) = (faults::number(why), faults::name(why), faults::offset(why));
    write_made(alloc, fault_value(alloc, number, name, offset), writer)
}

#[tactic(auto, using(crate::proofs::Cut::cut_steps))]
impl Tells for InJson {
    ghost use Rattle.tellings.specs.Json.{in_json};
    ghost use Rattle.tellings.specs.inside.Lines.{json_in_lines};

    ghost voice = { in_json };

    ghost to_lines = { json_in_lines };

    fn frame<W: Write>(&self, frame: Boundary, writer: &mut W) -> Result<(), RunFault> {
        write_frame(self.alloc, frame, writer)?;
        writer.flush().map_err(|_| RunFault::Output)?;
        Ok(())
    }

    fn note<W: Write>(&self, note: Note, writer: &mut W) -> Result<(), RunFault> {
        write_note(self.alloc, note, writer)?;
        writer.flush().map_err(|_| RunFault::Output)?;
        Ok(())
    }

    fn outcomes<W: Write>(
        &self,
        first: u64,
        _sheet: &Sheet,
        outcomes: &[Outcome],
        writer: &mut W,
    ) -> Result<(), RunFault> {
        write_outcomes(self.alloc, first, outcomes, writer)?;
        writer.flush().map_err(|_| RunFault::Output)?;
        Ok(())
    }

    fn lives<D: Disk, W: Write>(
        &self,
        host: &Host<D>,
        replies: &[Reply],
        writer: &mut W,
    ) -> Result<(), RunFault> {
        write_lives(self.alloc, host, replies, writer)
    }

    fn events<D: Disk, W: Write>(
        &self,
        host: &Host<D>,
        replies: &[Reply],
        writer: &mut W,
    ) -> Result<(), RunFault> {
        write_lives(self.alloc, host, replies, writer)?;
        writer.flush().map_err(|_| RunFault::Output)?;
        Ok(())
    }

    fn sheet<D: Disk, W: Write>(
        &self,
        line: u64,
        host: &Host<D>,
        writer: &mut W,
    ) -> Result<(), RunFault> {
        write_sheet(self.alloc, line, host, writer)?;
        writer.flush().map_err(|_| RunFault::Output)?;
        Ok(())
    }

    fn field<D: Disk, W: Write>(
        &self,
        line: u64,
        id: u32,
        host: &Host<D>,
        writer: &mut W,
    ) -> Result<(), RunFault> {
        write_field(self.alloc, line, id, host, writer)?;
        writer.flush().map_err(|_| RunFault::Output)?;
        Ok(())
    }

    fn export<W: Write>(
        &self,
        line: u64,
        format: Format,
        sheet: &Sheet,
        writer: &mut W,
    ) -> Result<(), RunFault> {
        write_exported(self.alloc, line, format, sheet, writer)?;
        writer.flush().map_err(|_| RunFault::Output)?;
        Ok(())
    }

    fn fault<W: Write>(&self, why: RunFault, writer: &mut W) -> bool {
        match write_fault(self.alloc, why, writer) {
            Ok(()) => writer.flush().is_ok(),
            Err(_) => false,
        }
    }
}
