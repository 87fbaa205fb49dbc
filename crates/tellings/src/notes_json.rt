//! What is printed once, as lines of JSON.
ghost use Rattle.std.specs.Prelude.{◌≡◌, IfErr};
ghost use Rattle.tellings.specs.Json as texts;
ghost use Rattle.tellings.specs.Voice.{IsWithheld, Unwritten, WroteLine};

use crate::writing::write_made;
use crate::{Counts, Note};
use child_calls::Seat;
use child_edge::Interrupted;
use offline_programs::RunFault;
use sheet_json::{
    Counted, bad_value, counted_in_time_value, counted_value, interrupted_value, nothing_value,
    over_value, refused_value, undone_value, waited_value, warned_value,
};
use std::alloc::Global;
use std::io::Write;
use worksheet::Refusal;

/// What came of an interrupt, as a word: where there was no session, there was nothing to interrupt.
fn outcome(reported: Interrupted) -> &'static str
    ensures { result.now ≡ texts.outcome_name reported }
{
    match reported {
        Interrupted::NoSession | Interrupted::Idle => "idle",
        Interrupted::Sent => "sent",
        Interrupted::Failed => "failed",
    }
}

/// What came of the interrupt of a life, since the time of a wait was over.
fn write_warned<W: Write>(
    alloc: Global,
    seat: Seat,
    reported: Interrupted,
    writer: &mut W,
) -> Result<(), RunFault>
    ensures wrote { WroteLine result (W.contents writer.old) (W.contents writer.new)
        (texts.warned_json seat reported) }
    ensures err { IfErr result (IsWithheld texts.in_json) }
    ensures unwritten { IfErr result (Unwritten writer.old writer.new) }
{
    let value = warned_value(alloc, seat.name.as_slice(), seat.life, outcome(reported));
    write_made(alloc, value, writer)
}

/// What came of the wish to interrupt an interpreter.
fn write_interrupt<W: Write>(
    alloc: Global,
    line: u64,
    reported: Interrupted,
    writer: &mut W,
) -> Result<(), RunFault>
    ensures wrote { WroteLine result (W.contents writer.old) (W.contents writer.new)
        (texts.interrupt_json line reported) }
    ensures err { IfErr result (IsWithheld texts.in_json) }
    ensures unwritten { IfErr result (Unwritten writer.old writer.new) }
{
    match reported {
        Interrupted::NoSession => {
            write_made(
                alloc,
                refused_value(alloc, line, Refusal::NoSession),
                writer,
            )
        }
        Interrupted::Idle => write_made(alloc, interrupted_value(alloc, line, "idle"), writer),
        Interrupted::Sent => write_made(alloc, interrupted_value(alloc, line, "sent"), writer),
        Interrupted::Failed => write_made(alloc, interrupted_value(alloc, line, "failed"), writer),
    }
}

/// Writes what an evaluation came to.
fn write_counts<W: Write>(alloc: Global, counts: Counts, writer: &mut W) -> Result<(), RunFault>
    ensures wrote { WroteLine result (W.contents writer.old) (W.contents writer.new)
        (texts.counted_json counts counts.overs) }
    ensures err { IfErr result (IsWithheld texts.in_json) }
    ensures unwritten { IfErr result (Unwritten writer.old writer.new) }
{
    let counted = Counted {
        answered: counts.answered as u64,
        unanswered: counts.unanswered as u64,
        errors: counts.errors as u64,
    };
    match counts.overs {
        None => write_made(alloc, counted_value(alloc, counted), writer),
        Some(overs) => {
            let (over, passed) = (overs.over, overs.passed);
            let value = counted_in_time_value(alloc, counted, over, passed);
            write_made(alloc, value, writer)
        }
    }
}

/// Writes what is printed of a line, or of a wait that it began.
pub(crate) fn write_note<W: Write>(
    alloc: Global,
    note: Note,
    writer: &mut W,
) -> Result<(), RunFault>
    ensures wrote { WroteLine result (W.contents writer.old) (W.contents writer.new)
        (texts.note_json note) }
    ensures err { IfErr result (IsWithheld texts.in_json) }
    ensures unwritten { IfErr result (Unwritten writer.old writer.new) }
{
    match note {
        Note::Bad(line) => write_made(alloc, bad_value(alloc, line), writer),
        Note::Nothing(line) => write_made(alloc, nothing_value(alloc, line), writer),
        Note::Waited(line, timed) => write_made(alloc, waited_value(alloc, line, timed), writer),
        Note::Interrupted(line, _, reported) => write_interrupt(alloc, line, reported, writer),
        Note::Over(id, reported) => write_made(
            alloc,
            over_value(alloc, id, outcome(reported)),
            writer,
        ),
        Note::Warned(seat, reported) => write_warned(alloc, seat, reported, writer),
        Note::Counted(counts) => write_counts(alloc, counts, writer),
        Note::Undone(first, last) => write_made(alloc, undone_value(alloc, first, last), writer),
    }
}
