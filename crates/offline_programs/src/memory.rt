//! A script over a worksheet in memory, without interpreters.
ghost use Rattle.std.specs.Prelude.{◌≡◌, ◌<◌, ◌≤◌, ◌^◌, ℕ, List, [], IfErr, IfSome, IsErrOf, OnOk, length, Some};
ghost use Rattle.std.specs.Io.KnownBytes.{Appends};
ghost use Rattle.worksheet.specs.declared.op.Op.{Op};
ghost use Rattle.worksheet.specs.Ops.{sheet_of};
ghost use Rattle.sheet_text.specs.Script.{line_of};
ghost use Rattle.sheet_text.specs.Texts as printed;
ghost use Rattle.sheet_text.specs.declared.script.ScriptLine.TheVariants as said;
ghost use Rattle.offline_programs.specs.Memory.{LineRan, OpRan, ScriptRan, script_lines};
ghost use Rattle.host_events.specs.Commands.{reply_to as reply_of};
ghost use Rattle.offline_programs.specs.Input.{IsStreamFault, longest_standard_input};

use crate::writing::{write_bad_line, write_reply, write_sheet};
use crate::{RunFault, read_input};
use bstr::ByteSlice;
use host_events::{Command, Reply};
use sheet_text::{LineFault, ScriptLine, read_line};
use std::alloc::Global;
use std::io::{Read, Write};
use worksheet::{Op, Refusal, Sheet};

/// The reply to an op that is going to be done.
fn reply_to(sheet: &Sheet, op: &Op) -> Reply
    ensures { result ≡ reply_of sheet.now.contents op.now }
{
    match op {
        Op::New { .. } => Reply::Field(sheet.next_id()),
        _ => Reply::Done,
    }
}

/// Does an op where the worksheet allows it.
fn do_op(sheet: &mut Sheet, op: Op) -> Reply
    ensures { (ops : List Op) → sheet.old.contents ≡ sheet_of ops
        → (after : List Op) × OpRan ops op result after × (sheet.new.contents ≡ sheet_of after) }
{
    if let Err(refusal) = sheet.check(&op) {
        return Reply::Refused(refusal);
    }
    let reply = reply_to(sheet, &op);
    match sheet.apply(op) {
        Ok(()) => reply,
        Err(_) => Reply::Refused(Refusal::OutOfMemory),
    }
}

/// Does a command and writes its reply.
fn do_command<W: Write>(
    sheet: &mut Sheet,
    command: Command,
    number: u64,
    writer: &mut W,
) -> Result<(), RunFault>
    ensures ok { (ops : List Op) → sheet.old.contents ≡ sheet_of ops
        → OnOk result ((text : List ℕ) × (after : List Op)
        × LineRan number ops (Some (said.Command command)) text after
        × (sheet.new.contents ≡ sheet_of after)
        × Appends (W.contents writer.old) (W.contents writer.new) text) }
    ensures err { IfErr result (λ fault. fault ≡ RunFault.Output) }
{
    match command.into_op() {
        None => write_bad_line(number, writer),
        Some(op) => {
            let reply = do_op(sheet, op);
            write_reply(&reply, writer)
        }
    }
}

/// Does what a line says and writes what it gives.
fn do_line<W: Write>(
    alloc: Global,
    sheet: &mut Sheet,
    line: &[u8],
    number: u64,
    writer: &mut W,
) -> Result<(), RunFault>
    ensures ok { (ops : List Op) → sheet.old.contents ≡ sheet_of ops
        → OnOk result ((text : List ℕ) × (after : List Op)
        × LineRan number ops (line_of line.now) text after
        × (sheet.new.contents ≡ sheet_of after)
        × Appends (W.contents writer.old) (W.contents writer.new) text) }
    ensures err { IfErr result (λ fault. fault ≡ RunFault.Output) }
{
    match read_line(alloc, line) {
        Ok(ScriptLine::Skip) => Ok(()),
        Ok(ScriptLine::Print) => write_sheet(sheet, writer),
        Ok(ScriptLine::Command(command)) => do_command(sheet, command, number, writer),
        Ok(ScriptLine::Wait) => write_bad_line(number, writer),
        Err(LineFault::BadLine) => write_bad_line(number, writer),
        Err(LineFault::OutOfMemory) => write_reply(&Reply::Refused(Refusal::OutOfMemory), writer),
    }
}

/// Does the lines of a script, one after another.
fn do_lines<W: Write>(
    alloc: Global,
    sheet: &mut Sheet,
    script: &[u8],
    writer: &mut W,
) -> Result<(), RunFault>
    requires empty { sheet.old.contents ≡ sheet_of [] }
    requires few { length (script_lines script.now) < 2 ^ 32 }
    ensures ok { OnOk result ((text : List ℕ) × ScriptRan script.now text
        × Appends (W.contents writer.old) (W.contents writer.new) text) }
    ensures err { IfErr result (λ fault. fault ≡ RunFault.Output) }
{
    let mut lines = script.lines();
    let mut number: u64 = 0;
    while let Some(line) = lines.next() {
        number += 1;
        do_line(alloc, sheet, line, number, writer)?;
    }
    Ok(())
}

/// Runs a script over an empty worksheet, and writes what its lines give: the reply to a command, the
/// worksheet at `print`, `bad line N` where a line isn't known. Lines are numbered from 1. What needs an
/// interpreter or a disk (`eval`, `complete`, `stop`, `wait`, `checkpoint`) is a bad line too. (docs/use/SCRIPT.md
/// has the lines.)
///
/// A command for which memory is refused gets that refusal and changes nothing, and the script goes on.
///
/// The script is read whole before anything is written. `Input` where the reader fails, an
/// interruption included, `InputTooLong` where it gives more than `LONGEST_STANDARD_INPUT` bytes, and `OutOfMemory`
/// where it can't be kept: nothing was written then. `Output` where the writer fails: a part of the
/// text may have gone out.
#[tactic(auto, using(crate::proofs::Inputs::stream_faults))]
pub fn run_memory<R: Read, W: Write>(
    alloc: Global,
    reader: &mut R,
    writer: &mut W,
) -> Result<(), RunFault>
    ensures ran { OnOk result (IfSome (R.remaining reader.old) (λ script. (text : List ℕ)
        × ScriptRan script text × Appends (W.contents writer.old) (W.contents writer.new) text)) }

    // A script that is too long is reported as such, whatever else would go wrong with its text.
    ensures short { OnOk result (IfSome (R.remaining reader.old)
        (λ script. length script ≤ longest_standard_input)) }
    ensures output_short { IsErrOf result RunFault.Output
        → IfSome (R.remaining reader.old) (λ script. length script ≤ longest_standard_input) }
    ensures too_long { IsErrOf result RunFault.InputTooLong
        → IfSome (R.remaining reader.old) (λ script. longest_standard_input < length script) }

    // A script over memory gives no fault of a host or of a disk.
    ensures faults { IfErr result IsStreamFault }
    ensures nothing_at_input { IsErrOf result RunFault.Input → writer.new ≡ writer.old }
    ensures nothing_at_too_long { IsErrOf result RunFault.InputTooLong → writer.new ≡ writer.old }
    ensures nothing_at_memory { IsErrOf result RunFault.OutOfMemory → writer.new ≡ writer.old }
{
    let script = read_input(alloc, reader)?;
    let mut sheet = Sheet::new(alloc);
    do_lines(alloc, &mut sheet, script.as_slice(), writer)?;
    writer.flush().map_err(|_| RunFault::Output)?;
    Ok(())
}
