//! The program `blocks`: the outer blocks of a stream, a line each.
ghost use Rattle.std.specs.Prelude.{◌≡◌, ◌≤◌, [], IfErr, IfOk, IfSome, IsErrOf, OnOk, length};
ghost use Rattle.std.specs.Io.KnownBytes.{Appends, append_known};
ghost use Rattle.block_tree.specs.Tree.{Tree};
ghost use Rattle.meta_format.specs.Limits.{limits};
ghost use Rattle.meta_format.specs.Spelling.{Spells};
ghost use Rattle.program_endings.specs.Printed.{IsLongInput, IsPrinted, IsShortInput, named_fault_line, outer_line, unfinished_line};
ghost use Rattle.offline_programs.specs.Input.{IsStreamFault, longest_standard_input};

use line_room::Room;
use meta_format::{Seen, next_outer};
use offline_programs::{RunFault, read_input};
use std::alloc::Global;
use std::io::{Read, Write};

/// Puts the line of an outer block into the room, from the bytes that spell it.
fn write_outer<W: Write>(
    start: usize,
    stop: usize,
    spelling: &[u8],
    room: &mut Room,
    out: &mut W,
) -> Result<(), RunFault>
    requires { (b : Tree) × Spells limits b spelling.now }
    ensures ok { OnOk result ((b : Tree) → Spells limits b spelling.now
        → Appends (append_known (W.contents out.old) room.old)
        (append_known (W.contents out.new) room.new)
        (outer_line record { start = start; stop = stop; block = b })) }
    ensures err { IfErr result (λ fault. fault ≡ RunFault.Output) }
{
    room.put_numbers(start, stop, out)
        .map_err(|_| RunFault::Output)?;
    room.put_spelled(spelling, out)
        .map_err(|_| RunFault::Output)?;
    room.end_line(out).map_err(|_| RunFault::Output)?;
    Ok(())
}

/// Writes what the room holds.
fn write_held<W: Write>(room: &mut Room, out: &mut W) -> Result<(), RunFault>
    ensures ok { OnOk result
        (Appends (append_known (W.contents out.old) room.old) (W.contents out.new) []) }
    ensures err { IfErr result (λ fault. fault ≡ RunFault.Output) }
{
    room.write_out(out).map_err(|_| RunFault::Output)?;
    Ok(())
}

/// Writes what the room holds, and the line of a fault.
fn write_fault<W: Write>(
    kind: &str,
    offset: usize,
    room: &mut Room,
    out: &mut W,
) -> Result<(), RunFault>
    ensures ok { OnOk result (Appends (append_known (W.contents out.old) room.old)
        (W.contents out.new) (named_fault_line kind.now offset)) }
    ensures err { IfErr result (λ fault. fault ≡ RunFault.Output) }
{
    write_held(room, out)?;
    writeln!(out, "fault {kind} {offset}").map_err(|_| RunFault::Output)?;
    Ok(())
}

/// Writes what the room holds, and the line of an open outer block.
fn write_unfinished<W: Write>(start: usize, room: &mut Room, out: &mut W) -> Result<(), RunFault>
    ensures ok { OnOk result (Appends (append_known (W.contents out.old) room.old)
        (W.contents out.new) (unfinished_line start)) }
    ensures err { IfErr result (λ fault. fault ≡ RunFault.Output) }
{
    write_held(room, out)?;
    writeln!(out, "unfinished {start}").map_err(|_| RunFault::Output)?;
    Ok(())
}

/// Writes the text of a stream, and tells whether the stream is whole.
fn write_stream<W: Write>(stream: &[u8], room: &mut Room, out: &mut W) -> Result<bool, RunFault>
    requires short { length stream.now ≤ longest_standard_input }
    requires none_held { room.old ≡ [] }
    ensures printed { IfOk result
        (IsPrinted stream.now (W.contents out.old) (W.contents out.new)) }
    ensures err { IfErr result (λ fault. fault ≡ RunFault.Output) }
{
    let mut from = 0;
    loop {
        match next_outer(stream, from) {
            Seen::Outer { start, stop } => {
                write_outer(start, stop, &stream[start..stop], room, out)?;
                from = stop;
            }
            Seen::Open { start } => {
                write_unfinished(start, room, out)?;
                return Ok(false);
            }
            Seen::End => {
                write_held(room, out)?;
                return Ok(true);
            }
            Seen::BadTag { offset } => {
                write_fault("1 BadTag", offset, room, out)?;
                return Ok(false);
            }
            Seen::TooDeep { offset } => {
                write_fault("2 TooDeep", offset, room, out)?;
                return Ok(false);
            }
            Seen::TooLong { offset } => {
                write_fault("3 TooLong", offset, room, out)?;
                return Ok(false);
            }
        }
    }
}

/// Writes the outer blocks of the stream that a reader gives, a line each: where it starts, where the
/// next byte stands, and its tree. Then a line for the first fault of the stream, or for the block that
/// is open at its end. It returns whether there is neither. (docs/use/PROTOCOL.md has the lines.)
///
/// The input is read whole before anything is written, and no memory is taken after that: the room in which lines are put
/// together is made first. `Input` where the reader
/// fails, an interruption included, `InputTooLong` where it gives more than `LONGEST_STANDARD_INPUT` bytes, and
/// `OutOfMemory`: nothing was written then. `Output` where the writer fails: a part of the text may have gone out.
#[tactic(auto, using(crate::proofs::Streams::stream_faults))]
pub fn blocks<R: Read, W: Write>(
    alloc: Global,
    reader: &mut R,
    writer: &mut W,
) -> Result<bool, RunFault>
    ensures printed { IfOk result (λ whole. IfSome (R.remaining reader.old)
        (λ stream. IsPrinted stream (W.contents writer.old) (W.contents writer.new) whole)) }

    // An input that is too long is reported as such, whatever else would go wrong with its text.
    ensures short { IfOk result (λ whole. IsShortInput (R.remaining reader.old)) }
    ensures output_short { IsErrOf result RunFault.Output → IsShortInput (R.remaining reader.old) }
    ensures too_long { IsErrOf result RunFault.InputTooLong
        → IsLongInput (R.remaining reader.old) }

    // A stream gives no fault of a host or of a disk.
    ensures faults { IfErr result IsStreamFault }
    ensures nothing_at_input { IsErrOf result RunFault.Input → writer.new ≡ writer.old }
    ensures nothing_at_too_long { IsErrOf result RunFault.InputTooLong → writer.new ≡ writer.old }
    ensures nothing_at_memory { IsErrOf result RunFault.OutOfMemory → writer.new ≡ writer.old }
{
    let Ok(mut room) = Room::new(alloc) else {
        return Err(RunFault::OutOfMemory);
    };
    let stream = read_input(alloc, reader)?;
    let whole = write_stream(stream.as_slice(), &mut room, writer)?;
    writer.flush().map_err(|_| RunFault::Output)?;
    Ok(whole)
}
