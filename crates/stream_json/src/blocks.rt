//! The outer blocks of a stream, an object each.
ghost use Rattle.std.specs.Prelude.{◌≡◌, ◌<◌, ◌≤◌, ◌++◌, List, IfErr, IfOk, IfSome, IsErrOf, OnOk, Some, length};
ghost use Rattle.std.specs.List.{flat_map};
ghost use Rattle.std.specs.Io.KnownBytes.{Appends};
ghost use Rattle.block_tree.specs.Tree.{Tree};
ghost use Rattle.meta_format.specs.Limits.{limits};
ghost use Rattle.meta_format.specs.Spelling.{Spells};
ghost use Rattle.meta_format.specs.Stream.{Outer};
ghost use Rattle.offline_programs.specs.Input.{IsStreamFault, longest_standard_input};
ghost use Rattle.sheet_json.specs.Lines.{json_line};
ghost use Rattle.sheet_json.specs.Sheets.{telling_line};
ghost use Rattle.sheet_json.specs.Tellings as reported;
ghost use Rattle.stream_json.specs.StreamObjects.{IsUnwritten, ObjectsOf, later_objects, outer_data, unfinished_data};
ghost use Rattle.stream_json.specs.Streams.{StreamEnd, StreamHas, is_whole};

use crate::objects::{outer_value, unfinished_value};
use crate::writing::write_made;
use meta_format::{ReadFault, Seen, next_outer, read_block};
use offline_programs::{RunFault, read_input};
use sheet_json::{end_value, fault_value, hello_value};
use std::alloc::Global;
use std::io::{Read, Write};

/// Writes what stands first.
fn write_hello<W: Write>(alloc: Global, out: &mut W) -> Result<(), RunFault>
    ensures ok { OnOk result
        (Appends (W.contents out.old) (W.contents out.new) (telling_line reported.hello)) }
    ensures err { IfErr result IsUnwritten }
{
    write_made(alloc, hello_value(alloc), out)
}

/// Writes what stands last, where the stream came to its end.
fn write_end<W: Write>(alloc: Global, out: &mut W) -> Result<(), RunFault>
    ensures ok { OnOk result
        (Appends (W.contents out.old) (W.contents out.new) (telling_line reported.end)) }
    ensures err { IfErr result IsUnwritten }
{
    write_made(alloc, end_value(alloc), out)
}

/// Writes the object of an outer block, from the bytes that spell it.
fn write_outer<W: Write>(
    alloc: Global,
    start: usize,
    stop: usize,
    spelling: &[u8],
    out: &mut W,
) -> Result<(), RunFault>
    requires { (b : Tree) × Spells limits b spelling.now }
    ensures ok { OnOk result ((b : Tree) → Spells limits b spelling.now
        → Appends (W.contents out.old) (W.contents out.new)
        (json_line (outer_data record { start = start; stop = stop; block = b }))) }
    ensures err { IfErr result IsUnwritten }
{
    match read_block(alloc, spelling) {
        Ok(block) => write_made(alloc, outer_value(alloc, start, stop, &block), out),
        Err(ReadFault::OutOfMemory) => Err(RunFault::OutOfMemory),
        Err(ReadFault::NotABlock) => unreachable!(),
    }
}

/// Writes the object of an open outer block, and what stands last.
fn write_unfinished<W: Write>(alloc: Global, start: usize, out: &mut W) -> Result<(), RunFault>
    ensures ok { OnOk result (Appends (W.contents out.old) (W.contents out.new)
        (json_line (unfinished_data start) ++ telling_line reported.end)) }
    ensures err { IfErr result IsUnwritten }
{
    write_made(alloc, unfinished_value(alloc, start), out)?;
    write_end(alloc, out)
}

/// Writes the object of a fault of the stream, which stands last.
fn write_fault<W: Write>(
    alloc: Global,
    number: u32,
    name: &str,
    offset: usize,
    out: &mut W,
) -> Result<(), RunFault>
    ensures ok { OnOk result (Appends (W.contents out.old) (W.contents out.new)
        (telling_line (reported.fault number name.now (Some offset)))) }
    ensures err { IfErr result IsUnwritten }
{
    write_made(
        alloc,
        fault_value(alloc, number, name, Some(offset as u64)),
        out,
    )
}

/// Writes the objects of a stream after the first one, and tells whether the stream is whole.
fn write_later<W: Write>(alloc: Global, stream: &[u8], out: &mut W) -> Result<bool, RunFault>
    requires { length stream.now ≤ longest_standard_input }
    ensures printed { IfOk result (λ whole. (blocks : List Outer) × (end : StreamEnd)
        × StreamHas limits stream.now blocks end
        × Appends (W.contents out.old) (W.contents out.new) (flat_map json_line
        (later_objects blocks end))
        × (whole ≡ is_whole end)) }
    ensures err { IfErr result IsUnwritten }
{
    let mut from = 0;
    loop {
        match next_outer(stream, from) {
            Seen::Outer { start, stop } => {
                write_outer(alloc, start, stop, &stream[start..stop], out)?;
                from = stop;
            }
            Seen::Open { start } => {
                write_unfinished(alloc, start, out)?;
                return Ok(false);
            }
            Seen::End => {
                write_end(alloc, out)?;
                return Ok(true);
            }
            Seen::BadTag { offset } => {
                write_fault(alloc, 1, "BadTag", offset, out)?;
                return Ok(false);
            }
            Seen::TooDeep { offset } => {
                write_fault(alloc, 2, "TooDeep", offset, out)?;
                return Ok(false);
            }
            Seen::TooLong { offset } => {
                write_fault(alloc, 3, "TooLong", offset, out)?;
                return Ok(false);
            }
        }
    }
}

/// Writes the objects of a stream, and tells whether the stream is whole.
fn write_stream<W: Write>(alloc: Global, stream: &[u8], out: &mut W) -> Result<bool, RunFault>
    requires { length stream.now ≤ longest_standard_input }
    ensures printed { IfOk result (λ whole.
        ObjectsOf limits stream.now (W.contents out.old) (W.contents out.new) whole) }
    ensures err { IfErr result IsUnwritten }
{
    write_hello(alloc, out)?;
    write_later(alloc, stream, out)
}

/// Writes the objects of the stream that a reader gives: first `hello`, then one for each outer block, and last
/// `end`, or the first fault of the stream; before `end` one for the block that is open there, if any. It returns whether
/// there is neither that nor a fault. (docs/use/JSON.md has the objects.)
///
/// The input is read whole before anything is written. `Input` where the reader fails, an interruption included,
/// and `InputTooLong` where it gives more than `LONGEST_STANDARD_INPUT` bytes: nothing was written then. `OutOfMemory`,
/// and `Output` where the writer fails: some objects may have gone out, at `Output` a part of one.
#[tactic(auto, using(crate::proofs::Faults::stream_faults))]
pub fn block_objects<R: Read, W: Write>(
    alloc: Global,
    reader: &mut R,
    writer: &mut W,
) -> Result<bool, RunFault>
    ensures printed { IfOk result (λ whole. IfSome (R.remaining reader.old) (λ stream.
        ObjectsOf limits stream (W.contents writer.old) (W.contents writer.new) whole)) }

    // An input that is too long is reported as such, whatever else would go wrong with its text.
    ensures short { IfOk result
        (λ whole. IfSome (R.remaining reader.old) (λ stream. length stream
        ≤ longest_standard_input)) }
    ensures output_short { IsErrOf result RunFault.Output
        → IfSome (R.remaining reader.old) (λ stream. length stream ≤ longest_standard_input) }
    ensures too_long { IsErrOf result RunFault.InputTooLong
        → IfSome (R.remaining reader.old) (λ stream. longest_standard_input < length stream) }

    // A stream gives no fault of a host or of a disk.
    ensures faults { IfErr result IsStreamFault }
    ensures nothing_at_input { IsErrOf result RunFault.Input → writer.new ≡ writer.old }
    ensures nothing_at_too_long { IsErrOf result RunFault.InputTooLong → writer.new ≡ writer.old }
{
    let stream = read_input(alloc, reader)?;
    let whole = write_stream(alloc, stream.as_slice(), writer)?;
    writer.flush().map_err(|_| RunFault::Output)?;
    Ok(whole)
}
