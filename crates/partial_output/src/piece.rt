//! A piece of an interpreter's output, as an object of JSON.
ghost use Rattle.std.specs.Prelude.{◌≡◌, IfSome, false, true};
ghost use Rattle.std.specs.Io.KnownBytes.{Appends};
ghost use Rattle.partial_output.specs.Pieces as piece;
ghost use Rattle.whole_writes.specs.Fronts.{BeganWith};

use child_calls::Seat;
use sheet_json::{partial_value, reported_bytes};
use std::alloc::Global;
use std::io::Write;
use whole_writes::write_whole;
use worksheet::Name;

/// The byte that ends a block. (TeXmacs manual, interfacing: `DATA_END`.)
const BLOCK_END: u8 = 5;

fn is_end(byte: u8) -> bool
    ensures { result ≡ piece.is_end byte }
{
    byte == BLOCK_END
}

/// Whether a byte is there that ends a block, or would, if none escaped it.
fn has_end(bytes: &[u8]) -> bool
    ensures { result ≡ piece.has_end bytes.now }
{
    bytes.iter().any(|byte| is_end(*byte))
}

/// A piece of the output of a life as a line of JSON. None where there is no memory for it.
fn partial_line(alloc: Global, name: Name, life: u32, bytes: &[u8]) -> Option<Vec<u8>>
    ensures { IfSome result (λ line. line.items ≡ piece.partial_text name life bytes.now) }
{
    let Ok(value) = partial_value(alloc, name.as_slice(), life, bytes) else {
        return None;
    };
    match reported_bytes(alloc, &value) {
        Ok(line) => Some(line),
        Err(_) => None,
    }
}

/// Writes a piece of the output of a life as a line of JSON. Whether all of it went out: else there was no memory for it, or
/// the writer failed, and a beginning of it went out.
#[tactic(auto, using(crate::proofs::Fronts::fronts))]
pub fn write_partial<W: Write>(alloc: Global, seat: Seat, bytes: &[u8], writer: &mut W) -> bool
    ensures whole { result ≡ true → Appends (W.contents writer.old) (W.contents writer.new)
        (piece.partial_text seat.name seat.life bytes.now) }
    ensures front { BeganWith (W.contents writer.old) (W.contents writer.new)
        (piece.partial_text seat.name seat.life bytes.now) }
{
    let Seat { name, life } = seat;
    match partial_line(alloc, name, life, bytes) {
        Some(line) => write_whole(writer, line.as_slice()).is_ok(),
        None => false,
    }
}

/// A writer of pieces, and whether it gets any.
#[derive(Drop)]
pub struct Beside<W: Write + Drop> {
    alloc: Global,
    writer: W,
    tells: bool,
}

impl<W: Write + Drop> Beside<W> {
    /// This writer, which gets nothing yet.
    pub fn new(alloc: Global, writer: W) -> Beside<W>
        ensures silent { result.tells ≡ false }
        ensures writer { result.writer ≡ writer }
    {
        Beside {
            alloc,
            writer,
            tells: false,
        }
    }

    /// From now on it gets pieces.
    pub fn begin(&mut self)
        ensures tells { self.new.tells ≡ true }
        ensures writer { self.new.writer ≡ self.old.writer }
    {
        self.tells = true;
    }

    /// Writes a piece of the output of a life out, where pieces are wanted and it ends no block. Where not all of it goes out, no more
    /// of them do.
    #[tactic(auto, using(crate::proofs::Fronts::fronts))]
    pub fn tell(&mut self, seat: Seat, bytes: &[u8])
        ensures wrote { self.new.tells ≡ true
            → Appends (W.contents self.old.writer) (W.contents self.new.writer)
            (piece.reported_text seat.name seat.life bytes.now) }
        ensures front { BeganWith (W.contents self.old.writer) (W.contents self.new.writer)
            (piece.reported_text seat.name seat.life bytes.now) }
        ensures silent { self.old.tells ≡ false → self.new ≡ self.old }
    {
        if self.tells && !has_end(bytes) {
            self.tells = write_partial(self.alloc, seat, bytes, &mut self.writer);
        }
    }
}
