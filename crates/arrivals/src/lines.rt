//! The lines of an input that is read bit by bit.
ghost use Rattle.std.specs.Prelude.{◌≡◌, IfOk, IfSome, List, ℕ, OnOk, OnErr, false, option_map, true};
ghost use Rattle.std.specs.Io.KnownBytes.{IsAtEnd};
ghost use Rattle.arrivals.specs.Lines.{input_lines};
ghost use Rattle.arrivals.specs.Held.{ReadAdds, GivesLine, IsNextLine, KeepsLines, Readiness, Same, is_given, nothing_held, to_come};

use crate::buffer::{LineBuffer, NextLine};
use std::alloc::{AllocError, Global};
use std::io::Read;

/// A read of the input failed.
#[derive(Clone, Copy, Debug, PartialEq, Eq)]
pub struct InputFault;

/// An input, of which whole lines are given and no more is read than was asked for.
///
/// Its lines are those of `bstr`'s `lines`: each ends at a line feed, one carriage return in front of that
/// is dropped, and the last one may lack its line feed. One of more than `LONGEST_LINE` bytes is reported as
/// too long, and its bytes are dropped as they come. All memory is taken at the beginning.
#[derive(Drop)]
pub struct InputLines<R> {
    reader: R,
    held: LineBuffer,
}

impl<R: Read> InputLines<R> {
    /// The lines of this input, of which nothing is read yet.
    pub fn new(alloc: Global, reader: R) -> Result<InputLines<R>, AllocError>
    where
        R: Drop,
        ensures reader { IfOk result (λ lines. lines.reader ≡ reader) }
        ensures held { IfOk result (λ lines. lines.held ≡ nothing_held) }
        ensures lines { IfOk result (λ lines. to_come lines.held (R.remaining lines.reader)
            ≡ option_map input_lines (R.remaining reader)) }
    {
        let held = LineBuffer::new(alloc)?;
        Ok(InputLines { reader, held })
    }

    /// Reads once what is there, up to what the buffer has room for: 131,074 bytes where nothing is held. It may block where nothing is there; no bytes are the
    /// end of the input, after which nothing is read. Nothing is read either where the buffer is full, which
    /// it never is where `next` asked for more.
    ///
    /// `InputFault`: the read failed, also where it was interrupted 1,001 times. Nothing is lost.
    pub fn fill(&mut self) -> Result<(), InputFault>
        ensures ok { OnOk result ((bytes : List ℕ) × ReadAdds self.old.held self.new.held bytes) }
        ensures err { OnErr result (Same self.old.held self.new.held) }
        ensures end { self.old.held.ended ≡ false → self.new.held.ended ≡ true
            → IsAtEnd (R.remaining self.new.reader) }
        ensures lines { KeepsLines (to_come self.old.held (R.remaining self.old.reader))
            (to_come self.new.held (R.remaining self.new.reader)) }
    {
        match self.held.read_from(&mut self.reader) {
            Ok(()) => Ok(()),
            Err(_) => Err(InputFault),
        }
    }

    /// Gives the next line, where it is held whole. Nothing is read.
    pub fn next(&mut self) -> NextLine
        ensures gives { GivesLine self.old.held result self.new.held }
        ensures ready { Readiness self.old.held (is_given result) }
        ensures ended { self.new.held.ended ≡ self.old.held.ended }
        ensures reader { self.new.reader ≡ self.old.reader }
    {
        self.held.next()
    }

    /// The line that `next` gave last, until the next call of `next` or `fill`.
    pub fn line(&self) -> &[u8]
        ensures { result.now ≡ self.now.held.line }
    {
        self.held.line()
    }

    /// The line that `next` gives when it is called now, where that line is held with its line feed and isn't
    /// too long. Nothing is given or read.
    pub fn peek(&self) -> Option<&[u8]>
        ensures { IfSome result (λ line. IsNextLine self.now.held line.now) }
    {
        self.held.peek()
    }

    /// Whether `next` has something to give but that more must be read.
    pub fn is_ready(&self) -> bool
        ensures { Readiness self.now.held result }
    {
        self.held.is_ready()
    }

    /// Whether the input was read to its end, after which nothing is read.
    pub fn is_at_end(&self) -> bool
        ensures { result ≡ self.now.held.ended }
    {
        self.held.is_at_end()
    }
}
