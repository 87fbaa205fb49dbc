//! Bytes that were read, and the lines in them.
ghost use Rattle.std.specs.Prelude.{◌≡◌, ◌≤◌, ◌<◌, ◌+◌, ◌-◌, ℕ, List, IfOk, IfSome, OnOk, OnErr, true, false, length, take, drop, slice_range};
ghost use Rattle.std.specs.Io.KnownBytes.{IsAtEnd, ReadConsumes};
ghost use Rattle.bstr.specs.Text.{without_terminator};
ghost use Rattle.arrivals.specs.Held.{ReadAdds, GivesLine, IsNextLine, IsUnended, KeepsLines, Readiness, Same, is_given, nothing_held, to_come};
ghost use Rattle.arrivals.specs.inside.Buffers.{Tells, dropping_of, first_line, kept_of};

use memchr::memchr;
use std::alloc::{AllocError, Global};
use std::io::{ErrorKind, Read};
use std::marker::Model;

/// The most bytes of a line, without what ends it.
pub const LONGEST_LINE: usize = 65_536;

/// The most bytes that are held: two lines of the greatest length with their ends, so that a read has room after one that is begun.
const ROOM: usize = 131_074;

/// How often a read is tried: once, and again at most 1,000 times where it was interrupted.
const MOST_READS: u32 = 1_001;

/// What is held of an input.
#[derive(Clone, Copy, Debug, PartialEq, Eq)]
pub enum NextLine {
    /// A line: `line` has it.
    Line,
    /// A line of more than `LONGEST_LINE` bytes, which were dropped.
    TooLong,
    /// No whole line: more must be read.
    More,
    /// None, and the input is at its end.
    End,
}

/// A read failed.
#[derive(Clone, Copy, Debug, PartialEq, Eq)]
pub(crate) struct FailedRead;

/// Bytes of an input that were read and not given yet, in a room that is taken once.
#[derive(Drop)]
pub(crate) struct LineBuffer {
    room: Vec<u8>,
    start: usize,
    end: usize,
    line_start: usize,
    line_end: usize,
    dropping: bool,
    ended: bool,
}

impl Model for LineBuffer {
    ghost use Rattle.std.specs.Prelude.{slice_range};
    ghost use Rattle.arrivals.specs.Held.{Held};
    ghost use Rattle.arrivals.specs.inside.Buffers.{IsBuffer};

    ghost Value = { Held };

    ghost view = { λ b. record {
      bytes = slice_range b.room.items b.start b.end;
      line = slice_range b.room.items b.line_start b.line_end;
      dropping = b.dropping;
      ended = b.ended;
    } };

    ghost invariant = { λ b. IsBuffer b.room.items b.start b.end b.line_start b.line_end };
}

/// How many bytes of a line are its own: without the line feed that ends it, and one carriage return before
/// that.
fn own_bytes(line: &[u8]) -> usize
    ensures value { take result line.now ≡ without_terminator line.now }
    ensures len { result ≡ length (without_terminator line.now) }
    ensures few { result ≤ length line.now }
{
    let len = line.len();
    if len == 0 || line[len - 1] != b'\n' {
        return len;
    }
    if len == 1 || line[len - 2] != b'\r' {
        return len - 1;
    }
    len - 2
}

/// One read, tried again where it is interrupted.
fn read_once<R: Read>(reader: &mut R, into: &mut [u8]) -> Result<usize, FailedRead>
    ensures size { length into.new ≡ length into.old }
    ensures few { IfOk result (λ len. len ≤ length into.new) }
    ensures bytes { ReadConsumes (R.remaining reader.old) (R.remaining reader.new) result into.new }
{
    for _ in 0..MOST_READS {
        match reader.read(into) {
            Ok(len) => return Ok(len),
            Err(fault) if fault.kind() == ErrorKind::Interrupted => {}
            Err(_) => return Err(FailedRead),
        }
    }
    Err(FailedRead)
}

/// Moves the bytes of this part to the front.
fn slide(room: &mut Vec<u8>, start: usize, end: usize)
    requires ordered { start ≤ end }
    requires fits { end ≤ length room.old.items }
    ensures front { take (end - start) room.new.items ≡ slice_range room.old.items start end }
    ensures size { length room.new.items ≡ length room.old.items }
{
    room.copy_within(start..end, 0);
}

/// One read into the room from this place on.
fn read_after<R: Read>(reader: &mut R, room: &mut Vec<u8>, at: usize) -> Result<usize, FailedRead>
    requires { at < length room.old.items }
    ensures front { take at room.new.items ≡ take at room.old.items }
    ensures size { length room.new.items ≡ length room.old.items }
    ensures few { IfOk result (λ len. at + len ≤ length room.new.items) }
    ensures bytes { ReadConsumes (R.remaining reader.old) (R.remaining reader.new) result
        (drop at room.new.items) }
{
    read_once(reader, &mut room[at..])
}

impl LineBuffer {
    /// Nothing is held. All memory is taken here.
    pub(crate) fn new(alloc: Global) -> Result<LineBuffer, AllocError>
        ensures { IfOk result (λ buffer. buffer ≡ nothing_held) }
    {
        let room = vec![in alloc; 0; ROOM]?;
        Ok(LineBuffer {
            room,
            start: 0,
            end: 0,
            line_start: 0,
            line_end: 0,
            dropping: false,
            ended: false,
        })
    }

    /// Whether the input was read to its end.
    pub(crate) fn is_at_end(&self) -> bool
        ensures { result ≡ self.now.ended }
    {
        self.ended
    }

    /// Whether `next` has something to give but that more must be read.
    pub(crate) fn is_ready(&self) -> bool
        ensures { Readiness self.now result }
    {
        if self.ended {
            return true;
        }
        match memchr(b'\n', &self.room[self.start..self.end]) {
            Some(_) => true,
            None => false,
        }
    }

    /// The line given last.
    pub(crate) fn line(&self) -> &[u8]
        ensures { result.now ≡ self.now.line }
    {
        &self.room[self.line_start..self.line_end]
    }

    /// The next line, where it is held whole and isn't too long.
    pub(crate) fn peek(&self) -> Option<&[u8]>
        ensures { IfSome result (λ line. IsNextLine self.now line.now) }
    {
        if self.dropping {
            return None;
        }
        let Some(at) = memchr(b'\n', &self.room[self.start..self.end]) else {
            return None;
        };
        let len = at + 1;
        let own = own_bytes(&self.room[self.start..self.start + len]);
        if own > LONGEST_LINE {
            return None;
        }
        Some(&self.room[self.start..self.start + own])
    }

    /// Gives the first bytes as a line.
    fn give(&mut self, len: usize) -> NextLine
        requires { len ≤ length self.old.bytes }
        ensures rest { self.new.bytes ≡ drop len self.old.bytes }
        ensures dropping { self.new.dropping ≡ false }
        ensures ended { self.new.ended ≡ self.old.ended }
        ensures reported { Tells result self.new (first_line self.old.dropping
            (take len self.old.bytes)) }
        ensures given { is_given result ≡ true }
    {
        let start = self.start;
        let is_rest = self.dropping;
        self.start += len;
        self.dropping = false;
        if is_rest {
            return NextLine::TooLong;
        }
        let own = own_bytes(&self.room[start..start + len]);
        if own > LONGEST_LINE {
            return NextLine::TooLong;
        }
        self.line_start = start;
        self.line_end = start + own;
        NextLine::Line
    }

    /// Asks for more. Where what is held is longer than any line, its bytes are dropped.
    fn ask(&mut self)
        ensures kept { self.new.bytes ≡ kept_of self.old.bytes }
        ensures dropping { self.new.dropping ≡ dropping_of self.old.dropping self.old.bytes }
        ensures ended { self.new.ended ≡ self.old.ended }
    {
        if self.end - self.start > LONGEST_LINE + 2 {
            self.start = self.end;
            self.dropping = true;
        }
    }

    /// Gives the next line where no line feed is held.
    fn next_unended(&mut self) -> NextLine
        requires { IsUnended self.old.bytes }
        ensures gives { GivesLine self.old result self.new }
        ensures ready { Readiness self.old (is_given result) }
        ensures ended { self.new.ended ≡ self.old.ended }
    {
        if !self.ended {
            self.ask();
            return NextLine::More;
        }
        let len = self.end - self.start;
        if len == 0 && !self.dropping {
            return NextLine::End;
        }
        self.give(len)
    }

    /// Gives the next line, where it is held whole.
    pub(crate) fn next(&mut self) -> NextLine
        ensures gives { GivesLine self.old result self.new }
        ensures ready { Readiness self.old (is_given result) }
        ensures ended { self.new.ended ≡ self.old.ended }
    {
        match memchr(b'\n', &self.room[self.start..self.end]) {
            Some(at) => self.give(at + 1),
            None => self.next_unended(),
        }
    }

    /// Reads once what is there, where there is room for it and the end wasn't reached.
    pub(crate) fn read_from<R: Read>(&mut self, reader: &mut R) -> Result<(), FailedRead>
        ensures ok { OnOk result ((bytes : List ℕ) × ReadAdds self.old self.new bytes) }
        ensures err { OnErr result (Same self.old self.new) }
        ensures end { self.old.ended ≡ false → self.new.ended ≡ true
            → IsAtEnd (R.remaining reader.new) }
        ensures lines { KeepsLines (to_come self.old (R.remaining reader.old))
            (to_come self.new (R.remaining reader.new)) }
    {
        if self.ended {
            return Ok(());
        }
        slide(&mut self.room, self.start, self.end);
        self.end -= self.start;
        self.start = 0;
        self.line_start = 0;
        self.line_end = 0;
        if self.end >= ROOM {
            return Ok(());
        }
        match read_after(reader, &mut self.room, self.end) {
            Ok(len) => {
                self.ended = len == 0;
                self.end += len;
                Ok(())
            }
            Err(fault) => Err(fault),
        }
    }
}
