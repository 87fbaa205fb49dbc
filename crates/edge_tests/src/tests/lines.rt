//! Lines out of reads of any size.
use arrivals::{InputLines, NextLine};
use std::alloc::{AllocError, Global};
use std::io;
use std::io::{ErrorKind, Read};

/// Gives at most so many bytes at a read.
#[derive(Drop)]
struct Pieces<'a> {
    left: &'a [u8],
    size: usize,
}

impl Read for Pieces<'_> {
    fn read(&mut self, buf: &mut [u8]) -> io::Result<usize> {
        let most = self.size.min(buf.len());
        self.left.read(&mut buf[..most])
    }
}

/// What an input gave: its lines, their bytes and a mark for each that was too long.
#[derive(Clone, Copy, PartialEq, Eq)]
struct Counts {
    lines: u32,
    bytes: u64,
    too_long: u32,
}

// What comes of an input that is read in pieces of this size, where no memory fails.
fn given(alloc: Global, input: &[u8], size: usize) -> Option<Counts> {
    let pieces = Pieces { left: input, size };
    let mut lines = InputLines::new(alloc, pieces).ok()?;
    let mut given = Counts {
        lines: 0,
        bytes: 0,
        too_long: 0,
    };
    for _ in 0..1_000_000u32 {
        match lines.next() {
            NextLine::Line => {
                given.lines = given.lines.wrapping_add(1);
                given.bytes = given.bytes.wrapping_add(lines.line().len() as u64);
            }
            NextLine::TooLong => given.too_long = given.too_long.wrapping_add(1),
            NextLine::More => lines.fill().ok()?,
            NextLine::End => return Some(given),
        }
    }
    None
}

// A line of so many bytes with this end, and `b` after it.
fn long_line(alloc: Global, len: usize, end: &[u8]) -> Result<Vec<u8>, AllocError> {
    let mut input = vec![in alloc; b'a'; len]?;
    input.extend_from_slice(end)?;
    input.extend_from_slice(b"b")?;
    Ok(input)
}

// Whether an input of these two lines gives so many lines, bytes and lines that are too long, in pieces of
// several sizes.
fn gives(alloc: Global, len: usize, end: &[u8], expected: Counts) -> bool {
    let Ok(input) = long_line(alloc, len, end) else {
        return false;
    };
    [1_000, 65_536, 65_537, 1_000_000].iter().all(|size| given(alloc, input.as_slice(), *size)
        == Some(expected))
}

const BOTH: Counts = Counts {
    lines: 2,
    bytes: 65_537,
    too_long: 0,
};

const LAST: Counts = Counts {
    lines: 1,
    bytes: 1,
    too_long: 1,
};

#[test]
fn a_line_may_have_65_536_bytes(rt: HostRuntime) {
    assert!(rt; gives(rt.alloc(), 65_536, b"\n", BOTH));
    assert!(rt; gives(rt.alloc(), 65_536, b"\r\n", BOTH));
}

#[test]
fn a_longer_line_is_reported_once(rt: HostRuntime) {
    assert!(rt; gives(rt.alloc(), 65_537, b"\n", LAST));
    assert!(rt; gives(rt.alloc(), 65_536, b"\r\r\n", LAST));
    assert!(rt; gives(rt.alloc(), 400_000, b"\r\n", LAST));
}

// Whether these bytes give so many lines of so many bytes in all, byte by byte and at once.
fn splits(alloc: Global, input: &[u8], lines: u32, bytes: u64) -> bool {
    let expected = Some(Counts {
        lines,
        bytes,
        too_long: 0,
    });
    given(alloc, input, 1) == expected && given(alloc, input, 100) == expected
}

#[test]
fn ends_of_lines(rt: HostRuntime) {
    assert!(rt; splits(rt.alloc(), b"", 0, 0));
    assert!(rt; splits(rt.alloc(), b"\n\r\n", 2, 0));
    assert!(rt; splits(rt.alloc(), b"one\r\ntwo\r\r\nthree\r", 3, 13));
}

/// Is interrupted so many times, and then at its end.
#[derive(Drop)]
struct Interrupted {
    times: u32,
}

impl Read for Interrupted {
    fn read(&mut self, _buf: &mut [u8]) -> io::Result<usize> {
        if self.times == 0 {
            return Ok(0);
        }
        self.times -= 1;
        Err(io::Error::from(ErrorKind::Interrupted))
    }
}

// Whether the input is at its end after a read that was interrupted so many times; none if it fails.
fn fills(alloc: Global, times: u32) -> Option<bool> {
    let mut lines = InputLines::new(alloc, Interrupted { times }).ok()?;
    match lines.fill() {
        Ok(()) => Some(lines.is_at_end()),
        Err(_) => None,
    }
}

#[test]
fn a_read_is_tried_again_a_thousand_times(rt: HostRuntime) {
    assert!(rt; fills(rt.alloc(), 1_000) == Some(true));
    assert!(rt; fills(rt.alloc(), 1_001).is_none());
}
