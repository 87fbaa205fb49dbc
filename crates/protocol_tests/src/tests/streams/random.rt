//! Random streams: what is seen ahead of a stream that is held whole is what its reader finds.
use super::{end_of, read, seen};
use meta_format::{Found, Seen};
use std::alloc::Global;

/// What streams are made of. The first ones open blocks, so that streams of these alone get deep.
const PIECES: [&[u8]; 16] = [
    b"\x02a:",
    b"\x02prompt#",
    b"x\x1b\x05",
    b"\x05\x02b:",
    b"\x05",
    b"\x05\x05",
    b"text\n",
    b"\x1b",
    b"\x02",
    b":",
    b"#",
    b"\x05\x05\x05\x05\x05\x05\x05\x05",
    b"a name of thirty-one bytes, so:",
    b"\x1b\x02\x1b\x1b",
    b"\xff",
    b"",
];

/// Numbers that look random, the same ones in each run.
#[derive(Drop)]
struct Dice(u64);

impl Dice {
    fn roll(&mut self) -> usize {
        self.0 = self
            .0
            .wrapping_mul(6_364_136_223_846_793_005)
            .wrapping_add(1_442_695_040_888_963_407);
        (self.0 >> 40) as usize
    }

    /// A stream of up to 127 pieces, in one of two with a byte that was changed.
    fn stream(&mut self, alloc: Global) -> Option<Vec<u8>> {
        let mut stream = Vec::new(alloc);
        let kinds = [3, 7, 15, 15][self.roll() & 3];
        for _ in 0..self.roll() & 127 {
            stream
                .extend_from_slice(PIECES[self.roll() & kinds & 15])
                .ok()?;
        }
        let place = self.roll() & 511;
        if let Some(byte) = stream.get_mut(place) {
            *byte = (self.roll() & 31) as u8;
        }
        Some(stream)
    }
}

/// The end of the last of these blocks, where each is seen after the one before it.
fn seen_after(stream: &[u8], found: &[Found]) -> Option<usize> {
    let mut from = 0;
    for found in found {
        match seen(stream, from) {
            Some(Seen::Outer { start, stop })
                if start as u64 == found.start && stop as u64 == found.stop => {
                from = stop;
            }
            _ => return None,
        }
    }
    Some(from)
}

/// Whether block after block is seen where the reader finds it, and the same end.
fn is_alike(alloc: Global, stream: &[u8]) -> bool {
    let (found, end) = read(alloc, stream, 7);
    match seen_after(stream, found.as_slice()) {
        Some(from) => end_of(seen(stream, from)) == end,
        None => false,
    }
}

/// How many streams are alike, one after another, of so many.
fn alike(alloc: Global, count: u32) -> Option<u32> {
    let mut dice = Dice(7);
    for number in 0..count {
        let stream = dice.stream(alloc)?;
        if !is_alike(alloc, stream.as_slice()) {
            return Some(number);
        }
    }
    Some(count)
}

#[test]
fn what_is_seen_is_what_is_read(rt: HostRuntime) {
    assert!(rt; alike(rt.alloc(), 100_000) == Some(100_000));
}
