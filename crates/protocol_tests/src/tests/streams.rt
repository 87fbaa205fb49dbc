//! Streams: worked examples, limits, and where a stream ends.
mod random;

use block_tree::Block;
use meta_format::{FeedFault, Found, ReadFault, Reader, Seen, next_outer, read_block, write_block};
use std::alloc::Global;

/// How a stream ends: between blocks, in one that began there, or at a fault.
#[derive(Clone, Copy, Debug, PartialEq, Eq)]
enum End {
    Whole,
    Open(u64),
    BadTag(u64),
    TooDeep(u64),
    TooLong(u64),
    /// A block stands where the end was wanted.
    Block,
    /// No memory is left.
    NoMemory,
}

/// Where a block starts and stops, and its canonical spelling.
type Wanted<'a> = (u64, u64, &'a [u8]);

/// Puts what was found after what there is.
fn append(all: &mut Vec<Found>, found: Vec<Found>, end: Option<End>) -> Option<End> {
    let mut found = found;
    match all.append(&mut found) {
        Ok(()) => end,
        Err(_) => Some(End::NoMemory),
    }
}

/// Feeds a piece, and tells the fault.
fn feed(reader: &mut Reader, all: &mut Vec<Found>, piece: &[u8]) -> Option<End> {
    match reader.feed(piece) {
        Ok(found) => append(all, found, None),
        Err(FeedFault::BadTag { offset, found }) => append(all, found, Some(End::BadTag(offset))),
        Err(FeedFault::TooDeep { offset, found }) => {
            append(all, found, Some(End::TooDeep(offset)))
        }
        Err(FeedFault::TooLong { offset, found }) => {
            append(all, found, Some(End::TooLong(offset)))
        }
        Err(_) => Some(End::NoMemory),
    }
}

/// How a stream ends that goes on after each of its pieces.
fn end_after(reader: &Reader) -> End {
    match reader.pending() {
        None => End::Whole,
        Some(start) => End::Open(start),
    }
}

fn feed_all(reader: &mut Reader, all: &mut Vec<Found>, stream: &[u8], size: usize) -> End {
    for piece in stream.chunks(size.max(1)) {
        if let Some(end) = feed(reader, all, piece) {
            return end;
        }
    }
    end_after(reader)
}

/// Feeds pieces of this size, and tells how the stream ends.
fn read(alloc: Global, stream: &[u8], size: usize) -> (Vec<Found>, End) {
    let mut reader = Reader::new(alloc);
    let mut all = Vec::new(alloc);
    let end = feed_all(&mut reader, &mut all, stream, size);
    (all, end)
}

fn feed_both(reader: &mut Reader, all: &mut Vec<Found>, first: &[u8], second: &[u8]) -> End {
    if let Some(end) = feed(reader, all, first) {
        return end;
    }
    match feed(reader, all, second) {
        Some(end) => end,
        None => end_after(reader),
    }
}

/// The same, in two pieces.
fn read_cut(alloc: Global, stream: &[u8], at: usize) -> (Vec<Found>, End) {
    let mut reader = Reader::new(alloc);
    let mut all = Vec::new(alloc);
    let (first, second) = stream.split_at(at.min(stream.len()));
    let end = feed_both(&mut reader, &mut all, first, second);
    (all, end)
}

fn is_spelled(alloc: Global, block: &Block, spelling: &[u8]) -> bool {
    let mut text = Vec::new(alloc);
    write_block(block, &mut text).is_ok() && text.as_slice() == spelling
}

/// Whether these are the offsets and the canonical spellings of the blocks.
fn are(alloc: Global, found: &[Found], want: &[Wanted<'_>]) -> bool {
    if found.len() != want.len() {
        return false;
    }
    for (found, (start, stop, spelling)) in found.iter().zip(want) {
        let is_there = found.start == *start && found.stop == *stop;
        if !is_there || !is_spelled(alloc, &found.block, spelling) {
            return false;
        }
    }
    true
}

/// Whether a stream gives these blocks and this end in pieces of this size.
fn reads(alloc: Global, stream: &[u8], size: usize, want: &[Wanted<'_>], end: End) -> bool {
    let (found, ended) = read(alloc, stream, size);
    ended == end && are(alloc, found.as_slice(), want)
}

/// The same in two pieces.
fn reads_cut(alloc: Global, stream: &[u8], at: usize, want: &[Wanted<'_>], end: End) -> bool {
    let (found, ended) = read_cut(alloc, stream, at);
    ended == end && are(alloc, found.as_slice(), want)
}

/// What is seen from there on in a stream that is held whole.
fn seen(stream: &[u8], from: usize) -> Option<Seen> {
    if from > stream.len() || stream.len() > 1 << 62 {
        return None;
    }
    Some(next_outer(stream, from))
}

/// How the stream ends by what is seen after its last block.
fn end_of(seen: Option<Seen>) -> End {
    match seen {
        Some(Seen::End) => End::Whole,
        Some(Seen::Open { start }) => End::Open(start as u64),
        Some(Seen::BadTag { offset }) => End::BadTag(offset as u64),
        Some(Seen::TooDeep { offset }) => End::TooDeep(offset as u64),
        Some(Seen::TooLong { offset }) => End::TooLong(offset as u64),
        Some(Seen::Outer { .. }) | None => End::Block,
    }
}

/// Whether these are the offsets that are seen in a stream, one block after another, and its end.
fn shows(stream: &[u8], want: &[Wanted<'_>], end: End) -> bool {
    let mut from = 0;
    for (first, last, _) in want {
        match seen(stream, from) {
            Some(Seen::Outer { start, stop }) if start as u64 == *first && stop as u64 == *last => {
                from = stop;
            }
            _ => return false,
        }
    }
    end_of(seen(stream, from)) == end
}

/// Whether these blocks and this end are seen in a stream, and read in single bytes and cut at each place.
fn gives(alloc: Global, stream: &[u8], want: &[Wanted<'_>], end: End) -> bool {
    for at in 0..=stream.len() {
        if !reads_cut(alloc, stream, at, want, end) {
            return false;
        }
    }
    shows(stream, want, end) && reads(alloc, stream, 1, want, end)
}

#[test]
fn noise_around_a_block(rt: HostRuntime) {
    let stream = b"noise\x02verbatim:Hi there!\x05\n";
    let block = b"\x02verbatim:Hi there!\x05".as_slice();
    assert!(rt; gives(rt.alloc(), b"", &[], End::Whole));
    assert!(rt; gives(rt.alloc(), stream, &[(5, 25, block)], End::Whole));
}

// Whether the block with this spelling is written as it is read.
fn is_read_back(alloc: Global, spelling: &[u8]) -> bool {
    match read_block(alloc, spelling) {
        Ok(block) => is_spelled(alloc, &block, spelling),
        Err(_) => false,
    }
}

// The fault of a spelling with a byte after it.
fn fault_of_longer(alloc: Global, spelling: &[u8]) -> Option<ReadFault> {
    let mut longer = spelling.to_vec(alloc).ok()?;
    longer.push(b'x').ok()?;
    read_block(alloc, longer.as_slice()).err()
}

#[test]
fn escapes_of_a_text(rt: HostRuntime) {
    let stream = b"\x02verbatim:\x1b\x02\x1b\x05\x1b\x1b\x1b[\x05";
    let canonical = b"\x02verbatim:\x1b\x02\x1b\x05\x1b\x1b\x1b\x1b[\x05".as_slice();
    assert!(rt; canonical.len() == 20);
    assert!(rt; gives(rt.alloc(), stream, &[(0, 19, canonical)], End::Whole));
    assert!(rt; is_read_back(rt.alloc(), canonical));
    assert!(rt; fault_of_longer(rt.alloc(), canonical) == Some(ReadFault::NotABlock));
}

// A block's begin, so many bytes of this kind, and these after them.
fn joined(alloc: Global, front: &[u8], (byte, count): (u8, usize), back: &[u8]) -> Option<Vec<u8>> {
    let middle = Vec::from_elem(alloc, byte, count).ok()?;
    let mut all = front.to_vec(alloc).ok()?;
    all.extend_from_slice(middle.as_slice()).ok()?;
    all.extend_from_slice(back).ok()?;
    Some(all)
}

// Whether a tag of 64 bytes makes a block, and one of 65 a fault at its last.
fn longest_tag(alloc: Global) -> Option<bool> {
    let tag = joined(alloc, b"\x02", (b'a', 64), b":\x05")?;
    let longer = joined(alloc, b"\x02", (b'a', 65), b"")?;
    let is_block = gives(
        alloc,
        tag.as_slice(),
        &[(0, 67, tag.as_slice())],
        End::Whole,
    );
    Some(is_block && gives(alloc, longer.as_slice(), &[], End::BadTag(65)))
}

#[test]
fn wrong_tags(rt: HostRuntime) {
    assert!(rt; gives(rt.alloc(), b"\x02:x\x05", &[], End::BadTag(1)));
    assert!(rt; gives(rt.alloc(), b"ab\x02verb\x02", &[], End::BadTag(7)));
    assert!(rt; longest_tag(rt.alloc()) == Some(true));
}

#[test]
fn block_before_a_fault(rt: HostRuntime) {
    let block = b"\x02verbatim:A\x05".as_slice();
    let stream = b"\x02verbatim:A\x05\x02:";
    assert!(rt; gives(rt.alloc(), stream, &[(0, 12, block)], End::BadTag(13)));
}

#[test]
fn unfinished(rt: HostRuntime) {
    assert!(rt; gives(rt.alloc(), b"\x02verbatim:x", &[], End::Open(0)));
}

// So many blocks that begin in one another, and so many ends.
fn nested(alloc: Global, begins: usize, ends: usize) -> Option<Vec<u8>> {
    let mut stream = Vec::new(alloc);
    for _ in 0..begins {
        stream.extend_from_slice(b"\x02a:").ok()?;
    }
    let ends = Vec::from_elem(alloc, 5u8, ends).ok()?;
    stream.extend_from_slice(ends.as_slice()).ok()?;
    Some(stream)
}

// Whether 32 levels make a block, and the next one a fault.
fn deepest(alloc: Global) -> Option<bool> {
    let block = nested(alloc, 32, 32)?;
    let deeper = nested(alloc, 33, 0)?;
    let is_block = gives(
        alloc,
        block.as_slice(),
        &[(0, 128, block.as_slice())],
        End::Whole,
    );
    Some(is_block && gives(alloc, deeper.as_slice(), &[], End::TooDeep(96)))
}

#[test]
fn greatest_depth(rt: HostRuntime) {
    assert!(rt; deepest(rt.alloc()) == Some(true));
}

// The sizes of pieces that a long block is read in.
const SIZES: [usize; 4] = [20_000_000, 65_536, 4_099, 1];

// Whether a stream that is too long to be cut everywhere gives this.
fn gives_long(alloc: Global, stream: &[u8], want: &[Wanted<'_>], end: End) -> bool {
    for size in SIZES {
        if !reads(alloc, stream, size, want, end) {
            return false;
        }
    }
    shows(stream, want, end)
}

// Whether 16,777,216 bytes make a block, and one more a fault at the last.
fn longest(alloc: Global) -> Option<bool> {
    let block = joined(alloc, b"\x02verbatim:", (b'x', 16_777_205), b"\x05")?;
    let longer = joined(alloc, b"\x02verbatim:", (b'x', 16_777_206), b"\x05")?;
    let whole = [(0, 16_777_216, block.as_slice())];
    let is_block = gives_long(alloc, block.as_slice(), &whole, End::Whole);
    Some(is_block && gives_long(alloc, longer.as_slice(), &[], End::TooLong(16_777_215)))
}

#[test]
fn longest_block(rt: HostRuntime) {
    assert!(rt; longest(rt.alloc()) == Some(true));
}

/// How many blocks were found, and where the last one starts and stops.
#[derive(Clone, Copy, PartialEq, Eq)]
struct Tally {
    blocks: u64,
    last: (u64, u64),
}

fn count(tally: &mut Tally, found: &[Found]) {
    for found in found {
        tally.blocks = tally.blocks.saturating_add(1);
        tally.last = (found.start, found.stop);
    }
}

// Feeds one byte, and counts what is found. Whether there is no fault.
fn feed_byte(alloc: Global, reader: &mut Reader, tally: &mut Tally, byte: u8) -> bool {
    let mut found = Vec::new(alloc);
    let end = feed(reader, &mut found, &[byte]);
    count(tally, found.as_slice());
    end.is_none()
}

fn feed_bytes(alloc: Global, reader: &mut Reader, tally: &mut Tally, bytes: &[u8]) -> bool {
    for byte in bytes {
        if !feed_byte(alloc, reader, tally, *byte) {
            return false;
        }
    }
    true
}

// What is found where a block of 12 bytes is fed so many times, byte by byte, and the offset after them.
fn found_in(alloc: Global, times: u32) -> Option<(Tally, u64)> {
    let mut reader = Reader::new(alloc);
    let mut tally = Tally {
        blocks: 0,
        last: (0, 0),
    };
    for _ in 0..times {
        if !feed_bytes(alloc, &mut reader, &mut tally, b"\x02verbatim:x\x05") {
            return None;
        }
    }
    Some((tally, reader.offset()))
}

#[test]
fn many_blocks_in_single_bytes(rt: HostRuntime) {
    let tally = Tally {
        blocks: 100_000,
        last: (1_199_988, 1_200_000),
    };
    assert!(rt; found_in(rt.alloc(), 100_000) == Some((tally, 1_200_000)));
}
