//! What comes next in a stream that is held whole, by offsets alone.

ghost use Rattle.std.specs.Prelude.{◌≡◌, ◌<◌, ◌≤◌, ℕ, List, length, slice_index};
ghost use Rattle.meta_format.specs.Limits.{limits};
ghost use Rattle.meta_format.specs.Stream.{Outer};
ghost use Rattle.meta_format.specs.Ahead.{IsReadTo, ComesNext, LiesAhead};
ghost use Rattle.meta_format.specs.inside.Machine.{outside};
ghost use Rattle.meta_format.specs.inside.Flat.{ComesTo, AtTag, InBody, InEscape, NameUpTo};
ghost use Rattle.meta_format.specs.inside.Finding.{IsLimit, Finds};

use crate::bounds::BOUNDS;
use crate::outer::{Met, block_up_to, is_bad};
use crate::runs::before_two;
use block_tree::MOST_LEVELS;

/// What comes next in a stream from an offset on at which no block is open. All offsets are in bytes from 0.
#[derive(Clone, Copy, Debug)]
pub enum Seen {
    /// The next outer block: the offset of its 2, and the offset after its closing 5.
    Outer { start: usize, stop: usize },
    /// No whole block any more, but one that is open at the end: the offset of its 2.
    Open { start: usize },
    /// No block any more.
    End,
    /// The first fault, before which no further block closes. The faults are those of `FeedFault`.
    BadTag { offset: usize },
    TooDeep { offset: usize },
    TooLong { offset: usize },
}

/// The end of the stream, or the offset of the last byte that a block which starts there may have.
fn limit_of(stream: &[u8], start: usize) -> usize
    requires some { start < length stream.now }
    requires early { length stream.now ≤ limits.stream }
    ensures { IsLimit limits stream.now start result }
{
    let before_last = BOUNDS.block as usize - 1;
    if stream.len() - start > before_last {
        start + before_last
    } else {
        stream.len()
    }
}

/// What is seen of a block where the limit stands in a tag, whose name begins there.
fn end_in_name(stream: &[u8], start: usize, name: usize, limit: usize) -> Seen
    requires limit { IsLimit limits stream.now start limit }
    requires there { (levels : ℕ) × AtTag limits stream.now start name levels
        × NameUpTo limits.tag stream.now name limit }
    requires low { name ≤ limit }
    ensures found { Finds limits stream.now start result }
    ensures ahead { LiesAhead start (length stream.now) result }
{
    if limit == stream.len() {
        return Seen::Open { start };
    }
    if is_bad(limit - name, stream[limit]) {
        return Seen::BadTag { offset: limit };
    }
    Seen::TooLong { offset: limit }
}

/// What is seen of a block where the limit stands in a body, so many levels inside the outermost.
fn end_in_body(stream: &[u8], start: usize, depth: u32, limit: usize) -> Seen
    requires two { slice_index stream.now start ≡ 2 }
    requires limit { IsLimit limits stream.now start limit }
    requires there { InBody limits stream.now start limit depth }
    ensures found { Finds limits stream.now start result }
    ensures ahead { LiesAhead start (length stream.now) result }
{
    if limit == stream.len() {
        return Seen::Open { start };
    }
    let c = stream[limit];
    if c == 2 && depth >= MOST_LEVELS - 1 {
        return Seen::TooDeep { offset: limit };
    }
    if c == 5 && depth == 0 {
        return Seen::Outer {
            start,
            stop: limit + 1,
        };
    }
    Seen::TooLong { offset: limit }
}

/// What is seen of a block where the limit is right after a 27.
fn end_in_escape(stream: &[u8], start: usize, limit: usize) -> Seen
    requires limit { IsLimit limits stream.now start limit }
    requires there { (d : ℕ) × InEscape limits stream.now start limit d }
    ensures found { Finds limits stream.now start result }
    ensures ahead { LiesAhead start (length stream.now) result }
{
    if limit == stream.len() {
        return Seen::Open { start };
    }
    Seen::TooLong { offset: limit }
}

/// What is seen from the 2 of a block on.
fn block_from(stream: &[u8], start: usize) -> Seen
    requires some { start < length stream.now }
    requires two { slice_index stream.now start ≡ 2 }
    requires early { length stream.now ≤ limits.stream }
    ensures found { Finds limits stream.now start result }
    ensures ahead { LiesAhead start (length stream.now) result }
{
    let limit = limit_of(stream, start);
    match block_up_to(stream, start, limit) {
        Met::Whole(stop) => Seen::Outer { start, stop },
        Met::BadTag(offset) => Seen::BadTag { offset },
        Met::TooDeep(offset) => Seen::TooDeep { offset },
        Met::InName(name) => end_in_name(stream, start, name, limit),
        Met::InBody(depth) => end_in_body(stream, start, depth, limit),
        Met::InEscape => end_in_escape(stream, start, limit),
    }
}

/// Where the noise ends that stands there: at a 2, or with the stream.
#[tactic(auto, using(crate::proofs::Finding::two_there))]
fn noise_end(stream: &[u8], from: usize) -> usize
    requires within { from ≤ length stream.now }
    requires early { length stream.now ≤ limits.stream }
    ensures low { from ≤ result }
    ensures high { result ≤ length stream.now }
    ensures two { result < length stream.now → slice_index stream.now result ≡ 2 }
    ensures noise { ComesTo limits stream.now from result outside }
{
    from + before_two(&stream[from..])
}

/// What comes next in a stream after a front of it that is read. At `from` no block is open, as at 0
/// and as after each block that this call gives. No memory is taken, and no byte before `from` is
/// looked at.
pub fn next_outer(stream: &[u8], from: usize) -> Seen
    requires within { from ≤ length stream.now }
    requires early { length stream.now ≤ limits.stream }
    // Whatever blocks the front has: a stream has one reading, so no other answer would do.
    ensures next { (blocks : List Outer) → IsReadTo limits stream.now from blocks
        → ComesNext limits stream.now blocks result }
    ensures ahead { LiesAhead from (length stream.now) result }
{
    let start = noise_end(stream, from);
    if start == stream.len() {
        return Seen::End;
    }
    block_from(stream, start)
}
