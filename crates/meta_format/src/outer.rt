//! The next outer block of a stream that is held whole, by its offsets alone.

ghost use Rattle.std.specs.Prelude.{◌≡◌, ◌<◌, ◌≤◌, ◌+◌, ℕ, List, length, false, slice_index};
ghost use Rattle.block_tree.specs.Shape.{longest_tag};
ghost use Rattle.meta_format.specs.Spelling.{is_special};
ghost use Rattle.meta_format.specs.inside.Machine.{is_bad_tag};
ghost use Rattle.meta_format.specs.inside.Named.{Names, Meets};
ghost use Rattle.meta_format.specs.Limits.{limits};

use crate::runs::text_run;
use crate::scan::is_separator;
use block_tree::{LONGEST_TAG, MOST_LEVELS};

/// What comes of the bytes after a 2.
#[derive(Clone, Copy, Debug)]
pub enum Named {
    /// The offset after the separator.
    Whole(usize),
    /// The offset of the byte that is wrong.
    Bad(usize),
    /// The bytes end in the name.
    Cut,
}

/// Whether the byte is wrong after so many bytes of a tag's name.
#[inline(always)]
pub fn is_bad(size: usize, c: u8) -> bool
    ensures { (name : List ℕ) → length name ≡ size → result ≡ is_bad_tag longest_tag name c }
{
    c < 32 || (is_separator(c) && size == 0) || (!is_separator(c) && size == LONGEST_TAG)
}

/// What stands in the stream from there on, up to the limit: the name of a tag, or a part of one.
#[tactic(auto, using(crate::proofs::Cursor::name_rules))]
pub fn name_end(stream: &[u8], at: usize, limit: usize) -> Named
    requires low { at ≤ limit }
    requires high { limit ≤ length stream.now }
    ensures { Names longest_tag stream.now at limit result }
{
    let mut i = at;
    while i < limit {
        let c = stream[i];
        if is_bad(i - at, c) {
            return Named::Bad(i);
        }
        i += 1;
        if is_separator(c) {
            return Named::Whole(i);
        }
    }
    Named::Cut
}

/// Where the run ends of bytes that spell themselves in a body.
#[inline(always)]
#[tactic(auto, using(crate::proofs::Flat::shifted))]
fn text_end(stream: &[u8], at: usize, limit: usize) -> usize
    requires low { at ≤ limit }
    requires high { limit ≤ length stream.now }
    ensures low { at ≤ result }
    ensures high { result ≤ limit }
    ensures plain { (k : ℕ) → at ≤ k → k < result → is_special (slice_index stream.now k) ≡ false }
{
    at + text_run(&stream[at..limit])
}

/// What comes of a block up to a limit.
#[derive(Clone, Copy, Debug)]
pub enum Met {
    /// The offset after it.
    Whole(usize),
    /// The offset of the byte that is wrong in a tag.
    BadTag(usize),
    /// The offset of the 2 that would open a level too many.
    TooDeep(usize),
    /// The limit stands in the name that begins there.
    InName(usize),
    /// The limit stands in a body, so many levels inside the outermost.
    InBody(u32),
    /// The limit is right after a 27.
    InEscape,
}

/// What comes of the block that starts there, up to a limit that it may reach.
pub fn block_up_to(stream: &[u8], start: usize, limit: usize) -> Met
    requires some { start < limit }
    requires high { limit ≤ length stream.now }
    requires two { slice_index stream.now start ≡ 2 }
    requires short { limit < limits.block + start }
    requires early { length stream.now ≤ limits.stream }
    ensures { Meets limits stream.now start limit result }
{
    let mut at = match name_end(stream, start + 1, limit) {
        Named::Whole(end) => end,
        Named::Bad(offset) => return Met::BadTag(offset),
        Named::Cut => return Met::InName(start + 1),
    };
    let mut depth = 0u32;
    while at < limit {
        let c = stream[at];
        if c == 2 {
            if depth >= MOST_LEVELS - 1 {
                return Met::TooDeep(at);
            }
            match name_end(stream, at + 1, limit) {
                Named::Whole(end) => {
                    depth += 1;
                    at = end;
                }
                Named::Bad(offset) => return Met::BadTag(offset),
                Named::Cut => return Met::InName(at + 1),
            }
        } else if c == 5 {
            at += 1;
            if depth == 0 {
                return Met::Whole(at);
            }
            depth -= 1;
        } else if c == 27 {
            if limit - at < 2 {
                return Met::InEscape;
            }
            at += 2;
        } else {
            at = text_end(stream, at + 1, limit);
        }
    }
    Met::InBody(depth)
}
