//! What bytes that spell a block stand for, put after the bytes of a room.
ghost use Rattle.std.specs.Prelude.{◌≡◌, ◌≤◌, ◌<◌, ◌+◌, ◌*◌, length};
ghost use Rattle.line_room.specs.inside.Puts.{Puts};

use crate::escapes::{put_escaped, put_spelled};
use crate::lanes::{LANES, put_lanes};
use crate::table::MOST_PRINTED;
use sheet_text::is_plain;

/// Where the next byte stands, and how many bytes are held.
#[derive(Clone, Copy, Debug)]
pub(crate) struct FillPoint {
    pub(crate) at: usize,
    pub(crate) used: usize,
}

/// Puts what stands there: a byte, or a 27 and the byte after it.
#[inline(always)]
fn put_one(bytes: &[u8], at: usize, room: &mut [u8], used: usize) -> FillPoint
    requires there { at < length bytes.now }
    requires place { used + 2 * MOST_PRINTED ≤ length room.old }
    ensures size { length room.new ≡ length room.old }
    ensures onward { at < result.at }
    ensures within { result.at ≤ length bytes.now }
    ensures fits { result.used ≤ length room.new }
    ensures puts { Puts bytes.now at result.at room.old used room.new result.used }
{
    let byte = bytes[at];
    if byte != 27 {
        return FillPoint {
            at: at + 1,
            used: put_spelled(byte, room, used),
        };
    }
    if bytes.len() - at < 2 {
        return FillPoint { at: at + 1, used };
    }
    FillPoint {
        at: at + 2,
        used: put_escaped(bytes[at + 1], room, used),
    }
}

/// Puts the bytes from there on that are printed as themselves, as many as are found 16 at once and have room.
#[inline(always)]
fn put_run(bytes: &[u8], at: usize, room: &mut [u8], used: usize) -> FillPoint
    requires there { at ≤ length bytes.now }
    requires place { used ≤ length room.old }
    ensures size { length room.new ≡ length room.old }
    ensures onward { at ≤ result.at }
    ensures within { result.at ≤ length bytes.now }
    ensures fits { result.used ≤ length room.new }
    ensures puts { Puts bytes.now at result.at room.old used room.new result.used }
{
    let mut to = at;
    let mut held = used;
    while bytes.len() - to >= LANES && room.len() - held >= LANES {
        let run = put_lanes(bytes, to, room, held);
        if run < LANES {
            return FillPoint {
                at: to + run,
                used: held + run,
            };
        }
        // Not by `run`, for which the next step would have to wait.
        to += LANES;
        held += LANES;
    }
    FillPoint { at: to, used: held }
}

/// Puts what stands there, and the bytes after it that are printed as themselves, as far as there is room.
#[inline(always)]
fn put_next(bytes: &[u8], at: usize, room: &mut [u8], used: usize) -> FillPoint
    requires there { at < length bytes.now }
    requires place { used + 2 * MOST_PRINTED ≤ length room.old }
    ensures size { length room.new ≡ length room.old }
    ensures onward { at < result.at }
    ensures within { result.at ≤ length bytes.now }
    ensures fits { result.used ≤ length room.new }
    ensures puts { Puts bytes.now at result.at room.old used room.new result.used }
{
    let next = put_one(bytes, at, room, used);
    if next.at < bytes.len() && is_plain(bytes[next.at], false) {
        return put_run(bytes, next.at, room, next.used);
    }
    next
}

/// Puts what stands from there on, as far as there is room.
#[inline(never)]
pub(crate) fn fill(bytes: &[u8], at: usize, room: &mut [u8], used: usize) -> FillPoint
    requires there { at < length bytes.now }
    requires place { used + 2 * MOST_PRINTED ≤ length room.old }
    ensures size { length room.new ≡ length room.old }
    ensures onward { at < result.at }
    ensures within { result.at ≤ length bytes.now }
    ensures fits { result.used ≤ length room.new }
    ensures puts { Puts bytes.now at result.at room.old used room.new result.used }
{
    let mut place = put_next(bytes, at, room, used);
    while place.at < bytes.len() && room.len() - place.used >= 2 * MOST_PRINTED {
        place = put_next(bytes, place.at, room, place.used);
    }
    place
}
