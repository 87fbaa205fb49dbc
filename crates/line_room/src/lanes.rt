//! Runs of bytes that are printed as themselves, 16 at once.
ghost use Rattle.std.specs.Prelude.{◌≡◌, ◌≤◌, ◌+◌, ◌++◌, drop, false, length, take};
ghost use Rattle.sheet_text.specs.Escape.{is_plain};
ghost use Rattle.sheet_text.specs.inside.PlainRuns.{IsRunIn, first_set};

use std::simd::prelude::*;

/// How many bytes are looked at together.
pub(crate) const LANES: usize = 16;

#[inline(always)]
fn first_stop(mask: u64) -> usize
    ensures { result ≡ first_set mask 16 }
{
    if mask == 0 {
        LANES
    } else {
        mask.trailing_zeros() as usize
    }
}

/// How many of the next 16 bytes, from the first, are printed as themselves.
#[inline(always)]
fn run_at(bytes: &[u8], at: usize) -> usize
    requires { at + LANES ≤ length bytes.now }
    ensures { IsRunIn (is_plain false) bytes.now at LANES result }
{
    let v = u8x16::from_slice(&bytes[at..]);
    let stops = v.simd_lt(u8x16::splat(32)) | v.simd_eq(u8x16::splat(127));
    first_stop(stops.to_bitmask())
}

/// Puts the next 16 bytes after those that a room holds, and tells how many of them are printed as themselves.
#[inline(always)]
pub(crate) fn put_lanes(bytes: &[u8], at: usize, room: &mut [u8], used: usize) -> usize
    requires there { at + LANES ≤ length bytes.now }
    requires place { used + LANES ≤ length room.old }
    ensures size { length room.new ≡ length room.old }
    ensures run { IsRunIn (is_plain false) bytes.now at LANES result }
    ensures put { take (used + LANES) room.new ≡ take used room.old ++ take LANES
        (drop at bytes.now) }
{
    room[used..used + LANES].copy_from_slice(&bytes[at..at + LANES]);
    run_at(bytes, at)
}
