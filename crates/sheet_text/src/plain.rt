//! Runs of bytes that are printed as themselves.
ghost use Rattle.std.specs.Prelude.{◌≡◌, ◌+◌, ◌≤◌, length, true, false};
ghost use Rattle.sheet_text.specs.Escape.{is_plain};
ghost use Rattle.sheet_text.specs.inside.PlainRuns.{IsRunAt, IsRunIn, first_set};

use crate::escape::is_plain as is_plain_byte;
use std::simd::prelude::*;

/// How many bytes are looked at together.
const LANES: usize = 16;

#[inline(always)]
fn first_stop(mask: u64) -> usize
    ensures { result ≡ first_set mask 16 }
{
    if mask == 0 {
        LANES
    } else {
        mask.trailing_zeros() as usize
    }
}

/// How many of the next 16 bytes, from the first, stand for themselves on one line.
#[inline(always)]
fn run_on_line(bytes: &[u8], at: usize) -> usize
    requires { at + LANES ≤ length bytes.now }
    ensures { IsRunIn (is_plain false) bytes.now at LANES result }
{
    let v = u8x16::from_slice(&bytes[at..]);
    let stops = v.simd_lt(u8x16::splat(32)) | v.simd_eq(u8x16::splat(127));
    first_stop(stops.to_bitmask())
}

/// The same where tabs and line feeds stand for themselves.
#[inline(always)]
fn run_on_lines(bytes: &[u8], at: usize) -> usize
    requires { at + LANES ≤ length bytes.now }
    ensures { IsRunIn (is_plain true) bytes.now at LANES result }
{
    let v = u8x16::from_slice(&bytes[at..]);
    let low = v.simd_lt(u8x16::splat(32))
        & v.simd_ne(u8x16::splat(9))
        & v.simd_ne(u8x16::splat(10));
    let stops = low | v.simd_eq(u8x16::splat(127));
    first_stop(stops.to_bitmask())
}

#[inline(always)]
fn plain_run(bytes: &[u8], at: usize, keeps_lines: bool) -> usize
    requires { at + LANES ≤ length bytes.now }
    ensures { IsRunIn (is_plain keeps_lines) bytes.now at LANES result }
{
    if keeps_lines {
        run_on_lines(bytes, at)
    } else {
        run_on_line(bytes, at)
    }
}

/// Where the run from here on ends of bytes that stand for themselves.
#[inline(always)]
pub fn plain_end(bytes: &[u8], at: usize, keeps_lines: bool) -> usize
    requires { at ≤ length bytes.now }
    ensures { IsRunAt (is_plain keeps_lines) bytes.now at result }
{
    if at < bytes.len() && !is_plain_byte(bytes[at], keeps_lines) {
        return at;
    }
    let mut end = at;
    'by_lanes: while bytes.len() - end >= LANES {
        let run = plain_run(bytes, end, keeps_lines);
        if run < LANES {
            return end + run;
        }
        end += LANES;
    }
    while end < bytes.len() && is_plain_byte(bytes[end], keeps_lines) {
        end += 1;
    }
    end
}
