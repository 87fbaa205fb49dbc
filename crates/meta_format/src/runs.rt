//! How many bytes can be taken at once.

ghost use Rattle.std.specs.Prelude.{◌≡◌, ◌≤◌, ◌<◌, ◌+◌, ℕ, length, false, slice_index, nat_eq};
ghost use Rattle.meta_format.specs.Spelling.{is_special};

use crate::bounds::Bounds;
use memchr::{memchr, memchr3};

/// How many of the first bytes spell themselves in a body.
#[tactic(auto, using(crate::proofs::Letters::passed))]
pub fn text_run(bytes: &[u8]) -> usize
    ensures bound { result ≤ length bytes.now }
    ensures plain { (k : ℕ) → k < result → is_special (slice_index bytes.now k) ≡ false }
{
    match memchr3(2, 5, 27, bytes) {
        Some(run) => run,
        None => bytes.len(),
    }
}

/// How many bytes from here on can't be one too many.
fn free_bytes(bounds: Bounds, start: u64, at: u64) -> u64
    requires begun { start ≤ at }
    requires block { 0 < bounds.block }
    ensures early { 0 < result → at + result ≤ bounds.stream }
    ensures short { 0 < result → at + result < bounds.block + start }
{
    if at >= bounds.stream || at - start >= bounds.block - 1 {
        return 0;
    }
    let of_stream = bounds.stream - at;
    let of_block = bounds.block - 1 - (at - start);
    if of_stream < of_block {
        of_stream
    } else {
        of_block
    }
}

/// How many of the first bytes of a text can be taken at once in the body of a block that starts there.
pub fn free_run(bounds: Bounds, start: u64, at: u64, bytes: &[u8]) -> usize
    requires begun { start ≤ at }
    requires block { 0 < bounds.block }
    ensures bound { result ≤ length bytes.now }
    ensures plain { (k : ℕ) → k < result → is_special (slice_index bytes.now k) ≡ false }
    ensures early { 0 < result → at + result ≤ bounds.stream }
    ensures short { 0 < result → at + result < bounds.block + start }
{
    if bytes.is_empty() || bytes[0] == 2 || bytes[0] == 5 || bytes[0] == 27 {
        return 0;
    }
    let free = free_bytes(bounds, start, at);
    let run = text_run(bytes);
    if run as u64 <= free {
        run
    } else {
        free as usize
    }
}

/// How many of the first bytes stand before the first 2.
#[tactic(auto, using(crate::proofs::Letters::passed_noise))]
pub fn before_two(bytes: &[u8]) -> usize
    ensures bound { result ≤ length bytes.now }
    ensures silent { (k : ℕ) → k < result → nat_eq (slice_index bytes.now k) 2 ≡ false }
    ensures two { result < length bytes.now → slice_index bytes.now result ≡ 2 }
{
    // A search takes longer than this where one block follows another.
    if !bytes.is_empty() && bytes[0] == 2 {
        return 0;
    }
    match memchr(2, bytes) {
        Some(run) => run,
        None => bytes.len(),
    }
}

/// How many of the first bytes can be skipped at once outside blocks.
pub fn noise_run(bounds: Bounds, at: u64, bytes: &[u8]) -> usize
    ensures bound { result ≤ length bytes.now }
    ensures silent { (k : ℕ) → k < result → nat_eq (slice_index bytes.now k) 2 ≡ false }
    ensures early { 0 < result → at + result ≤ bounds.stream }
{
    if at >= bounds.stream {
        return 0;
    }
    let free = bounds.stream - at;
    let run = before_two(bytes);
    if run as u64 <= free {
        run
    } else {
        free as usize
    }
}
