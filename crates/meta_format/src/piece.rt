//! The bytes of a piece.

ghost use Rattle.std.specs.Prelude.{◌≡◌, ◌<◌, ◌≤◌, ◌+◌, [], ◌∷◌, OnOk, IfOk, IfErr, Err, drop, length};
ghost use Rattle.meta_format.specs.inside.Machine.{run};
ghost use Rattle.meta_format.specs.inside.Scan.{most_of, IsPlaced, Scans, scan_state};
ghost use Rattle.meta_format.specs.Found.{outers};

use crate::bounds::Bounds;
use crate::runs::{free_run, noise_run};
use crate::scan::{Found, Place, Scanner, Stop};
use std::alloc::Global;

/// Takes one byte, and keeps the block that it closes.
#[tactic(auto, using(crate::proofs::Scans::byte_rules))]
fn scan_byte(
    alloc: Global,
    bounds: Bounds,
    scanner: &mut Scanner,
    found: &mut Vec<Found>,
    c: u8,
) -> Result<(), Stop>
    requires placed { IsPlaced bounds.block scanner.old }
    requires block { 0 < bounds.block }
    ensures scans { Scans (most_of bounds) (scan_state scanner.old (outers found.old.items))
        (c ∷ []) result scanner.new found.new.items }
    ensures placed { OnOk result (IsPlaced bounds.block scanner.new) }
{
    match scanner.step(alloc, bounds, c) {
        Ok(None) => Ok(()),
        Ok(Some(block)) => {
            found.push(block)?;
            Ok(())
        }
        Err(stop) => Err(stop),
    }
}

/// Takes one byte of what is left of a piece, or as many of a text or of noise as can be taken at once, and
/// tells how many.
fn scan_some(
    alloc: Global,
    bounds: Bounds,
    scanner: &mut Scanner,
    found: &mut Vec<Found>,
    rest: &[u8],
) -> Result<usize, Stop>
    requires placed { IsPlaced bounds.block scanner.old }
    requires block { 0 < bounds.block }
    requires some { 0 < length rest.now }
    ensures ok { IfOk result (λ count. (0 < count) × (count ≤ length rest.now)
        × (run (most_of bounds) (scan_state scanner.old (outers found.old.items)) rest.now
        ≡ run (most_of bounds) (scan_state scanner.new (outers found.new.items))
        (drop count rest.now))) }
    ensures err { IfErr result
        (λ stop. Scans (most_of bounds) (scan_state scanner.old (outers found.old.items)) rest.now
        (Err stop) scanner.new found.new.items) }
    ensures placed { OnOk result (IsPlaced bounds.block scanner.new) }
{
    match scanner.place {
        Place::Body => {
            let count = free_run(bounds, scanner.start, scanner.at, rest);
            if count > 0 {
                scanner.take_run(bounds, &rest[..count])?;
                return Ok(count);
            }
        }
        Place::Outside => {
            let count = noise_run(bounds, scanner.at, rest);
            if count > 0 {
                scanner.skip_noise(bounds, &rest[..count]);
                return Ok(count);
            }
        }
        Place::Tag | Place::Escape => {}
    }
    match scan_byte(alloc, bounds, scanner, found, rest[0]) {
        Ok(()) => Ok(1),
        Err(stop) => Err(stop),
    }
}

/// Takes the bytes of a piece, up to the first fault, and keeps the blocks that they close.
pub fn scan_piece(
    alloc: Global,
    bounds: Bounds,
    scanner: &mut Scanner,
    found: &mut Vec<Found>,
    piece: &[u8],
) -> Result<(), Stop>
    requires placed { IsPlaced bounds.block scanner.old }
    requires block { 0 < bounds.block }
    ensures scans { Scans (most_of bounds) (scan_state scanner.old (outers found.old.items))
        piece.now result scanner.new found.new.items }
    ensures placed { OnOk result (IsPlaced bounds.block scanner.new) }
{
    let mut at = 0;
    while at < piece.len() {
        match scan_some(alloc, bounds, scanner, found, &piece[at..]) {
            Ok(count) => at += count,
            Err(stop) => return Err(stop),
        }
    }
    Ok(())
}
