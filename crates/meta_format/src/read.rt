//! The reader of single blocks.

ghost use Rattle.std.specs.Prelude.{◌≡◌, ◌≤◌, length, IfOk, IsErrOf};
ghost use Rattle.block_tree.specs.Tree.{Tree};
ghost use Rattle.meta_format.specs.Limits.{limits};
ghost use Rattle.meta_format.specs.Spelling.{Spells};
ghost use Rattle.meta_format.specs.inside.Machine.{run, start_state, IsAlive};
ghost use Rattle.meta_format.specs.Found.{outers};
ghost use Rattle.meta_format.specs.inside.Scan.{last_outer, filling, FindsBlocks, unbounded};

use crate::bounds::UNBOUNDED;
use crate::piece::scan_piece;
use crate::scan::{Found, Scanner, Stop};
use block_tree::Block;
use std::alloc::Global;

/// Why bytes are not read as a block.
#[derive(Clone, Copy, Debug, PartialEq, Eq)]
pub enum ReadFault {
    /// They spell no block.
    NotABlock,
    /// Memory was refused.
    OutOfMemory,
}

/// The outer blocks of bytes without a fault.
#[tactic(auto, using(crate::proofs::Readings::scan_rules, crate::proofs::Held::placed_fresh))]
fn scan_all(alloc: Global, bytes: &[u8]) -> Result<Vec<Found>, ReadFault>
    ensures found { IfOk result (λ found. FindsBlocks bytes.now (outers found.items)) }
    ensures small { length bytes.now ≤ unbounded.block }
    ensures fault { IsErrOf result ReadFault.NotABlock
        → IsAlive (run unbounded start_state bytes.now).mode → ⊥ }
{
    let mut scanner = Scanner::new(alloc);
    let mut found = Vec::new(alloc);
    match scan_piece(alloc, UNBOUNDED, &mut scanner, &mut found, bytes) {
        Ok(()) => Ok(found),
        Err(Stop::OutOfMemory) => Err(ReadFault::OutOfMemory),
        Err(_) => Err(ReadFault::NotABlock),
    }
}

/// The last block, where it begins at the first byte and ends at the last.
#[tactic(auto, using(crate::proofs::Readings::last_rules))]
fn filling_block(mut found: Vec<Found>, size: u64) -> Option<Block>
    ensures { result ≡ filling size (last_outer (outers found.items)) }
{
    let last = found.pop()?;
    if last.start == 0 && last.stop == size {
        Some(last.block)
    } else {
        None
    }
}

/// Reads the block that the bytes spell, with nothing before it and nothing after it. Any spelling is
/// read, and it may have any length.
/// (docs/use/PROTOCOL.md, spelling of blocks.)
#[tactic(auto, using(crate::proofs::Readings::read_rules))]
pub fn read_block(alloc: Global, bytes: &[u8]) -> Result<Block, ReadFault>
    ensures ok { IfOk result (λ block. Spells limits block bytes.now) }
    ensures no_block { IsErrOf result ReadFault.NotABlock → (b : Tree) → Spells limits b bytes.now
        → ⊥ }
{
    let size = bytes.len() as u64;
    match scan_all(alloc, bytes) {
        Ok(found) => match filling_block(found, size) {
            Some(block) => Ok(block),
            None => Err(ReadFault::NotABlock),
        },
        Err(fault) => Err(fault),
    }
}
