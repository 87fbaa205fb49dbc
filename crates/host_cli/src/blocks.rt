//! `blocks`, in words or in lines of JSON.
ghost use Rattle.command_words.specs.Asked as asked;
ghost use Rattle.host_cli.specs.Tasks.{DoesBlocks, DoesBlocksInJson};
ghost use Rattle.host_cli.specs.WholeProgram.{LeavesAlone};

use crate::outside::{Outside, System, SystemView};
use program_endings::{Ending, run_block_objects, run_blocks};
use std::alloc::Global;

/// `blocks`.
pub(crate) fn blocks<Y: System>(alloc: Global, outside: &mut Outside<Y>) -> Ending
    ensures does { DoesBlocks ⟦<Y as SystemView>⟧.outer outside.old outside.new result }
    ensures leaves { LeavesAlone outside.old outside.new asked.blocks }
{
    run_blocks(
        alloc,
        &mut outside.input,
        &mut outside.output,
        &mut outside.errors,
    )
}

/// `blocks --json`.
pub(crate) fn blocks_in_json<Y: System>(alloc: Global, outside: &mut Outside<Y>) -> Ending
    ensures does { DoesBlocksInJson ⟦<Y as SystemView>⟧.outer outside.old outside.new result }
    ensures leaves { LeavesAlone outside.old outside.new asked.blocks_json }
{
    run_block_objects(
        alloc,
        &mut outside.input,
        &mut outside.output,
        &mut outside.errors,
    )
}
