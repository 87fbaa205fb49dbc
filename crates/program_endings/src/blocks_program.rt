//! The program `blocks --json`.
ghost use Rattle.program_endings.specs.BlocksProgram.{ObjectsEnd};

use crate::Ending;
use crate::live_program::end_reported;
use crate::seeing::Both;
use offline_programs::Says;
use std::alloc::Global;
use std::io::{Read, Write};
use stream_json::block_objects;
use tellings::InJson;

/// The whole program `blocks --json`: from `input` to `output`. A fault of its own is the last object there, and has a
/// line on `errors`.
pub fn run_block_objects<R: Read, W: Write, E: Says>(
    alloc: Global,
    input: &mut R,
    output: &mut W,
    errors: &mut E,
) -> Ending
    ensures { ObjectsEnd (R.remaining input.old)
        (⟦<(W, E) as Both>⟧.streams output.old output.new errors.old errors.new) result }
{
    let answer = block_objects(alloc, input, output);
    end_reported(answer, &InJson { alloc }, output, errors)
}
