//! A program's input, whole.
ghost use Rattle.std.specs.Prelude.{◌≡◌, ◌<◌, ◌≤◌, IfErr, IfOk, IfSome, IsErrOf, length};
ghost use Rattle.offline_programs.specs.Input.{IsInputFault, longest_standard_input};

use crate::RunFault;
use std::alloc::Global;
use std::io::Read;

/// The most bytes that a program takes as its input.
pub const LONGEST_STANDARD_INPUT: usize = 67_108_864;

/// Reads a reader to its end, in parts of at most 65,536 bytes.
///
/// `Input` where the reader fails, an interruption included; `InputTooLong` where it gives more than
/// `LONGEST_STANDARD_INPUT` bytes; `OutOfMemory`. What was read before a fault is dropped.
#[tactic(auto, using(crate::proofs::Inputs::input_faults))]
pub fn read_input<R: Read>(alloc: Global, reader: &mut R) -> Result<Vec<u8>, RunFault>
    ensures whole { IfOk result (λ input. IfSome (R.remaining reader.old) (λ bytes. input.items
        ≡ bytes)) }
    ensures short { IfOk result (λ input. length input.items ≤ longest_standard_input) }
    ensures long { IsErrOf result RunFault.InputTooLong
        → IfSome (R.remaining reader.old) (λ bytes. longest_standard_input < length bytes) }
    ensures no_output { IsErrOf result RunFault.Output → ⊥ }
    ensures faults { IfErr result IsInputFault }
{
    let mut input = Vec::new(alloc);
    let mut part = [0u8; 65_536];
    for _ in 0..67_108_865u64 {
        let Ok(count) = reader.read(&mut part) else {
            return Err(RunFault::Input);
        };
        if count == 0 {
            return Ok(input);
        }
        if count > LONGEST_STANDARD_INPUT - input.len() {
            return Err(RunFault::InputTooLong);
        }
        if input.extend_from_slice(&part[..count]).is_err() {
            return Err(RunFault::OutOfMemory);
        }
    }
    // Each turn took a byte or more, and there were more turns than an input has bytes.
    unreachable!()
}
