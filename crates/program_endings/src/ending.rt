//! How the program ends: its exit status, and what it says on which stream.
ghost use Rattle.std.specs.Prelude.{◌≡◌};
ghost use Rattle.program_endings.specs.BlocksProgram.{BlocksEnd};
ghost use Rattle.program_endings.specs.Ending.{TellsFault, answer_of, status_of};

use crate::blocks;
use crate::seeing::{Both, Heard};
use offline_programs::{RunFault, Says};
use std::alloc::Global;
use std::io::{Read, Write};

/// How the program ended.
#[derive(Clone, Copy, Debug, PartialEq, Eq)]
pub struct Ending {
    /// The exit status: 0 where all was done or help was shown; 1 where the program met a fault, the
    /// stream has one or an open block, a check isn't passed, or after an evaluation a field of the
    /// worksheet that isn't prose shows no answer, was over or passed over; 2 where the words ask for nothing that there is;
    /// 3 where a strict run or a strict evaluation stopped.
    pub status: u8,
    /// Whether all that it had to say, on standard output and on standard error, went out.
    pub reported: bool,
}

pub(crate) fn ended(status: u8, reported: bool) -> Ending
    ensures { result ≡ record { status = status; reported = reported } }
{
    Ending { status, reported }
}

/// The answer of a program that came to its end, or had a fault.
pub(crate) fn answered<T: Copy>(done: Result<T, RunFault>) -> Result<bool, RunFault>
    ensures { result ≡ answer_of done }
{
    match done {
        Ok(_) => Ok(true),
        Err(fault) => Err(fault),
    }
}

/// Ends a program by what it answered, whether all is well or its fault, which is printed on a line.
pub fn end_program<E: Says>(answer: Result<bool, RunFault>, errors: &mut E) -> Ending
    ensures status { result.status ≡ status_of answer }
    ensures reported { TellsFault (⟦<E as Heard>⟧.said errors.old errors.new) result.reported
        answer }
{
    match answer {
        Ok(true) => ended(0, true),
        Ok(false) => ended(1, true),
        Err(fault) => ended(1, errors.say(&fault)),
    }
}

/// The whole program `blocks`: from `input` to `output`, with the line of its fault on `errors`.
pub fn run_blocks<R: Read, W: Write, E: Says>(
    alloc: Global,
    input: &mut R,
    output: &mut W,
    errors: &mut E,
) -> Ending
    ensures { BlocksEnd (R.remaining input.old)
        (⟦<(W, E) as Both>⟧.streams output.old output.new errors.old errors.new) result }
{
    let answer = blocks(alloc, input, output);
    end_program(answer, errors)
}
