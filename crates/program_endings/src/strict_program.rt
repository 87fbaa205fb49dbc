//! How a run ends that may have stopped after a line that went wrong.
ghost use Rattle.std.specs.Prelude.{◌≡◌};
ghost use Rattle.program_endings.specs.StrictProgram.{TellsStop, strict_status};

use crate::ending::ended;
use crate::messages::StoppedAt;
use crate::seeing::Heard;
use crate::{Ending, end_program};
use offline_programs::{RunFault, Says};

/// Ends the program by where a strict run stopped, which is printed on a line, or by its fault.
pub(crate) fn end_strict<E: Says>(answer: Result<Option<u64>, RunFault>, errors: &mut E) -> Ending
    ensures status { result.status ≡ strict_status answer }
    ensures reported { TellsStop (⟦<E as Heard>⟧.said errors.old errors.new) result.reported
        answer }
{
    match answer {
        Ok(None) => ended(0, true),
        Ok(Some(number)) => ended(3, errors.say(&StoppedAt { line: number })),
        Err(fault) => end_program(Err(fault), errors),
    }
}
