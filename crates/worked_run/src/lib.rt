//! A run of six events with a crash in the fourth, from its events to its bytes, computed from the definitions of the host, of the
//! journal and of a crash (docs/trust/WORKED_RUN.md).
#![tactic(auto)]

ghost use Rattle.worked_run.specs.Run.{WorkedRun};

/// What the run of `specs/Run` does, which bytes it leaves, what a crash at each moment of its fourth event may make of them, and to
/// which worksheet that opens.
pub fn worked_run()
    ensures { WorkedRun }
{}
