//! Faults of a run.
ghost use Rattle.std.specs.Prelude.{◌≡◌, true, false};
ghost use Rattle.driver.specs.Steps.{fault_at_gate, fault_of_edits, fault_of_whole};

use child_edge::{EditsFault, TogetherFault};
use host_events::HostFault;
use offline_programs::RunFault;
use session_engine::WholeFault;

/// The fault of a run, where events weren't taken as one group.
pub(crate) fn gate_fault(fault: TogetherFault) -> RunFault
    ensures { result ≡ fault_at_gate fault }
{
    match fault {
        TogetherFault::OutOfMemory => RunFault::OutOfMemory,
        TogetherFault::Lost => RunFault::Host(HostFault::Disk),
        TogetherFault::Host(fault) => RunFault::Host(fault),
    }
}

/// The fault of a run, where commands weren't taken all or not at all.
pub(crate) fn whole_fault(fault: WholeFault) -> RunFault
    ensures { result ≡ fault_of_whole fault }
{
    match fault {
        WholeFault::NoRoom => RunFault::OutOfMemory,
        WholeFault::Disk => RunFault::Host(HostFault::Disk),
        WholeFault::Closed => RunFault::Host(HostFault::Closed),
    }
}

/// The fault of a run, where commands that only change the worksheet weren't taken.
pub(crate) fn edits_fault(fault: EditsFault) -> RunFault
    ensures { result ≡ fault_of_edits fault }
{
    match fault {
        EditsFault::OutOfMemory => RunFault::OutOfMemory,
        EditsFault::Lost => RunFault::Host(HostFault::Disk),
    }
}

/// Whether the sink failed.
pub(crate) fn is_output(why: RunFault) -> bool
    ensures yes { result ≡ true → why ≡ RunFault.Output }
    ensures no { result ≡ false → why ≡ RunFault.Output → ⊥ }
{
    matches!(why, RunFault::Output)
}
