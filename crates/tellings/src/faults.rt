//! The number and the name of a fault.
ghost use Rattle.std.specs.Prelude.{◌≡◌};
ghost use Rattle.tellings.specs.Faults as faults;

use host_events::HostFault;
use journal::OpenCause;
use offline_programs::RunFault;

/// The number of a fault.
pub(crate) fn number(why: RunFault) -> u32
    ensures { result ≡ faults.fault_number why }
{
    match why {
        RunFault::Host(HostFault::Closed) => 20,
        RunFault::Host(HostFault::Disk) => 21,
        RunFault::Host(HostFault::OutOfMemory) => 22,
        RunFault::Host(HostFault::JournalFull) => 23,
        RunFault::Open(OpenCause::Damaged(_)) => 30,
        RunFault::Open(OpenCause::NotASheet) => 31,
        RunFault::Open(OpenCause::Disk) => 32,
        RunFault::Open(OpenCause::OutOfMemory) => 33,
        RunFault::InUse => 35,
        RunFault::SecondFile => 38,
        RunFault::Input => 40,
        RunFault::InputTooLong => 41,
        RunFault::Output => 42,
        RunFault::OutOfMemory => 43,
    }
}

/// Its name.
pub(crate) fn name(why: RunFault) -> &'static str
    ensures { result.now ≡ faults.fault_name why }
{
    match why {
        RunFault::Host(HostFault::Closed) => "Closed",
        RunFault::Host(HostFault::Disk) | RunFault::Open(OpenCause::Disk) => "Disk",
        RunFault::Host(HostFault::OutOfMemory)
        | RunFault::Open(OpenCause::OutOfMemory)
        | RunFault::OutOfMemory => "OutOfMemory",
        RunFault::Host(HostFault::JournalFull) => "JournalFull",
        RunFault::Open(OpenCause::Damaged(_)) => "Damaged",
        RunFault::Open(OpenCause::NotASheet) => "NotASheet",
        RunFault::InUse => "InUse",
        RunFault::SecondFile => "SecondFile",
        RunFault::Input => "Input",
        RunFault::InputTooLong => "InputTooLong",
        RunFault::Output => "Output",
    }
}

/// The offset of a damage.
pub(crate) fn offset(why: RunFault) -> Option<u64>
    ensures { result ≡ faults.fault_offset why }
{
    match why {
        RunFault::Open(OpenCause::Damaged(gate)) => Some(gate),
        _ => None,
    }
}
