//! One run over a disk in memory, a crash of that disk at a moment of the run, and an opening of what the crash left.
ghost use Rattle.disk_model.specs.Memory.{view_of};
ghost use Rattle.driver.specs.Over.{program_parts};
ghost use Rattle.driver.specs.Place.{agenda_rules, rules, source_rules};
ghost use Rattle.driver_visits.specs.Runs.{CrashOpens, OpensCrashed, RunsThenCrashes};

use arrivals::Sources;
use disk_model::{Choice, MemoryDisk};
use driver::{Agenda, Over, Sink, run_over};
use journal::OpenFault;
use offline_programs::RunFault;
use session_engine::Host;
use std::alloc::Global;
use theorem::opened_after;

/// What is opened of a disk in memory after a crash.
#[derive(Drop)]
pub enum AfterCrash {
    /// Nothing: the disk saw fewer calls than the choice has before the crash.
    NotReached,
    /// Nothing: memory was refused for the image.
    NoMemory,
    /// The image was opened, with this answer.
    Opened(Result<Host<MemoryDisk>, OpenFault<MemoryDisk>>),
}

/// What a run gave back and answered, and what is opened of its disk after a crash.
#[derive(Drop)]
pub struct RanThenCrashed<S, K, A> {
    /// The disk as the run left it, which wasn't crashed.
    pub disk: MemoryDisk,
    pub sources: S,
    pub sink: K,
    pub agenda: A,
    /// Why the run ended early, where it did.
    pub answer: Result<(), RunFault>,
    pub opened: AfterCrash,
}

/// Opens what a crash by this choice leaves of a disk, where it came that far and there is memory for the image.
fn open_crashed(alloc: Global, disk: &MemoryDisk, choice: &Choice) -> AfterCrash
    ensures { CrashOpens choice.now (view_of disk.now) (OpensCrashed choice.now (view_of disk.now))
        result }
{
    if choice.moment > disk.calls() {
        return AfterCrash::NotReached;
    }
    match disk.crash(choice) {
        Ok(image) => AfterCrash::Opened(opened_after(alloc, image)),
        Err(_) => AfterCrash::NoMemory,
    }
}

/// Runs a program over a disk in memory, by the call that `run`, `live` and `eval` make, crashes the disk as it was after so many of its calls, and
/// opens what is left: each write since the last sync is there, or not, or torn, as the choice says.
///
/// The disk keeps the model by proof, so the contract rests on no assumption of disks: what opens is the worksheet after a prefix of the
/// run's events, with all that had been printed by then; where the run hadn't opened it, what was there. Nothing is opened where the run
/// made fewer calls than the choice has before the crash. Where it made as many, that is so only where memory is refused for the image;
/// that it was, no clause says.
pub fn run_then_crash<S: Sources, K: Sink, A: Agenda>(
    alloc: Global,
    disk: MemoryDisk,
    sources: S,
    sink: K,
    agenda: A,
    choice: &Choice,
) -> RanThenCrashed<S, K, A>
    ensures { CrashOpens choice.now (view_of result.disk) (λ opened. RunsThenCrashes
        (rules (agenda_rules A.rules A.joins) (source_rules S.after S.wakes S.clock) K.rules)
        (program_parts (view_of disk) sources sink agenda)
        (program_parts (view_of result.disk) result.sources result.sink result.agenda)
        choice.now opened result.answer) result.opened }
{
    host_laws::hosts_in_turn();
    recovery::one_sheet();
    let Over {
        disk,
        sources,
        sink,
        agenda,
        answer,
    } = run_over(alloc, disk, sources, sink, agenda);
    let opened = open_crashed(alloc, &disk, choice);
    RanThenCrashed {
        disk,
        sources,
        sink,
        agenda,
        answer,
        opened,
    }
}
