//! One run of a program over a disk, and an opening after it.
ghost use Rattle.disk_model.specs.Disk.{InModel};
ghost use Rattle.driver.specs.Over.{program_parts};
ghost use Rattle.driver.specs.Place.{agenda_rules, rules, source_rules};
ghost use Rattle.driver_visits.specs.Runs.{RunsThenOpens};
ghost use Rattle.session_engine.specs.Host.{disk_of_opening};

use arrivals::Sources;
use disk_model::Disk;
use driver::{Agenda, Over, Sink, run_over};
use journal::OpenFault;
use offline_programs::RunFault;
use session_engine::Host;
use std::alloc::Global;
use theorem::opened_after;

/// What a run gave back and answered, and what is opened on its disk after it.
#[derive(Drop)]
pub struct RanThenOpened<D: Disk, S, K, A> {
    pub sources: S,
    pub sink: K,
    pub agenda: A,
    /// Why the run ended early, where it did.
    pub answer: Result<(), RunFault>,
    pub opened: Result<Host<D>, OpenFault<D>>,
}

/// Runs a program over a disk, by the call that `run`, `live` and `eval` make, and opens the disk again.
///
/// The contract is the theorem of that call, whatever uses of the program there were before: at each moment of it a crash leaves the worksheet after
/// a prefix of its events, with all that was printed by then; and what opens after it has all that it reported.
pub fn run_then_open<D: Disk, S: Sources, K: Sink, A: Agenda>(
    alloc: Global,
    disk: D,
    sources: S,
    sink: K,
    agenda: A,
) -> RanThenOpened<D, S, K, A>
    ensures { InModel (D.view disk) (RunsThenOpens
        (rules (agenda_rules A.rules A.joins) (source_rules S.after S.wakes S.clock) K.rules)
        (program_parts (D.view disk) sources sink agenda)
        (program_parts (disk_of_opening D.view result.opened) result.sources result.sink
        result.agenda) result.opened result.answer) }
{
    host_laws::hosts_in_turn();
    recovery::one_sheet();
    let Over {
        disk,
        sources,
        sink,
        agenda,
        answer,
    } = run_over(alloc, disk, sources, sink, agenda);
    RanThenOpened {
        sources,
        sink,
        agenda,
        answer,
        opened: opened_after(alloc, disk),
    }
}
