//! A program over a disk.
ghost use Rattle.disk_model.specs.Disk.{SameDisk};
ghost use Rattle.driver.specs.Place.{agenda_rules, rules, source_rules};
ghost use Rattle.driver.specs.Over.{Over as IsOver, program_parts};

use crate::agenda::Agenda;
use crate::driver::Driver;
use crate::sink::Sink;
use arrivals::Sources;
use child_edge::stop_all;
use disk_model::Disk;
use journal::OpenFault;
use offline_programs::RunFault;
use session_engine::Host;
use std::alloc::Global;

/// What a program over a disk gives back, and what it came to.
pub struct Over<D, S, K, A> {
    pub disk: D,
    pub sources: S,
    pub sink: K,
    pub agenda: A,
    /// Why it ended early, where it did.
    pub answer: Result<(), RunFault>,
}

/// Opens a disk, does what the agenda says to its end, stops each life that goes on, and gives all back.
///
/// `Open` where the disk isn't opened: nothing else was done, and nothing was printed. Any other fault but the sink's own was printed
/// last of all.
pub fn run_over<D: Disk, S: Sources, K: Sink, A: Agenda>(
    alloc: Global,
    disk: D,
    sources: S,
    sink: K,
    agenda: A,
) -> Over<D, S, K, A>
    ensures same { SameDisk (D.view disk) (D.view result.disk) }
    ensures over { IsOver (rules (agenda_rules A.rules A.joins)
        (source_rules S.after S.wakes S.clock) K.rules)
        (program_parts (D.view disk) sources sink agenda)
        (program_parts (D.view result.disk) result.sources result.sink result.agenda)
        result.answer }
{
    let host = match Host::open(alloc, disk) {
        Ok(host) => host,
        Err(OpenFault { cause, disk }) => {
            return Over {
                disk,
                sources,
                sink,
                agenda,
                answer: Err(RunFault::Open(cause)),
            };
        }
    };
    let mut driver = Driver {
        alloc,
        host,
        sources,
        sink,
        agenda,
    };
    let answer = driver.drive();
    let Driver {
        alloc: _,
        host,
        mut sources,
        sink,
        agenda,
    } = driver;
    stop_all(&host, &mut sources);
    Over {
        disk: host.close(),
        sources,
        sink,
        agenda,
        answer,
    }
}
