//! Commands that only change the worksheet, taken as one group that isn't numbered by lines.
ghost use Rattle.std.specs.Prelude.{◌∷◌, [], None};
ghost use Rattle.disk_model.specs.Disk.{SameDisk};
ghost use Rattle.driver.specs.Drives.{Drives, DrivesUpTo};
ghost use Rattle.driver.specs.Items.{print as to_print, printing, take_edits as taking_edits};
ghost use Rattle.driver.specs.Reports as report;

use crate::agenda::Agenda;
use crate::driver::{Driven, Driver};
use crate::faults::edits_fault;
use crate::report::Came;
use crate::sink::Sink;
use arrivals::Sources;
use child_edge::{GaveTogether, serve_edits};
use disk_model::Disk;
use host_events::Outcome;
use offline_programs::RunFault;
use session_engine::Edits;

impl<D: Disk, S: Sources, K: Sink, A: Agenda> Driver<D, S, K, A> {
    /// Takes commands as one group: all of them, or up to the first that is refused.
    fn take_first(&mut self, up_to: bool, edits: Edits) -> Result<Vec<Outcome>, RunFault>
        ensures same { SameDisk self.old.host.store.disk self.new.host.store.disk }
        ensures did { DrivesUpTo ⟦<Self as Driven>⟧.rules self.old (taking_edits up_to edits ∷ [])
            (λ outcomes. printing None outcomes.items []) result self.new }
    {
        match serve_edits(&mut self.host, edits, up_to) {
            Ok(outcomes) => Ok(outcomes),
            Err(fault) => Err(edits_fault(fault)),
        }
    }

    /// Prints what events gave whose lines have no number.
    pub(crate) fn print_lives(&mut self, outcomes: &[Outcome]) -> Result<(), RunFault>
        ensures same { SameDisk self.old.host.store.disk self.new.host.store.disk }
        ensures did { Drives ⟦<Self as Driven>⟧.rules self.old
            (to_print (report.lives outcomes.now) ∷ []) result self.new }
    {
        self.sink.lives(&self.host, outcomes)
    }

    /// Prints what commands gave, and has the agenda heed it.
    fn print_edits(&mut self, outcomes: Vec<Outcome>) -> Result<(), RunFault>
        ensures same { SameDisk self.old.host.store.disk self.new.host.store.disk }
        ensures did { Drives ⟦<Self as Driven>⟧.rules self.old
            (printing None outcomes.items []) result self.new }
    {
        if let Err(why) = self.print_lives(outcomes.as_slice()) {
            return Err(why);
        }
        if let Err(why) = self.print_followed(&[]) {
            return Err(why);
        }
        let replies = Vec::new(self.alloc);
        self.heed(&Came::Gave(GaveTogether { outcomes, replies }))
    }

    /// Takes commands as one group, all of them or up to the first that is refused, and prints what they gave.
    pub(crate) fn take_edits(&mut self, up_to: bool, edits: Edits) -> Result<(), RunFault>
        ensures same { SameDisk self.old.host.store.disk self.new.host.store.disk }
        ensures did { Drives ⟦<Self as Driven>⟧.rules self.old
            (taking_edits up_to edits ∷ []) result self.new }
    {
        match self.take_first(up_to, edits) {
            Ok(outcomes) => self.print_edits(outcomes),
            Err(why) => Err(why),
        }
    }
}
