//! Commands of lines that are taken all or not at all.
ghost use Rattle.std.specs.Prelude.{◌≤◌, ◌+◌, ◌<◌, ◌^◌, ◌∷◌, [], IfOk, OnOk, Some};
ghost use Rattle.disk_model.specs.Disk.{SameDisk};
ghost use Rattle.driver.specs.Drives.{Drives, DrivesUpTo};
ghost use Rattle.driver.specs.Items.{printing, take_transaction as taking_whole};
ghost use Rattle.session_engine.specs.Whole.{HasAtMost};
ghost use Rattle.driver.specs.inside.Wholes.{printing_whole};
ghost use Rattle.driver.specs.Steps.{most_together};

use crate::agenda::Agenda;
use crate::driver::{Driven, Driver, is_uncounted};
use crate::faults::whole_fault;
use crate::sink::Sink;
use arrivals::Sources;
use child_edge::{GaveTogether, MOST_TOGETHER, serve_whole};
use disk_model::Disk;
use host_events::Outcome;
use offline_programs::RunFault;
use session_engine::{Edits, Whole};

impl<D: Disk, S: Sources, K: Sink, A: Agenda> Driver<D, S, K, A> {
    /// Takes commands of lines from this one on as one group, all of them or none.
    fn take_all(&mut self, first: u64, edits: Edits) -> Result<Whole, RunFault>
        ensures same { SameDisk self.old.host.store.disk self.new.host.store.disk }
        ensures did { DrivesUpTo ⟦<Self as Driven>⟧.rules self.old (taking_whole first edits ∷ [])
            (printing_whole first) result self.new }
        ensures few { IfOk result (HasAtMost most_together) }
        ensures counted { OnOk result (first + most_together + 1 < 2 ^ 64) }
    {
        if edits.len() > MOST_TOGETHER {
            return Err(RunFault::InputTooLong);
        }
        if is_uncounted(Some(first)) {
            return Err(RunFault::InputTooLong);
        }
        match serve_whole(&mut self.host, edits) {
            Ok(whole) => Ok(whole),
            Err(fault) => Err(whole_fault(fault)),
        }
    }

    /// Prints a refusal of the line that comes so many after this one, and has the agenda heed it.
    fn print_refusal(&mut self, first: u64, before: u64, last: Outcome) -> Result<(), RunFault>
        requires few { before ≤ most_together }
        requires counted { first + most_together + 1 < 2 ^ 64 }
        ensures same { SameDisk self.old.host.store.disk self.new.host.store.disk }
        ensures did { Drives ⟦<Self as Driven>⟧.rules self.old
            (printing (Some (first + before)) (last ∷ []) []) result self.new }
    {
        let number = first + before;
        if is_uncounted(Some(number)) {
            return Err(RunFault::InputTooLong);
        }
        self.print_alone(number, last)
    }

    /// Prints what commands of lines from this one on gave, or the refusal for which none of them was taken.
    fn print_whole(&mut self, first: u64, whole: Whole) -> Result<(), RunFault>
        requires few { HasAtMost most_together whole }
        requires counted { first + most_together + 1 < 2 ^ 64 }
        ensures same { SameDisk self.old.host.store.disk self.new.host.store.disk }
        ensures did { Drives ⟦<Self as Driven>⟧.rules self.old
            (printing_whole first whole) result self.new }
    {
        match whole {
            Whole::Taken(outcomes) => {
                let replies = Vec::new(self.alloc);
                self.print_group(Some(first), GaveTogether { outcomes, replies })
            }
            Whole::Refused { before, last } => self.print_refusal(first, before.len() as u64, last),
        }
    }

    /// Takes commands of lines from this one on as one group, all of them or none, and prints what they gave.
    pub(crate) fn take_transaction(&mut self, first: u64, edits: Edits) -> Result<(), RunFault>
        ensures same { SameDisk self.old.host.store.disk self.new.host.store.disk }
        ensures did { Drives ⟦<Self as Driven>⟧.rules self.old
            (taking_whole first edits ∷ []) result self.new }
    {
        match self.take_all(first, edits) {
            Ok(whole) => self.print_whole(first, whole),
            Err(why) => Err(why),
        }
    }
}
