//! Events of lives, and those that join them.
ghost use Rattle.std.specs.Prelude.{◌≤◌, ◌∷◌, [], ℕ, List, IfOk, length};
ghost use Rattle.disk_model.specs.Disk.{SameDisk};
ghost use Rattle.session_engine.specs.World.{World};
ghost use Rattle.session_engine.specs.Host.{IsHost};
ghost use Rattle.driver.specs.Drives.{Drives, driver_parts};
ghost use Rattle.driver.specs.Items.{Item, join as joining, joined_lines, printing_joined};
ghost use Rattle.driver.specs.Steps.{most_together};
ghost use Rattle.driver.specs.Runs.{DidSteps, left_by_answer, seen};

use crate::agenda::Agenda;
use crate::driver::{Driven, Driver, MOST_COUNTED};
use crate::faults::gate_fault;
use crate::report::Came;
use crate::sink::Sink;
use arrivals::Sources;
use child_edge::{GaveJoined, MOST_TOGETHER, serve_joining};
use disk_model::Disk;
use host_events::{Event, Outcome};
use offline_programs::RunFault;

impl<D: Disk, S: Sources, K: Sink, A: Agenda> Driver<D, S, K, A> {
    /// Takes events of lives, and those with them that the agenda says: what all of them give is made durable at once.
    fn join(&mut self, events: Vec<Event>) -> Result<GaveJoined, RunFault>
        ensures same { SameDisk self.old.host.store.disk self.new.host.store.disk }
        ensures did { (n : ℕ) (rest : List Item) (w : World) → IsHost self.old.host w
            → DidSteps ⟦<Self as Driven>⟧.rules (seen n w (driver_parts self.old))
            (joining events.items ∷ rest)
            (left_by_answer (λ gave. printing_joined gave.first gave.outcomes.items gave.later.items
            gave.replies.items rest)) result
            (n, driver_parts self.new) }
        ensures few { IfOk result (λ gave. (length gave.outcomes.items ≤ most_together)
            × (length gave.later.items ≤ most_together)) }
    {
        if events.len() > MOST_TOGETHER {
            return Err(RunFault::InputTooLong);
        }
        match serve_joining(
            self.alloc,
            &mut self.host,
            &mut self.sources,
            &mut self.agenda,
            events,
        ) {
            Ok(gave) => Ok(gave),
            Err(fault) => Err(gate_fault(fault)),
        }
    }

    /// Prints what events gave that joined others: those of lines from this one on, where there are any.
    fn print_joined(&mut self, first: Option<u64>, later: &[Outcome]) -> Result<(), RunFault>
        requires few { length later.now ≤ most_together }
        ensures same { SameDisk self.old.host.store.disk self.new.host.store.disk }
        ensures did { (n : ℕ) (rest : List Item) (w : World) → IsHost self.old.host w
            → DidSteps ⟦<Self as Driven>⟧.rules (seen n w (driver_parts self.old))
            (joined_lines first later.now rest) (left_by_answer (λ done. rest)) result
            (n, driver_parts self.new) }
    {
        match first {
            None => Ok(()),
            Some(number) => {
                if number > MOST_COUNTED {
                    return Err(RunFault::InputTooLong);
                }
                self.print_outcomes(Some(number), later)
            }
        }
    }

    /// Prints what events of lives gave, and those that joined them, and what followed, and has the agenda heed it.
    fn print_all(&mut self, gave: GaveJoined) -> Result<(), RunFault>
        requires few { (length gave.outcomes.items ≤ most_together)
            × (length gave.later.items ≤ most_together) }
        ensures same { SameDisk self.old.host.store.disk self.new.host.store.disk }
        ensures did { (n : ℕ) (rest : List Item) (w : World) → IsHost self.old.host w
            → DidSteps ⟦<Self as Driven>⟧.rules (seen n w (driver_parts self.old))
            (printing_joined gave.first gave.outcomes.items gave.later.items gave.replies.items
            rest) (left_by_answer (λ done. rest)) result
            (n, driver_parts self.new) }
    {
        if let Err(why) = self.print_outcomes(None, gave.outcomes.as_slice()) {
            return Err(why);
        }
        if let Err(why) = self.print_joined(gave.first, gave.later.as_slice()) {
            return Err(why);
        }
        if let Err(why) = self.print_followed(gave.replies.as_slice()) {
            return Err(why);
        }
        self.heed(&Came::Joined(gave))
    }

    /// Takes events of lives with those that join them, and prints what they gave.
    pub(crate) fn join_and_print(&mut self, events: Vec<Event>) -> Result<(), RunFault>
        ensures same { SameDisk self.old.host.store.disk self.new.host.store.disk }
        ensures did { Drives ⟦<Self as Driven>⟧.rules self.old
            (joining events.items ∷ []) result self.new }
    {
        match self.join(events) {
            Ok(gave) => self.print_all(gave),
            Err(why) => Err(why),
        }
    }
}
