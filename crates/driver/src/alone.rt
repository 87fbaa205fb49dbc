//! Events that are taken by themselves, and their effects.
ghost use Rattle.std.specs.Prelude.{◌<◌, ◌∷◌, [], None, Option, IfOk};
ghost use Rattle.disk_model.specs.Disk.{SameDisk};
ghost use Rattle.session_engine.specs.World.{World};
ghost use Rattle.session_engine.specs.Host.{IsHost};
ghost use Rattle.child_calls.specs.Calls.{Answer};
ghost use Rattle.child_edge.specs.Faithful.{due_of};
ghost use Rattle.child_edge.specs.inside.Ranks.{rank, rank_of};
ghost use Rattle.driver.specs.Drives.{Drives, DrivesUpTo};
ghost use Rattle.driver.specs.Items.{carry as carrying, printing, receive as receiving, take_alone as taking_alone, taking_due};

use crate::agenda::Agenda;
use crate::driver::{Driven, Driver};
use crate::report::Came;
use crate::sink::Sink;
use arrivals::Sources;
use child_calls::Seat;
use child_edge::{MOST_EVENTS, carry_out, receive_event, step};
use disk_model::Disk;
use host_events::{Event, Outcome};
use offline_programs::RunFault;
use std::slice;

impl<D: Disk, S: Sources, K: Sink, A: Agenda> Driver<D, S, K, A> {
    /// Takes an event by itself.
    fn take_event(&mut self, event: Event) -> Result<Outcome, RunFault>
        ensures same { SameDisk self.old.host.store.disk self.new.host.store.disk }
        ensures did { DrivesUpTo ⟦<Self as Driven>⟧.rules self.old (taking_alone event ∷ [])
            (λ o. carrying o ∷ []) result self.new }
        ensures less { (w : World) → IsHost self.old.host w
            → IfOk result (λ o. (a : Option Answer) → rank (due_of o.effect a) < rank_of event) }
    {
        match step(&mut self.host, event) {
            Ok(outcome) => Ok(outcome),
            Err(fault) => Err(RunFault::Host(fault)),
        }
    }

    /// Prints what an event gave by itself, and has the agenda heed it.
    fn print_event(&mut self, outcome: Outcome) -> Result<(), RunFault>
        ensures same { SameDisk self.old.host.store.disk self.new.host.store.disk }
        ensures did { Drives ⟦<Self as Driven>⟧.rules self.old
            (printing None (outcome ∷ []) []) result self.new }
    {
        if let Err(why) = self.print_lives(slice::from_ref(&outcome)) {
            return Err(why);
        }
        if let Err(why) = self.print_followed(&[]) {
            return Err(why);
        }
        self.heed(&Came::Alone(outcome))
    }

    /// Takes an event by itself, carries its effect out, and prints what it gave. The event of the fault that the call met.
    fn take_one(&mut self, event: Event) -> Result<Option<Event>, RunFault>
        ensures same { SameDisk self.old.host.store.disk self.new.host.store.disk }
        ensures did { DrivesUpTo ⟦<Self as Driven>⟧.rules self.old
            (taking_alone event ∷ []) taking_due result self.new }
        ensures less { (w : World) → IsHost self.old.host w
            → IfOk result (λ due. rank due < rank_of event) }
    {
        let outcome = match self.take_event(event) {
            Ok(outcome) => outcome,
            Err(why) => return Err(why),
        };
        let due = carry_out(&mut self.sources, &outcome.effect);
        match self.print_event(outcome) {
            Ok(()) => Ok(due),
            Err(why) => Err(why),
        }
    }

    /// Takes an event by itself, with all that comes of it: at most two events more.
    pub(crate) fn take_alone(&mut self, event: Event) -> Result<(), RunFault>
        ensures same { SameDisk self.old.host.store.disk self.new.host.store.disk }
        ensures did { Drives ⟦<Self as Driven>⟧.rules self.old
            (taking_alone event ∷ []) result self.new }
    {
        let mut due = Some(event);
        for _ in 0..MOST_EVENTS {
            let Some(event) = due else {
                return Ok(());
            };
            match self.take_one(event) {
                Ok(next) => due = next,
                Err(why) => return Err(why),
            }
        }
        Ok(())
    }

    /// Receives from this life, and takes what it gives by itself.
    pub(crate) fn receive(&mut self, seat: Seat) -> Result<(), RunFault>
        ensures same { SameDisk self.old.host.store.disk self.new.host.store.disk }
        ensures did { Drives ⟦<Self as Driven>⟧.rules self.old
            (receiving seat ∷ []) result self.new }
    {
        match receive_event(&mut self.sources, seat) {
            Ok(event) => self.take_alone(event),
            Err(_) => Err(RunFault::OutOfMemory),
        }
    }
}
