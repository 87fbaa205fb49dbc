//! The driver, and its loop.
ghost use Rattle.std.specs.Prelude.{◌≡◌, ◌≤◌, ◌+◌, ◌<◌, ◌^◌, ℕ, [], ◌∷◌, Option, Some, None, IfOk, IfSome, IsSomeAnd, length, true, false};
ghost use Rattle.disk_model.specs.Disk.{SameDisk};
ghost use Rattle.session_engine.specs.World.{World};
ghost use Rattle.session_engine.specs.Host.{IsHost};
ghost use Rattle.driver.specs.Place.{Rules, agenda_rules, rules, source_rules};
ghost use Rattle.driver.specs.Drives.{Drives, DrivesUpTo, driver_parts};
ghost use Rattle.driver.specs.Items.{ask, group_of, heed as heeding, hear as hearing, interrupt as interrupting, items_by, rewrite as rewriting, stall as stalling, stalls, take as taking, print as to_print, printing, watch as watching};
ghost use Rattle.driver.specs.Steps.{most_together};
ghost use Rattle.driver.specs.Reports.{came as came_by, came_of};
ghost use Rattle.driver.specs.Reports as report;
ghost use Rattle.driver.specs.Runs.{DidSteps, again, again_by, left_at_end, left_by_answer, seen};
ghost use Rattle.child_edge.specs.Seats.{waits};
ghost use Rattle.arrivals.specs.Watching.{asked};

use crate::action::Action;
use crate::agenda::Agenda;
use crate::faults::{gate_fault, is_output};
use crate::hearing::hear_ready;
use crate::report::{Came, Show};
use crate::sink::Sink;
use crate::stalls::stalled_events;
use arrivals::{Input, Sources};
use child_calls::Seat;
use child_edge::{GaveTogether, MOST_TOGETHER, interrupt, serve_together, waiting_lives};
use disk_model::Disk;
use host_events::{Event, Outcome, Reply};
use offline_programs::RunFault;
use session_engine::Host;
use std::alloc::Global;
use std::slice;
use worksheet::Name;

/// The greatest number of a line from which on those of a group can be counted.
pub const MOST_COUNTED: u64 = u64::MAX - 1_025;

/// A host, the sources of what comes to it, the sink of what comes of that, and the agenda that says what is next.
pub struct Driver<D: Disk, S, K, A> {
    pub alloc: Global,
    pub host: Host<D>,
    pub sources: S,
    pub sink: K,
    pub agenda: A,
}

/// By which rules a driver goes on, for each kind of driver: `⟦<Self as Driven>⟧.rules`.
pub trait Driven {
    type Sources;

    type Sink;

    type Agenda;

    ghost rules: { Rules Self.Agenda Self.Sources Self.Sink };
}

impl<D: Disk, S: Sources, K: Sink, A: Agenda> Driven for Driver<D, S, K, A> {
    type Sources = S;

    type Sink = K;

    type Agenda = A;

    ghost rules = { rules (agenda_rules A.rules A.joins) (source_rules S.after S.wakes S.clock) K.rules };
}

/// Whether the lines of a group can't be counted from this one on.
pub(crate) fn is_uncounted(from: Option<u64>) -> bool
    ensures yes { result ≡ true → IsSomeAnd from (λ n. 2 ^ 64 ≤ n + most_together + 1) }
    ensures no { result ≡ false → IfSome from (λ n. n + most_together + 1 < 2 ^ 64) }
{
    match from {
        Some(number) => number > MOST_COUNTED,
        None => false,
    }
}

/// That the agenda is asked again, where this was done.
fn and_again(done: Result<(), RunFault>) -> Result<bool, RunFault>
    ensures { result ≡ again_by done }
{
    match done {
        Ok(()) => Ok(true),
        Err(why) => Err(why),
    }
}

impl<D: Disk, S: Sources, K: Sink, A: Agenda> Driver<D, S, K, A> {
    /// Takes events as one group: those of lives, or of lines from this one on.
    fn take(&mut self, from: Option<u64>, events: Vec<Event>) -> Result<GaveTogether, RunFault>
        ensures same { SameDisk self.old.host.store.disk self.new.host.store.disk }
        ensures did { DrivesUpTo ⟦<Self as Driven>⟧.rules self.old (taking from events.items ∷ [])
            (λ gave. printing from gave.outcomes.items gave.replies.items) result self.new }
        ensures few { IfOk result (λ gave. length gave.outcomes.items ≤ most_together) }
        ensures counted { IfOk result (λ gave. IfSome from (λ number. number + most_together + 1 < 2
            ^ 64)) }
    {
        if events.len() > MOST_TOGETHER {
            return Err(RunFault::InputTooLong);
        }
        if is_uncounted(from) {
            return Err(RunFault::InputTooLong);
        }
        match serve_together(self.alloc, &mut self.host, &mut self.sources, events) {
            Ok(gave) => {
                // There is one for each event.
                if gave.outcomes.len() > MOST_TOGETHER {
                    return Err(RunFault::InputTooLong);
                }
                Ok(gave)
            }
            Err(fault) => Err(gate_fault(fault)),
        }
    }

    /// Prints what events gave, those of lives or of lines from this one on.
    pub(crate) fn print_outcomes(
        &mut self,
        from: Option<u64>,
        outcomes: &[Outcome],
    ) -> Result<(), RunFault>
        requires few { length outcomes.now ≤ most_together }
        requires counted { IfSome from (λ number. number + most_together + 1 < 2 ^ 64) }
        ensures same { SameDisk self.old.host.store.disk self.new.host.store.disk }
        ensures did { Drives ⟦<Self as Driven>⟧.rules self.old
            (to_print (group_of from outcomes.now) ∷ []) result self.new }
    {
        match from {
            Some(number) => self.sink.lines(&self.host, number, outcomes),
            None => self.sink.lives(&self.host, outcomes),
        }
    }

    /// Prints the replies to what followed effects.
    pub(crate) fn print_followed(&mut self, replies: &[Reply]) -> Result<(), RunFault>
        ensures same { SameDisk self.old.host.store.disk self.new.host.store.disk }
        ensures did { Drives ⟦<Self as Driven>⟧.rules self.old
            (to_print (report.followed replies.now) ∷ []) result self.new }
    {
        self.sink.followed(&self.host, replies)
    }

    /// Shows this.
    fn show(&mut self, show: Show) -> Result<(), RunFault>
        ensures same { SameDisk self.old.host.store.disk self.new.host.store.disk }
        ensures did { Drives ⟦<Self as Driven>⟧.rules self.old
            (to_print (report.shown show) ∷ []) result self.new }
    {
        self.sink.show(&self.host, show)
    }

    /// Has the agenda heed what came, and prints what it notes of that.
    pub(crate) fn heed(&mut self, came: &Came) -> Result<(), RunFault>
        ensures same { SameDisk self.old.host.store.disk self.new.host.store.disk }
        ensures did { Drives ⟦<Self as Driven>⟧.rules self.old
            (heeding (came_of came.now) ∷ []) result self.new }
    {
        let now = self.sources.now();
        match self.agenda.heed(&self.host, now, came) {
            Some(note) => self.show(Show::Note(note)),
            None => Ok(()),
        }
    }

    /// Prints what events gave and what followed, and has the agenda heed it.
    pub(crate) fn print_group(
        &mut self,
        from: Option<u64>,
        gave: GaveTogether,
    ) -> Result<(), RunFault>
        requires few { length gave.outcomes.items ≤ most_together }
        requires counted { IfSome from (λ number. number + most_together + 1 < 2 ^ 64) }
        ensures same { SameDisk self.old.host.store.disk self.new.host.store.disk }
        ensures did { Drives ⟦<Self as Driven>⟧.rules self.old
            (printing from gave.outcomes.items gave.replies.items) result self.new }
    {
        if let Err(why) = self.print_outcomes(from, gave.outcomes.as_slice()) {
            return Err(why);
        }
        if let Err(why) = self.print_followed(gave.replies.as_slice()) {
            return Err(why);
        }
        self.heed(&Came::Gave(gave))
    }

    /// Takes events as one group, and prints what they gave.
    fn take_and_print(&mut self, from: Option<u64>, events: Vec<Event>) -> Result<(), RunFault>
        ensures same { SameDisk self.old.host.store.disk self.new.host.store.disk }
        ensures did { Drives ⟦<Self as Driven>⟧.rules self.old
            (taking from events.items ∷ []) result self.new }
    {
        match self.take(from, events) {
            Ok(gave) => self.print_group(from, gave),
            Err(why) => Err(why),
        }
    }

    /// Receives from this life, and from so many others at most that are ready, and takes what they have.
    fn hear(&mut self, seat: Seat, most: u64) -> Result<(), RunFault>
        ensures same { SameDisk self.old.host.store.disk self.new.host.store.disk }
        ensures did { Drives ⟦<Self as Driven>⟧.rules self.old
            (hearing seat most ∷ []) result self.new }
    {
        match hear_ready(self.alloc, &mut self.sources, seat, most) {
            Ok(events) => self.join_and_print(events),
            Err(_) => Err(RunFault::OutOfMemory),
        }
    }

    /// Prints what this line alone gave, and has the agenda heed it.
    pub(crate) fn print_alone(&mut self, line: u64, outcome: Outcome) -> Result<(), RunFault>
        requires { line + most_together + 1 < 2 ^ 64 }
        ensures same { SameDisk self.old.host.store.disk self.new.host.store.disk }
        ensures did { Drives ⟦<Self as Driven>⟧.rules self.old
            (printing (Some line) (outcome ∷ []) []) result self.new }
    {
        if let Err(why) = self.print_outcomes(Some(line), slice::from_ref(&outcome)) {
            return Err(why);
        }
        if let Err(why) = self.print_followed(&[]) {
            return Err(why);
        }
        self.heed(&Came::Alone(outcome))
    }

    /// Rewrites the journal, for which this line asks.
    fn rewrite(&mut self, line: u64) -> Result<(), RunFault>
        ensures same { SameDisk self.old.host.store.disk self.new.host.store.disk }
        ensures did { Drives ⟦<Self as Driven>⟧.rules self.old
            (rewriting line ∷ []) result self.new }
    {
        if line > MOST_COUNTED {
            return Err(RunFault::InputTooLong);
        }
        match self.host.checkpoint() {
            Ok(outcome) => self.print_alone(line, outcome),
            Err(fault) => Err(RunFault::Host(fault)),
        }
    }

    /// Takes that each life in which an item waits has stalled.
    fn stall(&mut self) -> Result<(), RunFault>
        ensures same { SameDisk self.old.host.store.disk self.new.host.store.disk }
        ensures did { Drives ⟦<Self as Driven>⟧.rules self.old (stalling ∷ []) result self.new }
    {
        let Ok(seats) = waiting_lives(self.alloc, &self.host) else {
            return Err(RunFault::OutOfMemory);
        };
        match stalled_events(self.alloc, seats.as_slice()) {
            Ok(events) => self.take_and_print(None, events),
            Err(_) => Err(RunFault::OutOfMemory),
        }
    }

    /// Interrupts the interpreter of this session.
    fn interrupt(&mut self, name: Name) -> Result<(), RunFault>
        ensures same { SameDisk self.old.host.store.disk self.new.host.store.disk }
        ensures did { Drives ⟦<Self as Driven>⟧.rules self.old
            (interrupting name ∷ []) result self.new }
    {
        let result = interrupt(&self.host, &mut self.sources, name);
        self.heed(&Came::Interrupted(result))
    }

    /// Watches the sources, and gives the agenda whose turn it is.
    fn watch(&mut self, input: Input, patience: Option<u64>) -> Result<(), RunFault>
        ensures same { SameDisk self.old.host.store.disk self.new.host.store.disk }
        ensures did { Drives ⟦<Self as Driven>⟧.rules self.old
            (watching (asked input patience) ∷ []) result self.new }
    {
        match self.sources.watch(input, patience) {
            Ok(woken) => {
                self.agenda.wake(woken);
                Ok(())
            }
            Err(_) => Err(RunFault::Input),
        }
    }

    /// Shows this, and has the agenda heed that it was shown.
    fn show_and_heed(&mut self, show: Show) -> Result<(), RunFault>
        ensures same { SameDisk self.old.host.store.disk self.new.host.store.disk }
        ensures did { Drives ⟦<Self as Driven>⟧.rules self.old
            (to_print (report.shown show) ∷ heeding (came_by [] []) ∷ []) result self.new }
    {
        match self.show(show) {
            Ok(()) => self.heed(&Came::Shown),
            Err(why) => Err(why),
        }
    }

    /// Does what the agenda asks for. Whether it is asked again.
    fn serve(&mut self, action: Action) -> Result<bool, RunFault>
        ensures same { SameDisk self.old.host.store.disk self.new.host.store.disk }
        ensures did { (n : ℕ) (w : World) → IsHost self.old.host w
            → DidSteps ⟦<Self as Driven>⟧.rules (seen n w (driver_parts self.old))
            (items_by action) (left_by_answer again) result
            (n, driver_parts self.new) }
    {
        match action {
            Action::End => Ok(false),
            Action::Nothing => Ok(true),
            Action::Watch(input, patience) => and_again(self.watch(input, patience)),
            Action::Hear(seat, most) => and_again(self.hear(seat, most)),
            Action::Lines(first, events) => and_again(self.take_and_print(Some(first), events)),
            Action::Transaction(first, edits) => and_again(self.take_transaction(first, edits)),
            Action::Edits { up_to, edits } => and_again(self.take_edits(up_to, edits)),
            Action::Alone(event) => and_again(self.take_alone(event)),
            Action::Receive(seat) => and_again(self.receive(seat)),
            Action::Checkpoint(line) => and_again(self.rewrite(line)),
            Action::Stall => and_again(self.stall()),
            Action::Interrupt(name) => and_again(self.interrupt(name)),
            Action::Show(show) => and_again(self.show_and_heed(show)),
        }
    }

    /// Asks the agenda what is next, and does it. Whether it is asked again.
    fn step(&mut self) -> Result<bool, RunFault>
        ensures same { SameDisk self.old.host.store.disk self.new.host.store.disk }
        ensures did { (n : ℕ) (w : World) → IsHost self.old.host w
            → DidSteps ⟦<Self as Driven>⟧.rules (seen n w (driver_parts self.old))
            (ask ∷ []) (left_by_answer again) result
            (n + 1, driver_parts self.new) }
    {
        let now = self.sources.now();
        match self.agenda.next(self.alloc, &self.host, now) {
            Ok(action) => self.serve(action),
            Err(why) => Err(why),
        }
    }

    /// Does what the agenda says, one after the other, to its end.
    fn go_on(&mut self) -> Result<(), RunFault>
        ensures same { SameDisk self.old.host.store.disk self.new.host.store.disk }
        ensures did { (w : World) → IsHost self.old.host w → (n : ℕ)
            × DidSteps ⟦<Self as Driven>⟧.rules (seen 0 w (driver_parts self.old))
            (ask ∷ []) (left_by_answer (λ done. [])) result
            (n, driver_parts self.new) }
    {
        for _ in 0..u64::MAX {
            match self.step() {
                Ok(true) => {}
                Ok(false) => return Ok(()),
                Err(why) => return Err(why),
            }
        }
        Err(RunFault::InputTooLong)
    }

    /// Does what the agenda says, one after the other, to its end. Where something failed before that, the fault is printed last
    /// of all, unless it is the sink's own.
    pub fn drive(&mut self) -> Result<(), RunFault>
        ensures same { SameDisk self.old.host.store.disk self.new.host.store.disk }
        ensures did { (w : World) → IsHost self.old.host w → (n : ℕ)
            × DidSteps ⟦<Self as Driven>⟧.rules (seen 0 w (driver_parts self.old))
            (ask ∷ []) left_at_end result
            (n, driver_parts self.new) }
    {
        match self.go_on() {
            Ok(()) => Ok(()),
            Err(why) => {
                if is_output(why) {
                    return Err(why);
                }
                let _ = self.sink.print_fault(&self.host, why);
                Err(why)
            }
        }
    }
}
