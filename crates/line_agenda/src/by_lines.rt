//! The agenda of lines.
ghost use Rattle.std.specs.Prelude.{◌≡◌, ◌+◌, ◌<◌, ◌^◌, ◌&&◌, ◌∷◌, [], Bool, IfNone, IfSome, None, true};
ghost use Rattle.session_engine.specs.World.{World};
ghost use Rattle.session_engine.specs.Host.{IsHost};
ghost use Rattle.driver.specs.Steps.{most_together};
ghost use Rattle.live.specs.Saying as saying;
ghost use Rattle.line_agenda.specs.Waits as waits;
ghost use Rattle.line_agenda.specs.Matters.{IsMatter};

use crate::doing::{Doing, Transaction};
use crate::matter::{Matter, matter_of, most_others};
use crate::waits::{input, is_stopped, patience, stop_if, warned};
use arrivals::{InputLines, Woken};
use child_calls::Seat;
use child_edge::waiting_lives;
use disk_model::Disk;
use driver::{Action, Agenda, Came, MOST_COUNTED};
use live::{Hold, Manner};
use offline_programs::RunFault;
use session_engine::{BufferedHost, Host, Joined, Joins};
use std::alloc::Global;
use std::io::Read;
use std::mem;
use tellings::Note;

/// Lines that are taken as they come, or one after the other, in a manner (docs/use/SCRIPT.md, "Live").
///
/// It reads its input, and says for each line what a driver does. A wait holds back the lines after it; a strict input stops after
/// the first line that goes wrong.
#[derive(Drop)]
pub struct ByLines<R> {
    pub(crate) lines: InputLines<R>,
    pub(crate) manner: Manner,
    /// How many lines were taken.
    pub(crate) number: u64,
    pub(crate) held: Hold,
    pub(crate) doing: Doing,
    /// Whose turn a watch returned.
    pub(crate) due: Option<Woken>,
    /// The transaction that is open.
    pub(crate) transaction: Option<Transaction>,
    /// Lives that are still to be interrupted.
    pub(crate) late: Vec<Seat>,
}

impl<R: Read> ByLines<R> {
    ghost use Rattle.line_agenda.specs.LinesAt.{doing_now, heeded, holding, lines_stand, stopped_at, with_late};
    ghost use Rattle.line_agenda.specs.Matters.{others};
    ghost use Rattle.line_agenda.specs.Says.{LinesSay, SaysLimit, SaysMatter};
    ghost use Rattle.line_agenda.specs.declared.doing.Doing.TheVariants as does;
    ghost use Rattle.live.specs.Arrivals.{input_at, patience_at};
    ghost use Rattle.arrivals.specs.Held.{Readiness};

    /// The lines of this input, of which none was taken yet.
    pub fn new(alloc: Global, manner: Manner, lines: InputLines<R>) -> ByLines<R>
        ensures input { result.lines ≡ lines }
        ensures manner { result.manner ≡ manner }
        ensures number { result.number ≡ 0 }
        ensures held { result.held ≡ Hold.Free }
        ensures doing { result.doing ≡ does.Nothing }
        ensures due { result.due ≡ None }
        ensures transaction { result.transaction ≡ None }
        ensures late { result.late.items ≡ [] }
    {
        ByLines {
            lines,
            manner,
            number: 0,
            held: Hold::Free,
            doing: Doing::Nothing,
            due: None,
            transaction: None,
            late: Vec::new(alloc),
        }
    }

    /// The number of the line after which a strict input stopped.
    pub fn stopped_at(&self) -> Option<u64>
        ensures { result ≡ stopped_at (lines_stand R.remaining self.now) }
    {
        match self.held {
            Hold::Stopped => Some(self.number),
            Hold::Free | Hold::Wait | Hold::Until(_) | Hold::Limited(_) | Hold::Warned(_) => None,
        }
    }

    /// The next life that is still to be interrupted.
    fn next_late(&mut self) -> Option<Seat>
        ensures some { IfSome result (λ seat. self.old.late.items ≡ seat ∷ self.new.late.items) }
        ensures none { IfNone result ((self.old.late.items ≡ []) × (self.new.late.items ≡ [])) }
        ensures stands { lines_stand R.remaining self.new ≡ with_late
            (lines_stand R.remaining self.old) self.new.late.items }
    {
        if self.late.is_empty() {
            return None;
        }
        Some(self.late.remove(0))
    }

    /// Interrupts this life, whose time is over.
    fn warn(&mut self, seat: Seat) -> Action
        ensures action { result ≡ Action.Interrupt seat.name }
        ensures stands { lines_stand R.remaining self.new ≡ doing_now
            (lines_stand R.remaining self.old) (does.Warning seat) }
    {
        let name = seat.name;
        self.doing = Doing::Warning(seat);
        Action::Interrupt(name)
    }

    /// There is none to be interrupted, and two seconds more begin.
    fn give_respite(&mut self, now: u64) -> Action
        ensures action { result ≡ Action.Nothing }
        ensures stands { lines_stand R.remaining self.new ≡ holding
            (lines_stand R.remaining self.old)
            (saying.stop_if (self.old.manner.strict && true) (waits.warned now)) }
    {
        self.held = stop_if(self.manner.strict, true, warned(now));
        Action::Nothing
    }

    /// The time is over that a line may take: each life in which an item waits is interrupted, one after the other.
    fn limit<D: Disk>(
        &mut self,
        alloc: Global,
        host: &Host<D>,
        now: u64,
    ) -> Result<Action, RunFault>
        ensures { (w : World) → self.old.late.items ≡ [] → IsHost host.now w
            → SaysLimit (lines_stand R.remaining self.old) w now result
            (lines_stand R.remaining self.new) }
    {
        let Ok(seats) = waiting_lives(alloc, host) else {
            return Err(RunFault::OutOfMemory);
        };
        self.late = seats;
        match self.next_late() {
            Some(seat) => Ok(self.warn(seat)),
            None => Ok(self.give_respite(now)),
        }
    }

    /// Hears this life, and others that are ready.
    fn hear(&mut self, seat: Seat) -> Action
        ensures action { result ≡ Action.Hear seat (others self.old.manner.strict) }
        ensures stands { lines_stand R.remaining self.new ≡ doing_now
            (lines_stand R.remaining self.old) does.Life }
    {
        self.doing = Doing::Life;
        Action::Hear(seat, most_others(self.manner.strict))
    }

    /// Watches the sources.
    fn watch(&self, now: u64) -> Action
        ensures { (there : Bool) × Readiness self.now.lines.held there
            × (result ≡ Action.Watch (input_at self.now.held there) (patience_at self.now.held now)) }
    {
        Action::Watch(
            input(self.held, self.lines.is_ready()),
            patience(self.held, now),
        )
    }

    /// Each life in which an item waits has stalled.
    fn stall(&mut self) -> Action
        ensures action { result ≡ Action.Stall }
        ensures stands { lines_stand R.remaining self.new ≡ doing_now
            (lines_stand R.remaining self.old) does.Stall }
    {
        self.doing = Doing::Stall;
        Action::Stall
    }

    /// What this matter asks for.
    fn say<D: Disk>(
        &mut self,
        alloc: Global,
        host: &Host<D>,
        now: u64,
        matter: Matter,
    ) -> Result<Action, RunFault>
        requires { self.old.number + most_together + 1 < 2 ^ 64 }
        ensures { (w : World) → self.old.late.items ≡ [] → IsHost host.now w
            → SaysMatter (lines_stand R.remaining self.old) w now matter result
            (lines_stand R.remaining self.new) }
    {
        match matter {
            Matter::Untimely => Ok(Action::Nothing),
            Matter::Watch => Ok(self.watch(now)),
            Matter::Input => self.take_input(alloc, host, now),
            Matter::Life(seat) => Ok(self.hear(seat)),
            Matter::Limit => self.limit(alloc, host, now),
            Matter::Stall => Ok(self.stall()),
        }
    }

    /// What the next action is about; what a watch returned is heeded by that.
    fn about(&mut self, now: u64) -> Matter
        ensures about { IsMatter self.old.manner.lines_first self.old.held self.old.due now result }
        ensures stands { lines_stand R.remaining self.new ≡ heeded
            (lines_stand R.remaining self.old) }
    {
        let due = self.due.take();
        matter_of(self.manner.lines_first, self.held, due, now)
    }

    /// What is next.
    fn next_action<D: Disk>(
        &mut self,
        alloc: Global,
        host: &Host<D>,
        now: u64,
    ) -> Result<Action, RunFault>
        ensures { (w : World) → IsHost host.now w
            → LinesSay (lines_stand R.remaining self.old) w now result
            (lines_stand R.remaining self.new) }
    {
        if is_stopped(self.held) {
            return Ok(Action::End);
        }
        if self.number > MOST_COUNTED {
            return Err(RunFault::InputTooLong);
        }
        match self.next_late() {
            Some(seat) => Ok(self.warn(seat)),
            None => {
                let matter = self.about(now);
                self.say(alloc, host, now, matter)
            }
        }
    }
}

impl<R: Read> Joins for ByLines<R> {
    ghost use Rattle.line_agenda.specs.LinesAt.{lines_stand};
    ghost use Rattle.line_agenda.specs.LinesRules.{LinesJoin};

    ghost joins = { λ a w first more b. LinesJoin (lines_stand R.remaining a) w first more (lines_stand R.remaining b) };

    fn join<D: Disk>(&mut self, alloc: Global, _host: &BufferedHost<D>) -> Joined {
        Joined {
            first: None,
            events: Vec::new(alloc),
        }
    }
}

impl<R: Read> Agenda for ByLines<R> {
    ghost use Rattle.driver.specs.Place.{action_rules};
    ghost use Rattle.line_agenda.specs.LinesAt.{lines_stand};
    ghost use Rattle.line_agenda.specs.Says.{LinesSay, LinesWoken};
    ghost use Rattle.line_agenda.specs.Heeds.{LinesHeed};

    ghost rules = { action_rules
        (λ a w now answer b. LinesSay (lines_stand R.remaining a) w now answer (lines_stand R.remaining b))
        (λ a woken b. LinesWoken (lines_stand R.remaining a) woken (lines_stand R.remaining b))
        (λ a w now came note b. LinesHeed (lines_stand R.remaining a) w now came note (lines_stand R.remaining b)) };

    fn next<D: Disk>(
        &mut self,
        alloc: Global,
        host: &Host<D>,
        now: u64,
    ) -> Result<Action, RunFault> {
        self.next_action(alloc, host, now)
    }

    fn wake(&mut self, woken: Woken) {
        self.due = Some(woken);
    }

    fn heed<D: Disk>(&mut self, host: &Host<D>, now: u64, came: &Came) -> Option<Note> {
        let doing = mem::replace(&mut self.doing, Doing::Nothing);
        self.heed_done(host, now, came, doing)
    }
}
