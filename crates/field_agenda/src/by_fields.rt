//! The agenda of fields.
ghost use Rattle.std.specs.Prelude.{◌≡◌, ◌≢◌, ◌⊎◌, ◌+◌, ◌<◌, ◌≤◌, ◌^◌, ℕ, Ok, Option, Some, length, slice_get, true};
ghost use Rattle.session_engine.specs.World.{World, sheet_in};
ghost use Rattle.session_engine.specs.Host.{IsHost};
ghost use Rattle.session_engine.specs.Gathers.{NoCheckpoints};
ghost use Rattle.worksheet.specs.Checks.{field_in};
ghost use Rattle.evaluation.specs.Beside.{NoneJoins};
ghost use Rattle.evaluation.specs.Meant.{EndsHere};
ghost use Rattle.driver.specs.Steps.{most_together};
ghost use Rattle.line_agenda.specs.Matters.{others};
ghost use Rattle.std.specs.Option.{option_copied};
ghost use Rattle.std.specs.Prelude.{IfOk, None, map};
ghost use Rattle.live.specs.Arrivals.{IsOver, patience_at};
ghost use Rattle.field_agenda.specs.Says as says;
ghost use Rattle.field_agenda.specs.Says.{asks_field};
ghost use Rattle.field_agenda.specs.Standing as standing;

use crate::asking::{Grouping, asked_together, evals, group_from, lasts_after, next_asked};
use crate::bounds::{has_few_fields, is_beyond, is_full};
use crate::heeding::{at_once_after, noted_of, wait_after, waited};
use crate::looking::{Selection, look_for};
use crate::stage::{FieldDoing, Stage, nothing_asked};
use crate::times::{late_now, life_due};
use arrivals::{Input, Woken};
use block_tree::Sequence;
use child_calls::Seat;
use child_edge::Interrupted;
use disk_model::Disk;
use driver::{Action, Agenda, Came, Show};
use evaluation::asking::stop_field;
use evaluation::beside::{Late, joining};
use evaluation::plan::{Stand, counts_of};
use evaluation::{EvalEnd, Plan, Programs};
use host_events::Event;
use line_agenda::matter::most_others;
use line_agenda::waits::{is_free, is_over, patience};
use live::Hold;
use offline_programs::RunFault;
use session_engine::{BufferedHost, Host, Joined, Joins};
use std::alloc::{AllocError, Global};
use std::mem;
use tellings::Note;
use worksheet::Field;

/// The fields of a worksheet that are evaluated by a plan (docs/use/EVAL.md).
///
/// It looks first whether each field and each program is there that is needed. Then fields that may wait side by side are asked
/// together, and what lives have that are ready is taken together.
#[derive(Drop)]
pub struct ByFields<P> {
    pub(crate) programs: P,
    pub(crate) plan: Plan,
    pub(crate) stage: Stage,
    /// The fields that are evaluated, in the order in which they are asked.
    pub(crate) ids: Sequence<u32>,
    pub(crate) stand: Stand,
    pub(crate) doing: FieldDoing,
    /// Whose turn a watch returned.
    pub(crate) due: Option<Woken>,
}

/// The interrupt for the field with this number; that there is no field any more is shown.
fn interrupt_for(id: u32, field: Option<&Field>) -> Action
    ensures { result ≡ says.interrupts_of id (option_copied field.entry) }
{
    match field {
        Some(field) => Action::Interrupt(field.session),
        None => Action::Show(Show::Note(Note::Over(id, Interrupted::NoSession))),
    }
}

/// The commands that ask fields, and where it stands then.
pub(crate) struct Asking {
    pub(crate) events: Vec<Event>,
    pub(crate) stand: Stand,
}

impl<P: Programs> ByFields<P> {
    ghost use Rattle.field_agenda.specs.Looks.{LooksFor};
    ghost use Rattle.field_agenda.specs.Says.{AsksFrom, ComesToItsEnd, FieldsGoOn, GoesUnheard, asked_with};
    ghost use Rattle.field_agenda.specs.Standing.{does_at, does_now, first_fields, warned_from};
    ghost use Rattle.field_agenda.specs.declared.stage.FieldDoing.TheVariants as does;

    /// The fields that this plan asks for, before it looks for them.
    pub fn new(alloc: Global, plan: Plan, programs: P) -> ByFields<P>
        ensures { result ≡ first_fields plan programs }
    {
        ByFields {
            programs,
            plan,
            stage: Stage::New,
            ids: Sequence::new(alloc),
            stand: nothing_asked(alloc),
            doing: FieldDoing::Nothing,
            due: None,
        }
    }

    /// How far it is.
    pub fn stage(&self) -> Stage
        ensures { result ≡ self.now.stage }
    {
        self.stage
    }

    /// Looks whether all is there that it needs.
    fn look<D: Disk>(&mut self, alloc: Global, host: &Host<D>) -> Result<Action, RunFault>
        ensures { (w : World) → IsHost host.now w
            → LooksFor (P.finds self.old.programs) self.old w result self.new }
    {
        match look_for(alloc, &self.plan, &self.programs, host.sheet()) {
            Ok(Selection { ids, stage }) => {
                self.ids = Sequence::from_vec(ids);
                self.stage = stage;
                Ok(Action::Nothing)
            }
            Err(_) => Err(RunFault::OutOfMemory),
        }
    }

    /// The commands that ask the fields which are asked together from this place on, and where it stands then.
    pub(crate) fn asking<D: Disk>(
        &self,
        alloc: Global,
        host: &BufferedHost<D>,
        at: usize,
    ) -> Result<Asking, AllocError>
        requires there { at < length self.now.ids }
        requires few { length self.now.ids < 2 ^ 31 }
        requires counted { self.now.stand.asked + most_together + 1 < 2 ^ 64 }
        ensures asks { (w : World) (id : ℕ) → IsHost host.now w
            → slice_get self.now.ids at ≡ Some id
            → IfOk result (λ asking. (asking.events.items ≡ map asks_field
            (asked_with self.now w at id))
            × (asking.stand ≡ standing.asked_together self.now.stand at (sheet_in w).fields
            (asked_with self.now w at id))) }
        ensures commands { IfOk result (λ asking. NoCheckpoints asking.events.items) }
    {
        let lasts = self.stand.lasts.as_slice();
        let ids = self.ids.as_slice();
        let grouping = Grouping {
            plan: &self.plan,
            lasts,
        };
        let group = group_from(alloc, host, &grouping, ids, at)?;
        let events = evals(alloc, group.as_slice())?;
        let asked = lasts_after(alloc, lasts, host.sheet(), group.as_slice())?;
        let stand = asked_together(&self.stand, at, group.as_slice(), asked);
        Ok(Asking { events, stand })
    }

    /// Asks the fields that are asked together from this place on.
    fn ask<D: Disk>(&mut self, alloc: Global, host: &Host<D>, at: usize) -> Result<Action, RunFault>
        requires there { at < length self.old.ids }
        requires few { length self.old.ids < 2 ^ 31 }
        requires counted { self.old.stand.asked + most_together + 1 < 2 ^ 64 }
        ensures { (w : World) (id : ℕ) → IsHost host.now w → slice_get self.old.ids at ≡ Some id
            → AsksFrom self.old w at id result self.new }
    {
        match self.asking(alloc, host.looks(), at) {
            Ok(Asking { events, stand }) => {
                self.stand = stand;
                self.doing = FieldDoing::Ask;
                Ok(Action::Lines(at as u64 + 1, events))
            }
            Err(_) => Err(RunFault::OutOfMemory),
        }
    }

    /// It comes to its end here.
    fn end<D: Disk>(&mut self, host: &Host<D>) -> Result<Action, RunFault>
        requires taken { self.old.stand.taken ≤ length self.old.ids }
        requires few { length self.old.ids < 2 ^ 31 }
        ensures { (w : World) (stopped : Option ℕ) → IsHost host.now w
            → EndsHere self.old.plan (sheet_in w).fields self.old.ids self.old.stand stopped
            → ComesToItsEnd self.old w stopped result self.new }
    {
        let sheet = host.sheet();
        if !has_few_fields(sheet) {
            return Err(RunFault::InputTooLong);
        }
        let stopped_after = stop_field(&self.plan, sheet, &self.stand);
        let all = self.ids.as_slice().len();
        let counts = counts_of(&self.plan, all as u64, sheet, &self.stand);
        self.stage = Stage::Counted(EvalEnd {
            stopped_after,
            counts,
        });
        Ok(Action::Show(Show::Note(Note::Counted(counts))))
    }

    /// Asks the next fields, where no item waits.
    fn ask_next<D: Disk>(
        &mut self,
        alloc: Global,
        host: &Host<D>,
        now: u64,
    ) -> Result<Action, RunFault>
        requires taken { self.old.stand.taken ≤ length self.old.ids }
        requires few { length self.old.ids < 2 ^ 31 }
        requires counted { self.old.stand.asked + most_together + 1 < 2 ^ 64 }
        requires free { self.old.stand.held ≡ Hold.Free }
        ensures { (w : World) → IsHost host.now w → GoesUnheard self.old w now result self.new }
    {
        match next_asked(&self.plan, host.sheet(), self.ids.as_slice(), &self.stand) {
            Some(at) => self.ask(alloc, host, at),
            None => self.end(host),
        }
    }

    /// Hears this life, and others that are ready.
    fn hear(&mut self, seat: Seat) -> Action
        ensures action { result ≡ Action.Hear seat (others self.old.plan.strict) }
        ensures stands { self.new ≡ does_now self.old does.Life }
    {
        self.doing = FieldDoing::Life;
        Action::Hear(seat, most_others(self.plan.strict))
    }

    /// The time of this field is over: its interpreter is interrupted.
    fn warn<D: Disk>(&mut self, host: &Host<D>, late: Late) -> Action
        requires counted { self.old.stand.overs + 1 < 2 ^ 64 }
        ensures action { (w : World) → IsHost host.now w
            → result ≡ says.interrupts_of late.id (field_in (sheet_in w).fields late.id) }
        ensures stands { self.new ≡ does_at self.old (does.Over late.id)
            (warned_from self.old.stand late.place) }
    {
        self.stand.first = late.place;
        self.stand.warned = true;
        self.stand.overs = self.stand.overs + 1;
        self.doing = FieldDoing::Over(late.id);
        interrupt_for(late.id, host.sheet().field(late.id))
    }

    /// Watches the sources, or takes it that lives have stalled where the two seconds after an interrupt are over.
    fn watch(&mut self, now: u64) -> Action
        ensures { ((IsOver self.old.stand.held now) × (result ≡ Action.Stall)
            × (self.new ≡ does_now self.old does.Stall))
            ⊎ ((IsOver self.old.stand.held now → ⊥)
            × (result ≡ Action.Watch Input.HeldBack (patience_at self.old.stand.held now))
            × (self.new ≡ self.old)) }
    {
        if is_over(self.stand.held, now) {
            self.doing = FieldDoing::Stall;
            return Action::Stall;
        }
        Action::Watch(Input::HeldBack, patience(self.stand.held, now))
    }

    /// What is next where items wait and no field is asked beside them.
    fn go_on<D: Disk>(&mut self, host: &Host<D>, now: u64) -> Action
        requires taken { self.old.stand.taken ≤ length self.old.ids }
        requires counted { self.old.stand.overs + 1 < 2 ^ 64 }
        requires held { self.old.stand.held ≢ Hold.Free }
        ensures { (w : World) → IsHost host.now w
            → NoneJoins self.old.plan w self.old.ids self.old.stand
            → GoesUnheard self.old w now (Ok result) self.new }
    {
        match late_now(host, self.ids.as_slice(), &self.stand, now) {
            Some(late) => self.warn(host, late),
            None => self.watch(now),
        }
    }

    /// What is next where items wait.
    fn ask_beside<D: Disk>(
        &mut self,
        alloc: Global,
        host: &Host<D>,
        now: u64,
    ) -> Result<Action, RunFault>
        requires taken { self.old.stand.taken ≤ length self.old.ids }
        requires few { length self.old.ids < 2 ^ 31 }
        requires counted { (self.old.stand.asked + most_together + 1 < 2 ^ 64)
            × (self.old.stand.overs + 1 < 2 ^ 64) }
        requires held { self.old.stand.held ≢ Hold.Free }
        ensures { (w : World) → IsHost host.now w → GoesUnheard self.old w now result self.new }
    {
        match joining(host.looks(), &self.plan, self.ids.as_slice(), &self.stand) {
            Some(at) => self.ask(alloc, host, at),
            None => Ok(self.go_on(host, now)),
        }
    }

    /// What is next where it is no life's turn.
    fn go_unheard<D: Disk>(
        &mut self,
        alloc: Global,
        host: &Host<D>,
        now: u64,
    ) -> Result<Action, RunFault>
        requires taken { self.old.stand.taken ≤ length self.old.ids }
        requires few { length self.old.ids < 2 ^ 31 }
        requires counted { (self.old.stand.asked + most_together + 1 < 2 ^ 64)
            × (self.old.stand.overs + 1 < 2 ^ 64) }
        ensures { (w : World) → IsHost host.now w → GoesUnheard self.old w now result self.new }
    {
        if is_free(self.stand.held) {
            self.ask_next(alloc, host, now)
        } else {
            self.ask_beside(alloc, host, now)
        }
    }

    /// Whose turn it is by a watch, if it is a life's; what the watch returned is heeded by that.
    fn take_due(&mut self) -> Option<Seat>
        ensures due { result ≡ standing.life_due self.old.due }
        ensures stands { self.new ≡ standing.seen_due self.old }
    {
        let due = self.due.take();
        life_due(due)
    }

    /// What is next where fields are asked, and more can be counted.
    fn next_counted<D: Disk>(
        &mut self,
        alloc: Global,
        host: &Host<D>,
        now: u64,
    ) -> Result<Action, RunFault>
        requires taken { self.old.stand.taken ≤ length self.old.ids }
        requires few { length self.old.ids < 2 ^ 31 }
        requires counted { (self.old.stand.asked + most_together + 1 < 2 ^ 64)
            × (self.old.stand.overs + 1 < 2 ^ 64) }
        ensures { (w : World) → IsHost host.now w → FieldsGoOn self.old w now result self.new }
    {
        match self.take_due() {
            Some(seat) => Ok(self.hear(seat)),
            None => self.go_unheard(alloc, host, now),
        }
    }

    /// What is next where fields are asked.
    fn next_action<D: Disk>(
        &mut self,
        alloc: Global,
        host: &Host<D>,
        now: u64,
    ) -> Result<Action, RunFault>
        ensures { (w : World) → IsHost host.now w → FieldsGoOn self.old w now result self.new }
    {
        if is_full(&self.stand) {
            return Err(RunFault::InputTooLong);
        }
        if is_beyond(self.stand.taken, self.ids.as_slice().len()) {
            return Err(RunFault::InputTooLong);
        }
        self.next_counted(alloc, host, now)
    }
}

impl<P: Programs> Joins for ByFields<P> {
    ghost use Rattle.field_agenda.specs.Joins.{FieldsJoin};

    ghost joins = { FieldsJoin };

    fn join<D: Disk>(&mut self, alloc: Global, host: &BufferedHost<D>) -> Joined {
        match self.join_after_life(alloc, host) {
            Some(joined) => joined,
            None => Joined {
                first: None,
                events: Vec::new(alloc),
            },
        }
    }
}

impl<P: Programs> Agenda for ByFields<P> {
    ghost use Rattle.field_agenda.specs.FieldsRules.{fields_actions};

    ghost rules = { fields_actions P.finds };

    fn next<D: Disk>(
        &mut self,
        alloc: Global,
        host: &Host<D>,
        now: u64,
    ) -> Result<Action, RunFault> {
        match self.stage {
            Stage::New => self.look(alloc, host),
            Stage::Going => self.next_action(alloc, host, now),
            Stage::Counted(_) => Ok(Action::End),
            Stage::NoField(_) => Ok(Action::End),
            Stage::NoProgram(_) => Ok(Action::End),
        }
    }

    fn wake(&mut self, woken: Woken) {
        self.due = Some(woken);
    }

    fn heed<D: Disk>(&mut self, host: &Host<D>, now: u64, came: &Came) -> Option<Note> {
        let doing = mem::replace(&mut self.doing, FieldDoing::Nothing);
        let before = waited(self.plan.limit, &self.stand, now, came);
        let held = wait_after(host, self.plan.limit, now, doing, before);
        self.stand.at_once = at_once_after(doing, self.stand.at_once, held);
        self.stand.held = held;
        noted_of(doing, came)
    }
}
