//! Which fields are asked by the gate by which answers of others are made durable.
ghost use Rattle.std.specs.Prelude.{◌≡◌, ◌+◌, ◌<◌, ◌≤◌, ◌^◌, ℕ, IfNone, IfSome, None, Some, length, slice_get, true, false};
ghost use Rattle.session_engine.specs.World.{World};
ghost use Rattle.session_engine.specs.Host.{IsHost};
ghost use Rattle.session_engine.specs.Gathers.{NoCheckpoints};
ghost use Rattle.session_engine.specs.Joining.{most_joined};
ghost use Rattle.driver.specs.Steps.{most_together};
ghost use Rattle.field_agenda.specs.Standing as standing;

use crate::asking::next_asked;
use crate::bounds::{is_beyond, is_full};
use crate::by_fields::{Asking, ByFields};
use crate::stage::FieldDoing;
use crate::times::life_due;
use disk_model::Disk;
use evaluation::Programs;
use evaluation::beside::joining;
use host_events::{Command, Event};
use line_agenda::waits::is_free;
use live::go_on;
use session_engine::{BufferedHost, Joined, MOST_JOINED};
use std::alloc::Global;
use worksheet::Field;

/// Whether what lives have is being taken.
fn is_life(doing: FieldDoing) -> bool
    ensures { result ≡ true → doing ≡ FieldDoing.Life }
{
    match doing {
        FieldDoing::Life => true,
        FieldDoing::Nothing | FieldDoing::Ask | FieldDoing::Over(_) | FieldDoing::Stall => false,
    }
}

/// Whether the interpreter of this field's session runs.
fn is_running<D: Disk>(host: &BufferedHost<D>, field: Option<&Field>) -> bool {
    match field {
        Some(field) => host.life(field.session).is_some(),
        None => false,
    }
}

/// Whether no interpreter is started where this field is asked.
fn starts_none<D: Disk>(host: &BufferedHost<D>, event: &Event) -> bool {
    match event {
        Event::Command(command) => match command {
            Command::Eval { id } => is_running(host, host.sheet().field(*id)),
            _ => false,
        },
        _ => false,
    }
}

/// Whether so few fields are asked that they may join, and no interpreter is started for one. What is printed of an answer names
/// the interpreter of its session: it is to be the one that gave it.
fn are_joined<D: Disk>(host: &BufferedHost<D>, events: &[Event]) -> bool
    ensures { result ≡ true → length events.now ≤ most_joined }
{
    if events.len() > MOST_JOINED {
        return false;
    }
    for event in events {
        if !starts_none(host, event) {
            return false;
        }
    }
    true
}

impl<P: Programs> ByFields<P> {
    ghost use Rattle.field_agenda.specs.Says.{MayBeAsked};
    ghost use Rattle.field_agenda.specs.Joins.{FieldsJoin, JoinsFrom};

    /// Whether fields are asked by the gate of what is being done, if any can be: that is what lives have, and no other life is due.
    fn may_join(&self) -> bool
        ensures life { result ≡ true → self.now.doing ≡ FieldDoing.Life }
        ensures due { result ≡ true → standing.life_due self.now.due ≡ None }
    {
        is_life(self.doing) && life_due(self.due).is_none()
    }

    /// The place of the next fields that are asked, if any are now.
    fn next_place<D: Disk>(&self, host: &BufferedHost<D>) -> Option<usize>
        requires taken { self.now.stand.taken ≤ length self.now.ids }
        requires few { length self.now.ids < 2 ^ 31 }
        ensures within { IfSome result (λ at. at < length self.now.ids) }
        ensures may { (w : World) (id : ℕ) → IsHost host.now w
            → IfSome result (λ at. slice_get self.now.ids at ≡ Some id
            → MayBeAsked self.now w at id) }
    {
        let ids = self.ids.as_slice();
        if is_free(self.stand.held) {
            next_asked(&self.plan, host.sheet(), ids, &self.stand)
        } else {
            joining(host, &self.plan, ids, &self.stand)
        }
    }

    /// Asks the fields that are asked together from this place on, where they are no more than may join.
    fn join_from<D: Disk>(
        &mut self,
        alloc: Global,
        host: &BufferedHost<D>,
        at: usize,
    ) -> Option<Joined>
        requires there { at < length self.old.ids }
        requires few { length self.old.ids < 2 ^ 31 }
        requires counted { self.old.stand.asked + most_together + 1 < 2 ^ 64 }
        ensures joins { (w : World) (id : ℕ) → IsHost host.now w
            → slice_get self.old.ids at ≡ Some id → MayBeAsked self.old w at id
            → IfSome result (λ joined. JoinsFrom self.old w at id
            (joined.first, joined.events.items) self.new) }
        ensures none { IfNone result (self.new ≡ self.old) }
        ensures few { IfSome result (λ joined. length joined.events.items ≤ most_joined) }
        ensures commands { IfSome result (λ joined. NoCheckpoints joined.events.items) }
    {
        match self.asking(alloc, host, at) {
            Ok(Asking { events, stand }) => {
                if !are_joined(host, events.as_slice()) {
                    return None;
                }
                self.stand = stand;
                self.doing = FieldDoing::Ask;
                Some(Joined {
                    first: Some(at as u64 + 1),
                    events,
                })
            }
            Err(_) => None,
        }
    }

    /// Asks the next fields, where this wait goes on.
    fn join_next<D: Disk>(&mut self, alloc: Global, host: &BufferedHost<D>) -> Option<Joined>
        ensures joins { (w : World) → IsHost host.now w
            → IfSome result (λ joined. (k : ℕ) × (id : ℕ)
            × JoinsFrom self.old w k id (joined.first, joined.events.items) self.new) }
        ensures none { IfNone result (self.new ≡ self.old) }
        ensures few { IfSome result (λ joined. length joined.events.items ≤ most_joined) }
        ensures commands { IfSome result (λ joined. NoCheckpoints joined.events.items) }
    {
        if is_full(&self.stand) {
            return None;
        }
        if is_beyond(self.stand.taken, self.ids.as_slice().len()) {
            return None;
        }
        match self.next_place(host) {
            Some(at) => self.join_from(alloc, host, at),
            None => None,
        }
    }

    /// Asks the fields that it would ask next, if it would, as soon as what lives have was taken.
    pub(crate) fn join_after_life<D: Disk>(
        &mut self,
        alloc: Global,
        host: &BufferedHost<D>,
    ) -> Option<Joined>
        ensures joins { (w : World) → IsHost host.now w → IfSome result (λ joined.
            FieldsJoin self.old w joined.first joined.events.items self.new) }
        ensures none { IfNone result (self.new ≡ self.old) }
        ensures few { IfSome result (λ joined. length joined.events.items ≤ most_joined) }
        ensures commands { IfSome result (λ joined. NoCheckpoints joined.events.items) }
    {
        if !self.may_join() {
            return None;
        }
        let held = self.stand.held;
        self.stand.held = go_on(held, host);
        match self.join_next(alloc, host) {
            Some(joined) => Some(joined),
            None => {
                self.stand.held = held;
                None
            }
        }
    }
}
