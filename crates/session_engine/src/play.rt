//! Events in order.
ghost use Rattle.std.specs.Prelude.{◌≡◌, ◌≤◌, ◌<◌, ◌+◌, ◌++◌, ◌∷◌, ◌&&◌, [], false, true, IfOk, IfErr, OnErr, OnOk, length, vec_len, vec_capacity};
ghost use Rattle.std.specs.List.{list_any};
ghost use Rattle.disk_model.specs.Disk.{SameDisk};
ghost use Rattle.session_engine.specs.World.{World};
ghost use Rattle.session_engine.specs.Host.{IsHost};
ghost use Rattle.session_engine.specs.Crash.{Halts, HasPlayed, Moments, PlaysClosed, StoppedAt, TookEach};
ghost use Rattle.recovery.specs.Sheets.{GathersOn};
ghost use Rattle.session_engine.specs.Gathers.{NoCheckpoints, OnlyAtOnce, is_checkpoint};
ghost use Rattle.session_engine.specs.Groups.{HaltsGroup, HaltsUpTo, PlaysGroupClosed, TookGroup, TookUpTo};
ghost use Rattle.session_engine.specs.Groups as group;
ghost use Rattle.session_engine.specs.inside.Until.{HaltsBy, NoneRefused, PlayedBy, TookBy};

use crate::{BufferedHost, Host};
use disk_model::Disk;
use host_events::{Command, Event, HostFault, Outcome, Reply};
use journal::Group;

/// Why not all events were taken.
#[derive(Drop)]
pub enum PlayFault {
    /// There is no memory for the outcomes. No event was taken, and here they are.
    NoRoom(Vec<Event>),
    /// A fault, after these outcomes of the first events. The events after the fault are dropped.
    Stopped {
        outcomes: Vec<Outcome>,
        fault: HostFault,
    },
}

/// Why not all events of a group were taken, or none is reported.
#[derive(Drop)]
pub enum GroupFault {
    /// One of the events is a checkpoint. None was taken, and here they are.
    Checkpoint(Vec<Event>),
    /// There is no memory for the group or the outcomes. No event was taken, and here they are.
    NoRoom(Vec<Event>),
    /// A fault that isn't the disk's, after these outcomes of the first events, which are durable. The
    /// events after the fault are dropped.
    Stopped {
        outcomes: Vec<Outcome>,
        fault: HostFault,
    },
    /// The disk failed: of none of the events anything may be reported.
    Disk,
}

impl<D: Disk> Host<D> {
    /// Takes events in order, each as a `step` takes it, up to the first fault. So an event that gives no
    /// op, and one that fails but for the disk, writes and syncs nothing; a checkpoint gives none, and
    /// rewrites an area.
    ///
    /// At every moment each image of the disk is one of the worksheet after some of the first events.
    /// Those whose outcomes are returned are among them once the call has ended.
    pub fn play(&mut self, events: Vec<Event>) -> Result<Vec<Outcome>, PlayFault>
        ensures same { SameDisk self.old.store.disk self.new.store.disk }
        ensures played { (w : World) → IsHost self.old w
            → IfOk result (λ outcomes. HasPlayed w events.items [] outcomes.items self.new) }
        ensures each { (w : World) → IsHost self.old w
            → IfOk result (λ outcomes. (v : World)
            × TookEach w events.items self.old outcomes.items v self.new) }
        ensures moments { (w : World) → IsHost self.old w
            → IfOk result
            (λ outcomes. Moments w events.items outcomes.items self.old.store.disk
            self.new.store.disk) }
        ensures halts { (w : World) → IsHost self.old w
            → IfErr result (Halts w events.items self.old self.new) }
        ensures closed { self.old.closed ≡ true → PlaysClosed events.items result }
        ensures still { self.old.closed ≡ true → self.new ≡ self.old }
    {
        self.inner.play(events)
    }

    /// Takes events in order as `play` does, none of which may be a checkpoint, and makes all that they give
    /// durable at once: one gate commits it, by the calls of one record.
    ///
    /// At every moment each image of the disk is one of the worksheet before the call, or of the one after all
    /// events that were taken.
    pub fn play_group(&mut self, events: Vec<Event>) -> Result<Vec<Outcome>, GroupFault>
        ensures same { SameDisk self.old.store.real self.new.store.real }
        ensures took { (w : World) → IsHost self.old w
            → IfOk result (λ outcomes. TookGroup w events.items outcomes.items self.old self.new) }
        ensures halts { (w : World) → IsHost self.old w
            → IfErr result (HaltsGroup w events.items self.old self.new) }
        ensures closed { self.old.closed ≡ true → PlaysGroupClosed result }
        ensures still { self.old.closed ≡ true → self.new ≡ self.old }
    {
        self.inner.play_group(events)
    }

    /// Takes events as `play_group` does, but none after the first one that is refused, whose outcome is the
    /// last. The later events are dropped.
    pub fn play_group_up_to(&mut self, events: Vec<Event>) -> Result<Vec<Outcome>, GroupFault>
        ensures same { SameDisk self.old.store.real self.new.store.real }
        ensures took { (w : World) → IsHost self.old w
            → IfOk result (λ outcomes. TookUpTo w events.items outcomes.items self.old self.new) }
        ensures halts { (w : World) → IsHost self.old w
            → IfErr result (HaltsUpTo w events.items self.old self.new) }
        ensures closed { self.old.closed ≡ true → PlaysGroupClosed result }
        ensures still { self.old.closed ≡ true → self.new ≡ self.old }
    {
        self.inner.play_group_up_to(events)
    }
}

impl<D: Disk> BufferedHost<D> {
    /// Takes events in order, each as a `step` takes it, up to the first fault.
    pub(crate) fn play(&mut self, events: Vec<Event>) -> Result<Vec<Outcome>, PlayFault>
        ensures same { SameDisk self.old.store.disk self.new.store.disk }
        ensures played { (w : World) → IsHost self.old w
            → IfOk result (λ outcomes. HasPlayed w events.items [] outcomes.items self.new) }
        ensures each { (w : World) → IsHost self.old w
            → IfOk result (λ outcomes. (v : World)
            × TookEach w events.items self.old outcomes.items v self.new) }
        ensures moments { (w : World) → IsHost self.old w
            → IfOk result
            (λ outcomes. Moments w events.items outcomes.items self.old.store.disk
            self.new.store.disk) }
        ensures halts { (w : World) → IsHost self.old w
            → IfErr result (Halts w events.items self.old self.new) }
        ensures closed { self.old.closed ≡ true → PlaysClosed events.items result }
        ensures still { self.old.closed ≡ true → self.new ≡ self.old }

        // While records are owed, events of which none is a checkpoint leave the disk as it stands alone, and
        // the disk can't fail.
        ensures gathers { NoCheckpoints events.items → GathersOn self.old.store self.new.store }
        ensures at_once { NoCheckpoints events.items → IfErr result (OnlyAtOnce self.old.store) }
        ensures written { self.old.store.gathers ≡ false → self.new.store.gathers ≡ false }
    {
        let mut outcomes = Vec::new(self.engine.alloc);
        if outcomes.reserve_exact(events.len()).is_err() {
            return Err(PlayFault::NoRoom(events));
        }
        for event in events {
            match self.step(event) {
                Ok(outcome) => add(&mut outcomes, outcome),
                Err(fault) => return Err(PlayFault::Stopped { outcomes, fault }),
            }
        }
        Ok(outcomes)
    }

    /// Takes events in order, none of which may be a checkpoint, and makes all that they give durable at once,
    /// with what was owed before: one gate commits it. From then on records are written at once.
    pub(crate) fn play_group(&mut self, events: Vec<Event>) -> Result<Vec<Outcome>, GroupFault>
        ensures same { SameDisk self.old.store.real self.new.store.real }
        ensures took { (w : World) → IsHost self.old w
            → IfOk result (λ outcomes. TookGroup w events.items outcomes.items self.old self.new) }
        ensures halts { (w : World) → IsHost self.old w
            → IfErr result (HaltsGroup w events.items self.old self.new) }
        ensures closed { self.old.closed ≡ true → PlaysGroupClosed result }
        ensures still { self.old.closed ≡ true → self.new ≡ self.old }
        ensures written { self.old.store.gathers ≡ false → self.new.store.gathers ≡ false }
    {
        self.play_flushed(events, false)
    }

    /// Takes events as `play_group` does, but none after the first one that is refused.
    pub(crate) fn play_group_up_to(
        &mut self,
        events: Vec<Event>,
    ) -> Result<Vec<Outcome>, GroupFault>
        ensures same { SameDisk self.old.store.real self.new.store.real }
        ensures took { (w : World) → IsHost self.old w
            → IfOk result (λ outcomes. TookUpTo w events.items outcomes.items self.old self.new) }
        ensures halts { (w : World) → IsHost self.old w
            → IfErr result (HaltsUpTo w events.items self.old self.new) }
        ensures closed { self.old.closed ≡ true → PlaysGroupClosed result }
        ensures still { self.old.closed ≡ true → self.new ≡ self.old }
        ensures written { self.old.store.gathers ≡ false → self.new.store.gathers ≡ false }
    {
        self.play_flushed(events, true)
    }

    // Takes events, or those up to a refusal, in a group of their own, and flushes it.
    fn play_flushed(&mut self, events: Vec<Event>, up_to: bool) -> Result<Vec<Outcome>, GroupFault>
        ensures same { SameDisk self.old.store.real self.new.store.real }
        ensures took { (w : World) → IsHost self.old w
            → IfOk result (λ outcomes. TookBy up_to w events.items outcomes.items self.old
            self.new) }
        ensures halts { (w : World) → IsHost self.old w
            → IfErr result (HaltsBy up_to w events.items self.old self.new) }
        ensures closed { self.old.closed ≡ true → PlaysGroupClosed result }
        ensures still { self.old.closed ≡ true → self.new ≡ self.old }
        ensures written { self.old.store.gathers ≡ false → self.new.store.gathers ≡ false }
    {
        if self.closed {
            return Err(GroupFault::Stopped {
                outcomes: Vec::new(self.engine.alloc),
                fault: HostFault::Closed,
            });
        }
        if has_checkpoint(&events) {
            return Err(GroupFault::Checkpoint(events));
        }
        // Called for its contract alone: it says that the store isn't closed.
        let _sheet = self.sheet();
        match Group::new(self.engine.alloc) {
            Ok(group) => self.play_owed(group, events, up_to),
            Err(_) => Err(GroupFault::NoRoom(events)),
        }
    }

    // Takes events, or those up to a refusal, in this group, and flushes it.
    fn play_owed(
        &mut self,
        group: Group,
        events: Vec<Event>,
        up_to: bool,
    ) -> Result<Vec<Outcome>, GroupFault>
        requires group { group.payloads ≡ [] }
        requires none { NoCheckpoints events.items }
        requires open { self.old.store.closed ≡ false }
        ensures same { SameDisk self.old.store.real self.new.store.real }
        ensures took { (w : World) → IsHost self.old w
            → IfOk result (λ outcomes. TookBy up_to w events.items outcomes.items self.old
            self.new) }
        ensures halts { (w : World) → IsHost self.old w
            → IfErr result (HaltsBy up_to w events.items self.old self.new) }
        ensures written { self.new.store.gathers ≡ false }
    {
        self.gather(group);
        match self.play_until(events, up_to) {
            Ok(outcomes) => match self.flush() {
                Ok(()) => Ok(outcomes),
                Err(_) => Err(GroupFault::Disk),
            },
            Err(PlayFault::NoRoom(events)) => match self.flush() {
                Ok(()) => Err(GroupFault::NoRoom(events)),
                Err(_) => Err(GroupFault::Disk),
            },
            Err(PlayFault::Stopped { outcomes, fault }) => match self.flush() {
                Ok(()) => Err(GroupFault::Stopped { outcomes, fault }),
                Err(_) => Err(GroupFault::Disk),
            },
        }
    }

    // Takes events in order, up to the first one that has a fault, or, where that is asked for, is refused.
    fn play_until(&mut self, events: Vec<Event>, up_to: bool) -> Result<Vec<Outcome>, PlayFault>
        ensures same { SameDisk self.old.store.disk self.new.store.disk }
        ensures played { (w : World) → IsHost self.old w
            → IfOk result (λ outcomes. PlayedBy up_to w events.items outcomes.items self.new) }
        ensures halts { (w : World) → IsHost self.old w
            → IfErr result (Halts w events.items self.old self.new) }
        ensures right { up_to ≡ true → IfErr result NoneRefused }
        ensures gathers { NoCheckpoints events.items → GathersOn self.old.store self.new.store }
        ensures at_once { NoCheckpoints events.items → IfErr result (OnlyAtOnce self.old.store) }
    {
        let mut outcomes = Vec::new(self.engine.alloc);
        if outcomes.reserve_exact(events.len()).is_err() {
            return Err(PlayFault::NoRoom(events));
        }
        match self.play_onto(events, up_to, &mut outcomes) {
            Ok(()) => Ok(outcomes),
            Err(fault) => Err(PlayFault::Stopped { outcomes, fault }),
        }
    }

    // Takes events so, and puts what they gave into this room.
    pub(crate) fn play_onto(
        &mut self,
        events: Vec<Event>,
        up_to: bool,
        outcomes: &mut Vec<Outcome>,
    ) -> Result<(), HostFault>
        requires empty { outcomes.old.items ≡ [] }
        requires room { vec_len outcomes.old + length events.items ≤ vec_capacity outcomes.old }
        ensures same { SameDisk self.old.store.disk self.new.store.disk }
        ensures played { (w : World) → IsHost self.old w
            → OnOk result (PlayedBy up_to w events.items outcomes.new.items self.new) }
        ensures halts { (w : World) → IsHost self.old w
            → IfErr result (StoppedAt w events.items self.old self.new outcomes.new.items) }
        ensures right { up_to ≡ true → OnErr result (list_any group.is_refusal outcomes.new.items
            ≡ false) }
        ensures gathers { NoCheckpoints events.items → GathersOn self.old.store self.new.store }
        ensures at_once { NoCheckpoints events.items
            → IfErr result (λ fault. fault ≡ HostFault.Disk → self.old.store.gathers ≡ false) }
        ensures few { length outcomes.new.items ≤ length events.items }
    {
        for event in events {
            match self.step(event) {
                Ok(outcome) => {
                    let stops = stops(up_to, &outcome);
                    add(outcomes, outcome);
                    if stops {
                        return Ok(());
                    }
                }
                Err(fault) => return Err(fault),
            }
        }
        Ok(())
    }
}

fn asks_for_checkpoint(event: &Event) -> bool
    ensures { result ≡ is_checkpoint event.now }
{
    matches!(event, Event::Command(Command::Checkpoint))
}

pub(crate) fn has_checkpoint(events: &[Event]) -> bool
    ensures { result ≡ list_any is_checkpoint events.now }
{
    events.iter().any(asks_for_checkpoint)
}

/// Whether an outcome is a refusal.
pub fn is_refusal(outcome: &Outcome) -> bool
    ensures { result ≡ group.is_refusal outcome.now }
{
    match &outcome.reply {
        Reply::Refused(_) => true,
        Reply::Done | Reply::Field(_) | Reply::Asked(_) | Reply::Child(_) | Reply::Nothing => false,
    }
}

// Whether a play up to a refusal stops after this outcome.
fn stops(up_to: bool, outcome: &Outcome) -> bool
    ensures { result ≡ (up_to && group.is_refusal outcome.now) }
{
    up_to && is_refusal(outcome)
}

fn add(outcomes: &mut Vec<Outcome>, outcome: Outcome)
    requires { vec_len outcomes.old < vec_capacity outcomes.old }
    ensures items { outcomes.new.items ≡ outcomes.old.items ++ outcome ∷ [] }
    ensures len { vec_len outcomes.new ≡ vec_len outcomes.old + 1 }
    ensures capacity { vec_capacity outcomes.old ≤ vec_capacity outcomes.new }
{
    if outcomes.push(outcome).is_err() {
        unreachable!();
    }
}
