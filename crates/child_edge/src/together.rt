//! Events that are taken together, and their effects.
ghost use Rattle.std.specs.Prelude.{◌≡◌, ◌+◌, ◌*◌, ◌≤◌, IfErr, IfOk, OnErr, OnOk, [], length, vec_capacity, vec_len};
ghost use Rattle.disk_model.specs.Disk.{SameDisk};
ghost use Rattle.session_engine.specs.World.{World};
ghost use Rattle.session_engine.specs.Host.{IsHost};
ghost use Rattle.session_engine.specs.Groups.{HaltsGroup, TookGroup};
ghost use Rattle.child_edge.specs.Edge.{BrokeOff, Ran};
ghost use Rattle.child_edge.specs.Faithful.{at};
ghost use Rattle.child_edge.specs.Together.{FailsTogether, HearsOne, RanTogether};
ghost use Rattle.child_edge.specs.inside.Gating.{CarriedSoFar, EachUpTo, HaltsAtOnce, OneCarried, OneUpTo, TookAtOnce};

use crate::serving::{MOST_EVENTS, carry_out, follow, hear};
use child_calls::{Children, Seat};
use disk_model::Disk;
use host_events::{Event, HostFault, Outcome, Reply};
use session_engine::{GroupFault, Host};
use std::alloc::{AllocError, Global};

/// The most events that are taken together.
pub const MOST_TOGETHER: usize = 1_024;

/// What events gave that were taken together.
#[derive(Drop)]
pub struct GaveTogether {
    /// Their outcomes.
    pub outcomes: Vec<Outcome>,
    /// The replies to what came of their effects.
    pub replies: Vec<Reply>,
}

/// Why events weren't taken together, or what broke off.
#[derive(Clone, Copy, Debug, PartialEq, Eq)]
pub enum TogetherFault {
    /// There was no memory, or one of them was a checkpoint: none of them was taken.
    OutOfMemory,
    /// The disk failed while they were taken: of none of them anything may be reported.
    Lost,
    /// The host had this fault at one of them, or at an event that came of an effect.
    Host(HostFault),
}

/// Receives once from the child of this life, and gives the event of what it gave.
///
/// `AllocError`: nothing was received, and no byte that the child wrote is lost.
pub fn receive_event<C: Children>(children: &mut C, seat: Seat) -> Result<Event, AllocError>
    ensures ok { IfOk result (λ event. HearsOne C.after seat children.old event children.new) }
    ensures err { OnErr result (children.new ≡ children.old) }
{
    let Seat { name, life } = seat;
    match hear(children, true, seat) {
        Ok(event) => Ok(Event::Child { name, life, event }),
        Err(fault) => Err(fault),
    }
}

/// Plays events as a group. The two calls of `sheet` are there for what their contracts say, by which nothing is
/// owed to the host's disk before the call and after it.
fn play<D: Disk>(host: &mut Host<D>, events: Vec<Event>) -> Result<Vec<Outcome>, GroupFault>
    ensures same { SameDisk host.old.store.real host.new.store.real }
    ensures took { (w : World) → IsHost host.old w
        → IfOk result (λ outcomes. TookGroup w events.items outcomes.items host.old host.new) }
    ensures halts { (w : World) → IsHost host.old w
        → IfErr result (HaltsGroup w events.items host.old host.new) }
    ensures before { (host.old.store.owed ≡ []) × (host.old.store.real ≡ host.old.store.disk) }
    ensures after { host.new.store.real ≡ host.new.store.disk }
{
    let _before = host.sheet();
    let played = host.play_group(events);
    let _after = host.sheet();
    played
}

/// Takes events together: what they give is durable at once.
fn take_at_once<D: Disk>(
    host: &mut Host<D>,
    events: Vec<Event>,
) -> Result<Vec<Outcome>, TogetherFault>
    ensures same { SameDisk host.old.store.disk host.new.store.disk }
    ensures ok { (w : World) → IsHost host.old w
        → IfOk result (λ outcomes. TookAtOnce w events.items host.old host.new outcomes.items) }
    ensures err { (w : World) → IsHost host.old w
        → IfErr result (HaltsAtOnce w events.items host.old host.new) }
{
    match play(host, events) {
        Ok(outcomes) => Ok(outcomes),
        Err(GroupFault::Disk) => Err(TogetherFault::Lost),
        Err(GroupFault::Stopped { outcomes: _, fault }) => Err(TogetherFault::Host(fault)),
        Err(GroupFault::NoRoom(_)) => Err(TogetherFault::OutOfMemory),
        // None of the events is one.
        Err(GroupFault::Checkpoint(_)) => Err(TogetherFault::OutOfMemory),
    }
}

/// Carries the effect of an outcome out, and takes the fault that it meets with all that comes of that.
fn carry_one<D: Disk, C: Children>(
    host: &mut Host<D>,
    children: &mut C,
    outcome: &Outcome,
    replies: &mut Vec<Reply>,
) -> Result<(), HostFault>
    requires { vec_len replies.old + MOST_EVENTS ≤ vec_capacity replies.old }
    ensures same { SameDisk host.old.store.disk host.new.store.disk }
    ensures ok { (w : World) → IsHost host.old w
        → OnOk result (Ran (OneCarried C.after outcome.now (at w children.old host.old.store.disk))
        replies.old.items
        host.new children.new replies.new.items) }
    ensures err { (w : World) → IsHost host.old w
        → IfErr result (BrokeOff (OneUpTo C.after outcome.now
        (at w children.old host.old.store.disk)) replies.old.items
        host.new children.new replies.new.items) }
    ensures capacity { vec_capacity replies.new ≡ vec_capacity replies.old }
    ensures len { vec_len replies.new ≤ vec_len replies.old + MOST_EVENTS }
{
    match carry_out(children, &outcome.effect) {
        Some(event) => match follow(host, children, event, replies) {
            Ok(()) => Ok(()),
            Err(fault) => Err(fault),
        },
        None => Ok(()),
    }
}

/// Carries out the effect of each of these outcomes in turn.
pub(crate) fn carry_each<D: Disk, C: Children>(
    host: &mut Host<D>,
    children: &mut C,
    outcomes: &[Outcome],
    replies: &mut Vec<Reply>,
) -> Result<(), HostFault>
    requires { vec_len replies.old + MOST_EVENTS * length outcomes.now ≤ vec_capacity replies.old }
    ensures same { SameDisk host.old.store.disk host.new.store.disk }
    ensures ok { (w : World) → IsHost host.old w
        → OnOk result (Ran (CarriedSoFar C.after outcomes.now (length outcomes.now)
        (at w children.old host.old.store.disk)) replies.old.items
        host.new children.new replies.new.items) }
    ensures err { (w : World) → IsHost host.old w
        → IfErr result (BrokeOff (EachUpTo C.after outcomes.now
        (at w children.old host.old.store.disk)) replies.old.items
        host.new children.new replies.new.items) }
    ensures capacity { vec_capacity replies.new ≡ vec_capacity replies.old }
    ensures len { vec_len replies.new ≤ vec_len replies.old + MOST_EVENTS * length outcomes.now }
{
    for outcome in outcomes {
        if let Err(fault) = carry_one(host, children, outcome, replies) {
            return Err(fault);
        }
    }
    Ok(())
}

/// Takes events together, at most 1,024 and no checkpoint: they go through one after another, and what they give
/// is made durable at once. Then the effect of each is carried out in turn, with all that comes of it, and no
/// child is called before that.
///
/// `OutOfMemory`: all memory is taken first, so none of the events was taken; they are dropped. `Lost`: the disk
/// failed in the group. `Host`: an event of the group, or one that came of an effect, had this fault, and the host
/// is closed. Of a fault that came later than the gate the events of the group are durable.
pub fn serve_together<D: Disk, C: Children>(
    alloc: Global,
    host: &mut Host<D>,
    children: &mut C,
    events: Vec<Event>,
) -> Result<GaveTogether, TogetherFault>
    requires few { length events.items ≤ MOST_TOGETHER }
    ensures same { SameDisk host.old.store.disk host.new.store.disk }
    ensures ok { (w : World) → IsHost host.old w → IfOk result
        (RanTogether C.after (at w children.old host.old.store.disk) events.items host.new
        children.new) }
    ensures err { (w : World) → IsHost host.old w → IfErr result
        (FailsTogether C.after (at w children.old host.old.store.disk) events.items host.new
        children.new) }
{
    let count = events.len();
    let mut replies = Vec::new(alloc);
    if replies.reserve(MOST_EVENTS * count).is_err() {
        return Err(TogetherFault::OutOfMemory);
    }
    match take_at_once(host, events) {
        Ok(outcomes) => {
            // There is one for each event.
            if outcomes.len() > count {
                return Err(TogetherFault::OutOfMemory);
            }
            match carry_each(host, children, outcomes.as_slice(), &mut replies) {
                Ok(()) => Ok(GaveTogether { outcomes, replies }),
                Err(fault) => Err(TogetherFault::Host(fault)),
            }
        }
        Err(fault) => Err(fault),
    }
}
