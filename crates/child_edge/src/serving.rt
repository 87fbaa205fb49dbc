//! Commands and waits, each effect carried out.
ghost use Rattle.std.specs.Prelude.{◌≡◌, ◌+◌, ◌++◌, ◌≤◌, ◌<◌, IfOk, IfErr, IsErrOf, MatchResult, OnOk, OnErr, Option, Some, None, [], true, vec_len, vec_capacity};
ghost use Rattle.disk_model.specs.Disk.{SameDisk};
ghost use Rattle.session_engine.specs.World.{World};
ghost use Rattle.session_engine.specs.Host.{IsHost, Took};
ghost use Rattle.child_edge.specs.Edge.{BrokeOff, ByCause, ClosedOrNoMemory, FailsClosed, HeardOne, Ran, Stopped, TellsClosed};
ghost use Rattle.child_edge.specs.Moments.{BrokeFrom, RanFrom};
ghost use Rattle.child_edge.specs.Limits.{most_rounds};
ghost use Rattle.child_calls.specs.Calls.{Answer};
ghost use Rattle.child_calls.specs.Answers.{sent};
ghost use Rattle.child_edge.specs.Faithful.{at, Entry, Entries, Carried, call_of, due_of, due_after, fault_of, Served, ServedUpTo, TakenUpTo, hearing};
ghost use Rattle.child_edge.specs.Faithful.{Hears, Taken, Waited};
ghost use Rattle.child_edge.specs.Broken.{WaitSoFar, WaitStopped};
ghost use Rattle.child_edge.specs.Reported.{spoken};

use crate::waiting::Waiting;
use child_calls::{ChildFault, Children, ReceiveFault, Received, Seat};
use disk_model::Disk;
use host_events::{ChildEvent, Command, Effect, Event, HostFault, Outcome, Reply};
use session_engine::Host;
use std::alloc::{AllocError, Global};

/// The rounds of one wait in which children are received from.
pub const MOST_ROUNDS: u32 = 100_000;

/// The most events that come of one: it, the fault of its effect, and the fault of that one's effect.
pub const MOST_EVENTS: usize = 3;

/// Why a command or a wait broke off.
#[derive(Clone, Copy, Debug, PartialEq, Eq)]
pub enum EdgeCause {
    /// The host had a fault, and is closed.
    Host(HostFault),
    /// There was no memory for a reply, or for what a child wrote.
    OutOfMemory,
}

/// The replies before it broke off, and why.
#[derive(Drop)]
pub struct EdgeFault {
    pub replies: Vec<Reply>,
    pub cause: EdgeCause,
}

/// The call that an effect is.
fn call<C: Children>(children: &mut C, effect: &Effect) -> Result<(), ChildFault>
    ensures { C.after children.old (call_of effect.now) (sent result) children.new }
{
    match effect {
        Effect::Start { name, life, words } => children.start(*name, *life, words.as_slice()),
        Effect::Send { name, life, bytes } => children.send(*name, *life, bytes.as_slice()),
        Effect::Kill { name, life } => children.stop(*name, *life),
    }
}

/// The event of a fault of that call.
fn fault_event(effect: &Effect) -> Event
    ensures { result ≡ fault_of effect.now }
{
    match effect {
        Effect::Start { name, life, .. } => Event::Child {
            name: *name,
            life: *life,
            event: ChildEvent::StartRefused,
        },
        Effect::Send { name, life, .. } => Event::Child {
            name: *name,
            life: *life,
            event: ChildEvent::SendFault,
        },
        Effect::Kill { name, life } => Event::Child {
            name: *name,
            life: *life,
            event: ChildEvent::StopFault,
        },
    }
}

/// Carries an effect out by one call, and gives the event of the fault that it met.
pub fn carry_out<C: Children>(children: &mut C, effect: &Option<Effect>) -> Option<Event>
    ensures { (a : Option Answer) × Carried C.after children.old effect.now a children.new
        × (result ≡ due_of effect.now a) }
{
    let Some(effect) = effect else {
        return None;
    };
    match call(children, effect) {
        Ok(()) => None,
        Err(_) => Some(fault_event(effect)),
    }
}

/// The step of a host at one event, with what it leaves of the disk: what the event gives is durable, and its effect isn't carried
/// out yet.
pub fn step<D: Disk>(host: &mut Host<D>, event: Event) -> Result<Outcome, HostFault>
    ensures same { SameDisk host.old.store.disk host.new.store.disk }
    ensures ok { (w : World) → IsHost host.old w → IfOk result (Took w event host.old host.new) }
    ensures err { (w : World) → IsHost host.old w
        → IfErr result (Stopped host.old.store.disk host.new w event) }
    ensures closed { host.old.closed ≡ true → IsErrOf result HostFault.Closed }
    ensures still { host.old.closed ≡ true → host.new ≡ host.old }
{
    host.step(event)
}

/// One event, with its effect: the reply, and the event that is due then.
fn entry<D: Disk, C: Children>(
    host: &mut Host<D>,
    children: &mut C,
    event: Event,
) -> Result<(Reply, Option<Event>), HostFault>
    ensures same { SameDisk host.old.store.disk host.new.store.disk }
    ensures ok { (w : World) → IsHost host.old w → IfOk result (λ r. (b : Entry) × (v : World)
        × Entries C.after (at w children.old host.old.store.disk) event b
        (at v children.new host.new.store.disk) × IsHost host.new v
        × (r.0 ≡ b.outcome.reply) × (r.1 ≡ due_after b)) }
    ensures err { (w : World) → IsHost host.old w
        → IfErr result (Stopped host.old.store.disk host.new w event) }
    ensures err_children { OnErr result (children.new ≡ children.old) }
    ensures closed { host.old.closed ≡ true → IsErrOf result HostFault.Closed }
    ensures still { host.old.closed ≡ true → host.new ≡ host.old }
{
    let Outcome { reply, effect } = step(host, event)?;
    let due = carry_out(children, &effect);
    Ok((reply, due))
}

/// Adds a reply, where it says something.
fn tell(replies: &mut Vec<Reply>, reply: Reply)
    requires { vec_len replies.old < vec_capacity replies.old }
    ensures items { replies.new.items ≡ replies.old.items ++ spoken reply }
    ensures capacity { vec_capacity replies.new ≡ vec_capacity replies.old }
    ensures len { vec_len replies.new ≤ vec_len replies.old + 1 }
{
    match reply {
        Reply::Nothing => {}
        reply => replies.push_reserved(reply),
    }
}

/// An event and all that comes of it.
pub(crate) fn follow<D: Disk, C: Children>(
    host: &mut Host<D>,
    children: &mut C,
    event: Event,
    replies: &mut Vec<Reply>,
) -> Result<(), HostFault>
    requires { vec_len replies.old + MOST_EVENTS ≤ vec_capacity replies.old }
    ensures same { SameDisk host.old.store.disk host.new.store.disk }
    ensures ok { (w : World) → IsHost host.old w
        → OnOk result (Ran (Served C.after (at w children.old host.old.store.disk) event)
        replies.old.items
        host.new children.new replies.new.items) }
    ensures err { (w : World) → IsHost host.old w
        → IfErr result (BrokeOff (ServedUpTo C.after (at w children.old host.old.store.disk) event)
        replies.old.items
        host.new children.new replies.new.items) }
    ensures closed { host.old.closed ≡ true → IsErrOf result HostFault.Closed }
    ensures still { host.old.closed ≡ true → (host.new ≡ host.old)
        × (children.new ≡ children.old) × (replies.new.items ≡ replies.old.items) }
    ensures capacity { vec_capacity replies.new ≡ vec_capacity replies.old }
    ensures len { vec_len replies.new ≤ vec_len replies.old + MOST_EVENTS }
{
    let mut due = Some(event);
    for _ in 0..MOST_EVENTS {
        let Some(event) = due else {
            return Ok(());
        };
        match entry(host, children, event) {
            Ok((reply, next)) => {
                tell(replies, reply);
                due = next;
            }
            Err(fault) => return Err(fault),
        }
    }
    Ok(())
}

/// Takes a command, carries its effect out, and takes the fault that the effect meets likewise.
///
/// The run is faithful: each effect is one call on the children and each fault of such a call the
/// next event, and nothing else happens (docs/dev/EDGE.md, "A faithful run"). The replies are those of
/// its events but `Nothing`: at most three. At every moment each image of the disk is one of the
/// worksheet after some of the first events; after `Ok` it is the one after all of them.
///
/// `OutOfMemory`: the command was dropped before it was taken, and nothing happened. `Host`: the
/// event that was due had this fault, and the host is closed; the replies are those before it, and
/// the disk's images are what `Host::step` says of its fault.
pub fn serve<D: Disk, C: Children>(
    alloc: Global,
    host: &mut Host<D>,
    children: &mut C,
    command: Command,
) -> Result<Vec<Reply>, EdgeFault>
    ensures same { SameDisk host.old.store.disk host.new.store.disk }
    ensures ok { (w : World) → IsHost host.old w → IfOk result (λ replies.
        RanFrom (at w children.old host.old.store.disk)
        (λ s. Served C.after s (Event.Command command)) host.new children.new replies.items) }
    ensures err { (w : World) → IsHost host.old w → IfErr result (λ fault. ByCause fault.cause
        (BrokeFrom (at w children.old host.old.store.disk)
        (λ s. ServedUpTo C.after s (Event.Command command)) host.new children.new
        fault.replies.items)
        ((host.new ≡ host.old) × (children.new ≡ children.old) × (fault.replies.items ≡ []))) }

    // On a closed host nothing happens.
    ensures closed { host.old.closed ≡ true → FailsClosed result }
    ensures still { host.old.closed ≡ true
        → (host.new ≡ host.old) × (children.new ≡ children.old) }
{
    let mut replies = Vec::new(alloc);
    if replies.reserve(MOST_EVENTS).is_err() {
        return Err(EdgeFault {
            replies,
            cause: EdgeCause::OutOfMemory,
        });
    }
    match follow(host, children, Event::Command(command), &mut replies) {
        Ok(()) => Ok(replies),
        Err(fault) => Err(EdgeFault {
            replies,
            cause: EdgeCause::Host(fault),
        }),
    }
}

/// The event of a life in a round: what its child gives in a round that listens, and `Stalled` in
/// another.
pub(crate) fn hear<C: Children>(
    children: &mut C,
    listens: bool,
    seat: Seat,
) -> Result<ChildEvent, AllocError>
    ensures ok { IfOk result (λ event. Hears C.after listens seat children.old event children.new) }
    ensures err { OnErr result (children.new ≡ children.old) }
{
    if !listens {
        return Ok(ChildEvent::Stalled);
    }
    match children.receive(seat.name, seat.life) {
        Ok(Received::Piece(piece)) => Ok(ChildEvent::Piece(piece)),
        Ok(Received::End) => Ok(ChildEvent::End),
        Err(ReceiveFault::Child) => Ok(ChildEvent::ReadFault),
        Err(ReceiveFault::OutOfMemory) => Err(AllocError),
    }
}

/// One life's part of a round.
pub(crate) fn take<D: Disk, C: Children>(
    host: &mut Host<D>,
    children: &mut C,
    listens: bool,
    seat: Seat,
    replies: &mut Vec<Reply>,
) -> Result<(), EdgeCause>
    ensures same { SameDisk host.old.store.disk host.new.store.disk }
    ensures ok { (w : World) → IsHost host.old w
        → OnOk result (Ran (Taken (hearing C.after listens) None seat
        (at w children.old host.old.store.disk)) replies.old.items
        host.new children.new replies.new.items) }
    ensures err { (w : World) → IsHost host.old w → IfErr result (λ cause. ByCause cause
        (BrokeOff (TakenUpTo (hearing C.after listens) seat (at w children.old host.old.store.disk))
        replies.old.items
        host.new children.new replies.new.items)
        ((host.new ≡ host.old) × (children.new ≡ children.old)
        × (replies.new.items ≡ replies.old.items))) }
    ensures closed { host.old.closed ≡ true → MatchResult result (λ done. ⊥) ClosedOrNoMemory }
    ensures still { host.old.closed ≡ true
        → (host.new ≡ host.old) × (replies.new.items ≡ replies.old.items) }
    ensures heard { host.old.closed ≡ true → MatchResult result
        (λ done. children.new ≡ children.old)
        (HeardOne C.after listens children.old children.new) }
{
    if replies.reserve(MOST_EVENTS).is_err() {
        return Err(EdgeCause::OutOfMemory);
    }
    let Seat { name, life } = seat;
    match hear(children, listens, seat) {
        Ok(event) => match follow(host, children, Event::Child { name, life, event }, replies) {
            Ok(()) => Ok(()),
            Err(fault) => Err(EdgeCause::Host(fault)),
        },
        Err(_) => Err(EdgeCause::OutOfMemory),
    }
}

/// Waits until no item waits for an answer.
///
/// A round is one receive from the child of each life in which an item waits, in the order in which
/// their sessions were made; what it gives is taken at once, with its effect and all that comes of
/// that, before the next child is received from. After `MOST_ROUNDS` rounds each life in which an item
/// still waits counts as stalled. The count begins again with each call. The run is faithful, as that
/// of `serve`, at every moment too, and the replies are its events' but `Nothing`.
///
/// `OutOfMemory`: memory is taken before a child is received from, so no byte that a child wrote is
/// lost, and `wait` can be called again. `Host`: as for `serve`.
pub fn wait<D: Disk, C: Children>(
    alloc: Global,
    host: &mut Host<D>,
    children: &mut C,
) -> Result<Vec<Reply>, EdgeFault>
    ensures same { SameDisk host.old.store.disk host.new.store.disk }
    ensures ok { (w : World) → IsHost host.old w → IfOk result (λ replies.
        RanFrom (at w children.old host.old.store.disk) (Waited C.after most_rounds)
        host.new children.new replies.items) }
    ensures err { (w : World) → IsHost host.old w → IfErr result (λ fault. ByCause fault.cause
        (BrokeFrom (at w children.old host.old.store.disk) (WaitStopped C.after most_rounds)
        host.new children.new fault.replies.items)
        (RanFrom (at w children.old host.old.store.disk) (WaitSoFar C.after most_rounds)
        host.new children.new fault.replies.items)) }

    // On a closed host there is no reply, and it stays as it is. Where the host reported that it is
    // closed, one child was received from, and else none.
    ensures closed { host.old.closed ≡ true → TellsClosed result }
    ensures still { host.old.closed ≡ true → host.new ≡ host.old }
    ensures heard { host.old.closed ≡ true → MatchResult result
        (λ replies. children.new ≡ children.old)
        (λ fault. HeardOne C.after true children.old children.new fault.cause) }
{
    let mut replies = Vec::new(alloc);
    let Ok(mut wait) = Waiting::begin(alloc, host) else {
        return Err(EdgeFault {
            replies,
            cause: EdgeCause::OutOfMemory,
        });
    };
    loop {
        match wait.next(alloc, host, children, &mut replies) {
            Ok(true) => {}
            Ok(false) => return Ok(replies),
            Err(cause) => return Err(EdgeFault { replies, cause }),
        }
    }
}
