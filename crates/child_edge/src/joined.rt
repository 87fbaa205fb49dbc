//! Events that are taken together with those that join them.
ghost use Rattle.std.specs.Prelude.{◌≡◌, ◌+◌, ◌*◌, ◌≤◌, IfErr, IfOk, OnOk, length, vec_capacity, vec_len};
ghost use Rattle.disk_model.specs.Disk.{SameDisk};
ghost use Rattle.session_engine.specs.World.{World};
ghost use Rattle.session_engine.specs.Host.{IsHost};
ghost use Rattle.session_engine.specs.Joining.{HaltsJoined, TookJoined, asking, most_joined};
ghost use Rattle.child_edge.specs.Edge.{BrokeOff, Ran};
ghost use Rattle.child_edge.specs.Faithful.{at};
ghost use Rattle.child_edge.specs.Joined.{FailsJoined, RanJoined, joining_edge};
ghost use Rattle.child_edge.specs.inside.Joining.{HaltsWithJoined, JointCarried, JointUpTo, TookWithJoined};

use crate::serving::MOST_EVENTS;
use crate::together::{MOST_TOGETHER, TogetherFault, carry_each};
use child_calls::Children;
use disk_model::Disk;
use host_events::{Event, HostFault, Outcome, Reply};
use session_engine::{Host, JoinFault, Joins, Joint, MOST_JOINED};
use std::alloc::Global;

/// What events gave that were taken together with those that joined them.
#[derive(Drop)]
pub struct GaveJoined {
    /// One for each event.
    pub outcomes: Vec<Outcome>,
    /// The number of the first that joined, where any did.
    pub first: Option<u64>,
    /// One for each event that joined.
    pub later: Vec<Outcome>,
    /// The replies to what came of the effects of all of them.
    pub replies: Vec<Reply>,
}

/// Plays events as a group with those that join them. The two calls of `sheet` are there for what their contracts say, by which nothing
/// is owed to the host's disk before the call and after it.
fn play<D: Disk, J: Joins>(
    host: &mut Host<D>,
    joins: &mut J,
    events: Vec<Event>,
) -> Result<Joint, JoinFault>
    ensures same { SameDisk host.old.store.real host.new.store.real }
    ensures took { (w : World) → IsHost host.old w → IfOk result
        (TookJoined (asking J.joins joins.old joins.new) w events.items host.old host.new) }
    ensures halts { (w : World) → IsHost host.old w → IfErr result
        (HaltsJoined (asking J.joins joins.old joins.new) w events.items host.old host.new) }
    ensures few { IfOk result (λ joint. (length joint.outcomes.items ≤ length events.items)
        × (length joint.later.items ≤ most_joined)) }
    ensures before { host.old.store.real ≡ host.old.store.disk }
    ensures after { host.new.store.real ≡ host.new.store.disk }
{
    let _before = host.sheet();
    let played = host.play_joining(events, joins);
    let _after = host.sheet();
    played
}

/// Takes events together with those that join them: what they give is durable at once.
fn take_joining<D: Disk, J: Joins>(
    host: &mut Host<D>,
    joins: &mut J,
    events: Vec<Event>,
) -> Result<Joint, TogetherFault>
    ensures same { SameDisk host.old.store.disk host.new.store.disk }
    ensures ok { (w : World) → IsHost host.old w → IfOk result
        (TookWithJoined (asking J.joins joins.old joins.new) w events.items host.old host.new) }
    ensures err { (w : World) → IsHost host.old w → IfErr result
        (HaltsWithJoined (asking J.joins joins.old joins.new) w events.items host.old host.new) }
    ensures few { IfOk result (λ joint. (length joint.outcomes.items ≤ length events.items)
        × (length joint.later.items ≤ most_joined)) }
{
    match play(host, joins, events) {
        Ok(joint) => Ok(joint),
        Err(JoinFault::Disk) => Err(TogetherFault::Lost),
        Err(JoinFault::Stopped(fault)) => Err(TogetherFault::Host(fault)),
        Err(JoinFault::NoRoom) => Err(TogetherFault::OutOfMemory),
        // None of the events is one.
        Err(JoinFault::Checkpoint) => Err(TogetherFault::OutOfMemory),
    }
}

/// Carries out the effects of events, and then of those that joined them, each in turn.
fn carry_joint<D: Disk, C: Children>(
    host: &mut Host<D>,
    children: &mut C,
    joint: &Joint,
    replies: &mut Vec<Reply>,
) -> Result<(), HostFault>
    requires { vec_len replies.old + MOST_EVENTS * length joint.now.outcomes.items
        + MOST_EVENTS * length joint.now.later.items
        ≤ vec_capacity replies.old }
    ensures same { SameDisk host.old.store.disk host.new.store.disk }
    ensures ok { (w : World) → IsHost host.old w
        → OnOk result (Ran (JointCarried C.after joint.now (at w children.old host.old.store.disk))
        replies.old.items
        host.new children.new replies.new.items) }
    ensures err { (w : World) → IsHost host.old w
        → IfErr result (BrokeOff (JointUpTo C.after joint.now
        (at w children.old host.old.store.disk)) replies.old.items
        host.new children.new replies.new.items) }
{
    match carry_each(host, children, joint.outcomes.as_slice(), replies) {
        Ok(()) => match carry_each(host, children, joint.later.as_slice(), replies) {
            Ok(()) => Ok(()),
            Err(fault) => Err(fault),
        },
        Err(fault) => Err(fault),
    }
}

/// What they gave, with these replies.
fn gave(joint: Joint, replies: Vec<Reply>) -> GaveJoined
    ensures { (result.outcomes.items ≡ joint.outcomes.items) × (result.first ≡ joint.first)
        × (result.later.items ≡ joint.later.items)
        × (result.replies.items ≡ replies.items) }
{
    let Joint {
        outcomes,
        first,
        later,
    } = joint;
    GaveJoined {
        outcomes,
        first,
        later,
        replies,
    }
}

/// Takes events together, at most 1,024 and no checkpoint, with those that join them, at most 64: what all of them give is made durable
/// at once. Then the effect of each is carried out in turn, with all that comes of it, and no child is called before that.
///
/// Faults are those of [`serve_together`](crate::serve_together).
pub fn serve_joining<D: Disk, C: Children, J: Joins>(
    alloc: Global,
    host: &mut Host<D>,
    children: &mut C,
    joins: &mut J,
    events: Vec<Event>,
) -> Result<GaveJoined, TogetherFault>
    requires few { length events.items ≤ MOST_TOGETHER }
    ensures same { SameDisk host.old.store.disk host.new.store.disk }
    ensures ok { (w : World) → IsHost host.old w → IfOk result
        (RanJoined (joining_edge C.after (asking J.joins joins.old joins.new))
        (at w children.old host.old.store.disk) events.items host.new children.new) }
    ensures err { (w : World) → IsHost host.old w → IfErr result
        (FailsJoined (joining_edge C.after (asking J.joins joins.old joins.new))
        (at w children.old host.old.store.disk) events.items host.new children.new) }
    ensures few { IfOk result (λ gave. (length gave.outcomes.items ≤ length events.items)
        × (length gave.later.items ≤ most_joined)) }
{
    let mut replies = Vec::new(alloc);
    if replies
        .reserve(MOST_EVENTS * events.len() + MOST_EVENTS * MOST_JOINED)
        .is_err()
    {
        return Err(TogetherFault::OutOfMemory);
    }
    match take_joining(host, joins, events) {
        Ok(joint) => match carry_joint(host, children, &joint, &mut replies) {
            Ok(()) => Ok(gave(joint, replies)),
            Err(fault) => Err(TogetherFault::Host(fault)),
        },
        Err(fault) => Err(fault),
    }
}
