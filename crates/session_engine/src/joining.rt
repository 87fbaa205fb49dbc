//! Events of which somebody else says which more join them.

ghost use Rattle.std.specs.Prelude.{◌≡◌, ◌≤◌, ◌+◌, [], true, false, Err, IfOk, IfErr, length, vec_len, vec_capacity};
ghost use Rattle.disk_model.specs.Disk.{SameDisk};
ghost use Rattle.recovery.specs.Sheets.{GathersOn};
ghost use Rattle.session_engine.specs.World.{World};
ghost use Rattle.session_engine.specs.Host.{IsHost};
ghost use Rattle.session_engine.specs.Gathers.{NoCheckpoints};
ghost use Rattle.session_engine.specs.Joining.{HaltsJoined, TookJoined, asking, most_joined};
ghost use Rattle.session_engine.specs.inside.Joins.{PlayedJoined, StopsJoining};

use crate::play::has_checkpoint;
use crate::{BufferedHost, Host};
use disk_model::Disk;
use host_events::{Event, HostFault, Outcome};
use journal::Group;
use std::alloc::{AllocError, Global};

/// The most events that join a group.
pub const MOST_JOINED: usize = 64;

/// Events that join a group.
#[derive(Drop)]
pub struct Joined {
    /// A number of the first of them, which is handed back with what they gave. None where there are no events.
    pub first: Option<u64>,
    /// At most 64, and no checkpoint.
    pub events: Vec<Event>,
}

/// Who says what joins a group of events.
pub trait Joins {
    ghost use Rattle.std.specs.Prelude.{◌≤◌, length};
    ghost use Rattle.session_engine.specs.World.{World};
    ghost use Rattle.session_engine.specs.Host.{IsHost};
    ghost use Rattle.session_engine.specs.Gathers.{NoCheckpoints};
    ghost use Rattle.session_engine.specs.Joining.{JoinRule, most_joined};

    /// What it may answer, by the world to which events have led, and how it changes.
    ghost joins: { JoinRule Self };

    /// What joins the events that led here. The worksheet is ahead of the disk: nothing may be reported of it.
    fn join<D: Disk>(&mut self, alloc: Global, host: &BufferedHost<D>) -> Joined
        ensures few { length result.events.items ≤ most_joined }
        ensures none { NoCheckpoints result.events.items }
        ensures joins { (w : World) → IsHost host.now w
            → joins self.old w result.first result.events.items self.new };
}

/// What events gave that were taken as one group with those that joined them.
#[derive(Drop)]
pub struct Joint {
    /// One for each event.
    pub outcomes: Vec<Outcome>,
    /// The number of the first that joined, where any did.
    pub first: Option<u64>,
    /// One for each event that joined.
    pub later: Vec<Outcome>,
}

/// Why not all events were taken, or none is reported.
#[derive(Clone, Copy, Debug, PartialEq, Eq)]
pub enum JoinFault {
    /// One of the events is a checkpoint. None was taken, and they are dropped.
    Checkpoint,
    /// There is no memory for the group or the outcomes. No event was taken, and they are dropped.
    NoRoom,
    /// An event had this fault, which isn't the disk's. Those before it are durable, and those after it are dropped.
    Stopped(HostFault),
    /// The disk failed: of none of the events anything may be reported.
    Disk,
}

impl<D: Disk> Host<D> {
    /// Takes events as `play_group` does, and with them those that somebody says who is asked when they were taken:
    /// one gate commits all that they give.
    ///
    /// At every moment each image of the disk is one of the worksheet before the call, or of the one after all
    /// events that were taken.
    pub fn play_joining<J: Joins>(
        &mut self,
        events: Vec<Event>,
        joins: &mut J,
    ) -> Result<Joint, JoinFault>
        ensures same { SameDisk self.old.store.real self.new.store.real }
        ensures took { (w : World) → IsHost self.old w → IfOk result
            (TookJoined (asking J.joins joins.old joins.new) w events.items self.old self.new) }
        ensures halts { (w : World) → IsHost self.old w → IfErr result
            (HaltsJoined (asking J.joins joins.old joins.new) w events.items self.old self.new) }
        ensures few { IfOk result (λ joint. (length joint.outcomes.items ≤ length events.items)
            × (length joint.later.items ≤ most_joined)) }
        ensures closed { self.old.closed ≡ true
            → result ≡ Err (JoinFault.Stopped HostFault.Closed) }
        ensures still { self.old.closed ≡ true → (self.new ≡ self.old) × (joins.new ≡ joins.old) }
    {
        self.inner.play_joining(events, joins)
    }
}

/// The rooms for outcomes: of events, and of those that join them.
#[derive(Drop)]
struct Rooms {
    outcomes: Vec<Outcome>,
    later: Vec<Outcome>,
}

/// Rooms for the outcomes of so many events, and of those that may join them.
fn make_rooms(alloc: Global, count: usize) -> Result<Rooms, AllocError>
    ensures { IfOk result (λ rooms. (rooms.outcomes.items ≡ []) × (rooms.later.items ≡ [])
        × (vec_len rooms.outcomes + count ≤ vec_capacity rooms.outcomes)
        × (vec_len rooms.later + most_joined ≤ vec_capacity rooms.later)) }
{
    let mut outcomes = Vec::new(alloc);
    outcomes.reserve_exact(count)?;
    let mut later = Vec::new(alloc);
    later.reserve_exact(MOST_JOINED)?;
    Ok(Rooms { outcomes, later })
}

impl<D: Disk> BufferedHost<D> {
    // Takes events, and those that join them, and makes all that they give durable at once.
    pub(crate) fn play_joining<J: Joins>(
        &mut self,
        events: Vec<Event>,
        joins: &mut J,
    ) -> Result<Joint, JoinFault>
        ensures same { SameDisk self.old.store.real self.new.store.real }
        ensures took { (w : World) → IsHost self.old w → IfOk result
            (TookJoined (asking J.joins joins.old joins.new) w events.items self.old self.new) }
        ensures halts { (w : World) → IsHost self.old w → IfErr result
            (HaltsJoined (asking J.joins joins.old joins.new) w events.items self.old self.new) }
        ensures few { IfOk result (λ joint. (length joint.outcomes.items ≤ length events.items)
            × (length joint.later.items ≤ most_joined)) }
        ensures closed { self.old.closed ≡ true
            → result ≡ Err (JoinFault.Stopped HostFault.Closed) }
        ensures still { self.old.closed ≡ true → (self.new ≡ self.old) × (joins.new ≡ joins.old) }
        ensures written { self.old.store.gathers ≡ false → self.new.store.gathers ≡ false }
    {
        if self.closed {
            return Err(JoinFault::Stopped(HostFault::Closed));
        }
        if has_checkpoint(&events) {
            return Err(JoinFault::Checkpoint);
        }
        // Called for its contract alone: it says that the store isn't closed.
        let _sheet = self.sheet();
        let Ok(rooms) = make_rooms(self.engine.alloc, events.len()) else {
            return Err(JoinFault::NoRoom);
        };
        match Group::new(self.engine.alloc) {
            Ok(group) => self.join_owed(group, rooms, events, joins),
            Err(_) => Err(JoinFault::NoRoom),
        }
    }

    // Takes them in this group, and flushes it.
    fn join_owed<J: Joins>(
        &mut self,
        group: Group,
        rooms: Rooms,
        events: Vec<Event>,
        joins: &mut J,
    ) -> Result<Joint, JoinFault>
        requires group { group.payloads ≡ [] }
        requires none { NoCheckpoints events.items }
        requires open { self.old.store.closed ≡ false }
        requires empty { (rooms.outcomes.items ≡ []) × (rooms.later.items ≡ []) }
        requires room { (vec_len rooms.outcomes + length events.items ≤ vec_capacity rooms.outcomes)
            × (vec_len rooms.later + most_joined ≤ vec_capacity rooms.later) }
        ensures same { SameDisk self.old.store.real self.new.store.real }
        ensures took { (w : World) → IsHost self.old w → IfOk result
            (TookJoined (asking J.joins joins.old joins.new) w events.items self.old self.new) }
        ensures halts { (w : World) → IsHost self.old w → IfErr result
            (HaltsJoined (asking J.joins joins.old joins.new) w events.items self.old self.new) }
        ensures few { IfOk result (λ joint. (length joint.outcomes.items ≤ length events.items)
            × (length joint.later.items ≤ most_joined)) }
        ensures written { self.new.store.gathers ≡ false }
    {
        self.gather(group);
        match self.play_and_join(rooms, events, joins) {
            Ok(joint) => match self.flush() {
                Ok(()) => Ok(joint),
                Err(_) => Err(JoinFault::Disk),
            },
            Err(fault) => match self.flush() {
                Ok(()) => Err(JoinFault::Stopped(fault)),
                Err(_) => Err(JoinFault::Disk),
            },
        }
    }

    // Takes them, up to the first one that has a fault.
    fn play_and_join<J: Joins>(
        &mut self,
        rooms: Rooms,
        events: Vec<Event>,
        joins: &mut J,
    ) -> Result<Joint, HostFault>
        requires none { NoCheckpoints events.items }
        requires empty { (rooms.outcomes.items ≡ []) × (rooms.later.items ≡ []) }
        requires room { (vec_len rooms.outcomes + length events.items ≤ vec_capacity rooms.outcomes)
            × (vec_len rooms.later + most_joined ≤ vec_capacity rooms.later) }
        ensures same { SameDisk self.old.store.disk self.new.store.disk }
        ensures played { (w : World) → IsHost self.old w → IfOk result
            (PlayedJoined (asking J.joins joins.old joins.new) w events.items self.new) }
        ensures halts { (w : World) → IsHost self.old w → IfErr result
            (StopsJoining (asking J.joins joins.old joins.new) w events.items self.new) }
        ensures gathers { GathersOn self.old.store self.new.store }
        ensures at_once { IfErr result (λ fault. fault ≡ HostFault.Disk → self.old.store.gathers
            ≡ false) }
        ensures few { IfOk result (λ joint. (length joint.outcomes.items ≤ length events.items)
            × (length joint.later.items ≤ most_joined)) }
    {
        let Rooms {
            mut outcomes,
            mut later,
        } = rooms;
        if let Err(fault) = self.play_onto(events, false, &mut outcomes) {
            return Err(fault);
        }
        let Joined { first, events } = joins.join(self.engine.alloc, self);
        match self.play_onto(events, false, &mut later) {
            Ok(()) => Ok(Joint {
                outcomes,
                first,
                later,
            }),
            Err(fault) => Err(fault),
        }
    }
}
