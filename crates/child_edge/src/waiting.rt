//! A wait, life by life.
ghost use Rattle.std.specs.Prelude.{◌≡◌, ◌+◌, ◌++◌, ◌<◌, IfOk, IfErr, OnOk, OnErr, MatchResult, List, true, false, nat_lt, length};
ghost use Rattle.disk_model.specs.Disk.{SameDisk};
ghost use Rattle.session_engine.specs.World.{World};
ghost use Rattle.session_engine.specs.Host.{IsHost};
ghost use Rattle.child_edge.specs.Edge.{BrokeOff, ByCause, ClosedOrNoMemory, HeardOne, Ran};
ghost use Rattle.child_edge.specs.Limits.{most_rounds};
ghost use Rattle.child_edge.specs.Faithful.{At, at, Entry, Waited};
ghost use Rattle.child_edge.specs.Broken.{WaitStopped};
ghost use Rattle.child_edge.specs.Steps.{Came, IsBegun, left_of};

use crate::busy::waiting;
use crate::serving::{EdgeCause, MOST_ROUNDS, take};
use child_calls::{Children, Seat};
use disk_model::Disk;
use host_events::Reply;
use session_engine::Host;
use std::alloc::{AllocError, Global};

/// A wait that is taken life by life, so that what each child wrote can be reported before the next
/// one is received from. Between two steps the host is as after any call: the disk has what it returned.
#[derive(Drop)]
pub struct Waiting {
    // How many rounds are over, the lives of this one, and which of them comes next.
    pub(crate) whole: u32,
    pub(crate) seats: Vec<Seat>,
    pub(crate) place: usize,
}

impl Waiting {
    /// A wait that has taken no life yet.
    pub fn begin<D: Disk>(alloc: Global, host: &Host<D>) -> Result<Waiting, AllocError>
        ensures begun { (w : World) → IsHost host.now w → IfOk result (λ wait. IsBegun wait w) }
        ensures whole { IfOk result (λ wait. wait.whole ≡ 0) }
    {
        let seats = waiting(alloc, host)?;
        Ok(Waiting {
            whole: 0,
            seats,
            place: 0,
        })
    }

    /// Takes the next life of the round.
    fn hear_next<D: Disk, C: Children>(
        &mut self,
        host: &mut Host<D>,
        children: &mut C,
        replies: &mut Vec<Reply>,
    ) -> Result<(), EdgeCause>
        requires { self.old.place < length self.old.seats.items }
        ensures same { SameDisk host.old.store.disk host.new.store.disk }
        ensures ok { (s : At C) (bs : List Entry) (w : World) → IsHost host.old w
            → Came C.after self.old s bs (at w children.old host.old.store.disk)
            → OnOk result (Ran (λ cs t. Came C.after self.new s (bs ++ cs) t)
            replies.old.items host.new children.new replies.new.items) }
        ensures err { (s : At C) (bs : List Entry) (w : World) → IsHost host.old w
            → Came C.after self.old s bs (at w children.old host.old.store.disk)
            → IfErr result (λ cause. ByCause cause
            (BrokeOff (λ cs e t. WaitStopped C.after most_rounds s (bs ++ cs) e t)
            replies.old.items host.new children.new replies.new.items)
            ((host.new ≡ host.old) × (children.new ≡ children.old)
            × (replies.new.items ≡ replies.old.items))) }
        ensures stays { OnErr result (self.new ≡ self.old) }
        ensures less { OnOk result (left_of self.new < left_of self.old) }
        ensures closed { host.old.closed ≡ true → MatchResult result (λ done. ⊥) ClosedOrNoMemory }
        ensures still { host.old.closed ≡ true
            → (host.new ≡ host.old) × (replies.new.items ≡ replies.old.items) }
        ensures heard { host.old.closed ≡ true → MatchResult result
            (λ done. children.new ≡ children.old)
            (HeardOne C.after (nat_lt self.old.whole most_rounds) children.old children.new) }
    {
        let seat = self.seats[self.place];
        match take(host, children, self.whole < MOST_ROUNDS, seat, replies) {
            Ok(()) => {
                self.place += 1;
                Ok(())
            }
            Err(cause) => Err(cause),
        }
    }

    /// Takes the next life in which an item waits, with all that comes of what its child gave, and adds
    /// the replies to it to `replies`: at most three. `false` where no item waits any more, or where
    /// each life in which one still waits has stalled; then nothing changes.
    ///
    /// `OutOfMemory`: nothing has changed, no byte that a child wrote is lost, and it can be called
    /// again. `Host`: as for `serve`.
    pub fn next<D: Disk, C: Children>(
        &mut self,
        alloc: Global,
        host: &mut Host<D>,
        children: &mut C,
        replies: &mut Vec<Reply>,
    ) -> Result<bool, EdgeCause>
        ensures same { SameDisk host.old.store.disk host.new.store.disk }
        ensures took { (s : At C) (bs : List Entry) (w : World) → IsHost host.old w
            → Came C.after self.old s bs (at w children.old host.old.store.disk)
            → IfOk result (λ more. more ≡ true → Ran (λ cs t. Came C.after self.new s (bs ++ cs) t)
            replies.old.items host.new children.new replies.new.items) }
        ensures over { (s : At C) (bs : List Entry) (w : World) → IsHost host.old w
            → Came C.after self.old s bs (at w children.old host.old.store.disk)
            → IfOk result (λ more. more ≡ false
            → Waited C.after most_rounds s bs (at w children.old host.old.store.disk)
            × (host.new ≡ host.old)
            × (children.new ≡ children.old) × (replies.new.items ≡ replies.old.items)) }
        ensures err { (s : At C) (bs : List Entry) (w : World) → IsHost host.old w
            → Came C.after self.old s bs (at w children.old host.old.store.disk)
            → IfErr result (λ cause. ByCause cause
            (BrokeOff (λ cs e t. WaitStopped C.after most_rounds s (bs ++ cs) e t)
            replies.old.items host.new children.new replies.new.items)
            (Came C.after self.new s bs (at w children.old host.old.store.disk)
            × (host.new ≡ host.old) × (children.new ≡ children.old)
            × (replies.new.items ≡ replies.old.items))) }
        ensures less { IfOk result (λ more. more ≡ true → left_of self.new < left_of self.old) }

        // On a closed host there is no reply.
        ensures closed { host.old.closed ≡ true
            → MatchResult result (λ more. more ≡ false) ClosedOrNoMemory }
        ensures still { host.old.closed ≡ true
            → (host.new ≡ host.old) × (replies.new.items ≡ replies.old.items) }
        ensures heard { host.old.closed ≡ true → self.old.whole ≡ 0 → MatchResult result
            (λ more. children.new ≡ children.old)
            (HeardOne C.after true children.old children.new) }
    {
        if self.place < self.seats.len() {
            return match self.hear_next(host, children, replies) {
                Ok(()) => Ok(true),
                Err(cause) => Err(cause),
            };
        }
        if self.seats.is_empty() {
            return Ok(false);
        }
        if self.whole >= MOST_ROUNDS {
            return Ok(false);
        }
        let Ok(seats) = waiting(alloc, host) else {
            return Err(EdgeCause::OutOfMemory);
        };
        if seats.is_empty() {
            return Ok(false);
        }
        self.whole += 1;
        self.seats = seats;
        self.place = 0;
        match self.hear_next(host, children, replies) {
            Ok(()) => Ok(true),
            Err(cause) => Err(cause),
        }
    }
}
