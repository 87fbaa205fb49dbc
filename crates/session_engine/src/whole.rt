//! Commands that are taken as a whole or not at all.
ghost use Rattle.std.specs.Prelude.{◌≡◌, ◌≤◌, ◌+◌, ◌↔◌, [], false, true, IfErr, IfOk, IsErrOf, length, vec_len, vec_capacity};
ghost use Rattle.std.specs.List.{list_any};
ghost use Rattle.disk_model.specs.Disk.{SameDisk};
ghost use Rattle.session_engine.specs.World.{World};
ghost use Rattle.session_engine.specs.Host.{IsHost};
ghost use Rattle.session_engine.specs.Groups as group;
ghost use Rattle.session_engine.specs.Whole.{HaltsWhole, HasAtMost, MadeWhole, OnlyEdits};
ghost use Rattle.session_engine.specs.inside.Wholes.{EndsIn, MayWithdraw, WithdrawsTo};

use crate::edits::Edits;
use crate::play::is_refusal;
use crate::{BufferedHost, Host};
use disk_model::Disk;
use host_events::{Event, Outcome};
use journal::Group;
use recovery::copy_sheet;
use std::alloc::{AllocError, Global};
use worksheet::Sheet;

/// What was made of commands that are taken as a whole or not at all.
#[derive(Drop)]
pub enum Whole {
    /// All were taken, with these outcomes, and what they give is durable.
    Taken(Vec<Outcome>),
    /// None was taken. After these outcomes of the first ones the next would be refused so.
    Refused { before: Vec<Outcome>, last: Outcome },
}

/// Why nothing may be reported of commands that were to be taken as a whole.
#[derive(Clone, Copy, Debug, PartialEq, Eq)]
pub enum WholeFault {
    /// There is no memory for it. None was taken.
    NoRoom,
    /// The host was closed.
    Closed,
    /// The disk failed. A crash may have left the worksheet from before them, or that after all of them.
    Disk,
}

impl<D: Disk> Host<D> {
    /// Takes commands that only change the worksheet in order, as a whole or not at all: where one would be
    /// refused, none is taken and the disk is untouched, and else one gate commits all that they give.
    ///
    /// At every moment each image of the disk is one of the worksheet before the call, or of the one after all
    /// of the commands.
    pub fn play_whole(&mut self, edits: Edits) -> Result<Whole, WholeFault>
        ensures same { SameDisk self.old.store.real self.new.store.real }
        ensures made { (w : World) → IsHost self.old w
            → IfOk result (MadeWhole w edits self.old self.new) }
        ensures halts { (w : World) → IsHost self.old w
            → IfErr result (HaltsWhole w edits self.old self.new) }
        ensures few { IfOk result (HasAtMost (length edits)) }
        ensures closed { IsErrOf result WholeFault.Closed ↔ (self.old.closed ≡ true) }
        ensures still { self.old.closed ≡ true → self.new ≡ self.old }
    {
        self.inner.play_whole(edits)
    }
}

// Room for the outcomes of so many events.
fn make_room(alloc: Global, count: usize) -> Result<Vec<Outcome>, AllocError>
    ensures { IfOk result (λ outcomes. (outcomes.items ≡ [])
        × (vec_len outcomes + count ≤ vec_capacity outcomes)) }
{
    let mut outcomes = Vec::new(alloc);
    outcomes.reserve_exact(count)?;
    Ok(outcomes)
}

// Whether one of the outcomes is a refusal.
fn has_refusal(outcomes: &[Outcome]) -> bool
    ensures { result ≡ list_any group.is_refusal outcomes.now }
{
    outcomes.iter().any(is_refusal)
}

// None was taken, since the last of these outcomes is a refusal.
fn refused(mut outcomes: Vec<Outcome>) -> Whole
    requires { list_any group.is_refusal outcomes.items ≡ true }
    ensures { EndsIn outcomes.items result }
{
    match outcomes.pop() {
        Some(last) => Whole::Refused {
            before: outcomes,
            last,
        },
        None => unreachable!(),
    }
}

impl<D: Disk> BufferedHost<D> {
    // Drops what is owed: the disk stays as it stands, and the worksheet is this one again.
    fn withdraw(&mut self, before: Sheet)
        requires { (w : World) × WithdrawsTo self.old before.contents w }
        ensures stands { (w : World) → WithdrawsTo self.old before.contents w → IsHost self.new w }
        ensures disk { self.new.store.disk ≡ self.old.store.real }
        ensures real { self.new.store.real ≡ self.old.store.real }
        ensures written { self.new.store.gathers ≡ false }
    {
        self.engine.store.withdraw(before);
    }

    // Takes commands in this group, and flushes it, or drops it where one is refused.
    fn flush_or_withdraw(
        &mut self,
        group: Group,
        before: Sheet,
        events: Vec<Event>,
        mut outcomes: Vec<Outcome>,
    ) -> Result<Whole, WholeFault>
        requires group { group.payloads ≡ [] }
        requires edits { OnlyEdits events.items }
        requires may { MayWithdraw self.old before.contents }
        requires empty { outcomes.items ≡ [] }
        requires room { vec_len outcomes + length events.items ≤ vec_capacity outcomes }
        ensures same { SameDisk self.old.store.real self.new.store.real }
        ensures made { (w : World) → IsHost self.old w
            → IfOk result (MadeWhole w events.items self.old self.new) }
        ensures halts { (w : World) → IsHost self.old w
            → IfErr result (HaltsWhole w events.items self.old self.new) }
        ensures few { IfOk result (HasAtMost (length events.items)) }
        ensures open { IsErrOf result WholeFault.Closed → ⊥ }
        ensures written { self.new.store.gathers ≡ false }
    {
        self.gather(group);
        match self.play_onto(events, true, &mut outcomes) {
            Ok(()) => {}
            // The disk isn't called, and no such event takes memory that it isn't refused for.
            Err(_) => unreachable!(),
        }
        if has_refusal(outcomes.as_slice()) {
            self.withdraw(before);
            return Ok(refused(outcomes));
        }
        match self.flush() {
            Ok(()) => Ok(Whole::Taken(outcomes)),
            Err(_) => Err(WholeFault::Disk),
        }
    }

    // Takes commands as a whole or not at all.
    pub(crate) fn play_whole(&mut self, edits: Edits) -> Result<Whole, WholeFault>
        requires { self.old.store.gathers ≡ false }
        ensures same { SameDisk self.old.store.real self.new.store.real }
        ensures made { (w : World) → IsHost self.old w
            → IfOk result (MadeWhole w edits self.old self.new) }
        ensures halts { (w : World) → IsHost self.old w
            → IfErr result (HaltsWhole w edits self.old self.new) }
        ensures few { IfOk result (HasAtMost (length edits)) }
        ensures closed { IsErrOf result WholeFault.Closed ↔ (self.old.closed ≡ true) }
        ensures still { self.old.closed ≡ true → self.new ≡ self.old }
        ensures written { self.new.store.gathers ≡ false }
    {
        if self.closed {
            return Err(WholeFault::Closed);
        }
        // Called for its contract alone: it says that the host stands for some world, and owes nothing.
        let _sheet = self.sheet();
        let Ok(before) = copy_sheet(self.engine.alloc, self.engine.store.sheet()) else {
            return Err(WholeFault::NoRoom);
        };
        let events = edits.into_events();
        let Ok(outcomes) = make_room(self.engine.alloc, events.len()) else {
            return Err(WholeFault::NoRoom);
        };
        match Group::new(self.engine.alloc) {
            Ok(group) => self.flush_or_withdraw(group, before, events, outcomes),
            Err(_) => Err(WholeFault::NoRoom),
        }
    }
}
