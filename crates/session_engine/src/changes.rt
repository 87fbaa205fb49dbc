//! Commands that change the worksheet alone.
ghost use Rattle.std.specs.Prelude.{◌≡◌, None, Some, true, false, IfOk, IfErr, IsErrOf, OnErr};
ghost use Rattle.std.specs.List.{AllByRecursion};
ghost use Rattle.std.specs.Result.{result_err};
ghost use Rattle.disk_model.specs.Disk.{SameDisk, InModel, LeavesOnly, Rises};
ghost use Rattle.worksheet.specs.Checks.{first_of, first_refusal};
ghost use Rattle.recovery.specs.Sheets.{GathersOn, IsEither};
ghost use Rattle.host_events.specs.declared.command.Command.{Command};

use crate::commits::commit;
use crate::engine::{Engine, refused};
use crate::table::waits_of;
use disk_model::Disk;
use host_events::{HostFault, Outcome, Reply};
use worksheet::{Op, Refusal};

impl<D: Disk> Engine<D> {
    ghost use Rattle.host_events.specs.declared.event.Event.TheVariants as event;
    ghost use Rattle.host_events.specs.declared.outcome.HostFault.TheVariants as hosts;
    ghost use Rattle.host_events.specs.Commands.{op_of, reply_to as reply_to_op};
    ghost use Rattle.session_engine.specs.World.{World, in_flight, sheet_in};
    ghost use Rattle.session_engine.specs.inside.Words.{fits};
    ghost use Rattle.session_engine.specs.Refused.{refusals_but_room};
    ghost use Rattle.session_engine.specs.inside.Engines.{StandsAt, Works, TookAt, FailedAt};
    ghost use Rattle.session_engine.specs.inside.Commits.{SparesLife, Changes};

    /// Whether the line of this field waits, which it can in the life of its session alone.
    pub(crate) fn is_in_flight(&self, id: u32) -> bool
        ensures { (w : World) → StandsAt self.now w → result ≡ in_flight w id }
    {
        match self.store.sheet().field(id) {
            Some(field) => waits_of(&self.lives, field.session, id),
            None => false,
        }
    }

    /// Whether an op is allowed: by the worksheet, and while lines wait. A full journal isn't asked for.
    pub(crate) fn check(&self, op: &Op) -> Result<(), Refusal>
        ensures { (w : World) → StandsAt self.now w
            → result_err result ≡ first_of (refusals_but_room w op.now) }
    {
        let checked = self.store.sheet().check(op);
        match op {
            Op::Set { id, .. } | Op::Remove { id } | Op::Clear { id } => {
                if checked != Err(Refusal::NoField) && self.is_in_flight(*id) {
                    Err(Refusal::InFlight)
                } else {
                    checked
                }
            }
            _ => checked,
        }
    }

    /// The reply to an op that is done.
    pub(crate) fn reply_to(&self, op: &Op) -> Reply
        ensures { (w : World) → StandsAt self.now w → result ≡ reply_to_op (sheet_in w) op.now }
    {
        match op {
            Op::New { .. } => Reply::Field(self.store.sheet().next_id()),
            _ => Reply::Done,
        }
    }

    /// Commits an op that is allowed.
    pub(crate) fn change(&mut self, op: Op, reply: Reply) -> Result<Outcome, HostFault>
        requires works { Works self.old }
        requires allowed { first_refusal self.old.store.sheet.contents op ≡ None }
        ensures same { SameDisk self.old.store.disk self.new.store.disk }
        ensures gathers { GathersOn self.old.store self.new.store }
        ensures at_once { IsErrOf result HostFault.Disk → self.old.store.gathers ≡ false }
        ensures ok { (w : World) → StandsAt self.old w → AllByRecursion (SparesLife op) w.lives
            → IfOk result (Changes w op reply self.old self.new) }
        ensures fault { IfErr result (λ fault. (fault ≡ hosts.Disk)
            × (self.new.store.sheet.contents ≡ self.old.store.sheet.contents)
            × Rises self.old.store.disk.faults self.new.store.disk.faults) }
        ensures fits { (w : World) → StandsAt self.old w → OnErr result (fits w op ≡ true) }
        ensures lives { self.new.lives ≡ self.old.lives }
        ensures moments { (w : World) → StandsAt self.old w
            → InModel self.old.store.disk
            (LeavesOnly
            (IsEither w.ops op) self.old.store.disk.history self.new.store.disk.history) }
    {
        match commit(&mut self.store, op) {
            Ok(None) => Ok(Outcome {
                reply,
                effect: None,
            }),
            Ok(Some(refusal)) => Ok(refused(refusal)),
            Err(_) => Err(HostFault::Disk),
        }
    }

    /// A command that only changes the worksheet.
    pub(crate) fn alter(&mut self, op: Op) -> Result<Outcome, HostFault>
        requires { Works self.old }
        ensures same { SameDisk self.old.store.disk self.new.store.disk }
        ensures gathers { GathersOn self.old.store self.new.store }
        ensures at_once { IsErrOf result HostFault.Disk → self.old.store.gathers ≡ false }
        ensures took { (w : World) (c : Command) → StandsAt self.old w → op_of c ≡ Some op
            → IfOk result (TookAt w (event.Command c) self.old self.new) }
        ensures failed { (w : World) (c : Command) → StandsAt self.old w → op_of c ≡ Some op
            → IfErr result (FailedAt w (event.Command c) self.old self.new) }
    {
        if let Err(refusal) = self.check(&op) {
            return Ok(refused(refusal));
        }
        let reply = self.reply_to(&op);
        self.change(op, reply)
    }
}
