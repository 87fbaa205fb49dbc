//! The ends of lives.
ghost use Rattle.std.specs.Prelude.{◌≡◌, false, List, IfOk, IfErr, IsErrOf, OnOk};
ghost use Rattle.disk_model.specs.Disk.{SameDisk};
ghost use Rattle.recovery.specs.Sheets.{GathersOn};
ghost use Rattle.meta_format.specs.Stream.{Outer};
ghost use Rattle.plugin_core.specs.Past.{Event as LifeEvent};
ghost use Rattle.plugin_core.specs.Kept.{LifeHasPast};
ghost use Rattle.session_engine.specs.Does.{ends};

use crate::commits::{LoseFault, lose};
use crate::engine::{Engine, nothing};
use crate::table::{Running, first_line, has_life, remove_life};
use disk_model::Disk;
use host_events::{ChildReply, Effect, HostFault, Outcome, Reply};
use plugin_core::Reason;
use worksheet::Name;

impl<D: Disk> Engine<D> {
    ghost use Rattle.std.specs.Prelude.{Some};
    ghost use Rattle.host_events.specs.declared.event.ChildEvent.{ChildEvent};
    ghost use Rattle.host_events.specs.declared.event.Event.TheVariants as event_of;
    ghost use Rattle.session_engine.specs.World.{World};
    ghost use Rattle.session_engine.specs.inside.Parts.{end_by};
    ghost use Rattle.session_engine.specs.inside.Engines.{StandsAt, Works, TookAt, FailedAt};
    ghost use Rattle.session_engine.specs.inside.Commits.{FailsToLose, Loses};

    /// Keeps the reason of the first line that waits in the life of this session, which ends now, if
    /// there is one and room for it.
    pub(crate) fn lose(&mut self, name: Name, reason: Reason) -> Result<(), LoseFault>
        requires { Works self.old }
        ensures same { SameDisk self.old.store.disk self.new.store.disk }
        ensures gathers { GathersOn self.old.store self.new.store }
        ensures at_once { IsErrOf result LoseFault.Disk → self.old.store.gathers ≡ false }
        ensures lives { self.new.lives.items ≡ self.old.lives.items }
        ensures begun { self.new.begun ≡ self.old.begun }
        ensures ok { (w : World) → StandsAt self.old w
            → OnOk result (Loses w name reason self.old self.new) }
        ensures fault { (w : World) → StandsAt self.old w
            → IfErr result (FailsToLose w name reason self.old self.new) }
    {
        let line = first_line(&self.lives, name);
        lose(&mut self.store, line, reason)
    }

    /// The end of a life from outside.
    pub(crate) fn end(
        &mut self,
        name: Name,
        number: u32,
        reason: Reason,
        killed: bool,
    ) -> Result<Outcome, HostFault>
        requires { Works self.old }
        ensures same { SameDisk self.old.store.disk self.new.store.disk }
        ensures gathers { GathersOn self.old.store self.new.store }
        ensures at_once { IsErrOf result HostFault.Disk → self.old.store.gathers ≡ false }
        ensures took { (w : World) (e : ChildEvent) → StandsAt self.old w
            → end_by e ≡ Some (reason, killed)
            → IfOk result (TookAt w (event_of.Child name number e) self.old self.new) }
        ensures failed { (w : World) (e : ChildEvent) → StandsAt self.old w
            → end_by e ≡ Some (reason, killed)
            → IfErr result (FailedAt w (event_of.Child name number e) self.old self.new) }
    {
        if !has_life(&self.lives, name, number) {
            return Ok(nothing());
        }
        match self.lose(name, reason) {
            Ok(()) => match remove_life(&mut self.lives, name) {
                Some(running) => Ok(ended(running, reason, killed)),
                None => Ok(nothing()),
            },
            Err(LoseFault::OutOfMemory) => Err(HostFault::OutOfMemory),
            Err(LoseFault::Disk) => Err(HostFault::Disk),
        }
    }
}

/// What is returned for the end of a life.
pub(crate) fn ended(running: Running, reason: Reason, killed: bool) -> Outcome
    requires { running.life.over ≡ false }
    ensures { (past : List LifeEvent) (blocks : List Outer) → LifeHasPast running.life past blocks
        → result ≡ ends
        (record { name = running.name; number = running.life.number; past = past; blocks = blocks })
        reason killed }
{
    let Running { name, life } = running;
    let number = life.number();
    let ended = life.finish(reason);
    let effect = if killed {
        Some(Effect::Kill { name, life: number })
    } else {
        None
    };
    Outcome {
        reply: Reply::Child(ChildReply {
            name,
            life: number,
            closed: None,
            default_input: None,
            ended: Some(ended),
        }),
        effect,
    }
}
