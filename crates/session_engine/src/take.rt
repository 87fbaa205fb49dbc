//! Each kind of event.
ghost use Rattle.std.specs.Prelude.{◌≡◌, false, IfOk, IfErr, IsErrOf};
ghost use Rattle.disk_model.specs.Disk.{SameDisk};
ghost use Rattle.recovery.specs.Sheets.{GathersOn};
ghost use Rattle.session_engine.specs.Gathers.{GathersUnlessCheckpoint, is_checkpoint};

use crate::commits::LoseFault;
use crate::ends::ended;
use crate::engine::{Engine, nothing, refused};
use crate::table::remove_life;
use block_tree::Octets;
use disk_model::Disk;
use host_events::{ChildEvent, Command, Event, HostFault, Outcome, Reply};
use plugin_core::Reason;
use worksheet::{Name, Refusal};

impl<D: Disk> Engine<D> {
    ghost use Rattle.host_events.specs.declared.event.Event.{Event};
    ghost use Rattle.host_events.specs.declared.event.Event.TheVariants as event_of;
    ghost use Rattle.host_events.specs.declared.command.Command.TheVariants as command_of;
    ghost use Rattle.session_engine.specs.inside.Engines.{StandsAt, Works, TookAt, FailedAt};
    ghost use Rattle.session_engine.specs.World.{World};

    /// One event.
    pub(crate) fn take(&mut self, event: Event) -> Result<Outcome, HostFault>
        requires { Works self.old }
        ensures same { SameDisk self.old.store.disk self.new.store.disk }
        ensures gathers { GathersUnlessCheckpoint event self.old.store self.new.store }
        ensures at_once { IsErrOf result HostFault.Disk → is_checkpoint event ≡ false
            → self.old.store.gathers ≡ false }
        ensures written { self.old.store.gathers ≡ false → self.new.store.gathers ≡ false }
        ensures took { (w : World) → StandsAt self.old w
            → IfOk result (TookAt w event self.old self.new) }
        ensures failed { (w : World) → StandsAt self.old w
            → IfErr result (FailedAt w event self.old self.new) }
    {
        match event {
            Event::Command(command) => self.command(command),
            Event::Child { name, life, event } => self.child(name, life, event),
        }
    }

    fn command(&mut self, command: Command) -> Result<Outcome, HostFault>
        requires { Works self.old }
        ensures same { SameDisk self.old.store.disk self.new.store.disk }
        ensures gathers { GathersUnlessCheckpoint (event_of.Command command) self.old.store
            self.new.store }
        ensures at_once { IsErrOf result HostFault.Disk
            → is_checkpoint (event_of.Command command) ≡ false
            → self.old.store.gathers ≡ false }
        ensures written { self.old.store.gathers ≡ false → self.new.store.gathers ≡ false }
        ensures took { (w : World) → StandsAt self.old w
            → IfOk result (TookAt w (event_of.Command command) self.old self.new) }
        ensures failed { (w : World) → StandsAt self.old w
            → IfErr result (FailedAt w (event_of.Command command) self.old self.new) }
    {
        match command {
            Command::Eval { id } => self.eval(id),
            Command::Complete { id, cursor } => Ok(self.complete(id, cursor)),
            Command::CompleteText { id, cursor, text } => Ok(self.complete_text(id, cursor, text)),
            Command::Stop { name } => self.stop(name),
            Command::Checkpoint => self.checkpoint(),
            other => match other.into_op() {
                Some(op) => self.alter(op),
                None => unreachable!(),
            },
        }
    }

    /// The interpreter of a session is stopped.
    fn stop(&mut self, name: Octets) -> Result<Outcome, HostFault>
        requires { Works self.old }
        ensures same { SameDisk self.old.store.disk self.new.store.disk }
        ensures gathers { GathersOn self.old.store self.new.store }
        ensures at_once { IsErrOf result HostFault.Disk → self.old.store.gathers ≡ false }
        ensures took { (w : World) → StandsAt self.old w
            → IfOk result (TookAt w (event_of.Command (command_of.Stop name)) self.old self.new) }
        ensures failed { (w : World) → StandsAt self.old w
            → IfErr result (FailedAt w (event_of.Command (command_of.Stop name)) self.old
            self.new) }
    {
        let name = match self.store.sheet().session(name.as_slice()) {
            Some(session) => session.name,
            None => return Ok(refused(Refusal::NoSession)),
        };
        match self.lose(name, Reason::Stopped) {
            Ok(()) => match remove_life(&mut self.lives, name) {
                Some(running) => Ok(ended(running, Reason::Stopped, true)),
                None => Ok(Outcome {
                    reply: Reply::Done,
                    effect: None,
                }),
            },
            Err(LoseFault::OutOfMemory) => Ok(refused(Refusal::OutOfMemory)),
            Err(LoseFault::Disk) => Err(HostFault::Disk),
        }
    }

    fn child(&mut self, name: Name, life: u32, event: ChildEvent) -> Result<Outcome, HostFault>
        requires { Works self.old }
        ensures same { SameDisk self.old.store.disk self.new.store.disk }
        ensures gathers { GathersOn self.old.store self.new.store }
        ensures at_once { IsErrOf result HostFault.Disk → self.old.store.gathers ≡ false }
        ensures took { (w : World) → StandsAt self.old w
            → IfOk result (TookAt w (event_of.Child name life event) self.old self.new) }
        ensures failed { (w : World) → StandsAt self.old w
            → IfErr result (FailedAt w (event_of.Child name life event) self.old self.new) }
    {
        match event {
            ChildEvent::StartRefused => self.end(name, life, Reason::StartRefused, false),
            ChildEvent::Piece(piece) => self.piece(name, life, piece.as_slice()),
            ChildEvent::End => self.end(name, life, Reason::Ended, true),
            ChildEvent::ReadFault => self.end(name, life, Reason::ReadFault, true),
            ChildEvent::SendFault => self.end(name, life, Reason::SendFault, true),
            ChildEvent::Stalled => self.end(name, life, Reason::Stalled, true),
            ChildEvent::StopFault => Ok(nothing()),
        }
    }
}
