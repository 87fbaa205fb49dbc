//! A checkpoint.
ghost use Rattle.std.specs.Prelude.{◌≡◌, false, IfOk, IfErr};
ghost use Rattle.disk_model.specs.Disk.{SameDisk};

use crate::engine::{Engine, refused};
use disk_model::Disk;
use host_events::{HostFault, Outcome, Reply};
use recovery::CheckpointFault;
use worksheet::Refusal;

impl<D: Disk> Engine<D> {
    ghost use Rattle.host_events.specs.declared.event.Event.TheVariants as event_of;
    ghost use Rattle.host_events.specs.declared.command.Command.TheVariants as command_of;
    ghost use Rattle.session_engine.specs.World.{World};
    ghost use Rattle.session_engine.specs.inside.Engines.{StandsAt, Works, TookAt, FailedAt};

    /// Rewrites the journal.
    pub(crate) fn checkpoint(&mut self) -> Result<Outcome, HostFault>
        requires { Works self.old }
        ensures same { SameDisk self.old.store.disk self.new.store.disk }
        ensures written { self.old.store.gathers ≡ false → self.new.store.gathers ≡ false }
        ensures took { (w : World) → StandsAt self.old w
            → IfOk result (TookAt w (event_of.Command command_of.Checkpoint) self.old self.new) }
        ensures failed { (w : World) → StandsAt self.old w
            → IfErr result (FailedAt w (event_of.Command command_of.Checkpoint) self.old self.new) }
    {
        match self.store.checkpoint() {
            Ok(()) => Ok(Outcome {
                reply: Reply::Done,
                effect: None,
            }),
            Err(CheckpointFault::Full) => Ok(refused(Refusal::JournalFull)),
            Err(CheckpointFault::OutOfMemory) => Ok(refused(Refusal::OutOfMemory)),
            Err(CheckpointFault::Disk) => Err(HostFault::Disk),
            Err(CheckpointFault::Closed) => unreachable!(),
        }
    }
}
