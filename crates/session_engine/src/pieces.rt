//! Pieces of an interpreter's output.
ghost use Rattle.std.specs.Prelude.{◌≡◌, false, IfOk, IfErr, IsErrOf, Option};
ghost use Rattle.disk_model.specs.Disk.{SameDisk};
ghost use Rattle.recovery.specs.Sheets.{GathersOn};
ghost use Rattle.session_engine.specs.Does.{reported_with};

use crate::commits::keep;
use crate::engine::{Engine, nothing};
use crate::table::{feed, settle};
use block_tree::Octets;
use disk_model::Disk;
use host_events::{ChildReply, Closed, Effect, HostFault, Outcome, Reply};
use plugin_core::{Ended, Step};
use worksheet::Name;

impl<D: Disk> Engine<D> {
    ghost use Rattle.host_events.specs.declared.event.Event.TheVariants as event;
    ghost use Rattle.host_events.specs.declared.event.ChildEvent.TheVariants as child;
    ghost use Rattle.session_engine.specs.inside.Engines.{StandsAt, Works, TookAt, FailedAt};
    ghost use Rattle.session_engine.specs.World.{World};

    /// A piece of the output of a life.
    pub(crate) fn piece(
        &mut self,
        name: Name,
        number: u32,
        piece: &[u8],
    ) -> Result<Outcome, HostFault>
        requires { Works self.old }
        ensures same { SameDisk self.old.store.disk self.new.store.disk }
        ensures gathers { GathersOn self.old.store self.new.store }
        ensures at_once { IsErrOf result HostFault.Disk → self.old.store.gathers ≡ false }
        ensures took { (w : World) → StandsAt self.old w
            → IfOk result
            (TookAt w (event.Child name number (child.Piece piece.now)) self.old self.new) }
        ensures failed { (w : World) → StandsAt self.old w
            → IfErr result
            (FailedAt w (event.Child name number (child.Piece piece.now)) self.old self.new) }
    {
        // A law: prompts have at most 1,024 bytes.
        plugin_core::short_prompts();
        let Some(fed) = feed(&mut self.lives, name, number, piece) else {
            return Ok(nothing());
        };
        let Ok(step) = fed else {
            return Err(HostFault::OutOfMemory);
        };
        let Step {
            answered,
            default_input,
            send,
            ended,
        } = step;
        match keep(&mut self.store, answered, &ended) {
            Ok(closed) => {
                settle(&mut self.lives, name, ended.is_some());
                Ok(outcome_of_piece(name, number, closed, default_input, send, ended))
            }
            Err(fault) => Err(fault),
        }
    }
}

/// What is returned for a piece.
fn outcome_of_piece(
    name: Name,
    life: u32,
    closed: Option<Closed>,
    default_input: Option<Octets>,
    send: Option<Octets>,
    ended: Option<Ended>,
) -> Outcome
    ensures { result ≡ reported_with name life closed default_input send ended }
{
    if closed.is_none() && ended.is_none() {
        return nothing();
    }
    let effect = if ended.is_some() {
        Some(Effect::Kill { name, life })
    } else {
        match send {
            Some(bytes) => Some(Effect::Send { name, life, bytes }),
            None => None,
        }
    };
    Outcome {
        reply: Reply::Child(ChildReply {
            name,
            life,
            closed,
            default_input,
            ended,
        }),
        effect,
    }
}
