//! A host at work.
ghost use Rattle.std.specs.Prelude.{◌≡◌};
ghost use Rattle.session_engine.specs.Does.{replies, refused as refused_so};

use crate::table::Running;
use disk_model::Disk;
use host_events::{Outcome, Reply};
use recovery::Store;
use std::alloc::Global;
use worksheet::Refusal;

/// What a host keeps while it works.
#[derive(Drop)]
pub(crate) struct Engine<D: Disk> {
    pub(crate) alloc: Global,
    pub(crate) store: Store<D>,
    pub(crate) lives: Vec<Running>,
    // How many lives have begun.
    pub(crate) begun: u32,
}

pub(crate) fn nothing() -> Outcome
    ensures { result ≡ replies Reply.Nothing }
{
    Outcome {
        reply: Reply::Nothing,
        effect: None,
    }
}

pub(crate) fn refused(refusal: Refusal) -> Outcome
    ensures { result ≡ refused_so refusal }
{
    Outcome {
        reply: Reply::Refused(refusal),
        effect: None,
    }
}
