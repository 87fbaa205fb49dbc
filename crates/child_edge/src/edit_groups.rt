//! Commands that only change the worksheet, taken as one group.
ghost use Rattle.std.specs.Prelude.{◌≡◌, [], IfErr, IfOk};
ghost use Rattle.disk_model.specs.Disk.{SameDisk};
ghost use Rattle.session_engine.specs.World.{World};
ghost use Rattle.session_engine.specs.Host.{IsHost};
ghost use Rattle.session_engine.specs.Whole.{OnlyEdits};
ghost use Rattle.session_engine.specs.inside.Until.{HaltsBy, TookBy};
ghost use Rattle.child_edge.specs.EditGroups.{FailsEdits, TookEdits};

use disk_model::Disk;
use host_events::{Event, Outcome};
use session_engine::{Edits, GroupFault, Host};

/// Why commands weren't taken as one group.
#[derive(Clone, Copy, Debug, PartialEq, Eq)]
pub enum EditsFault {
    /// There was no memory: none of them was taken.
    OutOfMemory,
    /// The disk failed while they were taken: of none of them anything may be reported.
    Lost,
}

/// Plays events as a group: all of them, or up to the first one that is refused.
fn play_by<D: Disk>(
    host: &mut Host<D>,
    events: Vec<Event>,
    up_to: bool,
) -> Result<Vec<Outcome>, GroupFault>
    ensures same { SameDisk host.old.store.real host.new.store.real }
    ensures took { (w : World) → IsHost host.old w
        → IfOk result (λ outcomes. TookBy up_to w events.items outcomes.items host.old host.new) }
    ensures halts { (w : World) → IsHost host.old w
        → IfErr result (HaltsBy up_to w events.items host.old host.new) }
{
    if up_to {
        return host.play_group_up_to(events);
    }
    host.play_group(events)
}

/// Plays commands so. The calls of `len` and `sheet` are there for what their contracts say: that each command only changes the
/// worksheet, and that nothing is owed to the host's disk before the call and after it.
fn play<D: Disk>(host: &mut Host<D>, edits: Edits, up_to: bool) -> Result<Vec<Outcome>, GroupFault>
    ensures same { SameDisk host.old.store.real host.new.store.real }
    ensures took { (w : World) → IsHost host.old w
        → IfOk result (λ outcomes. TookBy up_to w edits outcomes.items host.old host.new) }
    ensures halts { (w : World) → IsHost host.old w
        → IfErr result (HaltsBy up_to w edits host.old host.new) }
    ensures edits { OnlyEdits edits }
    ensures before { (host.old.store.owed ≡ []) × (host.old.store.real ≡ host.old.store.disk) }
    ensures after { host.new.store.real ≡ host.new.store.disk }
{
    let _count = edits.len();
    let _before = host.sheet();
    let played = play_by(host, edits.into_events(), up_to);
    let _after = host.sheet();
    played
}

/// Takes commands that only change the worksheet as one group: all of them, or, where the group ends at a refusal, those up to the
/// first that is refused. What they give is durable at once. None of them has an effect, so no child is called.
///
/// `OutOfMemory`: all memory is taken first, so none of them was taken. `Lost`: the disk failed in the group, and the host is
/// closed.
pub fn serve_edits<D: Disk>(
    host: &mut Host<D>,
    edits: Edits,
    up_to: bool,
) -> Result<Vec<Outcome>, EditsFault>
    ensures same { SameDisk host.old.store.disk host.new.store.disk }
    ensures ok { (w : World) → IsHost host.old w
        → IfOk result (λ outcomes. TookEdits up_to w edits host.old host.new outcomes.items) }
    ensures err { (w : World) → IsHost host.old w
        → IfErr result (FailsEdits up_to w edits host.old host.new) }
{
    match play(host, edits, up_to) {
        Ok(outcomes) => Ok(outcomes),
        Err(GroupFault::Disk) => Err(EditsFault::Lost),
        // None of them has another fault.
        Err(
            GroupFault::Stopped {
                outcomes: _,
                fault: _,
            },
        ) => Err(EditsFault::Lost),
        // Memory, for the group or for the outcomes.
        Err(GroupFault::NoRoom(_)) => Err(EditsFault::OutOfMemory),
        // None of the events is one.
        Err(GroupFault::Checkpoint(_)) => Err(EditsFault::OutOfMemory),
    }
}
