//! Commands that are taken as a whole or not at all.
ghost use Rattle.std.specs.Prelude.{◌≡◌, IfErr, IfOk, length};
ghost use Rattle.disk_model.specs.Disk.{SameDisk};
ghost use Rattle.session_engine.specs.World.{World};
ghost use Rattle.session_engine.specs.Host.{IsHost};
ghost use Rattle.session_engine.specs.Whole.{HaltsWhole, HasAtMost, MadeWhole, OnlyEdits};
ghost use Rattle.child_edge.specs.Wholly.{FailsWhole, ServesWhole};

use disk_model::Disk;
use session_engine::{Edits, Host, Whole, WholeFault};

/// Plays commands as a whole. The calls of `len` and `sheet` are there for what their contracts say: that each command only changes the
/// worksheet, and that nothing is owed to the host's disk before the call and after it.
fn play<D: Disk>(host: &mut Host<D>, edits: Edits) -> Result<Whole, WholeFault>
    ensures same { SameDisk host.old.store.real host.new.store.real }
    ensures made { (w : World) → IsHost host.old w
        → IfOk result (MadeWhole w edits host.old host.new) }
    ensures halts { (w : World) → IsHost host.old w
        → IfErr result (HaltsWhole w edits host.old host.new) }
    ensures few { IfOk result (HasAtMost (length edits)) }
    ensures edits { OnlyEdits edits }
    ensures before { host.old.store.real ≡ host.old.store.disk }
    ensures after { host.new.store.real ≡ host.new.store.disk }
{
    let _count = edits.len();
    let _before = host.sheet();
    let played = host.play_whole(edits);
    let _after = host.sheet();
    played
}

/// Takes commands that only change the worksheet as a whole: where one would be refused none is taken, and else what
/// all of them give is durable at once. None of them has an effect, so no child is called.
///
/// `NoRoom`: all memory is taken first, so none was taken. `Disk`: the disk failed when all were taken. `Closed`:
/// the host was closed.
pub fn serve_whole<D: Disk>(host: &mut Host<D>, edits: Edits) -> Result<Whole, WholeFault>
    ensures same { SameDisk host.old.store.disk host.new.store.disk }
    ensures ok { (w : World) → IsHost host.old w
        → IfOk result (ServesWhole w edits host.old host.new) }
    ensures err { (w : World) → IsHost host.old w
        → IfErr result (FailsWhole w edits host.old host.new) }
    ensures few { IfOk result (HasAtMost (length edits)) }
{
    match play(host, edits) {
        Ok(whole) => Ok(whole),
        Err(fault) => Err(fault),
    }
}
