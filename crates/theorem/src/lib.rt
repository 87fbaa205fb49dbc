//! The theorem of docs/trust/THEOREM.md as the contract of one function: what opens, after whatever was there before.
#![tactic(auto)]

ghost use Rattle.std.specs.Prelude.{◌≡◌, IfErr, IfOk, List, MatchResult};
ghost use Rattle.disk_model.specs.Disk.{InModel, Looks, Rises, SameDisk, bytes_on};
ghost use Rattle.worksheet.specs.declared.op.Op.{Op};
ghost use Rattle.session_engine.specs.Host.{disk_of_opening};
ghost use Rattle.host_laws.specs.OneHost.{JustOpened, StepMeets};
ghost use Rattle.theorem.specs.Story.{LivedByGroup, LivedByStep, OpensAfterHosts};
ghost use Rattle.theorem.specs.Programs.{OpensAfterPrograms};
ghost use Rattle.theorem.specs.Acts.{OpensAfterActs};

use disk_model::Disk;
use host_events::{Event, HostFault, Outcome};
use host_laws::played_group;
use journal::{OpenCause, OpenFault};
use session_engine::{GroupFault, Host};
use std::alloc::Global;

/// Opens what hosts and programs, one after another, have left on a disk. Three statements say what that is: after hosts that a caller gave
/// events by steps and groups; after invocations of `run`, `live` and `eval`; and with those of `check --accept` among them.
pub fn opened_after<D: Disk>(alloc: Global, disk: D) -> Result<Host<D>, OpenFault<D>>
    ensures hosts { OpensAfterHosts (D.view disk) result }
    ensures programs { OpensAfterPrograms (D.view disk) result }
    ensures acts { OpensAfterActs (D.view disk) result }

    // The host that is opened is one with which such a story goes on, and the opening itself leaves what was there.
    ensures begun { InModel (D.view disk) (IfOk result (λ host. (found : List Op)
        × JustOpened (D.view disk).room (bytes_on (D.view disk)) found host)) }
    ensures same { SameDisk (D.view disk) (disk_of_opening D.view result) }
    ensures looks { InModel (D.view disk)
        (Looks (D.view disk).history (disk_of_opening D.view result).history) }

    // That the disk failed is answered where a call of it did, and only there.
    ensures faulty { IfErr result (λ e. e.cause ≡ OpenCause.Disk
        → Rises (D.view disk).faults (D.view e.disk).faults) }
    ensures steady { MatchResult result
        (λ host. host.store.disk.faults ≡ (D.view disk).faults)
        (λ e. (e.cause ≡ OpenCause.Disk → ⊥) → (D.view e.disk).faults ≡ (D.view disk).faults) }
{
    host_laws::hosts_in_turn();
    host_laws::calls_leave_prefixes();
    recovery::one_sheet();
    Host::open(alloc, disk)
}

/// Opens a worksheet and takes one event: what is answered is what `step` may answer, and wherever a crash comes since the worksheet was
/// opened, this is one of the hosts of which such a story tells. An outcome that is answered counts there as returned.
pub fn took_one<D: Disk>(
    alloc: Global,
    disk: D,
    event: Event,
) -> Result<(Host<D>, Result<Outcome, HostFault>), OpenFault<D>>
    ensures lived { InModel (D.view disk) (IfOk result (λ r. LivedByStep (D.view disk) event r.1
        r.0)) }

    // That the disk failed is answered where a call of the opening did, and only there.
    ensures faulty { IfErr result (λ e. e.cause ≡ OpenCause.Disk
        → Rises (D.view disk).faults (D.view e.disk).faults) }
    ensures steady { IfErr result (λ e. (e.cause ≡ OpenCause.Disk → ⊥)
        → (D.view e.disk).faults ≡ (D.view disk).faults) }
{
    let mut host = opened_after(alloc, disk)?;
    let answer = stepped(&mut host, event);
    Ok((host, answer))
}

/// One event by a step, said with the word of the stories.
fn stepped<D: Disk>(host: &mut Host<D>, event: Event) -> Result<Outcome, HostFault>
    ensures meets { StepMeets event host.old result host.new }
    ensures same { SameDisk host.old.store.disk host.new.store.disk }
{
    host.step(event)
}

/// The same of a group of events, which one gate commits.
pub fn took_group<D: Disk>(
    alloc: Global,
    disk: D,
    events: Vec<Event>,
) -> Result<(Host<D>, Result<Vec<Outcome>, GroupFault>), OpenFault<D>>
    ensures lived { InModel (D.view disk)
        (IfOk result (λ r. LivedByGroup (D.view disk) events.items r.1 r.0)) }

    // That the disk failed is answered where a call of the opening did, and only there.
    ensures faulty { IfErr result (λ e. e.cause ≡ OpenCause.Disk
        → Rises (D.view disk).faults (D.view e.disk).faults) }
    ensures steady { IfErr result (λ e. (e.cause ≡ OpenCause.Disk → ⊥)
        → (D.view e.disk).faults ≡ (D.view disk).faults) }
{
    let mut opened = opened_after(alloc, disk)?;
    let answer = played_group(&mut opened, events);
    Ok((opened, answer))
}
