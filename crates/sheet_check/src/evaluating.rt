//! The evaluation of a field by itself.
ghost use Rattle.std.specs.Prelude.{◌≡◌, ◌∷◌, ◌&&◌, ◌-◌, [], IfErr, IfOk, false, is_some, not, true};
ghost use Rattle.session_engine.specs.World.{World, life_of};
ghost use Rattle.session_engine.specs.Host.{IsHost};
ghost use Rattle.child_edge.specs.Faithful.{at};
ghost use Rattle.sheet_check.specs.Evaluated.{came_if, fault_on_copy, shown_in, way};
ghost use Rattle.sheet_check.specs.Fields.{Evaluated, comes_by};
ghost use Rattle.sheet_check.specs.Marks as marked;
ghost use Rattle.sheet_check.specs.inside.Checking.{CameRemembered, EvaluationBroke};

use crate::driving::{CopyDriver, checking_plan, drive_plan};
use crate::marked::{is_in_time, lacked_memory, was_asked};
use crate::marks::Mark;
use arrivals::Sources;
use disk_model::Disk;
use host_events::HostFault;
use offline_programs::RunFault;
use session_engine::Host;
use sheet_json::Took;
use std::alloc::{AllocError, Global};
use worksheet::{Field, Name};

/// The fault of a check by that of a run on its copy.
pub(crate) fn copy_fault(fault: RunFault) -> RunFault
    ensures { result ≡ fault_on_copy fault }
{
    match fault {
        RunFault::Host(HostFault::Disk) | RunFault::OutOfMemory | RunFault::Output => {
            RunFault::OutOfMemory
        }
        RunFault::Host(HostFault::OutOfMemory) => RunFault::Host(HostFault::OutOfMemory),
        RunFault::Host(HostFault::JournalFull) => RunFault::Host(HostFault::JournalFull),
        RunFault::Host(HostFault::Closed) => RunFault::Host(HostFault::Closed),
        RunFault::Input => RunFault::Input,
        RunFault::InputTooLong => RunFault::InputTooLong,
        RunFault::Open(why) => RunFault::Open(why),
        RunFault::InUse => RunFault::InUse,
        RunFault::SecondFile => RunFault::SecondFile,
    }
}

/// Whether an answer came to the field with this number: its line was asked, and its time wasn't over.
fn comes(marks: &[Mark], id: u32) -> bool
    ensures { result ≡ comes_by marks.now id }
{
    was_asked(marks) && is_in_time(marks, id)
}

/// Whether an answer came to the field with this number; a fault where there was no memory for its line.
fn remembered(marks: &[Mark], id: u32) -> Result<bool, RunFault>
    ensures ok { IfOk result (λ came. (came ≡ comes_by marks.now id)
        × (marked.lacked_memory marks.now ≡ false)) }
    ensures err { IfErr result (λ why. (why ≡ RunFault.OutOfMemory)
        × (marked.lacked_memory marks.now ≡ true)) }
{
    if lacked_memory(marks) {
        return Err(RunFault::OutOfMemory);
    }
    Ok(comes(marks, id))
}

/// This number alone.
fn one_id(alloc: Global, id: u32) -> Result<Vec<u32>, AllocError>
    ensures { IfOk result (λ ids. ids.items ≡ id ∷ []) }
{
    let mut ids = Vec::new(alloc);
    ids.push(id)?;
    Ok(ids)
}

/// Whether no interpreter of a session is there.
fn is_down<D: Disk>(host: &Host<D>, session: Name) -> bool
    ensures { (w : World) → IsHost host.now w → result ≡ not (is_some (life_of w session)) }
{
    host.life(session).is_none()
}

/// What an evaluation came to.
#[derive(Clone, Copy, Debug)]
pub(crate) struct FieldCame {
    /// Whether the answer that the field shows then is one that came.
    pub(crate) is_there: bool,
    /// What the evaluation took.
    pub(crate) took: Took,
}

/// What it came to, by whether an answer came; by the clock's two readings; and by whether no interpreter was there.
fn came_of(is_there: bool, begun: u64, ended: u64, started: bool) -> FieldCame
    ensures there { result.is_there ≡ is_there }
    ensures took { result.took ≡ record { millis = ended - begun; started = started } }
{
    FieldCame {
        is_there,
        took: Took {
            millis: ended.saturating_sub(begun),
            started,
        },
    }
}

/// Evaluates the field with this number by itself, within the limit of time where there is one. Whether an answer
/// came.
fn evaluate_alone<D: Disk, C: Sources>(
    driver: &mut CopyDriver<D, C>,
    limit: Option<u32>,
    id: u32,
) -> Result<bool, RunFault>
    ensures ok { (w : World) → IsHost driver.old.host w → IfOk result (λ came. CameRemembered
        (way C.after C.clock C.wakes limit) id (at w driver.old.sources driver.old.host.store.disk)
        driver.new.host driver.new.sources driver.new.sink.kept
        × (came ≡ comes_by driver.new.sink.kept id)) }
    ensures err { (w : World) → IsHost driver.old.host w → IfErr result (EvaluationBroke
        (way C.after C.clock C.wakes limit) id (at w driver.old.sources driver.old.host.store.disk)
        driver.new.host driver.new.sources) }
{
    let Ok(ids) = one_id(driver.alloc, id) else {
        return Err(RunFault::OutOfMemory);
    };
    match drive_plan(driver, checking_plan(ids, limit, 1)) {
        Ok(()) => remembered(driver.sink.kept.as_slice(), id),
        Err(fault) => Err(copy_fault(fault)),
    }
}

/// Evaluates a field: its line is asked, and its answer is waited for, within the limit of time where there is one.
pub(crate) fn evaluate<D: Disk, C: Sources>(
    driver: &mut CopyDriver<D, C>,
    limit: Option<u32>,
    field: &Field,
) -> Result<FieldCame, RunFault>
    ensures ok { (w : World) → IsHost driver.old.host w → IfOk result (λ came. (t : World)
        × Evaluated (way C.after C.clock C.wakes limit) field.now
        (at w driver.old.sources driver.old.host.store.disk)
        (came_if came.is_there (shown_in t field.now.id)) came.took
        (at t driver.new.sources driver.new.host.store.disk)
        × IsHost driver.new.host t) }
    ensures err { (w : World) → IsHost driver.old.host w → IfErr result (EvaluationBroke
        (way C.after C.clock C.wakes limit) field.now.id (at w driver.old.sources
        driver.old.host.store.disk)
        driver.new.host driver.new.sources) }
{
    let begun = driver.sources.now();
    let started = is_down(&driver.host, field.session);
    match evaluate_alone(driver, limit, field.id) {
        Ok(is_there) => Ok(came_of(is_there, begun, driver.sources.now(), started)),
        Err(fault) => Err(fault),
    }
}
