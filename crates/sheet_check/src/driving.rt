//! Fields of a copy, evaluated by a driver that prints nothing.
ghost use Rattle.std.specs.Prelude.{◌≡◌, ℕ, [], IfErr, IfOk, Option};
ghost use Rattle.session_engine.specs.World.{World};
ghost use Rattle.session_engine.specs.Host.{IsHost};
ghost use Rattle.child_edge.specs.Faithful.{at};
ghost use Rattle.sheet_check.specs.Driven.{DrivenToEnd, DrivenUpTo, checking_plan as plan_of_check};
ghost use Rattle.sheet_check.specs.Evaluated.{way};

use crate::marks::{AllThere, Marks};
use arrivals::Sources;
use block_tree::Sequence;
use disk_model::Disk;
use driver::Driver;
use evaluation::{Plan, Spared, Which};
use field_agenda::ByFields;
use offline_programs::RunFault;
use session_engine::Host;
use std::alloc::Global;

/// A driver over the host of a copy. It prints nothing.
pub(crate) type CopyDriver<D, C> = Driver<D, C, Marks, ByFields<AllThere>>;

/// How the fields with these numbers are evaluated: all of them, up to the end.
pub(crate) fn checking_plan(ids: Vec<u32>, limit: Option<u32>, jobs: u32) -> Plan
    ensures { result ≡ plan_of_check ids.items limit jobs }
{
    Plan {
        which: Which::Named(Sequence::from_vec(ids)),
        spared: Spared::Nothing,
        strict: false,
        at_errors: false,
        limit,
        keep_going: true,
        jobs,
    }
}

/// No mark yet.
fn no_marks(alloc: Global) -> Marks
    ensures { result ≡ record { kept = [] } }
{
    Marks {
        kept: Sequence::new(alloc),
    }
}

/// A driver over this host and these sources, before it is given a plan.
pub(crate) fn drive_copy<D: Disk, C: Sources>(
    alloc: Global,
    host: Host<D>,
    sources: C,
) -> CopyDriver<D, C>
    ensures host { result.host ≡ host }
    ensures sources { result.sources ≡ sources }
{
    Driver {
        alloc,
        host,
        sources,
        sink: no_marks(alloc),
        agenda: ByFields::new(alloc, checking_plan(Vec::new(alloc), None, 1), AllThere),
    }
}

/// The sources of a driver whose host ends here.
pub(crate) fn into_sources<D: Disk, C: Sources>(driver: CopyDriver<D, C>) -> C
    ensures { result ≡ driver.sources }
{
    let Driver {
        alloc: _,
        host: _,
        sources,
        sink: _,
        agenda: _,
    } = driver;
    sources
}

/// What was answered, and the sources that are given back.
pub(crate) struct Gave<T, C> {
    pub(crate) answer: T,
    pub(crate) sources: C,
}

/// Evaluates the fields of a plan. The marks of that are in the driver's sink.
pub(crate) fn drive_plan<D: Disk, C: Sources>(
    driver: &mut CopyDriver<D, C>,
    plan: Plan,
) -> Result<(), RunFault>
    ensures ok { (w : World) (limit : Option ℕ) → IsHost driver.old.host w
        → IfOk result (λ done. (t : World)
        × DrivenToEnd (way C.after C.clock C.wakes limit) plan
        (at w driver.old.sources driver.old.host.store.disk)
        driver.new.sink.kept (at t driver.new.sources driver.new.host.store.disk)
        × IsHost driver.new.host t) }
    ensures err { (w : World) (limit : Option ℕ) → IsHost driver.old.host w
        → IfErr result (DrivenUpTo
        (way C.after C.clock C.wakes limit) plan (at w driver.old.sources
        driver.old.host.store.disk)
        driver.new.host driver.new.sources) }
{
    driver.sink = no_marks(driver.alloc);
    driver.agenda = ByFields::new(driver.alloc, plan, AllThere);
    driver.drive()
}
