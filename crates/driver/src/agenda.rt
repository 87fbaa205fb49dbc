//! Who says what is next.

use crate::action::Action;
use crate::report::Came;
use arrivals::Woken;
use disk_model::Disk;
use offline_programs::RunFault;
use session_engine::{Host, Joins};
use std::alloc::Global;
use tellings::Note;

/// Who says what is next, and heeds what came of it. It sees the host and what the clock reads, and calls neither a child nor a
/// watch; it may have an input of its own.
///
/// Where events of lives were taken and aren't durable yet, it is asked which commands join them ([`Joins`]): what it would say next. It
/// heeds then what came of all of them at once.
pub trait Agenda: Joins {
    ghost use Rattle.session_engine.specs.World.{World};
    ghost use Rattle.session_engine.specs.Host.{IsHost};
    ghost use Rattle.driver.specs.Place.{ActionRules};
    ghost use Rattle.driver.specs.Reports.{came_of};

    /// What it may say, by the world and what the clock read, and how it changes.
    ghost rules: { ActionRules Self };

    /// What is done next, where the host stands so and the clock reads this; or why there is no next: its input can't be
    /// read, too much came to be counted, or memory was refused.
    fn next<D: Disk>(&mut self, alloc: Global, host: &Host<D>, now: u64) -> Result<Action, RunFault>
        ensures { (w : World) → IsHost host.now w → rules.says self.old w now result self.new };

    /// It is the turn of this one, by the watch that it asked for.
    fn wake(&mut self, woken: Woken)
        ensures { rules.woken self.old woken self.new };

    /// The action was taken and printed. What is noted of what came of it.
    fn heed<D: Disk>(&mut self, host: &Host<D>, now: u64, came: &Came) -> Option<Note>
        ensures { (w : World) → IsHost host.now w
            → rules.heeds self.old w now (came_of came.now) result self.new };
}
