//! What an agenda of fields makes of what came: which wait goes on, and whether a field's time was over.
ghost use Rattle.std.specs.Prelude.{◌≡◌};
ghost use Rattle.session_engine.specs.World.{World};
ghost use Rattle.session_engine.specs.Host.{IsHost};
ghost use Rattle.driver.specs.Reports.{came_of};
ghost use Rattle.line_agenda.specs.Heeds.{closed_one as closes_one, interrupt_note};
ghost use Rattle.field_agenda.specs.Heeds as heeds;

use crate::stage::FieldDoing;
use crate::times::limit_begun;
use child_edge::Interrupted;
use disk_model::Disk;
use driver::Came;
use evaluation::plan::Stand;
use line_agenda::heeding::{closed_one, interrupt_of};
use line_agenda::waits::is_held;
use live::{Hold, RESPITE, go_on, wait_for};
use session_engine::Host;
use tellings::Note;

/// What came of the interrupt for this field is noted.
fn note_over(id: u32, reported: Option<Interrupted>) -> Option<Note>
    ensures { result ≡ interrupt_note (Note.Over id) reported }
{
    match reported {
        Some(reported) => Some(Note::Over(id, reported)),
        None => None,
    }
}

/// What is noted of what came, where this was done.
pub(crate) fn noted_of(doing: FieldDoing, came: &Came) -> Option<Note>
    ensures { result ≡ heeds.noted_of doing (came_of came.now) }
{
    match doing {
        FieldDoing::Nothing => None,
        FieldDoing::Ask => None,
        FieldDoing::Life => None,
        FieldDoing::Over(id) => note_over(id, interrupt_of(came)),
        FieldDoing::Stall => None,
    }
}

/// The wait of fields after what came: where something closed, their time begins again.
pub(crate) fn waited(limit: Option<u32>, stand: &Stand, now: u64, came: &Came) -> Hold
    ensures { result ≡ heeds.waited limit stand.now now (closes_one (came_of came.now)) }
{
    let begins = closed_one(came) && !stand.warned;
    if is_held(stand.held) && begins {
        limit_begun(limit, now)
    } else {
        stand.held
    }
}

/// The wait that goes on, where this was done.
pub(crate) fn wait_after<D: Disk>(
    host: &Host<D>,
    limit: Option<u32>,
    now: u64,
    doing: FieldDoing,
    held: Hold,
) -> Hold
    ensures { (w : World) → IsHost host.now w → heeds.WaitAfter doing limit w now held result }
{
    match doing {
        FieldDoing::Nothing => held,
        FieldDoing::Ask => go_on(limit_begun(limit, now), host.looks()),
        FieldDoing::Life => go_on(held, host.looks()),
        FieldDoing::Over(_) => wait_for(now, RESPITE),
        FieldDoing::Stall => Hold::Free,
    }
}

/// Whether no item waited right after the last fields were asked, where this was done and this wait goes on.
pub(crate) fn at_once_after(doing: FieldDoing, before: bool, held: Hold) -> bool
    ensures { result ≡ heeds.at_once_after doing before held }
{
    match doing {
        FieldDoing::Ask => !is_held(held),
        FieldDoing::Nothing => before,
        FieldDoing::Life => before,
        FieldDoing::Over(_) => before,
        FieldDoing::Stall => before,
    }
}
