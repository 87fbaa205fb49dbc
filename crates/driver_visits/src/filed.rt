//! One acceptance, and an opening after it.
ghost use Rattle.std.specs.Prelude.{◌≡◌};
ghost use Rattle.disk_model.specs.Disk.{InModel};
ghost use Rattle.driver_visits.specs.Filed.{AcceptsThenOpens};
ghost use Rattle.session_engine.specs.Host.{disk_of_opening};
ghost use Rattle.sheet_check.specs.Accept.{acceptance, accepting_by};
ghost use Rattle.sheet_check.specs.Check.{passage};

use arrivals::Sources;
use check_report::VerdictCounts;
use disk_model::Disk;
use driver::Stamped;
use journal::OpenFault;
use session_engine::Host;
use sheet_check::{CheckFault, CheckManner, Checked, Progress, check_accepting};
use theorem::opened_after;

/// What an acceptance gave back and answered, and what is opened on its disk after it.
#[derive(Drop)]
pub struct AcceptedThenOpened<D: Disk, C> {
    pub sources: C,
    /// How many evaluations came to what, or why it ended early.
    pub answer: Result<VerdictCounts, CheckFault>,
    pub opened: Result<Host<D>, OpenFault<D>>,
}

/// Checks a worksheet and accepts answers, by the call that `check --accept` makes, and opens the disk again.
///
/// The contract is the theorem of that call, whatever uses of the program there were before: at each moment of it a crash leaves the
/// worksheet with some of the answers that it put in, and with all those that it had reported by then; and what opens after it has all
/// that it reported. Each answer is a whole block, which answered the line of its field on a copy of the worksheet.
pub fn accept_then_open<D: Disk, C: Sources, W: Stamped, P: Progress>(
    manner: &CheckManner<'_>,
    disk: D,
    sources: C,
    progress: &mut P,
    writer: &mut W,
) -> AcceptedThenOpened<D, C>
    ensures { InModel (D.view disk) (AcceptsThenOpens
        (accepting_by C.after C.clock C.wakes manner.now.request.now)
        (passage sources result.sources (W.contents writer.old) (W.contents writer.new))
        (acceptance W.held (D.view disk) (disk_of_opening D.view result.opened))
        ((writer.new ≡ writer.old) × (result.sources ≡ sources)) result.answer result.opened) }
{
    host_laws::hosts_in_turn();
    recovery::one_sheet();
    let Checked {
        disk,
        sources,
        answer,
    } = check_accepting(manner, disk, sources, progress, writer);
    AcceptedThenOpened {
        sources,
        answer,
        opened: opened_after(manner.alloc, disk),
    }
}
