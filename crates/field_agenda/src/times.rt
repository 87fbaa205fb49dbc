//! The time that fields have.
ghost use Rattle.std.specs.Prelude.{◌≡◌, ◌≤◌, IfSome, None, length};
ghost use Rattle.session_engine.specs.World.{World};
ghost use Rattle.session_engine.specs.Host.{IsHost};
ghost use Rattle.field_agenda.specs.Says.{IsLateNow, NoneLate};
ghost use Rattle.field_agenda.specs.Standing as standing;

use arrivals::Woken;
use child_calls::Seat;
use disk_model::Disk;
use evaluation::beside::{Late, first_late, further_late};
use evaluation::plan::Stand;
use line_agenda::waits::is_over;
use live::{Hold, wait_for};
use session_engine::Host;

/// The wait for fields that were asked now.
pub(crate) fn limit_begun(limit: Option<u32>, now: u64) -> Hold
    ensures { result ≡ standing.limit_begun limit now }
{
    match limit {
        None => Hold::Wait,
        Some(seconds) => wait_for(now, seconds),
    }
}

/// The life whose turn it is, by what a watch returned.
pub(crate) fn life_due(due: Option<Woken>) -> Option<Seat>
    ensures { result ≡ standing.life_due due }
{
    match due {
        Some(Woken::Life(seat)) => Some(seat),
        Some(Woken::Input) => None,
        Some(Woken::TimeOver) => None,
        None => None,
    }
}

/// The field whose interpreter is interrupted now: the first whose time is over by the clock, and then each other that waits.
pub(crate) fn late_now<D: Disk>(
    host: &Host<D>,
    ids: &[u32],
    stand: &Stand,
    now: u64,
) -> Option<Late>
    requires { stand.now.taken ≤ length ids.now }
    ensures some { (w : World) → IsHost host.now w
        → IfSome result (λ late. IsLateNow ids.now stand.now w now late.place late.id) }
    ensures none { (w : World) → IsHost host.now w → result ≡ None
        → NoneLate ids.now stand.now w now }
{
    if stand.warned {
        return further_late(host, ids, stand);
    }
    if is_over(stand.held, now) {
        Some(first_late(host, ids, stand))
    } else {
        None
    }
}
