//! Fields that wait side by side.
ghost use Rattle.std.specs.Prelude.{◌≡◌, ◌&&◌, ◌+◌, ◌-◌, ◌<◌, ◌≤◌, ◌^◌, ℕ, IfSome, None, Some, length, nat_lt, not, slice_get, true};
ghost use Rattle.std.specs.Option.{option_copied};
ghost use Rattle.session_engine.specs.World.{World, sheet_in};
ghost use Rattle.session_engine.specs.Host.{IsHost};
ghost use Rattle.child_edge.specs.Seats.{waits};
ghost use Rattle.evaluation.specs.Meant.{IsAsked};
ghost use Rattle.evaluation.specs.Beside as beside;
ghost use Rattle.evaluation.specs.inside.Beside as inside;

use crate::asking::{id_at, is_due};
use crate::plan::{Plan, Stand};
use disk_model::Disk;
use session_engine::host::LifeView;
use session_engine::{BufferedHost, Host};
use worksheet::Field;

/// A field whose time is over.
#[derive(Clone, Copy, Debug)]
pub struct Late {
    /// Which of the fields that are to be evaluated it is: 1 for the first.
    pub place: usize,
    /// Its number.
    pub id: u32,
}

/// Whether an item waits in this life.
fn is_busy(life: Option<LifeView>) -> bool
    ensures { result ≡ beside.is_busy life }
{
    match life {
        None => false,
        Some(life) => life.waiting > 0,
    }
}

/// Whether an item waits in the session of this field.
pub fn is_session_busy<D: Disk>(host: &BufferedHost<D>, field: Option<&Field>) -> bool
    ensures { (w : World) → IsHost host.now w
        → result ≡ beside.is_session_busy w (option_copied field.entry) }
{
    match field {
        None => false,
        Some(field) => is_busy(host.life(field.session)),
    }
}

/// How many sessions are left of so many, after one in which an item waits or doesn't.
fn left_of(left: u32, is_busy: bool) -> u32
    ensures { result ≡ left - inside.one_if is_busy }
{
    if is_busy {
        left.saturating_sub(1)
    } else {
        left
    }
}

/// Whether items wait in fewer sessions than this.
#[tactic(auto, using(crate::proofs::Together::none_left))]
pub fn wait_in_fewer<D: Disk>(host: &BufferedHost<D>, most: u32) -> bool
    ensures { (w : World) → IsHost host.now w → result ≡ nat_lt (length (waits w)) most }
{
    let mut left = most;
    for session in host.sheet().sessions() {
        left = left_of(left, is_busy(host.life(session.name)));
    }
    left > 0
}

/// Whether there is room for the field with this number beside those that wait.
fn has_room<D: Disk>(host: &BufferedHost<D>, plan: &Plan, id: u32) -> bool
    ensures { (w : World) → IsHost host.now w → result ≡ beside.has_room_beside plan.now w id }
{
    !is_session_busy(host, host.sheet().field(id)) && wait_in_fewer(host, plan.jobs)
}

/// Whether the field with this number may be asked while others wait.
fn may_join<D: Disk>(host: &BufferedHost<D>, plan: &Plan, stand: &Stand, id: u32) -> bool
    ensures { (w : World) → IsHost host.now w
        → result ≡ (not stand.now.warned && beside.has_room_beside plan.now w id) }
{
    !stand.warned && has_room(host, plan, id)
}

/// Whether the field at this place, with this number, is asked although others wait, if it is the next. Whether
/// one is passed over is known only when none waits.
fn joins<D: Disk>(host: &BufferedHost<D>, plan: &Plan, stand: &Stand, at: usize, id: u32) -> bool
    ensures { (w : World) → IsHost host.now w → result ≡ beside.joins plan.now w stand.now at id }
{
    at == stand.taken && may_join(host, plan, stand, id)
}

/// Whether the field with this number, the first that was neither asked nor passed over, is the next one and
/// is asked although others wait.
fn joins_next<D: Disk>(
    host: &BufferedHost<D>,
    plan: &Plan,
    ids: &[u32],
    stand: &Stand,
    id: u32,
) -> bool
    requires few { length ids.now < 2 ^ 32 }
    requires there { stand.now.taken < length ids.now }
    ensures { (w : World) → IsHost host.now w
        → result ≡ (beside.joins plan.now w stand.now stand.now.taken id
        && inside.is_due plan.now (sheet_in w).fields ids.now stand.now) }
{
    joins(host, plan, stand, stand.taken, id) && is_due(plan, host.sheet(), ids, stand)
}

/// The place of the field that is asked although others wait, where there is one.
pub fn joining<D: Disk>(
    host: &BufferedHost<D>,
    plan: &Plan,
    ids: &[u32],
    stand: &Stand,
) -> Option<usize>
    requires few { length ids.now < 2 ^ 32 }
    requires taken { stand.now.taken ≤ length ids.now }
    ensures within { IfSome result (λ at. at < length ids.now) }
    ensures next { (w : World) (id : ℕ) → IsHost host.now w
        → IfSome result (λ at. slice_get ids.now at ≡ Some id
        → IsAsked plan.now (sheet_in w).fields ids.now stand.now at id
        × (beside.joins plan.now w stand.now at id ≡ true)) }
    ensures none { (w : World) → IsHost host.now w → result ≡ None
        → beside.NoneJoins plan.now w ids.now stand.now }
{
    let at = stand.taken;
    if at == ids.len() {
        return None;
    }
    if joins_next(host, plan, ids, stand, id_at(ids, at)) {
        Some(at)
    } else {
        None
    }
}

/// The first place from this one on whose field waits for its answer, or `to` where none before that does.
#[tactic(auto, using(crate::proofs::Together::between_steps))]
fn first_waiting<D: Disk>(host: &Host<D>, ids: &[u32], from: usize, to: usize) -> usize
    requires { to ≤ length ids.now }
    ensures before { (w : World) → IsHost host.now w → inside.NoneBetween w ids.now from result }
    ensures found { (w : World) → IsHost host.now w → result < to
        → beside.is_waiting_one w (slice_get ids.now result) ≡ true }
    ensures low { result < to → from ≤ result }
{
    for at in from..to {
        if host.is_waiting(ids[at]) {
            return at;
        }
    }
    to
}

/// The first that waits of the fields whose interpreters weren't interrupted.
fn next_late<D: Disk>(host: &Host<D>, ids: &[u32], stand: &Stand) -> Option<Late>
    requires { stand.now.taken ≤ length ids.now }
    ensures found { (w : World) → IsHost host.now w → IfSome result (λ late.
        beside.IsFirstWaiting w ids.now stand.now late.place late.id) }
    ensures none { (w : World) → IsHost host.now w → result ≡ None
        → beside.NoneWaits w ids.now stand.now }
    ensures taken { IfSome result (λ late. late.place ≤ stand.now.taken) }
{
    let at = first_waiting(host, ids, stand.first, stand.taken);
    if at < stand.taken {
        Some(Late {
            place: at + 1,
            id: ids[at],
        })
    } else {
        None
    }
}

/// The field whose time is over first: the one that was asked last where none is known to wait.
pub fn first_late<D: Disk>(host: &Host<D>, ids: &[u32], stand: &Stand) -> Late
    requires { stand.now.taken ≤ length ids.now }
    ensures late { (w : World) → IsHost host.now w
        → beside.IsLate w ids.now stand.now result.place result.id }
    ensures taken { result.place ≤ stand.now.taken }
{
    match next_late(host, ids, stand) {
        Some(late) => late,
        None => Late {
            place: stand.taken,
            id: stand.field,
        },
    }
}

/// The next field whose interpreter is interrupted after that of another one whose time was over.
pub fn further_late<D: Disk>(host: &Host<D>, ids: &[u32], stand: &Stand) -> Option<Late>
    requires { stand.now.taken ≤ length ids.now }
    ensures found { (w : World) → IsHost host.now w
        → IfSome result (λ late. (stand.now.warned ≡ true)
        × beside.IsFirstWaiting w ids.now stand.now late.place late.id) }
    ensures none { (w : World) → IsHost host.now w → result ≡ None
        → stand.now.warned ≡ true → beside.NoneWaits w ids.now stand.now }
    ensures taken { IfSome result (λ late. late.place ≤ stand.now.taken) }
{
    if stand.warned {
        next_late(host, ids, stand)
    } else {
        None
    }
}
