//! Which fields are asked together.
ghost use Rattle.std.specs.Prelude.{◌≡◌, ◌+◌, ◌-◌, ◌<◌, ◌≤◌, ◌^◌, ℕ, IfOk, IfSome, List, Option, Some, None, length, map, slice_get, true};
ghost use Rattle.std.specs.Option.{option_copied};
ghost use Rattle.session_engine.specs.World.{World};
ghost use Rattle.session_engine.specs.Host.{IsHost};
ghost use Rattle.driver.specs.Steps.{most_together};
ghost use Rattle.evaluation.specs.Meant.{EndsHere, IsAsked};
ghost use Rattle.evaluation.specs.Beside.{first_by};
ghost use Rattle.live.specs.Saying as saying;
ghost use Rattle.field_agenda.specs.Says as says;
ghost use Rattle.field_agenda.specs.Standing as standing;
ghost use Rattle.field_agenda.specs.Together as together;

use block_tree::Sequence;
use child_edge::MOST_TOGETHER;
use disk_model::Disk;
use evaluation::Plan;
use evaluation::asking::{id_at, is_passed_over, next_of, stop_field};
use evaluation::beside::{is_session_busy, wait_in_fewer};
use evaluation::lasts::{Last, after_asking};
use evaluation::plan::Stand;
use evaluation::programs::is_needed;
use host_events::{Command, Event};
use line_agenda::waits::is_held;
use live::Hold;
use session_engine::BufferedHost;
use std::alloc::{AllocError, Global};
use worksheet::{Field, Sheet};

/// Whether one of the fields with these numbers is of the session of this one.
fn shares_session(sheet: &Sheet, group: &[u32], field: Option<&Field>) -> bool
    ensures { result ≡ together.shares_session sheet.now.contents.fields group.now
        (option_copied field.entry) }
{
    match field {
        None => false,
        Some(field) => is_needed(sheet, group, field.session),
    }
}

/// Whether no item waits in the session of this field, and none of these fields is of it.
fn is_apart<D: Disk>(host: &BufferedHost<D>, group: &[u32], field: Option<&Field>) -> bool
    ensures { (w : World) → IsHost host.now w
        → result ≡ together.is_apart w group.now (option_copied field.entry) }
{
    !is_session_busy(host, field) && !shares_session(host.sheet(), group, field)
}

/// Whether there is room for one field more beside so many, in one group and in sessions.
fn has_room<D: Disk>(host: &BufferedHost<D>, plan: &Plan, count: usize) -> bool
    ensures room { (w : World) → IsHost host.now w → result ≡ together.has_room plan.now w count }
    ensures few { result ≡ true → count < most_together }
{
    if count >= MOST_TOGETHER {
        return false;
    }
    wait_in_fewer(host, plan.jobs.saturating_sub(count as u32))
}

/// By what it is known which fields go together.
#[derive(Clone, Copy)]
pub(crate) struct Grouping<'a> {
    pub(crate) plan: &'a Plan,
    /// Which field of each session was asked last.
    pub(crate) lasts: &'a [Last],
}

/// Whether the field with this number may be asked with these, as far as its session goes.
fn may_go_with<D: Disk>(
    host: &BufferedHost<D>,
    grouping: &Grouping<'_>,
    group: &[u32],
    id: u32,
) -> bool
    ensures { (w : World) → IsHost host.now w
        → result ≡ together.may_go_with grouping.now.plan.now w grouping.now.lasts.now group.now
        id }
{
    is_apart(host, group, host.sheet().field(id))
        && !is_passed_over(grouping.plan, host.sheet(), grouping.lasts, id)
}

/// Whether the field with this number is asked together with these, which come before it.
fn goes_with<D: Disk>(
    host: &BufferedHost<D>,
    grouping: &Grouping<'_>,
    group: &[u32],
    id: u32,
) -> bool
    ensures goes { (w : World) → IsHost host.now w
        → result ≡ together.goes_with grouping.now.plan.now w grouping.now.lasts.now group.now id }
    ensures few { result ≡ true → length group.now < most_together }
{
    if grouping.plan.strict {
        return false;
    }
    has_room(host, grouping.plan, group.len()) && may_go_with(host, grouping, group, id)
}

/// The fields that are asked together, where the one at this place is asked.
pub(crate) fn group_from<D: Disk>(
    alloc: Global,
    host: &BufferedHost<D>,
    grouping: &Grouping<'_>,
    ids: &[u32],
    from: usize,
) -> Result<Vec<u32>, AllocError>
    requires { from < length ids.now }
    ensures group { (w : World) (id : ℕ) → IsHost host.now w → slice_get ids.now from ≡ Some id
        → IfOk result (λ group. group.items
        ≡ together.group_at grouping.now.plan.now w grouping.now.lasts.now ids.now from id) }
    ensures few { IfOk result (λ group. length group.items ≤ most_together) }
{
    let mut group = Vec::new(alloc);
    group.push(id_at(ids, from))?;
    for at in from + 1..ids.len() {
        let id = id_at(ids, at);
        if !goes_with(host, grouping, group.as_slice(), id) {
            return Ok(group);
        }
        group.push(id)?;
    }
    Ok(group)
}

/// The command that asks a field.
fn asks_field(id: u32) -> Event
    ensures { result ≡ says.asks_field id }
{
    Event::Command(Command::Eval { id })
}

/// The commands that ask these fields.
pub(crate) fn evals(alloc: Global, group: &[u32]) -> Result<Vec<Event>, AllocError>
    ensures { IfOk result (λ events. events.items ≡ map says.asks_field group.now) }
{
    let mut events = Vec::new(alloc);
    for id in group {
        events.push(asks_field(*id))?;
    }
    Ok(events)
}

/// Which field of each session was asked last, where these were asked after those.
pub(crate) fn lasts_after(
    alloc: Global,
    lasts: &[Last],
    sheet: &Sheet,
    group: &[u32],
) -> Result<Vec<Last>, AllocError>
    ensures { IfOk result (λ asked. asked.items ≡ standing.lasts_after lasts.now
        sheet.now.contents.fields group.now) }
{
    let mut asked = lasts.to_vec(alloc)?;
    for id in group {
        let next = after_asking(alloc, asked.as_slice(), sheet.field(*id))?;
        asked = next;
    }
    Ok(asked)
}

/// The last of these numbers, or this one where there is none.
fn last_of_group(group: &[u32], other: u32) -> u32
    ensures { result ≡ standing.last_of_group group.now other }
{
    if group.is_empty() {
        return other;
    }
    group[group.len() - 1]
}

/// The first place of the fields that wait together, where the one at this place is asked.
fn first_at(held: Hold, first: usize, at: usize) -> usize
    ensures { result ≡ first_by (saying.is_held held) first at }
{
    if is_held(held) { first } else { at }
}

/// How the evaluation stands when these fields, from this place on, were asked together; `lasts` has the field asked last of each session.
pub(crate) fn asked_together(stand: &Stand, at: usize, group: &[u32], lasts: Vec<Last>) -> Stand
    requires few { at + length group.now < 2 ^ 64 }
    requires counted { stand.now.asked + length group.now < 2 ^ 64 }
    ensures { (fields : List Field)
        → lasts.items ≡ standing.lasts_after stand.now.lasts fields group.now
        → result ≡ standing.asked_together stand.now at fields group.now }
{
    Stand {
        taken: at + group.len(),
        first: first_at(stand.held, stand.first, at),
        field: last_of_group(group, stand.field),
        held: stand.held,
        warned: false,
        at_once: stand.at_once,
        asked: stand.asked + group.len() as u64,
        overs: stand.overs,
        lasts: Sequence::from_vec(lasts),
    }
}

/// The place of the field that is asked next, where the evaluation doesn't come to its end here.
pub(crate) fn next_asked(plan: &Plan, sheet: &Sheet, ids: &[u32], stand: &Stand) -> Option<usize>
    requires few { length ids.now < 2 ^ 32 }
    requires taken { stand.now.taken ≤ length ids.now }
    ensures within { IfSome result (λ at. at < length ids.now) }
    ensures next { (id : ℕ) → IfSome result (λ at. slice_get ids.now at ≡ Some id
        → IsAsked plan.now sheet.now.contents.fields ids.now stand.now at id) }
    ensures ends { result ≡ None → (stopped : Option ℕ)
        × EndsHere plan.now sheet.now.contents.fields ids.now stand.now stopped }
{
    if stop_field(plan, sheet, stand).is_some() {
        return None;
    }
    let at = next_of(plan, sheet, stand.lasts.as_slice(), ids, stand.taken);
    if at == ids.len() { None } else { Some(at) }
}
