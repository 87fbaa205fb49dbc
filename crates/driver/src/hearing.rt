//! What lives have that are ready at the same time.
ghost use Rattle.std.specs.Prelude.{◌≡◌, ◌+◌, ◌≤◌, ◌++◌, ◌∷◌, [], IfOk, OnErr, length, true, false};
ghost use Rattle.host_events.specs.declared.event.Event.{Event as Said};
ghost use Rattle.driver.specs.Place.{source_rules};
ghost use Rattle.driver.specs.Hearing.{HeardReady, HearsNext, WatchedAgain};

use arrivals::{Input, Sources, Woken};
use child_calls::Seat;
use child_edge::receive_event;
use host_events::Event;
use std::alloc::{AllocError, Global};

/// Receives from the next life that is ready still, where there is one and memory for what it has. Whether it did.
fn hear_next<S: Sources>(sources: &mut S, events: &mut Vec<Event>) -> bool
    ensures more { result ≡ true → (event : Said)
        × HearsNext (source_rules S.after S.wakes S.clock) sources.old event sources.new
        × (events.new.items ≡ events.old.items ++ event ∷ []) }
    ensures none { result ≡ false → WatchedAgain (source_rules S.after S.wakes S.clock) sources.old
        sources.new
        × (events.new.items ≡ events.old.items) }
    ensures one { length events.new.items ≤ length events.old.items + 1 }
{
    if !sources.has_ready() || events.reserve(1).is_err() {
        return false;
    }
    match sources.watch(Input::HeldBack, None) {
        Ok(Woken::Life(seat)) => match receive_event(sources, seat) {
            Ok(event) => {
                events.push_reserved(event);
                true
            }
            Err(_) => false,
        },
        Ok(Woken::Input | Woken::TimeOver) | Err(_) => false,
    }
}

/// Receives once from this life, and then from each other that is ready still, so many of them at most.
///
/// `AllocError`: nothing was received.
pub(crate) fn hear_ready<S: Sources>(
    alloc: Global,
    sources: &mut S,
    seat: Seat,
    most: u64,
) -> Result<Vec<Event>, AllocError>
    ensures ok { IfOk result (λ events. HeardReady (source_rules S.after S.wakes S.clock) seat most
        sources.old events.items sources.new) }
    ensures err { OnErr result (sources.new ≡ sources.old) }
{
    let mut events = Vec::new(alloc);
    events.reserve(1)?;
    let first = receive_event(sources, seat)?;
    events.push_reserved(first);
    for _ in 0..most {
        if !hear_next(sources, &mut events) {
            return Ok(events);
        }
    }
    Ok(events)
}
