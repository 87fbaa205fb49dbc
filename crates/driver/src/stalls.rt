//! Lives that have stalled.
ghost use Rattle.std.specs.Prelude.{◌≡◌, IfOk, map};
ghost use Rattle.driver.specs.Items.{stalls};

use child_calls::Seat;
use host_events::{ChildEvent, Event};
use std::alloc::{AllocError, Global};

/// The event that a life has stalled.
pub fn stalled(seat: Seat) -> Event
    ensures { result ≡ stalls seat }
{
    Event::Child {
        name: seat.name,
        life: seat.life,
        event: ChildEvent::Stalled,
    }
}

/// The events that these lives have stalled.
pub(crate) fn stalled_events(alloc: Global, seats: &[Seat]) -> Result<Vec<Event>, AllocError>
    ensures { IfOk result (λ events. events.items ≡ map stalls seats.now) }
{
    let mut events = Vec::new(alloc);
    for seat in seats {
        events.push(stalled(*seat))?;
    }
    Ok(events)
}
