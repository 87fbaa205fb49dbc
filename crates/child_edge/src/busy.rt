//! The lives in which an item waits.
ghost use Rattle.std.specs.Prelude.{◌≡◌, ◌≢◌, ◌++◌, ◌↔◌, ℕ, List, [], IfOk, OnOk, IsTrue, MatchBool};
ghost use Rattle.session_engine.specs.World.{World};
ghost use Rattle.session_engine.specs.Host.{IsHost};
ghost use Rattle.child_edge.specs.Seats.{seat_of, waits};

use child_calls::Seat;
use disk_model::Disk;
use session_engine::host::LifeView;
use session_engine::{BufferedHost, Host};
use std::alloc::{AllocError, Global};
use worksheet::Name;

/// Adds the life of this session, where an item waits in it.
fn add(seats: &mut Vec<Seat>, name: Name, view: Option<LifeView>) -> Result<(), AllocError>
    ensures { OnOk result (seats.new.items ≡ seats.old.items ++ seat_of name view) }
{
    let Some(view) = view else {
        return Ok(());
    };
    if view.waiting == 0 {
        return Ok(());
    }
    seats.push(Seat {
        name,
        life: view.number,
    })?;
    Ok(())
}

/// The lives in which an item waits, in the order in which their sessions were made.
pub fn waiting<D: Disk>(alloc: Global, host: &Host<D>) -> Result<Vec<Seat>, AllocError>
    ensures { (w : World) → IsHost host.now w → IfOk result (λ seats. seats.items ≡ waits w) }
{
    let mut seats = Vec::new(alloc);
    for session in host.sheet().sessions() {
        add(&mut seats, session.name, host.life(session.name))?;
    }
    Ok(seats)
}

/// Whether an item waits in this life.
fn is_waited_for(view: Option<LifeView>) -> bool
    ensures { (name : List ℕ) → MatchBool result (seat_of name view ≢ []) (seat_of name view ≡ []) }
{
    match view {
        Some(view) => view.waiting > 0,
        None => false,
    }
}

/// Whether no item waits for an answer. No memory is wanted.
pub fn is_idle<D: Disk>(host: &BufferedHost<D>) -> bool
    ensures { (w : World) → IsHost host.now w → IsTrue result ↔ (waits w ≡ []) }
{
    for session in host.sheet().sessions() {
        if is_waited_for(host.life(session.name)) {
            return false;
        }
    }
    true
}
