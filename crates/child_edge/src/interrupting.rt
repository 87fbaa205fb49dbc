//! The interrupt of a session's interpreter, of which no event comes.
ghost use Rattle.session_engine.specs.World.{World};
ghost use Rattle.session_engine.specs.Host.{IsHost};
ghost use Rattle.child_edge.specs.Interrupts.{InterruptsFirst, Interrupts};
ghost use Rattle.child_edge.specs.Seats.{seat_of};

use child_calls::Children;
use disk_model::Disk;
use session_engine::Host;
use session_engine::host::LifeView;
use worksheet::Name;

/// What came of the wish to interrupt a session's interpreter.
#[derive(Clone, Copy, Debug, PartialEq, Eq)]
pub enum Interrupted {
    /// There is no such session.
    NoSession,
    /// No item waits for an answer of it, so there is nothing to interrupt.
    Idle,
    /// It was interrupted.
    Sent,
    /// The call failed.
    Failed,
}

/// Interrupts this life, where there is one and an item waits in it.
fn interrupt_life<C: Children>(children: &mut C, name: Name, view: Option<LifeView>) -> Interrupted
    ensures { InterruptsFirst C.after (seat_of name view) children.old result children.new }
{
    let Some(view) = view else {
        return Interrupted::Idle;
    };
    if view.waiting == 0 {
        return Interrupted::Idle;
    }
    match children.interrupt(name, view.number) {
        Ok(()) => Interrupted::Sent,
        Err(_) => Interrupted::Failed,
    }
}

/// Interrupts the interpreter of the session with this name by one call, where an item waits for an answer
/// of it: it may end what it is at, end itself, or go on. The worksheet stays as it is, and no event comes of it.
pub fn interrupt<D: Disk, C: Children>(host: &Host<D>, children: &mut C, name: Name) -> Interrupted
    ensures { (w : World) → IsHost host.now w
        → Interrupts C.after w name children.old result children.new }
{
    match host.sheet().session(name.as_slice()) {
        None => Interrupted::NoSession,
        Some(_) => interrupt_life(children, name, host.life(name)),
    }
}
