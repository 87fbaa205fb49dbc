//! The end of all lives.
ghost use Rattle.std.specs.Prelude.{◌≡◌, List, ℕ, option_map};
ghost use Rattle.disk_model.specs.Disk.{DiskView};
ghost use Rattle.session_engine.specs.World.{World, life_of, sheet_in};
ghost use Rattle.session_engine.specs.Host.{IsHost, number_in};
ghost use Rattle.host_events.specs.declared.event.Event.{Event};
ghost use Rattle.child_edge.specs.Edge.{Stopped};
ghost use Rattle.child_edge.specs.Seats.{numbered, running};
ghost use Rattle.child_edge.specs.Stops.{Stops};

use child_calls::Children;
use disk_model::Disk;
use host_events::HostFault;
use session_engine::Host;
use session_engine::host::LifeView;
use worksheet::Name;

/// Stops the life of this session, where one goes on. What that call answers is dropped.
fn stop_life<C: Children>(children: &mut C, name: Name, view: Option<LifeView>)
    ensures { Stops C.after (numbered name (option_map
        (λ l. l.number) view)) children.old children.new }
{
    if let Some(view) = view {
        let _ = children.stop(name, view.number);
    }
}

/// Stops each life that goes on, as `Host::life` tells it, in the order in which their sessions were
/// made: one call for each, and no event. A host that is closed tells its lives as before its fault.
pub fn stop_all<D: Disk, C: Children>(host: &Host<D>, children: &mut C)
    ensures working { (w : World) → IsHost host.now w
        → Stops C.after (running w) children.old children.new }
    ensures stopped { (w : World) (e : Event) (before : DiskView) (fault : HostFault)
        → Stopped before host.now w e fault
        → Stops C.after (running w) children.old children.new }

    // Those of a world of which the host has the worksheet and each life's number, whatever its disk is.
    ensures numbered { (w : World) → host.now.store.sheet.contents ≡ sheet_in w
        → ((name : List ℕ) → number_in host.now.lives name ≡ option_map (λ l. l.number)
        (life_of w name))
        → Stops C.after (running w) children.old children.new }
{
    for session in host.sheet().sessions() {
        stop_life(children, session.name, host.life(session.name));
    }
}
