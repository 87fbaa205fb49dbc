//! Waits that hold back the lines after them.
ghost use Rattle.std.specs.Prelude.{◌≡◌};
ghost use Rattle.session_engine.specs.World.{World};
ghost use Rattle.session_engine.specs.Host.{IsHost};
ghost use Rattle.live.specs.Saying.{WaitGoesOn, seconds_from};

use child_edge::is_idle;
use disk_model::Disk;
use session_engine::BufferedHost;

/// How many seconds interpreters have that were interrupted.
pub const RESPITE: u32 = 2;

/// Whether a wait holds back the next line.
#[derive(Clone, Copy, Debug, PartialEq, Eq)]
pub enum Hold {
    /// None does.
    Free,
    /// Until no item waits for an answer.
    Wait,
    /// Until no item waits, or until this moment of the sources' clock, in milliseconds.
    Until(u64),
    /// The same, but at this moment interpreters are interrupted, and have two seconds more. It begins again
    /// where something closes.
    Limited(u64),
    /// The same, after interpreters were interrupted: at this moment what still waits has stalled.
    Warned(u64),
    /// Nothing more is taken: in a strict input a line went wrong.
    Stopped,
}

/// The moment so many seconds after this one, or the last one that a clock can read; in milliseconds.
pub fn seconds_after(now: u64, seconds: u32) -> u64
    ensures { result ≡ seconds_from now seconds }
{
    now.saturating_add(u64::from(seconds) * 1_000)
}

/// The wait until so many seconds after this moment.
pub fn wait_for(now: u64, seconds: u32) -> Hold
    ensures { result ≡ Hold.Until (seconds_from now seconds) }
{
    Hold::Until(seconds_after(now, seconds))
}

/// The wait that goes on after an event, if it does.
pub fn go_on<D: Disk>(held: Hold, host: &BufferedHost<D>) -> Hold
    ensures { (w : World) → IsHost host.now w → WaitGoesOn held w result }
{
    if is_idle(host) { Hold::Free } else { held }
}
