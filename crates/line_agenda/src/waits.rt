//! Waits that hold back the lines after them, by what the clock reads.
ghost use Rattle.std.specs.Prelude.{◌≡◌, ◌&&◌, false, not, true};
ghost use Rattle.session_engine.specs.World.{World, sheet_in};
ghost use Rattle.session_engine.specs.Host.{IsHost};
ghost use Rattle.worksheet.specs.Checks.{has_field, has_session};
ghost use Rattle.live.specs.Saying as saying;
ghost use Rattle.live.specs.Saying.{IsLimited, IsTimed, StallsAtEnd};
ghost use Rattle.live.specs.Arrivals.{IsOver, input_at, patience_at};
ghost use Rattle.line_agenda.specs.Waits as waits;

use arrivals::Input;
use disk_model::Disk;
use live::{Hold, RESPITE, seconds_after};
use session_engine::Host;
use worksheet::Name;

/// The wait of a line that names no seconds, where a line may take so many, if there is a limit.
pub(crate) fn untimed(limit: Option<u32>, now: u64) -> Hold
    ensures { result ≡ waits.untimed limit now }
{
    match limit {
        None => Hold::Wait,
        Some(seconds) => Hold::Limited(seconds_after(now, seconds)),
    }
}

/// The wait after interpreters were interrupted.
pub(crate) fn warned(now: u64) -> Hold
    ensures { result ≡ waits.warned now }
{
    Hold::Warned(seconds_after(now, RESPITE))
}

/// Whether a wait has the time of a line, before interpreters were interrupted or after.
fn has_limit(held: Hold) -> bool
    ensures { result ≡ saying.has_limit held }
{
    match held {
        Hold::Free | Hold::Wait | Hold::Until(_) | Hold::Stopped => false,
        Hold::Limited(_) | Hold::Warned(_) => true,
    }
}

/// The wait after something closed or not: the time that a line may take begins again.
pub(crate) fn begun_again(limit: Option<u32>, now: u64, closed: bool, held: Hold) -> Hold
    ensures { result ≡ waits.begun_again limit now (saying.has_limit held && closed) held }
{
    if has_limit(held) && closed {
        untimed(limit, now)
    } else {
        held
    }
}

/// Whether lines are held back.
pub fn is_held(held: Hold) -> bool
    ensures { result ≡ saying.is_held held }
{
    match held {
        Hold::Free | Hold::Stopped => false,
        Hold::Wait | Hold::Until(_) | Hold::Limited(_) | Hold::Warned(_) => true,
    }
}

/// Whether no wait holds lines back, and more may come.
pub fn is_free(held: Hold) -> bool
    ensures free { result ≡ true → held ≡ Hold.Free }
    ensures other { result ≡ false → held ≡ Hold.Free → ⊥ }
{
    match held {
        Hold::Free => true,
        Hold::Wait | Hold::Until(_) | Hold::Limited(_) | Hold::Warned(_) | Hold::Stopped => false,
    }
}

/// Whether nothing more is taken.
pub(crate) fn is_stopped(held: Hold) -> bool
    ensures stopped { result ≡ true → held ≡ Hold.Stopped }
    ensures going { result ≡ false → held ≡ Hold.Stopped → ⊥ }
{
    match held {
        Hold::Stopped => true,
        Hold::Free | Hold::Wait | Hold::Until(_) | Hold::Limited(_) | Hold::Warned(_) => false,
    }
}

/// Whether a wait ends by its time.
pub(crate) fn is_timed(held: Hold) -> bool
    ensures timed { result ≡ true → IsTimed held }
    ensures untimed { result ≡ false → IsTimed held → ⊥ }
{
    match held {
        Hold::Free | Hold::Wait | Hold::Stopped => false,
        Hold::Until(_) | Hold::Limited(_) | Hold::Warned(_) => true,
    }
}

/// Whether the time of a wait is over at this moment.
pub fn is_over(held: Hold, now: u64) -> bool
    ensures over { result ≡ true → IsOver held now }
    ensures not_over { result ≡ false → IsOver held now → ⊥ }
    ensures timed { result ≡ true → IsTimed held }
{
    match held {
        Hold::Free | Hold::Wait | Hold::Stopped => false,
        Hold::Until(end) | Hold::Limited(end) | Hold::Warned(end) => now >= end,
    }
}

/// Whether interpreters are interrupted where the time of a wait is over.
pub(crate) fn is_limited(held: Hold) -> bool
    ensures limited { result ≡ true → IsLimited held }
    ensures stalls { result ≡ false → IsTimed held → StallsAtEnd held }
{
    match held {
        Hold::Limited(_) => true,
        Hold::Free | Hold::Wait | Hold::Until(_) | Hold::Warned(_) | Hold::Stopped => false,
    }
}

/// How the input stands, where a line is there or not.
pub(crate) fn input(held: Hold, is_ready: bool) -> Input
    ensures { result ≡ input_at held is_ready }
{
    match held {
        Hold::Free => { if is_ready { Input::Ready } else { Input::Empty } }
        Hold::Wait | Hold::Until(_) | Hold::Limited(_) | Hold::Warned(_) | Hold::Stopped =>
            Input::HeldBack,
    }
}

/// The milliseconds that are left at this moment, where there is a limit.
pub fn patience(held: Hold, now: u64) -> Option<u64>
    ensures { result ≡ patience_at held now }
{
    match held {
        Hold::Free | Hold::Wait | Hold::Stopped => None,
        Hold::Until(end) | Hold::Limited(end) | Hold::Warned(end) => Some(end.saturating_sub(now)),
    }
}

/// The wait that goes on, or nothing more where something went wrong in a strict input.
pub(crate) fn stop_if(strict: bool, wrong: bool, held: Hold) -> Hold
    ensures { result ≡ saying.stop_if (strict && wrong) held }
{
    if strict && wrong { Hold::Stopped } else { held }
}

/// Whether the worksheet has no field with this number.
pub(crate) fn lacks_field<D: Disk>(host: &Host<D>, id: u32) -> bool
    ensures { (w : World) → IsHost host.now w → result ≡ not (has_field (sheet_in w) id) }
{
    match host.sheet().field(id) {
        None => true,
        Some(_) => false,
    }
}

/// Whether the worksheet has no session with this name.
pub(crate) fn lacks_session<D: Disk>(host: &Host<D>, name: Name) -> bool
    ensures { (w : World) → IsHost host.now w → result ≡ not (has_session (sheet_in w) name) }
{
    match host.sheet().session(name.as_slice()) {
        None => true,
        Some(_) => false,
    }
}
