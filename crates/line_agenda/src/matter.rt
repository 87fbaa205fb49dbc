//! What the next action is about.
ghost use Rattle.std.specs.Prelude.{◌≡◌};
ghost use Rattle.live.specs.Saying.{IsTimed};
ghost use Rattle.line_agenda.specs.Matters as matters;
ghost use Rattle.line_agenda.specs.Matters.{IsMatter};

use crate::waits::{is_free, is_limited, is_over, is_timed};
use arrivals::Woken;
use child_calls::Seat;
use live::Hold;

/// What the next action is about.
#[derive(Clone, Copy, Debug)]
pub enum Matter {
    /// Nothing: what a watch returned can't come now.
    Untimely,
    /// The sources are watched.
    Watch,
    /// The input is taken.
    Input,
    /// This life is heard.
    Life(Seat),
    /// The time of a line is over: lives are interrupted.
    Limit,
    /// The time of a wait is over: lives have stalled.
    Stall,
}

/// The most lives that are heard with another.
const MOST_OTHERS: u64 = 1_023;

/// How many lives are heard with another: a strict input takes them one by one.
pub fn most_others(strict: bool) -> u64
    ensures { result ≡ matters.others strict }
{
    if strict { 0 } else { MOST_OTHERS }
}

/// A wait whose time is over.
fn over(held: Hold) -> Matter
    requires { IsTimed held }
    ensures { matters.EndsSo held result }
{
    if is_limited(held) {
        Matter::Limit
    } else {
        Matter::Stall
    }
}

/// What is next where no watch returned whose turn it is.
fn unwatched(lines_first: bool, held: Hold, now: u64) -> Matter
    ensures { matters.IsUnwatched lines_first held now result }
{
    if is_over(held, now) {
        return over(held);
    }
    if lines_first && is_free(held) {
        return Matter::Input;
    }
    Matter::Watch
}

/// What the next action is about, where lines come first or not, by the wait, by what a watch returned, and by what the clock reads.
pub(crate) fn matter_of(lines_first: bool, held: Hold, due: Option<Woken>, now: u64) -> Matter
    ensures { IsMatter lines_first held due now result }
{
    match due {
        None => unwatched(lines_first, held, now),
        Some(Woken::Input) => {
            if is_free(held) {
                Matter::Input
            } else {
                Matter::Untimely
            }
        }
        Some(Woken::Life(seat)) => Matter::Life(seat),
        Some(Woken::TimeOver) => {
            if is_timed(held) {
                over(held)
            } else {
                Matter::Untimely
            }
        }
    }
}
