//! What an agenda of lines makes of what came: which wait goes on after an action, and what is noted.
ghost use Rattle.std.specs.Prelude.{◌≡◌, ◌++◌, ◌&&◌, ◌||◌, Some, true, false};
ghost use Rattle.std.specs.List.{list_any};
ghost use Rattle.session_engine.specs.World.{World};
ghost use Rattle.session_engine.specs.Host.{IsHost};
ghost use Rattle.live.specs.Saying as saying;
ghost use Rattle.driver.specs.Reports.{came, came_of};
ghost use Rattle.line_agenda.specs.Heeds as heeds;
ghost use Rattle.live.specs.declared.holding.Hold.{Hold as TheHold};
ghost use Rattle.line_agenda.specs.Heeds.{LifeGoesOn, interrupt_note, over_note};

use crate::by_lines::ByLines;
use crate::doing::Doing;
use crate::transactions::{refused_one, transaction_note};
use crate::waits::{begun_again, is_held, stop_if, warned};
use child_calls::Seat;
use child_edge::{GaveJoined, GaveTogether, Interrupted, is_idle};
use disk_model::Disk;
use driver::Came;
use host_events::{Outcome, Reply};
use live::{Hold, any_of_both_wrong, any_outcome_wrong, any_wrong, is_wrong};
use session_engine::Host;
use std::io::Read;
use tellings::Note;
use worksheet::Name;

/// Whether something closed: a banner, an answer, or completions.
fn has_closed(reply: &Reply) -> bool
    ensures { result ≡ saying.has_closed reply.now }
{
    match reply {
        Reply::Child(reported) => reported.closed.is_some(),
        Reply::Done | Reply::Field(_) | Reply::Asked(_) | Reply::Refused(_) | Reply::Nothing =>
            false,
    }
}

/// Whether something closed by one of these replies.
fn any_closed(replies: &[Reply]) -> bool
    ensures { result ≡ list_any saying.has_closed replies.now }
{
    replies.iter().any(|reply| has_closed(reply))
}

/// Whether something closed in one of these outcomes.
fn any_outcome_closed(outcomes: &[Outcome]) -> bool
    ensures { result ≡ list_any (λ o. saying.has_closed o.reply) outcomes.now }
{
    outcomes.iter().any(|outcome| has_closed(&outcome.reply))
}

/// Whether something closed by a group of events, or by what followed.
fn group_closed(gave: &GaveTogether) -> bool
    ensures { result ≡ heeds.closed_one (came gave.now.outcomes.items gave.now.replies.items) }
{
    any_outcome_closed(gave.outcomes.as_slice()) || any_closed(gave.replies.as_slice())
}

/// Whether something was refused by a group of events or by what followed, or items were lost.
fn group_wrong(gave: &GaveTogether) -> bool
    ensures { result ≡ heeds.went_wrong (came gave.now.outcomes.items gave.now.replies.items) }
{
    any_outcome_wrong(gave.outcomes.as_slice()) || any_wrong(gave.replies.as_slice())
}

/// Whether something closed in one of these outcomes or of those.
fn any_of_both_closed(outcomes: &[Outcome], later: &[Outcome]) -> bool
    ensures { result ≡ list_any (λ o. saying.has_closed o.reply) (outcomes.now ++ later.now) }
{
    any_outcome_closed(outcomes) || any_outcome_closed(later)
}

/// Whether something closed by events, by those that joined them, or by what followed.
fn joined_closed(gave: &GaveJoined) -> bool
    ensures { result ≡ heeds.closed_one (came (gave.now.outcomes.items ++ gave.now.later.items)
        gave.now.replies.items) }
{
    any_of_both_closed(gave.outcomes.as_slice(), gave.later.as_slice())
        || any_closed(gave.replies.as_slice())
}

/// Whether something was refused by events, by those that joined them or by what followed, or items were lost.
fn joined_wrong(gave: &GaveJoined) -> bool
    ensures { result ≡ heeds.went_wrong (came (gave.now.outcomes.items ++ gave.now.later.items)
        gave.now.replies.items) }
{
    any_of_both_wrong(gave.outcomes.as_slice(), gave.later.as_slice())
        || any_wrong(gave.replies.as_slice())
}

/// Whether something closed.
pub fn closed_one(came: &Came) -> bool
    ensures { result ≡ heeds.closed_one (came_of came.now) }
{
    match came {
        Came::Gave(gave) => group_closed(gave),
        Came::Joined(gave) => joined_closed(gave),
        Came::Alone(outcome) => has_closed(&outcome.reply),
        Came::Interrupted(_) | Came::Shown => false,
    }
}

/// Whether something was refused, or items were lost.
fn went_wrong(came: &Came) -> bool
    ensures { result ≡ heeds.went_wrong (came_of came.now) }
{
    match came {
        Came::Gave(gave) => group_wrong(gave),
        Came::Joined(gave) => joined_wrong(gave),
        Came::Alone(outcome) => is_wrong(&outcome.reply),
        Came::Interrupted(_) | Came::Shown => false,
    }
}

/// What came of an interrupt, where the action was one.
pub fn interrupt_of(came: &Came) -> Option<Interrupted>
    ensures { result ≡ (came_of came.now).interrupted }
{
    match came {
        Came::Interrupted(reported) => Some(*reported),
        Came::Gave(_) | Came::Joined(_) | Came::Alone(_) | Came::Shown => None,
    }
}

/// That the wait of this line is over is noted where it was one and isn't any more.
fn note_over(number: u64, before: Hold, following: Hold) -> Option<Note>
    ensures { result ≡ over_note number before following }
{
    if is_held(before) && !is_held(following) {
        Some(Note::Waited(number, false))
    } else {
        None
    }
}

/// What came of the interrupt for which this line asked is noted.
fn note_interrupted(number: u64, name: Name, reported: Option<Interrupted>) -> Option<Note>
    ensures { result ≡ interrupt_note (Note.Interrupted number name) reported }
{
    match reported {
        Some(reported) => Some(Note::Interrupted(number, name, reported)),
        None => None,
    }
}

/// What came of the interrupt of this life is noted, whose time is over.
fn note_warned(seat: Seat, reported: Option<Interrupted>) -> Option<Note>
    ensures { result ≡ interrupt_note (Note.Warned seat) reported }
{
    match reported {
        Some(reported) => Some(Note::Warned(seat, reported)),
        None => None,
    }
}

/// The wait after what lives gave, of which something closed or not.
fn after_life<D: Disk>(
    host: &Host<D>,
    limit: Option<u32>,
    now: u64,
    closed: bool,
    held: Hold,
) -> Hold
    ensures { (w : World) → IsHost host.now w → LifeGoesOn limit w now closed held result }
{
    if is_idle(host.looks()) {
        Hold::Free
    } else {
        begun_again(limit, now, closed, held)
    }
}

/// The wait after the interrupt of a life whose time is over: after the last one there are two seconds more.
fn after_warning(strict: bool, now: u64, late: &[Seat], held: Hold) -> Hold
    ensures { result ≡ heeds.after_warning strict now late.now held }
{
    match late {
        [] => stop_if(strict, true, warned(now)),
        [_, ..] => held,
    }
}

impl<R: Read> ByLines<R> {
    ghost use Rattle.line_agenda.specs.LinesAt.{holding, lines_stand};
    ghost use Rattle.line_agenda.specs.Heeds.{HeedsDone, refused_one};
    ghost use Rattle.line_agenda.specs.Transactions.{transaction_note};

    /// What is noted of what lives gave, and which wait goes on.
    fn heed_life<D: Disk>(&mut self, host: &Host<D>, now: u64, came: &Came) -> Option<Note>
        ensures { (w : World) → IsHost host.now w → (held : TheHold)
            × HeedsDone (lines_stand R.remaining self.old) w now
            (came_of came.now) Doing.Life result held
            × (lines_stand R.remaining self.new ≡ holding (lines_stand R.remaining self.old) held) }
    {
        let before = self.held;
        let on = after_life(host, self.manner.limit, now, closed_one(came), before);
        self.held = stop_if(self.manner.strict, went_wrong(came), on);
        note_over(self.number, before, on)
    }

    /// What is noted of the commands of the transaction that this line began: a refusal goes wrong.
    fn heed_transaction(&mut self, first: u64, came: &Came) -> Option<Note>
        ensures note { result ≡ Some (transaction_note first self.old.number
            (refused_one (came_of came.now))) }
        ensures stands { lines_stand R.remaining self.new ≡ holding
            (lines_stand R.remaining self.old)
            (saying.stop_if (self.old.manner.strict && refused_one (came_of came.now))
            self.old.held) }
    {
        let refused = refused_one(came);
        self.held = stop_if(self.manner.strict, refused, self.held);
        Some(transaction_note(first, self.number, refused))
    }

    /// What is noted of what came, and which wait goes on, where this was done.
    pub(crate) fn heed_done<D: Disk>(
        &mut self,
        host: &Host<D>,
        now: u64,
        came: &Came,
        doing: Doing,
    ) -> Option<Note>
        ensures { (w : World) → IsHost host.now w → (held : TheHold)
            × HeedsDone (lines_stand R.remaining self.old) w now
            (came_of came.now) doing result held
            × (lines_stand R.remaining self.new ≡ holding (lines_stand R.remaining self.old) held) }
    {
        let strict = self.manner.strict;
        match doing {
            Doing::Nothing => None,
            Doing::Line(wrong) => {
                self.held = stop_if(strict, wrong, self.held);
                None
            }
            Doing::Interrupt(name, wrong) => {
                self.held = stop_if(strict, wrong, self.held);
                note_interrupted(self.number, name, interrupt_of(came))
            }
            Doing::Commands => {
                self.held = stop_if(strict, went_wrong(came), self.held);
                None
            }
            Doing::Transaction(first) => self.heed_transaction(first, came),
            Doing::Life => self.heed_life(host, now, came),
            Doing::Warning(seat) => {
                self.held = after_warning(strict, now, self.late.as_slice(), self.held);
                note_warned(seat, interrupt_of(came))
            }
            Doing::Stall => {
                self.held = stop_if(strict, went_wrong(came), Hold::Free);
                Some(Note::Waited(self.number, true))
            }
        }
    }
}
