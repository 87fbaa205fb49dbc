//! What an agenda asks for.

use crate::report::Show;
use arrivals::Input;
use child_calls::Seat;
use host_events::Event;
use session_engine::Edits;
use worksheet::Name;

/// What is done next.
#[derive(Drop)]
pub enum Action {
    /// No more: the run is at its end.
    End,
    /// Nothing for the driver: the agenda did a thing of its own, as reading its input or beginning a wait, and is asked again.
    Nothing,
    /// The sources are watched, where the input stands so, for so many milliseconds at most where there is a limit.
    Watch(Input, Option<u64>),
    /// What this life has is received and taken, and in the same group what others have that are ready: so many lives at
    /// most.
    Hear(Seat, u64),
    /// These commands are taken as one group, one of each line from the one with this number on. The agenda puts no checkpoint among
    /// them: with one the run would end as where memory lacks.
    Lines(u64, Vec<Event>),
    /// These commands are taken as one group, all of them or none: one of each line from the one with this number on.
    Transaction(u64, Edits),
    /// These commands are taken as one group, each with its own reply.
    Edits {
        /// Whether the group ends at the first that is refused. Else all of them are taken.
        up_to: bool,
        edits: Edits,
    },
    /// This event is taken by itself: it is durable, its effect is carried out, and what it gave is printed; then what comes of that.
    Alone(Event),
    /// What this life has is received, and taken by itself.
    Receive(Seat),
    /// The journal is rewritten, for which the line with this number asks.
    Checkpoint(u64),
    /// Each life in which an item waits has stalled: that is taken as one group.
    Stall,
    /// The interpreter of this session is interrupted.
    Interrupt(Name),
    /// This is shown.
    Show(Show),
}
