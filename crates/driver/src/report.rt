//! What is printed because a line asks for it, and what an agenda is given to heed.

use child_edge::{GaveJoined, GaveTogether, Interrupted};
use host_events::Outcome;
use sheet_export::Format;
use tellings::Note;

/// What a line asks to be shown, or what is noted of it.
#[derive(Clone, Copy, Debug)]
pub enum Show {
    /// What is printed of a line, of a wait or of a limit, apart from replies.
    Note(Note),
    /// The worksheet, for which the line with this number asks.
    Sheet(u64),
    /// The field with this number, which comes second.
    Field(u64, u32),
    /// The worksheet in a format.
    Export(u64, Format),
}

/// What came of an action.
#[derive(Drop)]
pub enum Came {
    /// What events gave that were taken as one group, and what followed.
    Gave(GaveTogether),
    /// What events of lives gave and those that joined them, and what followed.
    Joined(GaveJoined),
    /// What one event gave: one that was taken by itself, a checkpoint, or the command for which none of a whole group was taken.
    Alone(Outcome),
    /// What came of an interrupt.
    Interrupted(Interrupted),
    /// It was shown.
    Shown,
}
