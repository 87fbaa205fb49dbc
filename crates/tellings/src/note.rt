//! What is printed once.
use child_calls::Seat;
use child_edge::Interrupted;
use worksheet::Name;

/// What stands first and last.
#[derive(Clone, Copy, Debug, PartialEq, Eq)]
pub enum Boundary {
    /// The worksheet's files are open.
    Hello,
    /// The input came to its end, and all is done.
    End,
    /// No field has this number, which was asked for: the fault 37.
    NoField(u32),
    /// The program of this session isn't there: the fault 44.
    NoProgram(Name),
}

/// The fields of an evaluation that got no answer in time, and those that it did not ask.
#[derive(Clone, Copy, Debug, PartialEq, Eq)]
pub struct Overs {
    /// How many fields had their time over.
    pub over: u64,
    /// How many fields were passed over, or stood after the stop of a strict evaluation.
    pub passed: u64,
}

/// What an evaluation came to.
#[derive(Clone, Copy, Debug, PartialEq, Eq)]
pub struct Counts {
    /// How many fields of the worksheet show an answer.
    pub answered: usize,
    /// How many don't and aren't prose.
    pub unanswered: usize,
    /// How many show an answer that is an error.
    pub errors: usize,
    /// How many were over and passed over: given with a limit of time, and where some were passed over.
    pub overs: Option<Overs>,
}

/// What is printed apart from replies and what comes of lives. Lines are numbered from 1.
#[derive(Clone, Copy, Debug)]
pub enum Note {
    /// The line has no known form, or is too long.
    Bad(u64),
    /// It is empty or a remark.
    Nothing(u64),
    /// Its wait is over: its time is, or no item waits.
    Waited(u64, bool),
    /// It asked for an interrupt of the interpreter of this session, and this came of it.
    Interrupted(u64, Name, Interrupted),
    /// The time of the field with this number is over; its interpreter was interrupted, and this came of it.
    Over(u32, Interrupted),
    /// The time of a wait is over in which this life had something to answer; it was interrupted, and this came of it.
    Warned(Seat, Interrupted),
    /// An evaluation came to its end.
    Counted(Counts),
    /// Of the transaction from the line with the first number to that with the last nothing was done.
    Undone(u64, u64),
}
