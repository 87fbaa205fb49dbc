//! What is being done, of what an agenda asked for.

use child_calls::Seat;
use driver::Action;
use live::Hold;
use session_engine::Edits;
use worksheet::Name;

/// What is being done.
#[derive(Debug, Drop)]
pub enum Doing {
    /// Nothing: what was done is heeded.
    Nothing,
    /// A line that says no command, which goes wrong or not.
    Line(bool),
    /// An interrupt of this session's interpreter, for which a line asks, which goes wrong or not.
    Interrupt(Name, bool),
    /// Commands of lines.
    Commands,
    /// The commands of the transaction that the line with this number began.
    Transaction(u64),
    /// What lives have.
    Life,
    /// The interrupt of a life in a wait whose time is over.
    Warning(Seat),
    /// The end of a wait whose time is over.
    Stall,
}

/// A transaction of lines that is open.
#[derive(Drop)]
pub struct Transaction {
    /// The number of the line that began it.
    pub first: u64,
    /// The commands that it has so far.
    pub edits: Edits,
    /// Whether it has a line that can't stand in a transaction: then nothing of it is done.
    pub broken: bool,
}

/// What a line asks for, what is done then, the wait that holds back the lines after it, and the transaction that is open then.
#[derive(Drop)]
pub struct LineChoice {
    pub action: Action,
    pub doing: Doing,
    pub held: Hold,
    pub transaction: Option<Transaction>,
}
