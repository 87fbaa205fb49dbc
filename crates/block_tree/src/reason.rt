//! Why an interpreter's life ended.

/// Why the life of an interpreter ended.
#[derive(Clone, Copy, Debug, PartialEq, Eq)]
pub enum Reason {
    /// The interpreter could not be started.
    StartRefused,
    /// Its output came to an end.
    Ended,
    /// Its output could not be read.
    ReadFault,
    /// A line could not be sent to it.
    SendFault,
    /// An item of it still waited at the end of the turns of a wait.
    Stalled,
    /// A bad tag in its output.
    BadTag,
    /// Blocks too deep in one another in its output.
    TooDeep,
    /// A block or an output that is too long.
    TooLong,
    /// A command stopped it.
    Stopped,
}
