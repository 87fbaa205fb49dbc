//! What happens to a host (docs/dev/HOST.md, "Events").
use crate::Command;
use bytes::Bytes;
use worksheet::Name;

/// What came of one call on the child process of a life.
#[derive(Debug, Drop)]
pub enum ChildEvent {
    /// It could not be started. The life ends, and there is nothing to stop.
    StartRefused,
    /// These bytes came from its output. A host takes a piece of any length; the calls on children give
    /// 1 to 65,536 bytes.
    Piece(Bytes),
    /// Its output came to an end. The life ends.
    End,
    /// Its output could not be read. The life ends.
    ReadFault,
    /// A line could not be sent to it. The life ends.
    SendFault,
    /// An item of it still waits at the end of a wait (100,000 rounds, or its time), whatever else it answered.
    /// The life ends.
    Stalled,
    /// It could not be stopped. Nothing comes of it.
    StopFault,
}

/// One event: a command, or what came of one call on the child process of a life. An event of a life that
/// doesn't go on does nothing. Its number is that of the host that was opened last.
#[derive(Debug, Drop)]
pub enum Event {
    Command(Command),
    Child {
        /// The session of the life.
        name: Name,
        /// The number of the life.
        life: u32,
        event: ChildEvent,
    },
}
