//! Child processes, by what the calls on them may lead to.
use crate::seat::Seat;
use block_tree::Octets;
use bytes::Bytes;
use std::os::fd::RawFd;
use worksheet::Name;

/// A call on a child failed.
#[derive(Clone, Copy, Debug, PartialEq, Eq)]
pub struct ChildFault;

/// What one receive gave.
#[derive(Debug, Drop)]
pub enum Received {
    /// A piece of the output, of 1 to 65,536 bytes.
    Piece(Bytes),
    /// The output is at its end.
    End,
}

/// Why one receive gave nothing.
#[derive(Clone, Copy, Debug, PartialEq, Eq)]
pub enum ReceiveFault {
    /// The call failed.
    Child,
    /// Memory was refused, and nothing was received.
    OutOfMemory,
}

/// Child processes, one for each life. A life is that of the session with this name which has this
/// number.
///
/// The relation `after` says what a call may answer and what it leads to. An implementation may make
/// it as narrow as it can: that of `Scripted` is exact, that of `Lives` says which process it called.
pub trait Children {
    ghost use Rattle.std.specs.Prelude.{◌≡◌, Err};
    ghost use Rattle.child_calls.specs.Calls.{Answer, Call, interrupt, receive, send, start, stop};
    ghost use Rattle.child_calls.specs.Answers.{HasSize, received, sent};
    ghost use Rattle.std.specs.Prelude.{IfOk};

    /// The children before a call, the call, its answer, and the children after it.
    ghost after: { Self → Call → Answer → Self → Type 0 };

    /// Starts the child of a life with these words, its program first.
    fn start(&mut self, name: Name, life: u32, words: &[Octets]) -> Result<(), ChildFault>
        ensures { after self.old (start name life words.now) (sent result) self.new };

    /// Sends it these bytes, all of them or an unknown front.
    fn send(&mut self, name: Name, life: u32, bytes: &[u8]) -> Result<(), ChildFault>
        ensures { after self.old (send name life bytes.now) (sent result) self.new };

    /// Waits for what it writes next: a piece of 1 to 65,536 bytes, or the end of its output. Where
    /// memory is refused the children stay as they were, and nothing that they wrote is lost.
    fn receive(&mut self, name: Name, life: u32) -> Result<Received, ReceiveFault>
        ensures gives { after self.old (receive name life) (received result) self.new }
        ensures unchanged { result ≡ Err ReceiveFault.OutOfMemory → self.new ≡ self.old }
        ensures size { IfOk result HasSize };

    /// Interrupts it by the signal SIGINT, and waits for nothing that it does then: it may end, end what it
    /// is at, or do nothing at all.
    fn interrupt(&mut self, name: Name, life: u32) -> Result<(), ChildFault>
        ensures { after self.old (interrupt name life) (sent result) self.new };

    /// Stops it: it is gone afterwards, where that succeeds.
    fn stop(&mut self, name: Name, life: u32) -> Result<(), ChildFault>
        ensures { after self.old (stop name life) (sent result) self.new };
}

/// Children whose outputs can be polled.
///
/// Their places are those of the order in which they were started, from 0; one that is stopped leaves its own to
/// the next. Whoever polls a descriptor reads by `receive` alone.
pub trait Outputs: Children {
    /// Whether the child of this life runs: it was started and not stopped.
    fn is_running(&self, seat: Seat) -> bool;

    /// The life of the child at this place, and the descriptor that its output is read from.
    fn output(&self, at: usize) -> Option<(Seat, RawFd)>;
}
