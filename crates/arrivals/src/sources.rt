//! Sources of arrivals: children and an input, by whose turn it is.
use child_calls::{Children, Seat};

/// How a caller stands to the input.
#[derive(Clone, Copy, Debug, PartialEq, Eq)]
pub enum Input {
    /// No line is wanted now, or the input is at its end.
    HeldBack,
    /// A line is wanted, and more must be read before there is one.
    Empty,
    /// A line is there already.
    Ready,
}

/// Whose turn it is.
#[derive(Clone, Copy, Debug)]
pub enum Woken {
    /// The input's: one read of it doesn't block, or a line is there already.
    Input,
    /// This life's: one receive of it doesn't block. It gives a piece, the end or a fault.
    Life(Seat),
    /// No one's within the time.
    TimeOver,
}

/// No answer, and there won't be one: the descriptors can't be watched, or nothing is left that could come.
#[derive(Clone, Copy, Debug, PartialEq, Eq)]
pub struct WatchFault;

/// Children and an input, of which the first one that has something is returned.
///
/// The relation `wakes` says what a watch may answer and what it leads to, as `after` does for the calls on
/// children. It takes nothing: what a life has is received, and lines are read, by calls of their own.
pub trait Sources: Children {
    ghost use Rattle.std.specs.Prelude.{ℕ, IfOk, Option};
    ghost use Rattle.std.specs.Result.{result_ok};
    ghost use Rattle.arrivals.specs.Watching.{Asked, MayCome, asked};
    ghost use Rattle.arrivals.specs.declared.sources.Woken.{Woken};

    /// The sources before a watch, what it was asked, what it gave (none: a fault), and those after it.
    ghost wakes: { Self → Asked → Option Woken → Self → Type 0 };

    /// The sources, and what their clock may read while they stand so.
    ghost clock: { Self → ℕ → Type 0 };

    /// Milliseconds since some moment of its own. The system's clock never goes back, but for a 0 where it can't be read.
    fn now(&self) -> u64
        ensures { clock self.now result };

    /// Whether a life is ready still that was found so when the sources were looked at last: a watch that holds
    /// the input back returns it at once.
    fn has_ready(&self) -> bool;

    /// Waits until it is someone's turn, for at most `patience` milliseconds where there is a limit, and for
    /// as long as it takes where there is none.
    ///
    /// Each life that goes on is watched, whether an item waits in it or not. Of all that have something
    /// each gets its turn before any gets a second.
    fn watch(&mut self, input: Input, patience: Option<u64>) -> Result<Woken, WatchFault>
        ensures tells { wakes self.old (asked input patience) (result_ok result) self.new }
        ensures may_come { IfOk result (MayCome (asked input patience)) };
}
