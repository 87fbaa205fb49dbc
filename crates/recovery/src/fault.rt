//! Why an op isn't committed.
ghost use Rattle.std.specs.Prelude.{◌≡◌};
ghost use Rattle.recovery.specs.declared.fault.PrepareFault.TheVariants.{OutOfMemory};
ghost use Rattle.recovery.specs.declared.fault.CheckpointFault.TheVariants.{OutOfMemory as CheckpointMemory};

use std::alloc::{AllocError, AllocFailed};
use worksheet::Op;

/// Why no record was prepared. The first that applies is answered; nothing has changed.
#[derive(Clone, Copy, Debug, PartialEq, Eq)]
pub enum PrepareFault {
    /// The disk has failed, and the store takes no op.
    Closed,
    /// The op's payload doesn't fit on the disk.
    Full,
    /// A growth was refused.
    OutOfMemory,
}

impl From<AllocError> for PrepareFault {
    ghost from_gives = { λ _ e. e ≡ OutOfMemory };

    fn from(_: AllocError) -> Self {
        PrepareFault::OutOfMemory
    }
}

/// Why an op was not committed.
#[derive(Drop)]
pub enum CommitFault {
    /// The op's payload doesn't fit on the disk. Nothing has changed, and here is the op.
    Full(Op),
    /// A growth was refused. Nothing has changed, and here is the op.
    OutOfMemory(Op),
    /// The disk failed. The op may be on it or not. The worksheet is as before, and the store is closed.
    Disk,
    /// The disk has failed before. Nothing has changed.
    Closed,
}

/// Why a checkpoint wasn't made. But for `Disk` nothing has changed.
#[derive(Clone, Copy, Debug, PartialEq, Eq)]
pub enum CheckpointFault {
    /// The records that make the worksheet again don't fit in an area.
    Full,
    /// A growth was refused.
    OutOfMemory,
    /// The disk failed. It stands for the same worksheet, and the store is closed.
    Disk,
    /// The disk has failed before.
    Closed,
}

impl From<AllocError> for CheckpointFault {
    ghost from_gives = { λ _ e. e ≡ CheckpointMemory };

    fn from(_: AllocError) -> Self {
        CheckpointFault::OutOfMemory
    }
}

impl<T: Drop> From<AllocFailed<T>> for CheckpointFault {
    ghost from_gives = { λ _ e. e ≡ CheckpointMemory };

    fn from(_: AllocFailed<T>) -> Self {
        CheckpointFault::OutOfMemory
    }
}
