//! How much a scanner takes.

/// The most bytes of an outer block and of a stream. Tags and levels have the limits of every block.
#[derive(Clone, Copy, Debug)]
pub struct Bounds {
    pub block: u64,
    pub stream: u64,
}

/// The limits of a stream that an interpreter writes.
pub const BOUNDS: Bounds = Bounds {
    block: 16_777_216,
    stream: 1 << 62,
};

/// No limit: as many bytes as a slice may have.
pub const UNBOUNDED: Bounds = Bounds {
    block: u64::MAX,
    stream: u64::MAX,
};
