//! The limits of a life.

/// How many items may wait in one life at a time.
pub const MOST_WAITING: usize = 1_024;

/// The longest prompt, in bytes: a longer one is cut there.
pub const LONGEST_PROMPT: usize = 1_024;
