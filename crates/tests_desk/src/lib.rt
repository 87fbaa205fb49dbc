//! What the tests of several crates use.
#![tactic(auto)]

mod failing;
mod memory;

pub use failing::{Counted, Exhausting, Full, InterruptedOnce, Narrow, Parts, Unflushed};
pub use memory::exhausted;
