//! What interpreters write before it is an answer, written out as it comes.
#![tactic(auto)]

mod piece;
mod sources;

pub use piece::{Beside, write_partial};
pub use sources::{Partial, TellsPartial};
