//! The agenda of lines, as they come or one by one: what a driver does next for them.
#![tactic(auto)]

mod alone;
pub mod by_lines;
pub mod doing;
mod gathering;
pub mod heeding;
pub mod laws;
pub mod matter;
mod taking;
mod transactions;
pub mod waits;

pub use by_lines::ByLines;
pub use doing::{Doing, LineChoice, Transaction};
pub use matter::Matter;
