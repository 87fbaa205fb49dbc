//! The agenda of a script that was read whole: its lines in order, a wait in rounds, and commands that only change the worksheet in
//! groups (docs/use/SCRIPT.md).
#![tactic(auto)]

pub mod by_script;
mod gathering;
mod heeding;
pub mod laws;
pub mod running;
mod saying;

pub use by_script::ByScript;
pub use running::{Ran, RunResources, run, run_read};
