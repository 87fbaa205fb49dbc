//! What comes to a program over a worksheet, in the order in which it comes: the lines of an input that is
//! read bit by bit, and what children have to say.
#![tactic(auto)]

mod buffer;
pub mod laws;
pub mod lines;
pub mod polled;
pub mod scripted;
pub mod sources;

pub use buffer::{LONGEST_LINE, NextLine};
pub use lines::{InputFault, InputLines};
pub use polled::Polled;
pub use scripted::ScriptedSources;
pub use sources::{Input, Sources, WatchFault, Woken};
