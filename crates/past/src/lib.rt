//! The worksheet as it was: after the first of the changes that stand in its journal, and the list of
//! these changes. The disk is only read.
#![tactic(auto)]

mod changes;
mod fault;
mod first;
mod history;

pub use fault::{PastFault, past_fault_text};
pub use first::{Unread, read_first};
pub use history::{Listed, list_changes};
