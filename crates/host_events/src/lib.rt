//! What a host takes, what it replies, and what is to be done with the interpreters: the words that it
//! shares with those who call it.
#![tactic(auto)]

pub mod command;
pub mod event;
pub mod outcome;
pub mod reply;

pub use command::Command;
pub use event::{ChildEvent, Event};
pub use outcome::{Effect, HostFault, Outcome};
pub use reply::{ChildReply, Closed, Reply};
