//! A host with the sources of what comes to it and the sink of what comes of that, and the one loop that drives it: an agenda says what
//! is next, it is done, and what came of it is printed.
#![tactic(auto)]

pub mod action;
pub mod agenda;
mod alone;
pub mod driver;
mod edits;
mod faults;
mod hearing;
mod joint;
pub mod laws;
pub mod noting;
pub mod over;
pub mod report;
pub mod sink;
mod stalls;
pub mod stamped;
pub mod streaming;
pub mod voiced;
mod whole;

pub use action::Action;
pub use agenda::Agenda;
pub use driver::{Driven, Driver, MOST_COUNTED};
pub use noting::Noting;
pub use over::{Over, run_over};
pub use report::{Came, Show};
pub use sink::Sink;
pub use stalls::stalled;
pub use stamped::Stamped;
pub use streaming::{OverStream, run_voiced};
pub use voiced::Voiced;
