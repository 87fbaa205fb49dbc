//! The edge to the interpreters: each effect of a host is one call on a child process, and each answer
//! of such a call one event of the host.
#![tactic(auto)]

mod busy;
mod edit_groups;
mod interrupting;
mod joined;
pub mod serving;
mod stopping;
pub mod together;
mod waiting;
mod whole;

pub use busy::{is_idle, waiting as waiting_lives};
pub use edit_groups::{EditsFault, serve_edits};
pub use interrupting::{Interrupted, interrupt};
pub use joined::{GaveJoined, serve_joining};
pub use serving::{EdgeCause, EdgeFault, MOST_EVENTS, MOST_ROUNDS, carry_out, serve, step, wait};
pub use stopping::stop_all;
pub use together::{GaveTogether, MOST_TOGETHER, TogetherFault, receive_event, serve_together};
pub use waiting::Waiting;
pub use whole::serve_whole;
