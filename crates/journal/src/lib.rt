//! A journal: payloads in records, each after a gate, and durable before it is acknowledged.
//!
//! A crash at any moment leaves a disk that opens to the payloads that were acknowledged, with the
//! one in hand or without it.
#![tactic(auto)]

mod append;
mod append_all;
mod frame;
mod front;
mod group;
mod journal;
pub mod laws;
mod layout;
mod opening;
mod payloads;
mod renewal;
mod rewrite;
mod source;
mod walk;
mod window;

pub use disk_model::OutOfMemory;
pub use frame::{Frame, LONGEST_PAYLOAD};
pub use front::{Front, InFront};
pub use group::Group;
pub use journal::{AppendFault, Journal, OpenFault};
pub use layout::{EMPTY_LEN, FIRST_OF_SECOND, OPEN_GATE};
pub use opening::{CreateCause, CreateFault, OpenCause, create};
pub use payloads::{Next, Opening};
pub use source::{BATCH_LEN, Source};
pub use walk::Payload;
