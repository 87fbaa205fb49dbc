//! The blocks of a stream as lines of JSON.
#![tactic(auto)]

mod blocks;
pub mod laws;
mod objects;
mod writing;

pub use blocks::block_objects;
pub use objects::{outer_value, unfinished_value};
