//! Lines of blocks that are held back in a room of the program's own, and written many bytes at once.
#![tactic(auto)]

mod escapes;
mod filling;
mod lanes;
mod numbers;
mod room;
mod table;

pub use room::Room;
