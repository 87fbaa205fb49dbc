//! The byte format in which interpreters write blocks: a reader of streams that come in pieces.
//!
//! (TeXmacs manual, interfacing: input and output using pipes; formatted output; channels, prompts and
//! default input.)
#![tactic(auto)]

mod ahead;
mod bounds;
mod laws;
mod level;
mod outer;
mod piece;
mod read;
mod reader;
mod runs;
mod scan;
mod write;

pub use ahead::{Seen, next_outer};
pub use laws::{
    a_fault_or_none, a_reading, blocks_stay, canonical_growth, canonical_spelling, no_front,
    one_block, one_fault, one_reading, output_length,
};
pub use read::{ReadFault, read_block};
pub use reader::{FeedFault, Reader};
pub use scan::Found;
pub use write::write_block;
