//! Blocks: what an interpreter puts out, as trees of formats, channels and texts. Why its life ended. And
//! the small list types (`Octets`, `Queue`, `Sequence`) that public data of other crates has, beside `Vec`.
#![tactic(auto)]

mod block;
mod channel;
mod compare;
mod copy;
mod laws;
mod octets;
mod output;
mod queue;
mod reason;
mod sequence;
mod shape;
mod tag_name;
mod text;
mod tree;

pub use block::Block;
pub use channel::channel_text;
pub use laws::{equal_blocks, equal_marks};
pub use octets::Octets;
pub use output::output_of;
pub use queue::Queue;
pub use reason::Reason;
pub use sequence::Sequence;
pub use shape::{LONGEST_TAG, MOST_LEVELS};
pub use tag_name::TagName;
pub use text::Text;
pub use tree::{Item, Node, Tag};

/// Memory was refused. The value that wanted to grow is as it was, where nothing else is said.
pub use std::alloc::AllocError as OutOfMemory;
