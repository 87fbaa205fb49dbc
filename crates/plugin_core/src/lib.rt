//! One life of an interpreter: the items that it is asked, and which blocks of its stream answer them.
//!
//! (TeXmacs manual, interfacing: input and output using pipes; docs/use/PROTOCOL.md, one life.)
#![tactic(auto)]

mod item;
mod laws;
mod life;
mod limits;
mod piece;
mod step;

pub use item::Item;
pub use laws::{
    answers_by_ask_points, one_step, sends_what_is_asked, short_prompts, streams_read_one_way,
    tells_the_answer, tells_the_completion, waits_what_is_unanswered,
};
pub use life::{AcceptFault, Life};
pub use limits::{LONGEST_PROMPT, MOST_WAITING};
pub use step::{Answered, Ended, Reason, Step};
