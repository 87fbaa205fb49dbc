//! Worksheets and what is printed of them, as JSON.
#![tactic(auto)]

mod blocks;
mod bytes;
mod checks;
mod ends;
mod events;
mod fields;
pub mod laws;
mod lines;
mod members;
mod replies;
mod reported;
mod sheets;
mod whole;

pub use blocks::block_value;
pub use bytes::bytes_value;
pub use checks::{Took, differs_value, left_out_value, new_value, same_value, unanswered_value};
pub use ends::{
    Counted, counted_in_time_value, counted_value, end_value, fault_value, hello_value,
    no_field_value, no_program_value, over_value,
};
pub use events::{
    answered_value, banner_value, completed_value, default_value, ended_value, partial_value,
    shown_value, stopped_value, warned_value,
};
pub use fields::{asked_field_value, part_value, shown_field_value};
pub use lines::{line_bytes, reported_bytes};
pub use replies::{
    asked_value, bad_value, done_value, exported_value, interrupted_value, made_value,
    nothing_value, refused_value, undone_value, waited_value,
};
pub use reported::closed_value;
pub use sheets::{session_value, sheet_value, whole_value};
pub use whole::sheet_bytes;
