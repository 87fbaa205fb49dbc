//! How what a program reports is written: in words that people read, or as lines of JSON that programs read.
#![tactic(auto)]

mod exports;
mod faults;
mod in_json;
mod in_words;
pub mod note;
mod notes_json;
mod sheets_json;
mod tells;
mod writing;

pub use in_json::InJson;
pub use in_words::{InWords, write_named};
pub use note::{Boundary, Counts, Note, Overs};
pub use tells::Tells;
