//! A worksheet as a notebook, and which of its outputs are formulas, or show nothing.
#![tactic(auto)]

mod empty;
mod formulas;
pub mod laws;
mod notebook;
mod outputs;
mod pictures;
mod strings;

pub use empty::shows_nothing;
pub use formulas::{formula_after, formula_of};
pub use notebook::notebook_bytes;
pub use pictures::{PictureKind, is_error_tag, is_output_tag, picture_kind, picture_text};
