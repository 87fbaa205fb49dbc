//! The agenda of fields: which of them a driver asks next, how long each may take, and what an evaluation came to.
#![tactic(auto)]

mod asking;
mod bounds;
pub mod by_fields;
pub mod field_lines;
mod heeding;
mod joint;
pub mod laws;
mod looking;
pub mod stage;
mod times;

pub use by_fields::ByFields;
pub use field_lines::FieldLines;
pub use stage::{FieldDoing, Stage};
