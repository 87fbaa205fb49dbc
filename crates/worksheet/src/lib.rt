//! A worksheet in memory: an ordered list of fields, each with one line of input and at most one
//! output, and the sessions that they belong to. Each change is an [`Op`]. What a worksheet contains
//! is said of the whole list of its ops (specs/Ops.antt), and what it refuses by one table
//! (specs/Checks.antt).
#![tactic(auto)]

mod carry;
pub mod check;
mod edits;
pub mod field;
pub mod fields;
pub mod laws;
pub mod limits;
pub mod name;
pub mod op;
mod places;
pub mod refusal;
mod session_map;
pub mod sheet;
mod slot;

pub use carry::text_of;
pub use field::{Answer, Field, Session};
pub use fields::{Fields, Sessions};
pub use name::Name;
pub use op::Op;
pub use refusal::{Refusal, SetFault};
pub use sheet::Sheet;
