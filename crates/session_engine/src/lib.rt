//! The host of interpreters' sessions over a worksheet: each event that it takes, with what it replies and
//! what is to be done with the interpreters.
#![tactic(auto)]

mod buffered;
mod changes;
mod checkpoints;
mod commits;
mod completes;
mod edits;
mod ends;
mod engine;
mod evals;
pub mod host;
mod joining;
mod pieces;
mod play;
mod table;
mod take;
mod whole;

pub use buffered::BufferedHost;
pub use edits::{AddFault, Edits, is_edit};
pub use host::{Host, LifeView};
pub use joining::{JoinFault, Joined, Joins, Joint, MOST_JOINED};
pub use play::{GroupFault, PlayFault, is_refusal};
pub use whole::{Whole, WholeFault};
