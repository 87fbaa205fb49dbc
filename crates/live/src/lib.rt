//! The words of a live worksheet: what a line says, and which wait holds back the lines after it.
#![tactic(auto)]

pub mod holding;
mod live_line;
mod manner;
mod wrong;

pub use holding::{Hold, RESPITE, go_on, seconds_after, wait_for};
pub use live_line::{LiveLine, MOST_SECONDS, read_live_line};
pub use manner::Manner;
pub use wrong::{any_of_both_wrong, any_outcome_wrong, any_wrong, is_wrong};
