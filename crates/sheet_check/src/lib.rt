//! A worksheet as a test suite: its fields are evaluated again on a copy in memory, those without an answer where
//! all are checked, and what differs or is new is reported.
#![tactic(auto)]

mod accept;
mod accept_fields;
mod accept_shown;
mod checking;
mod clearing;
mod closing;
mod comparing;
mod copying;
mod driving;
mod evaluating;
mod manner;
mod marked;
mod marks;
mod named;
mod places;
mod progress;
mod sessions;
mod telling;
mod together;

pub use accept_fields::check_accepting;
pub use checking::{Checked, check};
pub use manner::{CheckManner, CheckSetup};
pub use named::CheckFault;
pub use progress::{Progress, ProgressLine, Sight};
pub use together::check_together;
