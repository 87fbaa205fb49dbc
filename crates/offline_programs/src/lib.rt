//! The programs over a worksheet that start no interpreter, over any reader and writer: a worksheet in
//! print, a rescue, a script over memory. And what every program has: its input, its texts, its faults.
#![tactic(auto)]

mod fault;
mod input;
mod memory;
mod printing;
mod rescuing;
mod saying;
mod writing;

pub use fault::{RunFault, fault_text};
pub use input::{LONGEST_STANDARD_INPUT, read_input};
pub use memory::run_memory;
pub use printing::{Shown, show};
pub use rescuing::{FrontFault, RescueFault, Saved, read_front, save_rescued};
pub use saying::{Message, Says};
pub use writing::{tell_bad_line, tell_replies, tell_sheet};
