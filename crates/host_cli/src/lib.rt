//! The program `tmhost`: which program runs for its words, over which streams and files. The crate
//! `tmhost` runs it; what its words are stands in `command_words`, how each program ends in
//! `program_endings`, and a worksheet's files in `sheet_files`.
#![tactic(auto)]

mod blocks;
mod checks;
mod finding;
mod outlet;
mod outside;
mod pasts;
mod plans;
mod refusing;
mod runs;
pub mod startup;
mod tasks;
mod terminal;
mod waiting;

pub use outlet::Outlet;
pub use outside::{Outside, Performed, System, SystemView};
pub use plans::PlanFault;
pub use refusing::{refuse_unread_words, refuse_words};
pub use tasks::{do_task, perform};
pub use waiting::{PatientInput, PatientOutput};
