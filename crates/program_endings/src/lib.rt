//! How each program ends over a disk and interpreters: its exit status, and what it says on which stream.
//! What the programs do stands in `offline_programs`, `driver` with `script_agenda`, `line_agenda` and `field_agenda`,
//! `sheet_check` and `sheet_export`, and which of them runs for which words in `host_cli`.
#![tactic(auto)]

mod accept_program;
mod block_lines;
mod blocks_program;
mod check_program;
mod ending;
mod eval_program;
mod export_program;
mod live_program;
mod messages;
mod passing;
mod past_program;
mod programs;
mod rescue_program;
mod script_program;
mod seeing;
mod several_program;
mod strict_program;
mod telling;
mod together_program;

pub use accept_program::run_accept;
pub use block_lines::blocks;
pub use blocks_program::run_block_objects;
pub use check_program::{CheckEnding, run_check};
pub use ending::{Ending, end_program, run_blocks};
pub use eval_program::{FieldSetting, run_evaluation};
pub use export_program::{ExportForm, run_export};
pub use live_program::{LineSetting, run_live};
pub use passing::{GivenBack, Resources};
pub use past_program::{end_past, read_past, run_export_past, run_history, run_show_past};
pub use programs::{run_create, run_show};
pub use rescue_program::{read_rescued, run_rescue};
pub use script_program::run_script;
pub use seeing::{Both, Closes, Heard, Kinds};
pub use several_program::{Total, end_total, end_unwritten, is_unwritten, tell_worksheet};
pub use telling::{create_fault_text, end_unheld};
pub use together_program::run_check_together;
