//! The lines of scripts, and the texts that the programs print, written part by part to a writer.
#![tactic(auto)]

mod blocks;
mod ends;
mod escape;
mod fault;
mod inputs;
pub mod laws;
pub mod numbers;
mod parts;
mod plain;
mod replies;
mod script;
mod sheet;

pub use blocks::{block_text, is_bare_tag, tree_text};
pub use escape::{hex_digit, is_plain, write_line, write_lines};
pub use fault::WriteFault;
pub use inputs::{next_line, unfolded, write_input_lines};
pub use numbers::read_number;
pub use parts::split_space;
pub use replies::{reason_name, reply_text};
pub use script::{LineFault, ScriptLine, read_line};
pub use sheet::{
    field_text, sheet_text, write_input, write_no_answer, write_number, write_output, write_text,
};
