//! A worksheet as it leaves the host: as a page, as Markdown, as a notebook, or as the script that makes it again.
#![tactic(auto)]

mod fault;
mod fences;
mod fixed;
mod formats;
mod html;
pub mod laws;
mod markdown;
mod pictures;
mod references;
mod script;
mod style;

pub use fault::{ExportFault, export_fault_text};
pub use formats::{
    Exported, Format, export, format_in_bytes, format_name, format_named, last_part, script_text,
    write_in_format, write_notebook,
};
pub use html::html_page;
pub use markdown::markdown_text;
