//! A worksheet on a disk: each op as the payload of a record, and the store that keeps a worksheet
//! in memory and in a journal alike.
#![tactic(auto)]

mod afters;
mod base;
mod copying;
mod fault;
mod flushing;
mod laws;
mod measuring;
mod opening;
mod owing;
mod parts;
mod plain;
mod reading;
mod records;
mod rescuing;
mod rewriting;
mod runs;
mod saving;
mod size;
mod store;
mod writing;

pub use copying::copy_sheet;
pub use fault::{CheckpointFault, CommitFault, PrepareFault};
pub use laws::{
    allowed_have_code, longest_rescue, one_list_of_ops, one_op, one_refusal, one_rescue, one_sheet,
    received_answers_fit, rescue_of_whole, rewrites_are_short, sheet_image_opens,
};
pub use reading::{DecodeFault, decode};
pub use rescuing::{Rescued, end_rescue, rescue};
pub use saving::{SaveCause, SaveFault, save};
pub use size::code_len;
pub use store::Store;
pub use writing::encode;
