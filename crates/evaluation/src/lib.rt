//! Which fields of a worksheet are evaluated, in which order, and which of them side by side.
#![tactic(auto)]

pub mod asking;
pub mod beside;
pub mod choosing;
mod fault;
pub mod lasts;
mod laws;
pub mod plan;
pub mod programs;
pub mod rounds;

pub use fault::{EvalFault, eval_fault_text};
pub use laws::rounds_leave_none_out;
pub use plan::{EvalEnd, Plan, Spared, Which};
pub use programs::Programs;
