//! Completion: the request that asks an interpreter what can stand at a cursor, and what its answer
//! tells.
//!
//! (GNU TeXmacs manual, interfacing: tab-completion. Strings are those of R5RS 6.3.5.
//! docs/use/PROTOCOL.md, completion.)
#![tactic(auto)]

mod answer;
mod laws;
mod outputs;
mod request;
mod strings;

pub use answer::{AnswerFault, BadCompletion, Completions, read_answer};
pub use laws::{
    equal_completions, one_completion, one_request, quoted_is_read, quotes_one_text,
    reported_as_a_value, says_one_list, written_tuples_are_read,
};
pub use request::write_request;
