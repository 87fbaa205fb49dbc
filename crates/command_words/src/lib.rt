//! The words of `tmhost`'s command line: the subcommands with their help, and the task that words ask for.
//! What is then done stands in `host_cli`.
#![tactic(auto)]

mod arguments;
mod commands;
mod table;
mod words;

pub use words::{CheckWords, EvalWords, RunWords, Task, read_words};
