//! The tests of `disk_model` and `journal`.
#![tactic(auto)]

#[cfg(test)]
mod tests;
