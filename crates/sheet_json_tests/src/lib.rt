//! The tests of `sheet_json`.
#![tactic(auto)]

#[cfg(test)]
mod tests;
