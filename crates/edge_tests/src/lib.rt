//! The tests of `child_edge`, `arrivals` and `sheet_text`.
#![tactic(auto)]

#[cfg(test)]
mod tests;
