//! The tests of `worksheet` and `recovery`.
#![tactic(auto)]

#[cfg(test)]
mod tests;
