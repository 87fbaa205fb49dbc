//! Children that fail and lie, memory that is refused, and inputs and answers of each size, through a host
//! and its edge.
#![tactic(auto)]

#[cfg(test)]
mod tests;
