//! The tests of `session_engine`: hosts by their events, crashes at every moment, disks that fail at every
//! call, hosts one after another on one disk, and worksheets and plays of the sizes that users have.
#![tactic(auto)]

#[cfg(test)]
mod tests;
