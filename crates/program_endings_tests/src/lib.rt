//! The tests of `program_endings` and `sheet_files`, and of `script_agenda` where its reader or its writer fails.
#![tactic(auto)]

#[cfg(test)]
mod tests;
