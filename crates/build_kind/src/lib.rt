//! What built the program, as `--version` says it.
#![tactic(auto)]

/// What `--version` shows after the name of the program: its number, the format of the journals that it
/// writes (the byte at offset 8 of each), the kit that its proofs are checked by, and last what built it.
/// The prover takes this file as it is. `install/checked`, which builds without proofs, hands its front end
/// a copy with other words in the place of the last.
pub const VERSION: &str = "0.1.0 (journal format 1, rattle-kit-13f, proved)";
