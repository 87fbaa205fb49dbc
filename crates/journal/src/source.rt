//! Payloads that are made when they are written.
ghost use Rattle.std.specs.Prelude.{◌≡◌, ◌<◌, ◌≤◌, ◌+◌, ◌++◌, [], List, ℕ, get_or, length, OnErr, OnOk, vec_capacity, vec_len};
ghost use Rattle.journal.specs.Area.{IsPayload, record_of};
ghost use Rattle.journal.specs.Limits.{longest_payload};

use crate::OutOfMemory;

/// The length in bytes at which records that are written together are written.
pub const BATCH_LEN: usize = 65_536;

/// Payloads in their order, each of which is made when it is written: so a journal can be rewritten
/// without having all of them in memory.
pub trait Source {
    /// The payloads.
    ghost payloads: { Self → List (List ℕ) };

    /// How many there are.
    fn count(&self) -> usize
        ensures { result ≡ length (payloads self.now) };

    /// Puts the record of a payload after other bytes: an open gate, the payload's length in four
    /// bytes, and the payload. It takes memory only where they have no room for it.
    fn put_record(&self, index: usize, out: &mut Vec<u8>) -> Result<(), OutOfMemory>
        requires { index < length (payloads self.now) }
        ensures record { OnOk result
            (out.new.items ≡ out.old.items ++ record_of (get_or (payloads self.now) index [])) }
        ensures payload { OnOk result
            (IsPayload longest_payload (get_or (payloads self.now) index [])) }
        ensures full { OnErr result (vec_capacity out.old
            < vec_len out.old + 5 + length (get_or (payloads self.now) index [])) }
        ensures capacity { vec_capacity out.old ≤ vec_capacity out.new };
}
