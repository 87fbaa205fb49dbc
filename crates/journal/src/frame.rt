//! The bytes of a record after its gate, and the closed gate that follows them.
ghost use Rattle.std.specs.Prelude.{◌≡◌, ◌<◌, ◌≤◌, ◌+◌, ◌++◌, ◌∷◌, [], List, ℕ, drop, length, IfOk};
ghost use Rattle.std.specs.Int.{to_be_bytes, w32};
ghost use Rattle.journal.specs.Area.{body_of, closed_gate, IsBody, IsPayload};
ghost use Rattle.journal.specs.Limits.{longest_payload};

use crate::OutOfMemory;
use std::alloc::Global;
use std::marker::Model;

/// The greatest length of a payload, in bytes.
pub const LONGEST_PAYLOAD: u64 = 33_554_432;

/// A payload, ready to be appended without memory. Contracts see the payload.
#[derive(Drop)]
pub struct Frame {
    bytes: Vec<u8>,
}

impl Model for Frame {
    ghost use Rattle.std.specs.Prelude.{List, ℕ};
    ghost use Rattle.journal.specs.inside.Frame.{payload_in, IsFrame};
    ghost use Rattle.journal.specs.Limits.{longest_payload};

    ghost Value = { List ℕ };

    ghost view = { λ f. payload_in f.bytes.items };

    ghost invariant = { λ f. IsFrame longest_payload f.bytes.items };
}

impl Frame {
    /// Makes the bytes that an append of this payload of 1 to 33,554,432 bytes writes
    /// (docs/trust/FORMAT.md, "Append").
    pub fn new(alloc: Global, payload: &[u8]) -> Result<Frame, OutOfMemory>
        requires { IsPayload longest_payload payload.now }
        ensures { IfOk result (λ frame. frame ≡ payload.now) }
    {
        let mut bytes = Frame::begin(alloc, payload.len() as u64)?;
        bytes.extend_from_slice(payload)?;
        Frame::closed(bytes)
    }

    /// The front of a frame, with memory for a payload of so many bytes and what else a frame has: the
    /// payload is to be written after it, for [`Frame::closed`].
    pub fn begin(alloc: Global, payload_len: u64) -> Result<Vec<u8>, OutOfMemory>
        requires { payload_len ≤ longest_payload }
        ensures { IfOk result (λ front. front.items ≡ to_be_bytes w32 payload_len) }
    {
        let mut front = Vec::with_capacity(alloc, payload_len as usize + 5)?;
        front.extend_from_slice(&(payload_len as u32).to_be_bytes())?;
        Ok(front)
    }

    /// The frame of these bytes, of which each but the first four is one of the payload.
    pub fn closed(bytes: Vec<u8>) -> Result<Frame, OutOfMemory>
        requires { IsBody longest_payload bytes.items }
        ensures { IfOk result (λ frame. frame ≡ drop 4 bytes.items) }
    {
        let mut bytes = bytes;
        bytes.push(0)?;
        Ok(Frame { bytes })
    }

    /// The payload's length in bytes.
    pub fn payload_len(&self) -> u64
        ensures len { result ≡ length self.now }
        ensures payload { IsPayload longest_payload self.now }
    {
        self.bytes.len() as u64 - 5
    }

    // The payload's length and the payload, and a closed gate.
    pub(crate) fn bytes(&self) -> &[u8]
        ensures bytes { result.now ≡ body_of self.now ++ closed_gate ∷ [] }
        ensures payload { IsPayload longest_payload self.now }
    {
        &self.bytes
    }
}
