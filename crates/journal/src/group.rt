//! Payloads that become durable together.
ghost use Rattle.std.specs.Prelude.{◌≡◌, ◌≢◌, ◌<◌, ◌≤◌, ◌+◌, ◌++◌, ◌∷◌, ◌↔◌, [], length, IfOk, IsTrue, OnErr, OnOk};
ghost use Rattle.journal.specs.Area.{ArePayloads, closed_gate, open_gate, records};
ghost use Rattle.journal.specs.Limits.{longest_payload};

use crate::layout::OPEN_GATE;
use crate::{Frame, OutOfMemory};
use std::alloc::Global;
use std::marker::Model;

/// Payloads that are to become durable together, as the bytes that are written of them: record after
/// record, and a closed gate. Contracts see the payloads, and for how many bytes more there is memory.
#[derive(Drop)]
pub struct Group {
    bytes: Vec<u8>,
}

impl Model for Group {
    ghost use Rattle.std.specs.Prelude.{◌-◌, vec_capacity, vec_len};
    ghost use Rattle.journal.specs.Area.{IsGroup};
    ghost use Rattle.journal.specs.Owed.{GroupView};
    ghost use Rattle.journal.specs.inside.Group.{group_of};
    ghost use Rattle.journal.specs.Limits.{longest_payload};

    ghost Value = { GroupView };

    ghost view = { λ g. record { payloads = group_of g.bytes.items; place = vec_capacity g.bytes - vec_len g.bytes } };

    ghost invariant = { λ g. IsGroup longest_payload g.bytes.items (group_of g.bytes.items) };
}

impl Group {
    /// A group without a payload. Refused where there is no memory for a gate.
    pub fn new(alloc: Global) -> Result<Group, OutOfMemory>
        ensures { IfOk result (λ group. group.payloads ≡ []) }
    {
        let mut bytes = Vec::new(alloc);
        bytes.push(0)?;
        Ok(Group { bytes })
    }

    /// Makes memory for a payload of so many bytes more, of which there are at most 33,554,432. What was ready
    /// before stays so, also where more is refused.
    pub fn make_place(&mut self, payload_len: u64) -> Result<(), OutOfMemory>
        requires { payload_len ≤ longest_payload }
        ensures payloads { self.new.payloads ≡ self.old.payloads }
        ensures place { OnOk result (5 + payload_len ≤ self.new.place) }
        ensures kept { self.old.place ≤ self.new.place }
    {
        self.bytes.reserve(payload_len as usize + 5)
    }

    /// Puts a payload after the others. It takes memory only where there is none ready. At `Err`
    /// nothing has changed.
    pub fn push(&mut self, frame: &Frame) -> Result<(), OutOfMemory>
        ensures ok { OnOk result (self.new.payloads ≡ self.old.payloads ++ frame.now ∷ []) }
        ensures err { OnErr result (self.new.payloads ≡ self.old.payloads) }
        ensures full { OnErr result (self.old.place < 5 + length frame.now) }
        ensures kept { self.old.place ≤ self.new.place + 5 + length frame.now }
        ensures payloads { ArePayloads longest_payload self.old.payloads }
    {
        let last = self.bytes.len() - 1;
        self.bytes.extend_from_slice(frame.bytes())?;
        self.bytes[last] = OPEN_GATE;
        Ok(())
    }

    /// Takes all payloads out, and keeps the memory.
    pub fn clear(&mut self)
        ensures payloads { self.new.payloads ≡ [] }
        ensures place { self.new.place ≡ self.old.place + length (records self.old.payloads) }
    {
        self.bytes.truncate(1);
        self.bytes[0] = 0;
    }

    /// Whether there is no payload.
    pub fn is_empty(&self) -> bool
        ensures { IsTrue result ↔ (self.now.payloads ≡ []) }
    {
        self.bytes.len() == 1
    }

    /// How many bytes the records have.
    pub fn records_len(&self) -> u64
        ensures { result ≡ length (records self.now.payloads) }
    {
        self.bytes.len() as u64 - 1
    }

    // What is written after the closed gate: the bytes without their first one.
    pub(crate) fn past_gate(&self) -> &[u8]
        requires { self.now.payloads ≢ [] }
        ensures bytes { open_gate ∷ result.now ≡ records self.now.payloads ++ closed_gate ∷ [] }
        ensures payloads { ArePayloads longest_payload self.now.payloads }
    {
        let (_, following) = self.bytes.split_at(1);
        following
    }
}
