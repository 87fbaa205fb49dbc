//! The records that make a worksheet again, before they are written.
ghost use Rattle.std.specs.Prelude.{◌≡◌, ◌<◌, ◌≤◌, ◌+◌, ◌++◌, map, min, length, OnErr, OnOk, vec_capacity, vec_len};
ghost use Rattle.std.specs.List.{AllByRecursion};
ghost use Rattle.journal.specs.Area.{record_of};
ghost use Rattle.recovery.specs.Sheets.{codes_of};
ghost use Rattle.recovery.specs.Code.{code_of, longest_reported, HasCode};
ghost use Rattle.recovery.specs.inside.Measured.{HasRecord};
ghost use Rattle.recovery.specs.inside.Records.{op_in};

use crate::size::{IDS_LEN, LOST_LEN, answer_len, new_len, session_len};
use crate::writing::{put_answer, put_ids, put_lost, put_new, put_session};
use block_tree::{OutOfMemory, Reason};
use journal::{OPEN_GATE, Source};
use std::marker::Model;
use worksheet::{Answer, Field, Session};

/// An op that makes a part of a worksheet again, with the part where it stands in the worksheet.
#[derive(Clone, Copy)]
pub(crate) enum Record<'a> {
    Session(&'a Session),
    // The next number.
    Ids(u32),
    // The number of the field that it is made after, and the field.
    New(u32, &'a Field),
    // A field's number, and its answer.
    Answer(u32, &'a Answer),
    // A field's number, and why it has no answer.
    Lost(u32, Reason),
}

impl<'a> Record<'a> {
    /// The length of its payload in bytes, or 4,294,967,295 where it is longer.
    pub(crate) fn payload_len(&self) -> u64
        requires { HasCode (op_in self.now) }
        ensures { result ≡ min (length (code_of (op_in self.now))) longest_reported }
    {
        match self {
            Record::Session(session) => session_len(session),
            Record::Ids(_) => IDS_LEN,
            Record::New(after, field) => new_len(*after, field),
            Record::Answer(id, answer) => answer_len(*id, answer),
            Record::Lost(_, _) => LOST_LEN,
        }
    }

    // Puts its payload after other bytes.
    fn put(&self, out: &mut Vec<u8>) -> Result<(), OutOfMemory>
        requires { HasCode (op_in self.now) }
        ensures code { OnOk result (out.new.items ≡ out.old.items ++ code_of (op_in self.now)) }
        ensures room { OnErr result
            (vec_capacity out.old < vec_len out.old + length (code_of (op_in self.now))) }
        ensures capacity { vec_capacity out.old ≤ vec_capacity out.new }
    {
        match self {
            Record::Session(session) => put_session(
                session.name.as_slice(),
                session.tab,
                session.words.as_slice(),
                out,
            ),
            Record::Ids(next) => put_ids(*next, out),
            Record::New(after, field) => put_new(
                *after,
                field.session.as_slice(),
                field.input.as_bytes(),
                out,
            ),
            Record::Answer(id, answer) => {
                put_answer(*id, answer.prompt.as_slice(), &answer.output, out)
            }
            Record::Lost(id, reason) => put_lost(*id, *reason, out),
        }
    }

    // Puts an open gate, the payload's length and the payload after other bytes.
    #[tactic(auto, using(crate::proofs::Sizes::size_rules))]
    fn put_record(&self, out: &mut Vec<u8>) -> Result<(), OutOfMemory>
        requires { HasRecord (op_in self.now) }
        ensures record { OnOk result
            (out.new.items ≡ out.old.items ++ record_of (code_of (op_in self.now))) }
        ensures room { OnErr result
            (vec_capacity out.old < vec_len out.old + 5 + length (code_of (op_in self.now))) }
        ensures capacity { vec_capacity out.old ≤ vec_capacity out.new }
    {
        out.push(OPEN_GATE)?;
        out.extend_from_slice(&(self.payload_len() as u32).to_be_bytes())?;
        self.put(out)
    }
}

/// The payloads of records, each of which is made when it is written. Contracts see the payloads.
#[derive(Drop)]
pub(crate) struct Again<'a> {
    records: Vec<Record<'a>>,
}

impl<'a> Model for Again<'a> {
    ghost use Rattle.std.specs.Prelude.{List, ℕ, map};
    ghost use Rattle.std.specs.List.{AllByRecursion};
    ghost use Rattle.recovery.specs.Sheets.{codes_of};
    ghost use Rattle.recovery.specs.inside.Measured.{HasRecord};
    ghost use Rattle.recovery.specs.inside.Records.{op_in};

    ghost Value = { List (List ℕ) };

    ghost view = { λ a. codes_of (map op_in a.records.items) };

    ghost invariant = { λ a. AllByRecursion HasRecord (map op_in a.records.items) };
}

impl<'a> Again<'a> {
    /// Those of these records.
    pub(crate) fn new(records: Vec<Record<'a>>) -> Again<'a>
        requires { AllByRecursion HasRecord (map op_in records.items) }
        ensures { result ≡ codes_of (map op_in records.entry.items) }
    {
        Again { records }
    }
}

impl<'a> Source for Again<'a> {
    ghost payloads = { λ all. all };

    fn count(&self) -> usize {
        self.records.len()
    }

    fn put_record(&self, index: usize, out: &mut Vec<u8>) -> Result<(), OutOfMemory> {
        self.records[index].put_record(out)
    }
}
