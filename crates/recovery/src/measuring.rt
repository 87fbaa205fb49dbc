//! The room that the records of a rewritten worksheet take, counted without making them.
ghost use Rattle.std.specs.Prelude.{◌≡◌, ◌↔◌, ◌≤◌, ◌-◌, ◌∷◌, [], List, map, min, length, is_some, IfSome, IsTrue};
ghost use Rattle.std.specs.List.{AllByRecursion};
ghost use Rattle.worksheet.specs.declared.op.Op.{Op};
ghost use Rattle.worksheet.specs.declared.field.Field.{Field};
ghost use Rattle.worksheet.specs.Rewrite.{field_ops, fields_ops, ids_to, lost_ops, outcome_ops, rewrite_of, session_op};
ghost use Rattle.journal.specs.Area.{records};
ghost use Rattle.journal.specs.Limits.{longest_payload};
ghost use Rattle.recovery.specs.Code.{code_of, longest_reported};
ghost use Rattle.recovery.specs.Checkpointed.{HasRoomAgain};
ghost use Rattle.recovery.specs.Sheets.{codes_of};
ghost use Rattle.recovery.specs.inside.Measured.{HasRecord, Measures};

use crate::size::{IDS_LEN, LOST_LEN, answer_len, new_len, session_len};
use block_tree::Reason;
use journal::EMPTY_LEN;
use worksheet::{Answer, Field, Session, Sheet};

// What a record of a payload of so many bytes leaves of so much room, where the record fits.
fn left_after(left: u64, len: u64) -> Option<u64>
    requires { len ≤ longest_payload }
    ensures { (o : Op) → len ≡ min (length (code_of o)) longest_reported
        → Measures (o ∷ []) left result }
{
    if left < len + 5 {
        return None;
    }
    Some(left - 5 - len)
}

// The same of a session's record.
fn left_after_session(left: u64, session: &Session) -> Option<u64>
    requires { HasRecord (session_op session.now) }
    ensures { Measures (session_op session.now ∷ []) left result }
{
    left_after(left, session_len(session))
}

// The same of all sessions.
fn left_after_sessions(left: u64, sheet: &Sheet) -> Option<u64>
    requires { AllByRecursion HasRecord (map session_op sheet.now.contents.sessions) }
    ensures { Measures (map session_op sheet.now.contents.sessions) left result }
{
    let mut rest = left;
    let mut sessions = sheet.sessions();
    while let Some(session) = sessions.next() {
        match left_after_session(rest, session) {
            Some(less) => rest = less,
            None => return None,
        }
    }
    Some(rest)
}

// The next number, where it isn't this already.
fn left_after_ids(left: u64, next: u32, number: u32) -> Option<u64>
    ensures { Measures (ids_to next number) left result }
{
    if next == number {
        return Some(left);
    }
    left_after(left, IDS_LEN)
}

// The reason why nothing was answered, if that is known.
fn left_after_lost(left: u64, id: u32, lost: Option<Reason>) -> Option<u64>
    ensures { Measures (lost_ops id lost) left result }
{
    match lost {
        Some(_) => left_after(left, LOST_LEN),
        None => Some(left),
    }
}

// An answer, or the reason why there is none, if there is one of them.
fn left_after_outcome(
    left: u64,
    id: u32,
    answer: &Option<Answer>,
    lost: Option<Reason>,
) -> Option<u64>
    requires { AllByRecursion HasRecord (outcome_ops id answer.now lost) }
    ensures { Measures (outcome_ops id answer.now lost) left result }
{
    match answer {
        Some(answer) => left_after(left, answer_len(id, answer)),
        None => left_after_lost(left, id, lost),
    }
}

// A field, where this is the next number. Its place takes the same room whatever it is.
fn left_after_field(left: u64, next: u32, field: &Field) -> Option<u64>
    requires { (fields : List Field) × AllByRecursion HasRecord (field_ops fields next field.now) }
    ensures { (fields : List Field) → Measures (field_ops fields next field.now) left result }
{
    let Some(left) = left_after_ids(left, next, field.id) else {
        return None;
    };
    let Some(left) = left_after(left, new_len(0, field)) else {
        return None;
    };
    left_after_outcome(left, field.id, &field.answer, field.lost)
}

// The fields by ascending number, and the next number.
fn left_after_fields(left: u64, sheet: &Sheet) -> Option<u64>
    requires some { 1 ≤ sheet.now.contents.next }
    requires records { AllByRecursion HasRecord
        (fields_ops sheet.now.contents.fields (sheet.now.contents.next - 1) 1 1) }
    ensures { Measures (fields_ops sheet.now.contents.fields (sheet.now.contents.next - 1) 1 1)
        left result }
{
    let last = sheet.next_id();
    let mut rest = left;
    let mut id = 1;
    let mut next = 1;
    while id < last {
        match sheet.field(id) {
            Some(field) => {
                match left_after_field(rest, next, field) {
                    Some(less) => rest = less,
                    None => return None,
                }
                next = id + 1;
            }
            None => {}
        }
        id += 1;
    }
    left_after_ids(rest, next, last)
}

// The records that make a worksheet again.
fn left_after_all(left: u64, sheet: &Sheet) -> Option<u64>
    requires some { 1 ≤ sheet.now.contents.next }
    requires records { AllByRecursion HasRecord (rewrite_of sheet.now.contents) }
    ensures { Measures (rewrite_of sheet.now.contents) left result }
{
    match left_after_sessions(left, sheet) {
        Some(rest) => left_after_fields(rest, sheet),
        None => None,
    }
}

/// The bytes of the records that make a worksheet again, where an area of so many bytes has room for
/// them. It takes no memory.
pub(crate) fn len_again(room: u64, sheet: &Sheet) -> Option<u64>
    requires some { 1 ≤ sheet.now.contents.next }
    requires records { AllByRecursion HasRecord (rewrite_of sheet.now.contents) }
    ensures room { IsTrue (is_some result) ↔ HasRoomAgain room sheet.now.contents }
    ensures len { IfSome result (λ len. len
        ≡ length (records (codes_of (rewrite_of sheet.now.contents)))) }
{
    // The header, and the gate after the records, are there without any.
    if room < EMPTY_LEN {
        return None;
    }
    match left_after_all(room - EMPTY_LEN, sheet) {
        Some(rest) => Some(room - EMPTY_LEN - rest),
        None => None,
    }
}
