//! The records that make a worksheet again.
ghost use Rattle.std.specs.Prelude.{◌≡◌, ◌≤◌, ◌-◌, ◌∷◌, ◌+◌, [], List, map, min, IfOk, OnOk, vec_capacity};
ghost use Rattle.std.specs.List.{AllByRecursion};
ghost use Rattle.worksheet.specs.declared.field.Field.{Field};
ghost use Rattle.worksheet.specs.Checks.{numbers};
ghost use Rattle.worksheet.specs.Edits.{HasNumbersApart};
ghost use Rattle.worksheet.specs.Rewrite.{field_ops, fields_ops, ids_to, lost_ops, outcome_ops, rewrite_of, session_op, smaller_before};
ghost use Rattle.journal.specs.Limits.{batch_len, longest_payload};
ghost use Rattle.recovery.specs.Code.{IsTyped};
ghost use Rattle.recovery.specs.Sheets.{codes_of};
ghost use Rattle.recovery.specs.inside.Gathered.{Gathers};
ghost use Rattle.recovery.specs.inside.Measured.{HasRecord};
ghost use Rattle.recovery.specs.inside.Records.{op_in};

use crate::afters::afters_of;
use crate::records::{Again, Record};
use block_tree::{OutOfMemory, Reason};
use journal::{BATCH_LEN, LONGEST_PAYLOAD};
use std::alloc::Global;
use worksheet::{Answer, Field, Sheet};

// Puts a record after the others.
fn put<'a>(records: &mut Vec<Record<'a>>, next: Record<'a>) -> Result<(), OutOfMemory>
    requires { IsTyped (op_in next) }
    ensures { Gathers (op_in next.entry ∷ []) result records.old.items records.new.items }
{
    records.push(next)?;
    Ok(())
}

// The sessions, in order.
fn put_sessions<'a>(records: &mut Vec<Record<'a>>, sheet: &'a Sheet) -> Result<(), OutOfMemory>
    ensures { Gathers (map session_op sheet.now.contents.sessions) result records.old.items
        records.new.items }
{
    let mut sessions = sheet.sessions();
    while let Some(session) = sessions.next() {
        put(records, Record::Session(session))?;
    }
    Ok(())
}

// The next number, where it isn't this already.
fn put_ids(records: &mut Vec<Record<'_>>, next: u32, number: u32) -> Result<(), OutOfMemory>
    ensures { Gathers (ids_to next number) result records.old.items records.new.items }
{
    if next == number {
        return Ok(());
    }
    put(records, Record::Ids(number))
}

// The reason why nothing was answered, if that is known.
fn put_lost(records: &mut Vec<Record<'_>>, id: u32, lost: Option<Reason>) -> Result<(), OutOfMemory>
    ensures { Gathers (lost_ops id lost) result records.old.items records.new.items }
{
    match lost {
        Some(reason) => put(records, Record::Lost(id, reason)),
        None => Ok(()),
    }
}

// An answer, or the reason why there is none, if there is one of them.
fn put_outcome<'a>(
    records: &mut Vec<Record<'a>>,
    id: u32,
    answer: &'a Option<Answer>,
    lost: Option<Reason>,
) -> Result<(), OutOfMemory>
    ensures { Gathers (outcome_ops id answer.now lost) result records.old.items records.new.items }
{
    let Some(answer) = answer else {
        return put_lost(records, id, lost);
    };
    // Its node tells that it is a block, so that its spelling is read again.
    let _node = answer.output.node();
    put(records, Record::Answer(id, answer))
}

// A field, where this is the next number and the field is made after that one.
fn put_field<'a>(
    records: &mut Vec<Record<'a>>,
    next: u32,
    after: u32,
    field: &'a Field,
) -> Result<(), OutOfMemory>
    ensures { (fields : List Field) → after ≡ smaller_before 0 field.now.id (numbers fields)
        → Gathers (field_ops fields next field.now) result records.old.items records.new.items }
{
    put_ids(records, next, field.id)?;
    put(records, Record::New(after, field))?;
    put_outcome(records, field.id, &field.answer, field.lost)
}

// The fields by ascending number, and the next number.
fn put_fields<'a>(
    alloc: Global,
    records: &mut Vec<Record<'a>>,
    sheet: &'a Sheet,
) -> Result<(), OutOfMemory>
    requires some { 1 ≤ sheet.now.contents.next }
    requires apart { HasNumbersApart sheet.now.contents }
    ensures { Gathers (fields_ops sheet.now.contents.fields (sheet.now.contents.next - 1) 1 1)
        result records.old.items records.new.items }
{
    let afters = afters_of(alloc, sheet)?;
    let last = sheet.next_id();
    let mut id = 1;
    let mut next = 1;
    while id < last {
        match sheet.field(id) {
            Some(field) => {
                put_field(records, next, afters[id as usize], field)?;
                next = id + 1;
            }
            None => {}
        }
        id += 1;
    }
    put_ids(records, next, last)
}

/// The records that make a worksheet again.
pub(crate) fn records_of<'a>(
    alloc: Global,
    sheet: &'a Sheet,
) -> Result<Vec<Record<'a>>, OutOfMemory>
    requires some { 1 ≤ sheet.now.contents.next }
    requires apart { HasNumbersApart sheet.now.contents }
    ensures ops { IfOk result (λ all. map op_in all.items ≡ rewrite_of sheet.now.contents) }
    ensures typed { OnOk result (AllByRecursion IsTyped (rewrite_of sheet.now.contents)) }
{
    let mut records = Vec::new(alloc);
    put_sessions(&mut records, sheet)?;
    put_fields(alloc, &mut records, sheet)?;
    Ok(records)
}

/// The payloads of the ops that make a worksheet again.
pub(crate) fn again_of<'a>(alloc: Global, sheet: &'a Sheet) -> Result<Again<'a>, OutOfMemory>
    requires some { 1 ≤ sheet.now.contents.next }
    requires apart { HasNumbersApart sheet.now.contents }
    requires records { AllByRecursion HasRecord (rewrite_of sheet.now.contents) }
    ensures ok { IfOk result (λ again. again ≡ codes_of (rewrite_of sheet.now.contents)) }
    ensures typed { OnOk result (AllByRecursion IsTyped (rewrite_of sheet.now.contents)) }
{
    let records = records_of(alloc, sheet)?;
    Ok(Again::new(records))
}

/// Memory for the batches in which payloads are written whose records have so many bytes together.
pub(crate) fn batch_of(alloc: Global, len: u64) -> Result<Vec<u8>, OutOfMemory>
    ensures { IfOk result (λ batch. batch_len + 6 + min len longest_payload ≤ vec_capacity batch) }
{
    let longest = len.min(LONGEST_PAYLOAD) as usize;
    Ok(Vec::with_capacity(alloc, BATCH_LEN + 6 + longest)?)
}
