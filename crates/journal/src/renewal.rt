//! The calls on the disk that rewrite a journal from a source.
ghost use Rattle.std.specs.Prelude.{◌≡◌, ◌<◌, ◌≤◌, ◌+◌, ◌++◌, ◌∷◌, [], List, ℕ, get_or, length, IfOk, OnOk, vec_capacity, vec_len};
ghost use Rattle.disk_model.specs.Disk.{InModel, Called, Leaves, LeavesOnly, area_of, bytes_on, greatest_room, other_area};
ghost use Rattle.journal.specs.Area.{ArePayloads, HasHeader, IsPayload, StandsFor, closed_gate, end_of, first_gate, record_of, records};
ghost use Rattle.journal.specs.Kept.{EitherStands, FitsAgain, Keeps};
ghost use Rattle.journal.specs.Limits.{longest_payload};
ghost use Rattle.journal.specs.Sources.{HoldsEach};
ghost use Rattle.journal.specs.inside.Active.{HasEnd, IsActive};
ghost use Rattle.journal.specs.inside.Again.{SparedBy, Spares};
ghost use Rattle.journal.specs.inside.Batches.{IsBatch};

use crate::layout::FIRST_GATE;
use crate::rewrite::{activate, lay_none};
use crate::source::{BATCH_LEN, Source};
use disk_model::{Area, Disk, DiskFault};

// Puts a record after those of a batch, which has memory for it.
fn put_next<S: Source>(source: &S, index: usize, batch: &mut Vec<u8>)
    requires some { index < length (S.payloads source.now) }
    requires memory { vec_len batch.old + 5 + length (get_or (S.payloads source.now) index [])
        ≤ vec_capacity batch.old }
    ensures record { batch.new.items
        ≡ batch.old.items ++ record_of (get_or (S.payloads source.now) index []) }
    ensures payload { IsPayload longest_payload (get_or (S.payloads source.now) index []) }
    ensures capacity { vec_capacity batch.old ≤ vec_capacity batch.new }
{
    match source.put_record(index, batch) {
        Ok(()) => {}
        Err(_) => unreachable!(),
    }
}

// Puts a closed gate after the records of a batch, which has memory for it.
fn close(batch: &mut Vec<u8>)
    requires memory { vec_len batch.old + 1 ≤ vec_capacity batch.old }
    ensures closed { batch.new.items ≡ batch.old.items ++ closed_gate ∷ [] }
    ensures capacity { vec_capacity batch.old ≤ vec_capacity batch.new }
{
    match batch.push(0) {
        Ok(()) => {}
        Err(_) => unreachable!(),
    }
}

// Makes a batch of records, from this one on, and a closed gate. It tells which record comes next.
fn fill<S: Source>(source: &S, from: usize, batch: &mut Vec<u8>) -> usize
    requires some { from < length (S.payloads source.now) }
    requires memory { HoldsEach (vec_capacity batch.old) (S.payloads source.now) }
    ensures batch { (bytes : List ℕ) × (batch.new.items ≡ bytes ++ closed_gate ∷ [])
        × IsBatch (S.payloads source.now) from result bytes }
    ensures later { from < result }
    ensures within { result ≤ length (S.payloads source.now) }
    ensures capacity { vec_capacity batch.old ≤ vec_capacity batch.new }
{
    batch.clear();
    put_next(source, from, batch);
    let count = source.count();
    let mut next = from + 1;
    while next < count && batch.len() < BATCH_LEN {
        put_next(source, next, batch);
        next += 1;
    }
    close(batch);
    next
}

// Lays records and a closed gate after others, in place of their closed gate. Nothing is durable yet.
fn lay_batch<D: Disk>(disk: &mut D, area: Area, end: u64, bytes: &[u8]) -> Result<(), DiskFault>
    requires gate { first_gate ≤ end }
    requires inside { InModel (D.view disk.old)
        ((end < length (area_of area (bytes_on (D.view disk.old))))
        × (end + length bytes.now ≤ (D.view disk.old).room)) }
    ensures called { Called result (D.view disk.old) (D.view disk.new) }
    ensures spared { InModel (D.view disk.old)
        (SparedBy area (bytes_on (D.view disk.old)) (bytes_on (D.view disk.new))) }
    ensures moments { InModel (D.view disk.old)
        (LeavesOnly (Spares area (D.view disk.old).history.now) (D.view disk.old).history
        (D.view disk.new).history) }
    ensures inside { OnOk result
        (InModel (D.view disk.old)
        (end + length bytes.now ≤ length (area_of area (bytes_on (D.view disk.new))))) }
    ensures laid { OnOk result
        (InModel (D.view disk.old)
        ((payloads more : List (List ℕ)) → ArePayloads longest_payload more
        → bytes.now ≡ records more ++ closed_gate ∷ [] → end ≡ end_of payloads
        → StandsFor longest_payload (area_of area (bytes_on (D.view disk.old))) payloads
        → StandsFor longest_payload (area_of area (bytes_on (D.view disk.new)))
        (payloads ++ more))) }
{
    disk.write_at(area, end, bytes)
}

// Lays the payloads of a source into an area that isn't active, which is durable then, and returns
// where the closed gate after them is.
fn lay_from<D: Disk, S: Source>(
    disk: &mut D,
    area: Area,
    source: &S,
    batch: &mut Vec<u8>,
) -> Result<u64, DiskFault>
    requires small { end_of (S.payloads source.now) + 1 ≤ greatest_room }
    requires memory { HoldsEach (vec_capacity batch.old) (S.payloads source.now) }
    requires room { InModel (D.view disk.old)
        (FitsAgain (D.view disk.old).room (S.payloads source.now)) }
    requires headed { InModel (D.view disk.old) (first_gate < length
        (bytes_on (D.view disk.old)).first) }
    ensures called { Called result (D.view disk.old) (D.view disk.new) }
    ensures spared { InModel (D.view disk.old)
        (SparedBy area (bytes_on (D.view disk.old)) (bytes_on (D.view disk.new))) }
    ensures moments { InModel (D.view disk.old)
        (LeavesOnly (Spares area (D.view disk.old).history.now) (D.view disk.old).history
        (D.view disk.new).history) }
    ensures end { IfOk result (λ end. end ≡ end_of (S.payloads source.now)) }
    ensures inside { OnOk result
        (InModel (D.view disk.old)
        (end_of (S.payloads source.now) < length (area_of area (bytes_on (D.view disk.new))))) }
    ensures laid { OnOk result
        (InModel (D.view disk.old)
        (HasHeader (bytes_on (D.view disk.old)).first
        → StandsFor longest_payload (area_of area (bytes_on (D.view disk.new)))
        (S.payloads source.now))) }
    ensures durable { OnOk result
        (InModel (D.view disk.old)
        (Leaves (λ i. area_of area i ≡ area_of area (bytes_on (D.view disk.new)))
        (D.view disk.new).history.now)) }
{
    lay_none(disk, area)?;
    let count = source.count();
    let mut end = FIRST_GATE;
    let mut next = 0;
    while next < count {
        let following = fill(source, next, batch);
        let bytes = batch.as_slice();
        lay_batch(disk, area, end, bytes)?;
        end += bytes.len() as u64 - 1;
        next = following;
    }
    disk.sync(area)?;
    Ok(end)
}

/// Writes the payloads of a source into an area that isn't active, and makes it the active one. It
/// returns where the closed gate after them is.
pub(crate) fn write_from<D: Disk, S: Source>(
    disk: &mut D,
    area: Area,
    source: &S,
    batch: &mut Vec<u8>,
) -> Result<u64, DiskFault>
    requires small { end_of (S.payloads source.now) + 1 ≤ greatest_room }
    requires memory { HoldsEach (vec_capacity batch.old) (S.payloads source.now) }
    requires room { InModel (D.view disk.old)
        (FitsAgain (D.view disk.old).room (S.payloads source.now)) }
    requires active { InModel (D.view disk.old)
        (IsActive (other_area area) (bytes_on (D.view disk.old))) }
    ensures called { Called result (D.view disk.old) (D.view disk.new) }
    ensures end { IfOk result (λ end. end ≡ end_of (S.payloads source.now)) }
    ensures inside { OnOk result
        (InModel (D.view disk.old)
        (HasEnd area (end_of (S.payloads source.now)) (bytes_on (D.view disk.new)))) }
    ensures any_moment { InModel (D.view disk.old)
        ((end : ℕ) (payloads : List (List ℕ)) → Keeps (D.view disk.old).history end payloads
        → LeavesOnly (EitherStands payloads (S.payloads source.now)) (D.view disk.old).history
        (D.view disk.new).history) }
    ensures acknowledged { OnOk result
        (InModel (D.view disk.old)
        ((end : ℕ) (payloads : List (List ℕ)) → Keeps (D.view disk.old).history end payloads
        → Keeps (D.view disk.new).history (end_of (S.payloads source.now))
        (S.payloads source.now))) }
{
    let end = lay_from(disk, area, source, batch)?;
    activate(disk, area)?;
    Ok(end)
}
