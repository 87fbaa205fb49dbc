//! A worksheet that is written to an empty disk.
ghost use Rattle.std.specs.Prelude.{◌≡◌, ◌≤◌, List, ℕ, IfErr, IfOk, MatchResult, vec_capacity};
ghost use Rattle.disk_model.specs.Disk.{InModel, Leaves, LeavesOnly, Looks, Rises, SameDisk, bytes_on};
ghost use Rattle.worksheet.specs.declared.op.Op.{Op};
ghost use Rattle.journal.specs.Kept.{FitsAgain, Keeps};
ghost use Rattle.journal.specs.Sources.{HoldsEach};
ghost use Rattle.journal.specs.Open.{AreEmpty};
ghost use Rattle.recovery.specs.Checkpointed.{HasRoomAgain};
ghost use Rattle.recovery.specs.Saved.{IsBeingSaved, disk_saved};
ghost use Rattle.recovery.specs.Sheets.{IsSheetImage, Makes};
ghost use Rattle.recovery.specs.inside.Rescuing.{IsBeingLaid, IsOfDisk, created_cause};
ghost use Rattle.recovery.specs.declared.saving.SaveCause.TheVariants as saves;

use crate::measuring::len_again;
use crate::rewriting::{again_of, batch_of};
use disk_model::Disk;
use journal::{AppendFault, CreateCause, CreateFault, Journal, Source};
use std::alloc::Global;
use worksheet::Sheet;

/// Why a worksheet wasn't written to a disk.
#[derive(Clone, Copy, Debug, PartialEq, Eq)]
pub enum SaveCause {
    /// An area has a byte. Nothing was changed.
    NotEmpty,
    /// The records that make the worksheet don't fit in an area. Nothing was changed.
    Full,
    /// A growth was refused. Nothing was changed.
    OutOfMemory,
    /// The disk failed. It may stand for no worksheet, for the empty one, or for this one.
    Disk,
}

/// A worksheet that wasn't written, and the disk.
#[derive(Drop)]
pub struct SaveFault<D: Disk> {
    /// Why it wasn't written.
    pub cause: SaveCause,
    /// The disk, as it stands.
    pub disk: D,
}

fn cause_of(cause: CreateCause) -> SaveCause
    ensures { result ≡ created_cause cause }
{
    match cause {
        CreateCause::NotEmpty => SaveCause::NotEmpty,
        CreateCause::Disk => SaveCause::Disk,
    }
}

// Lays an empty journal on an empty disk, and the payloads of a source in its place.
fn lay_again<D: Disk, S: Source>(
    disk: D,
    source: &S,
    batch: &mut Vec<u8>,
) -> Result<D, SaveFault<D>>
    requires room { 11 ≤ (D.view disk).room }
    requires fits { FitsAgain (D.view disk).room (S.payloads source.now) }
    requires memory { HoldsEach (vec_capacity batch.old) (S.payloads source.now) }
    ensures same { SameDisk (D.view disk) (disk_saved D.view result) }
    ensures ok { InModel (D.view disk) (IfOk result (λ new. AreEmpty (bytes_on (D.view disk))
        × ((end : ℕ) × Keeps (D.view new).history end (S.payloads source.now)))) }
    ensures not_empty { InModel (D.view disk)
        (IfErr result (λ e. e.cause ≡ saves.NotEmpty → AreEmpty (bytes_on (D.view disk)) → ⊥)) }
    ensures untouched { InModel (D.view disk)
        (IfErr result (λ e. (AreEmpty (bytes_on (D.view disk)) → ⊥)
        → Looks (D.view disk).history (D.view e.disk).history)) }
    ensures any_moment { InModel (D.view disk)
        (LeavesOnly (IsBeingLaid (D.view disk).history.now (S.payloads source.now))
        (D.view disk).history (disk_saved D.view result).history) }
    ensures cause { IfErr result (λ e. IsOfDisk e.cause) }
    ensures faulty { IfErr result
        (λ e. e.cause ≡ saves.Disk → Rises (D.view disk).faults (D.view e.disk).faults) }
    ensures steady { MatchResult result
        (λ new. (D.view new).faults ≡ (D.view disk).faults)
        (λ e. (e.cause ≡ saves.Disk → ⊥) → (D.view e.disk).faults ≡ (D.view disk).faults) }
{
    let journal = match Journal::create(disk) {
        Ok(journal) => journal,
        Err(CreateFault { cause, disk }) => {
            let cause = cause_of(cause);
            return Err(SaveFault { cause, disk });
        }
    };
    match journal.rewrite_from(source, batch) {
        Ok(journal) => Ok(journal.into_disk()),
        Err(AppendFault::Disk(disk)) => Err(SaveFault {
            cause: SaveCause::Disk,
            disk,
        }),
        Err(AppendFault::JournalFull(_)) => unreachable!(),
    }
}

/// Writes a worksheet to an empty disk of at least 11 bytes of room. It lays an empty worksheet there,
/// as [`journal::create`] does, and writes this one in its place, as a checkpoint does (docs/trust/FORMAT.md,
/// "Rescue"). It is durable at `Ok`. Before its first write it has all the memory that it takes.
///
/// Allowed ops must have made the worksheet, as those of [`rescue`](crate::rescue) have.
pub fn save<D: Disk>(alloc: Global, disk: D, sheet: &Sheet) -> Result<D, SaveFault<D>>
    requires room { 11 ≤ (D.view disk).room }
    requires made { (ops : List Op) × Makes ops sheet.now.contents }

    ensures same { SameDisk (D.view disk) (disk_saved D.view result) }

    // The disk was empty, and whatever a crash leaves is an image of the worksheet.
    ensures saved { InModel (D.view disk) (IfOk result (λ new. AreEmpty (bytes_on (D.view disk))
        × Leaves (IsSheetImage sheet.now.contents) (D.view new).history.now)) }

    // A crash at any moment of the call leaves what a creation leaves that is cut off, or the empty
    // worksheet, or this one.
    ensures any_moment { InModel (D.view disk)
        (LeavesOnly (IsBeingSaved (D.view disk).history.now sheet.now.contents)
        (D.view disk).history (disk_saved D.view result).history) }

    ensures not_empty { InModel (D.view disk)
        (IfErr result (λ e. e.cause ≡ saves.NotEmpty → AreEmpty (bytes_on (D.view disk)) → ⊥)) }

    // A disk that isn't empty is left as it was, whatever fails; so is each where room or memory is
    // lacking.
    ensures untouched { InModel (D.view disk)
        (IfErr result (λ e. (AreEmpty (bytes_on (D.view disk)) → ⊥)
        → Looks (D.view disk).history (D.view e.disk).history)) }
    ensures full { IfErr result (λ e. e.cause ≡ saves.Full
        → (HasRoomAgain (D.view disk).room sheet.now.contents → ⊥) × (e.disk ≡ disk)) }

    // Where anything else is answered an area has room for it.
    ensures fits { MatchResult result (λ _. HasRoomAgain (D.view disk).room sheet.now.contents)
        (λ e. (e.cause ≡ saves.Full → ⊥) → HasRoomAgain (D.view disk).room sheet.now.contents) }
    ensures memory { IfErr result (λ e. e.cause ≡ saves.OutOfMemory → e.disk ≡ disk) }

    // A failure of the disk is reported as one, and nothing else is.
    ensures faulty { IfErr result
        (λ e. e.cause ≡ saves.Disk → Rises (D.view disk).faults (D.view e.disk).faults) }
    ensures steady { MatchResult result
        (λ new. (D.view new).faults ≡ (D.view disk).faults)
        (λ e. (e.cause ≡ saves.Disk → ⊥) → (D.view e.disk).faults ≡ (D.view disk).faults) }
{
    let Some(len) = len_again(disk.room(), sheet) else {
        return Err(SaveFault {
            cause: SaveCause::Full,
            disk,
        });
    };
    let Ok(again) = again_of(alloc, sheet) else {
        return Err(SaveFault {
            cause: SaveCause::OutOfMemory,
            disk,
        });
    };
    let Ok(mut batch) = batch_of(alloc, len) else {
        return Err(SaveFault {
            cause: SaveCause::OutOfMemory,
            disk,
        });
    };
    lay_again(disk, &again, &mut batch)
}
