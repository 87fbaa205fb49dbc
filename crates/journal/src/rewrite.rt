//! The calls on the disk that rewrite a journal.
ghost use Rattle.std.specs.Prelude.{◌≡◌, ◌<◌, ◌≤◌, ◌+◌, ◌++◌, ◌∷◌, [], List, ℕ, length, IfNone, IfSome, OnOk};
ghost use Rattle.disk_model.specs.Disk.{InModel, Called, Leaves, LeavesOnly, area_of, bytes_on, greatest_room, other_area};
ghost use Rattle.journal.specs.Area.{HasHeader, IsPayload, StandsFor, body_of, closed_gate, end_of, first_gate};
ghost use Rattle.journal.specs.Kept.{EitherStands, FitsAgain, Keeps};
ghost use Rattle.journal.specs.Limits.{longest_payload};
ghost use Rattle.journal.specs.inside.Active.{HasEnd, IsActive};
ghost use Rattle.journal.specs.inside.Again.{IsReadyToActivate, SparedBy, Spares, naming};

use crate::Frame;
use crate::layout::{EMPTY_LEN, FIRST_GATE, NAMES_SECOND, OPEN_GATE, SELECTOR};
use disk_model::{Area, Disk, DiskFault};

/// The area that this one isn't.
pub(crate) fn other(area: Area) -> Area
    ensures { result ≡ other_area area }
{
    match area {
        Area::First => Area::Second,
        Area::Second => Area::First,
    }
}

/// The offset of the closed gate after the records of these frames, where an area has room for them.
pub(crate) fn end_of_frames(room: u64, frames: &[Frame]) -> Option<u64>
    requires { room ≤ greatest_room }
    ensures some { IfSome result (λ end. (end ≡ end_of frames.now) × (end + 1 ≤ room)) }
    ensures none { IfNone result (FitsAgain room frames.now → ⊥) }
{
    if room < EMPTY_LEN {
        return None;
    }
    let mut end = FIRST_GATE;
    for frame in frames {
        let len = 5 + frame.payload_len();
        if room - 1 - end < len {
            return None;
        }
        end += len;
    }
    Some(end)
}

/// Lays no record into an area: a closed gate, after the header of area First, or a header in area Second.
pub(crate) fn lay_none<D: Disk>(disk: &mut D, area: Area) -> Result<(), DiskFault>
    requires room { InModel (D.view disk.old) (first_gate + 1 ≤ (D.view disk.old).room) }
    requires headed { InModel (D.view disk.old) (first_gate < length
        (bytes_on (D.view disk.old)).first) }
    ensures called { Called result (D.view disk.old) (D.view disk.new) }
    ensures spared { InModel (D.view disk.old)
        (SparedBy area (bytes_on (D.view disk.old)) (bytes_on (D.view disk.new))) }
    ensures moments { InModel (D.view disk.old)
        (LeavesOnly (Spares area (D.view disk.old).history.now) (D.view disk.old).history
        (D.view disk.new).history) }
    ensures inside { OnOk result
        (InModel (D.view disk.old) (first_gate < length (area_of area
        (bytes_on (D.view disk.new))))) }
    ensures laid { OnOk result
        (InModel (D.view disk.old)
        (HasHeader (bytes_on (D.view disk.old)).first
        → StandsFor longest_payload (area_of area (bytes_on (D.view disk.new))) [])) }
{
    match area {
        Area::First => disk.write_at(Area::First, FIRST_GATE, &[0]),
        Area::Second => disk.write_at(Area::Second, 0, b"TMWSHEET\x01\x00\x00"),
    }
}

// Lays a record after the closed gate at `end`, and opens that gate. Nothing is durable yet.
fn lay_record<D: Disk>(disk: &mut D, area: Area, end: u64, bytes: &[u8]) -> Result<(), DiskFault>
    requires room { end + length bytes.now + 1 ≤ greatest_room }
    requires gate { first_gate ≤ end }
    requires inside { InModel (D.view disk.old)
        ((end < length (area_of area (bytes_on (D.view disk.old))))
        × (end + 1 + length bytes.now ≤ (D.view disk.old).room)) }
    ensures called { Called result (D.view disk.old) (D.view disk.new) }
    ensures spared { InModel (D.view disk.old)
        (SparedBy area (bytes_on (D.view disk.old)) (bytes_on (D.view disk.new))) }
    ensures moments { InModel (D.view disk.old)
        (LeavesOnly (Spares area (D.view disk.old).history.now) (D.view disk.old).history
        (D.view disk.new).history) }
    ensures inside { OnOk result
        (InModel (D.view disk.old)
        (end + length bytes.now < length (area_of area (bytes_on (D.view disk.new))))) }
    ensures laid { OnOk result
        (InModel (D.view disk.old)
        ((payloads : List (List ℕ)) (payload : List ℕ) → IsPayload longest_payload payload
        → bytes.now ≡ body_of payload ++ closed_gate ∷ [] → end ≡ end_of payloads
        → StandsFor longest_payload (area_of area (bytes_on (D.view disk.old))) payloads
        → StandsFor longest_payload (area_of area (bytes_on (D.view disk.new)))
        (payloads ++ payload ∷ []))) }
{
    disk.write_at(area, end + 1, bytes)?;
    disk.write_at(area, end, &[OPEN_GATE])?;
    Ok(())
}

// Lays these frames into an area that isn't active, which is durable then.
fn lay_all<D: Disk>(disk: &mut D, area: Area, frames: &[Frame]) -> Result<(), DiskFault>
    requires small { end_of frames.now + 1 ≤ greatest_room }
    requires room { InModel (D.view disk.old) (FitsAgain (D.view disk.old).room frames.now) }
    requires headed { InModel (D.view disk.old) (first_gate < length
        (bytes_on (D.view disk.old)).first) }
    ensures called { Called result (D.view disk.old) (D.view disk.new) }
    ensures spared { InModel (D.view disk.old)
        (SparedBy area (bytes_on (D.view disk.old)) (bytes_on (D.view disk.new))) }
    ensures moments { InModel (D.view disk.old)
        (LeavesOnly (Spares area (D.view disk.old).history.now) (D.view disk.old).history
        (D.view disk.new).history) }
    ensures inside { OnOk result
        (InModel (D.view disk.old)
        (end_of frames.now < length (area_of area (bytes_on (D.view disk.new))))) }
    ensures laid { OnOk result
        (InModel (D.view disk.old)
        (HasHeader (bytes_on (D.view disk.old)).first
        → StandsFor longest_payload (area_of area (bytes_on (D.view disk.new))) frames.now)) }
    ensures durable { OnOk result
        (InModel (D.view disk.old)
        (Leaves (λ i. area_of area i ≡ area_of area (bytes_on (D.view disk.new)))
        (D.view disk.new).history.now)) }
{
    lay_none(disk, area)?;
    let mut end = FIRST_GATE;
    for frame in frames {
        let bytes = frame.bytes();
        lay_record(disk, area, end, bytes)?;
        end += bytes.len() as u64;
    }
    disk.sync(area)?;
    Ok(())
}

// The selector that names an area.
fn selector_naming(area: Area) -> u8
    ensures { result ≡ naming area }
{
    match area {
        Area::First => b'A',
        Area::Second => NAMES_SECOND,
    }
}

/// Names an area as the active one.
pub(crate) fn activate<D: Disk>(disk: &mut D, area: Area) -> Result<(), DiskFault>
    requires room { InModel (D.view disk.old) (first_gate ≤ (D.view disk.old).room) }
    requires headed { InModel (D.view disk.old) (first_gate < length
        (bytes_on (D.view disk.old)).first) }
    ensures called { Called result (D.view disk.old) (D.view disk.new) }
    ensures active { OnOk result
        (InModel (D.view disk.old) (IsActive area (bytes_on (D.view disk.new)))) }
    ensures inside { (n : ℕ) → n < length (area_of area (bytes_on (D.view disk.old)))
        → OnOk result (InModel (D.view disk.old) (n < length (area_of area
        (bytes_on (D.view disk.new))))) }
    ensures any_moment { InModel (D.view disk.old)
        ((before payloads : List (List ℕ))
        → IsReadyToActivate area before payloads (D.view disk.old).history
        → LeavesOnly (EitherStands before payloads) (D.view disk.old).history
        (D.view disk.new).history) }
    ensures acknowledged { OnOk result
        (InModel (D.view disk.old)
        ((before payloads : List (List ℕ))
        → IsReadyToActivate area before payloads (D.view disk.old).history
        → Keeps (D.view disk.new).history (end_of payloads) payloads)) }
{
    disk.write_at(Area::First, SELECTOR, &[selector_naming(area)])?;
    disk.sync(Area::First)?;
    Ok(())
}

/// Writes these frames into an area that isn't active, and makes it the active one.
pub(crate) fn write_again<D: Disk>(
    disk: &mut D,
    area: Area,
    frames: &[Frame],
) -> Result<(), DiskFault>
    requires small { end_of frames.now + 1 ≤ greatest_room }
    requires room { InModel (D.view disk.old) (FitsAgain (D.view disk.old).room frames.now) }
    requires active { InModel (D.view disk.old)
        (IsActive (other_area area) (bytes_on (D.view disk.old))) }
    ensures called { Called result (D.view disk.old) (D.view disk.new) }
    ensures inside { OnOk result
        (InModel (D.view disk.old)
        (HasEnd area (end_of frames.now) (bytes_on (D.view disk.new)))) }
    ensures any_moment { InModel (D.view disk.old)
        ((end : ℕ) (payloads : List (List ℕ)) → Keeps (D.view disk.old).history end payloads
        → LeavesOnly (EitherStands payloads frames.now) (D.view disk.old).history
        (D.view disk.new).history) }
    ensures acknowledged { OnOk result
        (InModel (D.view disk.old)
        ((end : ℕ) (payloads : List (List ℕ)) → Keeps (D.view disk.old).history end payloads
        → Keeps (D.view disk.new).history (end_of frames.now) frames.now)) }
{
    lay_all(disk, area, frames)?;
    activate(disk, area)?;
    Ok(())
}
