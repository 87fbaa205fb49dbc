//! The calls on the disk that add records.
ghost use Rattle.std.specs.Prelude.{◌≡◌, ◌<◌, ◌≤◌, ◌+◌, ◌++◌, ◌∷◌, [], List, ℕ, length, OnOk};
ghost use Rattle.disk_model.specs.Disk.{InModel, Called, LeavesOnly, area_of, greatest_room, other_area, overwritten, bytes_on};
ghost use Rattle.journal.specs.Area.{ArePayloads, body_of, closed_gate, first_gate, IsPayload, open_gate, records};
ghost use Rattle.journal.specs.Kept.{Keeps, BeforeOrAfter, BeforeOrAll};
ghost use Rattle.journal.specs.inside.Active.{HasEnd, IsActive};
ghost use Rattle.journal.specs.Limits.{longest_payload};

use crate::layout::OPEN_GATE;
use disk_model::{Area, Disk, DiskFault};

/// Writes the bytes of records after the closed gate at `end` of the active area, all but their first
/// gate, and opens that gate once they are durable.
pub(crate) fn add<D: Disk>(
    disk: &mut D,
    active: Area,
    end: u64,
    bytes: &[u8],
) -> Result<(), DiskFault>
    requires room { end + length bytes.now + 1 ≤ greatest_room }
    requires gate { first_gate ≤ end }
    requires inside { InModel (D.view disk.old)
        (HasEnd active end (bytes_on (D.view disk.old))
        × (end + 1 + length bytes.now ≤ (D.view disk.old).room)) }

    ensures called { Called result (D.view disk.old) (D.view disk.new) }
    ensures other { InModel (D.view disk.old)
        (area_of (other_area active) (bytes_on (D.view disk.new))
        ≡ area_of (other_area active) (bytes_on (D.view disk.old))) }
    ensures active { InModel (D.view disk.old) (IsActive active (bytes_on (D.view disk.new))) }
    ensures written { OnOk result
        (InModel (D.view disk.old)
        (area_of active (bytes_on (D.view disk.new)) ≡ overwritten
        (area_of active (bytes_on (D.view disk.old))) end (open_gate ∷ bytes.now))) }
    ensures inside { OnOk result
        (InModel (D.view disk.old)
        (HasEnd active (end + length bytes.now) (bytes_on (D.view disk.new)))) }

    ensures any_moment { InModel (D.view disk.old)
        ((payloads more : List (List ℕ)) → ArePayloads longest_payload more
        → open_gate ∷ bytes.now ≡ records more ++ closed_gate ∷ []
        → Keeps (D.view disk.old).history end payloads
        → LeavesOnly (BeforeOrAll (D.view disk.old).history.now payloads more)
        (D.view disk.old).history (D.view disk.new).history) }
    ensures acknowledged { OnOk result
        (InModel (D.view disk.old)
        ((payloads more : List (List ℕ)) → ArePayloads longest_payload more
        → open_gate ∷ bytes.now ≡ records more ++ closed_gate ∷ []
        → Keeps (D.view disk.old).history end payloads
        → Keeps (D.view disk.new).history (end + length bytes.now) (payloads ++ more))) }
{
    disk.write_at(active, end + 1, bytes)?;
    disk.sync(active)?;
    disk.write_at(active, end, &[OPEN_GATE])?;
    disk.sync(active)?;
    Ok(())
}

/// Writes the bytes of a frame, one record, as [`add`] does those of many: a crash leaves the payloads
/// before it, or those with this one. It is [`add`], and a function for that clause.
pub(crate) fn add_one<D: Disk>(
    disk: &mut D,
    active: Area,
    end: u64,
    bytes: &[u8],
) -> Result<(), DiskFault>
    requires room { end + length bytes.now + 1 ≤ greatest_room }
    requires gate { first_gate ≤ end }
    requires inside { InModel (D.view disk.old)
        (HasEnd active end (bytes_on (D.view disk.old))
        × (end + 1 + length bytes.now ≤ (D.view disk.old).room)) }

    ensures called { Called result (D.view disk.old) (D.view disk.new) }
    ensures other { InModel (D.view disk.old)
        (area_of (other_area active) (bytes_on (D.view disk.new))
        ≡ area_of (other_area active) (bytes_on (D.view disk.old))) }
    ensures active { InModel (D.view disk.old) (IsActive active (bytes_on (D.view disk.new))) }
    ensures written { OnOk result
        (InModel (D.view disk.old)
        (area_of active (bytes_on (D.view disk.new)) ≡ overwritten
        (area_of active (bytes_on (D.view disk.old))) end (open_gate ∷ bytes.now))) }
    ensures inside { OnOk result
        (InModel (D.view disk.old)
        (HasEnd active (end + length bytes.now) (bytes_on (D.view disk.new)))) }

    ensures any_moment { InModel (D.view disk.old)
        ((payloads : List (List ℕ)) (payload : List ℕ) → IsPayload longest_payload payload
        → bytes.now ≡ body_of payload ++ closed_gate ∷ []
        → Keeps (D.view disk.old).history end payloads
        → LeavesOnly (BeforeOrAfter (D.view disk.old).history.now payloads payload)
        (D.view disk.old).history (D.view disk.new).history) }
    ensures acknowledged { OnOk result
        (InModel (D.view disk.old)
        ((payloads : List (List ℕ)) (payload : List ℕ) → IsPayload longest_payload payload
        → bytes.now ≡ body_of payload ++ closed_gate ∷ []
        → Keeps (D.view disk.old).history end payloads
        → Keeps (D.view disk.new).history (end + length bytes.now) (payloads ++ payload ∷ []))) }
{
    add(disk, active, end, bytes)
}
