//! Making a journal's disk, and reading it.
ghost use Rattle.std.specs.Prelude.{◌≡◌, ◌≤◌, ◌<◌, [], List, ℕ, get_or, IfOk, IfErr, OnErr, OnOk, IsErrOf, MatchResult};
ghost use Rattle.disk_model.specs.Disk.{ChangesArea, InModel, Leaves, LeavesOnly, Looks, Reaches, SameDisk, Rises, Torn, area_of, bytes_on};
ghost use Rattle.journal.specs.Area.{HasHeader, created, end_of, first_gate, selector_at};
ghost use Rattle.journal.specs.Front.{ImageHasFront, TellsHeader};
ghost use Rattle.journal.specs.Kept.{ImageStandsFor, Keeps};
ghost use Rattle.journal.specs.inside.Active.{IsActive};
ghost use Rattle.journal.specs.inside.Reads.{Fails, Reads};
ghost use Rattle.journal.specs.inside.Walk.{LacksHeader};
ghost use Rattle.journal.specs.inside.Window.{IsDurable, IsOnActive, Shows};
ghost use Rattle.journal.specs.Open.{AreEmpty, Tells};
ghost use Rattle.journal.specs.declared.opening.CreateCause.TheVariants.{Disk as CreateDisk};
ghost use Rattle.journal.specs.declared.opening.OpenCause.TheVariants.{Disk as OpenDisk, OutOfMemory};

use crate::layout::NAMES_SECOND;
use crate::walk::{WalkEnd, selector_of, walk_gates};
use crate::window::Window;
use disk_model::{Area, Disk, DiskFault};
use std::alloc::{AllocError, AllocFailed, Global};

/// Why no journal was created.
#[derive(Clone, Copy, Debug, PartialEq, Eq)]
pub enum CreateCause {
    /// An area has a byte. Nothing was changed.
    NotEmpty,
    /// The disk failed.
    Disk,
}

impl From<DiskFault> for CreateCause {
    ghost from_gives = { λ _ e. e ≡ CreateDisk };

    fn from(_: DiskFault) -> Self {
        CreateCause::Disk
    }
}

/// A creation that was refused, and the disk.
#[derive(Drop)]
pub struct CreateFault<D: Disk> {
    /// Why it was refused.
    pub cause: CreateCause,
    /// The disk, as it stands.
    pub disk: D,
}

/// Why a disk couldn't be opened.
#[derive(Clone, Copy, Debug, PartialEq, Eq)]
pub enum OpenCause {
    /// After the open gate at this offset there is no record, or a payload that the layer above
    /// can't take. The records before it are whole.
    Damaged(u64),
    /// Area First, or Second where the selector in First names it, has fewer than 11 bytes or no header
    /// of this version.
    NotASheet,
    /// The disk failed.
    Disk,
    /// A growth was refused.
    OutOfMemory,
}

impl From<DiskFault> for OpenCause {
    ghost from_gives = { λ _ e. e ≡ OpenDisk };

    fn from(_: DiskFault) -> Self {
        OpenCause::Disk
    }
}

impl From<AllocError> for OpenCause {
    ghost from_gives = { λ _ e. e ≡ OutOfMemory };

    fn from(_: AllocError) -> Self {
        OpenCause::OutOfMemory
    }
}

impl<T: Drop> From<AllocFailed<T>> for OpenCause {
    ghost from_gives = { λ _ e. e ≡ OutOfMemory };

    fn from(_: AllocFailed<T>) -> Self {
        OpenCause::OutOfMemory
    }
}

/// Lays an empty journal on an empty disk of at least 11 bytes of room, and takes no memory
/// (docs/trust/FORMAT.md, "Create"). A disk of which an area has a byte is refused with `NotEmpty`. A
/// crash within the call may leave what doesn't open.
pub fn create<D: Disk>(disk: D) -> Result<D, CreateFault<D>>
    requires { 11 ≤ (D.view disk).room }

    ensures same { MatchResult result (λ d. SameDisk (D.view disk) (D.view d))
        (λ e. SameDisk (D.view disk) (D.view e.disk)) }

    // The journal is durable, and stands for no payload.
    ensures empty { InModel (D.view disk)
        (IfOk result (λ d. AreEmpty (bytes_on (D.view disk))
        × Keeps (D.view d).history first_gate [])) }

    ensures bytes { InModel (D.view disk)
        (IfOk result (λ d. bytes_on (D.view d) ≡ record { first = created; second = [] })) }

    ensures not_empty { InModel (D.view disk)
        (IfErr result (λ e. e.cause ≡ CreateCause.NotEmpty → (AreEmpty (bytes_on (D.view disk)) → ⊥)
        × Looks (D.view disk).history (D.view e.disk).history)) }

    // A disk that isn't empty is left as it was, whatever fails.
    ensures untouched { InModel (D.view disk)
        (IfErr result (λ e. (AreEmpty (bytes_on (D.view disk)) → ⊥)
        → Looks (D.view disk).history (D.view e.disk).history)) }

    // Whatever it answers, a crash at any moment of the call leaves the eleven bytes of area First
    // torn at most, and area Second untouched.
    ensures any_moment { InModel (D.view disk) (MatchResult result
        (λ d. LeavesOnly (Reaches (ChangesArea Area.First (Torn 0 11)) (D.view disk).history.now)
        (D.view disk).history (D.view d).history)
        (λ e. LeavesOnly (Reaches (ChangesArea Area.First (Torn 0 11)) (D.view disk).history.now)
        (D.view disk).history (D.view e.disk).history)) }

    // A failure of the disk is reported as one, and nothing else is.
    ensures faulty { IfErr result
        (λ e. e.cause ≡ CreateCause.Disk → Rises (D.view disk).faults (D.view e.disk).faults) }
    ensures steady { MatchResult result
        (λ d. (D.view d).faults ≡ (D.view disk).faults)
        (λ e. (e.cause ≡ CreateCause.Disk → ⊥) → (D.view e.disk).faults ≡ (D.view disk).faults) }
{
    let mut disk = disk;
    match lay(&mut disk) {
        Ok(()) => Ok(disk),
        Err(cause) => Err(CreateFault { cause, disk }),
    }
}

// Lays an empty journal on an empty disk.
fn lay<D: Disk>(disk: &mut D) -> Result<(), CreateCause>
    requires { 11 ≤ (D.view disk.old).room }
    ensures same { SameDisk (D.view disk.old) (D.view disk.new) }
    ensures empty { InModel (D.view disk.old)
        (OnOk result (AreEmpty (bytes_on (D.view disk.old))
        × Keeps (D.view disk.new).history first_gate [])) }
    ensures bytes { InModel (D.view disk.old)
        (OnOk result (bytes_on (D.view disk.new) ≡ record { first = created; second = [] })) }
    ensures not_empty { InModel (D.view disk.old)
        (IsErrOf result CreateCause.NotEmpty → (AreEmpty (bytes_on (D.view disk.old)) → ⊥)
        × Looks (D.view disk.old).history (D.view disk.new).history) }
    ensures untouched { InModel (D.view disk.old)
        ((AreEmpty (bytes_on (D.view disk.old)) → ⊥)
        → OnErr result (Looks (D.view disk.old).history (D.view disk.new).history)) }
    ensures any_moment { InModel (D.view disk.old)
        (LeavesOnly (Reaches (ChangesArea Area.First (Torn 0 11)) (D.view disk.old).history.now)
        (D.view disk.old).history (D.view disk.new).history) }
    ensures faulty { IsErrOf result CreateCause.Disk
        → Rises (D.view disk.old).faults (D.view disk.new).faults }
    ensures steady { (IsErrOf result CreateCause.Disk → ⊥)
        → (D.view disk.new).faults ≡ (D.view disk.old).faults }
{
    let first = disk.len(Area::First)?;
    if first != 0 {
        return Err(CreateCause::NotEmpty);
    }
    let second = disk.len(Area::Second)?;
    if second != 0 {
        return Err(CreateCause::NotEmpty);
    }
    disk.write_at(Area::First, 0, b"TMWSHEET\x01A\x00")?;
    disk.sync(Area::First)?;
    Ok(())
}

// A window on an area once it is durable, and the selector of its header.
fn durable<D: Disk>(alloc: Global, disk: &mut D, area: Area) -> Result<(Window, u8), OpenCause>
    ensures reads { Reads (Fails result) (D.view disk.old) (D.view disk.new) }
    ensures area { IfOk result (λ found. found.0.area ≡ area) }
    ensures some { IfOk result (λ found. first_gate < found.0.limit) }
    ensures header { InModel (D.view disk.old)
        (IfOk result (λ found. HasHeader (area_of area (bytes_on (D.view disk.old)))
        × (get_or (area_of area (bytes_on (D.view disk.old))) selector_at 0 ≡ found.1))) }
    ensures shows { InModel (D.view disk.old)
        (IfOk result (λ found. Shows found.0 (area_of area (bytes_on (D.view disk.old))))) }
    ensures durable { InModel (D.view disk.old)
        (OnOk result (Leaves (λ i. area_of area i ≡ area_of area (bytes_on (D.view disk.old)))
        (D.view disk.new).history.now)) }
    ensures fault { InModel (D.view disk.old)
        (IfErr result (LacksHeader (area_of area (bytes_on (D.view disk.old))))) }
{
    if let Err(DiskFault) = disk.sync(area) {
        return Err(OpenCause::Disk);
    }
    let len = match disk.len(area) {
        Ok(len) => len,
        Err(DiskFault) => return Err(OpenCause::Disk),
    };
    let mut window = Window::new(alloc, area, len);
    match selector_of(&mut window, disk) {
        Ok(selector) => Ok((window, selector)),
        Err(cause) => Err(cause),
    }
}

// A window on the active area, once that and area First are durable.
fn on_active<D: Disk>(alloc: Global, disk: &mut D) -> Result<Window, OpenCause>
    ensures reads { Reads (Fails result) (D.view disk.old) (D.view disk.new) }
    ensures some { IfOk result (λ window. first_gate < window.limit) }
    ensures found { InModel (D.view disk.old)
        (IfOk result (λ window. IsOnActive window (bytes_on (D.view disk.old))
        (D.view disk.new).history.now)) }
    ensures fault { InModel (D.view disk.old)
        (IfErr result (TellsHeader (bytes_on (D.view disk.old)))) }
{
    let (first, selector) = match durable(alloc, disk, Area::First) {
        Ok(found) => found,
        Err(cause) => return Err(cause),
    };
    if selector != NAMES_SECOND {
        return Ok(first);
    }
    match durable(alloc, disk, Area::Second) {
        Ok((second, _)) => Ok(second),
        Err(cause) => Err(cause),
    }
}

// A window on the active area, and where the walk over its gates ended. That area and area First are
// durable.
pub(crate) fn survey_front<D: Disk>(
    alloc: Global,
    disk: &mut D,
) -> Result<(Window, WalkEnd), OpenCause>
    ensures reads { Reads (Fails result) (D.view disk.old) (D.view disk.new) }
    ensures front { InModel (D.view disk.old)
        (IfOk result (λ found. (payloads : List (List ℕ))
        × ImageHasFront (bytes_on (D.view disk.old)) payloads found.1.damaged
        × (found.1.gate ≡ end_of payloads))) }
    ensures durable { InModel (D.view disk.old)
        (OnOk result (IsDurable (bytes_on (D.view disk.old)) (D.view disk.new).history.now)) }
    ensures active { InModel (D.view disk.old)
        (IfOk result (λ found. IsActive found.0.area (bytes_on (D.view disk.old)))) }
    ensures shows { InModel (D.view disk.old)
        (IfOk result (λ found. Shows found.0 (area_of found.0.area (bytes_on (D.view disk.old))))) }
    ensures inside { IfOk result
        (λ found. (first_gate ≤ found.1.gate) × (found.1.gate < found.0.limit)) }
    ensures fault { InModel (D.view disk.old)
        (IfErr result (TellsHeader (bytes_on (D.view disk.old)))) }
{
    let mut window = match on_active(alloc, disk) {
        Ok(window) => window,
        Err(cause) => return Err(cause),
    };
    match walk_gates(&mut window, disk) {
        Ok(stop) => Ok((window, stop)),
        Err(cause) => Err(cause),
    }
}

// A window on the active area, and the offset of the closed gate there. That area and area First are
// durable.
pub(crate) fn survey<D: Disk>(alloc: Global, disk: &mut D) -> Result<(Window, u64), OpenCause>
    ensures reads { Reads (Fails result) (D.view disk.old) (D.view disk.new) }
    ensures end { InModel (D.view disk.old)
        (IfOk result (λ found. (payloads : List (List ℕ))
        × ImageStandsFor (bytes_on (D.view disk.old)) payloads
        × Keeps (D.view disk.new).history found.1 payloads)) }
    ensures active { InModel (D.view disk.old)
        (IfOk result (λ found. IsActive found.0.area (bytes_on (D.view disk.old)))) }
    ensures shows { InModel (D.view disk.old)
        (IfOk result (λ found. Shows found.0 (area_of found.0.area (bytes_on (D.view disk.old))))) }
    ensures inside { IfOk result (λ found. (first_gate ≤ found.1) × (found.1 < found.0.limit)) }
    ensures fault { InModel (D.view disk.old) (IfErr result (Tells (bytes_on (D.view disk.old)))) }
{
    let (window, stop) = match survey_front(alloc, disk) {
        Ok(found) => found,
        Err(cause) => return Err(cause),
    };
    if stop.damaged {
        return Err(OpenCause::Damaged(stop.gate));
    }
    Ok((window, stop.gate))
}
