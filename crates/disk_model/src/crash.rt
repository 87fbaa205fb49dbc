//! The image that a crash leaves by a choice.
ghost use Rattle.std.specs.Prelude.{◌≡◌, ◌≤◌, ◌<◌, ◌+◌, ◌^◌, length, IfOk, OnOk};
ghost use Rattle.disk_model.specs.Disk.{DiskState, History, state_of};
ghost use Rattle.disk_model.specs.Crash.{laid, image_of};
ghost use Rattle.disk_model.specs.Calls.{settled, history_after, step};

use crate::Area;
use crate::memory::{Call, overwrite};
use std::alloc::{AllocError, Global};

/// What the range of a write holds that no later sync of its area has brought onto the disk.
#[derive(Clone, Copy, Debug, PartialEq, Eq)]
pub enum Fill {
    /// What stood there before the write.
    Old,
    /// What was written.
    New,
    /// So many bytes of what was written, and then what stood there.
    Torn(u64),
    /// This byte throughout.
    Byte(u8),
}

/// A crash after the first `moment` calls (docs/trust/FORMAT.md, "Crashes in tests").
///
/// In each area, on what its last sync left, its later writes stand in the order of their calls,
/// each with its range filled by `fill`; bytes that never were are 0. An area has the length that
/// these writes gave it where `grown`, else the length that the sync left.
#[derive(Clone, Copy, Debug, PartialEq, Eq)]
pub struct Choice {
    /// How many calls had been made.
    pub moment: u64,
    /// What the ranges of pending writes hold.
    pub fill: Fill,
    /// Whether an area has its new length.
    pub grown: bool,
}

// An area while its calls are gone through.
#[derive(Drop)]
struct Drawing {
    alloc: Global,
    fill: Fill,
    content: Vec<u8>,
    image: Vec<u8>,
    synced_len: usize,
}

impl Drawing {
    ghost use Rattle.disk_model.specs.Disk.{AreaState, DiskState};
    ghost use Rattle.disk_model.specs.Calls.{after_write, after_sync};
    ghost use Rattle.disk_model.specs.inside.Drawing.{Draws, IsEven};

    fn write(&mut self, offset: u64, bytes: &[u8]) -> Result<(), AllocError>
        requires { IsEven self.old }
        ensures fill { self.new.fill ≡ self.old.fill }
        ensures level { OnOk result (IsEven self.new) }
        ensures draws { OnOk result
            ((a : AreaState) → Draws self.old a → Draws self.new (after_write offset bytes.now a)) }
    {
        let at = offset as usize;
        if at > self.content.len() {
            return Ok(());
        }
        overwrite(&mut self.content, at, bytes)?;
        lay(&mut self.image, at, bytes, self.fill)
    }

    fn sync(&mut self) -> Result<(), AllocError>
        ensures fill { self.new.fill ≡ self.old.fill }
        ensures level { OnOk result (IsEven self.new) }
        ensures draws { OnOk result
            ((a : AreaState) → Draws self.old a → Draws self.new (after_sync a)) }
    {
        self.image = Vec::from_slice(self.alloc, &self.content)?;
        self.synced_len = self.content.len();
        Ok(())
    }

    // Goes through one call more.
    fn follow(&mut self, call: &Call, area: Area) -> Result<(), AllocError>
        requires { IsEven self.old }
        ensures fill { self.new.fill ≡ self.old.fill }
        ensures level { OnOk result (IsEven self.new) }
        ensures draws { OnOk result
            ((s : DiskState) → Draws self.old (state_of area s)
            → Draws self.new (state_of area (step s call.now))) }
    {
        match call {
            Call::Write(written, offset, bytes) => {
                if *written == area {
                    self.write(*offset, bytes)?;
                }
            }
            Call::Sync(synced) => {
                if *synced == area {
                    self.sync()?;
                }
            }
            Call::Look => {}
        }
        Ok(())
    }
}

// What a write leaves by this fill. Bytes that never were are 0.
fn lay(image: &mut Vec<u8>, at: usize, bytes: &[u8], fill: Fill) -> Result<(), AllocError>
    requires inside { at ≤ length image.old.items }
    requires small { at + length bytes.now < 2 ^ 64 }
    ensures { OnOk result (image.new.items ≡ laid fill
        (record { at = at; bytes = bytes.now }) image.old.items) }
{
    let end = at + bytes.len();
    if end > image.len() {
        image.resize(end, 0)?;
    }
    match fill {
        Fill::Old => {}
        Fill::New => image[at..end].copy_from_slice(bytes),
        Fill::Torn(kept) => {
            let kept = bytes.len().min(kept as usize);
            image[at..at + kept].copy_from_slice(&bytes[..kept]);
        }
        Fill::Byte(byte) => image[at..end].fill(byte),
    }
    Ok(())
}

/// What a crash after these calls leaves of an area that was made with the bytes `start`.
pub(crate) fn area_image(
    alloc: Global,
    start: &[u8],
    calls: &[Call],
    area: Area,
    choice: &Choice,
) -> Result<Vec<u8>, AllocError>
    ensures { IfOk result (λ image. (h : History) → state_of area h.now ≡ settled start.now
        → image.items ≡ image_of choice.now.fill choice.now.grown
        (state_of area (history_after h calls.now).now)) }
{
    let mut drawing = Drawing {
        alloc,
        fill: choice.fill,
        content: start.to_vec(alloc)?,
        image: start.to_vec(alloc)?,
        synced_len: start.len(),
    };
    for call in calls {
        drawing.follow(call, area)?;
    }
    let Drawing {
        mut image,
        synced_len,
        ..
    } = drawing;
    if !choice.grown {
        image.truncate(synced_len);
    }
    Ok(image)
}
