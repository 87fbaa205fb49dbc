//! What stands in a damaged worksheet before the damage, and the new worksheet that it is written to.
ghost use Rattle.std.specs.Prelude.{◌≡◌, ◌≤◌, Err, List, IfErr, OnOk, Some, false};
ghost use Rattle.std.specs.Io.KnownBytes.{Appends};
ghost use Rattle.recovery.specs.Sheets.{Makes};
ghost use Rattle.offline_programs.specs.Rescue as printed;
ghost use Rattle.offline_programs.specs.Rescue.{FrontIsRead, RescueIsSaved, front_answer, front_disk};
ghost use Rattle.offline_programs.specs.declared.fault.RunFault.TheVariants as fault;
ghost use Rattle.offline_programs.specs.declared.rescuing.RescueFault.TheVariants as rescues;
ghost use Rattle.worksheet.specs.declared.op.Op.{Op};

use crate::{Message, RunFault, Says};
use disk_model::Disk;
use host_events::HostFault;
use journal::{OpenCause, OpenFault};
use recovery::{Rescued, SaveCause, SaveFault, rescue, save};
use sheet_text::WriteFault;
use std::alloc::Global;
use std::io::Write;
use thiserror::Error;

/// Why what was rescued wasn't written, or not reported.
#[derive(Clone, Copy, Debug, PartialEq, Eq, Error)]
pub enum RescueFault {
    /// 34: something is where the new worksheet should be. Nothing was changed.
    #[error("the new worksheet isn't empty")]
    NotEmpty,
    /// 32 or 33: the new disk failed, or memory was refused. 23: the worksheet doesn't fit in a file. 42:
    /// the writer failed, and the new worksheet is whole.
    #[error("the new worksheet was not written")]
    Run(RunFault),
}

/// Why nothing was read that could be rescued, and the disk.
#[derive(Drop)]
pub struct FrontFault<D: Disk> {
    /// Why nothing was read.
    pub fault: RunFault,
    /// The disk, on which reads alone were made.
    pub disk: D,
}

/// What stands on a worksheet's disk before its first damage. It changes no byte of it.
///
/// `Open` where the disk has no header, where it fails, or memory is refused. Damage is no fault here.
#[tactic(auto, using(crate::proofs::Headers::header_reported))]
pub fn read_front<D: Disk>(alloc: Global, disk: D) -> Result<Rescued<D>, FrontFault<D>>
    ensures { FrontIsRead D.view disk (front_disk result) (front_answer result) }
{
    match rescue(alloc, disk) {
        Ok(found) => Ok(found),
        Err(OpenFault { cause, disk }) => Err(FrontFault {
            fault: RunFault::Open(cause),
            disk,
        }),
    }
}

fn save_fault(cause: SaveCause) -> RescueFault
    ensures { result ≡ printed.save_fault cause }
{
    match cause {
        SaveCause::NotEmpty => RescueFault::NotEmpty,
        SaveCause::Full => RescueFault::Run(RunFault::Host(HostFault::JournalFull)),
        SaveCause::OutOfMemory => RescueFault::Run(RunFault::Open(OpenCause::OutOfMemory)),
        SaveCause::Disk => RescueFault::Run(RunFault::Open(OpenCause::Disk)),
    }
}

/// How many ops were kept, and the offset of the gate where the damage is.
#[derive(Clone, Copy)]
struct Kept {
    ops: u64,
    damage: Option<u64>,
}

impl Message for Kept {
    ghost text = { λ kept. Some (printed.kept_text kept.ops kept.damage) };

    fn write<W: Write>(&self, out: &mut W) -> Result<(), WriteFault> {
        let kept = self.ops;
        match self.damage {
            Some(gate) => writeln!(out, "kept {kept}, damaged at {gate}"),
            None => writeln!(out, "kept {kept}, whole"),
        }
        .map_err(|_| WriteFault)
    }
}

/// Tells on a line how many ops were kept, and where the damage is.
fn tell_kept<W: Says>(kept: u64, damage: Option<u64>, writer: &mut W) -> Result<(), RescueFault>
    ensures reported { OnOk result
        (Appends (W.contents writer.old) (W.contents writer.new) (printed.kept_text kept damage)) }
    ensures unsaid { IfErr result (λ e. (e ≡ rescues.Run fault.Output)
        × W.tried writer.old (Some (printed.kept_text kept damage)) false writer.new) }
{
    if writer.say(&Kept { ops: kept, damage }) {
        Ok(())
    } else {
        Err(RescueFault::Run(RunFault::Output))
    }
}

/// What the writing of a new worksheet answers, and the disk that it was given.
#[derive(Drop)]
pub struct Saved<D: Disk> {
    /// The disk, as it stands.
    pub disk: D,
    /// Nothing, or why the worksheet wasn't written, or not reported.
    pub answer: Result<(), RescueFault>,
}

/// Writes what was rescued to an empty disk of at least 11 bytes of room, and then tells on a line of
/// `writer` how much it is: `kept N, whole`, or `kept N, damaged at OFFSET`.
pub fn save_rescued<D: Disk, N: Disk, W: Says>(
    alloc: Global,
    found: &Rescued<D>,
    disk: N,
    writer: &mut W,
) -> Saved<N>
    requires room { 11 ≤ (N.view disk).room }
    requires made { (ops : List Op) × Makes ops found.now.sheet.contents }
    ensures saved { RescueIsSaved (N.view disk) (N.view result.disk)
        found.now.sheet.contents result.answer }
    ensures reported { OnOk result.answer
        (Appends (W.contents writer.old) (W.contents writer.new)
        (printed.kept_text found.now.kept found.now.damage)) }
    ensures withheld { IfErr result.answer
        (λ e. (e ≡ rescues.Run fault.Output → ⊥) → writer.new ≡ writer.old) }
    ensures unsaid { result.answer ≡ Err (rescues.Run fault.Output)
        → W.tried writer.old (Some (printed.kept_text found.now.kept found.now.damage)) false
        writer.new }
{
    match save(alloc, disk, &found.sheet) {
        Ok(disk) => Saved {
            disk,
            answer: tell_kept(found.kept, found.damage, writer),
        },
        Err(SaveFault { cause, disk }) => Saved {
            disk,
            answer: Err(save_fault(cause)),
        },
    }
}
