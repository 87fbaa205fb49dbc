//! The list of the changes of a journal.
ghost use Rattle.std.specs.Prelude.{◌≡◌, ◌≤◌, [], Err, List, ℕ, IfErr, IsErrOf, OnOk};
ghost use Rattle.std.specs.Io.KnownBytes.{Appends};
ghost use Rattle.disk_model.specs.Disk.{InModel, Looks, Rises, SameDisk, bytes_on, greatest_room};
ghost use Rattle.journal.specs.Area.{IsPayload, first_gate};
ghost use Rattle.journal.specs.Front.{HasGivenFront};
ghost use Rattle.journal.specs.Limits.{longest_payload};
ghost use Rattle.journal.specs.declared.opening.OpenCause.TheVariants as opens;
ghost use Rattle.offline_programs.specs.declared.fault.RunFault.TheVariants as reported;
ghost use Rattle.past.specs.History.{TellsList, change_line};
ghost use Rattle.past.specs.inside.Listing.{RefusesToList, list_answer};
ghost use Rattle.recovery.specs.Sheets.{Makes};
ghost use Rattle.recovery.specs.inside.Taken.{TakesOps};
ghost use Rattle.worksheet.specs.declared.op.Op.{Op};

use crate::changes::{do_op, op_of, write_line};
use disk_model::Disk;
use journal::{Front, InFront, OpenCause, OpenFault, Payload};
use offline_programs::RunFault;
use std::alloc::Global;
use std::io::Write;
use worksheet::Sheet;

/// What a list of changes answers, and the disk that it was given.
#[derive(Drop)]
pub struct Listed<D: Disk> {
    /// The disk, on which reads alone were made.
    pub disk: D,
    /// Nothing, or why no more was listed.
    pub answer: Result<(), RunFault>,
}

/// Writes the line of the change that a payload is, and does it.
fn list_one<W: Write>(
    alloc: Global,
    sheet: &mut Sheet,
    number: u64,
    payload: &Payload,
    writer: &mut W,
) -> Result<(), RunFault>
    requires { IsPayload longest_payload payload.now.bytes }
    ensures taken { (ops : List Op) → Makes ops sheet.old.contents
        → OnOk result ((takes : TakesOps ops payload.now.bytes sheet.new.contents)
        × Appends (W.contents writer.old) (W.contents writer.new)
        (change_line number sheet.old.contents.next takes.next)) }
    ensures refused { (ops : List Op) → Makes ops sheet.old.contents
        → IfErr result (RefusesToList ops payload.now (writer.new ≡ writer.old)
        (λ op. Appends (W.contents writer.old) (W.contents writer.new)
        (change_line number sheet.old.contents.next op))) }
    ensures passing { IsErrOf result (reported.Open opens.Disk) → ⊥ }
{
    let op = match op_of(alloc, sheet, payload) {
        Ok(op) => op,
        Err(cause) => return Err(RunFault::Open(cause)),
    };
    if let Err(_) = write_line(number, &op, sheet.next_id(), writer) {
        return Err(RunFault::Output);
    }
    match do_op(sheet, op) {
        Ok(()) => Ok(()),
        Err(cause) => Err(RunFault::Open(cause)),
    }
}

/// How a list ends where all changes before the first damage were listed.
fn whole_or(damage: Option<u64>) -> Result<(), RunFault>
    ensures { result ≡ list_answer damage }
{
    match damage {
        None => Ok(()),
        Some(gate) => Err(RunFault::Open(OpenCause::Damaged(gate))),
    }
}

/// How a list ends where the disk isn't read further.
fn not_read<D: Disk>(fault: OpenFault<D>) -> Listed<D>
    ensures { result ≡ record { disk = fault.disk; answer = Err (reported.Open fault.cause) } }
{
    let OpenFault { cause, disk } = fault;
    Listed {
        disk,
        answer: Err(RunFault::Open(cause)),
    }
}

/// Lists what a front gives that has given nothing.
fn list_front<D: Disk, W: Write>(alloc: Global, front: Front<D>, writer: &mut W) -> Listed<D>
    requires first { front.gate ≡ first_gate }
    requires end { front.gate ≤ front.end }
    requires small { front.end ≤ greatest_room }
    ensures same { SameDisk front.disk (D.view result.disk) }
    ensures listed { InModel front.disk ((payloads : List (List ℕ)) → HasGivenFront front []
        payloads
        → TellsList (bytes_on front.disk) (Appends (W.contents writer.old) (W.contents writer.new))
        (writer.new ≡ writer.old) result.answer) }
    ensures looks { InModel front.disk (Looks front.disk.history (D.view result.disk).history) }
    ensures failed { IsErrOf result.answer (reported.Open opens.Disk)
        → Rises front.disk.faults (D.view result.disk).faults }
    ensures steady { (IsErrOf result.answer (reported.Open opens.Disk) → ⊥)
        → (D.view result.disk).faults ≡ front.disk.faults }
{
    let mut front = front;
    let mut sheet = Sheet::new(alloc);
    let mut count = 0;
    loop {
        match front.next() {
            Ok(InFront::Payload(following, payload)) => {
                if let Err(fault) = list_one(alloc, &mut sheet, count + 1, &payload, writer) {
                    return Listed {
                        disk: following.into_disk(),
                        answer: Err(fault),
                    };
                }
                front = following;
                count += 1;
            }
            Ok(InFront::End(disk, damage)) => {
                return Listed {
                    disk,
                    answer: whole_or(damage),
                };
            }
            Err(fault) => return not_read(fault),
        }
    }
}

/// Writes a line for each change that stands on a disk before its first damage: its number, from 1, and
/// what it was. It changes no byte.
///
/// `Damaged` where there is a damage: what stands before it was listed.
pub fn list_changes<D: Disk, W: Write>(alloc: Global, disk: D, writer: &mut W) -> Listed<D>
    ensures listed { InModel (D.view disk) (TellsList (bytes_on (D.view disk))
        (Appends (W.contents writer.old) (W.contents writer.new)) (writer.new ≡ writer.old)
        result.answer) }

    // It changes no byte, and at every moment each image is one that a crash could leave at the start.
    ensures same { SameDisk (D.view disk) (D.view result.disk) }
    ensures looks { InModel (D.view disk)
        (Looks (D.view disk).history (D.view result.disk).history) }

    // That the disk failed is reported only where it did.
    ensures failed { IsErrOf result.answer (reported.Open opens.Disk)
        → Rises (D.view disk).faults (D.view result.disk).faults }

    // Where anything else is answered, no call of the disk failed.
    ensures steady { (IsErrOf result.answer (reported.Open opens.Disk) → ⊥)
        → (D.view result.disk).faults ≡ (D.view disk).faults }
{
    match Front::begin(alloc, disk) {
        Ok(front) => list_front(alloc, front, writer),
        Err(fault) => not_read(fault),
    }
}
