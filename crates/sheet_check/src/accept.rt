//! How an answer is put into a worksheet.
ghost use Rattle.std.specs.Prelude.{◌≡◌, ◌≤◌, List, false, length, true};
ghost use Rattle.disk_model.specs.Disk.{DiskView};
ghost use Rattle.worksheet.specs.declared.op.Op.{Op};
ghost use Rattle.worksheet.specs.Checks.{has_field};
ghost use Rattle.worksheet.specs.Limits.{longest_kept_prompt};
ghost use Rattle.sheet_check.specs.Kept.{PutsOne, Stores, answer_op};
ghost use Rattle.sheet_check.specs.inside.Faults.{fault_for};

use disk_model::Disk;
use recovery::{CommitFault, Store};
use worksheet::{Answer, Op};

/// Why an answer wasn't accepted.
#[derive(Clone, Copy, Debug, PartialEq, Eq)]
pub enum PutFault {
    /// It doesn't fit on the disk. Nothing was changed.
    Full,
    /// A growth was refused. Nothing was changed.
    OutOfMemory,
    /// The disk failed. The answer may be on it or not.
    Disk,
}

/// Why an answer wasn't accepted, by why its op wasn't committed.
fn fault_of(fault: &CommitFault) -> PutFault
    ensures { result ≡ fault_for fault.now }
{
    match fault {
        CommitFault::Full(_) => PutFault::Full,
        CommitFault::OutOfMemory(_) => PutFault::OutOfMemory,
        CommitFault::Disk | CommitFault::Closed => PutFault::Disk,
    }
}

/// Puts an answer into a field of a worksheet, in place of what it shows. It is durable before this
/// returns.
pub fn accept<D: Disk>(store: &mut Store<D>, id: u32, answer: Answer) -> Result<(), PutFault>
    requires open { store.old.closed ≡ false }
    requires there { has_field store.old.sheet.contents id ≡ true }
    requires short { length answer.prompt ≤ longest_kept_prompt }
    ensures written { store.old.gathers ≡ false → store.new.gathers ≡ false }
    ensures puts { (ops more : List Op) → (disk : DiskView) → Stores ops more disk store.old
        → PutsOne ops more disk (answer_op id answer) store.new result }
{
    let Answer { prompt, output } = answer;
    match store.commit(Op::Answer { id, prompt, output }) {
        Ok(()) => Ok(()),
        Err(fault) => {
            let why = fault_of(&fault);
            drop(fault);
            Err(why)
        }
    }
}
