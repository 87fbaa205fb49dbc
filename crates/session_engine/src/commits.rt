//! What the store does for an event.
ghost use Rattle.std.specs.Prelude.{◌≡◌, false, true, List, IfOk, IfErr, IsErrOf, OnOk, OnErr};
ghost use Rattle.disk_model.specs.Disk.{InModel, LeavesOnly, Rises, SameDisk};
ghost use Rattle.worksheet.specs.declared.op.Op.{Op};
ghost use Rattle.worksheet.specs.Ops.{sheet_of};
ghost use Rattle.worksheet.specs.Checks.{first_refusal};
ghost use Rattle.recovery.specs.Sheets.{GathersOn, IsEither};
ghost use Rattle.plugin_core.specs.Items.{first_line_of};
ghost use Rattle.session_engine.specs.Does.{closed_reported, op_by};
ghost use Rattle.session_engine.specs.inside.Words.{op_of_end};
ghost use Rattle.session_engine.specs.World.{fits_in};
ghost use Rattle.session_engine.specs.inside.Commits.{Commits, AllowedIf, CommittedIf, HasFieldIf, IsEitherIf, LosesField, NotKept, NotLost, answer_op, kept_for, refusal_for};

use block_tree::{Queue, Reason};
use disk_model::{Disk, DiskFault};
use host_events::{Closed, HostFault};
use plugin_core::{Answered, Ended, Item};
use recovery::{CommitFault, Store};
use worksheet::{Op, Refusal};

/// The refusal that a fault of the store is, unless its disk has failed.
fn refusal_of(fault: &CommitFault) -> Option<Refusal>
    ensures { result ≡ refusal_for fault.now }
{
    match fault {
        CommitFault::Full(_) => Some(Refusal::JournalFull),
        CommitFault::OutOfMemory(_) => Some(Refusal::OutOfMemory),
        CommitFault::Disk | CommitFault::Closed => None,
    }
}

/// Commits an op, or says why it is refused.
pub(crate) fn commit<D: Disk>(store: &mut Store<D>, op: Op) -> Result<Option<Refusal>, DiskFault>
    requires open { store.old.closed ≡ false }
    requires allowed { first_refusal store.old.sheet.contents op ≡ None }
    ensures same { SameDisk store.old.disk store.new.disk }
    ensures gathers { GathersOn store.old store.new }
    ensures at_once { OnErr result (store.old.gathers ≡ false) }
    ensures ok { (ops : List Op) → store.old.sheet.contents ≡ sheet_of ops
        → IfOk result (Commits store.old ops op store.new) }
    ensures fits { OnErr result (fits_in store.old.disk.room store.old.end op ≡ true) }
    ensures err { OnErr result ((store.new.sheet.contents ≡ store.old.sheet.contents)
        × Rises store.old.disk.faults store.new.disk.faults) }
    ensures moments { InModel store.old.disk ((ops : List Op)
        → store.old.sheet.contents ≡ sheet_of ops
        → LeavesOnly (IsEither ops op) store.old.disk.history store.new.disk.history) }
{
    match store.commit(op) {
        Ok(()) => Ok(None),
        Err(fault) => {
            let refusal = refusal_of(&fault);
            drop(fault);
            match refusal {
                Some(refusal) => Ok(Some(refusal)),
                None => Err(DiskFault),
            }
        }
    }
}

/// Why the reason of a lost line isn't kept.
#[derive(Clone, Copy, Debug, PartialEq, Eq)]
pub(crate) enum LoseFault {
    /// Memory was refused. Nothing has changed.
    OutOfMemory,
    /// The disk failed.
    Disk,
}

/// Keeps the reason why a line was lost, if one was, where there is room for it.
pub(crate) fn lose<D: Disk>(
    store: &mut Store<D>,
    line: Option<u32>,
    reason: Reason,
) -> Result<(), LoseFault>
    requires open { store.old.closed ≡ false }
    requires there { HasFieldIf store.old.sheet.contents line }
    ensures same { SameDisk store.old.disk store.new.disk }
    ensures gathers { GathersOn store.old store.new }
    ensures at_once { IsErrOf result LoseFault.Disk → store.old.gathers ≡ false }
    ensures ok { (ops : List Op) → store.old.sheet.contents ≡ sheet_of ops
        → OnOk result (CommittedIf store.old ops
        (kept_for store.old.disk.room store.old.end reason line) store.new) }
    ensures fault { IfErr result (NotLost store.old store.new
        (kept_for store.old.disk.room store.old.end reason line)) }
    ensures moments { InModel store.old.disk ((ops : List Op)
        → store.old.sheet.contents ≡ sheet_of ops
        → LeavesOnly
        (IsEitherIf ops (kept_for store.old.disk.room store.old.end reason
        line)) store.old.disk.history store.new.disk.history) }
{
    // Called for its contract alone: the worksheet is one that ops make.
    let _sheet = store.sheet();
    let Some(id) = line else {
        return Ok(());
    };
    match commit(store, Op::Lost { id, reason }) {
        Ok(None) => Ok(()),
        Ok(Some(Refusal::JournalFull)) => Ok(()),
        Ok(Some(_)) => Err(LoseFault::OutOfMemory),
        Err(DiskFault) => Err(LoseFault::Disk),
    }
}

/// The field of the first of these items, where that is a line.
fn first_line(items: &Queue<Item>) -> Option<u32>
    ensures { result ≡ first_line_of items.now }
{
    match items.front() {
        Some(Item::Line { id, text: _ }) => Some(*id),
        Some(
            Item::Complete {
                id: _,
                text: _,
                cursor: _,
            },
        ) => None,
        None => None,
    }
}

/// Keeps the reason of the first line that an end leaves without an answer, if there is an end.
fn lose_at_end<D: Disk>(store: &mut Store<D>, ended: &Option<Ended>) -> Result<(), LoseFault>
    requires open { store.old.closed ≡ false }
    requires there { LosesField store.old.sheet.contents ended.now }
    ensures same { SameDisk store.old.disk store.new.disk }
    ensures gathers { GathersOn store.old store.new }
    ensures at_once { IsErrOf result LoseFault.Disk → store.old.gathers ≡ false }
    ensures ok { (ops : List Op) → store.old.sheet.contents ≡ sheet_of ops
        → OnOk result (CommittedIf store.old ops
        (op_of_end store.old.disk.room store.old.end ended.now) store.new) }
    ensures fault { IfErr result (NotLost store.old store.new
        (op_of_end store.old.disk.room store.old.end ended.now)) }
    ensures moments { InModel store.old.disk ((ops : List Op)
        → store.old.sheet.contents ≡ sheet_of ops
        → LeavesOnly
        (IsEitherIf ops (op_of_end store.old.disk.room store.old.end
        ended.now)) store.old.disk.history store.new.disk.history) }
{
    // Called for its contract alone: the worksheet is one that ops make.
    let _sheet = store.sheet();
    match ended {
        None => Ok(()),
        Some(end) => lose(store, first_line(&end.lost), end.reason),
    }
}

/// Keeps what a piece gives: the answer to a line; or, where no item was answered, the reason of the
/// first line that its end leaves. Says what has closed.
pub(crate) fn keep<D: Disk>(
    store: &mut Store<D>,
    answered: Option<Answered>,
    ended: &Option<Ended>,
) -> Result<Option<Closed>, HostFault>
    requires open { store.old.closed ≡ false }
    requires allowed { AllowedIf store.old.sheet.contents (answer_op answered) }
    requires there { LosesField store.old.sheet.contents ended.now }
    ensures same { SameDisk store.old.disk store.new.disk }
    ensures gathers { GathersOn store.old store.new }
    ensures at_once { IsErrOf result HostFault.Disk → store.old.gathers ≡ false }
    ensures ok { (ops : List Op) → store.old.sheet.contents ≡ sheet_of ops
        → IfOk result (λ closed. (closed ≡ closed_reported answered)
        × CommittedIf store.old ops
        (op_by store.old.disk.room store.old.end answered ended.now) store.new) }
    ensures fault { IfErr result (NotKept store.old store.new
        (op_by store.old.disk.room store.old.end answered ended.now)) }
    ensures moments { InModel store.old.disk ((ops : List Op)
        → store.old.sheet.contents ≡ sheet_of ops
        → LeavesOnly
        (IsEitherIf ops (op_by store.old.disk.room store.old.end answered
        ended.now)) store.old.disk.history store.new.disk.history) }
{
    // Called for its contract alone: the worksheet is one that ops make.
    let _sheet = store.sheet();
    match answered {
        None => match lose_at_end(store, ended) {
            Ok(()) => Ok(None),
            Err(LoseFault::OutOfMemory) => Err(HostFault::OutOfMemory),
            Err(LoseFault::Disk) => Err(HostFault::Disk),
        },
        Some(Answered::Banner(block)) => match lose_at_end(store, ended) {
            Ok(()) => Ok(Some(Closed::Banner(block))),
            Err(LoseFault::OutOfMemory) => Err(HostFault::OutOfMemory),
            Err(LoseFault::Disk) => Err(HostFault::Disk),
        },
        Some(Answered::Line { id, prompt, output }) => match commit(
            store,
            Op::Answer { id, prompt, output },
        ) {
            Ok(None) => Ok(Some(Closed::Line(id))),
            Ok(Some(Refusal::JournalFull)) => Err(HostFault::JournalFull),
            Ok(Some(_)) => Err(HostFault::OutOfMemory),
            Err(DiskFault) => Err(HostFault::Disk),
        },
        Some(Answered::Complete { id, result }) => Ok(Some(Closed::Complete(id, result))),
    }
}
