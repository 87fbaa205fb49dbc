//! A worksheet on a disk.
ghost use Rattle.std.specs.Prelude.{◌≡◌, ◌+◌, ◌++◌, ◌∷◌, ◌↔◌, [], List, length, false, true, None, IfOk, IfErr, OnOk, OnErr, IsErrOf, IsTrue, MatchResult};
ghost use Rattle.disk_model.specs.Disk.{InModel, Leaves, LeavesOnly, Looks, SameDisk, Rises, bytes_on};
ghost use Rattle.worksheet.specs.declared.op.Op.{Op};
ghost use Rattle.worksheet.specs.Contents.{Contents};
ghost use Rattle.worksheet.specs.Ops.{sheet_of};
ghost use Rattle.worksheet.specs.Checks.{first_refusal};
ghost use Rattle.journal.specs.Kept.{Fits, OtherUntouched, other_of};
ghost use Rattle.recovery.specs.Code.{code_of, HasCode};
ghost use Rattle.recovery.specs.Sheets.{IsSheetImage, IsEither, KeepsOps, Makes, StandsWithOrWithout, TellsOfSheet, HasPlace, GathersOn, IsOwedOrWritten, IsReady, IsStore, SameStore};

use crate::base::Base;
use crate::fault::{CheckpointFault, CommitFault, PrepareFault};
use crate::measuring::len_again;
use crate::opening::take_all;
use crate::rewriting::{again_of, batch_of};
use crate::size::code_len;
use crate::writing::frame_of;
use disk_model::{Disk, DiskFault};
use journal::{Frame, OpenCause, OpenFault, Opening};
use std::alloc::Global;
use std::marker::Model;
use worksheet::{Op, Sheet};

/// A worksheet in memory and in a journal on a disk that it owns. Each op is durable there before the
/// worksheet has it (docs/trust/FORMAT.md, "Payloads"). While records are gathered, the worksheet has
/// their ops first, and one gate makes all of them durable.
///
/// After a failure of the disk it is closed: it changes nothing any more, and is to be opened again.
#[derive(Drop)]
pub struct Store<D: Disk> {
    alloc: Global,
    // A base is always there but within a call.
    pub(crate) base: Option<Base<D>>,
    pub(crate) sheet: Sheet,
}

impl<D: Disk> Model for Store<D> {
    ghost use Rattle.recovery.specs.Sheets.{StoreView};
    ghost use Rattle.recovery.specs.inside.Codes.{coded_store};

    ghost Value = { StoreView };

    ghost coded = { coded_store };

    ghost use Rattle.recovery.specs.inside.Base.{store_on, IsStoreOf};

    ghost view = { λ s. store_on D.view s.base s.sheet };

    ghost invariant = { λ s. IsStoreOf D.view s.base s.sheet.contents };
}

impl<D: Disk> Store<D> {
    ghost use Rattle.recovery.specs.Opened.{disk_left, GivesSheet};
    ghost use Rattle.recovery.specs.Committed.{Commits, DoesNotFit, LeftBy};
    ghost use Rattle.recovery.specs.Checkpointed.{CheckpointAnswers};

    /// Opens a disk that a crash may have left, and gives the worksheet that it stands for. It writes
    /// nothing. A disk that stands for none is refused with its first damage: that of the gates
    /// (docs/trust/FORMAT.md, "Opening") before a payload that is no op's, or whose op the worksheet so far
    /// refuses.
    pub fn open(alloc: Global, disk: D) -> Result<Store<D>, OpenFault<D>>
        ensures same { SameDisk (D.view disk) (disk_left D.view result) }
        ensures open { IfOk result (λ store. store.closed ≡ false) }
        ensures store { IfOk result IsStore }

        // Nothing is owed, and records are written at once.
        ensures written { IfOk result (λ store. (store.owed ≡ []) × (store.gathers ≡ false)
            × (store.real ≡ store.disk)) }

        // Whether the disk keeps the model or not, the worksheet is made by allowed ops.
        ensures made { IfOk result (λ store. (ops : List Op) × Makes ops store.sheet.contents) }

        ensures sheet { InModel (D.view disk)
            (IfOk result (λ store. IsSheetImage store.sheet.contents (bytes_on (D.view disk)))) }
        ensures exact { InModel (D.view disk)
            ((sheet : Contents) → IsSheetImage sheet (bytes_on (D.view disk))
            → GivesSheet sheet result) }
        ensures kept { InModel (D.view disk)
            (IfOk result (λ store. (ops : List Op) × KeepsOps store ops)) }
        ensures fault { InModel (D.view disk)
            (IfErr result (λ e. TellsOfSheet (bytes_on (D.view disk)) e.cause)) }

        // It changes no byte, and at every moment each image is one that a crash could leave at the start.
        ensures looks { InModel (D.view disk)
            (Looks (D.view disk).history (disk_left D.view result).history) }
        ensures images { InModel (D.view disk)
            (IfOk result (λ store. Leaves (IsSheetImage store.sheet.contents)
            store.disk.history.now)) }

        // A failure of the disk is reported as one, and nothing else is.
        ensures faulty { IfErr result
            (λ e. e.cause ≡ OpenCause.Disk → Rises (D.view disk).faults (D.view e.disk).faults) }
        ensures steady { MatchResult result
            (λ store. store.disk.faults ≡ (D.view disk).faults)
            (λ e. (e.cause ≡ OpenCause.Disk → ⊥) → (D.view e.disk).faults ≡ (D.view disk).faults) }
    {
        let opening = match Opening::begin(alloc, disk) {
            Ok(opening) => opening,
            Err(fault) => return Err(fault),
        };
        match take_all(alloc, opening) {
            Ok((journal, sheet)) => Ok(Store {
                alloc,
                base: Some(Base::Open(journal)),
                sheet,
            }),
            Err(fault) => Err(fault),
        }
    }

    /// Whether the payload of an op fits on the disk: it has at most 33,554,432 bytes, and 6 more fit
    /// with it after the end. It takes no memory, and is false once the store is closed.
    ///
    /// Each length in the payload must fit its field, as `encode` asks. Of an op that `check` allows
    /// the law `allowed_have_code` gives this, by the ops that `sheet` stands for.
    pub fn fits(&self, op: &Op) -> bool
        requires { HasCode op.now }
        ensures place { IsTrue result ↔ HasPlace self.now (length (code_of op.now)) }
        ensures store { IsStore self.now }
    {
        match &self.base {
            Some(base) => base.has_place(code_len(op)),
            None => unreachable!(),
        }
    }

    /// Makes the record of an op, and room for it in the worksheet, so that `commit_ready` takes no
    /// memory. It changes nothing that the worksheet contains, and touches no disk.
    pub fn prepare(&mut self, op: &Op) -> Result<Frame, PrepareFault>
        requires { first_refusal self.old.sheet.contents op.now ≡ None }

        ensures same { SameStore self.old self.new }
        ensures ready { IfOk result (IsReady self.new op.now) }
        ensures closed { IsErrOf result PrepareFault.Closed ↔ (self.old.closed ≡ true) }
        ensures full { IsErrOf result PrepareFault.Full ↔ (self.old.closed ≡ false)
            × (Fits self.old.disk.room self.old.end (length (code_of op.now)) → ⊥) }
        ensures memory { IsErrOf result PrepareFault.OutOfMemory
            → HasPlace self.old (length (code_of op.now)) }
        ensures store { IsStore self.old }
    {
        let Some(base) = &mut self.base else {
            unreachable!();
        };
        if base.is_closed() {
            return Err(PrepareFault::Closed);
        }
        let len = code_len(op);
        if !base.has_place(len) {
            return Err(PrepareFault::Full);
        }
        self.sheet.make_room(op)?;
        base.make_place(len)?;
        Ok(frame_of(self.alloc, op, len)?)
    }

    /// Puts an op that was prepared on the disk, or among the records that are gathered, and then into the
    /// worksheet. It takes no memory. At `Err` the worksheet is as before, and the store is closed.
    pub fn commit_ready(&mut self, op: Op, frame: Frame) -> Result<(), DiskFault>
        requires { IsReady self.old op frame }

        ensures store { IsStore self.old }
        ensures same { SameDisk self.old.disk self.new.disk }
        ensures sheet { (ops : List Op) → self.old.sheet.contents ≡ sheet_of ops
            → OnOk result (self.new.sheet.contents ≡ sheet_of (ops ++ op ∷ [])) }
        ensures as_before { OnErr result (self.new.sheet.contents ≡ self.old.sheet.contents) }
        ensures open { OnOk result (self.new.closed ≡ false) }
        ensures ends { OnOk result (self.new.end ≡ self.old.end + 5 + length (code_of op)) }
        ensures closed { OnErr result
            ((self.new.closed ≡ true) × Rises self.old.disk.faults self.new.disk.faults) }
        ensures steady { OnOk result (self.new.disk.faults ≡ self.old.disk.faults) }

        // The record is written, or owed.
        ensures real { OnOk result (IsOwedOrWritten self.old self.new) }

        // While records are owed the disk as it stands is left alone, whatever the answer; only one that is
        // written at once can fail.
        ensures gathers { GathersOn self.old self.new }
        ensures at_once { OnErr result (self.old.gathers ≡ false) }

        // The area that isn't active is left alone, at every moment of the call too.
        ensures other { InModel self.old.disk
            (other_of (bytes_on self.new.disk) ≡ other_of (bytes_on self.old.disk)) }
        ensures others { InModel self.old.disk
            (LeavesOnly (OtherUntouched self.old.disk.history.now) self.old.disk.history
            self.new.disk.history) }

        // A crash at any moment of the call leaves the worksheet from before it, or this with the op.
        ensures any_moment { InModel self.old.disk
            ((ops : List Op) → self.old.sheet.contents ≡ sheet_of ops
            → LeavesOnly (IsEither ops op) self.old.disk.history self.new.disk.history) }
        ensures acknowledged { OnOk result (InModel self.old.disk
            (Leaves (IsSheetImage self.new.sheet.contents) self.new.disk.history.now)) }

        // So it does of the payloads that the disk stands for, and at `Ok` the op's follows them, once.
        ensures payloads { InModel self.old.disk
            ((ops : List Op) → KeepsOps self.old ops
            → LeavesOnly (StandsWithOrWithout ops op) self.old.disk.history self.new.disk.history) }
        ensures kept { InModel self.old.disk
            ((ops : List Op) → KeepsOps self.old ops
            → OnOk result (KeepsOps self.new (ops ++ op ∷ []))) }
    {
        let (base, result) = self.base.take().unwrap().with(&frame);
        self.base = Some(base);
        result?;
        match self.sheet.apply(op) {
            Ok(()) => Ok(()),
            Err(_) => unreachable!(),
        }
    }

    /// Puts an op on the disk, or among the records that are gathered, and then into the worksheet. Before
    /// its first write it has all the memory that it takes.
    pub fn commit(&mut self, op: Op) -> Result<(), CommitFault>
        requires { first_refusal self.old.sheet.contents op ≡ None }

        // All that it does, by its answer. The clauses after this one say the same part by part.
        ensures commits { Commits self.old self.new op result }
        ensures store { IsStore self.old }

        ensures same { SameDisk self.old.disk self.new.disk }
        ensures sheet { (ops : List Op) → self.old.sheet.contents ≡ sheet_of ops
            → OnOk result (self.new.sheet.contents ≡ sheet_of (ops ++ op ∷ [])) }
        ensures open { OnOk result (self.new.closed ≡ false) }
        ensures ends { OnOk result (self.new.end ≡ self.old.end + 5 + length (code_of op)) }

        // Which refusal it is, and what it leaves.
        ensures closed { IsErrOf result CommitFault.Closed ↔ (self.old.closed ≡ true) }
        ensures full { DoesNotFit result ↔ (self.old.closed ≡ false)
            × (Fits self.old.disk.room self.old.end (length (code_of op)) → ⊥) }
        ensures refused { IfErr result (LeftBy self.old self.new op) }
        ensures steady { OnOk result (self.new.disk.faults ≡ self.old.disk.faults) }

        // The record is written, or owed. While records are owed the disk as it stands is left alone, whatever
        // the answer; only one that is written at once can fail.
        ensures real { OnOk result (IsOwedOrWritten self.old self.new) }
        ensures gathers { GathersOn self.old self.new }
        ensures at_once { IsErrOf result CommitFault.Disk → self.old.gathers ≡ false }

        // The area that isn't active is left alone, at every moment of the call too.
        ensures other { InModel self.old.disk
            (other_of (bytes_on self.new.disk) ≡ other_of (bytes_on self.old.disk)) }
        ensures others { InModel self.old.disk
            (LeavesOnly (OtherUntouched self.old.disk.history.now) self.old.disk.history
            self.new.disk.history) }

        // A crash at any moment of the call leaves the worksheet from before it, or this with the op.
        ensures any_moment { InModel self.old.disk
            (self.old.closed ≡ false → (ops : List Op) → self.old.sheet.contents ≡ sheet_of ops
            → LeavesOnly (IsEither ops op) self.old.disk.history self.new.disk.history) }
        ensures acknowledged { OnOk result (InModel self.old.disk
            (Leaves (IsSheetImage self.new.sheet.contents) self.new.disk.history.now)) }

        // So it does of the payloads that the disk stands for, and at `Ok` the op's follows them, once.
        ensures payloads { InModel self.old.disk
            ((ops : List Op) → KeepsOps self.old ops
            → LeavesOnly (StandsWithOrWithout ops op) self.old.disk.history self.new.disk.history) }
        ensures kept { InModel self.old.disk
            ((ops : List Op) → KeepsOps self.old ops
            → OnOk result (KeepsOps self.new (ops ++ op ∷ []))) }
    {
        let frame = match self.prepare(&op) {
            Ok(frame) => frame,
            Err(PrepareFault::Closed) => return Err(CommitFault::Closed),
            Err(PrepareFault::Full) => return Err(CommitFault::Full(op)),
            Err(PrepareFault::OutOfMemory) => return Err(CommitFault::OutOfMemory(op)),
        };
        match self.commit_ready(op, frame) {
            Ok(()) => Ok(()),
            Err(DiskFault) => Err(CommitFault::Disk),
        }
    }

    /// Writes the worksheet again, in place of the ops that have made it. Those of fields that are
    /// gone, of answers that were removed and of inputs that were changed take no room any more. It
    /// changes neither the worksheet nor the number of its next new field. (docs/trust/FORMAT.md,
    /// "Payloads".)
    ///
    /// `Full` and `OutOfMemory` change nothing and touch no disk. After `Disk` the store is closed. It is
    /// refused with `OutOfMemory` while something is owed, so `flush` goes before it.
    pub fn checkpoint(&mut self) -> Result<(), CheckpointFault>
        ensures store { IsStore self.old }
        ensures same { SameDisk self.old.disk self.new.disk }
        ensures sheet { self.new.sheet ≡ self.old.sheet }

        // All that it does, by its answer.
        ensures answers { CheckpointAnswers self.old self.new result }
        ensures written { self.old.gathers ≡ false → self.new.gathers ≡ false }

        // A crash at any moment of the call leaves the same worksheet.
        ensures any_moment { InModel self.old.disk
            (self.old.closed ≡ false → LeavesOnly (IsSheetImage self.old.sheet.contents)
            self.old.disk.history self.new.disk.history) }
    {
        let Some(base) = &self.base else {
            unreachable!();
        };
        if base.is_closed() {
            return Err(CheckpointFault::Closed);
        }
        let Some(len) = len_again(base.room(), &self.sheet) else {
            return Err(CheckpointFault::Full);
        };
        if base.owes() {
            return Err(CheckpointFault::OutOfMemory);
        }
        let again = match again_of(self.alloc, &self.sheet) {
            Ok(again) => again,
            Err(_) => return Err(CheckpointFault::OutOfMemory),
        };
        let mut batch = match batch_of(self.alloc, len) {
            Ok(batch) => batch,
            Err(_) => return Err(CheckpointFault::OutOfMemory),
        };
        let (renewed, result) = self.base.take().unwrap().again(&again, &mut batch);
        self.base = Some(renewed);
        result
    }

    /// The worksheet.
    pub fn sheet(&self) -> &Sheet
        ensures sheet { result.now ≡ self.now.sheet }
        ensures store { IsStore self.now }

        // It is made by allowed ops, and while the store is open the disk stands for their payloads.
        ensures made { (ops : List Op) × Makes ops self.now.sheet.contents }
        ensures kept { InModel self.now.disk
            (self.now.closed ≡ false → (ops : List Op) × KeepsOps self.now ops) }
        ensures images { InModel self.now.disk
            (self.now.closed ≡ false → Leaves (IsSheetImage self.now.sheet.contents)
            self.now.disk.history.now) }
    {
        &self.sheet
    }

    /// The worksheet. The disk is dropped.
    pub fn into_sheet(self) -> Sheet
        ensures { result ≡ self.sheet }
    {
        self.sheet
    }

    /// The disk, as it stands. What is owed to it isn't there.
    pub fn into_disk(self) -> D
        ensures real { D.view result ≡ self.real }
        ensures written { self.gathers ≡ false → D.view result ≡ self.disk }
    {
        let Store {
            alloc: _,
            base,
            sheet: _,
        } = self;
        match base {
            Some(base) => base.into_disk(),
            None => unreachable!(),
        }
    }
}
