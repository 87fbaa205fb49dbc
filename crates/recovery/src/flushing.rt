//! Records that are owed, and made durable together.
ghost use Rattle.std.specs.Prelude.{◌≡◌, [], List, false, true, OnErr, OnOk, MatchResult};
ghost use Rattle.disk_model.specs.Disk.{InModel, Leaves, LeavesOnly, Rises, SameDisk};
ghost use Rattle.recovery.specs.Sheets.{IsSheetImage, IsSheetOf, IsStore, KeepsOps, Makes};
ghost use Rattle.worksheet.specs.Contents.{Contents};
ghost use Rattle.worksheet.specs.declared.op.Op.{Op};

use crate::store::Store;
use disk_model::{Disk, DiskFault};
use journal::Group;
use worksheet::Sheet;

impl<D: Disk> Store<D> {
    /// From now on records are owed, in this group, which has none yet, until a `flush` or a checkpoint.
    /// Of a store that gathers already, or is closed, nothing is changed.
    ///
    /// What the contracts say of `disk` is said of the disk as it is owed; as it stands it is `real`.
    pub fn gather(&mut self, group: Group)
        requires { group.payloads ≡ [] }
        ensures sheet { self.new.sheet ≡ self.old.sheet }
        ensures disk { self.new.disk ≡ self.old.disk }
        ensures real { self.new.real ≡ self.old.real }
        ensures end { self.new.end ≡ self.old.end }
        ensures start { self.new.start ≡ self.old.start }
        ensures closed { self.new.closed ≡ self.old.closed }
        ensures owed { self.new.owed ≡ self.old.owed }
        ensures gathers { self.old.closed ≡ false → self.new.gathers ≡ true }
    {
        let base = self.base.take().unwrap().gather(group);
        self.base = Some(base);
    }

    /// Drops what is owed: the disk stays as it stands, and the worksheet is this one again, of which the disk
    /// holds images. From then on records are written at once. It takes no memory and makes no call.
    pub fn withdraw(&mut self, before: Sheet)
        requires open { self.old.closed ≡ false }
        requires made { (ops : List Op) × Makes ops before.contents }
        requires images { InModel self.old.real
            (Leaves (IsSheetImage before.contents) self.old.real.history.now) }
        ensures sheet { self.new.sheet ≡ before }
        ensures real { self.new.real ≡ self.old.real }
        ensures disk { self.new.disk ≡ self.old.real }
        ensures end { self.new.end ≡ self.old.start }
        ensures owed { self.new.owed ≡ [] }
        ensures gathers { self.new.gathers ≡ false }
        ensures closed { self.new.closed ≡ false }
    {
        let old = self.base.take().unwrap();
        // Called for its contract alone: the disk holds an image that a crash may leave.
        let _room = old.room();
        self.base = Some(old.withdraw());
        self.sheet = before;
    }

    /// Whether it is closed, so that nothing can be added or flushed any more.
    pub fn is_closed(&self) -> bool
        ensures { result ≡ self.now.closed }
    {
        match &self.base {
            Some(base) => base.is_closed(),
            None => unreachable!(),
        }
    }

    /// Makes durable what is owed: one gate commits all of it. From then on records are written at once,
    /// until the next `gather`. It takes no memory, and where nothing is owed it makes no call. At `Err`
    /// the store is closed, and its worksheet may be ahead of the disk.
    pub fn flush(&mut self) -> Result<(), DiskFault>
        requires { self.old.closed ≡ false }
        ensures store { IsStore self.old }
        ensures same { SameDisk self.old.real self.new.real }
        ensures sheet { self.new.sheet ≡ self.old.sheet }
        ensures flushed { OnOk result ((self.new.owed ≡ []) × (self.new.disk ≡ self.new.real)
            × (self.new.closed ≡ false) × (self.new.end ≡ self.old.end)
            × (self.new.real.faults ≡ self.old.real.faults)) }
        ensures written { self.new.gathers ≡ false }
        ensures closed { OnErr result ((self.new.closed ≡ true)
            × Rises self.old.real.faults self.new.real.faults) }
        ensures owed { SameDisk self.old.disk self.new.disk }
        ensures nothing { self.old.owed ≡ [] → MatchResult result
            (λ _. self.new.real ≡ self.old.real) (λ _. ⊥) }
        ensures acknowledged { OnOk result (InModel self.new.disk
            (Leaves (IsSheetImage self.new.sheet.contents) self.new.disk.history.now)) }
        ensures kept { InModel self.old.disk ((ops : List Op) → KeepsOps self.old ops
            → OnOk result (KeepsOps self.new ops)) }

        // A crash at any moment of the call leaves the worksheet that the disk had before it, or this one.
        ensures any_moment { InModel self.old.disk ((before : Contents)
            → Leaves (IsSheetImage before) self.old.real.history.now
            → LeavesOnly (IsSheetOf before self.old.sheet.contents) self.old.real.history
            self.new.real.history) }
    {
        let old = self.base.take().unwrap();
        // Called for its contract alone: the disk holds an image that a crash may leave.
        let _room = old.room();
        let (base, result) = old.flush();
        self.base = Some(base);
        result
    }
}
