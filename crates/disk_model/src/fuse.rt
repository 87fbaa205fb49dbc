//! A disk that fails from some call on, or at one call alone.
ghost use Rattle.std.specs.Prelude.{◌≡◌, ◌+◌, ◌≤◌, ◌↔◌, length, take, drop, max, min, IfOk, IsErr, OnErr, OnOk};
ghost use Rattle.disk_model.specs.Fuse.{Blows};
ghost use Rattle.disk_model.specs.Disk.{Called, InModel, Looks, Rises, Syncs, Writes, area_of, greatest_count, bytes_on};

use crate::{Area, Disk, DiskFault};

/// Which calls a fuse fails.
#[derive(Clone, Copy, Debug, PartialEq, Eq)]
pub enum FuseMode {
    /// All from the k-th on.
    From,
    /// The k-th alone.
    Only,
}

// Counts calls up to the k-th.
#[derive(Drop)]
struct Fuse {
    k: u64,
    mode: FuseMode,
    calls: u64,
    refused: u64,
    ghost counted: { calls ≤ k },
}

impl Fuse {
    // Counts a call, and refuses it where it is the fuse's time.
    fn spend(&mut self) -> Result<(), DiskFault>
        ensures blows { IsErr result ↔ Blows self.old.mode self.old.k self.old.calls }
        ensures counts { self.new.calls ≡ min (self.old.calls + 1) self.old.k }
        ensures same { (self.new.k ≡ self.old.k) × (self.new.mode ≡ self.old.mode) }
        ensures passed { OnOk result (self.new.refused ≡ self.old.refused) }
        ensures counted { OnErr result (self.new.refused ≡ min (self.old.refused + 1)
            greatest_count) }
        ensures refused { OnErr result
            (Rises self.old.refused self.new.refused × (self.old.refused ≤ self.new.refused)) }
    {
        let blows = match self.mode {
            FuseMode::From => self.k == 0 || self.calls >= self.k - 1,
            FuseMode::Only => self.k > 0 && self.calls == self.k - 1,
        };
        if self.calls < self.k {
            self.calls += 1;
        }
        if blows {
            self.refused = self.refused.saturating_add(1);
            return Err(DiskFault);
        }
        Ok(())
    }
}

/// A disk around another one, whose fuse fails calls without passing them on.
///
/// `len`, `read`, `write_at` and `sync` count as calls, from 1. Calls after the k-th aren't
/// counted.
#[derive(Drop)]
pub struct FuseDisk<D: Disk> {
    inner: D,
    fuse: Fuse,
    longest_read: u64,
}

impl<D: Disk> FuseDisk<D> {
    ghost use Rattle.disk_model.specs.Fused.{IsNew};

    /// Fails the k-th call on `inner` and all after it, or the k-th alone. With `k` 0 the first
    /// fails all calls and the second none.
    pub fn new(inner: D, k: u64, mode: FuseMode) -> FuseDisk<D>
        ensures { IsNew result inner k mode }
    {
        let fuse = Fuse {
            k,
            mode,
            calls: 0,
            refused: 0,
        };
        FuseDisk {
            inner,
            fuse,
            longest_read: 0,
        }
    }

    /// The length in bytes of the longest read that was asked so far, 0 before the first. A read that
    /// failed counts too. It takes no memory.
    pub fn longest_read(&self) -> u64
        ensures { result ≡ self.now.longest_read }
    {
        self.longest_read
    }

    /// The disk inside, as it stands.
    pub fn into_inner(self) -> D
        ensures { result ≡ self.inner }
    {
        let FuseDisk { inner, .. } = self;
        inner
    }
}

impl<D: Disk> Disk for FuseDisk<D> {
    ghost use Rattle.disk_model.specs.Fused.{fuse_view, Spends};

    ghost view = { fuse_view D.view };

    ghost small = { λ f. D.small f.inner };

    ghost content_stays = { λ f. D.content_stays f.inner };

    fn room(&self) -> u64 {
        self.inner.room()
    }

    fn len(&mut self, area: Area) -> Result<u64, DiskFault>
        ensures called { Called result (fuse_view D.view self.old) (fuse_view D.view self.new) }
        ensures bound { IfOk result (λ n. n ≤ (fuse_view D.view self.old).room) }
        ensures looks { InModel (fuse_view D.view self.old)
            (Looks (fuse_view D.view self.old).history (fuse_view D.view self.new).history) }
        ensures length { InModel (fuse_view D.view self.old)
            (IfOk result (λ n. n ≡ length (area_of area (bytes_on (fuse_view D.view self.old))))) }
        ensures spends { Spends D.view result self.old self.new }
        ensures longest { self.new.longest_read ≡ self.old.longest_read }
    {
        self.fuse.spend()?;
        self.inner.len(area)
    }

    fn read(&mut self, area: Area, offset: u64, buffer: &mut [u8]) -> Result<(), DiskFault>
        requires { InModel (fuse_view D.view self.old)
            (offset + length buffer.old ≤ length (area_of area
            (bytes_on (fuse_view D.view self.old)))) }
        ensures called { Called result (fuse_view D.view self.old) (fuse_view D.view self.new) }
        ensures looks { InModel (fuse_view D.view self.old)
            (Looks (fuse_view D.view self.old).history (fuse_view D.view self.new).history) }
        ensures bytes { InModel (fuse_view D.view self.old)
            (OnOk result (buffer.new ≡ take (length buffer.old)
            (drop offset (area_of area (bytes_on (fuse_view D.view self.old)))))) }
        ensures spends { Spends D.view result self.old self.new }
        ensures longest { self.new.longest_read ≡ max self.old.longest_read (length buffer.old) }
    {
        self.longest_read = self.longest_read.max(buffer.len() as u64);
        self.fuse.spend()?;
        self.inner.read(area, offset, buffer)
    }

    fn write_at(&mut self, area: Area, offset: u64, bytes: &[u8]) -> Result<(), DiskFault>
        requires { InModel (fuse_view D.view self.old)
            ((offset ≤ length (area_of area (bytes_on (fuse_view D.view self.old))))
            × (offset + length bytes.now ≤ (fuse_view D.view self.old).room)) }
        ensures called { Called result (fuse_view D.view self.old) (fuse_view D.view self.new) }
        ensures writes { InModel (fuse_view D.view self.old)
            (Writes area offset bytes.now result (fuse_view D.view self.old).history
            (fuse_view D.view self.new).history) }
        ensures spends { Spends D.view result self.old self.new }
        ensures longest { self.new.longest_read ≡ self.old.longest_read }
    {
        self.fuse.spend()?;
        self.inner.write_at(area, offset, bytes)
    }

    fn sync(&mut self, area: Area) -> Result<(), DiskFault>
        ensures called { Called result (fuse_view D.view self.old) (fuse_view D.view self.new) }
        ensures syncs { InModel (fuse_view D.view self.old)
            (Syncs area result (fuse_view D.view self.old).history
            (fuse_view D.view self.new).history) }
        ensures spends { Spends D.view result self.old self.new }
        ensures longest { self.new.longest_read ≡ self.old.longest_read }
    {
        self.fuse.spend()?;
        self.inner.sync(area)
    }
}
