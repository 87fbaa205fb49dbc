//! A stream of which it can be said what it held while a disk was in which state.

use disk_model::Disk;
use recovery::Store;
use session_engine::Host;
use std::io::{BufWriter, Write};

/// A stream of which it can be said what it held while the disk of a host, or of a store, was in which state.
///
/// Bytes don't say when they were written. So a call that does nothing is made before each text. Its relation says which bytes the
/// stream held then, and in which state the disk was. Each byte after these was written later. Code that is generic over the stream has
/// the relation by that call alone. A stamp leaves no trace in its stream, so the relations of the streams below hold of everything.
pub trait Stamped: Write {
    ghost use Rattle.std.specs.Prelude.{◌≡◌, List, Option, false, ℕ};
    ghost use Rattle.disk_model.specs.Disk.{DiskView};

    /// There was a moment at which the stream held these bytes, and the disk was in this state.
    ghost held: { Option (List ℕ) → DiskView → Type 0 };

    /// Does nothing. It is called for its relation.
    fn stamp<D: Disk>(&self, host: &Host<D>)
        ensures held { held (Self.contents self.now) host.now.store.disk };

    /// The same over the disk of a store that writes at once, so that what it keeps is on its disk.
    fn stamp_store<D: Disk>(&self, store: &Store<D>)
        requires at_once { store.now.gathers ≡ false }
        ensures held { held (Self.contents self.now) store.now.disk };
}

/// Bytes in memory.
impl Stamped for Vec<u8> {
    ghost held = { λ _ _. Unit {0} };

    fn stamp<D: Disk>(&self, _host: &Host<D>) {}

    fn stamp_store<D: Disk>(&self, _store: &Store<D>) {}
}

impl<W: Write + Drop> Stamped for BufWriter<W> {
    ghost held = { λ _ _. Unit {0} };

    fn stamp<D: Disk>(&self, _host: &Host<D>) {}

    fn stamp_store<D: Disk>(&self, _store: &Store<D>) {}
}
