//! The reader of streams.

ghost use Rattle.std.specs.Prelude.{◌≡◌, ◌+◌, ◌↔◌, ℕ, List, [], ◌++◌, length, true, false, OnErr, IfOk, IfErr, IsErrOf};
ghost use Rattle.meta_format.specs.Limits.{limits};
ghost use Rattle.meta_format.specs.Found.{outers};
ghost use Rattle.meta_format.specs.inside.Scan.{mode_at};
ghost use Rattle.meta_format.specs.inside.Machine.{begun};
ghost use Rattle.meta_format.specs.Stream.{Outer};
ghost use Rattle.meta_format.specs.Reader.{ReaderHasRead, Explains, CloseWithin, found_before};
ghost use Rattle.meta_format.specs.declared.level.Level.{Level};

use crate::bounds::BOUNDS;
use crate::piece::scan_piece;
use crate::scan::{Found, Place, Scanner, Stop};
use std::alloc::Global;
use std::marker::Model;

/// Why a piece was refused. Offsets are those of the byte at fault in the whole stream, from 0, and
/// `found` has the blocks that the piece closes before it. (docs/use/PROTOCOL.md, faults of a stream.)
#[derive(Drop)]
pub enum FeedFault {
    /// A byte below 32 in a tag, a separator without a name before it, or a 65th byte of a name.
    BadTag { offset: u64, found: Vec<Found> },
    /// A 2 that would open a block of depth 33.
    TooDeep { offset: u64, found: Vec<Found> },
    /// The 16,777,216th byte of an outer block that does not close it, or the byte at offset 2^62.
    TooLong { offset: u64, found: Vec<Found> },
    /// Memory was refused. No clause can tell when that is: it stands for a growth that was really refused.
    OutOfMemory,
    /// A fault came before, in an earlier piece.
    Failed,
}

/// Reads the blocks of a stream that comes in pieces, which may be cut anywhere. Each byte is looked at
/// once. Noise and closed outer blocks are not kept, and after a fault nothing is: the bytes of the tags
/// and texts that a reader holds are never more than 16,777,216 (that is in the type's invariant).
///
/// A reader stands for the bytes that were fed so far, and for the blocks that were given: that is the
/// relation `ReaderHasRead`, which `new` begins and `feed` carries on.
#[derive(Drop)]
pub struct Reader {
    alloc: Global,
    failed: bool,
    reported: Reported,
    scanner: Scanner,
}

/// What is reported of the stream up to the last piece without a fault.
#[derive(Drop)]
struct Reported {
    offset: u64,
    pending: Option<u64>,
}

impl Model for Reader {
    ghost use Rattle.std.specs.Prelude.{◌≡◌, ◌≤◌, false};
    ghost use Rattle.meta_format.specs.Limits.{limits};
    ghost use Rattle.meta_format.specs.Reader.{ReaderView};
    ghost use Rattle.meta_format.specs.inside.Scan.{mode_of, IsPlaced, held_bytes};

    ghost Value = { ReaderView };

    ghost view = { λ r. record { failed = r.failed; offset = r.reported.offset; pending = r.reported.pending; mode = mode_of r.scanner } };

    ghost invariant = { λ r. IsPlaced limits.block r.scanner × (held_bytes r.scanner ≤ limits.block) × (r.failed ≡ false → r.scanner.at ≡ r.reported.offset) };
}

impl Reader {
    /// A reader before the first byte of its stream. No memory is taken.
    #[tactic(auto, using(crate::proofs::Held::reader_rules))]
    pub fn new(alloc: Global) -> Reader
        ensures { ReaderHasRead limits result [] [] }
    {
        Reader {
            alloc,
            failed: false,
            reported: Reported {
                offset: 0,
                pending: None,
            },
            scanner: Scanner::new(alloc),
        }
    }

    /// How many bytes were taken: those of all pieces but the one with a fault, and those after it.
    pub fn offset(&self) -> u64
        ensures kept { result ≡ self.now.offset }
        ensures length { (s : List ℕ) (blocks : List Outer) → ReaderHasRead limits self.now s blocks
            → result ≡ length s }
    {
        self.reported.offset
    }

    /// The offset of the 2 that begins the outer block that is open, if one is. After a fault it is what it
    /// was before the piece with the fault.
    pub fn pending(&self) -> Option<u64>
        ensures { result ≡ self.now.pending }
    {
        self.reported.pending
    }

    /// Takes the next piece of the stream, and gives the outer blocks that it closes, in order.
    ///
    /// After an error, also lack of memory, the reader has failed: each later call returns `Failed`,
    /// and `offset` and `pending` stay as they were before the piece.
    #[tactic(auto, using(crate::proofs::Held::reader_rules))]
    pub fn feed(&mut self, piece: &[u8]) -> Result<Vec<Found>, FeedFault>
        // The blocks found are those that the piece adds to the stream, whatever it was so far.
        ensures ok { IfOk result (λ found. (s : List ℕ) (blocks : List Outer)
            → ReaderHasRead limits self.old s blocks
            → ReaderHasRead limits self.new (s ++ piece.now) (blocks ++ outers found.items)) }

        // Each closes in this piece, and starts after the one before it.
        ensures closes { IfOk result (λ found. (s : List ℕ) (blocks : List Outer)
            → ReaderHasRead limits self.old s blocks
            → CloseWithin (length s) (length (s ++ piece.now)) (outers found.items)) }
        ensures closes_before { IfErr result (λ e. (s : List ℕ) (blocks : List Outer)
            → ReaderHasRead limits self.old s blocks
            → CloseWithin (length s) (length (s ++ piece.now)) (found_before e)) }

        // Why it fails, and that it fails at each fault: where it is Ok the stream has none.
        ensures fault { IfErr result (λ e. (s : List ℕ) (blocks : List Outer)
            → ReaderHasRead limits self.old s blocks → Explains limits (s ++ piece.now) blocks e) }
        ensures failed { IsErrOf result FeedFault.Failed ↔ (self.old.failed ≡ true) }

        // What a fault leaves.
        ensures err { OnErr result ((self.new.failed ≡ true) × (self.new.offset ≡ self.old.offset)
            × (self.new.pending ≡ self.old.pending)) }
    {
        if self.failed {
            return Err(FeedFault::Failed);
        }
        let mut found = Vec::new(self.alloc);
        match scan_piece(self.alloc, BOUNDS, &mut self.scanner, &mut found, piece) {
            Ok(()) => {
                self.reported = Reported {
                    offset: self.scanner.at,
                    pending: begin_of(self.scanner.place, self.scanner.start),
                };
                Ok(found)
            }
            Err(Stop::BadTag) => {
                let offset = self.scanner.at;
                self.failed = true;
                self.scanner = Scanner::new(self.alloc);
                Err(FeedFault::BadTag { offset, found })
            }
            Err(Stop::TooDeep) => {
                let offset = self.scanner.at;
                self.failed = true;
                self.scanner = Scanner::new(self.alloc);
                Err(FeedFault::TooDeep { offset, found })
            }
            Err(Stop::TooLong) => {
                let offset = self.scanner.at;
                self.failed = true;
                self.scanner = Scanner::new(self.alloc);
                Err(FeedFault::TooLong { offset, found })
            }
            Err(Stop::OutOfMemory) => {
                self.failed = true;
                self.scanner = Scanner::new(self.alloc);
                Err(FeedFault::OutOfMemory)
            }
        }
    }
}

/// Where the block starts that is open.
fn begin_of(place: Place, start: u64) -> Option<u64>
    ensures { (levels : List Level) (name : List ℕ)
        → result ≡ begun (mode_at place start levels name) }
{
    match place {
        Place::Outside => None,
        Place::Tag | Place::Body | Place::Escape => Some(start),
    }
}
