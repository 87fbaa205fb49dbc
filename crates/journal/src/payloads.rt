//! The payloads of a journal, one after another.
ghost use Rattle.std.specs.Prelude.{◌≡◌, ◌≤◌, ◌<◌, List, ℕ, [], IfErr, IfOk, MatchResult};
ghost use Rattle.disk_model.specs.Disk.{InModel, Looks, SameDisk, Rises, bytes_on};
ghost use Rattle.journal.specs.Area.{first_gate};
ghost use Rattle.journal.specs.Kept.{ImageStandsFor};
ghost use Rattle.journal.specs.Open.{IsPassing, Tells};
ghost use Rattle.journal.specs.Opening.{HasGiven};

use crate::layout::FIRST_GATE;
use crate::opening::survey;
use crate::walk::payload_at;
use crate::window::Window;
use crate::{Journal, OpenCause, OpenFault, Payload};
use block_tree::Octets;
use disk_model::Disk;
use std::alloc::Global;
use std::marker::Model;

/// A journal that is being opened: it gives its payloads one after another, and has none of them in
/// memory (docs/trust/FORMAT.md, "Opening"). No read that it asks of its disk is longer than 65,536 bytes.
///
/// Contracts see its disk, the offset of the gate whose payload comes next, and that of the closed
/// gate after all of them. Which payloads it has given is said by `HasGiven`: `begin` gives it, `next`
/// carries it on.
#[derive(Drop)]
pub struct Opening<D: Disk> {
    disk: D,
    window: Window,
    gate: u64,
    end: u64,
}

impl<D: Disk> Model for Opening<D> {
    ghost use Rattle.std.specs.Prelude.{◌<◌, ◌≤◌};
    ghost use Rattle.disk_model.specs.Disk.{InModel, area_of, bytes_on};
    ghost use Rattle.journal.specs.Area.{first_gate};
    ghost use Rattle.journal.specs.inside.Active.{IsActive};
    ghost use Rattle.journal.specs.Opening.{OpeningView};
    ghost use Rattle.journal.specs.inside.Window.{Shows};

    ghost Value = { OpeningView };

    ghost view = { λ o. record { disk = D.view o.disk; gate = o.gate; end = o.end } };

    ghost invariant = { λ o. (first_gate ≤ o.gate) × (o.gate ≤ o.end) × (o.end < o.window.limit)
        × InModel (D.view o.disk)
        (IsActive o.window.area (bytes_on (D.view o.disk))
        × Shows o.window (area_of o.window.area (bytes_on (D.view o.disk)))) };
}

/// What comes next in an opening.
#[derive(Drop)]
pub enum Next<D: Disk> {
    /// The next payload, and the opening after it.
    Payload(Opening<D>, Payload),
    /// All payloads were given, and here is their journal.
    End(Journal<D>),
}

impl<D: Disk> Opening<D> {
    ghost use Rattle.journal.specs.Next.{disk_begun, opening_disk, BeginsPayloads, GivesNext, StepsOn};

    /// Begins to open a disk that a crash may have left: it makes area First and the active one
    /// durable, and walks over the gates by their length fields alone. It writes nothing. A disk that stands for no payloads
    /// is refused here (docs/trust/FORMAT.md, "Opening").
    pub fn begin(alloc: Global, disk: D) -> Result<Opening<D>, OpenFault<D>>
        ensures same { SameDisk (D.view disk) (disk_begun D.view result) }

        // None of the payloads that the disk stands for is given yet.
        ensures found { InModel (D.view disk)
            (IfOk result (λ opening. (payloads : List (List ℕ))
            × ImageStandsFor (bytes_on (D.view disk)) payloads × HasGiven opening [] payloads)) }
        ensures fault { InModel (D.view disk)
            (IfErr result (λ e. Tells (bytes_on (D.view disk)) e.cause)) }

        // A disk that stands for payloads is opened, unless it fails or memory is refused.
        ensures exact { InModel (D.view disk)
            ((payloads : List (List ℕ)) → ImageStandsFor (bytes_on (D.view disk)) payloads
            → BeginsPayloads payloads result) }

        // Whether the disk keeps the model or not, it stands at the first gate.
        ensures first { IfOk result
            (λ opening. (opening.gate ≡ first_gate) × (first_gate ≤ opening.end)) }

        // It changes no byte, and at every moment each image is one that a crash could leave at the start.
        ensures looks { InModel (D.view disk)
            (Looks (D.view disk).history (disk_begun D.view result).history) }

        // A failure of the disk is reported as one, and nothing else is.
        ensures faulty { IfErr result
            (λ e. e.cause ≡ OpenCause.Disk → Rises (D.view disk).faults (D.view e.disk).faults) }
        ensures steady { MatchResult result
            (λ opening. opening.disk.faults ≡ (D.view disk).faults)
            (λ e. (e.cause ≡ OpenCause.Disk → ⊥) → (D.view e.disk).faults ≡ (D.view disk).faults) }
    {
        let mut disk = disk;
        match survey(alloc, &mut disk) {
            Ok((window, end)) => Ok(Opening {
                disk,
                window,
                gate: FIRST_GATE,
                end,
            }),
            Err(cause) => Err(OpenFault { cause, disk }),
        }
    }

    /// The next payload with the opening after it, or the journal where all were given. It writes
    /// nothing, and only a failure of the disk or refused memory keeps a payload back.
    ///
    /// A disk outside the model may give other bytes than it gave to `begin`. What it gives now is
    /// returned as payloads, and no record of it reaches past the end.
    pub fn next(self) -> Result<Next<D>, OpenFault<D>>
        ensures same { SameDisk self.disk (opening_disk D.view result) }

        ensures given { InModel self.disk
            ((given left : List (List ℕ)) → HasGiven self given left
            → GivesNext given left result) }
        ensures cause { IfErr result (λ e. IsPassing e.cause) }
        ensures on { StepsOn self result }

        // It changes no byte, and at every moment each image is one that a crash could leave before.
        ensures looks { InModel self.disk
            (Looks self.disk.history (opening_disk D.view result).history) }

        // A failure of the disk is reported as one, and nothing else is.
        ensures faulty { IfErr result
            (λ e. e.cause ≡ OpenCause.Disk → Rises self.disk.faults (D.view e.disk).faults) }
        ensures steady { MatchResult result
            (λ next. (opening_disk D.view result).faults ≡ self.disk.faults)
            (λ e. (e.cause ≡ OpenCause.Disk → ⊥) → (D.view e.disk).faults ≡ self.disk.faults) }
    {
        let Opening {
            mut disk,
            mut window,
            gate,
            end,
        } = self;
        // A record has 6 bytes at least: its gate, four of its length, and a payload of one or more.
        if end - gate < 6 {
            return Ok(Next::End(Journal::ending_at(disk, window.area, end)));
        }
        match payload_at(&mut window, &mut disk, gate, end) {
            Ok(bytes) => {
                let opening = Opening {
                    disk,
                    window,
                    gate: gate + 5 + bytes.len() as u64,
                    end,
                };
                let bytes = Octets::from_vec(bytes);
                Ok(Next::Payload(opening, Payload { gate, bytes }))
            }
            Err(cause) => Err(OpenFault { cause, disk }),
        }
    }

    /// Keeps the memory of a payload for the next one.
    pub fn reuse(&mut self, payload: Payload)
        ensures { self.new ≡ self.old }
    {
        self.window.keep(payload.bytes.into_vec());
    }

    /// The disk, as it stands.
    pub fn into_disk(self) -> D
        ensures { D.view result ≡ self.disk }
    {
        let Opening { disk, .. } = self;
        disk
    }
}
