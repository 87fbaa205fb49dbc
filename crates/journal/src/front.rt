//! The payloads at the front of a journal, one after another.
ghost use Rattle.std.specs.Prelude.{◌≡◌, ◌≤◌, ◌<◌, List, ℕ, [], IfErr, IfOk, MatchResult};
ghost use Rattle.disk_model.specs.Disk.{InModel, Looks, SameDisk, Rises, bytes_on, greatest_room};
ghost use Rattle.journal.specs.Area.{first_gate};
ghost use Rattle.journal.specs.Front.{HasGivenFront, ImageHasFront, TellsHeader};
ghost use Rattle.journal.specs.Open.{IsPassing};

use crate::layout::FIRST_GATE;
use crate::opening::survey_front;
use crate::walk::payload_at;
use crate::window::Window;
use crate::{OpenCause, OpenFault, Payload};
use block_tree::Octets;
use disk_model::Disk;
use std::alloc::Global;
use std::marker::Model;

/// The whole records at the front of a journal, up to the first gate that is closed or damaged. It
/// gives their payloads one after another, also where an [`Opening`](crate::Opening) is refused as
/// damaged, and has none of them in memory (docs/trust/FORMAT.md, "Rescue"). It writes nothing.
///
/// Contracts see its disk, the offset of the gate whose payload comes next, that of the gate after
/// all whole records, and whether that one is damaged. Which payloads it has given is said by
/// `HasGivenFront`: `begin` gives it, `next` carries it on.
#[derive(Drop)]
pub struct Front<D: Disk> {
    disk: D,
    window: Window,
    gate: u64,
    end: u64,
    damaged: bool,
}

impl<D: Disk> Model for Front<D> {
    ghost use Rattle.std.specs.Prelude.{◌<◌, ◌≤◌};
    ghost use Rattle.disk_model.specs.Disk.{InModel, area_of, bytes_on};
    ghost use Rattle.journal.specs.Area.{first_gate};
    ghost use Rattle.journal.specs.inside.Active.{IsActive};
    ghost use Rattle.journal.specs.Front.{FrontView};
    ghost use Rattle.journal.specs.inside.Window.{Shows};

    ghost Value = { FrontView };

    ghost view = { λ f. record { disk = D.view f.disk; gate = f.gate; end = f.end; damaged = f.damaged } };

    ghost invariant = { λ f. (first_gate ≤ f.gate) × (f.gate ≤ f.end) × (f.end < f.window.limit)
        × InModel (D.view f.disk)
        (IsActive f.window.area (bytes_on (D.view f.disk))
        × Shows f.window (area_of f.window.area (bytes_on (D.view f.disk)))) };
}

/// What comes next in a front.
#[derive(Drop)]
pub enum InFront<D: Disk> {
    /// The next payload, and the front after it.
    Payload(Front<D>, Payload),
    /// All payloads were given. Here is the disk, and the offset of the gate after them where that is
    /// damaged.
    End(D, Option<u64>),
}

impl<D: Disk> Front<D> {
    ghost use Rattle.journal.specs.NextFront.{disk_of_front, disk_in_front, GivesInFront, StepsInFront};

    /// Begins to read a disk that a crash or damage may have left: it makes area First and the active
    /// one durable, and walks over the gates by their length fields alone. It writes nothing. A disk
    /// without a header is refused as `NotASheet`; damage is no refusal here.
    pub fn begin(alloc: Global, disk: D) -> Result<Front<D>, OpenFault<D>>
        ensures same { SameDisk (D.view disk) (disk_of_front D.view result) }

        // None of the payloads of its whole records is given yet.
        ensures found { InModel (D.view disk)
            (IfOk result (λ front. (payloads : List (List ℕ))
            × ImageHasFront (bytes_on (D.view disk)) payloads front.damaged
            × HasGivenFront front [] payloads)) }
        ensures fault { InModel (D.view disk)
            (IfErr result (λ e. TellsHeader (bytes_on (D.view disk)) e.cause)) }

        // Whether the disk keeps the model or not, it stands at the first gate.
        ensures first { IfOk result
            (λ front. (front.gate ≡ first_gate) × (first_gate ≤ front.end)
            × (front.end ≤ greatest_room)) }

        // It changes no byte, and at every moment each image is one that a crash could leave at the start.
        ensures looks { InModel (D.view disk)
            (Looks (D.view disk).history (disk_of_front D.view result).history) }

        // A failure of the disk is reported as one, and nothing else is.
        ensures faulty { IfErr result
            (λ e. e.cause ≡ OpenCause.Disk → Rises (D.view disk).faults (D.view e.disk).faults) }
        ensures steady { MatchResult result
            (λ front. front.disk.faults ≡ (D.view disk).faults)
            (λ e. (e.cause ≡ OpenCause.Disk → ⊥) → (D.view e.disk).faults ≡ (D.view disk).faults) }
    {
        let mut disk = disk;
        match survey_front(alloc, &mut disk) {
            Ok((window, stop)) => Ok(Front {
                disk,
                window,
                gate: FIRST_GATE,
                end: stop.gate,
                damaged: stop.damaged,
            }),
            Err(cause) => Err(OpenFault { cause, disk }),
        }
    }

    /// The next payload with the front after it, or the disk where all were given. It writes nothing,
    /// and only a failure of the disk or refused memory keeps a payload back.
    ///
    /// What a disk outside the model gives now is returned as payloads, as by an
    /// [`Opening`](crate::Opening).
    pub fn next(self) -> Result<InFront<D>, OpenFault<D>>
        ensures same { SameDisk self.disk (disk_in_front D.view result) }

        ensures given { InModel self.disk
            ((given left : List (List ℕ)) → HasGivenFront self given left
            → GivesInFront given left result) }
        ensures cause { IfErr result (λ e. IsPassing e.cause) }
        ensures on { StepsInFront self result }

        // It changes no byte, and at every moment each image is one that a crash could leave before.
        ensures looks { InModel self.disk
            (Looks self.disk.history (disk_in_front D.view result).history) }

        // A failure of the disk is reported as one, and nothing else is.
        ensures faulty { IfErr result
            (λ e. e.cause ≡ OpenCause.Disk → Rises self.disk.faults (D.view e.disk).faults) }
        ensures steady { MatchResult result
            (λ next. (disk_in_front D.view result).faults ≡ self.disk.faults)
            (λ e. (e.cause ≡ OpenCause.Disk → ⊥) → (D.view e.disk).faults ≡ self.disk.faults) }
    {
        let Front {
            mut disk,
            mut window,
            gate,
            end,
            damaged,
        } = self;
        // A record has 6 bytes at least: its gate, four of its length, and a payload of one or more.
        if end - gate < 6 {
            let damage = if damaged { Some(end) } else { None };
            return Ok(InFront::End(disk, damage));
        }
        match payload_at(&mut window, &mut disk, gate, end) {
            Ok(bytes) => {
                let front = Front {
                    disk,
                    window,
                    gate: gate + 5 + bytes.len() as u64,
                    end,
                    damaged,
                };
                let bytes = Octets::from_vec(bytes);
                Ok(InFront::Payload(front, Payload { gate, bytes }))
            }
            Err(cause) => Err(OpenFault { cause, disk }),
        }
    }

    /// The disk, as it stands.
    pub fn into_disk(self) -> D
        ensures { D.view result ≡ self.disk }
    {
        let Front { disk, .. } = self;
        disk
    }
}
