//! The host.
ghost use Rattle.std.specs.Prelude.{◌≡◌, ◌↔◌, List, [], true, false, IfOk, IfErr, OnErr, IsErrOf, MatchResult, length, option_map};
ghost use Rattle.std.specs.Option.{option_copied};
ghost use Rattle.disk_model.specs.Disk.{InModel, LeavesOnly, Looks, Rises, SameDisk, bytes_on};
ghost use Rattle.worksheet.specs.declared.op.Op.{Op};
ghost use Rattle.worksheet.specs.Contents.{Contents};
ghost use Rattle.worksheet.specs.Ops.{sheet_of};
ghost use Rattle.worksheet.specs.Checks.{Allowed};
ghost use Rattle.recovery.specs.Sheets.{IsSheetImage, TellsOfSheet};
ghost use Rattle.plugin_core.specs.Items.{prompt_of};
ghost use Rattle.session_engine.specs.World.{World, in_flight, life_of, world_at_opening, sheet_in, waiting_in};
ghost use Rattle.session_engine.specs.Host.{EndsAt, HostGivesSheet, IsHost, Took, disk_of_opening, number_in};
ghost use Rattle.session_engine.specs.Faults.{Failed};

use crate::buffered::BufferedHost;
use disk_model::Disk;
use host_events::{Command, Event, HostFault, Outcome};
use journal::{OpenCause, OpenFault};
use std::alloc::Global;
use std::marker::Model;
use worksheet::{Name, Sheet};

/// A worksheet on a disk, and the interpreters of its sessions (docs/dev/HOST.md).
///
/// It takes commands and what comes of calls on child processes, one event at a time, and returns what
/// is to be done with those processes. It starts none itself. Each change of the worksheet is on the
/// disk before it is reported.
///
/// A host stands for a world, which is where its events have led since it was opened. That is the
/// relation `IsHost`, which `open` gives and `step` and `play` carry on. After a fault it is closed,
/// and its disk is to be opened again.
#[derive(Drop)]
pub struct Host<D: Disk> {
    // Between two calls it gathers no records.
    pub(crate) inner: BufferedHost<D>,
}

impl<D: Disk> Model for Host<D> {
    ghost use Rattle.session_engine.specs.Host.{HostView};
    ghost use Rattle.std.specs.Coded.{codes};
    ghost use Rattle.recovery.specs.inside.Codes.{coded_store};

    ghost Value = { HostView };

    ghost coded = { Prim.hlevel (codes, coded_store) };

    ghost use Rattle.std.specs.Prelude.{◌≡◌, false};

    ghost view = { λ h. h.inner };

    ghost invariant = { λ h. h.inner.store.gathers ≡ false };
}

impl<D: Disk> Host<D> {
    ghost use Rattle.host_events.specs.declared.command.Command.TheVariants as command;
    ghost use Rattle.host_events.specs.declared.event.Event.TheVariants as event;

    /// Opens a disk that a crash may have left, with the worksheet that it stands for. No session has a
    /// life, and none has a number. It writes nothing. A disk that stands for no worksheet is refused
    /// with its first damage (docs/trust/FORMAT.md, "Opening").
    pub fn open(alloc: Global, disk: D) -> Result<Host<D>, OpenFault<D>>
        ensures same { SameDisk (D.view disk) (disk_of_opening D.view result) }

        // The host stands for the world of any allowed ops that make its worksheet, and there are such.
        ensures opens { IfOk result (λ host. (ops : List Op)
            × IsHost host (world_at_opening ops (D.view disk).room host.store.end)) }
        ensures stands { IfOk result (λ host. (ops : List Op) → Allowed ops
            → host.store.sheet.contents ≡ sheet_of ops
            → IsHost host (world_at_opening ops (D.view disk).room host.store.end)) }

        // The worksheet is the one that the disk stands for, and one that stands for a worksheet is opened.
        ensures found { InModel (D.view disk) (IfOk result
            (λ host. IsSheetImage host.store.sheet.contents (bytes_on (D.view disk)))) }
        ensures exact { InModel (D.view disk) ((sheet : Contents)
            → IsSheetImage sheet (bytes_on (D.view disk)) → HostGivesSheet sheet result) }
        ensures ends { InModel (D.view disk) (IfOk result
            (λ host. EndsAt (bytes_on (D.view disk)) host.store.end)) }
        ensures fault { InModel (D.view disk) (IfErr result
            (λ e. TellsOfSheet (bytes_on (D.view disk)) e.cause)) }
        ensures faulty { IfErr result (λ e. e.cause ≡ OpenCause.Disk
            → Rises (D.view disk).faults (D.view e.disk).faults) }

        // A failure of the disk is reported as one, and nothing else is.
        ensures steady { MatchResult result
            (λ host. host.store.disk.faults ≡ (D.view disk).faults)
            (λ e. (e.cause ≡ OpenCause.Disk → ⊥) → (D.view e.disk).faults ≡ (D.view disk).faults) }

        // It changes no byte, and at every moment each image is one that a crash could leave at the start.
        ensures looks { InModel (D.view disk)
            (Looks (D.view disk).history (disk_of_opening D.view result).history) }
    {
        match BufferedHost::open(alloc, disk) {
            Ok(inner) => Ok(Host { inner }),
            Err(fault) => Err(fault),
        }
    }

    /// Takes one event. What it does is described in docs/dev/HOST.md, "What an event does", and which
    /// fault it can have in "Faults" there.
    ///
    /// A refused command changes nothing and writes nothing. At `Ok` what the event did is durable. At
    /// `Err` the host is closed: the worksheet, and the number of each life, are as before the event. Of a
    /// host that was closed already `still` speaks.
    pub fn step(&mut self, event: Event) -> Result<Outcome, HostFault>
        ensures same { SameDisk self.old.store.disk self.new.store.disk }
        ensures took { (w : World) → IsHost self.old w
            → IfOk result (Took w event self.old self.new) }
        ensures failed { (w : World) → IsHost self.old w
            → IfErr result (Failed w event self.old self.new) }
        ensures closed { IsErrOf result HostFault.Closed ↔ (self.old.closed ≡ true) }
        ensures closes { OnErr result (self.new.closed ≡ true) }
        ensures still { self.old.closed ≡ true → self.new ≡ self.old }
    {
        self.inner.step(event)
    }

    /// Rewrites the journal into the area that isn't active, with the ops that make the same worksheet
    /// (docs/dev/HOST.md, "A checkpoint"). It is the step of a `Command::Checkpoint`: the reply is `Done`,
    /// or `Refused` with `JournalFull` where those ops have no room, or with `OutOfMemory`. There is no
    /// effect, and lives go on. `HostFault::Closed` and `HostFault::Disk` are its faults.
    pub fn checkpoint(&mut self) -> Result<Outcome, HostFault>
        ensures same { SameDisk self.old.store.disk self.new.store.disk }
        ensures took { (w : World) → IsHost self.old w
            → IfOk result (Took w (event.Command command.Checkpoint) self.old self.new) }
        ensures failed { (w : World) → IsHost self.old w
            → IfErr result (Failed w (event.Command command.Checkpoint) self.old self.new) }
        ensures closed { IsErrOf result HostFault.Closed ↔ (self.old.closed ≡ true) }
        ensures closes { OnErr result (self.new.closed ≡ true) }
        ensures still { self.old.closed ≡ true → self.new ≡ self.old }

        // The worksheet stays, and the number of its next new field.
        ensures sheet { self.new.store.sheet.contents ≡ self.old.store.sheet.contents }

        // A crash at any moment of the call leaves the same worksheet.
        ensures any_moment { InModel self.old.store.disk (self.old.closed ≡ false
            → LeavesOnly (IsSheetImage self.old.store.sheet.contents) self.old.store.disk.history
            self.new.store.disk.history) }
    {
        // Called for its contract alone: the worksheet is one that ops make.
        let _sheet = self.sheet();
        self.step(Event::Command(Command::Checkpoint))
    }

    /// The worksheet. After a fault it is that of the events before it; where the disk failed in a group, that
    /// after the events of it that were taken.
    pub fn sheet(&self) -> &Sheet
        ensures sheet { result.now ≡ self.now.store.sheet }
        ensures stands { (w : World) → IsHost self.now w → result.now.contents ≡ sheet_in w }

        // A host that isn't closed stands for some world.
        ensures works { self.now.closed ≡ false → (w : World) × IsHost self.now w }

        // Nothing is owed to its disk: what is said of that is said of the disk as it stands.
        ensures written { (self.now.store.owed ≡ []) × (self.now.store.real ≡ self.now.store.disk) }
    {
        self.inner.sheet()
    }

    /// The life of a session, where one goes on. After a fault its number is that from before the event,
    /// and nothing is claimed of `waiting`.
    pub fn life(&self, name: Name) -> Option<LifeView>
        ensures number { option_map (λ l. l.number) result ≡ number_in self.now.lives name }
        ensures life { (w : World) → IsHost self.now w
            → result ≡ option_map
            (λ l. record { number = l.number; waiting = length (waiting_in l) }) (life_of w name) }
    {
        self.inner.life(name)
    }

    /// Whether the line of the field with this number waits for an answer, be it sent or not. After a
    /// fault nothing is claimed of it.
    pub fn is_waiting(&self, id: u32) -> bool
        ensures { (w : World) → IsHost self.now w → result ≡ in_flight w id }
    {
        self.inner.is_waiting(id)
    }

    /// The prompt that a line of this session would have if it were asked now, where a life of it goes
    /// on: that of its latest answer that has one, cut to 1,024 bytes, or `> `. After a fault nothing is
    /// claimed of it.
    pub fn prompt(&self, name: Name) -> Option<&[u8]>
        ensures prompt { (w : World) → IsHost self.now w
            → option_copied result ≡ option_map (λ l. prompt_of l.past l.blocks) (life_of w name) }
    {
        self.inner.prompt(name)
    }

    /// The same host, for who only looks at it.
    pub fn looks(&self) -> &BufferedHost<D>
        ensures { result.now ≡ self.now }
    {
        &self.inner
    }

    /// Gives the disk back as it stands. Lives that go on are dropped.
    pub fn close(self) -> D
        ensures { D.view result ≡ self.store.disk }
    {
        let Host { inner } = self;
        inner.close()
    }
}

/// A life that goes on.
#[derive(Clone, Copy, Debug, PartialEq, Eq)]
pub struct LifeView {
    /// Its number: 1 for the first life that the host began.
    pub number: u32,
    /// How many of its items have no answer: at most 1,024.
    pub waiting: u32,
}
