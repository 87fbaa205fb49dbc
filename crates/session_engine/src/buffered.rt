//! A host that may hold records back.
ghost use Rattle.std.specs.Prelude.{◌≡◌, ◌⊎◌, ◌↔◌, List, [], true, false, IfOk, IfErr, OnErr, OnOk, IsErrOf, MatchResult, length, option_map};
ghost use Rattle.std.specs.Option.{option_copied};
ghost use Rattle.disk_model.specs.Disk.{InModel, Looks, Rises, SameDisk, bytes_on};
ghost use Rattle.worksheet.specs.declared.op.Op.{Op};
ghost use Rattle.worksheet.specs.Contents.{Contents};
ghost use Rattle.worksheet.specs.Ops.{sheet_of};
ghost use Rattle.worksheet.specs.Checks.{Allowed};
ghost use Rattle.recovery.specs.Sheets.{IsSheetImage, TellsOfSheet};
ghost use Rattle.plugin_core.specs.Items.{prompt_of};
ghost use Rattle.session_engine.specs.World.{World, in_flight, life_of, world_at_opening, sheet_in, waiting_in};
ghost use Rattle.session_engine.specs.Host.{EndsAt, HostGivesSheet, IsHost, Took, disk_of_opening, number_in};
ghost use Rattle.session_engine.specs.Faults.{Failed};
ghost use Rattle.session_engine.specs.Gathers.{FlushesTo, GathersUnlessCheckpoint, IsFlushed, is_checkpoint};

use crate::engine::Engine;
use crate::host::LifeView;
use crate::table::place_of;
use disk_model::Disk;
use host_events::{Event, HostFault, Outcome};
use journal::{Group, OpenCause, OpenFault};
use recovery::Store;
use std::alloc::Global;
use std::marker::Model;
use worksheet::{Name, Sheet};

/// A host that may hold records back (docs/dev/HOST.md, "Many events, one gate"). After `gather` an event that
/// gives an op writes and syncs nothing; `flush` makes all that is owed durable, and one gate commits it.
/// Its public calls answer as those of [`Host`](crate::Host) with their names, and what is owed counts as done.
///
/// What the contracts say of `store.disk` is said of the disk as it is owed: as it would be if each record
/// had been appended. As it stands it is `store.real`, and where nothing is owed they are one. Nothing may
/// be reported of an event, nor its effect be carried out, before a `flush` after it.
#[derive(Drop)]
pub struct BufferedHost<D: Disk> {
    pub(crate) engine: Engine<D>,
    pub(crate) closed: bool,
}

impl<D: Disk> Model for BufferedHost<D> {
    ghost use Rattle.session_engine.specs.Host.{HostView};
    ghost use Rattle.std.specs.Coded.{codes};
    ghost use Rattle.recovery.specs.inside.Codes.{coded_store};

    ghost Value = { HostView };

    ghost coded = { Prim.hlevel (codes, coded_store) };

    ghost use Rattle.std.specs.Prelude.{◌≡◌, false};
    ghost use Rattle.session_engine.specs.inside.Engines.{view_of, Works};

    ghost view = { λ h. view_of h.engine h.closed };

    ghost invariant = { λ h. h.closed ≡ false → Works h.engine };
}

impl<D: Disk> BufferedHost<D> {
    /// Opens a disk. Nothing is owed.
    pub(crate) fn open(alloc: Global, disk: D) -> Result<BufferedHost<D>, OpenFault<D>>
        ensures same { SameDisk (D.view disk) (disk_of_opening D.view result) }

        // The host stands for the world of any allowed ops that make its worksheet, and there are such.
        ensures opens { IfOk result (λ host. (ops : List Op)
            × IsHost host (world_at_opening ops (D.view disk).room host.store.end)) }
        ensures stands { IfOk result (λ host. (ops : List Op) → Allowed ops
            → host.store.sheet.contents ≡ sheet_of ops
            → IsHost host (world_at_opening ops (D.view disk).room host.store.end)) }

        // Nothing is owed, and records are written at once.
        ensures written { IfOk result (λ host. (host.store.owed ≡ []) × (host.store.gathers ≡ false)
            × (host.store.real ≡ host.store.disk)) }

        // The worksheet is the one that the disk stands for, and one that stands for a worksheet is opened.
        ensures found { InModel (D.view disk) (IfOk result
            (λ host. IsSheetImage host.store.sheet.contents (bytes_on (D.view disk)))) }
        ensures exact { InModel (D.view disk) ((sheet : Contents)
            → IsSheetImage sheet (bytes_on (D.view disk)) → HostGivesSheet sheet result) }
        ensures ends { InModel (D.view disk) (IfOk result
            (λ host. EndsAt (bytes_on (D.view disk)) host.store.end)) }
        ensures fault { InModel (D.view disk) (IfErr result
            (λ e. TellsOfSheet (bytes_on (D.view disk)) e.cause)) }
        ensures faulty { IfErr result (λ e. e.cause ≡ OpenCause.Disk
            → Rises (D.view disk).faults (D.view e.disk).faults) }

        // A failure of the disk is reported as one, and nothing else is.
        ensures steady { MatchResult result
            (λ host. host.store.disk.faults ≡ (D.view disk).faults)
            (λ e. (e.cause ≡ OpenCause.Disk → ⊥) → (D.view e.disk).faults ≡ (D.view disk).faults) }

        // It changes no byte, and at every moment each image is one that a crash could leave at the start.
        ensures looks { InModel (D.view disk)
            (Looks (D.view disk).history (disk_of_opening D.view result).history) }
    {
        let store = match Store::open(alloc, disk) {
            Ok(store) => store,
            Err(fault) => return Err(fault),
        };
        // Called for its contract alone: the worksheet is one that ops make.
        let _sheet = store.sheet();
        Ok(BufferedHost {
            engine: Engine {
                alloc,
                store,
                lives: Vec::new(alloc),
                begun: 0,
            },
            closed: false,
        })
    }

    /// Takes one event. While records are owed, at `Ok` what it did is owed.
    pub(crate) fn step(&mut self, event: Event) -> Result<Outcome, HostFault>
        ensures same { SameDisk self.old.store.disk self.new.store.disk }
        ensures took { (w : World) → IsHost self.old w
            → IfOk result (Took w event self.old self.new) }
        ensures failed { (w : World) → IsHost self.old w
            → IfErr result (Failed w event self.old self.new) }
        ensures closed { IsErrOf result HostFault.Closed ↔ (self.old.closed ≡ true) }
        ensures closes { OnErr result (self.new.closed ≡ true) }
        ensures still { self.old.closed ≡ true → self.new ≡ self.old }

        // While records are owed an event leaves the disk as it stands alone, unless it is a checkpoint; and
        // the disk can't fail then.
        ensures gathers { GathersUnlessCheckpoint event self.old.store self.new.store }
        ensures at_once { IsErrOf result HostFault.Disk → is_checkpoint event ≡ false
            → self.old.store.gathers ≡ false }
        ensures written { self.old.store.gathers ≡ false → self.new.store.gathers ≡ false }
    {
        if self.closed {
            return Err(HostFault::Closed);
        }
        let outcome = self.engine.take(event);
        if outcome.is_err() {
            self.closed = true;
        }
        outcome
    }

    /// The worksheet. It may be ahead of the disk.
    pub fn sheet(&self) -> &Sheet
        ensures sheet { result.now ≡ self.now.store.sheet }
        ensures stands { (w : World) → IsHost self.now w → result.now.contents ≡ sheet_in w }

        // A host that isn't closed stands for some world.
        ensures works { self.now.closed ≡ false → (w : World) × IsHost self.now w }

        // Where records are written at once nothing is owed, and the disk is as it stands.
        ensures written { self.now.store.gathers ≡ false
            → (self.now.store.owed ≡ []) × (self.now.store.real ≡ self.now.store.disk) }
    {
        self.engine.store.sheet()
    }

    /// The life of a session, where one goes on.
    pub fn life(&self, name: Name) -> Option<LifeView>
        ensures number { option_map (λ l. l.number) result ≡ number_in self.now.lives name }
        ensures life { (w : World) → IsHost self.now w
            → result ≡ option_map
            (λ l. record { number = l.number; waiting = length (waiting_in l) }) (life_of w name) }
    {
        match place_of(&self.engine.lives, name) {
            Some(place) => {
                let running = &self.engine.lives[place];
                Some(LifeView {
                    number: running.life.number(),
                    waiting: running.life.waiting(),
                })
            }
            None => None,
        }
    }

    /// Whether the line of the field with this number waits for an answer.
    pub fn is_waiting(&self, id: u32) -> bool
        ensures { (w : World) → IsHost self.now w → result ≡ in_flight w id }
    {
        self.engine.is_in_flight(id)
    }

    /// The prompt that a line of this session would have if it were asked now.
    pub fn prompt(&self, name: Name) -> Option<&[u8]>
        ensures prompt { (w : World) → IsHost self.now w
            → option_copied result ≡ option_map (λ l. prompt_of l.past l.blocks) (life_of w name) }
    {
        match place_of(&self.engine.lives, name) {
            Some(place) => {
                let running = &self.engine.lives[place];
                Some(running.life.prompt())
            }
            None => None,
        }
    }

    /// From now on records are owed, in this group, which has none yet, until a `flush` or a checkpoint.
    /// Of a host that gathers already nothing is changed.
    pub(crate) fn gather(&mut self, group: Group)
        requires { group.payloads ≡ [] }
        ensures goes_on { (w : World) → IsHost self.old w → IsHost self.new w }
        ensures disk { self.new.store.disk ≡ self.old.store.disk }
        ensures real { self.new.store.real ≡ self.old.store.real }
        ensures start { self.new.store.start ≡ self.old.store.start }
        ensures owed { self.new.store.owed ≡ self.old.store.owed }
        ensures closed { self.new.closed ≡ self.old.closed }
        ensures open { self.new.store.closed ≡ self.old.store.closed }
        ensures gathers { self.old.store.closed ≡ false → self.new.store.gathers ≡ true }
    {
        self.engine.store.gather(group);
    }

    /// Makes durable what is owed: one gate commits all of it. From then on records are written at once,
    /// until the next `gather`. It takes no memory, and where nothing is owed it makes no call.
    ///
    /// After `HostFault::Disk` the host is closed, and its worksheet may be ahead of the disk: nothing may be
    /// reported of what was owed. `HostFault::Closed`: the disk failed before. A host that another fault has
    /// closed still owes what came before that, and flushes it.
    pub(crate) fn flush(&mut self) -> Result<(), HostFault>
        ensures same { SameDisk self.old.store.real self.new.store.real }
        ensures goes_on { (w : World) → IsHost self.old w → OnOk result (IsHost self.new w) }
        ensures flushed { OnOk result (IsFlushed self.new) }
        ensures stays { OnOk result (self.new.closed ≡ self.old.closed) }
        ensures written { self.old.store.closed ≡ false → self.new.store.gathers ≡ false }
        ensures nothing { self.old.store.closed ≡ false → self.old.store.owed ≡ []
            → MatchResult result (λ _. self.new.store.real ≡ self.old.store.real) (λ _. ⊥) }
        ensures sheet { self.new.store.sheet ≡ self.old.store.sheet }
        ensures lives { self.new.lives ≡ self.old.lives }
        ensures closed { IsErrOf result HostFault.Closed ↔ (self.old.store.closed ≡ true) }
        ensures closes { OnErr result (self.new.closed ≡ true) }
        ensures faulty { IsErrOf result HostFault.Disk
            → Rises self.old.store.real.faults self.new.store.real.faults }
        ensures other { IfErr result (λ fault. (fault ≡ HostFault.Closed)
            ⊎ (fault ≡ HostFault.Disk)) }
        ensures still { self.old.store.closed ≡ true → self.new.store ≡ self.old.store }

        // A crash at any moment of the call leaves the worksheet that the disk had before it, or this one.
        ensures any_moment { FlushesTo self.old.store.sheet.contents self.old.store self.new.store }
    {
        if self.engine.store.is_closed() {
            self.closed = true;
            return Err(HostFault::Closed);
        }
        match self.engine.store.flush() {
            Ok(()) => Ok(()),
            Err(_) => {
                self.closed = true;
                Err(HostFault::Disk)
            }
        }
    }

    /// Gives the disk back as it stands: what is owed to it isn't there. Lives that go on are dropped.
    pub(crate) fn close(self) -> D
        ensures real { D.view result ≡ self.store.real }
        ensures written { self.store.gathers ≡ false → D.view result ≡ self.store.disk }
    {
        let BufferedHost { engine, closed: _ } = self;
        engine.store.into_disk()
    }
}
