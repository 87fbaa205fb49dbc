//! Children that are processes: each call on a child is handed on to the process of its life.
ghost use Rattle.std.specs.Prelude.{◌≡◌, ◌⊎◌, ◌<◌, ◌≤◌, Err, IfOk, IfSome, OnErr, OnOk, is_some, length, position};
ghost use Rattle.child_calls.specs.Answers.{HasSize, longest_piece, received};
ghost use Rattle.child_calls.specs.Calls.{Answer, fault};
ghost use Rattle.child_calls.specs.Deeds as deed;
ghost use Rattle.child_calls.specs.Handing.{runs_for};

use crate::children::{ChildFault, Children, ReceiveFault, Received};
use crate::process::{Launcher, Process};
use crate::seat::Seat;
use block_tree::Octets;
use bytes::BytesMut;
use std::alloc::{AllocError, Global};
use worksheet::Name;

/// The most bytes of one piece.
pub const LONGEST_PIECE: usize = 65_536;

/// The fewest bytes that are left of a room in which a piece is read: else a new one is taken.
const LEAST_ROOM: usize = 32_768;

/// The largest block of memory that is kept for the next answer, in bytes: glibc's own limit is 33,554,432.
const LARGEST_KEPT: usize = 33_500_000;

/// The process of a life.
#[derive(Drop)]
pub struct RunningProcess<P> {
    pub name: Name,
    pub life: u32,
    pub process: P,
}

/// Children that are processes, which a launcher starts.
///
/// `receive` and `stop` may wait for the process, and `send` where its write does. A receive is one read. A start that is refused for lack
/// of memory is a fault of that start.
#[derive(Drop)]
pub struct Lives<L: Launcher + Drop> {
    alloc: Global,
    launcher: L,
    pub(crate) running: Vec<RunningProcess<L::Process>>,
    /// What is left of the room in which pieces are read. Small ones, of any life, share it.
    room: BytesMut,
}

impl<L: Launcher + Drop> Lives<L> {
    /// No child as yet. They are started by this launcher.
    pub fn over(launcher: L, alloc: Global) -> Lives<L> {
        Lives {
            alloc,
            launcher,
            running: Vec::new(alloc),
            room: BytesMut::new(alloc),
        }
    }

    /// Whether the child of this life runs: it was started and not stopped.
    pub fn runs(&self, seat: Seat) -> bool
        ensures { result ≡ is_some (position (runs_for seat.name seat.life)
            self.now.running.items) }
    {
        place(self.running.as_slice(), seat.name, seat.life).is_some()
    }
}

/// Where the process of a life is.
fn place<P>(running: &[RunningProcess<P>], name: Name, life: u32) -> Option<usize>
    ensures at_it { result ≡ position (runs_for name life) running.now }
    ensures fits { IfSome result (λ i. i < length running.now) }
{
    running
        .iter()
        .position(|running| running.name == name && running.life == life)
}

/// Has memory kept that is given back. glibc returns each block above a threshold to the system, and raises the
/// threshold to the largest block that it has returned: this one. Else the pages of each large answer would be
/// taken and cleared again. So twice that is kept at most. Where the block is refused, nothing else changes.
fn keep_memory(alloc: Global) {
    drop(Vec::<u8>::with_capacity(alloc, LARGEST_KEPT));
}

/// Makes room for a piece, where little is left, and takes all memory for it: a byte in front of it is shared at
/// once, and a block that has been shared is shared again without memory. It is cleared once, not for each piece.
fn make_room(alloc: Global, room: &mut BytesMut) -> Result<(), AllocError>
    ensures ok { OnOk result ((0 < length room.new.items) × (length room.new.items
        ≤ longest_piece)) }
    ensures err { OnErr result (room.new ≡ room.old) }
{
    if (LEAST_ROOM..=LONGEST_PIECE).contains(&room.len()) {
        return Ok(());
    }
    let mut fresh = BytesMut::zeroed(alloc, LONGEST_PIECE + 1)?;
    let _front = fresh.freeze_to(1)?;
    *room = fresh;
    Ok(())
}

/// One read of a process into this room, whose front becomes the piece.
fn read_piece<P: Process>(process: &mut P, room: &mut BytesMut) -> Result<Received, ReceiveFault>
    requires some { 0 < length room.old.items }
    requires few { length room.old.items ≤ longest_piece }
    ensures gave { (came : Answer) × P.did process.old deed.read came process.new
        × ((received result ≡ came) ⊎ (received result ≡ fault)) }
    ensures remembers { result ≡ Err ReceiveFault.OutOfMemory → ⊥ }
    ensures size { IfOk result HasSize }
{
    let Ok(len) = process.read(room.as_mut_slice()) else {
        return Err(ReceiveFault::Child);
    };
    if len == 0 {
        return Ok(Received::End);
    }
    match room.freeze_to(len) {
        Ok(piece) => Ok(Received::Piece(piece)),
        Err(_) => Err(ReceiveFault::Child),
    }
}

impl<L: Launcher + Drop> Children for Lives<L> {
    ghost use Rattle.child_calls.specs.Handing.{HandsOn, stand, ways};

    ghost after = { λ c call answer d. HandsOn (ways L.launched L.signalled L.Process.did)
        (stand c.launcher c.running.items) call answer (stand d.launcher d.running.items) };

    fn start(&mut self, name: Name, life: u32, words: &[Octets]) -> Result<(), ChildFault> {
        if self.running.is_empty() {
            keep_memory(self.alloc);
        }
        // Its place is made first: a child that runs is never lost for lack of memory.
        let Ok(()) = self.running.reserve(1) else {
            return Err(ChildFault);
        };
        match self.launcher.launch(words) {
            Ok(process) => {
                self.running.push_reserved(RunningProcess {
                    name,
                    life,
                    process,
                });
                Ok(())
            }
            Err(fault) => Err(fault),
        }
    }

    fn send(&mut self, name: Name, life: u32, bytes: &[u8]) -> Result<(), ChildFault> {
        let Some(i) = place(self.running.as_slice(), name, life) else {
            return Err(ChildFault);
        };
        self.running[i].process.write(bytes)
    }

    fn receive(&mut self, name: Name, life: u32) -> Result<Received, ReceiveFault> {
        let Ok(()) = make_room(self.alloc, &mut self.room) else {
            return Err(ReceiveFault::OutOfMemory);
        };
        let Some(i) = place(self.running.as_slice(), name, life) else {
            return Err(ReceiveFault::Child);
        };
        read_piece(&mut self.running[i].process, &mut self.room)
    }

    fn interrupt(&mut self, name: Name, life: u32) -> Result<(), ChildFault> {
        let Some(i) = place(self.running.as_slice(), name, life) else {
            return Err(ChildFault);
        };
        self.launcher.interrupt(&mut self.running[i].process)
    }

    fn stop(&mut self, name: Name, life: u32) -> Result<(), ChildFault> {
        let Some(i) = place(self.running.as_slice(), name, life) else {
            return Err(ChildFault);
        };
        let mut running = self.running.remove(i);
        running.process.end()
    }
}
