//! Sources whose interpreters are listened to.
ghost use Rattle.std.specs.Prelude.{◌≡◌, IsErr, false, true};
ghost use Rattle.child_calls.specs.Answers.{received};
ghost use Rattle.partial_output.specs.Beside.{WritesBeside, received_text};

use crate::piece::Beside;
use arrivals::{Input, Sources, WatchFault, Woken};
use block_tree::Octets;
use child_calls::{ChildFault, Children, ReceiveFault, Received, Seat};
use std::alloc::Global;
use std::io::Write;
use worksheet::Name;

/// Sources that can write out what their interpreters write before it is an answer.
pub trait TellsPartial: Sources {
    /// The sources before they begin to, and after.
    ghost begins: { Self → Self → Type 0 };

    /// From now on each piece is written out that is received and ends no block.
    fn tell_partial(&mut self)
        ensures { begins self.old self.new };
}

/// Sources, and the writer to which a piece goes that ends no block, as a line of JSON, where that was asked for.
///
/// Each call is handed on as it is. The relations of these sources say what is written beside at each: nothing, where that wasn't asked
/// for; else the line of a piece that was received. Where there is no memory for a line, or the writer fails, a beginning of it was written at
/// most, and nothing more is.
#[derive(Drop)]
pub struct Partial<S: Sources + Drop, W: Write + Drop> {
    sources: S,
    beside: Beside<W>,
}

impl<S: Sources + Drop, W: Write + Drop> Partial<S, W> {
    /// These sources, and this writer. Nothing is written yet.
    pub fn new(alloc: Global, sources: S, writer: W) -> Partial<S, W>
        ensures sources { result.sources ≡ sources }
        ensures silent { result.beside.tells ≡ false }
    {
        Partial {
            sources,
            beside: Beside::new(alloc, writer),
        }
    }

    /// Writes out what was received, where it is such a piece.
    #[tactic(auto, using(crate::proofs::Fronts::fronts))]
    fn tell_received(&mut self, seat: Seat, came: &Result<Received, ReceiveFault>)
        ensures sources { self.new.sources ≡ self.old.sources }
        ensures beside { WritesBeside W.contents self.old.beside
            (received_text seat.name seat.life (received came.now)) self.new.beside }
        ensures fault { IsErr came.now → self.new ≡ self.old }
    {
        match came {
            Ok(Received::Piece(piece)) => self.beside.tell(seat, piece.as_slice()),
            Ok(Received::End) | Err(_) => {}
        }
    }
}

impl<S: Sources + Drop, W: Write + Drop> TellsPartial for Partial<S, W> {
    ghost begins = { λ old new. (new.sources ≡ old.sources) × (new.beside.writer ≡ old.beside.writer) × (new.beside.tells ≡ true) };

    fn tell_partial(&mut self) {
        self.beside.begin();
    }
}

#[tactic(auto, using(crate::proofs::Fronts::fronts))]
impl<S: Sources + Drop, W: Write + Drop> Children for Partial<S, W> {
    ghost use Rattle.partial_output.specs.Beside.{WritesBeside, text_beside};

    ghost after = { λ old call answer new. S.after old.sources call answer new.sources
        × WritesBeside W.contents old.beside (text_beside call answer) new.beside };

    fn start(&mut self, name: Name, life: u32, words: &[Octets]) -> Result<(), ChildFault> {
        self.sources.start(name, life, words)
    }

    fn send(&mut self, name: Name, life: u32, bytes: &[u8]) -> Result<(), ChildFault> {
        self.sources.send(name, life, bytes)
    }

    fn receive(&mut self, name: Name, life: u32) -> Result<Received, ReceiveFault> {
        let received = self.sources.receive(name, life);
        self.tell_received(Seat { name, life }, &received);
        received
    }

    fn interrupt(&mut self, name: Name, life: u32) -> Result<(), ChildFault> {
        self.sources.interrupt(name, life)
    }

    fn stop(&mut self, name: Name, life: u32) -> Result<(), ChildFault> {
        self.sources.stop(name, life)
    }
}

impl<S: Sources + Drop, W: Write + Drop> Sources for Partial<S, W> {
    ghost wakes = { λ old asked woken new. S.wakes old.sources asked woken new.sources × (new.beside ≡ old.beside) };

    ghost clock = { λ partial time. S.clock partial.sources time };

    fn now(&self) -> u64 {
        self.sources.now()
    }

    fn has_ready(&self) -> bool {
        self.sources.has_ready()
    }

    fn watch(&mut self, input: Input, patience: Option<u64>) -> Result<Woken, WatchFault> {
        self.sources.watch(input, patience)
    }
}
