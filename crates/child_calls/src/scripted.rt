//! Children that answer by a script.
ghost use Rattle.std.specs.Prelude.{◌≡◌, ◌<◌, ◌≤◌, ◌≢◌, Err, IfOk, IfSome, length, position, drop};
ghost use Rattle.child_calls.specs.Answers.{HasSize, IsPiece, longest_piece, received, sent};
ghost use Rattle.child_calls.specs.Parts.{done_if, gives, is_of, sends};

use crate::children::{ChildFault, Children, ReceiveFault, Received};
use block_tree::{Octets, Queue};
use bytes::Bytes;
use std::alloc::Global;
use std::marker::Model;
use worksheet::Name;

/// The bytes of a piece: 1 to 65,536.
#[derive(Debug, Drop)]
pub struct PieceBytes {
    bytes: Vec<u8>,
}

impl Model for PieceBytes {
    ghost use Rattle.std.specs.Prelude.{ℕ, List};
    ghost use Rattle.child_calls.specs.Answers.{IsPiece};

    ghost Value = { List ℕ };

    ghost view = { λ piece. piece.bytes.items };

    ghost invariant = { λ piece. IsPiece piece.bytes.items };
}

impl PieceBytes {
    /// The bytes of a `Vec`, whose buffer is kept. No memory is taken.
    pub fn from_vec(bytes: Vec<u8>) -> PieceBytes
        requires some { 1 ≤ length bytes.items }
        requires few { length bytes.items ≤ longest_piece }
        ensures { result ≡ bytes.items }
    {
        PieceBytes { bytes }
    }

    /// The bytes.
    pub fn as_slice(&self) -> &[u8]
        ensures bytes { result.now ≡ self.now }
        ensures size { IsPiece self.now }
    {
        self.bytes.as_slice()
    }
}

/// What one receive gives.
#[derive(Drop)]
pub enum Got {
    /// A piece.
    Piece(PieceBytes),
    /// The end of the output.
    End,
    /// A fault.
    Fault,
}

/// The answers of one life: false is a fault. Past the end of its list a send succeeds, and a receive
/// gives the end.
#[derive(Drop)]
pub struct Part {
    pub name: Name,
    pub life: u32,
    /// Whether it can be started.
    pub start: bool,
    /// Which of the sends to it succeed, in order.
    pub sends: Queue<bool>,
    /// What it gives, in order.
    pub receives: Queue<Got>,
    /// Whether it can be interrupted. What it gives stays as it is.
    pub interrupt: bool,
    /// Whether it can be stopped.
    pub stop: bool,
}

/// Children that answer by their parts. Of two parts with one name and life the first counts, and to a
/// life without a part every call is a fault.
#[derive(Drop)]
pub struct Scripted {
    alloc: Global,
    parts: Vec<Part>,
}

impl Model for Scripted {
    ghost use Rattle.std.specs.Prelude.{List};
    ghost use Rattle.child_calls.specs.declared.scripted.Part.{Part};

    ghost Value = { List Part };

    ghost view = { λ s. s.parts.items };
}

impl Scripted {
    /// Children with these parts. That each piece has 1 to 65,536 bytes is asked where it is made.
    pub fn new(alloc: Global, parts: Vec<Part>) -> Self
        ensures { result ≡ parts.items }
    {
        Scripted { alloc, parts }
    }
}

/// The place of the first part of that name and life.
fn place(parts: &[Part], name: Name, life: u32) -> Option<usize>
    ensures at_it { result ≡ position (is_of name life) parts.now }
    ensures fits { IfSome result (λ i. i < length parts.now) }
{
    parts
        .iter()
        .position(|part| part.name == name && part.life == life)
}

/// What a call answers that is good or a fault.
fn answer(good: bool) -> Result<(), ChildFault>
    ensures { sent result ≡ done_if good }
{
    if good { Ok(()) } else { Err(ChildFault) }
}

/// What the next send answers.
fn next_send(left: &mut Queue<bool>) -> Result<(), ChildFault>
    ensures answer { sent result ≡ sends left.old }
    ensures rest { left.new ≡ drop 1 left.old }
{
    match left.pop() {
        Some(good) => answer(good),
        None => Ok(()),
    }
}

/// What the next receive gives.
fn front(alloc: Global, left: &Queue<Got>) -> Result<Received, ReceiveFault>
    ensures answer { result ≢ Err ReceiveFault.OutOfMemory → received result ≡ gives left.now }
    ensures size { IfOk result HasSize }
{
    match left.front() {
        Some(Got::Piece(bytes)) => match Bytes::copy_from_slice(alloc, bytes.as_slice()) {
            Ok(piece) => Ok(Received::Piece(piece)),
            Err(_) => Err(ReceiveFault::OutOfMemory),
        },
        Some(Got::Fault) => Err(ReceiveFault::Child),
        Some(Got::End) => Ok(Received::End),
        None => Ok(Received::End),
    }
}

impl Children for Scripted {
    ghost use Rattle.child_calls.specs.Parts.{ByParts};

    ghost after = { ByParts };

    fn start(&mut self, name: Name, life: u32, _words: &[Octets]) -> Result<(), ChildFault> {
        let Some(i) = place(self.parts.as_slice(), name, life) else {
            return Err(ChildFault);
        };
        answer(self.parts[i].start)
    }

    fn send(&mut self, name: Name, life: u32, _bytes: &[u8]) -> Result<(), ChildFault> {
        let Some(i) = place(self.parts.as_slice(), name, life) else {
            return Err(ChildFault);
        };
        next_send(&mut self.parts[i].sends)
    }

    fn receive(&mut self, name: Name, life: u32) -> Result<Received, ReceiveFault> {
        let Some(i) = place(self.parts.as_slice(), name, life) else {
            return Err(ReceiveFault::Child);
        };
        let got = front(self.alloc, &self.parts[i].receives);
        if let Err(ReceiveFault::OutOfMemory) = got {
            return Err(ReceiveFault::OutOfMemory);
        }
        let _ = self.parts[i].receives.pop();
        got
    }

    fn interrupt(&mut self, name: Name, life: u32) -> Result<(), ChildFault> {
        let Some(i) = place(self.parts.as_slice(), name, life) else {
            return Err(ChildFault);
        };
        answer(self.parts[i].interrupt)
    }

    fn stop(&mut self, name: Name, life: u32) -> Result<(), ChildFault> {
        let Some(i) = place(self.parts.as_slice(), name, life) else {
            return Err(ChildFault);
        };
        answer(self.parts[i].stop)
    }
}
