//! Children of the tests' own.
ghost use Rattle.std.specs.Prelude.{IfOk};
ghost use Rattle.child_calls.specs.Answers.{HasSize};

use block_tree::Octets;
use bytes::Bytes;
use child_calls::children::{ChildFault, Children, ReceiveFault, Received};
use std::alloc::Global;
use worksheet::Name;

fn piece(alloc: Global, bytes: &[u8; 12]) -> Result<Received, ReceiveFault>
    ensures { IfOk result HasSize }
{
    match Bytes::copy_from_slice(alloc, bytes) {
        Ok(piece) => Ok(Received::Piece(piece)),
        Err(_) => Err(ReceiveFault::OutOfMemory),
    }
}

fn dot(alloc: Global) -> Result<Received, ReceiveFault>
    ensures { IfOk result HasSize }
{
    match Bytes::copy_from_slice(alloc, b".") {
        Ok(piece) => Ok(Received::Piece(piece)),
        Err(_) => Err(ReceiveFault::OutOfMemory),
    }
}

/// Gives one byte of noise at each receive.
#[derive(Drop)]
pub struct Silent {
    alloc: Global,
    pub receives: u32,
    pub stops: u32,
}

impl Silent {
    pub fn new(alloc: Global) -> Silent {
        Silent {
            alloc,
            receives: 0,
            stops: 0,
        }
    }
}

impl Children for Silent {
    ghost after = { λ _ _ _ _. Unit {0} };

    fn start(&mut self, _name: Name, _life: u32, _words: &[Octets]) -> Result<(), ChildFault> {
        Ok(())
    }

    fn send(&mut self, _name: Name, _life: u32, _bytes: &[u8]) -> Result<(), ChildFault> {
        Ok(())
    }

    fn receive(&mut self, _name: Name, _life: u32) -> Result<Received, ReceiveFault> {
        let got = dot(self.alloc)?;
        self.receives = self.receives.wrapping_add(1);
        Ok(got)
    }

    fn interrupt(&mut self, _name: Name, _life: u32) -> Result<(), ChildFault> {
        Ok(())
    }

    fn stop(&mut self, _name: Name, _life: u32) -> Result<(), ChildFault> {
        self.stops = self.stops.wrapping_add(1);
        Ok(())
    }
}

/// The session `a` gives noise until `b` was sent its line, at most 1,000 times, and then its banner.
/// Each gives its banner, and then an answer for each line.
#[derive(Drop)]
pub struct Turned {
    alloc: Global,
    pub receives: u32,
    is_sent: bool,
}

impl Turned {
    pub fn new(alloc: Global) -> Turned {
        Turned {
            alloc,
            receives: 0,
            is_sent: false,
        }
    }
}

impl Children for Turned {
    ghost after = { λ _ _ _ _. Unit {0} };

    fn start(&mut self, _name: Name, _life: u32, _words: &[Octets]) -> Result<(), ChildFault> {
        Ok(())
    }

    fn send(&mut self, name: Name, _life: u32, _bytes: &[u8]) -> Result<(), ChildFault> {
        if name.as_slice() == b"b".as_slice() {
            self.is_sent = true;
        }
        Ok(())
    }

    fn receive(&mut self, name: Name, _life: u32) -> Result<Received, ReceiveFault> {
        if name.as_slice() == b"a".as_slice() && !self.is_sent {
            if self.receives > 1_000 {
                return Ok(Received::End);
            }
            let got = dot(self.alloc)?;
            self.receives += 1;
            return Ok(got);
        }
        piece(self.alloc, b"\x02verbatim:A\x05")
    }

    fn interrupt(&mut self, _name: Name, _life: u32) -> Result<(), ChildFault> {
        Ok(())
    }

    fn stop(&mut self, _name: Name, _life: u32) -> Result<(), ChildFault> {
        Ok(())
    }
}
