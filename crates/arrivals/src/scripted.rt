//! Sources that answer by a script.
ghost use Rattle.std.specs.Prelude.{◌≡◌, ◌<◌, IfSome, length, position};
ghost use Rattle.std.specs.Result.{result_ok};
ghost use Rattle.arrivals.specs.Turns.{after_turns, may_come as turn_may_come};
ghost use Rattle.arrivals.specs.Watching.{asked};

use crate::sources::{Input, Sources, WatchFault, Woken};
use block_tree::Octets;
use child_calls::{ChildFault, Children, ReceiveFault, Received, Scripted};
use std::marker::Model;
use worksheet::Name;

/// Children that answer by their parts, and a list that says whose turn it is.
///
/// A watch tells the first turn of the list that may come, and takes it off. Where none may, it is the
/// input's turn, or where that is held back the time is over, or where there is no limit it is a fault.
#[derive(Drop)]
pub struct ScriptedSources {
    children: Scripted,
    turns: Vec<Woken>,
}

impl Model for ScriptedSources {
    ghost use Rattle.arrivals.specs.Turns.{TurnList};

    ghost Value = { TurnList };

    ghost view = { λ s. record { parts = s.children; turns = s.turns.items } };
}

impl ScriptedSources {
    /// Sources with these children and turns.
    pub fn new(children: Scripted, turns: Vec<Woken>) -> ScriptedSources
        ensures { result ≡ record { parts = children; turns = turns.items } }
    {
        ScriptedSources { children, turns }
    }
}

impl Children for ScriptedSources {
    ghost use Rattle.arrivals.specs.Turns.{ByChild};

    ghost after = { ByChild };

    fn start(&mut self, name: Name, life: u32, words: &[Octets]) -> Result<(), ChildFault> {
        self.children.start(name, life, words)
    }

    fn send(&mut self, name: Name, life: u32, bytes: &[u8]) -> Result<(), ChildFault> {
        self.children.send(name, life, bytes)
    }

    fn receive(&mut self, name: Name, life: u32) -> Result<Received, ReceiveFault> {
        self.children.receive(name, life)
    }

    fn interrupt(&mut self, name: Name, life: u32) -> Result<(), ChildFault> {
        self.children.interrupt(name, life)
    }

    fn stop(&mut self, name: Name, life: u32) -> Result<(), ChildFault> {
        self.children.stop(name, life)
    }
}

/// Whether this may come where that was asked.
fn may_come(turn: Woken, input: Input, patience: Option<u64>) -> bool
    ensures { result ≡ turn_may_come (asked input patience) turn }
{
    match turn {
        Woken::Input => match input {
            Input::HeldBack => false,
            Input::Empty | Input::Ready => true,
        },
        Woken::Life(_) => true,
        Woken::TimeOver => patience.is_some(),
    }
}

/// The place of the first turn that may come.
fn place(turns: &[Woken], input: Input, patience: Option<u64>) -> Option<usize>
    ensures at_it { result ≡ position (turn_may_come (asked input patience)) turns.now }
    ensures fits { IfSome result (λ at. at < length turns.now) }
{
    turns
        .iter()
        .position(|turn| may_come(*turn, input, patience))
}

/// What is returned where no turn may come.
fn following(input: Input, patience: Option<u64>) -> Result<Woken, WatchFault>
    ensures { result_ok result ≡ after_turns (asked input patience) }
{
    match input {
        Input::Empty | Input::Ready => Ok(Woken::Input),
        Input::HeldBack => match patience {
            Some(_) => Ok(Woken::TimeOver),
            None => Err(WatchFault),
        },
    }
}

impl Sources for ScriptedSources {
    ghost use Rattle.arrivals.specs.Turns.{ByTurns};

    ghost wakes = { ByTurns };

    ghost clock = { λ s millis. millis ≡ 0 };

    /// Always the same moment.
    fn now(&self) -> u64 {
        0
    }

    /// Never: each turn of the list comes by itself.
    fn has_ready(&self) -> bool {
        false
    }

    fn watch(&mut self, input: Input, patience: Option<u64>) -> Result<Woken, WatchFault> {
        match place(self.turns.as_slice(), input, patience) {
            Some(at) => Ok(self.turns.remove(at)),
            None => following(input, patience),
        }
    }
}
