//! A queue that contracts see as a list.
ghost use Rattle.std.specs.Prelude.{◌≡◌, ◌↔◌, ◌∷◌, ◌++◌, [], IsTrue, IfErr, OnOk, OnErr, List, drop, length, slice_get};
ghost use Rattle.std.specs.Option.{option_copied};

use crate::OutOfMemory;
use std::alloc::Global;
use std::collections::VecDeque;
use std::marker::Model;

/// Values in the order of their coming. Contracts compare it by its values, and not by the buffer
/// that holds them.
#[derive(Debug, Drop)]
pub struct Queue<T> {
    values: VecDeque<T>,
}

impl<T> Model for Queue<T> {
    ghost Value = { List T };

    ghost view = { λ queue. queue.values.items };
}

impl<T> Queue<T> {
    /// An empty queue, which holds no memory yet.
    pub fn new(alloc: Global) -> Queue<T>
        ensures { result ≡ [] }
    {
        Queue {
            values: VecDeque::new(alloc),
        }
    }

    /// The values of a `VecDeque`. Its buffer is kept, and no memory is taken.
    pub fn from_deque(values: VecDeque<T>) -> Queue<T>
        ensures { result ≡ values.items }
    {
        Queue { values }
    }

    /// How many values wait.
    pub fn len(&self) -> usize
        ensures { result ≡ length self.now }
    {
        self.values.len()
    }

    /// Whether no value waits.
    pub fn is_empty(&self) -> bool
        ensures { IsTrue result ↔ (self.now ≡ []) }
    {
        self.values.is_empty()
    }

    /// Puts a value after the others, or gives it back.
    pub fn push(&mut self, value: T) -> Result<(), (T, OutOfMemory)>
        ensures ok { OnOk result (self.new ≡ self.old ++ value ∷ []) }
        ensures returned { IfErr result (λ refused. refused.0 ≡ value) }
        ensures err { OnErr result (self.new ≡ self.old) }
    {
        match self.values.push_back(value) {
            Ok(()) => Ok(()),
            Err(refused) => Err((refused.value, OutOfMemory)),
        }
    }

    /// Takes the first value.
    pub fn pop(&mut self) -> Option<T>
        ensures first { result ≡ slice_get self.old 0 }
        ensures rest { self.new ≡ drop 1 self.old }
    {
        self.values.pop_front()
    }

    /// The value at this place, from 0.
    pub fn get(&self, place: usize) -> Option<&T>
        ensures { option_copied result ≡ slice_get self.now place }
    {
        self.values.get(place)
    }

    /// The first value.
    pub fn front(&self) -> Option<&T>
        ensures { option_copied result ≡ slice_get self.now 0 }
    {
        self.values.front()
    }
}
