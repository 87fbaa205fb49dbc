//! A vector that contracts see as a list.
ghost use Rattle.std.specs.Prelude.{◌≡◌, ◌∷◌, ◌++◌, [], IfErr, OnOk, OnErr, List};

use crate::OutOfMemory;
use std::alloc::Global;
use std::marker::Model;

/// Values in a row. Contracts compare it by its values, and not by the buffer that holds them.
#[derive(Drop, Debug)]
pub struct Sequence<T> {
    values: Vec<T>,
}

impl<T> Model for Sequence<T> {
    ghost Value = { List T };

    ghost view = { λ sequence. sequence.values.items };
}

impl<T> Sequence<T> {
    /// An empty one, which holds no memory yet.
    pub fn new(alloc: Global) -> Sequence<T>
        ensures { result ≡ [] }
    {
        Sequence {
            values: Vec::new(alloc),
        }
    }

    /// The values of a vector. Its buffer is kept, and no memory is taken.
    pub fn from_vec(values: Vec<T>) -> Sequence<T>
        ensures { result ≡ values.items }
    {
        Sequence { values }
    }

    /// The vector, with the buffer that holds the values.
    pub fn into_vec(self) -> Vec<T>
        ensures { result.items ≡ self }
    {
        self.values
    }

    /// The values.
    pub fn as_slice(&self) -> &[T]
        ensures { result.now ≡ self.now }
    {
        self.values.as_slice()
    }

    /// Puts a value after the others, or gives it back.
    pub fn push(&mut self, value: T) -> Result<(), (T, OutOfMemory)>
        ensures ok { OnOk result (self.new ≡ self.old ++ value ∷ []) }
        ensures returned { IfErr result (λ refused. refused.0 ≡ value) }
        ensures err { OnErr result (self.new ≡ self.old) }
    {
        match self.values.push(value) {
            Ok(()) => Ok(()),
            Err(refused) => Err((refused.value, OutOfMemory)),
        }
    }
}
