//! Programs, as an evaluation looks for them.
ghost use Rattle.std.specs.Prelude.{◌≡◌};

use crate::outside::System;
use evaluation::Programs;
use sheet_files::Places;
use std::marker::Model;

/// The programs of the places where worksheets lie. Contracts see those places.
#[derive(Drop)]
pub(crate) struct FoundIn<'a, Y: System> {
    places: &'a Y::Places,
}

impl<'a, Y: System> Model for FoundIn<'a, Y> {
    ghost Value = { Y.Places };

    ghost view = { λ found. found.places.now };
}

impl<'a, Y: System> FoundIn<'a, Y> {
    /// Those of these places.
    pub(crate) fn new(places: &'a Y::Places) -> FoundIn<'a, Y>
        ensures { result ≡ places.now }
    {
        FoundIn { places }
    }
}

impl<'a, Y: System> Programs for FoundIn<'a, Y> {
    ghost finds = { Y.Places.finds };

    fn has(&self, name: &[u8]) -> bool {
        self.places.has_program(name)
    }
}
