//! Which fields are checked, and which of those are compared.
ghost use Rattle.std.specs.Prelude.{◌≡◌, [], None, false};
ghost use Rattle.std.specs.List.{list_any};
ghost use Rattle.check_report.specs.Chosen as choice;

use crate::verdict::{Verdict, compare};
use block_tree::Sequence;
use std::alloc::Global;
use worksheet::{Answer, Field, Name};

/// The fields from one number to another, with both.
#[derive(Clone, Copy, Debug, PartialEq, Eq)]
pub struct Ids {
    pub first: u32,
    pub last: u32,
}

impl Ids {
    /// Whether a number is one of these.
    fn has(self, id: u32) -> bool
        ensures { result ≡ choice.has_id id self }
    {
        self.first <= id && id <= self.last
    }
}

/// Whether a number is one of these.
fn have(left_out: &[Ids], id: u32) -> bool
    ensures { result ≡ list_any (choice.has_id id) left_out.now }
{
    left_out.iter().any(|ids| ids.has(id))
}

/// Which fields are checked, of one session or of all.
#[derive(Debug, Drop)]
pub struct Chosen {
    /// The session whose fields are checked. None: all of them are.
    pub only: Option<Name>,
    /// Fields that are evaluated, and whose outputs aren't compared.
    pub left_out: Sequence<Ids>,
    /// The fields whose outputs are compared. None: those of all that aren't left out.
    pub compared: Option<Sequence<Ids>>,
    /// Whether fields that show no answer are checked too.
    pub all: bool,
}

impl Chosen {
    /// All fields that show an answer.
    pub fn all(alloc: Global) -> Chosen
        ensures only { result.only ≡ None }
        ensures left_out { result.left_out ≡ [] }
        ensures compared { result.compared ≡ None }
        ensures all { result.all ≡ false }
    {
        Chosen {
            only: None,
            left_out: Sequence::new(alloc),
            compared: None,
            all: false,
        }
    }

    /// Whether a session is one of those that are checked.
    fn is_of(&self, session: &Name) -> bool
        ensures { result ≡ choice.is_session_asked self.now.only session.now }
    {
        match &self.only {
            None => true,
            Some(name) => name == session,
        }
    }

    /// Whether a field is checked.
    pub fn has(&self, field: &Field) -> bool
        ensures { result ≡ choice.is_chosen self.now field.now }
    {
        self.is_of(&field.session) && (self.all || field.answer.is_some())
    }

    /// Whether a field is one of those that are to be compared.
    fn compares(&self, id: u32) -> bool
        ensures { result ≡ choice.is_among self.now.compared id }
    {
        match &self.compared {
            None => true,
            Some(ids) => have(ids.as_slice(), id),
        }
    }

    /// Whether a field isn't compared.
    fn leaves_out(&self, id: u32) -> bool
        ensures { result ≡ choice.is_left_out self.now id }
    {
        have(self.left_out.as_slice(), id) || !self.compares(id)
    }

    /// What an evaluation of a field comes to, by the answer that it shows and the one that came.
    pub fn judge(&self, field: &Field, came: &Option<Answer>) -> Verdict
        ensures { choice.Judged self.now field.now came.now result }
    {
        if self.leaves_out(field.id) {
            Verdict::LeftOut
        } else {
            compare(&field.answer, came)
        }
    }
}
