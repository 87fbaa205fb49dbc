//! Iterators over a worksheet.
ghost use Rattle.std.specs.Prelude.{◌≡◌, List};
ghost use Rattle.std.specs.Coded.{coded_list};
ghost use Rattle.std.specs.Iterator.{YieldsFirstRef, item_count};
ghost use Rattle.worksheet.specs.inside.Codes.{coded_field};
ghost use Rattle.worksheet.specs.inside.Entries.{shown};
ghost use Rattle.worksheet.specs.declared.field.Field.{Field};
ghost use Rattle.worksheet.specs.declared.field.Session.{Session};

use crate::field::{Field, Session};
use crate::name::Name;
use crate::slot::Slot;
use indexmap::IndexMap;
use indexmap::map::Slice;
use std::marker::Model;

/// The fields of a worksheet that are still to come, in their order.
#[derive(Drop)]
pub struct Fields<'a> {
    rest: Slice<'a, u32, Slot>,
}

impl<'a> Model for Fields<'a> {
    ghost Value = { List Field };

    ghost coded = { coded_list coded_field };

    ghost view = { λ fields. shown fields.rest };
}

impl<'a> Fields<'a> {
    /// These fields, first to last.
    pub(crate) fn new(fields: &'a IndexMap<u32, Slot>) -> Fields<'a>
        ensures { result ≡ shown fields.entry.now.entries }
    {
        Fields {
            rest: fields.as_slice(),
        }
    }
}

impl<'a> Iterator for Fields<'a> {
    type Item = &'a Field;

    ghost next_gives = { YieldsFirstRef (λ rest. rest) };

    ghost remaining = { item_count (λ rest. rest) };

    fn next(&mut self) -> Option<&'a Field> {
        while let Some(((_, slot), others)) = self.rest.split_first() {
            self.rest = others;
            if let Some(field) = slot.get() {
                return Some(field);
            }
        }
        None
    }
}

/// The sessions of a worksheet that are still to come, in the order of their making.
#[derive(Drop)]
pub struct Sessions<'a> {
    rest: Slice<'a, Name, Option<Session>>,
}

impl<'a> Model for Sessions<'a> {
    ghost Value = { List Session };

    ghost view = { λ sessions. shown sessions.rest };
}

impl<'a> Sessions<'a> {
    /// These sessions, first to last.
    pub(crate) fn new(sessions: &'a IndexMap<Name, Option<Session>>) -> Sessions<'a>
        ensures { result ≡ shown sessions.entry.now.entries }
    {
        Sessions {
            rest: sessions.as_slice(),
        }
    }
}

impl<'a> Iterator for Sessions<'a> {
    type Item = &'a Session;

    ghost next_gives = { YieldsFirstRef (λ rest. rest) };

    ghost remaining = { item_count (λ rest. rest) };

    fn next(&mut self) -> Option<&'a Session> {
        while let Some(((_, session), others)) = self.rest.split_first() {
            self.rest = others;
            if let Some(session) = session {
                return Some(session);
            }
        }
        None
    }
}
