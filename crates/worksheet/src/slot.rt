//! What stands under a number in a worksheet.
ghost use Rattle.std.specs.Prelude.{◌≡◌, Option, None, Some, IfOk};
ghost use Rattle.std.specs.Option.{option_copied, option_map};
ghost use Rattle.worksheet.specs.Edits.{with_input, with_outcome};

use crate::field::{Answer, Field};
use block_tree::{OutOfMemory, Reason, Text};
use std::alloc::Global;
use std::marker::Model;
use std::mem;

/// A field, or nothing where its number is held ready for one. It is in a box, so that an entry
/// of the map is small where entries move.
#[derive(Drop)]
pub(crate) struct Slot {
    held: Box<Option<Field>>,
}

impl Model for Slot {
    ghost use Rattle.worksheet.specs.declared.field.Field.{Field};
    ghost use Rattle.worksheet.specs.inside.Codes.{coded_field};
    ghost use Rattle.std.specs.Coded.{coded_option};
    ghost use Rattle.std.specs.Prelude.{Option};

    ghost Value = { Option Field };

    ghost coded = { coded_option coded_field };

    ghost view = { λ slot. slot.held.value };
}

impl Slot {
    /// No field yet. The field that is put into it later needs no memory for that.
    pub(crate) fn empty(alloc: Global) -> Result<Slot, OutOfMemory>
        ensures { IfOk result (λ slot. slot ≡ None) }
    {
        let held = Box::new(alloc, None)?;
        Ok(Slot { held })
    }

    /// Its field.
    pub(crate) fn get(&self) -> Option<&Field>
        ensures { option_copied result ≡ self.now }
    {
        match &*self.held {
            Some(field) => Some(field),
            None => None,
        }
    }

    /// Puts a field into it.
    pub(crate) fn put(&mut self, field: Field)
        ensures { self.new ≡ Some field }
    {
        *self.held = Some(field);
    }

    /// Gives its field another input, and takes its answer or reason away. The input that isn't in it any
    /// more is handed back.
    pub(crate) fn set_input(&mut self, input: Text) -> Text
        ensures { self.new ≡ option_map (with_input input) self.old }
    {
        match &mut *self.held {
            Some(field) => {
                field.answer = None;
                field.lost = None;
                mem::replace(&mut field.input, input)
            }
            None => input,
        }
    }

    /// Gives its field an answer, or the reason why there is none, or none of both.
    pub(crate) fn set_outcome(&mut self, answer: Option<Answer>, lost: Option<Reason>)
        ensures { self.new ≡ option_map (with_outcome answer lost) self.old }
    {
        if let Some(field) = &mut *self.held {
            field.answer = answer;
            field.lost = lost;
        }
    }
}
