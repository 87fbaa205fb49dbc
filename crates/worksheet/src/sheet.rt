//! A worksheet.
ghost use Rattle.std.specs.Prelude.{◌≡◌, ◌+◌, ◌∷◌, ◌++◌, [], List, true, None, IsErrOf, IfErr, OnOk, OnErr, IsOk};
ghost use Rattle.std.specs.Option.{option_copied};
ghost use Rattle.std.specs.Result.{result_err};

use crate::carry::{carry_out, text_in};
use crate::check::{check_op, has_field, input_text, is_new_name};
use crate::edits::{reserve_number, set_input};
use crate::field::{Field, Session};
use crate::fields::{Fields, Sessions};
use crate::name::Name;
use crate::op::Op;
use crate::places::{field_with, is_reserved};
use crate::refusal::{Refusal, SetFault};
use crate::session_map::{is_ready_name, reserve_name, session_with};
use crate::slot::Slot;
use block_tree::{OutOfMemory, Text};
use indexmap::IndexMap;
use std::alloc::Global;
use std::marker::Model;

/// A worksheet: fields in their order, and the sessions that they belong to. It stands for a list of
/// ops, those that it has taken, and contains what they say.
///
/// Its fields stand in a map by number whose order is theirs, its sessions in one by name. After them
/// each map may have one entry without a value, for the next field or session: memory is ready for
/// that one. No call shows such an entry, and no limit counts it.
#[derive(Drop)]
pub struct Sheet {
    fields: IndexMap<u32, Slot>,
    sessions: IndexMap<Name, Option<Session>>,
    next: u32,
}

impl Model for Sheet {
    ghost use Rattle.worksheet.specs.Contents.{SheetView};
    ghost use Rattle.worksheet.specs.inside.Codes.{coded_held};

    ghost Value = { SheetView };

    ghost coded = { coded_held };

    ghost use Rattle.worksheet.specs.inside.SheetInside.{held_of, IsSoundInside};

    ghost view = { held_of };

    ghost invariant = { IsSoundInside };
}

impl Sheet {
    ghost use Rattle.worksheet.specs.declared.op.Op.{Op};
    ghost use Rattle.worksheet.specs.declared.op.Op.TheVariants as op;
    ghost use Rattle.worksheet.specs.Ops.{sheet_of};
    ghost use Rattle.worksheet.specs.Checks.{first_refusal, room_for, field_in, session_named};

    /// The empty worksheet, which stands for no op.
    pub fn new(alloc: Global) -> Sheet
        ensures { result.contents ≡ sheet_of [] }
    {
        Sheet {
            fields: IndexMap::new(alloc),
            sessions: IndexMap::new(alloc),
            next: 1,
        }
    }

    /// Whether an op is allowed now: if not, the first refusal that applies.
    pub fn check(&self, op: &Op) -> Result<(), Refusal>
        ensures { result_err result ≡ first_refusal self.now.contents op.now }
    {
        check_op(&self.fields, &self.sessions, self.next, op)
    }

    /// Whether memory is ready for an op, so that `apply` can't fail. A New needs it for the field with
    /// the next number, a Session for its name, where a session with it can be made; the others need
    /// none.
    pub fn has_room(&self, op: &Op) -> bool
        ensures { result ≡ room_for self.now op.now }
    {
        match op {
            Op::New { .. } => is_reserved(&self.fields, self.next),
            Op::Session { name, .. } => {
                !is_new_name(&self.sessions, name.as_slice())
                    || is_ready_name(&self.sessions, name.as_slice())
            }
            Op::Set { .. }
            | Op::Remove { .. }
            | Op::Move { .. }
            | Op::Clear { .. }
            | Op::Answer { .. }
            | Op::Lost { .. }
            | Op::Ids { .. } => true,
        }
    }

    /// Makes memory ready for an op. It changes nothing that the worksheet contains. Memory is ready for
    /// one new session at a time: where it is made ready for one, it isn't any more for another.
    pub fn make_room(&mut self, op: &Op) -> Result<(), OutOfMemory>
        ensures ok { OnOk result (room_for self.new op.now ≡ true) }
        ensures same { self.new.contents ≡ self.old.contents }

        // Where there is room, nothing is asked for.
        ensures ready { room_for self.old op.now ≡ true → IsOk result }
    {
        if self.has_room(op) {
            return Ok(());
        }
        match op {
            Op::New { .. } => reserve_number(&mut self.fields, self.next),
            Op::Session { name, .. } => reserve_name(&mut self.sessions, name.as_slice()),
            Op::Set { .. }
            | Op::Remove { .. }
            | Op::Move { .. }
            | Op::Clear { .. }
            | Op::Answer { .. }
            | Op::Lost { .. }
            | Op::Ids { .. } => Ok(()),
        }
    }

    /// Does what an op says, or gives it back where memory runs out.
    pub fn apply(&mut self, op: Op) -> Result<(), (Op, OutOfMemory)>
        requires { first_refusal self.old.contents op ≡ None }

        // The worksheet stands for the ops before, and for this one after them.
        ensures ok { (ops : List Op) → self.old.contents ≡ sheet_of ops
            → OnOk result (self.new.contents ≡ sheet_of (ops ++ op ∷ [])) }
        ensures returned { IfErr result (λ refused. refused.0 ≡ op) }
        ensures err { OnErr result (self.new.contents ≡ self.old.contents) }
        ensures ready { room_for self.old op ≡ true → IsOk result }
    {
        if let Err(refused) = self.make_room(&op) {
            return Err((op, refused));
        }
        carry_out(&mut self.fields, &mut self.sessions, &mut self.next, op);
        Ok(())
    }

    /// Does what a Set of this input says, without an op. The input takes the memory of `room`, and leaves
    /// there that of the field's earlier one.
    pub fn set(&mut self, id: u32, input: &[u8], room: &mut Text) -> Result<(), SetFault>
        ensures allowed { OnOk result
            (first_refusal self.old.contents (op.Set id input.now) ≡ None) }
        ensures ok { (ops : List Op) → self.old.contents ≡ sheet_of ops
            → OnOk result (self.new.contents ≡ sheet_of (ops ++ op.Set id input.now ∷ [])) }
        ensures refused { IsErrOf result SetFault.Refused
            → first_refusal self.old.contents (op.Set id input.now) ≡ None → ⊥ }
        ensures err { OnErr result (self.new.contents ≡ self.old.contents) }
    {
        if !has_field(&self.fields, id) {
            return Err(SetFault::Refused);
        }
        let Some(text) = input_text(input) else {
            return Err(SetFault::Refused);
        };
        let text = text_in(*self.fields.allocator(), room, text)?;
        *room = set_input(&mut self.fields, id, text);
        Ok(())
    }

    /// The fields in their order.
    pub fn fields(&self) -> Fields<'_>
        ensures { result ≡ self.now.contents.fields }
    {
        Fields::new(&self.fields)
    }

    /// The field with this number.
    pub fn field(&self, id: u32) -> Option<&Field>
        ensures { option_copied result ≡ field_in self.now.contents.fields id }
    {
        field_with(&self.fields, id)
    }

    /// The number that the next New takes, from 1 to 1,000,001. At the last of these it is refused.
    pub fn next_id(&self) -> u32
        ensures { result ≡ self.now.contents.next }
    {
        self.next
    }

    /// The sessions in the order of their making.
    pub fn sessions(&self) -> Sessions<'_>
        ensures { result ≡ self.now.contents.sessions }
    {
        Sessions::new(&self.sessions)
    }

    /// The session with this name. The bytes may be any.
    pub fn session(&self, name: &[u8]) -> Option<&Session>
        ensures { option_copied result ≡ session_named self.now.contents.sessions name.now }
    {
        session_with(&self.sessions, name)
    }
}
