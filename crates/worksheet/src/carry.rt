//! What an allowed op does.
ghost use Rattle.std.specs.Prelude.{◌≡◌, ◌+◌, ◌∷◌, ◌++◌, [], true, None, Some, is_some, IfOk};
ghost use Rattle.std.specs.Str.{is_utf8};
ghost use Rattle.worksheet.specs.declared.op.Op.TheVariants as op;
ghost use Rattle.worksheet.specs.Names.{is_name};
ghost use Rattle.worksheet.specs.Checks.{first_refusal, room_for, session_named};
ghost use Rattle.worksheet.specs.Edits.{HasNumbersApart, contents_with, edited};
ghost use Rattle.worksheet.specs.inside.Entries.{AreFields, AreSessions, shown, reserved};
ghost use Rattle.worksheet.specs.inside.SheetInside.{held_of};

use crate::edits::{move_field, put_field, remove_field, set_input, set_outcome};
use crate::field::{Answer, Field, Session};
use crate::name::Name;
use crate::op::Op;
use crate::session_map::{put_session, session_with};
use crate::slot::Slot;
use block_tree::{Octets, OutOfMemory, Sequence, Text};
use indexmap::IndexMap;
use std::alloc::Global;
use std::mem;

/// Does what an allowed op says to a worksheet of these parts. There is room for it.
pub(crate) fn carry_out(
    fields: &mut IndexMap<u32, Slot>,
    sessions: &mut IndexMap<Name, Option<Session>>,
    next: &mut u32,
    op: Op,
)
    requires fields { AreFields fields.old.entries }
    requires sessions { AreSessions sessions.old.entries }
    requires sound { HasNumbersApart
        (contents_with (shown fields.old.entries) (shown sessions.old.entries) next.old) }
    requires allowed { first_refusal
        (contents_with (shown fields.old.entries) (shown sessions.old.entries) next.old) op ≡ None }
    requires room { room_for (held_of
        (record { fields = fields.old; sessions = sessions.old; next = next.old })) op ≡ true }
    ensures edited { contents_with (shown fields.new.entries) (shown sessions.new.entries) next.new
        ≡ edited
        (contents_with (shown fields.old.entries) (shown sessions.old.entries) next.old) op }
    ensures fields { AreFields fields.new.entries }
    ensures sessions { AreSessions sessions.new.entries }
{
    match op {
        Op::Session { name, tab, words } => add_session(sessions, name, tab, words),
        Op::New {
            after,
            session,
            input,
        } => {
            let field = new_field(sessions, *next, session, input);
            put_field(fields, after, field);
            *next += 1;
        }
        Op::Set { id, input } => {
            set_input(fields, id, text_of(input));
        }
        Op::Remove { id } => remove_field(fields, id),
        Op::Move { id, after } => move_field(fields, id, after),
        Op::Clear { id } => set_outcome(fields, id, None, None),
        Op::Answer { id, prompt, output } => {
            set_outcome(fields, id, Some(Answer { prompt, output }), None)
        }
        Op::Lost { id, reason } => set_outcome(fields, id, None, Some(reason)),
        Op::Ids { next: number } => *next = number,
    }
}

/// Puts a session after the others, under its name, which is held ready for it.
fn add_session(
    sessions: &mut IndexMap<Name, Option<Session>>,
    name: Octets,
    tab: bool,
    words: Sequence<Octets>,
)
    requires named { is_name name ≡ true }
    requires sessions { AreSessions sessions.old.entries }
    requires ready { reserved sessions.old.entries ≡ Some name }
    ensures made { shown sessions.new.entries
        ≡ shown sessions.old.entries ++ record { name = name; tab = tab; words = words } ∷ [] }
    ensures sessions { AreSessions sessions.new.entries }
{
    let Some(name) = Name::new(name.as_slice()) else {
        unreachable!();
    };
    put_session(sessions, Session { name, tab, words });
}

/// A field of this session without an answer or a reason.
fn new_field(
    sessions: &IndexMap<Name, Option<Session>>,
    id: u32,
    session: Octets,
    input: Octets,
) -> Field
    requires sessions { AreSessions sessions.now.entries }
    requires there { is_some (session_named (shown sessions.now.entries) session) ≡ true }
    requires text { is_utf8 input ≡ true }
    ensures { result ≡ record {
      id = id;
      session = session;
      input = input;
      answer = None;
      lost = None;
    } }
{
    Field {
        id,
        session: name_with(sessions, session.as_slice()),
        input: text_of(input),
        answer: None,
        lost: None,
    }
}

/// The name with these bytes of one of the sessions.
fn name_with(sessions: &IndexMap<Name, Option<Session>>, name: &[u8]) -> Name
    requires sessions { AreSessions sessions.now.entries }
    requires there { is_some (session_named (shown sessions.now.entries) name.now) ≡ true }
    ensures { result ≡ name.now }
{
    let Some(found) = session_with(sessions, name) else {
        unreachable!();
    };
    found.name
}

/// The text of bytes that are UTF-8, in their buffer.
pub fn text_of(bytes: Octets) -> Text
    requires { is_utf8 bytes ≡ true }
    ensures { result ≡ bytes }
{
    match String::from_utf8(bytes.into_vec()) {
        Ok(text) => Text::from_string(text),
        Err(_) => unreachable!(),
    }
}

/// A text in the memory of another, of which nothing stays there. Where that is more than twice as much
/// as the text has bytes, it is given up.
pub(crate) fn text_in(alloc: Global, room: &mut Text, text: &str) -> Result<Text, OutOfMemory>
    ensures { IfOk result (λ made. made ≡ text.now) }
{
    let held = mem::replace(room, Text::from_string(String::new(alloc))).into_string();
    let mut made = if held.capacity() / 2 > text.len() {
        String::new(alloc)
    } else {
        held
    };
    made.clear();
    made.push_str(text)?;
    Ok(Text::from_string(made))
}
