//! Whether a worksheet allows an op.
ghost use Rattle.std.specs.Prelude.{◌≡◌, ◌==◌, ◌||◌, ◌&&◌, [], true, false, length, nat_le, is_some, IfSome, IfNone};
ghost use Rattle.std.specs.List.{list_all};
ghost use Rattle.std.specs.Result.{result_err};
ghost use Rattle.worksheet.specs.Checks.{is_input as input_test, is_word as word_test, are_words as words_test, is_new_name as new_name_test, field_in, session_named as session_found, numbers, first_refusal};
ghost use Rattle.worksheet.specs.Limits.{longest_input};
ghost use Rattle.worksheet.specs.inside.Words.{is_input_byte as input_byte_test, is_no_low_byte as low_byte_test};
ghost use Rattle.std.specs.Str.{is_utf8 as utf8_test};
ghost use Rattle.block_tree.specs.Tree.{Tree};
ghost use Rattle.worksheet.specs.Edits.{AreApart, contents_with};
ghost use Rattle.worksheet.specs.inside.Entries.{AreFields, AreSessions, shown};
ghost use Rattle.worksheet.specs.declared.op.Op.TheVariants as op;

use crate::field::Session;
use crate::limits::{
    LAST_NUMBER, LONGEST_INPUT, LONGEST_KEPT_PROMPT, LONGEST_WORD, MOST_FIELDS, MOST_SESSIONS,
    MOST_WORDS,
};
use crate::name::{Name, is_name};
use crate::op::Op;
use crate::places::{count_fields, field_with, stands_after};
use crate::refusal::Refusal;
use crate::session_map::{count_sessions, session_with};
use crate::slot::Slot;
use block_tree::Octets;
use indexmap::IndexMap;

/// Whether these bytes are an input: UTF-8, at most 4,095 bytes, with no character below U+0020 but
/// TAB.
pub fn is_input(bytes: &[u8]) -> bool
    ensures { result ≡ input_test bytes.now }
{
    may_be_input(bytes) && is_utf8(bytes)
}

// Whether these bytes are an input if they are UTF-8.
fn may_be_input(bytes: &[u8]) -> bool
    ensures { result ≡ (nat_le (length bytes.now) longest_input
        && list_all input_byte_test bytes.now) }
{
    bytes.len() <= LONGEST_INPUT && are_input_bytes(bytes)
}

fn are_input_bytes(bytes: &[u8]) -> bool
    ensures { result ≡ list_all input_byte_test bytes.now }
{
    // Each byte is looked at, since a loop that stops at the first wrong one takes one after another.
    let mut are = true;
    for byte in bytes {
        are &= *byte >= b' ' || *byte == b'\t';
    }
    are
}

/// Whether these are words to start a session with: 1 to 16, each 1 to 1,024 bytes of UTF-8 with no
/// byte below 32.
pub fn are_words(words: &[Octets]) -> bool
    ensures { result ≡ words_test words.now }
{
    !words.is_empty() && words.len() <= MOST_WORDS && are_each_words(words)
}

fn are_each_words(words: &[Octets]) -> bool
    ensures { result ≡ list_all word_test words.now }
{
    words.iter().all(|word| is_word(word.as_slice()))
}

fn is_word(bytes: &[u8]) -> bool
    ensures { result ≡ word_test bytes.now }
{
    !bytes.is_empty() && bytes.len() <= LONGEST_WORD && has_no_low_byte(bytes) && is_utf8(bytes)
}

fn has_no_low_byte(bytes: &[u8]) -> bool
    ensures { result ≡ list_all low_byte_test bytes.now }
{
    bytes.iter().all(|byte| *byte >= b' ')
}

/// The text of these bytes, where they are an input.
pub(crate) fn input_text(bytes: &[u8]) -> Option<&str>
    ensures some { IfSome result (λ text. (text.now ≡ bytes.now) × (input_test bytes.now ≡ true)) }
    ensures none { IfNone result (input_test bytes.now ≡ false) }
{
    if !may_be_input(bytes) {
        return None;
    }
    match str::from_utf8(bytes) {
        Ok(text) => Some(text),
        Err(_) => None,
    }
}

fn is_utf8(bytes: &[u8]) -> bool
    ensures { result ≡ utf8_test bytes.now }
{
    str::from_utf8(bytes).is_ok()
}

/// Whether there is a field with this number.
pub(crate) fn has_field(fields: &IndexMap<u32, Slot>, id: u32) -> bool
    requires { AreFields fields.now.entries }
    ensures { result ≡ is_some (field_in (shown fields.now.entries) id) }
{
    field_with(fields, id).is_some()
}

fn has_session(sessions: &IndexMap<Name, Option<Session>>, name: &[u8]) -> bool
    requires { AreSessions sessions.now.entries }
    ensures { result ≡ is_some (session_found (shown sessions.now.entries) name.now) }
{
    session_with(sessions, name).is_some()
}

fn has_place(fields: &IndexMap<u32, Slot>, after: u32) -> bool
    requires { AreFields fields.now.entries }
    ensures { result ≡ ((after == 0) || is_some (field_in (shown fields.now.entries) after)) }
{
    after == 0 || has_field(fields, after)
}

/// Whether a session with this name can be made beside these.
pub(crate) fn is_new_name(sessions: &IndexMap<Name, Option<Session>>, name: &[u8]) -> bool
    requires { AreSessions sessions.now.entries }
    ensures { result ≡ new_name_test (contents_with [] (shown sessions.now.entries) 0) name.now }
{
    is_name(name) && !has_session(sessions, name)
}

/// The first refusal that an op meets in a worksheet of these parts.
pub(crate) fn check_op(
    fields: &IndexMap<u32, Slot>,
    sessions: &IndexMap<Name, Option<Session>>,
    next: u32,
    op: &Op,
) -> Result<(), Refusal>
    requires fields { AreFields fields.now.entries }
    requires sessions { AreSessions sessions.now.entries }
    requires apart { AreApart (numbers (shown fields.now.entries)) }
    ensures { result_err result
        ≡ first_refusal
        (contents_with (shown fields.now.entries) (shown sessions.now.entries) next) op.now }
{
    match op {
        Op::Session {
            name,
            tab: _,
            words,
        } => { check_session(sessions, name.as_slice(), words.as_slice()) }
        Op::New {
            after,
            session,
            input,
        } => check_new(
            fields,
            sessions,
            next,
            *after,
            session.as_slice(),
            input.as_slice(),
        ),
        Op::Set { id, input } => check_set(fields, *id, input.as_slice()),
        Op::Remove { id } | Op::Clear { id } | Op::Lost { id, reason: _ } => check_there(
            fields, *id,
        ),
        Op::Move { id, after } => check_move(fields, *id, *after),
        Op::Answer {
            id,
            prompt,
            output: _,
        } => check_answer(fields, *id, prompt.as_slice()),
        Op::Ids { next: number } => check_ids(next, *number),
    }
}

fn check_session(
    sessions: &IndexMap<Name, Option<Session>>,
    name: &[u8],
    words: &[Octets],
) -> Result<(), Refusal>
    requires { AreSessions sessions.now.entries }
    ensures { result_err result
        ≡ first_refusal (contents_with [] (shown sessions.now.entries) 0)
        (op.Session name.now false words.now) }
{
    if !is_name(name) {
        Err(Refusal::BadName)
    } else if has_session(sessions, name) {
        Err(Refusal::SessionExists)
    } else if !are_words(words) {
        Err(Refusal::BadWords)
    } else if count_sessions(sessions) >= MOST_SESSIONS {
        Err(Refusal::TooManySessions)
    } else {
        Ok(())
    }
}

fn check_new(
    fields: &IndexMap<u32, Slot>,
    sessions: &IndexMap<Name, Option<Session>>,
    next: u32,
    after: u32,
    session: &[u8],
    input: &[u8],
) -> Result<(), Refusal>
    requires fields { AreFields fields.now.entries }
    requires sessions { AreSessions sessions.now.entries }
    ensures { result_err result
        ≡ first_refusal
        (contents_with (shown fields.now.entries) (shown sessions.now.entries) next)
        (op.New after session.now input.now) }
{
    if !has_session(sessions, session) {
        Err(Refusal::NoSession)
    } else if !has_place(fields, after) {
        Err(Refusal::NoField)
    } else if !is_input(input) {
        Err(Refusal::BadInput)
    } else if count_fields(fields) >= MOST_FIELDS {
        Err(Refusal::TooManyFields)
    } else if next > LAST_NUMBER {
        Err(Refusal::IdsSpent)
    } else {
        Ok(())
    }
}

fn check_set(fields: &IndexMap<u32, Slot>, id: u32, input: &[u8]) -> Result<(), Refusal>
    requires { AreFields fields.now.entries }
    ensures { result_err result
        ≡ first_refusal (contents_with (shown fields.now.entries) [] 0) (op.Set id input.now) }
{
    if !has_field(fields, id) {
        Err(Refusal::NoField)
    } else if !is_input(input) {
        Err(Refusal::BadInput)
    } else {
        Ok(())
    }
}

fn check_there(fields: &IndexMap<u32, Slot>, id: u32) -> Result<(), Refusal>
    requires { AreFields fields.now.entries }
    ensures { result_err result
        ≡ first_refusal (contents_with (shown fields.now.entries) [] 0) (op.Remove id) }
{
    if !has_field(fields, id) {
        Err(Refusal::NoField)
    } else {
        Ok(())
    }
}

fn check_move(fields: &IndexMap<u32, Slot>, id: u32, after: u32) -> Result<(), Refusal>
    requires fields { AreFields fields.now.entries }
    requires apart { AreApart (numbers (shown fields.now.entries)) }
    ensures { result_err result
        ≡ first_refusal (contents_with (shown fields.now.entries) [] 0) (op.Move id after) }
{
    if !has_field(fields, id) || !has_place(fields, after) {
        Err(Refusal::NoField)
    } else if after == id || stands_after(fields, after, id) {
        Err(Refusal::SamePlace)
    } else {
        Ok(())
    }
}

fn check_answer(fields: &IndexMap<u32, Slot>, id: u32, prompt: &[u8]) -> Result<(), Refusal>
    requires { AreFields fields.now.entries }
    ensures { (output : Tree)
        → result_err result
        ≡ first_refusal (contents_with (shown fields.now.entries) [] 0)
        (op.Answer id prompt.now output) }
{
    if !has_field(fields, id) {
        Err(Refusal::NoField)
    } else if prompt.len() > LONGEST_KEPT_PROMPT {
        Err(Refusal::BadInput)
    } else {
        Ok(())
    }
}

fn check_ids(next: u32, number: u32) -> Result<(), Refusal>
    ensures { result_err result ≡ first_refusal (contents_with [] [] next) (op.Ids number) }
{
    if number < next || number > LAST_NUMBER + 1 {
        Err(Refusal::IdsSpent)
    } else {
        Ok(())
    }
}
