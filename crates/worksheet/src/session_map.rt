//! A map of sessions by name.
ghost use Rattle.std.specs.Prelude.{◌≡◌, ◌++◌, ◌∷◌, [], true, false, None, Some, OnOk, OnErr, length};
ghost use Rattle.std.specs.Option.{option_copied};
ghost use Rattle.std.specs.Str.{bytes_eq};
ghost use Rattle.indexmap.specs.IndexMap.{get};
ghost use Rattle.worksheet.specs.declared.field.Session.{Session};
ghost use Rattle.worksheet.specs.Names.{is_name};
ghost use Rattle.worksheet.specs.Checks.{is_new_name, is_ready_name as ready_name_test, session_named};
ghost use Rattle.worksheet.specs.Edits.{contents_with};
ghost use Rattle.worksheet.specs.inside.Entries.{AreSessions, shown, reserved};

use crate::field::Session;
use crate::name::Name;
use block_tree::OutOfMemory;
use indexmap::IndexMap;

/// The session with this name.
pub(crate) fn session_with<'a>(
    sessions: &'a IndexMap<Name, Option<Session>>,
    name: &[u8],
) -> Option<&'a Session>
    requires { AreSessions sessions.now.entries }
    ensures { option_copied result ≡ session_named (shown sessions.now.entries) name.now }
{
    let name = Name::new(name)?;
    match sessions.get(&name) {
        Some(session) => session.as_ref(),
        None => None,
    }
}

/// The name that is held ready for a session, if one is.
fn reserved_name(sessions: &IndexMap<Name, Option<Session>>) -> Option<&Name>
    requires { AreSessions sessions.now.entries }
    ensures { option_copied result ≡ reserved sessions.now.entries }
{
    let (name, session) = sessions.last()?;
    match session {
        Some(_) => None,
        None => Some(name),
    }
}

/// Whether this name is held ready for a session.
pub(crate) fn is_ready_name(sessions: &IndexMap<Name, Option<Session>>, name: &[u8]) -> bool
    requires { AreSessions sessions.now.entries }
    ensures { result ≡ ready_name_test (reserved sessions.now.entries) name.now }
{
    match reserved_name(sessions) {
        Some(ready) => ready.as_slice() == name,
        None => false,
    }
}

/// How many sessions there are.
pub(crate) fn count_sessions(sessions: &IndexMap<Name, Option<Session>>) -> usize
    requires { AreSessions sessions.now.entries }
    ensures { result ≡ length (shown sessions.now.entries) }
{
    match reserved_name(sessions) {
        Some(_) => sessions.len() - 1,
        None => sessions.len(),
    }
}

/// Puts a name that has no entry after the others, without a session.
fn add_name(sessions: &mut IndexMap<Name, Option<Session>>, name: Name) -> Result<(), OutOfMemory>
    requires { get bytes_eq sessions.old name ≡ None }
    ensures ok { OnOk result (sessions.new.entries ≡ sessions.old.entries ++ (name, None) ∷ []) }
    ensures err { OnErr result (sessions.new.entries ≡ sessions.old.entries) }
{
    match sessions.insert(name, None) {
        Ok(_) => Ok(()),
        Err(_) => Err(OutOfMemory),
    }
}

/// Holds a name ready for a session, after the sessions, and no other name any more. It isn't ready
/// yet, and a session with it can be made.
pub(crate) fn reserve_name(
    sessions: &mut IndexMap<Name, Option<Session>>,
    name: &[u8],
) -> Result<(), OutOfMemory>
    requires sessions { AreSessions sessions.old.entries }
    requires new { is_new_name (contents_with [] (shown sessions.old.entries) 0) name.now ≡ true }
    requires absent { ready_name_test (reserved sessions.old.entries) name.now ≡ false }
    ensures ok { OnOk result (reserved sessions.new.entries ≡ Some name.now) }
    ensures same { shown sessions.new.entries ≡ shown sessions.old.entries }
    ensures err { OnErr result (sessions.new.entries ≡ sessions.old.entries) }
    ensures sessions { AreSessions sessions.new.entries }
{
    let Some(name) = Name::new(name) else {
        unreachable!();
    };
    let has_earlier = reserved_name(sessions).is_some();
    let earlier = count_sessions(sessions);
    add_name(sessions, name)?;
    if has_earlier {
        sessions.shift_remove_index(earlier);
    }
    Ok(())
}

/// Puts a session under its name, which is held ready for it, after the others.
pub(crate) fn put_session(sessions: &mut IndexMap<Name, Option<Session>>, session: Session)
    requires sessions { AreSessions sessions.old.entries }
    requires ready { reserved sessions.old.entries ≡ Some session.name }
    requires named { is_name session.name ≡ true }
    ensures made { shown sessions.new.entries ≡ shown sessions.old.entries ++ session ∷ [] }
    ensures sessions { AreSessions sessions.new.entries }
{
    let last = count_sessions(sessions);
    sessions[last] = Some(session);
}
