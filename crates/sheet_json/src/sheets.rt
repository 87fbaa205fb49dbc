//! A worksheet as lines of JSON.
ghost use Rattle.std.specs.Prelude.{◌≡◌, IfOk, List, codes, map};
ghost use Rattle.serde_json.specs.Data.{put as with_member};
ghost use Rattle.serde_json.specs.View.{members_view, view};
ghost use Rattle.sheet_json.specs.Objects.{telling_data};
ghost use Rattle.sheet_json.specs.Objects as json;
ghost use Rattle.sheet_json.specs.Shown as shown;
ghost use Rattle.sheet_json.specs.inside.Rows as rows;
ghost use Rattle.sheet_json.specs.Tellings.{SessionShown};
ghost use Rattle.sheet_json.specs.Tellings as reported;

use crate::events::texts_value;
use crate::members::Members;
use serde_json::Value;
use std::alloc::{AllocError, Global};
use worksheet::{Session, Sheet};

/// The number of a life, where one goes on.
fn life_value(life: Option<u32>) -> Value
    ensures { view result ≡ json.life_data life }
{
    match life {
        None => Value::Null,
        Some(number) => Value::from(number),
    }
}

/// A session, with the number of its life where one goes on, and with the number of items that wait in it.
pub fn session_value(
    alloc: Global,
    session: &Session,
    life: Option<u32>,
    waiting: u32,
) -> Result<Value, AllocError>
    ensures { IfOk result (λ value. view value
        ≡ json.session_data (shown.session_shown life waiting session.now)) }
{
    let words = texts_value(alloc, session.words.as_slice())?;
    let members = Members::new(alloc)
        .with("words", words)?
        .with("life", life_value(life))?
        .bytes("name", session.name.as_slice())?
        .with("tab", Value::Bool(session.tab))?
        .count("waiting", waiting as u64)?;
    Ok(members.done())
}

/// The sessions, in the order of their making.
#[tactic(auto, using(crate::proofs::Lists::row_steps))]
fn sessions_row(alloc: Global, sheet: &Sheet) -> Result<Value, AllocError>
    ensures { IfOk result (λ value. view value ≡ rows.sessions_row sheet.now.contents.sessions) }
{
    let mut values = Vec::new(alloc);
    let mut sessions = sheet.sessions();
    while let Some(session) = sessions.next() {
        let value = session_value(alloc, session, None, 0)?;
        values.push(value)?;
    }
    Ok(Value::Array(values))
}

/// The same, as they are shown.
fn sessions_value(alloc: Global, sheet: &Sheet) -> Result<Value, AllocError>
    ensures { IfOk result (λ value. view value
        ≡ json.sessions_data (shown.still_sessions sheet.now.contents)) }
{
    sessions_row(alloc, sheet)
}

/// The numbers of the fields, in their order.
#[tactic(auto, using(crate::proofs::Lists::row_steps))]
fn ids_row(alloc: Global, sheet: &Sheet) -> Result<Value, AllocError>
    ensures { IfOk result (λ value. view value ≡ rows.ids_row sheet.now.contents.fields) }
{
    let mut values = Vec::new(alloc);
    let mut fields = sheet.fields();
    while let Some(field) = fields.next() {
        values.push(Value::from(field.id))?;
    }
    Ok(Value::Array(values))
}

/// The same, as they are shown.
fn ids_value(alloc: Global, sheet: &Sheet) -> Result<Value, AllocError>
    ensures { IfOk result (λ value. view value ≡ json.ids_data (shown.ids_of sheet.now.contents)) }
{
    ids_row(alloc, sheet)
}

/// Members with the numbers of the fields, and the number that the next one gets.
fn with_ids(alloc: Global, members: Members, sheet: &Sheet) -> Result<Members, AllocError>
    ensures { IfOk result (λ more. members_view more.map.entries
        ≡ with_member (codes "next") (json.count sheet.now.contents.next)
        (with_member (codes "fields") (json.ids_data (shown.ids_of sheet.now.contents))
        (members_view members.map.entries))) }
{
    let ids = ids_value(alloc, sheet)?;
    members
        .with("fields", ids)?
        .count("next", sheet.next_id() as u64)
}

/// What follows the fields that a line asks for, where the sessions have these values.
pub fn sheet_value(
    alloc: Global,
    line: u64,
    sheet: &Sheet,
    sessions: Vec<Value>,
) -> Result<Value, AllocError>
    ensures { (all : List SessionShown) → map view sessions.items ≡ map json.session_data all
        → IfOk result (λ value. view value ≡ telling_data
        (reported.sheet line (shown.ids_of sheet.now.contents) sheet.now.contents.next all)) }
{
    let members = Members::new(alloc).with("sessions", Value::Array(sessions))?;
    with_ids(alloc, members, sheet)?
        .count("line", line)?
        .typed("sheet")
}

/// What follows the fields of a worksheet that no host has.
pub fn whole_value(alloc: Global, sheet: &Sheet) -> Result<Value, AllocError>
    ensures { IfOk result (λ value. view value ≡ telling_data (shown.whole_of sheet.now.contents)) }
{
    let sessions = sessions_value(alloc, sheet)?;
    let members = Members::new(alloc).with("sessions", sessions)?;
    with_ids(alloc, members, sheet)?.typed("sheet")
}
