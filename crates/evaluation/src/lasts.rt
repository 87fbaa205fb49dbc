//! Which field of each session was asked last.
ghost use Rattle.std.specs.Prelude.{◌≡◌, IfOk, filter};
ghost use Rattle.std.specs.Option.{option_copied};
ghost use Rattle.evaluation.specs.Lasts as lasts;

use std::alloc::{AllocError, Global};
use worksheet::{Field, Name};

/// The field that was asked last of a session.
#[derive(Clone, Copy, Debug)]
pub struct Last {
    /// The session.
    pub session: Name,
    /// The number of the field.
    pub field: u32,
}

/// The number of the field that was asked last of this session, where one was.
pub(crate) fn last_asked(all: &[Last], session: Name) -> Option<u32>
    ensures { result ≡ lasts.last_asked all.now session }
{
    all.iter()
        .find(|last| last.session == session)
        .map(|last| last.field)
}

/// Leaves that of this session out.
fn leave_out(asked: &mut Vec<Last>, session: Name)
    ensures { asked.new.items ≡ filter (lasts.is_of_another session) asked.old.items }
{
    asked.retain(|last| last.session != session);
}

/// The same of the others, and this field as the last one of its session.
fn with_last(alloc: Global, all: &[Last], field: Last) -> Result<Vec<Last>, AllocError>
    ensures { IfOk result (λ asked. asked.items ≡ lasts.with_last all.now field) }
{
    let mut asked = all.to_vec(alloc)?;
    leave_out(&mut asked, field.session);
    asked.push(field)?;
    Ok(asked)
}

/// The same where this field was asked after them, if it is there.
pub fn after_asking(
    alloc: Global,
    all: &[Last],
    field: Option<&Field>,
) -> Result<Vec<Last>, AllocError>
    ensures { IfOk result (λ asked. asked.items ≡ lasts.after_asking all.now
        (option_copied field.entry)) }
{
    match field {
        Some(field) => with_last(
            alloc,
            all,
            Last {
                session: field.session,
                field: field.id,
            },
        ),
        None => all.to_vec(alloc),
    }
}
