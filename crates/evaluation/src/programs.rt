//! The programs that sessions name, of which each is looked for before the first is started.
ghost use Rattle.std.specs.Prelude.{◌≡◌, IfSome, None, false, true};
ghost use Rattle.evaluation.specs.Programs as needs;

use crate::rounds::is_field_of;
use worksheet::{Name, Session, Sheet};

/// Where programs are looked for by their names.
pub trait Programs {
    ghost use Rattle.std.specs.Prelude.{ℕ, Bool, List};

    /// What a look for a program of this name may answer.
    ghost finds: { Self → List ℕ → Bool → Type 0 };

    /// Whether there is a program of this name to start. Where that can't be found out it counts as there.
    fn has(&self, name: &[u8]) -> bool
        ensures { finds self.now name.now result };
}

/// Whether one of the fields with these numbers is of this session.
pub fn is_needed(sheet: &Sheet, ids: &[u32], session: Name) -> bool
    ensures { result ≡ needs.is_needed sheet.now.contents.fields ids.now session }
{
    ids.iter().any(|id| is_field_of(session, sheet.field(*id)))
}

/// The program that a session names.
fn program_of(session: &Session) -> &[u8]
    ensures { result.now ≡ needs.program_of session.now.words }
{
    match session.words.as_slice().first() {
        Some(word) => word.as_slice(),
        None => &[],
    }
}

/// Whether the program of this session is there, if one of these fields is of it.
fn is_ready<P: Programs>(programs: &P, sheet: &Sheet, ids: &[u32], session: &Session) -> bool
    ensures ready { result ≡ true → needs.HasItsProgram (P.finds programs.now)
        sheet.now.contents.fields ids.now session.now }
    ensures needed { result ≡ false
        → needs.is_needed sheet.now.contents.fields ids.now session.now.name ≡ true }
    ensures unfound { result ≡ false
        → P.finds programs.now (needs.program_of session.now.words) false }
{
    if is_needed(sheet, ids, session.name) {
        programs.has(program_of(session))
    } else {
        true
    }
}

/// The first session whose program isn't there, of those of which a field has one of these numbers.
pub fn lacking_in<P: Programs>(programs: &P, sheet: &Sheet, ids: &[u32]) -> Option<Name>
    ensures found { IfSome result (needs.IsFirstLacking (P.finds programs.now)
        sheet.now.contents.fields ids.now sheet.now.contents.sessions) }
    ensures none { result ≡ None → needs.HaveAll (P.finds programs.now) sheet.now.contents.fields
        ids.now sheet.now.contents.sessions }
{
    for session in sheet.sessions() {
        if !is_ready(programs, sheet, ids, session) {
            return Some(session.name);
        }
    }
    None
}
