//! What is looked for before the first field is asked.
ghost use Rattle.std.specs.Prelude.{◌≡◌, IfOk};
ghost use Rattle.evaluation.specs.Meant as meant;
ghost use Rattle.evaluation.specs.Rounds.{asking_order};
ghost use Rattle.field_agenda.specs.Looks.{LookFinds};

use crate::stage::Stage;
use evaluation::choosing::missing_in;
use evaluation::programs::lacking_in;
use evaluation::rounds::asked_in;
use evaluation::{Plan, Programs};
use std::alloc::{AllocError, Global};
use worksheet::Sheet;

/// What was found: the fields that are evaluated, or why none is.
pub(crate) struct Selection {
    pub(crate) ids: Vec<u32>,
    pub(crate) stage: Stage,
}

/// How far it is, where each field is there that is asked for and these are evaluated.
fn stage_by<P: Programs>(plan: &Plan, programs: &P, sheet: &Sheet, ids: &[u32]) -> Stage
    requires all { meant.missing_in plan.now.which sheet.now.contents.fields ≡ None }
    requires order { ids.now ≡ asking_order plan.now sheet.now.contents }
    ensures { LookFinds (P.finds programs.now) plan.now sheet.now.contents ids.now result }
{
    match lacking_in(programs, sheet, ids) {
        Some(name) => Stage::NoProgram(name),
        None => Stage::Going,
    }
}

/// Looks for each field that is asked for, and for the program of each session of which a field is to be evaluated.
pub(crate) fn look_for<P: Programs>(
    alloc: Global,
    plan: &Plan,
    programs: &P,
    sheet: &Sheet,
) -> Result<Selection, AllocError>
    ensures { IfOk result (λ found. LookFinds (P.finds programs.now) plan.now sheet.now.contents
        found.ids.items found.stage) }
{
    if let Some(id) = missing_in(&plan.which, sheet) {
        return Ok(Selection {
            ids: Vec::new(alloc),
            stage: Stage::NoField(id),
        });
    }
    let ids = asked_in(alloc, plan, sheet)?;
    let stage = stage_by(plan, programs, sheet, ids.as_slice());
    Ok(Selection { ids, stage })
}
