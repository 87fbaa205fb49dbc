//! What an agenda of a script makes of what came: whether the line went wrong, and how many lines count as taken.
ghost use Rattle.std.specs.Prelude.{◌≡◌};
ghost use Rattle.driver.specs.Reports.{came_of};
ghost use Rattle.script_agenda.specs.ScriptRules as rules;

use crate::by_script::ByScript;
use driver::Came;
use live::{any_of_both_wrong, any_outcome_wrong, is_wrong};

/// Whether a line went wrong by what came.
fn went_wrong(came: &Came) -> bool
    ensures { result ≡ rules.goes_wrong_by (came_of came.now) }
{
    match came {
        Came::Gave(gave) => any_outcome_wrong(gave.outcomes.as_slice()),
        Came::Joined(gave) => { any_of_both_wrong(gave.outcomes.as_slice(), gave.later.as_slice()) }
        Came::Alone(outcome) => is_wrong(&outcome.reply),
        Came::Interrupted(_) | Came::Shown => false,
    }
}

/// How many events were taken.
fn taken(came: &Came) -> u64
    ensures { result ≡ rules.taken_of (came_of came.now) }
{
    match came {
        Came::Gave(gave) => gave.outcomes.len() as u64,
        Came::Joined(gave) => gave.outcomes.len() as u64 + gave.later.len() as u64,
        Came::Alone(_) => 1,
        Came::Interrupted(_) | Came::Shown => 0,
    }
}

impl<'a> ByScript<'a> {
    ghost use Rattle.script_agenda.specs.ScriptAt.{script_stand};
    ghost use Rattle.script_agenda.specs.ScriptRules.{after_heeding};

    /// Heeds what came: whether the line went wrong. The lines of a group that weren't taken, since one before them was refused,
    /// aren't counted.
    pub(crate) fn heed_came(&mut self, came: &Came)
        ensures { script_stand self.new ≡ after_heeding (script_stand self.old) (came_of came.now) }
    {
        let left = self.group.saturating_sub(taken(came));
        self.number = self.number.saturating_sub(left);
        self.group = 0;
        self.wrong = self.wrong || went_wrong(came);
    }
}
