//! The agenda of a script.
ghost use Rattle.std.specs.Prelude.{◌≡◌, ◌&&◌, None, false};
ghost use Rattle.script_agenda.specs.ScriptAt as standing;

use arrivals::Woken;
use bstr::Lines;
use child_calls::Seat;
use disk_model::Disk;
use driver::{Action, Agenda, Came};
use offline_programs::RunFault;
use session_engine::{BufferedHost, Host, Joined, Joins};
use std::alloc::Global;
use tellings::Note;

/// A script that was read whole, whose lines are taken one after another: commands that only change the worksheet in groups, and a
/// wait in rounds (docs/use/SCRIPT.md).
///
/// A round is one receive for each session with a waiting item, in the order in which they were made. After 100,000 rounds each
/// session that still waits has stalled. A strict script stops after the first line that goes wrong.
#[derive(Drop)]
pub struct ByScript<'a> {
    /// The lines that weren't taken yet.
    pub(crate) lines: Lines<'a>,
    pub(crate) strict: bool,
    /// How many lines were taken.
    pub(crate) number: u64,
    /// How many rounds were begun of the wait that holds back the next line.
    pub(crate) wait: Option<u32>,
    /// The lives that are still to be heard in this round.
    pub(crate) round: Vec<Seat>,
    /// How many commands were taken as one group, of which nothing came yet.
    pub(crate) group: u64,
    /// Whether the line that was taken last went wrong.
    pub(crate) wrong: bool,
}

impl<'a> ByScript<'a> {
    ghost use Rattle.script_agenda.specs.ScriptAt.{script_begun, script_stand};

    /// A script of these lines, of which none was taken yet.
    pub fn new(alloc: Global, lines: Lines<'a>, strict: bool) -> ByScript<'a>
        ensures { script_stand result ≡ script_begun lines.entry strict }
    {
        ByScript {
            lines,
            strict,
            number: 0,
            wait: None,
            round: Vec::new(alloc),
            group: 0,
            wrong: false,
        }
    }

    /// Whether it is strict, and its last line went wrong.
    pub(crate) fn is_stopped(&self) -> bool
        ensures { result ≡ (self.now.strict && self.now.wrong) }
    {
        self.strict && self.wrong
    }

    /// The number of the line after which a strict script stopped.
    pub fn stopped_at(&self) -> Option<u64>
        ensures { result ≡ standing.stopped_line (script_stand self.now) }
    {
        if self.is_stopped() {
            return Some(self.number);
        }
        None
    }
}

impl<'a> Joins for ByScript<'a> {
    ghost use Rattle.script_agenda.specs.ScriptAt.{script_stand};
    ghost use Rattle.script_agenda.specs.ScriptRules.{ScriptJoins};

    ghost joins = { λ a w first more b. ScriptJoins (script_stand a) w first more (script_stand b) };

    fn join<D: Disk>(&mut self, alloc: Global, _host: &BufferedHost<D>) -> Joined {
        Joined {
            first: None,
            events: Vec::new(alloc),
        }
    }
}

impl<'a> Agenda for ByScript<'a> {
    ghost use Rattle.driver.specs.Place.{action_rules};
    ghost use Rattle.script_agenda.specs.ScriptAt.{script_stand};
    ghost use Rattle.script_agenda.specs.Says.{ScriptSays};
    ghost use Rattle.script_agenda.specs.ScriptRules.{ScriptHeeds, ScriptWoken};

    ghost rules = { action_rules
        (λ a w now answer b. ScriptSays (script_stand a) w now answer (script_stand b))
        (λ a woken b. ScriptWoken (script_stand a) woken (script_stand b))
        (λ a w now came note b. ScriptHeeds (script_stand a) w now came note (script_stand b)) };

    fn next<D: Disk>(
        &mut self,
        alloc: Global,
        host: &Host<D>,
        _now: u64,
    ) -> Result<Action, RunFault> {
        self.next_action(alloc, host)
    }

    // The sources aren't watched.
    fn wake(&mut self, _woken: Woken) {}

    fn heed<D: Disk>(&mut self, _host: &Host<D>, _now: u64, came: &Came) -> Option<Note> {
        self.heed_came(came);
        None
    }
}
