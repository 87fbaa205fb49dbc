//! What is next.
ghost use Rattle.std.specs.Prelude.{◌≡◌, ◌&&◌, ◌∷◌, [], IfNone, IfSome, Some, false};
ghost use Rattle.session_engine.specs.World.{World};
ghost use Rattle.session_engine.specs.Host.{IsHost};
ghost use Rattle.sheet_text.specs.Script.{line_of};
ghost use Rattle.script_agenda.specs.Says as says;

use crate::by_script::ByScript;
use crate::gathering::{gather, pass, peek};
use child_calls::Seat;
use child_edge::{MOST_ROUNDS, waiting_lives};
use disk_model::Disk;
use driver::{Action, Show, stalled};
use host_events::Event;
use offline_programs::RunFault;
use session_engine::Host;
use sheet_text::{LineFault, ScriptLine, read_line};
use std::alloc::Global;
use tellings::Note;

/// What is asked for of a life in the round with this number.
fn ask_life(rounds: u32, seat: Seat) -> Action
    ensures { result ≡ says.asks_life rounds seat }
{
    if rounds <= MOST_ROUNDS {
        Action::Receive(seat)
    } else {
        Action::Alone(stalled(seat))
    }
}

impl<'a> ByScript<'a> {
    ghost use Rattle.script_agenda.specs.Says.{LineAsks, SaysOfLines, ScriptSays, TakesOneLine, WaitSays};
    ghost use Rattle.script_agenda.specs.ScriptAt.{script_stand, with_round};

    /// The next life that is still to be heard in this round.
    fn next_in_round(&mut self) -> Option<Seat>
        ensures some { IfSome result (λ seat. self.old.round.items ≡ seat ∷ self.new.round.items) }
        ensures none { IfNone result ((self.old.round.items ≡ []) × (self.new.round.items ≡ [])) }
        ensures stands { script_stand self.new
            ≡ with_round (script_stand self.old) self.new.round.items }
    {
        if self.round.is_empty() {
            return None;
        }
        Some(self.round.remove(0))
    }

    /// Begins another round of the wait, of which so many were begun, or ends it.
    fn begin_round<D: Disk>(
        &mut self,
        alloc: Global,
        host: &Host<D>,
        rounds: u32,
    ) -> Result<Action, RunFault>
        ensures { (w : World) → self.old.round.items ≡ [] → IsHost host.now w
            → WaitSays (script_stand self.old) w rounds result (script_stand self.new) }
    {
        if rounds > MOST_ROUNDS {
            self.wait = None;
            return Ok(Action::Nothing);
        }
        let Ok(seats) = waiting_lives(alloc, host) else {
            return Err(RunFault::OutOfMemory);
        };
        self.round = seats;
        match self.next_in_round() {
            Some(seat) => {
                self.wait = Some(rounds + 1);
                Ok(ask_life(rounds + 1, seat))
            }
            None => {
                self.wait = None;
                Ok(Action::Nothing)
            }
        }
    }

    /// What is next in a wait, of which so many rounds were begun.
    fn next_life<D: Disk>(
        &mut self,
        alloc: Global,
        host: &Host<D>,
        rounds: u32,
    ) -> Result<Action, RunFault>
        ensures { (w : World) → IsHost host.now w
            → WaitSays (script_stand self.old) w rounds result (script_stand self.new) }
    {
        match self.next_in_round() {
            Some(seat) => Ok(ask_life(rounds, seat)),
            None => self.begin_round(alloc, host, rounds),
        }
    }

    /// What the line that was taken last asks for.
    fn ask(&mut self, line: ScriptLine) -> Action
        ensures { LineAsks (Some line) (script_stand self.old) result (script_stand self.new) }
    {
        match line {
            ScriptLine::Skip => Action::Nothing,
            ScriptLine::Print => Action::Show(Show::Sheet(self.number)),
            ScriptLine::Wait => {
                self.wait = Some(0);
                Action::Nothing
            }
            ScriptLine::Command(command) => Action::Alone(Event::Command(command)),
        }
    }

    /// Takes this line by itself, which was read.
    fn take_line(&mut self, alloc: Global, line: &[u8]) -> Result<Action, RunFault>
        ensures { TakesOneLine (line_of line.now) (script_stand self.old) result
            (script_stand self.new) }
    {
        match read_line(alloc, line) {
            Ok(line) => Ok(self.ask(line)),
            Err(LineFault::BadLine) => {
                self.wrong = true;
                Ok(Action::Show(Show::Note(Note::Bad(self.number))))
            }
            Err(LineFault::OutOfMemory) => Err(RunFault::OutOfMemory),
        }
    }

    /// Takes the next line by itself.
    fn take_next(&mut self, alloc: Global) -> Result<Action, RunFault>
        ensures { (self.old.strict && self.old.wrong) ≡ false
            → SaysOfLines (script_stand self.old) result (script_stand self.new) }
    {
        let Some(line) = peek(&self.lines) else {
            return Ok(Action::End);
        };
        if self.number == u64::MAX {
            return Err(RunFault::InputTooLong);
        }
        pass(&mut self.lines);
        self.number += 1;
        self.wrong = false;
        self.take_line(alloc, line)
    }

    /// Takes the next lines as one group, or the next one by itself.
    fn take_lines(&mut self, alloc: Global) -> Result<Action, RunFault>
        ensures { (self.old.strict && self.old.wrong) ≡ false
            → SaysOfLines (script_stand self.old) result (script_stand self.new) }
    {
        let before = self.number;
        let edits = gather(alloc, self.strict, &mut self.lines, &mut self.number);
        if !edits.is_empty() {
            self.group = edits.len() as u64;
            self.wrong = false;
            return Ok(Action::Edits {
                up_to: self.strict,
                edits,
            });
        }
        if self.number != before {
            self.wrong = false;
            return Ok(Action::Nothing);
        }
        self.take_next(alloc)
    }

    /// What is next.
    pub(crate) fn next_action<D: Disk>(
        &mut self,
        alloc: Global,
        host: &Host<D>,
    ) -> Result<Action, RunFault>
        ensures { (w : World) → IsHost host.now w
            → ScriptSays (script_stand self.old) w 0 result (script_stand self.new) }
    {
        if let Some(rounds) = self.wait {
            return self.next_life(alloc, host, rounds);
        }
        if self.is_stopped() {
            return Ok(Action::End);
        }
        self.take_lines(alloc)
    }
}
