//! What an agenda of lines takes of its input.
ghost use Rattle.std.specs.Prelude.{◌≡◌, ◌+◌, ◌<◌, ◌^◌, None, Some, false};
ghost use Rattle.session_engine.specs.World.{World};
ghost use Rattle.session_engine.specs.Host.{IsHost};
ghost use Rattle.driver.specs.Steps.{most_together};
ghost use Rattle.live.specs.LiveLines.{live_line_of};

use crate::alone::{Reading, bad, choose_line};
use crate::by_lines::ByLines;
use crate::doing::{Doing, LineChoice, Transaction};
use crate::gathering::gather;
use crate::transactions::{break_at, choose_in_transaction};
use arrivals::NextLine;
use disk_model::Disk;
use driver::{Action, Show};
use host_events::Event;
use offline_programs::RunFault;
use session_engine::Host;
use std::alloc::Global;
use std::io::Read;
use tellings::Note;

impl<R: Read> ByLines<R> {
    ghost use Rattle.line_agenda.specs.Alone.{AsksLines};
    ghost use Rattle.line_agenda.specs.LinesAt.{after_group, after_line, counted, lines_stand, with_transaction};
    ghost use Rattle.line_agenda.specs.Taking.{EndsInput, ReadsOn, TakesAlone, TakesInput, TakesGivenLine};
    ghost use Rattle.offline_programs.specs.declared.fault.RunFault.TheVariants as fault;

    /// These commands of lines that were there together are taken as one group.
    fn group(&mut self, events: Vec<Event>, count: u64) -> Action
        requires { self.old.number + count + 1 < 2 ^ 64 }
        ensures action { AsksLines (self.old.number + 1) events.items result }
        ensures stands { lines_stand R.remaining self.new ≡ after_group
            (lines_stand R.remaining self.old) count }
    {
        let first = self.number + 1;
        self.number += count;
        self.doing = Doing::Commands;
        Action::Lines(first, events)
    }

    /// This was chosen for the next line.
    fn follow(&mut self, chosen: LineChoice) -> Action
        requires { self.old.number + 1 < 2 ^ 64 }
        ensures action { result ≡ chosen.action }
        ensures stands { lines_stand R.remaining self.new ≡ after_line
            (lines_stand R.remaining self.old) chosen }
    {
        let LineChoice {
            action,
            doing,
            held,
            transaction,
        } = chosen;
        self.number += 1;
        self.doing = doing;
        self.held = held;
        self.transaction = transaction;
        action
    }

    /// How the next line is taken.
    fn reading(&self, now: u64) -> Reading
        requires { self.now.number + 1 < 2 ^ 64 }
        ensures manner { result.manner ≡ self.now.manner }
        ensures number { result.number ≡ self.now.number + 1 }
        ensures now { result.now ≡ now }
    {
        Reading {
            manner: self.manner,
            number: self.number + 1,
            now,
        }
    }

    /// There was no memory for the next line.
    fn lack_memory(&mut self) -> RunFault
        requires { self.old.number + 1 < 2 ^ 64 }
        ensures fault { result ≡ fault.OutOfMemory }
        ensures stands { lines_stand R.remaining self.new ≡ counted
            (lines_stand R.remaining self.old) }
    {
        self.number += 1;
        self.transaction = None;
        RunFault::OutOfMemory
    }

    /// Takes the line that was just given, where no transaction is open.
    fn take_by_itself<D: Disk>(
        &mut self,
        alloc: Global,
        host: &Host<D>,
        now: u64,
    ) -> Result<Action, RunFault>
        requires { self.old.number + 1 < 2 ^ 64 }
        ensures { (w : World) → IsHost host.now w
            → TakesGivenLine (with_transaction (lines_stand R.remaining self.old) None) w now
            (live_line_of self.old.lines.held.line) result (lines_stand R.remaining self.new) }
    {
        let at = self.reading(now);
        match choose_line(alloc, host, at, self.lines.line()) {
            Ok(chosen) => Ok(self.follow(chosen)),
            Err(_) => Err(self.lack_memory()),
        }
    }

    /// Takes the line that was just given, in this transaction.
    fn take_in_transaction(
        &mut self,
        alloc: Global,
        now: u64,
        transaction: Transaction,
    ) -> Result<Action, RunFault>
        requires { self.old.number + 1 < 2 ^ 64 }
        ensures { (w : World) → TakesGivenLine (with_transaction (lines_stand R.remaining self.old)
            (Some transaction)) w now (live_line_of self.old.lines.held.line) result
            (lines_stand R.remaining self.new) }
    {
        let number = self.number + 1;
        match choose_in_transaction(alloc, transaction, number, self.lines.line()) {
            Ok(chosen) => Ok(self.follow(chosen)),
            Err(_) => Err(self.lack_memory()),
        }
    }

    /// Takes the line that was just given.
    fn take_line<D: Disk>(
        &mut self,
        alloc: Global,
        host: &Host<D>,
        now: u64,
    ) -> Result<Action, RunFault>
        requires { self.old.number + 1 < 2 ^ 64 }
        ensures { (w : World) → IsHost host.now w
            → TakesGivenLine (lines_stand R.remaining self.old) w now
            (live_line_of self.old.lines.held.line) result (lines_stand R.remaining self.new) }
    {
        match self.transaction.take() {
            None => self.take_by_itself(alloc, host, now),
            Some(transaction) => self.take_in_transaction(alloc, now, transaction),
        }
    }

    /// Takes a line that is too long.
    fn take_too_long(&mut self, now: u64) -> Action
        requires { self.old.number + 1 < 2 ^ 64 }
        ensures { (w : World) → TakesAlone (lines_stand R.remaining self.old) w now None result
            (lines_stand R.remaining self.new) }
    {
        let at = self.reading(now);
        match self.transaction.take() {
            None => self.follow(bad(at)),
            Some(transaction) => self.follow(break_at(transaction, at.number)),
        }
    }

    /// The input is at its end: of a transaction that is open nothing is done.
    fn end_input(&mut self) -> Action
        ensures { EndsInput self.old.transaction (lines_stand R.remaining self.old) result
            (lines_stand R.remaining self.new) }
    {
        match self.transaction.take() {
            None => Action::End,
            Some(transaction) => {
                self.doing = Doing::Line(true);
                Action::Show(Show::Note(Note::Undone(transaction.first, self.number)))
            }
        }
    }

    /// Reads more of the input.
    fn read_on(&mut self) -> Result<Action, RunFault>
        ensures { ReadsOn (lines_stand R.remaining self.old) result
            (lines_stand R.remaining self.new) }
    {
        match self.lines.fill() {
            Ok(()) => Ok(Action::Nothing),
            Err(_) => Err(RunFault::Input),
        }
    }

    /// Takes the next line, or reads more of the input.
    fn take_next<D: Disk>(
        &mut self,
        alloc: Global,
        host: &Host<D>,
        now: u64,
    ) -> Result<Action, RunFault>
        requires { self.old.number + 1 < 2 ^ 64 }
        ensures { (w : World) → IsHost host.now w
            → TakesInput (lines_stand R.remaining self.old) w now result
            (lines_stand R.remaining self.new) }
    {
        match self.lines.next() {
            NextLine::Line => self.take_line(alloc, host, now),
            NextLine::TooLong => Ok(self.take_too_long(now)),
            NextLine::More => self.read_on(),
            NextLine::End => Ok(self.end_input()),
        }
    }

    /// Whether each line is taken by itself: in a strict input, and in a transaction.
    fn takes_one_by_one(&self) -> bool
        ensures { result ≡ false → (self.now.manner.strict ≡ false)
            × (self.now.transaction ≡ None) }
    {
        match &self.transaction {
            Some(_) => true,
            None => self.manner.strict,
        }
    }

    /// Takes the lines that are there already and may be in a group, or else the next line, or reads more of the input.
    pub(crate) fn take_input<D: Disk>(
        &mut self,
        alloc: Global,
        host: &Host<D>,
        now: u64,
    ) -> Result<Action, RunFault>
        requires { self.old.number + most_together + 1 < 2 ^ 64 }
        ensures { (w : World) → IsHost host.now w
            → TakesInput (lines_stand R.remaining self.old) w now result
            (lines_stand R.remaining self.new) }
    {
        if self.takes_one_by_one() {
            return self.take_next(alloc, host, now);
        }
        let events = gather(alloc, &mut self.lines);
        let count = events.len() as u64;
        if count == 0 {
            return self.take_next(alloc, host, now);
        }
        Ok(self.group(events, count))
    }
}
