//! What a line asks for by itself.
ghost use Rattle.std.specs.Prelude.{◌≡◌, ◌∷◌, [], IfOk, OnErr, Some, None, false};
ghost use Rattle.host_events.specs.declared.event.Event.TheVariants as asks;
ghost use Rattle.session_engine.specs.Gathers.{is_checkpoint};
ghost use Rattle.session_engine.specs.World.{World};
ghost use Rattle.session_engine.specs.Host.{IsHost};
ghost use Rattle.live.specs.LiveLines.{live_line_of};
ghost use Rattle.live.specs.Saying.{IsCommand};
ghost use Rattle.line_agenda.specs.Alone.{AsksAction, AsksAlone, AsksCommand, BeginsWait};
ghost use Rattle.line_agenda.specs.declared.doing.Doing.TheVariants as does;

use crate::doing::{Doing, LineChoice, Transaction};
use crate::gathering::add_command;
use crate::waits::{lacks_field, lacks_session, untimed};
use child_edge::is_idle;
use disk_model::Disk;
use driver::{Action, Show};
use host_events::{Command, Event};
use live::{Hold, LiveLine, Manner, read_live_line, wait_for};
use session_engine::{Edits, Host};
use sheet_text::{LineFault, ScriptLine};
use std::alloc::{AllocError, Global};
use tellings::Note;
use worksheet::Name;

/// How a line is taken: in this manner, as the line with this number, where the clock reads this.
#[derive(Clone, Copy)]
pub(crate) struct Reading {
    pub(crate) manner: Manner,
    pub(crate) number: u64,
    pub(crate) now: u64,
}

/// This is asked for, of a line that says no command, which goes wrong or not.
fn by_itself(action: Action, wrong: bool) -> LineChoice
    ensures asks { AsksAction action result }
    ensures doing { result.doing ≡ does.Line wrong }
{
    LineChoice {
        action,
        doing: Doing::Line(wrong),
        held: Hold::Free,
        transaction: None,
    }
}

/// A line that isn't known.
pub(crate) fn bad(at: Reading) -> LineChoice
    ensures { (w : World) → AsksAlone at.manner at.number w at.now None result }
{
    by_itself(Action::Show(Show::Note(Note::Bad(at.number))), true)
}

/// A wait begins, which is over at once where no item waits.
fn begin<D: Disk>(host: &Host<D>, number: u64, begun: Hold) -> LineChoice
    ensures { (w : World) → IsHost host.now w → BeginsWait number w begun result }
{
    if is_idle(host.looks()) {
        by_itself(Action::Show(Show::Note(Note::Waited(number, false))), false)
    } else {
        LineChoice {
            action: Action::Nothing,
            doing: Doing::Line(false),
            held: begun,
            transaction: None,
        }
    }
}

/// A command as the one event of a group, where it may be in one and there is memory for it.
fn one_event(alloc: Global, command: Command) -> Result<Vec<Event>, AllocError>
    ensures { IfOk result (λ events. (is_checkpoint (asks.Command command) ≡ false)
        × (events.items ≡ asks.Command command ∷ [])) }
{
    let mut events = Vec::new(alloc);
    if add_command(&mut events, command) {
        Ok(events)
    } else {
        Err(AllocError)
    }
}

/// What a command asks for: that it is taken, or that the journal is rewritten.
fn command_action(alloc: Global, number: u64, command: Command) -> Result<Action, AllocError>
    ensures { IfOk result (AsksCommand number command) }
{
    match command {
        Command::Checkpoint => Ok(Action::Checkpoint(number)),
        command => match one_event(alloc, command) {
            Ok(events) => Ok(Action::Lines(number, events)),
            Err(fault) => Err(fault),
        },
    }
}

/// What a command asks for, and what is done after it.
fn choose_command(alloc: Global, at: Reading, command: Command) -> Result<LineChoice, AllocError>
    ensures { (w : World) → IfOk result (AsksAlone at.manner at.number w at.now
        (Some (LiveLine.Script (ScriptLine.Command command)))) }
{
    match command_action(alloc, at.number, command) {
        Ok(action) => Ok(LineChoice {
            action,
            doing: Doing::Commands,
            held: Hold::Free,
            transaction: None,
        }),
        Err(fault) => Err(fault),
    }
}

/// What a line of a script asks for.
fn choose_script<D: Disk>(
    alloc: Global,
    host: &Host<D>,
    at: Reading,
    said: ScriptLine,
) -> Result<LineChoice, AllocError>
    ensures ok { (w : World) → IsHost host.now w
        → IfOk result (AsksAlone at.manner at.number w at.now (Some (LiveLine.Script said))) }
    ensures err { OnErr result (IsCommand (Some (LiveLine.Script said))) }
{
    match said {
        ScriptLine::Skip => Ok(by_itself(
            Action::Show(Show::Note(Note::Nothing(at.number))),
            false,
        )),
        ScriptLine::Wait => Ok(begin(host, at.number, untimed(at.manner.limit, at.now))),
        ScriptLine::Print => Ok(by_itself(Action::Show(Show::Sheet(at.number)), false)),
        ScriptLine::Command(command) => choose_command(alloc, at, command),
    }
}

/// An interrupt, for which a line asks.
fn choose_interrupt<D: Disk>(host: &Host<D>, at: Reading, name: Name) -> LineChoice
    ensures { (w : World) → IsHost host.now w
        → AsksAlone at.manner at.number w at.now (Some (LiveLine.Interrupt name)) result }
{
    LineChoice {
        action: Action::Interrupt(name),
        doing: Doing::Interrupt(name, lacks_session(host, name)),
        held: Hold::Free,
        transaction: None,
    }
}

/// A transaction begins.
fn begin_transaction(alloc: Global, at: Reading) -> LineChoice
    ensures { (w : World) → AsksAlone at.manner at.number w at.now (Some LiveLine.Begin) result }
{
    LineChoice {
        action: Action::Show(Show::Note(Note::Nothing(at.number))),
        doing: Doing::Line(false),
        held: Hold::Free,
        transaction: Some(Transaction {
            first: at.number,
            edits: Edits::new(alloc),
            broken: false,
        }),
    }
}

/// What a line asks for.
fn choose<D: Disk>(
    alloc: Global,
    host: &Host<D>,
    at: Reading,
    said: LiveLine,
) -> Result<LineChoice, AllocError>
    ensures ok { (w : World) → IsHost host.now w
        → IfOk result (AsksAlone at.manner at.number w at.now (Some said)) }
    ensures err { OnErr result (IsCommand (Some said)) }
{
    match said {
        LiveLine::Script(said) => choose_script(alloc, host, at, said),
        LiveLine::PrintField(id) => Ok(by_itself(
            Action::Show(Show::Field(at.number, id)),
            lacks_field(host, id),
        )),
        LiveLine::WaitFor(seconds) => Ok(begin(host, at.number, wait_for(at.now, seconds))),
        LiveLine::Interrupt(name) => Ok(choose_interrupt(host, at, name)),
        LiveLine::Export(format) => Ok(by_itself(
            Action::Show(Show::Export(at.number, format)),
            false,
        )),
        LiveLine::Begin => Ok(begin_transaction(alloc, at)),
        LiveLine::End => Ok(bad(at)),
    }
}

/// Reads a line, and says what it asks for where no transaction is open. One that isn't known went wrong.
///
/// `AllocError` where there is no memory for a command.
pub(crate) fn choose_line<D: Disk>(
    alloc: Global,
    host: &Host<D>,
    at: Reading,
    line: &[u8],
) -> Result<LineChoice, AllocError>
    ensures ok { (w : World) → IsHost host.now w
        → IfOk result (AsksAlone at.manner at.number w at.now (live_line_of line.now)) }
    ensures err { OnErr result (IsCommand (live_line_of line.now)) }
{
    match read_live_line(alloc, line) {
        Ok(said) => choose(alloc, host, at, said),
        Err(LineFault::BadLine) => Ok(bad(at)),
        Err(LineFault::OutOfMemory) => Err(AllocError),
    }
}
