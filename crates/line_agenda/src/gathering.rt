//! Lines that are there together and say commands, but for `checkpoint`: those may be as one group.
ghost use Rattle.std.specs.Prelude.{◌≡◌, ◌+◌, ◌≤◌, ◌++◌, ◌∷◌, [], length, false, true};
ghost use Rattle.host_events.specs.declared.event.Event.TheVariants as asks;
ghost use Rattle.session_engine.specs.Gathers.{is_checkpoint};
ghost use Rattle.sheet_text.specs.Script.{line_of};
ghost use Rattle.live.specs.LineEvents.{line_events};
ghost use Rattle.driver.specs.Steps.{most_together};
ghost use Rattle.live.specs.Saying.{SaysGrouped};
ghost use Rattle.live.specs.Gathering.{Gathered, GathersOne};

use arrivals::InputLines;
use child_edge::MOST_TOGETHER;
use host_events::{Command, Event};
use sheet_text::{ScriptLine, read_line};
use std::alloc::Global;
use std::io::Read;

/// Adds a command, where it may be in a group and there is memory for it. Whether it did.
pub(crate) fn add_command(events: &mut Vec<Event>, command: Command) -> bool
    ensures added { result ≡ true → (is_checkpoint (asks.Command command) ≡ false)
        × (events.new.items ≡ events.old.items ++ asks.Command command ∷ []) }
    ensures kept { result ≡ false → events.new.items ≡ events.old.items }
    ensures more { length events.new.items ≤ length events.old.items + 1 }
{
    match command {
        Command::Checkpoint => false,
        command => events.push(Event::Command(command)).is_ok(),
    }
}

/// Adds what a line says, where that may be in a group and there is memory for it. Whether it did.
fn add_line(alloc: Global, events: &mut Vec<Event>, line: &[u8]) -> bool
    ensures added { result ≡ true → SaysGrouped line.now
        × (events.new.items ≡ events.old.items ++ line_events (line_of line.now)) }
    ensures kept { result ≡ false → events.new.items ≡ events.old.items }
    ensures more { length events.new.items ≤ length events.old.items + 1 }
{
    match read_line(alloc, line) {
        Ok(ScriptLine::Command(command)) => add_command(events, command),
        Ok(ScriptLine::Skip | ScriptLine::Wait | ScriptLine::Print) | Err(_) => false,
    }
}

/// Takes the next line, where it is there already and may be in a group. Whether it did; if not, that line is still
/// to come.
fn gather_one<R: Read>(alloc: Global, lines: &mut InputLines<R>, events: &mut Vec<Event>) -> bool
    ensures one { result ≡ true
        → GathersOne lines.old.held lines.new.held events.old.items events.new.items }
    ensures none { result ≡ false
        → (lines.new.held ≡ lines.old.held) × (events.new.items ≡ events.old.items) }
    ensures more { length events.new.items ≤ length events.old.items + 1 }
    ensures reader { lines.new.reader ≡ lines.old.reader }
{
    let Some(line) = lines.peek() else {
        return false;
    };
    if !add_line(alloc, events, line) {
        return false;
    }
    let _ = lines.next();
    true
}

/// Takes the next lines that are there already and may be in a group, up to 1,024 of them. Nothing is read, so all of
/// them were in the buffer of the input.
pub(crate) fn gather<R: Read>(alloc: Global, lines: &mut InputLines<R>) -> Vec<Event>
    ensures gathered { Gathered lines.old.held lines.new.held result.items }
    ensures few { length result.items ≤ most_together }
    ensures reader { lines.new.reader ≡ lines.old.reader }
{
    let mut events = Vec::new(alloc);
    for _ in 0..MOST_TOGETHER {
        if !gather_one(alloc, lines, &mut events) {
            return events;
        }
    }
    events
}
