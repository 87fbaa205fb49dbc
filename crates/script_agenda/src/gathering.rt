//! Lines of a script that are taken as one group.
ghost use Rattle.std.specs.Prelude.{◌≡◌, ◌+◌, ◌++◌, ◌∷◌, ◌≤◌, [], ℕ, List, IfNone, IfSome, is_some, length, true, false};
ghost use Rattle.host_events.specs.Commands.{op_of};
ghost use Rattle.host_events.specs.declared.event.Event.TheVariants as asks;
ghost use Rattle.sheet_text.specs.Script.{line_of};
ghost use Rattle.live.specs.LineEvents.{line_events};
ghost use Rattle.script_agenda.specs.Gathering.{Gathers, may_be_grouped, most_commands};

use bstr::{ByteSlice, Lines};
use host_events::Command;
use session_engine::Edits;
use sheet_text::{ScriptLine, read_line};
use std::alloc::Global;

/// The most commands that are taken as one group. Each wants memory for its event and for what it gives.
const MOST_COMMANDS: usize = 65_536;

/// The bytes of lines from which on a group takes no more.
const MOST_BYTES: usize = 1_048_576;

/// The next line, which stays.
pub(crate) fn peek<'a>(lines: &Lines<'a>) -> Option<&'a [u8]>
    ensures some { IfSome result (λ line. (rest : List (List ℕ)) × (lines.now ≡ line.now ∷ rest)) }
    ensures none { IfNone result (lines.now ≡ []) }
{
    lines.as_bytes().lines().next()
}

/// Takes the next line.
pub(crate) fn pass<'a>(lines: &mut Lines<'a>)
    ensures { (line : List ℕ) (rest : List (List ℕ)) → lines.old ≡ line ∷ rest → lines.new ≡ rest }
{
    let _ = lines.next();
}

/// Adds a command, where it only changes the worksheet and there is memory for it. Whether it did.
fn add_command(edits: &mut Edits, command: Command) -> bool
    ensures added { result ≡ true → (is_some (op_of command) ≡ true)
        × (edits.new ≡ edits.old ++ asks.Command command ∷ []) }
    ensures kept { result ≡ false → edits.new ≡ edits.old }
    ensures more { length edits.new ≤ length edits.old + 1 }
{
    edits.add(command).is_ok()
}

/// Adds what a line says, where that may be in a group and there is memory for it. Whether it did.
fn add_line(alloc: Global, strict: bool, edits: &mut Edits, line: &[u8]) -> bool
    ensures added { result ≡ true → (may_be_grouped strict (line_of line.now) ≡ true)
        × (edits.new ≡ edits.old ++ line_events (line_of line.now)) }
    ensures kept { result ≡ false → edits.new ≡ edits.old }
    ensures more { length edits.new ≤ length edits.old + 1 }
{
    match read_line(alloc, line) {
        Ok(ScriptLine::Skip) => !strict,
        Ok(ScriptLine::Command(command)) => add_command(edits, command),
        Ok(ScriptLine::Wait | ScriptLine::Print) | Err(_) => false,
    }
}

/// Takes the next line, where it may be in a group. How many bytes it has.
fn gather_one<'a>(
    alloc: Global,
    strict: bool,
    lines: &mut Lines<'a>,
    edits: &mut Edits,
) -> Option<usize>
    ensures some { IfSome result (λ bytes. (line : List ℕ) × (lines.old ≡ line ∷ lines.new)
        × (may_be_grouped strict (line_of line) ≡ true)
        × (edits.new ≡ edits.old ++ line_events (line_of line))) }
    ensures none { IfNone result ((lines.new ≡ lines.old) × (edits.new ≡ edits.old)) }
    ensures more { length edits.new ≤ length edits.old + 1 }
{
    let line = peek(lines)?;
    if !add_line(alloc, strict, edits, line) {
        return None;
    }
    pass(lines);
    Some(line.len())
}

/// Takes the next lines that may be in a group, up to 65,536 commands or 1 MiB of lines, and counts them.
pub(crate) fn gather<'a>(
    alloc: Global,
    strict: bool,
    lines: &mut Lines<'a>,
    number: &mut u64,
) -> Edits
    ensures gathers { Gathers strict lines.old lines.new result }
    ensures count { number.new + length lines.new ≡ number.old + length lines.old }
    ensures few { length result ≤ most_commands }
{
    let mut edits = Edits::new(alloc);
    let mut bytes: usize = 0;
    while edits.len() < MOST_COMMANDS && bytes < MOST_BYTES && *number < u64::MAX {
        let Some(more) = gather_one(alloc, strict, lines, &mut edits) else {
            return edits;
        };
        bytes = bytes.saturating_add(more);
        *number += 1;
    }
    edits
}
