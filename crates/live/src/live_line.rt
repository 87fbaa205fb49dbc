//! Lines that come while interpreters work.
ghost use Rattle.std.specs.Prelude.{◌≡◌, IfOk, IsErrOf, None, Some, true, option_map};
ghost use Rattle.std.specs.Option.{option_copied};
ghost use Rattle.sheet_text.specs.Script as said;
ghost use Rattle.sheet_text.specs.declared.script.LineFault.TheVariants as fault;
ghost use Rattle.sheet_export.specs.Formats.{format_named};
ghost use Rattle.live.specs.LiveLines as live;

use sheet_export::{Format, format_in_bytes};
use sheet_text::{LineFault, ScriptLine, read_line, read_number, split_space};
use std::alloc::Global;
use worksheet::Name;

/// The most seconds that a line can have a wait last, or that a field, or a line of `run`, may be given.
pub const MOST_SECONDS: u32 = 1_000_000;

/// What a line says that comes while interpreters work.
#[derive(Debug, Drop)]
pub enum LiveLine {
    /// A line of a script.
    Script(ScriptLine),
    /// One field is printed.
    PrintField(u32),
    /// The host waits for its interpreters' answers, for so many seconds at most.
    WaitFor(u32),
    /// The interpreter of this session is interrupted.
    Interrupt(Name),
    /// The worksheet is printed in this format.
    Export(Format),
    /// A transaction begins: its commands are all taken or none.
    Begin,
    /// It ends.
    End,
}

/// `wait SECONDS`
fn read_wait(rest: &[u8]) -> Option<LiveLine>
    ensures { result ≡ live.wait_of (said.number_written rest.now) }
{
    match read_number(rest) {
        None => None,
        Some(seconds) => {
            if 1 <= seconds && seconds <= MOST_SECONDS {
                Some(LiveLine::WaitFor(seconds))
            } else {
                None
            }
        }
    }
}

/// `print ID`
fn read_print(rest: &[u8]) -> Option<LiveLine>
    ensures { result ≡ option_map (λ id. LiveLine.PrintField id) (said.number_written rest.now) }
{
    match read_number(rest) {
        None => None,
        Some(id) => Some(LiveLine::PrintField(id)),
    }
}

/// `interrupt NAME`
fn read_interrupt(rest: &[u8]) -> Option<LiveLine>
    ensures { result ≡ live.interrupt_of rest.now }
{
    match Name::new(rest) {
        None => None,
        Some(name) => Some(LiveLine::Interrupt(name)),
    }
}

/// `export FORMAT`
fn read_export(rest: &[u8]) -> Option<LiveLine>
    ensures { result ≡ option_map (λ format. LiveLine.Export format) (format_named rest.now) }
{
    match format_in_bytes(rest) {
        None => None,
        Some(format) => Some(LiveLine::Export(format)),
    }
}

/// The form of this name, with what comes after the space that ends the name.
fn read_form(name: &[u8], rest: &[u8]) -> Option<LiveLine>
    ensures { result ≡ live.form_named name.now rest.now }
{
    if name == b"print".as_slice() {
        read_print(rest)
    } else if name == b"wait".as_slice() {
        read_wait(rest)
    } else if name == b"interrupt".as_slice() {
        read_interrupt(rest)
    } else if name == b"export".as_slice() {
        read_export(rest)
    } else {
        None
    }
}

/// A form of one word.
fn read_word(word: &[u8]) -> Option<LiveLine>
    ensures { result ≡ live.word_of word.now }
{
    if word == b"begin".as_slice() {
        Some(LiveLine::Begin)
    } else if word == b"end".as_slice() {
        Some(LiveLine::End)
    } else {
        None
    }
}

/// The form of this name, with what comes after the space that ends the name, where one does.
fn read_parts(name: &[u8], rest: Option<&[u8]>) -> Option<LiveLine>
    ensures { result ≡ live.form_of name.now (option_copied rest.entry) }
{
    match rest {
        None => read_word(name),
        Some(rest) => read_form(name, rest),
    }
}

/// One of the forms that a script doesn't have.
fn read_other(line: &[u8]) -> Result<LiveLine, LineFault>
    ensures ok { IfOk result (λ read. live.form_of (said.before_space line.now)
        (said.after_space line.now) ≡ Some read) }
    ensures bad { IsErrOf result fault.BadLine
        → live.form_of (said.before_space line.now) (said.after_space line.now) ≡ None }
    ensures held { IsErrOf result fault.OutOfMemory → ⊥ }
{
    let (name, rest) = split_space(line);
    match read_parts(name, rest) {
        Some(read) => Ok(read),
        None => Err(LineFault::BadLine),
    }
}

/// What a line says that comes while interpreters work: a line of a script as `read_line` has it,
/// `print ID`, `wait SECONDS`, `interrupt NAME`, `export FORMAT`, `begin` or `end` (docs/use/SCRIPT.md, "Live"). The line comes
/// without its end.
///
/// `BadLine` exactly where no form fits. `OutOfMemory` only where the line is a command with bytes of
/// its own.
pub fn read_live_line(alloc: Global, line: &[u8]) -> Result<LiveLine, LineFault>
    ensures ok { IfOk result (λ read. live.live_line_of line.now ≡ Some read) }
    ensures bad { IsErrOf result fault.BadLine → live.live_line_of line.now ≡ None }
    ensures memory { IsErrOf result fault.OutOfMemory
        → said.wants_memory (said.line_of line.now) ≡ true }
{
    match read_line(alloc, line) {
        Ok(read) => Ok(LiveLine::Script(read)),
        Err(LineFault::BadLine) => read_other(line),
        Err(LineFault::OutOfMemory) => Err(LineFault::OutOfMemory),
    }
}
