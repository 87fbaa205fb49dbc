//! Lines of a script.
ghost use Rattle.std.specs.Prelude.{◌≡◌, IfOk, IsErrOf, None, Some, true};
ghost use Rattle.std.specs.Option.{option_copied, option_map};
ghost use Rattle.sheet_text.specs.Script as said;
ghost use Rattle.sheet_text.specs.declared.script.LineFault.TheVariants as fault;
ghost use Rattle.host_events.specs.declared.command.Command.TheVariants as command;

use crate::numbers::read_number;
use crate::parts::{split_space, split_words};
use block_tree::{Octets, Sequence};
use host_events::Command;
use std::alloc::Global;

/// What a line of a script says.
#[derive(Debug, Drop)]
pub enum ScriptLine {
    /// Nothing: the line is empty or a remark.
    Skip,
    /// The host is to do this.
    Command(Command),
    /// The host waits for its interpreters' answers.
    Wait,
    /// The worksheet is printed.
    Print,
}

/// Why a line wasn't read.
#[derive(Clone, Copy, Debug, PartialEq, Eq)]
pub enum LineFault {
    /// No form of a line fits.
    BadLine,
    /// Memory was refused for the bytes of a command.
    OutOfMemory,
}

fn copied(alloc: Global, bytes: &[u8]) -> Result<Octets, LineFault>
    ensures ok { IfOk result (λ copy. copy ≡ bytes.now) }
    ensures good { IsErrOf result fault.BadLine → ⊥ }
{
    Octets::from_slice(alloc, bytes).map_err(|_| LineFault::OutOfMemory)
}

/// A copy of the text after a space, which may be missing.
fn text(alloc: Global, rest: Option<&[u8]>) -> Result<Octets, LineFault>
    ensures ok { IfOk result (λ copy. copy ≡ said.text_given (option_copied rest.entry)) }
    ensures good { IsErrOf result fault.BadLine → ⊥ }
{
    match rest {
        None => Ok(Octets::from_vec(Vec::new(alloc))),
        Some(bytes) => copied(alloc, bytes),
    }
}

/// Copies of the words after a space, which may be missing.
fn words(alloc: Global, rest: Option<&[u8]>) -> Result<Sequence<Octets>, LineFault>
    ensures ok { IfOk result (λ words. words ≡ said.words_of (option_copied rest.entry)) }
    ensures good { IsErrOf result fault.BadLine → ⊥ }
{
    match rest {
        None => Ok(Sequence::new(alloc)),
        Some(bytes) => split_words(alloc, bytes).map_err(|_| LineFault::OutOfMemory),
    }
}

fn number(bytes: &[u8]) -> Result<u32, LineFault>
    ensures ok { IfOk result (λ n. said.number_written bytes.now ≡ Some n) }
    ensures bad { IsErrOf result fault.BadLine → said.number_written bytes.now ≡ None }
    ensures held { IsErrOf result fault.OutOfMemory → ⊥ }
{
    match read_number(bytes) {
        Some(n) => Ok(n),
        None => Err(LineFault::BadLine),
    }
}

fn is_tab(flag: &[u8]) -> Option<bool>
    ensures { result ≡ said.flag_of flag.now }
{
    if flag == b"tab".as_slice() {
        Some(true)
    } else if flag == b"plain".as_slice() {
        Some(false)
    } else {
        None
    }
}

/// `NAME FLAG WORDS`
fn read_session(alloc: Global, rest: &[u8]) -> Result<Command, LineFault>
    ensures ok { IfOk result (λ reported. said.session_of rest.now ≡ Some reported) }
    ensures bad { IsErrOf result fault.BadLine → said.session_of rest.now ≡ None }
    ensures memory { IsErrOf result fault.OutOfMemory
        → said.wants_memory_for (said.session_of rest.now) ≡ true }
{
    let (name, rest) = split_space(rest);
    let Some(rest) = rest else {
        return Err(LineFault::BadLine);
    };
    let (flag, rest) = split_space(rest);
    let Some(tab) = is_tab(flag) else {
        return Err(LineFault::BadLine);
    };
    Ok(Command::Session {
        name: copied(alloc, name)?,
        tab,
        words: words(alloc, rest)?,
    })
}

/// `AFTER NAME TEXT`
fn read_new(alloc: Global, rest: &[u8]) -> Result<Command, LineFault>
    ensures ok { IfOk result (λ reported. said.new_of rest.now ≡ Some reported) }
    ensures bad { IsErrOf result fault.BadLine → said.new_of rest.now ≡ None }
    ensures memory { IsErrOf result fault.OutOfMemory
        → said.wants_memory_for (said.new_of rest.now) ≡ true }
{
    let (after, rest) = split_space(rest);
    let after = number(after)?;
    let Some(rest) = rest else {
        return Err(LineFault::BadLine);
    };
    let (session, input) = split_space(rest);
    Ok(Command::New {
        after,
        session: copied(alloc, session)?,
        input: text(alloc, input)?,
    })
}

/// `ID TEXT`
fn read_set(alloc: Global, rest: &[u8]) -> Result<Command, LineFault>
    ensures ok { IfOk result (λ reported. said.set_of rest.now ≡ Some reported) }
    ensures bad { IsErrOf result fault.BadLine → said.set_of rest.now ≡ None }
    ensures memory { IsErrOf result fault.OutOfMemory
        → said.wants_memory_for (said.set_of rest.now) ≡ true }
{
    let (id, input) = split_space(rest);
    let id = number(id)?;
    let input = text(alloc, input)?;
    Ok(Command::Set { id, input })
}

/// Two numbers, the second after the space that ends the first.
fn two_numbers(rest: &[u8]) -> Result<(u32, u32), LineFault>
    ensures ok { IfOk result (λ numbers. said.two_numbers rest.now ≡ Some numbers) }
    ensures bad { IsErrOf result fault.BadLine → said.two_numbers rest.now ≡ None }
    ensures held { IsErrOf result fault.OutOfMemory → ⊥ }
{
    let (first, rest) = split_space(rest);
    let first = number(first)?;
    let Some(rest) = rest else {
        return Err(LineFault::BadLine);
    };
    let second = number(rest)?;
    Ok((first, second))
}

/// `ID AFTER`
fn read_move(rest: &[u8]) -> Result<Command, LineFault>
    ensures ok { IfOk result (λ reported. said.move_of rest.now ≡ Some reported) }
    ensures bad { IsErrOf result fault.BadLine → said.move_of rest.now ≡ None }
    ensures held { IsErrOf result fault.OutOfMemory → ⊥ }
{
    let (id, after) = two_numbers(rest)?;
    Ok(Command::Move { id, after })
}

/// `CURSOR`, or `CURSOR TEXT`
fn read_cursor(alloc: Global, id: u32, rest: &[u8]) -> Result<Command, LineFault>
    ensures ok { IfOk result (λ reported. said.complete_after (Some id) (Some rest.now) ≡ Some
        reported) }
    ensures bad { IsErrOf result fault.BadLine
        → said.complete_after (Some id) (Some rest.now) ≡ None }
    ensures memory { IsErrOf result fault.OutOfMemory
        → said.wants_memory_for (said.complete_after (Some id) (Some rest.now)) ≡ true }
{
    let (cursor, text) = split_space(rest);
    let cursor = number(cursor)?;
    match text {
        None => Ok(Command::Complete { id, cursor }),
        Some(text) => Ok(Command::CompleteText {
            id,
            cursor,
            text: copied(alloc, text)?,
        }),
    }
}

/// `ID CURSOR`, or `ID CURSOR TEXT`
fn read_complete(alloc: Global, rest: &[u8]) -> Result<Command, LineFault>
    ensures ok { IfOk result (λ reported. said.complete_of rest.now ≡ Some reported) }
    ensures bad { IsErrOf result fault.BadLine → said.complete_of rest.now ≡ None }
    ensures memory { IsErrOf result fault.OutOfMemory
        → said.wants_memory_for (said.complete_of rest.now) ≡ true }
{
    let (id, rest) = split_space(rest);
    let id = number(id)?;
    let Some(rest) = rest else {
        return Err(LineFault::BadLine);
    };
    read_cursor(alloc, id, rest)
}

/// `ID`
fn read_remove(rest: &[u8]) -> Result<Command, LineFault>
    ensures ok { IfOk result (λ reported. option_map (λ id. command.Remove id)
        (said.number_written rest.now)
        ≡ Some reported) }
    ensures bad { IsErrOf result fault.BadLine
        → option_map (λ id. command.Remove id) (said.number_written rest.now) ≡ None }
    ensures held { IsErrOf result fault.OutOfMemory → ⊥ }
{
    let id = number(rest)?;
    Ok(Command::Remove { id })
}

/// `ID`
fn read_clear(rest: &[u8]) -> Result<Command, LineFault>
    ensures ok { IfOk result (λ reported. option_map (λ id. command.Clear id)
        (said.number_written rest.now)
        ≡ Some reported) }
    ensures bad { IsErrOf result fault.BadLine
        → option_map (λ id. command.Clear id) (said.number_written rest.now) ≡ None }
    ensures held { IsErrOf result fault.OutOfMemory → ⊥ }
{
    let id = number(rest)?;
    Ok(Command::Clear { id })
}

/// `ID`
fn read_eval(rest: &[u8]) -> Result<Command, LineFault>
    ensures ok { IfOk result (λ reported. option_map (λ id. command.Eval id)
        (said.number_written rest.now)
        ≡ Some reported) }
    ensures bad { IsErrOf result fault.BadLine
        → option_map (λ id. command.Eval id) (said.number_written rest.now) ≡ None }
    ensures held { IsErrOf result fault.OutOfMemory → ⊥ }
{
    let id = number(rest)?;
    Ok(Command::Eval { id })
}

/// `NAME`
fn read_stop(alloc: Global, rest: &[u8]) -> Result<Command, LineFault>
    ensures ok { IfOk result (λ reported. reported ≡ command.Stop rest.now) }
    ensures good { IsErrOf result fault.BadLine → ⊥ }
{
    let name = copied(alloc, rest)?;
    Ok(Command::Stop { name })
}

/// The command of this name, with what comes after the space that ends the name.
fn read_command(alloc: Global, name: &[u8], rest: &[u8]) -> Result<Command, LineFault>
    ensures ok { IfOk result (λ reported. said.command_of name.now rest.now ≡ Some reported) }
    ensures bad { IsErrOf result fault.BadLine → said.command_of name.now rest.now ≡ None }
    ensures memory { IsErrOf result fault.OutOfMemory
        → said.wants_memory_for (said.command_of name.now rest.now) ≡ true }
{
    if name == b"session".as_slice() {
        read_session(alloc, rest)
    } else if name == b"new".as_slice() {
        read_new(alloc, rest)
    } else if name == b"set".as_slice() {
        read_set(alloc, rest)
    } else if name == b"remove".as_slice() {
        read_remove(rest)
    } else if name == b"move".as_slice() {
        read_move(rest)
    } else if name == b"clear".as_slice() {
        read_clear(rest)
    } else if name == b"eval".as_slice() {
        read_eval(rest)
    } else if name == b"complete".as_slice() {
        read_complete(alloc, rest)
    } else if name == b"stop".as_slice() {
        read_stop(alloc, rest)
    } else {
        Err(LineFault::BadLine)
    }
}

/// Whether the line is empty or a remark.
fn is_skipped(line: &[u8]) -> bool
    ensures { result ≡ said.is_skipped line.now }
{
    match line.first() {
        None => true,
        Some(byte) => *byte == b'#',
    }
}

/// What a line of a script says. The line comes without its end (docs/use/SCRIPT.md has its forms); a
/// carriage return in it is a byte as any other. Whether the names, words and inputs of a command are
/// what they should be is for the worksheet to say.
///
/// `BadLine` exactly where no form fits. `OutOfMemory` only where the line is a command with bytes of
/// its own.
#[tactic(auto, using(crate::proofs::Scripts::reported_wants))]
pub fn read_line(alloc: Global, line: &[u8]) -> Result<ScriptLine, LineFault>
    ensures ok { IfOk result (λ read. said.line_of line.now ≡ Some read) }
    ensures bad { IsErrOf result fault.BadLine → said.line_of line.now ≡ None }
    ensures memory { IsErrOf result fault.OutOfMemory
        → said.wants_memory (said.line_of line.now) ≡ true }
{
    if is_skipped(line) {
        return Ok(ScriptLine::Skip);
    }
    if line == b"wait".as_slice() {
        return Ok(ScriptLine::Wait);
    }
    if line == b"print".as_slice() {
        return Ok(ScriptLine::Print);
    }
    if line == b"checkpoint".as_slice() {
        return Ok(ScriptLine::Command(Command::Checkpoint));
    }
    let (name, rest) = split_space(line);
    let Some(rest) = rest else {
        return Err(LineFault::BadLine);
    };
    let command = read_command(alloc, name, rest)?;
    Ok(ScriptLine::Command(command))
}
