//! What lines of a transaction ask for, and what is made of what came of it.
ghost use Rattle.std.specs.Prelude.{◌≡◌, ◌++◌, IfOk, OnErr, Some, None, false};
ghost use Rattle.std.specs.List.{list_any};
ghost use Rattle.host_events.specs.declared.event.Event.TheVariants as asks;
ghost use Rattle.session_engine.specs.Groups as groups;
ghost use Rattle.driver.specs.Reports.{came_of};
ghost use Rattle.live.specs.LiveLines.{live_line_of};
ghost use Rattle.live.specs.Saying.{IsCommand};
ghost use Rattle.line_agenda.specs.Transactions as transactions;
ghost use Rattle.line_agenda.specs.Heeds as heeds;

use crate::doing::{Doing, LineChoice, Transaction};
use child_edge::MOST_TOGETHER;
use driver::{Action, Came, Show};
use host_events::{Command, Outcome};
use live::{Hold, LiveLine, read_live_line};
use session_engine::{AddFault, is_refusal};
use sheet_text::{LineFault, ScriptLine};
use std::alloc::{AllocError, Global};
use tellings::Note;

/// This is asked for of a line, and this transaction is open then.
fn in_transaction(action: Action, doing: Doing, transaction: Option<Transaction>) -> LineChoice
    ensures { result ≡ transactions.in_transaction action doing transaction }
{
    LineChoice {
        action,
        doing,
        held: Hold::Free,
        transaction,
    }
}

/// A line of which nothing is said or done.
fn in_silence(transaction: Transaction) -> LineChoice
    ensures { result ≡ transactions.in_silence transaction }
{
    in_transaction(Action::Nothing, Doing::Nothing, Some(transaction))
}

/// A line that can't stand in a transaction.
pub(crate) fn break_at(transaction: Transaction, number: u64) -> LineChoice
    ensures { result ≡ transactions.breaks_transaction transaction number }
{
    if transaction.broken {
        return in_silence(transaction);
    }
    let mut transaction = transaction;
    transaction.broken = true;
    in_transaction(
        Action::Show(Show::Note(Note::Bad(number))),
        Doing::Line(true),
        Some(transaction),
    )
}

/// A command, which is kept where it only changes the worksheet and there is room for it.
///
/// `AllocError` where there is no memory for it.
fn keep(transaction: Transaction, number: u64, command: Command) -> Result<LineChoice, AllocError>
    ensures { IfOk result (λ chosen. chosen ≡ transactions.keeps_command transaction number
        (asks.Command command)) }
{
    if transaction.broken || transaction.edits.len() >= MOST_TOGETHER {
        return Ok(break_at(transaction, number));
    }
    let mut transaction = transaction;
    match transaction.edits.add(command) {
        Ok(()) => Ok(in_silence(transaction)),
        Err(AddFault::NotAnEdit) => Ok(break_at(transaction, number)),
        Err(AddFault::OutOfMemory) => Err(AllocError),
    }
}

/// The end of a transaction of which nothing is taken: this is noted.
fn end_with(note: Note) -> LineChoice
    ensures { result ≡ transactions.in_transaction (Action.Show (Show.Note note))
        (Doing.Line false) None }
{
    in_transaction(Action::Show(Show::Note(note)), Doing::Line(false), None)
}

/// The end of a transaction.
fn end(transaction: Transaction, last: u64) -> LineChoice
    ensures { result ≡ transactions.ends_transaction transaction.broken transaction.edits
        transaction.first last }
{
    let Transaction {
        first,
        edits,
        broken,
    } = transaction;
    if broken {
        return end_with(Note::Undone(first, last));
    }
    if edits.is_empty() {
        return end_with(Note::Nothing(last));
    }
    let number = last.saturating_sub(edits.len() as u64);
    in_transaction(
        Action::Transaction(number, edits),
        Doing::Transaction(first),
        None,
    )
}

/// What a line of a script asks for in a transaction.
fn choose_script(
    transaction: Transaction,
    number: u64,
    said: ScriptLine,
) -> Result<LineChoice, AllocError>
    ensures ok { IfOk result (λ chosen. chosen ≡ transactions.asked_in transaction number
        (Some (LiveLine.Script said))) }
    ensures err { OnErr result (IsCommand (Some (LiveLine.Script said))) }
{
    match said {
        ScriptLine::Command(command) => keep(transaction, number, command),
        ScriptLine::Skip | ScriptLine::Wait | ScriptLine::Print => Ok(break_at(
            transaction,
            number,
        )),
    }
}

/// What this asks for in a transaction.
fn choose(transaction: Transaction, number: u64, said: LiveLine) -> Result<LineChoice, AllocError>
    ensures ok { IfOk result (λ chosen. chosen ≡ transactions.asked_in transaction number
        (Some said)) }
    ensures err { OnErr result (IsCommand (Some said)) }
{
    match said {
        LiveLine::Script(said) => choose_script(transaction, number, said),
        LiveLine::End => Ok(end(transaction, number)),
        LiveLine::PrintField(_)
        | LiveLine::WaitFor(_)
        | LiveLine::Interrupt(_)
        | LiveLine::Export(_)
        | LiveLine::Begin => Ok(break_at(transaction, number)),
    }
}

/// Reads the line with this number, and says what it asks for in this transaction.
///
/// `AllocError` where there is no memory for a command.
pub(crate) fn choose_in_transaction(
    alloc: Global,
    transaction: Transaction,
    number: u64,
    line: &[u8],
) -> Result<LineChoice, AllocError>
    ensures ok { IfOk result (λ chosen. chosen ≡ transactions.asked_in transaction number
        (live_line_of line.now)) }
    ensures err { OnErr result (IsCommand (live_line_of line.now)) }
{
    match read_live_line(alloc, line) {
        Ok(said) => choose(transaction, number, said),
        Err(LineFault::BadLine) => Ok(break_at(transaction, number)),
        Err(LineFault::OutOfMemory) => Err(AllocError),
    }
}

/// Whether one of these outcomes is a refusal.
fn any_refusal(outcomes: &[Outcome]) -> bool
    ensures { result ≡ list_any groups.is_refusal outcomes.now }
{
    outcomes.iter().any(|outcome| is_refusal(outcome))
}

/// Whether one of these outcomes, or one of those later, is a refusal.
fn any_refusal_of_both(outcomes: &[Outcome], later: &[Outcome]) -> bool
    ensures { result ≡ list_any groups.is_refusal (outcomes.now ++ later.now) }
{
    any_refusal(outcomes) || any_refusal(later)
}

/// Whether a command was refused.
pub(crate) fn refused_one(came: &Came) -> bool
    ensures { result ≡ heeds.refused_one (came_of came.now) }
{
    match came {
        Came::Gave(gave) => any_refusal(gave.outcomes.as_slice()),
        Came::Joined(gave) => {
            any_refusal_of_both(gave.outcomes.as_slice(), gave.later.as_slice())
        }
        Came::Alone(outcome) => is_refusal(outcome),
        Came::Interrupted(_) | Came::Shown => false,
    }
}

/// What is noted at the end of a transaction that was to be taken, from this line to that one.
pub(crate) fn transaction_note(first: u64, last: u64, refused: bool) -> Note
    ensures { result ≡ transactions.transaction_note first last refused }
{
    if refused {
        Note::Undone(first, last)
    } else {
        Note::Nothing(last)
    }
}
