//! The command line that words are read by: its subcommands, each with its words.
ghost use Rattle.std.specs.Prelude.{◌≡◌, ◌<◌, IfOk, false};
ghost use Rattle.clap.specs.Words.{app_of, new_app, with_rule, with_subcommand};
ghost use Rattle.clap.specs.declared.builder.command.Command.TheViews.{out-Command as fields_of};
ghost use Rattle.command_words.specs.Asked.{tmhost};
ghost use Rattle.command_words.specs.Asked as asked;
ghost use Rattle.command_words.specs.inside.Arguments.{rule_given, with_words};
ghost use Rattle.command_words.specs.inside.Table as table;

use crate::arguments::{Word, argument, words_of};
use crate::table::{NOTES, Row, row_at};
use build_kind::VERSION;
use clap::Command;
use std::alloc::{AllocError, Global};

/// A command without arguments, with a text above and one below its help.
fn plain<'a>(alloc: Global, row: Row) -> Command<'a>
    ensures made { app_of result ≡ new_app row.name.now }
    ensures local { (fields_of result).has_globals ≡ false }
{
    Command::new(alloc, row.name)
        .about(row.about)
        .after_help(row.notes)
}

/// A command and one word more.
fn and_word<'a>(alloc: Global, first: Command<'a>, word: Word) -> Result<Command<'a>, AllocError>
    requires { (fields_of first).has_globals ≡ false }
    ensures made { IfOk result (λ command.
        app_of command ≡ with_rule (app_of first.entry) (rule_given word.given word.name.now)) }
    ensures local { IfOk result (λ command. (fields_of command).has_globals ≡ false) }
{
    first.arg(argument(alloc, word))
}

/// A subcommand with these words, in their order.
fn command_with<'a>(
    alloc: Global,
    row: Row,
    words: &'static [Word],
) -> Result<Command<'a>, AllocError>
    ensures made { IfOk result (λ command. app_of command ≡ with_words (new_app row.name.now)
        words.now) }
    ensures local { IfOk result (λ command. (fields_of command).has_globals ≡ false) }
{
    let mut command = plain(alloc, row);
    for word in words {
        command = and_word(alloc, command, *word)?;
    }
    Ok(command)
}

/// A subcommand that shows its help alone.
fn help_alone<'a>(alloc: Global, row: Row) -> Command<'a>
    ensures made { app_of result ≡ asked.help_alone row.name.now }
    ensures local { (fields_of result).has_globals ≡ false }
{
    plain(alloc, row).arg_required_else_help(true)
}

/// The subcommand of a row.
fn command_of<'a>(alloc: Global, row: Row) -> Result<Command<'a>, AllocError>
    ensures made { IfOk result (λ command. app_of command ≡ table.app_for row.shape row.name.now) }
    ensures local { IfOk result (λ command. (fields_of command).has_globals ≡ false) }
{
    match words_of(row.shape) {
        Some(words) => command_with(alloc, row, words),
        None => Ok(help_alone(alloc, row)),
    }
}

/// The subcommand of the row with this number.
fn command_at<'a>(alloc: Global, at: usize) -> Result<Command<'a>, AllocError>
    requires { at < 12 }
    ensures made { IfOk result (λ command. app_of command ≡ table.app_at at) }
    ensures local { IfOk result (λ command. (fields_of command).has_globals ≡ false) }
{
    command_of(alloc, row_at(at))
}

/// A command line with one subcommand more.
fn with_one<'a>(alloc: Global, command: Command<'a>, at: usize) -> Result<Command<'a>, AllocError>
    requires { at < 12 }
    ensures { IfOk result (λ more. app_of more
        ≡ with_subcommand (app_of command.entry) (table.app_at at).top) }
{
    command.subcommand(command_at(alloc, at)?)
}

/// A command line with the subcommands of all rows, in their order.
fn with_all<'a>(alloc: Global, command: Command<'a>) -> Result<Command<'a>, AllocError>
    ensures { IfOk result (λ more. app_of more ≡ table.with_rows (app_of command.entry) 12) }
{
    let mut command = command;
    for at in 0..12usize {
        command = with_one(alloc, command, at)?;
    }
    Ok(command)
}

/// The command line before its subcommands.
fn top<'a>(alloc: Global) -> Command<'a>
    ensures { app_of result ≡ asked.bare_tmhost }
{
    Command::new(alloc, "tmhost")
        .about("A worksheet host for interpreters that speak the plugin protocol of GNU TeXmacs")
        .after_help(NOTES)
        .version(VERSION)
}

/// The command line of the program.
pub(crate) fn tmhost_command<'a>(alloc: Global) -> Result<Command<'a>, AllocError>
    ensures { IfOk result (λ command. app_of command ≡ tmhost) }
{
    with_all(alloc, top(alloc))
}
