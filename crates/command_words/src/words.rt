//! The words of a command line.
ghost use Rattle.std.specs.Prelude.{◌≡◌, [], IfOk, None, Option, Some, codes, map, option_map, string_bytes, unwrap_or};
ghost use Rattle.clap.specs.Words.{FailsBy, Text, fault_of, first_of, found_of, rows_of, subcommand_rows_of};
ghost use Rattle.command_words.specs.Asked.{FlagsView, asked_by, by_subcommand, by_words, check_in, check_view, eval_in, eval_view, flags_in, flags_view, ids_in, paths_in, run_in, run_view, tmhost, task_view};
ghost use Rattle.command_words.specs.Asked as asked;

use crate::commands::tmhost_command;
use clap::{ArgMatches, Error};
use std::alloc::{AllocError, Global};

/// What the words of `check` name, as they are.
#[derive(Debug, Drop)]
pub struct CheckWords<'a> {
    /// The paths of the worksheets, in their order.
    pub paths: Vec<&'a str>,
    /// It writes lines of JSON.
    pub json: bool,
    /// The format of its report.
    pub format: Option<&'a str>,
    /// The session whose fields are evaluated.
    pub only: Option<&'a str>,
    /// The numbers of the fields that aren't compared.
    pub leave_out: Option<&'a str>,
    /// The numbers of the fields whose outputs alone are compared.
    pub compare: Option<&'a str>,
    /// How many seconds a field may take.
    pub timeout: Option<&'a str>,
    /// Answers that differ are put into the worksheet.
    pub accept: bool,
    /// It writes both outputs whole where they differ.
    pub whole: bool,
    /// Fields that show no answer are checked too.
    pub all: bool,
    /// In how many sessions fields wait at a time.
    pub jobs: Option<&'a str>,
}

/// What the words of `run` ask for beside its path, as they are.
#[derive(Clone, Copy, Debug, PartialEq, Eq)]
pub struct RunWords<'a> {
    /// It stops after the first line that goes wrong.
    pub strict: bool,
    /// It writes lines of JSON.
    pub json: bool,
    /// How many seconds a wait may take.
    pub timeout: Option<&'a str>,
}

/// What the program is asked to do. A path is one of the words.
#[derive(Debug, Drop)]
pub enum Task<'a> {
    /// Write the blocks of the stream that comes in on standard input.
    Blocks,
    /// The same, and write lines of JSON.
    BlocksJson,
    /// Make an empty worksheet at the path.
    Create(&'a str),
    /// Run the script that comes in on standard input over the worksheet at the path, as these words ask for it.
    Run(&'a str, RunWords<'a>),
    /// Hold the worksheet at the path open for the lines that come in on standard input.
    Live(&'a str),
    /// The same, and write lines of JSON.
    LiveJson(&'a str),
    /// The same, also of what interpreters write before it is an answer.
    LivePartial(&'a str),
    /// Evaluate the fields of the worksheet at the path, as these words ask for it.
    Eval(&'a str, EvalWords<'a>),
    /// Write the worksheet at the path.
    Show(&'a str),
    /// The same, as lines of JSON.
    ShowJson(&'a str),
    /// Evaluate the worksheet at the path again, the first of those that the words name, and report what
    /// differs; where they name several, do so with each of them.
    Check(&'a str, CheckWords<'a>),
    /// Write what stands in the worksheet at the first path, before its first damage, to a new one at
    /// the second.
    Rescue(&'a str, &'a str),
    /// Write the worksheet at the path in the format of this name.
    Export(&'a str, &'a str),
    /// List the changes that stand in the worksheet at the path.
    History(&'a str),
    /// Write the worksheet at the path as it was after the first so many of its changes.
    ShowAt(&'a str, &'a str),
    /// The same, as lines of JSON.
    ShowJsonAt(&'a str, &'a str),
    /// The same, in the format of this name, which comes first.
    ExportAt(&'a str, &'a str, &'a str),
    /// Write it, after so many of its changes, to a new one at the last path.
    Restore(&'a str, &'a str, &'a str),
}

/// What the words of `eval` ask for beside its path, as they are.
#[derive(Debug, Drop)]
pub struct EvalWords<'a> {
    /// It stops after the first field that is lost or refused.
    pub strict: bool,
    /// It evaluates only fields without an answer.
    pub unanswered: bool,
    /// It evaluates only sessions in which a field shows no answer.
    pub changed: bool,
    /// It writes lines of JSON.
    pub json: bool,
    /// It passes over no field.
    pub keep_going: bool,
    /// It stops as a strict one does, and after an answer that is an error.
    pub stop_at_error: bool,
    /// How many seconds a field may take.
    pub timeout: Option<&'a str>,
    /// The number of the first field that is evaluated.
    pub from: Option<&'a str>,
    /// In how many sessions fields wait at a time.
    pub jobs: Option<&'a str>,
    /// The numbers of the fields that are evaluated, where any are named.
    pub ids: Vec<&'a str>,
}

/// The flags and options of a command line. A subcommand without a flag doesn't have it set.
#[derive(Debug, Drop)]
pub(crate) struct Flags<'a> {
    pub(crate) json: bool,
    pub(crate) partial: bool,
    pub(crate) at: Option<&'a str>,
    pub(crate) changes: Option<&'a str>,
    pub(crate) run: RunWords<'a>,
    pub(crate) eval: EvalWords<'a>,
    pub(crate) check: CheckWords<'a>,
}

/// Whether a flag is given, by its value.
fn is_set(value: Option<&str>) -> bool
    ensures { result ≡ asked.is_set (option_map (λ text. text.now) value.entry) }
{
    match value {
        Some(text) => text == "true",
        None => false,
    }
}

/// The task of `blocks`.
fn task_of_blocks<'a>(json: bool) -> Task<'a>
    ensures { task_view result ≡ asked.blocks_by json }
{
    if json { Task::BlocksJson } else { Task::Blocks }
}

/// The task of `live`.
fn task_of_live<'a>(path: &'a str, json: bool, partial: bool) -> Task<'a>
    ensures { task_view result ≡ asked.live_by json partial path.entry.now }
{
    if partial {
        Task::LivePartial(path)
    } else if json {
        Task::LiveJson(path)
    } else {
        Task::Live(path)
    }
}

/// The task of `show`.
fn task_of_show<'a>(path: &'a str, json: bool, at: Option<&'a str>) -> Task<'a>
    ensures { task_view result
        ≡ asked.show_by json (option_map (λ text. text.now) at.entry) path.entry.now }
{
    match at {
        Some(at) => {
            if json {
                Task::ShowJsonAt(path, at)
            } else {
                Task::ShowAt(path, at)
            }
        }
        None => {
            if json {
                Task::ShowJson(path)
            } else {
                Task::Show(path)
            }
        }
    }
}

/// The task of `export`.
fn task_of_export<'a>(format: &'a str, path: &'a str, at: Option<&'a str>) -> Task<'a>
    ensures { task_view result
        ≡ asked.export_by format.entry.now (option_map (λ text. text.now) at.entry) path.entry.now }
{
    match at {
        Some(at) => Task::ExportAt(format, path, at),
        None => Task::Export(format, path),
    }
}

/// The task of `restore`. `clap` refuses words without a number.
fn task_of_restore<'a>(path: &'a str, changes: Option<&'a str>, new: &'a str) -> Task<'a>
    ensures { task_view result
        ≡ asked.restore_by path.entry.now (option_map (λ text. text.now) changes.entry)
        new.entry.now }
{
    match changes {
        Some(changes) => Task::Restore(path, changes, new),
        None => Task::Blocks,
    }
}

/// The task of a subcommand with a path.
fn task_with_path<'a>(name: &str, path: &'a str, flags: Flags<'a>) -> Task<'a>
    ensures { task_view result ≡ by_words name.now path.entry.now None None
        (flags_view flags.entry) }
{
    match name {
        "create" => Task::Create(path),
        "run" => Task::Run(path, flags.run),
        "live" => task_of_live(path, flags.json, flags.partial),
        "eval" => Task::Eval(path, flags.eval),
        "show" => task_of_show(path, flags.json, flags.at),
        "history" => Task::History(path),
        "check" => Task::Check(path, flags.check),
        _ => Task::Blocks,
    }
}

/// The task of a subcommand with two paths.
fn task_with_paths<'a>(
    name: &str,
    path: &'a str,
    new: &'a str,
    changes: Option<&'a str>,
) -> Task<'a>
    ensures { (format : Option Text) (flags : FlagsView)
        → task_view result ≡ by_words name.now path.entry.now (Some new.entry.now) format
        (record flags { changes = option_map (λ text. text.now) changes.entry }) }
{
    match name {
        "rescue" => Task::Rescue(path, new),
        "restore" => task_of_restore(path, changes, new),
        _ => Task::Blocks,
    }
}

/// The task of a subcommand with a format and a path.
fn task_with_format<'a>(name: &str, format: &'a str, path: &'a str, at: Option<&'a str>) -> Task<'a>
    ensures { (flags : FlagsView)
        → task_view result ≡ by_words name.now path.entry.now None (Some format.entry.now)
        (record flags { at = option_map (λ text. text.now) at.entry }) }
{
    match name {
        "export" => task_of_export(format, path, at),
        _ => Task::Blocks,
    }
}

/// What the words of `run` ask for, by the matches of a subcommand.
fn run_words<'a>(matches: &ArgMatches<'a>) -> RunWords<'a>
    ensures { run_view result ≡ run_in (rows_of (found_of matches.now)) }
{
    RunWords {
        strict: is_set(matches.get_str("strict")),
        json: is_set(matches.get_str("json")),
        timeout: matches.get_str("timeout"),
    }
}

/// Whether JSON is asked for, by the matches of a subcommand.
fn asks_for_json(matches: &ArgMatches<'_>) -> bool
    ensures { result ≡ asked.is_set (first_of (codes "json") (rows_of (found_of matches.now))) }
{
    is_set(matches.get_str("json"))
}

/// A copy of these words, where there are any.
fn copied<'a>(alloc: Global, words: Option<&[&'a str]>) -> Result<Vec<&'a str>, AllocError>
    ensures { IfOk result (λ copy. map (λ text. text.now) copy.items
        ≡ unwrap_or (option_map (λ words. map (λ text. text.now) words.now) words.entry) []) }
{
    match words {
        Some(words) => Vec::from_slice(alloc, words),
        None => Ok(Vec::new(alloc)),
    }
}

/// The numbers of fields that the words of `eval` name, by the matches of a subcommand.
fn ids_of<'a>(alloc: Global, matches: &ArgMatches<'a>) -> Result<Vec<&'a str>, AllocError>
    ensures { IfOk result (λ ids.
        map (λ text. text.now) ids.items ≡ ids_in (rows_of (found_of matches.now))) }
{
    copied(alloc, matches.get_strs("ID"))
}

/// The paths that the words of `check` name, by the matches of a subcommand.
fn paths_of<'a>(alloc: Global, matches: &ArgMatches<'a>) -> Result<Vec<&'a str>, AllocError>
    ensures { IfOk result (λ paths.
        map (λ text. text.now) paths.items ≡ paths_in (rows_of (found_of matches.now))) }
{
    copied(alloc, matches.get_strs("PATH"))
}

/// What the words of `check` name, by the matches of a subcommand.
fn check_words<'a>(alloc: Global, matches: &ArgMatches<'a>) -> Result<CheckWords<'a>, AllocError>
    ensures { IfOk result (λ words. check_view words ≡ check_in (rows_of (found_of matches.now))) }
{
    let paths = paths_of(alloc, matches)?;
    Ok(CheckWords {
        paths,
        json: is_set(matches.get_str("json")),
        format: matches.get_str("format"),
        only: matches.get_str("only"),
        leave_out: matches.get_str("leave-out"),
        compare: matches.get_str("compare"),
        timeout: matches.get_str("timeout"),
        accept: is_set(matches.get_str("accept")),
        whole: is_set(matches.get_str("whole")),
        all: is_set(matches.get_str("all")),
        jobs: matches.get_str("jobs"),
    })
}

/// What the words of `eval` ask for, by the matches of a subcommand.
fn eval_words<'a>(alloc: Global, matches: &ArgMatches<'a>) -> Result<EvalWords<'a>, AllocError>
    ensures { IfOk result (λ words. eval_view words ≡ eval_in (rows_of (found_of matches.now))) }
{
    let ids = ids_of(alloc, matches)?;
    Ok(EvalWords {
        strict: is_set(matches.get_str("strict")),
        unanswered: is_set(matches.get_str("unanswered")),
        changed: is_set(matches.get_str("changed")),
        json: is_set(matches.get_str("json")),
        keep_going: is_set(matches.get_str("keep-going")),
        stop_at_error: is_set(matches.get_str("stop-at-error")),
        timeout: matches.get_str("timeout"),
        from: matches.get_str("from"),
        jobs: matches.get_str("jobs"),
        ids,
    })
}

/// The flags and options, by the matches of a subcommand.
fn flags_of<'a>(alloc: Global, matches: &ArgMatches<'a>) -> Result<Flags<'a>, AllocError>
    ensures { IfOk result (λ flags. flags_view flags ≡ flags_in (rows_of (found_of matches.now))) }
{
    let eval = eval_words(alloc, matches)?;
    let check = check_words(alloc, matches)?;
    Ok(Flags {
        json: is_set(matches.get_str("json")),
        partial: is_set(matches.get_str("partial")),
        at: matches.get_str("at"),
        changes: matches.get_str("N"),
        run: run_words(matches),
        eval,
        check,
    })
}

/// The task of the matches.
fn task_of<'a>(alloc: Global, matches: &ArgMatches<'a>) -> Result<Task<'a>, AllocError>
    ensures { IfOk result (λ task. task_view task ≡ by_subcommand
        (subcommand_rows_of matches.now)) }
{
    let Some((name, inner)) = matches.subcommand() else {
        return Ok(Task::Blocks);
    };
    let Some(path) = inner.get_str("PATH") else {
        return Ok(task_of_blocks(asks_for_json(inner)));
    };
    if let Some(new) = inner.get_str("NEW") {
        return Ok(task_with_paths(name, path, new, inner.get_str("N")));
    }
    match inner.get_str("FORMAT") {
        Some(format) => Ok(task_with_format(name, format, path, inner.get_str("at"))),
        None => Ok(task_with_path(name, path, flags_of(alloc, inner)?)),
    }
}

/// The task that the words of a command line ask for, the program's own name first. Without a
/// subcommand it is `Blocks`.
///
/// Fails exactly where `clap` refuses the words, or shows its help, with its kind of error; and
/// where memory is refused.
pub fn read_words<'a>(alloc: Global, words: &'a [String]) -> Result<Task<'a>, Error>
    ensures task { IfOk result (λ task. task_view task
        ≡ asked_by (map string_bytes words.entry.now)) }
    ensures kinds { FailsBy (fault_of tmhost (map string_bytes words.entry.now)) result }
{
    let command = tmhost_command(alloc)?;
    match command.try_get_matches_from(words) {
        Ok(matches) => Ok(task_of(alloc, &matches)?),
        Err(error) => Err(error),
    }
}
