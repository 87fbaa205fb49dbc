//! What a person at a terminal reads beside what the programs say: what a program waits for, and why a file can't be had.
//! Into a pipe or a file nothing of it goes, but for the reason, where the environment asks for it.
use crate::startup::words;
use command_words::{Task, read_words};
use sheet_files::{folder_of, is_output};
use std::fs::OpenOptions;
use std::io::{IsTerminal, Write};
use std::os::unix::fs::MetadataExt;
use std::rt::Files;
use std::{env, fs, io};

/// The variable of the environment that asks for reasons also where the errors go to no terminal, by the value `1`.
const EXPLAIN: &str = "TMHOST_EXPLAIN";

/// What a task does with the worksheet at a path.
#[derive(Clone, Copy, Debug, PartialEq, Eq)]
enum Use {
    Makes,
    Reads,
    Writes,
}

/// What the task does with which paths: the first one, and of `rescue` and `restore` the new one. `check` has a list of its own.
fn paths_of<'a>(task: &Task<'a>) -> [Option<(&'a str, Use)>; 2] {
    match task {
        Task::Blocks | Task::BlocksJson | Task::Check(_, _) => [None, None],
        Task::Create(path) => [Some((*path, Use::Makes)), None],
        Task::Run(path, _)
        | Task::Live(path)
        | Task::LiveJson(path)
        | Task::LivePartial(path)
        | Task::Eval(path, _) => [Some((*path, Use::Writes)), None],
        Task::Show(path)
        | Task::ShowJson(path)
        | Task::ShowAt(path, _)
        | Task::ShowJsonAt(path, _)
        | Task::Export(_, path)
        | Task::ExportAt(_, path, _)
        | Task::History(path) => [Some((*path, Use::Reads)), None],
        Task::Rescue(path, new) | Task::Restore(path, _, new) => {
            [Some((*path, Use::Reads)), Some((*new, Use::Makes))]
        }
    }
}

/// What the program reads from the terminal, where it reads that to its end.
fn awaited(rt: &HostRuntime, task: &Task<'_>) -> Option<&'static str> {
    match task {
        Task::Blocks | Task::BlocksJson => Some("what an interpreter wrote"),
        Task::Run(path, _) if fs::metadata(rt, path).is_ok() => Some("a script"),
        _ => None,
    }
}

/// Says what the program waits for, where a person has to type it.
pub(crate) fn say_what_is_awaited(rt: &HostRuntime) {
    if !rt.stdin().is_terminal() || !rt.stderr().is_terminal() {
        return;
    }
    let Ok(words) = words(rt) else {
        return;
    };
    let Ok(task) = read_words(rt.alloc(), words.as_slice()) else {
        return;
    };
    if let Some(what) = awaited(rt, &task) {
        let _ = writeln!(
            rt.stderr(),
            "tmhost: reading {what} from this terminal, to its end (Control-D); 'tmhost --help' says what else there is"
        );
    }
}

/// Why a file can't be opened, as the system has it.
fn opening_error(rt: &HostRuntime, path: &str, writes: bool) -> Option<io::Error> {
    match OpenOptions::new().read(true).write(writes).open(rt, path) {
        Ok(_) => None,
        Err(error) => Some(error),
    }
}

/// Says of the name of a new file that something had it before, or that the file was made and is left.
fn explain_name(rt: &HostRuntime, path: &str, taken: bool) {
    if fs::symlink_metadata(rt, path).is_err() {
        return;
    }
    let why = if taken {
        "it exists"
    } else {
        "it was made, and is left; is there room on its disk?"
    };
    let _ = writeln!(rt.stderr(), "tmhost: {path}: {why}");
}

/// The path of the second file of a worksheet.
fn second_of(rt: &HostRuntime, path: &str) -> Option<String> {
    let mut second = String::from_str(rt.alloc(), path).ok()?;
    second.push_str(".alt").ok()?;
    Some(second)
}

/// Whether something has the name of one of the two files of a worksheet.
fn is_taken(rt: &HostRuntime, path: &str) -> bool {
    if fs::symlink_metadata(rt, path).is_ok() {
        return true;
    }
    match second_of(rt, path) {
        Some(second) => fs::symlink_metadata(rt, second.as_str()).is_ok(),
        None => false,
    }
}

/// Whether something has the name of a new worksheet that the program is to make. It is asked before the program does anything.
pub(crate) fn is_new_taken(rt: &HostRuntime) -> bool {
    let Ok(words) = words(rt) else {
        return false;
    };
    let Ok(task) = read_words(rt.alloc(), words.as_slice()) else {
        return false;
    };
    for named in paths_of(&task) {
        if let Some((path, Use::Makes)) = named {
            return is_taken(rt, path);
        }
    }
    false
}

/// Says why the two files of a new worksheet can't be made: their folder, or what has the name of one.
fn explain_new(rt: &HostRuntime, path: &str, taken: bool) {
    let folder = folder_of(path);
    if let Err(error) = fs::metadata(rt, folder) {
        let _ = writeln!(rt.stderr(), "tmhost: {folder}: {error}");
        return;
    }
    explain_name(rt, path, taken);
    if let Some(second) = second_of(rt, path) {
        explain_name(rt, second.as_str(), taken);
    }
}

/// Says why a file of a worksheet can't be had. A pipe isn't opened, since that would wait for its other end.
fn explain_file(rt: &HostRuntime, path: &str, writes: bool) {
    match fs::metadata(rt, path) {
        Err(error) => {
            let _ = writeln!(rt.stderr(), "tmhost: {path}: {error}");
        }
        Ok(found) => {
            if !found.is_file() {
                let _ = writeln!(rt.stderr(), "tmhost: {path}: it is no plain file");
            } else if is_output(rt, &found) {
                let _ = writeln!(
                    rt.stderr(),
                    "tmhost: {path}: the output or the errors of this program go to it"
                );
            } else if found.nlink() > 1 {
                let _ = writeln!(
                    rt.stderr(),
                    "tmhost: {path}: it has another name (a hard link)"
                );
            } else if let Some(error) = opening_error(rt, path, writes) {
                let _ = writeln!(rt.stderr(), "tmhost: {path}: {error}");
            }
        }
    }
}

/// Says why any of these worksheets can't be had.
fn explain_all(rt: &HostRuntime, paths: &[&str], writes: bool) {
    for path in paths {
        explain_file(rt, path, writes);
    }
}

/// Whether the environment asks for reasons.
fn is_asked_to_explain(rt: &HostRuntime) -> bool {
    match env::var(rt, EXPLAIN) {
        Ok(value) => value.as_str() == "1",
        Err(_) => false,
    }
}

/// Says on a terminal, or where the environment asks for it, why the files of a program with this status can't be had,
/// where the system has a reason. It asks the system once more, so it says nothing where the reason is gone. `taken` is whether
/// something had the name of a new worksheet before.
pub(crate) fn explain(rt: &HostRuntime, status: u8, taken: bool) {
    if status != 1 || !(rt.stderr().is_terminal() || is_asked_to_explain(rt)) {
        return;
    }
    let Ok(words) = words(rt) else {
        return;
    };
    let Ok(task) = read_words(rt.alloc(), words.as_slice()) else {
        return;
    };
    if let Task::Check(_, asked) = &task {
        explain_all(rt, asked.paths.as_slice(), asked.accept);
    }
    for named in paths_of(&task) {
        match named {
            Some((path, Use::Makes)) => explain_new(rt, path, taken),
            Some((path, Use::Reads)) => explain_file(rt, path, false),
            Some((path, Use::Writes)) => explain_file(rt, path, true),
            None => {}
        }
    }
}
