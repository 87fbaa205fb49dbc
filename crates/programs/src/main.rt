//! The program `tmhost` once more, which the merge gate starts by a shell script, `data/steps.sh`, over
//! real files, streams and interpreters. Started with the words `by SCRIPT` it runs that script, whose
//! first word is the path of this program. With the words `in memory` it runs the script on its input over
//! a worksheet in memory, without interpreters. With any other words it is `tmhost`. `data/steps.sh` says
//! how a case is added.
#![tactic(auto)]

use host_cli::startup;
use offline_programs::run_memory;
use program_endings::end_program;
use std::io;
use std::process::{Command, ExitCode};

/// Runs a script by the shell, and gives its status.
fn run_steps(rt: &HostRuntime, program: &str, script: &str) -> io::Result<u8> {
    let mut shell = Command::new(rt.alloc(), "sh")?;
    shell.arg(script)?.arg(program)?;
    match shell.status(rt)?.code() {
        Some(code) => Ok(u8::try_from(code).unwrap_or(1)),
        None => Ok(1),
    }
}

/// Runs the script on the input over a worksheet in memory, and gives the status. A fault is printed as
/// `tmhost` prints its own.
fn run_in_memory(rt: &HostRuntime) -> u8 {
    let ran = run_memory(rt.alloc(), &mut rt.stdin(), &mut rt.stdout());
    let answer = match ran {
        Ok(()) => Ok(true),
        Err(fault) => Err(fault),
    };
    end_program(answer, &mut rt.stderr()).status
}

/// What the words ask for beside the tasks of `tmhost`.
#[derive(Clone, Copy)]
enum Asked<'a> {
    Steps(&'a str, &'a str),
    Memory,
    Nothing,
}

/// That of these words.
fn asked_by(words: &[String]) -> Asked<'_> {
    match words {
        [program, by, script] if by.as_str() == "by" => Asked::Steps(program, script),
        [_, into, memory] if into.as_str() == "in" && memory.as_str() == "memory" => Asked::Memory,
        _ => Asked::Nothing,
    }
}

fn main(rt: HostRuntime) -> ExitCode {
    let words = startup::words(&rt);
    if let Ok(all) = &words {
        match asked_by(all.as_slice()) {
            Asked::Steps(program, script) => {
                return ExitCode::from(run_steps(&rt, program, script).unwrap_or(1));
            }
            Asked::Memory => return ExitCode::from(run_in_memory(&rt)),
            Asked::Nothing => {}
        }
    }
    startup::run_and_exit(&rt, words)
}
