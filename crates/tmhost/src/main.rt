//! The program `tmhost`: it does what its words ask for, on the standard streams. Which program that is,
//! what it says where, and with which status it ends, `host_cli` decides.
#![tactic(auto)]

use host_cli::startup;
use std::process::ExitCode;

fn main(rt: HostRuntime) -> ExitCode {
    let words = startup::words(&rt);
    startup::run_and_exit(&rt, words)
}
