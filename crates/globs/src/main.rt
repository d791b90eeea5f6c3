//! `globs` filters paths by globs, explains globs and compares them.
#![tactic(auto)]

mod command_line;
mod comparing;
mod explaining;
mod fault;
mod globs;
mod input;
mod matching;

use fault::{Fault, argument_fault};
use std::env;
use std::process::ExitCode;

fn main(rt: HostRuntime) -> ExitCode {
    match run(&rt) {
        Ok(true) => ExitCode::from(0),
        Ok(false) => ExitCode::from(1),
        Err(fault) => fault.end(&rt),
    }
}

/// Executes the arguments, and returns what the exit status 0 stands for: that a line was printed, that each path matches, or that
/// two lists are equal.
fn run(rt: &HostRuntime) -> Result<bool, Fault> {
    let alloc = rt.alloc();
    let words = read_arguments(rt)?;
    let command = command_line::command(alloc)?;
    let matches = command
        .try_get_matches_from(words.as_slice())
        .map_err(Fault::Usage)?;
    match matches.subcommand() {
        Some(("match", found)) => matching::run(rt, found),
        Some(("explain", found)) => explaining::run(rt, found),
        Some(("compare", found)) => comparing::run(rt, found),
        _ => Ok(false),
    }
}

/// Returns the arguments, and the program's name before them. Fails with the first that is not UTF-8.
fn read_arguments(rt: &HostRuntime) -> Result<Vec<String>, Fault> {
    match env::args(rt) {
        Ok(given) => Ok(given.collect(rt.alloc())?),
        Err(error) => Err(argument_fault(rt, error)?),
    }
}
