//! `examples` is a program of several examples, each a command: programs over the libraries look like this. The first argument
//! names the command, and the module of that name does it with the others.
//!
//! Functions take `HostRuntime` itself: a type parameter would double the proofs of the walk.
#![tactic(auto)]

mod check;
mod command;
mod file_types;
mod find_files;
mod ignore_lines;
mod owner_rule;
mod owners;
mod text_file;

use command::{Command, Fault};
use std::env;
use std::process::ExitCode;

const PROGRAM: Command = Command {
    name: "examples",
    help: "usage: examples file_types|owners|check|ignore_lines|find_files ARGUMENT..

  file_types    prints the types of the paths of its input, by a table of types
  owners        prints the owners of the paths of its input, by an owners file
  check         prints the rules of an owners file that never decide, or pairs that overlap
  ignore_lines  prints the paths of its input that an ignore file does not ignore
  find_files    prints the paths of the files below a folder that some glob matches

With --help after its name, a command prints how it is called.",
};

fn main(rt: HostRuntime) -> ExitCode {
    match read_arguments(&rt) {
        Ok(arguments) => run(&rt, &arguments),
        Err(fault) => PROGRAM.end(&rt, Err(fault)),
    }
}

/// Returns the arguments without the program's name. Fails if an argument is not UTF-8.
fn read_arguments(rt: &HostRuntime) -> Result<Vec<String>, Fault> {
    let given = env::args(rt).map_err(Fault::Arguments)?;
    Ok(given.skip(1).collect(rt.alloc())?)
}

/// Executes the arguments, and returns the exit status.
fn run(rt: &HostRuntime, arguments: &[String]) -> ExitCode {
    let Some((name, rest)) = arguments.split_first() else {
        return PROGRAM.end(rt, Err(Fault::Usage));
    };
    match name.as_str() {
        "file_types" => file_types::COMMAND.end(rt, file_types::run(rt, rest)),
        "owners" => owners::COMMAND.end(rt, owners::run(rt, rest)),
        "check" => check::COMMAND.end(rt, check::run(rt, rest)),
        "ignore_lines" => ignore_lines::COMMAND.end(rt, ignore_lines::run(rt, rest)),
        "find_files" => find_files::COMMAND.end(rt, find_files::run(rt, rest)),
        "-h" | "--help" => PROGRAM.end(rt, Err(Fault::Help)),
        _ => PROGRAM.end(rt, Err(Fault::Usage)),
    }
}
