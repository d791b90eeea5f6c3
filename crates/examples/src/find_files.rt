//! The command `find_files` prints the paths of the files below a directory that some glob matches.

mod arguments;
mod ignored;
mod walk;

use crate::command::{Command, Fault, print_text};
use arguments::Arguments;
use std::process::ExitCode;
use walk::Walk;

pub const COMMAND: Command = Command {
    name: "find_files",
    help: "usage: examples find_files [OPTION..] FOLDER GLOB..

Prints the paths of the files below FOLDER that some GLOB matches, in the order of their bytes. A path begins after FOLDER and its
slash. Only folders below which a path can match are opened. Symbolic links are not followed, but for FOLDER itself, and not
printed, nor is anything else that is neither a file nor a folder.

  -i       letters match in both cases
  -s       * and ? do not match /
  -f FILE  globs from FILE as well, one a line; a line that is blank or begins with # has none
  -0       a path ends in NUL in place of LF
  --ignored  leaves out what .gitignore files on the way and .git/info/exclude ignore, and what is named .git; symbolic links
           are printed; a folder that is a repository of its own is printed with a slash, and not opened; no GLOB is needed
  --excludes FILE  the same, with FILE as an ignore file for FOLDER that all others take precedence over, as git's setting
           core.excludesFile names it
  --count  how many folders were opened and how many were left closed, on standard error
  --       what follows is FOLDER or a GLOB
  --help, --version

A folder that cannot be read, and a name that is not UTF-8, are left out, with an error on standard error.
The exit status is 0 if a path was printed, 1 if none was, and 2 after an error.",
};

/// Executes the arguments, and returns the exit status. With `--help` it prints the help and does nothing else.
pub fn run(rt: &HostRuntime, arguments: &[String]) -> Result<ExitCode, Fault> {
    let arguments = Arguments::read(rt.alloc(), arguments)?;
    if arguments.switches.help {
        Err(Fault::Help)
    } else if arguments.switches.version {
        print_text(rt, "find_files 0.4.21")
    } else {
        Walk::new(rt, &arguments)?.run(rt)
    }
}
