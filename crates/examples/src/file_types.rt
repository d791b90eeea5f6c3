//! The command `file_types` prints the types of the paths of its input, by a table of types.
//!
//! A line of the table is the name of a type, a colon, and globs that are separated by a comma and a space. Blank lines, and
//! those that begin with `#`, are skipped. A path has a type if any glob of the type matches the last component of the path.

use crate::command::{Command, Fault, only_name, print, push, read_input};
use crate::text_file::{Labels, Lines, TextFile};
use globset::{Candidate, Glob};
use std::alloc::{AllocError, Global};
use std::process::ExitCode;

pub const COMMAND: Command = Command {
    name: "file_types",
    help: "usage: examples file_types FILE < PATHS

Each line of FILE is a type and its globs, as in: make: [Mm]akefile, *.mk
Each line of standard input is a path. It is written to standard output with a tab and its types, or - if it has none.
The exit status is 0, or 2 after an error, whose text is written to standard error.",
};

/// Prints each path with its types, and returns the exit status.
pub fn run(rt: &HostRuntime, arguments: &[String]) -> Result<ExitCode, Fault> {
    let file = TextFile::read(rt, only_name(arguments)?)?;
    let table = read_table(rt.alloc(), &file)?;
    let mut searcher = table.searcher(rt.alloc())?;
    let input = read_input(rt)?;
    let mut output = Vec::new(rt.alloc());
    for path in Lines::new(&input, b'\n') {
        let name = path.rsplit(|byte| *byte == b'/').next().unwrap_or(path);
        let found = searcher.matches(&Candidate::from_bytes(name));
        let types = joined(rt.alloc(), &table.labels, found)?;
        push(&mut output, &[path, b"\t", types.as_bytes(), b"\n"])?;
    }
    print(rt, &output)
}

/// Returns the names at these indexes, each once and separated by `,`, or `-` if there are none. Equal names have adjacent
/// indexes.
fn joined(alloc: Global, names: &[&str], indexes: &[usize]) -> Result<String, AllocError> {
    let found = indexes.iter().filter_map(|it| names.get(*it).copied());
    let mut found: Vec<&str> = found.collect(alloc)?;
    found.dedup();
    if found.is_empty() {
        return String::from_str(alloc, "-");
    }
    found.join(alloc, ",")
}

/// Reads a table: the globs, each with the name of its type. Fails with the line if a line has no colon, a type has a line
/// already or a glob cannot be read.
fn read_table(alloc: Global, file: &TextFile) -> Result<Labels<'_>, Fault> {
    let mut table = Labels::new(alloc);
    for (i, line) in file.lines(alloc)?.iter().enumerate() {
        if !line.trim().is_empty() && !line.starts_with('#') {
            push_line(alloc, &mut table, file, i + 1, line)?;
        }
    }
    Ok(table)
}

/// Adds the globs of a line of the file. Returns an error with the line's number.
fn push_line<'t>(
    alloc: Global,
    table: &mut Labels<'t>,
    file: &TextFile,
    number: usize,
    line: &'t str,
) -> Result<(), Fault> {
    let Some((name, list)) = line.split_once(':') else {
        return file.fail(alloc, number, line.as_bytes(), "this line has no colon");
    };
    if table.labels.contains(&name) {
        let reason = "this type has a line already";
        return file.fail(alloc, number, name.as_bytes(), reason);
    }
    for glob in list.split(", ") {
        let text = glob.trim();
        match Glob::new(alloc, text) {
            Ok(glob) => table.push(glob, name)?,
            Err(error) => return file.fail(alloc, number, text.as_bytes(), error.kind()),
        }
    }
    Ok(())
}
