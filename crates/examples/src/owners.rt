//! The command `owners` prints the owners of the paths of its input, as an owners file has them.

use crate::command::{Command, Fault, only_name, print, push, read_input};
use crate::owner_rule::OwnerRule;
use crate::text_file::{Labels, Lines, TextFile, without_dot};
use globset::Candidate;
use std::alloc::Global;
use std::process::ExitCode;

pub const COMMAND: Command = Command {
    name: "owners",
    help: "usage: examples owners FILE < PATHS

Each line of FILE is a pattern and its owners, as a CODEOWNERS has them.
Each line of standard input is the path of a file. It is written to standard output with a tab and its owners, or - if there
are none.
The exit status is 0, or 2 after an error, whose text is written to standard error.",
};

/// Prints each path with the owners of the last rule that matches it, if there are any, and returns the exit status.
pub fn run(rt: &HostRuntime, arguments: &[String]) -> Result<ExitCode, Fault> {
    let file = TextFile::read(rt, only_name(arguments)?)?;
    let rules = read_rules(rt.alloc(), &file)?;
    let mut searcher = rules.searcher(rt.alloc())?;
    let input = read_input(rt)?;
    let mut output = Vec::new(rt.alloc());
    for path in Lines::new(&input, b'\n') {
        let candidate = Candidate::from_bytes(without_dot(path));
        let last = searcher.matches(&candidate).last();
        let owners = match last.and_then(|index| rules.labels.get(*index)) {
            Some(owners) if !owners.is_empty() => *owners,
            _ => "-",
        };
        push(&mut output, &[path, b"\t", owners.as_bytes(), b"\n"])?;
    }
    print(rt, &output)
}

/// Reads an owners file: the globs, each with the owners of its rule. Fails with the line if a pattern cannot be read.
fn read_rules(alloc: Global, file: &TextFile) -> Result<Labels<'_>, Fault> {
    let mut rules = Labels::new(alloc);
    for (i, line) in file.lines(alloc)?.iter().enumerate() {
        let rule = OwnerRule::new(line);
        let globs = match rule.globs(alloc) {
            Ok(globs) => globs,
            Err(error) => return file.fail(alloc, i + 1, rule.pattern.as_bytes(), error.kind()),
        };
        for glob in globs {
            rules.push(glob, rule.owners)?;
        }
    }
    Ok(rules)
}
