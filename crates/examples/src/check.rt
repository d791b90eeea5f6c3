//! The command `check` prints the rules of an owners file or an ignore file that never decide about a path, or the pairs of rules
//! of an owners file that match a path in common.

mod findings;
mod relations;
mod rules;

use crate::command::{Command, Fault, only_name};
use crate::text_file::{Lines, TextFile};
use findings::{Findings, RuleLine};
use git_ignore::{RulePatterns, Rules, rule_patterns};
use glob_relations::{Domain, unreachable_rules};
use relations::uses;
use rules::OwnerRules;
use std::alloc::{AllocError, Global};
use std::process::ExitCode;

pub const COMMAND: Command = Command {
    name: "check",
    help: "usage: examples check [--overlaps|--ignore] FILE

Each line of FILE is a pattern and its owners, as a CODEOWNERS has them; the last rule that matches a path decides about it.
For each rule that never decides, its line, its pattern and the lines that cover it are written to standard output.
With --overlaps it is each pair of rules that match a path in common, with a shortest such path.
With --ignore, or if FILE is named .gitignore or .ignore, FILE has patterns as a .gitignore has them. Then a rule does not decide about
what lies in an ignored directory, and the line of a rule that ignores one is written. A line that git cannot read is written, too.
Paths are relative, and no component is empty, . or .. in them. A line says unknown where an answer takes more than 10,000 sets of
states.
The exit status is 0 if nothing was written, 1 if a line was, and 2 after an error. For each pattern of owners that is
wrong, the line is written to standard error with a mark under the place.",
};

/// The paths that rules are asked about.
const DOMAIN: Domain = Domain::RelativePaths;

/// The most rows of a search.
const LIMIT: usize = 10_000;

/// Prints what is found about a file, or the help, and returns the exit status.
pub fn run(rt: &HostRuntime, arguments: &[String]) -> Result<ExitCode, Fault> {
    match arguments {
        [option, name] if option.as_str() == "--overlaps" && !is_ignore_file(name.as_str()) => {
            check(rt, name.as_str(), true)
        }
        [option, name] if option.as_str() == "--ignore" => check_ignore_file(rt, name.as_str()),
        [name] if is_ignore_file(name.as_str()) => check_ignore_file(rt, name.as_str()),
        [option] if matches!(option.as_str(), "--overlaps" | "--ignore") => Err(Fault::Usage),
        _ => check(rt, only_name(arguments)?, false),
    }
}

/// Returns whether a file is an ignore file by its name.
fn is_ignore_file(name: &str) -> bool {
    matches!(name.rsplit('/').next(), Some(".gitignore" | ".ignore"))
}

/// Prints the rules of an owners file that never decide, or the pairs that overlap.
fn check(rt: &HostRuntime, name: &str, overlaps: bool) -> Result<ExitCode, Fault> {
    let file = TextFile::read(rt, name)?;
    let Some(rules) = OwnerRules::read(rt, &file)? else {
        return Ok(ExitCode::from(2));
    };
    let mut findings = Findings::new(rt.alloc(), &file);
    if overlaps {
        findings.push_overlaps(rt.alloc(), &rules)?;
    } else {
        findings.push_unused(rt.alloc(), &rules.lines, &uses(rt.alloc(), &rules)?)?;
    }
    findings.write(rt)
}

/// Prints the rules of an ignore file that never decide, and the lines that git cannot read.
fn check_ignore_file(rt: &HostRuntime, name: &str) -> Result<ExitCode, Fault> {
    let file = TextFile::read(rt, name)?;
    let mut findings = Findings::new(rt.alloc(), &file);
    let RulePatterns { patterns, lines } = rule_patterns(rt.alloc(), &file.bytes)?;
    let found = unreachable_rules(rt.alloc(), &patterns, false, DOMAIN, LIMIT)?;
    findings.push_unused(rt.alloc(), &lines_at(rt.alloc(), &file, &lines)?, &found)?;
    let rules = Rules::new(rt.alloc(), &file.bytes)?;
    for line in &lines_at(rt.alloc(), &file, rules.unread_lines())? {
        let reason = "git cannot read this line";
        findings.push(rt.alloc(), *line, "never decides: ", reason)?;
    }
    findings.write(rt)
}

/// Returns the lines of an ignore file that have these numbers, in ascending order, each without a carriage return at its end.
fn lines_at<'t>(
    alloc: Global,
    file: &'t TextFile,
    numbers: &[usize],
) -> Result<Vec<RuleLine<'t>>, AllocError> {
    let mut lines = Vec::new(alloc);
    for (i, line) in Lines::new(file.text(), b'\n').enumerate() {
        let number = i.saturating_add(1);
        if numbers.get(lines.len()) == Some(&number) {
            let text = line.strip_suffix(b"\r").unwrap_or(line);
            lines.push(RuleLine { number, text })?;
        }
    }
    Ok(lines)
}
