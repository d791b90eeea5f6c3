//! What is found about the rules of a file, a line each.

use super::relations::common;
use super::rules::OwnerRules;
use crate::command::{Fault, Shown, print, push};
use crate::text_file::TextFile;
use glob_relations::{Intersection, RuleReachability};
use std::alloc::{AllocError, Global};
use std::fmt;
use std::process::ExitCode;

/// The line of a rule, as it is printed.
#[derive(Clone, Copy)]
pub struct RuleLine<'t> {
    /// Its number, counted from 1.
    pub number: usize,
    /// The rule's text.
    pub text: &'t [u8],
}

/// The lines that are found about a file.
#[derive(Drop)]
pub struct Findings<'a> {
    file: &'a str,
    /// Each with the number of the line that it is about.
    lines: Vec<(usize, String)>,
}

impl<'a> Findings<'a> {
    /// Returns no findings about a file.
    pub fn new(alloc: Global, file: &'a TextFile) -> Findings<'a> {
        Findings {
            file: file.name.as_str(),
            lines: Vec::new(alloc),
        }
    }

    /// Adds each rule that never decides, and each that may never decide.
    pub fn push_unused(
        &mut self,
        alloc: Global,
        rules: &[RuleLine<'_>],
        found: &[RuleReachability],
    ) -> Result<(), AllocError> {
        for (rule, found) in rules.iter().zip(found) {
            match found {
                RuleReachability::Decides(_) => {}
                RuleReachability::Never(by) => {
                    let numbers = by.iter().filter_map(|it| Some(rules.get(*it)?.number));
                    let mut numbers: Vec<usize> = numbers.collect(alloc)?;
                    numbers.sort_unstable();
                    self.push(alloc, *rule, "never decides: ", Covering(&numbers))?;
                }
                RuleReachability::Hidden(by) => {
                    let relation =
                        "never decides: its paths lie in ignored directories, as by line ";
                    let number = rules.get(*by).map_or(0, |it| it.number);
                    self.push(alloc, *rule, relation, number)?;
                }
                RuleReachability::Unknown => {
                    self.push(alloc, *rule, "may never decide: ", "unknown")?;
                }
            }
        }
        Ok(())
    }

    /// Adds each pair of rules that match a path in common, or may.
    pub fn push_overlaps(&mut self, alloc: Global, rules: &OwnerRules<'_>) -> Result<(), Fault> {
        for (i, rule) in rules.lines.iter().enumerate() {
            for (j, later) in rules.lines.iter().enumerate().skip(i + 1) {
                let (relation, path) = match common(alloc, rules, i, j)? {
                    Intersection::Disjoint => continue,
                    Intersection::Both(path) => ("overlaps ", path),
                    Intersection::Unknown => ("may overlap ", b"unknown".to_vec(alloc)?),
                };
                let (text, path) = (Shown(later.text), Shown(&path));
                let pair = format!(in alloc; "line {}, {text}: {path}", later.number)?;
                self.push(alloc, *rule, relation, pair.as_str())?;
            }
        }
        Ok(())
    }

    /// Adds a line about a rule.
    pub fn push(
        &mut self,
        alloc: Global,
        rule: RuleLine<'_>,
        relation: &str,
        what: impl fmt::Display + Drop,
    ) -> Result<(), AllocError> {
        let (file, text) = (Shown(self.file.as_bytes()), Shown(rule.text));
        let line = format!(in alloc; "{file}:{}: {text} {relation}{what}\n", rule.number)?;
        Ok(self.lines.push((rule.number, line))?)
    }

    /// Writes the findings to standard output, in the order of their lines. Returns the exit status: 0 if there are none, or 1.
    pub fn write(&mut self, rt: &HostRuntime) -> Result<ExitCode, Fault> {
        self.lines.sort_by_key(|it| it.0)?;
        let mut output = Vec::new(rt.alloc());
        for (_, line) in &self.lines {
            push(&mut output, &[line.as_bytes()])?;
        }
        print(rt, &output)?;
        Ok(ExitCode::from(if self.lines.is_empty() { 0 } else { 1 }))
    }
}

/// The lines that cover a rule, as they are printed.
#[derive(Clone, Copy)]
struct Covering<'a>(&'a [usize]);

impl fmt::Display for Covering<'_> {
    fn fmt<W: fmt::Write>(&self, f: &mut fmt::Formatter<W>) -> fmt::Result {
        match self.0 {
            [] => f.write_str("it matches no path"),
            [line] => write!(f, "line {line} covers it"),
            [before @ .., last] => {
                let mut separator = "lines ";
                for line in before {
                    write!(f, "{separator}{line}")?;
                    separator = ", ";
                }
                write!(f, " and {last} cover it")
            }
        }
    }
}
