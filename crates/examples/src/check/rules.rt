//! The rules of an owners file, with their globs.

use super::COMMAND;
use super::findings::RuleLine;
use crate::command::{Fault, Shown};
use crate::owner_rule::OwnerRule;
use crate::text_file::TextFile;
use globset::{Error, Glob};
use std::alloc::{AllocError, Global};
use std::ops::Range;

/// The rules of an owners file, and all their globs, in the order of the lines. An index names a rule.
#[derive(Drop)]
pub struct OwnerRules<'t> {
    /// The line of each rule.
    pub lines: Vec<RuleLine<'t>>,
    pub globs: Vec<Glob>,
    /// For each glob the index of its rule.
    rule_of: Vec<usize>,
}

impl<'t> OwnerRules<'t> {
    /// Reads an owners file. Returns `None` if patterns cannot be read, whose errors were then written to standard error.
    pub fn read(rt: &HostRuntime, file: &'t TextFile) -> Result<Option<OwnerRules<'t>>, Fault> {
        let mut rules = OwnerRules {
            lines: Vec::new(rt.alloc()),
            globs: Vec::new(rt.alloc()),
            rule_of: Vec::new(rt.alloc()),
        };
        let mut is_right = true;
        for (i, line) in file.lines(rt.alloc())?.iter().enumerate() {
            let rule = OwnerRule::new(line);
            match rule.globs(rt.alloc()) {
                Ok(globs) => rules.push(i + 1, rule.pattern, globs)?,
                Err(error) => {
                    is_right = false;
                    COMMAND.report(rt, &pattern_fault(rt.alloc(), file, i + 1, line, error)?);
                }
            }
        }
        Ok(if is_right { Some(rules) } else { None })
    }

    /// Adds a rule, if it has a pattern.
    fn push(
        &mut self,
        number: usize,
        pattern: &'t str,
        globs: Vec<Glob>,
    ) -> Result<(), AllocError> {
        if pattern.is_empty() {
            return Ok(());
        }
        for glob in globs {
            self.globs.push(glob)?;
            self.rule_of.push(self.lines.len())?;
        }
        let text = pattern.as_bytes();
        Ok(self.lines.push(RuleLine { number, text })?)
    }

    /// Returns the indexes of the globs of a rule.
    pub fn range(&self, rule: usize) -> Range<usize> {
        let start = self.rule_of.partition_point(|other| *other < rule);
        start..self.rule_of.partition_point(|other| *other <= rule)
    }

    /// Returns the globs of a rule.
    pub fn globs_of(&self, rule: usize) -> &[Glob] {
        self.globs.get(self.range(rule)).unwrap_or(&[])
    }

    /// Returns the rules after a rule that globs at these indexes are of, each once.
    pub fn rules_after(
        &self,
        alloc: Global,
        rule: usize,
        globs: &[usize],
    ) -> Result<Vec<usize>, AllocError> {
        let of = globs.iter().filter_map(|it| self.rule_of.get(*it).copied());
        let mut rules: Vec<usize> = of.filter(|other| *other > rule).collect(alloc)?;
        rules.sort_unstable();
        rules.dedup();
        Ok(rules)
    }

    /// Returns copies of the globs of chosen rules, without the rule at a place among these.
    pub fn globs_without(
        &self,
        alloc: Global,
        chosen: &[usize],
        place: usize,
    ) -> Result<Vec<Glob>, Error> {
        let mut globs = Vec::new(alloc);
        for (i, rule) in chosen.iter().enumerate() {
            if i != place {
                for glob in self.globs_of(*rule) {
                    globs.push(glob.clone()?)?;
                }
            }
        }
        Ok(globs)
    }
}

/// Returns the error of a line whose pattern cannot be read: the line, with a mark under the place of the error.
fn pattern_fault(
    alloc: Global,
    file: &TextFile,
    number: usize,
    line: &str,
    error: Error,
) -> Result<Fault, Fault> {
    let Some(offset) = error.offset() else {
        return Err(Fault::Glob(error));
    };
    let indent = line.len() - line.trim_start().len();
    let place = OwnerRule::new(line)
        .place_in_pattern(offset)
        .saturating_add(indent);
    let before = line.as_bytes().get(..place).unwrap_or(line.as_bytes());
    let width = Shown(before).to_string(alloc)?.chars().count();
    let spaces = " ".repeat(alloc, width)?;
    let reason = error.kind().to_string(alloc)?;
    let (file, reason) = (Shown(file.name.as_bytes()), Shown(reason.as_bytes()));
    let text = Shown(line.as_bytes());
    Ok(Fault::Text(format!(in alloc; "{file}: line {number}: {reason}\n  {text}\n  {spaces}^")?))
}
