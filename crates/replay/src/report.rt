//! The rows of a file that passed, and those that failed.

ghost use Rattle.std.specs.Prelude.{◌≡◌, ◌+◌, ◌<◌, ◌≤◌, ◌^◌, ◌++◌, ◌∷◌, [], ℕ, length, IfNone, IfOk, IfSome, OnOk, MatchOption, cond};
ghost use Rattle.std.specs.List.{All, count_by};
ghost use Rattle.replay.specs.Rows.{is_row};

use crate::case::Globs;
use crate::row;
use std::alloc::{AllocError, Global};

/// The index of a line whose row failed, and the actual result.
#[derive(Drop)]
pub struct FailedRow {
    pub index: usize,
    pub returned: String,
}

/// How many rows passed, and the rows that failed.
#[derive(Drop)]
pub struct Report {
    pub passed: usize,
    pub failures: Vec<FailedRow>,
}

/// Replays the rows of a file: the lines that are neither empty nor a comment. An empty line ends a case.
pub fn replay(alloc: Global, lines: &[&str]) -> Result<Report, AllocError>
    ensures rows { IfOk result
        (λ r. r.passed + length r.failures.items ≡ count_by (λ line. is_row line.now) lines.now) }
    ensures failures { IfOk result (λ r. All (λ f. f.index < length lines.now) r.failures.items) }
{
    let mut globs = Globs::new(alloc);
    let mut report = Report {
        passed: 0,
        failures: Vec::new(alloc),
    };
    for (index, line) in lines.iter().enumerate() {
        report.replay_line(alloc, &mut globs, index, line)?;
    }
    Ok(report)
}

/// Returns whether a line is a row.
fn is_row(line: &str) -> bool
    ensures { result ≡ is_row line.now }
{
    match line.as_bytes() {
        [] => false,
        [first, ..] => *first != b'#',
    }
}

impl Report {
    /// Replays a line, if it is a row, and adds the result. An empty line ends a case.
    fn replay_line(
        &mut self,
        alloc: Global,
        globs: &mut Globs,
        index: usize,
        line: &str,
    ) -> Result<(), AllocError>
        requires passed { self.old.passed ≤ index }
        requires index { index + 1 < 2 ^ 64 }
        ensures passed { OnOk result (self.new.passed ≤ index + 1) }
        ensures rows { OnOk result
            (self.new.passed + length self.new.failures.items
            ≡ self.old.passed + length self.old.failures.items + cond (is_row line.now) 1 0) }
        ensures failures { OnOk result
            ((n : ℕ) → index < n → All (λ f. f.index < n) self.old.failures.items
            → All (λ f. f.index < n) self.new.failures.items) }
    {
        if line.is_empty() {
            *globs = Globs::new(alloc);
        }
        if !is_row(line) {
            return Ok(());
        }
        self.add(index, row::replay(alloc, globs, line)?)
    }

    /// Adds the row of this line: it passed if nothing else was returned.
    fn add(&mut self, index: usize, returned: Option<String>) -> Result<(), AllocError>
        requires { self.old.passed + 1 < 2 ^ 64 }
        ensures passed { OnOk result
            (MatchOption returned (self.new.passed ≡ self.old.passed + 1)
            (λ _. self.new.passed ≡ self.old.passed)) }
        ensures failed { OnOk result
            (IfSome returned (λ text. self.new.failures.items
            ≡ self.old.failures.items ++ record { index = index; returned = text } ∷ [])) }
        ensures no_failure { OnOk result
            (IfNone returned (self.new.failures.items ≡ self.old.failures.items)) }
    {
        match returned {
            None => self.passed += 1,
            Some(returned) => self.failures.push(FailedRow { index, returned })?,
        }
        Ok(())
    }
}
