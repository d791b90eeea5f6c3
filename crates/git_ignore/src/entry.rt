//! The part of a rule that is not its pattern.

ghost use Rattle.std.specs.Prelude.{◌≡◌, None, Some, length, slice_get};
ghost use Rattle.bit_sets.specs.Indexes.{has_index};
ghost use Rattle.git_ignore.specs.inner.Entries.{chosen, entry_of, is_for, last_found, told_of};

use crate::decision::DecidingRule;
use bit_sets::IndexSet;
use ignore_pattern::IgnorePattern;

/// The part of a rule that is not its pattern.
#[derive(Clone, Copy, Debug)]
pub struct RuleEntry {
    /// The number of its line, counted from 1.
    pub line: usize,
    pub is_negated: bool,
    pub is_folders_only: bool,
}

impl RuleEntry {
    /// Returns the entry of a rule, by the number of its line and its pattern.
    pub fn new(line: usize, pattern: &IgnorePattern) -> RuleEntry
        ensures { result ≡ entry_of (record { line = line; pattern = pattern.now }) }
    {
        RuleEntry {
            line,
            is_negated: pattern.is_negated(),
            is_folders_only: pattern.is_folders_only(),
        }
    }

    /// Returns whether the rule applies to a folder, or if `is_folder` is false to another path.
    fn is_for(self, is_folder: bool) -> bool
        ensures { result ≡ is_for is_folder self }
    {
        is_folder || !self.is_folders_only
    }
}

/// Returns the rule that decides, by the index of its file and its entry.
pub fn told_of(file: usize, entry: Option<RuleEntry>) -> Option<DecidingRule>
    ensures { result ≡ told_of file entry }
{
    let entry = entry?;
    Some(DecidingRule {
        file,
        line: entry.line,
        is_negated: entry.is_negated,
    })
}

/// Returns the last entry whose index is in `found` and that applies to a folder, or if `is_folder` is false to another path.
pub fn last_entry_for(entries: &[RuleEntry], found: &IndexSet, is_folder: bool) -> Option<RuleEntry>
    ensures { result
        ≡ last_found (has_index found.now) is_folder entries.now (length entries.now) }
{
    let mut last = None;
    let mut from = 0;
    while let Some(index) = found.next_below(from, entries.len()) {
        last = later_entry(entries, index, is_folder, last);
        from = index + 1;
    }
    last
}

/// Returns the entry at an index, if it is for folders, or for other paths; and otherwise the one before.
fn later_entry(
    entries: &[RuleEntry],
    index: usize,
    is_folder: bool,
    before: Option<RuleEntry>,
) -> Option<RuleEntry>
    ensures { result ≡ chosen is_folder before (slice_get entries.now index) }
{
    match entries.get(index) {
        Some(entry) if entry.is_for(is_folder) => Some(*entry),
        _ => before,
    }
}
