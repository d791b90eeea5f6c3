//! The part of rules that their searchers share.

ghost use Rattle.std.specs.Prelude.{◌≡◌, ◌+◌, ◌≤◌, IfOk};
ghost use Rattle.std.specs.Option.{option_copied};
ghost use Rattle.git_ignore.specs.Rules.{deciding_rule, line_text_at, rules_of};
ghost use Rattle.bit_sets.specs.Indexes.{index_capacity};
ghost use Rattle.engine.specs.Memory.{Fits, FitsAsBefore};
ghost use Rattle.git_ignore.specs.inner.Entries.{ArePartsOf, rules_value};
ghost use Rattle.git_ignore.specs.inner.PathRules.{IsPathRule};

use crate::decision::DecidingRule;
use crate::entry::{RuleEntry, last_entry_for, told_of};
use crate::path_rule::PathRule;
use crate::reading::{after_mark, line_at};
use bit_sets::{IndexSet, Visits};
use engine::{Compiled, Memory};
use ignore_pattern::{IgnorePattern, automaton_of, line_text};
use std::alloc::{AllocError, Global};
use std::marker::Model;

/// How much memory rows may take, and when.
#[derive(Clone, Copy)]
pub struct RowMemory {
    /// The most bytes that are kept between calls.
    limit: usize,
    /// Whether calls that decide take it as they need it, and not those before them at once.
    by_need: bool,
}

impl RowMemory {
    /// Returns that memory is taken before calls that decide.
    pub fn at_once(limit: usize) -> RowMemory {
        RowMemory {
            limit,
            by_need: false,
        }
    }

    /// Returns that calls that decide take memory.
    pub fn by_need(limit: usize) -> RowMemory {
        RowMemory {
            limit,
            by_need: true,
        }
    }
}

/// The rules of an ignore file. A searcher of the rules has them, too, and memory of its own.
#[derive(Drop)]
pub struct StoredRules {
    /// The automaton of the rules' patterns. The pattern of a rule has the index of its entry, and the two indexes after these tell
    /// of the folders above a path.
    automaton: Compiled,
    entries: Vec<RuleEntry>,
    file: Vec<u8>,
    ignore_case: bool,
}

impl Model for StoredRules {
    ghost use Rattle.std.specs.Prelude.{length};
    ghost use Rattle.git_ignore.specs.Rules.{rules_of};
    ghost use Rattle.git_ignore.specs.inner.Entries.{AreStored, StoredValue};

    ghost Value = { StoredValue };

    ghost view = { λ r. record {
      file = r.file.items;
      ignore_case = r.ignore_case;
      automaton = r.automaton;
      rules = length r.entries.items;
    } };

    ghost invariant = { λ r. AreStored r.ignore_case (rules_of r.file.items) r.automaton r.entries.items };
}

impl StoredRules {
    /// Returns the stored form of rules with these patterns and entries, which were read from a file.
    pub fn new(
        alloc: Global,
        patterns: &[IgnorePattern],
        entries: Vec<RuleEntry>,
        file: &[u8],
        ignore_case: bool,
        rows: RowMemory,
    ) -> Result<StoredRules, AllocError>
        requires { ArePartsOf (rules_of file.now) patterns.now entries.items }
        ensures file { IfOk result (λ r. r.file ≡ file.now) }
        ensures ignore_case { IfOk result (λ r. r.ignore_case ≡ ignore_case) }
    {
        let automaton = automaton_of(alloc, patterns, ignore_case)?;
        let states = automaton.state_count();
        let automaton = Compiled::new(alloc, rows.limit, automaton, states)?;
        let automaton = automaton.growing(rows.by_need);
        let file = file.to_vec(alloc)?;
        Ok(StoredRules {
            automaton,
            entries,
            file,
            ignore_case,
        })
    }

    /// Returns the allocator of the memory that the rules take.
    pub fn allocator(&self) -> Global {
        *self.file.allocator()
    }

    /// Returns the bytes of the file.
    pub fn file(&self) -> &[u8]
        ensures { result.now ≡ self.now.file }
    {
        &self.file
    }

    /// Returns the text of the line with this number, if there is one.
    pub fn line_text(&self, number: usize) -> Option<&[u8]>
        ensures { option_copied result ≡ line_text_at self.now.file number }
    {
        Some(line_text(line_at(after_mark(&self.file), number)?))
    }

    /// Returns the number of states of the automaton.
    pub fn state_count(&self) -> usize
        ensures { result ≡ (rules_value self.now).states }
    {
        self.automaton.state_count()
    }

    /// Returns the number of rules.
    pub fn rule_count(&self) -> usize
        ensures { result ≡ self.now.rules }
    {
        self.entries.len()
    }

    /// Returns all memory that runs of the automaton need: room for its states, and in the first slot a cache if it may have rows.
    pub fn new_memory(&self, alloc: Global) -> Result<Memory, AllocError>
        ensures fits { IfOk result (λ memory. Fits memory 0 self.now.automaton) }
        ensures room { IfOk result (λ memory. (rules_value self.now).states ≤ memory.room) }
    {
        let mut memory = Memory::new(alloc);
        memory.push_slot(self.automaton.new_cache(alloc)?)?;
        memory.reserve(self.state_count())?;
        Ok(memory)
    }

    /// Returns a set with room for the indexes that the automaton finds.
    pub fn new_found(&self, alloc: Global) -> Result<IndexSet, AllocError>
        ensures { IfOk result (λ found. self.now.rules + 2 ≤ index_capacity found) }
    {
        IndexSet::new(alloc, self.entries.len().checked_add(2).ok_or(AllocError)?)
    }

    /// Keeps a cache for calls without one, as far as there is memory for it.
    pub fn keep_cache(&self) {
        self.automaton.keep_cache();
    }

    /// Returns the rule that decides about a path alone, and what is known of the folders above it, if these are the rules of the file
    /// with this index. It runs in the first slot of the memory.
    pub fn path_rule(
        &self,
        file: usize,
        path: &[u8],
        is_folder: bool,
        memory: &mut Memory,
        found: &mut IndexSet,
    ) -> PathRule
        // The memory and the set have room, and the first slot is the automaton's.
        requires fits { Fits memory.old 0 self.now.automaton }
        requires states { (rules_value self.now).states ≤ memory.old.room }
        requires indexes { self.now.rules + 2 ≤ index_capacity found.old }
        ensures rule { IsPathRule (deciding_rule self.now.ignore_case self.now.file file) path.now
            is_folder result }
        ensures kept { FitsAsBefore memory.old memory.new }
        ensures room { index_capacity found.new ≡ index_capacity found.old }
    {
        found.clear();
        self.automaton
            .find(path, 0, memory, found, &mut Visits::new())
            .unwrap();
        let last = last_entry_for(&self.entries, found, is_folder);
        let count = self.entries.len();
        PathRule {
            rule: told_of(file, last),
            may_be_ignored: found.has(count),
            may_be_kept: found.has(count + 1),
        }
    }
}
