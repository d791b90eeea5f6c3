//! The rules of a file with the memory to decide with.

ghost use Rattle.std.specs.Prelude.{◌≡◌, IfOk};
ghost use Rattle.git_ignore.specs.Rules.{decision_of};
ghost use Rattle.git_ignore.specs.RulesValue.{rules_rule};

use crate::decision::{DecidingRule, Decision, decision_of};
use crate::rules::Rules;
use crate::stored::StoredRules;
use bit_sets::IndexSet;
use engine::Memory;
use std::alloc::{AllocError, Global};
use std::marker::Model;
use std::sync::Arc;

/// [`Rules`] with all the memory that a thread needs to decide about paths. [`RulesSearcher::new`] allocates it: no other call
/// allocates, and none can fail.
///
/// Searchers of the same rules share these, and outlive the value that they were made of. A program with several threads makes a
/// searcher for each thread. A searcher keeps rows of the automaton from path to path.
///
/// Contracts see a searcher as they see its rules. Nothing that earlier calls left in it has an effect.
///
/// ```rust
/// use git_ignore::{Decision, Rules, RulesSearcher};
///
/// let rules = Rules::new(alloc, b"*.o\n!a.o\nout/\n")?;
/// let mut searcher = RulesSearcher::new(alloc, &rules)?;
/// assert_eq!(rt; searcher.decide(b"src/b.o", false), Decision::Ignored);
/// assert_eq!(rt; searcher.decide(b"a.o", false), Decision::Kept);
/// assert_eq!(rt; searcher.decide(b"out", false), Decision::Undecided);
/// ```
#[derive(Drop)]
pub struct RulesSearcher {
    stored: Arc<StoredRules>,
    memory: Memory,
    /// The indexes that the automaton finds.
    found: IndexSet,
}

impl Model for RulesSearcher {
    ghost use Rattle.std.specs.Arc.{arc_value};
    ghost use Rattle.bit_sets.specs.Indexes.{index_capacity};
    ghost use Rattle.git_ignore.specs.RulesValue.{RulesValue};
    ghost use Rattle.git_ignore.specs.inner.Entries.{IsSearcherOf, rules_value};

    ghost Value = { RulesValue };

    ghost view = { λ s. rules_value (arc_value s.stored) };

    ghost invariant = { λ s. IsSearcherOf (arc_value s.stored) s.memory (index_capacity s.found) };
}

impl RulesSearcher {
    /// Returns a searcher of the rules, which shares them. It takes as much memory as an
    /// [`IgnoreScratch`](crate::IgnoreScratch), and for rows up to a quarter of the limit that
    /// [`RulesBuilder::dfa_size_limit`](crate::RulesBuilder::dfa_size_limit) sets.
    ///
    /// Fails only if memory runs out or 2^63 searchers share the rules.
    pub fn new(alloc: Global, rules: &Rules) -> Result<RulesSearcher, AllocError>
        ensures { IfOk result (λ s. s ≡ rules.now) }
    {
        let stored = Arc::try_clone(&rules.stored)?;
        let memory = stored.new_memory(alloc)?;
        let found = stored.new_found(alloc)?;
        Ok(RulesSearcher {
            stored,
            memory,
            found,
        })
    }

    /// Returns how many bytes of memory its rows take.
    pub fn bytes(&self) -> usize {
        self.memory.bytes()
    }

    /// Returns the decision of the file about a path below its folder, as [`Rules::decide`] does.
    pub fn decide(&mut self, path: &[u8], is_folder: bool) -> Decision
        ensures decision { result ≡ decision_of (rules_rule self.old path.now is_folder) }
        ensures kept { self.new ≡ self.old }
    {
        decision_of(self.deciding_rule(path, is_folder))
    }

    /// Returns the rule that decides about a path alone, or `None` if no rule does. The file of the rule is 0.
    pub fn deciding_rule(&mut self, path: &[u8], is_folder: bool) -> Option<DecidingRule>
        ensures rule { result ≡ rules_rule self.old path.now is_folder }
        ensures kept { self.new ≡ self.old }
    {
        self.stored
            .path_rule(0, path, is_folder, &mut self.memory, &mut self.found)
            .rule
    }
}
