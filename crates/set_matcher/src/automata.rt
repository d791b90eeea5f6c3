//! Globs that no text decides: automata of their tokens.

ghost use Rattle.std.specs.Prelude.{◌≡◌, ◌+◌, ◌*◌, ◌<◌, ◌≤◌, ◌↔◌, [], ℕ, length, Some, true, false, IsTrue, IsOk, OnOk, IfOk};
ghost use Rattle.byte_nfa.specs.Runs.{size};
ghost use Rattle.bit_sets.specs.Indexes.{index_capacity};
ghost use Rattle.bit_sets.specs.Texts.{AllBytes};
ghost use Rattle.engine.specs.Memory.{FitsAsBefore};
ghost use Rattle.glob_strategy.specs.IndexedTokens.{indexed};
ghost use Rattle.glob_path.specs.PathParts.{component_extension};
ghost use Rattle.glob_syntax.specs.FlatTokens.{IsNested};
ghost use Rattle.glob_syntax.specs.Views.{flats, tokens_of};
ghost use Rattle.set_matcher.specs.inner.Memory.{FitsAll};
ghost use Rattle.set_matcher.specs.inner.Automata.{AreForLists, AreFound, AreIdle, IsFoundSet, TokenLists, max_states, nfa_at, no_automata, reads_for, slot_of, states_for, AreFoundBelow, folder_reads};
ghost use Rattle.set_matcher.specs.inner.Builders.{AddsTo};
ghost use Rattle.byte_nfa.specs.Live.{MatchesAfter};

mod matchers;

use crate::path_part::{Part, matches_part, run};
use bit_sets::{IndexSet, StateSet, Visits};
use byte_nfa::{Builder, Nfa};
use engine::{Compiled, Memory};
use glob_path::PathParts;
use glob_strategy::{add_tokens, new_builder};
use glob_syntax::{Options, Token};
use matchers::{ExtensionMatchers, ExtensionMatchersBuilder};
use std::alloc::{AllocError, Global};
use std::marker::Model;

/// Automata for globs, by the part of a path that they are run on: the whole path, its last component, or the whole path if its
/// last component has some extension.
#[derive(Drop)]
pub struct Automata {
    by_path: Compiled,
    by_component: Compiled,
    extensions: ExtensionMatchers,
    /// The number of states of the largest of them.
    max_states: usize,
    /// Whether some text matches tokens of `by_component`.
    has_component: bool,
}

impl Model for Automata {
    ghost use Rattle.set_matcher.specs.inner.Automata.{AutomataParts, AreMeasured};

    ghost Value = { AutomataParts };

    ghost view = { λ a. record {
      by_path = a.by_path;
      by_component = a.by_component;
      extensions = a.extensions;
    } };

    ghost invariant = { λ a. AreMeasured a.by_path a.by_component a.extensions a.max_states a.has_component };
}

impl Automata {
    /// Returns the number that each index is below.
    pub fn index_count(&self) -> usize
        ensures { result ≡ self.now.extensions.index_count }
    {
        self.extensions.index_count()
    }

    /// Returns the number of states of the largest automaton.
    pub fn max_states(&self) -> usize
        ensures { result ≡ max_states self.now }
    {
        self.max_states
    }

    /// Returns how many bytes the caches take that the automata keep. It takes time linear in the number of automata.
    pub fn kept_bytes(&self) -> usize {
        self.by_path
            .kept_bytes()
            .saturating_add(self.by_component.kept_bytes())
            .saturating_add(self.extensions.kept_bytes())
    }

    /// Keeps a cache in each automaton, as [`Compiled::keep_cache`] does.
    pub fn keep_caches(&self) {
        self.by_path.keep_cache();
        self.by_component.keep_cache();
        self.extensions.keep_caches();
    }

    /// Gives a memory without slots those of the automata: each that may have rows gets a cache for them. Runs in this memory
    /// allocate nothing for rows.
    pub fn push_slots(&self, alloc: Global, memory: &mut Memory) -> Result<(), AllocError>
        requires { memory.old.caches ≡ [] }
        ensures { OnOk result (FitsAll self.now memory.new) }
    {
        memory.push_slot(self.by_path.new_cache(alloc)?)?;
        memory.push_slot(self.by_component.new_cache(alloc)?)?;
        self.extensions.push_slots(alloc, memory)
    }

    /// Returns whether an automaton has to be run, and if so, marks exactly the indexes of the globs that match the path. If not,
    /// no glob matches, and the marks stay as they are.
    ///
    /// The marks get room for each index, and the memory for each state of an automaton that is stepped.
    pub fn find(
        &self,
        path: &PathParts<'_>,
        memory: &mut Memory,
        marks: &mut IndexSet,
        visits: &mut Visits,
    ) -> Result<bool, AllocError>
        // The slots are those of the automata. The path consists of bytes.
        requires fits { FitsAll self.now memory.old }
        requires bytes { AllBytes path.now }

        // The memory fits all that it fitted. If the answer is true, the marks are exactly the matching indexes. If it is false,
        // there are no states to run, and no glob matches.
        ensures kept { FitsAsBefore memory.old memory.new }
        ensures found { IfOk result (λ some. some ≡ true → IsFoundSet self.now path.now marks.new) }
        ensures idle { IfOk result (λ some. some ≡ false → AreIdle self.now path.now) }

        // The marks lose no room. Memory runs out only if there are states to run, and too little room for them or in the marks.
        ensures marks { index_capacity marks.old ≤ index_capacity marks.new }
        ensures memory { states_for self.now path.now ≡ 0 → IsOk result }
        ensures room { max_states self.now ≤ memory.old.room
            → self.now.extensions.index_count ≤ index_capacity marks.old → IsOk result }

        // The number of visits never decreases, and its increase is bounded.
        ensures visits { visits.new
            ≤ visits.old + (1 + (length path.now + 1) * reads_for self.now path.now) }
        ensures counted { visits.old ≤ visits.new }
    {
        let slot = self.slot_of(path, visits);
        if self.is_idle(slot) {
            return Ok(false);
        }
        marks.clear();
        marks.reserve(self.index_count())?;
        run(Part::Path, &self.by_path, path, 0, memory, marks, visits)?;
        run(
            Part::LastComponent,
            &self.by_component,
            path,
            1,
            memory,
            marks,
            visits,
        )?;
        self.extensions.find(slot, path, memory, marks, visits)?;
        Ok(true)
    }

    /// Returns whether some glob matches the path.
    ///
    /// The memory gets room for each state of an automaton that is stepped.
    pub fn is_match(
        &self,
        path: &PathParts<'_>,
        memory: &mut Memory,
        visits: &mut Visits,
    ) -> Result<bool, AllocError>
        // The slots are those of the automata. The path consists of bytes.
        requires fits { FitsAll self.now memory.old }
        requires bytes { AllBytes path.now }

        // The memory fits all that it fitted. The answer tells whether some glob matches the path.
        ensures kept { FitsAsBefore memory.old memory.new }
        ensures some { IfOk result
            (λ yes. (t : TokenLists) → AreForLists self.now t
            → IsTrue yes ↔ ((k : ℕ) × AreFound self.now.extensions.slots t path.now k)) }

        // Memory runs out only if there are states to run and too little room for them.
        ensures memory { states_for self.now path.now ≡ 0 → IsOk result }
        ensures room { max_states self.now ≤ memory.old.room → IsOk result }

        // The number of visits never decreases, and its increase is bounded.
        ensures visits { visits.new
            ≤ visits.old + (1 + (length path.now + 1) * reads_for self.now path.now) }
        ensures counted { visits.old ≤ visits.new }
    {
        if matches_part(Part::Path, &self.by_path, path, 0, memory, visits)? {
            return Ok(true);
        }
        if matches_part(
            Part::LastComponent,
            &self.by_component,
            path,
            1,
            memory,
            visits,
        )? {
            return Ok(true);
        }
        let slot = self.slot_of(path, visits);
        self.extensions.is_match(slot, path, memory, visits)
    }

    /// Returns the slot of the extension of the path's last component, if it has one. The extension is only searched for if some
    /// extension has an automaton.
    fn slot_of(&self, path: &PathParts<'_>, visits: &mut Visits) -> Option<usize>
        ensures slot { result ≡ slot_of self.now.extensions.slots (component_extension path.now) }
        ensures held { (s : ℕ) → result ≡ Some s → s < length self.now.extensions.nfas }
        ensures visits { visits.new ≤ visits.old + 1 }
        ensures counted { visits.old ≤ visits.new }
    {
        if self.extensions.is_empty() {
            return None;
        }
        self.extensions.slot_of(path.extension(), visits)
    }

    /// Returns whether the last component of a path is looked up.
    pub fn uses_last_component(&self) -> bool {
        self.by_component.state_count() != 0
    }

    /// Returns whether the extension of a path is looked up.
    pub fn uses_extension(&self) -> bool {
        !self.extensions.is_empty()
    }

    /// Returns whether there are no states, in the automaton of a slot either.
    fn is_idle(&self, slot: Option<usize>) -> bool
        requires { (s : ℕ) → slot ≡ Some s → s < length self.now.extensions.nfas }
        ensures { IsTrue result
            ↔ (size self.now.by_path
            + (size self.now.by_component + size (nfa_at self.now.extensions.nfas slot)) ≡ 0) }
    {
        self.by_path.state_count() == 0
            && self.by_component.state_count() == 0
            && self.extensions.state_count(slot) == 0
    }

    /// Returns whether tokens match the part that they are run on of some path below a directory.
    ///
    /// A path below the directory may have any last component, so no automaton is run for that. It may have any extension, so
    /// the automata of all extensions are run over the directory. Each is run by the rows of its cache if there is any.
    pub fn can_match_below(
        &self,
        folder: &[u8],
        memory: &mut Memory,
        visits: &mut Visits,
    ) -> Result<bool, AllocError>
        // The slots are those of the automata, and the memory fits all that it fitted. The answer is right.
        requires { FitsAll self.now memory.old }
        ensures kept { FitsAsBefore memory.old memory.new }
        ensures some { IfOk result
            (λ yes. (t : TokenLists) → AreForLists self.now t
            → IsTrue yes ↔ AreFoundBelow self.now.extensions t folder.now) }

        // Memory runs out only if there are states to run and too little room for them.
        ensures memory { folder_reads self.now ≡ 0 → IsOk result }
        ensures room { max_states self.now ≤ memory.old.room → IsOk result }

        // The number of visits never decreases, and its increase is bounded.
        ensures visits { visits.new ≤ visits.old + (length folder.now + 2) * folder_reads self.now }
        ensures counted { visits.old ≤ visits.new }
    {
        if self.has_component {
            return Ok(true);
        }
        if self
            .by_path
            .can_match_after(folder, b'/', 0, memory, visits)?
        {
            return Ok(true);
        }
        self.extensions
            .can_match_after(folder, b'/', memory, visits)
    }
}

/// Makes [`Automata`].
#[derive(Drop)]
pub struct AutomataBuilder {
    by_path: Builder,
    by_component: Builder,
    extensions: ExtensionMatchersBuilder,
}

impl Model for AutomataBuilder {
    ghost use Rattle.set_matcher.specs.inner.Automata.{AutomataParts, HaveOneCount};

    ghost Value = { AutomataParts };

    ghost view = { λ b. record {
      by_path = b.by_path;
      by_component = b.by_component;
      extensions = b.extensions;
    } };

    ghost invariant = { λ b. HaveOneCount b.by_path b.by_component b.extensions };
}

/// The automaton that tokens are added to, by what it is run on: the whole path, its last component, or the path before its
/// extension if that is the given one.
#[derive(Drop)]
pub enum Target {
    Path,
    LastComponent,
    Extension(Vec<u8>),
}

impl AutomataBuilder {
    /// Returns a builder that nothing was added to. Indexes have to be below `index_count`. It allocates nothing.
    pub fn new(alloc: Global, index_count: usize) -> AutomataBuilder
        ensures { result ≡ no_automata index_count }
    {
        AutomataBuilder {
            by_path: new_builder(alloc, index_count),
            by_component: new_builder(alloc, index_count),
            extensions: ExtensionMatchersBuilder::new(alloc, index_count),
        }
    }

    /// Adds tokens to an automaton. It takes time and memory linear in the tokens.
    pub fn add(
        &mut self,
        alloc: Global,
        target: Target,
        options: Options,
        tokens: &[Token],
        index: usize,
    ) -> Result<(), AllocError>
        requires nested { IsNested (flats tokens.now) }
        requires index { index < self.old.extensions.index_count }
        ensures added { OnOk result
            (AddsTo target self.old self.new (indexed options (tokens_of tokens.now) index)) }
        ensures count { self.new.extensions.index_count ≡ self.old.extensions.index_count }
    {
        match target {
            Target::Path => add_tokens(alloc, &mut self.by_path, options, tokens, index),
            Target::LastComponent => {
                add_tokens(alloc, &mut self.by_component, options, tokens, index)
            }
            Target::Extension(key) => self
                .extensions
                .add_tokens(alloc, key, options, tokens, index),
        }
    }

    /// Returns the automata of the tokens that were added. The rows that they keep take at most `dfa_size_limit` bytes.
    pub fn finish(self, alloc: Global, dfa_size_limit: usize) -> Result<Automata, AllocError>
        ensures { IfOk result (λ automata. automata ≡ self) }
    {
        let AutomataBuilder {
            by_path,
            by_component,
            extensions,
        } = self;
        let by_path = by_path.finish();
        let by_component = by_component.finish();
        let has_component = has_text(alloc, &by_component)?;
        let states = by_path
            .state_count()
            .saturating_add(by_component.state_count())
            .saturating_add(extensions.state_count());
        // All together they have the limit, and the automata that every path is read by have at least a 66th of it each.
        let states = states.saturating_add(states / 32);
        let for_path = states.min(by_path.state_count().saturating_mul(66));
        let for_component = states.min(by_component.state_count().saturating_mul(66));
        let by_path = Compiled::new(alloc, dfa_size_limit, by_path, for_path)?;
        let by_component = Compiled::new(alloc, dfa_size_limit, by_component, for_component)?;
        let extensions = extensions.finish(alloc, dfa_size_limit, states)?;
        let max_states = by_path
            .state_count()
            .max(by_component.state_count())
            .max(extensions.max_states());
        Ok(Automata {
            by_path,
            by_component,
            extensions,
            max_states,
            has_component,
        })
    }
}

/// Returns whether some text leads to an end of an automaton.
///
/// It reads each state, and takes two bits of memory for each of them until it returns.
pub fn has_text(alloc: Global, automaton: &Nfa) -> Result<bool, AllocError>
    ensures { IfOk result (λ yes. IsTrue yes ↔ MatchesAfter automaton.now []) }
{
    let mut starts = StateSet::new(alloc, automaton.state_count())?;
    let mut live = StateSet::new(alloc, automaton.state_count())?;
    automaton.start(&mut starts);
    automaton.live(&mut live);
    Ok(automaton.has_live(&starts, &live, &mut Visits::new()))
}
