//! Automata for globs that match only paths whose last component has a given extension.

ghost use Rattle.std.specs.Prelude.{◌≡◌, ◌+◌, ◌*◌, ◌^◌, ◌<◌, ◌≤◌, ◌↔◌, ◌++◌, ◌∷◌, [], ℕ, List, length, IsTrue, IsOk, OnOk, IfOk, None, Some, OnErr};
ghost use Rattle.bit_sets.specs.Indexes.{index_capacity};
ghost use Rattle.byte_nfa.specs.Runs.{size, max_reads};
ghost use Rattle.byte_nfa.specs.Steps.{IsReached};
ghost use Rattle.engine.specs.Matching.{AddsReached};
ghost use Rattle.engine.specs.Memory.{FitsAsBefore};
ghost use Rattle.glob_strategy.specs.IndexedTokens.{IndexedTokens, indexed};
ghost use Rattle.glob_syntax.specs.FlatTokens.{IsNested};
ghost use Rattle.glob_syntax.specs.Views.{flats, tokens_of};
ghost use Rattle.glob_syntax.specs.inner.Weight.{weight};
ghost use Rattle.set_matcher.specs.inner.Automata.{AddsReads, AddsTokensTo, AreFor, KeepsTokens, AutomataParts, SomeLeadsAfter, before_extension, nfa_at, nfa_under, max_size, slot_of, total_reads};
ghost use Rattle.set_matcher.specs.inner.Memory.{FitsAll, FitsExtensions};
ghost use Rattle.glob_path.specs.Entries.{entry};
ghost use Rattle.set_matcher.specs.inner.ExtensionSlots.{HasSlots};

use crate::path_part::before_extension;
use bit_sets::{IndexSet, Visits};
use byte_nfa::Builder;
use engine::{Compiled, Memory};
use glob_path::{PathParts, Table, TableBuilder};
use glob_strategy::{add_tokens, new_builder};
use glob_syntax::{Options, Token};
use std::alloc::{AllocError, Global};
use std::collections::BTreeMap;
use std::marker::Model;

/// An automaton for each extension that some glob requires. The slot of an extension is the position of its automaton.
#[derive(Drop)]
pub struct ExtensionMatchers {
    slots: Table,
    automata: Vec<Compiled>,
    index_count: usize,
}

impl Model for ExtensionMatchers {
    ghost use Rattle.set_matcher.specs.inner.Automata.{ExtensionParts, AreExtensionMatchers};

    ghost Value = { ExtensionParts };

    ghost view = { λ e. record {
      slots = e.slots;
      nfas = e.automata.items;
      index_count = e.index_count;
    } };

    ghost invariant = { λ e. AreExtensionMatchers e.slots e.automata.items e.index_count };
}

impl ExtensionMatchers {
    /// Returns the number that each index is below.
    pub fn index_count(&self) -> usize
        ensures { result ≡ self.now.index_count }
    {
        self.index_count
    }

    /// Returns the number of states of the largest automaton. It takes time linear in the number of automata.
    pub fn max_states(&self) -> usize
        ensures { result ≡ max_size self.now.nfas }
    {
        let mut maximum = 0;
        for automaton in &self.automata {
            maximum = automaton.state_count().max(maximum);
        }
        maximum
    }

    /// Returns how many bytes the caches take that the automata keep. It takes time linear in the number of automata.
    pub fn kept_bytes(&self) -> usize {
        let mut bytes: usize = 0;
        for automaton in &self.automata {
            bytes = bytes.saturating_add(automaton.kept_bytes());
        }
        bytes
    }

    /// Keeps a cache in each automaton, as [`Compiled::keep_cache`] does.
    pub fn keep_caches(&self) {
        for automaton in &self.automata {
            automaton.keep_cache();
        }
    }

    /// Returns whether no extension has an automaton.
    pub fn is_empty(&self) -> bool
        ensures { IsTrue result ↔ (self.now.slots ≡ []) }
    {
        self.slots.is_empty()
    }

    /// Returns the slot of an extension, if there is any. It is a visit.
    pub fn slot_of(&self, extension: &[u8], visits: &mut Visits) -> Option<usize>
        ensures slot { result ≡ slot_of self.now.slots extension.now }
        ensures held { (s : ℕ) → result ≡ Some s → s < length self.now.nfas }
        ensures visits { visits.new ≡ visits.old + 1 }
    {
        match self.slots.get(extension, visits) {
            [slot, ..] => Some(*slot),
            [] => None,
        }
    }

    /// Returns the automaton of a slot.
    fn automaton_at(&self, slot: usize) -> &Compiled
        requires { slot < length self.now.nfas }
        ensures automaton { result.now ≡ nfa_at self.now.nfas (Some slot) }

        // The automaton has no more states than the largest one, and its indexes are below the same number as those of all.
        ensures maximum { size result.now ≤ max_size self.now.nfas }
        ensures count { result.now.index_count ≡ self.now.index_count }

        // So few automata are there that each has a slot in a memory, where two others come first.
        ensures few { slot + 2 < 2 ^ 64 }
    {
        &self.automata[slot]
    }

    /// Returns the number of states of the automaton of a slot, or 0 if there is no slot.
    pub fn state_count(&self, slot: Option<usize>) -> usize
        // The slot, if there is any, is the position of an automaton.
        requires { (s : ℕ) → slot ≡ Some s → s < length self.now.nfas }
        ensures { result ≡ size (nfa_at self.now.nfas slot) }
    {
        match slot {
            Some(slot) => self.automaton_at(slot).state_count(),
            None => 0,
        }
    }

    /// Gives a memory with two slots those of the automata, if any of these may have rows: each that may gets a cache for them.
    pub fn push_slots(&self, alloc: Global, memory: &mut Memory) -> Result<(), AllocError>
        requires { length memory.old.caches ≡ 2 }
        ensures { OnOk result
            ((a : AutomataParts) → a.extensions.nfas ≡ self.now.nfas
            → FitsAll a memory.old → FitsAll a memory.new) }
    {
        if !self.have_rows() {
            return Ok(());
        }
        for automaton in &self.automata {
            memory.push_slot(automaton.new_cache(alloc)?)?;
        }
        Ok(())
    }

    /// Returns whether runs of some automaton need a cache.
    fn have_rows(&self) -> bool {
        for automaton in &self.automata {
            if automaton.has_rows() {
                return true;
            }
        }
        false
    }
}

impl ExtensionMatchers {
    /// Marks the indexes of the ends that the bytes before the extension of the path lead to in the automaton of a slot, beside
    /// those that are marked. Without a slot there are none.
    pub fn find(
        &self,
        slot: Option<usize>,
        path: &PathParts<'_>,
        memory: &mut Memory,
        marks: &mut IndexSet,
        visits: &mut Visits,
    ) -> Result<(), AllocError>
        // The slot, if there is any, is the position of an automaton. The marks have room for each index. The slots are those
        // of the automata.
        requires slot { (s : ℕ) → slot ≡ Some s → s < length self.now.nfas }
        requires count { self.now.index_count ≤ index_capacity marks.old }
        requires fits { FitsExtensions self.now.nfas memory.old }

        // The memory fits all that it fitted, and the marks have the same room. After success the marks have these indexes in
        // addition.
        ensures kept { FitsAsBefore memory.old memory.new }
        ensures room { index_capacity marks.new ≡ index_capacity marks.old }
        ensures found { OnOk result
            (AddsReached (nfa_at self.now.nfas slot) (before_extension path.now) marks.old marks.new) }

        // Memory runs out only if there is too little room for the largest automaton.
        ensures memory { max_size self.now.nfas ≤ memory.old.room → IsOk result }

        // The number of visits never decreases, and its increase is bounded.
        ensures visits { visits.new
            ≤ visits.old + (length path.now + 1) * max_reads (nfa_at self.now.nfas slot) }
        ensures counted { visits.old ≤ visits.new }
    {
        let Some(slot) = slot else {
            return Ok(());
        };
        let automaton = self.automaton_at(slot);
        let text = before_extension(path);
        automaton.find(text, slot + 2, memory, marks, visits)
    }

    /// Returns whether the bytes before the extension of the path lead to some end of the automaton of a slot. Without a slot
    /// there is none.
    pub fn is_match(
        &self,
        slot: Option<usize>,
        path: &PathParts<'_>,
        memory: &mut Memory,
        visits: &mut Visits,
    ) -> Result<bool, AllocError>
        // The slot, if there is any, is the position of an automaton. The slots are those of the automata.
        requires slot { (s : ℕ) → slot ≡ Some s → s < length self.now.nfas }
        requires fits { FitsExtensions self.now.nfas memory.old }

        // The memory fits all that it fitted. The answer is right.
        ensures kept { FitsAsBefore memory.old memory.new }
        ensures some { IfOk result
            (λ yes. IsTrue yes
            ↔ ((k : ℕ) × IsReached (nfa_at self.now.nfas slot) (before_extension path.now) k)) }

        // Memory runs out only if there is too little room for the states of the slot.
        ensures memory { size (nfa_at self.now.nfas slot) ≤ memory.old.room → IsOk result }
        ensures room { max_size self.now.nfas ≤ memory.old.room → IsOk result }

        // The number of visits never decreases, and its increase is bounded.
        ensures visits { visits.new
            ≤ visits.old + (length path.now + 1) * max_reads (nfa_at self.now.nfas slot) }
        ensures counted { visits.old ≤ visits.new }
    {
        let Some(slot) = slot else {
            return Ok(false);
        };
        let automaton = self.automaton_at(slot);
        let text = before_extension(path);
        automaton.is_match(text, slot + 2, memory, visits)
    }

    /// Returns whether some text that begins with `text` and then `byte` leads to some end of the automaton of some extension.
    ///
    /// It is at most `(text bytes + 2) * (states + 3 * starts)` visits of each automaton. The runs use the memory in turn.
    pub fn can_match_after(
        &self,
        text: &[u8],
        byte: u8,
        memory: &mut Memory,
        visits: &mut Visits,
    ) -> Result<bool, AllocError>
        // The slots are those of the automata, and the memory fits all that it fitted. The answer is right.
        requires { FitsExtensions self.now.nfas memory.old }
        ensures kept { FitsAsBefore memory.old memory.new }
        ensures some { IfOk result
            (λ yes. IsTrue yes ↔ SomeLeadsAfter self.now.nfas (text.now ++ byte ∷ [])) }

        // Memory runs out only if there is too little room for the largest automaton.
        ensures room { max_size self.now.nfas ≤ memory.old.room → IsOk result }

        // The number of visits never decreases, and its increase is bounded.
        ensures visits { visits.new
            ≤ visits.old + (length text.now + 2) * total_reads self.now.nfas }
        ensures counted { visits.old ≤ visits.new }
    {
        for (slot, automaton) in self.automata.iter().enumerate() {
            if automaton.can_match_after(text, byte, slot + 2, memory, visits)? {
                return Ok(true);
            }
        }
        Ok(false)
    }
}

/// Makes [`ExtensionMatchers`].
#[derive(Drop)]
pub struct ExtensionMatchersBuilder {
    slots: ExtensionSlots,
    builders: Vec<Builder>,
    index_count: usize,
}

impl Model for ExtensionMatchersBuilder {
    ghost use Rattle.set_matcher.specs.inner.Automata.{ExtensionParts, AreExtensionMatchers};

    ghost Value = { ExtensionParts };

    ghost view = { λ e. record {
      slots = e.slots;
      nfas = e.builders.items;
      index_count = e.index_count;
    } };

    ghost invariant = { λ e. AreExtensionMatchers e.slots e.builders.items e.index_count };
}

impl ExtensionMatchersBuilder {
    /// Returns a builder that nothing was added to. Indexes have to be below `index_count`. It allocates nothing.
    pub fn new(alloc: Global, index_count: usize) -> ExtensionMatchersBuilder
        ensures slots { result.slots ≡ [] }
        ensures nfas { result.nfas ≡ [] }
        ensures count { result.index_count ≡ index_count }
    {
        ExtensionMatchersBuilder {
            slots: ExtensionSlots::new(alloc),
            builders: Vec::new(alloc),
            index_count,
        }
    }

    /// Adds the tokens of a glob that matches only paths with a given extension. It takes time and memory linear in the tokens.
    pub fn add_tokens(
        &mut self,
        alloc: Global,
        key: Vec<u8>,
        options: Options,
        tokens: &[Token],
        index: usize,
    ) -> Result<(), AllocError>
        // The groups of the tokens are nested, and the index is in range.
        requires nested { IsNested (flats tokens.now) }
        requires index { index < self.old.index_count }

        // After success the extension has these tokens in addition. At most their reads are added to its own, and to those of all
        // extensions together. Every other extension keeps its tokens, and gets no reads. The number that each index is below
        // stays as it is.
        ensures tokens { OnOk result
            (AddsTokensTo self.old self.new key.items
            (indexed options (tokens_of tokens.now) index)) }
        ensures reads { OnOk result
            (AddsReads self.old self.new key.items (weight options (tokens_of tokens.now) + 4)) }
        ensures total { OnOk result
            (total_reads self.new.nfas
            ≤ total_reads self.old.nfas + (weight options (tokens_of tokens.now) + 4)) }
        ensures count { self.new.index_count ≡ self.old.index_count }
    {
        let slot = self.slot_of(alloc, key)?;
        add_tokens(alloc, &mut self.builders[slot], options, tokens, index)
    }

    /// Returns the slot of an extension, which is a new one if it has none.
    fn slot_of(&mut self, alloc: Global, key: Vec<u8>) -> Result<usize, AllocError>
        ensures slot { IfOk result (λ slot. slot_of self.new.slots key.items ≡ Some slot) }

        // After success each extension has the tokens that it had, and as many reads. The reads of all extensions together stay,
        // too. The number that each index is below stays as it is.
        ensures tokens { OnOk result
            ((before : ℕ → List IndexedTokens) → AreFor self.old.nfas before
            → KeepsTokens self.old before self.new) }
        ensures reads { OnOk result
            ((extension : List ℕ)
            → max_reads (nfa_under self.new extension) ≡ max_reads (nfa_under self.old extension)) }
        ensures total { OnOk result (total_reads self.new.nfas ≡ total_reads self.old.nfas) }
        ensures count { self.new.index_count ≡ self.old.index_count }
    {
        if let Some(slot) = self.slots.get(&key) {
            return Ok(slot);
        }
        let slot = self.builders.len();
        self.builders.push(new_builder(alloc, self.index_count))?;
        self.slots.insert(alloc, key, slot)?;
        Ok(slot)
    }

    /// Returns the number of states of all automata. It takes time linear in their number.
    pub fn state_count(&self) -> usize {
        let mut states: usize = 0;
        for builder in &self.builders {
            states = states.saturating_add(builder.state_count());
        }
        states
    }

    /// Returns the automata of the extensions that were added, which share the room for rows by their numbers of states.
    pub fn finish(
        self,
        alloc: Global,
        dfa_size_limit: usize,
        all_states: usize,
    ) -> Result<ExtensionMatchers, AllocError>
        ensures { IfOk result (λ matchers. matchers ≡ self) }
    {
        let ExtensionMatchersBuilder {
            slots,
            builders,
            index_count,
        } = self;
        Ok(ExtensionMatchers {
            slots: slots.build()?,
            automata: finished(alloc, dfa_size_limit, all_states, builders)?,
            index_count,
        })
    }
}

/// Returns the automata of builders, whose rows share their room. Returns an error if memory runs out.
fn finished(
    alloc: Global,
    dfa_size_limit: usize,
    all_states: usize,
    builders: Vec<Builder>,
) -> Result<Vec<Compiled>, AllocError>
    ensures { IfOk result (λ automata. automata.items ≡ builders.items) }
{
    let mut automata = Vec::with_capacity(alloc, builders.len())?;
    for builder in builders {
        let automaton = builder.finish();
        automata.push(Compiled::new(alloc, dfa_size_limit, automaton, all_states)?)?;
    }
    Ok(automata)
}

/// Extensions and their slots, in the order of their additions.
#[derive(Drop)]
pub struct ExtensionSlots {
    table: TableBuilder,
    // The same slots, for lookups before the table is built.
    by_extension: BTreeMap<Vec<u8>, usize>,
}

impl Model for ExtensionSlots {
    ghost use Rattle.std.specs.Prelude.{List};
    ghost use Rattle.glob_path.specs.Entries.{Entry};
    ghost use Rattle.set_matcher.specs.inner.ExtensionSlots.{HasSlots};

    ghost Value = { List Entry };

    ghost view = { λ s. s.table };

    ghost invariant = { λ s. HasSlots s.by_extension s.table };
}

impl ExtensionSlots {
    /// Returns no slots. It allocates nothing.
    pub fn new(alloc: Global) -> ExtensionSlots
        ensures { result ≡ [] }
    {
        ExtensionSlots {
            table: TableBuilder::new(alloc),
            by_extension: BTreeMap::new(alloc),
        }
    }

    /// Returns the slot of an extension, if there is any.
    pub fn get(&self, extension: &[u8]) -> Option<usize>
        ensures { result ≡ slot_of self.now extension.now }
    {
        self.by_extension.get(extension).copied()
    }

    /// Adds the slot of an extension that has none.
    ///
    /// After an error there are no slots.
    pub fn insert(
        &mut self,
        alloc: Global,
        extension: Vec<u8>,
        slot: usize,
    ) -> Result<(), AllocError>
        requires { slot_of self.old extension.items ≡ None }
        ensures ok { OnOk result (self.new ≡ self.old ++ entry extension.items slot ∷ []) }
        ensures err { OnErr result (self.new ≡ []) }
    {
        let inserted = insert(&mut self.table, &mut self.by_extension, extension, slot);
        if let Err(error) = inserted {
            // One of them may have the slot, so both are made anew.
            self.table = TableBuilder::new(alloc);
            self.by_extension = BTreeMap::new(alloc);
            return Err(error);
        }
        Ok(())
    }

    /// Returns the table of the slots.
    pub fn build(self) -> Result<Table, AllocError>
        ensures { IfOk result (λ table. table ≡ self) }
    {
        let ExtensionSlots {
            table,
            by_extension: _,
        } = self;
        table.build()
    }
}

/// Adds the slot of an extension to both. Returns an error if memory runs out.
fn insert(
    table: &mut TableBuilder,
    by_extension: &mut BTreeMap<Vec<u8>, usize>,
    extension: Vec<u8>,
    slot: usize,
) -> Result<(), AllocError>
    requires none { slot_of table.old extension.items ≡ None }
    requires has { HasSlots by_extension.old table.old }
    ensures table { OnOk result (table.new ≡ table.old ++ entry extension.items slot ∷ []) }
    ensures has { OnOk result (HasSlots by_extension.new table.new) }
{
    table.insert(&extension, slot)?;
    by_extension.insert(extension, slot)?;
    Ok(())
}
