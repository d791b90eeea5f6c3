//! The globs of a set, grouped by what decides each of them.

ghost use Rattle.std.specs.Prelude.{◌≡◌, ◌<◌, ◌≤◌, ◌*◌, ◌++◌, ◌∷◌, [], All, IfOk, Ok, OnOk, OnErr, length, string_bytes, ◌≢◌, ◌+◌, ◌↔◌, IsOk, IsTrue, vec_capacity};
ghost use Rattle.std.specs.Arc.{arc_value};
ghost use Rattle.std.specs.Str.{chars};
ghost use Rattle.glob_syntax.specs.FlatTokens.{IsNested};
ghost use Rattle.glob_syntax.specs.Reading.{reading};
ghost use Rattle.glob_syntax.specs.StatesPerByte.{states_per_byte};
ghost use Rattle.glob_syntax.specs.Views.{flats, tokens_of};
ghost use Rattle.glob_syntax.specs.inner.Weight.{weight};
ghost use Rattle.glob_text.specs.GlobMatches.{IsRead, glob_value};
ghost use Rattle.set_matcher.specs.SetValue.{set_globs, set_states};
ghost use Rattle.set_matcher.specs.inner.Memory.{FitsAll};
ghost use Rattle.set_matcher.specs.inner.Automata.{automata_or_none};
ghost use Rattle.set_matcher.specs.inner.SetMatcher.{AddsGlob, set_matcher_parts};
ghost use Rattle.set_matcher.specs.inner.TokenGlobs.{token_glob};
ghost use Rattle.bit_sets.specs.Indexes.{index_capacity};
ghost use Rattle.bit_sets.specs.Texts.{AllBytes};
ghost use Rattle.engine.specs.Memory.{FitsAsBefore};
ghost use Rattle.set_matcher.specs.Answer.{matching_indexes};
ghost use Rattle.set_matcher.specs.Below.{MatchesBelow};
ghost use Rattle.set_matcher.specs.Indexes.{ContainsAllBelow};
ghost use Rattle.set_matcher.specs.Work.{load, load_below, max_set_visits, max_set_visits_below};

use crate::automata::{Automata, AutomataBuilder, Target};
use crate::literal_index::{LiteralIndex, LiteralIndexBuilder};
use bit_sets::{IndexSet, Visits};
use engine::Memory;
use glob_path::{Candidate, PathParts};
use glob_strategy::{MatchStrategy, strategy_of, tokens_after_prefix, tokens_before_ending};
use glob_syntax::{Options, Token};
use glob_text::GivenGlobs;
use std::alloc::{AllocError, Global};
use std::marker::Model;
use std::sync::Arc;

/// The stored form of a set: its globs, grouped by how each is decided. The index of a glob is its position. The texts and tokens
/// of the globs are not stored; contracts see them.
///
/// Contracts see the set, and the automata, so that it can be said which memory fits them.
#[derive(Drop)]
pub struct SetMatcher {
    alloc: Global,
    globs: GivenGlobs,
    /// The number of globs. Each index is below it.
    pub(crate) len: usize,
    pub(crate) keys: LiteralIndex,
    /// Automata for the globs that no key decides, if there are such globs. They are in a box, so that a set without them is small.
    pub(crate) automata: Option<Box<Automata>>,
}

impl Model for SetMatcher {
    ghost use Rattle.set_matcher.specs.SetMatcherValue.{SetMatcherValue, set_matcher_value};
    ghost use Rattle.set_matcher.specs.inner.Automata.{automata_or_none};
    ghost use Rattle.set_matcher.specs.inner.SetMatcher.{KeepsMatcherOf};

    ghost Value = { SetMatcherValue };

    ghost view = { λ g. set_matcher_value g.globs (automata_or_none g.len g.automata) };

    ghost invariant = { λ g. KeepsMatcherOf g.globs g.len g.len g.keys g.automata };
}

impl SetMatcher {
    /// Returns the number of globs, excluded globs included. Each of them was read.
    pub fn len(&self) -> usize
        ensures count { result ≡ length (set_globs self.now.set) }
        ensures read { All IsRead (set_globs self.now.set) }
    {
        self.len
    }

    /// Returns the number of states of the largest automaton.
    pub fn max_states(&self) -> usize
        ensures { result ≡ set_states self.now.set }
    {
        match &self.automata {
            Some(automata) => automata.max_states(),
            None => 0,
        }
    }

    /// Returns how many bytes the caches take that automata keep between calls. It takes time linear in the number of these.
    pub fn kept_bytes(&self) -> usize {
        match &self.automata {
            Some(automata) => automata.kept_bytes(),
            None => 0,
        }
    }

    /// Keeps a cache in each automaton that has none and may use a cache, as far as there is memory for it.
    pub fn keep_caches(&self) {
        if let Some(automata) = &self.automata {
            automata.keep_caches();
        }
    }

    /// Returns a memory without room and slots, to match with. It allocates nothing.
    pub fn empty_memory(&self) -> Memory
        ensures { FitsAll self.now.automata result }
    {
        Memory::new(self.alloc)
    }

    /// Returns marks without room, to find globs with. It allocates nothing.
    pub fn new_marks(&self) -> IndexSet {
        IndexSet::empty(self.alloc)
    }

    /// Returns all memory that calls of this matcher need, for indexes apart: room for the states of each automaton, and a cache
    /// with no rows for each that may have rows.
    pub fn new_memory(&self, alloc: Global) -> Result<Memory, AllocError>
        ensures fits { IfOk result (λ memory. FitsAll self.now.automata memory) }
        ensures room { IfOk result (λ memory. set_states self.now.set ≤ memory.room) }
    {
        let mut memory = Memory::new(alloc);
        if let Some(automata) = &self.automata {
            automata.push_slots(alloc, &mut memory)?;
        }
        memory.reserve(self.max_states())?;
        Ok(memory)
    }

    /// Replaces the vector's items by the indexes, ascending, of the globs that are not excluded and match the path.
    ///
    /// The marks get room for each index, and the memory for each state of an automaton that is stepped; the vector grows for the
    /// indexes. It allocates nothing if there is that room and the vector a capacity for all indexes. After an error the vector
    /// is empty.
    pub fn find(
        &self,
        path: &Candidate<'_>,
        memory: &mut Memory,
        marks: &mut IndexSet,
        into: &mut Vec<usize>,
        visits: &mut Visits,
    ) -> Result<(), AllocError>
        // The memory is for the automata, and fits all that it fitted.
        requires { FitsAll self.now.automata memory.old }
        ensures kept { FitsAsBefore memory.old memory.new }

        // After success the vector has the matching indexes, and after an error it is empty.
        ensures ok { OnOk result
            (into.new.items ≡ matching_indexes (set_globs self.now.set) path.now) }
        ensures cleared { OnErr result (into.new.items ≡ []) }

        // The marks lose no room, and the vector's capacity does not shrink. Memory runs out only if there is too little room for
        // the largest automaton, or in the marks or the capacity for the globs.
        ensures marks { index_capacity marks.old ≤ index_capacity marks.new }
        ensures room { set_states self.now.set ≤ memory.old.room
            → length (set_globs self.now.set) ≤ index_capacity marks.old
            → length (set_globs self.now.set) ≤ vec_capacity into.old → IsOk result }
        ensures capacity { vec_capacity into.old ≤ vec_capacity into.new }

        // The number of visits never decreases, and its increase is bounded.
        ensures visits { visits.new
            ≤ visits.old + max_set_visits (set_globs self.now.set) path.now }
        ensures counted { visits.old ≤ visits.new }
    {
        into.clear();
        let parts = self.parts_of(path.path());
        let are_run = match &self.automata {
            Some(automata) => automata.find(&parts, memory, marks, visits)?,
            None => false,
        };
        if !are_run {
            if self.keys.is_empty() {
                return Ok(());
            }
            marks.clear();
            marks.reserve(self.len)?;
        }
        self.keys.find(&parts, marks, visits);
        if let Err(error) = marks.push_below(self.len(), into) {
            into.clear();
            return Err(error);
        }
        Ok(())
    }

    /// Returns whether some glob that is not excluded matches the path.
    ///
    /// The memory gets room for each state of an automaton that is stepped. It allocates nothing if there is that room, or if no glob
    /// needs an automaton for the path.
    pub fn is_match(
        &self,
        path: &Candidate<'_>,
        memory: &mut Memory,
        visits: &mut Visits,
    ) -> Result<bool, AllocError>
        // The memory is for the automata, and fits all that it fitted. The answer is right.
        requires { FitsAll self.now.automata memory.old }
        ensures kept { FitsAsBefore memory.old memory.new }
        ensures some { IfOk result
            (λ yes. IsTrue yes ↔ (matching_indexes (set_globs self.now.set) path.now ≢ [])) }

        // Memory runs out only if some glob needs an automaton for the path and there is too little room for it.
        ensures room { set_states self.now.set ≤ memory.old.room → IsOk result }
        ensures memory { load (set_globs self.now.set) path.now ≡ 0 → IsOk result }

        // The number of visits never decreases, and its increase is bounded.
        ensures visits { visits.new
            ≤ visits.old + max_set_visits (set_globs self.now.set) path.now }
        ensures counted { visits.old ≤ visits.new }
    {
        let parts = self.parts_of(path.path());
        if self.keys.is_match(&parts, visits) {
            return Ok(true);
        }
        match &self.automata {
            Some(automata) => automata.is_match(&parts, memory, visits),
            None => Ok(false),
        }
    }

    /// Returns whether every glob matches the path and none is excluded.
    ///
    /// If an automaton has to be run, the marks get room for each index, and the memory for each state of an automaton that is
    /// stepped. It allocates nothing if there is that room, or if no glob needs an automaton for the path.
    pub fn matches_all(
        &self,
        path: &Candidate<'_>,
        memory: &mut Memory,
        marks: &mut IndexSet,
        visits: &mut Visits,
    ) -> Result<bool, AllocError>
        // The memory is for the automata, and fits all that it fitted. The answer is right.
        requires { FitsAll self.now.automata memory.old }
        ensures kept { FitsAsBefore memory.old memory.new }
        ensures all { IfOk result
            (λ yes. IsTrue yes
            ↔ ContainsAllBelow (matching_indexes (set_globs self.now.set) path.now)
            (length (set_globs self.now.set))) }

        // The marks lose no room. Memory runs out only if some glob needs an automaton for the path, and there is too little room
        // for the largest automaton or in the marks for the globs.
        ensures marks { index_capacity marks.old ≤ index_capacity marks.new }
        ensures room { set_states self.now.set ≤ memory.old.room
            → length (set_globs self.now.set) ≤ index_capacity marks.old → IsOk result }
        ensures memory { load (set_globs self.now.set) path.now ≡ 0 → IsOk result }

        // The number of visits never decreases, and its increase is bounded.
        ensures visits { visits.new
            ≤ visits.old + max_set_visits (set_globs self.now.set) path.now }
        ensures counted { visits.old ≤ visits.new }
    {
        let parts = self.parts_of(path.path());
        if let Some(automata) = &self.automata {
            if automata.find(&parts, memory, marks, visits)? {
                self.keys.find(&parts, marks, visits);
                return Ok(marks.has_all_below(self.len()));
            }
        }
        Ok(self.keys.count_found(&parts, visits) == Some(self.len()))
    }

    /// Returns whether some glob that is not excluded matches some path below a directory: the directory, a `/`, and any bytes,
    /// perhaps none.
    ///
    /// The memory gets room for each state of an automaton that is stepped. It allocates nothing if there is that room, or if each
    /// glob is direct.
    pub fn can_match_below(
        &self,
        folder: &[u8],
        memory: &mut Memory,
        visits: &mut Visits,
    ) -> Result<bool, AllocError>
        // The memory is for the automata, and fits all that it fitted. The answer is right.
        requires { FitsAll self.now.automata memory.old }
        ensures kept { FitsAsBefore memory.old memory.new }
        ensures some { IfOk result
            (λ yes. IsTrue yes ↔ MatchesBelow (set_globs self.now.set) folder.now) }

        // Memory runs out only if some glob is not direct and there is too little room.
        ensures room { set_states self.now.set ≤ memory.old.room → IsOk result }
        ensures memory { load_below (set_globs self.now.set) ≡ 0 → IsOk result }

        // The number of visits never decreases, and its increase is bounded.
        ensures visits { visits.new
            ≤ visits.old + max_set_visits_below (set_globs self.now.set) folder.now }
        ensures counted { visits.old ≤ visits.new }
    {
        if self.keys.can_match_below(folder, visits) {
            return Ok(true);
        }
        match &self.automata {
            Some(automata) => { automata.can_match_below(folder, memory, visits) }
            None => Ok(false),
        }
    }

    /// Returns a path with the parts that keys and automata ask for, so that each is searched for once.
    #[inline(always)]
    fn parts_of<'p>(&self, path: &'p [u8]) -> PathParts<'p>
        ensures path { result ≡ path.now }
        ensures bytes { AllBytes result }
    {
        let (component, extension) = match &self.automata {
            Some(automata) => (automata.uses_last_component(), automata.uses_extension()),
            None => (false, false),
        };
        let mut parts = PathParts::new(path);
        if component || self.keys.uses_last_component() {
            parts.find_last_component();
        }
        if extension || self.keys.uses_extension() {
            parts.find_extension();
        }
        parts
    }
}

/// Makes [`SetMatcher`], glob by glob. A glob is not needed any more once it is added.
#[derive(Drop)]
pub struct SetMatcherBuilder {
    alloc: Global,
    globs: GivenGlobs,
    /// The number of globs that it is for.
    count: usize,
    /// The number of globs that were added.
    len: usize,
    keys: LiteralIndexBuilder,
    /// It is made for the first glob that needs an automaton, so that little is moved for a set without automata.
    automata: Option<Box<AutomataBuilder>>,
}

impl Model for SetMatcherBuilder {
    ghost use Rattle.set_matcher.specs.SetMatcherValue.{AddedGlobs};
    ghost use Rattle.set_matcher.specs.inner.SetMatcher.{KeepsMatcherOf};

    ghost Value = { AddedGlobs };

    ghost view = { λ g. record {
      given = g.globs;
      count = g.count;
    } };

    ghost invariant = { λ g. KeepsMatcherOf g.globs g.len g.count g.keys g.automata };
}

impl SetMatcherBuilder {
    /// Returns a builder without globs, for `count` globs. It allocates nothing.
    pub fn new(alloc: Global, count: usize) -> SetMatcherBuilder
        ensures none { result.given ≡ [] }
        ensures count { result.count ≡ count }
    {
        SetMatcherBuilder {
            alloc,
            globs: GivenGlobs::new(),
            count,
            len: 0,
            keys: LiteralIndexBuilder::new(alloc),
            automata: None,
        }
    }

    /// Adds a glob after those that were added: its text, its options, and the tokens that the text was read as. Its index is the
    /// number of globs before it.
    ///
    /// It takes time and memory linear in the tokens. After an error the builder has no globs, and as many may be added as at
    /// first.
    pub fn add(
        &mut self,
        text: &String,
        options: Options,
        tokens: &[Token],
    ) -> Result<(), AllocError>
        // Another glob may be added. The tokens are those that its text is read as: they are nested, and the text bounds their
        // weight.
        requires room { length self.old.given < self.old.count }
        requires read { reading options (chars (string_bytes text.now))
            ≡ Ok (tokens_of tokens.now) }
        requires nested { IsNested (flats tokens.now) }
        requires weight { weight options (tokens_of tokens.now)
            ≤ states_per_byte options * length (string_bytes text.now) }

        // After success the builder has this glob in addition, and after an error it has no globs. The number of globs that it is
        // for stays.
        ensures glob { OnOk result
            (self.new.given ≡ self.old.given ++ glob_value (string_bytes text.now) options ∷ []) }
        ensures none { OnErr result (self.new.given ≡ []) }
        ensures count { self.new.count ≡ self.old.count }
    {
        let index = self.len;
        let added = put(
            self.alloc,
            &mut self.keys,
            &mut self.automata,
            self.count,
            options,
            tokens,
            index,
        );
        if let Err(error) = added {
            // A part of the glob may be there, so everything is made anew.
            self.globs = GivenGlobs::new();
            self.len = 0;
            self.keys = LiteralIndexBuilder::new(self.alloc);
            self.automata = None;
            return Err(error);
        }
        self.globs = self.globs.copy().and(text, options);
        self.len = index + 1;
        Ok(())
    }

    /// Returns the matcher of the globs that were added, which sets and searchers share. The rows that it keeps take at most
    /// `dfa_size_limit` bytes.
    pub fn finish(self, dfa_size_limit: usize) -> Result<Arc<SetMatcher>, AllocError>
        requires { length self.given ≡ self.count }
        ensures { IfOk result (λ matcher. set_globs (arc_value matcher).set ≡ self.given) }
    {
        let SetMatcherBuilder {
            alloc,
            globs,
            count: _,
            len,
            keys,
            automata,
        } = self;
        let automata = match automata {
            Some(automata) => {
                let automata = Box::into_inner(automata).finish(alloc, dfa_size_limit)?;
                Some(Box::new(alloc, automata)?)
            }
            None => None,
        };
        let matcher = SetMatcher {
            alloc,
            globs,
            len,
            keys: keys.finish(alloc)?,
            automata,
        };
        Ok(Arc::new(alloc, matcher)?)
    }
}

/// Puts the tokens of a glob where its strategy says. Returns an error if memory runs out, and what was there may be gone then.
fn put(
    alloc: Global,
    keys: &mut LiteralIndexBuilder,
    automata: &mut Option<Box<AutomataBuilder>>,
    count: usize,
    options: Options,
    tokens: &[Token],
    index: usize,
) -> Result<(), AllocError>
    requires nested { IsNested (flats tokens.now) }
    requires index { index < count }
    requires count { (automata_or_none count automata.old).extensions.index_count ≡ count }
    ensures matcher { OnOk result (AddsGlob (token_glob options (tokens_of tokens.now)) index
        (set_matcher_parts keys.old (automata_or_none count automata.old))
        (set_matcher_parts keys.new (automata_or_none count automata.new))) }
    ensures count { OnOk result
        ((automata_or_none count automata.new).extensions.index_count ≡ count) }
{
    let (target, rest) = match strategy_of(alloc, options, tokens)? {
        MatchStrategy::Excluded => return Ok(()),
        MatchStrategy::Key(key) => return keys.add(key, index),
        MatchStrategy::RequiredExtension(extension) => {
            (Target::Extension(extension), tokens_before_ending(tokens))
        }
        MatchStrategy::BasenameRegex => (Target::LastComponent, tokens_after_prefix(tokens)),
        MatchStrategy::Regex => (Target::Path, tokens),
    };
    let mut builder = match automata.take() {
        Some(builder) => builder,
        None => Box::new(alloc, AutomataBuilder::new(alloc, count))?,
    };
    builder.add(alloc, target, options, rest, index)?;
    *automata = Some(builder);
    Ok(())
}
