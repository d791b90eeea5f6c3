//! Matchers of a glob.

ghost use Rattle.std.specs.Prelude.{◌≡◌, ◌+◌, ◌≤◌, ◌↔◌, IfOk, IsOk, IsOkUnless, IsTrue, []};
ghost use Rattle.bit_sets.specs.Texts.{AllBytes};
ghost use Rattle.engine.specs.Memory.{FitsAsBefore};
ghost use Rattle.globset_glob.specs.ScratchValue.{FitsMatcher};
ghost use Rattle.glob_text.specs.Errors.{out_of_memory};
ghost use Rattle.glob_text.specs.Cost.{cost, max_visits, max_visits_below};
ghost use Rattle.globset_glob.specs.GlobBelow.{GlobMatchesBelow};
ghost use Rattle.glob_text.specs.GlobMatches.{GlobValue, glob_matches};
ghost use Rattle.globset_glob.specs.inner.GlobNfa.{FitsStrategy, IsAutomatonOf, IsStrategyOfMatcher, form_states};

use crate::glob::{Glob, flat_tokens_of, options_of};
use crate::scratch::{NeedsScratch, Scratch};
use bit_sets::Visits;
use engine::{Compiled, DEFAULT_DFA_SIZE_LIMIT, Memory};
use glob_path::{AsPath, Candidate, Key};
use glob_strategy::{MatchStrategy, add_tokens, new_builder, strategy_of};
use glob_text::Error;
use std::alloc::{AllocError, Global};
use std::fmt;
use std::marker::Model;
use std::sync::Arc;

/// Matches a glob against paths.
///
/// Contracts see a matcher as its glob. If the glob's literals decide alone, as in `*.rs` and `src/**`, the matcher compares them
/// with the path or a part of it. Otherwise it has an automaton for the glob. Calls make rows of the automaton as paths need
/// them, in at most four caches that the matcher and its clones keep until they are dropped. [`GlobMatcher::kept_bytes`] returns
/// for how many bytes of rows they have room. A [`MatcherSearcher`] has a cache of its own.
///
/// # Errors
///
/// Calls that return a [`Result`] fail only if memory runs out. [`GlobMatcher::clone`] also fails if 2^63 matchers share the
/// glob.
///
/// ```rust
/// use globset::Glob;
///
/// let matcher = Glob::new(alloc, "docs/**")?.compile_matcher()?;
/// assert!(rt; matcher.is_match("docs/a/b.md")?);
/// assert!(rt; !matcher.is_match("docs")?);
/// assert_eq!(rt; matcher.glob().glob(), "docs/**");
/// ```
#[derive(Drop)]
pub struct GlobMatcher {
    glob: Glob,
    strategy: Strategy,
}

impl Model for GlobMatcher {
    ghost use Rattle.glob_text.specs.GlobMatches.{GlobValue};
    ghost use Rattle.globset_glob.specs.inner.GlobNfa.{IsStrategyOfMatcher};

    ghost Value = { GlobValue };

    ghost view = { λ m. m.glob };

    ghost invariant = { λ m. IsStrategyOfMatcher m.glob m.strategy };
}

impl GlobMatcher {
    ghost use Rattle.glob_text.specs.GlobMatches.{glob_matches};
    ghost use Rattle.globset_glob.specs.inner.GlobNfa.{IsStrategyOfMatcher};

    /// Returns a matcher of a glob, at the cost of [`Glob::compile_matcher_with_limit`].
    pub(crate) fn new(glob: Glob, dfa_size_limit: usize) -> Result<GlobMatcher, Error>
        ensures ok { IfOk result (λ m. m ≡ glob) }
        ensures err { IsOkUnless result out_of_memory }
    {
        let strategy = Strategy::of(&glob, dfa_size_limit)?;
        Ok(GlobMatcher { glob, strategy })
    }

    /// Returns the glob.
    pub fn glob(&self) -> &Glob
        ensures { result.now ≡ self.now }
    {
        &self.glob
    }

    /// Returns for how many bytes of rows the matcher keeps caches between calls. It is 0 in a new matcher, and where no
    /// automaton is needed, and calls raise it, at most to the limit of [`Glob::compile_matcher_with_limit`]. A cache takes less
    /// memory than that if the automaton is small, and more if the states of a row need it. Clones share the caches.
    pub fn kept_bytes(&self) -> usize {
        self.strategy.kept_bytes()
    }

    /// Returns whether the glob matches a path.
    ///
    /// For a path that is not UTF-8, or that several matchers are tried on, make a [`Candidate`].
    pub fn is_match<P: AsPath>(&self, path: P) -> Result<bool, Error>
        ensures ok { IfOk result (λ yes. yes ≡ glob_matches self.now (P.text path)) }
        ensures err { IsOkUnless result out_of_memory }
    {
        self.is_match_candidate(&Candidate::new(path.path_text()))
    }

    /// Returns whether the glob matches a candidate's path.
    ///
    /// ```rust
    /// use globset::{Candidate, Glob};
    ///
    /// let matcher = Glob::new(alloc, "*.c")?.compile_matcher()?;
    /// assert!(rt; matcher.is_match_candidate(&Candidate::from_bytes(b"\xff.c"))?);
    /// ```
    pub fn is_match_candidate(&self, path: &Candidate<'_>) -> Result<bool, Error>
        ensures ok { IfOk result (λ yes. yes ≡ glob_matches self.now path.now) }
        ensures err { IsOkUnless result out_of_memory }
    {
        let mut visits = Visits::new();
        self.is_match_visits(path, &mut visits)
    }

    /// Does what [`is_match_candidate`](GlobMatcher::is_match_candidate) does, and adds its visits to `visits`.
    ///
    /// These are at most `(path bytes + 1) * (4 * glob bytes + 4)` visits, also after an error; under `whole_character` the
    /// second factor is `16 * glob bytes + 4`. The call allocates nothing if the matcher compares literals. Otherwise it may make
    /// a cache of rows, and where it has none it allocates two bits for each state of the automaton.
    pub fn is_match_visits(&self, path: &Candidate<'_>, visits: &mut Visits) -> Result<bool, Error>
        ensures ok { IfOk result (λ yes. yes ≡ glob_matches self.now path.now) }
        ensures err { IsOkUnless result out_of_memory }
        ensures visits { visits.new ≤ visits.old + max_visits self.now path.now }
        ensures counted { visits.old ≤ visits.new }
    {
        let mut memory = Memory::new(self.glob.allocator());
        Ok(self.is_match_in(path, &mut memory, visits)?)
    }

    /// The same, in a memory of the caller without slots. It allocates nothing if the memory has room for as many states as the
    /// automaton of such a glob may have.
    fn is_match_in(
        &self,
        path: &Candidate<'_>,
        memory: &mut Memory,
        visits: &mut Visits,
    ) -> Result<bool, AllocError>
        requires { memory.old.caches ≡ [] }
        ensures ok { IfOk result (λ yes. yes ≡ glob_matches self.now path.now) }
        ensures kept { FitsAsBefore memory.old memory.new }
        ensures room { cost self.now ≤ memory.old.room → IsOk result }
        ensures visits { visits.new ≤ visits.old + max_visits self.now path.now }
        ensures counted { visits.old ≤ visits.new }
    {
        self.strategy.is_match(path, memory, visits)
    }

    /// Does what [`is_match_visits`](GlobMatcher::is_match_visits) does, with a scratch: it does not allocate, and cannot fail.
    ///
    /// The scratch has to fit the matcher (`Scratch::fits`). It then fits each matcher and set that it fitted before. The bound
    /// on the visits is the same.
    ///
    /// ```rust
    /// use globset::{Candidate, Glob, Scratch, Visits};
    ///
    /// let matcher = Glob::new(alloc, "*{foo,bar}*")?.compile_matcher()?;
    /// let mut scratch = Scratch::new(alloc, &matcher)?;
    /// let mut visits = Visits::new();
    /// assert!(rt; matcher.is_match_with(&Candidate::new("a/foo"), &mut scratch, &mut visits));
    /// assert!(rt; !matcher.is_match_with(&Candidate::new("a/fo"), &mut scratch, &mut visits));
    /// ```
    pub fn is_match_with(
        &self,
        path: &Candidate<'_>,
        scratch: &mut Scratch,
        visits: &mut Visits,
    ) -> bool
        requires { FitsMatcher scratch.old self.now }
        ensures matches { result ≡ glob_matches self.now path.now }
        ensures kept { scratch.new ≡ scratch.old }
        ensures visits { visits.new ≤ visits.old + max_visits self.now path.now }
        ensures counted { visits.old ≤ visits.new }
    {
        self.is_match_in(path, &mut scratch.memory, visits).unwrap()
    }

    /// Returns whether the glob matches some path below a directory.
    ///
    /// A path below a directory is the directory, a `/`, and any bytes, perhaps none. So if this returns false, a walk can skip
    /// the directory and everything below it. The directory is taken as it is: below `a/` are the paths that begin with `a//`,
    /// and below the empty directory those that begin with `/`.
    ///
    /// For a directory that is not UTF-8, or for several matchers, make a [`Candidate`].
    ///
    /// ```rust
    /// use globset::Glob;
    ///
    /// let matcher = Glob::new(alloc, "docs/*.md")?.compile_matcher()?;
    /// assert!(rt; matcher.can_match_below("docs")?);
    /// assert!(rt; matcher.can_match_below("docs/a")?);
    /// assert!(rt; !matcher.can_match_below("src")?);
    /// ```
    pub fn can_match_below<P: AsPath>(&self, folder: P) -> Result<bool, Error>
        ensures ok { IfOk result (λ yes. IsTrue yes ↔ GlobMatchesBelow self.now (P.text folder)) }
        ensures err { IsOkUnless result out_of_memory }
    {
        self.can_match_below_candidate(&Candidate::new(folder.path_text()))
    }

    /// Returns whether the glob matches some path below a candidate's path, as [`can_match_below`](GlobMatcher::can_match_below)
    /// does.
    pub fn can_match_below_candidate(&self, folder: &Candidate<'_>) -> Result<bool, Error>
        ensures ok { IfOk result (λ yes. IsTrue yes ↔ GlobMatchesBelow self.now folder.now) }
        ensures err { IsOkUnless result out_of_memory }
    {
        let mut visits = Visits::new();
        self.can_match_below_visits(folder, &mut visits)
    }

    /// Does what [`can_match_below_candidate`](GlobMatcher::can_match_below_candidate) does, and adds its visits to `visits`.
    ///
    /// These are at most `(directory bytes + 2) * (4 * glob bytes + 4)` visits, also after an error; under `whole_character`
    /// the second factor is `16 * glob bytes + 4`. The call allocates nothing if the matcher compares literals. Otherwise it
    /// may make a cache of rows, and where it has none it allocates two bits for each state of the automaton.
    pub fn can_match_below_visits(
        &self,
        folder: &Candidate<'_>,
        visits: &mut Visits,
    ) -> Result<bool, Error>
        ensures ok { IfOk result (λ yes. IsTrue yes ↔ GlobMatchesBelow self.now folder.now) }
        ensures err { IsOkUnless result out_of_memory }
        ensures visits { visits.new ≤ visits.old + max_visits_below self.now folder.now }
        ensures counted { visits.old ≤ visits.new }
    {
        let mut memory = Memory::new(self.glob.allocator());
        Ok(self.strategy.can_match_below(folder, &mut memory, visits)?)
    }

    /// Returns a matcher for an equal glob. It copies the glob, and shares its automaton. Fails also if 2^63 matchers share the
    /// automaton.
    pub fn clone(&self) -> Result<GlobMatcher, Error>
        ensures ok { IfOk result (λ m. m ≡ self.now) }
        ensures err { IsOkUnless result out_of_memory }
    {
        let glob = self.glob.clone()?;
        let strategy = self.copy_strategy()?;
        Ok(GlobMatcher { glob, strategy })
    }

    /// Returns a copy of the strategy, which shares the automaton.
    fn copy_strategy(&self) -> Result<Strategy, AllocError>
        ensures { IfOk result (IsStrategyOfMatcher self.now) }
    {
        self.strategy.copy_for(&self.glob)
    }
}

impl NeedsScratch for GlobMatcher {
    ghost states = { λ g. cost g };

    ghost indexes = { λ _. 0 };

    fn states_needed(&self) -> Option<usize> {
        let per_byte: usize = if options_of(&self.glob).whole_character {
            16
        } else {
            4
        };
        per_byte.checked_mul(self.glob.glob().len())?.checked_add(4)
    }

    fn indexes_needed(&self) -> usize {
        0
    }

    fn keep_caches(&self) {
        self.strategy.keep_cache();
    }
}

/// Like the method [`GlobMatcher::clone`], for code that is generic over `Clone`.
impl Clone for GlobMatcher {
    ghost is_clone = { λ m n. n ≡ m };

    fn clone(&self) -> Result<GlobMatcher, AllocError> {
        match self.clone() {
            Ok(matcher) => Ok(matcher),
            Err(_) => Err(AllocError),
        }
    }
}

/// `GlobMatcher { glob: Glob("<text>"), kept_bytes: .. }`: the glob, and what [`GlobMatcher::kept_bytes`] returns.
impl fmt::Debug for GlobMatcher {
    fn fmt<W: fmt::Write>(&self, f: &mut fmt::Formatter<W>) -> fmt::Result {
        f.debug_struct("GlobMatcher")
            .field("glob", &self.glob)
            .field("kept_bytes", &self.kept_bytes())
            .finish()
    }
}

/// How a matcher decides whether its glob matches a path.
#[derive(Drop)]
pub enum Strategy {
    /// A key, which is compared with the path or a part of it.
    Key(Key),
    /// An automaton, which is run over the path. Clones of a matcher share it.
    Automaton(Arc<Compiled>),
}

impl Strategy {
    /// Returns the key of a glob if a key decides it, and otherwise an automaton, whose caches take at most `dfa_size_limit`
    /// bytes.
    pub fn of(glob: &Glob, dfa_size_limit: usize) -> Result<Strategy, AllocError>
        ensures { IfOk result (IsStrategyOfMatcher glob.now) }
    {
        if let MatchStrategy::Key(key) = strategy_of(
            glob.allocator(),
            options_of(glob),
            flat_tokens_of(glob),
        )? {
            return Ok(Strategy::Key(key));
        }
        let automaton = automaton_of(glob, dfa_size_limit)?;
        Ok(Strategy::Automaton(Arc::new(glob.allocator(), automaton)?))
    }

    /// Returns how many bytes the caches take that an automaton keeps between calls.
    pub fn kept_bytes(&self) -> usize {
        match self {
            Strategy::Key(_) => 0,
            Strategy::Automaton(automaton) => automaton.kept_bytes(),
        }
    }

    /// Keeps a cache in the automaton, as [`Compiled::keep_cache`] does.
    pub fn keep_cache(&self) {
        if let Strategy::Automaton(automaton) = self {
            automaton.keep_cache();
        }
    }

    /// Returns all memory that matching needs: for an automaton, room for its states, and in the first slot a cache with no rows if
    /// it may have rows.
    pub fn new_memory(&self, alloc: Global) -> Result<Memory, AllocError>
        ensures fits { IfOk result (λ memory. FitsStrategy memory self.now) }
        ensures room { IfOk result (λ memory. form_states self.now ≤ memory.room) }
    {
        let mut memory = Memory::new(alloc);
        if let Strategy::Automaton(automaton) = self {
            memory.push_slot(automaton.new_cache(alloc)?)?;
            memory.reserve(automaton.state_count())?;
        }
        Ok(memory)
    }

    /// Returns whether the glob matches a path. An automaton runs in the first slot of the memory. It
    /// allocates nothing if a key decides or the memory has room.
    pub fn is_match(
        &self,
        path: &Candidate<'_>,
        memory: &mut Memory,
        visits: &mut Visits,
    ) -> Result<bool, AllocError>
        // The first slot is the automaton's, and the memory fits all that it fitted. The answer is right for each glob of the
        // strategy.
        requires { FitsStrategy memory.old self.now }
        ensures kept { FitsAsBefore memory.old memory.new }
        ensures some { IfOk result
            (λ yes. (g : GlobValue) → IsStrategyOfMatcher g self.now
            → yes ≡ glob_matches g path.now) }

        // Memory runs out only if there is too little room for the automaton's states.
        ensures room { form_states self.now ≤ memory.old.room → IsOk result }

        // The number of visits never decreases, and its increase is bounded.
        ensures visits { (g : GlobValue) → IsStrategyOfMatcher g self.now
            → visits.new ≤ visits.old + max_visits g path.now }
        ensures counted { visits.old ≤ visits.new }
    {
        match self {
            Strategy::Key(key) => {
                // As in a table, a look at a key is one visit.
                visits.tick();
                Ok(key.matches(path))
            }
            Strategy::Automaton(automaton) => {
                automaton.is_match(bytes_of(path.path()), 0, memory, visits)
            }
        }
    }

    /// Returns whether the glob matches some path below a directory. It runs as [`Strategy::is_match`] does. It allocates
    /// nothing if a key decides or the memory has room.
    pub fn can_match_below(
        &self,
        folder: &Candidate<'_>,
        memory: &mut Memory,
        visits: &mut Visits,
    ) -> Result<bool, AllocError>
        // The first slot is the automaton's, and the memory fits all that it fitted. The answer is right for each glob of the
        // strategy.
        requires { FitsStrategy memory.old self.now }
        ensures kept { FitsAsBefore memory.old memory.new }
        ensures some { IfOk result
            (λ yes. (g : GlobValue) → IsStrategyOfMatcher g self.now
            → IsTrue yes ↔ GlobMatchesBelow g folder.now) }

        // Memory runs out only if there is too little room for the automaton's states.
        ensures room { form_states self.now ≤ memory.old.room → IsOk result }

        // The number of visits never decreases, and its increase is bounded.
        ensures visits { (g : GlobValue) → IsStrategyOfMatcher g self.now
            → visits.new ≤ visits.old + max_visits_below g folder.now }
        ensures counted { visits.old ≤ visits.new }
    {
        match self {
            Strategy::Key(key) => {
                visits.tick();
                Ok(key.can_match_below(folder.path()))
            }
            Strategy::Automaton(automaton) => {
                automaton.can_match_after(bytes_of(folder.path()), b'/', 0, memory, visits)
            }
        }
    }

    /// Returns the strategy of an equal glob: the same automaton, which is shared, or the key once more.
    pub fn copy_for(&self, glob: &Glob) -> Result<Strategy, AllocError>
        requires { IsStrategyOfMatcher glob.now self.now }
        ensures { IfOk result (IsStrategyOfMatcher glob.now) }
    {
        match self {
            Strategy::Key(_) => Strategy::of(glob, DEFAULT_DFA_SIZE_LIMIT),
            Strategy::Automaton(automaton) => Ok(Strategy::Automaton(Arc::try_clone(automaton)?)),
        }
    }
}

/// Returns the automaton of a glob, whose tokens have the index 0. Its rows take at most `dfa_size_limit` bytes between calls.
fn automaton_of(glob: &Glob, dfa_size_limit: usize) -> Result<Compiled, AllocError>
    ensures { IfOk result (λ a. IsAutomatonOf glob.now a) }
{
    let alloc = glob.allocator();
    let mut builder = new_builder(alloc, 1);
    add_tokens(
        alloc,
        &mut builder,
        options_of(glob),
        flat_tokens_of(glob),
        0,
    )?;
    let automaton = builder.finish();
    let states = automaton.state_count();
    Compiled::new(alloc, dfa_size_limit, automaton, states)
}

/// A [`GlobMatcher`] with all the memory that a thread needs to match paths. [`MatcherSearcher::new`] allocates it: no other call
/// allocates, and none can fail.
///
/// Searchers of a matcher share its automaton. If this has rows, each searcher has a cache of its own for them, and uses no cache
/// of the matcher. A program with several threads makes a searcher for each thread.
///
/// Contracts see a searcher as its glob. What earlier calls left in it has no effect.
///
/// ```rust
/// use globset::{Candidate, Glob, MatcherSearcher};
///
/// let matcher = Glob::new(alloc, "*{foo,bar}*")?.compile_matcher()?;
/// let mut searcher = MatcherSearcher::new(alloc, &matcher)?;
/// assert!(rt; searcher.is_match(&Candidate::new("a/foo")));
/// assert!(rt; !searcher.is_match(&Candidate::new("a/fo")));
/// ```
#[derive(Drop)]
pub struct MatcherSearcher {
    matcher: GlobMatcher,
    /// The matcher's strategy, copied: contracts see a matcher as its glob, and the memory is for an automaton.
    strategy: Strategy,
    memory: Memory,
}

impl Model for MatcherSearcher {
    ghost use Rattle.std.specs.Prelude.{◌≤◌};
    ghost use Rattle.glob_text.specs.GlobMatches.{GlobValue};
    ghost use Rattle.globset_glob.specs.inner.GlobNfa.{FitsStrategy, IsStrategyOfMatcher, form_states};

    ghost Value = { GlobValue };

    ghost view = { λ s. s.matcher };

    ghost invariant = { λ s. IsStrategyOfMatcher s.matcher s.strategy
        × ((form_states s.strategy ≤ s.memory.room) × FitsStrategy s.memory s.strategy) };
}

impl MatcherSearcher {
    /// Returns a searcher that matches as the matcher does. It copies the matcher's glob, shares its automaton, and allocates
    /// two bits for each state of the automaton. These are at most 8 bits for each byte of the glob's text and 8 more, or four
    /// times as much under `whole_character`. It also allocates a cache of rows, of the size that
    /// [`Glob::compile_matcher_with_limit`](crate::Glob::compile_matcher_with_limit) tells.
    ///
    /// Fails only if memory runs out or 2^63 matchers share the automaton.
    pub fn new(alloc: Global, matcher: &GlobMatcher) -> Result<MatcherSearcher, Error>
        ensures ok { IfOk result (λ s. s ≡ matcher.now) }
        ensures err { IsOkUnless result out_of_memory }
    {
        let matcher = matcher.clone()?;
        let strategy = matcher.copy_strategy()?;
        let memory = strategy.new_memory(alloc)?;
        Ok(MatcherSearcher {
            matcher,
            strategy,
            memory,
        })
    }

    /// Returns the matcher that the searcher matches as.
    pub fn matcher(&self) -> &GlobMatcher
        ensures { result.now ≡ self.now }
    {
        &self.matcher
    }

    /// Returns the size of its cache of rows in bytes, or 0 if it has none. It also has a few bits for each state of the
    /// automaton.
    ///
    /// A searcher takes its memory when it is made, and no more later.
    pub fn bytes(&self) -> usize {
        self.memory.bytes()
    }

    /// Returns whether the glob matches a candidate's path, as [`GlobMatcher::is_match_candidate`] does.
    pub fn is_match(&mut self, path: &Candidate<'_>) -> bool
        ensures matches { result ≡ glob_matches self.old path.now }
        ensures kept { self.new ≡ self.old }
    {
        let mut visits = Visits::new();
        self.is_match_visits(path, &mut visits)
    }

    /// Does what [`is_match`](MatcherSearcher::is_match) does, and adds its visits to `visits`: with the bound of
    /// [`GlobMatcher::is_match_visits`].
    pub fn is_match_visits(&mut self, path: &Candidate<'_>, visits: &mut Visits) -> bool
        ensures matches { result ≡ glob_matches self.old path.now }
        ensures kept { self.new ≡ self.old }
        ensures visits { visits.new ≤ visits.old + max_visits self.old path.now }
        ensures counted { visits.old ≤ visits.new }
    {
        self.strategy
            .is_match(path, &mut self.memory, visits)
            .unwrap()
    }

    /// Returns whether the glob matches some path below a candidate's path, as [`GlobMatcher::can_match_below_candidate`] does.
    ///
    /// ```rust
    /// use globset::{Candidate, Glob, MatcherSearcher};
    ///
    /// let matcher = Glob::new(alloc, "docs/{a,b}*.md")?.compile_matcher()?;
    /// let mut searcher = MatcherSearcher::new(alloc, &matcher)?;
    /// assert!(rt; searcher.can_match_below(&Candidate::new("docs")));
    /// assert!(rt; !searcher.can_match_below(&Candidate::new("src")));
    /// ```
    pub fn can_match_below(&mut self, folder: &Candidate<'_>) -> bool
        ensures some { IsTrue result ↔ GlobMatchesBelow self.old folder.now }
        ensures kept { self.new ≡ self.old }
    {
        let mut visits = Visits::new();
        self.can_match_below_visits(folder, &mut visits)
    }

    /// Does what [`can_match_below`](MatcherSearcher::can_match_below) does, and adds its visits to `visits`: with the bound of
    /// [`GlobMatcher::can_match_below_visits`].
    pub fn can_match_below_visits(&mut self, folder: &Candidate<'_>, visits: &mut Visits) -> bool
        ensures some { IsTrue result ↔ GlobMatchesBelow self.old folder.now }
        ensures kept { self.new ≡ self.old }
        ensures visits { visits.new ≤ visits.old + max_visits_below self.old folder.now }
        ensures counted { visits.old ≤ visits.new }
    {
        self.strategy
            .can_match_below(folder, &mut self.memory, visits)
            .unwrap()
    }
}

/// `MatcherSearcher { matcher: GlobMatcher { .. }, bytes: .. }`: the matcher, and what [`MatcherSearcher::bytes`] returns.
impl fmt::Debug for MatcherSearcher {
    fn fmt<W: fmt::Write>(&self, f: &mut fmt::Formatter<W>) -> fmt::Result {
        f.debug_struct("MatcherSearcher")
            .field("matcher", &self.matcher)
            .field("bytes", &self.bytes())
            .finish()
    }
}

/// Returns a text itself. The checker knows of a parameter that its elements are bytes, and the contract tells it to the caller.
#[inline(always)]
fn bytes_of(text: &[u8]) -> &[u8]
    ensures same { result.now ≡ text.now }
    ensures bytes { AllBytes text.now }
{
    text
}
