//! A set with the memory to match with.

ghost use Rattle.std.specs.Prelude.{◌≡◌, ◌≢◌, ◌+◌, ◌≤◌, ◌↔◌, [], IfOk, IsOkUnless, IsTrue, length};
ghost use Rattle.globset_glob.specs.Errors.{out_of_memory};
ghost use Rattle.set_matcher.specs.Answer.{matching_indexes};
ghost use Rattle.set_matcher.specs.Below.{MatchesBelow};
ghost use Rattle.set_matcher.specs.Work.{max_set_visits, max_set_visits_below};
ghost use Rattle.set_matcher.specs.Indexes.{ContainsAllBelow};
ghost use Rattle.globset.specs.SetValue.{set_globs};

use crate::set::GlobSet;
use bit_sets::IndexSet;
use engine::Memory;
use globset_glob::{Candidate, Error, Visits};
use set_matcher::SetMatcher;
use std::alloc::Global;
use std::marker::Model;
use std::sync::Arc;
use std::{fmt, mem};

/// A [`GlobSet`] with all the memory that a thread needs to match paths. [`Searcher::new`] allocates it: no other call allocates,
/// and none can fail.
///
/// Searchers of a set share its keys and automata. A program with several threads makes a searcher for each thread. The calls of
/// a [`GlobSet`] are about as fast once a set has been used for a while, but they may allocate, and so may fail.
///
/// Contracts see a searcher as its set, and as the indexes that it found last. Nothing else that earlier calls left in it has an
/// effect.
///
/// ```rust
/// use globset::{Candidate, Glob, GlobSet, Searcher};
///
/// let set = GlobSet::new(alloc, [&Glob::new(alloc, "*.c")?, &Glob::new(alloc, "src/*")?])?;
/// let mut searcher = Searcher::new(alloc, &set)?;
/// assert!(rt; searcher.is_match(&Candidate::new("a.c")));
/// assert!(rt; !searcher.matches_all(&Candidate::new("a.c")));
/// assert_eq!(rt; searcher.matches(&Candidate::new("src/a.c")), [0, 1].as_slice());
/// assert_eq!(rt; searcher.matches(&Candidate::new("src/a.h")), [1].as_slice());
/// ```
#[derive(Drop)]
pub struct Searcher {
    set: GlobSet,
    /// The globs, compiled. It is `None` if there are no globs.
    matcher: Option<Arc<SetMatcher>>,
    memory: Memory,
    marks: IndexSet,
    found: Vec<usize>,
}

impl Model for Searcher {
    ghost use Rattle.std.specs.Prelude.{vec_capacity};
    ghost use Rattle.bit_sets.specs.Indexes.{index_capacity};
    ghost use Rattle.globset.specs.SearcherValue.{SearcherValue};
    ghost use Rattle.globset.specs.inner.SetOfMatcher.{IsSearcherOf};

    ghost Value = { SearcherValue };

    ghost view = { λ s. record {
      set = s.set;
      found = s.found.items;
    } };

    ghost invariant = { λ s. IsSearcherOf s.set s.matcher s.memory (index_capacity s.marks) (vec_capacity s.found) };
}

impl Searcher {
    ghost use Rattle.std.specs.Borrow.{sem};
    ghost use Rattle.globset.specs.Lending.{LendsFound};

    /// Returns a searcher of the set, which shares the keys and automata of the set. It allocates eight bytes for each glob, and
    /// as much as a [`Scratch`](crate::Scratch) for the set, but the set gets no rows for it. It also allocates a cache of rows for
    /// each automaton of the set, of the size that
    /// [`GlobSetBuilder::dfa_size_limit`](crate::GlobSetBuilder::dfa_size_limit) tells.
    ///
    /// Fails only if memory runs out or 2^63 sets share these.
    pub fn new(alloc: Global, set: &GlobSet) -> Result<Searcher, Error>
        ensures set { IfOk result (λ s. s.set ≡ set.now) }
        ensures found { IfOk result (λ s. s.found ≡ []) }
        ensures err { IsOkUnless result out_of_memory }
    {
        let set = set.clone()?;
        let (matcher, memory) = match &set.matcher {
            Some(matcher) => (Some(Arc::try_clone(matcher)?), matcher.new_memory(alloc)?),
            None => (None, Memory::new(alloc)),
        };
        let marks = IndexSet::new(alloc, set.len())?;
        let found = Vec::with_capacity(alloc, set.len())?;
        Ok(Searcher {
            set,
            matcher,
            memory,
            marks,
            found,
        })
    }

    /// Returns the set.
    pub fn set(&self) -> &GlobSet
        ensures { result.now ≡ self.now.set }
    {
        &self.set
    }

    /// Returns the size of its indexes and of its cache of rows, in bytes. It also has a few bits for each glob, and for each
    /// state of the largest automaton of the set.
    ///
    /// A searcher takes its memory when it is made, and no more later.
    pub fn bytes(&self) -> usize {
        let indexes = self
            .found
            .capacity()
            .saturating_mul(mem::size_of::<usize>());
        indexes.saturating_add(self.memory.bytes())
    }

    /// Returns whether some glob that is not excluded matches the candidate's path, as [`GlobSet::is_match_candidate`] does.
    pub fn is_match(&mut self, path: &Candidate<'_>) -> bool
        ensures some { IsTrue result ↔ (matching_indexes (set_globs self.old.set) path.now ≢ []) }
        ensures kept { self.new ≡ self.old }
    {
        let mut visits = Visits::new();
        self.is_match_visits(path, &mut visits)
    }

    /// Like [`Searcher::is_match`], but also counts the visits, with the bound of [`GlobSet::is_match_visits`].
    pub fn is_match_visits(&mut self, path: &Candidate<'_>, visits: &mut Visits) -> bool
        ensures some { IsTrue result ↔ (matching_indexes (set_globs self.old.set) path.now ≢ []) }
        ensures kept { self.new ≡ self.old }
        ensures visits { visits.new
            ≤ visits.old + max_set_visits (set_globs self.old.set) path.now }
        ensures counted { visits.old ≤ visits.new }
        ensures no_visits_if_empty { set_globs self.old.set ≡ [] → visits.new ≡ visits.old }
    {
        let Some(matcher) = &self.matcher else {
            return false;
        };
        matcher.is_match(path, &mut self.memory, visits).unwrap()
    }

    /// Returns whether every glob matches the candidate's path and none is excluded, as [`GlobSet::matches_all_candidate`] does.
    pub fn matches_all(&mut self, path: &Candidate<'_>) -> bool
        ensures all { IsTrue result
            ↔ ContainsAllBelow (matching_indexes (set_globs self.old.set) path.now)
            (length (set_globs self.old.set)) }
        ensures kept { self.new ≡ self.old }
    {
        let mut visits = Visits::new();
        self.matches_all_visits(path, &mut visits)
    }

    /// Like [`Searcher::matches_all`], but also counts the visits, with the bound of [`GlobSet::matches_all_visits`].
    pub fn matches_all_visits(&mut self, path: &Candidate<'_>, visits: &mut Visits) -> bool
        ensures all { IsTrue result
            ↔ ContainsAllBelow (matching_indexes (set_globs self.old.set) path.now)
            (length (set_globs self.old.set)) }
        ensures kept { self.new ≡ self.old }
        ensures visits { visits.new
            ≤ visits.old + max_set_visits (set_globs self.old.set) path.now }
        ensures counted { visits.old ≤ visits.new }
        ensures no_visits_if_empty { set_globs self.old.set ≡ [] → visits.new ≡ visits.old }
    {
        let Some(matcher) = &self.matcher else {
            return true;
        };
        matcher
            .matches_all(path, &mut self.memory, &mut self.marks, visits)
            .unwrap()
    }

    /// Finds the indexes, ascending, of the globs that match the candidate's path, which [`Searcher::found`] then returns.
    /// Excluded globs are left out.
    pub fn find(&mut self, path: &Candidate<'_>)
        ensures found { self.new.found ≡ matching_indexes (set_globs self.old.set) path.now }
        ensures set { self.new.set ≡ self.old.set }
    {
        let mut visits = Visits::new();
        self.find_visits(path, &mut visits);
    }

    /// Like [`Searcher::find`], but also counts the visits, with the bound of [`GlobSet::matches_visits`].
    pub fn find_visits(&mut self, path: &Candidate<'_>, visits: &mut Visits)
        ensures found { self.new.found ≡ matching_indexes (set_globs self.old.set) path.now }
        ensures set { self.new.set ≡ self.old.set }
        ensures visits { visits.new
            ≤ visits.old + max_set_visits (set_globs self.old.set) path.now }
        ensures counted { visits.old ≤ visits.new }
        ensures no_visits_if_empty { set_globs self.old.set ≡ [] → visits.new ≡ visits.old }
    {
        let Some(matcher) = &self.matcher else {
            self.found.clear();
            return;
        };
        matcher
            .find(
                path,
                &mut self.memory,
                &mut self.marks,
                &mut self.found,
                visits,
            )
            .unwrap();
    }

    /// Returns the indexes that the last call of [`Searcher::find`], [`Searcher::find_visits`] or [`Searcher::matches`] found, or
    /// none if there was no such call. Other calls do not change them.
    ///
    /// ```rust
    /// use globset::{Candidate, Glob, GlobSet, Searcher};
    ///
    /// let set = GlobSet::new(alloc, [&Glob::new(alloc, "*.c")?, &Glob::new(alloc, "src/*")?])?;
    /// let mut searcher = Searcher::new(alloc, &set)?;
    /// assert!(rt; searcher.found().is_empty());
    /// searcher.find(&Candidate::new("src/a.c"));
    /// assert!(rt; !searcher.is_match(&Candidate::new("a.h")));
    /// assert_eq!(rt; searcher.found(), [0, 1].as_slice());
    /// ```
    pub fn found(&self) -> &[usize]
        ensures { result.now ≡ self.now.found }
    {
        self.found.as_slice()
    }

    /// Returns the indexes, ascending, of the globs that match the candidate's path, as [`GlobSet::matches_candidate`] does. It
    /// finds them as [`Searcher::find`] does, and so [`Searcher::found`] returns them too.
    pub fn matches(&mut self, path: &Candidate<'_>) -> &[usize]
        ensures* lends { sem 𝓛 (LendsFound self.entry result) }
        ensures found { result.now ≡ matching_indexes (set_globs self.old.set) path.now }
    {
        let mut visits = Visits::new();
        self.find_visits(path, &mut visits);
        self.found()
    }

    /// Returns whether some glob that is not excluded matches some path below the candidate's path, as
    /// [`GlobSet::can_match_below_candidate`] does.
    ///
    /// ```rust
    /// use globset::{Candidate, Glob, GlobSet, Searcher};
    ///
    /// let set = GlobSet::new(alloc, [&Glob::new(alloc, "src/**")?])?;
    /// let mut searcher = Searcher::new(alloc, &set)?;
    ///
    /// // A walk has come to the directory `target`. It opens it only if some path below it can match.
    /// assert!(rt; !searcher.can_match_below(&Candidate::new("target")));
    /// ```
    pub fn can_match_below(&mut self, folder: &Candidate<'_>) -> bool
        ensures some { IsTrue result ↔ MatchesBelow (set_globs self.old.set) folder.now }
        ensures kept { self.new ≡ self.old }
    {
        let mut visits = Visits::new();
        self.can_match_below_visits(folder, &mut visits)
    }

    /// Like [`Searcher::can_match_below`], but also counts the visits, with the bound of [`GlobSet::can_match_below_visits`].
    pub fn can_match_below_visits(&mut self, folder: &Candidate<'_>, visits: &mut Visits) -> bool
        ensures some { IsTrue result ↔ MatchesBelow (set_globs self.old.set) folder.now }
        ensures kept { self.new ≡ self.old }
        ensures visits { visits.new
            ≤ visits.old + max_set_visits_below (set_globs self.old.set) folder.now }
        ensures counted { visits.old ≤ visits.new }
        ensures no_visits_if_empty { set_globs self.old.set ≡ [] → visits.new ≡ visits.old }
    {
        let Some(matcher) = &self.matcher else {
            return false;
        };
        matcher
            .can_match_below(folder.path(), &mut self.memory, visits)
            .unwrap()
    }
}

/// `Searcher { set: GlobSet { .. }, bytes: .. }`: the set, and what [`Searcher::bytes`] returns.
impl fmt::Debug for Searcher {
    fn fmt<W: fmt::Write>(&self, f: &mut fmt::Formatter<W>) -> fmt::Result {
        f.debug_struct("Searcher")
            .field("set", &self.set)
            .field("bytes", &self.bytes())
            .finish()
    }
}
