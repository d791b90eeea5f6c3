//! Memory of the caller, for matching globs.

ghost use Rattle.std.specs.Prelude.{◌≡◌, ◌≤◌, ◌^◌, ◌↔◌, ℕ, MatchOption, IfOk, IsOk, IsOkUnless, OnOk, OnErr, IsTrue};
ghost use Rattle.glob_text.specs.Errors.{out_of_memory};
ghost use Rattle.globset_glob.specs.ScratchValue.{FitsAsBefore, HasCapacity, raised};

use bit_sets::IndexSet;
use engine::Memory;
use glob_text::Error;
use std::alloc::{AllocError, Global};
use std::fmt;
use std::marker::Model;

/// Something that is matched in a [`Scratch`]: a `GlobSet` or a `GlobMatcher`.
///
/// Contracts see two numbers: of states, and of indexes.
pub trait NeedsScratch {
    ghost states: { Self → ℕ };

    ghost indexes: { Self → ℕ };

    /// Returns the most states that an automaton may have, or `None` if a `usize` is too small for the number.
    fn states_needed(&self) -> Option<usize>
        ensures { MatchOption result (2 ^ 64 ≤ states self.now) (λ n. n ≡ states self.now) };

    /// Returns the number of globs of a set, and 0 for a matcher.
    fn indexes_needed(&self) -> usize
        ensures { result ≡ indexes self.now };

    /// Makes a cache of rows for each automaton that has none and may use one, and keeps it in the set or the matcher, as far as
    /// there is memory for it. Calls with a scratch make none.
    fn keep_caches(&self);
}

/// All the memory that sets and matchers need to match a path. A set needs two bits for each state of its largest automaton, and
/// a bit for each glob. A matcher needs at most 8 bits for each byte of its glob's text and 8 more, or four times as much under
/// `whole_character`.
///
/// With a scratch that fits the set, `GlobSet::is_match_with` and `GlobSet::matches_all_with` cannot fail, and nor can
/// `GlobSet::matches_into_with` if the vector has a capacity of `GlobSet::len`. With a scratch that fits the matcher,
/// `GlobMatcher::is_match_with` cannot fail. The contents of a scratch have no effect. It can be used with each set and each
/// matcher that it fits, and [`Scratch::fit`] makes it fit another.
///
/// Calls with a scratch use the rows that the set or the matcher keeps between calls, and allocate no more.
///
/// Contracts see two numbers: of states, and of indexes.
///
/// ```rust
/// use globset::{Candidate, Glob, GlobSet, Scratch, Visits};
///
/// let globs = [Glob::new(alloc, "*.c")?, Glob::new(alloc, "src/*")?];
/// let set = GlobSet::new(alloc, &globs)?;
/// let mut scratch = Scratch::new(alloc, &set)?;
/// let mut indexes = Vec::with_capacity(alloc, set.len())?;
/// let mut visits = Visits::new();
///
/// let path = Candidate::new("src/a.c");
/// assert!(rt; set.is_match_with(&path, &mut scratch, &mut visits));
/// set.matches_into_with(&path, &mut scratch, &mut indexes, &mut visits)?;
/// assert_eq!(rt; indexes.as_slice(), [0, 1].as_slice());
///
/// let path = Candidate::new("a.c");
/// assert!(rt; !set.matches_all_with(&path, &mut scratch, &mut visits));
/// ```
#[derive(Drop)]
pub struct Scratch {
    states: usize,
    indexes: usize,
    // The current states of an automaton while it is stepped. Public for the calls that match, in the crates above.
    #[doc(hidden)]
    pub memory: Memory,
    // The indexes that are found, which are marked here.
    #[doc(hidden)]
    pub marks: IndexSet,
}

impl Model for Scratch {
    ghost use Rattle.std.specs.Prelude.{◌≡◌, ◌≤◌, []};
    ghost use Rattle.bit_sets.specs.Indexes.{index_capacity};
    ghost use Rattle.globset_glob.specs.ScratchValue.{ScratchValue};

    ghost Value = { ScratchValue };

    ghost view = { λ s. record {
      states = s.states;
      indexes = s.indexes;
    } };

    ghost invariant = { λ s. (s.states ≤ s.memory.room)
        × ((s.indexes ≤ index_capacity s.marks) × (s.memory.caches ≡ [])) };
}

impl Scratch {
    /// Returns a scratch without room. It allocates nothing.
    pub fn empty(alloc: Global) -> Scratch
        ensures states { result.states ≡ 0 }
        ensures indexes { result.indexes ≡ 0 }
    {
        Scratch {
            states: 0,
            indexes: 0,
            memory: Memory::new(alloc),
            marks: IndexSet::empty(alloc),
        }
    }

    /// Returns a scratch that fits the set or the matcher. For a set it allocates two bits for each state of the largest
    /// automaton, and a bit for each glob. For a matcher it allocates at most 8 bits for each byte of the glob's text and 8 more,
    /// or four times as much under `whole_character`. Each automaton that keeps rows between calls, and has none yet, gets memory
    /// for them here, if there is enough.
    ///
    /// Fails only if memory runs out.
    pub fn new<S: NeedsScratch>(alloc: Global, set: &S) -> Result<Scratch, Error>
        ensures states { IfOk result (λ scratch. scratch.states ≡ S.states set.now) }
        ensures indexes { IfOk result (λ scratch. scratch.indexes ≡ S.indexes set.now) }
        ensures fits { IfOk result
            (λ scratch. HasCapacity scratch (S.states set.now) (S.indexes set.now)) }
        ensures err { IsOkUnless result out_of_memory }
    {
        let mut scratch = Scratch::empty(alloc);
        scratch.fit(set)?;
        Ok(scratch)
    }

    /// Makes the scratch fit another set or matcher. It allocates what the scratch lacks, as [`Scratch::new`] does, and nothing
    /// if the scratch fits the set or the matcher already.
    ///
    /// Fails only if memory runs out. In both cases the scratch fits each set and each matcher that it fitted before.
    ///
    /// ```rust
    /// use globset::{Candidate, Glob, GlobSet, Scratch, Visits};
    ///
    /// let sources = GlobSet::new(alloc, [&Glob::new(alloc, "*.c")?])?;
    /// let tests = GlobSet::new(alloc, [&Glob::new(alloc, "*test*")?, &Glob::new(alloc, "*check*")?])?;
    /// let mut scratch = Scratch::new(alloc, &sources)?;
    /// scratch.fit(&tests)?;
    /// let mut visits = Visits::new();
    /// let path = Candidate::new("checks.c");
    /// assert!(rt; sources.is_match_with(&path, &mut scratch, &mut visits));
    /// assert!(rt; tests.is_match_with(&path, &mut scratch, &mut visits));
    /// ```
    pub fn fit<S: NeedsScratch>(&mut self, set: &S) -> Result<(), Error>
        // Success raises each number to the need, if it is lower, and then the scratch fits.
        ensures raised { OnOk result
            (self.new ≡ raised self.old (S.states set.now) (S.indexes set.now)) }
        ensures fits { OnOk result (HasCapacity self.new (S.states set.now) (S.indexes set.now)) }

        // An error changes nothing. In both cases the scratch fits what it fitted before.
        ensures kept { OnErr result (self.new ≡ self.old) }
        ensures others { FitsAsBefore self.old self.new }

        // The call fails only if memory runs out, and never if the scratch fits already.
        ensures succeeds_if_fits { HasCapacity self.old (S.states set.now) (S.indexes set.now)
            → IsOk result }
        ensures err { IsOkUnless result out_of_memory }
    {
        // What fitted before takes no memory, for a cache either.
        let lacks_room = !self.fits(set);
        let states = self.states.max(set.states_needed().ok_or(AllocError)?);
        let indexes = self.indexes.max(set.indexes_needed());
        self.memory.reserve(states)?;
        self.marks.reserve(indexes)?;
        self.states = states;
        self.indexes = indexes;
        if lacks_room {
            set.keep_caches();
        }
        Ok(())
    }

    /// Returns whether the scratch fits the set or the matcher: whether neither of its numbers is below the need. It fits the set
    /// or the matcher that it was made for.
    ///
    /// ```rust
    /// use globset::{Candidate, Glob, GlobSet, Scratch, Visits};
    ///
    /// let small = GlobSet::new(alloc, [&Glob::new(alloc, "*.c")?])?;
    /// let large = GlobSet::new(alloc, [&Glob::new(alloc, "*a*")?, &Glob::new(alloc, "*b*")?])?;
    /// let mut scratch = Scratch::new(alloc, &small)?;
    /// if !scratch.fits(&large) {
    ///     scratch = Scratch::new(alloc, &large)?;
    /// }
    /// assert!(rt; large.is_match_with(&Candidate::new("cab"), &mut scratch, &mut Visits::new()));
    /// ```
    pub fn fits<S: NeedsScratch>(&self, set: &S) -> bool
        ensures { IsTrue result ↔ HasCapacity self.now (S.states set.now) (S.indexes set.now) }
    {
        let room = self.states;
        match set.states_needed() {
            Some(states) => states <= room && set.indexes_needed() <= self.indexes,
            None => false,
        }
    }
}

/// `Scratch { states: .., indexes: .. }`: the states of the largest automaton that it has room for, and the number of indexes.
impl fmt::Debug for Scratch {
    fn fmt<W: fmt::Write>(&self, f: &mut fmt::Formatter<W>) -> fmt::Result {
        f.debug_struct("Scratch")
            .field("states", &self.states)
            .field("indexes", &self.indexes)
            .finish()
    }
}
