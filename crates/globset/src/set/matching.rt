//! The calls on a set for a path and for a directory.

ghost use Rattle.std.specs.Prelude.{◌≡◌, ◌≢◌, ◌+◌, ◌≤◌, ◌↔◌, [], IfOk, IsOk, IsOkUnless, OnOk, OnErr, IsTrue, length, vec_capacity};
ghost use Rattle.globset_glob.specs.Errors.{out_of_memory};
ghost use Rattle.set_matcher.specs.Answer.{matching_indexes};
ghost use Rattle.set_matcher.specs.Below.{MatchesBelow};
ghost use Rattle.set_matcher.specs.Indexes.{ContainsAllBelow};
ghost use Rattle.set_matcher.specs.Work.{load, load_below, max_set_visits, max_set_visits_below};
ghost use Rattle.globset.specs.SetValue.{Fits, set_globs, set_states};

use crate::set::GlobSet;
use globset_glob::{AsPath, Candidate, Error, NeedsScratch, Scratch, Visits};
use std::alloc::Global;

impl GlobSet {
    /// Returns the indexes, ascending, of the globs that match the path. Excluded globs are left out.
    ///
    /// For many paths use [`Searcher::matches`](crate::Searcher::matches), which neither allocates nor fails.
    ///
    /// It allocates nothing if the set has no globs.
    pub fn matches<P: AsPath>(&self, alloc: Global, path: P) -> Result<Vec<usize>, Error>
        ensures ok { IfOk result
            (λ v. v.items ≡ matching_indexes (set_globs self.now) (P.text path)) }
        ensures err { IsOkUnless result out_of_memory }
        ensures succeeds_if_empty { set_globs self.now ≡ [] → IsOk result }
    {
        let mut indexes = Vec::new(alloc);
        if let Some(matcher) = self.matcher() {
            matcher.find(
                &Candidate::new(path.path_text()),
                &mut matcher.empty_memory(),
                &mut matcher.new_marks(),
                &mut indexes,
                &mut Visits::new(),
            )?;
        }
        Ok(indexes)
    }

    /// Returns the indexes, ascending, of the globs that match the candidate's path. Excluded globs are left out.
    ///
    /// For many paths use [`Searcher::matches`](crate::Searcher::matches), which neither allocates nor fails.
    ///
    /// It allocates nothing if the set has no globs.
    pub fn matches_candidate(
        &self,
        alloc: Global,
        path: &Candidate<'_>,
    ) -> Result<Vec<usize>, Error>
        ensures ok { IfOk result (λ v. v.items ≡ matching_indexes (set_globs self.now) path.now) }
        ensures err { IsOkUnless result out_of_memory }
        ensures succeeds_if_empty { set_globs self.now ≡ [] → IsOk result }
    {
        let mut indexes = Vec::new(alloc);
        let mut visits = Visits::new();
        self.matches_visits(path, &mut indexes, &mut visits)?;
        Ok(indexes)
    }

    /// Replaces the vector's items by the indexes that [`GlobSet::matches`] returns. The vector's capacity is reused.
    ///
    /// For many paths use [`Searcher::find`](crate::Searcher::find), which neither allocates nor fails.
    ///
    /// ```rust
    /// use globset::{Glob, GlobSet};
    ///
    /// let set = GlobSet::new(alloc, [&Glob::new(alloc, "*.c")?])?;
    /// let mut indexes = Vec::new(alloc);
    /// set.matches_into("a.c", &mut indexes)?;
    /// assert_eq!(rt; indexes.as_slice(), [0].as_slice());
    /// set.matches_into("a.h", &mut indexes)?;
    /// assert!(rt; indexes.is_empty());
    /// ```
    ///
    /// After an error the vector is empty. It allocates nothing if the set has no globs.
    pub fn matches_into<P: AsPath>(&self, path: P, into: &mut Vec<usize>) -> Result<(), Error>
        ensures ok { OnOk result
            (into.new.items ≡ matching_indexes (set_globs self.now) (P.text path)) }
        ensures err { IsOkUnless result out_of_memory }
        ensures succeeds_if_empty { set_globs self.now ≡ [] → IsOk result }
        ensures cleared { OnErr result (into.new.items ≡ []) }
    {
        self.matches_candidate_into(&Candidate::new(path.path_text()), into)
    }

    /// Replaces the vector's items by the indexes that [`GlobSet::matches_candidate`] returns. The vector's capacity is
    /// reused.
    ///
    /// For many paths use [`Searcher::find`](crate::Searcher::find), which neither allocates nor fails.
    ///
    /// After an error the vector is empty. It allocates nothing if the set has no globs.
    pub fn matches_candidate_into(
        &self,
        path: &Candidate<'_>,
        into: &mut Vec<usize>,
    ) -> Result<(), Error>
        ensures ok { OnOk result (into.new.items ≡ matching_indexes (set_globs self.now) path.now) }
        ensures err { IsOkUnless result out_of_memory }
        ensures succeeds_if_empty { set_globs self.now ≡ [] → IsOk result }
        ensures cleared { OnErr result (into.new.items ≡ []) }
    {
        let mut visits = Visits::new();
        self.matches_visits(path, into, &mut visits)
    }

    /// Like [`GlobSet::matches_candidate_into`], but also counts the visits.
    ///
    /// For many paths use [`Searcher::find_visits`](crate::Searcher::find_visits), which neither allocates nor fails.
    ///
    /// It adds at most `4 + 2 * (path bytes + 1)`. Each glob that needs an automaton for the path adds `path bytes + 1` times `4
    /// * glob bytes + 4` (`16 * glob bytes + 4` under `whole_character`). The bound also holds after an error; a set without
    /// globs adds none. The call looks up the path and its parts in four tables and two tries, and runs at most three automata. Each
    /// reads the path by published rows and, where one is missing, by the rows of a kept cache, from the beginning; where it has no
    /// cache, it is stepped. It allocates a bit of memory for each glob above the first 64, and two for each state of an automaton
    /// that is stepped. The vector grows for the indexes.
    ///
    /// It may also make a cache for each of these automata, within [`dfa_size_limit`](crate::GlobSetBuilder::dfa_size_limit). Visits
    /// do not count that: it clears the cache's memory, and copies published rows.
    ///
    /// After an error the vector is empty. It allocates nothing if the set has no globs.
    pub fn matches_visits(
        &self,
        path: &Candidate<'_>,
        into: &mut Vec<usize>,
        visits: &mut Visits,
    ) -> Result<(), Error>
        ensures ok { OnOk result (into.new.items ≡ matching_indexes (set_globs self.now) path.now) }
        ensures err { IsOkUnless result out_of_memory }

        // The call succeeds if the set has no globs. After an error the vector is empty.
        ensures succeeds_if_empty { set_globs self.now ≡ [] → IsOk result }
        ensures cleared { OnErr result (into.new.items ≡ []) }

        // The number of visits never decreases, and its increase is bounded. A set without globs adds none.
        ensures visits { visits.new ≤ visits.old + max_set_visits (set_globs self.now) path.now }
        ensures counted { visits.old ≤ visits.new }
        ensures no_visits_if_empty { set_globs self.now ≡ [] → visits.new ≡ visits.old }
    {
        let Some(matcher) = self.matcher() else {
            into.clear();
            return Ok(());
        };
        matcher.find(
            path,
            &mut matcher.empty_memory(),
            &mut matcher.new_marks(),
            into,
            visits,
        )?;
        Ok(())
    }

    /// Like [`GlobSet::matches_visits`], but with a scratch: only the vector may grow.
    ///
    /// For many paths and one set use a [`Searcher`](crate::Searcher), which needs no scratch.
    ///
    /// The scratch has to fit the set. It then fits each set that it fitted before, after an error too. The bound on the visits
    /// is the same.
    ///
    /// After an error the vector is empty. It allocates nothing if the vector has a capacity of [`GlobSet::len`]. The capacity
    /// never shrinks, so later calls do not allocate either.
    pub fn matches_into_with(
        &self,
        path: &Candidate<'_>,
        scratch: &mut Scratch,
        into: &mut Vec<usize>,
        visits: &mut Visits,
    ) -> Result<(), Error>
        requires { Fits scratch.old self.now }
        ensures ok { OnOk result (into.new.items ≡ matching_indexes (set_globs self.now) path.now) }
        ensures err { IsOkUnless result out_of_memory }

        // The call succeeds if the vector has a capacity for the indexes of all globs. The capacity never shrinks.
        ensures succeeds_with_capacity { length (set_globs self.now) ≤ vec_capacity into.old
            → IsOk result }
        ensures capacity { vec_capacity into.old ≤ vec_capacity into.new }

        // After an error the vector is empty. The scratch fits all that it fitted before, after an error too.
        ensures cleared { OnErr result (into.new.items ≡ []) }
        ensures kept { scratch.new ≡ scratch.old }

        // The number of visits never decreases, and its increase is bounded. A set without globs adds none.
        ensures visits { visits.new ≤ visits.old + max_set_visits (set_globs self.now) path.now }
        ensures counted { visits.old ≤ visits.new }
        ensures no_visits_if_empty { set_globs self.now ≡ [] → visits.new ≡ visits.old }
    {
        let Some(matcher) = self.matcher() else {
            into.clear();
            return Ok(());
        };
        let memory = &mut scratch.memory;
        let marks = &mut scratch.marks;
        matcher.find(path, memory, marks, into, visits)?;
        Ok(())
    }

    /// Returns whether some glob that is not excluded matches the path: whether [`GlobSet::matches`] would return an
    /// index.
    ///
    /// For many paths use [`Searcher::is_match`](crate::Searcher::is_match), which neither allocates nor fails.
    ///
    /// To match several sets against a path, or against bytes that are not UTF-8, create a [`Candidate`] and call
    /// [`GlobSet::is_match_candidate`].
    ///
    /// It allocates nothing if no glob needs an automaton for the path: if each of them is direct, or requires an extension that
    /// the path lacks.
    pub fn is_match<P: AsPath>(&self, path: P) -> Result<bool, Error>
        ensures ok { IfOk result
            (λ yes. IsTrue yes ↔ (matching_indexes (set_globs self.now) (P.text path) ≢ [])) }
        ensures err { IsOkUnless result out_of_memory }
        ensures succeeds_if_empty { set_globs self.now ≡ [] → IsOk result }
        ensures succeeds_without_automata { load (set_globs self.now) (P.text path) ≡ 0
            → IsOk result }
    {
        self.is_match_candidate(&Candidate::new(path.path_text()))
    }

    /// Returns whether some glob that is not excluded matches the candidate's path, as [`GlobSet::is_match`] does.
    ///
    /// For many paths use [`Searcher::is_match`](crate::Searcher::is_match), which neither allocates nor fails.
    ///
    /// It allocates nothing if no glob needs an automaton for the path: if each of them is direct, or requires an extension that
    /// the path lacks.
    pub fn is_match_candidate(&self, path: &Candidate<'_>) -> Result<bool, Error>
        ensures ok { IfOk result
            (λ yes. IsTrue yes ↔ (matching_indexes (set_globs self.now) path.now ≢ [])) }
        ensures err { IsOkUnless result out_of_memory }
        ensures succeeds_if_empty { set_globs self.now ≡ [] → IsOk result }
        ensures succeeds_without_automata { load (set_globs self.now) path.now ≡ 0 → IsOk result }
    {
        let mut visits = Visits::new();
        self.is_match_visits(path, &mut visits)
    }

    /// Like [`GlobSet::is_match_candidate`], but also counts the visits.
    ///
    /// For many paths use [`Searcher::is_match_visits`](crate::Searcher::is_match_visits), which neither allocates nor fails.
    ///
    /// It adds at most `4 + 2 * (path bytes + 1)`. Each glob that needs an automaton for the path adds `path bytes + 1` times `4
    /// * glob bytes + 4` (`16 * glob bytes + 4` under `whole_character`). The bound also holds after an error; a set without
    /// globs adds none. The call looks up the path and its parts in four tables and two tries, and runs at most three automata, as
    /// [`GlobSet::matches_visits`] does. Those that are stepped take two bits of memory for each state, and it may make a cache for
    /// each of them.
    ///
    /// It allocates nothing if no glob needs an automaton for the path: if each of them is direct, or requires an extension that
    /// the path lacks.
    pub fn is_match_visits(&self, path: &Candidate<'_>, visits: &mut Visits) -> Result<bool, Error>
        ensures ok { IfOk result
            (λ yes. IsTrue yes ↔ (matching_indexes (set_globs self.now) path.now ≢ [])) }
        ensures err { IsOkUnless result out_of_memory }

        // The call succeeds if the set has no globs, or if none of them needs an automaton for the path.
        ensures succeeds_if_empty { set_globs self.now ≡ [] → IsOk result }
        ensures succeeds_without_automata { load (set_globs self.now) path.now ≡ 0 → IsOk result }

        // The number of visits never decreases, and its increase is bounded. A set without globs adds none.
        ensures visits { visits.new ≤ visits.old + max_set_visits (set_globs self.now) path.now }
        ensures counted { visits.old ≤ visits.new }
        ensures no_visits_if_empty { set_globs self.now ≡ [] → visits.new ≡ visits.old }
    {
        let Some(matcher) = self.matcher() else {
            return Ok(false);
        };
        Ok(matcher.is_match(path, &mut matcher.empty_memory(), visits)?)
    }

    /// Like [`GlobSet::is_match_visits`], but with a scratch: it does not allocate, and cannot fail.
    ///
    /// For many paths and one set use a [`Searcher`](crate::Searcher), which needs no scratch.
    ///
    /// The scratch has to fit the set. It then fits each set that it fitted before. The bound on the visits is the same.
    pub fn is_match_with(
        &self,
        path: &Candidate<'_>,
        scratch: &mut Scratch,
        visits: &mut Visits,
    ) -> bool
        requires { Fits scratch.old self.now }
        ensures some { IsTrue result ↔ (matching_indexes (set_globs self.now) path.now ≢ []) }
        ensures kept { scratch.new ≡ scratch.old }

        // The number of visits never decreases, and its increase is bounded. A set without globs adds none.
        ensures visits { visits.new ≤ visits.old + max_set_visits (set_globs self.now) path.now }
        ensures counted { visits.old ≤ visits.new }
        ensures no_visits_if_empty { set_globs self.now ≡ [] → visits.new ≡ visits.old }
    {
        let Some(matcher) = self.matcher() else {
            return false;
        };
        matcher.is_match(path, &mut scratch.memory, visits).unwrap()
    }

    /// Returns whether every glob matches the path and none is excluded: whether [`GlobSet::matches`] would return every
    /// index below [`GlobSet::len`]. It is true if the set has no globs.
    ///
    /// For many paths use [`Searcher::matches_all`](crate::Searcher::matches_all), which neither allocates nor fails.
    ///
    /// It allocates nothing if no glob needs an automaton for the path: if each of them is direct, or requires an extension that
    /// the path lacks.
    pub fn matches_all<P: AsPath>(&self, path: P) -> Result<bool, Error>
        ensures ok { IfOk result
            (λ yes. IsTrue yes
            ↔ ContainsAllBelow (matching_indexes (set_globs self.now) (P.text path))
            (length (set_globs self.now))) }
        ensures err { IsOkUnless result out_of_memory }
        ensures succeeds_if_empty { set_globs self.now ≡ [] → IsOk result }
        ensures succeeds_without_automata { load (set_globs self.now) (P.text path) ≡ 0
            → IsOk result }
    {
        self.matches_all_candidate(&Candidate::new(path.path_text()))
    }

    /// Returns whether every glob matches the candidate's path and none is excluded, as [`GlobSet::matches_all`] does.
    ///
    /// For many paths use [`Searcher::matches_all`](crate::Searcher::matches_all), which neither allocates nor fails.
    ///
    /// It allocates nothing if no glob needs an automaton for the path: if each of them is direct, or requires an extension that
    /// the path lacks.
    pub fn matches_all_candidate(&self, path: &Candidate<'_>) -> Result<bool, Error>
        ensures ok { IfOk result
            (λ yes. IsTrue yes
            ↔ ContainsAllBelow (matching_indexes (set_globs self.now) path.now)
            (length (set_globs self.now))) }
        ensures err { IsOkUnless result out_of_memory }
        ensures succeeds_if_empty { set_globs self.now ≡ [] → IsOk result }
        ensures succeeds_without_automata { load (set_globs self.now) path.now ≡ 0 → IsOk result }
    {
        let mut visits = Visits::new();
        self.matches_all_visits(path, &mut visits)
    }

    /// Like [`GlobSet::matches_all_candidate`], but also counts the visits.
    ///
    /// For many paths use [`Searcher::matches_all_visits`](crate::Searcher::matches_all_visits), which neither allocates nor fails.
    ///
    /// It adds at most `4 + 2 * (path bytes + 1)`. Each glob that needs an automaton for the path adds `path bytes + 1` times `4
    /// * glob bytes + 4` (`16 * glob bytes + 4` under `whole_character`). The bound also holds after an error; a set without
    /// globs adds none. The call looks up the path and its parts in four tables and two tries, and runs at most three automata, as
    /// [`GlobSet::matches_visits`] does. If any of these has states, it allocates a bit for each glob above the first 64. For an
    /// automaton that is stepped it allocates two bits for each state, and it may make a cache for each automaton.
    ///
    /// It allocates nothing if no glob needs an automaton for the path: if each of them is direct, or requires an extension that
    /// the path lacks.
    pub fn matches_all_visits(
        &self,
        path: &Candidate<'_>,
        visits: &mut Visits,
    ) -> Result<bool, Error>
        ensures ok { IfOk result
            (λ yes. IsTrue yes
            ↔ ContainsAllBelow (matching_indexes (set_globs self.now) path.now)
            (length (set_globs self.now))) }
        ensures err { IsOkUnless result out_of_memory }

        // The call succeeds if the set has no globs, or if none of them needs an automaton for the path.
        ensures succeeds_if_empty { set_globs self.now ≡ [] → IsOk result }
        ensures succeeds_without_automata { load (set_globs self.now) path.now ≡ 0 → IsOk result }

        // The number of visits never decreases, and its increase is bounded. A set without globs adds none.
        ensures visits { visits.new ≤ visits.old + max_set_visits (set_globs self.now) path.now }
        ensures counted { visits.old ≤ visits.new }
        ensures no_visits_if_empty { set_globs self.now ≡ [] → visits.new ≡ visits.old }
    {
        let Some(matcher) = self.matcher() else {
            return Ok(true);
        };
        Ok(matcher.matches_all(
            path,
            &mut matcher.empty_memory(),
            &mut matcher.new_marks(),
            visits,
        )?)
    }

    /// Like [`GlobSet::matches_all_visits`], but with a scratch: it does not allocate, and cannot fail.
    ///
    /// For many paths and one set use a [`Searcher`](crate::Searcher), which needs no scratch.
    ///
    /// The scratch has to fit the set. It then fits each set that it fitted before. The bound on the visits is the same.
    pub fn matches_all_with(
        &self,
        path: &Candidate<'_>,
        scratch: &mut Scratch,
        visits: &mut Visits,
    ) -> bool
        requires { Fits scratch.old self.now }
        ensures all { IsTrue result
            ↔ ContainsAllBelow (matching_indexes (set_globs self.now) path.now)
            (length (set_globs self.now)) }
        ensures kept { scratch.new ≡ scratch.old }

        // The number of visits never decreases, and its increase is bounded. A set without globs adds none.
        ensures visits { visits.new ≤ visits.old + max_set_visits (set_globs self.now) path.now }
        ensures counted { visits.old ≤ visits.new }
        ensures no_visits_if_empty { set_globs self.now ≡ [] → visits.new ≡ visits.old }
    {
        let Some(matcher) = self.matcher() else {
            return true;
        };
        let memory = &mut scratch.memory;
        let marks = &mut scratch.marks;
        matcher.matches_all(path, memory, marks, visits).unwrap()
    }

    /// Returns whether some glob that is not excluded matches some path below a directory. If this returns false, a walk can
    /// skip the directory and everything below it.
    ///
    /// A path below a directory is the directory, a `/`, and any bytes, perhaps none. So `a/**` and `a/` match a path below
    /// `a`, and `a` does not. The directory is taken as it is: below `a/` are the paths that begin with `a//`. Below the empty
    /// directory are the paths that begin with `/`, so a walk over relative paths always opens the directory where it begins.
    ///
    /// For several sets, or for bytes that are not UTF-8, create a [`Candidate`] and call [`GlobSet::can_match_below_candidate`].
    /// A walk makes a [`Searcher`](crate::Searcher) once, whose calls neither allocate nor fail.
    ///
    /// It allocates nothing if each glob is direct.
    ///
    /// ```rust
    /// use globset::{Glob, GlobSet};
    ///
    /// let set = GlobSet::new(alloc, [&Glob::new(alloc, "src/*.rs")?, &Glob::new(alloc, "docs/a.md")?])?;
    /// assert!(rt; set.can_match_below("docs")?);
    /// assert!(rt; set.can_match_below("src/a")?);
    /// assert!(rt; !set.can_match_below("target")?);
    /// ```
    pub fn can_match_below<P: AsPath>(&self, folder: P) -> Result<bool, Error>
        ensures ok { IfOk result
            (λ yes. IsTrue yes ↔ MatchesBelow (set_globs self.now) (P.text folder)) }
        ensures err { IsOkUnless result out_of_memory }
        ensures succeeds_if_empty { set_globs self.now ≡ [] → IsOk result }
        ensures succeeds_without_automata { load_below (set_globs self.now) ≡ 0 → IsOk result }
    {
        self.can_match_below_candidate(&Candidate::new(folder.path_text()))
    }

    /// Returns whether some glob that is not excluded matches some path below the candidate's path, as
    /// [`GlobSet::can_match_below`] does.
    ///
    /// For many paths use [`Searcher::can_match_below`](crate::Searcher::can_match_below), which neither allocates nor fails.
    ///
    /// It allocates nothing if each glob is direct.
    pub fn can_match_below_candidate(&self, folder: &Candidate<'_>) -> Result<bool, Error>
        ensures ok { IfOk result
            (λ yes. IsTrue yes ↔ MatchesBelow (set_globs self.now) folder.now) }
        ensures err { IsOkUnless result out_of_memory }
        ensures succeeds_if_empty { set_globs self.now ≡ [] → IsOk result }
        ensures succeeds_without_automata { load_below (set_globs self.now) ≡ 0 → IsOk result }
    {
        let mut visits = Visits::new();
        self.can_match_below_visits(folder, &mut visits)
    }

    /// Like [`GlobSet::can_match_below_candidate`], but also counts the visits.
    ///
    /// For many paths use [`Searcher::can_match_below_visits`](crate::Searcher::can_match_below_visits), which neither allocates nor
    /// fails.
    ///
    /// It adds at most `4 + 2 * (directory bytes + 2)`. Each glob that is not direct adds `directory bytes + 2` times
    /// `4 * glob bytes + 4` (`16 * glob bytes + 4` under `whole_character`). The bound also holds after an error; a set without
    /// globs adds none. The automata of all extensions may be run, each as [`GlobSet::matches_visits`] runs an automaton. Those that
    /// are stepped take two bits of memory for each state, and it may make a cache for each of them.
    ///
    /// It allocates nothing if each glob is direct.
    pub fn can_match_below_visits(
        &self,
        folder: &Candidate<'_>,
        visits: &mut Visits,
    ) -> Result<bool, Error>
        ensures ok { IfOk result
            (λ yes. IsTrue yes ↔ MatchesBelow (set_globs self.now) folder.now) }
        ensures err { IsOkUnless result out_of_memory }

        // The call succeeds if the set has no globs, or if each of them is direct.
        ensures succeeds_if_empty { set_globs self.now ≡ [] → IsOk result }
        ensures succeeds_without_automata { load_below (set_globs self.now) ≡ 0 → IsOk result }

        // The number of visits never decreases, and its increase is bounded. A set without globs adds none.
        ensures visits { visits.new
            ≤ visits.old + max_set_visits_below (set_globs self.now) folder.now }
        ensures counted { visits.old ≤ visits.new }
        ensures no_visits_if_empty { set_globs self.now ≡ [] → visits.new ≡ visits.old }
    {
        let Some(matcher) = self.matcher() else {
            return Ok(false);
        };
        Ok(matcher.can_match_below(folder.path(), &mut matcher.empty_memory(), visits)?)
    }

    /// Like [`GlobSet::can_match_below_visits`], but with a scratch: it does not allocate, and cannot fail.
    ///
    /// For many paths and one set use a [`Searcher`](crate::Searcher), which needs no scratch.
    ///
    /// The scratch has to fit the set. It then fits each set that it fitted before. The bound on the visits is the same.
    ///
    /// ```rust
    /// use globset::{Candidate, Glob, GlobSet, Scratch, Visits};
    ///
    /// let set = GlobSet::new(alloc, [&Glob::new(alloc, "src/**")?])?;
    /// let mut scratch = Scratch::new(alloc, &set)?;
    /// let mut visits = Visits::new();
    ///
    /// // A walk has come to the directory `target`. It opens it only if some path below it can match.
    /// let folder = Candidate::new("target");
    /// assert!(rt; !set.can_match_below_with(&folder, &mut scratch, &mut visits));
    /// ```
    pub fn can_match_below_with(
        &self,
        folder: &Candidate<'_>,
        scratch: &mut Scratch,
        visits: &mut Visits,
    ) -> bool
        requires { Fits scratch.old self.now }
        ensures some { IsTrue result ↔ MatchesBelow (set_globs self.now) folder.now }
        ensures kept { scratch.new ≡ scratch.old }

        // The number of visits never decreases, and its increase is bounded. A set without globs adds none.
        ensures visits { visits.new
            ≤ visits.old + max_set_visits_below (set_globs self.now) folder.now }
        ensures counted { visits.old ≤ visits.new }
        ensures no_visits_if_empty { set_globs self.now ≡ [] → visits.new ≡ visits.old }
    {
        let Some(matcher) = self.matcher() else {
            return false;
        };
        matcher
            .can_match_below(folder.path(), &mut scratch.memory, visits)
            .unwrap()
    }
}

impl NeedsScratch for GlobSet {
    ghost states = { λ s. set_states s };

    ghost indexes = { λ s. length (set_globs s) };

    fn states_needed(&self) -> Option<usize> {
        match self.matcher() {
            Some(matcher) => Some(matcher.max_states()),
            None => Some(0),
        }
    }

    fn indexes_needed(&self) -> usize {
        self.len()
    }

    fn keep_caches(&self) {
        if let Some(matcher) = self.matcher() {
            matcher.keep_caches();
        }
    }
}
