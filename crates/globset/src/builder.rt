//! Builders of sets.

use crate::set::{GlobSet, set_of_globs, set_of_slice};
use globset_glob::{DEFAULT_DFA_SIZE_LIMIT, Error, Glob};
use std::alloc::{AllocError, Global};
use std::marker::Model;

/// Collects globs in order, and builds sets of them.
///
/// Contracts see the list of the globs. They do not see the limit of [`GlobSetBuilder::dfa_size_limit`], which changes no answer.
///
/// # Errors
///
/// Calls that return a [`Result`] fail only if memory runs out. The builder then has the globs that it had before the call.
///
/// ```rust
/// use globset::{Glob, GlobSetBuilder};
///
/// let mut builder = GlobSetBuilder::new(alloc);
/// builder.add(Glob::new(alloc, "*.c")?)?.add(Glob::new(alloc, "*.h")?)?;
/// let sources = builder.build()?;
/// builder.add(Glob::new(alloc, "Makefile")?)?;
/// let all = builder.build()?;
/// assert!(rt; !sources.is_match("Makefile")?);
/// assert!(rt; all.is_match("Makefile")?);
/// ```
#[derive(Debug, Drop)]
pub struct GlobSetBuilder {
    pats: Vec<Glob>,
    dfa_size_limit: usize,
}

impl Model for GlobSetBuilder {
    ghost use Rattle.globset.specs.SetValue.{BuilderValue};

    ghost Value = { BuilderValue };

    ghost view = { λ b. b.pats.items };
}

impl GlobSetBuilder {
    ghost use Rattle.std.specs.Prelude.{◌≡◌, [], ◌∷◌, ◌++◌, IfOk, IsOkUnless, OnOk, OnErr};
    ghost use Rattle.globset_glob.specs.Errors.{out_of_memory};
    ghost use Rattle.globset.specs.SetValue.{builder_globs, set_globs};
    ghost use Rattle.globset.specs.Lending.{LendsItself};
    ghost use Rattle.std.specs.Borrow.{sem};

    /// Returns a builder that has no globs. It allocates nothing.
    pub fn new(alloc: Global) -> GlobSetBuilder
        ensures { builder_globs result ≡ [] }
    {
        GlobSetBuilder {
            pats: Vec::new(alloc),
            dfa_size_limit: DEFAULT_DFA_SIZE_LIMIT,
        }
    }

    /// Sets the limit on the bytes of rows that a set keeps between calls, for all its automata together. The default is
    /// [`DEFAULT_DFA_SIZE_LIMIT`], 16 MiB.
    ///
    /// **The rows that a set keeps take at most `bytes` bytes at any time, and so do those of a [`Searcher`](crate::Searcher): an
    /// automaton has the share `S = bytes * states / (states of all automata)`, a cache of rows for it takes at least
    /// `L = max(4160, 16 * ((2 * states + 2 * globs + starts + 1) / 3 + 1))` bytes, the set keeps at most `N = min(4, S / L)` caches
    /// for it, each of at most `S / N` bytes, a searcher has one of them, and the automaton has none if `S` is less than `L` or than
    /// 16 KiB.** These bytes are those of the entries of rows, of their lists, and of the tables that find them. A cache takes
    /// besides at most 1 KiB, and two bits for each state and each glob. The caches of a searcher take at most 8 MiB together, but
    /// each may take `L`. Other memory has no limit: keys and states take memory linear in the texts of the globs.
    ///
    /// The limit trades memory for time, and changes no answer. The globs that need an automaton share a few. A row is a state of
    /// a lazy DFA: calls make rows as paths need them, and then read an entry of a row for each byte of a path. The caches of a set
    /// begin small, and get larger as paths need it; that of a searcher has its size from the first. An automaton that has no cache
    /// is stepped, as in a call that finds none that is free: each byte of a path then takes a step for each current state of the
    /// automaton. Calls without a scratch then allocate two bits for each state. With 0 there are no rows, and the set keeps no
    /// memory between calls. That is best for few paths.
    ///
    /// ```rust
    /// use globset::{Glob, GlobSetBuilder};
    ///
    /// let mut builder = GlobSetBuilder::new(alloc);
    /// builder.add(Glob::new(alloc, "src/*.rs")?)?.dfa_size_limit(0);
    /// let simulated = builder.build()?;
    /// let set = builder.dfa_size_limit(1 << 20).build()?;
    /// assert!(rt; set.is_match("src/lib.rs")? && simulated.is_match("src/lib.rs")?);
    /// ```
    pub fn dfa_size_limit(&mut self, bytes: usize) -> &mut GlobSetBuilder
        ensures same_reference { result.ghost_name ≡ self.entry.ghost_name }
        ensures globs { builder_globs result.now ≡ builder_globs self.old }
    {
        self.dfa_size_limit = bytes;
        self
    }

    /// Adds a glob after the others, and returns the builder, so that calls can be chained.
    ///
    /// After an error the new glob is dropped. [`GlobSetBuilder::push`] does the same, for code that goes on after an error.
    pub fn add(&mut self, glob: Glob) -> Result<&mut GlobSetBuilder, Error>
        ensures* lends { sem 𝓛 (LendsItself self.entry result) }
        ensures ok { IfOk result (λ b. (b.ghost_name ≡ self.entry.ghost_name)
            × (builder_globs b.now ≡ builder_globs self.old ++ glob ∷ [])) }
        ensures err { IsOkUnless result out_of_memory }
    {
        match self.push(glob) {
            Ok(()) => Ok(self),
            Err(error) => Err(error),
        }
    }

    /// Adds a glob after the others, like [`GlobSetBuilder::add`], but returns no reference to the builder.
    ///
    /// After an error the new glob is dropped, and other globs can be added.
    ///
    /// ```rust
    /// use globset::{Glob, GlobSetBuilder};
    ///
    /// let mut builder = GlobSetBuilder::new(alloc);
    /// let mut added = 0;
    /// for text in ["*.c", "*.h"] {
    ///     if builder.push(Glob::new(alloc, text)?).is_ok() {
    ///         added += 1;
    ///     }
    /// }
    /// assert_eq!(rt; builder.build()?.len(), added);
    /// ```
    pub fn push(&mut self, glob: Glob) -> Result<(), Error>
        ensures ok { OnOk result (builder_globs self.new ≡ builder_globs self.old ++ glob ∷ []) }
        ensures kept { OnErr result (builder_globs self.new ≡ builder_globs self.old) }
        ensures err { IsOkUnless result out_of_memory }
    {
        self.pats.push(glob)?;
        Ok(())
    }

    /// Returns the set of the globs that were added, in order. The builder is unchanged, and more globs can be added to it. The
    /// globs are not copied: the set stores only what matching needs.
    ///
    /// Keys and states take time and memory linear in the texts of the globs, except that some of these are sorted. Rows of
    /// automata are made by calls that match.
    pub fn build(&self) -> Result<GlobSet, Error>
        ensures ok { IfOk result (λ s. set_globs s ≡ builder_globs self.now) }
        ensures err { IsOkUnless result out_of_memory }
    {
        set_of_slice(*self.pats.allocator(), self.dfa_size_limit, &self.pats)
    }

    /// Returns the set of the globs that were added, in order, and drops them: afterwards the builder has no globs, and can be
    /// used again. It keeps the limit of [`GlobSetBuilder::dfa_size_limit`].
    ///
    /// It takes time and memory as [`GlobSetBuilder::build`] does, and gives the memory of the globs back.
    ///
    /// ```rust
    /// use globset::{Glob, GlobSetBuilder};
    ///
    /// let mut builder = GlobSetBuilder::new(alloc);
    /// builder.add(Glob::new(alloc, "*.c")?)?.add(Glob::new(alloc, "*.h")?)?;
    /// let sources = builder.take_set()?;
    /// assert_eq!(rt; sources.matches(alloc, "a.h")?.as_slice(), [1].as_slice());
    /// assert!(rt; builder.build()?.is_empty());
    /// ```
    pub fn take_set(&mut self) -> Result<GlobSet, Error>
        ensures ok { IfOk result (λ s. set_globs s ≡ builder_globs self.old) }
        ensures emptied { OnOk result (builder_globs self.new ≡ []) }
        ensures kept { OnErr result (builder_globs self.new ≡ builder_globs self.old) }
        ensures err { IsOkUnless result out_of_memory }
    {
        let alloc = *self.pats.allocator();
        let set = set_of_slice(alloc, self.dfa_size_limit, &self.pats)?;
        // The globs stay where they are until nothing can fail any more.
        self.pats = Vec::new(alloc);
        Ok(set)
    }

    /// Returns the set of the globs that were added, in order. It drops each glob as soon as the set does not need it any more.
    /// It takes as much time as [`GlobSetBuilder::build`], and less memory, since it frees globs while it makes the set.
    ///
    /// After an error the globs are dropped, too.
    ///
    /// ```rust
    /// use globset::{Glob, GlobSetBuilder};
    ///
    /// let mut builder = GlobSetBuilder::new(alloc);
    /// builder.add(Glob::new(alloc, "*.c")?)?.add(Glob::new(alloc, "*.h")?)?;
    /// let sources = builder.into_set()?;
    /// assert_eq!(rt; sources.matches(alloc, "a.h")?.as_slice(), [1].as_slice());
    /// ```
    pub fn into_set(self) -> Result<GlobSet, Error>
        ensures ok { IfOk result (λ s. set_globs s ≡ builder_globs self) }
        ensures err { IsOkUnless result out_of_memory }
    {
        let GlobSetBuilder {
            pats,
            dfa_size_limit,
        } = self;
        set_of_globs(*pats.allocator(), dfa_size_limit, pats)
    }

    /// Returns a builder of equal globs and the same limit, with memory of its own.
    pub fn clone(&self) -> Result<GlobSetBuilder, Error>
        ensures ok { IfOk result (λ b. b ≡ self.now) }
        ensures err { IsOkUnless result out_of_memory }
    {
        let pats = self.pats.clone()?;
        Ok(GlobSetBuilder {
            pats,
            dfa_size_limit: self.dfa_size_limit,
        })
    }
}

/// Calls the method [`GlobSetBuilder::clone`], for code that is generic over `Clone`.
impl Clone for GlobSetBuilder {
    ghost use Rattle.std.specs.Prelude.{◌≡◌};

    ghost is_clone = { λ b c. c ≡ b };

    fn clone(&self) -> Result<GlobSetBuilder, AllocError> {
        match GlobSetBuilder::clone(self) {
            Ok(builder) => Ok(builder),
            Err(_) => Err(AllocError),
        }
    }
}
