//! Sets of globs.

ghost use Rattle.std.specs.Prelude.{◌≡◌, ◌≢◌, ◌↔◌, ◌<◌, ◌++◌, ◌∷◌, All, List, MatchResult, [], None, Ok, IfErr, IfOk, IfSome, IsOkUnless, IsSome, IsTrue, OnErr, OnOk, length, map};
ghost use Rattle.std.specs.Arc.{arc_value};
ghost use Rattle.std.specs.Borrow.{Bor};
ghost use Rattle.std.specs.Iterator.{Drains, IsFinite};
ghost use Rattle.globset_glob.specs.Errors.{out_of_memory};
ghost use Rattle.globset_glob.specs.GlobMatches.{GlobValue, IsRead};
ghost use Rattle.globset_glob.specs.ValueErrors.{IsValueErrorOf};
ghost use Rattle.serde_json.specs.View.{items_view, view};
ghost use Rattle.globset.specs.SetFromValue.{globs_from, globs_of_value};
ghost use Rattle.globset.specs.SetValue.{set_globs, set_states, builder_globs};

mod matching;

use crate::builder::GlobSetBuilder;
use glob_text::error_of_element;
use globset_glob::{
    DEFAULT_DFA_SIZE_LIMIT, Error, Glob, ValueError, ValueErrorKind, flat_tokens_of, options_of,
    text_of,
};
use serde_json::Value;
use set_matcher::{SetMatcher, SetMatcherBuilder};
use std::alloc::{AllocError, Global};
use std::fmt;
use std::marker::Model;
use std::sync::Arc;

/// A list of globs that are matched against a path together. Each glob has an index, from 0 on, in the order of the list.
///
/// Contracts see the list of the globs, and the number of states of the largest automaton that was made for them. The set itself
/// keeps keys and automata, and neither the texts nor the tokens of the globs.
///
/// Several threads can call a set at once, and none waits for another. So that calls need not step automata state by state, a set
/// keeps at most four caches of rows for each automaton, which its clones share. The third call that would use a cache makes the
/// first, unless a [`Scratch`](crate::Scratch) was made for the set. The caches are kept until the set is dropped;
/// [`GlobSet::kept_bytes`] returns for how many bytes of rows they have room: at most the limit of
/// [`GlobSetBuilder::dfa_size_limit`]. With a limit of 0 none is kept. A call may run out of memory, which is an error. The calls
/// of a [`Searcher`](crate::Searcher) neither fail nor allocate: use a searcher for each thread where that matters, and the set
/// itself elsewhere.
///
/// [`GlobSet::matches`] returns the indexes of the globs that match a path. Excluded globs are left out: a glob is excluded
/// if it is case-sensitive and is parsed like `**/..`. It counts in [`GlobSet::len`], so [`GlobSet::matches_all`] is
/// false on every path if the set has an excluded glob.
///
/// # Errors
///
/// Calls that return a [`Result`] fail only if memory runs out. [`GlobSet::clone`] also fails if 2^63 sets share the globs, and
/// [`GlobSet::from_value`] if the value is no array of globs.
///
/// ```rust
/// use globset::{Glob, GlobSet};
///
/// let globs = [Glob::new(alloc, "*.c")?, Glob::new(alloc, "src/*")?];
/// let set = GlobSet::new(alloc, &globs)?;
/// assert_eq!(rt; set.matches(alloc, "src/a.c")?.as_slice(), [0, 1].as_slice());
/// assert!(rt; set.is_match("a.c")?);
/// assert!(rt; !set.matches_all("a.c")?);
/// ```
///
/// An excluded glob, which matches paths by itself, but not in a set:
///
/// ```rust
/// use globset::{Glob, GlobSet};
///
/// let glob = Glob::new(alloc, "**/..")?;
/// assert!(rt; glob.compile_matcher()?.is_match("a/..")?);
/// assert!(rt; !GlobSet::new(alloc, [&glob])?.is_match("a/..")?);
/// ```
#[derive(Drop)]
pub struct GlobSet {
    /// The globs, compiled, which clones and searchers share. It is `None` if there are no globs.
    pub(crate) matcher: Option<Arc<SetMatcher>>,
}

impl Model for GlobSet {
    ghost use Rattle.globset.specs.SetValue.{SetValue};
    ghost use Rattle.globset.specs.inner.SetOfMatcher.{HasGlobs, set_of};

    ghost Value = { SetValue };

    ghost view = { λ s. set_of s.matcher };

    ghost invariant = { λ s. HasGlobs s.matcher };
}

impl GlobSet {
    /// Returns a builder that has no globs. It allocates nothing.
    pub fn builder(alloc: Global) -> GlobSetBuilder
        ensures { builder_globs result ≡ [] }
    {
        GlobSetBuilder::new(alloc)
    }

    /// Returns a set that has no globs. It allocates nothing.
    ///
    /// The set matches no path, and [`GlobSet::matches_all`] is true on every path.
    pub fn empty() -> GlobSet
        ensures globs { set_globs result ≡ [] }
        ensures states { set_states result ≡ 0 }
    {
        GlobSet { matcher: None }
    }

    /// Returns whether the set has no globs. It allocates nothing.
    pub fn is_empty(&self) -> bool
        ensures { IsTrue result ↔ (set_globs self.now ≡ []) }
    {
        self.matcher.is_none()
    }

    /// Returns the number of globs in the set, excluded globs included. It allocates nothing.
    pub fn len(&self) -> usize
        ensures count { result ≡ length (set_globs self.now) }
        ensures read { All IsRead (set_globs self.now) }
    {
        match self.matcher() {
            Some(matcher) => matcher.len(),
            None => 0,
        }
    }

    /// Returns the set of these globs, in order, each with its own options. The globs are read, and not copied.
    ///
    /// The iterator has to end, and the checker has to know its items, as it knows the items of a slice, of a `Vec` and of
    /// iterators over either.
    ///
    /// Keys and states take time and memory linear in the texts of the globs, except that some of these are sorted. Rows of
    /// automata are made by calls that match, and those that the set keeps are limited by
    /// [`DEFAULT_DFA_SIZE_LIMIT`](crate::DEFAULT_DFA_SIZE_LIMIT). [`GlobSetBuilder::dfa_size_limit`] sets another limit.
    pub fn new<'g, I: IntoIterator<Item = &'g Glob>>(
        alloc: Global,
        globs: I,
    ) -> Result<GlobSet, Error>
    where
        requires { (s : I.IntoIter) → I.into_iter_gives globs s
            → I.IntoIter.can_next s × IsFinite (I.IntoIter.remaining s) }
        ensures ok { IfOk result
            (λ set. (s : I.IntoIter) × (xs : List (Bor GlobValue)) × I.into_iter_gives globs s
            × Drains I.IntoIter.next_gives s xs × (set_globs set ≡ map (λ g. g.now) xs)) }
        ensures err { IsOkUnless result out_of_memory }
    {
        // The number of globs has to be known before the first one is added.
        let mut references = Vec::new(alloc);
        for glob in globs {
            references.push(glob)?;
        }
        Ok(set_of_references(alloc, &references)?)
    }

    /// Returns the set of the globs in a JSON array, in order. Each element is a text or an object with options, and is read as
    /// [`Glob::from_value`] reads it.
    ///
    /// # Errors
    ///
    /// Fails with:
    ///
    /// - the error of the first element that is not a glob, with its index;
    /// - [`ValueErrorKind::NotArray`] if the value is not an array, with no index;
    /// - [`ValueErrorKind::Glob`] of an out-of-memory error, with no index.
    ///
    /// ```rust
    /// use globset::GlobSet;
    /// use serde_json::Value;
    ///
    /// let text = r#"["*.rs", {"glob": "*.MD", "case_insensitive": true}]"#;
    /// let set = GlobSet::from_value(alloc, &Value::from_str(alloc, text)?)?;
    /// assert_eq!(rt; set.matches(alloc, "readme.md")?.as_slice(), [1].as_slice());
    /// ```
    pub fn from_value(alloc: Global, value: &Value) -> Result<GlobSet, ValueError>
        ensures ok { IfOk result (λ set. globs_of_value (view value.now) ≡ Ok (set_globs set)) }
        ensures err { IfErr result (IsValueErrorOf (globs_of_value (view value.now))) }
    {
        match value {
            Value::Array(values) => read_globs(alloc, values),
            _ => Err(ValueError::from(ValueErrorKind::NotArray)),
        }
    }

    /// Returns an equal set, which shares the keys and automata. It does not allocate, and takes little time for sets of any
    /// size. Fails only if 2^63 sets share them.
    pub fn clone(&self) -> Result<GlobSet, Error>
        ensures ok { IfOk result (λ s. s ≡ self.now) }
        ensures err { IsOkUnless result out_of_memory }
    {
        let Some(matcher) = &self.matcher else {
            return Ok(GlobSet::empty());
        };
        Ok(GlobSet {
            matcher: Some(Arc::try_clone(matcher)?),
        })
    }

    /// Returns for how many bytes of rows the set keeps caches between calls. It is 0 in a new set, and calls raise it, at most
    /// to the limit that [`GlobSetBuilder::dfa_size_limit`] sets. A cache takes less memory than that if the automaton is small.
    /// Clones share the caches.
    ///
    /// ```rust
    /// use globset::{Glob, GlobSet};
    ///
    /// let set = GlobSet::new(alloc, [&Glob::new(alloc, "*.c")?])?;
    /// assert!(rt; set.is_match("a.c")?);
    /// // This set has no automaton.
    /// assert_eq!(rt; set.kept_bytes(), 0);
    /// ```
    pub fn kept_bytes(&self) -> usize {
        match self.matcher() {
            Some(matcher) => matcher.kept_bytes(),
            None => 0,
        }
    }

    // Only for `c_objects`, whose globs are lent one by one.
    #[doc(hidden)]
    pub fn of_matcher(matcher: Arc<SetMatcher>) -> GlobSet
        ensures globs { set_globs result ≡ set_globs (arc_value matcher).set }
        ensures matcher { set_globs (arc_value matcher).set ≢ [] → result ≡ (arc_value matcher).set }
        ensures none { set_globs (arc_value matcher).set ≡ [] → set_states result ≡ 0 }
    {
        if matcher.len() == 0 {
            return GlobSet::empty();
        }
        GlobSet {
            matcher: Some(matcher),
        }
    }

    /// Returns the compiled globs, or `None` if the set has no globs.
    #[inline(always)]
    pub(crate) fn matcher(&self) -> Option<&SetMatcher>
        ensures set { IfSome result (λ m. m.now.set ≡ self.now) }
        ensures globs { IsSome result → set_globs self.now ≢ [] }
        ensures none { result ≡ None → set_globs self.now ≡ [] }
        ensures states { result ≡ None → set_states self.now ≡ 0 }
    {
        match &self.matcher {
            Some(matcher) => Some(matcher),
            None => None,
        }
    }
}

impl Default for GlobSet {
    ghost use Rattle.std.specs.Prelude.{◌≡◌, []};
    ghost use Rattle.globset.specs.SetValue.{set_globs, set_states};

    ghost is_default = { λ s. (set_globs s ≡ []) × (set_states s ≡ 0) };

    /// Returns a set without globs, as [`GlobSet::empty`] does.
    fn default() -> GlobSet {
        GlobSet::empty()
    }
}

/// Calls the method [`GlobSet::clone`], for code that is generic over `Clone`.
impl Clone for GlobSet {
    ghost use Rattle.std.specs.Prelude.{◌≡◌};

    ghost is_clone = { λ s t. t ≡ s };

    fn clone(&self) -> Result<GlobSet, AllocError> {
        match GlobSet::clone(self) {
            Ok(set) => Ok(set),
            Err(_) => Err(AllocError),
        }
    }
}

/// `GlobSet { len: .., max_states: .., kept_bytes: .. }`: the number of globs, the number of states of the largest automaton, and
/// the result of [`GlobSet::kept_bytes`].
impl fmt::Debug for GlobSet {
    fn fmt<W: fmt::Write>(&self, f: &mut fmt::Formatter<W>) -> fmt::Result {
        let states = match self.matcher() {
            Some(matcher) => matcher.max_states(),
            None => 0,
        };
        f.debug_struct("GlobSet")
            .field("len", &self.len())
            .field("max_states", &states)
            .field("kept_bytes", &self.kept_bytes())
            .finish()
    }
}

/// Adds a glob after the others. It takes time and memory linear in the glob's text. After an error the builder has no globs.
fn add(builder: &mut SetMatcherBuilder, glob: &Glob) -> Result<(), AllocError>
    requires { length builder.old.given < builder.old.count }
    ensures glob { OnOk result (builder.new.given ≡ builder.old.given ++ glob.now ∷ []) }
    ensures none { OnErr result (builder.new.given ≡ []) }
    ensures count { builder.new.count ≡ builder.old.count }
{
    builder.add(text_of(glob), options_of(glob), flat_tokens_of(glob))
}

/// Returns the set of these globs, in order. They are not copied. The rows that it keeps take at most `dfa_size_limit` bytes.
pub(crate) fn set_of_slice(
    alloc: Global,
    dfa_size_limit: usize,
    globs: &[Glob],
) -> Result<GlobSet, Error>
    ensures ok { IfOk result (λ s. set_globs s ≡ globs.now) }
    ensures err { IsOkUnless result out_of_memory }
{
    let mut builder = SetMatcherBuilder::new(alloc, globs.len());
    for glob in globs {
        add(&mut builder, glob)?;
    }
    Ok(GlobSet::of_matcher(builder.finish(dfa_size_limit)?))
}

/// Returns the set of these globs, as [`set_of_slice`] does, and drops each once it is added.
pub(crate) fn set_of_globs(
    alloc: Global,
    dfa_size_limit: usize,
    globs: Vec<Glob>,
) -> Result<GlobSet, Error>
    ensures ok { IfOk result (λ s. set_globs s ≡ globs.items) }
    ensures err { IsOkUnless result out_of_memory }
{
    let mut builder = SetMatcherBuilder::new(alloc, globs.len());
    for glob in globs {
        add(&mut builder, &glob)?;
    }
    Ok(GlobSet::of_matcher(builder.finish(dfa_size_limit)?))
}

/// Returns the set of these globs, as [`set_of_slice`] does, under the default limit.
fn set_of_references(alloc: Global, references: &[&Glob]) -> Result<GlobSet, Error>
    ensures ok { IfOk result (λ s. set_globs s ≡ map (λ g. g.now) references.now) }
    ensures err { IsOkUnless result out_of_memory }
{
    let mut builder = SetMatcherBuilder::new(alloc, references.len());
    for glob in references {
        add(&mut builder, glob)?;
    }
    Ok(GlobSet::of_matcher(builder.finish(DEFAULT_DFA_SIZE_LIMIT)?))
}

/// Returns the set of the globs of these elements of an array. Each glob is dropped once it is added.
fn read_globs(alloc: Global, values: &[Value]) -> Result<GlobSet, ValueError>
    ensures { MatchResult result
        (λ set. globs_from 0 (items_view values.now) ≡ Ok (set_globs set))
        (IsValueErrorOf (globs_from 0 (items_view values.now))) }
{
    let mut builder = SetMatcherBuilder::new(alloc, values.len());
    for (index, value) in values.iter().enumerate() {
        match Glob::from_value(alloc, value) {
            Ok(glob) => add(&mut builder, &glob)?,
            Err(error) => return Err(error_of_element(index, error)),
        }
    }
    Ok(GlobSet::of_matcher(builder.finish(DEFAULT_DFA_SIZE_LIMIT)?))
}
