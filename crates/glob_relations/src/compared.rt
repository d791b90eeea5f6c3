//! What is compared: globs, and patterns of ignore files. Both are items here.

ghost use Rattle.std.specs.Prelude.{◌≡◌, ℕ, ◌+◌, ◌-◌, ◌^◌, ◌<◌, ◌≤◌, Bool, List, ◌∷◌, [], ◌++◌, length, Contains, IfOk, OnOk};
ghost use Rattle.std.specs.List.{range_with_len};
ghost use Rattle.glob_text.specs.GlobMatches.{glob_matches};
ghost use Rattle.ignore_pattern.specs.Patterns.{pattern_matches};
ghost use Rattle.glob_relations.specs.Unused.{items_at};
ghost use Rattle.glob_relations.specs.inner.Automata.{IsFor, FindsEach, numbered, under};

use byte_nfa::{Builder, Nfa};
use engine::shared;
use glob_strategy::{add_tokens, new_builder};
use globset_glob::{Glob, flat_tokens_of, options_of};
use ignore_pattern::{IgnorePattern, add_pattern};
use std::alloc::{AllocError, Global};

/// A glob, or a pattern of an ignore file.
pub trait Compared {
    /// What decides how an item matches, beside itself.
    type Options: Copy;

    /// Whether an item matches a path.
    ghost matches: { Self.Options → Self → List ℕ → Bool };

    /// Adds the item to an automaton that is being built, under an index.
    fn add_to(
        &self,
        alloc: Global,
        options: Self::Options,
        builder: &mut Builder,
        index: usize,
    ) -> Result<(), AllocError>
        requires { index < builder.old.index_count }
        ensures added { OnOk result
            ((xs : List (Self × ℕ)) → IsFor (matches options) xs builder.old
            → IsFor (matches options) (xs ++ (self.now, index) ∷ []) builder.new) }
        ensures index_count { builder.new.index_count ≡ builder.old.index_count };
}

impl Compared for Glob {
    type Options = ();

    ghost matches = { λ _. glob_matches };

    fn add_to(
        &self,
        alloc: Global,
        _options: (),
        builder: &mut Builder,
        index: usize,
    ) -> Result<(), AllocError> {
        add_tokens(
            alloc,
            builder,
            options_of(self),
            flat_tokens_of(self),
            index,
        )
    }
}

impl Compared for IgnorePattern {
    /// Whether letters of both cases are alike.
    type Options = bool;

    ghost matches = { pattern_matches };

    fn add_to(
        &self,
        _alloc: Global,
        ignore_case: bool,
        builder: &mut Builder,
        index: usize,
    ) -> Result<(), AllocError> {
        add_pattern(builder, ignore_case, self, index)
    }
}

/// Returns a builder of an automaton for an item, with the index 0, and for the items of a list at these indexes, with the index
/// 1.
pub fn builder_at<T: Compared>(
    alloc: Global,
    options: T::Options,
    index_count: usize,
    item: &T,
    items: &[T],
    by: &[usize],
) -> Result<Builder, AllocError>
    requires count { 2 ≤ index_count }
    requires within { (k : ℕ) → Contains by.now k → k < length items.now }
    ensures count { IfOk result (λ builder. builder.index_count ≡ index_count) }
    ensures items { IfOk result
        (IsFor (T.matches options) ((item.now, 0) ∷ under 1 (items_at items.now by.now))) }
{
    let mut builder = new_builder(alloc, index_count);
    item.add_to(alloc, options, &mut builder, 0)?;
    for k in by {
        items[*k].add_to(alloc, options, &mut builder, 1)?;
    }
    Ok(builder)
}

/// Returns an automaton that leads a path to the index of each item of a list that matches it. Items that begin alike share states,
/// so that a path takes fewer steps than there are items, unless that takes too much work.
pub fn automaton_of_list<T: Compared>(
    alloc: Global,
    options: T::Options,
    items: &[T],
) -> Result<Nfa, AllocError>
    ensures { IfOk result (FindsEach (T.matches options) items.now) }
{
    let mut builder = new_builder(alloc, items.len());
    add_numbered(alloc, options, &mut builder, items, 0)?;
    let automaton = builder.finish();
    match shared(alloc, &automaton)? {
        Some(sharing) => Ok(sharing),
        None => Ok(automaton),
    }
}

/// Adds the items of a list to an automaton that is being built, each under the next index, from `first` on.
pub fn add_numbered<T: Compared>(
    alloc: Global,
    options: T::Options,
    builder: &mut Builder,
    items: &[T],
    first: usize,
) -> Result<(), AllocError>
    requires first { first ≤ 2 }
    requires count { first + length items.now ≤ builder.old.index_count }
    requires fits { first + length items.now < 2 ^ 64 }
    ensures { OnOk result
        ((xs : List (T × ℕ)) → IsFor (T.matches options) xs builder.old
        → IsFor (T.matches options) (xs ++ numbered first items.now) builder.new) }
{
    for (k, item) in items.iter().enumerate() {
        item.add_to(alloc, options, builder, first + k)?;
    }
    Ok(())
}

/// Returns the numbers from `low` on that are below `high`.
pub fn numbers(alloc: Global, low: usize, high: usize) -> Result<Vec<usize>, AllocError>
    requires { low ≤ high }
    ensures { IfOk result (λ all. all.items ≡ range_with_len low (high - low)) }
{
    let mut all = Vec::new(alloc);
    for k in low..high {
        all.push(k)?;
    }
    Ok(all)
}
