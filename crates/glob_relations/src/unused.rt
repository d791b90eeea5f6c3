//! Globs of a list that never decide; and the search by which items, globs or patterns of ignore files, are found that never do.

ghost use Rattle.std.specs.Prelude.{◌≡◌, ℕ, ◌<◌, ◌∷◌, [], length, Contains, slice_get, Some, IfOk, IsFalse, IsOkUnless};
ghost use Rattle.bit_sets.specs.Indexes.{has_index};
ghost use Rattle.glob_text.specs.Errors.{out_of_memory};
ghost use Rattle.glob_text.specs.GlobMatches.{GlobValue, glob_matches};
ghost use Rattle.glob_relations.specs.Answers.{IsCovered};
ghost use Rattle.glob_relations.specs.Unused.{items_at, rivals, TellsReachability};
ghost use Rattle.glob_relations.specs.inner.Automata.{FindsEach};

use crate::compared::{Compared, automaton_of_list, numbers};
use crate::domain::Domain;
use crate::finding::{found_indexes, place_of_found};
use crate::relations::{Coverage, covering_at};
use bit_sets::IndexSet;
use byte_nfa::Nfa;
use globset_glob::{Error, Glob};
use std::alloc::{AllocError, Global};

/// Which of the globs of a list that match a path decides.
#[derive(Clone, Copy)]
pub enum Decides {
    /// The first of them.
    First,
    /// The last of them.
    Last,
}

/// Whether a glob of a list ever decides.
#[derive(Drop)]
pub enum Reachability {
    /// It decides for this path of the domain, and for no shorter path.
    Decides(Vec<u8>),
    /// It decides for no path of the domain: the globs at these indexes, which all come before it if the first match decides, and
    /// after it if the last match decides, cover it. None can be left out. It is one index if one of them covers the glob alone, and
    /// none if the glob matches no path of the domain.
    Never(Vec<usize>),
    /// There are more rows than the limit.
    Unknown,
}

/// Returns for each glob of a list whether it ever decides for a path of a domain, and otherwise which other globs cover it.
///
/// For each glob it searches for a shortest path that the glob matches. If a rival, a glob that can decide instead, matches that
/// path, it searches again, as [`covering`] does, with this rival, and so on, until no rival matches the path, or the rivals so far
/// cover the glob. In a glob that never decides it then tries each rival alone that matches the last path, and otherwise leaves
/// out one rival after another. So a search seldom has more than a few globs. Each has the limit. Fails only if memory runs out.
///
/// [`covering`]: crate::covering
pub fn unreachable(
    alloc: Global,
    globs: &[Glob],
    decides: Decides,
    domain: Domain,
    limit: usize,
) -> Result<Vec<Reachability>, Error>
    ensures len { IfOk result (λ all. length all.items ≡ length globs.now) }
    ensures each { IfOk result
        (λ all. (i : ℕ) (g : GlobValue) (told : Reachability)
        → slice_get globs.now i ≡ Some g → slice_get all.items i ≡ Some told
        → TellsReachability glob_matches globs.now g (rivals decides i (length globs.now)) domain
        limit told) }
    ensures err { IsOkUnless result out_of_memory }
{
    let automaton = automaton_of_list(alloc, (), globs)?;
    let mut all = Vec::new(alloc);
    for (i, glob) in globs.iter().enumerate() {
        let others = rivals(alloc, decides, i, globs.len())?;
        let told = reachability_among(alloc, (), glob, globs, &automaton, &others, domain, limit)?;
        all.push(told)?;
    }
    Ok(all)
}

/// Returns the indexes of the globs that can decide instead of a glob.
fn rivals(alloc: Global, decides: Decides, i: usize, count: usize) -> Result<Vec<usize>, AllocError>
    requires { i < count }
    ensures { IfOk result (λ indexes. indexes.items ≡ rivals decides i count) }
{
    match decides {
        Decides::First => numbers(alloc, 0, i),
        Decides::Last => numbers(alloc, i + 1, count),
    }
}

/// Returns whether an item of a list ever decides, where the items at these indexes, its rivals, can decide instead. The automaton
/// finds which items of the list match a path.
///
/// Rivals that match the path so far are put together until they cover the item, or no other rival matches the next path.
pub fn reachability_among<T: Compared>(
    alloc: Global,
    options: T::Options,
    item: &T,
    items: &[T],
    automaton: &Nfa,
    others: &[usize],
    domain: Domain,
    limit: usize,
) -> Result<Reachability, AllocError>
    requires within { (k : ℕ) → Contains others.now k → k < length items.now }
    requires finds { FindsEach (T.matches options) items.now automaton.now }
    ensures { IfOk result
        (TellsReachability (T.matches options) items.now item.now others.now domain limit) }
{
    let mut found = IndexSet::empty(alloc);
    let mut by = Vec::new(alloc);
    let mut rest = Vec::from_slice(alloc, others)?;
    loop {
        match covering_at(alloc, options, item, items, &by, domain, limit)? {
            Coverage::Covered => {
                if by.is_empty() {
                    return Ok(Reachability::Never(by));
                }
                return cover(
                    alloc, options, item, items, others, &by, &found, domain, limit,
                );
            }
            Coverage::Not(path) => {
                found = found_indexes(alloc, automaton, &path)?;
                let Some(place) = place_of_found(&found, &rest) else {
                    return Ok(Reachability::Decides(path));
                };
                by.push(rest.remove(place))?;
            }
            Coverage::Unknown => return Ok(Reachability::Unknown),
        }
    }
}

/// Returns the index of a rival that covers an item alone, or the indexes of several that cover it together. The items at `by`
/// cover it, and it matches a path: a rival that is not among those that were found for this path does not cover it.
fn cover<T: Compared>(
    alloc: Global,
    options: T::Options,
    item: &T,
    items: &[T],
    others: &[usize],
    by: &[usize],
    found: &IndexSet,
    domain: Domain,
    limit: usize,
) -> Result<Reachability, AllocError>
    // `others` has only indexes of the list, and `by` has only some of these.
    requires within { (k : ℕ) → Contains others.now k → k < length items.now }
    requires by { (k : ℕ) → Contains by.now k → Contains others.now k }

    // The items at `by` cover the item, which matches some path of the domain. No item that was not found covers it alone. The
    // answer is right.
    requires covered { IsCovered (T.matches options) item.now (items_at items.now by.now) domain }
    requires some { IsCovered (T.matches options) item.now [] domain → ⊥ }
    requires found { (k : ℕ) → IsFalse (has_index found.now k)
        → IsCovered (T.matches options) item.now (items_at items.now (k ∷ [])) domain → ⊥ }
    ensures { IfOk result
        (TellsReachability (T.matches options) items.now item.now others.now domain limit) }
{
    for k in others {
        if found.has(*k) {
            match covering_at(alloc, options, item, items, &[*k], domain, limit)? {
                Coverage::Covered => {
                    return Ok(Reachability::Never(Vec::from_array(alloc, [*k])?));
                }
                Coverage::Not(_) => {}
                Coverage::Unknown => return Ok(Reachability::Unknown),
            }
        }
    }
    least_cover(alloc, options, item, items, others, by, domain, limit)
}

/// Returns some of the indexes `by`, whose items cover another, so that none can be left out. It tries to leave out each in turn.
fn least_cover<T: Compared>(
    alloc: Global,
    options: T::Options,
    item: &T,
    items: &[T],
    others: &[usize],
    by: &[usize],
    domain: Domain,
    limit: usize,
) -> Result<Reachability, AllocError>
    requires within { (k : ℕ) → Contains others.now k → k < length items.now }
    requires by { (k : ℕ) → Contains by.now k → Contains others.now k }
    requires covered { IsCovered (T.matches options) item.now (items_at items.now by.now) domain }
    requires single { (k : ℕ) → Contains others.now k
        → IsCovered (T.matches options) item.now (items_at items.now (k ∷ [])) domain → ⊥ }
    ensures { IfOk result
        (TellsReachability (T.matches options) items.now item.now others.now domain limit) }
{
    let mut set = Vec::from_slice(alloc, by)?;
    let mut i = 0;
    while i < set.len() {
        let mut fewer = Vec::from_slice(alloc, &set)?;
        fewer.remove(i);
        match covering_at(alloc, options, item, items, &fewer, domain, limit)? {
            Coverage::Covered => set = fewer,
            Coverage::Not(_) => i += 1,
            Coverage::Unknown => return Ok(Reachability::Unknown),
        }
    }
    Ok(Reachability::Never(set))
}
