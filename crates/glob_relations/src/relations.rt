//! Whether globs cover a glob, or patterns of ignore files a pattern, and whether two globs overlap.

ghost use Rattle.std.specs.Prelude.{ℕ, ◌<◌, length, Contains, IfOk, IsOkUnless};
ghost use Rattle.glob_text.specs.Errors.{out_of_memory};
ghost use Rattle.glob_text.specs.GlobMatches.{glob_matches};
ghost use Rattle.ignore_pattern.specs.Patterns.{pattern_matches};
ghost use Rattle.glob_relations.specs.Answers.{TellsCovering, TellsOverlap};
ghost use Rattle.glob_relations.specs.Unused.{items_at};

use crate::compared::{Compared, builder_at, numbers};
use crate::domain::Domain;
use crate::search::{SearchAnswer, search};
use glob_strategy::new_builder;
use globset_glob::{Error, Glob};
use ignore_pattern::IgnorePattern;
use std::alloc::{AllocError, Global};

/// Whether globs cover a glob; of [`covering_pattern`], whether patterns cover a pattern.
#[derive(Drop)]
pub enum Coverage {
    /// Each path of the domain that the glob matches is matched by some of the others.
    Covered,
    /// This path of the domain is matched by the glob, and by none of the others. No shorter path is.
    Not(Vec<u8>),
    /// There are more rows than the limit.
    Unknown,
}

/// Whether globs match some path in common.
#[derive(Drop)]
pub enum Intersection {
    /// No path of the domain is matched by both.
    Disjoint,
    /// This path of the domain is matched by both. No shorter path is.
    Both(Vec<u8>),
    /// There are more rows than the limit.
    Unknown,
}

/// Returns whether other globs together match each path of a domain that a glob matches, and otherwise a shortest path that they
/// miss. The path has a letter, a digit or `/` wherever the globs read such a byte like the byte that is needed.
///
/// Globs match here as their matchers do, also those that a set excludes. It returns [`Coverage::Unknown`] if paths lead to more
/// than `limit` rows. A row is a set of states of the globs, and a place in the domain. Memory is at most linear in the rows,
/// times the states of the globs. Fails only if memory runs out.
pub fn covering(
    alloc: Global,
    glob: &Glob,
    by: &[Glob],
    domain: Domain,
    limit: usize,
) -> Result<Coverage, Error>
    ensures ok { IfOk result (TellsCovering glob_matches glob.now by.now domain limit) }
    ensures err { IsOkUnless result out_of_memory }
{
    Ok(cover(alloc, (), glob, by, domain, limit)?)
}

/// Returns whether other patterns of ignore files together match each path of a domain that a pattern matches, and otherwise a
/// shortest path that they miss.
///
/// Patterns match as `core.ignoreCase` of git says. Which of them are negated, or for folders alone, has no effect:
/// [`unreachable_rules`] is about that. It has the limit and the cost of [`covering`]. Fails only if memory runs out.
///
/// [`unreachable_rules`]: crate::unreachable_rules
pub fn covering_pattern(
    alloc: Global,
    pattern: &IgnorePattern,
    by: &[IgnorePattern],
    ignore_case: bool,
    domain: Domain,
    limit: usize,
) -> Result<Coverage, AllocError>
    ensures { IfOk result
        (TellsCovering (pattern_matches ignore_case) pattern.now by.now domain limit) }
{
    cover(alloc, ignore_case, pattern, by, domain, limit)
}

/// Returns whether other items cover an item.
fn cover<T: Compared>(
    alloc: Global,
    options: T::Options,
    item: &T,
    by: &[T],
    domain: Domain,
    limit: usize,
) -> Result<Coverage, AllocError>
    ensures { IfOk result (TellsCovering (T.matches options) item.now by.now domain limit) }
{
    let all = numbers(alloc, 0, by.len())?;
    covering_at(alloc, options, item, by, &all, domain, limit)
}

/// Returns whether each path of a domain that an item matches is matched by some of the items of a list at these indexes.
pub(crate) fn covering_at<T: Compared>(
    alloc: Global,
    options: T::Options,
    item: &T,
    items: &[T],
    by: &[usize],
    domain: Domain,
    limit: usize,
) -> Result<Coverage, AllocError>
    requires { (k : ℕ) → Contains by.now k → k < length items.now }
    ensures { IfOk result
        (TellsCovering (T.matches options) item.now (items_at items.now by.now) domain limit) }
{
    let automaton = builder_at(alloc, options, 2, item, items, by)?.finish();
    match search(alloc, &automaton, 1, domain, limit)? {
        SearchAnswer::Found(path) => Ok(Coverage::Not(path)),
        SearchAnswer::Nothing => Ok(Coverage::Covered),
        SearchAnswer::Limit => Ok(Coverage::Unknown),
    }
}

/// Returns whether two globs match no path of a domain in common, and otherwise a shortest path that both match.
///
/// It has the limit and the cost of [`covering`]. Fails only if memory runs out.
pub fn overlap(
    alloc: Global,
    a: &Glob,
    b: &Glob,
    domain: Domain,
    limit: usize,
) -> Result<Intersection, Error>
    ensures ok { IfOk result (TellsOverlap a.now b.now domain limit) }
    ensures err { IsOkUnless result out_of_memory }
{
    // One glob has the index 0, the other has the index 1, and none has the index 2.
    let mut builder = new_builder(alloc, 3);
    a.add_to(alloc, (), &mut builder, 0)?;
    b.add_to(alloc, (), &mut builder, 1)?;
    match search(alloc, &builder.finish(), 2, domain, limit)? {
        SearchAnswer::Found(path) => Ok(Intersection::Both(path)),
        SearchAnswer::Nothing => Ok(Intersection::Disjoint),
        SearchAnswer::Limit => Ok(Intersection::Unknown),
    }
}
