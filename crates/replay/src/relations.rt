//! Rows about globs that cover a glob, and about globs that overlap.

ghost use Rattle.std.specs.Prelude.{IfOk, MatchOption};
ghost use Rattle.glob_text.specs.GlobMatches.{glob_matches};
ghost use Rattle.glob_relations.specs.Answers.{AreDisjoint, IsCovered, IsMissed, IsShared};
ghost use Rattle.glob_relations.specs.Shortest.{IsShortest};

use crate::column::Columns;
use crate::row::RowFault;
use glob_relations::{Coverage, Domain, Intersection, covering, overlap};
use globset::{Error, Glob};
use std::alloc::Global;

/// More rows than any question of the files needs.
const LIMIT: usize = 100_000;

/// Returns whether the other globs of a case cover the glob of an index: `yes`; or `no`, and the length of a shortest path that
/// they miss.
pub fn covered(
    alloc: Global,
    globs: &[Glob],
    columns: &mut Columns<'_>,
) -> Result<String, RowFault> {
    let domain = read_domain(columns)?;
    let (index, glob) = read_glob(globs, columns)?;
    let others = others_than(alloc, globs, index)?;
    match missed(alloc, glob, &others, domain)? {
        None => Ok(String::from_str(alloc, "yes")?),
        Some(path) => Ok(format!(in alloc; "no\t{}", path.len())?),
    }
}

/// Returns whether the globs of two indexes match a path in common: `no`; or `yes`, and the length of a shortest such path.
pub fn overlapping(
    alloc: Global,
    globs: &[Glob],
    columns: &mut Columns<'_>,
) -> Result<String, RowFault> {
    let domain = read_domain(columns)?;
    let (_, a) = read_glob(globs, columns)?;
    let (_, b) = read_glob(globs, columns)?;
    match shared(alloc, a, b, domain)? {
        None => Ok(String::from_str(alloc, "no")?),
        Some(path) => Ok(format!(in alloc; "yes\t{}", path.len())?),
    }
}

/// Returns a shortest path that a glob matches and none of the others does, or `None` if they cover the glob.
fn missed(
    alloc: Global,
    glob: &Glob,
    others: &[Glob],
    domain: Domain,
) -> Result<Option<Vec<u8>>, RowFault>
    ensures { IfOk result
        (λ found. MatchOption found
        (IsCovered glob_matches glob.now others.now domain)
        (λ path. IsShortest (IsMissed glob_matches glob.now others.now domain) path.items)) }
{
    match covering(alloc, glob, others, domain, LIMIT)? {
        Coverage::Covered => Ok(None),
        Coverage::Not(path) => Ok(Some(path)),
        Coverage::Unknown => Err(RowFault::Row("the question needs too many rows")),
    }
}

/// Returns a shortest path that two globs match, or `None` if they are disjoint.
fn shared(alloc: Global, a: &Glob, b: &Glob, domain: Domain) -> Result<Option<Vec<u8>>, RowFault>
    ensures { IfOk result
        (λ found. MatchOption found
        (AreDisjoint a.now b.now domain)
        (λ path. IsShortest (IsShared a.now b.now domain) path.items)) }
{
    match overlap(alloc, a, b, domain, LIMIT)? {
        Intersection::Disjoint => Ok(None),
        Intersection::Both(path) => Ok(Some(path)),
        Intersection::Unknown => Err(RowFault::Row("the question needs too many rows")),
    }
}

/// Returns the domain of the next column: `all` for all paths, or `relative`.
fn read_domain(columns: &mut Columns<'_>) -> Result<Domain, RowFault> {
    match columns.next()? {
        "all" => Ok(Domain::AllPaths),
        "relative" => Ok(Domain::RelativePaths),
        _ => Err(RowFault::Row("no domain has this name")),
    }
}

/// Returns the index of the next column, and the glob that has it.
fn read_glob<'g>(
    globs: &'g [Glob],
    columns: &mut Columns<'_>,
) -> Result<(usize, &'g Glob), RowFault> {
    let Ok(index) = columns.next()?.parse::<usize>() else {
        return Err(RowFault::Row("an index is not a number"));
    };
    match globs.get(index) {
        Some(glob) => Ok((index, glob)),
        None => Err(RowFault::Row("no glob has this index")),
    }
}

/// Returns copies of the globs, except for the one of an index.
fn others_than(alloc: Global, globs: &[Glob], index: usize) -> Result<Vec<Glob>, Error> {
    let mut others = Vec::new(alloc);
    for (i, glob) in globs.iter().enumerate() {
        if i != index {
            others.push(glob.clone()?)?;
        }
    }
    Ok(others)
}
