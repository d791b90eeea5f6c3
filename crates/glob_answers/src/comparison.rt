//! How two lists of globs compare.

ghost use Rattle.std.specs.Prelude.{◌≡◌, IfOk, IsOkUnless};
ghost use Rattle.globset.specs.Errors.{out_of_memory};
ghost use Rattle.glob_answers.specs.Comparison.{TellsEach, TellsInclusion, TellsRelation, inclusion_after};

use glob_relations::{Coverage, Domain, covering};
use globset::{Error, Glob};
use std::alloc::Global;

/// How the paths that a list of globs matches lie to those of another list.
#[derive(Clone, Copy)]
pub enum Relation {
    /// Both lists match the same paths.
    Equal,
    /// The second list matches each path that the first matches, and others.
    Within,
    /// The first list matches each path that the second matches, and others.
    Includes,
    /// Each list matches a path that the other does not match.
    Neither,
    /// A search would take more rows than its limit.
    Unknown,
}

/// What is known of the paths of a list of globs.
#[derive(Clone, Copy)]
pub enum Inclusion {
    /// The other list matches each of them.
    Whole,
    /// The other list misses some.
    Partial,
    /// It is not known whether it misses any.
    Unknown,
}

/// Two lists of globs compared.
#[derive(Drop)]
pub struct Comparison {
    pub relation: Relation,
    /// For each glob of the first list, whether the second list covers it.
    pub first: Vec<Coverage>,
    /// For each glob of the second list, whether the first list covers it.
    pub second: Vec<Coverage>,
}

/// Compares two lists of globs by the paths of a domain that some glob of each matches.
///
/// It calls [`covering`] for each glob, so each search has the limit. Fails only if memory runs out.
pub fn compare(
    alloc: Global,
    first: &[Glob],
    second: &[Glob],
    domain: Domain,
    limit: usize,
) -> Result<Comparison, Error>
    ensures relation { IfOk result (λ c. TellsRelation first.now second.now domain c c.relation) }
    ensures first { IfOk result
        (λ c. TellsEach first.now second.now domain limit c.first.items) }
    ensures second { IfOk result
        (λ c. TellsEach second.now first.now domain limit c.second.items) }
    ensures err { IsOkUnless result out_of_memory }
{
    let (first_told, of_first) = inclusion_of(alloc, first, second, domain, limit)?;
    let (second_told, of_second) = inclusion_of(alloc, second, first, domain, limit)?;
    let relation = match (of_first, of_second) {
        (Inclusion::Whole, Inclusion::Whole) => Relation::Equal,
        (Inclusion::Whole, Inclusion::Partial) => Relation::Within,
        (Inclusion::Partial, Inclusion::Whole) => Relation::Includes,
        (Inclusion::Partial, Inclusion::Partial) => Relation::Neither,
        (Inclusion::Unknown, _) | (_, Inclusion::Unknown) => Relation::Unknown,
    };
    Ok(Comparison {
        relation,
        first: first_told,
        second: second_told,
    })
}

/// Returns for each glob whether other globs cover it, and what that says of all of them.
fn inclusion_of(
    alloc: Global,
    globs: &[Glob],
    by: &[Glob],
    domain: Domain,
    limit: usize,
) -> Result<(Vec<Coverage>, Inclusion), Error>
    ensures each { IfOk result (λ r. TellsEach globs.now by.now domain limit r.0.items) }
    ensures all { IfOk result (λ r. TellsInclusion globs.now by.now domain r.0.items r.1) }
    ensures err { IsOkUnless result out_of_memory }
{
    let mut each = Vec::new(alloc);
    let mut known = Inclusion::Whole;
    for glob in globs {
        let told = covering(alloc, glob, by, domain, limit)?;
        known = after(known, &told);
        each.push(told)?;
    }
    Ok((each, known))
}

/// Returns what is known of a list of globs with one more, of which this is told.
fn after(known: Inclusion, told: &Coverage) -> Inclusion
    ensures { result ≡ inclusion_after known told.now }
{
    match (known, told) {
        (Inclusion::Partial, _) | (_, Coverage::Not(_)) => Inclusion::Partial,
        (known, Coverage::Covered) => known,
        (_, Coverage::Unknown) => Inclusion::Unknown,
    }
}
