//! Relations of rules: which never decide, and which match a path in common.

use super::rules::OwnerRules;
use super::{DOMAIN, LIMIT};
use glob_relations::{
    Coverage, Decides, Intersection, Reachability, RuleReachability, covering, overlap, unreachable,
};
use globset::{Error, Glob};
use std::alloc::Global;

/// Returns for each rule whether it ever decides: a path about which it does, or the indexes of the rules that match each path
/// that it matches. None of these can be left out.
pub fn uses(alloc: Global, rules: &OwnerRules<'_>) -> Result<Vec<RuleReachability>, Error> {
    let told = unreachable(alloc, &rules.globs, Decides::Last, DOMAIN, LIMIT)?;
    let mut uses = Vec::new(alloc);
    for rule in 0..rules.lines.len() {
        uses.push(use_of(alloc, rules, rule, &told)?)?;
    }
    Ok(uses)
}

/// Returns whether a rule ever decides, by what is told of each glob. The last glob that matches a path is one of the rule that
/// decides, so a rule decides where one of its globs does. It is not known if that is not known of a glob, and none decides.
fn use_of(
    alloc: Global,
    rules: &OwnerRules<'_>,
    rule: usize,
    told: &[Reachability],
) -> Result<RuleReachability, Error> {
    let mut globs = Vec::new(alloc);
    let mut is_known = true;
    for of_glob in told.get(rules.range(rule)).unwrap_or(&[]) {
        match of_glob {
            Reachability::Decides(path) => {
                let path = path.to_vec(alloc)?;
                return Ok(RuleReachability::Decides(path));
            }
            Reachability::Never(by) => globs.extend_from_slice(by)?,
            Reachability::Unknown => is_known = false,
        }
    }
    if !is_known {
        return Ok(RuleReachability::Unknown);
    }
    let by = rules.rules_after(alloc, rule, &globs)?;
    Ok(RuleReachability::Never(least(alloc, rules, rule, by)?))
}

/// Returns those of the rules `by`, which cover a rule together, that are needed. A rule whose search reaches the limit stays.
fn least(
    alloc: Global,
    rules: &OwnerRules<'_>,
    rule: usize,
    by: Vec<usize>,
) -> Result<Vec<usize>, Error> {
    let mut least = by;
    for place in (0..least.len()).rev() {
        let fewer = rules.globs_without(alloc, &least, place)?;
        if covers(alloc, rules, rule, &fewer)? && place < least.len() {
            least.remove(place);
        }
    }
    Ok(least)
}

/// Returns whether globs match each path that a rule matches, and the limit was not reached.
fn covers(alloc: Global, rules: &OwnerRules<'_>, rule: usize, by: &[Glob]) -> Result<bool, Error> {
    for glob in rules.globs_of(rule) {
        let told = covering(alloc, glob, by, DOMAIN, LIMIT)?;
        if !matches!(told, Coverage::Covered) {
            return Ok(false);
        }
    }
    Ok(true)
}

/// Returns a shortest path that both of two rules match, or that there is none, or that the limit was reached.
pub fn common(
    alloc: Global,
    rules: &OwnerRules<'_>,
    a: usize,
    b: usize,
) -> Result<Intersection, Error> {
    let mut found = Intersection::Disjoint;
    for first in rules.globs_of(a) {
        for second in rules.globs_of(b) {
            let told = overlap(alloc, first, second, DOMAIN, LIMIT)?;
            if rank_of(&told) < rank_of(&found) {
                found = told;
            }
        }
    }
    Ok(found)
}

/// The rank of an answer, lower for a shorter path. That of no path is higher if it is certain.
#[derive(Clone, Copy, PartialEq, Eq, PartialOrd, Ord)]
enum Rank {
    /// The length of the path.
    Path(usize),
    Unknown,
    Disjoint,
}

fn rank_of(told: &Intersection) -> Rank {
    match told {
        Intersection::Both(path) => Rank::Path(path.len()),
        Intersection::Unknown => Rank::Unknown,
        Intersection::Disjoint => Rank::Disjoint,
    }
}
