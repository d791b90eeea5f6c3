//! Laws of globs that cover a glob, and of globs that are disjoint, as contracts. These functions have an empty body.

ghost use Rattle.glob_relations.specs.Laws.{CoveredIsNotNeeded, CoversItself, CoversWithMore, DisjointShareNone};

/// A glob is covered by itself.
pub fn covers_itself()
    ensures { CoversItself }
{}

/// What some globs cover is covered by more globs.
pub fn covers_with_more()
    ensures { CoversWithMore }
{}

/// No path of the domain is matched by both of two disjoint globs.
pub fn disjoint_share_none()
    ensures { DisjointShareNone }
{}

/// If the other globs of a set cover one, `is_match` of the set without it returns the same for each path of the domain. Globs
/// that a set excludes do not count among the others.
pub fn covered_is_not_needed()
    ensures { CoveredIsNotNeeded }
{}
