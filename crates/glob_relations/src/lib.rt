//! Containment and disjointness of globs: whether the globs of a list match each path that a glob matches, whether two globs
//! match a path in common, and which globs of a list never decide. Each answer has a path that shows it, or holds for all
//! paths.
//!
//! [`covering`], [`overlap`] and [`unreachable`] are the calls. [`covering_pattern`] and [`unreachable_rules`] ask about patterns
//! and rules of ignore files. A question is about the paths of a [`Domain`].
//!
//! ```
//! use glob_relations::{Coverage, Domain, covering};
//! use globset_glob::Glob;
//!
//! let glob = Glob::new(alloc, "src/a/*.c")?;
//! let by = Vec::from_array(alloc, [Glob::new(alloc, "docs/**")?, Glob::new(alloc, "src/**")?])?;
//! let answer = covering(alloc, &glob, &by, Domain::RelativePaths, 1000)?;
//! assert!(rt; matches!(&answer, Coverage::Covered));
//! ```
#![tactic(auto)]

mod classes;
mod compared;
mod domain;
mod finding;
mod ignoring;
pub mod laws;
mod leading;
mod pass;
mod relations;
mod rows;
mod rules;
mod search;
mod unused;

pub use domain::Domain;
pub use relations::{Coverage, Intersection, covering, covering_pattern, overlap};
pub use rules::{RuleReachability, unreachable_rules};
pub use unused::{Decides, Reachability, unreachable};
