//! Matchers of sets of globs: the stored form of a set, which returns the indexes of its globs that match a path. The crates
//! `globset` and `c_objects` use it, and neither re-exports it.
//!
//! [`SetMatcherBuilder`] takes globs in order, and puts the tokens of each where its strategy says. [`SetMatcher`] looks up keys
//! for the globs that a key decides, and runs automata for the others. They work in memory of the caller, which may
//! have rows of automata from path to path ([`engine::Memory`]).
#![tactic(auto)]

mod automata;
mod folders;
mod literal_index;
mod matcher;
mod path_part;

pub use matcher::{SetMatcher, SetMatcherBuilder};
