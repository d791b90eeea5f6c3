//! A glob: reading it, and matching paths against it.
#![tactic(auto)]

mod builder;
mod glob;
mod json;
mod matcher;
mod scratch;

pub use bit_sets::Visits;
pub use builder::GlobBuilder;
pub use engine::DEFAULT_DFA_SIZE_LIMIT;
pub use glob::{Glob, flat_tokens_of, options_of, text_of};
pub use glob_path::{AsPath, Candidate};
pub use glob_text::{Error, ErrorKind, ValueError, ValueErrorKind, escape};
pub use matcher::{GlobMatcher, MatcherSearcher};
pub use scratch::{NeedsScratch, Scratch};
