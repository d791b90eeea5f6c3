//! Match strategies: a set matches a glob by a key, or by an automaton.
//!
//! [`strategy_of`] returns the strategy of a glob. An automaton has the states of the tokens of several globs, and each end has
//! the index of its glob. [`new_builder`] returns an empty builder of an automaton, and [`add_tokens`] adds the tokens of a glob,
//! or a part of them that is matched like a glob of its own. The crate never reads the text of a glob.
#![tactic(auto)]

mod characters;
mod states;
mod strategy;

pub use states::{add_tokens, new_builder};
pub use strategy::{MatchStrategy, strategy_of, tokens_after_prefix, tokens_before_ending};
