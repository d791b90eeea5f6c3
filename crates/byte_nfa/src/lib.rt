//! Automata over bytes: which of several ends a text leads to.
//!
//! A [`Builder`] makes an [`Nfa`] from states. A state reads a byte and goes on to another state, goes on to others without a
//! byte, or is an end, which names an index. The calls of an [`Nfa`] read states and do not count them.
//!
//! A [`Simulation`] runs an automaton: it reads a text by sets of states ([`stepping`]), and counts each state that it reads. The
//! crate `lazy_dfa` runs one by rows, which it makes from passes over such sets ([`pass`]).
#![tactic(auto)]

mod builder;
mod nfa;
mod simulation;
mod state;
pub mod stepping;

pub use builder::Builder;
pub use nfa::{Nfa, StateRef};
pub use simulation::Simulation;
pub use stepping::StateSets;
