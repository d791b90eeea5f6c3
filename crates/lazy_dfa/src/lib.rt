//! Runs of automata over texts by rows of a deterministic automaton, which are made while texts are read, in a memory of fixed
//! size.
//!
//! A [`Cache`] runs a [`Simulation`](byte_nfa::Simulation), and finds the same ends. It holds the rows that its texts needed so
//! far: an automaton may have far more rows than texts ever lead to. If rows are forgotten twice in a text, a part of the text is
//! read by sets of states, and then the run goes back to rows.
#![tactic(auto)]

mod cache;
mod classes;
mod dfa;
mod lists;
mod pass;
mod rows;
mod run;

pub use cache::Cache;
pub use dfa::Dfa;
