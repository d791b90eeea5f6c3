//! Automata, run over texts: by rows that are known or made on demand, or stepped from a set of states to the next.
//!
//! [`Compiled`] holds an automaton, and finds to which ends a text leads, in a [`Memory`] of the caller. It keeps rows between
//! calls.
#![tactic(auto)]

mod compiled;
mod kept;
mod memory;
mod pool;
mod rows;
mod sharing;

pub use compiled::{Compiled, DEFAULT_DFA_SIZE_LIMIT};
pub use memory::Memory;
pub use sharing::shared;
