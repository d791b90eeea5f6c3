//! Which items of a list match a path.

ghost use Rattle.std.specs.Prelude.{ℕ, ◌<◌, ◌↔◌, length, Contains, IfOk, IsTrue, IsFalse, MatchOption};
ghost use Rattle.bit_sets.specs.Indexes.{has_index};
ghost use Rattle.byte_nfa.specs.Steps.{IsReached};

use crate::pass::step_set;
use bit_sets::{IndexSet, StateSet};
use byte_nfa::Nfa;
use std::alloc::{AllocError, Global};
use std::mem;

/// Returns the indexes that an automaton leads a path to.
pub fn found_indexes(alloc: Global, automaton: &Nfa, path: &[u8]) -> Result<IndexSet, AllocError>
    ensures { IfOk result
        (λ found. (k : ℕ) → IsTrue (has_index found k) ↔ IsReached automaton.now path.now k) }
{
    let mut from = StateSet::new(alloc, automaton.state_count())?;
    let mut to = StateSet::new(alloc, automaton.state_count())?;
    automaton.start(&mut from);
    for byte in path {
        step_set(automaton, *byte, &mut from, &mut to);
        mem::swap(&mut from, &mut to);
    }
    let mut found = IndexSet::new(alloc, automaton.index_count())?;
    automaton.ends(&mut from, &mut found);
    Ok(found)
}

/// Returns the place of the first of some indexes that is in a set.
pub fn place_of_found(found: &IndexSet, indexes: &[usize]) -> Option<usize>
    ensures { MatchOption result
        ((k : ℕ) → Contains indexes.now k → IsFalse (has_index found.now k))
        (λ place. place < length indexes.now) }
{
    for place in 0..indexes.len() {
        if found.has(indexes[place]) {
            return Some(place);
        }
    }
    None
}
