//! States that may lead to an end by some text.

ghost use Rattle.std.specs.Prelude.{◌≡◌, ℕ, true, Contains, slice_index_or, IsTrue, IfOk};
ghost use Rattle.byte_nfa.specs.Steps.{state};
ghost use Rattle.glob_relations.specs.inner.Leading.{AreLeading, LeadsOn, mark};

use byte_nfa::{Nfa, StateRef};
use std::alloc::{AllocError, Global};

/// Returns a mark for each state of an automaton: `false` only if no text leads from the state to an end of an index.
///
/// It reads each state once, from the lowest on, since states lead to lower ones. A state without a mark counts as marked.
pub fn leading(alloc: Global, automaton: &Nfa, index: usize) -> Result<Vec<bool>, AllocError>
    ensures { IfOk result (λ marks. AreLeading automaton.now index marks.items) }
{
    let mut marks = Vec::new(alloc);
    for s in 0..automaton.state_count() {
        let leads = leads_on(automaton, s, index, &marks);
        marks.push(leads)?;
    }
    Ok(marks)
}

/// Returns whether a state is an end of an index, or leads to a state whose mark is not `false`.
fn leads_on(automaton: &Nfa, s: usize, index: usize, marks: &[bool]) -> bool
    ensures { LeadsOn index marks.now (state automaton.now.states s) → IsTrue result }
{
    match automaton.state(s) {
        Some(StateRef::Bytes(_, next)) => mark(marks, next),
        Some(StateRef::Union(states)) => has_leading(marks, states),
        Some(StateRef::Loop(_, exit)) => mark(marks, exit),
        Some(StateRef::Match(end)) => end == index,
        None => true,
    }
}

/// Returns whether the mark of some of several states is not `false`.
pub fn has_leading(marks: &[bool], states: &[usize]) -> bool
    ensures { (t : ℕ) → Contains states.now t → IsTrue (mark marks.now t) → IsTrue result }
{
    for s in states {
        if mark(marks, *s) {
            return true;
        }
    }
    false
}

/// Returns the mark of a state, or `true` if it has none.
fn mark(marks: &[bool], s: usize) -> bool
    ensures { result ≡ slice_index_or marks.now s true }
{
    if s < marks.len() { marks[s] } else { true }
}
