//! Steps of an automaton over lists of states.

ghost use Rattle.std.specs.Prelude.{◌≡◌, ℕ, ◌<◌, ◌≤◌, ◌||◌, ◌↔◌, ◌∷◌, [], List, Some, IsTrue, IfOk};
ghost use Rattle.bit_sets.specs.Indexes.{has_index, index_capacity};
ghost use Rattle.bit_sets.specs.Numbers.{has_number, AreBelow};
ghost use Rattle.bit_sets.specs.StateSets.{has_state, state_capacity};
ghost use Rattle.byte_nfa.specs.Runs.{size, AcceptsFrom};
ghost use Rattle.byte_nfa.specs.Steps.{state};
ghost use Rattle.byte_nfa.specs.inner.Pass.{goes_now, goes_next};
ghost use Rattle.byte_nfa.specs.inner.Views.{GoesBelow};
ghost use Rattle.glob_relations.specs.inner.Rows.{AcceptsIn, AreStates, IsWantedBy};

use bit_sets::{IndexSet, StateSet, Visits};
use byte_nfa::Nfa;
use std::alloc::{AllocError, Global};

/// Puts the states that a byte leads to from the states of a list into a set. The sets' old contents have no effect.
pub fn step(automaton: &Nfa, states: &[usize], byte: u8, from: &mut StateSet, to: &mut StateSet)
    // The list has only states of the automaton, and both sets have room for all of these.
    requires below { AreBelow (size automaton.now) states.now }
    requires from_capacity { size automaton.now ≤ state_capacity from.old }
    requires to_capacity { size automaton.now ≤ state_capacity to.old }

    // Both sets keep their room. From `to`, a text leads to the ends that the byte and the text lead to from the list.
    ensures from_capacity { state_capacity from.new ≡ state_capacity from.old }
    ensures to_capacity { state_capacity to.new ≡ state_capacity to.old }
    ensures steps { (y : List ℕ) (k : ℕ)
        → AcceptsIn automaton.now states.now (byte ∷ y) k ↔ AcceptsFrom automaton.now to.new y k }
{
    load(automaton, states, from);
    step_set(automaton, byte, from, to);
}

/// Makes a set hold the states of a list, and no others.
fn load(automaton: &Nfa, states: &[usize], into: &mut StateSet)
    requires below { AreBelow (size automaton.now) states.now }
    requires capacity { size automaton.now ≤ state_capacity into.old }
    ensures capacity { state_capacity into.new ≡ state_capacity into.old }
    ensures same { (y : List ℕ) (k : ℕ)
        → AcceptsIn automaton.now states.now y k ↔ AcceptsFrom automaton.now into.new y k }
{
    let _automaton = automaton;
    into.clear();
    into.put_all(states);
}

/// Puts the states that a byte leads to from the states of a set into another set, whose old states have no effect.
///
/// It takes each state at most once, from the highest on. What a state of `from` goes on to without a byte is put into `from`,
/// before the pass comes to it.
pub fn step_set(automaton: &Nfa, byte: u8, from: &mut StateSet, to: &mut StateSet)
    requires from_capacity { size automaton.now ≤ state_capacity from.old }
    requires to_capacity { size automaton.now ≤ state_capacity to.old }
    ensures from_capacity { state_capacity from.new ≡ state_capacity from.old }
    ensures to_capacity { state_capacity to.new ≡ state_capacity to.old }
    ensures steps { (y : List ℕ) (k : ℕ)
        → AcceptsFrom automaton.now from.old (byte ∷ y) k ↔ AcceptsFrom automaton.now to.new y k }
{
    to.clear();
    let mut limit = automaton.state_count();
    while let Some(s) = from.last_below(limit, &mut Visits::new()) {
        take(automaton, s, byte, from, to);
        limit = s;
    }
}

/// Takes the steps of a state of `from`: puts into `from` what it goes on to without a byte, and into `to` what it goes on to by
/// the byte.
fn take(automaton: &Nfa, s: usize, byte: u8, from: &mut StateSet, to: &mut StateSet)
    // The automaton has the state, and both sets have room for all of its states.
    requires exists { s < size automaton.now }
    requires from_capacity { size automaton.now ≤ state_capacity from.old }
    requires to_capacity { size automaton.now ≤ state_capacity to.old }

    // Both sets keep their room.
    ensures from_capacity { state_capacity from.new ≡ state_capacity from.old }
    ensures to_capacity { state_capacity to.new ≡ state_capacity to.old }

    // What the state goes on to without a byte is below it. This is added to `from`, and what it goes on to by the byte to `to`.
    ensures below { GoesBelow s (state automaton.now.states s) }
    ensures from { (t : ℕ)
        → has_state from.new t
        ≡ (goes_now (state automaton.now.states s) t || has_state from.old t) }
    ensures to { (t : ℕ)
        → has_state to.new t
        ≡ (goes_next (state automaton.now.states s) s (Some byte) t || has_state to.old t) }
{
    let _end = automaton.follow_epsilons(s, from);
    if let Some(next) = automaton.next_by(s, byte) {
        to.put(next);
    }
}

/// Returns whether the states of a list lead to the ends of all indexes below a number without a byte, and to none of that
/// number.
pub fn is_wanted(
    automaton: &Nfa,
    required: usize,
    states: &[usize],
    from: &mut StateSet,
    ends: &mut IndexSet,
) -> bool
    // The list has only states of the automaton. `from` has room for all of these, and `ends` for all indexes.
    requires below { AreBelow (size automaton.now) states.now }
    requires from_capacity { size automaton.now ≤ state_capacity from.old }
    requires ends_capacity { automaton.now.index_count ≤ index_capacity ends.old }

    // Both sets keep their room, and the answer is right.
    ensures from_capacity { state_capacity from.new ≡ state_capacity from.old }
    ensures ends_capacity { index_capacity ends.new ≡ index_capacity ends.old }
    ensures wanted { IsTrue result
        ↔ IsWantedBy required (AcceptsIn automaton.now states.now []) }
{
    ends_of(automaton, states, from, ends);
    ends.has_all_below(required) && !ends.has(required)
}

/// Makes a set hold the ends that the states of a list lead to without a byte, and no others.
pub fn ends_of(automaton: &Nfa, states: &[usize], from: &mut StateSet, ends: &mut IndexSet)
    // The list has only states of the automaton. `from` has room for all of these, and `ends` for all indexes.
    requires below { AreBelow (size automaton.now) states.now }
    requires from_capacity { size automaton.now ≤ state_capacity from.old }
    requires ends_capacity { automaton.now.index_count ≤ index_capacity ends.old }

    // Both sets keep their room. `ends` has exactly the ends that the list leads to without a byte.
    ensures from_capacity { state_capacity from.new ≡ state_capacity from.old }
    ensures ends_capacity { index_capacity ends.new ≡ index_capacity ends.old }
    ensures ends { (k : ℕ)
        → IsTrue (has_index ends.new k) ↔ AcceptsIn automaton.now states.now [] k }
{
    load(automaton, states, from);
    ends.clear();
    automaton.ends(from, ends);
}

/// Returns the states of a set, from the highest to the lowest.
pub fn states_of(alloc: Global, set: &StateSet, limit: usize) -> Result<Vec<usize>, AllocError>
    requires { limit ≤ state_capacity set.now }
    ensures states { IfOk result (λ list. AreStates limit list.items) }
    ensures has { IfOk result
        (λ list. (t : ℕ)
        → IsTrue (has_number t list.items) ↔ ((t < limit) × IsTrue (has_state set.now t))) }
{
    let mut list = Vec::new(alloc);
    let mut high = limit;
    while let Some(s) = set.last_below(high, &mut Visits::new()) {
        list.push(s)?;
        high = s;
    }
    Ok(list)
}
