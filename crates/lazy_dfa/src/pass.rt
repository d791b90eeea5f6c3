//! A pass over the states of a set, at a position of a text.

ghost use Rattle.std.specs.Prelude.{◌≡◌, ℕ, ◌+◌, ◌<◌, ◌≤◌, ◌||◌, ◌↔◌, ◌==◌, ◌∷◌, [], List, Some, None, length, vec_capacity, IsTrue, IfOk};
ghost use Rattle.bit_sets.specs.Indexes.{has_index, index_capacity};
ghost use Rattle.bit_sets.specs.Numbers.{has_number, AreBelow};
ghost use Rattle.bit_sets.specs.StateSets.{has_state, state_capacity};
ghost use Rattle.byte_nfa.specs.Steps.{state};
ghost use Rattle.byte_nfa.specs.Runs.{size, AcceptsFrom, AcceptsIn};
ghost use Rattle.byte_nfa.specs.inner.Views.{GoesBelow};
ghost use Rattle.byte_nfa.specs.inner.Pass.{goes_now, goes_next, names};
ghost use Rattle.lazy_dfa.specs.inner.Rows.{HasRoomFor};

use crate::dfa::Dfa;
use crate::lists::push_within;
use bit_sets::{IndexSet, StateSet, Visits};
use byte_nfa::Nfa;
use std::alloc::{AllocError, Global};
use std::mem;

/// The memory for passes over sets of states of an automaton, and what the last one found. It is taken when it is made.
#[derive(Drop)]
pub struct Pass {
    /// The states that a pass takes.
    pub from: StateSet,
    /// The states of the next pass, while a text is read without rows.
    pub next: StateSet,
    /// The indexes of the ends that are found without a byte.
    pub ends: IndexSet,
    /// The states that a byte leads to.
    pub list: Vec<u32>,
    /// Room for a list of the indexes in `ends`.
    pub told: Vec<u32>,
}

impl Pass {
    /// Returns memory for passes over all states of an automaton.
    pub fn new(alloc: Global, dfa: &Dfa) -> Result<Pass, AllocError>
        ensures { IfOk result (HasRoomFor dfa.now.run) }
    {
        let automaton = dfa.automaton();
        let states = automaton.state_count();
        Ok(Pass {
            from: StateSet::new(alloc, states)?,
            next: StateSet::new(alloc, states)?,
            ends: IndexSet::new(alloc, automaton.index_count())?,
            list: Vec::with_capacity(alloc, states)?,
            told: Vec::with_capacity(alloc, most_told(dfa))?,
        })
    }

    /// Returns for how many numbers its lists have room.
    pub fn numbers(dfa: &Dfa) -> usize {
        dfa.state_count().saturating_add(most_told(dfa))
    }

    /// Returns the bytes that its lists take.
    pub fn bytes(&self) -> usize {
        self.list
            .capacity()
            .saturating_add(self.told.capacity())
            .saturating_mul(mem::size_of::<u32>())
    }
}

/// Returns how many ends a row may lead to. An index has two: where it is found, and where it is decided.
fn most_told(dfa: &Dfa) -> usize {
    dfa.indexes().len().saturating_mul(2)
}

/// Puts the states that a byte leads to from the states of a set into the list `to`. Puts the indexes of the ends that they lead
/// to without a byte into `ends`.
///
/// It reads each state at most once, which is a visit. The list is never longer than the visits. The states that a state of
/// `from` leads to without a byte are put into `from`, before the pass comes to them. A state can be in the list twice, and the
/// list is in the order of the pass.
pub fn read(
    automaton: &Nfa,
    byte: u8,
    from: &mut StateSet,
    to: &mut Vec<u32>,
    ends: &mut IndexSet,
    visits: &mut Visits,
)
    // A `u32` holds each state. The set and the list have room for all states, and `ends` has room for all indexes.
    requires fits { size automaton.now < 4294967296 }
    requires from_capacity { size automaton.now ≤ state_capacity from.old }
    requires to_capacity { size automaton.now ≤ vec_capacity to.old }
    requires ends_capacity { automaton.now.index_count ≤ index_capacity ends.old }

    // The sets keep their capacity, and the list keeps its room.
    ensures from_capacity { state_capacity from.new ≡ state_capacity from.old }
    ensures to_capacity { vec_capacity to.old ≤ vec_capacity to.new }
    ensures ends_capacity { index_capacity ends.new ≡ index_capacity ends.old }

    // The list has the states after the byte, at most as many as there are, and `ends` has the ends without a byte.
    ensures below { AreBelow (size automaton.now) to.new.items }
    ensures few { length to.new.items ≤ size automaton.now }
    ensures steps { (y : List ℕ) (k : ℕ)
        → AcceptsFrom automaton.now from.old (byte ∷ y) k
        ↔ AcceptsIn automaton.now to.new.items y k }
    ensures ends { (k : ℕ)
        → IsTrue (has_index ends.new k) ↔ AcceptsFrom automaton.now from.old [] k }

    // The visits are at most as many as the states, and at least as many as the list is long.
    ensures visits { visits.new ≤ visits.old + size automaton.now }
    ensures counted { visits.old + length to.new.items ≤ visits.new }
{
    to.clear();
    ends.clear();
    let mut limit = automaton.state_count();
    while let Some(s) = from.last_below(limit, visits) {
        take(automaton, s, byte, from, to, ends);
        limit = s;
    }
}

/// Takes the steps of a state of `from`: puts into `from` what it goes on to without a byte, appends to `to` what it goes on to by the
/// byte, unless that is the last there, and puts its index into `ends` if it is an end.
fn take(
    automaton: &Nfa,
    s: usize,
    byte: u8,
    from: &mut StateSet,
    to: &mut Vec<u32>,
    ends: &mut IndexSet,
)
    // The automaton has the state, and a `u32` holds each of its states.
    requires exists { s < size automaton.now }
    requires fits { size automaton.now < 4294967296 }

    // `from` has room for all states, `ends` for all indexes, and `to` for one state more. `to` has states alone.
    requires from_capacity { size automaton.now ≤ state_capacity from.old }
    requires to_capacity { length to.old.items < vec_capacity to.old }
    requires ends_capacity { automaton.now.index_count ≤ index_capacity ends.old }
    requires to_below { AreBelow (size automaton.now) to.old.items }

    // The sets keep their capacity, and the list keeps its room.
    ensures from_capacity { state_capacity from.new ≡ state_capacity from.old }
    ensures to_capacity { vec_capacity to.old ≤ vec_capacity to.new }
    ensures ends_capacity { index_capacity ends.new ≡ index_capacity ends.old }

    // The list still has states alone, and at most one more than before.
    ensures to_below { AreBelow (size automaton.now) to.new.items }
    ensures few { length to.new.items ≤ length to.old.items + 1 }

    // `from` gets the lower states reached without a byte, `to` the one after the byte, and `ends` the index of an end.
    ensures below { GoesBelow s (state automaton.now.states s) }
    ensures from { (t : ℕ)
        → has_state from.new t
        ≡ (goes_now (state automaton.now.states s) t || has_state from.old t) }
    ensures to { (t : ℕ)
        → has_number t to.new.items
        ≡ (goes_next (state automaton.now.states s) s (Some byte) t
        || has_number t to.old.items) }
    ensures ends { (k : ℕ)
        → has_index ends.new k
        ≡ (names (state automaton.now.states s) None k || has_index ends.old k) }
{
    match automaton.follow_epsilons(s, from) {
        Some(index) => ends.put(index),
        None => {
            if let Some(next) = automaton.next_by(s, byte) {
                push_unless_last(to, next);
            }
        }
    }
}

/// Appends a number to a list that has room for it, unless it is the last one there.
fn push_unless_last(list: &mut Vec<u32>, number: usize)
    // A `u32` holds the number, and the list has room for it.
    requires fits { number < 4294967296 }
    requires room { length list.old.items < vec_capacity list.old }

    // The list keeps its room, becomes at most one longer, and has its old numbers and this one. Bounds on these still hold.
    ensures capacity { vec_capacity list.old ≤ vec_capacity list.new }
    ensures few { length list.new.items ≤ length list.old.items + 1 }
    ensures has { (t : ℕ)
        → has_number t list.new.items ≡ ((t == number) || has_number t list.old.items) }
    ensures below { (bound : ℕ) → number < bound → AreBelow bound list.old.items
        → AreBelow bound list.new.items }
{
    if let Some(last) = list.last() {
        if *last as usize == number {
            return;
        }
    }
    push_within(list, number);
}
