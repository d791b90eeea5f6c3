//! Sets of states.

ghost use Rattle.bit_sets.specs.inner.Bounds.{AreBounds};

use crate::visits::Visits;
use crate::words::{clear_between, grow, has_bit, last_in_word, set_bit, words_for};
use std::alloc::{AllocError, Global};

/// A set of states, as a bit for each.
///
/// It is made once, and holds sets of states of any automaton that has at most as many states as it has room for. Only an
/// automaton's calls tell which states are in it. To read or clear it takes time linear in the distance between its lowest and
/// its highest state, however much room it has.
#[derive(Drop)]
pub struct StateSet {
    words: Vec<u64>,
    /// No lower state is in the set, so words before it are neither read nor cleared.
    first: usize,
    /// No higher state is in the set, so words after it are neither read nor cleared. If it is below `first`, the set is
    /// empty.
    last: usize,
    ghost bounds: { AreBounds words.items first last },
}

impl StateSet {
    ghost use Rattle.std.specs.Prelude.{◌≡◌, ℕ, ◌+◌, ◌<◌, ◌≤◌, ◌||◌, ◌==◌, ◌↔◌, false, MatchOption, IfOk, OnOk, IsOk, IsTrue};
    ghost use Rattle.bit_sets.specs.Bits.{TellsLastBelow};
    ghost use Rattle.bit_sets.specs.StateSets.{has_state, state_capacity};
    ghost use Rattle.bit_sets.specs.Numbers.{AreBelow, has_number};

    /// Returns an empty set with room for no state. It allocates nothing.
    pub fn empty(alloc: Global) -> StateSet
        ensures room { state_capacity result ≡ 0 }
        ensures none { (s : ℕ) → has_state result s ≡ false }
    {
        StateSet {
            words: Vec::new(alloc),
            first: usize::MAX,
            last: 0,
        }
    }

    /// Returns an empty set with room for `states` states. It allocates a bit for each.
    pub fn new(alloc: Global, states: usize) -> Result<StateSet, AllocError>
        ensures room { IfOk result (λ set. states ≤ state_capacity set) }
        ensures least { IfOk result (λ set. state_capacity set < states + 64) }
        ensures none { IfOk result (λ set. (s : ℕ) → has_state set s ≡ false) }
    {
        let mut words = Vec::new(alloc);
        words.resize(words_for(states), 0)?;
        Ok(StateSet {
            words,
            first: usize::MAX,
            last: 0,
        })
    }

    /// Makes room for `states` states, if there is less. It allocates a bit for each.
    pub fn reserve(&mut self, states: usize) -> Result<(), AllocError>
        ensures ok { OnOk result (states ≤ state_capacity self.new) }
        ensures kept { state_capacity self.old ≤ state_capacity self.new }
        ensures memory { states ≤ state_capacity self.old → IsOk result }
    {
        grow(&mut self.words, words_for(states))
    }

    /// Returns whether there is room for `states` states.
    pub fn has_capacity_for(&self, states: usize) -> bool
        ensures { IsTrue result ↔ (states ≤ state_capacity self.now) }
    {
        words_for(states) <= self.words.len()
    }

    /// Takes every state out.
    pub fn clear(&mut self)
        ensures room { state_capacity self.new ≡ state_capacity self.old }
        ensures none { (s : ℕ) → has_state self.new s ≡ false }
    {
        if self.first <= self.last {
            clear_between(&mut self.words, self.first, self.last);
        }
        self.first = usize::MAX;
        self.last = 0;
    }

    /// Puts a state in.
    pub fn put(&mut self, state: usize)
        requires { state < state_capacity self.old }
        ensures room { state_capacity self.new ≡ state_capacity self.old }
        ensures has { (t : ℕ) → has_state self.new t ≡ ((t == state) || has_state self.old t) }
    {
        set_bit(&mut self.words, state);
        self.first = self.first.min(state);
        self.last = self.last.max(state);
    }

    /// Puts several states in.
    pub fn put_all(&mut self, states: &[usize])
        requires { AreBelow (state_capacity self.old) states.now }
        ensures room { state_capacity self.new ≡ state_capacity self.old }
        ensures has { (t : ℕ)
            → has_state self.new t ≡ (has_number t states.now || has_state self.old t) }
    {
        for state in states {
            self.put(*state);
        }
    }

    /// Returns whether no state was put in since the set was made or cleared.
    pub fn is_empty(&self) -> bool
        ensures { IsTrue result → (s : ℕ) → has_state self.now s ≡ false }
    {
        self.last < self.first
    }

    /// Returns whether a state is in the set. It is a visit.
    pub fn has(&self, state: usize, visits: &mut Visits) -> bool
        requires { state < state_capacity self.now }
        ensures has { result ≡ has_state self.now state }
        ensures visits { visits.new ≡ visits.old + 1 }
    {
        visits.tick();
        has_bit(&self.words, state)
    }

    /// Returns the highest state of the set that is below a bound, or `None` if there is none.
    ///
    /// It reads the words of the states from the bound down to the result, or to the lowest state of the set. Each read is a
    /// visit.
    pub fn last_below(&self, limit: usize, visits: &mut Visits) -> Option<usize>
        requires { limit ≤ state_capacity self.now }
        ensures found { TellsLastBelow (has_state self.now) limit result }
        ensures visits { MatchOption result (visits.new ≤ visits.old + limit)
            (λ s. visits.new + s ≤ visits.old + limit) }
        ensures counted { MatchOption result (visits.old ≤ visits.new)
            (λ _. visits.old < visits.new) }
    {
        let mut end = if self.last < limit {
            self.last + 1
        } else {
            limit
        };
        while self.first < end {
            visits.tick();
            let last = end - 1;
            if let Some(state) = last_in_word(&self.words, last) {
                return Some(state);
            }
            end = last / 64 * 64;
        }
        None
    }
}
