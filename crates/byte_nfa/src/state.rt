//! States, as an automaton keeps them.

ghost use Rattle.std.specs.Prelude.{◌≡◌, ℕ, ◌+◌, ◌<◌, ◌≤◌, ◌||◌, ◌↔◌, ◌==◌, List, length, slice_index, false, Some, IsTrue, IfSome, MatchOption};
ghost use Rattle.bit_sets.specs.Bytes.{has_byte, set_at};
ghost use Rattle.bit_sets.specs.StateSets.{has_state, state_capacity};
ghost use Rattle.bit_sets.specs.declared.byte_set.ByteSet.{ByteSet};
ghost use Rattle.byte_nfa.specs.Equivalent.{HasAlsoBoundaries};
ghost use Rattle.bit_sets.specs.Numbers.{AreBelow, has_number};
ghost use Rattle.byte_nfa.specs.inner.Exits.{TellsExit};
ghost use Rattle.byte_nfa.specs.inner.Views.{exits_at, of_state, IsHeld, GoesBelow};
ghost use Rattle.byte_nfa.specs.inner.Pass.{goes_now, goes_next, TellsEnd, EndsBy, LeadsBy};

use bit_sets::{ByteSet, StateSet, Visits};

/// A state, in 16 bytes. Its set of bytes is the number of a set of the automaton. Several next states are a place in the
/// automaton's list of next states, where their count stands before them.
///
/// States are numbered in the order of their pushes, and a state's next states were there before it. So numbers go down along
/// each step.
#[derive(Clone, Copy)]
pub enum State {
    /// Reads a byte of the set and goes on.
    Bytes(u32, usize),
    /// Goes on without a byte to each state of the list at this place.
    Union(usize),
    /// Stays on each byte of the set, and goes on without a byte.
    Loop(u32, usize),
    /// Is the end of an index.
    Match(usize),
}

impl State {
    /// Returns the state that a state goes on to by a byte, or `None` if there is none.
    pub fn next_by(&self, s: usize, sets: &[ByteSet], targets: &[usize], byte: u8) -> Option<usize>
        requires held { IsHeld sets.now targets.now self.now }
        requires below { GoesBelow s (of_state sets.now targets.now self.now) }
        ensures next { MatchOption result
            ((t : ℕ) → goes_next (of_state sets.now targets.now self.now) s (Some byte) t ≡ false)
            (λ u. (t : ℕ)
            → goes_next (of_state sets.now targets.now self.now) s (Some byte) t ≡ (t == u)) }
        ensures below { IfSome result (λ u. u ≤ s) }
    {
        let _targets = targets;
        match self {
            State::Bytes(set, next) if set_of(sets, *set).has(byte) => Some(*next),
            State::Loop(set, _) if set_of(sets, *set).has(byte) => Some(s),
            _ => None,
        }
    }

    /// Takes the steps of a state at the end of the text: puts the states that it leads to without a byte into `from`. Returns
    /// its index if it is an end.
    pub fn follow_epsilons(&self, s: usize, targets: &[usize], from: &mut StateSet) -> Option<usize>
        requires below { (sets : List ByteSet) × IsHeld sets targets.now self.now
            × GoesBelow s (of_state sets targets.now self.now) }
        requires room { s < state_capacity from.old }
        ensures room { state_capacity from.new ≡ state_capacity from.old }
        ensures from { (sets : List ByteSet) (t : ℕ)
            → has_state from.new t
            ≡ (goes_now (of_state sets targets.now self.now) t || has_state from.old t) }
        ensures end { (sets : List ByteSet) → TellsEnd (of_state sets targets.now self.now) result }
    {
        match self {
            State::Bytes(_, _) => None,
            State::Union(at) => {
                from.put_all(exits_of(targets, *at));
                None
            }
            State::Loop(_, exit) => {
                from.put(*exit);
                None
            }
            State::Match(index) => Some(*index),
        }
    }

    /// Returns whether a state is an end, or goes on to a state of a set without a byte.
    pub fn is_accepting(&self, s: usize, targets: &[usize], accepting: &StateSet) -> bool
        requires below { (sets : List ByteSet) × IsHeld sets targets.now self.now
            × GoesBelow s (of_state sets targets.now self.now) }
        requires room { s < state_capacity accepting.now }
        ensures { (sets : List ByteSet)
            → IsTrue result ↔ EndsBy (of_state sets targets.now self.now)
            (has_state accepting.now) }
    {
        match self {
            State::Bytes(_, _) => false,
            State::Union(at) => has_any(accepting, exits_of(targets, *at)),
            State::Loop(_, exit) => is_in(accepting, *exit),
            State::Match(_) => true,
        }
    }

    /// Returns whether a state is an end, leads to a state of a set without a byte, or leads by a byte to a lower state of the
    /// set.
    pub fn is_leading(&self, s: usize, sets: &[ByteSet], targets: &[usize], live: &StateSet) -> bool
        requires held { IsHeld sets.now targets.now self.now }
        requires below { GoesBelow s (of_state sets.now targets.now self.now) }
        requires room { s < state_capacity live.now }
        ensures { IsTrue result
            ↔ LeadsBy (of_state sets.now targets.now self.now) s (has_state live.now) }
    {
        match self {
            State::Bytes(set, next) => is_in(live, *next) && set_of(sets, *set).has_some(),
            State::Union(at) => has_any(live, exits_of(targets, *at)),
            State::Loop(_, exit) => is_in(live, *exit),
            State::Match(_) => true,
        }
    }

    /// Returns a set together with each byte that leads a state to a state of `accepting`.
    pub fn add_last_bytes(
        &self,
        s: usize,
        sets: &[ByteSet],
        accepting: &StateSet,
        bytes: ByteSet,
    ) -> ByteSet
        requires below { (targets : List ℕ) × IsHeld sets.now targets self.now
            × GoesBelow s (of_state sets.now targets self.now) }
        requires room { s < state_capacity accepting.now }
        ensures keeps { (c : ℕ) → IsTrue (has_byte bytes c) → IsTrue (has_byte result c) }
        ensures last { (targets : List ℕ) (c t : ℕ)
            → IsTrue (goes_next (of_state sets.now targets self.now) s (Some c) t)
            → IsTrue (has_state accepting.now t) → IsTrue (has_byte result c) }
    {
        match self {
            State::Bytes(set, next) if is_in(accepting, *next) => bytes.with_all(set_of(
                sets, *set,
            )),
            State::Loop(set, _) if is_in(accepting, s) => bytes.with_all(set_of(sets, *set)),
            _ => bytes,
        }
    }

    /// Returns a set together with each byte `b` where a state reads or stays on exactly one of `b` and `b + 1`.
    pub fn add_boundaries(&self, sets: &[ByteSet], bytes: ByteSet) -> ByteSet
        requires { (targets : List ℕ) × IsHeld sets.now targets self.now }
        ensures { (targets : List ℕ)
            → HasAlsoBoundaries (of_state sets.now targets self.now) bytes result }
    {
        match self {
            State::Bytes(set, _) => bytes.with_boundaries(set_of(sets, *set)),
            State::Union(_) => bytes,
            State::Loop(set, _) => bytes.with_boundaries(set_of(sets, *set)),
            State::Match(_) => bytes,
        }
    }

    /// Returns the only state that a state goes on to, if it stays on every byte.
    pub fn only_exit(&self, s: usize, sets: &[ByteSet]) -> Option<usize>
        requires below { (targets : List ℕ) × IsHeld sets.now targets self.now
            × GoesBelow s (of_state sets.now targets self.now) }
        ensures exit { (targets : List ℕ)
            → TellsExit (of_state sets.now targets self.now) s result }
    {
        match self {
            State::Loop(set, exit) if set_of(sets, *set).is_everything() => Some(*exit),
            _ => None,
        }
    }
}

/// Returns the set with a number.
pub fn set_of(sets: &[ByteSet], number: u32) -> &ByteSet
    requires { number < length sets.now }
    ensures { result.now ≡ set_at sets.now number }
{
    &sets[number as usize]
}

/// Returns the states that a list has at a place, after their count.
pub fn exits_of(targets: &[usize], at: usize) -> &[usize]
    requires { at + slice_index targets.now at < length targets.now }
    ensures { result.now ≡ exits_at targets.now at }
{
    let count = targets[at];
    &targets[at + 1..at + 1 + count]
}

/// Returns whether a state is in a set, and counts no visit: the callers are no part of a run, or count each state themselves.
pub fn is_in(set: &StateSet, state: usize) -> bool
    requires { state < state_capacity set.now }
    ensures { result ≡ has_state set.now state }
{
    set.has(state, &mut Visits::new())
}

/// Returns whether one of several states is in a set.
fn has_any(set: &StateSet, states: &[usize]) -> bool
    requires { AreBelow (state_capacity set.now) states.now }
    ensures { IsTrue result
        ↔ ((t : ℕ) × IsTrue (has_number t states.now) × IsTrue (has_state set.now t)) }
{
    for state in states {
        if is_in(set, *state) {
            return true;
        }
    }
    false
}
