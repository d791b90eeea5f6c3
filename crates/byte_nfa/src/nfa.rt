//! Automata over bytes that can be in several states at once.

ghost use Rattle.std.specs.Prelude.{◌≡◌, ℕ, ◌+◌, ◌<◌, ◌≤◌, ◌⊎◌, ◌↔◌, [], List, IsTrue, IsFalse, Some, IfOk, ◌*◌, ◌^◌, length, MatchOption, IfSome, ◌||◌, ◌==◌, false, None};
ghost use Rattle.bit_sets.specs.Bytes.{has_byte};
ghost use Rattle.bit_sets.specs.Indexes.{has_index, index_capacity};
ghost use Rattle.bit_sets.specs.Numbers.{AreBelow};
ghost use Rattle.bit_sets.specs.StateSets.{state_capacity, has_state};
ghost use Rattle.byte_nfa.specs.Steps.{NfaValue, IsReached, state, match_state};
ghost use Rattle.byte_nfa.specs.Equivalent.{AreEquivalent};
ghost use Rattle.byte_nfa.specs.Runs.{size, AcceptsFrom, AreAccepting, HasLastBytes};
ghost use Rattle.byte_nfa.specs.inner.Views.{AreSound, nfa, GoesBelow};
ghost use Rattle.byte_nfa.specs.inner.Pass.{goes_next, EndsBy, LeadsBy, goes_now, names};
ghost use Rattle.byte_nfa.specs.EarlyMatches.{Decides, EndsAtEarlyMatches};
ghost use Rattle.byte_nfa.specs.inner.Exits.{TellDecisions};
ghost use Rattle.byte_nfa.specs.Live.{AreLive};
ghost use Rattle.bit_sets.specs.Texts.{AllBytes};
ghost use Rattle.byte_nfa.specs.Reading.{is_read};

use crate::state::{State, exits_of, is_in, set_of};
use bit_sets::{ByteSet, IndexSet, StateSet, Visits};
use std::alloc::{AllocError, Global};
use std::marker::Model;

/// A nondeterministic automaton: states over bytes, and the starts among them.
///
/// Its calls are for code that makes something from it, such as a deterministic automaton. They read states and do not count
/// their reads. What runs it counts each read of a state.
#[derive(Drop)]
pub struct Nfa {
    states: Vec<State>,
    sets: Vec<ByteSet>,
    targets: Vec<usize>,
    starts: Vec<usize>,
    index_count: usize,
}

impl Model for Nfa {
    ghost Value = { NfaValue };

    ghost view = { λ a. nfa a.sets.items a.targets.items a.states.items a.starts.items a.index_count };

    ghost invariant = { λ a. AreSound a.sets.items a.targets.items a.states.items a.starts.items a.index_count };
}

/// A state, as [`Nfa::state`] reads it.
#[derive(Clone, Copy)]
pub enum StateRef<'a> {
    /// Reads a byte of the set and goes on to the state.
    Bytes(&'a ByteSet, usize),
    /// Goes on without a byte to each of the states.
    Union(&'a [usize]),
    /// Stays on each byte of the set, and goes on to the state without a byte.
    Loop(&'a ByteSet, usize),
    /// Is the end of the index.
    Match(usize),
}

impl Nfa {
    /// Returns an automaton of these parts.
    pub(crate) fn from_parts(
        states: Vec<State>,
        sets: Vec<ByteSet>,
        targets: Vec<usize>,
        starts: Vec<usize>,
        index_count: usize,
    ) -> Nfa
        requires { AreSound sets.items targets.items states.items starts.items index_count }
        ensures { result ≡ nfa sets.items targets.items states.items starts.items index_count }
    {
        Nfa {
            states,
            sets,
            targets,
            starts,
            index_count,
        }
    }

    /// Returns where its memory is from.
    pub fn allocator(&self) -> Global {
        *self.states.allocator()
    }

    /// Returns the number of states. A set of states has room for each.
    pub fn state_count(&self) -> usize
        ensures { result ≡ size self.now }
    {
        self.states.len()
    }

    /// Returns a number that the index of each end is below. A set of indexes has room for each.
    pub fn index_count(&self) -> usize
        ensures { result ≡ self.now.index_count }
    {
        self.index_count
    }

    /// Returns the states in which a run begins, in the order of their additions.
    pub fn starts(&self) -> &[usize]
        ensures starts { result.now ≡ self.now.starts }
        ensures below { AreBelow (size self.now) result.now }
    {
        &self.starts
    }

    /// Puts the states in which a run begins into a set, whose old contents have no effect.
    pub fn start(&self, into: &mut StateSet)
        requires { size self.now ≤ state_capacity into.old }
        ensures room { state_capacity into.new ≡ state_capacity into.old }
        ensures starts { (y : List ℕ) (k : ℕ)
            → AcceptsFrom self.now into.new y k ↔ IsReached self.now y k }
    {
        into.clear();
        into.put_all(&self.starts);
    }

    /// Puts the index of each end that the states of a set lead to without a byte into a set of indexes, next to its contents.
    /// The states that a state of `from` leads to without a byte are put into `from`. It reads each state at most once.
    pub fn ends(&self, from: &mut StateSet, into: &mut IndexSet)
        requires from_capacity { size self.now ≤ state_capacity from.old }
        requires into_capacity { self.now.index_count ≤ index_capacity into.old }
        ensures from_capacity { state_capacity from.new ≡ state_capacity from.old }
        ensures into_capacity { index_capacity into.new ≡ index_capacity into.old }
        ensures ends { (k : ℕ)
            → IsTrue (has_index into.new k)
            ↔ (AcceptsFrom self.now from.old [] k ⊎ IsTrue (has_index into.old k)) }
    {
        let mut limit = self.state_count();
        while let Some(s) = from.last_below(limit, &mut Visits::new()) {
            if let Some(index) = self.follow_epsilons(s, from) {
                into.put(index);
            }
            limit = s;
        }
    }

    /// Returns a set that has a byte `b` below 255 if some state reads exactly one of `b` and `b + 1`. If the set lacks `b`, both
    /// bytes lead to the same ends.
    ///
    /// It reads each state.
    pub fn class_boundaries(&self) -> ByteSet
        ensures { (b : ℕ) → b + 1 < 256
            → IsFalse (has_byte result b) ↔ AreEquivalent self.now.states b (b + 1) }
    {
        let mut changes = ByteSet::nothing();
        for state in &self.states {
            changes = state.add_boundaries(&self.sets, changes);
        }
        changes
    }

    /// Returns whether each set of bytes that a state reads has both of two bytes or neither. If so, what follows either byte leads
    /// to the same ends.
    pub fn reads_alike(&self, first: u8, second: u8) -> bool
        ensures { IsTrue result → AreEquivalent self.now.states first second }
    {
        for set in &self.sets {
            if set.has(first) != set.has(second) {
                return false;
            }
        }
        true
    }

    /// Returns a number that is the same for bytes that are read alike, and mostly differs for others. It has a bit for each set
    /// of bytes that has the byte, and each of its 64 bits may stand for several sets.
    pub fn kind_of(&self, byte: u8) -> u64 {
        let mut kind = 0;
        let mut bit = 1u64;
        for set in &self.sets {
            if set.has(byte) {
                kind |= bit;
            }
            bit = bit.rotate_left(1);
        }
        kind
    }

    /// Puts the states that lead to some end without a byte into a set. The set's old contents have no effect.
    ///
    /// It reads each state.
    pub fn accepting(&self, into: &mut StateSet)
        requires { size self.now ≤ state_capacity into.old }
        ensures room { state_capacity into.new ≡ state_capacity into.old }
        ensures accepting { AreAccepting self.now into.new }
    {
        into.clear();
        for s in 0..self.state_count() {
            if self.is_accepting(s, into) {
                into.put(s);
            }
        }
    }

    /// Returns a set that has the last byte of each text that leads to some end.
    ///
    /// Each of its bytes leads from some state to a state that leads to an end without a byte. It reads each state, and takes a
    /// bit of memory for each until it returns.
    pub fn last_bytes(&self) -> Result<ByteSet, AllocError>
        ensures { IfOk result (λ set. HasLastBytes self.now set) }
    {
        let mut accepting = StateSet::new(*self.states.allocator(), self.state_count())?;
        self.accepting(&mut accepting);
        let mut bytes = ByteSet::nothing();
        for s in 0..self.state_count() {
            bytes = self.add_last_bytes(s, &accepting, bytes);
        }
        Ok(bytes)
    }

    /// Returns whether a state is an end, or goes on to a state of a set without a byte.
    fn is_accepting(&self, s: usize, accepting: &StateSet) -> bool
        requires exists { s < size self.now }
        requires room { size self.now ≤ state_capacity accepting.now }
        ensures below { GoesBelow s (state self.now.states s) }
        ensures ends { IsTrue result ↔ EndsBy (state self.now.states s) (has_state accepting.now) }
    {
        self.states[s].is_accepting(s, &self.targets, accepting)
    }

    /// Returns a set together with each byte that leads from some state to a state of `accepting`.
    fn add_last_bytes(&self, s: usize, accepting: &StateSet, set: ByteSet) -> ByteSet
        requires exists { s < size self.now }
        requires room { size self.now ≤ state_capacity accepting.now }
        ensures keeps { (c : ℕ) → IsTrue (has_byte set c) → IsTrue (has_byte result c) }
        ensures last { (c t : ℕ) → IsTrue (goes_next (state self.now.states s) s (Some c) t)
            → IsTrue (has_state accepting.now t) → IsTrue (has_byte result c) }
    {
        self.states[s].add_last_bytes(s, &self.sets, accepting, set)
    }

    /// Returns the automaton where each state that decides an index `k` is an end, of the index `index_count + k`.
    ///
    /// A state decides an index if it stays on every byte and goes on to an end of that index alone, or to a state that decides
    /// it. A text leads to an end of the index exactly if in the new automaton it does, or some beginning of it leads to an end
    /// of the index `index_count + k`. Returns `None` if twice as many indexes are too many for a `usize`.
    pub fn with_early_matches(&self) -> Result<Option<Nfa>, AllocError>
        ensures { IfOk result
            (λ made. MatchOption made (2 ^ 64 ≤ self.now.index_count * 2)
            (λ new. EndsAtEarlyMatches self.now new)) }
    {
        let Some(index_count) = self.index_count.checked_mul(2) else {
            return Ok(None);
        };
        let alloc = *self.states.allocator();
        let mut states = Vec::with_capacity(alloc, self.states.len())?;
        for s in 0..self.states.len() {
            let state = match self.early_match(s, &states) {
                Some(index) => State::Match(self.index_count + index),
                None => self.states[s],
            };
            states.push(state)?;
        }
        let sets = Vec::from_slice(alloc, &self.sets)?;
        let targets = Vec::from_slice(alloc, &self.targets)?;
        let starts = Vec::from_slice(alloc, &self.starts)?;
        Ok(Some(Nfa::from_parts(states, sets, targets, starts, index_count)))
    }

    /// Returns the index that a state decides, by what stands in the new automaton for the states below it.
    fn early_match(&self, s: usize, below: &[State]) -> Option<usize>
        requires exists { s < size self.now }
        requires len { s ≤ length below.now }
        requires below { TellDecisions self.now.states self.now.index_count s below.now }
        ensures { MatchOption result ((k : ℕ) → Decides self.now.states s k → ⊥)
            (λ k. Decides self.now.states s k × (k < self.now.index_count)) }
    {
        let Some(exit) = self.states[s].only_exit(s, &self.sets) else {
            return None;
        };
        match below[exit] {
            State::Match(index) if index >= self.index_count => Some(index - self.index_count),
            State::Match(index) => Some(index),
            _ => None,
        }
    }

    /// Puts the states that can still lead to an end into a set. The set's old contents have no effect.
    ///
    /// It reads each state.
    pub fn live(&self, into: &mut StateSet)
        requires { size self.now ≤ state_capacity into.old }
        ensures room { state_capacity into.new ≡ state_capacity into.old }
        ensures live { AreLive self.now into.new }
    {
        into.clear();
        for s in 0..self.state_count() {
            if self.is_leading(s, into) {
                into.put(s);
            }
        }
    }

    /// Returns whether some bytes lead from the states of a set to an end. `live` has all such states. It reads each state of the
    /// set at most once, which is a visit.
    pub fn has_live(&self, from: &StateSet, live: &StateSet, visits: &mut Visits) -> bool
        // Both sets have room for each state.
        requires from_capacity { size self.now ≤ state_capacity from.now }
        requires live_capacity { size self.now ≤ state_capacity live.now }

        // `live` has exactly the states that can lead to an end, and the result says whether `from` has such a state.
        requires live { AreLive self.now live.now }
        ensures some { IsTrue result
            ↔ ((y : List ℕ) × (k : ℕ) × AllBytes y × AcceptsFrom self.now from.now y k) }

        // The visits are bounded.
        ensures visits { visits.new ≤ visits.old + size self.now }
        ensures counted { visits.old ≤ visits.new }
    {
        let mut limit = self.state_count();
        while let Some(s) = from.last_below(limit, visits) {
            if is_in(live, s) {
                return true;
            }
            limit = s;
        }
        false
    }

    /// Returns whether a state is an end, leads to a state of a set without a byte, or leads by a byte to a lower state of the
    /// set.
    fn is_leading(&self, s: usize, live: &StateSet) -> bool
        requires exists { s < size self.now }
        requires room { size self.now ≤ state_capacity live.now }
        ensures below { GoesBelow s (state self.now.states s) }
        ensures leads { IsTrue result ↔ LeadsBy (state self.now.states s) s (has_state live.now) }
    {
        self.states[s].is_leading(s, &self.sets, &self.targets, live)
    }

    /// Returns a state by its number, or `None` if there are no more states than that. The index of an end is below
    /// [`Nfa::index_count`].
    pub fn state(&self, s: usize) -> Option<StateRef<'_>>
        ensures exists { IfSome result (λ _. s < size self.now) }
        ensures read { MatchOption result (size self.now ≤ s)
            (λ found. state self.now.states s ≡ is_read found) }
        ensures named { (k : ℕ) → state self.now.states s ≡ match_state k
            → k < self.now.index_count }
    {
        if s >= self.states.len() {
            return None;
        }
        Some(match &self.states[s] {
            State::Bytes(set, next) => StateRef::Bytes(set_of(&self.sets, *set), *next),
            State::Union(at) => StateRef::Union(exits_of(&self.targets, *at)),
            State::Loop(set, exit) => StateRef::Loop(set_of(&self.sets, *set), *exit),
            State::Match(index) => StateRef::Match(*index),
        })
    }

    /// Returns by what states can be ordered: by their kind, then by the number of their set of bytes or by their index, and then by
    /// their next state. Returns `None` if no state has this number.
    pub fn order_of(&self, s: usize) -> Option<(u8, usize, usize)> {
        match self.states.get(s)? {
            State::Bytes(set, next) => Some((0, *set as usize, *next)),
            State::Union(at) => Some((1, *at, 0)),
            State::Loop(set, exit) => Some((2, *set as usize, *exit)),
            State::Match(index) => Some((3, *index, 0)),
        }
    }

    /// Returns the state that a state goes on to by a byte, or `None` if there is none.
    pub fn next_by(&self, s: usize, byte: u8) -> Option<usize>
        requires { s < size self.now }
        ensures next { MatchOption result
            ((t : ℕ) → goes_next (state self.now.states s) s (Some byte) t ≡ false)
            (λ u. (t : ℕ) → goes_next (state self.now.states s) s (Some byte) t ≡ (t == u)) }
        ensures below { IfSome result (λ u. u ≤ s) }
    {
        self.states[s].next_by(s, &self.sets, &self.targets, byte)
    }

    /// Takes the steps of a state of `from` at the end of a text: puts the states that it leads to without a byte into `from`.
    /// Returns its index if it is an end.
    pub fn follow_epsilons(&self, s: usize, from: &mut StateSet) -> Option<usize>
        // The state exists. The set has room for each state, and keeps that room.
        requires exists { s < size self.now }
        requires room { size self.now ≤ state_capacity from.old }
        ensures room { state_capacity from.new ≡ state_capacity from.old }

        // The set gets the states that this state leads to without a byte. The state leads only to lower states.
        // The result is the index of an end, or the state is no end.
        ensures from { (t : ℕ)
            → has_state from.new t
            ≡ (goes_now (state self.now.states s) t || has_state from.old t) }
        ensures below { GoesBelow s (state self.now.states s) }
        ensures end { MatchOption result ((k : ℕ) → names (state self.now.states s) None k ≡ false)
            (λ k. (state self.now.states s ≡ match_state k) × (k < self.now.index_count)) }
    {
        self.states[s].follow_epsilons(s, &self.targets, from)
    }
}
