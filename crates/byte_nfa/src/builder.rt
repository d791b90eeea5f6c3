//! How an automaton is made.

ghost use Rattle.std.specs.Prelude.{◌≡◌, ℕ, ◌+◌, ◌<◌, ◌||◌, ◌++◌, ◌∷◌, [], List, length, OnOk, OnErr, IfOk};
ghost use Rattle.byte_nfa.specs.Steps.{NfaValue, bytes_state, union_state, loop_state, match_state};
ghost use Rattle.bit_sets.specs.Numbers.{AreBelow};
ghost use Rattle.bit_sets.specs.Texts.{ends_with, is_empty};
ghost use Rattle.byte_nfa.specs.Building.{Grows, Pushes};
ghost use Rattle.byte_nfa.specs.Leading.{Builds};
ghost use Rattle.byte_nfa.specs.Runs.{size};
ghost use Rattle.byte_nfa.specs.inner.Views.{AreSound, nfa};

use crate::nfa::Nfa;
use crate::state::State;
use bit_sets::{ByteSet, ByteSets};
use std::alloc::{AllocError, Global};
use std::marker::Model;

/// Makes an automaton, state by state.
///
/// A state is numbered when it is pushed, from 0 on, and its steps lead to states that are there already. So an automaton
/// is pushed from its ends to its starts, and numbers go down along its steps.
///
/// ```
/// // The texts that end in `.c`, as index 0.
/// let mut builder = Builder::new(alloc, 1);
/// let end = builder.push_match(0)?;
/// let letter = builder.push_bytes(ByteSet::only(b'c'), end)?;
/// let dot = builder.push_bytes(ByteSet::only(b'.'), letter)?;
/// let start = builder.push_loop(ByteSet::everything(), dot)?;
/// builder.add_start(start)?;
/// let automaton = builder.finish();
/// ```
///
/// A call that pushes a state changes nothing if it fails. Equal sets of bytes are stored once, as far as they are found again, and have
/// numbers below `2^32`: if sets of 128 GiB use these up, the error is that memory ran out.
pub struct Builder {
    states: Vec<State>,
    /// The sets of bytes of the states.
    sets: ByteSets,
    /// What states go on to without a byte: for each that was pushed with a list, the length of the list and then the list.
    targets: Vec<usize>,
    starts: Vec<usize>,
    index_count: usize,
}

impl Drop for Builder {
    fn drop(self) {
        let Builder {
            states: _,
            sets: _,
            targets: _,
            starts: _,
            index_count: _,
        } = self;
    }
}

impl Model for Builder {
    ghost Value = { NfaValue };

    ghost view = { λ b. nfa b.sets.sets.items b.targets.items b.states.items b.starts.items b.index_count };

    ghost invariant = { λ b. AreSound b.sets.sets.items b.targets.items b.states.items b.starts.items b.index_count };
}

impl Builder {
    /// Returns a builder of an automaton with no states, whose ends will name indexes below a number.
    pub fn new(alloc: Global, index_count: usize) -> Builder
        ensures states { result.states ≡ [] }
        ensures starts { result.starts ≡ [] }
        ensures index_count { result.index_count ≡ index_count }
    {
        Builder {
            states: Vec::new(alloc),
            sets: ByteSets::new(alloc),
            targets: Vec::new(alloc),
            starts: Vec::new(alloc),
            index_count,
        }
    }

    /// Returns the number of states so far, which is the number of the next state.
    pub fn state_count(&self) -> usize
        ensures { result ≡ size self.now }
    {
        self.states.len()
    }

    /// Pushes a state that reads a byte of the set and goes on to a state. Returns its number.
    pub fn push_bytes(&mut self, bytes: ByteSet, next: usize) -> Result<usize, AllocError>
        requires { next < size self.old }
        ensures pushed { IfOk result (λ s. Pushes self.old self.new s (bytes_state bytes next)) }
        ensures unchanged { OnErr result (self.new ≡ self.old) }
    {
        let at = self.states.len();
        let set = self.sets.number_of(bytes)?;
        self.states.push(State::Bytes(set, next))?;
        Ok(at)
    }

    /// Pushes a state that goes on to each of some states without a byte. Returns its number.
    pub fn push_union(&mut self, targets: &[usize]) -> Result<usize, AllocError>
        requires { AreBelow (size self.old) targets.now }
        ensures pushed { IfOk result (λ s. Pushes self.old self.new s (union_state targets.now)) }
        ensures unchanged { OnErr result (self.new ≡ self.old) }
    {
        let at = self.states.len();
        let list = hold_list(&mut self.targets, targets)?;
        self.states.push(State::Union(list))?;
        Ok(at)
    }

    /// Pushes a state that stays on each byte of the set, and goes on to a state without a byte. Returns its number.
    pub fn push_loop(&mut self, bytes: ByteSet, exit: usize) -> Result<usize, AllocError>
        requires { exit < size self.old }
        ensures pushed { IfOk result
            (λ s. Pushes self.old self.new s (loop_state bytes (exit ∷ []))) }
        ensures unchanged { OnErr result (self.new ≡ self.old) }
    {
        let at = self.states.len();
        let set = self.sets.number_of(bytes)?;
        self.states.push(State::Loop(set, exit))?;
        Ok(at)
    }

    /// Pushes states that go on to a state without a byte, or after any bytes that end with this byte. Returns where they begin.
    ///
    /// If it fails, some of them may have been pushed.
    pub fn push_up_to(&mut self, byte: u8, exit: usize) -> Result<usize, AllocError>
        requires { exit < size self.old }
        ensures within { IfOk result (λ s. s < size self.new) }
        ensures count { OnOk result (size self.new ≡ size self.old + 3) }
        ensures grows { Grows self.old self.new }
        ensures builds { IfOk result
            (λ s. Builds (λ y. is_empty y || ends_with byte y) self.old.states self.new.states s
            exit) }
    {
        let last = self.push_bytes(ByteSet::only(byte), exit)?;
        let stay = self.push_loop(ByteSet::everything(), last)?;
        self.push_union(&[exit, stay])
    }

    /// Pushes an end, which names an index. Returns its number.
    pub fn push_match(&mut self, index: usize) -> Result<usize, AllocError>
        requires { index < self.old.index_count }
        ensures pushed { IfOk result (λ s. Pushes self.old self.new s (match_state index)) }
        ensures unchanged { OnErr result (self.new ≡ self.old) }
    {
        let at = self.states.len();
        self.states.push(State::Match(index))?;
        Ok(at)
    }

    /// Makes a state a start of the automaton.
    pub fn add_start(&mut self, state: usize) -> Result<(), AllocError>
        requires { state < size self.old }
        ensures starts { OnOk result (self.new.starts ≡ self.old.starts ++ state ∷ []) }
        ensures states { self.new.states ≡ self.old.states }
        ensures index_count { self.new.index_count ≡ self.old.index_count }
        ensures unchanged { OnErr result (self.new ≡ self.old) }
    {
        self.starts.push(state)?;
        Ok(())
    }

    /// Returns the automaton. It may take time linear in the states, to give back memory that they do not
    /// need.
    pub fn finish(self) -> Nfa
        ensures { result ≡ self }
    {
        let Builder {
            mut states,
            sets,
            mut targets,
            mut starts,
            index_count: count,
        } = self;
        let mut sets = sets.into_vec();
        // Nothing is pushed any more. A set of globs can have many small automata.
        states.shrink_to_fit();
        sets.shrink_to_fit();
        targets.shrink_to_fit();
        starts.shrink_to_fit();
        Nfa::from_parts(states, sets, targets, starts, count)
    }
}

/// Appends the length of a list, and the list. Returns the place of the length.
fn hold_list(held: &mut Vec<usize>, list: &[usize]) -> Result<usize, AllocError>
    ensures at { IfOk result (λ at. at ≡ length held.old.items) }
    ensures items { OnOk result (held.new.items ≡ held.old.items ++ length list.now ∷ list.now) }
    ensures more { (more : List ℕ) × (held.new.items ≡ held.old.items ++ more) }
{
    let at = held.len();
    held.push(list.len())?;
    held.extend_from_slice(list)?;
    Ok(at)
}
