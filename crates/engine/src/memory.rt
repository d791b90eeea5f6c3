//! The memory that automata are run in.

ghost use Rattle.std.specs.Prelude.{◌≡◌, ◌≤◌, ◌↔◌, ◌++◌, ◌∷◌, [], false, OnOk, IsOk};

use byte_nfa::StateSets;
use lazy_dfa::Cache;
use std::alloc::{AllocError, Global};
use std::marker::Model;

/// All memory that runs of some automata need: two sets of states, where an automaton is stepped, and the rows of each automaton
/// that has any, in the slot of the automaton.
///
/// A memory without slots is for any automata. What earlier runs left in it has no effect.
#[derive(Drop)]
pub struct Memory {
    /// The automata use them in turn.
    pub(crate) sets: StateSets,
    pub(crate) caches: Vec<Option<Cache>>,
}

impl Model for Memory {
    ghost use Rattle.byte_nfa.specs.Sets.{sets_capacity};
    ghost use Rattle.engine.specs.Memory.{MemoryValue};

    ghost Value = { MemoryValue };

    ghost view = { λ m. record {
      room = sets_capacity m.sets;
      caches = m.caches.items;
    } };
}

impl Memory {
    /// Returns a memory without room and without slots. It allocates nothing.
    pub fn new(alloc: Global) -> Memory
        ensures { result.caches ≡ [] }
    {
        Memory {
            sets: StateSets::new(alloc),
            caches: Vec::new(alloc),
        }
    }

    /// Makes room for automata of so many states, if there is less. It allocates two bits for each state.
    pub fn reserve(&mut self, states: usize) -> Result<(), AllocError>
        ensures ok { OnOk result (states ≤ self.new.room) }
        ensures room { self.old.room ≤ self.new.room }
        ensures caches { self.new.caches ≡ self.old.caches }
        ensures memory { states ≤ self.old.room → IsOk result }
    {
        self.sets.reserve(states)
    }

    /// Adds a slot after the others, with a cache or without one.
    pub fn push_slot(&mut self, cache: Option<Cache>) -> Result<(), AllocError>
        ensures slot { OnOk result (self.new.caches ≡ self.old.caches ++ cache ∷ []) }
        ensures room { self.new.room ≡ self.old.room }
    {
        self.caches.push(cache)?;
        Ok(())
    }

    /// Returns how many bytes the rows may take.
    pub fn bytes(&self) -> usize {
        let mut bytes: usize = 0;
        for cache in &self.caches {
            if let Some(cache) = cache {
                bytes = bytes.saturating_add(cache.bytes());
            }
        }
        bytes
    }

    /// Returns whether a run that brings no rows may take memory: if each run may, or an automaton of so many states has no room.
    pub(crate) fn may_grow(&self, each_may: bool, states: usize) -> bool
        ensures { (result ≡ false) ↔ ((each_may ≡ false) × (states ≤ self.now.room)) }
    {
        each_may || !self.sets.has_capacity_for(states)
    }
}
