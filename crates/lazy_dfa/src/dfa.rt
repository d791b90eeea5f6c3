//! What all rows of an automaton are made from.

ghost use Rattle.std.specs.Prelude.{◌≡◌, ◌<◌, ◌≤◌, slice_index, IfOk};
ghost use Rattle.std.specs.Arc.{arc_value};
ghost use Rattle.bit_sets.specs.StateSets.{state_capacity};
ghost use Rattle.byte_nfa.specs.EarlyMatches.{half};
ghost use Rattle.byte_nfa.specs.Live.{AreLive};
ghost use Rattle.byte_nfa.specs.Runs.{size};
ghost use Rattle.byte_nfa.specs.inner.Sources.{ListsEnds, RunsFor};
ghost use Rattle.lazy_dfa.specs.inner.Dfa.{IsDfa};

use crate::classes::ByteClasses;
use crate::lists::{copy_within, list_of, put_in_order};
use bit_sets::{StateSet, Visits};
use byte_nfa::{Nfa, Simulation};
use std::alloc::{AllocError, Global};
use std::marker::Model;
use std::sync::Arc;

/// A deterministic automaton whose rows are made while texts are read. It has what its rows are made from, and caches have the
/// rows. Threads can share it. Contracts see the automaton that it was made for, whose ends it finds, and the one that is run.
#[derive(Drop)]
pub struct Dfa {
    simulation: Arc<Simulation>,
    class_of: [u8; 256],
    class_count: usize,
    /// The states that a run begins in, in ascending order.
    first: Vec<u32>,
}

impl Model for Dfa {
    ghost use Rattle.std.specs.Arc.{arc_value};
    ghost use Rattle.lazy_dfa.specs.DfaValue.{DfaValue};
    ghost use Rattle.lazy_dfa.specs.inner.Dfa.{IsDfa};

    ghost Value = { DfaValue };

    ghost view = { λ d. record {
      nfa = (arc_value d.simulation).nfa;
      run = (arc_value d.simulation).run;
      class_of = d.class_of;
      class_count = d.class_count;
      first = d.first.items;
    } };

    ghost invariant = { λ d. IsDfa record {
      nfa = (arc_value d.simulation).nfa;
      run = (arc_value d.simulation).run;
      class_of = d.class_of;
      class_count = d.class_count;
      first = d.first.items;
    } };
}

impl Dfa {
    /// Returns the automaton with no rows. Returns an error if memory runs out, or if [`Simulation::may_have_rows`] returns
    /// `false`.
    ///
    /// It reads each state, and takes a number for each state that a run begins in. Until it returns, it also takes a bit and a
    /// number for each state.
    pub fn new(alloc: Global, simulation: &Arc<Simulation>) -> Result<Dfa, AllocError>
        ensures { IfOk result (λ dfa. dfa.nfa ≡ (arc_value simulation.now).nfa) }
    {
        if !simulation.may_have_rows() {
            return Err(AllocError);
        }
        let automaton = simulation.automaton();
        let states = automaton.state_count();
        let mut from = StateSet::new(alloc, states)?;
        automaton.start(&mut from);
        let mut list = Vec::with_capacity(alloc, states)?;
        list_of(&from, states, &mut list, &mut Visits::new());
        put_in_order(&mut list);
        // The copy has no more room than it needs.
        let mut first = Vec::with_capacity(alloc, list.len())?;
        copy_within(&mut first, &list);
        let classes = ByteClasses::new(automaton);
        Ok(Dfa {
            simulation: Arc::try_clone(simulation)?,
            class_of: classes.class_of,
            class_count: classes.count,
            first,
        })
    }

    /// Returns the automaton that is run.
    pub fn automaton(&self) -> &Nfa
        ensures automaton { result.now ≡ self.now.run }
        ensures runs { RunsFor self.now.nfa result.now }
    {
        self.simulation.automaton()
    }

    /// Returns the number of states.
    pub fn state_count(&self) -> usize
        ensures { result ≡ size self.now.run }
    {
        self.simulation.automaton().state_count()
    }

    /// Returns how many indexes the automaton has that it was made for. The one that is run has twice as many.
    pub fn half(&self) -> usize
        ensures { result ≡ half self.now.run }
    {
        self.simulation.automaton().index_count() / 2
    }

    /// Returns the states from which some bytes lead to an end.
    pub fn live_states(&self) -> &StateSet
        ensures live { AreLive self.now.run result.now }
        ensures room { size self.now.run ≤ state_capacity result.now }
    {
        self.simulation.live_states()
    }

    /// Returns the indexes that may be found.
    pub fn indexes(&self) -> &[usize]
        ensures { ListsEnds self.now.run result.now }
    {
        self.simulation.indexes()
    }

    /// Returns the states that a run begins in, in ascending order.
    pub fn first(&self) -> &[u32]
        ensures { result.now ≡ self.now.first }
    {
        &self.first
    }

    /// Returns the class of a byte. All states read the bytes of a class alike.
    #[inline(always)]
    pub fn class_of(&self, byte: u8) -> usize
        ensures { result ≡ slice_index self.now.class_of byte }
    {
        self.class_of[byte as usize] as usize
    }

    /// Returns the number of classes, which is at most 256.
    #[inline(always)]
    pub fn class_count(&self) -> usize
        ensures count { result ≡ self.now.class_count }
        ensures dfa { IsDfa self.now }
    {
        self.class_count
    }
}
