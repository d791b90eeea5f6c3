//! Automata as they are run.

ghost use Rattle.std.specs.Prelude.{◌≡◌, ℕ, ◌+◌, ◌*◌, ◌<◌, ◌≤◌, ◌⊎◌, ◌↔◌, ◌++◌, ◌∷◌, [], List, length, IsTrue, IsFalse, IsOk, OnOk, IfOk, IfSome, Some};
ghost use Rattle.bit_sets.specs.Indexes.{has_index, index_capacity};
ghost use Rattle.byte_nfa.specs.Live.{MatchesAfter, AreLive};
ghost use Rattle.byte_nfa.specs.Runs.{size};
ghost use Rattle.byte_nfa.specs.Sharing.{Shares};
ghost use Rattle.byte_nfa.specs.Steps.{IsReached, match_state, state};
ghost use Rattle.bit_sets.specs.StateSets.{state_capacity};
ghost use Rattle.byte_nfa.specs.Sets.{sets_capacity};
ghost use Rattle.byte_nfa.specs.inner.Sources.{FitsU32, ListsEnds, RunsFor};

use crate::nfa::{Nfa, StateRef};
use crate::stepping::{self, StateSets, told_by};
use bit_sets::{IndexSet, StateSet, Visits};
use std::alloc::{AllocError, Global};
use std::marker::Model;
use std::snapshot::Snapshot;

/// An automaton as it is run: by sets of states, or by the rows of a `lazy_dfa::Cache`. Threads can share it. Contracts see the
/// automaton that it was made for, whose ends it finds, and the one that is run.
///
/// The one that is run has an end in place of each state that decides an index. After an index is decided, a run keeps only those
/// of its states that decide it again.
#[derive(Drop)]
pub struct Simulation {
    automaton: Nfa,
    /// The states from which some bytes lead to an end.
    live: StateSet,
    /// The indexes that may be found.
    indexes: Vec<usize>,
    source: Snapshot<Nfa>,
}

impl Model for Simulation {
    ghost use Rattle.byte_nfa.specs.SimulationValue.{SimulationValue};
    ghost use Rattle.byte_nfa.specs.inner.Sources.{IsMadeOf};

    ghost Value = { SimulationValue };

    ghost view = { λ s. record {
      nfa = s.source.value;
      run = s.automaton;
    } };

    ghost invariant = { λ s. IsMadeOf s.source.value s.automaton s.live s.indexes.items };
}

impl Simulation {
    /// Returns what runs an automaton, by another one in its place if that is given.
    ///
    /// It reads each state. It allocates about as much as the automaton has, a bit for each state and a number for each end. It also
    /// fails if twice the number of indexes does not fit a `usize`.
    pub fn new(
        alloc: Global,
        automaton: &Nfa,
        sharing: Option<Nfa>,
    ) -> Result<Simulation, AllocError>
        requires { IfSome sharing (Shares automaton.now) }
        ensures { IfOk result (λ simulation. simulation.nfa ≡ automaton.now) }
    {
        let Some(early_match) = early_match_of(automaton, sharing)? else {
            return Err(AllocError);
        };
        let mut live = StateSet::new(alloc, early_match.state_count())?;
        early_match.live(&mut live);
        let indexes = indexes_of(alloc, &early_match)?;
        Ok(Simulation {
            automaton: early_match,
            live,
            indexes,
            source: Snapshot::of(automaton),
        })
    }

    /// Returns whether it may have rows: whether a `u32` holds how many states it has, and twice how many indexes.
    pub fn may_have_rows(&self) -> bool
        ensures { IsTrue result → FitsU32 self.now.run }
    {
        let most = u32::MAX as usize;
        self.automaton.state_count() <= most && self.automaton.index_count() <= most
    }

    /// Returns whether a run can begin. If not, no text leads to an end.
    pub fn has_starts(&self) -> bool
        ensures none { IsFalse result → (y : List ℕ) (k : ℕ) → IsReached self.now.nfa y k → ⊥ }
        ensures some { IsTrue result → 1 ≤ length self.now.nfa.starts }
    {
        !self.automaton.starts().is_empty()
    }

    /// Returns the automaton that is run.
    pub fn automaton(&self) -> &Nfa
        ensures automaton { result.now ≡ self.now.run }
        ensures runs { RunsFor self.now.nfa result.now }
    {
        &self.automaton
    }

    /// Returns the states of the automaton that is run from which some bytes lead to an end.
    pub fn live_states(&self) -> &StateSet
        ensures live { AreLive self.now.run result.now }
        ensures room { size self.now.run ≤ state_capacity result.now }
    {
        &self.live
    }

    /// Returns the indexes that may be found.
    pub fn indexes(&self) -> &[usize]
        ensures { ListsEnds self.now.run result.now }
    {
        &self.indexes
    }

    /// Puts the index of each end that a text leads to into a set, next to its contents. It steps from a set of states to the
    /// next.
    ///
    /// The old contents of the sets of states have no effect; their room grows to the states. It is at most `(text bytes + 1) *
    /// states` visits. It allocates nothing if they have room for all states.
    pub fn find(
        &self,
        text: &[u8],
        sets: &mut StateSets,
        found: &mut IndexSet,
        visits: &mut Visits,
    ) -> Result<(), AllocError>
        // The set needs room for the indexes, keeps its capacity, and gets what is found in addition to what it held.
        requires { self.now.nfa.index_count ≤ index_capacity found.old }
        ensures room { index_capacity found.new ≡ index_capacity found.old }
        ensures found { OnOk result
            ((k : ℕ) → IsTrue (has_index found.new k)
            ↔ (IsReached self.now.nfa text.now k ⊎ IsTrue (has_index found.old k))) }

        // The sets of states lose no room, and memory runs out only if they have too little for the automaton.
        ensures kept { sets_capacity sets.old ≤ sets_capacity sets.new }
        ensures memory { size self.now.nfa ≤ sets_capacity sets.old → IsOk result }

        // The visits are bounded, and do not become fewer.
        ensures visits { visits.new ≤ visits.old + (length text.now + 1) * size self.now.nfa }
        ensures counted { visits.old ≤ visits.new }
    {
        sets.reserve(self.automaton.state_count())?;
        let StateSets { current, next } = sets;
        self.automaton.start(current);
        stepping::find(&self.automaton, text, current, next, found, visits);
        Ok(())
    }

    /// Returns whether a text leads to some end. It stops as soon as the rest cannot change that.
    ///
    /// It has the cost of [`Simulation::find`].
    pub fn is_match(
        &self,
        text: &[u8],
        sets: &mut StateSets,
        visits: &mut Visits,
    ) -> Result<bool, AllocError>
        ensures some { IfOk result (λ yes. IsTrue yes ↔ ((k : ℕ) × IsReached self.now.nfa text.now k)) }
        ensures kept { sets_capacity sets.old ≤ sets_capacity sets.new }
        ensures memory { size self.now.nfa ≤ sets_capacity sets.old → IsOk result }
        ensures visits { visits.new ≤ visits.old + (length text.now + 1) * size self.now.nfa }
        ensures counted { visits.old ≤ visits.new }
    {
        sets.reserve(self.automaton.state_count())?;
        let StateSets { current, next } = sets;
        self.automaton.start(current);
        Ok(stepping::is_match(&self.automaton, text, current, next, visits))
    }

    /// Returns whether some text that begins with `text` and then `byte` leads to some end.
    ///
    /// It is at most `(text bytes + 2) * states` visits. Otherwise it has the cost of [`Simulation::find`].
    pub fn can_match_after(
        &self,
        text: &[u8],
        byte: u8,
        sets: &mut StateSets,
        visits: &mut Visits,
    ) -> Result<bool, AllocError>
        ensures some { IfOk result
            (λ yes. IsTrue yes ↔ MatchesAfter self.now.nfa (text.now ++ byte ∷ [])) }
        ensures kept { sets_capacity sets.old ≤ sets_capacity sets.new }
        ensures memory { size self.now.nfa ≤ sets_capacity sets.old → IsOk result }
        ensures visits { visits.new ≤ visits.old + (length text.now + 2) * size self.now.nfa }
        ensures counted { visits.old ≤ visits.new }
    {
        sets.reserve(self.automaton.state_count())?;
        let StateSets { current, next } = sets;
        self.automaton.start(current);
        Ok(stepping::can_match_after(
            &self.automaton,
            &self.live,
            text,
            byte,
            current,
            next,
            visits,
        ))
    }
}

/// Returns what is run for an automaton, or for the one in its place, or `None` if twice as many indexes are too many for a `usize`.
/// Returns an error if memory runs out.
fn early_match_of(automaton: &Nfa, sharing: Option<Nfa>) -> Result<Option<Nfa>, AllocError>
    requires { IfSome sharing (Shares automaton.now) }
    ensures { IfOk result (λ made. IfSome made (RunsFor automaton.now)) }
{
    match sharing {
        Some(sharing) => sharing.with_early_matches(),
        None => automaton.with_early_matches(),
    }
}

/// Returns the indexes that states of an automaton with early matches are the ends of, or say are decided, each once. Returns an
/// error if memory runs out.
fn indexes_of(alloc: Global, automaton: &Nfa) -> Result<Vec<usize>, AllocError>
    ensures { IfOk result (λ indexes. ListsEnds automaton.now indexes.items) }
{
    let half = automaton.index_count() / 2;
    let mut indexes = Vec::new(alloc);
    for s in 0..automaton.state_count() {
        if let Some(index) = told_at(automaton, s, half) {
            indexes.push(index)?;
        }
    }
    indexes.sort_unstable();
    indexes.dedup();
    Ok(indexes)
}

/// Returns the index that a state of an automaton is the end of, or says is decided. There are twice `half` indexes.
fn told_at(automaton: &Nfa, s: usize, half: usize) -> Option<usize>
    ensures { (k : ℕ) → k < half
        → (state automaton.now.states s ≡ match_state k)
        ⊎ (state automaton.now.states s ≡ match_state (half + k)) → result ≡ Some k }
{
    match automaton.state(s) {
        Some(StateRef::Match(index)) => Some(told_by(index, half)),
        _ => None,
    }
}
