//! Automata as they are run over texts.

ghost use Rattle.std.specs.Prelude.{◌≡◌, ℕ, ◌+◌, ◌*◌, ◌≤◌, ◌↔◌, ◌++◌, ◌∷◌, [], length, IsTrue, IsOk, OnOk, IfOk, IfSome, false};
ghost use Rattle.byte_nfa.specs.Runs.{size, max_reads};
ghost use Rattle.byte_nfa.specs.Steps.{IsReached};
ghost use Rattle.bit_sets.specs.Indexes.{index_capacity};
ghost use Rattle.byte_nfa.specs.Live.{MatchesAfter};
ghost use Rattle.engine.specs.Matching.{AddsReached};
ghost use Rattle.engine.specs.Memory.{Fits, FitsAsBefore};

use crate::memory::Memory;
use crate::rows::RowSource;
use crate::sharing::shared;
use bit_sets::{ByteSet, IndexSet, Visits};
use byte_nfa::{Nfa, Simulation};
use lazy_dfa::Cache;
use std::alloc::{AllocError, Global};
use std::marker::Model;
use std::snapshot::Snapshot;
use std::sync::Arc;

/// The most bytes that rows are kept in between calls, unless another limit is set: 16 MiB.
pub const DEFAULT_DFA_SIZE_LIMIT: usize = 1 << 24;

/// An automaton, compiled for running: by rows that are known, otherwise by rows that are made, and where there is no room for
/// rows, stepped from a set of states to the next. Contracts see the original automaton.
#[derive(Drop)]
pub struct Compiled {
    source: Source,
    simulation: Arc<Simulation>,
    rows: Option<RowSource>,
    /// Whether each call may take memory for rows, and not only calls that have to take it for sets of states.
    always_grows: bool,
}

impl Model for Compiled {
    ghost use Rattle.std.specs.Arc.{arc_value};
    ghost use Rattle.std.specs.Prelude.{◌≡◌, IfSome};
    ghost use Rattle.byte_nfa.specs.Steps.{NfaValue};

    ghost Value = { NfaValue };

    ghost view = { λ c. c.source };

    ghost invariant = { λ c. ((arc_value c.simulation).nfa ≡ c.source) × IfSome c.rows (λ r. r ≡ c.source) };
}

impl Compiled {
    /// Returns an automaton as it is run. It takes time and memory linear in the states.
    ///
    /// Calls keep rows in at most four caches, which take at most the share of `dfa_size_limit` bytes that the states have in
    /// `all_states`. Where the share is too small, there are no rows.
    pub fn new(
        alloc: Global,
        dfa_size_limit: usize,
        automaton: Nfa,
        all_states: usize,
    ) -> Result<Compiled, AllocError>
        ensures { IfOk result (λ c. c ≡ automaton) }
    {
        let source = Source::of(&automaton)?;
        let simulation = Arc::new(alloc, simulation_of(alloc, &automaton)?)?;
        let rows = RowSource::new(alloc, dfa_size_limit, &automaton, &simulation, all_states)?;
        Ok(Compiled {
            source,
            simulation,
            rows,
            always_grows: false,
        })
    }

    /// Sets whether each call may take memory for rows, also one whose sets of states have room. Such a call goes on without more
    /// memory if there is none.
    pub fn growing(self, yes: bool) -> Compiled
        ensures { result ≡ self }
    {
        let mut growing = self;
        growing.always_grows = yes;
        growing
    }

    /// Returns whether there is room for rows.
    pub fn has_rows(&self) -> bool {
        self.rows.is_some()
    }

    /// Returns a cache with no rows for this automaton, or `None` if there is no room for rows. All memory that it needs is taken
    /// here. Returns an error if memory runs out.
    pub fn new_cache(&self, alloc: Global) -> Result<Option<Cache>, AllocError>
        ensures { IfOk result (λ made. IfSome made (λ cache. cache ≡ self.now)) }
    {
        match &self.rows {
            Some(rows) => Ok(Some(rows.new_cache(alloc)?)),
            None => Ok(None),
        }
    }

    /// Makes a cache and keeps it for later calls, unless a cache was made before, or there is no room or no memory for it.
    pub fn keep_cache(&self) {
        if let Some(rows) = &self.rows {
            rows.keep_one();
        }
    }

    /// Returns the number of states of the automaton.
    pub fn state_count(&self) -> usize
        ensures { result ≡ size self.now }
    {
        self.source.state_count()
    }

    /// Returns how many bytes the caches take that are kept between calls.
    pub fn kept_bytes(&self) -> usize {
        match &self.rows {
            Some(rows) => rows.kept_bytes(),
            None => 0,
        }
    }

    /// Returns whether the last byte of a text shows that it leads to no end, or there is no start. It is one visit, and none
    /// where there is no start.
    fn leads_to_none(&self, text: &[u8], visits: &mut Visits) -> bool
        ensures none { IsTrue result → (k : ℕ) → IsReached self.now text.now k → ⊥ }
        ensures starts { result ≡ false → 1 ≤ length self.now.starts }
        ensures visits { visits.new ≤ visits.old + 1 }
        ensures none_without_starts { visits.new ≤ visits.old + length self.now.starts }
        ensures counted { visits.old ≤ visits.new }
    {
        if !self.simulation.has_starts() {
            return true;
        }
        self.source.rejects_last_byte(text, visits)
    }
}

impl Compiled {
    /// Puts the index of each end that a text leads to into a set, next to its contents. It reads the rows of the slot's cache if
    /// there is one. Otherwise it reads kept rows, or steps the automaton.
    ///
    /// It is at most `(text bytes + 1) * (states + 3 * starts)` visits. If the automaton is stepped, the room of the memory grows
    /// to its states. It allocates nothing if there is room for all states. After an error some of the indexes may be in the set.
    pub fn find(
        &self,
        text: &[u8],
        slot: usize,
        memory: &mut Memory,
        found: &mut IndexSet,
        visits: &mut Visits,
    ) -> Result<(), AllocError>
        // The set has room for each index, and keeps that room. The slot is this automaton's, and the memory fits all that it
        // fitted.
        requires count { self.now.index_count ≤ index_capacity found.old }
        requires fits { Fits memory.old slot self.now }
        ensures kept { FitsAsBefore memory.old memory.new }
        ensures room { index_capacity found.new ≡ index_capacity found.old }

        // Success adds the index of each end that the text leads to.
        ensures reached { OnOk result (AddsReached self.now text.now found.old found.new) }

        // With room for each state the call succeeds.
        ensures memory { size self.now ≤ memory.old.room → IsOk result }

        // The visits are bounded.
        ensures visits { visits.new ≤ visits.old + (length text.now + 1) * max_reads self.now }
        ensures counted { visits.old ≤ visits.new }
    {
        if self.leads_to_none(text, visits) {
            return Ok(());
        }
        if slot < memory.caches.len() {
            if let Some(cache) = &mut memory.caches[slot] {
                cache.find(text, found, visits);
                return Ok(());
            }
        }
        if let Some(rows) = &self.rows {
            let may_make = memory.may_grow(self.always_grows, self.state_count());
            if rows.find(text, may_make, found, visits) {
                return Ok(());
            }
        }
        self.simulation.find(text, &mut memory.sets, found, visits)
    }

    /// Returns whether a text leads to some end.
    ///
    /// It makes at most as many visits as [`Compiled::find`], and allocates when that does.
    pub fn is_match(
        &self,
        text: &[u8],
        slot: usize,
        memory: &mut Memory,
        visits: &mut Visits,
    ) -> Result<bool, AllocError>
        // The slot is this automaton's, and the memory fits all that it fitted. The result says whether the text leads to some
        // end.
        requires { Fits memory.old slot self.now }
        ensures kept { FitsAsBefore memory.old memory.new }
        ensures some { IfOk result
            (λ yes. IsTrue yes ↔ ((k : ℕ) × IsReached self.now text.now k)) }

        // With room for each state the call succeeds.
        ensures memory { size self.now ≤ memory.old.room → IsOk result }

        // The visits are bounded.
        ensures visits { visits.new ≤ visits.old + (length text.now + 1) * max_reads self.now }
        ensures counted { visits.old ≤ visits.new }
    {
        if self.leads_to_none(text, visits) {
            return Ok(false);
        }
        if slot < memory.caches.len() {
            if let Some(cache) = &mut memory.caches[slot] {
                return Ok(cache.is_match(text, visits));
            }
        }
        if let Some(rows) = &self.rows {
            let may_make = memory.may_grow(self.always_grows, self.state_count());
            if let Some(is_match) = rows.is_match(text, may_make, visits) {
                return Ok(is_match);
            }
        }
        self.simulation.is_match(text, &mut memory.sets, visits)
    }

    /// Returns whether some text that begins with `text` and then `byte` leads to some end.
    ///
    /// It is at most `(text bytes + 2) * (states + 3 * starts)` visits, and allocates when [`Compiled::find`]
    /// does.
    pub fn can_match_after(
        &self,
        text: &[u8],
        byte: u8,
        slot: usize,
        memory: &mut Memory,
        visits: &mut Visits,
    ) -> Result<bool, AllocError>
        // The slot is this automaton's, and the memory fits all that it fitted. The result says whether some text that begins so
        // leads to some end.
        requires { Fits memory.old slot self.now }
        ensures kept { FitsAsBefore memory.old memory.new }
        ensures some { IfOk result
            (λ yes. IsTrue yes ↔ MatchesAfter self.now (text.now ++ byte ∷ [])) }

        // With room for each state the call succeeds.
        ensures memory { size self.now ≤ memory.old.room → IsOk result }

        // The visits are bounded.
        ensures visits { visits.new ≤ visits.old + (length text.now + 2) * max_reads self.now }
        ensures counted { visits.old ≤ visits.new }
    {
        if !self.simulation.has_starts() {
            return Ok(false);
        }
        if slot < memory.caches.len() {
            if let Some(cache) = &mut memory.caches[slot] {
                return Ok(cache.can_match_after(text, byte, visits));
            }
        }
        if let Some(rows) = &self.rows {
            let may_make = memory.may_grow(self.always_grows, self.state_count());
            if let Some(can_match) = rows.can_match_after(text, byte, may_make, visits) {
                return Ok(can_match);
            }
        }
        self.simulation
            .can_match_after(text, byte, &mut memory.sets, visits)
    }
}

/// Returns what runs an automaton. Texts that begin alike share states in it, if there is more than one start and that is not more
/// states.
fn simulation_of(alloc: Global, automaton: &Nfa) -> Result<Simulation, AllocError>
    ensures { IfOk result (λ simulation. simulation.nfa ≡ automaton.now) }
{
    // Only texts from two starts may begin alike.
    let sharing = if automaton.starts().len() > 1 {
        shared(alloc, automaton)?
    } else {
        None
    };
    Simulation::new(alloc, automaton, sharing)
}

/// The number of states of an automaton, and the last bytes of texts that lead to an end. Contracts see the automaton.
#[derive(Drop)]
pub struct Source {
    state_count: usize,
    /// A text that ends with another byte leads to no end.
    last_bytes: ByteSet,
    nfa: Snapshot<Nfa>,
}

impl Model for Source {
    ghost use Rattle.byte_nfa.specs.Steps.{NfaValue};
    ghost use Rattle.engine.specs.inner.Source.{IsSource};

    ghost Value = { NfaValue };

    ghost view = { λ s. s.nfa.value };

    ghost invariant = { λ s. IsSource s.nfa.value s.state_count s.last_bytes };
}

impl Source {
    /// Returns these facts of an automaton. It reads each state, and takes a bit of memory for each until it returns.
    pub fn of(automaton: &Nfa) -> Result<Source, AllocError>
        ensures { IfOk result (λ source. source ≡ automaton.now) }
    {
        Ok(Source {
            state_count: automaton.state_count(),
            last_bytes: automaton.last_bytes()?,
            nfa: Snapshot::of(automaton),
        })
    }

    /// Returns the number of states.
    pub fn state_count(&self) -> usize
        ensures { result ≡ size self.now }
    {
        self.state_count
    }

    /// Returns whether the last byte of a text shows that it leads to no end. It is a visit, also of an empty text.
    pub fn rejects_last_byte(&self, text: &[u8], visits: &mut Visits) -> bool
        ensures rejected { IsTrue result → (k : ℕ) → IsReached self.now text.now k → ⊥ }
        ensures visits { visits.new ≡ visits.old + 1 }
    {
        visits.tick();
        match text.split_last() {
            Some((last, _)) => !self.last_bytes.has(*last),
            None => false,
        }
    }
}
