//! The caches of rows of an automaton.

ghost use Rattle.std.specs.Prelude.{◌≡◌, ◌+◌, ◌*◌, ◌≤◌, ◌↔◌, ◌++◌, ◌∷◌, [], ℕ, None, false, length, IsTrue, IfOk, IfSome};
ghost use Rattle.std.specs.Arc.{arc_value};
ghost use Rattle.bit_sets.specs.Indexes.{index_capacity};
ghost use Rattle.byte_nfa.specs.Live.{MatchesAfter};
ghost use Rattle.byte_nfa.specs.Runs.{size};
ghost use Rattle.byte_nfa.specs.Steps.{IsReached};
ghost use Rattle.engine.specs.Matching.{AddsReached};
ghost use Rattle.engine.specs.inner.Found.{AddsSome};

use crate::kept::{Kept, KeptCaches, MOST_KEPT};
use bit_sets::{IndexSet, Visits};
use byte_nfa::{Nfa, Simulation};
use lazy_dfa::{Cache, Dfa};
use std::alloc::{AllocError, Global};
use std::marker::Model;
use std::snapshot::Snapshot;
use std::sync::Arc;

/// What the rows of an automaton are made from, and the caches for calls that bring none. Contracts see the automaton whose ends
/// are found.
#[derive(Drop)]
pub struct RowSource {
    alloc: Global,
    dfa: Arc<Dfa>,
    /// How many bytes the rows of a cache take at most.
    cache_bytes: usize,
    /// In a box, since the pool has room between its places, and a caller may have many automata.
    kept: Box<KeptCaches>,
    source: Snapshot<Nfa>,
}

impl Model for RowSource {
    ghost use Rattle.std.specs.Arc.{arc_value};
    ghost use Rattle.std.specs.Prelude.{◌≡◌};
    ghost use Rattle.byte_nfa.specs.Steps.{NfaValue};

    ghost Value = { NfaValue };

    ghost view = { λ r. r.source.value };

    ghost invariant = { λ r. ((arc_value r.dfa).nfa ≡ r.source.value) × (r.kept.value ≡ r.source.value) };
}

impl RowSource {
    /// Returns what rows of an automaton are made from.
    ///
    /// At most four caches are kept between calls, which take at most the share of `dfa_size_limit` bytes that the states have in
    /// `all_states`; fewer, if the least that a cache takes is more than a quarter of the share. It takes time and memory linear
    /// in the states. Returns `None` if the share is too small or there are too many states or indexes.
    pub fn new(
        alloc: Global,
        dfa_size_limit: usize,
        automaton: &Nfa,
        simulation: &Arc<Simulation>,
        all_states: usize,
    ) -> Result<Option<RowSource>, AllocError>
        requires { (arc_value simulation.now).nfa ≡ automaton.now }
        ensures { IfOk result (λ made. IfSome made (λ rows. rows ≡ automaton.now)) }
    {
        let states = automaton.state_count();
        let share = share_of(dfa_size_limit, states, all_states);
        if share / MOST_KEPT < FEWEST_BYTES || !simulation.may_have_rows() {
            return Ok(None);
        }
        let dfa = Dfa::new(alloc, simulation)?;
        let least = Cache::least_bytes(&dfa);
        let most = (share / least.max(1)).min(MOST_KEPT);
        if most == 0 {
            return Ok(None);
        }
        let cache_bytes = (share / most)
            .min(share_of(MOST_BYTES, states, all_states))
            .max(least);
        Ok(Some(RowSource {
            alloc,
            dfa: Arc::new(alloc, dfa)?,
            cache_bytes,
            kept: Box::new(alloc, KeptCaches::new(automaton, most, least, cache_bytes))?,
            source: Snapshot::of(automaton),
        }))
    }

    /// Returns a cache with no rows. All memory that it needs is taken here. Returns an error if memory runs out.
    pub fn new_cache(&self, alloc: Global) -> Result<Cache, AllocError>
        ensures { IfOk result (λ cache. cache ≡ self.now) }
    {
        Cache::new(alloc, &self.dfa, self.cache_bytes)
    }

    /// Returns how many bytes the caches take that are kept between calls.
    pub fn kept_bytes(&self) -> usize {
        self.kept.bytes()
    }

    /// Makes a cache of the most bytes and keeps it for later calls, unless a cache was made before, or there is no room or no
    /// memory for it.
    pub fn keep_one(&self) {
        if self.kept.bytes() > 0 {
            return;
        }
        if let Some(made) = self.make(self.cache_bytes) {
            self.kept.put(made);
        }
    }

    /// Takes a cache that is kept for one call. If there is none and memory may be taken, it makes one, except the first calls.
    pub fn take(&self, may_make: bool) -> Option<Kept>
        ensures { IfSome result (λ kept. kept.cache ≡ self.now) }
    {
        if let Some(taken) = self.kept.take() {
            return Some(taken);
        }
        if may_make && self.kept.were_missed() {
            return self.make(self.kept.next_bytes());
        }
        None
    }

    /// Gives a cache back after a call. In a call that may allocate, a cache without room for all rows makes way for a larger one,
    /// and stays if there is no memory for that.
    pub fn give(&self, kept: Kept, may_make: bool)
        requires { kept.cache ≡ self.now }
    {
        let more = if may_make {
            self.kept.larger_bytes(&kept)
        } else {
            None
        };
        let Some(bytes) = more else {
            self.kept.give(kept, may_make);
            return;
        };
        if let Some(larger) = self.make(bytes) {
            self.kept.dismiss(kept);
            self.kept.put(larger);
        } else if self.kept.has_room() {
            self.kept.put(kept);
        } else {
            // Of so many caches none is larger before another one is gone.
            self.kept.dismiss(kept);
        }
    }

    /// Makes a cache of `bytes` bytes, if fewer caches are kept than may be, and there is memory for it.
    fn make(&self, bytes: usize) -> Option<Kept>
        ensures { IfSome result (λ kept. kept.cache ≡ self.now) }
    {
        if !self.kept.count_one_more(bytes) {
            return None;
        }
        match self.new_kept(bytes) {
            Ok(made) => Some(made),
            Err(_) => {
                self.kept.count_one_less(bytes);
                None
            }
        }
    }

    /// Returns a cache of `bytes` bytes. It begins with the rows that were published last, since calls that find all they need
    /// there never come to it. Returns an error if memory runs out.
    fn new_kept(&self, bytes: usize) -> Result<Kept, AllocError>
        ensures { IfOk result (λ kept. kept.cache ≡ self.now) }
    {
        let cache = match self.kept.published() {
            Some(known) => Cache::with_rows_of(self.alloc, known, bytes)?,
            None => Cache::new(self.alloc, &self.dfa, bytes)?,
        };
        Ok(Kept::new(cache, bytes))
    }
}

impl RowSource {
    /// Puts the index of each end that a text leads to into a set, next to its contents. It reads the rows of the cache that was
    /// published last, and where an entry is not known there, the rows of a kept cache. Returns `false` if there was no such
    /// cache and the call could not make one; some of the indexes may be in the set then.
    pub fn find(
        &self,
        text: &[u8],
        may_make: bool,
        found: &mut IndexSet,
        visits: &mut Visits,
    ) -> bool
        // The set has room for each index, and keeps that room.
        requires { self.now.index_count ≤ index_capacity found.old }
        ensures room { index_capacity found.new ≡ index_capacity found.old }

        // The set keeps its indexes, and gets only indexes of ends that the text leads to. After `true` it has them all.
        ensures found { IsTrue result → AddsReached self.now text.now found.old found.new }
        ensures some { AddsSome self.now text.now found.old found.new }

        // The visits are bounded. After `false` the bound is lower.
        ensures missed { result ≡ false → visits.new ≤ visits.old + (length text.now + 1) }
        ensures visits { visits.new
            ≤ visits.old + (length text.now + 1) + (length text.now + 1) * (size self.now + 1) }
        ensures counted { visits.old ≤ visits.new }
    {
        if let Some(known) = self.kept.published() {
            if known.find_known(text, found, visits) {
                return true;
            }
        }
        let Some(mut kept) = self.take(may_make) else {
            return false;
        };
        kept.cache.find(text, found, visits);
        self.give(kept, may_make);
        true
    }

    /// Returns whether a text leads to some end, as [`RowSource::find`] finds it, or `None` if there was no cache and, if memory
    /// may be taken, none could be made.
    pub fn is_match(&self, text: &[u8], may_make: bool, visits: &mut Visits) -> Option<bool>
        ensures some { IfSome result
            (λ yes. IsTrue yes ↔ ((k : ℕ) × IsReached self.now text.now k)) }
        ensures missed { result ≡ None → visits.new ≤ visits.old + (length text.now + 1) }
        ensures visits { visits.new
            ≤ visits.old + (length text.now + 1) + (length text.now + 1) * (size self.now + 1) }
        ensures counted { visits.old ≤ visits.new }
    {
        if let Some(known) = self.kept.published() {
            if let Some(is_match) = known.is_match_known(text, visits) {
                return Some(is_match);
            }
        }
        let mut kept = self.take(may_make)?;
        let is_match = kept.cache.is_match(text, visits);
        self.give(kept, may_make);
        Some(is_match)
    }

    /// Returns whether some text that begins with `text` and then `byte` leads to some end, as [`RowSource::find`] finds it.
    /// Returns `None` if there was no cache and, if the call may allocate, none could be made.
    pub fn can_match_after(
        &self,
        text: &[u8],
        byte: u8,
        may_make: bool,
        visits: &mut Visits,
    ) -> Option<bool>
        ensures some { IfSome result
            (λ yes. IsTrue yes ↔ MatchesAfter self.now (text.now ++ byte ∷ [])) }
        ensures missed { result ≡ None → visits.new ≤ visits.old + (length text.now + 1) }
        ensures visits { visits.new
            ≤ visits.old + (length text.now + 1) + (length text.now + 2) * (size self.now + 1) }
        ensures counted { visits.old ≤ visits.new }
    {
        if let Some(known) = self.kept.published() {
            if let Some(can_match) = known.can_match_after_known(text, byte, visits) {
                return Some(can_match);
            }
        }
        let mut kept = self.take(may_make)?;
        let can_match = kept.cache.can_match_after(text, byte, visits);
        self.give(kept, may_make);
        Some(can_match)
    }
}

/// The most bytes of the caches of a searcher together, and of a kept cache, under any limit. So a searcher can be made under any
/// limit. More than 8 MB hardly changed the time of a text.
const MOST_BYTES: usize = 1 << 23;

/// An automaton whose share is smaller has no cache. Then many automata share the limit, and few of them run for a text.
pub const FEWEST_BYTES: usize = 1 << 12;

/// Returns an automaton's share of `bytes`, by its number of states among those of all automata.
fn share_of(bytes: usize, states: usize, all_states: usize) -> usize {
    bytes.saturating_mul(states) / all_states.max(1)
}
