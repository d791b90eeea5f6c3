//! Caches that are kept for later calls.

ghost use Rattle.std.specs.Prelude.{◌≡◌, IfSome};

use crate::pool::Pool;
use crate::rows::FEWEST_BYTES;
use boxcar::slot::{OnceSlot, SlotRule};
use boxcar::tag::{Names, Tag};
use byte_nfa::Nfa;
use counted_slot::Fits;
use lazy_dfa::Cache;
use std::marker::Model;
use std::snapshot::Snapshot;
use std::sync::atomic::{AtomicUsize, Ordering};

/// A cache as it is kept.
#[derive(Drop)]
pub struct Kept {
    pub cache: Cache,
    /// How many bytes its rows may take.
    bytes: usize,
    /// The number of calls that used it.
    uses: usize,
}

impl Fits for Kept {
    type Tag = Nfa;

    ghost fits = { λ automaton kept. kept.cache ≡ automaton };
}

/// The caches of an automaton that calls through a shared reference use. Contracts see the automaton.
///
/// A cache that many calls used has most rows that texts lead to. It is published: calls then read its entries at once, without
/// writing, and it gets no more rows. Earlier published caches stay, since calls may be reading them.
#[derive(Drop)]
pub struct KeptCaches {
    pool: Pool<Kept>,
    first: Published,
    second: Published,
    third: Published,
    /// The most caches, and the most bytes of each.
    most: usize,
    most_bytes: usize,
    /// The bytes of the next cache.
    next_bytes: AtomicUsize,
    /// How many there are, and how many bytes they take.
    made: AtomicUsize,
    bytes: AtomicUsize,
    /// How many calls found none, as far as this is counted.
    misses: AtomicUsize,
}

impl Model for KeptCaches {
    ghost use Rattle.std.specs.Prelude.{◌≡◌};
    ghost use Rattle.byte_nfa.specs.Steps.{NfaValue};

    ghost Value = { NfaValue };

    ghost view = { λ k. k.pool };

    ghost invariant = { λ k. (k.first ≡ k.pool) × (k.second ≡ k.pool) × (k.third ≡ k.pool) };
}

impl Kept {
    /// Returns a cache of `bytes` bytes that no call used yet.
    pub fn new(cache: Cache, bytes: usize) -> Kept
        ensures { result.cache ≡ cache }
    {
        Kept {
            cache,
            bytes,
            uses: 0,
        }
    }
}

/// The most caches that are made, with those that are published, and so the most calls at once that run by rows of their own.
pub const MOST_KEPT: usize = 4;

/// The bytes of the first cache. Where rows do not fit, the next one takes four times as many, too.
const FIRST_BYTES: usize = 4 * FEWEST_BYTES;

/// How many calls find no cache before one makes the first. So an automaton that is run over few texts takes no memory for caches.
const FIRST_CALLS: usize = 2;

/// How many calls use a cache before it is published, if it is the first.
const FIRST_USES: usize = 1 << 10;

/// How many use the second before it is published: these are calls for texts where the first lacked an entry.
const SECOND_USES: usize = 1 << 14;

/// How many use the last one.
const THIRD_USES: usize = 1 << 18;

impl KeptCaches {
    /// Returns room for the caches of an automaton, at most `most`, of at least `least_bytes` and at most `most_bytes` bytes each.
    /// None is made yet.
    pub fn new(automaton: &Nfa, most: usize, least_bytes: usize, most_bytes: usize) -> KeptCaches
        ensures { result ≡ automaton.now }
    {
        KeptCaches {
            pool: Pool::new(automaton),
            first: Published::new(automaton),
            second: Published::new(automaton),
            third: Published::new(automaton),
            most,
            most_bytes,
            next_bytes: AtomicUsize::new(FIRST_BYTES.max(least_bytes).min(most_bytes)),
            made: AtomicUsize::new(0),
            bytes: AtomicUsize::new(0),
            misses: AtomicUsize::new(0),
        }
    }

    /// Takes a cache out for a call, if any is there that no other call uses.
    pub fn take(&self) -> Option<Kept>
        ensures { IfSome result (λ kept. kept.cache ≡ self.now) }
    {
        self.pool.take()
    }

    /// Returns the cache that was published last, if there is one.
    pub fn published(&self) -> Option<&Cache>
        ensures { IfSome result (λ cache. cache.now ≡ self.now) }
    {
        if let Some(kept) = self.third.get() {
            return Some(&kept.cache);
        }
        if let Some(kept) = self.second.get() {
            return Some(&kept.cache);
        }
        match self.first.get() {
            Some(kept) => Some(&kept.cache),
            None => None,
        }
    }

    /// Gives a cache back after a call, for later calls. If the call may allocate, a cache that enough calls used and that had room
    /// for all rows is published, and the next call that misses an entry of it makes another.
    pub fn give(&self, kept: Kept, may_make: bool)
        requires { kept.cache ≡ self.now }
    {
        let Kept { cache, bytes, uses } = kept;
        let uses = uses.saturating_add(1);
        let kept = Kept { cache, bytes, uses };
        if may_make && !kept.cache.has_forgotten() {
            if let Some(place) = self.place_after(uses) {
                if let Some(kept) = place.set(kept) {
                    self.put(kept);
                }
                return;
            }
        }
        self.put(kept);
    }

    /// Returns how many bytes a cache is to take in place of this one, if this one had no room for all rows and may be larger: four
    /// times as many, up to the most. So many take those that are made from now on, too.
    pub fn larger_bytes(&self, kept: &Kept) -> Option<usize> {
        if !kept.cache.has_forgotten() || kept.bytes >= self.most_bytes {
            return None;
        }
        let bytes = kept.bytes.saturating_mul(4).min(self.most_bytes);
        self.next_bytes.fetch_max(bytes, Ordering::SeqCst);
        Some(bytes)
    }

    /// Puts a cache into the pool.
    pub fn put(&self, kept: Kept)
        requires { kept.cache ≡ self.now }
    {
        if let Some(kept) = self.pool.give(kept) {
            // Other calls were at every place, so another cache may be made for this one.
            self.dismiss(kept);
        }
    }

    /// Drops a cache, and takes it out of the count when its memory is free.
    pub fn dismiss(&self, kept: Kept) {
        let bytes = kept.bytes;
        drop(kept);
        self.count_one_less(bytes);
    }

    /// Returns whether fewer caches are kept than may be.
    pub fn has_room(&self) -> bool {
        self.made.load(Ordering::SeqCst) < self.most
    }

    /// Returns where a cache is published after `uses` calls, if it is. One cache at least stays in the pool.
    fn place_after(&self, uses: usize) -> Option<&Published>
        ensures { IfSome result (λ place. place.now ≡ self.now) }
    {
        if uses < FIRST_USES || self.most < 2 {
            return None;
        }
        if self.first.get().is_none() {
            return Some(&self.first);
        }
        if uses < SECOND_USES || self.most < 3 {
            return None;
        }
        if self.second.get().is_none() {
            return Some(&self.second);
        }
        if uses < THIRD_USES || self.most < 4 || self.third.get().is_some() {
            return None;
        }
        Some(&self.third)
    }

    /// Returns whether a call that found no cache may make one, by the number of such calls.
    pub fn were_missed(&self) -> bool {
        self.misses.load(Ordering::SeqCst) >= FIRST_CALLS
            || self.misses.fetch_add(1, Ordering::SeqCst) >= FIRST_CALLS
    }

    /// Returns how many bytes the next cache is to take.
    pub fn next_bytes(&self) -> usize {
        self.next_bytes.load(Ordering::SeqCst)
    }

    /// Counts another cache, of `bytes` bytes, which the caller makes. Returns whether there is room for it.
    pub fn count_one_more(&self, bytes: usize) -> bool {
        if !self.has_room() {
            return false;
        }
        self.bytes.fetch_add(bytes, Ordering::SeqCst);
        if self.made.fetch_add(1, Ordering::SeqCst) >= self.most {
            self.count_one_less(bytes);
            return false;
        }
        true
    }

    /// Takes a cache of `bytes` bytes, which could not be made or kept, out of the count.
    pub fn count_one_less(&self, bytes: usize) {
        self.bytes.fetch_sub(bytes, Ordering::SeqCst);
        self.made.fetch_sub(1, Ordering::SeqCst);
    }

    /// Returns how many bytes the caches take that are kept.
    pub fn bytes(&self) -> usize {
        self.bytes.load(Ordering::SeqCst)
    }
}

/// How an automaton is told from others, as a list of numbers.
struct ByCode;

impl Names<Nfa> for ByCode {
    ghost use Rattle.engine.specs.inner.Numbers.{numbers};

    ghost numbers = { λ nfa. numbers nfa };
}

/// That a cache is for the automaton of these numbers.
struct IsForNumbers;

impl SlotRule<Kept> for IsForNumbers {
    ghost use Rattle.std.specs.Prelude.{◌≡◌};
    ghost use Rattle.byte_nfa.specs.Steps.{NfaValue};
    ghost use Rattle.engine.specs.inner.Numbers.{numbers};

    ghost holds = { λ list kept. (nfa : NfaValue) → numbers nfa ≡ list → kept.cache ≡ nfa };
}

/// Room for a cache, for good. Contracts see the automaton that the cache is for.
#[derive(Drop)]
pub struct Published {
    slot: OnceSlot<Kept, IsForNumbers>,
    made_for: Snapshot<Nfa>,
}

impl Model for Published {
    ghost use Rattle.std.specs.Prelude.{◌≡◌};
    ghost use Rattle.byte_nfa.specs.Steps.{NfaValue};
    ghost use Rattle.engine.specs.inner.Numbers.{numbers};

    ghost Value = { NfaValue };

    ghost view = { λ p. p.made_for.value };

    ghost invariant = { λ p. p.slot.tag ≡ numbers p.made_for.value };
}

impl Published {
    /// Returns room for a cache that is for an automaton.
    pub fn new(automaton: &Nfa) -> Published
        ensures { result ≡ automaton.now }
    {
        Published {
            slot: OnceSlot::new(&Tag::of::<Nfa, ByCode>(automaton)),
            made_for: Snapshot::of(automaton),
        }
    }

    /// Returns the cache, if there is any.
    pub fn get(&self) -> Option<&Kept>
        ensures { IfSome result (λ kept. kept.now.cache ≡ self.now) }
    {
        self.slot.get()
    }

    /// Puts the cache in, for good. Returns it if there is a cache already, or another call is putting one in.
    pub fn set(&self, kept: Kept) -> Option<Kept>
        requires { kept.cache ≡ self.now }
        ensures { IfSome result (λ kept. kept.cache ≡ self.now) }
    {
        match self.slot.set(kept) {
            Ok(_) => None,
            Err(kept) => Some(kept),
        }
    }
}
