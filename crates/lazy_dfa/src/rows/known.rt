//! Entries that are known. They are read through a shared reference.

ghost use Rattle.std.specs.Prelude.{◌≡◌, ℕ, ◌+◌, ◌*◌, ◌<◌, ◌≤◌, ◌⊎◌, ◌↔◌, [], IsTrue, IsFalse, IfSome, MatchOption, length};
ghost use Rattle.bit_sets.specs.Indexes.{has_index, index_capacity};
ghost use Rattle.bit_sets.specs.Numbers.{has_number};
ghost use Rattle.lazy_dfa.specs.DfaValue.{DfaValue};
ghost use Rattle.byte_nfa.specs.EarlyMatches.{half};
ghost use Rattle.byte_nfa.specs.inner.Told.{ToldBy};
ghost use Rattle.lazy_dfa.specs.inner.Lists.{list_at, IsList};
ghost use Rattle.lazy_dfa.specs.inner.Rows.{AcceptsRow, AddsFound, AddsMarks, HasTold, IsSound, IsAt, IsPlainStep, IsStep, IsToldStep, max_entries};

use super::{FIRST, MARKED, REMEMBERED, Rows, Step, UNKNOWN, entry_at, step_of};
use crate::dfa::Dfa;
use crate::lists::copy_within;
use bit_sets::{IndexSet, Visits};
use byte_nfa::stepping::told_by;

impl Rows {
    /// Returns the place of the row that a byte leads to from the row at a place, if that is known and the row has no marks. It
    /// is a visit.
    #[inline(always)]
    pub fn plain_next(
        &self,
        dfa: &Dfa,
        place: usize,
        byte: u8,
        visits: &mut Visits,
    ) -> Option<usize>
        requires sound { IsSound dfa.now self.now }
        requires row { (i : ℕ) × IsAt dfa.now self.now i place }
        ensures next { (i : ℕ) → IsAt dfa.now self.now i place
            → IfSome result (IsPlainStep dfa.now self.now i byte) }
        ensures visits { MatchOption result (visits.new ≡ visits.old)
            (λ _. visits.new ≡ visits.old + 1) }
    {
        let entry = entry_at(&self.entries, place, dfa.class_of(byte));
        if entry >= FIRST && entry < MARKED {
            visits.tick();
            // So the subtraction becomes a part of the address of the next entry.
            Some(entry as usize - FIRST as usize)
        } else {
            None
        }
    }

    /// Returns where a run remembers that it has found the marks of the row at a place. 16 adjacent rows have different places.
    pub fn slot_of(&self, dfa: &Dfa, place: usize) -> usize
        requires { dfa.now.class_count < max_entries }
        ensures { result < 16 }
    {
        // Without the factors of 2 of the width, a place is the row's number times an odd number.
        let width = dfa.class_count() + 1;
        (place >> (width.trailing_zeros() % 64)) % REMEMBERED
    }

    /// Returns where a byte leads from the row at a place, if that is known, and the row's marks too. It is a visit. The set then has
    /// the marks: they are put into it, unless the run has found them before.
    pub fn told_step(
        &self,
        dfa: &Dfa,
        place: usize,
        byte: u8,
        is_told: bool,
        found: &mut IndexSet,
        visits: &mut Visits,
    ) -> Option<Step>
        // The rows are right for the automaton, and there is a row at the place.
        requires sound { IsSound dfa.now self.now }
        requires row { (i : ℕ) × IsAt dfa.now self.now i place }

        // The set has room for the indexes, and has the indexes of the row's marks if `is_told` says so.
        requires room { half dfa.now.run ≤ index_capacity found.old }
        requires told { IsTrue is_told
            → (i : ℕ) → IsAt dfa.now self.now i place → HasTold dfa.now.run self.now i found.old }

        // The set keeps its capacity. With a result it gets the row's marks, and there is one visit. Without one nothing changes.
        ensures room { index_capacity found.new ≡ index_capacity found.old }
        ensures step { (i : ℕ) → IsAt dfa.now self.now i place
            → MatchOption result (found.new ≡ found.old)
            (IsToldStep dfa.now self.now i byte found.old found.new) }
        ensures visits { MatchOption result (visits.new ≡ visits.old)
            (λ _. visits.new ≡ visits.old + 1) }
    {
        let entry = entry_at(&self.entries, place, dfa.class_of(byte));
        if entry == UNKNOWN {
            return None;
        }
        if entry >= MARKED && !is_told && !self.tell_marks(dfa, place, found) {
            return None;
        }
        visits.tick();
        Some(step_of(entry))
    }

    /// Puts the indexes that the row at a place decides into a set, if the list of its ends is kept. Returns whether it is.
    fn tell_marks(&self, dfa: &Dfa, place: usize, found: &mut IndexSet) -> bool
        // The rows are right for the automaton, there is a row at the place, and the set has room for the indexes.
        requires sound { IsSound dfa.now self.now }
        requires row { (i : ℕ) × IsAt dfa.now self.now i place }
        requires room { half dfa.now.run ≤ index_capacity found.old }

        // The set keeps its capacity, and gets the row's marks if the result is `true`. Otherwise it does not change.
        ensures room { index_capacity found.new ≡ index_capacity found.old }
        ensures told { (i : ℕ) → IsAt dfa.now self.now i place → IsTrue result
            → AddsMarks dfa.now.run self.now i found.old found.new }
        ensures none { IsFalse result → found.new ≡ found.old }
    {
        let end = entry_at(&self.entries, place, dfa.class_count());
        if end < FIRST {
            return false;
        }
        let half = dfa.half();
        tell_listed(&self.lists, (end - FIRST) as usize, half, half, found);
        true
    }

    /// Returns where a byte leads from the row at a place, if that is known, which is a visit.
    #[inline(always)]
    pub fn known_step(&self, dfa: &Dfa, place: usize, byte: u8, visits: &mut Visits) -> Option<Step>
        requires sound { IsSound dfa.now self.now }
        requires row { (i : ℕ) × IsAt dfa.now self.now i place }
        ensures step { (i : ℕ) → IsAt dfa.now self.now i place
            → IfSome result (λ step. IsStep dfa.now self.now i byte step self.now) }
        ensures visits { MatchOption result (visits.new ≡ visits.old)
            (λ _. visits.new ≡ visits.old + 1) }
    {
        let entry = entry_at(&self.entries, place, dfa.class_of(byte));
        if entry == UNKNOWN {
            return None;
        }
        visits.tick();
        Some(step_of(entry))
    }

    /// Returns whether the row at a place leads to some end without a byte, if that is known, which is a visit.
    pub fn known_end(&self, dfa: &Dfa, place: usize, visits: &mut Visits) -> Option<bool>
        requires sound { IsSound dfa.now self.now }
        requires row { (i : ℕ) × IsAt dfa.now self.now i place }
        ensures some { (i : ℕ) → IsAt dfa.now self.now i place
            → IfSome result (λ yes. IsTrue yes ↔ ((k : ℕ)
            × (k < half dfa.now.run + half dfa.now.run) × AcceptsRow dfa.now.run self.now i [] k)) }
        ensures visits { MatchOption result (visits.new ≡ visits.old)
            (λ _. visits.new ≡ visits.old + 1) }
    {
        let end = entry_at(&self.entries, place, dfa.class_count());
        if end == UNKNOWN {
            return None;
        }
        visits.tick();
        Some(end >= FIRST)
    }

    /// Returns whether it is known which ends the row at a place leads to without a byte, which is a visit. The indexes of these
    /// ends are put into a set then.
    pub fn tell_known_end(
        &self,
        dfa: &Dfa,
        place: usize,
        found: &mut IndexSet,
        visits: &mut Visits,
    ) -> bool
        // The rows are right for the automaton, there is a row at the place, and the set has room for the indexes.
        requires sound { IsSound dfa.now self.now }
        requires row { (i : ℕ) × IsAt dfa.now self.now i place }
        requires room { half dfa.now.run ≤ index_capacity found.old }

        // The set keeps its capacity, and gets what is found at the text's end if that is known. Otherwise nothing changes.
        ensures room { index_capacity found.new ≡ index_capacity found.old }
        ensures found { (i : ℕ) → IsAt dfa.now self.now i place → IsTrue result
            → AddsFound dfa.now.run self.now i [] found.old found.new }
        ensures none { IsFalse result → (found.new ≡ found.old) × (visits.new ≡ visits.old) }

        // The visits are bounded, and do not become fewer.
        ensures visits { visits.new ≤ visits.old + 1 }
        ensures counted { visits.old ≤ visits.new }
    {
        let end = entry_at(&self.entries, place, dfa.class_count());
        if end == UNKNOWN {
            return false;
        }
        visits.tick();
        if end >= FIRST {
            let half = dfa.half();
            tell_listed(&self.lists, (end - FIRST) as usize, half, 0, found);
        }
        true
    }

    /// Takes over the rows that another cache for the same automaton has, if there is room for all of them. It does not allocate.
    pub fn take_over(&mut self, other: &Rows)
        ensures { (d : DfaValue) → IsSound d self.old → IsSound d other.now → IsSound d self.new }
    {
        if other.starts.len() > self.starts.capacity()
            || other.lists.len() > self.lists.capacity()
            || other.entries.len() > self.entries.capacity()
            || other.table.len() > self.table.capacity()
        {
            return;
        }
        copy_within(&mut self.starts, &other.starts);
        copy_within(&mut self.lists, &other.lists);
        copy_within(&mut self.entries, &other.entries);
        copy_within(&mut self.table, &other.table);
        self.seed = other.seed;
        self.begin = other.begin;
    }
}

/// Puts what the ends of the indexes in the list at a place tell into a set, next to its contents, except ends of an index
/// below `lowest`. There are twice `half` indexes.
fn tell_listed(numbers: &[u32], place: usize, half: usize, lowest: usize, into: &mut IndexSet)
    requires list { IsList numbers.now (half + half) place }
    requires room { half ≤ index_capacity into.old }
    ensures room { index_capacity into.new ≡ index_capacity into.old }
    ensures has { (k : ℕ)
        → IsTrue (has_index into.new k)
        ↔ (ToldBy half (λ i. IsTrue (has_number i (list_at numbers.now place))) lowest k
        ⊎ IsTrue (has_index into.old k)) }
{
    let count = numbers[place] as usize;
    for index in &numbers[place + 1..place + 1 + count] {
        let index = *index as usize;
        if index >= lowest {
            into.put(told_by(index, half));
        }
    }
}
