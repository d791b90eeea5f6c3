//! Sets of indexes.

ghost use Rattle.std.specs.Prelude.{◌≡◌, length};
ghost use Rattle.bit_sets.specs.inner.Summary.{IsSummary};

use crate::words::{
    clear_all, clear_words, first_from, first_in_word, grow, has_bit, set_bit, words_for,
};
use std::alloc::{AllocError, Global};

/// A set of indexes, as a bit for each.
#[derive(Drop)]
pub struct IndexSet {
    /// The word of the indexes below 64, which needs no allocation: many sets have no other indexes.
    first: [u64; 1],
    /// The words of the other indexes.
    rest: Vec<u64>,
    /// A bit for each word of the rest, which is set if the word is not 0. So 64 words of 0 are skipped at once, and only the
    /// other words are cleared.
    summary: Vec<u64>,
    ghost one: { length first ≡ 1 },
    ghost summed: { IsSummary rest.items summary.items },
}

impl IndexSet {
    ghost use Rattle.std.specs.Prelude.{◌≡◌, ℕ, ◌*◌, ◌<◌, ◌≤◌, ◌||◌, ◌==◌, ◌↔◌, [], false, IfOk, OnOk, IsOk, IsTrue, filter, length, vec_capacity};
    ghost use Rattle.std.specs.List.{range_with_len};
    ghost use Rattle.bit_sets.specs.Bits.{bit_of, TellsFirst, TellsFirstBelow};
    ghost use Rattle.bit_sets.specs.Indexes.{has_index, index_capacity, HasAlso};

    /// Returns an empty set with room for the indexes below 64. It allocates nothing.
    pub fn empty(alloc: Global) -> IndexSet
        ensures room { index_capacity result ≡ 64 }
        ensures none { (k : ℕ) → has_index result k ≡ false }
    {
        IndexSet {
            first: [0],
            rest: Vec::new(alloc),
            summary: Vec::new(alloc),
        }
    }

    /// Returns an empty set with room for `indexes` indexes. It allocates a bit for each above the first 64, and another for each
    /// 64 of these.
    pub fn new(alloc: Global, indexes: usize) -> Result<IndexSet, AllocError>
        ensures room { IfOk result (λ set. indexes ≤ index_capacity set) }
        ensures none { IfOk result (λ set. (k : ℕ) → has_index set k ≡ false) }
    {
        let mut set = IndexSet::empty(alloc);
        set.reserve(indexes)?;
        Ok(set)
    }

    /// Makes room for `indexes` indexes, if there is less. It allocates a bit for each above the first 64, and another for each
    /// 64 of these. The set has the same indexes in each case.
    pub fn reserve(&mut self, indexes: usize) -> Result<(), AllocError>
        ensures ok { OnOk result (indexes ≤ index_capacity self.new) }
        ensures kept { index_capacity self.old ≤ index_capacity self.new }
        ensures has { (k : ℕ) → has_index self.new k ≡ has_index self.old k }
        ensures memory { indexes ≤ index_capacity self.old → IsOk result }
    {
        let rest = words_for(indexes).saturating_sub(1);
        grow(&mut self.summary, words_for(rest))?;
        grow(&mut self.rest, rest)
    }

    /// Takes every index out. The time is linear in the number of indexes that were put in, and writes a word for each 4,096
    /// indexes of the room.
    pub fn clear(&mut self)
        ensures room { index_capacity self.new ≡ index_capacity self.old }
        ensures none { (k : ℕ) → has_index self.new k ≡ false }
    {
        clear_all(&mut self.first);
        clear_words(&mut self.rest, &self.summary);
        clear_all(&mut self.summary);
    }

    /// Returns whether there is room for an index.
    pub fn has_capacity_for(&self, index: usize) -> bool
        ensures { IsTrue result ↔ (index < index_capacity self.now) }
    {
        index / 64 <= self.rest.len()
    }

    /// Returns whether an index is in the set.
    pub fn has(&self, index: usize) -> bool
        ensures { result ≡ has_index self.now index }
    {
        if index < 64 {
            return has_bit(&self.first, index);
        }
        if self.has_capacity_for(index) {
            return has_bit(&self.rest, index - 64);
        }
        false
    }

    /// Puts an index in.
    pub fn put(&mut self, index: usize)
        requires { index < index_capacity self.old }
        ensures room { index_capacity self.new ≡ index_capacity self.old }
        ensures has { (k : ℕ) → has_index self.new k ≡ ((k == index) || has_index self.old k) }
    {
        if index < 64 {
            set_bit(&mut self.first, index);
        } else {
            self.put_in_rest(index - 64);
        }
    }

    /// Sets a bit of the rest.
    fn put_in_rest(&mut self, at: usize)
        requires { at < 64 * length self.old.rest.items }
        ensures first { self.new.first ≡ self.old.first }
        ensures room { length self.new.rest.items ≡ length self.old.rest.items }
        ensures bits { (k : ℕ) → bit_of self.new.rest.items k
            ≡ ((k == at) || bit_of self.old.rest.items k) }
    {
        set_bit(&mut self.rest, at);
        set_bit(&mut self.summary, at / 64);
    }

    /// Puts the indexes in that there is room for.
    pub fn put_all(&mut self, indexes: &[usize])
        ensures room { index_capacity self.new ≡ index_capacity self.old }
        ensures has { HasAlso self.old self.new indexes.now }
    {
        for index in indexes {
            if self.has_capacity_for(*index) {
                self.put(*index);
            }
        }
    }

    /// Returns the lowest index of the set from a number on and below another, or `None` if there is none. 64 times 64 numbers
    /// that are not in the set are passed over at once.
    pub fn next_below(&self, from: usize, end: usize) -> Option<usize>
        ensures { TellsFirstBelow (has_index self.now) from end result }
    {
        let at = self.first_from(from)?;
        if at < end { Some(at) } else { None }
    }

    /// Pushes the indexes of the set that are below a number, ascending, onto an empty vector. After an error some of them are
    /// pushed. It allocates nothing if the vector has a capacity of `end`.
    pub fn push_below(&self, end: usize, into: &mut Vec<usize>) -> Result<(), AllocError>
        requires { into.old.items ≡ [] }
        ensures pushed { OnOk result
            (into.new.items ≡ filter (has_index self.now) (range_with_len 0 end)) }
        ensures memory { end ≤ vec_capacity into.old → IsOk result }
        ensures capacity { vec_capacity into.old ≤ vec_capacity into.new }
    {
        let mut from = 0;
        while let Some(index) = self.next_below(from, end) {
            into.push(index)?;
            from = index + 1;
        }
        Ok(())
    }

    /// Returns whether the set has each index below a number.
    pub fn has_all_below(&self, end: usize) -> bool
        ensures { IsTrue result ↔ ((k : ℕ) → k < end → IsTrue (has_index self.now k)) }
    {
        for index in 0..end {
            if !self.has(index) {
                return false;
            }
        }
        true
    }

    /// Returns the lowest index of the set from a number on, or `None` if there is none.
    fn first_from(&self, from: usize) -> Option<usize>
        ensures { TellsFirst (has_index self.now) from result }
    {
        if from < 64 {
            if let Some(index) = first_in_word(&self.first, from) {
                return Some(index);
            }
        }
        let at = self.first_in_rest(from.saturating_sub(64))?;
        Some(at + 64)
    }

    /// Returns the lowest bit of the rest that is set from a bit on, or `None` if there is none.
    fn first_in_rest(&self, from: usize) -> Option<usize>
        ensures { TellsFirst (bit_of self.now.rest.items) from result }
    {
        if let Some(at) = first_in_word(&self.rest, from) {
            return Some(at);
        }
        let word = first_from(&self.summary, from / 64 + 1)?;
        first_in_word(&self.rest, word * 64)
    }
}
