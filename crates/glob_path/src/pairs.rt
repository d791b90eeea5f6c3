//! Pairs of a key and an index, as a builder keeps them; the hashes and the order of keys.

ghost use Rattle.std.specs.Prelude.{◌≡◌, ℕ, List, length, map, OnOk, IfOk, slice_range};
ghost use Rattle.std.specs.List.{All};
ghost use Rattle.std.specs.List.Sorted.{IsSortedBy};
ghost use Rattle.glob_path.specs.Entries.{indexes_under};
ghost use Rattle.glob_path.specs.inner.Pairs.{pair_key, entries_of, pair_below, IsKept, hash_of, hashed_order};

use std::alloc::{AllocError, Global};
use std::cmp::Ordering;
use std::hash::{FoldHasher, Hasher};

/// An index under a key, which is a part of bytes that lie elsewhere; and the key's hash.
#[derive(Clone, Copy)]
pub(crate) struct Pair {
    pub(crate) hash: u32,
    pub(crate) start: usize,
    pub(crate) end: usize,
    pub(crate) index: usize,
}

impl Pair {
    /// Returns the pair's key.
    pub(crate) fn key<'a>(&self, bytes: &'a [u8]) -> &'a [u8]
        ensures { result.now ≡ pair_key bytes.now self.now }
    {
        part(bytes, self.start, self.end)
    }
}

/// Sorts pairs by their hashes and keys. Indexes under the same key keep their order.
pub(crate) fn sort(bytes: &[u8], pairs: &mut Vec<Pair>) -> Result<(), AllocError>
    requires { All (IsKept bytes.now) pairs.old.items }
    ensures kept { All (IsKept bytes.now) pairs.new.items }
    ensures len { length pairs.new.items ≡ length pairs.old.items }
    ensures sorted { OnOk result (IsSortedBy (pair_below bytes.now) pairs.new.items) }
    ensures same { (q : List ℕ)
        → indexes_under (entries_of bytes.now pairs.new.items) q
        ≡ indexes_under (entries_of bytes.now pairs.old.items) q }
{
    // Most pairs differ in their hashes, so most keys need not be read.
    pairs.sort_by(|a, b| match a.hash.cmp(&b.hash) {
        Ordering::Equal => a.key(bytes).cmp(b.key(bytes)),
        unequal => unequal,
    })
}

/// Returns the pairs' indexes, in the pairs' order.
pub(crate) fn indexes_of(alloc: Global, pairs: &[Pair]) -> Result<Vec<usize>, AllocError>
    ensures { IfOk result (λ v. v.items ≡ map (λ p. p.index) pairs.now) }
{
    pairs.iter().map(|pair| pair.index).collect(alloc)
}

/// Returns the upper half of a key's hash.
#[tactic(auto, unfolding(crate::specs::inner::Pairs::hash_of))]
pub(crate) fn hash(key: &[u8]) -> u32
    ensures { result ≡ hash_of key.now }
{
    let mut hasher = FoldHasher::default();
    hasher.write(key);
    (hasher.finish() >> 32) as u32
}

/// Compares hashes, and then keys.
pub(crate) fn compare(hash: u32, key: &[u8], other_hash: u32, other: &[u8]) -> Ordering
    ensures { result ≡ hashed_order hash key.now other_hash other.now }
{
    match hash.cmp(&other_hash) {
        Ordering::Equal => key.cmp(other),
        unequal => unequal,
    }
}

/// Returns a slice's elements between two indexes, as far as there are any.
pub(crate) fn part<T>(items: &[T], from: usize, to: usize) -> &[T]
    ensures { result.now ≡ slice_range items.now from to }
{
    let to = to.min(items.len());
    let from = from.min(to);
    &items[from..to]
}
