//! The rows of a table: each key once, and where its indexes are.

ghost use Rattle.std.specs.Prelude.{◌≡◌, ℕ, ◌+◌, ◌^◌, ◌<◌, ◌≤◌, max, List, map, length, IfOk, MatchOption, true, false, ◌/◌, [], slice_index};
ghost use Rattle.std.specs.Bool.{MatchBool};
ghost use Rattle.std.specs.List.{All, Contains};
ghost use Rattle.std.specs.List.Sorted.{IsSortedBy, IsNonDecreasing};
ghost use Rattle.glob_path.specs.inner.Pairs.{entries_of, hash_of, pair_below, IsKept};
ghost use Rattle.glob_path.specs.inner.Ends.{HasEnds, ends_have};
ghost use Rattle.glob_path.specs.inner.Starts.{HasStarts, AreStarts, buckets_of, hashes_of, rows_near};
ghost use Rattle.glob_path.specs.inner.Rows.{row_key, IsHashed, HasRows, HasNoRow, row_below, IsOtherKey, IsSameKey};

use crate::pairs::{Pair, compare, hash, part};
use bit_sets::{ByteSet, Visits};
use std::alloc::{AllocError, Global};
use std::cmp::Ordering;

/// A key, and where its indexes are.
#[derive(Clone, Copy)]
pub(crate) struct Row {
    pub(crate) hash: u32,
    pub(crate) start: usize,
    pub(crate) end: usize,
    pub(crate) from: usize,
    pub(crate) to: usize,
}

impl Row {
    /// Returns the row's key.
    pub(crate) fn key<'a>(&self, bytes: &'a [u8]) -> &'a [u8]
        ensures { result.now ≡ row_key bytes.now self.now }
    {
        part(bytes, self.start, self.end)
    }
}

/// Returns whether the next pair has another key, or there is none.
fn ends_group(bytes: &[u8], pairs: &[Pair], at: usize) -> bool
    requires kept { All (IsKept bytes.now) pairs.now }
    requires at { at < length pairs.now }
    ensures { MatchBool result (IsOtherKey bytes.now pairs.now at)
        (IsSameKey bytes.now pairs.now at) }
{
    let next = at + 1;
    if next == pairs.len() {
        return true;
    }
    // The pairs hold the hashes, so most keys need not be read.
    if pairs[next].hash != pairs[at].hash {
        return true;
    }
    pairs[next].key(bytes) != pairs[at].key(bytes)
}

/// Makes the rows of sorted pairs.
pub(crate) fn rows_of(alloc: Global, bytes: &[u8], pairs: &[Pair]) -> Result<Vec<Row>, AllocError>
    requires kept { All (IsKept bytes.now) pairs.now }
    requires sorted { IsSortedBy (pair_below bytes.now) pairs.now }
    ensures { IfOk result
        (λ rows. HasRows bytes.now rows.items (map (λ p. p.index) pairs.now)
        (entries_of bytes.now pairs.now)) }
{
    let mut rows = Vec::with_capacity(alloc, pairs.len())?;
    let mut from = 0;
    for at in 0..pairs.len() {
        if ends_group(bytes, pairs, at) {
            let pair = pairs[at];
            let to = at + 1;
            rows.push(Row {
                hash: pair.hash,
                start: pair.start,
                end: pair.end,
                from,
                to,
            })?;
            from = to;
        }
    }
    rows.shrink_to_fit();
    Ok(rows)
}

/// The most rows that are compared in turn without a hash.
pub(crate) const FEW: usize = 8;

/// Finds the row with a key, by the keys' ends and a directory. Each comparison with a row's key is counted.
pub(crate) fn find(
    bytes: &[u8],
    rows: &[Row],
    ends: &Ends,
    directory: &Directory,
    key: &[u8],
    compared: &mut Visits,
) -> Option<Row>
    // Each row keeps its key's hash, the rows are in order, and the ends and the directory are theirs.
    requires hashed { All (IsHashed bytes.now) rows.now }
    requires sorted { IsSortedBy (row_below bytes.now) rows.now }
    requires ends { HasEnds bytes.now rows.now ends.now }
    requires starts { HasStarts rows.now directory.now.shift directory.now.starts.items }

    // The result is a row with the key, or no row has the key. The comparisons are bounded.
    ensures row { MatchOption result (HasNoRow bytes.now rows.now key.now)
        (λ r. Contains rows.now r × (row_key bytes.now r ≡ key.now)) }
    ensures compared { (k : ℕ) → length rows.now < 2 ^ k → compared.new ≤ compared.old + max 8 k }
    ensures counted { compared.old ≤ compared.new }
{
    if !ends.may_have(key) {
        return None;
    }
    if rows.len() <= FEW {
        return scan(bytes, rows, key, compared);
    }
    let hash = hash(key);
    let near = directory.near(rows, hash);
    if near.len() <= FEW {
        return scan(bytes, near, key, compared);
    }
    search(bytes, near, hash, key, compared)
}

/// Finds the row with a key by comparing each row.
fn scan(bytes: &[u8], rows: &[Row], key: &[u8], compared: &mut Visits) -> Option<Row>
    ensures row { MatchOption result (HasNoRow bytes.now rows.now key.now)
        (λ r. Contains rows.now r × (row_key bytes.now r ≡ key.now)) }
    ensures compared { compared.new ≤ compared.old + length rows.now }
    ensures counted { compared.old ≤ compared.new }
{
    for row in rows {
        compared.tick();
        if row.key(bytes) == key {
            return Some(*row);
        }
    }
    None
}

/// Finds the row with a key and its hash among sorted rows by halves.
fn search(bytes: &[u8], rows: &[Row], hash: u32, key: &[u8], compared: &mut Visits) -> Option<Row>
    // `hash` is the key's hash, each row keeps its key's hash, and the rows are in order.
    requires hash { hash ≡ hash_of key.now }
    requires hashed { All (IsHashed bytes.now) rows.now }
    requires sorted { IsSortedBy (row_below bytes.now) rows.now }

    // The result is a row with the key, or no row has the key. The comparisons are bounded.
    ensures row { MatchOption result (HasNoRow bytes.now rows.now key.now)
        (λ r. Contains rows.now r × (row_key bytes.now r ≡ key.now)) }
    ensures compared { (k : ℕ) → length rows.now < 2 ^ k → compared.new ≤ compared.old + k }
    ensures counted { compared.old ≤ compared.new }
{
    let mut low = 0;
    let mut high = rows.len();
    'halves: while low < high {
        let at = low + (high - low) / 2;
        let row = rows[at];
        compared.tick();
        match compare(row.hash, row.key(bytes), hash, key) {
            Ordering::Less => low = at + 1,
            Ordering::Equal => return Some(row),
            Ordering::Greater => high = at,
        }
    }
    None
}

/// The last bytes of some keys, and whether any key is empty. Most keys that a table does not have end in a byte that no key of it
/// ends in.
#[derive(Clone, Copy)]
pub(crate) struct Ends {
    last: ByteSet,
    has_empty: bool,
}

impl Ends {
    /// Returns the ends of no keys.
    pub(crate) fn nothing() -> Ends
        ensures { (q : List ℕ) → ends_have result q ≡ false }
    {
        Ends {
            last: ByteSet::nothing(),
            has_empty: false,
        }
    }

    /// Returns the ends with the end of another key.
    fn with(self, key: &[u8]) -> Ends
        ensures has { ends_have result key.now ≡ true }
        ensures kept { (q : List ℕ) → ends_have self q ≡ true → ends_have result q ≡ true }
    {
        match key.last() {
            Some(byte) => Ends {
                last: self.last.with(*byte),
                has_empty: self.has_empty,
            },
            None => Ends {
                last: self.last,
                has_empty: true,
            },
        }
    }

    /// Returns whether this key may be among the keys.
    pub(crate) fn may_have(&self, key: &[u8]) -> bool
        ensures { result ≡ ends_have self.now key.now }
    {
        match key.last() {
            Some(byte) => self.last.has(*byte),
            None => self.has_empty,
        }
    }
}

/// Returns the ends of the rows' keys.
pub(crate) fn ends_of(bytes: &[u8], rows: &[Row]) -> Ends
    ensures { HasEnds bytes.now rows.now result }
{
    let mut ends = Ends::nothing();
    for row in rows {
        ends = ends.with(row.key(bytes));
    }
    ends
}

/// For each bucket how many rows are in lower buckets.
///
/// Without numbers there are no buckets, and a key may be in any row.
#[derive(Drop)]
pub(crate) struct Directory {
    pub(crate) shift: u32,
    pub(crate) starts: Vec<u32>,
    ghost in_range: { shift < 32 },
}

impl Directory {
    /// Returns a directory that knows no buckets, which allocates nothing.
    pub(crate) fn new(alloc: Global) -> Directory
        ensures { result.starts.items ≡ [] }
    {
        Directory {
            shift: 0,
            starts: Vec::new(alloc),
        }
    }

    /// Returns the rows among which a key with this hash is, if it is there.
    #[tactic(auto, unfolding(crate::specs::inner::Starts::rows_near))]
    pub(crate) fn near<'a>(&self, rows: &'a [Row], hash: u32) -> &'a [Row]
        ensures { result.now
            ≡ rows_near rows.now self.now.starts.items (hash / 2 ^ self.now.shift) }
    {
        let bucket = (hash >> self.shift) as usize;
        if bucket + 1 >= self.starts.len() {
            return rows;
        }
        let from = self.starts[bucket] as usize;
        let to = self.starts[bucket + 1] as usize;
        part(rows, from, to)
    }
}

/// Makes the directory of rows that are sorted by their hashes: two to four buckets for each row.
pub(crate) fn directory_of(alloc: Global, rows: &[Row]) -> Result<Directory, AllocError>
    requires { IsNonDecreasing (hashes_of rows.now) }
    ensures { IfOk result (λ d. HasStarts rows.now d.shift d.starts.items) }
{
    // Few rows are compared without a hash. Rows that 32 bits cannot count are searched by halves.
    if rows.len() <= FEW {
        return Ok(Directory::new(alloc));
    }
    let Ok(count) = u32::try_from(rows.len()) else {
        return Ok(Directory::new(alloc));
    };
    let shift = count.saturating_mul(2).leading_zeros();
    let buckets = buckets_of(alloc, rows, shift)?;
    let starts = starts_of(alloc, &buckets, (u32::MAX >> shift) as usize + 2)?;
    Ok(Directory { shift, starts })
}

/// Returns each row's bucket.
fn buckets_of(alloc: Global, rows: &[Row], shift: u32) -> Result<Vec<u32>, AllocError>
    requires { shift < 32 }
    ensures { IfOk result (λ v. v.items ≡ buckets_of shift rows.now) }
{
    rows.iter().map(|row| row.hash >> shift).collect(alloc)
}

/// Returns for each bucket below a count how many of some rows are in lower buckets, by the buckets of those rows.
fn starts_of(alloc: Global, buckets: &[u32], count: usize) -> Result<Vec<u32>, AllocError>
    requires sorted { IsNonDecreasing buckets.now }
    requires few { length buckets.now < 2 ^ 32 }
    ensures { IfOk result (λ v. AreStarts buckets.now v.items) }
{
    let mut starts = Vec::with_capacity(alloc, count)?;
    let mut from = 0;
    for bucket in 0..count {
        from = skip_below(buckets, from, bucket);
        starts.push(from as u32)?;
    }
    Ok(starts)
}

/// Returns the first place from `from` on where the bucket is not below another.
fn skip_below(buckets: &[u32], from: usize, bucket: usize) -> usize
    requires bound { from ≤ length buckets.now }
    requires before { (k : ℕ) → k < from → slice_index buckets.now k < bucket }
    ensures bound { result ≤ length buckets.now }
    ensures before { (k : ℕ) → k < result → slice_index buckets.now k < bucket }
    ensures here { result < length buckets.now → bucket ≤ slice_index buckets.now result }
{
    let mut at = from;
    while at < buckets.len() && (buckets[at] as usize) < bucket {
        at += 1;
    }
    at
}
