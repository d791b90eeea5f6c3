//! A table of byte keys.

ghost use Rattle.std.specs.Prelude.{◌≡◌, ℕ, List, ◌+◌, ◌^◌, ◌<◌, ◌≤◌, max, [], ◌∷◌, ◌↔◌, IfOk, IsTrue, length};
ghost use Rattle.glob_path.specs.Entries.{Entry, indexes_under};
ghost use Rattle.glob_path.specs.inner.Pairs.{entries_of};
ghost use Rattle.glob_path.specs.inner.Tables.{AreKeys, HasContents};

use crate::builder::TableBuilder;
use crate::pairs::{Pair, part};
use crate::rows::{Directory, Ends, Row, find};
use bit_sets::Visits;
use std::alloc::{AllocError, Global};
use std::marker::Model;
use std::slice;
use std::snapshot::Snapshot;

/// Indexes under byte keys: under each key the indexes that were added with it, in the order of the additions.
#[derive(Drop)]
pub struct Table {
    contents: Contents,
    entries: Snapshot<TableBuilder>,
}

/// What a table keeps, by the number of its entries.
#[derive(Drop)]
enum Contents {
    None,
    /// The single entry, whose key is in the bytes. It is found without a hash, and made without another allocation.
    One(Vec<u8>, Pair),
    /// Several entries. They are in a box, so that little is moved with a table.
    Many(Box<Keys>),
}

/// The keys of several entries, each once, and the indexes under them.
#[derive(Drop)]
pub(crate) struct Keys {
    pub(crate) bytes: Vec<u8>,
    pub(crate) rows: Vec<Row>,
    pub(crate) ends: Ends,
    pub(crate) directory: Directory,
    pub(crate) indexes: Vec<usize>,
}

impl Model for Table {
    ghost Value = { List Entry };

    ghost view = { λ t. t.entries.value };

    ghost invariant = { λ t. HasContents t.contents t.entries.value };
}

impl Table {
    /// Returns the table of a builder that has no entries. It allocates nothing.
    pub(crate) fn nothing(entries: Snapshot<TableBuilder>) -> Table
        requires { entries.value ≡ [] }
        ensures { result ≡ [] }
    {
        Table {
            contents: Contents::None,
            entries,
        }
    }

    /// Returns the table of a builder that has a single entry. It allocates nothing.
    pub(crate) fn of_one(bytes: Vec<u8>, pair: Pair, entries: Snapshot<TableBuilder>) -> Table
        requires { entries.value ≡ entries_of bytes.items (pair ∷ []) }
        ensures { result ≡ entries.value }
    {
        Table {
            contents: Contents::One(bytes, pair),
            entries,
        }
    }

    /// Returns the table of a builder's entries.
    pub(crate) fn of_keys(
        alloc: Global,
        keys: Keys,
        entries: Snapshot<TableBuilder>,
    ) -> Result<Table, AllocError>
        requires { AreKeys keys entries.value }
        ensures { IfOk result (λ table. table ≡ entries.value) }
    {
        Ok(Table {
            contents: Contents::Many(Box::new(alloc, keys)?),
            entries,
        })
    }

    /// Returns the indexes under a key in the order of the additions, or none if the table does not have the key.
    ///
    /// It is a visit, and copies nothing. It compares `key` with as many keys as [`Table::get_compared`].
    pub fn get(&self, key: &[u8], visits: &mut Visits) -> &[usize]
        ensures indexes { result.now ≡ indexes_under self.now key.now }
        ensures visits { visits.new ≡ visits.old + 1 }
    {
        visits.tick();
        self.get_compared(key, &mut Visits::new())
    }

    /// Returns the indexes under a key, as [`Table::get`] does, and counts the keys that `key` is compared with.
    ///
    /// With fewer than `2^k` entries these are at most `k`, or at most 8 if `k` is less. A comparison reads at most `key.len()` bytes
    /// of another key.
    pub fn get_compared(&self, key: &[u8], compared: &mut Visits) -> &[usize]
        ensures indexes { result.now ≡ indexes_under self.now key.now }
        ensures compared { (k : ℕ) → length self.now < 2 ^ k
            → compared.new ≤ compared.old + max 8 k }
        ensures counted { compared.old ≤ compared.new }
    {
        match &self.contents {
            Contents::None => &[],
            Contents::One(bytes, pair) => {
                compared.tick();
                if pair.key(bytes) != key {
                    return &[];
                }
                slice::from_ref(&pair.index)
            }
            Contents::Many(keys) => match find(
                &keys.bytes,
                &keys.rows,
                &keys.ends,
                &keys.directory,
                key,
                compared,
            ) {
                Some(row) => part(&keys.indexes, row.from, row.to),
                None => &[],
            },
        }
    }

    /// Returns whether there are no entries.
    pub fn is_empty(&self) -> bool
        ensures { IsTrue result ↔ (self.now ≡ []) }
    {
        matches!(self.contents, Contents::None)
    }
}
