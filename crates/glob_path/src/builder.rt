//! Builders of tables.

ghost use Rattle.std.specs.Prelude.{◌≡◌, ◌<◌, ◌↔◌, IsTrue, List, ◌++◌, ◌∷◌, [], OnOk, OnErr, IfOk, length};
ghost use Rattle.glob_path.specs.Entries.{entry, Entry};
ghost use Rattle.std.specs.List.{All};
ghost use Rattle.glob_path.specs.inner.Pairs.{entries_of, key_at, IsKept};

use crate::pairs::{Pair, hash, indexes_of, sort};
use crate::rows::{directory_of, ends_of, rows_of};
use crate::table::{Keys, Table};
use std::alloc::{AllocError, Global};
use std::marker::Model;
use std::snapshot::Snapshot;

/// Builds a table of indexes under byte keys.
#[derive(Drop)]
pub struct TableBuilder {
    bytes: Vec<u8>,
    pairs: Vec<Pair>,
}

impl Model for TableBuilder {
    ghost Value = { List Entry };

    ghost view = { λ b. entries_of b.bytes.items b.pairs.items };

    ghost invariant = { λ b. All (IsKept b.bytes.items) b.pairs.items };
}

impl TableBuilder {
    /// Returns a builder of no entries, which allocates nothing.
    pub fn new(alloc: Global) -> TableBuilder
        ensures { result ≡ [] }
    {
        TableBuilder {
            bytes: Vec::new(alloc),
            pairs: Vec::new(alloc),
        }
    }

    /// Returns a builder of no entries, with room for `entries` entries.
    pub fn with_capacity(alloc: Global, entries: usize) -> Result<TableBuilder, AllocError>
        ensures { IfOk result (λ builder. builder ≡ []) }
    {
        Ok(TableBuilder {
            bytes: Vec::new(alloc),
            pairs: Vec::with_capacity(alloc, entries)?,
        })
    }

    /// Returns whether there are no entries.
    pub fn is_empty(&self) -> bool
        ensures { IsTrue result ↔ (self.now ≡ []) }
    {
        self.pairs.is_empty()
    }

    /// Returns the number of entries.
    pub fn len(&self) -> usize
        ensures { result ≡ length self.now }
    {
        self.pairs.len()
    }

    /// Returns the key of an entry, by the order of the additions.
    pub fn key(&self, at: usize) -> &[u8]
        requires { at < length self.now }
        ensures { result.now ≡ key_at self.now at }
    {
        self.pairs[at].key(&self.bytes)
    }

    /// Adds an index under a key, after those that it has.
    ///
    /// After an error the builder has the same entries as before.
    pub fn insert(&mut self, key: &[u8], index: usize) -> Result<(), AllocError>
        ensures ok { OnOk result (self.new ≡ self.old ++ entry key.now index ∷ []) }
        ensures err { OnErr result (self.new ≡ self.old) }
    {
        let start = self.bytes.len();
        self.bytes.extend_from_slice(key)?;
        self.pairs.push(Pair {
            hash: hash(key),
            start,
            end: self.bytes.len(),
            index,
        })?;
        Ok(())
    }

    /// Adds an index under a key, as [`TableBuilder::insert`] does. The memory of the first key that is not empty becomes the
    /// table's, so nothing is copied for a table of a single key.
    pub fn insert_owned(&mut self, key: Vec<u8>, index: usize) -> Result<(), AllocError>
        ensures ok { OnOk result (self.new ≡ self.old ++ entry key.items index ∷ []) }
        ensures err { OnErr result (self.new ≡ self.old) }
    {
        if self.bytes.is_empty() {
            self.pairs.push(Pair {
                hash: hash(&key),
                start: 0,
                end: key.len(),
                index,
            })?;
            self.bytes = key;
            return Ok(());
        }
        self.insert(&key, index)
    }

    /// Returns the table of the entries.
    ///
    /// Several entries are sorted, and their memory has no room for more.
    pub fn build(self) -> Result<Table, AllocError>
        ensures { IfOk result (λ table. table ≡ self) }
    {
        let entries = Snapshot::of(&self);
        let TableBuilder {
            mut bytes,
            mut pairs,
        } = self;
        if pairs.is_empty() {
            return Ok(Table::nothing(entries));
        }
        if let [pair] = pairs.as_slice() {
            return Ok(Table::of_one(bytes, *pair, entries));
        }
        let alloc = *bytes.allocator();
        bytes.shrink_to_fit();
        sort(&bytes, &mut pairs)?;
        let rows = rows_of(alloc, &bytes, &pairs)?;
        let directory = directory_of(alloc, &rows)?;
        let indexes = indexes_of(alloc, &pairs)?;
        let ends = ends_of(&bytes, &rows);
        let keys = Keys {
            bytes,
            rows,
            ends,
            directory,
            indexes,
        };
        Table::of_keys(alloc, keys, entries)
    }
}
