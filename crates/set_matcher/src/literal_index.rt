//! Indexes under keys, and the indexes that a path finds.

ghost use Rattle.std.specs.Prelude.{◌≡◌, ◌≢◌, ◌+◌, ◌*◌, ◌≤◌, ◌↔◌, ◌<◌, ◌^◌, [], ℕ, List, length, map, IsTrue, MatchOption, OnOk, IfOk};
ghost use Rattle.bit_sets.specs.Indexes.{index_capacity, HasAlso};
ghost use Rattle.glob_path.specs.Entries.{indexes_under};
ghost use Rattle.glob_path.specs.Texts.{entry_of};
ghost use Rattle.glob_path.specs.Key.{key_seen};
ghost use Rattle.glob_path.specs.PathParts.{component_extension, last_component};
ghost use Rattle.set_matcher.specs.inner.KeysBelow.{MatchesBelow};
ghost use Rattle.set_matcher.specs.inner.LiteralIndex.{keys_found, no_keys, with_beginning, with_components, with_end, with_key, with_path, KeyParts};
ghost use Rattle.set_matcher.specs.inner.Parts.{HasFolders, HasOthers, tables_count, AreParts};

use crate::folders::Folders;
use bit_sets::{IndexSet, Visits};
use glob_path::{Anchor, Key, PathParts, Table, TableBuilder, Text, Trie};
use std::alloc::{AllocError, Global};
use std::marker::Model;

/// Indexes under keys, where a path finds the keys that match it.
#[derive(Drop)]
pub struct LiteralIndex {
    paths: Table,
    components: Table,
    extensions: Table,
    prefixes: Trie,
    ends: Trie,
    // The folders of the paths and of the beginnings. It is `None` if there are keys for last components, extensions or ends of
    // paths: then some path below each folder may find one.
    folders: Option<Folders>,
}

impl Model for LiteralIndex {
    ghost Value = { KeyParts };

    ghost view = { λ k. record {
      paths = k.paths;
      components = k.components;
      extensions = k.extensions;
      prefixes = k.prefixes.entries;
      ends = k.ends.entries;
    } };

    ghost invariant = { λ k. AreParts k.paths k.components k.extensions k.prefixes k.ends k.folders };
}

impl LiteralIndex {
    /// Returns whether the last component of a path is looked up.
    pub fn uses_last_component(&self) -> bool {
        !self.components.is_empty()
    }

    /// Returns whether the extension of a path is looked up.
    pub fn uses_extension(&self) -> bool {
        !self.extensions.is_empty()
    }

    /// Returns whether there are no keys: then no path finds an index.
    pub fn is_empty(&self) -> bool
        ensures { IsTrue result ↔ (self.now ≡ no_keys) }
    {
        if !self.paths.is_empty() || !self.components.is_empty() || !self.extensions.is_empty() {
            return false;
        }
        self.prefixes.is_empty() && self.ends.is_empty()
    }

    /// Adds the indexes that the path finds to a set: under the path, under its last component and under its extension, and under
    /// the texts that it begins or ends with. An index that the set has no room for is left out. A part of the path is only
    /// searched for if there are keys for it. It does not allocate.
    pub fn find(&self, path: &PathParts<'_>, found: &mut IndexSet, visits: &mut Visits)
        ensures room { index_capacity found.new ≡ index_capacity found.old }
        ensures found { HasAlso found.old found.new (keys_found self.now path.now) }
        ensures visits { visits.new ≤ visits.old + (3 + 2 * (length path.now + 1)) }
        ensures counted { visits.old ≤ visits.new }
    {
        found.put_all(self.by_path(path, visits));
        found.put_all(self.by_component(path, visits));
        found.put_all(self.by_extension(path, visits));
        self.prefixes.find(path.path(), found, visits);
        self.ends.find(path.path(), found, visits);
    }

    /// Returns whether the path finds an index. It does not allocate.
    pub fn is_match(&self, path: &PathParts<'_>, visits: &mut Visits) -> bool
        ensures some { IsTrue result ↔ (keys_found self.now path.now ≢ []) }
        ensures visits { visits.new ≤ visits.old + (3 + 2 * (length path.now + 1)) }
        ensures counted { visits.old ≤ visits.new }
    {
        if !self.by_path(path, visits).is_empty() {
            return true;
        }
        if !self.by_component(path, visits).is_empty() {
            return true;
        }
        if !self.by_extension(path, visits).is_empty() {
            return true;
        }
        if self.prefixes.is_match(path.path(), visits) {
            return true;
        }
        self.ends.is_match(path.path(), visits)
    }

    /// Returns whether some key may be found for a path below a folder. The folder has no `/` at its end. If it is false, no path
    /// in the folder finds a key, and a walk over a tree of folders need not enter it.
    ///
    /// It may be true and still no path below the folder find a key, since it lets each path have any last component, any
    /// extension and any end. So it is true for all folders if there is a key for a last component, an extension or an end.
    ///
    /// It is at most a lookup, which is a binary search among the folders of the paths and beginnings, and a walk. It does not
    /// allocate.
    pub fn can_match_below(&self, folder: &[u8], visits: &mut Visits) -> bool
        ensures some { IsTrue result ↔ MatchesBelow self.now folder.now }
        ensures visits { visits.new ≤ visits.old + (length folder.now + 2) }
        ensures counted { visits.old ≤ visits.new }
    {
        let Some(folders) = &self.folders else {
            return true;
        };
        if folders.has_below(folder, visits) {
            return true;
        }
        self.prefixes.is_match(folder, visits)
    }

    /// Returns how many indexes the path finds, or `None` if these are more than a `usize` can count. It does not allocate.
    pub fn count_found(&self, path: &PathParts<'_>, visits: &mut Visits) -> Option<usize>
        ensures count { MatchOption result (2 ^ 64 ≤ length (keys_found self.now path.now))
            (λ count. count ≡ length (keys_found self.now path.now)) }
        ensures visits { visits.new ≤ visits.old + (3 + 2 * (length path.now + 1)) }
        ensures counted { visits.old ≤ visits.new }
    {
        let in_tables = self.count_in_tables(path, visits);
        let at_beginning = self.prefixes.count_matches(path.path(), visits);
        let at_end = self.ends.count_matches(path.path(), visits);
        in_tables?.checked_add(at_beginning)?.checked_add(at_end)
    }

    /// Returns how many indexes the path finds in tables.
    fn count_in_tables(&self, path: &PathParts<'_>, visits: &mut Visits) -> Option<usize>
        ensures count { MatchOption result (2 ^ 64 ≤ tables_count self.now path.now)
            (λ count. count ≡ tables_count self.now path.now) }
        ensures visits { visits.new ≤ visits.old + 3 }
        ensures counted { visits.old ≤ visits.new }
    {
        let by_path = self.by_path(path, visits).len();
        let by_component = self.by_component(path, visits).len();
        let by_extension = self.by_extension(path, visits).len();
        by_path.checked_add(by_component)?.checked_add(by_extension)
    }

    /// Returns the indexes under the path.
    fn by_path(&self, path: &PathParts<'_>, visits: &mut Visits) -> &[usize]
        ensures found { result.now ≡ indexes_under self.now.paths path.now }
        ensures visits { visits.new ≤ visits.old + 1 }
        ensures counted { visits.old ≤ visits.new }
    {
        if self.paths.is_empty() {
            return &[];
        }
        self.paths.get(path.path(), visits)
    }

    /// Returns the indexes under the path's last component.
    fn by_component(&self, path: &PathParts<'_>, visits: &mut Visits) -> &[usize]
        ensures found { result.now ≡ indexes_under self.now.components (last_component path.now) }
        ensures visits { visits.new ≤ visits.old + 1 }
        ensures counted { visits.old ≤ visits.new }
    {
        if self.components.is_empty() {
            return &[];
        }
        self.components.get(path.last_component(), visits)
    }

    /// Returns the indexes under the extension of the path's last component.
    fn by_extension(&self, path: &PathParts<'_>, visits: &mut Visits) -> &[usize]
        ensures found { result.now
            ≡ indexes_under self.now.extensions (component_extension path.now) }
        ensures visits { visits.new ≤ visits.old + 1 }
        ensures counted { visits.old ≤ visits.new }
    {
        if self.extensions.is_empty() {
            return &[];
        }
        self.extensions.get(path.extension(), visits)
    }
}

/// Makes [`LiteralIndex`].
#[derive(Drop)]
pub struct LiteralIndexBuilder {
    paths: TableBuilder,
    components: TableBuilder,
    extensions: TableBuilder,
    prefixes: Vec<Text>,
    ends: Vec<Text>,
}

impl Model for LiteralIndexBuilder {
    ghost Value = { KeyParts };

    ghost view = { λ k. record {
      paths = k.paths;
      components = k.components;
      extensions = k.extensions;
      prefixes = map entry_of k.prefixes.items;
      ends = map entry_of k.ends.items;
    } };
}

impl LiteralIndexBuilder {
    /// Returns a builder that nothing was added to. It allocates nothing.
    pub fn new(alloc: Global) -> LiteralIndexBuilder
        ensures keys { result ≡ no_keys }
        ensures found { (path : List ℕ) → keys_found result path ≡ [] }
        ensures below { (folder : List ℕ) → MatchesBelow result folder → ⊥ }
    {
        LiteralIndexBuilder {
            paths: TableBuilder::new(alloc),
            components: TableBuilder::new(alloc),
            extensions: TableBuilder::new(alloc),
            prefixes: Vec::new(alloc),
            ends: Vec::new(alloc),
        }
    }

    /// Adds an index for the paths that a key matches.
    pub fn add(&mut self, key: Key, index: usize) -> Result<(), AllocError>
        ensures { OnOk result (self.new ≡ with_key self.old (key_seen key) index) }
    {
        match key {
            Key::Literal(bytes) => self.put_path(bytes, index),
            Key::BasenameLiteral(bytes) => self.components.insert_owned(bytes, index),
            Key::Extension(bytes) => self.extensions.insert_owned(bytes, index),
            Key::ComponentSuffix(bytes) => self.put_components(bytes, index),
            Key::Suffix(bytes) => self.put_end(bytes, index),
            Key::Prefix(bytes) => self.put_beginning(bytes, index),
        }
    }

    /// Returns the index of the keys that were added.
    ///
    /// The time is linear in the bytes of all keys, except that the beginnings, the ends and the folders of keys are sorted.
    pub fn finish(self, alloc: Global) -> Result<LiteralIndex, AllocError>
        ensures { IfOk result (λ keys. keys ≡ self) }
    {
        let folders = self.folders(alloc)?;
        let LiteralIndexBuilder {
            paths,
            components,
            extensions,
            prefixes,
            ends,
        } = self;
        Ok(LiteralIndex {
            paths: paths.build()?,
            components: components.build()?,
            extensions: extensions.build()?,
            prefixes: Trie::new(alloc, Anchor::Start, prefixes)?,
            ends: Trie::new(alloc, Anchor::End, ends)?,
            folders,
        })
    }

    /// Puts an index under a whole path.
    fn put_path(&mut self, bytes: Vec<u8>, index: usize) -> Result<(), AllocError>
        ensures { OnOk result (self.new ≡ with_path self.old bytes.items index) }
    {
        self.paths.insert_owned(bytes, index)
    }

    /// Puts an index under the beginning of paths.
    fn put_beginning(&mut self, bytes: Vec<u8>, index: usize) -> Result<(), AllocError>
        ensures { OnOk result (self.new ≡ with_beginning self.old bytes.items index) }
    {
        self.prefixes.push(Text { bytes, index })?;
        Ok(())
    }

    /// Puts an index under the end of paths.
    fn put_end(&mut self, bytes: Vec<u8>, index: usize) -> Result<(), AllocError>
        ensures { OnOk result (self.new ≡ with_end self.old bytes.items index) }
    {
        self.ends.push(Text { bytes, index })?;
        Ok(())
    }

    /// Puts an index under a whole path, and under the end that is `/` and the same bytes.
    fn put_components(&mut self, bytes: Vec<u8>, index: usize) -> Result<(), AllocError>
        ensures { OnOk result (self.new ≡ with_components self.old bytes.items index) }
    {
        let room = bytes.len().saturating_add(1);
        let mut end = Vec::with_capacity(*bytes.allocator(), room)?;
        end.push(b'/')?;
        end.extend_from_slice(&bytes)?;
        self.put_path(bytes, index)?;
        self.put_end(end, index)
    }

    /// Returns whether there are keys for last components, extensions or ends of paths.
    fn has_others(&self) -> bool
        ensures { IsTrue result ↔ HasOthers self.now.components self.now.extensions self.now.ends }
    {
        if !self.components.is_empty() {
            return true;
        }
        if !self.extensions.is_empty() {
            return true;
        }
        !self.ends.is_empty()
    }

    /// Returns the folders of paths and beginnings, or `None` if there are other keys.
    fn folders(&self, alloc: Global) -> Result<Option<Folders>, AllocError>
        ensures { IfOk result
            (λ folders. HasFolders folders self.now.paths self.now.components self.now.extensions
            self.now.prefixes self.now.ends) }
    {
        if self.has_others() {
            return Ok(None);
        }
        match Folders::new(alloc, &self.paths, &self.prefixes) {
            Ok(folders) => Ok(Some(folders)),
            Err(error) => Err(error),
        }
    }
}
