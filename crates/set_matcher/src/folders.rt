//! The folders of keys: below which folders some of many keys are.

ghost use Rattle.std.specs.Prelude.{◌≡◌, ◌+◌, ◌⊎◌, ◌↔◌, [], map, Contains, IsTrue, IfOk, OnOk, ℕ, List};
ghost use Rattle.glob_path.specs.Texts.{entry_of};
ghost use Rattle.glob_path.specs.Below.{folder_start};
ghost use Rattle.set_matcher.specs.inner.Folders.{AddsFolder, AreFolders, AreRising, SomeBelow, bytes_of, place_of, shown_of, start_of};

use bit_sets::Visits;
use glob_path::{PathParts, TableBuilder, Text};
use std::alloc::{AllocError, Global};
use std::cmp::Ordering;
use std::marker::Model;

/// The folders of keys, each once, in the order of their bytes. The folder of a key is the key up to its last `/`. A key without
/// `/` has none.
#[derive(Drop)]
pub struct Folders {
    texts: Vec<Vec<u8>>,
}

impl Model for Folders {
    ghost Value = { List (List ℕ) };

    ghost view = { λ f. bytes_of f.texts.items };

    ghost invariant = { λ f. AreRising (bytes_of f.texts.items) };
}

impl Folders {
    /// Returns the folders of paths and of beginnings.
    ///
    /// The time is linear in the bytes of all keys, except that their folders are sorted. A copy is kept of each folder that
    /// differs from the others; until then, two words are taken for each key whose folder differs from that of the key before.
    pub fn new(
        alloc: Global,
        paths: &TableBuilder,
        prefixes: &[Text],
    ) -> Result<Folders, AllocError>
        ensures { IfOk result
            (λ folders. AreFolders folders paths.now (map entry_of prefixes.now)) }
    {
        let mut starts = Vec::new(alloc);
        for at in 0..paths.len() {
            push_start(&mut starts, paths.key(at))?;
        }
        for text in prefixes {
            push_start(&mut starts, &text.bytes)?;
        }
        starts.sort_unstable();
        starts.dedup();
        Ok(Folders {
            texts: copies(alloc, &starts)?,
        })
    }

    /// Returns whether some key begins with the folder and a `/`.
    ///
    /// It is a visit, and does not allocate. It is a binary search: among at most `2^n` folders of keys it makes at most `n + 1`
    /// comparisons. Each reads at most `folder bytes + 1` bytes.
    pub fn has_below(&self, folder: &[u8], visits: &mut Visits) -> bool
        ensures some { IsTrue result ↔ SomeBelow self.now folder.now }
        ensures visits { visits.new ≡ visits.old + 1 }
    {
        visits.tick();
        self.texts
            .binary_search_by(|text| place(text, folder))
            .is_ok()
    }
}

/// Adds the folder of a key.
fn push_start<'k>(starts: &mut Vec<&'k [u8]>, key: &'k [u8]) -> Result<(), AllocError>
    ensures { OnOk result
        (AddsFolder (shown_of starts.old.items) (shown_of starts.new.items) key.now) }
{
    let start = start_of(key);
    if !is_known(starts, start) {
        starts.push(start)?;
    }
    Ok(())
}

/// Returns whether a start of a key need not be added: it has no folder, or it is the last one that was added.
fn is_known(starts: &[&[u8]], start: &[u8]) -> bool
    ensures { IsTrue result → (start.now ≡ []) ⊎ Contains (shown_of starts.now) start.now }
{
    if start.is_empty() {
        return true;
    }
    match starts.last() {
        Some(last) => *last == start,
        None => false,
    }
}

/// Returns a key up to its last `/`, or nothing if it has no `/`.
fn start_of(key: &[u8]) -> &[u8]
    ensures { result.now ≡ start_of key.now }
{
    let name = PathParts::new(key).last_component();
    &key[..key.len() - name.len()]
}

/// Returns copies of texts.
fn copies(alloc: Global, texts: &[&[u8]]) -> Result<Vec<Vec<u8>>, AllocError>
    ensures { IfOk result (λ copies. bytes_of copies.items ≡ shown_of texts.now) }
{
    let mut copies = Vec::with_capacity(alloc, texts.len())?;
    for text in texts {
        copies.push(Vec::from_slice(alloc, text)?)?;
    }
    Ok(copies)
}

/// Compares a text with the texts that begin with the folder and a `/`: `Less` if it comes before them all, `Equal` if it is one
/// of them, and `Greater` if it comes after them all.
fn place(text: &[u8], folder: &[u8]) -> Ordering
    ensures { result ≡ place_of text.now (folder_start folder.now) }
{
    if text.len() <= folder.len() {
        return text.cmp(folder).then(Ordering::Less);
    }
    text[..folder.len()]
        .cmp(folder)
        .then(text[folder.len()].cmp(&b'/'))
}
