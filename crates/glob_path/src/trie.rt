//! A trie.

ghost use Rattle.std.specs.Prelude.{◌≡◌, ◌≢◌, ℕ, ◌+◌, ◌≤◌, ◌↔◌, [], List, map, length, IsTrue, IfOk, slice_get};
ghost use Rattle.bit_sets.specs.Indexes.{index_capacity, HasAlso};
ghost use Rattle.glob_path.specs.Entries.{indexes_under};
ghost use Rattle.glob_path.specs.Texts.{found, entry_of, Texts};
ghost use Rattle.glob_path.specs.inner.Building.{IsOrdered};
ghost use Rattle.glob_path.specs.inner.Anchors.{entry_from_anchor, from_anchor};
ghost use Rattle.glob_path.specs.inner.IsTrieOf.{HasTree};

use crate::tree;
use crate::tree::Tree;
use bit_sets::{IndexSet, Visits};
use std::alloc::{AllocError, Global};
use std::marker::Model;
use std::snapshot::Snapshot;

/// Texts with indexes, to look for at a side of a path.
#[derive(Drop)]
pub struct Trie {
    /// It is `None` if there are no texts. It is in a box, so that little is moved with a trie.
    tree: Option<Box<Tree>>,
    anchor: Anchor,
    entries: Snapshot<Vec<Text>>,
}

impl Model for Trie {
    ghost Value = { Texts };

    ghost view = { λ t. record { anchor = t.anchor; entries = map entry_of t.entries.value.items } };

    ghost invariant = { λ t. HasTree t.tree t.anchor (map entry_of t.entries.value.items) };
}

impl Trie {
    /// Returns a trie of texts, which are looked for at a side of a path.
    ///
    /// The time is linear in the bytes of all texts, except that the texts are sorted. With no texts it allocates nothing.
    pub fn new(alloc: Global, anchor: Anchor, texts: Vec<Text>) -> Result<Trie, AllocError>
        ensures { IfOk result
            (λ t. t ≡ record { anchor = anchor; entries = map entry_of texts.items }) }
    {
        let entries = Snapshot::of(&texts);
        if texts.is_empty() {
            return Ok(Trie {
                tree: None,
                anchor,
                entries,
            });
        }
        let sorted = sorted(anchor, texts)?;
        let tree = Tree::build(alloc, &sorted)?;
        Ok(Trie {
            tree: Some(Box::new(alloc, tree)?),
            anchor,
            entries,
        })
    }

    /// Returns whether there are no texts.
    pub fn is_empty(&self) -> bool
        ensures { IsTrue result ↔ (self.now.entries ≡ []) }
    {
        self.tree.is_none()
    }

    /// Puts the indexes of the texts that the path begins or ends with into a set, next to its contents: those that it has room
    /// for. It does not allocate.
    ///
    /// It is at most `path bytes + 1` visits.
    // Most sets have no texts with this anchor: the test for that is a part of the caller.
    #[inline(always)]
    pub fn find(&self, path: &[u8], into: &mut IndexSet, visits: &mut Visits)
        ensures room { index_capacity into.new ≡ index_capacity into.old }
        ensures found { HasAlso into.old into.new (found self.now path.now) }
        ensures visits { visits.new ≤ visits.old + (length path.now + 1) }
        ensures counted { visits.old ≤ visits.new }
    {
        if let Some(tree) = &self.tree {
            tree::find(tree, self.anchor, path, into, visits);
        }
    }

    /// Returns whether the path begins or ends with some text. It stops at the first, and does not allocate.
    ///
    /// It is at most `path bytes + 1` visits.
    #[inline(always)]
    pub fn is_match(&self, path: &[u8], visits: &mut Visits) -> bool
        ensures some { IsTrue result ↔ (found self.now path.now ≢ []) }
        ensures visits { visits.new ≤ visits.old + (length path.now + 1) }
        ensures counted { visits.old ≤ visits.new }
    {
        match &self.tree {
            Some(tree) => tree::has_some(tree, self.anchor, path, visits),
            None => false,
        }
    }

    /// Returns how many indexes of texts the path begins or ends with, each as often as it was given. It does not allocate.
    ///
    /// It is at most `path bytes + 1` visits.
    #[inline(always)]
    pub fn count_matches(&self, path: &[u8], visits: &mut Visits) -> usize
        ensures count { result ≡ length (found self.now path.now) }
        ensures visits { visits.new ≤ visits.old + (length path.now + 1) }
        ensures counted { visits.old ≤ visits.new }
    {
        match &self.tree {
            Some(tree) => tree::count(tree, self.anchor, path, visits),
            None => 0,
        }
    }
}

/// Returns texts as they are read from a side of a path, in order.
fn sorted(anchor: Anchor, mut texts: Vec<Text>) -> Result<Vec<Text>, AllocError>
    ensures order { IfOk result (λ v. IsOrdered v.items 0 0 (length v.items)) }
    ensures same { IfOk result
        (λ v. (w : List ℕ)
        → indexes_under (map entry_of v.items) w
        ≡ indexes_under (map (entry_from_anchor anchor) (map entry_of texts.items)) w) }
{
    match anchor {
        Anchor::Start => {}
        Anchor::End => reverse_all(&mut texts),
    }
    texts.sort_by(|a, b| a.bytes.cmp(&b.bytes))?;
    Ok(texts)
}

/// Reverses each text.
fn reverse_all(texts: &mut [Text])
    ensures { map entry_of texts.new ≡ map (entry_from_anchor Anchor.End) (map entry_of texts.old) }
{
    for text in texts.iter_mut() {
        text.bytes.reverse();
    }
}

/// Where in a path texts are looked for.
#[derive(Clone, Copy, PartialEq, Eq)]
pub enum Anchor {
    /// At its beginning.
    Start,
    /// At its end.
    End,
}

impl Anchor {
    /// Returns a byte of a path, counted from this side, or `None` after the last.
    pub(crate) fn byte(self, path: &[u8], at: usize) -> Option<u8>
        ensures { result ≡ slice_get (from_anchor self path.now) at }
    {
        match self {
            Anchor::Start => path.get(at).copied(),
            Anchor::End => {
                if at < path.len() {
                    Some(path[path.len() - 1 - at])
                } else {
                    None
                }
            }
        }
    }
}

/// A text that a trie looks for, and the index that it finds for it.
#[derive(Drop)]
pub struct Text {
    /// The text, which need not be UTF-8.
    pub bytes: Vec<u8>,
    /// The index, which other texts may have too.
    pub index: usize,
}
