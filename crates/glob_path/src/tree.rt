//! The nodes of a trie, which only a counted call reads, and walks down them along a path.
//!
//! A node stands for the texts that begin with the bytes on the way to it. Its run is what all these texts go on with, so a walk
//! reads a node only where texts part or end, and compares the bytes between. Nodes are made level by level: first the root, then
//! its children, and so on. The texts of a node lie side by side, since the texts are in order, and are looked at at most twice
//! for each byte that they have; so the time is linear in the bytes of all texts.

ghost use Rattle.std.specs.Prelude.{◌≡◌, ◌+◌, ◌<◌, Some, IfSome, MatchOption, option_and_then, ◌≢◌, ℕ, ◌≤◌, ◌^◌, List, map, length, IfOk, OnOk, ◌↔◌, [], IsTrue, slice_get};
ghost use Rattle.glob_path.specs.inner.Nodes.{child_at, held_at, run_at, node_count, IsTree, under, along, HasRun, HasNoRun};
ghost use Rattle.std.specs.List.{AllWithin, HoldsAt};
ghost use Rattle.glob_path.specs.Entries.{indexes_under};
ghost use Rattle.glob_path.specs.Texts.{entry_of};
ghost use Rattle.glob_path.specs.declared.tree.Span.{Span};
ghost use Rattle.glob_path.specs.inner.Building.{rests_of, next_of, IsOrdered, AreWithin, IsSpan, AreSpans, AddsSplit, AddsRun, IsAdded, Stands};
ghost use Rattle.bit_sets.specs.Indexes.{index_capacity, HasAlso};
ghost use Rattle.glob_path.specs.inner.Anchors.{from_anchor};

use crate::trie::{Anchor, Text};
use bit_sets::{IndexSet, Visits};
use std::alloc::{AllocError, Global};
use std::mem;

/// A node: the ranges of its run, of its edges and of its indexes.
#[derive(Clone, Copy)]
struct Node {
    run: usize,
    run_end: usize,
    edges: usize,
    edges_end: usize,
    indexes: usize,
    indexes_end: usize,
}

/// Nodes, each for the texts that begin with the bytes on the way to it. The root is the node 0.
///
/// The run of a node is read before its indexes and edges count. Edges lie in order of node and byte. Each leads to a node of its own, whose number is the edge's plus 1.
#[derive(Drop)]
pub struct Tree {
    nodes: Vec<Node>,
    runs: Vec<u8>,
    bytes: Vec<u8>,
    indexes: Vec<usize>,
}

/// The texts from a place on and before another, which begin with the same bytes, and the number of these bytes.
#[derive(Clone, Copy)]
struct Span {
    from: usize,
    to: usize,
    depth: usize,
}

/// The result of reading a node whose run a path goes on with.
#[derive(Drop)]
pub struct Reading<'t> {
    /// The indexes of the texts that end after the run.
    pub indexes: &'t [usize],
    /// The place in the path after the run.
    pub end: usize,
    /// The node that the byte at this place leads to, if there is any.
    pub child: Option<usize>,
}

impl Tree {
    /// Reads a node from a place in a path on: its indexes, and the child that the byte after its run leads to. It is `None` if
    /// the path does not go on with the run. It is a visit.
    #[inline(always)]
    pub fn read(
        &self,
        node: usize,
        anchor: Anchor,
        path: &[u8],
        at: usize,
        visits: &mut Visits,
    ) -> Option<Reading<'_>>
        // The node is one of the tree.
        requires tree { IsTree self.now }
        requires node { node < node_count self.now }

        // The reading has the node's indexes and its child by the byte after the run, which is a node of the tree too. There is
        // none if the path has other bytes. It is one visit.
        ensures run { MatchOption result (HasNoRun (run_at self.now node) (from_anchor anchor path.now) at)
            (λ r. HasRun (run_at self.now node) (from_anchor anchor path.now) at r.end) }
        ensures indexes { IfSome result (λ r. r.indexes.now ≡ held_at self.now node) }
        ensures child { IfSome result (λ r. r.child
            ≡ option_and_then (child_at self.now node) (slice_get (from_anchor anchor path.now) r.end)) }
        ensures below { IfSome result (λ r. IfSome r.child (λ c. c < node_count self.now)) }
        ensures visits { visits.new ≡ visits.old + 1 }
    {
        visits.tick();
        let parts = self.nodes[node];
        let end = skip(&self.runs[parts.run..parts.run_end], anchor, path, at)?;
        let child = match anchor.byte(path, end) {
            Some(byte) => self.child(node, byte),
            None => None,
        };
        Some(Reading {
            indexes: &self.indexes[parts.indexes..parts.indexes_end],
            end,
            child,
        })
    }

    /// Returns the child of a node by a byte.
    fn child(&self, node: usize, byte: u8) -> Option<usize>
        requires tree { IsTree self.now }
        requires node { node < node_count self.now }
        ensures child { result ≡ child_at self.now node byte }
        ensures below { IfSome result (λ c. c < node_count self.now) }
    {
        let node = self.nodes[node];
        match self.bytes[node.edges..node.edges_end].binary_search(&byte) {
            Ok(i) => Some(node.edges + i + 1),
            Err(_) => None,
        }
    }

    /// Returns a tree of texts, which are in order. Its memory has no room for more.
    pub fn build(alloc: Global, texts: &[Text]) -> Result<Tree, AllocError>
        requires { IsOrdered texts.now 0 0 (length texts.now) }
        ensures tree { IfOk result IsTree }
        ensures leads { IfOk result
            (λ t. (w : List ℕ) → under t 0 w ≡ indexes_under (map entry_of texts.now) w) }
    {
        let longest = longest(texts);
        // The tree of a single text has one node, whose run is the text, and no edge.
        let nodes = Vec::with_capacity(alloc, texts.len())?;
        let runs = Vec::with_capacity(alloc, longest)?;
        let indexes = indexes_of(alloc, texts)?;
        let mut tree = Tree {
            nodes,
            runs,
            bytes: Vec::new(alloc),
            indexes,
        };
        let mut level = Vec::new(alloc);
        level.push(Span {
            from: 0,
            to: texts.len(),
            depth: 0,
        })?;
        let mut next = Vec::new(alloc);
        for least in 0..longest + 1 {
            tree.push_level(texts, least, &level, &mut next)?;
            mem::swap(&mut level, &mut next);
        }
        tree.nodes.shrink_to_fit();
        tree.runs.shrink_to_fit();
        tree.bytes.shrink_to_fit();
        Ok(tree)
    }

    /// Adds the nodes of a level, and replaces the items of `next` by the spans of the nodes of the next level. Each node of the
    /// level comes after at least `least` bytes.
    fn push_level(
        &mut self,
        texts: &[Text],
        least: usize,
        level: &[Span],
        next: &mut Vec<Span>,
    ) -> Result<(), AllocError>
        requires stands { Stands texts.now self.old (map (rests_of texts.now) level.now) }
        requires spans { AreSpans texts.now least level.now }
        ensures stands { OnOk result
            (Stands texts.now self.new (map (rests_of texts.now) next.new.items)) }
        ensures spans { OnOk result (AreSpans texts.now (least + 1) next.new.items) }
    {
        next.clear();
        for span in level {
            self.push_node(texts, least, *span, next)?;
        }
        Ok(())
    }

    /// Adds a node with its run and its edges, and to `next` what its children stand for.
    fn push_node(
        &mut self,
        texts: &[Text],
        least: usize,
        span: Span,
        next: &mut Vec<Span>,
    ) -> Result<(), AllocError>
        requires { IsSpan texts.now least span }
        ensures { OnOk result
            (IsAdded texts.now least span self.old self.new next.old.items next.new.items) }
    {
        let run = self.runs.len();
        let after = push_run(texts, least, span, &mut self.runs)?;
        let own = end_of_run(texts, after, None);
        let edges = self.bytes.len();
        let rest = Span {
            from: own,
            to: after.to,
            depth: after.depth,
        };
        push_edges(texts, rest, &mut self.bytes, next)?;
        self.nodes.push(Node {
            run,
            run_end: self.runs.len(),
            edges,
            edges_end: self.bytes.len(),
            indexes: after.from,
            indexes_end: own,
        })?;
        Ok(())
    }
}

/// Returns the place after a run in a path, or `None` if the path does not go on with the run.
fn skip(run: &[u8], anchor: Anchor, path: &[u8], at: usize) -> Option<usize>
    ensures { MatchOption result (HasNoRun run.now (from_anchor anchor path.now) at)
        (λ end. HasRun run.now (from_anchor anchor path.now) at end) }
{
    let mut end = at;
    for byte in run {
        if anchor.byte(path, end)? != *byte {
            return None;
        }
        end += 1;
    }
    Some(end)
}

/// Returns the indexes of texts, in their order.
fn indexes_of(alloc: Global, texts: &[Text]) -> Result<Vec<usize>, AllocError>
    ensures { IfOk result (λ v. v.items ≡ map (λ t. t.index) texts.now) }
{
    let mut indexes = Vec::with_capacity(alloc, texts.len())?;
    for text in texts {
        indexes.push(text.index)?;
    }
    Ok(indexes)
}

/// Adds the bytes that all texts of a span go on with, and returns the span after them.
fn push_run(
    texts: &[Text],
    least: usize,
    span: Span,
    runs: &mut Vec<u8>,
) -> Result<Span, AllocError>
    requires { IsSpan texts.now least span }
    ensures { IfOk result (λ after. AddsRun texts.now least span runs.old.items runs.new.items after) }
{
    let mut after = span;
    while let Some(byte) = shared_byte(texts, after) {
        runs.push(byte)?;
        after = Span {
            from: after.from,
            to: after.to,
            depth: after.depth + 1,
        };
    }
    Ok(after)
}

/// Returns the byte that all texts of a span go on with, or `None` if they part, some text ends, or there are no texts.
fn shared_byte(texts: &[Text], span: Span) -> Option<u8>
    requires from { span.from ≤ span.to }
    requires to { span.to ≤ length texts.now }
    ensures some { IfSome result (λ b. span.from < span.to) }
    ensures fits { IfSome result (λ b. span.depth + 1 < 2 ^ 64) }
    ensures shared { IfSome result
        (λ b. AllWithin (λ t. next_of span.depth t ≡ Some b) texts.now span.from span.to) }
{
    if span.from == span.to {
        return None;
    }
    let byte = next_byte(&texts[span.from], span.depth)?;
    if end_of_run(texts, span, Some(byte)) < span.to {
        return None;
    }
    Some(byte)
}

/// Adds an edge for each byte that texts go on with, and what its child stands for.
fn push_edges(
    texts: &[Text],
    span: Span,
    bytes: &mut Vec<u8>,
    next: &mut Vec<Span>,
) -> Result<(), AllocError>
    requires from { span.from ≤ span.to }
    requires to { span.to ≤ length texts.now }
    requires ordered { IsOrdered texts.now span.depth span.from span.to }
    requires long { AllWithin (λ t. span.depth < length t.bytes.items) texts.now span.from span.to }
    ensures { OnOk result
        (AddsSplit texts.now span bytes.old.items bytes.new.items next.old.items next.new.items) }
{
    let mut from = span.from;
    while from < span.to {
        let byte = texts[from].bytes[span.depth];
        let rest = Span {
            from,
            to: span.to,
            depth: span.depth,
        };
        let to = end_of_run(texts, rest, Some(byte));
        bytes.push(byte)?;
        next.push(Span {
            from,
            to,
            depth: span.depth + 1,
        })?;
        from = to;
    }
    Ok(())
}

/// Returns how far texts go on with a byte, or end, from the first of them on.
fn end_of_run(texts: &[Text], span: Span, next: Option<u8>) -> usize
    // The span lies within the texts.
    requires from { span.from ≤ span.to }
    requires to { span.to ≤ length texts.now }

    // The result lies in the span or at its end.
    ensures low { span.from ≤ result }
    ensures high { result ≤ span.to }

    // Each text of the span before the result goes on as `next` says. A text of the span at the result does not.
    ensures run { AllWithin (λ t. next_of span.depth t ≡ next) texts.now span.from result }
    ensures stop { result < span.to → HoldsAt (λ t. next_of span.depth t ≢ next) texts.now result }
{
    for at in span.from..span.to {
        if next_byte(&texts[at], span.depth) != next {
            return at;
        }
    }
    span.to
}

/// Returns the byte that a text goes on with, or `None` if it ends.
fn next_byte(text: &Text, depth: usize) -> Option<u8>
    ensures { result ≡ next_of depth text.now }
{
    text.bytes.get(depth).copied()
}

/// Returns the length of the longest text.
fn longest(texts: &[Text]) -> usize
    ensures within { AreWithin result texts.now }
    ensures small { result + 1 < 2 ^ 64 }
{
    let mut longest = 0;
    for text in texts {
        if text.bytes.len() > longest {
            longest = text.bytes.len();
        }
    }
    longest
}

/// Puts the indexes of the nodes along a path into a set, next to its contents: those that it has room for.
#[inline(never)]
pub fn find(tree: &Tree, anchor: Anchor, path: &[u8], into: &mut IndexSet, visits: &mut Visits)
    requires { IsTree tree.now }
    ensures room { index_capacity into.new ≡ index_capacity into.old }
    ensures found { HasAlso into.old into.new
        (along (under tree.now 0) (from_anchor anchor path.now)) }
    ensures visits { visits.new ≤ visits.old + (length path.now + 1) }
    ensures counted { visits.old ≤ visits.new }
{
    let mut node = 0;
    let mut at = 0;
    while let Some(reading) = tree.read(node, anchor, path, at, visits) {
        into.put_all(reading.indexes);
        match reading.child {
            Some(child) => {
                node = child;
                at = reading.end + 1;
            }
            None => return,
        }
    }
}

/// Returns whether some node along a path has an index.
#[inline(never)]
pub fn has_some(tree: &Tree, anchor: Anchor, path: &[u8], visits: &mut Visits) -> bool
    requires { IsTree tree.now }
    ensures some { IsTrue result ↔ (along (under tree.now 0) (from_anchor anchor path.now) ≢ []) }
    ensures visits { visits.new ≤ visits.old + (length path.now + 1) }
    ensures counted { visits.old ≤ visits.new }
{
    let mut node = 0;
    let mut at = 0;
    while let Some(reading) = tree.read(node, anchor, path, at, visits) {
        if !reading.indexes.is_empty() {
            return true;
        }
        match reading.child {
            Some(child) => {
                node = child;
                at = reading.end + 1;
            }
            None => return false,
        }
    }
    false
}

/// Returns how many indexes the nodes along a path have.
#[inline(never)]
pub fn count(tree: &Tree, anchor: Anchor, path: &[u8], visits: &mut Visits) -> usize
    requires tree { IsTree tree.now }
    requires fits { length (along (under tree.now 0) (from_anchor anchor path.now)) < 2 ^ 64 }
    ensures count { result ≡ length (along (under tree.now 0) (from_anchor anchor path.now)) }
    ensures visits { visits.new ≤ visits.old + (length path.now + 1) }
    ensures counted { visits.old ≤ visits.new }
{
    let mut node = 0;
    let mut at = 0;
    let mut count = 0;
    while let Some(reading) = tree.read(node, anchor, path, at, visits) {
        count += reading.indexes.len();
        match reading.child {
            Some(child) => {
                node = child;
                at = reading.end + 1;
            }
            None => return count,
        }
    }
    count
}
