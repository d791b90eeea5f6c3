//! Folders that rules of an ignore file ignore.

ghost use Rattle.std.specs.Prelude.{◌≡◌, ◌≤◌, IfOk, IsTrue, MatchOption};
ghost use Rattle.bit_sets.specs.Indexes.{has_index};
ghost use Rattle.byte_nfa.specs.Steps.{IsReached};
ghost use Rattle.glob_relations.specs.inner.Closed.{IsClosed, IsClosedBy, IsClosedAbove, IsOpen, ignores_of};

use crate::finding::found_indexes;
use bit_sets::IndexSet;
use byte_nfa::Nfa;
use ignore_pattern::IgnorePattern;
use std::alloc::{AllocError, Global};

/// Returns for each rule, given by its pattern, whether it ignores folders, and does not keep them.
pub fn ignores_of(alloc: Global, patterns: &[IgnorePattern]) -> Result<Vec<bool>, AllocError>
    ensures { IfOk result (λ ignores. ignores.items ≡ ignores_of patterns.now) }
{
    let mut ignores = Vec::new(alloc);
    for pattern in patterns {
        ignores.push(!pattern.is_negated())?;
    }
    Ok(ignores)
}

/// Returns the number of the last rule whose index was found for a folder, if this rule ignores folders. Indexes are counted from
/// `first` on.
pub fn ignoring_rule(found: &IndexSet, first: usize, ignores: &[bool]) -> Option<usize>
    requires { first ≤ 2 }
    ensures { MatchOption result
        (IsClosed ignores.now first (λ k. IsTrue (has_index found.now k)) → ⊥)
        (IsClosedBy ignores.now first (λ k. IsTrue (has_index found.now k))) }
{
    let mut k = ignores.len();
    while k > 0 {
        k -= 1;
        if found.has(first + k) {
            return if ignores[k] { Some(k) } else { None };
        }
    }
    None
}

/// Returns the number of the rule that ignores the highest ignored folder above a path, if there is any. The automaton leads a
/// path to the number of each rule that matches it.
pub fn hiding_rule(
    alloc: Global,
    automaton: &Nfa,
    ignores: &[bool],
    path: &[u8],
) -> Result<Option<usize>, AllocError>
    ensures { IfOk result
        (λ rule. MatchOption rule (IsOpen ignores.now 0 (IsReached automaton.now) path.now)
        (IsClosedAbove ignores.now 0 (IsReached automaton.now) path.now)) }
{
    for at in 0..path.len() {
        if path[at] == b'/' {
            let found = found_indexes(alloc, automaton, &path[..at])?;
            if let Some(k) = ignoring_rule(&found, 0, ignores) {
                return Ok(Some(k));
            }
        }
    }
    Ok(None)
}
