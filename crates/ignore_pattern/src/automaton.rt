//! The automaton of the patterns of an ignore file.

ghost use Rattle.std.specs.Prelude.{◌≡◌, ◌<◌, ◌++◌, ◌∷◌, [], ℕ, List, length, IfOk, OnOk};
ghost use Rattle.byte_nfa.specs.Runs.{size};
ghost use Rattle.ignore_pattern.specs.Automata.{IsAutomatonOf, above_index};
ghost use Rattle.ignore_pattern.specs.Patterns.{Pattern, pattern_matches};
ghost use Rattle.ignore_pattern.specs.inner.States.{BuildsPattern, HasBelow, IsFor};
ghost use Rattle.byte_nfa.specs.Building.{Grows};
ghost use Rattle.byte_nfa.specs.Leading.{Builds};

use crate::pattern::IgnorePattern;
use crate::states::{push_below, push_elements};
use byte_nfa::{Builder, Nfa};
use std::alloc::{AllocError, Global};

/// Returns the automaton of patterns. A path leads to the indexes of the patterns that match it: the first pattern has the index 0,
/// and each other the next. The patterns are matched as git matches them, with `core.ignoreCase` or without it.
///
/// The two indexes after these tell of the folders above the path. A path leads to the first of them if a pattern that is not
/// negated matches a folder above it, and to the second if a negated pattern does.
///
/// This takes time and memory linear in the patterns, where each item of a class takes 256 steps.
///
/// # Errors
///
/// Fails only if memory runs out.
pub fn automaton_of(
    alloc: Global,
    patterns: &[IgnorePattern],
    ignore_case: bool,
) -> Result<Nfa, AllocError>
    ensures { IfOk result (λ nfa. IsAutomatonOf ignore_case patterns.now nfa) }
{
    let count = patterns.len();
    let mut builder = Builder::new(alloc, count + 2);
    let below = push_below(&mut builder, count)?;
    let below_negated = push_below(&mut builder, count + 1)?;
    for (index, pattern) in patterns.iter().enumerate() {
        let exit = if pattern.is_negated() {
            below_negated
        } else {
            below
        };
        push_pattern(&mut builder, ignore_case, pattern, index, exit)?;
    }
    Ok(builder.finish())
}

/// Pushes the states of a pattern, and makes where they begin a start. What is below a folder that it matches leads to `below`.
fn push_pattern(
    builder: &mut Builder,
    ignore_case: bool,
    pattern: &IgnorePattern,
    index: usize,
    below: usize,
) -> Result<(), AllocError>
    requires index { index < builder.old.index_count }
    requires below { below < size builder.old }
    ensures patterns { OnOk result
        ((ps : List Pattern) (n : ℕ) → length ps ≡ index
        → HasBelow builder.old below (above_index n pattern.now.negated)
        → IsFor ignore_case ps n builder.old
        → IsFor ignore_case (ps ++ pattern.now ∷ []) n builder.new) }
    ensures keeps { OnOk result
        ((b f : ℕ) → HasBelow builder.old b f → HasBelow builder.new b f) }
    ensures index_count { builder.new.index_count ≡ builder.old.index_count }
{
    let start = push_states(builder, ignore_case, pattern, index, below)?;
    builder.add_start(start)?;
    Ok(())
}

/// Pushes the states of a pattern. Returns where they begin. What is below a folder that it matches leads to `below`.
fn push_states(
    builder: &mut Builder,
    ignore_case: bool,
    pattern: &IgnorePattern,
    index: usize,
    below: usize,
) -> Result<usize, AllocError>
    requires index { index < builder.old.index_count }
    requires below { below < size builder.old }
    ensures within { IfOk result (λ s. s < size builder.new) }
    ensures grows { Grows builder.old builder.new }
    ensures builds { IfOk result
        (λ s. (f : ℕ) → BuildsPattern ignore_case pattern.now index f below builder.old.states
        builder.new.states s) }
{
    let end = builder.push_match(index)?;
    let exit = builder.push_union(&[end, below])?;
    push_matching(builder, ignore_case, pattern, exit)
}

/// Pushes the states that lead to a state by the paths that a pattern matches. Returns where they begin.
pub fn push_matching(
    builder: &mut Builder,
    ignore_case: bool,
    pattern: &IgnorePattern,
    exit: usize,
) -> Result<usize, AllocError>
    requires { exit < size builder.old }
    ensures within { IfOk result (λ s. s < size builder.new) }
    ensures grows { Grows builder.old builder.new }
    ensures builds { IfOk result
        (λ s. Builds (pattern_matches ignore_case pattern.now) builder.old.states
        builder.new.states s exit) }
{
    let start = push_elements(builder, ignore_case, pattern.elements(), exit)?;
    if pattern.is_whole() {
        Ok(start)
    } else {
        builder.push_up_to(b'/', start)
    }
}
