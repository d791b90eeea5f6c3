//! Automata where patterns share an index, to compare patterns.

ghost use Rattle.std.specs.Prelude.{◌≡◌, ◌<◌, ◌++◌, ◌∷◌, [], List, IfOk, OnOk};
ghost use Rattle.byte_nfa.specs.Runs.{size};
ghost use Rattle.ignore_pattern.specs.Compared.{IndexedPattern, indexed, Compares};
ghost use Rattle.ignore_pattern.specs.inner.States.{BuildsAlone};
ghost use Rattle.byte_nfa.specs.Building.{Grows};

use crate::automaton::push_matching;
use crate::pattern::IgnorePattern;
use byte_nfa::Builder;
use std::alloc::AllocError;

/// Adds a pattern to an automaton that is being built: each path that the pattern matches leads to the index. Other patterns may
/// have the same index.
///
/// # Errors
///
/// Fails only if memory runs out.
pub fn add_pattern(
    builder: &mut Builder,
    ignore_case: bool,
    pattern: &IgnorePattern,
    index: usize,
) -> Result<(), AllocError>
    requires { index < builder.old.index_count }
    ensures added { OnOk result
        ((xs : List IndexedPattern) → Compares ignore_case xs builder.old
        → Compares ignore_case (xs ++ indexed index pattern.now ∷ []) builder.new) }
    ensures index_count { builder.new.index_count ≡ builder.old.index_count }
{
    let start = push_alone(builder, ignore_case, pattern, index)?;
    builder.add_start(start)?;
    Ok(())
}

/// Pushes the states of a pattern, which lead to an end that names an index. Returns where they begin.
fn push_alone(
    builder: &mut Builder,
    ignore_case: bool,
    pattern: &IgnorePattern,
    index: usize,
) -> Result<usize, AllocError>
    requires { index < builder.old.index_count }
    ensures within { IfOk result (λ s. s < size builder.new) }
    ensures grows { Grows builder.old builder.new }
    ensures builds { IfOk result
        (λ s. BuildsAlone ignore_case pattern.now index builder.old.states builder.new.states s) }
{
    let end = builder.push_match(index)?;
    push_matching(builder, ignore_case, pattern, end)
}
