//! The parts of a path that automata are run on.

ghost use Rattle.std.specs.Prelude.{◌≡◌, ◌+◌, ◌*◌, ◌≤◌, ◌↔◌, ℕ, length, IsTrue, IsOk, OnOk, IfOk};
ghost use Rattle.bit_sets.specs.Indexes.{index_capacity};
ghost use Rattle.byte_nfa.specs.Runs.{size, max_reads};
ghost use Rattle.byte_nfa.specs.Steps.{IsReached};
ghost use Rattle.engine.specs.Matching.{AddsReached};
ghost use Rattle.engine.specs.Memory.{Fits, FitsAsBefore};
ghost use Rattle.set_matcher.specs.inner.Automata.{before_extension};
ghost use Rattle.set_matcher.specs.inner.PathPart.{part_of};

use bit_sets::{IndexSet, Visits};
use engine::{Compiled, Memory};
use glob_path::PathParts;
use std::alloc::AllocError;

/// A part of a path that an automaton is run on.
#[derive(Clone, Copy)]
pub enum Part {
    Path,
    LastComponent,
}

impl Part {
    /// Returns the part's bytes. It searches no byte of the path for them that lies before the path's last component.
    fn of<'p>(self, path: &PathParts<'p>) -> &'p [u8]
        ensures { result.now ≡ part_of self path.now }
    {
        match self {
            Part::Path => path.path(),
            Part::LastComponent => path.last_component(),
        }
    }
}

/// Marks the indexes of the ends that a part of the path leads to, beside those that are marked. The part is only searched for if
/// there are states.
// Most sets have no states for some part: the test for that is a part of the caller.
#[inline(always)]
pub fn run(
    part: Part,
    automaton: &Compiled,
    path: &PathParts<'_>,
    slot: usize,
    memory: &mut Memory,
    marks: &mut IndexSet,
    visits: &mut Visits,
) -> Result<(), AllocError>
    // The marks have room for each index, and the slot is the automaton's.
    requires count { automaton.now.index_count ≤ index_capacity marks.old }
    requires fits { Fits memory.old slot automaton.now }

    // The memory fits all that it fitted, and the marks have the same room. After success the marks have these indexes in
    // addition.
    ensures kept { FitsAsBefore memory.old memory.new }
    ensures room { index_capacity marks.new ≡ index_capacity marks.old }
    ensures found { OnOk result
        (AddsReached automaton.now (part_of part path.now) marks.old marks.new) }

    // Memory runs out only if there is too little room for the automaton's states.
    ensures memory { size automaton.now ≤ memory.old.room → IsOk result }

    // The number of visits never decreases, and its increase is bounded.
    ensures visits { visits.new ≤ visits.old + (length path.now + 1) * max_reads automaton.now }
    ensures counted { visits.old ≤ visits.new }
{
    if automaton.state_count() == 0 {
        return Ok(());
    }
    let text = part.of(path);
    automaton.find(text, slot, memory, marks, visits)
}

/// Returns whether a part of the path leads to some end. The part is only searched for if there are states.
#[inline(always)]
pub fn matches_part(
    part: Part,
    automaton: &Compiled,
    path: &PathParts<'_>,
    slot: usize,
    memory: &mut Memory,
    visits: &mut Visits,
) -> Result<bool, AllocError>
    // The slot is the automaton's, and the memory fits all that it fitted. The answer is right.
    requires { Fits memory.old slot automaton.now }
    ensures kept { FitsAsBefore memory.old memory.new }
    ensures some { IfOk result
        (λ yes. IsTrue yes ↔ ((k : ℕ) × IsReached automaton.now (part_of part path.now) k)) }

    // Memory runs out only if there is too little room for the automaton's states.
    ensures memory { size automaton.now ≤ memory.old.room → IsOk result }

    // The number of visits never decreases, and its increase is bounded.
    ensures visits { visits.new ≤ visits.old + (length path.now + 1) * max_reads automaton.now }
    ensures counted { visits.old ≤ visits.new }
{
    if automaton.state_count() == 0 {
        return Ok(false);
    }
    let text = part.of(path);
    automaton.is_match(text, slot, memory, visits)
}

/// Returns the bytes of a path before the extension of its last component.
pub fn before_extension<'p>(path: &PathParts<'p>) -> &'p [u8]
    ensures { result.now ≡ before_extension path.now }
{
    let bytes = path.path();
    let end = bytes.len() - path.extension().len();
    &bytes[..end]
}
