//! A search for a path: breadth first, over the rows that paths lead to.

ghost use Rattle.std.specs.Prelude.{◌+◌, ◌<◌, ◌↔◌, [], length, IsTrue, IfOk, OnOk, MatchOption};
ghost use Rattle.byte_nfa.specs.Runs.{size};
ghost use Rattle.glob_relations.specs.inner.Rows.{AreRepresentatives, AreRows, AreStates, GoesNowhere, GoesTo, CameBefore, IsFollowed, IsStopped, KeepsRows, TellsAsked, TellsSearch, WantsRow};
ghost use Rattle.glob_relations.specs.inner.Leading.{AreLeading};
ghost use Rattle.glob_relations.specs.inner.Memory.{HasRoom};

use crate::classes::representatives;
use crate::domain::Domain;
use crate::ignoring::ignoring_rule;
use crate::leading::{has_leading, leading};
use crate::pass::{ends_of, is_wanted, states_of, step};
use crate::rows::{Origin, SearchRow, SearchRows};
use bit_sets::{IndexSet, StateSet};
use byte_nfa::Nfa;
use std::alloc::{AllocError, Global};

/// The answer of a search.
#[derive(Drop)]
pub enum SearchAnswer {
    /// A shortest path that is wanted.
    Found(Vec<u8>),
    /// No path is wanted.
    Nothing,
    /// There are more rows than the limit.
    Limit,
}

/// The sets of states, and of indexes, that steps need.
#[derive(Drop)]
pub struct Memory {
    pub from: StateSet,
    pub to: StateSet,
    pub ends: IndexSet,
}

impl Memory {
    ghost use Rattle.glob_relations.specs.inner.Leading.{AreLeading};
    ghost use Rattle.glob_relations.specs.inner.Memory.{HasRoom};

    /// Returns memory for an automaton.
    fn new(alloc: Global, automaton: &Nfa) -> Result<Memory, AllocError>
        ensures { IfOk result (HasRoom automaton.now) }
    {
        let states = automaton.state_count();
        let from = StateSet::new(alloc, states)?;
        let to = StateSet::new(alloc, states)?;
        let ends = IndexSet::new(alloc, automaton.index_count())?;
        Ok(Memory { from, to, ends })
    }
}

/// What a search looks for.
#[derive(Drop)]
pub struct Question {
    /// A path is wanted if it is read to ends of all indexes below this number, and to no end of this index.
    pub required: usize,
    /// For each of some rules, whether it ignores folders, or keeps them. Its index is `FIRST_RULE` and its number together. A
    /// path is not wanted if the last rule that applies to a folder above it ignores folders.
    pub ignores: Vec<bool>,
    /// The paths that are asked about.
    pub domain: Domain,
}

/// The index of the first rule of a question.
const FIRST_RULE: usize = 2;

/// Looks for a shortest path of a domain that an automaton reads to ends of all indexes below `required`, and to no end of
/// `required`.
///
/// It stops when there are more rows than the limit.
pub fn search(
    alloc: Global,
    automaton: &Nfa,
    required: usize,
    domain: Domain,
    limit: usize,
) -> Result<SearchAnswer, AllocError>
    requires { 0 < required }
    ensures { IfOk result (TellsSearch automaton.now required domain limit) }
{
    let ignores = Vec::new(alloc);
    let question = Question {
        required,
        ignores,
        domain,
    };
    ask(alloc, automaton, &question, limit)
}

/// Looks for a shortest path that a question wants, as [`search`] does.
pub fn ask(
    alloc: Global,
    automaton: &Nfa,
    question: &Question,
    limit: usize,
) -> Result<SearchAnswer, AllocError>
    requires { 0 < question.now.required }
    ensures { IfOk result (TellsAsked automaton.now question.now limit) }
{
    let mut memory = Memory::new(alloc, automaton)?;
    let bytes = representatives(alloc, automaton)?;
    let leading = leading(alloc, automaton, 0)?;
    let mut rows = first_rows(alloc, automaton, question, &mut memory)?;
    let mut next = 0;
    while next < rows.len() {
        if rows.len() > limit {
            return Ok(SearchAnswer::Limit);
        }
        if is_row_wanted(automaton, question, rows.row(next), &mut memory) {
            let path = rows.path_to(alloc, next)?;
            return Ok(SearchAnswer::Found(path));
        }
        expand(
            alloc,
            automaton,
            question,
            &bytes,
            &leading,
            &mut rows,
            next,
            &mut memory,
        )?;
        next += 1;
    }
    Ok(SearchAnswer::Nothing)
}

/// Returns the row where a path begins, alone.
fn first_rows(
    alloc: Global,
    automaton: &Nfa,
    question: &Question,
    memory: &mut Memory,
) -> Result<SearchRows, AllocError>
    requires { HasRoom automaton.now memory.old }
    ensures room { HasRoom automaton.now memory.new }
    ensures rows { IfOk result (AreRows automaton.now question.now) }
    ensures before { IfOk result (λ rows. CameBefore rows 0) }
{
    automaton.start(&mut memory.from);
    let states = states_of(alloc, &memory.from, automaton.state_count())?;
    let mut rows = SearchRows::new(alloc);
    let place = question.domain.first_place();
    rows.add(SearchRow { place, states }, Origin { row: 0, byte: 0 })?;
    Ok(rows)
}

/// Returns whether a path that leads to a row is wanted.
fn is_row_wanted(automaton: &Nfa, question: &Question, row: &SearchRow, memory: &mut Memory) -> bool
    requires room { HasRoom automaton.now memory.old }
    requires states { AreStates (size automaton.now) row.now.states.items }
    ensures room { HasRoom automaton.now memory.new }
    ensures wanted { IsTrue result ↔ WantsRow automaton.now question.now row.now [] }
{
    row.place.is_last()
        && is_wanted(
            automaton,
            question.required,
            &row.states,
            &mut memory.from,
            &mut memory.ends,
        )
}

/// Returns whether a byte after a row leads below an ignored folder.
fn is_stopped(
    automaton: &Nfa,
    question: &Question,
    row: &SearchRow,
    byte: u8,
    memory: &mut Memory,
) -> bool
    requires room { HasRoom automaton.now memory.old }
    requires states { AreStates (size automaton.now) row.now.states.items }
    ensures room { HasRoom automaton.now memory.new }
    ensures stopped { IsTrue result ↔ IsStopped automaton.now question.now row.now byte }
{
    if byte != b'/' || question.ignores.is_empty() {
        return false;
    }
    ends_of(automaton, &row.states, &mut memory.from, &mut memory.ends);
    match ignoring_rule(&memory.ends, FIRST_RULE, &question.ignores) {
        Some(_) => true,
        None => false,
    }
}

/// Returns the row after a byte, or `None` if no path of the domain goes on so, or only paths below an ignored folder do.
fn next_row(
    alloc: Global,
    automaton: &Nfa,
    question: &Question,
    row: &SearchRow,
    byte: u8,
    memory: &mut Memory,
) -> Result<Option<SearchRow>, AllocError>
    requires room { HasRoom automaton.now memory.old }
    requires states { AreStates (size automaton.now) row.now.states.items }
    ensures room { HasRoom automaton.now memory.new }
    ensures next { IfOk result
        (λ found. MatchOption found (GoesNowhere automaton.now question.now row.now byte)
        (λ next. AreStates (size automaton.now) next.states.items
        × GoesTo automaton.now question.now row.now byte next)) }
{
    if is_stopped(automaton, question, row, byte, memory) {
        return Ok(None);
    }
    let Some(place) = row.place.after(byte) else {
        return Ok(None);
    };
    step(
        automaton,
        &row.states,
        byte,
        &mut memory.from,
        &mut memory.to,
    );
    let states = states_of(alloc, &memory.to, automaton.state_count())?;
    Ok(Some(SearchRow { place, states }))
}

/// Adds the rows that bytes lead to from a row, and from which a text leads to an end of the index 0. The bytes are one of each
/// class of bytes that are read alike.
fn expand(
    alloc: Global,
    automaton: &Nfa,
    question: &Question,
    bytes: &[u8],
    leading: &[bool],
    rows: &mut SearchRows,
    number: usize,
    memory: &mut Memory,
) -> Result<(), AllocError>
    // The memory has room for the automaton. The row is one of those of a search so far, none of which came from a row after it.
    requires room { HasRoom automaton.now memory.old }
    requires rows { AreRows automaton.now question.now rows.old }
    requires number { number < length rows.old.seen.keys }
    requires before { CameBefore rows.old (number + 1) }

    // A wanted path leads to an end of the index 0, and `leading` marks each state from which a text may lead there. Each byte is
    // read like one of `bytes`.
    requires required { 0 < question.now.required }
    requires leading { AreLeading automaton.now 0 leading.now }
    requires bytes { AreRepresentatives automaton.now bytes.now }

    // After success the rows are as required above, and the memory is in any case.
    ensures room { HasRoom automaton.now memory.new }
    ensures rows { OnOk result (AreRows automaton.now question.now rows.new) }
    ensures before { OnOk result (CameBefore rows.new (number + 1)) }

    // After success each row is still there. A text that is wanted from this row is wanted, without its first byte, from the
    // first row, or from one that came from this row or an earlier one.
    ensures kept { OnOk result (KeepsRows rows.old rows.new) }
    ensures followed { OnOk result (IsFollowed automaton.now question.now rows.new number) }
{
    for byte in bytes {
        if let Some(row) = next_row(alloc, automaton, question, rows.row(number), *byte, memory)? {
            if has_leading(leading, &row.states) {
                rows.add(
                    row,
                    Origin {
                        row: number,
                        byte: *byte,
                    },
                )?;
            }
        }
    }
    Ok(())
}
