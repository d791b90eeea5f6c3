//! Automata in which texts that begin alike share states.
//!
//! An automaton may have many starts, and most texts lead to states from many of them. [`shared`] makes an automaton that leads
//! to the same ends and begins in one state. There one state stands for all that a text may lead to by steps of one kind with the
//! same bytes, so a run goes through smaller sets of states. Each state is made for a list of states.

ghost use Rattle.std.specs.Prelude.{◌≡◌, ◌+◌, ◌≤◌, [], IsTrue, IfOk, IfSome, ◌⊎◌, ℕ, List, OnOk, ◌<◌, length};
ghost use Rattle.byte_nfa.specs.Runs.{size};
ghost use Rattle.byte_nfa.specs.Sharing.{Shares};
ghost use Rattle.byte_nfa.specs.Steps.{state};
ghost use Rattle.engine.specs.inner.Chunks.{IsPushedFor, with_next, IsChunk};
ghost use Rattle.engine.specs.inner.Known.{IsSharing, IsKnown};
ghost use Rattle.engine.specs.inner.Lists.{AcceptAlike, IsStateFor};
ghost use Rattle.byte_nfa.specs.Reading.{is_read};

use byte_nfa::{Builder, Nfa, StateRef};
use std::alloc::{AllocError, Global};
use std::collections::HashMap;

/// Returns an automaton that leads where `automaton` does and begins in one state, and in which texts that begin alike share
/// states.
///
/// Returns `None` if there are no starts, or if that takes more states than there are, or more work than is linear in the states.
/// Returns an error if memory runs out. It takes memory linear in the automaton.
pub fn shared(alloc: Global, automaton: &Nfa) -> Result<Option<Nfa>, AllocError>
    ensures { IfOk result (λ made. IfSome made (λ new. Shares automaton.now new)) }
{
    if automaton.starts().is_empty() {
        return Ok(None);
    }
    let mut builder = Builder::new(alloc, automaton.index_count());
    let Some(start) = start_state(alloc, automaton, &mut builder)? else {
        return Ok(None);
    };
    builder.add_start(start)?;
    Ok(Some(builder.finish()))
}

/// The lists that a state was made for, and those that wait for one.
#[derive(Drop)]
struct Sharing {
    known: KnownLists,
    waiting: Vec<Vec<usize>>,
    /// The work that may still be done.
    left: usize,
}

/// Pushes a state that stands for the states that an automaton begins in, and those that it leads to. Returns its number, or
/// `None` if that is too much work or takes more states than the automaton has.
pub fn start_state(
    alloc: Global,
    automaton: &Nfa,
    builder: &mut Builder,
) -> Result<Option<usize>, AllocError>
    // The builder begins without states and starts, for the automaton's indexes.
    requires states { builder.old.states ≡ [] }
    requires starts { builder.old.starts ≡ [] }
    requires index_count { builder.old.index_count ≡ automaton.now.index_count }

    // A returned state stands for the automaton's starts. Then the builder has at most as many states as the automaton,
    // still no starts, and the same indexes.
    ensures state { IfOk result
        (λ made. IfSome made (λ u. IsStateFor automaton.now builder.new automaton.now.starts u)) }
    ensures states { IfOk result
        (λ made. IfSome made (λ u. size builder.new ≤ size automaton.now)) }
    ensures starts { IfOk result (λ made. IfSome made (λ u. builder.new.starts ≡ [])) }
    ensures index_count { IfOk result
        (λ made. IfSome made (λ u. builder.new.index_count ≡ automaton.now.index_count)) }
{
    let mut sharing = Sharing {
        known: KnownLists::new(alloc, automaton.state_count())?,
        waiting: Vec::new(alloc),
        left: budget(automaton),
    };
    let starts = Vec::from_slice(alloc, automaton.starts())?;
    sharing.waiting.push(starts)?;
    while let Some(list) = sharing.waiting.pop() {
        let goes_on = sharing.take(alloc, automaton, list, builder)?;
        if !goes_on {
            return Ok(None);
        }
    }
    Ok(sharing.known.state_of(automaton.starts()))
}

impl Sharing {
    /// Makes a state for a list, if states were made for the lists that it leads to. Otherwise these wait first, and then this
    /// list again. Returns whether there was work left for that, and the number of states is within bounds.
    fn take(
        &mut self,
        alloc: Global,
        automaton: &Nfa,
        list: Vec<usize>,
        builder: &mut Builder,
    ) -> Result<bool, AllocError>
        requires sharing { IsSharing automaton.now builder.old self.old.known }
        requires states { size builder.old ≤ size automaton.now }
        ensures sharing { IfOk result
            (λ goes_on. IsTrue goes_on
            → IsSharing automaton.now builder.new self.new.known) }
        ensures states { IfOk result
            (λ goes_on. IsTrue goes_on → size builder.new ≤ size automaton.now) }
        ensures left { IfOk result (λ goes_on. IsTrue goes_on → self.new.left + 1 ≤ self.old.left) }
    {
        if !spend(&mut self.left, 1) {
            return Ok(false);
        }
        if self.known.state_of(&list).is_some() {
            return Ok(true);
        }
        let Some(states) = self.in_order(alloc, automaton, &list)? else {
            return Ok(false);
        };
        let Some(mut missing) = missing_lists(alloc, automaton, &states, &self.known)? else {
            return Ok(false);
        };
        if !missing.is_empty() {
            self.waiting.push(list)?;
            self.waiting.append(&mut missing)?;
            return Ok(true);
        }
        let Some(state) = push_list(alloc, automaton, &states, &self.known, builder)? else {
            return Ok(false);
        };
        self.known.add(list, state)?;
        Ok(builder.state_count() <= automaton.state_count())
    }

    /// Returns the states of a list with a union's successors in its place, ordered so that states that are alike are adjacent.
    /// `None` if that is too much work.
    fn in_order(
        &mut self,
        alloc: Global,
        automaton: &Nfa,
        list: &[usize],
    ) -> Result<Option<Vec<usize>>, AllocError>
        ensures alike { IfOk result
            (λ made. IfSome made (λ states. AcceptAlike automaton.now list.now states.items)) }
        ensures known { self.new.known ≡ self.old.known }
        ensures left { self.new.left ≤ self.old.left }
    {
        // Most lists are so, and a list of one state is in order.
        if let [only] = list {
            if !matches!(automaton.state(*only), Some(StateRef::Union(_))) {
                return Ok(Some(Vec::from_slice(alloc, list)?));
            }
        }
        let Some(mut states) = expanded(alloc, automaton, list, &mut self.left)? else {
            return Ok(None);
        };
        states.sort_unstable_by_key(|s| automaton.order_of(*s));
        Ok(Some(states))
    }
}

/// Returns the lists that the chunks of a list lead to and that have no state yet. `None` if the list has a union.
fn missing_lists(
    alloc: Global,
    automaton: &Nfa,
    states: &[usize],
    known: &KnownLists,
) -> Result<Option<Vec<Vec<usize>>>, AllocError> {
    let mut missing = Vec::new(alloc);
    let mut at = 0;
    while at < states.len() {
        let Some(chunk) = Chunk::at(alloc, automaton, states, at)? else {
            return Ok(None);
        };
        at = chunk.end;
        let is_end = matches!(automaton.state(chunk.first), Some(StateRef::Match(_)));
        if !is_end && known.state_of(&chunk.nexts).is_none() {
            missing.push(chunk.nexts)?;
        }
    }
    Ok(Some(missing))
}

/// Pushes a state that stands for a list, and a state for each of its chunks. Returns its number, or `None` if the list has a
/// union or leads to a list that no state was made for.
fn push_list(
    alloc: Global,
    automaton: &Nfa,
    states: &[usize],
    known: &KnownLists,
    builder: &mut Builder,
) -> Result<Option<usize>, AllocError>
    requires { IsSharing automaton.now builder.old known.now }
    ensures sharing { IfOk result
        (λ made. IfSome made (λ u. IsSharing automaton.now builder.new known.now)) }
    ensures state { IfOk result
        (λ made. IfSome made (λ u. IsStateFor automaton.now builder.new states.now u)) }
{
    let mut parts = Vec::new(alloc);
    let mut at = 0;
    while at < states.len() {
        let Some(chunk) = Chunk::at(alloc, automaton, states, at)? else {
            return Ok(None);
        };
        let Some(part) = push_chunk(automaton, &chunk, known, builder)? else {
            return Ok(None);
        };
        parts.push(part)?;
        at = chunk.end;
    }
    if let [only] = parts.as_slice() {
        return Ok(Some(*only));
    }
    let union = builder.push_union(&parts)?;
    Ok(Some(union))
}

/// Pushes the state of a chunk. Returns its number, or `None` if no state was made for the list that the chunk goes on to.
fn push_chunk(
    automaton: &Nfa,
    chunk: &Chunk,
    known: &KnownLists,
    builder: &mut Builder,
) -> Result<Option<usize>, AllocError>
    requires { IsSharing automaton.now builder.old known.now }
    ensures { IfOk result
        (λ made. IfSome made
        (λ u. IsPushedFor builder.old builder.new known.now
        (state automaton.now.states chunk.now.first) chunk.now.nexts.items u)) }
{
    match automaton.state(chunk.first) {
        Some(StateRef::Bytes(bytes, _)) => {
            let Some(next) = known.state_of(&chunk.nexts) else {
                return Ok(None);
            };
            let state = builder.push_bytes(*bytes, next)?;
            Ok(Some(state))
        }
        Some(StateRef::Loop(bytes, _)) => {
            let Some(exit) = known.state_of(&chunk.nexts) else {
                return Ok(None);
            };
            let state = builder.push_loop(*bytes, exit)?;
            Ok(Some(state))
        }
        Some(StateRef::Match(index)) => {
            let state = builder.push_match(index)?;
            Ok(Some(state))
        }
        Some(StateRef::Union(_)) | None => Ok(None),
    }
}

/// Returns how much work may be done for an automaton, where a state that is looked at in a list is 1.
///
/// Each list is looked at twice, and a state is mostly in few lists.
fn budget(automaton: &Nfa) -> usize {
    automaton
        .state_count()
        .saturating_mul(32)
        .saturating_add(64)
}

/// Subtracts an amount from `left`. Returns whether there was enough.
fn spend(left: &mut usize, amount: usize) -> bool
    ensures taken { IsTrue result → left.new + amount ≡ left.old }
    ensures less { left.new ≤ left.old }
{
    match left.checked_sub(amount) {
        Some(rest) => {
            *left = rest;
            true
        }
        None => false,
    }
}

/// Returns the states of a list with a union's successors in its place, and no unions. `None` if that is too much work.
fn expanded(
    alloc: Global,
    automaton: &Nfa,
    list: &[usize],
    left: &mut usize,
) -> Result<Option<Vec<usize>>, AllocError>
    ensures alike { IfOk result
        (λ made. IfSome made (λ states. AcceptAlike automaton.now list.now states.items)) }
    ensures left { left.new ≤ left.old }
{
    let mut states = Vec::new(alloc);
    let mut waiting = Vec::from_slice(alloc, list)?;
    while let Some(s) = waiting.pop() {
        if !spend(left, 1) {
            return Ok(None);
        }
        let Some(state) = automaton.state(s) else {
            return Ok(None);
        };
        match state {
            StateRef::Union(targets) => {
                if !spend(left, targets.len()) {
                    return Ok(None);
                }
                waiting.extend_from_slice(targets)?;
            }
            _ => states.push(s)?,
        }
    }
    Ok(Some(states))
}

/// The lists that a state was made for.
#[derive(Drop)]
pub struct KnownLists {
    /// For each state, the state that was made for the list of it alone. Most lists are so.
    singles: Vec<Option<usize>>,
    /// The states that were made for other lists.
    others: HashMap<Vec<usize>, usize>,
}

impl KnownLists {
    /// Returns an empty index of lists of states below a count.
    #[tactic(auto, unfolding(crate::specs::inner::Known::IsKnown))]
    pub fn new(alloc: Global, state_count: usize) -> Result<KnownLists, AllocError>
        ensures { IfOk result (λ known. (l : List ℕ) (u : ℕ) → IsKnown known l u → ⊥) }
    {
        let mut singles = Vec::new(alloc);
        singles.resize(state_count, None)?;
        Ok(KnownLists {
            singles,
            others: HashMap::new(alloc),
        })
    }

    /// Returns the state that was made for a list, if there is any.
    #[tactic(auto, unfolding(crate::specs::inner::Known::IsKnown))]
    pub fn state_of(&self, list: &[usize]) -> Option<usize>
        ensures { IfSome result (λ state. IsKnown self.now list.now state) }
    {
        match list {
            [only] => *self.singles.get(*only)?,
            _ => self.others.get(list).copied(),
        }
    }

    /// Adds a list and its state.
    #[tactic(auto, unfolding(crate::specs::inner::Known::IsKnown))]
    pub fn add(&mut self, list: Vec<usize>, state: usize) -> Result<(), AllocError>
        ensures { OnOk result
            ((l : List ℕ) (u : ℕ) → IsKnown self.new l u
            → IsKnown self.old l u ⊎ ((list.items ≡ l) × (state ≡ u))) }
    {
        if let [only] = list.as_slice() {
            if let Some(single) = self.singles.get_mut(*only) {
                *single = Some(state);
            }
        } else {
            self.others.insert(list, state)?;
        }
        Ok(())
    }
}

/// States that follow each other in a list, and are alike except for their successors.
#[derive(Drop)]
pub struct Chunk {
    /// The first of these states.
    pub first: usize,
    /// Their successors.
    pub nexts: Vec<usize>,
    /// The place in the list behind them.
    pub end: usize,
}

impl Chunk {
    /// Returns the chunk that begins at a place of a list, with each state that follows as far as they are alike. `None` if the
    /// state there is a union.
    pub fn at(
        alloc: Global,
        automaton: &Nfa,
        states: &[usize],
        start: usize,
    ) -> Result<Option<Chunk>, AllocError>
        requires { start < length states.now }
        ensures more { IfOk result
            (λ made. IfSome made (λ chunk. (start < chunk.end) × (chunk.end ≤ length states.now))) }
        ensures alike { IfOk result
            (λ made. IfSome made
            (λ chunk. IsChunk automaton.now.states states.now start chunk.end
            (state automaton.now.states chunk.first) chunk.nexts.items)) }
    {
        let first = states[start];
        let Some(like) = automaton.state(first) else {
            return Ok(None);
        };
        let mut nexts = Vec::new(alloc);
        let mut end = start;
        while end < states.len() {
            let Some(next) = next_of(automaton, states[end], &like) else {
                break;
            };
            match nexts.last() {
                Some(last) if *last == next => {}
                _ => nexts.push(next)?,
            }
            end += 1;
        }
        if end == start {
            return Ok(None);
        }
        Ok(Some(Chunk { first, nexts, end }))
    }
}

/// Returns the successor of a state, if the state is like another except for that. An end has none: 0 stands for that.
fn next_of(automaton: &Nfa, s: usize, like: &StateRef<'_>) -> Option<usize>
    ensures { IfSome result
        (λ next. state automaton.now.states s ≡ with_next (is_read like.now) next) }
{
    match (automaton.state(s)?, like) {
        (StateRef::Bytes(bytes, next), StateRef::Bytes(set, _)) if bytes.is(set) => Some(next),
        (StateRef::Loop(bytes, exit), StateRef::Loop(set, _)) if bytes.is(set) => Some(exit),
        (StateRef::Match(index), StateRef::Match(same)) if index == *same => Some(0),
        _ => None,
    }
}
