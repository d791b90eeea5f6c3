//! Texts that are read by sets of states, without rows.

ghost use Rattle.std.specs.Prelude.{◌≡◌, ℕ, ◌+◌, ◌*◌, ◌<◌, ◌≤◌, ◌||◌, ◌⊎◌, ◌↔◌, ◌^◌, ◌++◌, ◌∷◌, [], List, length, min, false, Some, None, IsTrue, IsFalse, IfSome, MatchOption, OnOk, IsOk};
ghost use Rattle.bit_sets.specs.Indexes.{has_index, index_capacity};
ghost use Rattle.bit_sets.specs.StateSets.{has_state, state_capacity};
ghost use Rattle.bit_sets.specs.Texts.{AllBytes};
ghost use Rattle.byte_nfa.specs.EarlyMatches.{EndsAtEarlyMatches, FindsBy, half};
ghost use Rattle.byte_nfa.specs.Live.{AreLive};
ghost use Rattle.byte_nfa.specs.Runs.{size, AcceptsFrom};
ghost use Rattle.byte_nfa.specs.Steps.{NfaValue, state};
ghost use Rattle.byte_nfa.specs.inner.Pass.{goes_now, goes_next, names};
ghost use Rattle.byte_nfa.specs.inner.Told.{ToldBy};
ghost use Rattle.byte_nfa.specs.inner.Views.{GoesBelow};
ghost use Rattle.byte_nfa.specs.inner.Stepping.{AreCounted, IsLed, IsLedCounted, IsRunOn, IsStepBy, HasEndFrom, EndsBelow, StepsBelow, AddsTold, AddsFoundFrom};
ghost use Rattle.byte_nfa.specs.Sets.{sets_capacity};

use crate::nfa::Nfa;
use bit_sets::{IndexSet, StateSet, Visits};
use std::alloc::{AllocError, Global};
use std::mem::swap;

/// Where a text leads.
#[derive(Clone, Copy)]
pub enum Led {
    /// A beginning of it decides an index.
    Decided,
    /// To no state.
    NoState,
    /// To the states of the set.
    States,
}

/// Puts the index of each end that a text leads to from the states of a set, and each index that is decided in it, into `found`,
/// next to its contents.
///
/// The automaton has early matches. `from` and `to` take turns, and have room for its states. A run ends as soon as no state is
/// left. It is at most `(text bytes + 1) * states` visits, and does not allocate.
pub fn find(
    automaton: &Nfa,
    text: &[u8],
    from: &mut StateSet,
    to: &mut StateSet,
    found: &mut IndexSet,
    visits: &mut Visits,
)
    // The automaton has early matches. The sets of states have room for its states, and `found` has room for its indexes.
    requires early { (source : NfaValue) × EndsAtEarlyMatches source automaton.now }
    requires sets { size automaton.now ≤ min (state_capacity from.old) (state_capacity to.old) }
    requires room { half automaton.now ≤ index_capacity found.old }

    // The two sets keep the room that both have. `found` keeps its capacity, and gets what is found in addition to what it held.
    ensures sets { min (state_capacity from.new) (state_capacity to.new)
        ≡ min (state_capacity from.old) (state_capacity to.old) }
    ensures room { index_capacity found.new ≡ index_capacity found.old }
    ensures found { AddsFoundFrom automaton.now from.old text.now found.old found.new }

    // The visits are bounded, and do not become fewer.
    ensures visits { visits.new ≤ visits.old + (length text.now + 1) * size automaton.now }
    ensures counted { visits.old ≤ visits.new }
{
    if run(automaton, text, from, to, found, visits) {
        step(automaton, None, 0, from, to, found, visits);
    }
}

/// Puts each index that is decided in a text into `found`, next to its contents. Afterwards `from` has the states that the text
/// leads to from its states. Returns whether there are any.
///
/// It is at most `text bytes * states` visits. Otherwise it has the cost of [`find`].
pub fn run(
    automaton: &Nfa,
    text: &[u8],
    from: &mut StateSet,
    to: &mut StateSet,
    found: &mut IndexSet,
    visits: &mut Visits,
) -> bool
    // The automaton has early matches. The sets of states have room for its states, and `found` has room for its indexes.
    requires early { (source : NfaValue) × EndsAtEarlyMatches source automaton.now }
    requires sets { size automaton.now ≤ min (state_capacity from.old) (state_capacity to.old) }
    requires room { half automaton.now ≤ index_capacity found.old }

    // The two sets keep the room that both have, and `found` keeps its capacity.
    ensures sets { min (state_capacity from.new) (state_capacity to.new)
        ≡ min (state_capacity from.old) (state_capacity to.old) }
    ensures room { index_capacity found.new ≡ index_capacity found.old }

    // If the result is `true`, a run can go on from the states in `from`. Otherwise no more bytes change what is found.
    ensures found { IsTrue result
        → IsRunOn automaton.now from.old text.now found.old from.new found.new }
    ensures none { IsFalse result
        → (z : List ℕ) → AddsFoundFrom automaton.now from.old (text.now ++ z) found.old found.new }

    // The visits are bounded, and do not become fewer. Each state that the text leads to, except those before it, is a visit.
    ensures visits { visits.new ≤ visits.old + length text.now * size automaton.now }
    ensures counted { visits.old ≤ visits.new }
    ensures led_counted { AreCounted (has_state from.old) (has_state from.new) visits.old visits.new }
{
    let half = automaton.index_count() / 2;
    for byte in text {
        step(automaton, Some(*byte), half, from, to, found, visits);
        swap(from, to);
        if from.is_empty() {
            return false;
        }
    }
    true
}

/// Returns whether a text leads to some end from the states of a set, or some index is decided in it. It stops at the first that is.
///
/// It has the cost of [`find`].
pub fn is_match(
    automaton: &Nfa,
    text: &[u8],
    from: &mut StateSet,
    to: &mut StateSet,
    visits: &mut Visits,
) -> bool
    // The automaton has early matches, and the sets of states have room for its states.
    requires early { (source : NfaValue) × EndsAtEarlyMatches source automaton.now }
    requires sets { size automaton.now ≤ min (state_capacity from.old) (state_capacity to.old) }

    // The two sets keep the room that both have, and the result says whether an index is found in the text.
    ensures sets { min (state_capacity from.new) (state_capacity to.new)
        ≡ min (state_capacity from.old) (state_capacity to.old) }
    ensures some { IsTrue result
        ↔ ((k : ℕ) × FindsBy (half automaton.now) (AcceptsFrom automaton.now from.old) text.now k) }

    // The visits are bounded, and do not become fewer.
    ensures visits { visits.new ≤ visits.old + (length text.now + 1) * size automaton.now }
    ensures counted { visits.old ≤ visits.new }
{
    match read(automaton, text, from, to, visits) {
        Led::Decided => true,
        Led::NoState => false,
        Led::States => has_end(automaton, None, 0, from, to, visits),
    }
}

/// Returns whether some text that begins with `text` and then `byte` leads to some end from the states of a set, or to an index
/// that is decided. `live` has the states from which some bytes lead to an end.
///
/// It is at most `(text bytes + 2) * states` visits. Otherwise it has the cost of [`find`].
pub fn can_match_after(
    automaton: &Nfa,
    live: &StateSet,
    text: &[u8],
    byte: u8,
    from: &mut StateSet,
    to: &mut StateSet,
    visits: &mut Visits,
) -> bool
    // The automaton has early matches, the sets have room for its states, and `live` says of each whether it is live.
    requires early { (source : NfaValue) × EndsAtEarlyMatches source automaton.now }
    requires sets { size automaton.now ≤ min (state_capacity from.old) (state_capacity to.old) }
    requires live { AreLive automaton.now live.now }
    requires live_room { size automaton.now ≤ state_capacity live.now }

    // The two sets keep the room that both have. The result says whether an index is found in some text with this beginning.
    ensures sets { min (state_capacity from.new) (state_capacity to.new)
        ≡ min (state_capacity from.old) (state_capacity to.old) }
    ensures some { IsTrue result
        ↔ ((k : ℕ) × (y : List ℕ) × AllBytes y
        × FindsBy (half automaton.now) (AcceptsFrom automaton.now from.old)
        (text.now ++ byte ∷ y) k) }

    // The visits are bounded, and do not become fewer.
    ensures visits { visits.new ≤ visits.old + (length text.now + 2) * size automaton.now }
    ensures counted { visits.old ≤ visits.new }
{
    match read(automaton, text, from, to, visits) {
        Led::Decided => return true,
        Led::NoState => return false,
        Led::States => {}
    }
    let half = automaton.index_count() / 2;
    if has_end(automaton, Some(byte), half, from, to, visits) {
        return true;
    }
    automaton.has_live(to, live, visits)
}

/// Reads a text from the states of a set, up to the first index that is decided. The states that it leads to are in `from` then.
pub fn read(
    automaton: &Nfa,
    text: &[u8],
    from: &mut StateSet,
    to: &mut StateSet,
    visits: &mut Visits,
) -> Led
    // The automaton has early matches, and the sets of states have room for its states.
    requires early { (source : NfaValue) × EndsAtEarlyMatches source automaton.now }
    requires sets { size automaton.now ≤ min (state_capacity from.old) (state_capacity to.old) }

    // The two sets keep the room that both have, and the result says where the text leads.
    ensures sets { min (state_capacity from.new) (state_capacity to.new)
        ≡ min (state_capacity from.old) (state_capacity to.old) }
    ensures led { IsLed automaton.now from.old from.new text.now result }

    // The visits are bounded, and do not become fewer. Each state that the text leads to, except those before it, is a visit.
    ensures visits { visits.new ≤ visits.old + length text.now * size automaton.now }
    ensures counted { visits.old ≤ visits.new }
    ensures led_counted { IsLedCounted from.old from.new visits.old visits.new result }
{
    let half = automaton.index_count() / 2;
    for byte in text {
        if has_end(automaton, Some(*byte), half, from, to, visits) {
            return Led::Decided;
        }
        swap(from, to);
        if from.is_empty() {
            return Led::NoState;
        }
    }
    Led::States
}

/// Puts the states that a byte leads to from the states of a set into another set. Puts what the ends that the set leads to
/// without a byte tell into `found`, next to its contents, except ends of an index below `lowest`. What the other set held has
/// no effect.
///
/// It reads each state at most once, and is at most one visit for each.
fn step(
    automaton: &Nfa,
    byte: Option<u8>,
    lowest: usize,
    from: &mut StateSet,
    to: &mut StateSet,
    found: &mut IndexSet,
    visits: &mut Visits,
)
    // The automaton has early matches. The sets of states have room for its states, and `found` has room for its indexes.
    requires early { (source : NfaValue) × EndsAtEarlyMatches source automaton.now }
    requires from_capacity { size automaton.now ≤ state_capacity from.old }
    requires to_capacity { size automaton.now ≤ state_capacity to.old }
    requires room { half automaton.now ≤ index_capacity found.old }

    // Each of the sets keeps its capacity.
    ensures from_capacity { state_capacity from.new ≡ state_capacity from.old }
    ensures to_capacity { state_capacity to.new ≡ state_capacity to.old }
    ensures room { index_capacity found.new ≡ index_capacity found.old }

    // `to` has the states after the byte, and `found` gets what ends without a byte tell, of those of an index from `lowest` on.
    ensures steps { IsStepBy automaton.now from.old byte to.new }
    ensures told { AddsTold automaton.now from.old lowest found.old found.new }

    // The visits are bounded, and each state in `to` is a visit.
    ensures visits { visits.new ≤ visits.old + size automaton.now }
    ensures counted { AreCounted (λ _. false) (has_state to.new) visits.old visits.new }
{
    let half = automaton.index_count() / 2;
    to.clear();
    let mut limit = automaton.state_count();
    while let Some(index) = next_end(automaton, byte, lowest, &mut limit, from, to, visits) {
        found.put(told_by(index, half));
    }
}

/// Returns whether the states of a set lead without a byte to an end of an index from `lowest` on. If they do not, the states
/// that the byte leads to are in the other set. It has the cost of [`step`].
fn has_end(
    automaton: &Nfa,
    byte: Option<u8>,
    lowest: usize,
    from: &mut StateSet,
    to: &mut StateSet,
    visits: &mut Visits,
) -> bool
    // Both sets have room for the automaton's states, and keep their capacity.
    requires from_capacity { size automaton.now ≤ state_capacity from.old }
    requires to_capacity { size automaton.now ≤ state_capacity to.old }
    ensures from_capacity { state_capacity from.new ≡ state_capacity from.old }
    ensures to_capacity { state_capacity to.new ≡ state_capacity to.old }

    // The result says whether there is an end of an index from `lowest` on. If not, `to` has the states after the byte.
    ensures steps { IsFalse result → IsStepBy automaton.now from.old byte to.new }
    ensures some { IsTrue result ↔ HasEndFrom automaton.now from.old lowest }

    // The visits are bounded, and each state in `to` is a visit.
    ensures visits { visits.new ≤ visits.old + size automaton.now }
    ensures counted { AreCounted (λ _. false) (has_state to.new) visits.old visits.new }
{
    to.clear();
    let mut limit = automaton.state_count();
    next_end(automaton, byte, lowest, &mut limit, from, to, visits).is_some()
}

/// Takes the steps of the states of `from` below a limit, from the highest on, up to the next end of an index from `lowest` on.
/// Returns this index. The limit is its state then, or 0 if there is no such end.
///
/// What a state goes on to without a byte is put into `from`, before the pass comes to it.
fn next_end(
    automaton: &Nfa,
    byte: Option<u8>,
    lowest: usize,
    limit: &mut usize,
    from: &mut StateSet,
    to: &mut StateSet,
    visits: &mut Visits,
) -> Option<usize>
    // The limit is at most the number of states, for which both sets have room.
    requires within { limit.old ≤ size automaton.now }
    requires from_capacity { size automaton.now ≤ state_capacity from.old }
    requires to_capacity { size automaton.now ≤ state_capacity to.old }

    // Each of the sets keeps its capacity.
    ensures from_capacity { state_capacity from.new ≡ state_capacity from.old }
    ensures to_capacity { state_capacity to.new ≡ state_capacity to.old }

    // A step is in `to` or below the limit. An end from `lowest` on is the result or below it. Without one the limit is 0.
    ensures steps { (b : ℕ) (y : List ℕ) (k : ℕ) → byte ≡ Some b
        → StepsBelow automaton.now from.old limit.old to.old b y k
        ↔ StepsBelow automaton.now from.new limit.new to.new b y k }
    ensures ends { (i : ℕ) → lowest ≤ i
        → EndsBelow automaton.now from.old limit.old i
        ↔ (EndsBelow automaton.now from.new limit.new i ⊎ (result ≡ Some i)) }
    ensures end { MatchOption result (limit.new ≡ 0)
        (λ i. (limit.new < limit.old) × (lowest ≤ i) × (i < automaton.now.index_count)) }

    // The limit becomes smaller by at least the number of new visits. Each state that is put into `to` is a visit.
    ensures visits { visits.new + limit.new ≤ visits.old + limit.old }
    ensures counted { AreCounted (has_state to.old) (has_state to.new) visits.old visits.new }
{
    while let Some(s) = from.last_below(*limit, visits) {
        *limit = s;
        let end = take(automaton, s, byte, lowest, from, to);
        if end.is_some() {
            return end;
        }
    }
    *limit = 0;
    None
}

/// Takes the steps of a state of `from`: puts into `from` what it goes on to without a byte, and into `to` what it goes on to by
/// the byte. Returns its index if it is an end of one from `lowest` on.
fn take(
    automaton: &Nfa,
    s: usize,
    byte: Option<u8>,
    lowest: usize,
    from: &mut StateSet,
    to: &mut StateSet,
) -> Option<usize>
    // The automaton has the state, and both sets have room for its states.
    requires exists { s < size automaton.now }
    requires from_capacity { size automaton.now ≤ state_capacity from.old }
    requires to_capacity { size automaton.now ≤ state_capacity to.old }

    // Each of the sets keeps its capacity.
    ensures from_capacity { state_capacity from.new ≡ state_capacity from.old }
    ensures to_capacity { state_capacity to.new ≡ state_capacity to.old }

    // `from` gets the lower states reached without a byte, and `to` the one after the byte. The result is the index of an end.
    ensures below { GoesBelow s (state automaton.now.states s) }
    ensures from { (t : ℕ)
        → has_state from.new t
        ≡ (goes_now (state automaton.now.states s) t || has_state from.old t) }
    ensures to { (t : ℕ)
        → has_state to.new t
        ≡ (goes_next (state automaton.now.states s) s byte t || has_state to.old t) }
    ensures end { (i : ℕ) → lowest ≤ i
        → IsTrue (names (state automaton.now.states s) None i) ↔ (result ≡ Some i) }
    ensures index { IfSome result (λ i. (lowest ≤ i) × (i < automaton.now.index_count)) }
{
    if let Some(index) = automaton.follow_epsilons(s, from) {
        return if index < lowest { None } else { Some(index) };
    }
    if let Some(byte) = byte {
        if let Some(next) = automaton.next_by(s, byte) {
            to.put(next);
        }
    }
    None
}

/// Returns the index that is found at an end of an automaton with early matches. `half` is half the number of its indexes.
pub fn told_by(index: usize, half: usize) -> usize
    ensures { ((index < half) × (result ≡ index)) ⊎ ((half ≤ index) × (result + half ≡ index)) }
{
    if index < half { index } else { index - half }
}

/// Puts the indexes that are found at ends into a set, next to its contents, except those at ends of an index below `lowest`.
/// `half` is half the number of the automaton's indexes.
pub fn tell_ends(ends: &IndexSet, half: usize, lowest: usize, into: &mut IndexSet)
    requires fits { half + half < 2 ^ 64 }
    requires room { half ≤ index_capacity into.old }
    ensures room { index_capacity into.new ≡ index_capacity into.old }
    ensures has { (k : ℕ)
        → IsTrue (has_index into.new k)
        ↔ (ToldBy half (λ i. IsTrue (has_index ends.now i)) lowest k
        ⊎ IsTrue (has_index into.old k)) }
{
    let mut at = lowest;
    while let Some(index) = ends.next_below(at, half + half) {
        into.put(told_by(index, half));
        at = index + 1;
    }
}

/// The two sets of states that a run changes between: the states that the text so far leads to, and the states after another
/// byte.
///
/// They serve runs of any automata, in any order. A run clears each set before it uses it, so earlier runs have no effect.
#[derive(Drop)]
pub struct StateSets {
    pub(crate) current: StateSet,
    pub(crate) next: StateSet,
}

impl StateSets {
    /// Returns sets with room for no state. It allocates nothing.
    pub fn new(alloc: Global) -> StateSets
        ensures { sets_capacity result ≡ 0 }
    {
        StateSets {
            current: StateSet::empty(alloc),
            next: StateSet::empty(alloc),
        }
    }

    /// Returns whether there is room for `states` states.
    pub fn has_capacity_for(&self, states: usize) -> bool
        ensures { IsTrue result ↔ (states ≤ sets_capacity self.now) }
    {
        self.current.has_capacity_for(states) && self.next.has_capacity_for(states)
    }

    /// Makes room for `states` states, if there is less. It allocates two bits for each.
    pub fn reserve(&mut self, states: usize) -> Result<(), AllocError>
        ensures ok { OnOk result (states ≤ sets_capacity self.new) }
        ensures kept { sets_capacity self.old ≤ sets_capacity self.new }
        ensures memory { states ≤ sets_capacity self.old → IsOk result }
    {
        self.current.reserve(states)?;
        self.next.reserve(states)
    }
}
