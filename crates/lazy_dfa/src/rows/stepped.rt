//! Parts of a text that are read by sets of states, where rows do not fit.

ghost use Rattle.std.specs.Prelude.{◌≡◌, ℕ, ◌+◌, ◌*◌, ◌<◌, ◌≤◌, ◌↔◌, List, length, MatchOption, MatchResult};
ghost use Rattle.bit_sets.specs.Indexes.{index_capacity};
ghost use Rattle.byte_nfa.specs.EarlyMatches.{half};
ghost use Rattle.byte_nfa.specs.Runs.{size, AcceptsFrom};
ghost use Rattle.lazy_dfa.specs.inner.Reached.{HasRead, IsLeft, IsWhereBy};
ghost use Rattle.lazy_dfa.specs.inner.Rows.{AcceptsRow, AddsFound, HasRoomFor, IsAt, IsRowOf, IsSound};

use super::{Rows, states_at};
use crate::dfa::Dfa;
use crate::lists::{list_of, put_in_order, put_states};
use crate::pass::Pass;
use crate::run::{Left, Reached};
use bit_sets::{IndexSet, Visits};
use byte_nfa::stepping::{self, Led};

/// The last time that a run gave up rows, which at first is its beginning, and for how many bytes it gives them up the next time.
#[derive(Clone, Copy)]
pub struct GivenUp {
    /// The seed of the rows at that time.
    seed: usize,
    bytes: usize,
}

impl GivenUp {
    /// Returns the value for a run that begins by these rows.
    pub fn new(rows: &Rows) -> GivenUp {
        GivenUp {
            seed: rows.seed,
            bytes: 0,
        }
    }

    /// Returns how many bytes a run reads by sets of states, of so many that are left of a text: none, unless rows were forgotten twice
    /// since it gave them up. Where most bytes need a new row, to make it takes longer than to step over states.
    ///
    /// They are more bytes than there are states, and twice as many each time. So a text whose rows never fit makes few of them,
    /// and one whose later rows fit is read by rows again.
    fn next(&mut self, rows: &Rows, states: usize, rest: usize) -> usize
        ensures within { result ≤ rest }
        ensures long { 0 < result → states < result }
    {
        if rows.seed.wrapping_sub(self.seed) < 2 || rest <= states {
            return 0;
        }
        let bytes = self.bytes.max(states + 1);
        self.seed = rows.seed;
        self.bytes = bytes.saturating_mul(2);
        bytes.min(rest)
    }
}

impl Rows {
    /// Puts the indexes found in the next bytes of a text from the row at a place into a set, next to its contents, by sets of
    /// states. A run calls it where it gives up rows. Returns where the run goes on, or `None` if nothing follows.
    pub fn find_stepped(
        &mut self,
        dfa: &Dfa,
        place: usize,
        text: &[u8],
        given_up: &mut GivenUp,
        pass: &mut Pass,
        found: &mut IndexSet,
        visits: &mut Visits,
    ) -> Option<Left>
        // The rows are right for the automaton, there is a row at the place, and there is memory for a pass.
        requires sound { IsSound dfa.now self.old }
        requires row { (i : ℕ) × IsAt dfa.now self.old i place }
        requires fits { HasRoomFor dfa.now.run pass.old }

        // The set has room for the indexes of the automaton.
        requires room { half dfa.now.run ≤ index_capacity found.old }

        // That stays so. The set keeps its capacity, and of what is found lacks at most what the rest of the text leads to.
        ensures sound { IsSound dfa.now self.new }
        ensures fits { HasRoomFor dfa.now.run pass.new }
        ensures room { index_capacity found.new ≡ index_capacity found.old }
        ensures found { (i : ℕ) → IsAt dfa.now self.old i place
            → MatchOption result (AddsFound dfa.now.run self.old i text.now found.old found.new)
            (IsLeft dfa.now self.old i text.now found.old self.new found.new) }

        // The visits are bounded, and do not become fewer.
        ensures visits { MatchOption result
            (visits.new ≤ visits.old + length text.now * (size dfa.now.run + 1))
            (λ left. visits.new ≤ visits.old + left.at * (size dfa.now.run + 1)) }
        ensures counted { visits.old ≤ visits.new }
    {
        let count = given_up.next(self, dfa.state_count(), text.len());
        if count == 0 {
            return Some(Left { at: 0, place });
        }
        self.take_states(dfa, place, pass);
        if !stepping::run(
            dfa.automaton(),
            &text[..count],
            &mut pass.from,
            &mut pass.next,
            found,
            visits,
        ) {
            return None;
        }
        let place = self.row_of_from(dfa, pass, visits);
        Some(Left { at: count, place })
    }

    /// Reads the next bytes of a text from the row at a place by sets of states, up to the first index that is decided, if a run gives
    /// up rows. Returns an error that says from where the run goes on.
    pub fn read_stepped(
        &mut self,
        dfa: &Dfa,
        place: usize,
        text: &[u8],
        given_up: &mut GivenUp,
        pass: &mut Pass,
        visits: &mut Visits,
    ) -> Result<Reached, Left>
        // The rows are right for the automaton, there is a row at the place, and there is memory for a pass.
        requires sound { IsSound dfa.now self.old }
        requires row { (i : ℕ) × IsAt dfa.now self.old i place }
        requires fits { HasRoomFor dfa.now.run pass.old }

        // That stays so, and the result says where the text leads, or from where the run goes on.
        ensures sound { IsSound dfa.now self.new }
        ensures fits { HasRoomFor dfa.now.run pass.new }
        ensures reached { (i : ℕ) → IsAt dfa.now self.old i place → MatchResult result
            (IsWhereBy dfa.now self.new (AcceptsRow dfa.now.run self.old i) text.now)
            (HasRead dfa.now self.old i text.now self.new) }

        // The visits are bounded, and do not become fewer.
        ensures visits { MatchResult result
            (λ _. visits.new ≤ visits.old + length text.now * (size dfa.now.run + 1))
            (λ left. visits.new ≤ visits.old + left.at * (size dfa.now.run + 1)) }
        ensures counted { visits.old ≤ visits.new }
    {
        let count = given_up.next(self, dfa.state_count(), text.len());
        if count == 0 {
            return Err(Left { at: 0, place });
        }
        self.take_states(dfa, place, pass);
        match stepping::read(
            dfa.automaton(),
            &text[..count],
            &mut pass.from,
            &mut pass.next,
            visits,
        ) {
            Led::Decided => Ok(Reached::Decided),
            Led::NoState => Ok(Reached::Nothing),
            Led::States => {
                let place = self.row_of_from(dfa, pass, visits);
                Err(Left { at: count, place })
            }
        }
    }

    /// Makes `from` of the pass the states of the row at a place.
    fn take_states(&self, dfa: &Dfa, place: usize, pass: &mut Pass)
        requires sound { IsSound dfa.now self.now }
        requires row { (i : ℕ) × IsAt dfa.now self.now i place }
        requires fits { HasRoomFor dfa.now.run pass.old }
        ensures fits { HasRoomFor dfa.now.run pass.new }
        ensures states { (i : ℕ) → IsAt dfa.now self.now i place
            → (y : List ℕ) (k : ℕ) → AcceptsFrom dfa.now.run pass.new.from y k
            ↔ AcceptsRow dfa.now.run self.now i y k }
    {
        let row = self.row_at(dfa, place);
        pass.from.clear();
        let states = states_at(&self.starts, &self.lists, row);
        put_states(states, &mut pass.from);
    }

    /// Returns the place of the row of the states in `from` of the pass, and makes it if it is not there. It is at most a visit for each
    /// state, and one.
    fn row_of_from(&mut self, dfa: &Dfa, pass: &mut Pass, visits: &mut Visits) -> usize
        requires sound { IsSound dfa.now self.old }
        requires fits { HasRoomFor dfa.now.run pass.old }
        ensures sound { IsSound dfa.now self.new }
        ensures fits { HasRoomFor dfa.now.run pass.new }
        ensures row { IsRowOf dfa.now (AcceptsFrom dfa.now.run pass.old.from) self.new result }
        ensures visits { visits.new ≤ visits.old + (size dfa.now.run + 1) }
        ensures counted { visits.old ≤ visits.new }
    {
        list_of(&pass.from, dfa.state_count(), &mut pass.list, visits);
        put_in_order(&mut pass.list);
        self.seek(dfa, &pass.list, visits).place
    }
}
