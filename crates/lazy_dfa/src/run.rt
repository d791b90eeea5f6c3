//! Runs over texts by entries that are known.

ghost use Rattle.std.specs.Prelude.{◌≡◌, ℕ, ◌+◌, ◌≤◌, length, IsTrue, IfSome, MatchOption, MatchResult};
ghost use Rattle.bit_sets.specs.Indexes.{has_index, index_capacity};
ghost use Rattle.byte_nfa.specs.EarlyMatches.{half};
ghost use Rattle.lazy_dfa.specs.inner.Rows.{AddsFound, IsAt, IsSound};
ghost use Rattle.lazy_dfa.specs.inner.Reached.{HasRead, IsLeft, IsWhere, IsWhereFrom};

use crate::dfa::Dfa;
use crate::lists::found_count;
use crate::rows::{REMEMBERED, Rows};
use bit_sets::{IndexSet, Visits};

/// Where a text leads.
#[derive(Clone, Copy)]
pub enum Reached {
    /// A beginning of it decides an index.
    Decided,
    /// Neither it nor a text that begins with it leads to an end.
    Nothing,
    /// To the row at a place.
    Row(usize),
}

/// Where a run comes to an entry that is not known, or to the end of the text.
#[derive(Clone, Copy)]
pub struct Left {
    /// The number of bytes of the text that were read.
    pub at: usize,
    /// The place of the row whose entry is not known.
    pub place: usize,
}

impl Rows {
    /// Puts what is found in a text from the row at a place into a set, next to its contents, as far as entries are known.
    /// Returns where one is not.
    ///
    /// What a row has marks of is told when the row is left. A run remembers some rows whose marks were told, and does not tell these
    /// again when it comes back to them.
    pub fn find_from(
        &self,
        dfa: &Dfa,
        place: usize,
        text: &[u8],
        found: &mut IndexSet,
        visits: &mut Visits,
    ) -> Option<Left>
        // The rows are right for the automaton, and there is a row at the place.
        requires sound { IsSound dfa.now self.now }
        requires row { (i : ℕ) × IsAt dfa.now self.now i place }

        // The set has room for the indexes of the automaton.
        requires room { half dfa.now.run ≤ index_capacity found.old }

        // The set keeps its capacity and what it held, and of what is found lacks at most what the rest of the text leads to.
        ensures room { index_capacity found.new ≡ index_capacity found.old }
        ensures kept { (k : ℕ) → IsTrue (has_index found.old k) → IsTrue (has_index found.new k) }
        ensures found { (i : ℕ) → IsAt dfa.now self.now i place
            → MatchOption result (AddsFound dfa.now.run self.now i text.now found.old found.new)
            (IsLeft dfa.now self.now i text.now found.old self.now found.new) }

        // The visits are bounded, and do not become fewer.
        ensures visits { MatchOption result (visits.new ≤ visits.old + (length text.now + 1))
            (λ left. visits.new ≤ visits.old + left.at) }
        ensures counted { visits.old ≤ visits.new }
    {
        let indexes = dfa.indexes();
        let mut place = place;
        // One more than the places of the rows whose marks were told.
        let mut told = [0; REMEMBERED];
        let mut count = 0;
        let mut at = 0;
        for byte in text {
            if let Some(next) = self.plain_next(dfa, place, *byte, visits) {
                place = next;
            } else {
                let slot = self.slot_of(dfa, place);
                let mark = place as u32 + 1;
                let is_told = told[slot] == mark;
                let Some(step) = self.told_step(dfa, place, *byte, is_told, found, visits) else {
                    return Some(Left { at, place });
                };
                let Some(next) = step.next else {
                    return None;
                };
                if !is_told {
                    count = found_count(indexes, count, found);
                    if count >= indexes.len() {
                        return None;
                    }
                    told[slot] = mark;
                }
                place = next;
            }
            at += 1;
        }
        if self.tell_known_end(dfa, place, found, visits) {
            return None;
        }
        Some(Left { at, place })
    }

    /// Reads a text from its beginning by entries that are known, up to the first index that is decided. Returns `None` if an entry
    /// is not known.
    pub fn read_known(&self, dfa: &Dfa, text: &[u8], visits: &mut Visits) -> Option<Reached>
        requires { IsSound dfa.now self.now }
        ensures reached { IfSome result (IsWhere dfa.now self.now text.now) }
        ensures visits { visits.new ≤ visits.old + length text.now }
        ensures counted { visits.old ≤ visits.new }
    {
        let Some(place) = self.begin else {
            return None;
        };
        match self.read_from(dfa, place, text, visits) {
            Ok(reached) => Some(reached),
            Err(left) => {
                if left.at < text.len() {
                    return None;
                }
                Some(Reached::Row(left.place))
            }
        }
    }

    /// Reads a text from the row at a place, up to the first index that is decided, or until nothing can follow. Returns an error
    /// that says where an entry is not known, or where the text ends.
    #[inline(always)]
    pub fn read_from(
        &self,
        dfa: &Dfa,
        place: usize,
        text: &[u8],
        visits: &mut Visits,
    ) -> Result<Reached, Left>
        requires sound { IsSound dfa.now self.now }
        requires row { (i : ℕ) × IsAt dfa.now self.now i place }
        ensures reached { (i : ℕ) → IsAt dfa.now self.now i place
            → MatchResult result (IsWhereFrom dfa.now self.now i text.now)
            (HasRead dfa.now self.now i text.now self.now) }
        ensures visits { MatchResult result (λ _. visits.new ≤ visits.old + length text.now)
            (λ left. visits.new ≤ visits.old + left.at) }
        ensures counted { visits.old ≤ visits.new }
    {
        let mut place = place;
        let mut at = 0;
        for byte in text {
            if let Some(next) = self.plain_next(dfa, place, *byte, visits) {
                place = next;
            } else {
                let Some(step) = self.known_step(dfa, place, *byte, visits) else {
                    return Err(Left { at, place });
                };
                if step.has_marks {
                    return Ok(Reached::Decided);
                }
                let Some(next) = step.next else {
                    return Ok(Reached::Nothing);
                };
                place = next;
            }
            at += 1;
        }
        Err(Left { at, place })
    }
}
