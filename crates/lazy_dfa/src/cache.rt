//! The memory of a thread, and its answers.

ghost use Rattle.std.specs.Prelude.{◌≡◌, ℕ, ◌+◌, ◌*◌, ◌<◌, ◌≤◌, ◌⊎◌, ◌↔◌, ◌++◌, ◌∷◌, [], length, IsTrue, IfOk, IfSome, None};
ghost use Rattle.std.specs.Arc.{arc_value};
ghost use Rattle.bit_sets.specs.Indexes.{has_index, index_capacity};
ghost use Rattle.byte_nfa.specs.Live.{MatchesAfter};
ghost use Rattle.byte_nfa.specs.Runs.{size};
ghost use Rattle.byte_nfa.specs.Steps.{NfaValue, IsReached};
ghost use Rattle.lazy_dfa.specs.inner.Reached.{IsWhere};
ghost use Rattle.lazy_dfa.specs.inner.Rows.{HasRoomFor, IsSound};

use crate::dfa::Dfa;
use crate::pass::Pass;
use crate::rows::{self, GivenUp, Rows};
use crate::run::Reached;
use bit_sets::{IndexSet, Visits};
use byte_nfa::stepping::tell_ends;
use std::alloc::{AllocError, Global};
use std::marker::Model;
use std::sync::Arc;

/// The rows that the texts of a thread needed so far, in a memory of fixed size.
///
/// A cache is made for one automaton, which it shares. Contracts see the automaton whose ends are found: what earlier calls left
/// has no effect on an answer.
#[derive(Drop)]
pub struct Cache {
    dfa: Arc<Dfa>,
    // In boxes, since a cache is moved from call to call.
    rows: Box<Rows>,
    pass: Box<Pass>,
}

impl Model for Cache {
    ghost Value = { NfaValue };

    ghost view = { λ c. (arc_value c.dfa).nfa };

    ghost invariant = { λ c. IsSound (arc_value c.dfa) c.rows.value × HasRoomFor (arc_value c.dfa).run c.pass.value };
}

impl Cache {
    /// Returns a number of bytes from which on a cache of the automaton takes no more than it is asked to take.
    pub fn least_bytes(dfa: &Dfa) -> usize {
        rows::least_bytes(dfa)
    }

    /// Returns a cache with no rows.
    ///
    /// It takes at most so many bytes, fewer where a small automaton cannot fill them, and more only where the states of a row
    /// take most of them: there is always room for these, and a quarter of the bytes for rows. All memory is taken here, and none
    /// by later calls. Returns an error if memory runs out.
    pub fn new(alloc: Global, dfa: &Arc<Dfa>, bytes: usize) -> Result<Cache, AllocError>
        ensures { IfOk result (λ cache. cache ≡ (arc_value dfa.now).nfa) }
    {
        Ok(Cache {
            dfa: Arc::try_clone(dfa)?,
            rows: Box::new(alloc, Rows::new(alloc, dfa, bytes)?)?,
            pass: Box::new(alloc, Pass::new(alloc, dfa)?)?,
        })
    }

    /// Returns a cache with the rows that another one has, if they fit into so many bytes, and with none otherwise.
    ///
    /// It takes as many bytes as [`Cache::new`] does, and later calls allocate nothing.
    pub fn with_rows_of(alloc: Global, other: &Cache, bytes: usize) -> Result<Cache, AllocError>
        ensures { IfOk result (λ cache. cache ≡ other.now) }
    {
        let mut rows = Rows::new(alloc, &other.dfa, bytes)?;
        rows.take_over(&other.rows);
        Ok(Cache {
            dfa: Arc::try_clone(&other.dfa)?,
            rows: Box::new(alloc, rows)?,
            pass: Box::new(alloc, Pass::new(alloc, &other.dfa)?)?,
        })
    }

    /// Returns whether rows were forgotten since it was made, because there was no room for another.
    pub fn has_forgotten(&self) -> bool {
        self.rows.seed != 0
    }

    /// Returns the bytes that its rows may take. It also has a few bits for each state and for each index.
    pub fn bytes(&self) -> usize {
        self.rows.bytes().saturating_add(self.pass.bytes())
    }

    /// Puts the index of each end that a text leads to into a set, beside what it holds.
    ///
    /// An entry that is there is one visit. Where there is none yet, each state of the automaton is read at most once, which is
    /// one visit, and a row is looked up, which is one more. So it is at most `(text bytes + 1) * (states + 1)` visits. It takes
    /// no memory: if there is no room for a row, all rows are forgotten, which is no visit.
    pub fn find(&mut self, text: &[u8], found: &mut IndexSet, visits: &mut Visits)
        // The set needs room for the indexes, and the cache keeps its automaton.
        requires room { self.old.index_count ≤ index_capacity found.old }
        ensures same { self.new ≡ self.old }

        // The set keeps its capacity, and gets what is found in addition to what it held.
        ensures room { index_capacity found.new ≡ index_capacity found.old }
        ensures found { (k : ℕ)
            → IsTrue (has_index found.new k)
            ↔ (IsReached self.old text.now k ⊎ IsTrue (has_index found.old k)) }

        // The visits are bounded, and do not become fewer.
        ensures visits { visits.new ≤ visits.old + (length text.now + 1) * (size self.old + 1) }
        ensures counted { visits.old ≤ visits.new }
    {
        let dfa = &*self.dfa;
        let rows = &mut *self.rows;
        let pass = &mut *self.pass;
        if dfa.state_count() == 0 {
            return;
        }
        let half = dfa.half();
        let mut given_up = GivenUp::new(rows);
        let mut place = rows.start(dfa, visits);
        let mut rest = text;
        loop {
            let Some(left) = rows.find_from(dfa, place, rest, found, visits) else {
                return;
            };
            if left.at == rest.len() {
                if rows.finish(dfa, left.place, pass, visits) {
                    tell_ends(&pass.ends, half, 0, found);
                }
                return;
            }
            let byte = rest[left.at];
            let step = rows.leave(dfa, left.place, byte, pass, visits);
            tell_ends(&pass.ends, half, half, found);
            let Some(next) = step.next else {
                return;
            };
            rest = &rest[left.at + 1..];
            let Some(left) = rows.find_stepped(dfa, next, rest, &mut given_up, pass, found, visits)
            else {
                return;
            };
            place = left.place;
            rest = &rest[left.at..];
        }
    }

    /// The same as [`Cache::find`] by entries that are there. Returns whether all that it needs are; if not, some of the indexes
    /// are put into the set. It is at most one visit for each byte and one more.
    pub fn find_known(&self, text: &[u8], found: &mut IndexSet, visits: &mut Visits) -> bool
        // The set needs room for the indexes, keeps its capacity, and gets all that is found if the result is `true`.
        requires room { self.now.index_count ≤ index_capacity found.old }
        ensures room { index_capacity found.new ≡ index_capacity found.old }
        ensures found { IsTrue result → (k : ℕ)
            → IsTrue (has_index found.new k)
            ↔ (IsReached self.now text.now k ⊎ IsTrue (has_index found.old k)) }

        // In any case the set keeps what it held, and gets only indexes of ends that the text leads to.
        ensures kept { (k : ℕ) → IsTrue (has_index found.old k) → IsTrue (has_index found.new k) }
        ensures sound { (k : ℕ) → IsTrue (has_index found.new k)
            → IsReached self.now text.now k ⊎ IsTrue (has_index found.old k) }

        // The visits are bounded, and do not become fewer.
        ensures visits { visits.new ≤ visits.old + (length text.now + 1) }
        ensures counted { visits.old ≤ visits.new }
    {
        let dfa = &*self.dfa;
        let rows = &*self.rows;
        match rows.begin {
            Some(place) => rows.find_from(dfa, place, text, found, visits).is_none(),
            None => false,
        }
    }

    /// Returns whether a text leads to some end. It stops as soon as the rest cannot change that.
    ///
    /// It is as many visits as [`Cache::find`] makes, and takes no memory.
    pub fn is_match(&mut self, text: &[u8], visits: &mut Visits) -> bool
        ensures same { self.new ≡ self.old }
        ensures some { IsTrue result ↔ ((k : ℕ) × IsReached self.old text.now k) }
        ensures visits { visits.new ≤ visits.old + (length text.now + 1) * (size self.old + 1) }
        ensures counted { visits.old ≤ visits.new }
    {
        let dfa = &*self.dfa;
        let rows = &mut *self.rows;
        let pass = &mut *self.pass;
        if dfa.state_count() == 0 {
            return false;
        }
        match read(dfa, rows, pass, text, visits) {
            Reached::Decided => true,
            Reached::Nothing => false,
            Reached::Row(place) => match rows.known_end(dfa, place, visits) {
                Some(has_end) => has_end,
                None => rows.finish(dfa, place, pass, visits),
            },
        }
    }

    /// The same as [`Cache::is_match`] by entries that are there. Returns `None` if one that it needs is not. It is at most one
    /// visit for each byte and one more.
    pub fn is_match_known(&self, text: &[u8], visits: &mut Visits) -> Option<bool>
        ensures some { IfSome result
            (λ yes. IsTrue yes ↔ ((k : ℕ) × IsReached self.now text.now k)) }
        ensures visits { visits.new ≤ visits.old + (length text.now + 1) }
        ensures counted { visits.old ≤ visits.new }
    {
        let dfa = &*self.dfa;
        let rows = &*self.rows;
        if dfa.state_count() == 0 {
            return Some(false);
        }
        match rows.read_known(dfa, text, visits)? {
            Reached::Decided => Some(true),
            Reached::Nothing => Some(false),
            Reached::Row(place) => rows.known_end(dfa, place, visits),
        }
    }

    /// Returns whether some text that begins with `text` and then `byte` leads to some end.
    ///
    /// It is as many visits for each byte as [`Cache::find`] makes, and at most one more for each state. It takes no memory.
    pub fn can_match_after(&mut self, text: &[u8], byte: u8, visits: &mut Visits) -> bool
        ensures same { self.new ≡ self.old }
        ensures some { IsTrue result ↔ MatchesAfter self.old (text.now ++ byte ∷ []) }
        ensures visits { visits.new ≤ visits.old + (length text.now + 2) * (size self.old + 1) }
        ensures counted { visits.old ≤ visits.new }
    {
        let dfa = &*self.dfa;
        let rows = &mut *self.rows;
        let pass = &mut *self.pass;
        if dfa.state_count() == 0 {
            return false;
        }
        let place = match read(dfa, rows, pass, text, visits) {
            Reached::Decided => return true,
            Reached::Nothing => return false,
            Reached::Row(place) => place,
        };
        let step = rows.step(dfa, place, byte, pass, visits);
        if step.has_marks {
            return true;
        }
        match step.next {
            Some(next) => rows.is_live(dfa, next, visits),
            None => false,
        }
    }

    /// The same as [`Cache::can_match_after`] by entries that are there. Returns `None` if one that it needs is not. It is at
    /// most one visit for each byte and one more, and one for each state.
    pub fn can_match_after_known(&self, text: &[u8], byte: u8, visits: &mut Visits) -> Option<bool>
        ensures some { IfSome result
            (λ yes. IsTrue yes ↔ MatchesAfter self.now (text.now ++ byte ∷ [])) }
        ensures missed { result ≡ None → visits.new ≤ visits.old + (length text.now + 1) }
        ensures visits { visits.new ≤ visits.old + (length text.now + 1) + size self.now }
        ensures counted { visits.old ≤ visits.new }
    {
        let dfa = &*self.dfa;
        let rows = &*self.rows;
        if dfa.state_count() == 0 {
            return Some(false);
        }
        let place = match rows.read_known(dfa, text, visits)? {
            Reached::Decided => return Some(true),
            Reached::Nothing => return Some(false),
            Reached::Row(place) => place,
        };
        let step = rows.known_step(dfa, place, byte, visits)?;
        if step.has_marks {
            return Some(true);
        }
        match step.next {
            Some(next) => Some(rows.is_live(dfa, next, visits)),
            None => Some(false),
        }
    }
}

/// Reads a text from its beginning, up to the first index that is decided. Where rows are forgotten twice, a part of the text is
/// read by sets of states.
fn read(dfa: &Dfa, rows: &mut Rows, pass: &mut Pass, text: &[u8], visits: &mut Visits) -> Reached
    // The rows are right for the automaton, which has a state, and there is memory for a pass.
    requires sound { IsSound dfa.now rows.old }
    requires some { 0 < size dfa.now.run }
    requires fits { HasRoomFor dfa.now.run pass.old }

    // That stays so, and the result says where the text leads.
    ensures sound { IsSound dfa.now rows.new }
    ensures fits { HasRoomFor dfa.now.run pass.new }
    ensures reached { IsWhere dfa.now rows.new text.now result }

    // The visits are bounded, and do not become fewer.
    ensures visits { visits.new
        ≤ visits.old + (length text.now * (size dfa.now.run + 1) + 1) }
    ensures counted { visits.old ≤ visits.new }
{
    let mut given_up = GivenUp::new(rows);
    let mut place = rows.start(dfa, visits);
    let mut rest = text;
    loop {
        let left = match rows.read_from(dfa, place, rest, visits) {
            Ok(reached) => return reached,
            Err(left) => left,
        };
        let Some((byte, after)) = rest[left.at..].split_first() else {
            return Reached::Row(left.place);
        };
        let step = rows.leave(dfa, left.place, *byte, pass, visits);
        if step.has_marks {
            return Reached::Decided;
        }
        let Some(next) = step.next else {
            return Reached::Nothing;
        };
        let left = match rows.read_stepped(dfa, next, after, &mut given_up, pass, visits) {
            Ok(reached) => return reached,
            Err(left) => left,
        };
        place = left.place;
        rest = &after[left.at..];
    }
}
