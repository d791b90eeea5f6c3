//! The rows that a cache holds, and how they are made.

ghost use Rattle.std.specs.Prelude.{◌≡◌, ℕ, ◌+◌, ◌-◌, ◌*◌, ◌<◌, ◌≤◌, ◌↔◌, ◌++◌, ◌∷◌, [], List, length, slice_index, replicate, vec_len, vec_capacity, Some, None, IsTrue, IsFalse, IfOk, IfSome, MatchOption};
ghost use Rattle.bit_sets.specs.Indexes.{has_index, index_capacity};
ghost use Rattle.bit_sets.specs.Texts.{AllBytes};
ghost use Rattle.byte_nfa.specs.Runs.{size, AcceptsIn};
ghost use Rattle.byte_nfa.specs.EarlyMatches.{half};
ghost use Rattle.lazy_dfa.specs.inner.Dfa.{IsListOfStates};
ghost use Rattle.lazy_dfa.specs.inner.Hashes.{list_hash};
ghost use Rattle.lazy_dfa.specs.inner.Index.{AreFound, IsFree, IsIndexed, nth_place};
ghost use Rattle.lazy_dfa.specs.inner.Lists.{list_at};
ghost use Rattle.lazy_dfa.specs.inner.Rows.{AcceptsRow, HasEnds, HasRoomFor, HasNoRow, IsEntry, IsRowOf, IsSound, LeadsTo, MarksAre, AreListed, KeepsRows, HasSpace, with_table_of, states_of, max_entries, marked, BeginsAt, IsAt, IsStep};

mod known;
mod stepped;

use crate::dfa::Dfa;
use crate::lists::{
    extend_within, hash_of, list_indexes, push_within, put_in_order, put_states, zeros_within,
};
use crate::pass::{Pass, read};
use bit_sets::{IndexSet, Visits};
use std::alloc::{AllocError, Global};
use std::mem;
pub use stepped::GivenUp;

/// An entry that is not known.
const UNKNOWN: u32 = 0;

/// An entry where nothing follows: a byte leads to no end, or the text's end is none.
const DEAD: u32 = 1;

/// The entry that leads to the first row. The entry to a row is this number plus the place where the row's entries begin.
const FIRST: u32 = 2;

/// What is added to the entries of a row that has marks: it leads without a byte to ends that say that an index is decided.
const MARKED: u32 = 1 << 31;

/// The most entries, and the most rows. `FIRST` plus the place of any entry has to be below `MARKED`.
const MAX_ENTRIES: usize = (MARKED - FIRST) as usize;

/// Lists have places below this, so that entries have room for those of ends.
const MAX_PLACES: usize = (u32::MAX - FIRST) as usize;

/// In how many places of the table of rows a list is looked for. At most half of the places are taken, so most lists are found
/// in the first few.
const PROBES: usize = 64;

/// The places of the table while there are few rows: it takes time to fill more.
const FEWEST_PLACES: usize = 1 << 8;

/// The number of rows whose found marks a run remembers.
pub const REMEMBERED: usize = 16;

/// Where a byte leads from a row.
#[derive(Clone, Copy)]
pub struct Step {
    /// The place where the entries of the row begin, or `None` if the byte leads to no end.
    pub next: Option<usize>,
    /// Whether the row that was left has marks: it leads without a byte to ends that say that an index is decided.
    pub has_marks: bool,
}

/// How many rows, and how many numbers of lists, a cache has room for.
#[derive(Clone, Copy)]
struct Limits {
    rows: usize,
    /// How many numbers the lists of rows are, with their lengths.
    listed: usize,
}

/// Room for a row.
#[derive(Clone, Copy)]
struct Room {
    /// The place of the table that is free for its number.
    place: usize,
    /// Whether the rows before are still there.
    is_kept: bool,
}

/// The row of some states.
#[derive(Clone, Copy)]
struct Found {
    /// The place where its entries begin.
    place: usize,
    /// Whether the rows before are still there.
    is_kept: bool,
}

/// The rows that are made, each for a list of states that some text leads to.
///
/// All memory is taken when it is made. If there is no room for a row more, all rows are forgotten. A run holds a row as the place
/// where its entries begin, so that it need not multiply for each byte.
#[derive(Drop)]
pub struct Rows {
    /// For each row, where its list of states stands.
    starts: Vec<u32>,
    /// The lists of states, and of the indexes of ends, in order: each has its length, and then its numbers.
    lists: Vec<u32>,
    /// For each row an entry for each class of bytes, and an entry for the end of the text: the place of the list of the indexes
    /// that are found without a byte.
    entries: Vec<u32>,
    /// The numbers of rows, plus 1, at places by the hashes of their lists.
    table: Vec<u32>,
    /// The number that is hashed before each list. It changes each time that rows are forgotten, so that lists which collided
    /// have other places then.
    pub seed: usize,
    /// The place of the row that a run begins in, if it is made.
    pub begin: Option<usize>,
}

impl Rows {
    /// Returns no rows, with room for all that fit `bytes` bytes, and at least for one.
    pub fn new(alloc: Global, dfa: &Dfa, bytes: usize) -> Result<Rows, AllocError>
        ensures { IfOk result (λ rows. IsSound dfa.now rows) }
    {
        let room = room_within(dfa, bytes);
        let width = dfa.class_count() + 1;
        let mut table = Vec::with_capacity(alloc, room.rows.saturating_mul(2))?;
        zeros_within(&mut table, FEWEST_PLACES.min(room.rows));
        Ok(Rows {
            starts: Vec::with_capacity(alloc, room.rows)?,
            lists: Vec::with_capacity(alloc, room.listed)?,
            entries: Vec::with_capacity(alloc, room.rows.saturating_mul(width))?,
            table,
            seed: 0,
            begin: None,
        })
    }

    /// Returns the bytes that the rows may take, with their lists and the table that finds them.
    pub fn bytes(&self) -> usize {
        self.entries
            .capacity()
            .saturating_add(self.table.capacity())
            .saturating_add(self.starts.capacity())
            .saturating_add(self.lists.capacity())
            .saturating_mul(mem::size_of::<u32>())
    }

    /// Returns the place of the row in which a run begins. If it is not made, it is looked up, which is a visit.
    pub fn start(&mut self, dfa: &Dfa, visits: &mut Visits) -> usize
        requires { IsSound dfa.now self.old }
        ensures sound { IsSound dfa.now self.new }
        ensures begins { BeginsAt dfa.now self.new result }
        ensures visits { visits.new ≤ visits.old + 1 }
        ensures counted { visits.old ≤ visits.new }
    {
        if let Some(place) = self.begin {
            return place;
        }
        let found = self.seek(dfa, dfa.first(), visits);
        self.begin = Some(found.place);
        found.place
    }

    /// Returns the number of the row at a place.
    fn row_at(&self, dfa: &Dfa, place: usize) -> usize
        requires { dfa.now.class_count < max_entries }
        ensures { (i : ℕ) → place ≡ i * (dfa.now.class_count + 1) → result ≡ i }
    {
        place / (dfa.class_count() + 1)
    }

    /// Returns whether some bytes lead from the row at a place to an end. It reads states of the row until it comes to one from
    /// which some bytes do, and each is a visit.
    pub fn is_live(&self, dfa: &Dfa, place: usize, visits: &mut Visits) -> bool
        // The rows are right for the automaton, and there is a row at the place.
        requires sound { IsSound dfa.now self.now }
        requires row { (i : ℕ) × IsAt dfa.now self.now i place }

        // The result says whether some bytes lead from the row to an end, and the visits are bounded.
        ensures some { (i : ℕ) → IsAt dfa.now self.now i place
            → IsTrue result ↔ ((k : ℕ) × (y : List ℕ) × AllBytes y
            × AcceptsRow dfa.now.run self.now i y k) }
        ensures visits { visits.new ≤ visits.old + size dfa.now.run }
        ensures counted { visits.old ≤ visits.new }
    {
        let live = dfa.live_states();
        for state in states_at(&self.starts, &self.lists, self.row_at(dfa, place)) {
            if live.has(*state as usize, visits) {
                return true;
            }
        }
        false
    }

    /// Returns whether the row at a place leads to some end without a byte. If it does, `ends` of the pass has afterwards the indexes of
    /// these. It writes that entry: a run calls it where [`Rows::known_end`] does not know.
    ///
    /// Each state of the row is read at most once, which is a visit.
    pub fn finish(&mut self, dfa: &Dfa, place: usize, pass: &mut Pass, visits: &mut Visits) -> bool
        // The rows are right for the automaton, there is a row at the place, and there is memory for a pass.
        requires sound { IsSound dfa.now self.old }
        requires row { (i : ℕ) × IsAt dfa.now self.old i place }
        requires fits { HasRoomFor dfa.now.run pass.old }

        // That stays so, and the result says whether the row has ends without a byte. If it has any, `ends` has these.
        ensures sound { IsSound dfa.now self.new }
        ensures fits { HasRoomFor dfa.now.run pass.new }
        ensures some { (i : ℕ) → IsAt dfa.now self.old i place
            → IsTrue result ↔ ((k : ℕ) × (k < half dfa.now.run + half dfa.now.run)
            × AcceptsRow dfa.now.run self.old i [] k) }
        ensures ends { (i : ℕ) → IsAt dfa.now self.old i place
            → HasEnds dfa.now.run self.old i pass.new.ends }

        // The visits are bounded, and do not become fewer.
        ensures visits { visits.new ≤ visits.old + size dfa.now.run }
        ensures counted { visits.old ≤ visits.new }
    {
        let row = self.row_at(dfa, place);
        // What any byte leads to has no effect here.
        self.read_row(dfa, row, 0, pass, visits);
        let half = dfa.half();
        if pass.ends.next_below(0, half + half).is_some() {
            self.keep_ends(dfa, row, &pass.ends, &mut pass.told);
            return true;
        }
        self.write(dfa, row, dfa.class_count(), DEAD);
        false
    }

    /// Returns where a byte leads from the row at a place, by its entry if that is known, which is a visit. Otherwise it has the
    /// cost of [`Rows::leave`].
    pub fn step(
        &mut self,
        dfa: &Dfa,
        place: usize,
        byte: u8,
        pass: &mut Pass,
        visits: &mut Visits,
    ) -> Step
        // The rows are right for the automaton, there is a row at the place, and there is memory for a pass.
        requires sound { IsSound dfa.now self.old }
        requires row { (i : ℕ) × IsAt dfa.now self.old i place }
        requires fits { HasRoomFor dfa.now.run pass.old }

        // That stays so, and the step says where the byte leads and whether the row has marks. The visits are bounded.
        ensures sound { IsSound dfa.now self.new }
        ensures fits { HasRoomFor dfa.now.run pass.new }
        ensures step { (i : ℕ) → IsAt dfa.now self.old i place
            → IsStep dfa.now self.old i byte result self.new }
        ensures visits { visits.new ≤ visits.old + (size dfa.now.run + 1) }
        ensures counted { visits.old ≤ visits.new }
    {
        if let Some(step) = self.known_step(dfa, place, byte, visits) {
            return step;
        }
        self.leave(dfa, place, byte, pass, visits)
    }

    /// Returns where a byte leads from the row at a place. Afterwards `ends` of the pass has the indexes of the ends that the row leads
    /// to without a byte. It writes the entry, unless all rows are forgotten: a run calls it where the entry is not known.
    ///
    /// Each state of the row is read at most once, which is a visit, and the next row is looked up, which is another.
    #[cold]
    #[inline(never)]
    pub fn leave(
        &mut self,
        dfa: &Dfa,
        place: usize,
        byte: u8,
        pass: &mut Pass,
        visits: &mut Visits,
    ) -> Step
        // The rows are right for the automaton, there is a row at the place, and there is memory for a pass.
        requires sound { IsSound dfa.now self.old }
        requires row { (i : ℕ) × IsAt dfa.now self.old i place }
        requires fits { HasRoomFor dfa.now.run pass.old }

        // That stays so, the step says where the byte leads and whether the row has marks, and `ends` has the row's ends.
        ensures sound { IsSound dfa.now self.new }
        ensures fits { HasRoomFor dfa.now.run pass.new }
        ensures step { (i : ℕ) → IsAt dfa.now self.old i place
            → IsStep dfa.now self.old i byte result self.new }
        ensures ends { (i : ℕ) → IsAt dfa.now self.old i place
            → HasEnds dfa.now.run self.old i pass.new.ends }

        // The visits are bounded, and do not become fewer.
        ensures visits { visits.new ≤ visits.old + (size dfa.now.run + 1) }
        ensures counted { visits.old ≤ visits.new }
    {
        let row = self.row_at(dfa, place);
        self.read_row(dfa, row, byte, pass, visits);
        let marks = self.keep_marks(dfa, row, &pass.ends, &mut pass.told);
        let has_marks = marks > 0;
        let class = dfa.class_of(byte);
        if pass.list.is_empty() {
            self.write(dfa, row, class, DEAD + marks);
            return Step {
                next: None,
                has_marks,
            };
        }
        let found = self.seek(dfa, &pass.list, visits);
        // If the rows were forgotten, the row that was left is another one now, or none.
        if found.is_kept {
            self.write(dfa, row, class, found.place as u32 + FIRST + marks);
        }
        Step {
            next: Some(found.place),
            has_marks,
        }
    }

    /// Returns `MARKED` if the row has marks: if `ends` has an index that says that one is decided. Then the list of `ends` is
    /// kept. Otherwise it returns 0. The result is added to the entries of the row. `told` is memory for the list.
    fn keep_marks(&mut self, dfa: &Dfa, row: usize, ends: &IndexSet, told: &mut Vec<u32>) -> u32
        // The rows are right for the automaton, the row is one of them, and `ends` has its ends without a byte.
        requires sound { IsSound dfa.now self.old }
        requires row { row < length self.old.starts.items }
        requires room { dfa.now.run.index_count ≤ index_capacity ends.now }
        requires ends { HasEnds dfa.now.run self.old row ends.now }

        // The rows stay right, none is forgotten, and the result says whether the row has marks.
        ensures sound { IsSound dfa.now self.new }
        ensures kept { KeepsRows self.old self.new }
        ensures marks { MarksAre dfa.now.run self.old row result }
    {
        let half = dfa.half();
        if ends.next_below(half, half + half).is_some() {
            self.keep_ends(dfa, row, ends, told);
            return MARKED;
        }
        0
    }

    /// Keeps the list of the indexes in `ends`, to which a row leads without a byte, if it is not kept yet and there is room. `told` is
    /// memory for the list.
    fn keep_ends(&mut self, dfa: &Dfa, row: usize, ends: &IndexSet, told: &mut Vec<u32>)
        // The rows are right for the automaton, the row is one of them, and `ends` has its ends without a byte, at least one.
        requires sound { IsSound dfa.now self.old }
        requires row { row < length self.old.starts.items }
        requires room { dfa.now.run.index_count ≤ index_capacity ends.now }
        requires ends { HasEnds dfa.now.run self.old row ends.now }
        requires some { (k : ℕ) × (k < half dfa.now.run + half dfa.now.run)
            × AcceptsRow dfa.now.run self.old row [] k }

        // The rows stay right, and none is forgotten.
        ensures sound { IsSound dfa.now self.new }
        ensures kept { KeepsRows self.old self.new }
    {
        let end = row * (dfa.class_count() + 1) + dfa.class_count();
        // Each byte that leaves a row with marks comes here.
        if self.entries[end] != UNKNOWN {
            return;
        }
        let half = dfa.half();
        if !list_indexes(ends, half + half, told) {
            return;
        }
        let place = self.lists.len();
        if self.lists.capacity() - place <= told.len() || place >= MAX_PLACES {
            return;
        }
        push_within(&mut self.lists, told.len());
        extend_within(&mut self.lists, told);
        self.entries[end] = place as u32 + FIRST;
    }

    /// Makes `list` of the pass what a row leads to by a byte, in ascending order, and `ends` what it leads to without one. It is at most
    /// one visit for each state.
    fn read_row(&self, dfa: &Dfa, row: usize, byte: u8, pass: &mut Pass, visits: &mut Visits)
        // The rows are right for the automaton, the row is one of them, and there is memory for the pass, also afterwards.
        requires sound { IsSound dfa.now self.now }
        requires row { row < length self.now.starts.items }
        requires fits { HasRoomFor dfa.now.run pass.old }
        ensures fits { HasRoomFor dfa.now.run pass.new }

        // The list has the states after the byte, at most as many as there are, and `ends` has the ends without a byte.
        ensures steps { (y : List ℕ) (k : ℕ)
            → AcceptsRow dfa.now.run self.now row (byte ∷ y) k
            ↔ AcceptsIn dfa.now.run pass.new.list.items y k }
        ensures list { IsListOfStates dfa.now.run pass.new.list.items }
        ensures ends { HasEnds dfa.now.run self.now row pass.new.ends }

        // The visits are bounded, and do not become fewer.
        ensures visits { visits.new ≤ visits.old + size dfa.now.run }
        ensures counted { visits.old ≤ visits.new }
    {
        let states = states_at(&self.starts, &self.lists, row);
        pass.from.clear();
        put_states(states, &mut pass.from);
        read(
            dfa.automaton(),
            byte,
            &mut pass.from,
            &mut pass.list,
            &mut pass.ends,
            visits,
        );
        put_in_order(&mut pass.list);
    }

    /// Writes an entry of a row.
    fn write(&mut self, dfa: &Dfa, row: usize, column: usize, entry: u32)
        // The rows are right for the automaton, and the row and the column are there. The entry is right for them.
        requires sound { IsSound dfa.now self.old }
        requires row { row < length self.old.starts.items }
        requires column { column ≤ dfa.now.class_count }
        requires entry { IsEntry dfa.now self.old row column entry }

        // The rows stay right, and none is forgotten.
        ensures sound { IsSound dfa.now self.new }
        ensures kept { KeepsRows self.old self.new }
    {
        self.entries[row * (dfa.class_count() + 1) + column] = entry;
    }

    /// Returns the row of the states in a list, and makes it if it is not there, which is one visit. If there is no room for it, all
    /// rows are forgotten before.
    fn seek(&mut self, dfa: &Dfa, list: &[u32], visits: &mut Visits) -> Found
        // The rows are right for the automaton. The list has states alone, at most as many as there are, and ascends.
        requires sound { IsSound dfa.now self.old }
        requires list { IsListOfStates dfa.now.run list.now }

        // The rows stay right, and the row at the place leads to the ends that the states in the list lead to.
        ensures sound { IsSound dfa.now self.new }
        ensures row { IsRowOf dfa.now (AcceptsIn dfa.now.run list.now) self.new result.place }

        // No row is forgotten if the result says so, and the look-up is one visit.
        ensures kept { IsTrue result.is_kept → KeepsRows self.old self.new }
        ensures visits { visits.new ≡ visits.old + 1 }
    {
        visits.tick();
        let hash = hash_of(self.seed, list);
        if let Some(row) = self.known(hash, list) {
            return Found {
                place: row * (dfa.class_count() + 1),
                is_kept: true,
            };
        }
        let room = self.make_room(dfa, hash, list);
        let row = self.add(dfa, list, room.place);
        Found {
            place: row * (dfa.class_count() + 1),
            is_kept: room.is_kept,
        }
    }

    /// Returns the row of the states in a list, whose hash is given, or `None` if there is none.
    fn known(&self, hash: u64, list: &[u32]) -> Option<usize>
        requires listed { AreListed self.now }
        requires index { IsIndexed self.now.table.items self.now.seed self.now.starts.items
            self.now.lists.items }
        requires hash { hash ≡ list_hash self.now.seed list.now }
        ensures { MatchOption result (HasNoRow self.now list.now)
            (λ i. (i < length self.now.starts.items) × (states_of self.now i ≡ list.now)) }
    {
        for probe in 0..PROBES {
            let number = self.table[place_of(hash, probe, self.table.len())] as usize;
            if number == 0 {
                return None;
            }
            let row = number - 1;
            if row < self.starts.len() && states_at(&self.starts, &self.lists, row) == list {
                return Some(row);
            }
        }
        None
    }

    /// Makes room for a row of the states in a list, whose hash is given, and returns the place for its number in the table. If there
    /// is none for the row, its list or its number, all rows are forgotten.
    fn make_room(&mut self, dfa: &Dfa, hash: u64, list: &[u32]) -> Room
        // The rows are right for the automaton and stay so, and there is room for the row afterwards.
        requires sound { IsSound dfa.now self.old }
        requires few { length list.now ≤ size dfa.now.run }
        requires hash { hash ≡ list_hash self.old.seed list.now }
        ensures sound { IsSound dfa.now self.new }
        ensures space { HasSpace dfa.now self.new list.now result.place }

        // No row is forgotten if the result says so, and none is added.
        ensures kept { IsTrue result.is_kept → KeepsRows self.old self.new }
        ensures none { HasNoRow self.old list.now → HasNoRow self.new list.now }
    {
        if let Some(place) = self.find_place(dfa, hash, list) {
            return Room {
                place,
                is_kept: true,
            };
        }
        self.starts.clear();
        self.lists.clear();
        self.entries.clear();
        self.begin = None;
        self.table.fill(0);
        self.seed = self.seed.wrapping_add(1);
        let hash = hash_of(self.seed, list);
        Room {
            place: place_of(hash, 0, self.table.len()),
            is_kept: false,
        }
    }

    /// Returns a free place of the table for the number of a row of the states in a list, whose hash is given, if there is room for the
    /// row, its list and its number. Widens the table if it is half full. Without a result the table may lack rows.
    fn find_place(&mut self, dfa: &Dfa, hash: u64, list: &[u32]) -> Option<usize>
        // The lists of rows are there, each row is found, and the hash is that of the list.
        requires listed { AreListed self.old }
        requires index { IsIndexed self.old.table.items self.old.seed self.old.starts.items
            self.old.lists.items }
        requires few { length self.old.starts.items ≤ max_entries }
        requires small { length self.old.entries.items ≤ max_entries }
        requires hash { hash ≡ list_hash self.old.seed list.now }

        // Only the table changes, and it still has a place. With a result there is room, and each row is found.
        ensures same { self.new ≡ with_table_of self.old self.new }
        ensures some { 0 < length self.new.table.items }
        ensures space { IfSome result (HasSpace dfa.now self.new list.now) }
        ensures found { IfSome result (λ _. AreFound self.new.table.items self.old.seed
            self.old.starts.items self.old.lists.items (length self.old.starts.items)) }
    {
        let places = self.lists.capacity().min(MAX_PLACES);
        if places.saturating_sub(self.lists.len()) <= list.len() {
            return None;
        }
        if self.starts.len() >= self.starts.capacity().min(MAX_ENTRIES) {
            return None;
        }
        if self.entries.capacity().min(MAX_ENTRIES) - self.entries.len() <= dfa.class_count() {
            return None;
        }
        if !widen_if_full(&mut self.table, self.seed, &self.starts, &self.lists) {
            return None;
        }
        free_place(&self.table, hash)
    }

    /// Adds a row of the states in a list, none of whose entries is known, and puts its number into the table at a place. Returns the
    /// number.
    fn add(&mut self, dfa: &Dfa, list: &[u32], place: usize) -> usize
        // The rows are right for the automaton, with room for one more. The list has states alone, ascends, and no row has it.
        requires sound { IsSound dfa.now self.old }
        requires space { HasSpace dfa.now self.old list.now place }
        requires list { IsListOfStates dfa.now.run list.now }
        requires none { HasNoRow self.old list.now }

        // The rows stay right, none is forgotten, and the result is the row of the states in the list.
        ensures sound { IsSound dfa.now self.new }
        ensures row { result < length self.new.starts.items }
        ensures states { states_of self.new result ≡ list.now }
        ensures kept { KeepsRows self.old self.new }
    {
        let row = self.starts.len();
        let start = self.lists.len();
        push_within(&mut self.lists, list.len());
        extend_within(&mut self.lists, list);
        push_within(&mut self.starts, start);
        zeros_within(&mut self.entries, dfa.class_count() + 1);
        self.table[place] = row as u32 + 1;
        row
    }
}

/// Returns the list of states of a row, by the places where the lists of rows stand.
fn states_at<'a>(starts: &[u32], lists: &'a [u32], row: usize) -> &'a [u32]
    requires row { row < length starts.now }
    requires list { slice_index starts.now row + 1
        + slice_index lists.now (slice_index starts.now row) ≤ length lists.now }
    ensures { result.now ≡ list_at lists.now (slice_index starts.now row) }
{
    let start = starts[row] as usize;
    let count = lists[start] as usize;
    &lists[start + 1..start + 1 + count]
}

/// Returns for how many rows of an automaton there is room within so many bytes, beside the lists of a pass.
fn room_within(dfa: &Dfa, bytes: usize) -> Limits
    ensures rows { 0 < result.rows }
    ensures listed { size dfa.now.run < result.listed }
{
    let number = mem::size_of::<u32>();
    let width = dfa.class_count() + 1;
    let states = dfa.state_count();
    let taken = Pass::numbers(dfa);
    // At most one half is for lists, unless that is too small for the least room. The rest is for rows, and at least a quarter.
    let listed = (bytes / 2 / number).saturating_sub(taken).max(states + 1);
    let rest = bytes
        .saturating_sub(listed.saturating_add(taken).saturating_mul(number))
        .max(bytes / 4);
    // A row takes its entries, a number of `starts` and two places of the table.
    let rows = (rest / ((width + 3) * number))
        .min(most_rows(states))
        .max(1);
    // The lists of a row, of its states and of its ends, have at most as many numbers as those that are taken, and two lengths.
    let most_listed = rows.saturating_mul(taken.saturating_add(2));
    Limits {
        rows,
        listed: listed.min(most_listed).max(states + 1),
    }
}

/// Returns a number of bytes from which on [`room_within`] returns no more room than fits: three quarters of so many are enough for
/// the lists that there is always room for, and one for a row of the most entries.
pub fn least_bytes(dfa: &Dfa) -> usize {
    let states = dfa.state_count().saturating_add(1);
    let listed = states.saturating_add(Pass::numbers(dfa)) / 3 + 1;
    listed
        .max(257 + 3)
        .saturating_mul(4 * mem::size_of::<u32>())
}

/// Returns for how many rows an automaton of so many states has room at most: one for each set of states. So the cache of a small
/// automaton takes little memory, and is made quickly.
fn most_rows(states: usize) -> usize {
    FEWEST_PLACES.max(1 << states.min(31))
}

/// If half of the places of the table of rows may be taken, makes it twice as large, as far as there is room for that, and puts
/// each row in again. Returns `false` if some row has no place then.
fn widen_if_full(table: &mut Vec<u32>, seed: usize, starts: &[u32], lists: &[u32]) -> bool
    // There are lists, and the table has a place.
    requires few { length starts.now ≤ max_entries }
    requires lists { (i : ℕ) → i < length starts.now
        → slice_index starts.now i + 1
        + slice_index lists.now (slice_index starts.now i) ≤ length lists.now }
    requires some { 0 < length table.old.items }

    // The table still has a place. After `true` each row is found in it, if each was found before.
    ensures some { 0 < length table.new.items }
    ensures found { IsTrue result
        → AreFound table.old.items seed starts.now lists.now (length starts.now)
        → AreFound table.new.items seed starts.now lists.now (length starts.now) }
{
    if starts.len() < table.len() / 2 || table.len() >= table.capacity() {
        return true;
    }
    let count = table.len().saturating_mul(2).min(table.capacity());
    table.clear();
    zeros_within(table, count);
    for row in 0..starts.len() {
        let hash = hash_of(seed, states_at(starts, lists, row));
        let Some(place) = free_place(table, hash) else {
            return false;
        };
        table[place] = row as u32 + 1;
    }
    true
}

/// Returns the first place for a hash that holds no row, if there is one.
fn free_place(table: &[u32], hash: u64) -> Option<usize>
    requires { 0 < length table.now }
    ensures { IfSome result (IsFree table.now hash) }
{
    for probe in 0..PROBES {
        let place = place_of(hash, probe, table.len());
        if table[place] == 0 {
            return Some(place);
        }
    }
    None
}

/// Returns the entry of a class in the row at a place.
#[inline(always)]
fn entry_at(entries: &[u32], place: usize, class: usize) -> u32
    requires { place + class < length entries.now }
    ensures { result ≡ slice_index entries.now (place + class) }
{
    // This slice does not depend on the row, so the processor can compute it earlier.
    let column = &entries[class..];
    column[place]
}

/// Returns where an entry that is known leads.
#[inline(always)]
fn step_of(entry: u32) -> Step
    requires known { 0 < entry }
    requires row { entry ≡ marked → ⊥ }
    ensures plain { entry < marked → IsFalse result.has_marks × LeadsTo entry result.next }
    ensures marks { marked ≤ entry → IsTrue result.has_marks × LeadsTo (entry - marked) result.next }
{
    let has_marks = entry >= MARKED;
    let entry = if has_marks { entry - MARKED } else { entry };
    Step {
        next: if entry == DEAD {
            None
        } else {
            Some((entry - FIRST) as usize)
        },
        has_marks,
    }
}

/// Returns the place of a table of so many places that is looked at for a hash after so many others.
fn place_of(hash: u64, probe: usize, count: usize) -> usize
    requires { 0 < count }
    ensures place { result ≡ nth_place hash probe count }
    ensures within { result < count }
{
    (hash as usize).wrapping_add(probe) % count
}
