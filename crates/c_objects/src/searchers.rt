//! Searchers of sets: answers about a path, and about many.

ghost use Rattle.std.specs.Prelude.{◌≡◌, ◌≢◌, [], ◌∷◌, length, IfOk, ◌++◌, OnOk};
ghost use Rattle.globset.specs.Answer.{matching_indexes};
ghost use Rattle.globset.specs.SetValue.{set_globs};
ghost use Rattle.c_objects.specs.Answers.{IsAll};
ghost use Rattle.c_objects.specs.Statuses.{IsOneOf};
ghost use Rattle.c_objects.specs.Paths.{AreEnds, answer_byte, answers_for, indexes_for, index_ends_for, last_indexes_for};
ghost use Rattle.c_objects.specs.Capacity.{IsWritten, IsTooLong};

use crate::slices;
use crate::status::{DONE, NO, Status, TOO_SMALL, YES};
use globset::{Candidate, Searcher};
use std::alloc::{AllocError, Global};

/// Returns whether some glob of the searcher's set matches the path.
#[tactic(auto, using(crate::proofs::lemmas::Nil::nil_where_none))]
pub fn is_match_in(searcher: &mut Searcher, path: &[u8]) -> Status
    ensures same { searcher.new ≡ searcher.old }
    ensures yes { result ≡ YES → matching_indexes (set_globs searcher.old.set) path.now ≢ [] }
    ensures no { result ≡ NO → matching_indexes (set_globs searcher.old.set) path.now ≡ [] }
    ensures statuses { IsOneOf (NO ∷ YES ∷ []) result }
{
    if searcher.is_match(&Candidate::from_bytes(path)) {
        YES
    } else {
        NO
    }
}

/// Returns whether every glob of the searcher's set matches the path.
pub fn matches_all_in(searcher: &mut Searcher, path: &[u8]) -> Status
    ensures same { searcher.new ≡ searcher.old }
    ensures yes { result ≡ YES → IsAll searcher.old.set path.now }
    ensures no { result ≡ NO → ¬ (IsAll searcher.old.set path.now) }
    ensures statuses { IsOneOf (NO ∷ YES ∷ []) result }
{
    if searcher.matches_all(&Candidate::from_bytes(path)) {
        YES
    } else {
        NO
    }
}

/// Writes an answer for each path.
#[tactic(auto, using(crate::proofs::lemmas::Ends::next_answer, crate::proofs::lemmas::Ends::all_answers, crate::proofs::lemmas::Ends::ends_part))]
pub fn answer_each(searcher: &mut Searcher, paths: &[u8], ends: &[usize], answers: &mut [u8])
    requires ends { AreEnds (length paths.now) 0 ends.now }
    requires one_for_each { length ends.now ≡ length answers.old }
    ensures answered { answers.new ≡ answers_for (set_globs searcher.old.set) paths.now 0 ends.now }
    ensures kept { searcher.new ≡ searcher.old }
{
    let mut count = 0;
    let mut start = 0;
    let mut rest = ends;
    'each: while let Some((end, tail)) = rest.split_first() {
        answers[count] = answer(searcher, &paths[start..*end]);
        count += 1;
        start = *end;
        rest = tail;
    }
}

/// Returns 1 if some glob of the searcher's set matches the path, and else 0.
#[tactic(auto, using(crate::proofs::lemmas::Nil::one_where_some, crate::proofs::lemmas::Nil::zero_where_none))]
fn answer(searcher: &mut Searcher, path: &[u8]) -> u8
    ensures answer { result ≡ answer_byte (set_globs searcher.old.set) path.now }
    ensures kept { searcher.new ≡ searcher.old }
{
    if searcher.is_match(&Candidate::from_bytes(path)) {
        1
    } else {
        0
    }
}

/// The indexes of many paths, and the ends of each path's indexes.
#[derive(Drop)]
pub struct IndexLists {
    pub indexes: Vec<usize>,
    pub ends: Vec<usize>,
}

/// Finds the indexes of each path, in their order.
#[tactic(auto, using(crate::proofs::lemmas::Ends::ends_part, crate::proofs::lemmas::ManyIndexes::next_indexes, crate::proofs::lemmas::ManyIndexes::next_end, crate::proofs::lemmas::ManyIndexes::next_last))]
pub fn find_each(
    alloc: Global,
    searcher: &mut Searcher,
    paths: &[u8],
    ends: &[usize],
) -> Result<IndexLists, AllocError>
    requires { AreEnds (length paths.now) 0 ends.now }
    ensures indexes { IfOk result
        (λ f. f.indexes.items ≡ indexes_for (set_globs searcher.old.set) paths.now 0 ends.now) }
    ensures ends { IfOk result
        (λ f. f.ends.items ≡ index_ends_for (set_globs searcher.old.set) paths.now 0 ends.now) }
    ensures len { IfOk result (λ f. length f.ends.items ≡ length ends.now) }

    // The searcher keeps its set and gets the indexes of the last path, even after an error.
    ensures same_set { searcher.new.set ≡ searcher.old.set }
    ensures found { searcher.new.found
        ≡ last_indexes_for (set_globs searcher.old.set) searcher.old.found paths.now 0 ends.now }
{
    let mut found = IndexLists {
        indexes: Vec::new(alloc),
        ends: Vec::new(alloc),
    };
    let mut start = 0;
    let mut rest = ends;
    'each: while let Some((end, tail)) = rest.split_first() {
        let path = &paths[start..*end];
        searcher.find(&Candidate::from_bytes(path));
        if keep(searcher.found(), &mut found).is_err() {
            find_last(searcher, paths, *end, tail);
            return Err(AllocError);
        }
        start = *end;
        rest = tail;
    }
    Ok(found)
}

/// Adds the indexes of a path to the others, and their end.
fn keep(of_path: &[usize], found: &mut IndexLists) -> Result<(), AllocError>
    ensures indexes { OnOk result
        (found.new.indexes.items ≡ found.old.indexes.items ++ of_path.now) }
    ensures ends { OnOk result
        (found.new.ends.items ≡ found.old.ends.items ++ length found.new.indexes.items ∷ []) }
{
    found.indexes.extend_from_slice(of_path)?;
    found.ends.push(found.indexes.len())?;
    Ok(())
}

/// Finds the indexes of the last path, if there is any.
#[tactic(auto, using(crate::proofs::lemmas::Ends::ends_part, crate::proofs::lemmas::ManyIndexes::only_last, crate::proofs::lemmas::ManyIndexes::skip))]
fn find_last(searcher: &mut Searcher, paths: &[u8], start: usize, ends: &[usize])
    requires { AreEnds (length paths.now) start ends.now }
    ensures same_set { searcher.new.set ≡ searcher.old.set }
    ensures found { searcher.new.found
        ≡ last_indexes_for (set_globs searcher.old.set) searcher.old.found paths.now start
        ends.now }
{
    let mut start = start;
    let mut rest = ends;
    'each: while let Some((end, tail)) = rest.split_first() {
        if tail.is_empty() {
            searcher.find(&Candidate::from_bytes(&paths[start..*end]));
            return;
        }
        start = *end;
        rest = tail;
    }
}

/// Writes the indexes into the room, if it is not too small, and then the ends of each path's indexes.
pub fn hand_over(
    found: &IndexLists,
    index_ends: &mut [usize],
    room: &mut [usize],
    needed: &mut usize,
) -> Status
    // With DONE the call writes the indexes, their number and the ends, and with TOO_SMALL the number alone.
    requires { length found.now.ends.items ≡ length index_ends.old }
    ensures done { result ≡ DONE → IsWritten found.now.indexes.items room.old room.new needed.new }
    ensures ends { result ≡ DONE → index_ends.new ≡ found.now.ends.items }
    ensures too_small { result ≡ TOO_SMALL
        → IsTooLong found.now.indexes.items room.old room.new needed.new }

    // `room` and `index_ends` change only with DONE, and `needed` only with DONE or TOO_SMALL. Only these statuses come.
    ensures refused { result ≢ DONE → (room.new ≡ room.old) × (index_ends.new ≡ index_ends.old) }
    ensures same_needed { result ≢ DONE → result ≢ TOO_SMALL → needed.new ≡ needed.old }
    ensures statuses { IsOneOf (DONE ∷ TOO_SMALL ∷ []) result }
{
    let status = slices::write(&found.indexes, room, needed);
    if status == DONE {
        index_ends.copy_from_slice(&found.ends);
    }
    status
}
