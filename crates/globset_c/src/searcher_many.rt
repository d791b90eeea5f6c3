//! Many paths in a call to a searcher.

ghost use Rattle.std.specs.Prelude.{◌≡◌, ◌≢◌, ◌⊎◌, [], ◌∷◌, IsSome, length};
ghost use Rattle.globset.specs.SetValue.{set_globs};
ghost use Rattle.c_objects.specs.Kinds.{IfSearcher, IsSearcher, IfSearchers};
ghost use Rattle.c_objects.specs.Paths.{AreEnds, answers_for, indexes_for, index_ends_for, last_indexes_for};
ghost use Rattle.c_objects.specs.Statuses.{IsOneOf};
ghost use Rattle.c_objects.specs.Capacity.{IsWritten, IsTooLong};

use c_objects::object::Object;
use c_objects::owned::Owned;
use c_objects::searchers::{answer_each, find_each, hand_over};
use c_objects::slices::are_ends;
use c_objects::status::{BAD_ENDS, DONE, OUT_OF_MEMORY, Status, TOO_SMALL, WRONG_KIND};
use std::alloc::Global;

/// Writes for each path whether some glob of a searcher's set matches it: 1 or 0.
#[unsafe(no_mangle)]
pub extern "C" fn globset_raw_searcher_is_match_many(
    searcher: &mut Owned,
    paths: &[u8],
    ends: &[usize],
    answers: &mut [u8],
) -> Status
    // The handle owns an object. Only `answers` changes, and only with DONE.
    requires owned { IsSome searcher.old.object }
    ensures same_searcher { searcher.new.object ≡ searcher.old.object }
    ensures answered { result ≡ DONE → IfSearcher searcher.old.object (λ s.
        answers.new ≡ answers_for (set_globs s.set) paths.now 0 ends.now) }
    ensures refused { result ≢ DONE → answers.new ≡ answers.old }

    // The ends are looked at first, and then the object.
    ensures in_order { result ≢ BAD_ENDS → AreEnds (length paths.now) 0 ends.now }
    ensures one_for_each { result ≢ BAD_ENDS → length ends.now ≡ length answers.old }
    ensures bad_ends { result ≡ BAD_ENDS →
        (length ends.now ≢ length answers.old) ⊎ (¬ (AreEnds (length paths.now) 0 ends.now)) }

    // Only these statuses come, and the kind decides whether WRONG_KIND does.
    ensures right_kind { IsSearcher searcher.old.object → result ≢ WRONG_KIND }
    ensures other_kind { ¬ (IsSearcher searcher.old.object) → result ≢ BAD_ENDS
        → result ≡ WRONG_KIND }
    ensures statuses { IsOneOf (DONE ∷ WRONG_KIND ∷ BAD_ENDS ∷ []) result }
{
    if ends.len() != answers.len() || !are_ends(paths.len(), ends) {
        return BAD_ENDS;
    }
    match searcher.as_mut() {
        Object::Searcher(searcher) => {
            answer_each(searcher, paths, ends, answers);
            DONE
        }
        _ => WRONG_KIND,
    }
}

/// Writes the indexes of the globs of a searcher's set that match each path, in the order of the paths, and the ends of each
/// path's indexes. Afterwards the searcher holds the indexes of the last path.
#[unsafe(no_mangle)]
pub extern "C" fn globset_raw_searcher_matches_many(
    alloc: Global,
    searcher: &mut Owned,
    paths: &[u8],
    ends: &[usize],
    index_ends: &mut [usize],
    room: &mut [usize],
    needed: &mut usize,
) -> Status
    // `searcher` owns an object before the call and after it.
    requires owned { IsSome searcher.old.object }
    ensures owned { IsSome searcher.new.object }

    // With DONE the call writes the indexes, their number and the ends, and with TOO_SMALL the number alone.
    ensures done { result ≡ DONE
        → IfSearcher searcher.old.object
        (λ s. IsWritten (indexes_for (set_globs s.set) paths.now 0 ends.now) room.old room.new
        needed.new) }
    ensures index_ends { result ≡ DONE → IfSearcher searcher.old.object (λ s.
        index_ends.new ≡ index_ends_for (set_globs s.set) paths.now 0 ends.now) }
    ensures too_small { result ≡ TOO_SMALL
        → IfSearcher searcher.old.object
        (λ s. IsTooLong (indexes_for (set_globs s.set) paths.now 0 ends.now) room.old room.new
        needed.new) }

    // `room` and `index_ends` change only with DONE, and `needed` only with DONE or TOO_SMALL.
    ensures refused { result ≢ DONE → (room.new ≡ room.old) × (index_ends.new ≡ index_ends.old) }
    ensures same_needed { result ≢ DONE → result ≢ TOO_SMALL → needed.new ≡ needed.old }

    // The searcher keeps its set and gets the indexes of the last path. After BAD_ENDS or WRONG_KIND the object is as it was.
    ensures same_set { result ≢ BAD_ENDS → result ≢ WRONG_KIND
        → IfSearchers searcher.old.object searcher.new.object (λ s t. t.set ≡ s.set) }
    ensures found { result ≢ BAD_ENDS → result ≢ WRONG_KIND
        → IfSearchers searcher.old.object searcher.new.object
        (λ s t. t.found ≡ last_indexes_for (set_globs s.set) s.found paths.now 0 ends.now) }
    ensures same_after_bad_ends { result ≡ BAD_ENDS → searcher.new.object ≡ searcher.old.object }
    ensures same_of_wrong_kind { result ≡ WRONG_KIND → searcher.new.object ≡ searcher.old.object }

    // The ends are looked at first, and then the object.
    ensures in_order { result ≢ BAD_ENDS → AreEnds (length paths.now) 0 ends.now }
    ensures one_for_each { result ≢ BAD_ENDS → length ends.now ≡ length index_ends.old }
    ensures bad_ends { result ≡ BAD_ENDS →
        (length ends.now ≢ length index_ends.old) ⊎ (¬ (AreEnds (length paths.now) 0 ends.now)) }

    // Only these statuses come, and the kind decides whether WRONG_KIND does.
    ensures right_kind { IsSearcher searcher.old.object → result ≢ WRONG_KIND }
    ensures statuses { IsOneOf (DONE ∷ OUT_OF_MEMORY ∷ WRONG_KIND ∷ BAD_ENDS ∷ TOO_SMALL ∷ [])
        result }
{
    if ends.len() != index_ends.len() || !are_ends(paths.len(), ends) {
        return BAD_ENDS;
    }
    let Object::Searcher(searcher) = searcher.as_mut() else {
        return WRONG_KIND;
    };
    match find_each(alloc, searcher, paths, ends) {
        Ok(found) => hand_over(&found, index_ends, room, needed),
        Err(_) => OUT_OF_MEMORY,
    }
}
