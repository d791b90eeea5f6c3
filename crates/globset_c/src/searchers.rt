//! Searchers: sets, each with the memory for a thread.

ghost use Rattle.std.specs.Prelude.{◌≡◌, ◌≢◌, ◌↔◌, Some, [], ◌∷◌, length, IsSome};
ghost use Rattle.globset.specs.Answer.{matching_indexes};
ghost use Rattle.globset.specs.Below.{MatchesBelow};
ghost use Rattle.globset.specs.SetValue.{set_globs};
ghost use Rattle.c_objects.specs.Answers.{IsAll};
ghost use Rattle.c_objects.specs.Kinds.{IfSearcher, IfSearchers, IfSet, IsSearcher, IsSet};
ghost use Rattle.c_objects.specs.Statuses.{IsOneOf};

use c_objects::lent::Lent;
use c_objects::object::{Failure, Object};
use c_objects::owned::{Owned, give};
use c_objects::searchers::{is_match_in, matches_all_in};
use c_objects::slices::Indexes;
use c_objects::status::{DONE, NO, OUT_OF_MEMORY, Status, WRONG_KIND, YES};
use globset::{Candidate, Searcher};
use std::alloc::Global;

/// Makes a searcher of a set, which shares the keys and automata of the set, and lets the caller own it.
#[unsafe(no_mangle)]
pub extern "C" fn globset_raw_searcher_new(alloc: Global, set: &mut Lent, out: &mut Owned) -> Status
    // Only `out` changes, and only with DONE.
    ensures same_set { set.new ≡ set.old }
    ensures made { result ≡ DONE
        → IfSet (Some set.old.object)
        (λ s. IfSearcher out.new.object (λ searcher. searcher.set ≡ s)) }
    ensures nothing_found { result ≡ DONE
        → IfSearcher out.new.object (λ searcher. searcher.found ≡ []) }
    ensures refused { result ≢ DONE → out.new ≡ out.old }

    // Only these statuses come, and the kind decides whether WRONG_KIND does.
    ensures kind { (result ≡ WRONG_KIND) ↔ (¬ (IsSet (Some set.old.object))) }
    ensures statuses { IsOneOf (DONE ∷ OUT_OF_MEMORY ∷ WRONG_KIND ∷ []) result }
{
    let made = set.read(alloc, |object, alloc| match object {
        Object::Set(set) => match Searcher::new(alloc, set) {
            Ok(searcher) => Ok(Object::Searcher(searcher)),
            Err(_) => Err(Failure::OutOfMemory),
        },
        _ => Err(Failure::WrongKind),
    });
    give(alloc, made, out)
}

/// Returns whether some glob of a searcher's set matches a path.
#[unsafe(no_mangle)]
pub extern "C" fn globset_raw_searcher_is_match(searcher: &mut Owned, path: &[u8]) -> Status
    // The handle owns an object, which stays as it was. The answer is right.
    requires owned { IsSome searcher.old.object }
    ensures same_searcher { searcher.new.object ≡ searcher.old.object }
    ensures yes { result ≡ YES
        → IfSearcher searcher.old.object (λ s. matching_indexes (set_globs s.set) path.now ≢ []) }
    ensures no { result ≡ NO
        → IfSearcher searcher.old.object (λ s. matching_indexes (set_globs s.set) path.now ≡ []) }

    // Only these statuses come, and the kind decides whether WRONG_KIND does.
    ensures right_kind { IsSearcher searcher.old.object → result ≢ WRONG_KIND }
    ensures statuses { IsOneOf (NO ∷ YES ∷ WRONG_KIND ∷ []) result }
{
    match searcher.as_mut() {
        Object::Searcher(searcher) => is_match_in(searcher, path),
        _ => WRONG_KIND,
    }
}

/// Returns whether every glob of a searcher's set matches a path.
#[unsafe(no_mangle)]
pub extern "C" fn globset_raw_searcher_matches_all(searcher: &mut Owned, path: &[u8]) -> Status
    // The handle owns an object, which stays as it was. The answer is right.
    requires owned { IsSome searcher.old.object }
    ensures same_searcher { searcher.new.object ≡ searcher.old.object }
    ensures yes { result ≡ YES → IfSearcher searcher.old.object (λ s. IsAll s.set path.now) }
    ensures no { result ≡ NO → IfSearcher searcher.old.object (λ s. ¬ (IsAll s.set path.now)) }

    // Only these statuses come, and the kind decides whether WRONG_KIND does.
    ensures right_kind { IsSearcher searcher.old.object → result ≢ WRONG_KIND }
    ensures statuses { IsOneOf (NO ∷ YES ∷ WRONG_KIND ∷ []) result }
{
    match searcher.as_mut() {
        Object::Searcher(searcher) => matches_all_in(searcher, path),
        _ => WRONG_KIND,
    }
}

/// Finds the indexes of the globs of a searcher's set that match a path, keeps them in the searcher, and writes their number.
#[unsafe(no_mangle)]
pub extern "C" fn globset_raw_searcher_find(
    searcher: &mut Owned,
    path: &[u8],
    count: &mut usize,
) -> Status
    // `searcher` owns an object before the call and after it.
    requires owned { IsSome searcher.old.object }
    ensures owned { IsSome searcher.new.object }

    // With DONE the searcher keeps its set and gets the indexes, and otherwise nothing changes.
    ensures same_set { result ≡ DONE
        → IfSearchers searcher.old.object searcher.new.object (λ s t. t.set ≡ s.set) }
    ensures found { result ≡ DONE
        → IfSearchers searcher.old.object searcher.new.object
        (λ s t. t.found ≡ matching_indexes (set_globs s.set) path.now) }
    ensures count { result ≡ DONE → IfSearcher searcher.old.object (λ s.
        count.new ≡ length (matching_indexes (set_globs s.set) path.now)) }
    ensures kept { result ≢ DONE → searcher.new.object ≡ searcher.old.object }
    ensures refused { result ≢ DONE → count.new ≡ count.old }

    // The kind alone decides which status comes.
    ensures right_kind { IsSearcher searcher.old.object → result ≡ DONE }
    ensures statuses { IsOneOf (DONE ∷ WRONG_KIND ∷ []) result }
{
    match searcher.as_mut() {
        Object::Searcher(searcher) => {
            searcher.find(&Candidate::from_bytes(path));
            *count = searcher.found().len();
            DONE
        }
        _ => WRONG_KIND,
    }
}

/// Lends the indexes that the last `globset_raw_searcher_find` found, or none if there was no such call.
#[unsafe(no_mangle)]
pub extern "C" fn globset_raw_searcher_found<'a>(
    searcher: &'a mut Owned,
    indexes: &mut Indexes<'a>,
) -> Status
    requires owned { IsSome searcher.old.object }
    ensures found { result ≡ DONE
        → IfSearcher searcher.old.object (λ s. indexes.new.items.now ≡ s.found) }
    ensures empty_after_errors { result ≢ DONE → indexes.new.items.now ≡ [] }
    ensures right_kind { IsSearcher searcher.old.object → result ≡ DONE }
    ensures statuses { IsOneOf (DONE ∷ WRONG_KIND ∷ []) result }
{
    match searcher.as_mut() {
        Object::Searcher(searcher) => {
            indexes.items = searcher.found();
            DONE
        }
        _ => {
            indexes.items = &[];
            WRONG_KIND
        }
    }
}

/// Returns whether some glob of a searcher's set matches some path below a directory.
#[unsafe(no_mangle)]
pub extern "C" fn globset_raw_searcher_can_match_below(
    searcher: &mut Owned,
    folder: &[u8],
) -> Status
    // The handle owns an object, which stays as it was. The answer is right.
    requires owned { IsSome searcher.old.object }
    ensures same_searcher { searcher.new.object ≡ searcher.old.object }
    ensures yes { result ≡ YES
        → IfSearcher searcher.old.object (λ s. MatchesBelow (set_globs s.set) folder.now) }
    ensures no { result ≡ NO
        → IfSearcher searcher.old.object (λ s. ¬ (MatchesBelow (set_globs s.set) folder.now)) }

    // Only these statuses come, and the kind decides whether WRONG_KIND does.
    ensures right_kind { IsSearcher searcher.old.object → result ≢ WRONG_KIND }
    ensures statuses { IsOneOf (NO ∷ YES ∷ WRONG_KIND ∷ []) result }
{
    match searcher.as_mut() {
        Object::Searcher(searcher) => {
            if searcher.can_match_below(&Candidate::from_bytes(folder)) {
                YES
            } else {
                NO
            }
        }
        _ => WRONG_KIND,
    }
}
