//! Plain calls: on a set or a matcher alone. They allocate the memory that they need.

ghost use Rattle.std.specs.Prelude.{◌≡◌, ◌≢◌, ◌↔◌, Some, [], ◌∷◌, true, false};
ghost use Rattle.glob_text.specs.GlobMatches.{glob_matches};
ghost use Rattle.globset.specs.Answer.{matching_indexes};
ghost use Rattle.globset.specs.SetValue.{set_globs};
ghost use Rattle.c_objects.specs.Answers.{IsAll};
ghost use Rattle.c_objects.specs.Capacity.{IsWritten, IsTooLong};
ghost use Rattle.c_objects.specs.Kinds.{IfMatcher, IfSet, IsMatcher, IsSet};
ghost use Rattle.c_objects.specs.Statuses.{IsOneOf};

use c_objects::lent::Lent;
use c_objects::object::{Failure, Object};
use c_objects::sets::{is_match_in, matches_all_in};
use c_objects::slices;
use c_objects::status::{DONE, NO, OUT_OF_MEMORY, Status, TOO_SMALL, WRONG_KIND, YES};
use globset::Candidate;
use std::alloc::Global;

/// Returns whether the glob of a matcher matches a path.
#[unsafe(no_mangle)]
pub extern "C" fn globset_raw_matcher_is_match_plain(matcher: &mut Lent, path: &[u8]) -> Status
    // The answer is right, and the object stays as it was.
    ensures same_matcher { matcher.new ≡ matcher.old }
    ensures yes { result ≡ YES
        → IfMatcher (Some matcher.old.object) (λ m. glob_matches m path.now ≡ true) }
    ensures no { result ≡ NO
        → IfMatcher (Some matcher.old.object) (λ m. glob_matches m path.now ≡ false) }

    // Only these statuses come, and the kind decides whether WRONG_KIND does.
    ensures kind { (result ≡ WRONG_KIND) ↔ (¬ (IsMatcher (Some matcher.old.object))) }
    ensures statuses { IsOneOf (NO ∷ YES ∷ OUT_OF_MEMORY ∷ WRONG_KIND ∷ []) result }
{
    // The borrow checker has to be told the type that is lent, which nothing else here names.
    let _object: Option<&Object> = None;
    matcher.read(path, |object, path| match object {
        Object::Matcher(matcher) => match matcher.is_match_candidate(&Candidate::from_bytes(path)) {
            Ok(true) => YES,
            Ok(false) => NO,
            Err(_) => OUT_OF_MEMORY,
        },
        _ => WRONG_KIND,
    })
}

/// Returns whether some glob of a set matches a path.
#[unsafe(no_mangle)]
pub extern "C" fn globset_raw_set_is_match_plain(set: &mut Lent, path: &[u8]) -> Status
    // The answer is right, and the object stays as it was.
    ensures same_set { set.new ≡ set.old }
    ensures yes { result ≡ YES
        → IfSet (Some set.old.object) (λ s. matching_indexes (set_globs s) path.now ≢ []) }
    ensures no { result ≡ NO
        → IfSet (Some set.old.object) (λ s. matching_indexes (set_globs s) path.now ≡ []) }

    // Only these statuses come, and the kind decides whether WRONG_KIND does.
    ensures kind { (result ≡ WRONG_KIND) ↔ (¬ (IsSet (Some set.old.object))) }
    ensures statuses { IsOneOf (NO ∷ YES ∷ OUT_OF_MEMORY ∷ WRONG_KIND ∷ []) result }
{
    // The borrow checker has to be told the type that is lent, which nothing else here names.
    let _object: Option<&Object> = None;
    set.read(path, |object, path| match object {
        Object::Set(set) => is_match_in(set, path),
        _ => WRONG_KIND,
    })
}

/// Returns whether every glob of a set matches a path.
#[unsafe(no_mangle)]
pub extern "C" fn globset_raw_set_matches_all_plain(set: &mut Lent, path: &[u8]) -> Status
    // The answer is right, and the object stays as it was.
    ensures same_set { set.new ≡ set.old }
    ensures yes { result ≡ YES → IfSet (Some set.old.object) (λ s. IsAll s path.now) }
    ensures no { result ≡ NO → IfSet (Some set.old.object) (λ s. ¬ (IsAll s path.now)) }

    // Only these statuses come, and the kind decides whether WRONG_KIND does.
    ensures kind { (result ≡ WRONG_KIND) ↔ (¬ (IsSet (Some set.old.object))) }
    ensures statuses { IsOneOf (NO ∷ YES ∷ OUT_OF_MEMORY ∷ WRONG_KIND ∷ []) result }
{
    // The borrow checker has to be told the type that is lent, which nothing else here names.
    let _object: Option<&Object> = None;
    set.read(path, |object, path| match object {
        Object::Set(set) => matches_all_in(set, path),
        _ => WRONG_KIND,
    })
}

/// Writes the indexes of the globs of a set that match a path, and their number.
#[unsafe(no_mangle)]
pub extern "C" fn globset_raw_set_matches_plain(
    alloc: Global,
    set: &mut Lent,
    path: &[u8],
    room: &mut [usize],
    needed: &mut usize,
) -> Status
    // With DONE the call writes the indexes and their number, and with TOO_SMALL the number alone.
    ensures done { result ≡ DONE → IfSet (Some set.old.object) (λ s.
        IsWritten (matching_indexes (set_globs s) path.now) room.old room.new needed.new) }
    ensures too_small { result ≡ TOO_SMALL → IfSet (Some set.old.object) (λ s.
        IsTooLong (matching_indexes (set_globs s) path.now) room.old room.new needed.new) }

    // `set` never changes, `room` only with DONE, and `needed` only with DONE or TOO_SMALL.
    ensures same_set { set.new ≡ set.old }
    ensures refused { result ≢ DONE → room.new ≡ room.old }
    ensures same_needed { result ≢ DONE → result ≢ TOO_SMALL → needed.new ≡ needed.old }

    // Only these statuses come, and the kind decides whether WRONG_KIND does.
    ensures kind { (result ≡ WRONG_KIND) ↔ (¬ (IsSet (Some set.old.object))) }
    ensures statuses { IsOneOf (DONE ∷ OUT_OF_MEMORY ∷ WRONG_KIND ∷ TOO_SMALL ∷ []) result }
{
    // The borrow checker has to be told the type that is lent, which nothing else here names.
    let _object: Option<&Object> = None;
    let found = set.read((alloc, path), |object, (alloc, path)| match object {
        Object::Set(set) => match set.matches_candidate(alloc, &Candidate::from_bytes(path)) {
            Ok(indexes) => Ok(indexes),
            Err(_) => Err(Failure::OutOfMemory),
        },
        _ => Err(Failure::WrongKind),
    });
    match found {
        Ok(found) => slices::write(&found, room, needed),
        Err(failure) => failure.status(),
    }
}
