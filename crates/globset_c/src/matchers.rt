//! Matchers of a glob, and searchers of these: matchers, each with the memory for a thread.

ghost use Rattle.std.specs.Prelude.{◌≡◌, ◌≢◌, ◌↔◌, Some, [], ◌∷◌, true, false, IsSome};
ghost use Rattle.c_objects.specs.Kinds.{IfGlob, IfMatcher, IsGlob, IfMatcherSearcher, IsMatcher, IsMatcherSearcher};
ghost use Rattle.c_objects.specs.Statuses.{IsOneOf};
ghost use Rattle.glob_text.specs.GlobMatches.{glob_matches};

use c_objects::lent::Lent;
use c_objects::object::{Failure, Object};
use c_objects::owned::{Owned, give};
use c_objects::status::{DONE, NO, OUT_OF_MEMORY, Status, WRONG_KIND, YES};
use globset::{Candidate, MatcherSearcher};
use std::alloc::Global;

/// Makes the matcher of a glob, and lets the caller own it.
#[unsafe(no_mangle)]
pub extern "C" fn globset_raw_matcher_new(alloc: Global, glob: &mut Lent, out: &mut Owned) -> Status
    // Only `out` changes, and only with DONE.
    ensures same_glob { glob.new ≡ glob.old }
    ensures made { result ≡ DONE
        → IfGlob (Some glob.old.object) (λ g. IfMatcher out.new.object (λ m. m ≡ g)) }
    ensures refused { result ≢ DONE → out.new ≡ out.old }

    // Only these statuses come, and the kind decides whether WRONG_KIND does.
    ensures kind { (result ≡ WRONG_KIND) ↔ (¬ (IsGlob (Some glob.old.object))) }
    ensures statuses { IsOneOf (DONE ∷ OUT_OF_MEMORY ∷ WRONG_KIND ∷ []) result }
{
    let made = glob.read((), |object, ()| match object {
        Object::Glob(glob) => match glob.glob().compile_matcher() {
            Ok(matcher) => Ok(Object::Matcher(matcher)),
            Err(_) => Err(Failure::OutOfMemory),
        },
        _ => Err(Failure::WrongKind),
    });
    give(alloc, made, out)
}

/// Makes a searcher of a matcher, which shares the automaton of the matcher, and lets the caller own it.
#[unsafe(no_mangle)]
pub extern "C" fn globset_raw_matcher_searcher_new(
    alloc: Global,
    matcher: &mut Lent,
    out: &mut Owned,
) -> Status
    // Only `out` changes, and only with DONE.
    ensures same_matcher { matcher.new ≡ matcher.old }
    ensures made { result ≡ DONE
        → IfMatcher (Some matcher.old.object)
        (λ m. IfMatcherSearcher out.new.object (λ searcher. searcher ≡ m)) }
    ensures refused { result ≢ DONE → out.new ≡ out.old }

    // Only these statuses come, and the kind decides whether WRONG_KIND does.
    ensures kind { (result ≡ WRONG_KIND) ↔ (¬ (IsMatcher (Some matcher.old.object))) }
    ensures statuses { IsOneOf (DONE ∷ OUT_OF_MEMORY ∷ WRONG_KIND ∷ []) result }
{
    let made = matcher.read(alloc, |object, alloc| match object {
        Object::Matcher(matcher) => match MatcherSearcher::new(alloc, matcher) {
            Ok(searcher) => Ok(Object::MatcherSearcher(searcher)),
            Err(_) => Err(Failure::OutOfMemory),
        },
        _ => Err(Failure::WrongKind),
    });
    give(alloc, made, out)
}

/// Returns whether the glob of a searcher's matcher matches a path.
#[unsafe(no_mangle)]
pub extern "C" fn globset_raw_matcher_searcher_is_match(searcher: &mut Owned, path: &[u8]) -> Status
    // The handle owns an object, which stays as it was. The answer is right.
    requires owned { IsSome searcher.old.object }
    ensures same_searcher { searcher.new.object ≡ searcher.old.object }
    ensures yes { result ≡ YES
        → IfMatcherSearcher searcher.old.object (λ m. glob_matches m path.now ≡ true) }
    ensures no { result ≡ NO
        → IfMatcherSearcher searcher.old.object (λ m. glob_matches m path.now ≡ false) }

    // Only these statuses come, and the kind decides whether WRONG_KIND does.
    ensures right_kind { IsMatcherSearcher searcher.old.object → result ≢ WRONG_KIND }
    ensures statuses { IsOneOf (NO ∷ YES ∷ WRONG_KIND ∷ []) result }
{
    match searcher.as_mut() {
        Object::MatcherSearcher(searcher) => {
            if searcher.is_match(&Candidate::from_bytes(path)) {
                YES
            } else {
                NO
            }
        }
        _ => WRONG_KIND,
    }
}
