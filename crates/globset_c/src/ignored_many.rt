//! Whether many paths are ignored, and by which rules.

ghost use Rattle.std.specs.Prelude.{◌≡◌, ◌≢◌, ◌⊎◌, [], ◌∷◌, IsSome, length};
ghost use Rattle.c_objects.specs.Ignoring.{IsDecideBy, decisions_for, rules_for};
ghost use Rattle.c_objects.specs.Kinds.{IfIgnore, IsIgnore};
ghost use Rattle.c_objects.specs.Paths.{AreEnds};
ghost use Rattle.c_objects.specs.Statuses.{IsOneOf};

use c_objects::ignored::{ToldRule, tell_many};
use c_objects::owned::Owned;
use c_objects::status::{BAD_ENDS, DONE, OUT_OF_MEMORY, Status, UNKNOWN_OPTION, WRONG_KIND};
use std::alloc::Global;

/// Writes for each path 0 if no rule decides, 1 if the rule ignores it, and 2 if the rule keeps it. A path that ends with `/` is of a
/// folder.
#[unsafe(no_mangle)]
pub extern "C" fn globset_raw_ignore_decide_many(
    alloc: Global,
    ignore: &mut Owned,
    paths: &[u8],
    ends: &[usize],
    by: u32,
    answers: &mut [u8],
) -> Status
    // The handle owns an object. Only `answers` changes, and only with DONE.
    requires owned { IsSome ignore.old.object }
    ensures same { ignore.new.object ≡ ignore.old.object }
    ensures answered { result ≡ DONE → IfIgnore ignore.old.object (λ s.
        answers.new ≡ decisions_for s by paths.now 0 ends.now) }
    ensures refused { result ≢ DONE → answers.new ≡ answers.old }

    // The number is looked at first, then the ends, and then the object.
    ensures unknown { result ≡ UNKNOWN_OPTION → ¬ (IsDecideBy by) }
    ensures known { result ≢ UNKNOWN_OPTION → IsDecideBy by }
    ensures in_order { IsDecideBy by → result ≢ BAD_ENDS → AreEnds (length paths.now) 0 ends.now }
    ensures one_for_each { IsDecideBy by → result ≢ BAD_ENDS
        → length ends.now ≡ length answers.old }
    ensures bad_ends { result ≡ BAD_ENDS →
        (length ends.now ≢ length answers.old) ⊎ (¬ (AreEnds (length paths.now) 0 ends.now)) }

    // Only these statuses come, and the kind decides whether WRONG_KIND does.
    ensures right_kind { IsIgnore ignore.old.object → result ≢ WRONG_KIND }
    ensures other_kind { IsDecideBy by → ¬ (IsIgnore ignore.old.object) → result ≢ BAD_ENDS
        → result ≡ WRONG_KIND }
    ensures statuses { IsOneOf
        (DONE ∷ OUT_OF_MEMORY ∷ UNKNOWN_OPTION ∷ WRONG_KIND ∷ BAD_ENDS ∷ []) result }
{
    tell_many(alloc, ignore.as_mut(), paths, ends, by, answers)
}

/// Writes for each path the rule that decides about it. A path that ends with `/` is of a folder.
#[unsafe(no_mangle)]
pub extern "C" fn globset_raw_ignore_rules_many(
    alloc: Global,
    ignore: &mut Owned,
    paths: &[u8],
    ends: &[usize],
    by: u32,
    rules: &mut [ToldRule],
) -> Status
    // The handle owns an object. Only `rules` changes, and only with DONE.
    requires owned { IsSome ignore.old.object }
    ensures same { ignore.new.object ≡ ignore.old.object }
    ensures told { result ≡ DONE → IfIgnore ignore.old.object (λ s.
        rules.new ≡ rules_for s by paths.now 0 ends.now) }
    ensures refused { result ≢ DONE → rules.new ≡ rules.old }

    // The number is looked at first, then the ends, and then the object.
    ensures unknown { result ≡ UNKNOWN_OPTION → ¬ (IsDecideBy by) }
    ensures known { result ≢ UNKNOWN_OPTION → IsDecideBy by }
    ensures in_order { IsDecideBy by → result ≢ BAD_ENDS → AreEnds (length paths.now) 0 ends.now }
    ensures one_for_each { IsDecideBy by → result ≢ BAD_ENDS → length ends.now ≡ length rules.old }
    ensures bad_ends { result ≡ BAD_ENDS →
        (length ends.now ≢ length rules.old) ⊎ (¬ (AreEnds (length paths.now) 0 ends.now)) }

    // Only these statuses come, and the kind decides whether WRONG_KIND does.
    ensures right_kind { IsIgnore ignore.old.object → result ≢ WRONG_KIND }
    ensures other_kind { IsDecideBy by → ¬ (IsIgnore ignore.old.object) → result ≢ BAD_ENDS
        → result ≡ WRONG_KIND }
    ensures statuses { IsOneOf
        (DONE ∷ OUT_OF_MEMORY ∷ UNKNOWN_OPTION ∷ WRONG_KIND ∷ BAD_ENDS ∷ []) result }
{
    tell_many(alloc, ignore.as_mut(), paths, ends, by, rules)
}
