//! Questions about globs.

ghost use Rattle.std.specs.Prelude.{◌≡◌, ◌≢◌, Some, [], ◌∷◌, length};
ghost use Rattle.c_objects.specs.Kinds.{IsGlob};
ghost use Rattle.c_objects.specs.LentGlobs.{AreGlobs, lent_globs};
ghost use Rattle.c_objects.specs.Relations.{AnswersCovering, AnswersOverlap, AnswersUnreachable, decides_of, domain_of, IfReachabilities, IsDecides, IsDomain};
ghost use Rattle.c_objects.specs.Statuses.{IsOneOf};

use c_objects::lent::Lent;
use c_objects::owned::{Owned, give};
use c_objects::relations::{
    answer_covering, answer_overlap, answer_unreachable, decides_of, domain_of, is_decides,
    is_domain,
};
use c_objects::status::{DONE, OUT_OF_MEMORY, Status, UNKNOWN_OPTION, WRONG_KIND};
use std::alloc::Global;

/// Decides whether globs cover a glob, and lets the caller own the answer.
#[unsafe(no_mangle)]
pub extern "C" fn globset_raw_covering(
    alloc: Global,
    glob: &mut Lent,
    by: &mut [Lent],
    domain: u32,
    limit: usize,
    out: &mut Owned,
) -> Status
    // Only `out` changes, and only with DONE.
    ensures same_glob { glob.new ≡ glob.old }
    ensures same_globs { by.new ≡ by.old }
    ensures told { result ≡ DONE
        → AnswersCovering glob.old.object (lent_globs by.old) (domain_of domain) limit
        out.new.object }
    ensures refused { result ≢ DONE → out.new ≡ out.old }

    // The domain is looked at first, and then the kinds.
    ensures unknown { result ≡ UNKNOWN_OPTION → ¬ (IsDomain domain) }
    ensures known { result ≢ UNKNOWN_OPTION → IsDomain domain }

    // Only these statuses come, and the kinds decide whether WRONG_KIND does.
    ensures right_kind { IsGlob (Some glob.old.object) → AreGlobs by.old → result ≢ WRONG_KIND }
    ensures other_kind { IsDomain domain → ¬ (IsGlob (Some glob.old.object))
        → result ≡ WRONG_KIND }
    ensures other_kinds { IsDomain domain → ¬ (AreGlobs by.old) → result ≡ WRONG_KIND }
    ensures statuses { IsOneOf (DONE ∷ OUT_OF_MEMORY ∷ UNKNOWN_OPTION ∷ WRONG_KIND ∷ []) result }
{
    if !is_domain(domain) {
        return UNKNOWN_OPTION;
    }
    let answered = answer_covering(alloc, glob, by, domain_of(domain), limit);
    give(alloc, answered, out)
}

/// Decides whether two globs match some path in common, and lets the caller own the answer.
#[unsafe(no_mangle)]
pub extern "C" fn globset_raw_overlap(
    alloc: Global,
    a: &mut Lent,
    b: &mut Lent,
    domain: u32,
    limit: usize,
    out: &mut Owned,
) -> Status
    // Only `out` changes, and only with DONE.
    ensures same_a { a.new ≡ a.old }
    ensures same_b { b.new ≡ b.old }
    ensures told { result ≡ DONE
        → AnswersOverlap a.old.object b.old.object (domain_of domain) limit out.new.object }
    ensures refused { result ≢ DONE → out.new ≡ out.old }

    // The domain is looked at first, and then the kinds.
    ensures unknown { result ≡ UNKNOWN_OPTION → ¬ (IsDomain domain) }
    ensures known { result ≢ UNKNOWN_OPTION → IsDomain domain }

    // Only these statuses come, and the kinds decide whether WRONG_KIND does.
    ensures right_kind { IsGlob (Some a.old.object) → IsGlob (Some b.old.object)
        → result ≢ WRONG_KIND }
    ensures a_of_other_kind { IsDomain domain → ¬ (IsGlob (Some a.old.object))
        → result ≡ WRONG_KIND }
    ensures b_of_other_kind { IsDomain domain → ¬ (IsGlob (Some b.old.object))
        → result ≡ WRONG_KIND }
    ensures statuses { IsOneOf (DONE ∷ OUT_OF_MEMORY ∷ UNKNOWN_OPTION ∷ WRONG_KIND ∷ []) result }
{
    if !is_domain(domain) {
        return UNKNOWN_OPTION;
    }
    let answered = answer_overlap(alloc, a, b, domain_of(domain), limit);
    give(alloc, answered, out)
}

/// Decides for each glob of a list whether it ever decides, and lets the caller own the answers.
#[unsafe(no_mangle)]
pub extern "C" fn globset_raw_unreachable(
    alloc: Global,
    globs: &mut [Lent],
    decides: u32,
    domain: u32,
    limit: usize,
    out: &mut Owned,
) -> Status
    // Only `out` changes, and only with DONE.
    ensures same_globs { globs.new ≡ globs.old }
    ensures len { result ≡ DONE
        → IfReachabilities out.new.object (λ told. length told ≡ length globs.old) }
    ensures each { result ≡ DONE
        → AnswersUnreachable (lent_globs globs.old) (decides_of decides) (domain_of domain) limit
        out.new.object }
    ensures refused { result ≢ DONE → out.new ≡ out.old }

    // The numbers are looked at first, and then the kinds.
    ensures unknown { result ≡ UNKNOWN_OPTION → IsDecides decides → ¬ (IsDomain domain) }
    ensures known { result ≢ UNKNOWN_OPTION → IsDecides decides × IsDomain domain }

    // Only these statuses come, and the kinds decide whether WRONG_KIND does.
    ensures right_kind { AreGlobs globs.old → result ≢ WRONG_KIND }
    ensures other_kind { IsDecides decides → IsDomain domain → ¬ (AreGlobs globs.old)
        → result ≡ WRONG_KIND }
    ensures statuses { IsOneOf (DONE ∷ OUT_OF_MEMORY ∷ UNKNOWN_OPTION ∷ WRONG_KIND ∷ []) result }
{
    if !is_decides(decides) || !is_domain(domain) {
        return UNKNOWN_OPTION;
    }
    let answered = answer_unreachable(alloc, globs, decides_of(decides), domain_of(domain), limit);
    give(alloc, answered, out)
}
