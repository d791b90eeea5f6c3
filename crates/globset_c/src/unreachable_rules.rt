//! Rules of ignore files that never decide.

ghost use Rattle.std.specs.Prelude.{◌≡◌, ◌≢◌, None, [], ◌∷◌, IsSome};
ghost use Rattle.git_ignore.specs.StackValue.{file_at};
ghost use Rattle.c_objects.specs.Kinds.{IfIgnore, IsIgnore};
ghost use Rattle.c_objects.specs.Relations.{AnswersRules, domain_of, IsDomain};
ghost use Rattle.c_objects.specs.Statuses.{IsOneOf};

use c_objects::answers::Answers;
use c_objects::object::Object;
use c_objects::owned::{Owned, hand_out};
use c_objects::relations::{answers_about, domain_of, is_domain};
use c_objects::status::{BAD_INDEX, DONE, OUT_OF_MEMORY, Status, UNKNOWN_OPTION, WRONG_KIND};
use std::alloc::Global;

/// Decides for each rule of an ignore file whether it ever decides, and lets the caller own the answers.
#[unsafe(no_mangle)]
pub extern "C" fn globset_raw_ignore_unreachable(
    alloc: Global,
    ignore: &mut Owned,
    file: usize,
    domain: u32,
    limit: usize,
    out: &mut Owned,
) -> Status
    // The handle owns an object. Only `out` changes, and only with DONE.
    requires owned { IsSome ignore.old.object }
    ensures same { ignore.new.object ≡ ignore.old.object }
    ensures told { result ≡ DONE
        → AnswersRules ignore.old.object file (domain_of domain) limit out.new.object }
    ensures refused { result ≢ DONE → out.new ≡ out.old }

    // The domain is looked at first, then the kind, and then the index.
    ensures unknown { result ≡ UNKNOWN_OPTION → ¬ (IsDomain domain) }
    ensures known { result ≢ UNKNOWN_OPTION → IsDomain domain }

    // Only these statuses come. The kind decides whether WRONG_KIND does, and the index whether BAD_INDEX does.
    ensures right_kind { IsIgnore ignore.old.object → result ≢ WRONG_KIND }
    ensures other_kind { IsDomain domain → ¬ (IsIgnore ignore.old.object) → result ≡ WRONG_KIND }
    ensures bad_index { result ≡ BAD_INDEX
        → IfIgnore ignore.old.object (λ s. file_at s file ≡ None) }
    ensures there { result ≡ OUT_OF_MEMORY
        → IfIgnore ignore.old.object (λ s. IsSome (file_at s file)) }
    ensures statuses { IsOneOf
        (DONE ∷ OUT_OF_MEMORY ∷ UNKNOWN_OPTION ∷ WRONG_KIND ∷ BAD_INDEX ∷ []) result }
{
    if !is_domain(domain) {
        return UNKNOWN_OPTION;
    }
    let Object::Ignore(stack) = ignore.as_mut() else {
        return WRONG_KIND;
    };
    let Some(bytes) = stack.file(file) else {
        return BAD_INDEX;
    };
    match answers_about(alloc, bytes, stack.ignores_case(), domain_of(domain), limit) {
        Ok(all) => hand_out(alloc, Object::Answers(Answers::Rules(all)), out),
        Err(_) => OUT_OF_MEMORY,
    }
}
