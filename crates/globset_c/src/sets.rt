//! Sets of globs that are lent, and how many globs a set has.

ghost use Rattle.std.specs.Prelude.{◌≡◌, ◌≢◌, ◌↔◌, Some, [], ◌∷◌, length};
ghost use Rattle.globset.specs.SetValue.{set_globs};
ghost use Rattle.c_objects.specs.Kinds.{IfSet, IsSet};
ghost use Rattle.c_objects.specs.LentGlobs.{AreGlobs, lent_globs};
ghost use Rattle.c_objects.specs.Statuses.{IsOneOf};

use c_objects::globs::are_globs;
use c_objects::lent::Lent;
use c_objects::object::Object;
use c_objects::owned::{Owned, hand_out};
use c_objects::sets::set_of;
use c_objects::status::{DONE, OUT_OF_MEMORY, Status, WRONG_KIND};
use std::alloc::Global;

/// Makes the set of globs that are lent, in their order, and lets the caller own it. The globs are read, and not copied.
#[unsafe(no_mangle)]
pub extern "C" fn globset_raw_set_of_globs(
    alloc: Global,
    globs: &mut [Lent],
    out: &mut Owned,
) -> Status
    // Only `out` changes, and only with DONE.
    ensures same_globs { globs.new ≡ globs.old }
    ensures made { result ≡ DONE → IfSet out.new.object (λ s. set_globs s ≡ lent_globs globs.old) }
    ensures refused { result ≢ DONE → out.new ≡ out.old }

    // Only these statuses come, and the kinds decide whether WRONG_KIND does.
    ensures kind { (result ≡ WRONG_KIND) ↔ (¬ (AreGlobs globs.old)) }
    ensures statuses { IsOneOf (DONE ∷ OUT_OF_MEMORY ∷ WRONG_KIND ∷ []) result }
{
    if !are_globs(globs) {
        return WRONG_KIND;
    }
    let Ok(set) = set_of(alloc, globs) else {
        return OUT_OF_MEMORY;
    };
    hand_out(alloc, Object::Set(set), out)
}

/// Writes the number of globs of a set.
#[unsafe(no_mangle)]
pub extern "C" fn globset_raw_set_len(set: &mut Lent, len: &mut usize) -> Status
    ensures same_set { set.new ≡ set.old }
    ensures len { result ≡ DONE
        → IfSet (Some set.old.object) (λ s. len.new ≡ length (set_globs s)) }
    ensures refused { result ≢ DONE → len.new ≡ len.old }
    ensures right_kind { IsSet (Some set.old.object) → result ≡ DONE }
    ensures statuses { IsOneOf (DONE ∷ WRONG_KIND ∷ []) result }
{
    // The borrow checker has to be told the type that is lent, which nothing else here names.
    let _object: Option<&Object> = None;
    let found = set.read((), |object, ()| match object {
        Object::Set(set) => Some(set.len()),
        _ => None,
    });
    match found {
        Some(count) => {
            *len = count;
            DONE
        }
        None => WRONG_KIND,
    }
}
