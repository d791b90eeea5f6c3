//! Builders of sets.

ghost use Rattle.std.specs.Prelude.{◌≡◌, ◌≢◌, ◌↔◌, Some, [], ◌∷◌, ◌++◌, IsSome};
ghost use Rattle.globset.specs.SetValue.{builder_globs, set_globs};
ghost use Rattle.c_objects.specs.Kinds.{IfBuilder, IfGlob, IfSet, IsBuilder, IsGlob};
ghost use Rattle.c_objects.specs.Statuses.{IsOneOf};

use c_objects::globs::copy_of;
use c_objects::lent::Lent;
use c_objects::object::Object;
use c_objects::owned::{Owned, hand_out};
use c_objects::status::{DONE, OUT_OF_MEMORY, Status, WRONG_KIND};
use globset::{GlobSet, GlobSetBuilder};
use std::alloc::Global;

/// Makes a builder that has no globs, and lets the caller own it.
#[unsafe(no_mangle)]
pub extern "C" fn globset_raw_builder_new(alloc: Global, out: &mut Owned) -> Status
    ensures made { result ≡ DONE → IfBuilder out.new.object (λ b. builder_globs b ≡ []) }
    ensures refused { result ≢ DONE → out.new ≡ out.old }
    ensures statuses { IsOneOf (DONE ∷ OUT_OF_MEMORY ∷ []) result }
{
    hand_out(alloc, Object::Builder(GlobSetBuilder::new(alloc)), out)
}

/// Adds a copy of a glob after the globs of a builder.
#[unsafe(no_mangle)]
pub extern "C" fn globset_raw_builder_add(builder: &mut Owned, glob: &mut Lent) -> Status
    // `builder` owns an object before the call and after it.
    requires owned { IsSome builder.old.object }
    ensures owned { IsSome builder.new.object }

    // Only `builder` changes, and only with DONE.
    ensures same_glob { glob.new ≡ glob.old }
    ensures added { result ≡ DONE → IfGlob (Some glob.old.object) (λ g.
        IfBuilder builder.old.object (λ b.
        IfBuilder builder.new.object (λ c. builder_globs c ≡ builder_globs b ++ g ∷ []))) }
    ensures kept { result ≢ DONE → builder.new.object ≡ builder.old.object }

    // Only these statuses come, and the kinds decide whether WRONG_KIND does.
    ensures right_kind { IsBuilder builder.old.object → IsGlob (Some glob.old.object)
        → result ≢ WRONG_KIND }
    ensures other_kind { ¬ (IsGlob (Some glob.old.object)) → result ≡ WRONG_KIND }
    ensures no_builder { ¬ (IsBuilder builder.old.object) → result ≡ WRONG_KIND }
    ensures statuses { IsOneOf (DONE ∷ OUT_OF_MEMORY ∷ WRONG_KIND ∷ []) result }
{
    let Object::Builder(builder) = builder.as_mut() else {
        return WRONG_KIND;
    };
    match glob.read((), |object, ()| copy_of(object)) {
        Ok(copy) => match builder.push(copy) {
            Ok(()) => DONE,
            Err(_) => OUT_OF_MEMORY,
        },
        Err(failure) => failure.status(),
    }
}

/// Makes the set of a builder's globs, which are moved into it, and lets the caller own it.
#[unsafe(no_mangle)]
pub extern "C" fn globset_raw_builder_build(
    alloc: Global,
    builder: &mut Owned,
    out: &mut Owned,
) -> Status
    // `builder` owns an object before the call and after it.
    requires owned { IsSome builder.old.object }
    ensures owned { IsSome builder.new.object }

    // With DONE the globs move into the set, and otherwise nothing changes.
    ensures built { result ≡ DONE → IfBuilder builder.old.object (λ b.
        IfSet out.new.object (λ s. set_globs s ≡ builder_globs b)) }
    ensures emptied { result ≡ DONE → IfBuilder builder.new.object (λ b. builder_globs b ≡ []) }
    ensures kept { result ≢ DONE → builder.new.object ≡ builder.old.object }
    ensures refused { result ≢ DONE → out.new ≡ out.old }

    // Only these statuses come, and the kind decides whether WRONG_KIND does.
    ensures kind { (result ≡ WRONG_KIND) ↔ (¬ (IsBuilder builder.old.object)) }
    ensures statuses { IsOneOf (DONE ∷ OUT_OF_MEMORY ∷ WRONG_KIND ∷ []) result }
{
    let Object::Builder(builder) = builder.as_mut() else {
        return WRONG_KIND;
    };
    // The set's place is made first, so that the globs are not lost if there is no memory for it.
    let Ok(boxed) = Box::new(alloc, Object::Set(GlobSet::empty())) else {
        return OUT_OF_MEMORY;
    };
    match builder.take_set() {
        Ok(set) => {
            let mut boxed = boxed;
            *boxed = Object::Set(set);
            *out = Owned::of(boxed);
            DONE
        }
        Err(_) => OUT_OF_MEMORY,
    }
}

/// Sets the limit on the bytes of rows that a set keeps between calls, for later sets of a builder.
#[unsafe(no_mangle)]
pub extern "C" fn globset_raw_builder_set_dfa_size_limit(
    builder: &mut Owned,
    bytes: usize,
) -> Status
    requires owned { IsSome builder.old.object }
    // The limit changes no answer, and contracts do not see it: it is no part of what a set is.
    ensures same_globs { builder.new.object ≡ builder.old.object }
    ensures right_kind { IsBuilder builder.old.object → result ≡ DONE }
    ensures other_kind { result ≡ DONE → IsBuilder builder.old.object }
    ensures statuses { IsOneOf (DONE ∷ WRONG_KIND ∷ []) result }
{
    match builder.as_mut() {
        Object::Builder(builder) => {
            builder.dfa_size_limit(bytes);
            DONE
        }
        _ => WRONG_KIND,
    }
}
