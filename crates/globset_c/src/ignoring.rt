//! Walks with their ignore files.

ghost use Rattle.std.specs.Prelude.{◌≡◌, ◌≢◌, ◌↔◌, [], ◌∷◌, IsSome};
ghost use Rattle.git_ignore.specs.StackValue.{at_top, entered, left, with_file};
ghost use Rattle.c_objects.specs.Ignoring.{AreIgnoreOptions, ignores_case};
ghost use Rattle.c_objects.specs.Kinds.{IfIgnore, IfIgnores, IsIgnore};
ghost use Rattle.c_objects.specs.Statuses.{IsOneOf};

use c_objects::object::Object;
use c_objects::owned::{Owned, hand_out};
use c_objects::status::{DONE, OUT_OF_MEMORY, Status, UNKNOWN_OPTION, WRONG_KIND};
use git_ignore::RulesBuilder;
use std::alloc::Global;

/// The bit of the option to ignore case.
const IGNORE_CASE: u32 = 1;

/// Makes a walk in its top folder, without ignore files, and lets the caller own it.
#[unsafe(no_mangle)]
pub extern "C" fn globset_raw_ignore_new(alloc: Global, options: u32, out: &mut Owned) -> Status
    ensures made { result ≡ DONE → IfIgnore out.new.object (λ s. s ≡ at_top (ignores_case options)) }
    ensures refused { result ≢ DONE → out.new ≡ out.old }
    ensures unknown { result ≡ UNKNOWN_OPTION → ¬ (AreIgnoreOptions options) }
    ensures known { result ≢ UNKNOWN_OPTION → AreIgnoreOptions options }
    ensures statuses { IsOneOf (DONE ∷ OUT_OF_MEMORY ∷ UNKNOWN_OPTION ∷ []) result }
{
    if options > IGNORE_CASE {
        return UNKNOWN_OPTION;
    }
    let builder = RulesBuilder::new().ignore_case(options == IGNORE_CASE);
    hand_out(alloc, Object::Ignore(builder.build_stack(alloc)), out)
}

/// Sets the limit on the bytes of rows that an ignore file keeps between calls, for files that are added later.
#[unsafe(no_mangle)]
pub extern "C" fn globset_raw_ignore_set_dfa_size_limit(ignore: &mut Owned, bytes: usize) -> Status
    requires owned { IsSome ignore.old.object }
    // The limit changes no answer, and contracts do not see it: it is no part of what a walk is.
    ensures same_files { ignore.new.object ≡ ignore.old.object }
    ensures right_kind { IsIgnore ignore.old.object → result ≡ DONE }
    ensures other_kind { result ≡ DONE → IsIgnore ignore.old.object }
    ensures statuses { IsOneOf (DONE ∷ WRONG_KIND ∷ []) result }
{
    match ignore.as_mut() {
        Object::Ignore(stack) => {
            stack.set_dfa_size_limit(bytes);
            DONE
        }
        _ => WRONG_KIND,
    }
}

/// Adds an ignore file of the folder that a walk is in.
#[unsafe(no_mangle)]
pub extern "C" fn globset_raw_ignore_add_file(ignore: &mut Owned, file: &[u8]) -> Status
    // `ignore` owns an object before the call and after it, and the object changes only with DONE.
    requires owned { IsSome ignore.old.object }
    ensures owned { IsSome ignore.new.object }
    ensures added { result ≡ DONE
        → IfIgnores ignore.old.object ignore.new.object (λ s t. t ≡ with_file s file.now) }
    ensures kept { result ≢ DONE → ignore.new.object ≡ ignore.old.object }

    // Only these statuses come, and the kind decides whether WRONG_KIND does.
    ensures kind { (result ≡ WRONG_KIND) ↔ (¬ (IsIgnore ignore.old.object)) }
    ensures statuses { IsOneOf (DONE ∷ OUT_OF_MEMORY ∷ WRONG_KIND ∷ []) result }
{
    match ignore.as_mut() {
        Object::Ignore(stack) => match stack.add_file(file) {
            Ok(()) => DONE,
            Err(_) => OUT_OF_MEMORY,
        },
        _ => WRONG_KIND,
    }
}

/// Goes down into a folder.
#[unsafe(no_mangle)]
pub extern "C" fn globset_raw_ignore_enter(ignore: &mut Owned, name: &[u8]) -> Status
    // `ignore` owns an object before the call and after it, and the object changes only with DONE.
    requires owned { IsSome ignore.old.object }
    ensures owned { IsSome ignore.new.object }
    ensures entered { result ≡ DONE
        → IfIgnores ignore.old.object ignore.new.object (λ s t. t ≡ entered s name.now) }
    ensures kept { result ≢ DONE → ignore.new.object ≡ ignore.old.object }

    // Only these statuses come, and the kind decides whether WRONG_KIND does.
    ensures kind { (result ≡ WRONG_KIND) ↔ (¬ (IsIgnore ignore.old.object)) }
    ensures statuses { IsOneOf (DONE ∷ OUT_OF_MEMORY ∷ WRONG_KIND ∷ []) result }
{
    match ignore.as_mut() {
        Object::Ignore(stack) => match stack.enter(name) {
            Ok(()) => DONE,
            Err(_) => OUT_OF_MEMORY,
        },
        _ => WRONG_KIND,
    }
}

/// Goes up to the folder above, without the ignore files that were added since it was left.
#[unsafe(no_mangle)]
pub extern "C" fn globset_raw_ignore_leave(ignore: &mut Owned) -> Status
    // `ignore` owns an object before the call and after it, and the object changes only with DONE.
    requires owned { IsSome ignore.old.object }
    ensures owned { IsSome ignore.new.object }
    ensures left { result ≡ DONE
        → IfIgnores ignore.old.object ignore.new.object (λ s t. t ≡ left s) }
    ensures kept { result ≢ DONE → ignore.new.object ≡ ignore.old.object }

    // The kind alone decides which status comes.
    ensures right_kind { IsIgnore ignore.old.object → result ≡ DONE }
    ensures statuses { IsOneOf (DONE ∷ WRONG_KIND ∷ []) result }
{
    match ignore.as_mut() {
        Object::Ignore(stack) => {
            stack.leave();
            DONE
        }
        _ => WRONG_KIND,
    }
}
