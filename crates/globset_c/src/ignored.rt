//! Whether a path is ignored, and by which rule.

ghost use Rattle.std.specs.Prelude.{◌≡◌, ◌≢◌, [], ◌∷◌, IsSome, false, true};
ghost use Rattle.c_objects.specs.Ignoring.{IsDecideBy, file_told, ignores, line_told, rule_for};
ghost use Rattle.c_objects.specs.Kinds.{IfIgnore, IsIgnore};
ghost use Rattle.c_objects.specs.Statuses.{IsOneOf};

use c_objects::ignored::{decide_by, tell};
use c_objects::object::Object;
use c_objects::owned::Owned;
use c_objects::status::{NO, OUT_OF_MEMORY, Status, UNKNOWN_OPTION, WRONG_KIND, YES};

/// Decides whether a path is ignored, and writes the file and the line of the rule that decides.
#[unsafe(no_mangle)]
pub extern "C" fn globset_raw_ignore_decide(
    ignore: &mut Owned,
    path: &[u8],
    is_folder: u32,
    by: u32,
    file: &mut usize,
    line: &mut usize,
) -> Status
    // The handle owns an object, which stays as it was. The answer is right.
    requires owned { IsSome ignore.old.object }
    ensures same { ignore.new.object ≡ ignore.old.object }
    ensures yes { result ≡ YES → IfIgnore ignore.old.object
        (λ s. ignores (rule_for s by path.now is_folder) ≡ true) }
    ensures no { result ≡ NO → IfIgnore ignore.old.object
        (λ s. ignores (rule_for s by path.now is_folder) ≡ false) }

    // With YES or NO the call writes the file and the line of the rule that decides, or 0 without one, and otherwise nothing.
    ensures file { IsOneOf (NO ∷ YES ∷ []) result → IfIgnore ignore.old.object
        (λ s. file.new ≡ file_told (rule_for s by path.now is_folder)) }
    ensures line { IsOneOf (NO ∷ YES ∷ []) result → IfIgnore ignore.old.object
        (λ s. line.new ≡ line_told (rule_for s by path.now is_folder)) }
    ensures same_file { ¬ (IsOneOf (NO ∷ YES ∷ []) result) → file.new ≡ file.old }
    ensures same_line { ¬ (IsOneOf (NO ∷ YES ∷ []) result) → line.new ≡ line.old }

    // The number is looked at first, and then the kind.
    ensures unknown { result ≡ UNKNOWN_OPTION → ¬ (IsDecideBy by) }
    ensures known { result ≢ UNKNOWN_OPTION → IsDecideBy by }

    // Only these statuses come, and the kind decides whether WRONG_KIND does.
    ensures right_kind { IsIgnore ignore.old.object → result ≢ WRONG_KIND }
    ensures other_kind { IsDecideBy by → ¬ (IsIgnore ignore.old.object) → result ≡ WRONG_KIND }
    ensures statuses { IsOneOf (NO ∷ YES ∷ OUT_OF_MEMORY ∷ UNKNOWN_OPTION ∷ WRONG_KIND ∷ []) result }
{
    if by > 2 {
        return UNKNOWN_OPTION;
    }
    match ignore.as_mut() {
        Object::Ignore(stack) => {
            match stack.deciding_rule(path, is_folder != 0, decide_by(by)) {
                Ok(rule) => tell(rule, file, line),
                Err(_) => OUT_OF_MEMORY,
            }
        }
        _ => WRONG_KIND,
    }
}
