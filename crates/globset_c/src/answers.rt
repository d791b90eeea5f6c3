//! Answers to questions about globs and rules of ignore files.

ghost use Rattle.std.specs.Prelude.{◌≡◌, ◌≢◌, ◌↔◌, ◌≤◌, Some, [], ◌∷◌, IsSome, length, slice_get};
ghost use Rattle.c_objects.specs.Kinds.{IfAnswers, IsAnswers};
ghost use Rattle.c_objects.specs.Relations.{lines_told, told, a_path, below_ignored, no_path, limit_reached};
ghost use Rattle.c_objects.specs.Statuses.{IsOneOf};

use c_objects::answers::{Answer, answer_at, lines_of};
use c_objects::object::Object;
use c_objects::owned::Owned;
use c_objects::slices::{Bytes, Indexes};
use c_objects::status::{
    BAD_INDEX, BELOW_IGNORED, DONE, LIMIT_REACHED, NO, Status, WRONG_KIND, YES,
};

/// Lends what the answer of an index tells: a path, or the indexes of globs or rules where there is no such path.
#[unsafe(no_mangle)]
pub extern "C" fn globset_raw_answers_at<'a>(
    answers: &'a mut Owned,
    index: usize,
    path: &mut Bytes<'a>,
    indexes: &mut Indexes<'a>,
) -> Status
    // The handle owns an object. The status says what the answer of the index tells.
    requires owned { IsSome answers.old.object }
    ensures yes { result ≡ YES → IfAnswers answers.old.object (λ all.
        slice_get (told all) index ≡ Some (a_path path.new.items.now)) }
    ensures no { result ≡ NO → IfAnswers answers.old.object (λ all.
        slice_get (told all) index ≡ Some (no_path indexes.new.items.now)) }
    ensures below { result ≡ BELOW_IGNORED → IfAnswers answers.old.object (λ all.
        slice_get (told all) index ≡ Some (below_ignored indexes.new.items.now)) }
    ensures limit { result ≡ LIMIT_REACHED
        → IfAnswers answers.old.object (λ all. slice_get (told all) index ≡ Some limit_reached) }

    // The call lends a path only with YES, and indexes only with NO or BELOW_IGNORED.
    ensures empty_without_path { result ≢ YES → path.new.items.now ≡ [] }
    ensures empty_without_indexes { result ≢ NO → result ≢ BELOW_IGNORED
        → indexes.new.items.now ≡ [] }

    // Only these statuses come. The kind decides whether WRONG_KIND does, and the index whether BAD_INDEX does.
    ensures kind { (result ≡ WRONG_KIND) ↔ (¬ (IsAnswers answers.old.object)) }
    ensures bad_index { result ≡ BAD_INDEX
        → IfAnswers answers.old.object (λ all. length (told all) ≤ index) }
    ensures statuses { IsOneOf
        (NO ∷ YES ∷ WRONG_KIND ∷ LIMIT_REACHED ∷ BAD_INDEX ∷ BELOW_IGNORED ∷ []) result }
{
    path.items = &[];
    indexes.items = &[];
    let Object::Answers(all) = answers.as_mut() else {
        return WRONG_KIND;
    };
    match answer_at(all, index) {
        Some(Answer::Path(bytes)) => {
            path.items = bytes;
            YES
        }
        Some(Answer::NoPath(numbers)) => {
            indexes.items = numbers;
            NO
        }
        Some(Answer::BelowIgnored(numbers)) => {
            indexes.items = numbers;
            BELOW_IGNORED
        }
        Some(Answer::Unknown) => LIMIT_REACHED,
        None => BAD_INDEX,
    }
}

/// Lends the number of the line of each rule, of answers about the rules of an ignore file. Other answers have none.
#[unsafe(no_mangle)]
pub extern "C" fn globset_raw_answers_lines<'a>(
    answers: &'a mut Owned,
    lines: &mut Indexes<'a>,
) -> Status
    // The handle owns an object. The call lends numbers only with DONE.
    requires owned { IsSome answers.old.object }
    ensures lines { result ≡ DONE
        → IfAnswers answers.old.object (λ all. lines.new.items.now ≡ lines_told all) }
    ensures empty_after_errors { result ≢ DONE → lines.new.items.now ≡ [] }

    // Only these statuses come, and the kind decides whether WRONG_KIND does.
    ensures kind { (result ≡ WRONG_KIND) ↔ (¬ (IsAnswers answers.old.object)) }
    ensures statuses { IsOneOf (DONE ∷ WRONG_KIND ∷ []) result }
{
    lines.items = &[];
    let Object::Answers(all) = answers.as_mut() else {
        return WRONG_KIND;
    };
    lines.items = lines_of(all);
    DONE
}
