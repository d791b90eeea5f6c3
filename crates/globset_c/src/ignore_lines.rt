//! Lines of the ignore files of a walk.

ghost use Rattle.std.specs.Option.{option_and_then, option_map};
ghost use Rattle.std.specs.Prelude.{◌≡◌, ◌≢◌, ◌↔◌, None, Some, [], ◌∷◌, IsSome};
ghost use Rattle.git_ignore.specs.Rules.{line_text_at, unread_lines_of};
ghost use Rattle.git_ignore.specs.StackValue.{file_at};
ghost use Rattle.c_objects.specs.Kinds.{IfIgnore, IsIgnore};
ghost use Rattle.c_objects.specs.Statuses.{IsOneOf};

use c_objects::object::Object;
use c_objects::owned::Owned;
use c_objects::slices::{Bytes, Indexes};
use c_objects::status::{BAD_INDEX, DONE, Status, WRONG_KIND};

/// Lends the numbers of the lines of an ignore file that git cannot read.
#[unsafe(no_mangle)]
pub extern "C" fn globset_raw_ignore_unread_lines<'a>(
    ignore: &'a mut Owned,
    file: usize,
    lines: &mut Indexes<'a>,
) -> Status
    // The handle owns an object. The call lends numbers only with DONE.
    requires owned { IsSome ignore.old.object }
    ensures lines { result ≡ DONE → IfIgnore ignore.old.object
        (λ s. option_map unread_lines_of (file_at s file) ≡ Some lines.new.items.now) }
    ensures empty_after_errors { result ≢ DONE → lines.new.items.now ≡ [] }

    // Only these statuses come. The kind decides whether WRONG_KIND does, and the index whether BAD_INDEX does.
    ensures kind { (result ≡ WRONG_KIND) ↔ (¬ (IsIgnore ignore.old.object)) }
    ensures bad_index { result ≡ BAD_INDEX
        → IfIgnore ignore.old.object (λ s. file_at s file ≡ None) }
    ensures statuses { IsOneOf (DONE ∷ BAD_INDEX ∷ WRONG_KIND ∷ []) result }
{
    lines.items = &[];
    let Object::Ignore(stack) = ignore.as_mut() else {
        return WRONG_KIND;
    };
    match stack.unread_lines(file) {
        Some(numbers) => {
            lines.items = numbers;
            DONE
        }
        None => BAD_INDEX,
    }
}

/// Lends the text of a line of an ignore file.
#[unsafe(no_mangle)]
pub extern "C" fn globset_raw_ignore_line_text<'a>(
    ignore: &'a mut Owned,
    file: usize,
    line: usize,
    text: &mut Bytes<'a>,
) -> Status
    // The handle owns an object. The call lends a text only with DONE.
    requires owned { IsSome ignore.old.object }
    ensures text { result ≡ DONE → IfIgnore ignore.old.object
        (λ s. option_and_then (λ bytes. line_text_at bytes line) (file_at s file)
        ≡ Some text.new.items.now) }
    ensures empty_after_errors { result ≢ DONE → text.new.items.now ≡ [] }

    // Only these statuses come. The kind decides whether WRONG_KIND does, and the file and the line whether BAD_INDEX does.
    ensures kind { (result ≡ WRONG_KIND) ↔ (¬ (IsIgnore ignore.old.object)) }
    ensures bad_index { result ≡ BAD_INDEX → IfIgnore ignore.old.object
        (λ s. option_and_then (λ bytes. line_text_at bytes line) (file_at s file) ≡ None) }
    ensures statuses { IsOneOf (DONE ∷ BAD_INDEX ∷ WRONG_KIND ∷ []) result }
{
    text.items = &[];
    let Object::Ignore(stack) = ignore.as_mut() else {
        return WRONG_KIND;
    };
    match stack.line_text(file, line) {
        Some(bytes) => {
            text.items = bytes;
            DONE
        }
        None => BAD_INDEX,
    }
}
