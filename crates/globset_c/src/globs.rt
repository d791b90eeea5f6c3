//! Globs: reading one, what it has, and escaping a text.

ghost use Rattle.std.specs.Prelude.{◌≡◌, ◌≢◌, ◌↔◌, Some, [], ◌∷◌};
ghost use Rattle.std.specs.Str.{IsUtf8};
ghost use Rattle.glob_text.specs.GlobMatches.{tokens_of_glob, IsRead};
ghost use Rattle.glob_text.specs.RegexText.{regex_text};
ghost use Rattle.c_objects.specs.Errors.{IsErrorOf};
ghost use Rattle.c_objects.specs.Kinds.{IfGlob, IsGlob};
ghost use Rattle.c_objects.specs.Options.{glob_of, options_of, IsKnown};
ghost use Rattle.c_objects.specs.Capacity.{IsWritten, IsTooLong};
ghost use Rattle.c_objects.specs.Statuses.{IsOneOf};
ghost use Rattle.glob_text.specs.Escape.{escaped};

use c_objects::error::{TextError, told};
use c_objects::globs::{Unread, read};
use c_objects::lent::Lent;
use c_objects::object::{Failure, Object};
use c_objects::owned::{Owned, hand_out};
use c_objects::read_glob::ReadGlob;
use c_objects::slices;
use c_objects::status::{
    DONE, NOT_UTF8, OUT_OF_MEMORY, REJECTED, Status, TOO_SMALL, UNKNOWN_OPTION, WRONG_KIND,
};
use globset::Glob;
use std::alloc::Global;

/// Reads a glob, and lets the caller own it.
#[unsafe(no_mangle)]
pub extern "C" fn globset_raw_glob_new(
    alloc: Global,
    text: &[u8],
    options: u32,
    error: &mut TextError,
    out: &mut Owned,
) -> Status
    // Only a text without errors becomes a glob, and `error` tells the first error of a rejected text.
    ensures made { result ≡ DONE → IfGlob out.new.object (λ g. g ≡ glob_of text.now options) }
    ensures no_error { result ≡ DONE → IsRead (glob_of text.now options) }
    ensures rejected { result ≡ REJECTED → IsErrorOf text.now options error.new }

    // `out` changes only with DONE, and `error` only with REJECTED.
    ensures refused { result ≢ DONE → out.new ≡ out.old }
    ensures same_error { result ≢ REJECTED → error.new ≡ error.old }

    // The options are looked at first, and then the bytes. Only these statuses come.
    ensures unknown { result ≡ UNKNOWN_OPTION → ¬ (IsKnown options) }
    ensures known { result ≢ UNKNOWN_OPTION → IsKnown options }
    ensures not_utf8 { result ≡ NOT_UTF8 → ¬ (IsUtf8 text.now) }
    ensures utf8 { result ≢ UNKNOWN_OPTION → result ≢ NOT_UTF8 → IsUtf8 text.now }
    ensures statuses { IsOneOf (DONE ∷ OUT_OF_MEMORY ∷ REJECTED ∷ NOT_UTF8 ∷ UNKNOWN_OPTION ∷ [])
        result }
{
    match read(alloc, text, options) {
        Ok(Ok(glob)) => hand_out(alloc, Object::Glob(ReadGlob::of(glob, options)), out),
        Ok(Err(parse_error)) => match told(&parse_error) {
            Some(told) => {
                *error = told;
                REJECTED
            }
            None => OUT_OF_MEMORY,
        },
        Err(Unread::NotUtf8) => NOT_UTF8,
        Err(Unread::UnknownOption) => UNKNOWN_OPTION,
    }
}

/// Writes a regular expression that matches the paths that the glob matches.
#[unsafe(no_mangle)]
pub extern "C" fn globset_raw_glob_regex(
    alloc: Global,
    glob: &mut Lent,
    room: &mut [u8],
    needed: &mut usize,
) -> Status
    // With DONE the call writes a text and its length, and with TOO_SMALL the length alone.
    ensures done { result ≡ DONE → IfGlob (Some glob.old.object) (λ g.
        IsWritten (regex_text g.options (tokens_of_glob g)) room.old room.new needed.new) }
    ensures too_small { result ≡ TOO_SMALL → IfGlob (Some glob.old.object) (λ g.
        IsTooLong (regex_text g.options (tokens_of_glob g)) room.old room.new needed.new) }

    // `glob` never changes, `room` only with DONE, and `needed` only with DONE or TOO_SMALL.
    ensures same_glob { glob.new ≡ glob.old }
    ensures refused { result ≢ DONE → room.new ≡ room.old }
    ensures same_needed { result ≢ DONE → result ≢ TOO_SMALL → needed.new ≡ needed.old }

    // Only these statuses come, and the kind decides whether WRONG_KIND does.
    ensures kind { (result ≡ WRONG_KIND) ↔ (¬ (IsGlob (Some glob.old.object))) }
    ensures statuses { IsOneOf (DONE ∷ OUT_OF_MEMORY ∷ WRONG_KIND ∷ TOO_SMALL ∷ []) result }
{
    // The borrow checker has to be told the type that is lent, which nothing else here names.
    let _object: Option<&Object> = None;
    let copied = glob.read(alloc, |object, alloc| match object {
        Object::Glob(glob) => match String::from_str(alloc, glob.glob().regex()) {
            Ok(regex) => Ok(regex),
            Err(_) => Err(Failure::OutOfMemory),
        },
        _ => Err(Failure::WrongKind),
    });
    match copied {
        Ok(regex) => slices::write(regex.as_bytes(), room, needed),
        Err(failure) => failure.status(),
    }
}

/// Writes the text that a glob was read from.
#[unsafe(no_mangle)]
pub extern "C" fn globset_raw_glob_text(
    alloc: Global,
    glob: &mut Lent,
    room: &mut [u8],
    needed: &mut usize,
) -> Status
    // With DONE the call writes a text and its length, and with TOO_SMALL the length alone.
    ensures done { result ≡ DONE
        → IfGlob (Some glob.old.object) (λ g. IsWritten g.text room.old room.new needed.new) }
    ensures too_small { result ≡ TOO_SMALL
        → IfGlob (Some glob.old.object) (λ g. IsTooLong g.text room.old room.new needed.new) }

    // `glob` never changes, `room` only with DONE, and `needed` only with DONE or TOO_SMALL.
    ensures same_glob { glob.new ≡ glob.old }
    ensures refused { result ≢ DONE → room.new ≡ room.old }
    ensures same_needed { result ≢ DONE → result ≢ TOO_SMALL → needed.new ≡ needed.old }

    // Only these statuses come, and the kind decides whether WRONG_KIND does.
    ensures kind { (result ≡ WRONG_KIND) ↔ (¬ (IsGlob (Some glob.old.object))) }
    ensures statuses { IsOneOf (DONE ∷ OUT_OF_MEMORY ∷ WRONG_KIND ∷ TOO_SMALL ∷ []) result }
{
    // The borrow checker has to be told the type that is lent, which nothing else here names.
    let _object: Option<&Object> = None;
    let copied = glob.read(alloc, |object, alloc| match object {
        Object::Glob(glob) => match String::from_str(alloc, glob.glob().glob()) {
            Ok(copy) => Ok(copy),
            Err(_) => Err(Failure::OutOfMemory),
        },
        _ => Err(Failure::WrongKind),
    });
    match copied {
        Ok(copy) => slices::write(copy.as_bytes(), room, needed),
        Err(failure) => failure.status(),
    }
}

/// Writes the options of a glob, as bits.
#[unsafe(no_mangle)]
pub extern "C" fn globset_raw_glob_options(glob: &mut Lent, options: &mut u32) -> Status
    // Only `options` changes, and only with DONE.
    ensures same_glob { glob.new ≡ glob.old }
    ensures options { result ≡ DONE
        → IfGlob (Some glob.old.object) (λ g. options_of options.new ≡ g.options) }
    ensures known { result ≡ DONE → IsKnown options.new }
    ensures refused { result ≢ DONE → options.new ≡ options.old }

    // The kind alone decides which status comes.
    ensures right_kind { IsGlob (Some glob.old.object) → result ≡ DONE }
    ensures statuses { IsOneOf (DONE ∷ WRONG_KIND ∷ []) result }
{
    // The borrow checker has to be told the type that is lent, which nothing else here names.
    let _object: Option<&Object> = None;
    let bits = glob.read((), |object, ()| match object {
        Object::Glob(glob) => Some(glob.options()),
        _ => None,
    });
    match bits {
        Some(bits) => {
            *options = bits;
            DONE
        }
        None => WRONG_KIND,
    }
}

/// Writes the text with each character that is special in globs in brackets.
#[unsafe(no_mangle)]
pub extern "C" fn globset_raw_escape(
    alloc: Global,
    text: &[u8],
    room: &mut [u8],
    needed: &mut usize,
) -> Status
    // With DONE the call writes a text and its length, and with TOO_SMALL the length alone.
    ensures done { result ≡ DONE → IsWritten (escaped text.now) room.old room.new needed.new }
    ensures too_small { result ≡ TOO_SMALL
        → IsTooLong (escaped text.now) room.old room.new needed.new }

    // `room` changes only with DONE, and `needed` only with DONE or TOO_SMALL.
    ensures refused { result ≢ DONE → room.new ≡ room.old }
    ensures same_needed { result ≢ DONE → result ≢ TOO_SMALL → needed.new ≡ needed.old }

    // Only these statuses come, and the bytes decide whether NOT_UTF8 does.
    ensures not_utf8 { result ≡ NOT_UTF8 → ¬ (IsUtf8 text.now) }
    ensures utf8 { result ≢ NOT_UTF8 → IsUtf8 text.now }
    ensures statuses { IsOneOf (DONE ∷ OUT_OF_MEMORY ∷ NOT_UTF8 ∷ TOO_SMALL ∷ []) result }
{
    let Ok(text) = std::str::from_utf8(text) else {
        return NOT_UTF8;
    };
    match globset::escape(alloc, text) {
        Ok(escaped) => slices::write(escaped.as_bytes(), room, needed),
        Err(_) => OUT_OF_MEMORY,
    }
}
