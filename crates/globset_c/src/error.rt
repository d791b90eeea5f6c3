//! Errors of texts, and what they say.

ghost use Rattle.std.specs.Prelude.{◌≡◌, ◌≢◌, [], ◌∷◌};
ghost use Rattle.c_objects.specs.Errors.{IfTold, IsTold};
ghost use Rattle.std.specs.Str.{IsUtf8};
ghost use Rattle.glob_text.specs.declared.error.ErrorKind.{ErrorKind};
ghost use Rattle.c_objects.specs.Capacity.{IsWritten, IsTooLong};
ghost use Rattle.c_objects.specs.Statuses.{IsOneOf};

use c_objects::error::{TextError, kind_told, said};
use c_objects::slices;
use c_objects::status::{DONE, NO, NOT_UTF8, OUT_OF_MEMORY, Status, TOO_SMALL};
use std::alloc::Global;

/// Writes what an error says that `globset_raw_glob_new` told of a text. The text is not read as a glob again.
#[unsafe(no_mangle)]
pub extern "C" fn globset_raw_error_text(
    alloc: Global,
    error: &TextError,
    text: &[u8],
    room: &mut [u8],
    needed: &mut usize,
) -> Status
    // With DONE the call writes a text and its length, and with TOO_SMALL the length alone.
    ensures done { result ≡ DONE
        → IfTold error.now text.now (λ said. IsWritten said room.old room.new needed.new) }
    ensures too_small { result ≡ TOO_SMALL
        → IfTold error.now text.now (λ said. IsTooLong said room.old room.new needed.new) }

    // `room` changes only with DONE, and `needed` only with DONE or TOO_SMALL.
    ensures refused { result ≢ DONE → room.new ≡ room.old }
    ensures same_needed { result ≢ DONE → result ≢ TOO_SMALL → needed.new ≡ needed.old }

    // The error is looked at first, and then the bytes. Only these statuses come.
    ensures no_error { result ≡ NO → (k : ErrorKind) → ¬ (IsTold error.now k) }
    ensures an_error { result ≢ NO → (k : ErrorKind) × IsTold error.now k }
    ensures not_utf8 { result ≡ NOT_UTF8 → ¬ (IsUtf8 text.now) }
    ensures utf8 { result ≢ NO → result ≢ NOT_UTF8 → IsUtf8 text.now }
    ensures statuses { IsOneOf (DONE ∷ NO ∷ OUT_OF_MEMORY ∷ NOT_UTF8 ∷ TOO_SMALL ∷ []) result }
{
    let Some(kind) = kind_told(error) else {
        return NO;
    };
    let Ok(text) = std::str::from_utf8(text) else {
        return NOT_UTF8;
    };
    match said(alloc, text, &kind) {
        Ok(said) => slices::write(said.as_bytes(), room, needed),
        Err(_) => OUT_OF_MEMORY,
    }
}
