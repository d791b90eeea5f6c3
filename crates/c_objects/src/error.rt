//! Errors of texts, and what they say.

ghost use Rattle.std.specs.Prelude.{◌≡◌, option_and_then, Some, None, IfOk, IfSome, string_bytes};
ghost use Rattle.c_objects.specs.Errors.{told, IsTold};
ghost use Rattle.glob_text.specs.Errors.{kind_text, text_with};
ghost use Rattle.glob_text.specs.declared.error.ErrorKind.{ErrorKind};

use globset::{Error, ErrorKind};
use std::alloc::{AllocError, Global};

/// The first error in a text: its kind as a number, the characters of an invalid range, and the byte of its position. At other
/// kinds the characters are 0.
#[repr(C)]
#[derive(Clone, Copy)]
pub struct TextError {
    pub kind: u32,
    pub start: u32,
    pub end: u32,
    pub offset: usize,
}

/// Returns the error as C sees it, or `None` if it is no error of a text.
pub fn told(error: &Error) -> Option<TextError>
    ensures { result ≡ option_and_then (told error.now.kind) error.now.offset }
{
    let offset = error.offset()?;
    let (kind, start, end) = match error.kind() {
        ErrorKind::UnclosedClass => (1, 0, 0),
        ErrorKind::InvalidRange(start, end) => (2, *start as u32, *end as u32),
        ErrorKind::UnopenedAlternates => (3, 0, 0),
        ErrorKind::UnclosedAlternates => (4, 0, 0),
        ErrorKind::DanglingEscape => (5, 0, 0),
        _ => return None,
    };
    Some(TextError {
        kind,
        start,
        end,
        offset,
    })
}

/// Returns the kind of the error that the numbers tell of, or `None` if they tell of none.
pub fn kind_told(error: &TextError) -> Option<ErrorKind>
    ensures some { IfSome result (λ k. IsTold error.now k) }
    ensures none { result ≡ None → (k : ErrorKind) → ¬ (IsTold error.now k) }
{
    match error.kind {
        1 => Some(ErrorKind::UnclosedClass),
        2 => {
            let start = char::from_u32(error.start)?;
            let end = char::from_u32(error.end)?;
            Some(ErrorKind::InvalidRange(start, end))
        }
        3 => Some(ErrorKind::UnopenedAlternates),
        4 => Some(ErrorKind::UnclosedAlternates),
        5 => Some(ErrorKind::DanglingEscape),
        _ => None,
    }
}

/// Returns what an error of this kind says of a text.
pub fn said(alloc: Global, text: &str, kind: &ErrorKind) -> Result<String, AllocError>
    ensures { IfOk result (λ s. string_bytes s ≡ text_with (Some text.now) (kind_text kind.now)) }
{
    let kind = kind.to_string(alloc)?;
    let mut said = String::from_str(alloc, "error parsing glob '")?;
    said.push_str(text)?;
    said.push_str("': ")?;
    said.push_str(&kind)?;
    Ok(said)
}
