//! The reading of the text of a line.

ghost use Rattle.std.specs.Prelude.{◌≡◌, zero, IfOk, IsTrue};
ghost use Rattle.ignore_pattern.specs.Elements.{elements};
ghost use Rattle.ignore_pattern.specs.Patterns.{has_slash, pattern_with, pattern_between, pattern_after, pattern_of_text};
ghost use Rattle.ignore_pattern.specs.declared.place.Place.TheVariants.{Start};

use crate::element::read_elements;
use crate::line::before_last;
use crate::pattern::IgnorePattern;
use std::alloc::{AllocError, Global};

/// Returns the pattern of the text of a line; `None` if it has none, or its pattern cannot be read.
#[tactic(auto, unfolding(crate::specs::Patterns::pattern_of_text))]
pub fn pattern_of_text(alloc: Global, text: &[u8]) -> Result<Option<IgnorePattern>, AllocError>
    ensures { IfOk result (λ r. r ≡ pattern_of_text text.now) }
{
    match text {
        [b'#', ..] => Ok(None),
        [b'!', after @ ..] => pattern_after(alloc, true, after),
        _ => pattern_after(alloc, false, text),
    }
}

/// Returns the pattern of the bytes after the `!`, if there is any.
fn pattern_after(
    alloc: Global,
    negated: bool,
    bytes: &[u8],
) -> Result<Option<IgnorePattern>, AllocError>
    ensures { IfOk result (λ r. r ≡ pattern_after negated bytes.now) }
{
    match before_last(b'/', bytes) {
        Some(front) => pattern_between(alloc, negated, true, front),
        None => pattern_between(alloc, negated, false, bytes),
    }
}

/// Returns the pattern of the bytes between the `!` and the `/` at the end, if these are there.
fn pattern_between(
    alloc: Global,
    negated: bool,
    folders_only: bool,
    bytes: &[u8],
) -> Result<Option<IgnorePattern>, AllocError>
    ensures { IfOk result (λ r. r ≡ pattern_between negated folders_only bytes.now) }
{
    match bytes {
        [b'/', after @ ..] => pattern_with(alloc, negated, folders_only, true, after),
        _ => pattern_with(alloc, negated, folders_only, has_slash(bytes), bytes),
    }
}

/// Returns the pattern of these bytes. `whole` says whether it is matched against whole paths.
fn pattern_with(
    alloc: Global,
    negated: bool,
    folders_only: bool,
    whole: bool,
    bytes: &[u8],
) -> Result<Option<IgnorePattern>, AllocError>
    requires { IsTrue (has_slash bytes.now) → IsTrue whole }
    ensures { IfOk result
        (λ r. r ≡ pattern_with negated folders_only whole (elements whole Start zero bytes.now)) }
{
    match read_elements(alloc, whole, bytes)? {
        Some(elements) if !elements.is_empty() => Ok(Some(IgnorePattern::new(
            negated,
            folders_only,
            whole,
            elements,
        ))),
        _ => Ok(None),
    }
}

/// Returns whether there is a `/`.
fn has_slash(bytes: &[u8]) -> bool
    ensures { result ≡ has_slash bytes.now }
{
    bytes.iter().any(|byte| *byte == b'/')
}
