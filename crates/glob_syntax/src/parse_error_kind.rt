//! Errors of reading a glob.

ghost use Rattle.std.specs.Prelude.{◌≡◌};
ghost use Rattle.glob_syntax.specs.declared.parse_error_kind.ReadError.TheVariants.{Memory};

use std::alloc::{AllocError, AllocFailed};

/// An error in a glob's text. The error of a text is the first from the left.
#[derive(Clone, Copy, Debug, PartialEq, Eq)]
pub enum ParseErrorKind {
    /// No `]` closes a class.
    UnclosedClass,
    /// A range of a class goes down, from the first of these characters to the second.
    InvalidRange(char, char),
    /// A `}` closes no group.
    UnopenedAlternates,
    /// A `{` is still open at the end of the text.
    UnclosedAlternates,
    /// The last character is a `\` that escapes nothing.
    DanglingEscape,
}

/// Why a text was not read.
#[derive(Clone, Copy, Debug, PartialEq, Eq)]
pub enum ReadError {
    /// Memory ran out.
    Memory,
    /// The text is not a valid glob.
    Syntax(ParseErrorKind),
}

impl From<AllocError> for ReadError {
    ghost from_gives = { λ _ e. e ≡ Memory };

    fn from(_e: AllocError) -> ReadError {
        ReadError::Memory
    }
}

impl<T: Drop> From<AllocFailed<T>> for ReadError {
    ghost from_gives = { λ _ e. e ≡ Memory };

    fn from(_e: AllocFailed<T>) -> ReadError {
        ReadError::Memory
    }
}
