//! Errors of globs.

ghost use Rattle.std.specs.Prelude.{◌≡◌, ◌⊎◌, ◌↔◌, IfOk, IsOkUnless, IsTrue, Some};
ghost use Rattle.std.specs.Cmp.{partial_equiv_from_equiv};
ghost use Rattle.glob_text.specs.Errors.{out_of_memory, parse_error, error_text, kind_of, kind_text};
ghost use Rattle.glob_text.specs.Equality.{SameError, SameKind};
ghost use Rattle.glob_text.specs.inner.Equality.{same_error, same_error_laws, same_kind, same_kind_laws};
ghost use Rattle.std.specs.Option.{option_map};

use glob_syntax::{Options, ParseErrorKind, error_offset};
use std::alloc::{AllocError, AllocFailed, Global};
use std::fmt;
use std::marker::Model;

/// An error of reading a glob, or of any other call that runs out of memory.
///
/// The error of a rejected text holds that text. If memory runs out, even for the copy of that text, the kind is
/// [`ErrorKind::OutOfMemory`] and the error holds no text.
///
/// ```rust
/// use globset::{ErrorKind, Glob};
/// use std::string::ToString;
///
/// let error = Glob::new(alloc, "a[z-a]").expect_err(rt, "the range goes down");
/// assert_eq!(rt; error.glob(), Some("a[z-a]"));
/// assert_eq!(rt; error.kind(), &ErrorKind::InvalidRange('z', 'a'));
/// assert_eq!(rt; error.offset(), Some(1));
/// let text = error.to_string(alloc)?;
/// assert_eq!(rt; text.as_str(), "error parsing glob 'a[z-a]': invalid range; 'z' > 'a'");
/// ```
#[derive(Debug, Drop)]
pub struct Error {
    glob: Option<String>,
    kind: ErrorKind,
    offset: Option<usize>,
}

impl Model for Error {
    ghost use Rattle.std.specs.Prelude.{string_bytes};
    ghost use Rattle.std.specs.Option.{option_map};
    ghost use Rattle.glob_text.specs.Errors.{ErrorValue};

    ghost Value = { ErrorValue };

    ghost view = { λ e. record { glob = option_map string_bytes e.glob; kind = e.kind; offset = e.offset } };
}

impl Error {
    /// Returns the error of a text with this first fault under these options. This reads the text once more, for the place of the
    /// fault. If there is no memory for a copy of the text, the kind is [`ErrorKind::OutOfMemory`].
    pub(crate) fn parse_error(
        alloc: Global,
        options: Options,
        text: &str,
        parse_error_kind: ParseErrorKind,
    ) -> Error
        ensures { (result ≡ out_of_memory)
            ⊎ (result ≡ parse_error options text.now parse_error_kind) }
    {
        let Ok(offset) = error_offset(alloc, options, text) else {
            return Error::out_of_memory();
        };
        let Ok(glob) = String::from_str(alloc, text) else {
            return Error::out_of_memory();
        };
        Error {
            glob: Some(glob),
            kind: ErrorKind::of(parse_error_kind),
            offset,
        }
    }

    /// Returns the error that memory ran out.
    pub(crate) fn out_of_memory() -> Error
        ensures { result ≡ out_of_memory }
    {
        Error {
            glob: None,
            kind: ErrorKind::OutOfMemory,
            offset: None,
        }
    }

    /// Returns the rejected text, or `None` if memory ran out.
    pub fn glob(&self) -> Option<&str>
        ensures { option_map (λ s. s.now) result ≡ self.now.glob }
    {
        match &self.glob {
            Some(glob) => Some(glob.as_str()),
            None => None,
        }
    }

    /// Returns the kind of the error.
    pub fn kind(&self) -> &ErrorKind
        ensures { result.now ≡ self.now.kind }
    {
        &self.kind
    }

    /// Returns the offset in the rejected text of its first error, in bytes, or `None` if memory ran out. The offset is that of:
    ///
    /// - the `[` of the class, for [`ErrorKind::UnclosedClass`] and [`ErrorKind::InvalidRange`];
    /// - the `}`, for [`ErrorKind::UnopenedAlternates`];
    /// - the outermost `{` that is open at the end of the text, for [`ErrorKind::UnclosedAlternates`];
    /// - the last `\`, for [`ErrorKind::DanglingEscape`].
    ///
    /// ```rust
    /// use globset::Glob;
    ///
    /// let error = Glob::new(alloc, "é/{*.c,*.{h,hpp}").expect_err(rt, "one } is missing");
    /// assert_eq!(rt; error.offset(), Some(3));
    /// ```
    pub fn offset(&self) -> Option<usize>
        ensures { result ≡ self.now.offset }
    {
        self.offset
    }

    /// Returns an equal error with the same offset.
    pub fn clone(&self) -> Result<Error, Error>
        ensures ok { IfOk result (λ e. SameError e self.now) }
        ensures offset { IfOk result (λ e. e.offset ≡ self.now.offset) }
        ensures equal { IfOk result (λ e. IsTrue (⟦<Error as PartialEq>⟧.eq e self.now)) }
        ensures err { IsOkUnless result out_of_memory }
    {
        Ok(Clone::clone(self)?)
    }
}

/// An equal error with the same offset. The error of the call says that memory ran out.
impl Clone for Error {
    ghost is_clone = { λ e f. SameError f e × (f.offset ≡ e.offset) };

    fn clone(&self) -> Result<Error, AllocError> {
        let kind = Clone::clone(&self.kind)?;
        let glob = match &self.glob {
            Some(glob) => Some(glob.clone()?),
            None => None,
        };
        Ok(Error {
            glob,
            kind,
            offset: self.offset,
        })
    }
}

/// Errors are equal if their texts and their kinds are. Their offsets, which may differ under other options, are not compared.
/// It allocates nothing.
impl PartialEq for Error {
    ghost eq = { same_error };

    ghost laws = { partial_equiv_from_equiv same_error_laws };

    #[tactic(auto, using(crate::proofs::lemmas::ErrorEquality::equal_errors))]
    fn eq(&self, other: &Error) -> bool
        ensures result { result ≡ same_error self.now other.now }
        ensures same { IsTrue result ↔ SameError self.now other.now }
    {
        self.glob == other.glob && self.kind == other.kind
    }
}

/// Each error is equal to itself.
impl Eq for Error {
    ghost laws = { same_error_laws };
}

/// `error parsing glob '<glob>': <kind>`, or only the kind's text if the error holds no glob text.
impl fmt::Display for Error {
    ghost output = { λ e. Some (error_text e) };

    fn fmt<W: fmt::Write>(&self, f: &mut fmt::Formatter<W>) -> fmt::Result {
        match &self.glob {
            Some(glob) => {
                let kind = &self.kind;
                write!(f, "error parsing glob '{glob}': {kind}")
            }
            None => self.kind.fmt(f),
        }
    }
}

impl std::error::Error for Error {}

/// The error that memory ran out, so that `?` converts std's.
impl From<AllocError> for Error {
    ghost from_gives = { λ _ e. e ≡ out_of_memory };

    fn from(_e: AllocError) -> Error {
        Error::out_of_memory()
    }
}

/// The error that memory ran out, so that `?` converts the error of `Vec::push` and the like.
impl<T: Drop> From<AllocFailed<T>> for Error {
    ghost from_gives = { λ _ e. e ≡ out_of_memory };

    fn from(_e: AllocFailed<T>) -> Error {
        Error::out_of_memory()
    }
}

/// Why a glob text is rejected, or that memory ran out.
///
/// ```rust
/// use globset::{ErrorKind, Glob};
///
/// let hint = match Glob::new(alloc, "*.{c,h") {
///     Ok(_) => "it is a glob",
///     Err(error) => match error.kind() {
///         ErrorKind::UnclosedAlternates => "write the missing }",
///         ErrorKind::OutOfMemory => "try again later",
///         _ => "it is no glob",
///     },
/// };
/// assert_eq!(rt; hint, "write the missing }");
/// ```
#[derive(Debug, Drop)]
pub enum ErrorKind {
    /// A `[` has no closing `]`.
    UnclosedClass,
    /// A range `s-e` in a class has `s` above `e`, as in `[z-a]`: the characters `s` and `e`.
    InvalidRange(char, char),
    /// A `}` has no open `{` before it.
    UnopenedAlternates,
    /// A `{` has no closing `}`.
    UnclosedAlternates,
    /// The last character is a `\` that would escape a next character.
    DanglingEscape,
    /// Memory ran out. It is the only kind that a call on a glob returns.
    OutOfMemory,
    /// Never returned: every use of `**` has a meaning.
    InvalidRecursive,
    /// Never returned: groups may nest.
    NestedAlternates,
    /// Never returned: no regular expression engine is used.
    Regex(String),
}

impl ErrorKind {
    /// Returns the kind of the error of a text with this fault.
    pub(crate) fn of(parse_error_kind: ParseErrorKind) -> ErrorKind
        ensures { result ≡ kind_of parse_error_kind }
    {
        match parse_error_kind {
            ParseErrorKind::UnclosedClass => ErrorKind::UnclosedClass,
            ParseErrorKind::InvalidRange(start, end) => ErrorKind::InvalidRange(start, end),
            ParseErrorKind::UnopenedAlternates => ErrorKind::UnopenedAlternates,
            ParseErrorKind::UnclosedAlternates => ErrorKind::UnclosedAlternates,
            ParseErrorKind::DanglingEscape => ErrorKind::DanglingEscape,
        }
    }

    /// Returns whether the kinds are the same variant, and its characters or its text are equal.
    fn is_same(&self, other: &ErrorKind) -> bool
        ensures { result ≡ same_kind self.now other.now }
    {
        match (self, other) {
            (ErrorKind::UnclosedClass, ErrorKind::UnclosedClass) => true,
            (ErrorKind::InvalidRange(s, e), ErrorKind::InvalidRange(t, f)) => s == t && e == f,
            (ErrorKind::UnopenedAlternates, ErrorKind::UnopenedAlternates) => true,
            (ErrorKind::UnclosedAlternates, ErrorKind::UnclosedAlternates) => true,
            (ErrorKind::DanglingEscape, ErrorKind::DanglingEscape) => true,
            (ErrorKind::OutOfMemory, ErrorKind::OutOfMemory) => true,
            (ErrorKind::InvalidRecursive, ErrorKind::InvalidRecursive) => true,
            (ErrorKind::NestedAlternates, ErrorKind::NestedAlternates) => true,
            (ErrorKind::Regex(text), ErrorKind::Regex(other)) => text == other,
            _ => false,
        }
    }

    /// Returns an equal kind. Only the text of [`ErrorKind::Regex`] needs memory.
    pub fn clone(&self) -> Result<ErrorKind, Error>
        ensures ok { IfOk result (λ k. SameKind k self.now) }
        ensures equal { IfOk result (λ k. IsTrue (⟦<ErrorKind as PartialEq>⟧.eq k self.now)) }
        ensures err { IsOkUnless result out_of_memory }
    {
        Ok(Clone::clone(self)?)
    }
}

/// An equal kind. The error says that memory ran out.

impl Clone for ErrorKind {
    ghost is_clone = { λ k l. SameKind l k };

    fn clone(&self) -> Result<ErrorKind, AllocError> {
        match self {
            ErrorKind::UnclosedClass => Ok(ErrorKind::UnclosedClass),
            ErrorKind::InvalidRange(start, end) => Ok(ErrorKind::InvalidRange(*start, *end)),
            ErrorKind::UnopenedAlternates => Ok(ErrorKind::UnopenedAlternates),
            ErrorKind::UnclosedAlternates => Ok(ErrorKind::UnclosedAlternates),
            ErrorKind::DanglingEscape => Ok(ErrorKind::DanglingEscape),
            ErrorKind::OutOfMemory => Ok(ErrorKind::OutOfMemory),
            ErrorKind::InvalidRecursive => Ok(ErrorKind::InvalidRecursive),
            ErrorKind::NestedAlternates => Ok(ErrorKind::NestedAlternates),
            ErrorKind::Regex(text) => Ok(ErrorKind::Regex(text.clone()?)),
        }
    }
}

/// Kinds are equal if they are the same variant, and its characters or its text are equal. It allocates nothing.

impl PartialEq for ErrorKind {
    ghost eq = { same_kind };

    ghost laws = { partial_equiv_from_equiv same_kind_laws };

    #[tactic(auto, using(crate::proofs::lemmas::ErrorEquality::equal_kinds))]
    fn eq(&self, other: &ErrorKind) -> bool
        ensures result { result ≡ same_kind self.now other.now }
        ensures same { IsTrue result ↔ SameKind self.now other.now }
    {
        self.is_same(other)
    }
}

/// Each kind is equal to itself.

impl Eq for ErrorKind {
    ghost laws = { same_kind_laws };
}

impl fmt::Display for ErrorKind {
    ghost output = { λ kind. Some (kind_text kind) };

    fn fmt<W: fmt::Write>(&self, f: &mut fmt::Formatter<W>) -> fmt::Result {
        match self {
            ErrorKind::UnclosedClass => f.write_str("unclosed character class; missing ']'"),
            ErrorKind::InvalidRange(start, end) => write!(f, "invalid range; '{start}' > '{end}'"),
            ErrorKind::UnopenedAlternates => f.write_str(
                "unopened alternate group; missing '{' (maybe escape '}' with '[}]'?)",
            ),
            ErrorKind::UnclosedAlternates => f.write_str(
                "unclosed alternate group; missing '}' (maybe escape '{' with '[{]'?)",
            ),
            ErrorKind::DanglingEscape => f.write_str("dangling '\\'"),
            ErrorKind::OutOfMemory => f.write_str("out of memory"),
            ErrorKind::InvalidRecursive => {
                f.write_str("invalid use of **; must be one path component")
            }
            ErrorKind::NestedAlternates => f.write_str("nested alternate groups are not allowed"),
            ErrorKind::Regex(text) => f.write_str(text.as_str()),
        }
    }
}
