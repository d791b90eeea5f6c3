//! Errors of reading a JSON value.

ghost use Rattle.std.specs.Prelude.{◌≡◌, ◌↔◌, IsTrue, Some};
ghost use Rattle.std.specs.Cmp.{partial_equiv_from_equiv};
ghost use Rattle.glob_text.specs.Equality.{SameValueKind, SameValueError, offset_in};
ghost use Rattle.glob_text.specs.ValueErrors.{of_element, value_kind_text, is_memory, value_error_text, of_kind, value_out_of_memory};
ghost use Rattle.glob_text.specs.inner.Equality.{same_value_kind, same_value_kind_laws, same_value_error, same_value_error_laws};
ghost use Rattle.glob_text.specs.declared.value_error.ValueErrorKind.TheVariants.{Glob};

use crate::error::{Error, ErrorKind};
use std::alloc::{AllocError, AllocFailed};
use std::fmt;
use std::marker::Model;

/// Why a JSON value, or an element of a JSON array, is rejected, or that memory ran out.
///
/// ```rust
/// use globset::{Glob, ValueErrorKind};
/// use serde_json::Value;
///
/// let value = Value::from_str(alloc, r#"{"glob": "*.c", "case": true}"#)?;
/// let error = Glob::from_value(alloc, &value).expect_err(rt, "no option has this name");
/// assert_eq!(rt; error.kind(), &ValueErrorKind::UnknownKey);
/// ```
#[derive(Debug, Drop)]
pub enum ValueErrorKind {
    /// It is neither a text nor an object with a text under `glob`.
    NotText,
    /// It is an object with a key other than `glob` and the options' keys.
    UnknownKey,
    /// It is an object where an option is neither true nor false.
    NotBool,
    /// It is not an array.
    NotArray,
    /// The content of the text is rejected as a glob, or memory ran out.
    Glob(Error),
}

impl ValueErrorKind {
    /// Returns whether the kinds are the same variant, and its errors are equal.
    fn is_same(&self, other: &ValueErrorKind) -> bool
        ensures { result ≡ same_value_kind self.now other.now }
    {
        match (self, other) {
            (ValueErrorKind::NotText, ValueErrorKind::NotText) => true,
            (ValueErrorKind::UnknownKey, ValueErrorKind::UnknownKey) => true,
            (ValueErrorKind::NotBool, ValueErrorKind::NotBool) => true,
            (ValueErrorKind::NotArray, ValueErrorKind::NotArray) => true,
            (ValueErrorKind::Glob(error), ValueErrorKind::Glob(other)) => error == other,
            _ => false,
        }
    }
}

/// An equal kind, whose error has the same offset. The error of the call says that memory ran out.
impl Clone for ValueErrorKind {
    ghost is_clone = { λ k l. SameValueKind l k × (offset_in l ≡ offset_in k) };

    fn clone(&self) -> Result<ValueErrorKind, AllocError> {
        match self {
            ValueErrorKind::NotText => Ok(ValueErrorKind::NotText),
            ValueErrorKind::UnknownKey => Ok(ValueErrorKind::UnknownKey),
            ValueErrorKind::NotBool => Ok(ValueErrorKind::NotBool),
            ValueErrorKind::NotArray => Ok(ValueErrorKind::NotArray),
            ValueErrorKind::Glob(error) => Ok(ValueErrorKind::Glob(Clone::clone(error)?)),
        }
    }
}

/// Kinds are equal if they are the same variant, and its errors are equal. It allocates nothing.
impl PartialEq for ValueErrorKind {
    ghost eq = { same_value_kind };

    ghost laws = { partial_equiv_from_equiv same_value_kind_laws };

    #[tactic(auto, using(crate::proofs::lemmas::ErrorEquality::equal_value_kinds))]
    fn eq(&self, other: &ValueErrorKind) -> bool
        ensures result { result ≡ same_value_kind self.now other.now }
        ensures same { IsTrue result ↔ SameValueKind self.now other.now }
    {
        self.is_same(other)
    }
}

/// Each kind is equal to itself.
impl Eq for ValueErrorKind {
    ghost laws = { same_value_kind_laws };
}

impl fmt::Display for ValueErrorKind {
    ghost output = { λ kind. Some (value_kind_text kind) };

    fn fmt<W: fmt::Write>(&self, f: &mut fmt::Formatter<W>) -> fmt::Result {
        match self {
            ValueErrorKind::NotText => f.write_str("expected a glob pattern"),
            ValueErrorKind::UnknownKey => f.write_str("unknown key in a glob object"),
            ValueErrorKind::NotBool => f.write_str("expected true or false"),
            ValueErrorKind::NotArray => f.write_str("expected an array of glob patterns"),
            ValueErrorKind::Glob(error) => error.fmt(f),
        }
    }
}

/// An error of reading a glob, or a set of globs, from a JSON value.
///
/// The error of an element of an array holds the element's index. When out of memory, the kind is [`ValueErrorKind::Glob`] with
/// an error of the kind [`ErrorKind::OutOfMemory`], and the error holds no index.
///
/// ```rust
/// use globset::GlobSet;
/// use serde_json::Value;
/// use std::string::ToString;
///
/// let value = Value::from_str(alloc, r#"["*.c", 7]"#)?;
/// let error = GlobSet::from_value(alloc, &value).expect_err(rt, "7 is no glob");
/// assert_eq!(rt; error.index(), Some(1));
/// assert_eq!(rt; error.to_string(alloc)?.as_str(), "element 1: expected a glob pattern");
/// ```
#[derive(Debug, Drop)]
pub struct ValueError {
    index: Option<usize>,
    kind: ValueErrorKind,
}

impl Model for ValueError {
    ghost use Rattle.glob_text.specs.ValueErrors.{ValueErrorValue};

    ghost Value = { ValueErrorValue };

    ghost view = { λ e. record { index = e.index; kind = e.kind } };
}

/// An equal error, also with the same offset. The error of the call says that memory ran out.
impl Clone for ValueError {
    ghost is_clone = { λ e f. SameValueError f e × (offset_in f.kind ≡ offset_in e.kind) };

    fn clone(&self) -> Result<ValueError, AllocError> {
        Ok(ValueError {
            index: self.index,
            kind: self.kind.clone()?,
        })
    }
}

/// Errors are equal if their indexes and their kinds are. It allocates nothing.
impl PartialEq for ValueError {
    ghost eq = { same_value_error };

    ghost laws = { partial_equiv_from_equiv same_value_error_laws };

    #[tactic(auto, using(crate::proofs::lemmas::ErrorEquality::equal_value_errors))]
    fn eq(&self, other: &ValueError) -> bool
        ensures result { result ≡ same_value_error self.now other.now }
        ensures same { IsTrue result ↔ SameValueError self.now other.now }
    {
        self.index == other.index && self.kind == other.kind
    }
}

/// Each error is equal to itself.
impl Eq for ValueError {
    ghost laws = { same_value_error_laws };
}

impl ValueError {
    /// Returns the index of the first rejected element, or `None` if the error is not about an element of an array.
    pub fn index(&self) -> Option<usize>
        ensures { result ≡ self.now.index }
    {
        self.index
    }

    /// Returns the kind of the error.
    pub fn kind(&self) -> &ValueErrorKind
        ensures { result.now ≡ self.now.kind }
    {
        &self.kind
    }

    /// Returns whether memory ran out.
    fn is_memory(&self) -> bool
        ensures { result ≡ is_memory self.now.kind }
    {
        match &self.kind {
            ValueErrorKind::Glob(error) => matches!(error.kind(), ErrorKind::OutOfMemory),
            _ => false,
        }
    }
}

/// Returns the error of the element at this index of an array. An error that memory ran out is about no element, and is
/// returned as it is.
pub fn error_of_element(index: usize, error: ValueError) -> ValueError
    ensures { result ≡ of_element index error }
{
    if error.is_memory() {
        return error;
    }
    let ValueError { index: _, kind } = error;
    ValueError {
        index: Some(index),
        kind,
    }
}

/// `element <index>: <kind>`, or only the kind's text if the error holds no index.
impl fmt::Display for ValueError {
    ghost output = { λ e. Some (value_error_text e) };

    fn fmt<W: fmt::Write>(&self, f: &mut fmt::Formatter<W>) -> fmt::Result {
        match self.index {
            Some(index) => {
                let kind = &self.kind;
                write!(f, "element {index}: {kind}")
            }
            None => self.kind.fmt(f),
        }
    }
}

impl std::error::Error for ValueError {}

/// An error with no index.
impl From<ValueErrorKind> for ValueError {
    ghost from_gives = { λ kind e. e ≡ of_kind kind };

    fn from(kind: ValueErrorKind) -> ValueError {
        ValueError { index: None, kind }
    }
}

/// An error with no index, of the kind [`ValueErrorKind::Glob`].
impl From<Error> for ValueError {
    ghost from_gives = { λ error e. e ≡ of_kind (Glob error) };

    fn from(error: Error) -> ValueError {
        ValueError::from(ValueErrorKind::Glob(error))
    }
}

/// The error that memory ran out, so that `?` converts std's.
impl From<AllocError> for ValueError {
    ghost from_gives = { λ _ e. e ≡ value_out_of_memory };

    fn from(error: AllocError) -> ValueError {
        ValueError::from(Error::from(error))
    }
}

/// The error that memory ran out, so that `?` converts the error of `Vec::push` and the like.
impl<T: Drop> From<AllocFailed<T>> for ValueError {
    ghost from_gives = { λ _ e. e ≡ value_out_of_memory };

    fn from(error: AllocFailed<T>) -> ValueError {
        ValueError::from(Error::from(error))
    }
}
