//! Whether a row passes, and why it cannot be replayed.

ghost use Rattle.std.specs.Prelude.{◌≡◌, ◌↔◌, IsNone, IfSome, string_bytes};

use crate::case::Globs;
use crate::column::Columns;
use globset::ValueError;
use std::alloc::{AllocError, Global};
use std::fmt::{self, Display};

/// Why a row cannot be replayed.
#[derive(Drop)]
pub enum RowFault {
    /// The row is not written as it should be.
    Row(&'static str),
    /// A call that should succeed failed, or memory ran out.
    Call(ValueError),
}

impl Display for RowFault {
    fn fmt<W: fmt::Write>(&self, f: &mut fmt::Formatter<W>) -> fmt::Result {
        match self {
            RowFault::Row(text) => f.write_str(text),
            RowFault::Call(error) => error.fmt(f),
        }
    }
}

impl<E: Into<ValueError>> From<E> for RowFault {
    fn from(error: E) -> RowFault {
        RowFault::Call(error.into())
    }
}

/// Replays a row. Returns the actual result if it differs from the row's, and otherwise `None`.
pub fn replay(alloc: Global, globs: &mut Globs, row: &str) -> Result<Option<String>, AllocError> {
    match compared(alloc, globs, row) {
        Ok(other) => Ok(other),
        Err(fault) => Ok(Some(format!(in alloc; "{fault}")?)),
    }
}

fn compared(alloc: Global, globs: &mut Globs, row: &str) -> Result<Option<String>, RowFault> {
    let row = expanded(alloc, row)?;
    let mut columns = Columns {
        rest: Some(row.as_str()),
    };
    let returned = globs.returned(&mut columns)?;
    match columns.rest {
        Some(want) => Ok(unless_equal(returned, want)),
        None => Err(RowFault::Row("a column is missing")),
    }
}

/// Returns the actual result, or `None` if it is the expected result.
fn unless_equal(returned: String, want: &str) -> Option<String>
    ensures same { IsNone result ↔ (string_bytes returned ≡ want.now) }
    ensures other { IfSome result (λ text. text ≡ returned) }
{
    if returned.as_str() == want {
        None
    } else {
        Some(returned)
    }
}

/// Returns the row. Where its first column is `repeat`, returns the columns after it, with each `«COUNT TEXT»` in them replaced
/// by as many copies of TEXT.
fn expanded(alloc: Global, row: &str) -> Result<String, RowFault> {
    let mut out = String::new(alloc);
    let Some(short) = row.strip_prefix("repeat\t") else {
        out.push_str(row)?;
        return Ok(out);
    };
    let mut pieces = short.split('«');
    out.push_str(pieces.next().unwrap_or(""))?;
    for piece in pieces {
        if !push_piece(&mut out, piece)? {
            return Err(RowFault::Row("a repetition is not of the form «COUNT TEXT»"));
        }
    }
    Ok(out)
}

/// Pushes the copies and the text of `COUNT TEXT»AFTER`, or returns false if a piece is not written like this.
fn push_piece(out: &mut String, piece: &str) -> Result<bool, AllocError> {
    let Some((repetition, after)) = piece.split_once('»') else {
        return Ok(false);
    };
    let Some((count, text)) = repetition.split_once(' ') else {
        return Ok(false);
    };
    let Ok(count) = count.parse::<usize>() else {
        return Ok(false);
    };
    for _ in 0..count {
        out.push_str(text)?;
    }
    out.push_str(after)?;
    Ok(true)
}
