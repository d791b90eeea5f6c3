//! Columns of a row: bytes and indexes as printable text.

ghost use Rattle.std.specs.Prelude.{◌≡◌, IfOk};
ghost use Rattle.std.specs.Str.{chars};
ghost use Rattle.bstr.specs.Escape.{unescaped};

use crate::row::RowFault;
use bstr::{ByteSlice, ByteVec};
use std::alloc::Global;
use std::fmt::{self, Display};

/// The columns of a row that were not read yet, if any is left. Tabs separate them.
#[derive(Drop)]
pub struct Columns<'a> {
    pub rest: Option<&'a str>,
}

impl<'a> Columns<'a> {
    /// Returns the next column, as it is written, or an error if there is none.
    pub fn next(&mut self) -> Result<&'a str, RowFault> {
        let Some(rest) = self.rest else {
            return Err(RowFault::Row("a column is missing"));
        };
        match rest.split_once('\t') {
            Some((column, after)) => {
                self.rest = Some(after);
                Ok(column)
            }
            None => {
                self.rest = None;
                Ok(rest)
            }
        }
    }
}

/// Returns the bytes that a column stands for. Each byte string has a single spelling, and a column with another spelling is an
/// error.
pub fn unescaped(alloc: Global, column: &str) -> Result<Vec<u8>, RowFault>
    ensures { IfOk result (λ bytes. bytes.items ≡ unescaped (chars column.now)) }
{
    let bytes = Vec::unescape_bytes(alloc, column)?;
    if format!(in alloc; "{}", Escaped(&bytes))?.as_str() != column {
        return Err(RowFault::Row("a column has bytes that are not written as they should be"));
    }
    Ok(bytes)
}

/// Returns the text that a column stands for, or an error as [`unescaped`] does, or if the bytes are not UTF-8.
pub fn unescaped_text(alloc: Global, column: &str) -> Result<String, RowFault> {
    match String::from_utf8(unescaped(alloc, column)?) {
        Ok(text) => Ok(text),
        Err(_) => Err(RowFault::Row("a column is not UTF-8")),
    }
}

/// Bytes that are printed as a column: printable characters and spaces are themselves, a backslash is `\\`, and other bytes are
/// `\0`, `\t`, `\n`, `\r` or `\xNN`.
#[derive(Clone, Copy)]
pub struct Escaped<'a>(pub &'a [u8]);

impl Display for Escaped<'_> {
    fn fmt<W: fmt::Write>(&self, f: &mut fmt::Formatter<W>) -> fmt::Result {
        let mut rest = self.0;
        while let Some(space) = rest.find_byte(b' ') {
            (&rest[..space]).escape_bytes().fmt(f)?;
            f.write_char(' ')?;
            rest = &rest[space + 1..];
        }
        rest.escape_bytes().fmt(f)
    }
}

/// Indexes that are printed as a column: separated by commas, or `-` if there are none.
#[derive(Clone, Copy)]
pub struct IndexColumn<'a>(pub &'a [usize]);

impl Display for IndexColumn<'_> {
    fn fmt<W: fmt::Write>(&self, f: &mut fmt::Formatter<W>) -> fmt::Result {
        if self.0.is_empty() {
            return f.write_str("-");
        }
        let mut separator = "";
        for index in self.0 {
            f.write_str(separator)?;
            index.fmt(f)?;
            separator = ",";
        }
        Ok(())
    }
}

/// Returns `yes` or `no`.
pub fn yes_or_no(yes: bool) -> &'static str {
    if yes { "yes" } else { "no" }
}
