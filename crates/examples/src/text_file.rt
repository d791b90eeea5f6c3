//! A file whose lines a program reads, the lines of bytes, and the globs of lines, each with a label.

ghost use Rattle.std.specs.Prelude.{length};
ghost use Rattle.std.specs.Iterator.{at_most};

use crate::command::{Fault, Shown};
use globset::{Error, Glob, GlobSetBuilder, Searcher};
use memchr::{memchr, memrchr};
use std::alloc::Global;
use std::fmt::Display;
use std::{fs, str};

/// What some editors put at the start of a text.
const BYTE_ORDER_MARK: &[u8] = b"\xef\xbb\xbf";

/// A file, and its name.
#[derive(Drop)]
pub struct TextFile {
    /// Its name, as it was given.
    pub name: String,
    pub bytes: Vec<u8>,
}

impl TextFile {
    /// Reads a file. Fails if it cannot be read.
    pub fn read(rt: &HostRuntime, name: &str) -> Result<TextFile, Fault> {
        let bytes = fs::read(rt, name).map_err(|error| Fault::file(rt.alloc(), name, error))?;
        let name = String::from_str(rt.alloc(), name)?;
        Ok(TextFile { name, bytes })
    }

    /// Returns the directory in its name: empty, or with `/` at its end. A `./` at the start does not count.
    pub fn folder(&self) -> &[u8] {
        let name = without_dot(self.name.as_bytes());
        &name[..memrchr(b'/', name).map_or(0, |at| at + 1)]
    }

    /// Returns its bytes without a byte order mark at the start.
    pub fn text(&self) -> &[u8] {
        let bytes = self.bytes.as_slice();
        bytes.strip_prefix(BYTE_ORDER_MARK).unwrap_or(bytes)
    }

    /// Returns the lines without LF or CRLF, and without a byte order mark at the start of the file. A rest after the last LF is
    /// a line too, unless it is empty. Fails with the first line that is not UTF-8.
    pub fn lines(&self, alloc: Global) -> Result<Vec<&str>, Fault> {
        let mut lines = Vec::new(alloc);
        for line in Lines::new(self.text(), b'\n') {
            match str::from_utf8(line) {
                Ok(text) => lines.push(text.strip_suffix('\r').unwrap_or(text))?,
                Err(_) => return self.fail(alloc, lines.len() + 1, line, "not UTF-8"),
            }
        }
        Ok(lines)
    }

    /// Returns the error of a line: its number, counted from 1, the wrong part of its text, and the reason.
    pub fn fail<T>(
        &self,
        alloc: Global,
        number: usize,
        text: &[u8],
        reason: impl Display + Drop,
    ) -> Result<T, Fault> {
        let reason = reason.to_string(alloc)?;
        let file = Shown(self.name.as_bytes());
        let (text, reason) = (Shown(text), Shown(reason.as_bytes()));
        Err(Fault::Text(format!(in alloc; "{file}: line {number}: {text}: {reason}")?))
    }
}

/// Returns a path without `./` at its start, as `find .` writes it.
pub fn without_dot(path: &[u8]) -> &[u8] {
    path.strip_prefix(b"./").unwrap_or(path)
}

/// An iterator over lines without the byte that ends each. A rest after the last of these is a line too, unless it is empty.
#[derive(Drop)]
pub struct Lines<'a> {
    rest: &'a [u8],
    end: u8,
}

impl<'a> Lines<'a> {
    /// Returns the lines of these bytes, ended by this byte.
    pub fn new(bytes: &'a [u8], end: u8) -> Lines<'a> {
        Lines { rest: bytes, end }
    }
}

impl<'a> Iterator for Lines<'a> {
    type Item = &'a [u8];

    ghost remaining = { λ it. at_most (length it.rest.now) };

    fn next(&mut self) -> Option<&'a [u8]> {
        let rest = self.rest;
        if rest.is_empty() {
            return None;
        }
        let end = memchr(self.end, rest).unwrap_or(rest.len());
        self.rest = rest.get(end + 1..).unwrap_or(&[]);
        Some(&rest[..end])
    }
}

/// The globs of a file, and for each of them a label: what the file says of the paths that it matches.
#[derive(Drop)]
pub struct Labels<'t> {
    globs: GlobSetBuilder,
    /// By the indexes of the globs.
    pub labels: Vec<&'t str>,
}

impl<'t> Labels<'t> {
    /// Returns no globs.
    pub fn new(alloc: Global) -> Labels<'t> {
        Labels {
            globs: GlobSetBuilder::new(alloc),
            labels: Vec::new(alloc),
        }
    }

    /// Adds a glob and its label.
    pub fn push(&mut self, glob: Glob, label: &'t str) -> Result<(), Error> {
        self.globs.push(glob)?;
        Ok(self.labels.push(label)?)
    }

    /// Returns the globs as a set, with all the memory that they are matched with.
    pub fn searcher(&self, alloc: Global) -> Result<Searcher, Error> {
        Searcher::new(alloc, &self.globs.build()?)
    }
}
