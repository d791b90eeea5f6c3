//! Files of text, and standard input and output.

ghost use Rattle.std.specs.Prelude.{length};
ghost use Rattle.std.specs.Iterator.{at_most};

use crate::fault::{Fault, is_closed};
use memchr::memchr;
use std::fs::File;
use std::io::{self, Read, Write};

/// The most bytes of a file of globs: 100 MB.
const LARGEST: u64 = 100_000_000;

/// What some editors put at the start of a text.
const BYTE_ORDER_MARK: &[u8] = b"\xef\xbb\xbf";

/// Reads a file of globs, without a byte order mark at its start. Fails if it cannot be read or is too large.
pub fn read_file(rt: &HostRuntime, name: &str) -> Result<Vec<u8>, Fault> {
    let alloc = rt.alloc();
    let file = File::open(rt, name).map_err(|error| Fault::file(alloc, name, error))?;
    let mut bytes = Vec::new(alloc);
    let mut limited = file.take(LARGEST + 1);
    if let Err(error) = limited.read_to_end(&mut bytes) {
        return Err(Fault::file(alloc, name, error));
    }
    if bytes.len() as u64 > LARGEST {
        return Err(Fault::file(alloc, name, "more than 100 MB"));
    }
    if bytes.starts_with(BYTE_ORDER_MARK) {
        bytes.drain(..BYTE_ORDER_MARK.len());
    }
    Ok(bytes)
}

/// Writes bytes to standard output. Returns false if nobody reads it any more.
pub fn write(rt: &HostRuntime, bytes: &[u8]) -> Result<bool, Fault> {
    let mut output = io::writer(rt);
    let written = match output.write_all(bytes) {
        Ok(()) => output.flush(),
        Err(error) => Err(error),
    };
    match written {
        Ok(()) => Ok(true),
        Err(error) if is_closed(&error) => Ok(false),
        Err(error) => Err(Fault::Output(error)),
    }
}

/// An iterator over lines without the byte that ends each. A rest after the last of these is a line too, unless it is empty.
#[derive(Drop)]
pub struct Lines<'a> {
    rest: &'a [u8],
    end: u8,
}

impl<'a> Lines<'a> {
    /// Returns the lines of these bytes, ended by this byte.
    pub fn new(bytes: &'a [u8], end: u8) -> Lines<'a> {
        Lines { rest: bytes, end }
    }
}

impl<'a> Iterator for Lines<'a> {
    type Item = &'a [u8];

    ghost remaining = { λ it. at_most (length it.rest.now) };

    fn next(&mut self) -> Option<&'a [u8]> {
        let rest = self.rest;
        if rest.is_empty() {
            return None;
        }
        let end = memchr(self.end, rest).unwrap_or(rest.len());
        self.rest = rest.get(end + 1..).unwrap_or(&[]);
        Some(&rest[..end])
    }
}
