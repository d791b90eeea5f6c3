//! The globs of a command line, and of the files that it names.

use crate::fault::{Fault, Shown};
use crate::input::{Lines, read_file};
use clap::ArgMatches;
use globset::{Error, Glob, GlobBuilder, GlobSetBuilder, Searcher};
use std::alloc::Global;
use std::fmt::Display;
use std::str;

/// How globs are read.
#[derive(Clone, Copy)]
pub struct Reading {
    case_insensitive: bool,
    literal_separator: bool,
    empty_alternates: bool,
    allow_unclosed_class: bool,
    no_escape: bool,
}

impl Reading {
    /// Returns how the options of a command line have globs read.
    pub fn of(found: &ArgMatches<'_>) -> Reading {
        Reading {
            case_insensitive: found.get_flag("ignore-case"),
            literal_separator: found.get_flag("separator"),
            empty_alternates: found.get_flag("empty-alternates"),
            allow_unclosed_class: found.get_flag("unclosed-class"),
            no_escape: found.get_flag("no-escape"),
        }
    }

    /// Returns whether `*` and `?` do not match `/`.
    pub fn has_separator(self) -> bool {
        self.literal_separator
    }

    /// Returns the glob of a text.
    pub fn glob(self, alloc: Global, text: &str) -> Result<Glob, Error> {
        GlobBuilder::new(text)
            .case_insensitive(self.case_insensitive)
            .literal_separator(self.literal_separator)
            .empty_alternates(self.empty_alternates)
            .allow_unclosed_class(self.allow_unclosed_class)
            .backslash_escape(!self.no_escape)
            .build(alloc)
    }
}

/// Globs as they are read, in order. The error of each text that is none is printed.
#[derive(Drop)]
pub struct GlobList {
    pub globs: Vec<Glob>,
    has_failed: bool,
}

impl GlobList {
    /// Returns no globs.
    pub fn new(alloc: Global) -> GlobList {
        GlobList {
            globs: Vec::new(alloc),
            has_failed: false,
        }
    }

    /// Adds the glob of a text. Prints the error, with the place that the text has, if it is none.
    fn push(
        &mut self,
        rt: &HostRuntime,
        reading: Reading,
        place: impl Display + Drop,
        text: &str,
    ) -> Result<(), Fault> {
        match reading.glob(rt.alloc(), text) {
            Ok(glob) => Ok(self.globs.push(glob)?),
            Err(error) => {
                let Some(offset) = error.offset() else {
                    return Err(Fault::from(error));
                };
                self.has_failed = true;
                print_error(rt, place, text, offset, error.kind())
            }
        }
    }

    /// Adds the globs of these texts, of which the first has this number.
    pub fn push_texts(
        &mut self,
        rt: &HostRuntime,
        reading: Reading,
        word: &str,
        texts: Option<&[&str]>,
    ) -> Result<(), Fault> {
        for (i, text) in texts.unwrap_or(&[]).iter().enumerate() {
            let place = format!(in rt.alloc(); "{word} {}", i.saturating_add(1))?;
            self.push(rt, reading, place.as_str(), text)?;
        }
        Ok(())
    }

    /// Adds the globs of files: of each line that is not blank and does not begin with `#`.
    pub fn push_files(
        &mut self,
        rt: &HostRuntime,
        reading: Reading,
        names: Option<&[&str]>,
    ) -> Result<(), Fault> {
        for name in names.unwrap_or(&[]) {
            let bytes = read_file(rt, name)?;
            for (i, line) in Lines::new(&bytes, b'\n').enumerate() {
                let line = line.strip_suffix(b"\r").unwrap_or(line);
                self.push_line(rt, reading, name, i.saturating_add(1), line)?;
            }
        }
        Ok(())
    }

    /// Adds the glob of a line of a file, if it has one.
    fn push_line(
        &mut self,
        rt: &HostRuntime,
        reading: Reading,
        name: &str,
        number: usize,
        line: &[u8],
    ) -> Result<(), Fault> {
        let place = format!(in rt.alloc(); "{}:{number}", Shown(name.as_bytes()))?;
        match str::from_utf8(line) {
            Ok(text) if text.trim().is_empty() || text.starts_with('#') => Ok(()),
            Ok(text) => self.push(rt, reading, place.as_str(), text),
            Err(error) => {
                self.has_failed = true;
                let valid = line.get(..error.valid_up_to()).unwrap_or(&[]);
                let column = str::from_utf8(valid).unwrap_or("").chars().count();
                let column = column.saturating_add(1);
                let _ = eprintln!(rt; "globs: {place}:{column}: not UTF-8\n  {}", Shown(line));
                Ok(())
            }
        }
    }

    /// Fails if the error of a glob was printed.
    pub fn finish(&self) -> Result<(), Fault> {
        if self.has_failed {
            Err(Fault::Printed)
        } else {
            Ok(())
        }
    }

    /// Returns a searcher of the globs, as a set.
    pub fn searcher(self, alloc: Global) -> Result<Searcher, Fault> {
        let mut set = GlobSetBuilder::new(alloc);
        for glob in self.globs {
            set.push(glob)?;
        }
        Ok(Searcher::new(alloc, &set.into_set()?)?)
    }
}

/// Prints the error of a text: its place and column, counted in characters from 1, the reason, and the text with a mark under the
/// byte of this offset.
fn print_error(
    rt: &HostRuntime,
    place: impl Display + Drop,
    text: &str,
    offset: usize,
    reason: impl Display + Drop,
) -> Result<(), Fault> {
    let alloc = rt.alloc();
    let before = text.get(..offset).unwrap_or(text);
    let column = before.chars().count().saturating_add(1);
    let reason = reason.to_string(alloc)?;
    let reason = Shown(reason.as_bytes());
    let width = Shown(before.as_bytes()).to_string(alloc)?.chars().count();
    let spaces = " ".repeat(alloc, width)?;
    let text = Shown(text.as_bytes());
    let _ = eprintln!(rt; "globs: {place}:{column}: {reason}\n  {text}\n  {spaces}^");
    Ok(())
}
