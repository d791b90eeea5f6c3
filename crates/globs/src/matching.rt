//! `globs match` prints the lines of its input that globs match.

use crate::fault::Fault;
use crate::globs::{GlobList, Reading};
use crate::input::{Lines, write};
use clap::ArgMatches;
use glob_answers::selection::is_kept;
use globset::{Candidate, Searcher};
use memchr::memrchr;
use std::alloc::{AllocError, Global};
use std::fs::File;
use std::io::{self, Read};
use std::mem;

/// The number of bytes that are read at once.
const CHUNK: usize = 65536;

/// The number of bytes of pending output that is written at once.
const FULL: usize = 65536;

/// What a command line says of lines, and what was found so far.
#[derive(Drop)]
struct Filter {
    /// The globs of which one has to match.
    globs: Searcher,
    /// The globs of which none may match.
    exceptions: Searcher,
    is_inverted: bool,
    is_numbered: bool,
    is_quiet: bool,
    is_count: bool,
    /// The byte that ends a line.
    end: u8,
    /// The lines that were kept.
    count: u64,
    /// The beginning of a line whose end was not read yet.
    rest: Vec<u8>,
    /// Output that was not written yet.
    pending: Vec<u8>,
}

/// How the reading of lines goes on.
#[derive(Clone, Copy, PartialEq, Eq)]
enum Next {
    /// With more of the input.
    More,
    /// Not at all: nobody needs more output.
    End,
}

/// Prints the lines that are kept, and returns whether there was any.
pub fn run(rt: &HostRuntime, found: &ArgMatches<'_>) -> Result<bool, Fault> {
    let alloc = rt.alloc();
    let mut filter = Filter::new(rt, found)?;
    match found.get_str("paths-from") {
        Some(name) => {
            let mut file = File::open(rt, name).map_err(|error| Fault::file(alloc, name, error))?;
            filter.read_all(rt, &mut file, Some(name))?;
        }
        None => filter.read_all(rt, &mut rt.reader(), None)?,
    }
    Ok(filter.count > 0)
}

impl Filter {
    /// Returns the filter of a command line. Fails if a text is not a glob.
    fn new(rt: &HostRuntime, found: &ArgMatches<'_>) -> Result<Filter, Fault> {
        let alloc = rt.alloc();
        let reading = Reading::of(found);
        let mut globs = GlobList::new(alloc);
        globs.push_texts(rt, reading, "glob", found.get_strs("GLOB"))?;
        globs.push_files(rt, reading, found.get_strs("globs-from"))?;
        let mut exceptions = GlobList::new(alloc);
        exceptions.push_texts(rt, reading, "-x glob", found.get_strs("exclude"))?;
        globs.finish()?;
        exceptions.finish()?;
        Ok(Filter {
            globs: globs.searcher(alloc)?,
            exceptions: exceptions.searcher(alloc)?,
            is_inverted: found.get_flag("invert"),
            is_numbered: found.get_flag("indexes"),
            is_quiet: found.get_flag("quiet"),
            is_count: found.get_flag("count"),
            end: if found.get_flag("null") { b'\0' } else { b'\n' },
            count: 0,
            rest: Vec::new(alloc),
            pending: Vec::new(alloc),
        })
    }

    /// Reads an input to its end, unless nobody needs more output. Writes what is pending before each read, which may wait.
    fn read_all<R: Read>(
        &mut self,
        rt: &HostRuntime,
        input: &mut R,
        name: Option<&str>,
    ) -> Result<(), Fault> {
        let mut chunk = vec![in rt.alloc(); 0u8; CHUNK]?;
        for _ in 0..u64::MAX {
            if self.write_pending(rt)? == Next::End {
                return Ok(());
            }
            let count = match input.read(chunk.as_mut_slice()) {
                Ok(count) => count,
                Err(error) => return Err(input_fault(rt.alloc(), name, error)),
            };
            if count == 0 {
                break;
            }
            if self.take_chunk(rt, chunk.get(..count).unwrap_or(&[]))? == Next::End {
                return Ok(());
            }
        }
        self.finish(rt)
    }

    /// Takes the next bytes of the input: handles the lines that end in them, and keeps the bytes since the last end.
    fn take_chunk(&mut self, rt: &HostRuntime, chunk: &[u8]) -> Result<Next, Fault> {
        let Some(last) = memrchr(self.end, chunk) else {
            self.rest.extend_from_slice(chunk)?;
            return Ok(Next::More);
        };
        let (whole, after) = chunk.split_at(last.saturating_add(1).min(chunk.len()));
        let mut begun = mem::replace(&mut self.rest, Vec::new(rt.alloc()));
        self.rest.extend_from_slice(after)?;
        for line in Lines::new(whole, self.end) {
            let next = if begun.is_empty() {
                self.take_line(rt, line)?
            } else {
                begun.extend_from_slice(line)?;
                let next = self.take_line(rt, &begun)?;
                begun.clear();
                next
            };
            if next == Next::End {
                return Ok(Next::End);
            }
        }
        Ok(Next::More)
    }

    /// Handles the end of the input: a rest is a line too, unless it is empty. Writes the number of lines if that is wanted.
    fn finish(&mut self, rt: &HostRuntime) -> Result<(), Fault> {
        let rest = mem::replace(&mut self.rest, Vec::new(rt.alloc()));
        if !rest.is_empty() && self.take_line(rt, &rest)? == Next::End {
            return Ok(());
        }
        if self.is_count {
            let text = format!(in rt.alloc(); "{}\n", self.count)?;
            self.pending.extend_from_slice(text.as_bytes())?;
        }
        self.write_pending(rt)?;
        Ok(())
    }

    /// Handles a line.
    fn take_line(&mut self, rt: &HostRuntime, line: &[u8]) -> Result<Next, Fault> {
        let path = Candidate::from_bytes(line);
        if !is_kept(
            &mut self.globs,
            &mut self.exceptions,
            self.is_inverted,
            &path,
        ) {
            return Ok(Next::More);
        }
        self.count = self.count.saturating_add(1);
        if self.is_quiet {
            return Ok(Next::End);
        }
        if self.is_count {
            return Ok(Next::More);
        }
        if self.is_numbered {
            self.push_indexes(rt.alloc(), &path)?;
        }
        self.pending.extend_from_slice(line)?;
        self.pending.push(self.end)?;
        if self.pending.len() < FULL {
            return Ok(Next::More);
        }
        self.write_pending(rt)
    }

    /// Adds the indexes of the globs that match a path to the pending output, separated by `,`, and a tab.
    fn push_indexes(&mut self, alloc: Global, path: &Candidate<'_>) -> Result<(), AllocError> {
        let mut separator = "";
        for index in self.globs.matches(path) {
            let text = format!(in alloc; "{separator}{index}")?;
            self.pending.extend_from_slice(text.as_bytes())?;
            separator = ",";
        }
        Ok(self.pending.push(b'\t')?)
    }

    /// Writes what is pending.
    fn write_pending(&mut self, rt: &HostRuntime) -> Result<Next, Fault> {
        let is_open = write(rt, &self.pending)?;
        self.pending.clear();
        Ok(if is_open { Next::More } else { Next::End })
    }
}

/// Returns the error of an input that cannot be read, which has this name, or is standard input.
fn input_fault(alloc: Global, name: Option<&str>, error: io::Error) -> Fault {
    match name {
        Some(name) => Fault::file(alloc, name, error),
        None => Fault::Input(error),
    }
}
