//! The input, in chunks: its lines, and the bytes since the last LF.

ghost use Rattle.std.specs.Prelude.{◌≡◌, [], ◌++◌, false, IfOk};
ghost use Rattle.std.specs.List.{list_any};
ghost use Rattle.globsift.specs.Lines.{is_lf};
ghost use Rattle.globsift.specs.inner.Outputs.{AreEquivalent, HandlesAll, HandlesBytes, WritesAll};

use super::fault::SiftFault;
use super::output::{Output, write_pending};
use globset::GlobSet;
use memchr::memchr;
use std::alloc::{AllocError, Global};
use std::io::Write;

/// The state between chunks.
#[derive(Drop)]
pub struct Sifter {
    /// The output for the lines so far.
    pub output: Output,
    /// The beginning of a line whose end was not read yet. The vector keeps its capacity.
    pub rest: Vec<u8>,
}

impl Sifter {
    /// Returns a sifter that was given no chunk yet, for this set and this form.
    pub fn new(alloc: Global, set: &GlobSet, numbered: bool) -> Result<Sifter, AllocError>
        ensures empty { IfOk result (λ sifter. sifter.output.pending.items ≡ []) }
        ensures unwritten { IfOk result (λ sifter. sifter.output.any_written ≡ false) }
        ensures set { IfOk result (λ sifter. sifter.output.searcher.set ≡ set.now) }
        ensures numbered { IfOk result (λ sifter. sifter.output.numbered ≡ numbered) }
        ensures rest { IfOk result (λ sifter. sifter.rest.items ≡ []) }
    {
        Ok(Sifter {
            output: Output::new(alloc, set, numbered)?,
            rest: Vec::new(alloc),
        })
    }

    /// Handles each whole line of the bytes, and keeps the rest after the last LF. None was kept before.
    fn handle_lines_and_keep_rest<W: Write>(
        &mut self,
        bytes: &[u8],
        writer: &mut W,
    ) -> Result<(), SiftFault>
        requires { self.old.rest.items ≡ [] }
        ensures done { HandlesBytes self.old.output self.new.output (W.contents writer.old)
            (W.contents writer.new) bytes.now (λ _. self.new.rest.items) result }
        ensures equivalent { AreEquivalent self.old.output self.new.output }
    {
        let tail = self.output.handle_lines(bytes, writer)?;
        self.rest.extend_from_slice(tail)?;
        Ok(())
    }

    /// Handles the next chunk of the input, and keeps the bytes since the last LF.
    pub fn handle_chunk<W: Write>(&mut self, chunk: &[u8], writer: &mut W) -> Result<(), SiftFault>
        requires { list_any is_lf self.old.rest.items ≡ false }
        ensures done { HandlesBytes self.old.output self.new.output (W.contents writer.old)
            (W.contents writer.new) (self.old.rest.items ++ chunk.now) (λ _. self.new.rest.items)
            result }
        ensures equivalent { AreEquivalent self.old.output self.new.output }
    {
        if self.rest.is_empty() {
            return self.handle_lines_and_keep_rest(chunk, writer);
        }
        let Some(i) = memchr(b'\n', chunk) else {
            self.rest.extend_from_slice(chunk)?;
            return Ok(());
        };
        self.rest.extend_from_slice(&chunk[..i])?;
        self.output.handle_line(self.rest.as_slice(), writer)?;
        self.rest.clear();
        self.handle_lines_and_keep_rest(&chunk[i + 1..], writer)
    }

    /// Handles the rest after the last LF of the input, which is a line if it is not empty.
    fn handle_rest<W: Write>(&mut self, writer: &mut W) -> Result<(), SiftFault>
        requires { list_any is_lf self.old.rest.items ≡ false }
        ensures { HandlesAll self.old.output self.new.output (W.contents writer.old)
            (W.contents writer.new) self.old.rest.items result }
    {
        let rest = self.rest.as_slice();
        if rest.is_empty() {
            return Ok(());
        }
        self.output.handle_line(rest, writer)
    }

    /// Handles the end of the input: handles the rest, writes the pending output and flushes the writer. Returns whether some
    /// line was output.
    pub fn finish<W: Write>(&mut self, writer: &mut W) -> Result<bool, SiftFault>
        requires { list_any is_lf self.old.rest.items ≡ false }
        ensures { WritesAll self.old.output (W.contents writer.old) (W.contents writer.new)
            self.old.rest.items result }
    {
        self.handle_rest(writer)?;
        let output = &mut self.output;
        write_pending(&mut output.pending, writer)?;
        match writer.flush() {
            Ok(()) => Ok(output.any_written),
            Err(_) => Err(SiftFault::Write),
        }
    }
}
