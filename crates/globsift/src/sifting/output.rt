//! The output for lines, collected in a buffer, and how it is written.

ghost use Rattle.std.specs.Prelude.{◌≡◌, ◌++◌, [], false, IfOk, MatchResult, OnOk};
ghost use Rattle.globsift.specs.Output.{index_text};
ghost use Rattle.globsift.specs.inner.Outputs.{AreEquivalent, HandlesBytes, HandlesLine, PushesColumn, any_with_line, with_line};
ghost use Rattle.globsift.specs.inner.Sifting.{FailsMidway, WritesAllBut, WritesPrefix};

use super::fault::SiftFault;
use globset::{Candidate, GlobSet, Searcher};
use itoa::Buffer;
use memchr::memchr;
use std::alloc::{AllocError, Global};
use std::io::Write;

/// The pending output is written before each read, and once it has at least this many bytes. That is more than a read returns, so
/// that the plain output for a read is mostly one write.
const FULL: usize = (64 + 4) << 10;

/// The first capacity of the pending output: as much as is collected, and a line more.
const ROOM: usize = FULL + (4 << 10);

/// The output for lines: how it is made, the pending output, and whether there was any. The vectors keep their capacity from line
/// to line.
#[derive(Drop)]
pub struct Output {
    /// The searcher that lines are matched with.
    pub searcher: Searcher,
    /// Whether each line starts with the indexes that the set returns for it.
    pub numbered: bool,
    /// Output that was not written yet.
    pub pending: Vec<u8>,
    /// Whether some line is output, be it written or pending.
    pub any_written: bool,
}

impl Output {
    /// Returns an output with nothing pending, for this set and this form.
    pub fn new(alloc: Global, set: &GlobSet, numbered: bool) -> Result<Output, AllocError>
        ensures empty { IfOk result (λ output. output.pending.items ≡ []) }
        ensures unwritten { IfOk result (λ output. output.any_written ≡ false) }
        ensures set { IfOk result (λ output. output.searcher.set ≡ set.now) }
        ensures numbered { IfOk result (λ output. output.numbered ≡ numbered) }
    {
        Ok(Output {
            searcher: searcher_of(alloc, set)?,
            numbered,
            pending: Vec::with_capacity(alloc, ROOM)?,
            any_written: false,
        })
    }

    /// Appends the index column of a line that is matched, and returns whether the line is.
    fn push_index_column(&mut self, line: &[u8]) -> Result<bool, AllocError>
        ensures done { IfOk result (λ yes. PushesColumn self.old self.new line.now yes) }
        ensures equivalent { AreEquivalent self.old self.new }
    {
        let path = Candidate::from_bytes(line);
        if !self.numbered {
            return Ok(self.searcher.is_match(&path));
        }
        self.searcher.find(&path);
        if self.searcher.found().is_empty() {
            return Ok(false);
        }
        push_index_text(&mut self.pending, self.searcher.found())?;
        Ok(true)
    }

    /// Appends the output for a line.
    fn push_line_output(&mut self, line: &[u8]) -> Result<(), AllocError>
        ensures done { OnOk result ((self.new.pending.items ≡ with_line self.old line.now)
            × (self.new.any_written ≡ any_with_line self.old line.now)) }
        ensures equivalent { AreEquivalent self.old self.new }
    {
        if !self.push_index_column(line)? {
            return Ok(());
        }
        self.pending.extend_from_slice(line)?;
        self.pending.push(b'\n')?;
        self.any_written = true;
        Ok(())
    }

    /// Appends the output for a line, and writes the pending output if that fills the buffer.
    pub fn handle_line<W: Write>(&mut self, line: &[u8], writer: &mut W) -> Result<(), SiftFault>
        ensures done { HandlesLine self.old self.new (W.contents writer.old) (W.contents writer.new)
            line.now result }
        ensures equivalent { AreEquivalent self.old self.new }
    {
        self.push_line_output(line)?;
        if self.pending.len() >= FULL {
            return write_pending(&mut self.pending, writer);
        }
        Ok(())
    }

    /// Handles each whole line of the bytes, and returns the rest after the last LF.
    pub fn handle_lines<'a, W: Write>(
        &mut self,
        bytes: &'a [u8],
        writer: &mut W,
    ) -> Result<&'a [u8], SiftFault>
        ensures done { HandlesBytes self.old self.new (W.contents writer.old)
            (W.contents writer.new) bytes.now (λ rest. rest.now) result }
        ensures equivalent { AreEquivalent self.old self.new }
    {
        let mut rest = bytes;
        while let Some(i) = memchr(b'\n', rest) {
            self.handle_line(&rest[..i], writer)?;
            rest = &rest[i + 1..];
        }
        Ok(rest)
    }
}

/// Returns a searcher of the set.
fn searcher_of(alloc: Global, set: &GlobSet) -> Result<Searcher, AllocError>
    ensures { IfOk result (λ searcher. searcher.set ≡ set.now) }
{
    match Searcher::new(alloc, set) {
        Ok(searcher) => Ok(searcher),
        Err(_) => Err(AllocError),
    }
}

/// Appends the indexes in decimal, separated by `,`, and a tab.
fn push_index_text(output: &mut Vec<u8>, indexes: &[usize]) -> Result<(), AllocError>
    ensures { OnOk result (output.new.items ≡ output.old.items ++ index_text indexes.now) }
{
    let mut digits = Buffer::new();
    for (i, index) in indexes.iter().enumerate() {
        if i > 0 {
            output.push(b',')?;
        }
        output.extend_from_slice(digits.format(*index).as_bytes())?;
    }
    output.push(b'\t')?;
    Ok(())
}

/// Writes all of the bytes. Returns false if the writer fails, after a prefix of them.
fn write_prefix<W: Write>(bytes: &[u8], writer: &mut W) -> bool
    ensures { WritesPrefix (W.contents writer.old) (W.contents writer.new) bytes.now result }
{
    let mut rest = bytes;
    while !rest.is_empty() {
        match writer.write(rest) {
            Ok(0) | Err(_) => return false,
            Ok(n) => rest = &rest[n..],
        }
    }
    true
}

/// Writes all of the pending bytes and clears the vector. After an error a prefix of them was written.
pub fn write_pending<W: Write>(pending: &mut Vec<u8>, writer: &mut W) -> Result<(), SiftFault>
    ensures { MatchResult result
        (λ _. WritesAllBut (W.contents writer.old) (W.contents writer.new)
        pending.new.items pending.old.items × (pending.new.items ≡ []))
        (FailsMidway (W.contents writer.old) (W.contents writer.new) pending.old.items) }
{
    if write_prefix(pending.as_slice(), writer) {
        pending.clear();
        Ok(())
    } else {
        Err(SiftFault::Write)
    }
}
