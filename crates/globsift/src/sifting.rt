//! From a reader to a writer: the lines that a set of globs matches.

ghost use Rattle.std.specs.Prelude.{◌≡◌, IfErr, IfOk, length};
ghost use Rattle.globset.specs.SetValue.{set_globs};
ghost use Rattle.globsift.specs.Output.{SiftSucceeds, SiftFails};

pub mod fault;
mod output;
mod sifter;

use fault::SiftFault;
use globset::GlobSet;
use output::write_pending;
use sifter::Sifter;
use std::alloc::{AllocError, Global};
use std::io::{Read, Write};

/// The number of bytes that are read at once.
const CHUNK: usize = 65536;

/// Returns a vector of `count` zero bytes, to read into.
fn zeros(alloc: Global, count: usize) -> Result<Vec<u8>, AllocError>
    ensures { IfOk result (λ v. length v.items ≡ count) }
{
    vec![in alloc; 0u8; count]
}

/// Writes each line of the input that the set matches, followed by LF, and returns whether there was any.
///
/// The input is cut at each LF. A nonempty rest after the last LF is a line too. A line is a path of any bytes. With
/// `numbered`, each line starts with the indexes that the set returns for it, ascending, in decimal and separated by `,`,
/// and a tab.
///
/// All output for the read lines is written before the next read, which may wait: so the output for a line is written as soon as
/// its LF was read. If reads do not wait, the output comes in large pieces, since up to 64 KiB are read at once. The writer is
/// flushed at the end alone.
///
/// On success all output was written and the writer was flushed. The call allocates a buffer for input (64 KiB), for pending
/// output (68 KiB and a line's output), and for the beginning of a line whose end was not read yet. It also makes a
/// [`Searcher`](globset::Searcher) of the set. Matching a line allocates nothing more.
///
/// # Errors
///
/// No call that failed is tried again, and no flush is tried after an error.
///
/// - [`SiftFault::Read`] if a read fails, or the end is not found after 2^64 - 1 reads. The output for all lines that were
///   read whole is written before.
/// - [`SiftFault::Write`] if a write or the flush fails, or a write accepts no bytes. A prefix of the output was written.
/// - [`SiftFault::OutOfMemory`] if an allocation fails. A prefix of the output was written.
pub fn sift<R: Read, W: Write>(
    alloc: Global,
    set: &GlobSet,
    numbered: bool,
    reader: &mut R,
    writer: &mut W,
) -> Result<bool, SiftFault>
    ensures ok { IfOk result (SiftSucceeds (set_globs set.now) numbered (R.remaining reader.old)
        (R.remaining reader.new) (W.contents writer.old) (W.contents writer.new)) }
    ensures err { IfErr result (SiftFails (set_globs set.now) numbered (R.remaining reader.old)
        (R.remaining reader.new) (W.contents writer.old) (W.contents writer.new)) }
{
    let mut chunk = zeros(alloc, CHUNK)?;
    let mut sifter = Sifter::new(alloc, set, numbered)?;
    for _ in 0..u64::MAX {
        let output = &mut sifter.output;
        write_pending(&mut output.pending, writer)?;
        let n = match reader.read(chunk.as_mut_slice()) {
            Ok(n) => n,
            Err(_) => return Err(SiftFault::Read),
        };
        if n == 0 {
            return sifter.finish(writer);
        }
        sifter.handle_chunk(&chunk[..n], writer)?;
    }
    let output = &mut sifter.output;
    write_pending(&mut output.pending, writer)?;
    Err(SiftFault::Read)
}
