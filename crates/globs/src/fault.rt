//! Why a command ends early, and the text of that.

use std::alloc::Global;
use std::fmt::{self, Display};
use std::io::{self, ErrorKind};
use std::process::ExitCode;
use std::rt::Env;
use std::str;

/// The most bytes of an argument that is printed.
const ARGUMENT: usize = 131_072;

/// Why a command ends early.
#[derive(Drop)]
pub enum Fault {
    /// The command line cannot be read, or asks for help.
    Usage(clap::Error),
    /// What is wrong with a file or an argument.
    Text(String),
    /// What is wrong was printed.
    Printed,
    /// Memory ran out.
    Memory(globset::Error),
    /// Standard input cannot be read.
    Input(io::Error),
    /// Standard output cannot be written.
    Output(io::Error),
}

impl Fault {
    /// Returns the error of a file that cannot be read.
    pub fn file(alloc: Global, name: &str, error: impl Display + Drop) -> Fault {
        match format!(in alloc; "{}: {error}", Shown(name.as_bytes())) {
            Ok(text) => Fault::Text(text),
            Err(error) => Fault::from(error),
        }
    }

    /// Prints the text of the fault to standard error, or the help to standard output, and returns the exit status. Nothing is
    /// printed if nobody reads the output any more.
    pub fn end(&self, rt: &HostRuntime) -> ExitCode {
        match self {
            Fault::Usage(error) => {
                let printed = error.print(rt);
                let is_help = !error.use_stderr() && printed.is_ok();
                return ExitCode::from(if is_help { 0 } else { 2 });
            }
            Fault::Printed => {}
            fault => {
                let _ = eprintln!(rt; "globs: {fault}");
            }
        }
        ExitCode::from(2)
    }
}

impl Display for Fault {
    fn fmt<W: fmt::Write>(&self, f: &mut fmt::Formatter<W>) -> fmt::Result {
        match self {
            Fault::Usage(error) => error.fmt(f),
            Fault::Text(text) => f.write_str(text.as_str()),
            Fault::Printed => Ok(()),
            Fault::Memory(error) => error.fmt(f),
            Fault::Input(error) => write!(f, "standard input: {error}"),
            Fault::Output(error) => write!(f, "standard output: {error}"),
        }
    }
}

impl<E: Into<globset::Error>> From<E> for Fault {
    fn from(error: E) -> Fault {
        Fault::Memory(error.into())
    }
}

/// Returns the error of the arguments: the number and the bytes of the first that is not UTF-8. The program's name has the number
/// 0. If each is UTF-8, the error is the one given.
pub fn argument_fault(rt: &HostRuntime, error: io::Error) -> Result<Fault, Fault> {
    let alloc = rt.alloc();
    let mut buffer = vec![in alloc; 0u8; ARGUMENT]?;
    for i in 0..usize::MAX {
        let Ok(count) = rt.arg(i, buffer.as_mut_slice()) else {
            break;
        };
        let bytes = buffer.get(..count).unwrap_or(&[]);
        if str::from_utf8(bytes).is_err() {
            let text = format!(in alloc; "argument {i}: not UTF-8: {}", Shown(bytes))?;
            return Ok(Fault::Text(text));
        }
    }
    Ok(Fault::Text(format!(in alloc; "arguments: {error}")?))
}

/// Returns whether nobody reads an output any more, by the error of a write.
pub fn is_closed(error: &io::Error) -> bool {
    error.kind() == ErrorKind::BrokenPipe
}

/// Bytes that are printed as text. Control characters, and bytes that are not UTF-8, are printed escaped, as `\n` and `\xff`.
#[derive(Clone, Copy)]
pub struct Shown<'a>(pub &'a [u8]);

impl Display for Shown<'_> {
    fn fmt<W: fmt::Write>(&self, f: &mut fmt::Formatter<W>) -> fmt::Result {
        for chunk in self.0.utf8_chunks() {
            for character in chunk.valid().chars() {
                if character.is_control() {
                    character.escape_default().fmt(f)?;
                } else {
                    f.write_char(character)?;
                }
            }
            chunk.invalid().escape_ascii().fmt(f)?;
        }
        Ok(())
    }
}
