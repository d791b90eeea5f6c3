//! A command: how it is called, its input and output, how it ends, and the texts of its errors.

use std::alloc::{AllocError, Global};
use std::fmt::{self, Display};
use std::io::{self, Read, Write};
use std::process::ExitCode;

/// A command, or the program without a command.
#[derive(Clone, Copy)]
pub struct Command {
    /// Its name, the start of its error messages.
    pub name: &'static str,
    /// The text of `--help`, without the last LF. The first line is the usage.
    pub help: &'static str,
}

impl Command {
    /// Returns the exit status of a run that ended so. It prints the help if that was asked for, or the text of an error.
    pub fn end(&self, rt: &HostRuntime, ended: Result<ExitCode, Fault>) -> ExitCode {
        let ended = match ended {
            Err(Fault::Help) => print_text(rt, self.help),
            ended => ended,
        };
        match ended {
            Ok(status) => status,
            Err(fault) => {
                self.report(rt, &fault);
                ExitCode::from(2)
            }
        }
    }

    /// Writes the text of an error to standard error, if that can be written.
    pub fn report(&self, rt: &HostRuntime, fault: &Fault) {
        let _ = match fault {
            Fault::Usage => rt.eprintln(self.help.lines().next().unwrap_or("")),
            fault => eprintln!(rt; "{}: {fault}", self.name),
        };
    }
}

/// Returns the name of a file, if it is the only argument.
pub fn only_name(arguments: &[String]) -> Result<&str, Fault> {
    match arguments {
        [argument] if matches!(argument.as_str(), "-h" | "--help") => Err(Fault::Help),
        [name] => Ok(name.as_str()),
        _ => Err(Fault::Usage),
    }
}

/// Reads standard input to its end. Fails if it cannot be read.
pub fn read_input(rt: &HostRuntime) -> Result<Vec<u8>, Fault> {
    let mut bytes = Vec::new(rt.alloc());
    rt.reader().read_to_end(&mut bytes).map_err(Fault::Input)?;
    Ok(bytes)
}

/// Adds these parts to an output, which is written at once, so that an error before leaves nothing written.
pub fn push(output: &mut Vec<u8>, parts: &[&[u8]]) -> Result<(), AllocError> {
    for part in parts {
        output.extend_from_slice(part)?;
    }
    Ok(())
}

/// Writes these bytes to standard output, and returns the exit status. After an error a beginning of them was written.
pub fn print(rt: &HostRuntime, bytes: &[u8]) -> Result<ExitCode, Fault> {
    let mut stdout = io::writer(rt);
    stdout.write_all(bytes).map_err(Fault::Output)?;
    stdout.flush().map_err(Fault::Output)?;
    Ok(ExitCode::SUCCESS)
}

/// Writes a text and LF to standard output, and returns the exit status.
pub fn print_text(rt: &HostRuntime, text: &str) -> Result<ExitCode, Fault> {
    rt.println(text).map_err(Fault::Output)?;
    Ok(ExitCode::SUCCESS)
}

/// Why a command ends early. It is printed without the command's name.
#[derive(Drop)]
pub enum Fault {
    /// The help is asked for.
    Help,
    /// The arguments are not as the usage has them.
    Usage,
    /// The arguments cannot be read, for example since an argument is not UTF-8.
    Arguments(io::Error),
    /// What is wrong with a file, or with a line of it.
    Text(String),
    /// A glob of the command line is none, or memory ran out.
    Glob(globset::Error),
    /// Standard input cannot be read.
    Input(io::Error),
    /// Standard output cannot be written.
    Output(io::Error),
}

impl Fault {
    /// Returns the error of a file that cannot be read.
    pub fn file(alloc: Global, name: &str, error: io::Error) -> Fault {
        match format!(in alloc; "{}: {error}", Shown(name.as_bytes())) {
            Ok(text) => Fault::Text(text),
            Err(error) => Fault::from(error),
        }
    }
}

impl fmt::Display for Fault {
    fn fmt<W: fmt::Write>(&self, f: &mut fmt::Formatter<W>) -> fmt::Result {
        match self {
            Fault::Help | Fault::Usage => f.write_str("wrong usage"),
            Fault::Arguments(error) => write!(f, "arguments: {error}"),
            Fault::Text(text) => f.write_str(text.as_str()),
            Fault::Glob(error) => error.fmt(f),
            Fault::Input(error) => write!(f, "standard input: {error}"),
            Fault::Output(error) => write!(f, "standard output: {error}"),
        }
    }
}

impl<E: Into<globset::Error>> From<E> for Fault {
    fn from(error: E) -> Fault {
        Fault::Glob(error.into())
    }
}

/// Bytes that are printed as text. Control characters, and bytes that are not UTF-8, are printed escaped, as `\n` and `\xff`.
#[derive(Clone, Copy)]
pub struct Shown<'a>(pub &'a [u8]);

impl Display for Shown<'_> {
    fn fmt<W: fmt::Write>(&self, f: &mut fmt::Formatter<W>) -> fmt::Result {
        for chunk in self.0.utf8_chunks() {
            for character in chunk.valid().chars() {
                if character.is_control() {
                    character.escape_default().fmt(f)?;
                } else {
                    f.write_char(character)?;
                }
            }
            chunk.invalid().escape_ascii().fmt(f)?;
        }
        Ok(())
    }
}
