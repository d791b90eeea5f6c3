//! A command line, parsed and executed, and why that stops.

ghost use Rattle.std.specs.Prelude.{map, IfErr, IfOk, string_bytes};
ghost use Rattle.globsift.specs.Program.{Succeeds, Fails};

use crate::arguments::command;
use crate::arguments::fault::CommandFault;
use crate::sifting::fault::SiftFault;
use crate::sifting::sift;
use std::alloc::Global;
use std::fmt;
use std::io::{Read, Write};

/// Executes the arguments of a command line on the reader's input, and returns whether any line was written.
///
/// [`command`] parses the arguments, and [`sift`] reads and writes. Returns the error of either. After an error in the arguments,
/// nothing was read or written.
pub fn write_matching_lines<R: Read, W: Write>(
    alloc: Global,
    arguments: &[String],
    reader: &mut R,
    writer: &mut W,
) -> Result<bool, ProgramFault>
    ensures ok { IfOk result (Succeeds (map string_bytes arguments.now) (R.remaining reader.old)
        (R.remaining reader.new) (W.contents writer.old) (W.contents writer.new)) }
    ensures err { IfErr result (Fails (map string_bytes arguments.now) (R.remaining reader.old)
        (R.remaining reader.new) (W.contents writer.old) (W.contents writer.new)) }
{
    let command = command(alloc, arguments)?;
    Ok(sift(alloc, &command.set, command.numbered, reader, writer)?)
}

/// The error of [`write_matching_lines`].
#[derive(Debug, Drop)]
pub enum ProgramFault {
    /// The command-line arguments are rejected.
    Command(CommandFault),
    /// [`sift`] stopped before the end.
    Sift(SiftFault),
}

impl fmt::Display for ProgramFault {
    ghost use Rattle.std.specs.Prelude.{Some};
    ghost use Rattle.globsift.specs.Texts.{fault_text};

    ghost output = { λ fault. Some (fault_text fault) };

    fn fmt<W: fmt::Write>(&self, f: &mut fmt::Formatter<W>) -> fmt::Result {
        match self {
            ProgramFault::Command(fault) => fault.fmt(f),
            ProgramFault::Sift(fault) => fault.fmt(f),
        }
    }
}

impl std::error::Error for ProgramFault {}

impl From<CommandFault> for ProgramFault {
    ghost use Rattle.std.specs.Prelude.{◌≡◌};
    ghost use Rattle.globsift.specs.declared.program.ProgramFault.TheVariants.{Command};

    ghost from_gives = { λ cause fault. fault ≡ Command cause };

    fn from(cause: CommandFault) -> ProgramFault {
        ProgramFault::Command(cause)
    }
}

impl From<SiftFault> for ProgramFault {
    ghost use Rattle.std.specs.Prelude.{◌≡◌};
    ghost use Rattle.globsift.specs.declared.program.ProgramFault.TheVariants.{Sift};

    ghost from_gives = { λ cause fault. fault ≡ Sift cause };

    fn from(cause: SiftFault) -> ProgramFault {
        ProgramFault::Sift(cause)
    }
}
