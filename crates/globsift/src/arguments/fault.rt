//! Why the arguments of a command line are rejected.

use globset::{Error, ValueError};
use std::fmt;

/// Why the arguments of a command line are rejected.
#[derive(Debug, Drop)]
pub enum CommandFault {
    /// This argument starts with `-` and is no flag.
    UnknownOption(String),
    /// There is no glob, and no `--set`.
    NoGlob,
    /// No argument follows `--set`.
    SetWithoutText,
    /// There is an argument other than `-n`, `--set` and its text.
    SetNotAlone,
    /// The text after `--set` is not JSON.
    NotJson,
    /// The text of a glob is rejected, or memory ran out.
    Glob(Error),
    /// The JSON value is not an array of globs.
    Value(ValueError),
}

impl fmt::Display for CommandFault {
    ghost use Rattle.std.specs.Prelude.{Some};
    ghost use Rattle.globsift.specs.Command.{fault_value};
    ghost use Rattle.globsift.specs.Texts.{command_fault_text};

    ghost output = { λ fault. Some (command_fault_text (fault_value fault)) };

    fn fmt<W: fmt::Write>(&self, f: &mut fmt::Formatter<W>) -> fmt::Result {
        match self {
            CommandFault::UnknownOption(argument) => write!(f, "unknown option '{argument}'"),
            CommandFault::NoGlob => f.write_str("no glob given"),
            CommandFault::SetWithoutText => f.write_str("--set takes a text"),
            CommandFault::SetNotAlone => f.write_str("--set stands alone or beside -n"),
            CommandFault::NotJson => f.write_str("not a JSON text"),
            CommandFault::Glob(error) => error.fmt(f),
            CommandFault::Value(error) => error.fmt(f),
        }
    }
}

impl std::error::Error for CommandFault {}

impl From<Error> for CommandFault {
    ghost use Rattle.std.specs.Prelude.{◌≡◌};
    ghost use Rattle.globsift.specs.declared.arguments.fault.CommandFault.TheVariants.{Glob};

    ghost from_gives = { λ error fault. fault ≡ Glob error };

    fn from(error: Error) -> CommandFault {
        CommandFault::Glob(error)
    }
}
