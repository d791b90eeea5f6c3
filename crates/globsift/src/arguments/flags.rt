//! Flags, and the globs that are read under them.

ghost use Rattle.std.specs.Prelude.{◌≡◌, MatchResult, Ok};
ghost use Rattle.globsift.specs.Command.{IsFaultOf, glob_or_fault, is_flag};
ghost use Rattle.globsift.specs.inner.Parsing.{flags_after, glob_with_flags, no_flags};

use super::fault::CommandFault;
use globset::{Glob, GlobBuilder};
use std::alloc::Global;

/// The flags in force, and whether there was an `-n`.
#[derive(Clone, Copy)]
pub struct Flags {
    /// `-i` is in force.
    case_insensitive: bool,
    /// `-s` is in force.
    literal_separator: bool,
    /// `-e` is in force.
    empty_alternates: bool,
    /// `-u` is in force.
    allow_unclosed_class: bool,
    /// `-b` is in force.
    no_escape: bool,
    /// There was an `-n`. `-r` does not undo it.
    pub numbered: bool,
}

impl Flags {
    /// Returns no flags.
    pub fn none() -> Flags
        ensures { result ≡ no_flags }
    {
        Flags {
            case_insensitive: false,
            literal_separator: false,
            empty_alternates: false,
            allow_unclosed_class: false,
            no_escape: false,
            numbered: false,
        }
    }

    /// Applies an argument that is a flag, and returns whether it is a flag. Any other argument changes nothing.
    pub fn apply(&mut self, argument: &str) -> bool
        ensures is { result ≡ is_flag argument.now }
        ensures flags { self.new ≡ flags_after self.old argument.now }
    {
        match argument {
            "-i" => self.case_insensitive = true,
            "-s" => self.literal_separator = true,
            "-e" => self.empty_alternates = true,
            "-u" => self.allow_unclosed_class = true,
            "-b" => self.no_escape = true,
            "-r" => {
                *self = Flags {
                    numbered: self.numbered,
                    ..Flags::none()
                }
            }
            "-n" => self.numbered = true,
            _ => return false,
        }
        true
    }

    /// Reads an argument as a glob under the options that the flags ask for.
    pub fn read_glob(self, alloc: Global, argument: &str) -> Result<Glob, CommandFault>
        ensures { MatchResult result
            (λ glob. glob_or_fault (glob_with_flags self argument.now) ≡ Ok glob)
            (IsFaultOf (glob_or_fault (glob_with_flags self argument.now))) }
    {
        let mut builder = GlobBuilder::new(argument);
        builder.case_insensitive(self.case_insensitive);
        builder.literal_separator(self.literal_separator);
        builder.backslash_escape(!self.no_escape);
        builder.empty_alternates(self.empty_alternates);
        builder.allow_unclosed_class(self.allow_unclosed_class);
        Ok(builder.build(alloc)?)
    }
}
