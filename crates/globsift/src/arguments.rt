//! From the arguments of a command line to a command.

ghost use Rattle.std.specs.Prelude.{◌≡◌, map, IfErr, IfOk, MatchResult, Ok, string_bytes};
ghost use Rattle.std.specs.Option.{option_map};
ghost use Rattle.globsift.specs.Command.{IsFaultOf, command_of, command_of_globs, command_value, split_at_set};

pub mod fault;
mod flags;
mod glob_arguments;
mod json;

use fault::CommandFault;
use glob_arguments::GlobArguments;
use globset::GlobSet;
use json::command_of_set;
use std::alloc::Global;

/// The parsed arguments of a command line.
#[derive(Drop)]
pub struct ParsedCommand {
    /// The globs, in the order of their arguments.
    pub set: GlobSet,
    /// Whether each line of the output starts with the indexes of the globs that match it.
    pub numbered: bool,
}

/// Parses the arguments of a command line, without the program's name.
///
/// Each of `-i`, `-s`, `-e` and `-u` turns on an option for the globs after it: `case_insensitive`, `literal_separator`,
/// `empty_alternates` and `allow_unclosed_class`. `-b` turns off `backslash_escape`, and `-r` sets the default options again.
/// `-n`, at any position, turns on numbered output. `--` ends these flags: each argument after it is a glob. Before it any other
/// argument that starts with `-` is rejected, and all others are globs.
///
/// With `--set` the next argument is in any case the JSON text of an array of globs, and each other argument has to be `-n`. The
/// text is read after all other arguments were checked.
///
/// Fails with the first error from the left.
pub fn command(alloc: Global, arguments: &[String]) -> Result<ParsedCommand, CommandFault>
    ensures ok { IfOk result
        (λ command. command_of (map string_bytes arguments.now) ≡ Ok (command_value command)) }
    ensures err { IfErr result (IsFaultOf (command_of (map string_bytes arguments.now))) }
{
    match split_at_set(arguments) {
        Some((before, after)) => command_of_set(alloc, before, after),
        None => command_of_globs(alloc, arguments),
    }
}

/// Returns the arguments before the first `--set` and the arguments after it. `None` if there is none or a `--` comes before it.
fn split_at_set(arguments: &[String]) -> Option<(&[String], &[String])>
    ensures { option_map (λ p. (map string_bytes p.0.now, map string_bytes p.1.now)) result
        ≡ split_at_set (map string_bytes arguments.now) }
{
    for (index, argument) in arguments.iter().enumerate() {
        if argument.as_str() == "--" {
            return None;
        }
        if argument.as_str() == "--set" {
            return Some((&arguments[..index], &arguments[index + 1..]));
        }
    }
    None
}

/// Parses the arguments of a command line that has no `--set`.
fn command_of_globs(alloc: Global, arguments: &[String]) -> Result<ParsedCommand, CommandFault>
    ensures { MatchResult result
        (λ command. command_of_globs (map string_bytes arguments.now) ≡ Ok (command_value command))
        (IsFaultOf (command_of_globs (map string_bytes arguments.now))) }
{
    let GlobArguments { flags, globs } = GlobArguments::parse(alloc, arguments)?;
    let set = globs.into_set()?;
    if set.is_empty() {
        return Err(CommandFault::NoGlob);
    }
    Ok(ParsedCommand {
        set,
        numbered: flags.numbered,
    })
}
