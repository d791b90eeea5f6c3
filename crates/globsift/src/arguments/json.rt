//! The command of a JSON array of globs.

ghost use Rattle.std.specs.Prelude.{◌≡◌, map, IfErr, IfOk, Ok, if◌then◌else◌, string_bytes};
ghost use Rattle.std.specs.List.{list_all};
ghost use Rattle.globset.specs.Errors.{out_of_memory};
ghost use Rattle.globset.specs.SetValue.{set_globs};
ghost use Rattle.globset.specs.ValueErrors.{is_memory};
ghost use Rattle.globsift.specs.Command.{IsFaultOf, command_of_set, command_value, fault_value, glob_error};
ghost use Rattle.globsift.specs.Command.{globs_of_json, is_dash_n, value_error};

use super::ParsedCommand;
use super::fault::CommandFault;
use super::glob_arguments::GlobArguments;
use globset::{Error, ErrorKind, GlobSet, ValueError, ValueErrorKind};
use serde_json::Value;
use std::alloc::{AllocError, Global};

/// Parses the arguments before and after `--set`.
#[tactic(auto, using(crate::proofs::lemmas::SplitAtSet::some_argument))]
pub fn command_of_set(
    alloc: Global,
    before: &[String],
    after: &[String],
) -> Result<ParsedCommand, CommandFault>
    ensures ok { IfOk result (λ command. command_of_set (map string_bytes before.now)
        (map string_bytes after.now) ≡ Ok (command_value command)) }
    ensures err { IfErr result
        (IsFaultOf (command_of_set (map string_bytes before.now) (map string_bytes after.now))) }
{
    if !are_all_dash_n(before) {
        GlobArguments::parse(alloc, before)?;
        return Err(CommandFault::SetNotAlone);
    }
    let [text, others @ ..] = after else {
        return Err(CommandFault::SetWithoutText);
    };
    if !are_all_dash_n(others) {
        return Err(CommandFault::SetNotAlone);
    }
    Ok(ParsedCommand {
        set: read_set(alloc, text.as_str())?,
        numbered: !before.is_empty() || !others.is_empty(),
    })
}

/// Returns whether each argument is `-n`.
fn are_all_dash_n(arguments: &[String]) -> bool
    ensures { result ≡ list_all is_dash_n (map string_bytes arguments.now) }
{
    for argument in arguments {
        if argument.as_str() != "-n" {
            return false;
        }
    }
    true
}

/// Reads the set of a JSON text.
fn read_set(alloc: Global, text: &str) -> Result<GlobSet, CommandFault>
    ensures ok { IfOk result (λ set. globs_of_json text.now ≡ Ok (set_globs set)) }
    ensures err { IfErr result (IsFaultOf (globs_of_json text.now)) }
{
    let value = match Value::from_str(alloc, text) {
        Ok(value) => value,
        Err(error) if error.is_memory() => return Err(CommandFault::from(Error::from(AllocError))),
        Err(_) => return Err(CommandFault::NotJson),
    };
    match GlobSet::from_value(alloc, &value) {
        Ok(set) => Ok(set),
        Err(error) => Err(fault_of(error)),
    }
}

/// Returns the error of a rejected value. It is an error of a glob if memory ran out.
fn fault_of(error: ValueError) -> CommandFault
    ensures { fault_value result
        ≡ (if is_memory error.kind then glob_error out_of_memory else value_error error) }
{
    if is_memory(&error) {
        return CommandFault::from(Error::from(AllocError));
    }
    CommandFault::Value(error)
}

/// Returns whether memory ran out.
fn is_memory(error: &ValueError) -> bool
    ensures { result ≡ is_memory error.now.kind }
{
    match error.kind() {
        ValueErrorKind::Glob(cause) => matches!(cause.kind(), ErrorKind::OutOfMemory),
        _ => false,
    }
}
