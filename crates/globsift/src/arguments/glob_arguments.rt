//! Arguments that are globs and flags, parsed in order.

ghost use Rattle.std.specs.Prelude.{◌≡◌, ◌⊎◌, map, string_bytes};
ghost use Rattle.globset.specs.Errors.{out_of_memory};
ghost use Rattle.globsift.specs.Command.{fault_value, glob_error, starts_with_dash, unknown_option};
ghost use Rattle.globsift.specs.inner.Parsing.{AddsGlobs, Parses, ParsesOne, ParsesUpToEnd};

use super::fault::CommandFault;
use super::flags::Flags;
use globset::{Error, GlobSetBuilder};
use std::alloc::Global;

/// The globs and flags of the arguments that were parsed.
#[derive(Drop)]
pub struct GlobArguments {
    /// The flags in force.
    pub flags: Flags,
    /// The globs, in the order of their arguments.
    pub globs: GlobSetBuilder,
}

impl GlobArguments {
    /// Parses all of the arguments.
    pub fn parse(alloc: Global, arguments: &[String]) -> Result<GlobArguments, CommandFault>
        ensures { Parses (map string_bytes arguments.now) result }
    {
        let mut parsed = GlobArguments {
            flags: Flags::none(),
            globs: GlobSetBuilder::new(alloc),
        };
        let after = parsed.parse_up_to_end(alloc, arguments)?;
        parsed.add_globs(alloc, after)?;
        Ok(parsed)
    }

    /// Parses the arguments before the first `--`, and returns those after it.
    fn parse_up_to_end<'a>(
        &mut self,
        alloc: Global,
        arguments: &'a [String],
    ) -> Result<&'a [String], CommandFault>
        ensures { ParsesUpToEnd self.old self.new (map string_bytes arguments.now)
            (λ after. map string_bytes after.now) result }
    {
        let mut rest = arguments;
        while let [argument, after @ ..] = rest {
            if argument.as_str() == "--" {
                return Ok(after);
            }
            self.parse_one(alloc, argument.as_str())?;
            rest = after;
        }
        Ok(rest)
    }

    /// Parses an argument that comes before any `--`.
    fn parse_one(&mut self, alloc: Global, argument: &str) -> Result<(), CommandFault>
        ensures { ParsesOne self.old self.new argument.now result }
    {
        if self.flags.apply(argument) {
            return Ok(());
        }
        if starts_with_dash(argument) {
            return Err(unknown_option(alloc, argument));
        }
        let glob = self.flags.read_glob(alloc, argument)?;
        self.globs.add(glob)?;
        Ok(())
    }

    /// Adds the arguments after `--`, which are globs.
    fn add_globs(&mut self, alloc: Global, arguments: &[String]) -> Result<(), CommandFault>
        ensures { AddsGlobs self.old self.new (map string_bytes arguments.now) result }
    {
        for argument in arguments {
            let glob = self.flags.read_glob(alloc, argument.as_str())?;
            self.globs.add(glob)?;
        }
        Ok(())
    }
}

/// Returns whether an argument starts with `-`.
fn starts_with_dash(argument: &str) -> bool
    ensures { result ≡ starts_with_dash argument.now }
{
    matches!(argument.as_bytes(), [b'-', ..])
}

/// Returns the error of an argument that starts with `-` and is no flag. If the argument can't be copied, the error is that
/// memory ran out.
fn unknown_option(alloc: Global, argument: &str) -> CommandFault
    ensures { (fault_value result ≡ glob_error out_of_memory)
        ⊎ (fault_value result ≡ unknown_option argument.now) }
{
    match String::from_str(alloc, argument) {
        Ok(argument) => CommandFault::UnknownOption(argument),
        Err(error) => CommandFault::Glob(Error::from(error)),
    }
}
