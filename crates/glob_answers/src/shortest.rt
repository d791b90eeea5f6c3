//! Shortest paths that a glob matches.

ghost use Rattle.std.specs.Prelude.{IfOk, IsOkUnless};
ghost use Rattle.globset.specs.Errors.{out_of_memory};
ghost use Rattle.glob_answers.specs.Shortest.{TellsExample};

use glob_relations::{Coverage, Domain, covering};
use globset::{Error, Glob};
use std::alloc::Global;

/// A path that a glob matches.
#[derive(Drop)]
pub enum Example {
    /// The glob matches this path of the domain, and no shorter one.
    Path(Vec<u8>),
    /// The glob matches no path of the domain.
    Nothing,
    /// The search would take more rows than its limit.
    Unknown,
}

/// Returns a shortest path of a domain that a glob matches, or that there is none.
///
/// It has the limit and the cost of [`covering`], and fails only if memory runs out.
pub fn shortest_match(
    alloc: Global,
    glob: &Glob,
    domain: Domain,
    limit: usize,
) -> Result<Example, Error>
    ensures ok { IfOk result (TellsExample glob.now domain limit) }
    ensures err { IsOkUnless result out_of_memory }
{
    match covering(alloc, glob, &[], domain, limit)? {
        Coverage::Covered => Ok(Example::Nothing),
        Coverage::Not(path) => Ok(Example::Path(path)),
        Coverage::Unknown => Ok(Example::Unknown),
    }
}
