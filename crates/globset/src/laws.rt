//! Laws of sets and builders, as contracts. Most of these functions have an empty body.

ghost use Rattle.std.specs.Prelude.{◌≡◌, ◌∷◌, ◌++◌, [], IfOk, IsOkUnless, OnOk, OnErr, if◌then◌else◌};
ghost use Rattle.globset_glob.specs.Errors.{out_of_memory};
ghost use Rattle.globset.specs.Laws.{AddKeeps, BelowEnds, BelowHasPaths, OneGlobSet, OrderRenames};
ghost use Rattle.globset.specs.SetValue.{builder_globs};

use crate::builder::GlobSetBuilder;
use crate::searcher::Searcher;
use crate::set::GlobSet;
use globset_glob::{
    Candidate, Error, ErrorKind, Glob, GlobBuilder, GlobMatcher, MatcherSearcher, Scratch,
    ValueError, ValueErrorKind, Visits,
};

/// Another glob after the others adds at most its own index, at the end of the indexes. The others stay as they are.
pub fn add_keeps()
    ensures { AddKeeps }
{}

/// Another order of the globs renames the indexes, and changes nothing else. The renaming is a bijection.
pub fn order_renames()
    ensures { OrderRenames }
{}

/// If the only glob of a set is not excluded, the set matches the paths that the glob's matcher matches: the indexes are
/// `[0]` on these paths, and none on all others.
pub fn one_glob_set()
    ensures { OneGlobSet }
{}

/// If a set matches some path below a directory, [`GlobSet::can_match_below`] returns true for the directory.
pub fn below_has_paths()
    ensures { BelowHasPaths }
{}

/// If [`GlobSet::can_match_below`] returns false for a directory, it does so for each directory below that.
pub fn below_ends()
    ensures { BelowEnds }
{}

/// After [`GlobSetBuilder::add`] returned an error, the builder has the globs that it had before the call.
///
/// This function calls `add` and nothing else. Its contract has plain clauses, which generated proofs of callers can
/// use. They cannot use the clause `lends` of `add`, which says the same of the builder: only a proof by hand can.
pub fn failed_add_keeps(builder: &mut GlobSetBuilder, glob: Glob) -> Result<(), Error>
    ensures ok { OnOk result (builder_globs builder.new ≡ builder_globs builder.old ++ glob ∷ []) }
    ensures kept { OnErr result (builder_globs builder.new ≡ builder_globs builder.old) }
    ensures err { IsOkUnless result out_of_memory }
{
    match builder.add(glob) {
        Ok(_) => Ok(()),
        Err(error) => Err(error),
    }
}

/// After [`GlobSetBuilder::add`] returned an error, more globs can be added: this adds `other` if adding `glob` failed,
/// and returns whether `glob` was added.
///
/// ```rust
/// use globset::laws::add_after_error;
/// use globset::{Glob, GlobSetBuilder};
///
/// let mut builder = GlobSetBuilder::new(alloc);
/// let first = add_after_error(&mut builder, Glob::new(alloc, "a")?, Glob::new(alloc, "b")?)?;
/// assert!(rt; builder.build()?.is_match(if first { "a" } else { "b" })?);
/// ```
pub fn add_after_error(builder: &mut GlobSetBuilder, glob: Glob, other: Glob) -> Result<bool, Error>
    ensures ok { IfOk result
        (λ first. builder_globs builder.new
        ≡ builder_globs builder.old ++ (if first then glob else other) ∷ []) }
    ensures kept { OnErr result (builder_globs builder.new ≡ builder_globs builder.old) }
    ensures err { IsOkUnless result out_of_memory }
{
    if failed_add_keeps(builder, glob).is_ok() {
        return Ok(true);
    }
    failed_add_keeps(builder, other)?;
    Ok(false)
}

/// Values of these types can be sent to another thread, and shared between threads.
pub fn can_be_shared<'a>() {
    is_shared::<Glob>();
    is_shared::<GlobBuilder<'a>>();
    is_shared::<GlobMatcher>();
    is_shared::<MatcherSearcher>();
    is_shared::<GlobSet>();
    is_shared::<GlobSetBuilder>();
    is_shared::<Searcher>();
    is_shared::<Scratch>();
    is_shared::<Candidate<'a>>();
    is_shared::<Error>();
    is_shared::<ErrorKind>();
    is_shared::<ValueError>();
    is_shared::<ValueErrorKind>();
    is_shared::<Visits>();
}

/// Requires of a type that its values can be sent to another thread, and shared between threads.
fn is_shared<T: Send + Sync>() {}
