//! What C can own.

use crate::answers::Answers;
use crate::read_glob::ReadGlob;
use crate::status::{OUT_OF_MEMORY, Status, WRONG_KIND};
use git_ignore::IgnoreStack;
use globset::{GlobMatcher, GlobSet, GlobSetBuilder, MatcherSearcher, Searcher};

/// An object that C can own.
#[derive(Drop)]
pub enum Object {
    Glob(ReadGlob),
    Matcher(GlobMatcher),
    MatcherSearcher(MatcherSearcher),
    Builder(GlobSetBuilder),
    Set(GlobSet),
    Searcher(Searcher),
    Answers(Answers),
    Ignore(IgnoreStack),
}

/// Why a call on objects failed.
#[derive(Clone, Copy)]
pub enum Failure {
    OutOfMemory,
    WrongKind,
}

impl Failure {
    ghost use Rattle.std.specs.Prelude.{◌≡◌, [], ◌∷◌};
    ghost use Rattle.c_objects.specs.Statuses.{IsOneOf};
    ghost use Rattle.c_objects.specs.declared.object.Failure.TheVariants.{WrongKind};

    /// Returns the status of a call that failed so.
    pub fn status(self) -> Status
        ensures wrong_kind { result ≡ WRONG_KIND → self ≡ WrongKind }
        ensures other_kind { self ≡ WrongKind → result ≡ WRONG_KIND }
        ensures statuses { IsOneOf (OUT_OF_MEMORY ∷ WRONG_KIND ∷ []) result }
    {
        match self {
            Failure::OutOfMemory => OUT_OF_MEMORY,
            Failure::WrongKind => WRONG_KIND,
        }
    }
}
