//! Lists of globs, for contracts: they have no size.

use glob_syntax::Options;
use std::marker::Model;
use std::snapshot::Snapshot;

/// A list of globs, by snapshots. A snapshot has no bytes.
#[derive(Drop)]
enum Given {
    /// The list of no globs.
    Nothing,
    /// A list, and another glob at the end: its text and its options.
    After(Snapshot<Given>, Snapshot<String>, Options),
    /// An equal list, by a snapshot of its snapshot.
    As(Snapshot<Snapshot<Given>>),
}

/// A list of globs, which has no size in a running program. Crates that match many globs keep it for their contracts.
#[derive(Drop)]
pub struct GivenGlobs {
    given: Snapshot<Given>,
}

impl Model for GivenGlobs {
    ghost use Rattle.std.specs.Prelude.{List};
    ghost use Rattle.glob_text.specs.GlobMatches.{GlobValue};

    ghost Value = { List GlobValue };

    ghost use Rattle.glob_text.specs.inner.GivenGlobs.{globs_given};

    ghost view = { λ g. globs_given g.given.value };
}

impl GivenGlobs {
    ghost use Rattle.std.specs.Prelude.{◌≡◌, ◌++◌, ◌∷◌, [], string_bytes};
    ghost use Rattle.glob_text.specs.GlobMatches.{glob_value};

    /// Returns a list of no globs.
    pub fn new() -> GivenGlobs
        ensures { result ≡ [] }
    {
        GivenGlobs {
            given: Snapshot::of(&Given::Nothing),
        }
    }

    /// Returns an equal list.
    pub fn copy(&self) -> GivenGlobs
        ensures { result ≡ self.now }
    {
        GivenGlobs {
            given: Snapshot::of(&Given::As(Snapshot::of(&self.given))),
        }
    }

    /// Returns this list with another glob at the end. Its text is not copied.
    pub fn and(self, text: &String, options: Options) -> GivenGlobs
        ensures { result ≡ self ++ glob_value (string_bytes text.now) options ∷ [] }
    {
        GivenGlobs {
            given: Snapshot::of(&Given::After(self.given, Snapshot::of(text), options)),
        }
    }
}
