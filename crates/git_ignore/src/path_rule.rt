//! What rules tell about a path in one pass.

ghost use Rattle.std.specs.Prelude.{◌≡◌};
ghost use Rattle.git_ignore.specs.inner.PathRules.{joined, without_rule};

use crate::decision::DecidingRule;

/// The rule that decides about a path alone, and what is known of the folders above the path.
#[derive(Clone, Copy)]
pub struct PathRule {
    pub rule: Option<DecidingRule>,
    /// Whether a rule that is not negated matches a folder above the path. Otherwise none of them is ignored.
    pub may_be_ignored: bool,
    /// Whether a negated rule matches a folder above the path. If neither kind does, none of them has a rule that decides.
    pub may_be_kept: bool,
}

impl PathRule {
    /// Returns that no rule decides about the path, and none about a folder above it.
    pub fn none() -> PathRule
        ensures { result ≡ without_rule }
    {
        PathRule {
            rule: None,
            may_be_ignored: false,
            may_be_kept: false,
        }
    }

    /// Returns what these rules and later ones tell together; the later ones take precedence.
    pub fn joined(self, later: PathRule) -> PathRule
        ensures { result ≡ joined self later }
    {
        PathRule {
            rule: later.rule.or(self.rule),
            may_be_ignored: self.may_be_ignored || later.may_be_ignored,
            may_be_kept: self.may_be_kept || later.may_be_kept,
        }
    }
}
