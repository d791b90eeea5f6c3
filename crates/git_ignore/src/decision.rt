//! Decisions of ignore files about a path, and the rules that decide.

ghost use Rattle.std.specs.Prelude.{◌≡◌, ◌↔◌, IsTrue};
ghost use Rattle.git_ignore.specs.Rules.{decision_of};
ghost use Rattle.git_ignore.specs.TwoRules.{ignoring};
ghost use Rattle.git_ignore.specs.declared.decision.Decision.TheVariants.{Ignored};

/// The decision of an ignore file about a path.
#[derive(Clone, Copy, Debug, PartialEq, Eq)]
pub enum Decision {
    /// The last rule that applies ignores it.
    Ignored,
    /// The last rule that applies begins with `!`.
    Kept,
    /// No rule applies.
    Undecided,
}

impl Decision {
    /// Returns whether the path is ignored. A path without a rule is not.
    pub fn is_ignored(self) -> bool
        ensures { IsTrue result ↔ (self ≡ Ignored) }
    {
        matches!(self, Decision::Ignored)
    }
}

/// How the folders above a path count for the decision about it.
#[derive(Clone, Copy, Debug, PartialEq, Eq)]
pub enum DecideBy {
    /// Git's rule: everything below an ignored folder is ignored, and no rule keeps it. That a folder is kept says nothing about its
    /// contents.
    Git,
    /// The nearest decision: the decision about the path, or if there is none, about the nearest folder above it that has one. So a
    /// rule can keep a path below an ignored folder, as the lists of files to include of packaging tools mean it; git ignores that
    /// path.
    Nearest,
    /// The decision about the path alone: the folders above it do not count.
    PathAlone,
}

/// The rule that decides about a path.
#[derive(Clone, Copy, Debug, PartialEq, Eq)]
pub struct DecidingRule {
    /// The index of its file, from 0. The files of a walk stand from the top folder down, and those of a folder in the order in which
    /// they were added. The only file of [`crate::Rules`] has the index 0.
    pub file: usize,
    /// The number of its line, counted from 1.
    pub line: usize,
    /// Whether it begins with `!`, and so keeps the path.
    pub is_negated: bool,
}

/// Returns the decision of the rule that decides, if there is any.
pub fn decision_of(rule: Option<DecidingRule>) -> Decision
    ensures { result ≡ decision_of rule }
{
    match rule {
        Some(rule) if rule.is_negated => Decision::Kept,
        Some(_) => Decision::Ignored,
        None => Decision::Undecided,
    }
}

/// Returns the rule if it ignores the path.
pub fn ignoring(rule: Option<DecidingRule>) -> Option<DecidingRule>
    ensures { result ≡ ignoring rule }
{
    match rule {
        Some(rule) if !rule.is_negated => Some(rule),
        _ => None,
    }
}
