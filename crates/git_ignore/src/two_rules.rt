//! The rule that decides about a path and the folders above it.

ghost use Rattle.std.specs.Prelude.{◌≡◌, ◌<◌, ◌≤◌, ◌==◌, true, Bool, ℕ, List, None, Option, length, take, slice_index, if◌then◌else◌};
ghost use Rattle.git_ignore.specs.TwoRules.{deciding, ignored_above};
ghost use Rattle.git_ignore.specs.declared.decision.DecideBy.TheVariants.{Git, Nearest};

use crate::decision::{DecideBy, DecidingRule, ignoring};
use crate::path_rule::PathRule;
use crate::scratch::IgnoreScratch;

/// Rules that decide about a path alone: those of a file, or of several files.
pub trait DecidesAlone {
    ghost use Rattle.git_ignore.specs.RulesValue.{ScratchValue};
    ghost use Rattle.git_ignore.specs.declared.decision.DecidingRule.{DecidingRule as RuleValue};
    ghost use Rattle.git_ignore.specs.inner.PathRules.{IsPathRule};

    ghost fits: { ScratchValue → Self → Type 0 };

    ghost alone: { Self → List ℕ → Bool → Option RuleValue };

    /// Returns the rule that decides about a path, regardless of the folders above it.
    fn rule_alone(
        &self,
        path: &[u8],
        is_folder: bool,
        scratch: &mut IgnoreScratch,
    ) -> Option<DecidingRule>
        requires { fits scratch.old self.now }
        ensures rule { result ≡ alone self.now path.now is_folder }
        ensures scratch { scratch.new ≡ scratch.old }
    {
        self.path_rule(path, is_folder, scratch).rule
    }

    /// Returns that rule, and what is known of the folders above the path.
    fn path_rule(&self, path: &[u8], is_folder: bool, scratch: &mut IgnoreScratch) -> PathRule
        requires { fits scratch.old self.now }
        ensures rule { IsPathRule (alone self.now) path.now is_folder result }
        ensures scratch { scratch.new ≡ scratch.old };
}

/// Returns the rule that decides about a path. By git's rule, none of the folders above it that end before `start` is ignored.
pub fn deciding<R: DecidesAlone>(
    rules: &R,
    by: DecideBy,
    path: &[u8],
    start: usize,
    is_folder: bool,
    scratch: &mut IgnoreScratch,
) -> Option<DecidingRule>
    requires fits { R.fits scratch.old rules.now }
    requires within { start ≤ length path.now }
    requires above { by ≡ Git → ignored_above (R.alone rules.now) (take start path.now) ≡ None }
    ensures rule { result ≡ deciding by (R.alone rules.now) path.now is_folder }
    ensures scratch { scratch.new ≡ scratch.old }
{
    match by {
        DecideBy::Git => deciding_by_git(rules, path, start, is_folder, scratch),
        DecideBy::Nearest => nearest(rules, path, is_folder, scratch),
        DecideBy::PathAlone => rules.rule_alone(path, is_folder, scratch),
    }
}

/// Returns the rule that decides by git's rule. None of the folders above the path that end before `start` is ignored.
fn deciding_by_git<R: DecidesAlone>(
    rules: &R,
    path: &[u8],
    start: usize,
    is_folder: bool,
    scratch: &mut IgnoreScratch,
) -> Option<DecidingRule>
    requires fits { R.fits scratch.old rules.now }
    requires within { start ≤ length path.now }
    requires above { ignored_above (R.alone rules.now) (take start path.now) ≡ None }
    ensures rule { result ≡ deciding Git (R.alone rules.now) path.now is_folder }
    ensures scratch { scratch.new ≡ scratch.old }
{
    let told = rules.path_rule(path, is_folder, scratch);
    if !told.may_be_ignored {
        return told.rule;
    }
    for end in start..path.len() {
        let rule = ignoring(folder_rule(rules, path, end, scratch));
        if rule.is_some() {
            return rule;
        }
    }
    told.rule
}

/// Returns the rule of the nearest decision.
fn nearest<R: DecidesAlone>(
    rules: &R,
    path: &[u8],
    is_folder: bool,
    scratch: &mut IgnoreScratch,
) -> Option<DecidingRule>
    requires fits { R.fits scratch.old rules.now }
    ensures rule { result ≡ deciding Nearest (R.alone rules.now) path.now is_folder }
    ensures scratch { scratch.new ≡ scratch.old }
{
    let told = rules.path_rule(path, is_folder, scratch);
    if told.rule.is_some() {
        return told.rule;
    }
    if !(told.may_be_ignored || told.may_be_kept) {
        return None;
    }
    for end in (0..path.len()).rev() {
        let rule = folder_rule(rules, path, end, scratch);
        if rule.is_some() {
            return rule;
        }
    }
    None
}

/// Returns the rule that decides about the folder that ends at this place of a path, if a `/` is there.
fn folder_rule<R: DecidesAlone>(
    rules: &R,
    path: &[u8],
    end: usize,
    scratch: &mut IgnoreScratch,
) -> Option<DecidingRule>
    requires fits { R.fits scratch.old rules.now }
    requires within { end < length path.now }
    ensures rule { result
        ≡ (if slice_index path.now end == 47 then R.alone rules.now (take end path.now) true else None) }
    ensures scratch { scratch.new ≡ scratch.old }
{
    if path[end] == b'/' {
        rules.rule_alone(&path[..end], true, scratch)
    } else {
        None
    }
}
