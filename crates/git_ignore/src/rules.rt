//! The rules of an ignore file.

ghost use Rattle.std.specs.Option.{option_copied};
ghost use Rattle.std.specs.Prelude.{◌≡◌, false, IfOk};
ghost use Rattle.git_ignore.specs.Rules.{decision_of, line_text_at, unread_lines_of};
ghost use Rattle.git_ignore.specs.RulesValue.{FitsRules, rules_rule};
ghost use Rattle.git_ignore.specs.TwoRules.{deciding};
ghost use Rattle.git_ignore.specs.declared.decision.DecideBy.TheVariants.{Git, Nearest};

use crate::decision::{DecideBy, DecidingRule, Decision, decision_of};
use crate::path_rule::PathRule;
use crate::reading::FileRules;
use crate::scratch::IgnoreScratch;
use crate::stored::{RowMemory, StoredRules};
use crate::two_rules::{DecidesAlone, deciding};
use engine::DEFAULT_DFA_SIZE_LIMIT;
use std::alloc::{AllocError, Global};
use std::marker::Model;
use std::sync::Arc;

/// The rules of an ignore file.
///
/// To decide about many paths, make a [`crate::RulesSearcher`] of them.
///
/// Contracts see the bytes of the file, whether case is ignored, and how much memory deciding takes.
///
/// # Errors
///
/// Calls that return a [`Result`] fail only if memory runs out.
#[derive(Drop)]
pub struct Rules {
    /// Searchers share it.
    pub(crate) stored: Arc<StoredRules>,
    unread: Vec<usize>,
}

impl Model for Rules {
    ghost use Rattle.std.specs.Arc.{arc_value};
    ghost use Rattle.git_ignore.specs.RulesValue.{RulesValue};

    ghost Value = { RulesValue };

    ghost use Rattle.git_ignore.specs.inner.Entries.{rules_value};

    ghost view = { λ r. rules_value (arc_value r.stored) };

    ghost use Rattle.std.specs.Prelude.{◌≡◌};
    ghost use Rattle.git_ignore.specs.Rules.{unread_lines_of};

    ghost invariant = { λ r. r.unread.items ≡ unread_lines_of (arc_value r.stored).file };
}

impl Rules {
    /// Reads an ignore file, given by its bytes. Each line has a rule or none. Lines that git cannot read have none, which is no
    /// error: [`Rules::unread_lines`] returns their numbers. [`crate::RulesBuilder`] has the option to ignore case.
    ///
    /// It takes time and memory linear in the bytes, except for classes: each item of a class takes 256 steps.
    pub fn new(alloc: Global, file: &[u8]) -> Result<Rules, AllocError>
        ensures file { IfOk result (λ r. r.file ≡ file.now) }
        ensures ignore_case { IfOk result (λ r. r.ignore_case ≡ false) }
    {
        Rules::read(
            alloc,
            file,
            false,
            RowMemory::at_once(DEFAULT_DFA_SIZE_LIMIT),
        )
    }

    /// Reads an ignore file, whose rules ignore case or not.
    pub(crate) fn read(
        alloc: Global,
        file: &[u8],
        ignore_case: bool,
        rows: RowMemory,
    ) -> Result<Rules, AllocError>
        ensures file { IfOk result (λ r. r.file ≡ file.now) }
        ensures ignore_case { IfOk result (λ r. r.ignore_case ≡ ignore_case) }
    {
        let read = FileRules::read(alloc, file)?;
        let entries = read.entries;
        let stored = StoredRules::new(alloc, &read.patterns, entries, file, ignore_case, rows)?;
        Ok(Rules {
            stored: Arc::new(alloc, stored)?,
            unread: read.unread,
        })
    }

    /// Returns the decision of the file about a path below its folder: the last rule that applies decides.
    ///
    /// The path begins in the folder of the file. The folders above it do not count: [`Rules::decide_below`] and
    /// [`Rules::decide_nearest`] are two rules by which they do. The scratch has to fit the rules, and fits the same rules
    /// afterwards.
    pub fn decide(&self, path: &[u8], is_folder: bool, scratch: &mut IgnoreScratch) -> Decision
        requires { FitsRules scratch.old self.now }
        ensures decision { result ≡ decision_of (rules_rule self.now path.now is_folder) }
        ensures scratch { scratch.new ≡ scratch.old }
    {
        decision_of(self.rule_alone(path, is_folder, scratch))
    }

    /// Returns the decision of the file about a path by git's rule ([`DecideBy::Git`]).
    ///
    /// It takes a pass over the path. Only if a rule that is not negated matches a folder above the path, it takes a pass over the
    /// path of each such folder, too, from the top down to the first that is ignored. So if a rule keeps what another ignores, the
    /// time can grow with the square of their number.
    pub fn decide_below(
        &self,
        path: &[u8],
        is_folder: bool,
        scratch: &mut IgnoreScratch,
    ) -> Decision
        requires { FitsRules scratch.old self.now }
        ensures decision { result
            ≡ decision_of (deciding Git (rules_rule self.now) path.now is_folder) }
        ensures scratch { scratch.new ≡ scratch.old }
    {
        decision_of(self.deciding_rule(path, is_folder, DecideBy::Git, scratch))
    }

    /// Returns the nearest decision of the file about a path ([`DecideBy::Nearest`]).
    ///
    /// It takes a pass over the path. Only if no rule decides about the path, and some rule matches a folder above it, it takes a
    /// pass over the path of each such folder, too, from the nearest up to the first with a decision. So the time can grow with the
    /// square of their number.
    ///
    /// ```rust
    /// use git_ignore::{Decision, IgnoreScratch, Rules};
    ///
    /// let rules = Rules::new(alloc, b"/src\n!/src/secret.py\n")?;
    /// let mut scratch = IgnoreScratch::new(alloc, &rules)?;
    /// let path = b"src/secret.py";
    /// assert_eq!(rt; rules.decide_nearest(path, false, &mut scratch), Decision::Kept);
    /// assert_eq!(rt; rules.decide_below(path, false, &mut scratch), Decision::Ignored);
    /// assert_eq!(rt; rules.decide_nearest(b"src/main.py", false, &mut scratch), Decision::Ignored);
    /// ```
    pub fn decide_nearest(
        &self,
        path: &[u8],
        is_folder: bool,
        scratch: &mut IgnoreScratch,
    ) -> Decision
        requires { FitsRules scratch.old self.now }
        ensures decision { result
            ≡ decision_of (deciding Nearest (rules_rule self.now) path.now is_folder) }
        ensures scratch { scratch.new ≡ scratch.old }
    {
        decision_of(self.deciding_rule(path, is_folder, DecideBy::Nearest, scratch))
    }

    /// Returns the rule that decides about a path, or `None` if no rule does. The file of the rule is 0.
    ///
    /// It takes the time of [`Rules::decide`], [`Rules::decide_below`] or [`Rules::decide_nearest`].
    pub fn deciding_rule(
        &self,
        path: &[u8],
        is_folder: bool,
        by: DecideBy,
        scratch: &mut IgnoreScratch,
    ) -> Option<DecidingRule>
        requires { FitsRules scratch.old self.now }
        ensures rule { result ≡ deciding by (rules_rule self.now) path.now is_folder }
        ensures scratch { scratch.new ≡ scratch.old }
    {
        deciding(self, by, path, 0, is_folder, scratch)
    }

    /// Like [`Rules::decide`], with a scratch of its own.
    pub fn decide_once(&self, path: &[u8], is_folder: bool) -> Result<Decision, AllocError>
        ensures decision { IfOk result (λ d. d ≡ decision_of (rules_rule self.now path.now is_folder)) }
    {
        let mut scratch = IgnoreScratch::new(self.stored.allocator(), self)?;
        Ok(self.decide(path, is_folder, &mut scratch))
    }

    /// Like [`Rules::deciding_rule`], with a scratch of its own.
    pub fn deciding_rule_once(
        &self,
        path: &[u8],
        is_folder: bool,
        by: DecideBy,
    ) -> Result<Option<DecidingRule>, AllocError>
        ensures rule { IfOk result
            (λ rule. rule ≡ deciding by (rules_rule self.now) path.now is_folder) }
    {
        let mut scratch = IgnoreScratch::new(self.stored.allocator(), self)?;
        Ok(self.deciding_rule(path, is_folder, by, &mut scratch))
    }

    /// Returns the numbers, counted from 1, of the lines that git cannot read: their pattern ends in a `\` that escapes nothing, or
    /// has a class that is not closed or has an unknown name. They have no effect. Blank lines, comments, and lines such as `/` and
    /// `!`, which have no effect either, are not among them.
    ///
    /// ```rust
    /// use git_ignore::Rules;
    ///
    /// let rules = Rules::new(alloc, b"a\\\n/\n!\n \n#[\n[a\n[[:x:]]\n\0[\n!/\n")?;
    /// assert_eq!(rt; rules.unread_lines(), [1, 6, 7].as_slice());
    /// ```
    pub fn unread_lines(&self) -> &[usize]
        ensures { result.now ≡ unread_lines_of self.now.file }
    {
        &self.unread
    }

    /// Returns the text of the line with this number, counted from 1, or `None` if the file has no such line. The text is the line
    /// without a carriage return at its end, up to its first NUL, and without the spaces at its end. Of the line of a
    /// [`DecidingRule`], it is what `git check-ignore -v` prints.
    ///
    /// It takes a pass over the file up to the end of this line.
    ///
    /// ```rust
    /// use git_ignore::Rules;
    ///
    /// let rules = Rules::new(alloc, b"# What a build makes\n*.o  \r\n")?;
    /// assert_eq!(rt; rules.line_text(2), Some(b"*.o".as_slice()));
    /// assert_eq!(rt; rules.line_text(4), None);
    /// ```
    pub fn line_text(&self, number: usize) -> Option<&[u8]>
        ensures { option_copied result ≡ line_text_at self.now.file number }
    {
        self.stored.line_text(number)
    }
}

impl DecidesAlone for Rules {
    ghost use Rattle.git_ignore.specs.RulesValue.{FitsRules, rules_rule};

    ghost fits = { FitsRules };

    ghost alone = { rules_rule };

    fn path_rule(&self, path: &[u8], is_folder: bool, scratch: &mut IgnoreScratch) -> PathRule {
        self.stored.path_rule(0, path, is_folder, &mut scratch.memory, &mut scratch.found)
    }
}
