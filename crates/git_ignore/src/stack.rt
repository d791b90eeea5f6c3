//! Ignore files of nested folders.

ghost use Rattle.std.specs.Prelude.{◌≡◌, true, false, None, Some, IfOk, MatchOption, OnOk, OnErr, is_some};
ghost use Rattle.std.specs.Option.{option_and_then, option_copied, option_map};
ghost use Rattle.git_ignore.specs.Rules.{decision_of, line_text_at, unread_lines_of};
ghost use Rattle.git_ignore.specs.Folders.{files_rule};
ghost use Rattle.git_ignore.specs.StackValue.{at_top, entered, file_at, left, stack_files, stack_rule, with_file};
ghost use Rattle.git_ignore.specs.TwoRules.{ignored_above, ignoring};
ghost use Rattle.git_ignore.specs.declared.decision.DecideBy.TheVariants.{Git, Nearest};

use crate::decision::{DecideBy, DecidingRule, Decision, decision_of, ignoring};
use crate::folder_rules::FolderRules;
use crate::rules::Rules;
use crate::scratch::IgnoreScratch;
use crate::two_rules::deciding;
use engine::DEFAULT_DFA_SIZE_LIMIT;
use std::alloc::{AllocError, Global};
use std::marker::Model;

/// A folder above the current folder of a walk.
#[derive(Clone, Copy)]
pub struct FolderLevel {
    /// The length of its path.
    folder: usize,
    /// The number of files in it and above it.
    files: usize,
    /// The rule that ignores it or a folder above it, if any is ignored.
    ignored_by: Option<DecidingRule>,
}

/// The folder that a walk is in, with the ignore files in it and in the folders above it.
///
/// A walk begins in its top folder. [`IgnoreStack::enter`] goes down into a folder, [`IgnoreStack::leave`] goes up, and
/// [`IgnoreStack::add_file`] reads an ignore file of the folder that the walk is in. Files of deeper folders take precedence, and
/// in a folder the file that was added last. So in the top folder the file that git's setting `core.excludesFile` names comes first,
/// then `.git/info/exclude`, and then `.gitignore`.
///
/// [`IgnoreStack::decide`] decides by git's rule: everything below an ignored folder is ignored, and no rule keeps it.
/// [`IgnoreStack::decide_nearest`] decides by the nearest decision.
///
/// [`IgnoreStack::enter`] stores whether git's rule ignores the folder. So by this rule the name of an entry costs a pass over its
/// path for each ignore file above it. A path through folders that were not entered also costs such passes for each of these
/// folders, down to the first that is ignored, but only if a rule that is not negated matches a folder above the path. Then the time
/// can grow with the square of their number.
///
/// All files share an [`IgnoreScratch`]. The rules of each keep rows between calls.
///
/// # Errors
///
/// Calls that return a [`Result`] fail only if memory runs out.
pub struct IgnoreStack {
    alloc: Global,
    /// The path of the folder: empty for the top folder, and otherwise with `/` at its end.
    folder: Vec<u8>,
    /// The rule that ignores the folder or a folder above it, if any is ignored.
    ignored_by: Option<DecidingRule>,
    /// The files, from the top down.
    files: Vec<FolderRules>,
    /// The folders above, from the top down.
    levels: Vec<FolderLevel>,
    scratch: IgnoreScratch,
    ignore_case: bool,
    dfa_size_limit: usize,
}

impl Model for IgnoreStack {
    ghost use Rattle.git_ignore.specs.StackValue.{StackValue};

    ghost Value = { StackValue };

    ghost use Rattle.git_ignore.specs.inner.StackParts.{IsStack, stack_value};

    ghost view = { λ s. stack_value s.ignore_case s.folder.items s.files.items s.levels.items };

    ghost invariant = { λ s. IsStack s.ignore_case s.folder.items s.ignored_by s.files.items s.levels.items s.scratch };
}

impl Drop for IgnoreStack {
    fn drop(self) {
        let IgnoreStack {
            alloc: _,
            folder: _,
            ignored_by: _,
            files: _,
            levels: _,
            scratch: _,
            ignore_case: _,
            dfa_size_limit: _,
        } = self;
    }
}

impl IgnoreStack {
    /// Returns a walk in its top folder, which has no ignore files yet. It allocates nothing. [`crate::RulesBuilder`] has the option
    /// to ignore case.
    pub fn new(alloc: Global) -> IgnoreStack
        ensures { result ≡ at_top false }
    {
        IgnoreStack::with_options(alloc, false, DEFAULT_DFA_SIZE_LIMIT)
    }

    /// Returns a walk whose rules ignore case or not, and each of whose files keeps rows of at most `dfa_size_limit` bytes.
    pub(crate) fn with_options(
        alloc: Global,
        ignore_case: bool,
        dfa_size_limit: usize,
    ) -> IgnoreStack
        ensures { result ≡ at_top ignore_case }
    {
        IgnoreStack {
            alloc,
            folder: Vec::new(alloc),
            ignored_by: None,
            files: Vec::new(alloc),
            levels: Vec::new(alloc),
            scratch: IgnoreScratch::empty(alloc),
            ignore_case,
            dfa_size_limit,
        }
    }

    /// Sets the limit of [`crate::RulesBuilder::dfa_size_limit`] for files that are added from now on.
    pub fn set_dfa_size_limit(&mut self, bytes: usize)
        ensures { self.new ≡ self.old }
    {
        self.dfa_size_limit = bytes;
    }

    /// Returns the path of the folder that the walk is in, from the top folder on: empty for this, and otherwise with `/` at its
    /// end.
    pub fn folder(&self) -> &[u8]
        ensures { result.now ≡ self.now.here.path }
    {
        &self.folder
    }

    /// Returns whether the folder that the walk is in is ignored, or a folder above it is. Then by git's rule all that is in it is
    /// ignored.
    pub fn is_ignored(&self) -> bool
        ensures { result
            ≡ is_some (ignored_above (files_rule (stack_files self.now)) self.now.here.path) }
    {
        self.ignored_by.is_some()
    }

    /// Reads an ignore file of the folder that the walk is in, given by its bytes. It takes precedence over the files that are
    /// there already.
    ///
    /// The call takes time and memory as [`crate::Rules::new`] does, and copies the path of the folder. Calls that decide take memory
    /// for the rows of the file as they need it, up to the limit of [`crate::RulesBuilder::dfa_size_limit`], and go on without where
    /// there is none. The walk frees all this when it leaves the folder.
    ///
    /// After an error nothing has changed.
    pub fn add_file(&mut self, file: &[u8]) -> Result<(), AllocError>
        ensures added { OnOk result (self.new ≡ with_file self.old file.now) }
        ensures kept { OnErr result (self.new ≡ self.old) }
    {
        let rules = FolderRules::new(
            self.alloc,
            &self.folder,
            file,
            self.ignore_case,
            self.dfa_size_limit,
            &mut self.scratch,
        )?;
        self.files.push(rules)?;
        Ok(())
    }

    /// Goes down into a folder of this name. If it is ignored by git's rule, its ignore files have no effect by this rule.
    ///
    /// After an error nothing has changed.
    pub fn enter(&mut self, name: &[u8]) -> Result<(), AllocError>
        ensures entered { OnOk result (self.new ≡ entered self.old name.now) }
        ensures kept { OnErr result (self.new ≡ self.old) }
    {
        let rule = self.deciding_rule(name, true, DecideBy::Git)?;
        self.push_level(name, ignoring(rule))
    }

    /// Goes up to the folder above, without the ignore files that were added since it was left. In the top folder it does
    /// nothing.
    pub fn leave(&mut self)
        ensures { self.new ≡ left self.old }
    {
        if let Some(level) = self.levels.pop() {
            self.folder.truncate(level.folder);
            self.files.truncate(level.files);
            self.ignored_by = level.ignored_by;
        }
    }

    /// Returns the decision of the ignore files about a path below the current folder, such as the name of an entry, by git's rule
    /// ([`DecideBy::Git`]).
    ///
    /// The folders that the path names above its last component count, too: below an ignored folder, the path is ignored.
    ///
    /// The call allocates to put the folder's path in front of this path.
    pub fn decide(&mut self, path: &[u8], is_folder: bool) -> Result<Decision, AllocError>
        ensures decision { IfOk result
            (λ d. d ≡ decision_of (stack_rule self.old Git path.now is_folder)) }
        ensures same { self.new ≡ self.old }
    {
        Ok(decision_of(self.deciding_rule(path, is_folder, DecideBy::Git)?))
    }

    /// Returns the nearest decision of the ignore files about a path below the current folder ([`DecideBy::Nearest`]). That about a
    /// path or a folder above it is the decision of the deepest file with a rule that applies; the ignore files of folders that are
    /// ignored count.
    ///
    /// The call allocates as [`IgnoreStack::decide`] does. It takes a pass over the path for each ignore file above it. Only if no
    /// rule decides about the path, and some rule matches a folder above it, it takes such passes for these folders, too, from the
    /// nearest up to the first with a decision.
    pub fn decide_nearest(&mut self, path: &[u8], is_folder: bool) -> Result<Decision, AllocError>
        ensures decision { IfOk result
            (λ d. d ≡ decision_of (stack_rule self.old Nearest path.now is_folder)) }
        ensures same { self.new ≡ self.old }
    {
        Ok(decision_of(self.deciding_rule(path, is_folder, DecideBy::Nearest)?))
    }

    /// Returns the rule that decides about a path below the current folder, as `git check-ignore -v` tells it, or `None` if no rule
    /// does. Below an ignored folder, by git's rule, it is the rule that ignores the highest such folder.
    ///
    /// The call allocates and takes time as [`IgnoreStack::decide`] and [`IgnoreStack::decide_nearest`] do; about the path alone, it
    /// takes a pass over the path for each ignore file above it.
    ///
    /// ```rust
    /// use git_ignore::{DecideBy, DecidingRule, IgnoreStack};
    ///
    /// let mut stack = IgnoreStack::new(alloc);
    /// stack.add_file(b"*.tmp\n")?;
    /// stack.add_file(b"# Files of this project\n/out/\n!/out/keep.tmp\n")?;
    /// let ignored = DecidingRule { file: 1, line: 2, is_negated: false };
    /// let kept = DecidingRule { file: 1, line: 3, is_negated: true };
    /// let path = b"out/keep.tmp";
    /// assert_eq!(rt; stack.deciding_rule(path, false, DecideBy::Git)?, Some(ignored));
    /// assert_eq!(rt; stack.deciding_rule(path, false, DecideBy::Nearest)?, Some(kept));
    /// assert_eq!(rt; stack.deciding_rule(b"a.c", false, DecideBy::Git)?, None);
    /// ```
    pub fn deciding_rule(
        &mut self,
        path: &[u8],
        is_folder: bool,
        by: DecideBy,
    ) -> Result<Option<DecidingRule>, AllocError>
        ensures rule { IfOk result (λ rule. rule ≡ stack_rule self.old by path.now is_folder) }
        ensures same { self.new ≡ self.old }
    {
        let known = match by {
            DecideBy::Git => self.ignored_by,
            _ => None,
        };
        if known.is_some() {
            return Ok(known);
        }
        let start = self.folder.len();
        self.folder.extend_from_slice(path)?;
        let rule = deciding(
            &self.files,
            by,
            &self.folder,
            start,
            is_folder,
            &mut self.scratch,
        );
        self.folder.truncate(start);
        Ok(rule)
    }

    /// Returns whether the rules ignore case.
    pub fn ignores_case(&self) -> bool
        ensures { result ≡ self.now.ignore_case }
    {
        self.ignore_case
    }

    /// Returns the bytes of a file, or `None` if there is no file with this index. The indexes are those of [`DecidingRule::file`].
    pub fn file(&self, file: usize) -> Option<&[u8]>
        ensures { option_copied result ≡ file_at self.now file }
    {
        Some(self.rules_at(file)?.stored.file())
    }

    /// Returns the numbers, counted from 1, of the lines of a file that git cannot read, as [`crate::Rules::unread_lines`] does; or
    /// `None` if there is no file with this index. The indexes are those of [`DecidingRule::file`].
    pub fn unread_lines(&self, file: usize) -> Option<&[usize]>
        ensures { option_copied result ≡ option_map unread_lines_of (file_at self.now file) }
    {
        Some(self.rules_at(file)?.unread_lines())
    }

    /// Returns the text of a line of a file, as [`crate::Rules::line_text`] does, or `None` if there is no file with this index or it
    /// has no such line. The indexes are those of [`DecidingRule::file`].
    ///
    /// ```rust
    /// use git_ignore::IgnoreStack;
    ///
    /// let mut stack = IgnoreStack::new(alloc);
    /// stack.add_file(b"*.tmp\n")?;
    /// stack.add_file(b"\n!a.tmp \n")?;
    /// assert_eq!(rt; stack.line_text(1, 2), Some(b"!a.tmp".as_slice()));
    /// assert_eq!(rt; stack.line_text(2, 1), None);
    /// ```
    pub fn line_text(&self, file: usize, number: usize) -> Option<&[u8]>
        ensures { option_copied result
            ≡ option_and_then (λ bytes. line_text_at bytes number) (file_at self.now file) }
    {
        self.rules_at(file)?.line_text(number)
    }

    /// Returns the rules of the file with this index, if there is one.
    fn rules_at(&self, file: usize) -> Option<&Rules>
        ensures { MatchOption result (file_at self.now file ≡ None)
            (λ rules. file_at self.now file ≡ Some rules.now.file) }
    {
        Some(&self.files.get(file)?.rules)
    }

    /// Goes down into a folder of this name, which this rule ignores if any does. After an error nothing has changed.
    fn push_level(
        &mut self,
        name: &[u8],
        ignored_by: Option<DecidingRule>,
    ) -> Result<(), AllocError>
        requires { ignored_by ≡ ignoring (stack_rule self.old Git name.now true) }
        ensures entered { OnOk result (self.new ≡ entered self.old name.now) }
        ensures kept { OnErr result (self.new ≡ self.old) }
    {
        let level = FolderLevel {
            folder: self.folder.len(),
            files: self.files.len(),
            ignored_by: self.ignored_by,
        };
        self.levels.reserve(1)?;
        self.folder.reserve(name.len() + 1)?;
        self.folder.extend_from_slice(name)?;
        self.folder.push_reserved(b'/');
        self.levels.push_reserved(level);
        self.ignored_by = ignored_by;
        Ok(())
    }
}
