//! Options of ignore files.

ghost use Rattle.std.specs.Prelude.{◌≡◌, false, IfOk};
ghost use Rattle.git_ignore.specs.StackValue.{at_top};

use crate::rules::Rules;
use crate::stack::IgnoreStack;
use crate::stored::RowMemory;
use engine::DEFAULT_DFA_SIZE_LIMIT;
use std::alloc::{AllocError, Global};
use std::marker::Model;

/// How ignore files are read. Contracts see whether case is ignored, and the limit of [`RulesBuilder::dfa_size_limit`], which
/// changes no answer.
///
/// ```rust
/// use git_ignore::{Decision, RulesBuilder};
///
/// let rules = RulesBuilder::new().ignore_case(true).build(alloc, b"*.Tmp\n")?;
/// assert_eq!(rt; rules.decide_once(b"A.TMP", false)?, Decision::Ignored);
///
/// let mut stack = RulesBuilder::new().ignore_case(true).build_stack(alloc);
/// stack.add_file(b"/Build/\n")?;
/// assert_eq!(rt; stack.decide(b"build/a.o", false)?, Decision::Ignored);
/// ```
#[derive(Clone, Copy, Debug)]
pub struct RulesBuilder {
    ignore_case: bool,
    dfa_size_limit: usize,
}

impl Model for RulesBuilder {
    ghost use Rattle.git_ignore.specs.RulesValue.{OptionsValue};

    ghost Value = { OptionsValue };

    ghost view = { λ b. record {
      ignore_case = b.ignore_case;
      dfa_size_limit = b.dfa_size_limit;
    } };

    ghost inverse = { λ v. record {
      ignore_case = v.ignore_case;
      dfa_size_limit = v.dfa_size_limit;
    } };
}

impl RulesBuilder {
    /// Returns the options of [`Rules::new`] and [`IgnoreStack::new`]: case counts, and the limit is 16 MiB.
    pub fn new() -> RulesBuilder
        ensures { result.ignore_case ≡ false }
    {
        RulesBuilder {
            ignore_case: false,
            dfa_size_limit: DEFAULT_DFA_SIZE_LIMIT,
        }
    }

    /// Sets whether ASCII letters are compared without regard to case, as git does where `core.ignoreCase` is set.
    pub fn ignore_case(self, yes: bool) -> RulesBuilder
        ensures ignore_case { result.ignore_case ≡ yes }
        ensures limit { result.dfa_size_limit ≡ self.dfa_size_limit }
    {
        RulesBuilder {
            ignore_case: yes,
            dfa_size_limit: self.dfa_size_limit,
        }
    }

    /// Sets the limit on the bytes of rows that each ignore file keeps between calls. It means what `GlobSetBuilder::dfa_size_limit`
    /// in `globset` says of a set with one automaton, whose globs are the rules of the file, and the default is the same.
    ///
    /// The files of a walk begin with few rows, and get more as paths need them. [`Rules`] have at once, for a scratch or a
    /// searcher, what they may have.
    ///
    /// ```rust
    /// use git_ignore::{Decision, RulesBuilder};
    ///
    /// let mut stack = RulesBuilder::new().dfa_size_limit(1 << 20).build_stack(alloc);
    /// stack.add_file(b"*.o\n")?;
    /// assert_eq!(rt; stack.decide(b"a.o", false)?, Decision::Ignored);
    /// ```
    pub fn dfa_size_limit(self, bytes: usize) -> RulesBuilder
        ensures ignore_case { result.ignore_case ≡ self.ignore_case }
        ensures limit { result.dfa_size_limit ≡ bytes }
    {
        RulesBuilder {
            ignore_case: self.ignore_case,
            dfa_size_limit: bytes,
        }
    }

    /// Reads an ignore file, given by its bytes, as [`Rules::new`] does.
    ///
    /// Fails only if memory runs out.
    pub fn build(self, alloc: Global, file: &[u8]) -> Result<Rules, AllocError>
        ensures file { IfOk result (λ r. r.file ≡ file.now) }
        ensures ignore_case { IfOk result (λ r. r.ignore_case ≡ self.ignore_case) }
    {
        let rows = RowMemory::at_once(self.dfa_size_limit);
        Rules::read(alloc, file, self.ignore_case, rows)
    }

    /// Returns a walk in its top folder, as [`IgnoreStack::new`] does. Its ignore files are read with these options.
    pub fn build_stack(self, alloc: Global) -> IgnoreStack
        ensures { result ≡ at_top self.ignore_case }
    {
        IgnoreStack::with_options(alloc, self.ignore_case, self.dfa_size_limit)
    }
}
