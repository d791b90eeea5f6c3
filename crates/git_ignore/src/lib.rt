//! Ignore files, read as git reads them. [`RulesBuilder`] has git's setting `core.ignoreCase` as an option.
//!
//! [`Rules`] are the rules of a file, which decide about paths below its folder:
//!
//! ```rust
//! use git_ignore::{DecideBy, Decision, DecidingRule, Rules};
//!
//! let rules = Rules::new(alloc, b"*.o\n\n# but not\n!a.o\nout/\n[c\n\xff\n")?;
//! assert_eq!(rt; rules.decide_once(b"src/b.o", false)?, Decision::Ignored);
//! let first = DecidingRule { file: 0, line: 1, is_negated: false };
//! assert_eq!(rt; rules.deciding_rule_once(b"src/b.o", false, DecideBy::PathAlone)?, Some(first));
//! assert_eq!(rt; rules.decide_once(b"a.o", false)?, Decision::Kept);
//! assert_eq!(rt; rules.decide_once(b"out", false)?, Decision::Undecided);
//! assert_eq!(rt; rules.decide_once(b"out", true)?, Decision::Ignored);
//!
//! // A class that is not closed. A line need not be UTF-8.
//! assert_eq!(rt; rules.unread_lines(), [6].as_slice());
//! assert_eq!(rt; rules.decide_once(b"\xff", false)?, Decision::Ignored);
//! ```
//!
//! A [`RulesSearcher`] has rules and all the memory of a thread, for many paths. Its calls cannot fail:
//!
//! ```rust
//! use git_ignore::{Decision, Rules, RulesSearcher};
//!
//! let mut searcher = RulesSearcher::new(alloc, &Rules::new(alloc, b"*.o\n!a.o\n")?)?;
//! for (path, line) in [(b"b.o", 1), (b"a.o", 2), (b"b.o", 1)] {
//!     let rule = searcher.deciding_rule(path, false);
//!     assert!(rt; matches!(rule, Some(rule) if rule.line == line));
//! }
//! assert_eq!(rt; searcher.decide(b"a.c", false), Decision::Undecided);
//! ```
//!
//! [`IgnoreStack`] has the files of nested folders, as a walk comes by them:
//!
//! ```rust
//! use git_ignore::{Decision, IgnoreStack};
//!
//! let mut stack = IgnoreStack::new(alloc);
//! stack.add_file(b"*.o\nout/\n**/k/**/m/\n")?;
//! assert_eq!(rt; stack.decide(b"a.o", false)?, Decision::Ignored);
//! assert_eq!(rt; stack.decide(b"out/x", false)?, Decision::Ignored);
//!
//! stack.enter(b"src")?;
//! stack.add_file(b"!a.o\n/b\n")?;
//! assert_eq!(rt; stack.folder(), b"src/".as_slice());
//! assert_eq!(rt; stack.decide(b"a.o", false)?, Decision::Kept);
//! assert_eq!(rt; stack.decide(b"b", false)?, Decision::Ignored);
//! assert_eq!(rt; stack.decide(b"c/b", false)?, Decision::Undecided);
//!
//! // The folders above a path count, too.
//! let deep = b"a/a/a/a/a/a/a/a/k/a/a/a/a/a/a/a/a/m/f";
//! assert_eq!(rt; stack.decide(deep, false)?, Decision::Ignored);
//! assert_eq!(rt; stack.decide(b"b/a/a/a/a/a/a/a/a/a/a/a/a/a/a/a/a/a/f", false)?, Decision::Ignored);
//! assert_eq!(rt; stack.decide(b"a/a/a/a/a/a/a/a/a/a/a/a/a/a/a/a/a/a/a.o", false)?, Decision::Kept);
//!
//! // No rule keeps a path below an ignored folder.
//! stack.enter(b"out")?;
//! stack.add_file(b"!*")?;
//! assert!(rt; stack.is_ignored());
//! assert_eq!(rt; stack.decide(b"x", false)?, Decision::Ignored);
//! stack.leave();
//! assert!(rt; !stack.is_ignored());
//! stack.leave();
//! assert_eq!(rt; stack.decide(b"a.o", false)?, Decision::Ignored);
//! ```
#![tactic(auto)]

mod builder;
mod decision;
mod entry;
mod folder_rules;
mod path_rule;
mod reading;
mod rules;
mod scratch;
mod searcher;
mod stack;
mod stored;
mod two_rules;

pub use builder::RulesBuilder;
pub use decision::{DecideBy, DecidingRule, Decision};
pub use reading::{RulePatterns, rule_patterns};
pub use rules::Rules;
pub use scratch::IgnoreScratch;
pub use searcher::RulesSearcher;
pub use stack::IgnoreStack;
