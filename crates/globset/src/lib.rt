//! Globs: which paths match a pattern such as `src/**/*.{c,h}`.
//!
//! - A [`Glob`] is a parsed pattern: [`Glob::new`] parses it under the default options, and [`GlobBuilder`] under others.
//! - A [`GlobMatcher`] matches a glob against paths.
//! - A [`GlobSet`] matches many globs against a path at once.
//! - A [`Searcher`] has a set and the memory to match many paths with it, and a [`MatcherSearcher`] a matcher. They cannot fail.
//! - [`escape`] returns a pattern that matches the given text and nothing else.
//! - [`Glob::from_value`] and [`GlobSet::from_value`] read JSON values.
//!
//! # Examples
//!
//! In the examples of this documentation `rt` is the runtime that `main` is given, and `alloc` its allocator, `rt.alloc()`.
//!
//! A glob:
//!
//! ```rust
//! use globset::Glob;
//!
//! let matcher = Glob::new(alloc, "*.{rs,toml}")?.compile_matcher()?;
//! assert!(rt; matcher.is_match("lib.rs")?);
//! assert!(rt; matcher.is_match("src/lib.rs")?);
//! assert!(rt; !matcher.is_match("lib.rs.orig")?);
//! ```
//!
//! A glob with an option:
//!
//! ```rust
//! use globset::GlobBuilder;
//!
//! let glob = GlobBuilder::new("src/*.rs").literal_separator(true).build(alloc)?;
//! let matcher = glob.compile_matcher()?;
//! assert!(rt; matcher.is_match("src/lib.rs")?);
//! assert!(rt; !matcher.is_match("src/bin/main.rs")?);
//! ```
//!
//! A set, which returns the indexes of the globs that match:
//!
//! ```rust
//! use globset::{Glob, GlobSetBuilder};
//!
//! let mut builder = GlobSetBuilder::new(alloc);
//! builder.add(Glob::new(alloc, "*.rs")?)?;
//! builder.add(Glob::new(alloc, "src/lib.rs")?)?;
//! builder.add(Glob::new(alloc, "src/**/foo.rs")?)?;
//! let set = builder.build()?;
//! assert_eq!(rt; set.matches(alloc, "src/bar/baz/foo.rs")?.as_slice(), [0, 2].as_slice());
//! ```
//!
//! # Syntax
//!
//! A path is a list of bytes, UTF-8 or not, and `/` is its only separator. A glob matches a path if it matches all of its
//! bytes, from the first to the last.
//!
//! | Syntax | Matches | For example |
//! |---|---|---|
//! | `?` | any one byte | `a?c` matches `abc` and `a/c`, and not `ac` |
//! | `*` | any bytes, or none | `*.c` matches `a.c`, `.c` and `src/a.c`, and not `a.c.orig` |
//! | `**/` at the start | any directories, or none: nothing, or bytes that end with `/` | `**/a` matches `a`, `x/y/a` and `/a`, and not `xa` |
//! | `/**` at the end | everything in a directory: bytes that begin with `/` | `a/**` matches `a/x/y` and `a/`, and not `a` |
//! | `/**/` | a `/`, and any directories after it: `/`, or bytes that begin and end with `/` | `a/**/b` matches `a/b` and `a/x/y/b`, and not `a/xb` |
//! | `**` or `**/` alone | every path | `**` matches `a`, `x/y` and `/` |
//! | `{a,b}` | `a` or `b`, which are globs | `*.{c,h}` matches `a.c` and `a.h`, and not `a.{c,h}` |
//! | `[ab]`, `[a-z]` | one byte of the class | `[a-c]x` matches `ax` and `bx`, and not `dx` |
//! | `[!ab]`, `[^ab]` | one byte that is not in the class | `[!a-c]x` matches `dx` and `/x`, and not `ax` |
//! | `\` | the character after it | `\*` matches `*`, and not `a` |
//! | another character | its bytes in UTF-8 | `é.c` matches `é.c`, and not `e.c` |
//!
//! **Paths.** A path is not changed before matching. `.` and `..` are components like others, so `*/b` matches `../b`. The paths
//! `a/../b` and `b` are different. Each `/` has to be matched, also at the start or at the end, and a second `/` in a row. A
//! component that begins with `.` is matched like others. Only two rules depend on `..`: [`Candidate::basename`] returns nothing
//! if the last component is `..`, and in a set the glob `**/..` matches no path (see [`GlobSet`]).
//!
//! **Stars.** `**` is more than two `*` only alone, or as a whole component: between two `/`, or between a `/` and the start or
//! end of the glob or of a branch in braces. Several in a row, as in `**/**/a`, match like a single `**`. Any other run of stars,
//! as in `a**`, `**a`, `a***b` and `{**,a}`, is that many `*`, and matches like a single `*`.
//!
//! **Braces.** What stands between the commas are branches, and each is a glob with its own `**`: `x{**/a,b}` matches `xa`,
//! `xy/a` and `xb`. Braces nest to any depth. A branch is left out if it is empty, or only has branches in braces that are
//! left out: `a{,b}` matches `ab`, and not `a`. Under `empty_alternates` none is left out. Braces without a branch match
//! nothing more: `a{}` matches `a`. A `,` outside braces matches itself.
//!
//! **Classes** match a byte. A range has both of its ends. The first character after `[`, `[!` or `[^` is always in the class:
//! `[]]`, `[!]]` and `[-a]` are classes. So is a `-` at the end. A `\` in a class escapes nothing, and is in it. A `/` in a class
//! is matched under `literal_separator`, too, and by `[!a]`. A character that is not ASCII stands for its bytes: `[é]` matches a
//! byte, C3 or A9, and not `é`, which is both. `docs/DEFINITIONS.md` has the bytes of a range of such characters.
//!
//! ## Options
//!
//! Each glob has its own options. The methods of [`GlobBuilder`] of these names set them.
//!
//! | Option | Default | Effect |
//! |---|---|---|
//! | `case_insensitive` | off | ASCII letters match in both cases, in classes too |
//! | `literal_separator` | off | `?` and `*` do not match `/`; classes, `**/`, `/**/` and `/**` match what they do without it |
//! | `backslash_escape` | on | if it is off, `\` matches itself |
//! | `empty_alternates` | off | no branch in braces is left out: `a{,b}` stands for `a` and `ab` |
//! | `allow_unclosed_class` | off | a `[` that no `]` closes matches itself, and is no error |
//! | `whole_character` | off | `?` matches all bytes of one character in UTF-8; `*` and classes match bytes |
//!
//! ## Errors
//!
//! A text is a glob unless it has an error. There are five, named by [`ErrorKind`]: a class or braces that are not closed, a `}`
//! that closes nothing, a `\` at its end, or a range that goes down, as `[z-a]`. The first error from the left is returned.
#![tactic(auto)]

mod builder;
pub mod laws;
mod searcher;
mod set;

pub use builder::GlobSetBuilder;
pub use globset_glob::{
    AsPath, Candidate, DEFAULT_DFA_SIZE_LIMIT, Error, ErrorKind, Glob, GlobBuilder, GlobMatcher,
    MatcherSearcher, NeedsScratch, Scratch, ValueError, ValueErrorKind, Visits, escape,
};
pub use searcher::Searcher;
pub use set::GlobSet;
