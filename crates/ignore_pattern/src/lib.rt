//! Lines of ignore files: what git reads them as, and an automaton of their patterns.
//!
//! [`pattern_of_line`] returns the pattern of a line, or nothing if the line matches nothing. A line is bytes, without its line
//! feed. Of a whole file the caller takes a byte order mark away, and cuts the lines. [`line_text`] returns the part of a line that
//! its pattern is read from. [`automaton_of`] makes an automaton of patterns, which leads a path to the indexes of the patterns that
//! match it.
//!
//! ```
//! let mut patterns = Vec::new(alloc);
//! for line in [b"*.o".as_slice(), b"!keep.o".as_slice()] {
//!     if let Some(pattern) = pattern_of_line(alloc, line)? {
//!         patterns.push(pattern)?;
//!     }
//! }
//! let automaton = automaton_of(alloc, &patterns, false)?;
//! ```
//!
//! # Lines
//!
//! | Line | Meaning |
//! |---|---|
//! | a carriage return at the end | is no part of the line |
//! | a NUL | ends the line |
//! | spaces at the end | are no part of the line, but for one after a `\` that escapes it; tabs stay |
//! | `#` first | a comment; `\#` is a plain `#` |
//! | `!` first | what the pattern matches is kept; `\!` is a plain `!` |
//! | `/` last | the pattern is for folders alone |
//! | another `/` | the pattern is matched against whole paths; one at the start is no part of it. Without one it is matched against last components |
//!
//! # Patterns
//!
//! | Pattern | Matches |
//! |---|---|
//! | `?` | one byte, but not `/` |
//! | `*` | bytes without `/`, or none |
//! | `**/` | nothing, or bytes that end with `/` |
//! | `**` at the end, and before `\/` | any bytes, or none |
//! | another run of stars | what one does |
//! | `[ab]`, `[a-z]`, `[[:alpha:]]` | one byte that the class has, but not `/` |
//! | `[!ab]`, `[^ab]` | one byte that the class does not have, but not `/` |
//! | `\` | the byte after it |
//! | `{`, `}`, `,` and others | themselves |
//!
//! Two and more stars stand for folders or for everything only in a pattern with a `/` in it that is not its last byte. They have
//! to follow a `/`, or all bytes before them have to be plain: not escaped, and none of `?`, `*` and `[`.
//!
//! In a class a `\` escapes, the first byte is always a member, and the twelve names in `[:..:]` have ASCII bytes. A range that
//! goes down has no more than its first byte. A pattern with a `\` at its end, a class that nothing closes or with an unknown name
//! matches nothing.
//!
//! # Case
//!
//! If case is ignored, as by `core.ignoreCase` of git, a path's ASCII letters are compared in lower case. A pattern's letters are
//! compared in lower case only where they are plain. So an escaped letter in upper case matches nothing, nor does such a member of
//! a class. A range and a named class match a letter that they have in lower or in upper case.
#![tactic(auto)]

mod automaton;
mod class;
mod compared;
mod element;
mod item;
mod line;
mod pattern;
mod place;
mod reading;
mod states;

pub use automaton::automaton_of;
pub use compared::add_pattern;
pub use line::line_text;
pub use pattern::{IgnorePattern, pattern_of_line};
