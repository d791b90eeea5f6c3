//! Reads globs: from a text and options to tokens, or to the first error; and defines what tokens match.
//!
//! `reading` splits a text into `lexemes`, which separate special characters from plain characters. Then `stars` reads runs of
//! `*`, and `groups` reads braces. `class` reads the bodies of character classes. No code here matches paths: the definitions of
//! what tokens match are in `specs`, and the crates above match as these say.
#![tactic(auto)]

mod class;
mod groups;
pub mod laws;
mod lexemes;
mod options;
mod parse_error_kind;
mod reading;
mod stars;
mod token;

pub use class::Class;
pub use options::Options;
pub use parse_error_kind::{ParseErrorKind, ReadError};
pub use reading::{error_offset, read_tokens};
pub use token::{Token, copy_of, is_prefix_alone};
