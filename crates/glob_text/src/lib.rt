//! A glob's text without matching: its tokens or its error, and a regular expression; and errors of reading values. A glob is its
//! text and its options here, and a list of globs is for contracts alone ([`GivenGlobs`]).
//!
//! This crate defines globs, and runs no automaton.
#![tactic(auto)]

mod error;
mod escaping;
mod given;
mod reading;
mod regex_text;
mod value_error;

pub use error::{Error, ErrorKind};
pub use escaping::escape;
pub use given::GivenGlobs;
pub use reading::tokens_of_text;
pub use regex_text::regex_of_tokens;
pub use value_error::{ValueError, ValueErrorKind, error_of_element};
