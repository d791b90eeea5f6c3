//! Paths, the parts of them that globs are compared with, keys for these, and which of many keys a text is, begins or ends with.
//!
//! A [`Candidate`] is a path. A [`Key`] is a text to compare with a path or with a part of it.
//!
//! [`TableBuilder`] takes keys with their indexes, and [`Table`] looks up a key. A lookup takes a borrowed key, so nothing is
//! copied for it, and is a visit. It compares few keys, even if they are adversarial.
//!
//! A [`Trie`] is built from all its texts at once. A walk over a path reads a node only where texts part or end, and ends as soon
//! as no text goes on as the path does.
//!
//! Nothing here knows globs.
#![tactic(auto)]

mod builder;
mod candidate;
mod key;
pub mod laws;
mod pairs;
mod path_parts;
mod rows;
mod table;
mod tree;
mod trie;

pub use builder::TableBuilder;
pub use candidate::{AsPath, Candidate};
pub use key::Key;
pub use path_parts::PathParts;
pub use table::Table;
pub use trie::{Anchor, Text, Trie};
