//! What C owns and lends, and what the functions do that C calls. These functions are in `globset_c`, with their contracts.
//!
//! All is safe code but [`owned`] and [`lent`], which alone reach the memory of objects.
#![tactic(auto)]

pub mod answers;
pub mod error;
pub mod globs;
pub mod ignored;
pub mod lent;
pub mod object;
pub mod options;
pub mod owned;
pub mod read_glob;
pub mod relations;
pub mod searchers;
pub mod sets;
pub mod slices;
pub mod status;
