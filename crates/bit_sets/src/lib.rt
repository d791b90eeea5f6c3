//! Sets of numbers, as the bits of machine words, and counts of reads.
//!
//! A [`ByteSet`] is a set of bytes, an [`IndexSet`] a set of indexes with room for a number of them, and a [`StateSet`] a set of
//! states, whose reads are counted. A [`Visits`] is a count of reads: it is for contracts, and has no size and no cost in a
//! running program.
#![tactic(auto)]

mod byte_set;
mod byte_sets;
mod index_set;
mod state_set;
mod visits;
mod words;

pub use byte_set::ByteSet;
pub use byte_sets::ByteSets;
pub use index_set::IndexSet;
pub use state_set::StateSet;
pub use visits::Visits;
