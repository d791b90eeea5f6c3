//! What the program `globs` answers, as functions over values: which lines are kept ([`selection`]), a shortest path that a glob
//! matches ([`shortest`]), and how two lists of globs compare ([`comparison`]).
#![tactic(auto)]

pub mod comparison;
pub mod selection;
pub mod shortest;
