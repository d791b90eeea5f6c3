//! Rows: the states that the beginnings of paths lead to.

ghost use Rattle.std.specs.Prelude.{◌≡◌, ℕ, ◌<◌, [], length, slice_get, Some, IfOk, OnOk};
ghost use Rattle.bit_sets.specs.Texts.{AllBytes};
ghost use Rattle.byte_nfa.specs.Steps.{NfaValue};

use crate::domain::PathPlace;
use indexmap::IndexSet;
use std::alloc::{AllocError, Global};

/// A row: the place of a path in its domain, and the states of an automaton that it leads to.
#[derive(PartialEq, Eq, Hash, Drop)]
pub struct SearchRow {
    pub place: PathPlace,
    pub states: Vec<usize>,
}

/// The origin of a row: the byte that led to it, and the number of the row where the byte was read.
#[derive(Clone, Copy)]
pub struct Origin {
    pub row: usize,
    pub byte: u8,
}

/// Rows, each once, in the order of their additions.
#[derive(Drop)]
pub struct SearchRows {
    pub seen: IndexSet<SearchRow>,
    /// The origin of each row. The origin of the first row means nothing.
    pub origins: Vec<Origin>,
}

impl SearchRows {
    ghost use Rattle.glob_relations.specs.declared.search.Question.{Question};
    ghost use Rattle.glob_relations.specs.inner.Rows.{AddsRow, AreDifferent, AreRows, HasRow, IsDeep, WantsRow, WantsFrom};

    /// Returns no rows. It allocates nothing.
    pub fn new(alloc: Global) -> SearchRows
        ensures rows { result.seen.keys ≡ [] }
        ensures origins { result.origins.items ≡ [] }
    {
        SearchRows {
            seen: IndexSet::new(alloc),
            origins: Vec::new(alloc),
        }
    }

    /// Returns the number of rows.
    pub fn len(&self) -> usize
        ensures len { result ≡ length self.now.seen.keys }
        ensures different { AreDifferent self.now.seen.keys }
    {
        self.seen.len()
    }

    /// Adds a row, unless it is there.
    pub fn add(&mut self, row: SearchRow, origin: Origin) -> Result<(), AllocError>
        ensures { OnOk result (AddsRow self.old self.new row origin) }
    {
        let (_, is_new) = self.seen.insert_full(row)?;
        if is_new {
            self.origins.push(origin)?;
        }
        Ok(())
    }

    /// Returns a row by its number.
    pub fn row(&self, number: usize) -> &SearchRow
        requires { number < length self.now.seen.keys }
        ensures { HasRow self.now number result.now }
    {
        self.seen.get_index(number).unwrap()
    }

    /// Returns the bytes that led from the first row to a row.
    pub fn path_to(&self, alloc: Global, number: usize) -> Result<Vec<u8>, AllocError>
        // There is a row of this number. Each row has an origin, and that of each but the first names an earlier row and a byte.
        requires number { number < length self.now.seen.keys }
        requires origins { length self.now.origins.items ≡ length self.now.seen.keys }
        requires rows { (i : ℕ) (origin : Origin) → 0 < i
            → slice_get self.now.origins.items i ≡ Some origin
            → (origin.row < i) × (origin.byte < 256) }

        // In the rows of a search, the path is wanted if the row is. It consists of bytes, as many as led from the first row to
        // this one.
        ensures path { IfOk result
            (λ path. (m : NfaValue) (n : Question) (row : SearchRow)
            → AreRows m n self.now → HasRow self.now number row → WantsRow m n row []
            → WantsFrom m n path.items) }
        ensures bytes { IfOk result (λ path. AllBytes path.items) }
        ensures length { IfOk result
            (λ path. (depth : ℕ) → IsDeep self.now depth number → length path.items ≡ depth) }
    {
        let mut path = Vec::new(alloc);
        let mut at = number;
        while at > 0 {
            let origin = &self.origins[at];
            path.push(origin.byte)?;
            at = origin.row;
        }
        path.reverse();
        Ok(path)
    }
}
