//! A count of reads, for contracts: it has no size and no cost in a running program.

use std::marker::Model;
use std::mem;
use std::snapshot::Snapshot;

/// Each snapshot of a count holds the count before it. A snapshot has no bytes, so neither has this.
#[derive(Drop)]
enum Ticks {
    Start,
    After(Snapshot<Ticks>),
}

/// The number of visits that calls have made.
///
/// A visit is a counted read, such as of a state of an automaton, of an entry of a table or of a node of a trie. A function that
/// makes visits takes a `&mut Visits`, and its contract bounds their number and says that the count never decreases.
///
/// In a running program a count has no size, and counting takes no time. In contracts it is a number without an upper
/// bound.
///
/// ```rust
/// use globset::{Candidate, Glob, Visits};
///
/// let matcher = Glob::new(alloc, "*.c")?.compile_matcher()?;
/// let mut visits = Visits::new();
/// assert!(rt; matcher.is_match_visits(&Candidate::new("a.c"), &mut visits)?);
/// ```
#[derive(Drop)]
pub struct Visits {
    ticks: Snapshot<Ticks>,
}

impl Model for Visits {
    ghost use Rattle.std.specs.Prelude.{ℕ};

    ghost Value = { ℕ };

    ghost use Rattle.bit_sets.specs.inner.Ticks.{count};

    ghost view = { λ v. count v.ticks.value };
}

impl Visits {
    ghost use Rattle.std.specs.Prelude.{◌≡◌, ◌+◌};

    /// Returns a count of no visits.
    pub fn new() -> Visits
        ensures { result ≡ 0 }
    {
        Visits {
            ticks: Snapshot::of(&Ticks::Start),
        }
    }

    /// Counts another visit.
    pub fn tick(&mut self)
        ensures { self.new ≡ self.old + 1 }
    {
        let before = mem::replace(&mut self.ticks, Snapshot::of(&Ticks::Start));
        self.ticks = Snapshot::of(&Ticks::After(before));
    }
}
