//! Memory to decide with.

ghost use Rattle.std.specs.Prelude.{◌≡◌, ◌↔◌, IfOk, IsOk, OnOk, OnErr, IsTrue};
ghost use Rattle.git_ignore.specs.RulesValue.{FitsAsBefore, FitsRules};

use crate::rules::Rules;
use bit_sets::IndexSet;
use engine::Memory;
use std::alloc::{AllocError, Global};
use std::marker::Model;

/// All the memory that rules need to decide about a path: two bits for each state of their automaton, and a bit for each rule and two
/// more. The automaton has about as many states as the patterns of the file have characters.
///
/// [`Rules::decide`] requires a scratch that fits the rules, and cannot fail. What earlier calls left in it has no effect. It serves
/// all rules that it fits ([`IgnoreScratch::fits`]), and [`IgnoreScratch::fit`] makes it fit more rules.
///
/// Contracts see two numbers: of states, and of rules.
#[derive(Drop)]
pub struct IgnoreScratch {
    states: usize,
    rules: usize,
    /// The states that the automaton is in, where it is stepped.
    pub(crate) memory: Memory,
    /// The indexes of the rules whose patterns match, and the two that tell of the folders above a path.
    pub(crate) found: IndexSet,
}

impl Model for IgnoreScratch {
    ghost use Rattle.std.specs.Prelude.{◌≡◌, ◌≤◌, ◌+◌, []};
    ghost use Rattle.bit_sets.specs.Indexes.{index_capacity};
    ghost use Rattle.git_ignore.specs.RulesValue.{ScratchValue};

    ghost Value = { ScratchValue };

    ghost view = { λ s. record {
      states = s.states;
      rules = s.rules;
    } };

    ghost invariant = { λ s. (s.states ≤ s.memory.room)
        × ((s.rules + 2 ≤ index_capacity s.found) × (s.memory.caches ≡ [])) };
}

impl IgnoreScratch {
    /// Returns a scratch without room. It allocates nothing.
    pub(crate) fn empty(alloc: Global) -> IgnoreScratch {
        IgnoreScratch {
            states: 0,
            rules: 0,
            memory: Memory::new(alloc),
            found: IndexSet::empty(alloc),
        }
    }

    /// Returns a scratch that fits the rules. Fails only if memory runs out.
    pub fn new(alloc: Global, rules: &Rules) -> Result<IgnoreScratch, AllocError>
        ensures { IfOk result (λ s. FitsRules s rules.now) }
    {
        let mut scratch = IgnoreScratch::empty(alloc);
        scratch.fit(rules)?;
        Ok(scratch)
    }

    /// Returns whether the scratch fits the rules. It fits the rules that it was made for.
    ///
    /// ```rust
    /// use git_ignore::{Decision, IgnoreScratch, Rules};
    ///
    /// let one = Rules::new(alloc, b"*.o\n")?;
    /// let two = Rules::new(alloc, b"*.o\n!a.*\n")?;
    /// let mut scratch = IgnoreScratch::new(alloc, &one)?;
    /// if !scratch.fits(&two) {
    ///     scratch.fit(&two)?;
    /// }
    /// assert_eq!(rt; two.decide(b"a.o", false, &mut scratch), Decision::Kept);
    /// ```
    pub fn fits(&self, rules: &Rules) -> bool
        ensures { IsTrue result ↔ FitsRules self.now rules.now }
    {
        rules.stored.state_count() <= self.states && rules.stored.rule_count() <= self.rules
    }

    /// Makes the scratch fit more rules. It does not allocate if it fits them already. Otherwise the rules also get memory for
    /// rows, if there is enough.
    ///
    /// Fails only if memory runs out. The scratch then fits the same rules as before.
    pub fn fit(&mut self, rules: &Rules) -> Result<(), AllocError>
        ensures fits { OnOk result (FitsRules self.new rules.now) }
        ensures others { FitsAsBefore self.old self.new }
        ensures kept { OnErr result (self.new ≡ self.old) }
        ensures succeeds_if_fits { FitsRules self.old rules.now → IsOk result }
    {
        // What fitted before takes no memory, for rows either.
        let lacks_room = !self.fits(rules);
        self.reserve(rules)?;
        if lacks_room {
            rules.stored.keep_cache();
        }
        Ok(())
    }

    /// Like [`IgnoreScratch::fit`], but the rules get no memory for rows.
    pub(crate) fn reserve(&mut self, rules: &Rules) -> Result<(), AllocError>
        ensures fits { OnOk result (FitsRules self.new rules.now) }
        ensures others { FitsAsBefore self.old self.new }
        ensures kept { OnErr result (self.new ≡ self.old) }
        ensures succeeds_if_fits { FitsRules self.old rules.now → IsOk result }
    {
        let states = self.states.max(rules.stored.state_count());
        let count = self.rules.max(rules.stored.rule_count());
        self.memory.reserve(states)?;
        if count > self.rules {
            let Some(indexes) = count.checked_add(2) else {
                return Err(AllocError);
            };
            self.found.reserve(indexes)?;
        }
        self.states = states;
        self.rules = count;
        Ok(())
    }
}
