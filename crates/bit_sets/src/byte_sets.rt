//! Sets of bytes and their numbers.

ghost use Rattle.std.specs.Prelude.{◌≡◌, ◌<◌, ◌++◌, [], List, length, IfOk, IfSome};
ghost use Rattle.bit_sets.specs.declared.byte_set.ByteSet.{ByteSet};
ghost use Rattle.bit_sets.specs.Bytes.{set_at};

use crate::byte_set::ByteSet;
use std::alloc::{AllocError, Global};

/// The most sets that a search compares. With no more sets than these, it compares all, and they have no places.
const COMPARED: usize = 24;

/// Ends a chain. A set with this number would need 128 GiB of sets before it.
const NONE: u32 = u32::MAX;

/// Sets of bytes, numbered from 0 on. Equal sets have one number, unless more than `COMPARED` sets have their place.
#[derive(Drop)]
pub struct ByteSets {
    sets: Vec<ByteSet>,
    /// For each set, the number of the last set before it that has its place, or `NONE`: so the sets of a place are a chain.
    before: Vec<u32>,
    /// For each place, the number of the last set that has it, or `NONE`. It is empty as long as sets have no places.
    last: Vec<u32>,
}

impl ByteSets {
    /// Returns no sets.
    pub fn new(alloc: Global) -> ByteSets
        ensures { result.sets.items ≡ [] }
    {
        ByteSets {
            sets: Vec::new(alloc),
            before: Vec::new(alloc),
            last: Vec::new(alloc),
        }
    }

    /// Returns the number of a set, which is appended if it is not found.
    ///
    /// Returns an error if memory runs out, or numbers do, which sets of 128 GiB use up.
    pub fn number_of(&mut self, bytes: ByteSet) -> Result<u32, AllocError>
        ensures held { IfOk result
            (λ n. (n < length self.new.sets.items) × (set_at self.new.sets.items n ≡ bytes)) }
        ensures more { (more : List ByteSet)
            × (self.new.sets.items ≡ self.old.sets.items ++ more) }
    {
        if let Some(number) = self.find(&bytes) {
            return Ok(number);
        }
        let Ok(number) = u32::try_from(self.sets.len()) else {
            return Err(AllocError);
        };
        self.sets.push(bytes)?;
        if self.sets.len() > COMPARED {
            self.give_places()?;
        }
        Ok(number)
    }

    /// Returns the number of a set, if it is found.
    fn find(&self, bytes: &ByteSet) -> Option<u32>
        ensures { IfSome result
            (λ n. (n < length self.now.sets.items) × (set_at self.now.sets.items n ≡ bytes.now)) }
    {
        if self.last.is_empty() {
            let number = self.sets.iter().position(|set| set.is(bytes))?;
            return u32::try_from(number).ok();
        }
        let mut number = *self.last.get(bytes.place())?;
        for _ in 0..COMPARED {
            let set = self.sets.get(number as usize)?;
            if set.is(bytes) {
                return Some(number);
            }
            number = *self.before.get(number as usize)?;
        }
        None
    }

    /// Puts each set that is in no chain at the head of the chain of its place.
    fn give_places(&mut self) -> Result<(), AllocError>
        ensures { self.new.sets.items ≡ self.old.sets.items }
    {
        self.last.resize(256, NONE)?;
        for at in self.before.len()..self.sets.len() {
            let (Some(set), Ok(number)) = (self.sets.get(at), u32::try_from(at)) else {
                return Err(AllocError);
            };
            if let Some(last) = self.last.get_mut(set.place()) {
                self.before.push(*last)?;
                *last = number;
            }
        }
        Ok(())
    }

    /// Returns the sets by their numbers.
    pub fn into_vec(self) -> Vec<ByteSet>
        ensures { result ≡ self.sets }
    {
        let ByteSets { sets, .. } = self;
        sets
    }
}
