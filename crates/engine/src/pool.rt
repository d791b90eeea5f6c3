//! Values that are kept for later calls through a shared reference. No call waits.
//!
//! A [`Pool`] has room for a few: a call takes one out, uses it alone, and gives it back.

ghost use Rattle.std.specs.Prelude.{◌≡◌, IfSome};

use counted_slot::{Counted, FREE, Fits, PRESENT, TAKEN};
use std::marker::Model;

/// Bytes between two slots, so that no two of them share a line of the processor's cache.
type Apart = [u64; 14];

/// Room for up to four values. Contracts see the tag that each of them fits.
#[derive(Drop)]
pub struct Pool<X: Fits> {
    first: Counted<Option<X>>,
    _after_first: Apart,
    second: Counted<Option<X>>,
    _after_second: Apart,
    third: Counted<Option<X>>,
    _after_third: Apart,
    fourth: Counted<Option<X>>,
}

impl<X: Fits> Model for Pool<X> {
    ghost Value = { X.Tag };

    ghost view = { λ p. p.first };

    ghost invariant = { λ p. (p.second ≡ p.first) × (p.third ≡ p.first) × (p.fourth ≡ p.first) };
}

impl<X: Fits> Pool<X> {
    /// Returns a pool with no values, for those that fit a tag.
    pub fn new(tag: &X::Tag) -> Pool<X>
        ensures { result ≡ tag.now }
    {
        Pool {
            first: Counted::new(None, tag),
            _after_first: [0; 14],
            second: Counted::new(None, tag),
            _after_second: [0; 14],
            third: Counted::new(None, tag),
            _after_third: [0; 14],
            fourth: Counted::new(None, tag),
        }
    }
}

impl<X: Fits + Drop> Pool<X> {
    /// Takes a value out, if any is there that no other call accesses.
    pub fn take(&self) -> Option<X>
        ensures { IfSome result (X.fits self.now) }
    {
        if let Some(value) = taken(&self.first) {
            return Some(value);
        }
        if let Some(value) = taken(&self.second) {
            return Some(value);
        }
        if let Some(value) = taken(&self.third) {
            return Some(value);
        }
        taken(&self.fourth)
    }

    /// Puts a value in for later calls. Returns the value if each slot is full or another call accesses it.
    pub fn give(&self, value: X) -> Option<X>
        requires { X.fits self.now value }
        ensures { IfSome result (λ x. x ≡ value) }
    {
        let value = given(&self.first, value)?;
        let value = given(&self.second, value)?;
        let value = given(&self.third, value)?;
        given(&self.fourth, value)
    }
}

/// Takes the value of a slot, if there is any and no other call accesses the slot.
fn taken<X: Fits>(slot: &Counted<Option<X>>) -> Option<X>
    ensures { IfSome result (X.fits slot.now) }
{
    // A look that writes nothing, before the step that takes the line from other processors.
    if slot.load() != PRESENT {
        return None;
    }
    let (found, claim) = slot.turn(PRESENT, TAKEN);
    if found != PRESENT {
        claim.done();
        return None;
    }
    claim.put(None, FREE)
}

/// Puts a value into an empty slot. Returns the value if the slot is full, or another call accesses it.
fn given<X: Fits + Drop>(slot: &Counted<Option<X>>, value: X) -> Option<X>
    requires { X.fits slot.now value }
    ensures { IfSome result (λ x. x ≡ value) }
{
    if slot.load() != FREE {
        return Some(value);
    }
    let (found, claim) = slot.turn(FREE, TAKEN);
    if found != FREE {
        claim.done();
        return Some(value);
    }
    // There was no value, as `found` says. No contract says so: if there was one, it would be dropped.
    claim.put(Some(value), PRESENT);
    None
}
