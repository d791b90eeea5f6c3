//! An object that C lends.

ghost use Rattle.std.specs.Prelude.{◌≡◌};
ghost use base.Fml.{Lft, Share};
ghost use denote.Ref.{Bor};
ghost use Rattle.c_objects.specs.declared.object.Object.{Object};
ghost use Rattle.c_objects.specs.LentAt.{lends, life_coded, share_coded, lent_coded};

use crate::object::Object;
use std::marker::Model;

/// An object that may be read, by its address. To C it is a struct of a pointer.
///
/// It holds a share of the right to read the object for some lifetime, so an object may have any number of these, in any number
/// of threads. While any exists, nothing writes or frees the object.
#[repr(C)]
#[derive(Drop)]
pub struct Lent {
    at: *const u8,
    pub ghost life: { Lft } by { life_coded },
    pub ghost share: { Share } by { share_coded },
    pub ghost object: { Object } by { lent_coded },
}

impl Model for Lent {
    ghost also_owns = { λ l. lends l.at l.life l.share l.object };
}

impl Lent {
    /// Calls `f` on the object.
    pub fn read<X, R, F: FnOnce(&Object, X) -> R>(&mut self, x: X, f: F) -> R
        requires { (r : Bor Object) → r.now ≡ self.old.object → F.pre f r x }
        ensures same { self.new ≡ self.old }
        ensures answer { (r : Bor Object) × (r.now ≡ self.old.object) × F.post f r x result }
    {
        core::mem::replace_with(self, (x, f), |lent, (x, f)| {
            let (answer, lent) = lent.with(x, f);
            (lent, answer)
        })
    }

    /// Calls `f` on the object, and gives the right back.
    pub fn with<X, R, F: FnOnce(&Object, X) -> R>(self, x: X, f: F) -> (R, Lent)
        requires { (r : Bor Object) → r.now ≡ self.object → F.pre f r x }
        ensures same { result.1 ≡ self }
        ensures answer { (r : Bor Object) × (r.now ≡ self.object) × F.post f r x result.0 }
    {
        unsafe { Lent::call_at(self, x, f) }
    }

    unsafe fn call_at<X, R, F: FnOnce(&Object, X) -> R>(lent: Lent, x: X, f: F) -> (R, Lent)
        requires { (r : Bor Object) → r.now ≡ lent.object → F.pre f r x }
        ensures { (result.1 ≡ lent)
            × ((r : Bor Object) × (r.now ≡ lent.object) × F.post f r x result.0) }
    {
        let answer = f(&*(lent.at as *const Object), x);
        (answer, lent)
    }
}
