//! An object as C owns it, and how objects are handed out.

ghost use Rattle.std.specs.Prelude.{◌≡◌, ◌≢◌, Option, Some, IsSome, Err, IfOk, IsOk, [], ◌∷◌};
ghost use Rattle.c_objects.specs.declared.object.Failure.TheVariants.{WrongKind};
ghost use Rattle.c_objects.specs.declared.object.Object.{Object};
ghost use Rattle.c_objects.specs.Held.{held, object_coded};
ghost use Rattle.c_objects.specs.Statuses.{IsOneOf};

mod parts;

use crate::object::{Failure, Object};
use crate::status::{DONE, OUT_OF_MEMORY, Status, WRONG_KIND};
use parts::BoxParts;
use std::alloc::Global;
use std::marker::Model;

/// A box of an object, by its address. To C it is a struct of a pointer.
///
/// Its ghost field is the object, where it owns a box, and `None` where it owns nothing: then its pointer may be any. Dropping
/// it forgets the box.
#[repr(C)]
#[derive(Drop)]
pub struct Owned {
    at: *mut u8,
    alloc: Global,
    pub ghost object: { Option Object } by { object_coded },
}

impl Model for Owned {
    ghost also_owns = { λ h. held h.alloc h.at h.object };
}

impl Owned {
    ghost use Rattle.std.specs.Borrow.{sem};
    ghost use Rattle.c_objects.specs.Lending.{LendsObject};

    /// Makes the owner of this box.
    pub fn of(object: Box<Object>) -> Owned
        ensures { result.object ≡ Some object.value }
    {
        Owned::of_parts(BoxParts::of(object))
    }

    /// Returns the object.
    pub fn as_mut(&mut self) -> &mut Object
        requires owns { IsSome self.old.object }
        ensures* lends { sem 𝓛 (LendsObject self.entry result) }
        ensures value { self.old.object ≡ Some result.now }
    {
        unsafe { &mut *(self.at as *mut Object) }
    }

    /// Returns the box.
    pub fn into_box(self) -> Box<Object>
        requires { IsSome self.object }
        ensures { self.object ≡ Some result.value }
    {
        self.into_parts().into_box()
    }

    fn of_parts(parts: BoxParts<Object, Global>) -> Owned
        ensures { result.object ≡ Some parts.value }
    {
        let BoxParts { ptr, alloc } = parts;
        let at = ptr as *mut u8;
        Owned { at, alloc }
    }

    fn into_parts(self) -> BoxParts<Object, Global>
        requires { IsSome self.object }
        ensures { self.object ≡ Some result.value }
    {
        let Owned { at, alloc } = self;
        let ptr = at as *mut Object;
        BoxParts { ptr, alloc }
    }
}

/// Puts an object into a box, and lets the caller own it. After an error the owner is as it was.
pub fn hand_out(alloc: Global, object: Object, out: &mut Owned) -> Status
    ensures done { result ≡ DONE → out.new.object ≡ Some object }
    ensures refused { result ≢ DONE → out.new ≡ out.old }
    ensures statuses { IsOneOf (DONE ∷ OUT_OF_MEMORY ∷ []) result }
{
    let Ok(boxed) = Box::new(alloc, object) else {
        return OUT_OF_MEMORY;
    };
    *out = Owned::of(boxed);
    DONE
}

/// Lets the caller own an object that was made. After an error the owner is as it was.
pub fn give(alloc: Global, made: Result<Object, Failure>, out: &mut Owned) -> Status
    ensures done { result ≡ DONE → IfOk made (λ object. out.new.object ≡ Some object) × IsOk made }
    ensures refused { result ≢ DONE → out.new ≡ out.old }
    ensures wrong_kind { result ≡ WRONG_KIND → made ≡ Err WrongKind }
    ensures other_kind { made ≡ Err WrongKind → result ≡ WRONG_KIND }
    ensures statuses { IsOneOf (DONE ∷ OUT_OF_MEMORY ∷ WRONG_KIND ∷ []) result }
{
    match made {
        Ok(object) => hand_out(alloc, object, out),
        Err(failure) => failure.status(),
    }
}
