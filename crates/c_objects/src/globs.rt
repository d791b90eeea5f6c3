//! Globs: reading one, and those that are lent.

ghost use Rattle.std.specs.Prelude.{◌≡◌, Some, Err, IfOk, IfErr, OnOk, ◌↔◌, IsTrue};
ghost use Rattle.std.specs.Str.{IsUtf8};
ghost use Rattle.glob_text.specs.Errors.{IsParseErrorOf};
ghost use Rattle.glob_text.specs.GlobMatches.{IsRead};
ghost use Rattle.c_objects.specs.Kinds.{IfGlob, IsGlob};
ghost use Rattle.c_objects.specs.Options.{glob_of, options_of, IsKnown};
ghost use Rattle.c_objects.specs.declared.globs.Unread.TheVariants.{NotUtf8, UnknownOption};
ghost use Rattle.c_objects.specs.declared.object.Failure.TheVariants.{WrongKind};
ghost use Rattle.c_objects.specs.LentGlobs.{AreGlobs, lent_globs};

use crate::lent::Lent;
use crate::object::{Failure, Object};
use crate::options::{are_known, builder_of};
use globset::{Error, Glob};
use std::alloc::{AllocError, Global};

/// Why a text was not read.
pub enum Unread {
    NotUtf8,
    UnknownOption,
}

/// Reads a glob under the options that the bits stand for.
pub fn read(alloc: Global, text: &[u8], options: u32) -> Result<Result<Glob, Error>, Unread>
    ensures made { IfOk result
        (λ read. IfOk read (λ g. (g ≡ glob_of text.now options) × IsRead g)) }
    ensures rejected { IfOk result
        (λ read. IfErr read (IsParseErrorOf (options_of options) text.now)) }

    // The options are looked at first, and then the bytes.
    ensures unknown { IfErr result (λ why. why ≡ UnknownOption → ¬ (IsKnown options)) }
    ensures known { OnOk result (IsKnown options) }
    ensures not_utf8 { IfErr result
        (λ why. why ≡ NotUtf8 → IsKnown options × (¬ (IsUtf8 text.now))) }
    ensures utf8 { OnOk result (IsUtf8 text.now) }
{
    if !are_known(options) {
        return Err(Unread::UnknownOption);
    }
    let Ok(text) = std::str::from_utf8(text) else {
        return Err(Unread::NotUtf8);
    };
    Ok(builder_of(text, options).build(alloc))
}

/// Returns a copy of the glob, if the object is a glob.
pub fn copy_of(object: &Object) -> Result<Glob, Failure>
    ensures copied { IfOk result (λ copy. IfGlob (Some object.now) (λ g. copy ≡ g)) }
    ensures wrong_kind { IfErr result (λ why. why ≡ WrongKind → ¬ (IsGlob (Some object.now))) }
    ensures other_kind { ¬ (IsGlob (Some object.now)) → result ≡ Err WrongKind }
{
    let Object::Glob(glob) = object else {
        return Err(Failure::WrongKind);
    };
    match glob.glob().clone() {
        Ok(copy) => Ok(copy),
        Err(_) => Err(Failure::OutOfMemory),
    }
}

/// Returns copies of the globs that are lent, in their order. It fails if memory runs out, and at an object that is no glob.
#[tactic(auto, using(crate::proofs::lemmas::LentGlobs::all_globs, crate::proofs::lemmas::LentGlobs::the_glob))]
pub fn copies_of(alloc: Global, globs: &mut [Lent]) -> Result<Vec<Glob>, AllocError>
    ensures same { globs.new ≡ globs.old }
    ensures copied { IfOk result (λ copies. copies.items ≡ lent_globs globs.old) }
{
    // The borrow checker has to be told the type that is lent, which nothing else here names.
    let _object: Option<&Object> = None;
    let mut copies = Vec::new(alloc);
    for i in 0..globs.len() {
        let Ok(copy) = globs[i].read((), |object, ()| copy_of(object)) else {
            return Err(AllocError);
        };
        copies.push(copy)?;
    }
    Ok(copies)
}

/// Returns whether each lent object is a glob.
#[tactic(auto, using(crate::proofs::lemmas::LentGlobs::no_globs_yet, crate::proofs::lemmas::LentGlobs::other_than_a_glob, crate::proofs::lemmas::LentGlobs::all_are_globs))]
pub fn are_globs(globs: &mut [Lent]) -> bool
    ensures same { globs.new ≡ globs.old }
    ensures answer { IsTrue result ↔ AreGlobs globs.old }
{
    for i in 0..globs.len() {
        if !lends_glob(&mut globs[i]) {
            return false;
        }
    }
    true
}

/// Returns whether the lent object is a glob.
pub fn lends_glob(lent: &mut Lent) -> bool
    ensures same { lent.new ≡ lent.old }
    ensures answer { IsTrue result ↔ IsGlob (Some lent.old.object) }
{
    // The borrow checker has to be told the type that is lent, which nothing else here names.
    let _object: Option<&Object> = None;
    lent.read((), |object, ()| matches!(object, Object::Glob(_)))
}
