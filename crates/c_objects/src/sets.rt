//! Sets: of globs that are lent, and their answers about a path.

ghost use Rattle.std.specs.Prelude.{◌≡◌, ◌≢◌, ◌<◌, ◌++◌, [], ◌∷◌, IfOk, length};
ghost use Rattle.globset.specs.SetValue.{set_globs};
ghost use Rattle.c_objects.specs.LentGlobs.{AreGlobs, glob_in, lent_globs};
ghost use Rattle.c_objects.specs.Statuses.{IsOneOf};
ghost use Rattle.globset.specs.Answer.{matching_indexes};
ghost use Rattle.c_objects.specs.Answers.{IsAll};

use crate::lent::Lent;
use crate::object::Object;
use crate::status::{NO, OUT_OF_MEMORY, Status, YES};
use globset::{Candidate, DEFAULT_DFA_SIZE_LIMIT, GlobSet};
use globset_glob::{flat_tokens_of, options_of, text_of};
use set_matcher::SetMatcherBuilder;
use std::alloc::{AllocError, Global};

/// Returns the set of globs that are lent.
#[tactic(auto, using(crate::proofs::lemmas::LentGlobs::few_globs, crate::proofs::lemmas::LentGlobs::as_many_globs, crate::proofs::lemmas::LentGlobs::all_globs))]
pub fn set_of(alloc: Global, globs: &mut [Lent]) -> Result<GlobSet, AllocError>
    requires { AreGlobs globs.old }
    ensures same { globs.new ≡ globs.old }
    ensures made { IfOk result (λ s. set_globs s ≡ lent_globs globs.old) }
{
    // In a box, since it moves into and out of each call that reads a glob.
    let mut builder = Box::new(alloc, SetMatcherBuilder::new(alloc, globs.len()))?;
    for i in 0..globs.len() {
        builder = globs[i].read(builder, |object, builder| add(object, builder))?;
    }
    let matcher = Box::into_inner(builder).finish(DEFAULT_DFA_SIZE_LIMIT)?;
    Ok(GlobSet::of_matcher(matcher))
}

/// Adds the glob after the others, if the object is a glob.
fn add(
    object: &Object,
    builder: Box<SetMatcherBuilder>,
) -> Result<Box<SetMatcherBuilder>, AllocError>
    requires { length builder.value.given < builder.value.count }
    ensures globs { IfOk result (λ b. b.value.given ≡ builder.value.given ++ glob_in object.now) }
    ensures count { IfOk result (λ b. b.value.count ≡ builder.value.count) }
{
    let mut builder = builder;
    if let Object::Glob(glob) = object {
        let glob = glob.glob();
        builder.add(text_of(glob), options_of(glob), flat_tokens_of(glob))?;
    }
    Ok(builder)
}

/// Returns whether some glob of the set matches the path, or that memory ran out.
#[tactic(auto, using(crate::proofs::lemmas::Nil::nil_where_none))]
pub fn is_match_in(set: &GlobSet, path: &[u8]) -> Status
    ensures yes { result ≡ YES → matching_indexes (set_globs set.now) path.now ≢ [] }
    ensures no { result ≡ NO → matching_indexes (set_globs set.now) path.now ≡ [] }
    ensures statuses { IsOneOf (NO ∷ YES ∷ OUT_OF_MEMORY ∷ []) result }
{
    let Ok(is_match) = set.is_match_candidate(&Candidate::from_bytes(path)) else {
        return OUT_OF_MEMORY;
    };
    if is_match { YES } else { NO }
}

/// Returns whether every glob of the set matches the path, or that memory ran out.
pub fn matches_all_in(set: &GlobSet, path: &[u8]) -> Status
    ensures yes { result ≡ YES → IsAll set.now path.now }
    ensures no { result ≡ NO → ¬ (IsAll set.now path.now) }
    ensures statuses { IsOneOf (NO ∷ YES ∷ OUT_OF_MEMORY ∷ []) result }
{
    let Ok(matches_all) = set.matches_all_candidate(&Candidate::from_bytes(path)) else {
        return OUT_OF_MEMORY;
    };
    if matches_all { YES } else { NO }
}
