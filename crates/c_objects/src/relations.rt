//! Questions about globs and rules of ignore files.

ghost use Rattle.std.specs.Prelude.{◌≡◌, ◌↔◌, Some, Err, IfOk, IfErr, IsTrue, length};
ghost use Rattle.c_objects.specs.Kinds.{IsGlob};
ghost use Rattle.c_objects.specs.LentGlobs.{AreGlobs, lent_globs};
ghost use Rattle.c_objects.specs.Relations.{AnswersCovering, AnswersOverlap, AnswersUnreachable, decides_of, domain_of, IfReachabilities, IsDecides, IsDomain, TellRules};
ghost use Rattle.c_objects.specs.declared.object.Failure.TheVariants.{WrongKind};

use crate::answers::{Answers, RuleAnswers};
use crate::globs::{are_globs, copies_of, copy_of, lends_glob};
use crate::lent::Lent;
use crate::object::{Failure, Object};
use git_ignore::{RulePatterns, rule_patterns};
use glob_relations::{Decides, Domain, covering, overlap, unreachable, unreachable_rules};
use std::alloc::{AllocError, Global};

/// Decides whether globs cover a glob.
pub fn answer_covering(
    alloc: Global,
    glob: &mut Lent,
    by: &mut [Lent],
    domain: Domain,
    limit: usize,
) -> Result<Object, Failure>
    // The answer is about the globs, which stay as they were.
    ensures same_glob { glob.new ≡ glob.old }
    ensures same_globs { by.new ≡ by.old }
    ensures told { IfOk result
        (λ made. AnswersCovering glob.old.object (lent_globs by.old) domain limit (Some made)) }

    // The kinds decide whether WrongKind comes.
    ensures wrong_kind { IfErr result
        (λ why. why ≡ WrongKind → IsGlob (Some glob.old.object) → ¬ (AreGlobs by.old)) }
    ensures other_kind { ¬ (IsGlob (Some glob.old.object)) → result ≡ Err WrongKind }
    ensures other_kinds { ¬ (AreGlobs by.old) → result ≡ Err WrongKind }
{
    if !are_globs(by) {
        return Err(Failure::WrongKind);
    }
    let glob = glob.read((), |object, ()| copy_of(object))?;
    let Ok(by) = copies_of(alloc, by) else {
        return Err(Failure::OutOfMemory);
    };
    match covering(alloc, &glob, &by, domain, limit) {
        Ok(coverage) => Ok(Object::Answers(Answers::Coverage(coverage))),
        Err(_) => Err(Failure::OutOfMemory),
    }
}

/// Decides whether two globs match some path in common.
#[tactic(auto, using(crate::proofs::lemmas::Answered::answers_overlap))]
pub fn answer_overlap(
    alloc: Global,
    a: &mut Lent,
    b: &mut Lent,
    domain: Domain,
    limit: usize,
) -> Result<Object, Failure>
    // The answer is about the globs, which stay as they were.
    ensures same_a { a.new ≡ a.old }
    ensures same_b { b.new ≡ b.old }
    ensures told { IfOk result
        (λ made. AnswersOverlap a.old.object b.old.object domain limit (Some made)) }

    // The kinds decide whether WrongKind comes.
    ensures wrong_kind { IfErr result (λ why. why ≡ WrongKind → IsGlob (Some a.old.object)
        → ¬ (IsGlob (Some b.old.object))) }
    ensures a_of_other_kind { ¬ (IsGlob (Some a.old.object)) → result ≡ Err WrongKind }
    ensures b_of_other_kind { ¬ (IsGlob (Some b.old.object)) → result ≡ Err WrongKind }
{
    // Before a glob is copied, so that memory does not run out for an object that is no glob.
    if !lends_glob(b) {
        return Err(Failure::WrongKind);
    }
    let a = a.read((), |object, ()| copy_of(object))?;
    let b = b.read((), |object, ()| copy_of(object))?;
    match overlap(alloc, &a, &b, domain, limit) {
        Ok(intersection) => Ok(Object::Answers(Answers::Intersection(intersection))),
        Err(_) => Err(Failure::OutOfMemory),
    }
}

/// Decides for each glob of a list whether it ever decides.
#[tactic(auto, using(crate::proofs::lemmas::LentGlobs::as_many_globs))]
pub fn answer_unreachable(
    alloc: Global,
    globs: &mut [Lent],
    decides: Decides,
    domain: Domain,
    limit: usize,
) -> Result<Object, Failure>
    ensures same_globs { globs.new ≡ globs.old }
    ensures len { IfOk result
        (λ made. IfReachabilities (Some made) (λ told. length told ≡ length globs.old)) }
    ensures each { IfOk result
        (λ made. AnswersUnreachable (lent_globs globs.old) decides domain limit (Some made)) }
    ensures wrong_kind { IfErr result (λ why. why ≡ WrongKind → ¬ (AreGlobs globs.old)) }
    ensures other_kind { ¬ (AreGlobs globs.old) → result ≡ Err WrongKind }
{
    if !are_globs(globs) {
        return Err(Failure::WrongKind);
    }
    let Ok(globs) = copies_of(alloc, globs) else {
        return Err(Failure::OutOfMemory);
    };
    match unreachable(alloc, &globs, decides, domain, limit) {
        Ok(all) => Ok(Object::Answers(Answers::Reachabilities(all))),
        Err(_) => Err(Failure::OutOfMemory),
    }
}

/// Returns an answer for each rule of an ignore file, given by its bytes.
pub fn answers_about(
    alloc: Global,
    file: &[u8],
    ignore_case: bool,
    domain: Domain,
    limit: usize,
) -> Result<RuleAnswers, AllocError>
    ensures { IfOk result (TellRules ignore_case file.now domain limit) }
{
    let RulePatterns { patterns, lines } = rule_patterns(alloc, file)?;
    let told = unreachable_rules(alloc, &patterns, ignore_case, domain, limit)?;
    Ok(RuleAnswers { told, lines })
}

/// Returns whether the number stands for a domain.
pub fn is_domain(number: u32) -> bool
    ensures { IsTrue result ↔ IsDomain number }
{
    number < 2
}

/// Returns the domain that the number stands for.
pub fn domain_of(number: u32) -> Domain
    ensures { result ≡ domain_of number }
{
    if number == 0 {
        Domain::AllPaths
    } else {
        Domain::RelativePaths
    }
}

/// Returns whether the number stands for the first or the last match.
pub fn is_decides(number: u32) -> bool
    ensures { IsTrue result ↔ IsDecides number }
{
    number < 2
}

/// Returns which of the globs that match a path decides.
pub fn decides_of(number: u32) -> Decides
    ensures { result ≡ decides_of number }
{
    if number == 0 {
        Decides::First
    } else {
        Decides::Last
    }
}
