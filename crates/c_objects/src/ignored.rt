//! Whether paths are ignored, and by which rules.

ghost use Rattle.std.specs.Prelude.{◌≡◌, ◌≢◌, Some, [], ◌∷◌, false, true, ◌⊎◌, Option, IfOk, length, map};
ghost use Rattle.c_objects.specs.Ignoring.{IsDecideBy, decide_by, file_told, ignores, line_told, path_rule, path_rules};
ghost use Rattle.c_objects.specs.Kinds.{IfIgnore, IsIgnore};
ghost use Rattle.c_objects.specs.Statuses.{IsOneOf};
ghost use Rattle.c_objects.specs.Paths.{AreEnds};

use crate::object::Object;
use crate::slices::are_ends;
use crate::status::{BAD_ENDS, DONE, NO, OUT_OF_MEMORY, Status, UNKNOWN_OPTION, WRONG_KIND, YES};
use git_ignore::{DecideBy, DecidingRule, IgnoreStack};
use std::alloc::{AllocError, Global};

/// Writes the file and the line of a rule, and returns whether the rule ignores the path.
pub fn tell(rule: Option<DecidingRule>, file: &mut usize, line: &mut usize) -> Status
    ensures yes { result ≡ YES → ignores rule ≡ true }
    ensures no { result ≡ NO → ignores rule ≡ false }
    ensures file { file.new ≡ file_told rule }
    ensures line { line.new ≡ line_told rule }
    ensures statuses { IsOneOf (NO ∷ YES ∷ []) result }
{
    match rule {
        Some(rule) => {
            *file = rule.file;
            *line = rule.line;
            if rule.is_negated { NO } else { YES }
        }
        None => {
            *file = 0;
            *line = 0;
            NO
        }
    }
}

/// Returns the variant of [`DecideBy`] that the number stands for.
pub fn decide_by(number: u32) -> DecideBy
    ensures { result ≡ decide_by number }
{
    match number {
        0 => DecideBy::Git,
        1 => DecideBy::Nearest,
        _ => DecideBy::PathAlone,
    }
}

/// A rule that decides about a path, as C sees it: the index of its file and the number of its line, both 0 if no rule decides, and
/// the decision, as `globset_raw_ignore_decide_many` writes it.
#[repr(C)]
#[derive(Clone, Copy)]
pub struct ToldRule {
    pub file: usize,
    pub line: usize,
    pub decision: u32,
}

/// What is told about a path by the rule that decides about it.
pub trait Told: Copy {
    ghost use Rattle.git_ignore.specs.declared.decision.DecidingRule.{DecidingRule as RuleValue};

    ghost told: { Option RuleValue → Self };

    /// Returns what is told of this rule, or where no rule decides.
    fn told(rule: Option<DecidingRule>) -> Self
        ensures { result ≡ told rule };
}

/// The decision alone.
impl Told for u8 {
    ghost use Rattle.c_objects.specs.Ignoring.{decision_byte};

    ghost told = { decision_byte };

    fn told(rule: Option<DecidingRule>) -> u8 {
        match rule {
            Some(rule) if rule.is_negated => 2,
            Some(_) => 1,
            None => 0,
        }
    }
}

impl Told for ToldRule {
    ghost use Rattle.c_objects.specs.Ignoring.{told_rule};

    ghost told = { told_rule };

    fn told(rule: Option<DecidingRule>) -> ToldRule {
        let (file, line) = match rule {
            Some(rule) => (rule.file, rule.line),
            None => (0, 0),
        };
        ToldRule {
            file,
            line,
            decision: u8::told(rule) as u32,
        }
    }
}

/// Writes what is told about each path.
pub fn tell_many<T: Told>(
    alloc: Global,
    object: &mut Object,
    paths: &[u8],
    ends: &[usize],
    by: u32,
    answers: &mut [T],
) -> Status
    // Only `answers` changes, and only with DONE.
    ensures same { object.new ≡ object.old }
    ensures told { result ≡ DONE → IfIgnore (Some object.old) (λ s.
        answers.new ≡ map T.told (path_rules s by paths.now 0 ends.now)) }
    ensures refused { result ≢ DONE → answers.new ≡ answers.old }

    // The number is looked at first, then the ends, and then the object.
    ensures unknown { result ≡ UNKNOWN_OPTION → ¬ (IsDecideBy by) }
    ensures known { result ≢ UNKNOWN_OPTION → IsDecideBy by }
    ensures in_order { IsDecideBy by → result ≢ BAD_ENDS → AreEnds (length paths.now) 0 ends.now }
    ensures one_for_each { IsDecideBy by → result ≢ BAD_ENDS
        → length ends.now ≡ length answers.old }
    ensures bad_ends { result ≡ BAD_ENDS →
        (length ends.now ≢ length answers.old) ⊎ (¬ (AreEnds (length paths.now) 0 ends.now)) }

    // Only these statuses come, and the kind decides whether WRONG_KIND does.
    ensures right_kind { IsIgnore (Some object.old) → result ≢ WRONG_KIND }
    ensures other_kind { IsDecideBy by → ¬ (IsIgnore (Some object.old)) → result ≢ BAD_ENDS
        → result ≡ WRONG_KIND }
    ensures statuses { IsOneOf
        (DONE ∷ OUT_OF_MEMORY ∷ UNKNOWN_OPTION ∷ WRONG_KIND ∷ BAD_ENDS ∷ []) result }
{
    if by > 2 {
        return UNKNOWN_OPTION;
    }
    if ends.len() != answers.len() || !are_ends(paths.len(), ends) {
        return BAD_ENDS;
    }
    let Object::Ignore(stack) = object else {
        return WRONG_KIND;
    };
    match tell_each(alloc, stack, paths, ends, by) {
        Ok(found) => {
            answers.copy_from_slice(&found);
            DONE
        }
        Err(_) => OUT_OF_MEMORY,
    }
}

/// Returns what is told about each path.
#[tactic(auto, using(crate::proofs::lemmas::Ends::next_told, crate::proofs::lemmas::Ends::ends_part))]
fn tell_each<T: Told>(
    alloc: Global,
    stack: &mut IgnoreStack,
    paths: &[u8],
    ends: &[usize],
    by: u32,
) -> Result<Vec<T>, AllocError>
    requires { AreEnds (length paths.now) 0 ends.now }
    ensures told { IfOk result
        (λ v. v.items ≡ map T.told (path_rules stack.old by paths.now 0 ends.now)) }
    ensures len { IfOk result (λ v. length v.items ≡ length ends.now) }
    ensures same { stack.new ≡ stack.old }
{
    let mut told = Vec::new(alloc);
    let mut start = 0;
    let mut rest = ends;
    'each: while let Some((end, tail)) = rest.split_first() {
        told.push(T::told(rule_of(stack, &paths[start..*end], by)?))?;
        start = *end;
        rest = tail;
    }
    Ok(told)
}

/// Returns the rule that decides about a path, of a folder if it ends with `/`.
fn rule_of(
    stack: &mut IgnoreStack,
    path: &[u8],
    by: u32,
) -> Result<Option<DecidingRule>, AllocError>
    ensures rule { IfOk result (λ rule. rule ≡ path_rule stack.old by path.now) }
    ensures same { stack.new ≡ stack.old }
{
    match path.strip_suffix(b"/") {
        Some(folder) => stack.deciding_rule(folder, true, decide_by(by)),
        None => stack.deciding_rule(path, false, decide_by(by)),
    }
}
