//! Answers to questions about globs and rules of ignore files.

ghost use Rattle.std.specs.Prelude.{◌≡◌, ◌≤◌, Some, [], ◌∷◌, MatchOption, length, map, slice_get};
ghost use Rattle.c_objects.specs.Relations.{lines_told, told, told_by, told_coverage, told_intersection, told_reachability, told_rule_reachability};

use glob_relations::{Coverage, Intersection, Reachability, RuleReachability};
use std::slice;

/// The answers to a question about each rule of an ignore file.
#[derive(Drop)]
pub struct RuleAnswers {
    pub told: Vec<RuleReachability>,
    /// The number of the line of each rule.
    pub lines: Vec<usize>,
}

/// The answer to a question, or the answers to a question about each glob of a list or each rule of a file.
#[derive(Drop)]
pub enum Answers {
    Coverage(Coverage),
    Intersection(Intersection),
    Reachabilities(Vec<Reachability>),
    Rules(RuleAnswers),
}

/// An answer that is read.
#[derive(Clone, Copy)]
pub enum Answer<'a> {
    /// There is such a path.
    Path(&'a [u8]),
    /// There is no such path, and the answer names the globs or rules at these indexes.
    NoPath(&'a [usize]),
    /// Such paths lie below ignored folders, and the answer names the rule at this index.
    BelowIgnored(&'a [usize]),
    /// The search has more rows than its limit.
    Unknown,
}

/// Returns the number of the line of each rule. Other answers have none.
pub fn lines_of(answers: &Answers) -> &[usize]
    ensures { result.now ≡ lines_told answers.now }
{
    match answers {
        Answers::Rules(rules) => &rules.lines,
        _ => &[],
    }
}

/// Returns the answer of an index, or `None` if there is none.
pub fn answer_at(answers: &Answers, index: usize) -> Option<Answer>
    ensures { MatchOption result (length (told answers.now) ≤ index)
        (λ answer. slice_get (told answers.now) index ≡ Some (told_by answer)) }
{
    match answers {
        Answers::Coverage(coverage) => only(index, read_coverage(coverage)),
        Answers::Intersection(intersection) => only(index, read_intersection(intersection)),
        Answers::Reachabilities(all) => reachability_at(all, index),
        Answers::Rules(rules) => rule_at(&rules.told, index),
    }
}

/// Returns the answer if the index is that of the first.
fn only(index: usize, answer: Answer) -> Option<Answer>
    ensures { MatchOption result (1 ≤ index)
        (λ given. slice_get (told_by answer.entry ∷ []) index ≡ Some (told_by given)) }
{
    if index == 0 { Some(answer) } else { None }
}

#[tactic(auto, using(crate::proofs::lemmas::Told::told_at, crate::proofs::lemmas::Told::none_told_past))]
fn reachability_at(all: &[Reachability], index: usize) -> Option<Answer>
    ensures { MatchOption result (length (map told_reachability all.now) ≤ index)
        (λ answer. slice_get (map told_reachability all.now) index ≡ Some (told_by answer)) }
{
    Some(read_reachability(all.get(index)?))
}

#[tactic(auto, using(crate::proofs::lemmas::Told::rule_told_at, crate::proofs::lemmas::Told::no_rule_told_past))]
fn rule_at(all: &[RuleReachability], index: usize) -> Option<Answer>
    ensures { MatchOption result (length (map told_rule_reachability all.now) ≤ index)
        (λ answer. slice_get (map told_rule_reachability all.now) index ≡ Some (told_by answer)) }
{
    Some(read_rule(all.get(index)?))
}

fn read_coverage(coverage: &Coverage) -> Answer
    ensures { told_by result ≡ told_coverage coverage.now }
{
    match coverage {
        Coverage::Covered => Answer::NoPath(&[]),
        Coverage::Not(path) => Answer::Path(path),
        Coverage::Unknown => Answer::Unknown,
    }
}

fn read_intersection(intersection: &Intersection) -> Answer
    ensures { told_by result ≡ told_intersection intersection.now }
{
    match intersection {
        Intersection::Disjoint => Answer::NoPath(&[]),
        Intersection::Both(path) => Answer::Path(path),
        Intersection::Unknown => Answer::Unknown,
    }
}

fn read_reachability(reachability: &Reachability) -> Answer
    ensures { told_by result ≡ told_reachability reachability.now }
{
    match reachability {
        Reachability::Decides(path) => Answer::Path(path),
        Reachability::Never(indexes) => Answer::NoPath(indexes),
        Reachability::Unknown => Answer::Unknown,
    }
}

fn read_rule(reachability: &RuleReachability) -> Answer
    ensures { told_by result ≡ told_rule_reachability reachability.now }
{
    match reachability {
        RuleReachability::Decides(path) => Answer::Path(path),
        RuleReachability::Never(indexes) => Answer::NoPath(indexes),
        RuleReachability::Hidden(index) => Answer::BelowIgnored(slice::from_ref(index)),
        RuleReachability::Unknown => Answer::Unknown,
    }
}
