//! Rules of an ignore file that never decide.

ghost use Rattle.std.specs.Prelude.{◌≡◌, ℕ, ◌<◌, ◌||◌, not, length, Contains, slice_get, Some, IfOk, ◌↔◌};
ghost use Rattle.ignore_pattern.specs.Patterns.{Pattern, pattern_matches};
ghost use Rattle.glob_relations.specs.Rules.{IsRival, TellsRule};
ghost use Rattle.glob_relations.specs.Unused.{items_at};
ghost use Rattle.glob_relations.specs.inner.Automata.{FindsEach, IsFor, indexed_rules};
ghost use Rattle.glob_relations.specs.inner.Closed.{ignores_of};

use crate::compared::{add_numbered, automaton_of_list, builder_at};
use crate::domain::Domain;
use crate::ignoring::{hiding_rule, ignores_of};
use crate::search::{Question, SearchAnswer, ask};
use crate::unused::{Reachability, reachability_among};
use byte_nfa::Nfa;
use ignore_pattern::IgnorePattern;
use std::alloc::{AllocError, Global};

/// Whether a rule of an ignore file ever decides by git's rule.
#[derive(Drop)]
pub enum RuleReachability {
    /// A shortest path about which the rule decides: it applies to it, no later rule does, and no folder above the path is
    /// ignored.
    Decides(Vec<u8>),
    /// It never decides: later rules of these indexes cover it. None can be left out. It is one index if one of them covers the
    /// rule alone, and none if the rule matches no path of the domain.
    Never(Vec<usize>),
    /// It never decides, but it would if no folder were ignored. The rule of this index ignores a folder above a shortest path about
    /// which it would.
    Hidden(usize),
    /// There are more rows than the limit.
    Unknown,
}

/// Returns for each rule of an ignore file, given by its pattern in the order of the lines, whether it ever decides about a path
/// of a domain, and otherwise which later rules cover it, or which rule hides it.
///
/// The last rule that applies decides. A rule for folders alone applies to no other path, so it covers only rules for folders
/// alone. A folder is ignored if the rule that decides about it is not negated, and then no other rule decides about a path below
/// it, whether that is negated or not. Patterns match as `core.ignoreCase` of git says.
///
/// For each rule it searches for a shortest path that the rule matches. If a rival, a later rule that applies to folders and to
/// others wherever it does, matches that path, it searches again, as [`covering_pattern`] does, with this rival, and so on, as
/// [`unreachable`] does for globs. If the path that shows that the rule decides lies below an ignored folder, it searches once
/// more, among all rules, for a path that does not. Each search has the limit. Fails only if memory runs out.
///
/// [`covering_pattern`]: crate::covering_pattern
/// [`unreachable`]: crate::unreachable
pub fn unreachable_rules(
    alloc: Global,
    patterns: &[IgnorePattern],
    ignore_case: bool,
    domain: Domain,
    limit: usize,
) -> Result<Vec<RuleReachability>, AllocError>
    ensures len { IfOk result (λ all. length all.items ≡ length patterns.now) }
    ensures each { IfOk result
        (λ all. (i : ℕ) (p : Pattern) (told : RuleReachability)
        → slice_get patterns.now i ≡ Some p → slice_get all.items i ≡ Some told
        → TellsRule ignore_case patterns.now i p domain limit told) }
{
    let automaton = automaton_of_list(alloc, ignore_case, patterns)?;
    let question = Question {
        required: 1,
        ignores: ignores_of(alloc, patterns)?,
        domain,
    };
    let mut all = Vec::new(alloc);
    for (i, pattern) in patterns.iter().enumerate() {
        let told = rule_reachability(
            alloc,
            pattern,
            patterns,
            &automaton,
            &question,
            i,
            ignore_case,
            limit,
        )?;
        all.push(told)?;
    }
    Ok(all)
}

/// Returns whether a rule, given by its pattern and its index, ever decides. The automaton finds which rules match a path.
///
/// Only if the path about which the rule decides alone lies below an ignored folder, there is a search for a path that does not.
fn rule_reachability(
    alloc: Global,
    pattern: &IgnorePattern,
    patterns: &[IgnorePattern],
    automaton: &Nfa,
    question: &Question,
    i: usize,
    ignore_case: bool,
    limit: usize,
) -> Result<RuleReachability, AllocError>
    requires within { i < length patterns.now }
    requires finds { FindsEach (pattern_matches ignore_case) patterns.now automaton.now }
    requires required { question.now.required ≡ 1 }
    requires ignores { question.now.ignores.items ≡ ignores_of patterns.now }
    ensures { IfOk result
        (TellsRule ignore_case patterns.now i pattern.now question.now.domain limit) }
{
    let others = rivals(alloc, pattern, patterns, i)?;
    let path = match reachability_among(
        alloc,
        ignore_case,
        pattern,
        patterns,
        automaton,
        &others,
        question.domain,
        limit,
    )? {
        Reachability::Decides(path) => path,
        Reachability::Never(set) => return Ok(RuleReachability::Never(set)),
        Reachability::Unknown => return Ok(RuleReachability::Unknown),
    };
    let Some(k) = hiding_rule(alloc, automaton, &question.ignores, &path)? else {
        return Ok(RuleReachability::Decides(path));
    };
    let all = automaton_of_rule(alloc, pattern, patterns, &others, ignore_case)?;
    match ask(alloc, &all, question, limit)? {
        SearchAnswer::Found(shown) => Ok(RuleReachability::Decides(shown)),
        SearchAnswer::Nothing => Ok(RuleReachability::Hidden(k)),
        SearchAnswer::Limit => Ok(RuleReachability::Unknown),
    }
}

/// Returns an automaton for a rule, with the index 0, for rules at some indexes, with the index 1, and for all rules, each with
/// the next index.
fn automaton_of_rule(
    alloc: Global,
    pattern: &IgnorePattern,
    patterns: &[IgnorePattern],
    others: &[usize],
    ignore_case: bool,
) -> Result<Nfa, AllocError>
    requires { (k : ℕ) → Contains others.now k → k < length patterns.now }
    ensures { IfOk result
        (IsFor (pattern_matches ignore_case)
        (indexed_rules pattern.now (items_at patterns.now others.now) patterns.now)) }
{
    let count = patterns.len() + 2;
    let mut builder = builder_at(alloc, ignore_case, count, pattern, patterns, others)?;
    add_numbered(alloc, ignore_case, &mut builder, patterns, 2)?;
    Ok(builder.finish())
}

/// Returns the indexes of the later rules that apply to each kind of path, of folders or of others, that a rule applies to.
fn rivals(
    alloc: Global,
    pattern: &IgnorePattern,
    patterns: &[IgnorePattern],
    i: usize,
) -> Result<Vec<usize>, AllocError>
    requires { i < length patterns.now }
    ensures { IfOk result
        (λ others. (k : ℕ) → Contains others.items k ↔ IsRival patterns.now i pattern.now k) }
{
    let mut others = Vec::new(alloc);
    for k in i + 1..patterns.len() {
        if applies_wherever(&patterns[k], pattern) {
            others.push(k)?;
        }
    }
    Ok(others)
}

/// Returns whether a rule is for folders and for others wherever another rule is.
fn applies_wherever(rule: &IgnorePattern, other: &IgnorePattern) -> bool
    ensures { result ≡ (other.now.folders_only || not rule.now.folders_only) }
{
    other.is_folders_only() || !rule.is_folders_only()
}
