//! How a set decides whether a glob matches.

ghost use Rattle.std.specs.Prelude.{◌≡◌, IfOk};
ghost use Rattle.glob_syntax.specs.FlatTokens.{IsNested};
ghost use Rattle.glob_syntax.specs.Views.{flats, tokens_of};
ghost use Rattle.glob_strategy.specs.Strategies.{after_prefix, automaton_strategy, before_ending, sensitive_strategy};
ghost use Rattle.glob_strategy.specs.StrategyMeaning.{IsStrategyOf, strategy_seen};
ghost use Rattle.bit_sets.specs.Texts.{AllBytes};
ghost use Rattle.glob_strategy.specs.Below.{HasBytes};

mod conditions;
mod key;

use conditions::{
    is_any_extension, is_beginning, is_below_folder, is_by_last_component, is_end, is_excluded,
    is_last_component, is_last_components, is_recursive_prefix, is_whole_path,
};
use glob_path::Key;
use glob_syntax::{Options, Token};
use key::{ending, literal_text, literal_text_and_slash};
use std::alloc::{AllocError, Global};

/// How a set decides whether a glob matches a path.
#[derive(Drop)]
pub enum MatchStrategy {
    /// The glob is excluded: a set leaves it out.
    Excluded,
    /// The glob matches the paths that the key matches. The key's bytes are literals of the glob.
    Key(Key),
    /// The glob matches only paths whose last component has this extension and whose bytes before the extension match
    /// [`tokens_before_ending`]. An automaton for these tokens matches the bytes.
    RequiredExtension(Vec<u8>),
    /// The glob matches the paths whose last component matches [`tokens_after_prefix`]. An automaton for these tokens matches the
    /// component.
    BasenameRegex,
    /// An automaton for the glob matches the path.
    Regex,
}

/// Returns the strategy of a glob with these tokens: the first that fits. It allocates a key or an extension, and time linear in
/// the tokens.
pub fn strategy_of(
    alloc: Global,
    options: Options,
    tokens: &[Token],
) -> Result<MatchStrategy, AllocError>
    requires { IsNested (flats tokens.now) }
    ensures { IfOk result (λ strategy. IsStrategyOf options (tokens_of tokens.now) strategy) }
{
    if is_excluded(options, tokens) {
        return Ok(MatchStrategy::Excluded);
    }
    if options.case_insensitive {
        return Ok(automaton_strategy(options, tokens));
    }
    let strategy = sensitive_strategy(alloc, options, tokens)?;
    has_bytes(&strategy);
    Ok(strategy)
}

/// Returns the tokens that the last component of a path has to match for a glob with the strategy
/// [`MatchStrategy::BasenameRegex`]: all tokens after `RecursivePrefix`. If they do not begin with it, these are all tokens.
pub fn tokens_after_prefix(tokens: &[Token]) -> &[Token]
    requires { IsNested (flats tokens.now) }
    ensures tokens { tokens_of result.now ≡ after_prefix (tokens_of tokens.now) }
    ensures nested { IsNested (flats result.now) }
{
    let Some((first, rest)) = tokens.split_first() else {
        return tokens;
    };
    if is_recursive_prefix(first) {
        return rest;
    }
    tokens
}

/// Returns the tokens that the bytes before the extension have to match for a glob with the strategy
/// [`MatchStrategy::RequiredExtension`]: all tokens before the extension's. If the last tokens are no extension, these are all
/// tokens.
pub fn tokens_before_ending(tokens: &[Token]) -> &[Token]
    requires { IsNested (flats tokens.now) }
    ensures tokens { tokens_of result.now ≡ before_ending (tokens_of tokens.now) }
    ensures nested { IsNested (flats result.now) }
{
    match ending(tokens) {
        Some(last) => {
            let end = tokens.len() - last.len();
            &tokens[..end]
        }
        None => tokens,
    }
}

/// Returns by what a set decides a glob with the tokens of a case-sensitive glob that is not excluded.
///
/// Returns an error if memory runs out, and no other.
fn sensitive_strategy(
    alloc: Global,
    options: Options,
    tokens: &[Token],
) -> Result<MatchStrategy, AllocError>
    requires { IsNested (flats tokens.now) }
    ensures { IfOk result
        (λ strategy. strategy_seen strategy ≡ sensitive_strategy options (tokens_of tokens.now)) }
{
    if is_whole_path(tokens) {
        return Ok(MatchStrategy::Key(Key::Literal(literal_text(alloc, tokens)?)));
    }
    if is_last_component(tokens) {
        return Ok(MatchStrategy::Key(Key::BasenameLiteral(literal_text(alloc, tokens)?)));
    }
    if is_last_components(tokens) {
        return Ok(MatchStrategy::Key(Key::ComponentSuffix(literal_text(alloc, tokens)?)));
    }
    if is_any_extension(options, tokens) {
        return Ok(MatchStrategy::Key(Key::Extension(literal_text(alloc, tokens)?)));
    }
    if is_end(options, tokens) {
        return Ok(MatchStrategy::Key(Key::Suffix(literal_text(alloc, tokens)?)));
    }
    if is_beginning(options, tokens) {
        return Ok(MatchStrategy::Key(Key::Prefix(literal_text(alloc, tokens)?)));
    }
    if is_below_folder(tokens) {
        return Ok(MatchStrategy::Key(Key::Prefix(literal_text_and_slash(alloc, tokens)?)));
    }
    if let Some(last) = ending(tokens) {
        return Ok(MatchStrategy::RequiredExtension(literal_text(alloc, last)?));
    }
    Ok(automaton_strategy(options, tokens))
}

/// Returns the strategy for tokens that no key decides.
fn automaton_strategy(options: Options, tokens: &[Token]) -> MatchStrategy
    requires { IsNested (flats tokens.now) }
    ensures { strategy_seen result ≡ automaton_strategy options (tokens_of tokens.now) }
{
    if is_by_last_component(options, tokens) {
        MatchStrategy::BasenameRegex
    } else {
        MatchStrategy::Regex
    }
}

/// The key or the extension of a strategy, if any, is bytes.
fn has_bytes(strategy: &MatchStrategy)
    ensures { HasBytes (strategy_seen strategy.now) }
{
    match strategy {
        MatchStrategy::Key(key) => are_bytes(key.bytes()),
        MatchStrategy::RequiredExtension(extension) => are_bytes(extension),
        MatchStrategy::Excluded | MatchStrategy::BasenameRegex | MatchStrategy::Regex => {}
    }
}

/// The items of a slice of bytes are bytes.
fn are_bytes(bytes: &[u8])
    ensures { AllBytes bytes.now }
{}
