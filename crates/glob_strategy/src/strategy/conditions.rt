//! The conditions of the strategies on a glob's tokens.

ghost use Rattle.std.specs.Prelude.{◌≡◌};
ghost use Rattle.glob_syntax.specs.Views.{flat_of, flats, tokens_of};
ghost use Rattle.glob_strategy.specs.TokenTests.{is_literal_except, is_star, is_suffix};
ghost use Rattle.glob_strategy.specs.Strategies.{matches_no_slash};
ghost use Rattle.glob_strategy.specs.inner.FlatTests.{all_simple_pass, is_beginning, is_end, is_any_extension, is_below_folder, is_by_last_component, is_extension, is_last_component, is_last_components, is_simple_that, is_star_extension, is_star_literals, is_whole_path, literals_and_last};
ghost use Rattle.glob_syntax.specs.TokensMatch.{is_prefix};
ghost use Rattle.glob_syntax.specs.FlatTokens.{IsNested};
ghost use Rattle.glob_strategy.specs.Excluded.{are_excluded, is_dot};

use glob_syntax::{Options, Token};

/// Returns whether the tokens are literals, at least one.
pub fn is_whole_path(tokens: &[Token]) -> bool
    ensures { result ≡ is_whole_path (flats tokens.now) }
{
    if tokens.is_empty() {
        return false;
    }
    are_literals_except(tokens, [].as_slice())
}

/// Returns whether the tokens are `RecursivePrefix` and at least one literal, none of them `/`.
pub fn is_last_component(tokens: &[Token]) -> bool
    ensures { result ≡ is_last_component (flats tokens.now) }
{
    match tokens {
        [Token::RecursivePrefix] => false,
        [Token::RecursivePrefix, rest @ ..] => are_literals_except(rest, ['/'].as_slice()),
        _ => false,
    }
}

/// Returns whether the tokens are `RecursivePrefix` and at least one literal.
pub fn is_last_components(tokens: &[Token]) -> bool
    ensures { result ≡ is_last_components (flats tokens.now) }
{
    match tokens {
        [Token::RecursivePrefix, rest @ ..] => is_whole_path(rest),
        _ => false,
    }
}

/// Returns whether the tokens are `RecursivePrefix`, `*` and an extension; or the same without `RecursivePrefix`, if `*`
/// matches `/`.
pub fn is_any_extension(options: Options, tokens: &[Token]) -> bool
    ensures { result ≡ is_any_extension options (flats tokens.now) }
{
    match tokens {
        [Token::RecursivePrefix, rest @ ..] => is_star_extension(rest),
        _ => !options.literal_separator && is_star_extension(tokens),
    }
}

/// Returns whether the tokens are `*` and an extension.
fn is_star_extension(tokens: &[Token]) -> bool
    ensures { result ≡ is_star_extension (flats tokens.now) }
{
    match tokens {
        [Token::ZeroOrMore, rest @ ..] => is_extension(rest),
        _ => false,
    }
}

/// Returns whether the tokens are a literal `.` and any literals other than `.` and `/`.
fn is_extension(tokens: &[Token]) -> bool
    ensures { result ≡ is_extension (flats tokens.now) }
{
    match tokens {
        [Token::Literal('.'), rest @ ..] => are_literals_except(rest, ['.', '/'].as_slice()),
        _ => false,
    }
}

/// Returns whether the tokens are `*` that matches `/`, and any literals; or `RecursivePrefix` before these.
pub fn is_end(options: Options, tokens: &[Token]) -> bool
    ensures { result ≡ is_end options (flats tokens.now) }
{
    if options.literal_separator {
        return false;
    }
    match tokens {
        [Token::RecursivePrefix, rest @ ..] => is_star_literals(rest),
        _ => is_star_literals(tokens),
    }
}

/// Returns whether the tokens are `*` and any literals.
fn is_star_literals(tokens: &[Token]) -> bool
    ensures { result ≡ is_star_literals (flats tokens.now) }
{
    match tokens {
        [Token::ZeroOrMore, rest @ ..] => are_literals_except(rest, [].as_slice()),
        _ => false,
    }
}

/// Returns whether the tokens are any literals and a last `*` that matches `/`; or `RecursivePrefix` alone.
pub fn is_beginning(options: Options, tokens: &[Token]) -> bool
    ensures { result ≡ is_beginning options (flats tokens.now) }
{
    match tokens {
        [Token::RecursivePrefix] => true,
        _ => !options.literal_separator && is_literals_star(tokens),
    }
}

/// Returns whether the tokens are any literals and a last `*`.
fn is_literals_star(tokens: &[Token]) -> bool
    ensures { result ≡ literals_and_last is_star (flats tokens.now) }
{
    let Some((last, before)) = tokens.split_last() else {
        return false;
    };
    is_star(last) && are_literals_except(before, [].as_slice())
}

/// Returns whether the tokens are any literals and a last `RecursiveSuffix`.
pub fn is_below_folder(tokens: &[Token]) -> bool
    ensures { result ≡ is_below_folder (flats tokens.now) }
{
    let Some((last, before)) = tokens.split_last() else {
        return false;
    };
    is_recursive_suffix(last) && are_literals_except(before, [].as_slice())
}

/// Returns whether the tokens are `RecursivePrefix` and at least one token, and none of these matches `/`.
pub fn is_by_last_component(options: Options, tokens: &[Token]) -> bool
    ensures { result ≡ is_by_last_component options (flats tokens.now) }
{
    match tokens {
        [Token::RecursivePrefix] => false,
        [Token::RecursivePrefix, rest @ ..] => match_no_slash(options, rest),
        _ => false,
    }
}

/// Returns whether each token is a literal whose character is not one of these.
fn are_literals_except(tokens: &[Token], excluded: &[char]) -> bool
    ensures { result ≡ all_simple_pass (is_literal_except excluded.now) (flats tokens.now) }
{
    for token in tokens {
        if !is_literal_except(token, excluded) {
            return false;
        }
    }
    true
}

/// Returns whether each token is one of those that match no `/`.
fn match_no_slash(options: Options, tokens: &[Token]) -> bool
    ensures { result ≡ all_simple_pass (matches_no_slash options) (flats tokens.now) }
{
    for token in tokens {
        if !matches_no_slash(options, token) {
            return false;
        }
    }
    true
}

/// Returns whether the token is a literal other than these characters.
pub fn is_literal_except(token: &Token, excluded: &[char]) -> bool
    ensures { result ≡ is_simple_that (is_literal_except excluded.now) (flat_of token.now) }
{
    match token {
        Token::Literal(c) => !excluded.contains(c),
        _ => false,
    }
}

/// Returns whether the token is `*`.
fn is_star(token: &Token) -> bool
    ensures { result ≡ is_simple_that is_star (flat_of token.now) }
{
    matches!(token, Token::ZeroOrMore)
}

/// Returns whether the token is `RecursiveSuffix`.
fn is_recursive_suffix(token: &Token) -> bool
    ensures { result ≡ is_simple_that is_suffix (flat_of token.now) }
{
    matches!(token, Token::RecursiveSuffix)
}

/// Returns whether the token is one of those that match no `/`: a literal other than `/`, a class without `/`, or with
/// `literal_separator` `?` or `*`.
fn matches_no_slash(options: Options, token: &Token) -> bool
    ensures { result ≡ is_simple_that (matches_no_slash options) (flat_of token.now) }
{
    match token {
        Token::Literal(c) => *c != '/',
        Token::Any | Token::ZeroOrMore => options.literal_separator,
        Token::Class(class) => !class.has(options, b'/'),
        _ => false,
    }
}

/// Returns whether every set leaves out a glob with these tokens.
pub fn is_excluded(options: Options, tokens: &[Token]) -> bool
    requires { IsNested (flats tokens.now) }
    ensures { result ≡ are_excluded options (tokens_of tokens.now) }
{
    if options.case_insensitive {
        return false;
    }
    let [first, second, third] = tokens else {
        return false;
    };
    is_recursive_prefix(first) && is_dot(second) && is_dot(third)
}

/// Returns whether the token is `RecursivePrefix`.
pub fn is_recursive_prefix(token: &Token) -> bool
    ensures { result ≡ is_simple_that is_prefix (flat_of token.now) }
{
    matches!(token, Token::RecursivePrefix)
}

/// Returns whether the token is the literal `.`.
pub fn is_dot(token: &Token) -> bool
    ensures { result ≡ is_simple_that is_dot (flat_of token.now) }
{
    matches!(token, Token::Literal('.'))
}
