//! The tokens of a glob, and their copies.

ghost use Rattle.std.specs.Prelude.{◌≡◌, IfOk};
ghost use Rattle.glob_syntax.specs.Views.{flat_of, flats, tokens_of};
ghost use Rattle.glob_syntax.specs.FlatTokens.{IsNested};
ghost use Rattle.glob_syntax.specs.TokensMatch.{is_prefix_alone};

use crate::class::Class;
use std::alloc::{AllocError, Global};

/// A token of a glob. A group is an `Open`, its branches with a `Comma` between each two, and a `Close`.
#[derive(Drop)]
pub enum Token {
    /// A plain character.
    Literal(char),
    /// `?`
    Any,
    /// `*`
    ZeroOrMore,
    /// `**/` at the start of a branch, and `**` as the whole glob.
    RecursivePrefix,
    /// `/**` at the end of a branch.
    RecursiveSuffix,
    /// `/**/` elsewhere.
    RecursiveZeroOrMore,
    /// A character class, `[..]`.
    Class(Class),
    /// The `{` of a group.
    Open,
    /// A `,` between two branches of a group.
    Comma,
    /// The `}` of a group.
    Close,
}

/// Returns equal tokens with memory of their own, in time and memory linear in the tokens.
pub fn copy_of(alloc: Global, tokens: &[Token]) -> Result<Vec<Token>, AllocError>
    ensures { IfOk result (λ v. flats v.items ≡ flats tokens.now) }
{
    let mut copies = Vec::with_capacity(alloc, tokens.len())?;
    for token in tokens {
        copies.push(copy_of_token(alloc, token)?)?;
    }
    Ok(copies)
}

/// Returns an equal token with memory of its own.
fn copy_of_token(alloc: Global, token: &Token) -> Result<Token, AllocError>
    ensures { IfOk result (λ t. flat_of t ≡ flat_of token.now) }
{
    match token {
        Token::Literal(c) => Ok(Token::Literal(*c)),
        Token::Any => Ok(Token::Any),
        Token::ZeroOrMore => Ok(Token::ZeroOrMore),
        Token::RecursivePrefix => Ok(Token::RecursivePrefix),
        Token::RecursiveSuffix => Ok(Token::RecursiveSuffix),
        Token::RecursiveZeroOrMore => Ok(Token::RecursiveZeroOrMore),
        Token::Class(class) => Ok(Token::Class(class.clone(alloc)?)),
        Token::Open => Ok(Token::Open),
        Token::Comma => Ok(Token::Comma),
        Token::Close => Ok(Token::Close),
    }
}

/// Returns whether the only token is `RecursivePrefix`. Such a glob matches every path.
pub fn is_prefix_alone(tokens: &[Token]) -> bool
    requires { IsNested (flats tokens.now) }
    ensures { result ≡ is_prefix_alone (tokens_of tokens.now) }
{
    matches!(tokens, [Token::RecursivePrefix])
}
