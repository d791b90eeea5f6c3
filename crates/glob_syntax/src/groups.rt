//! Braces: the tokens of lexemes, in groups.

ghost use Rattle.std.specs.Prelude.{◌≡◌, ◌≤◌, ◌∷◌, zero, true, IfOk, drop, length};
ghost use Rattle.glob_syntax.specs.inner.Nests.{Nests, starts_branch};
ghost use Rattle.glob_syntax.specs.inner.TokenReading.{Follows, ReadsPiece};
ghost use Rattle.glob_syntax.specs.Reading.{whole};
ghost use Rattle.glob_syntax.specs.FlatTokens.{IsNested};
ghost use Rattle.glob_syntax.specs.Views.{flats, tokens_of};
ghost use Rattle.glob_syntax.specs.inner.LexemeViews.{lexeme_of, lexemes_of};

use crate::lexemes::Lexeme;
use crate::stars::{Position, is_whole_run, push_piece};
use crate::token::Token;
use std::alloc::{AllocError, Global};

/// Returns whether a branch starts after the lexeme.
fn starts_branch(lexeme: Lexeme<'_>) -> bool
    ensures { result ≡ starts_branch (lexeme_of lexeme.entry) }
{
    matches!(lexeme, Lexeme::Open | Lexeme::Comma)
}

/// Pushes the tokens of the piece that begins at this position. Returns how many lexemes belong to the piece after its first.
fn push_lexeme(
    alloc: Global,
    tokens: &mut Vec<Token>,
    position: Position<'_, '_>,
) -> Result<usize, AllocError>
    requires { Follows (flats tokens.old.items)
        (lexeme_of position.lexeme ∷ lexemes_of position.after.now) }
    ensures read { IfOk result
        (λ more. ReadsPiece tokens.old.items position.entry.start position.entry.lexeme
        position.entry.after.now tokens.new.items more) }
    ensures within { IfOk result (λ more. more ≤ length position.entry.after.now) }
{
    match position.lexeme {
        Lexeme::Open => {
            tokens.push(Token::Open)?;
            Ok(0)
        }
        Lexeme::Comma => {
            tokens.push(Token::Comma)?;
            Ok(0)
        }
        Lexeme::Close => {
            tokens.push(Token::Close)?;
            Ok(0)
        }
        Lexeme::Bad(_) => unreachable!(),
        _ => push_piece(alloc, tokens, position),
    }
}

/// Returns the lexemes after the first `n`.
fn after<'a, 'b>(lexemes: &'a [Lexeme<'b>], n: usize) -> &'a [Lexeme<'b>]
    requires { n ≤ length lexemes.now }
    ensures { result.now ≡ drop n lexemes.now }
{
    &lexemes[n..]
}

/// Returns the tokens of lexemes whose groups are closed.
pub fn tokens(alloc: Global, lexemes: &[Lexeme<'_>]) -> Result<Vec<Token>, AllocError>
    requires { Nests zero (lexemes_of lexemes.now) }
    ensures value { IfOk result (λ v. tokens_of v.items ≡ whole (lexemes_of lexemes.now)) }
    ensures nested { IfOk result (λ v. IsNested (flats v.items)) }
{
    let mut tokens = Vec::with_capacity(alloc, lexemes.len())?;
    if is_whole_run(lexemes) {
        tokens.push(Token::RecursivePrefix)?;
        return Ok(tokens);
    }
    let mut start = true;
    let mut rest = lexemes;
    while let [lexeme, others @ ..] = rest {
        let position = Position {
            start,
            lexeme: *lexeme,
            after: others,
        };
        let more = push_lexeme(alloc, &mut tokens, position)?;
        start = starts_branch(*lexeme);
        rest = after(others, more);
    }
    Ok(tokens)
}
