//! Pieces: which lexemes belong to a run of `*` with its `/`, and the tokens of a piece.

ghost use Rattle.std.specs.Prelude.{◌≡◌, ◌≤◌, ◌<◌, length, IsTrue, ◌∷◌, [], map, replicate, ◌++◌, IfOk, OnOk};
ghost use Rattle.glob_syntax.specs.Stars.{is_run, is_slash, ends_branch, at_end, last_run, pairs, run_piece, slash_piece, piece};
ghost use Rattle.glob_syntax.specs.Reading.{is_whole_run};
ghost use Rattle.glob_syntax.specs.inner.LexemeViews.{lexeme_of, lexemes_of, Adds};
ghost use Rattle.glob_syntax.specs.Token.{ZeroOrMore};
ghost use Rattle.glob_syntax.specs.Lexemes.{Stars};
ghost use Rattle.glob_syntax.specs.FlatTokens.{simple};
ghost use Rattle.glob_syntax.specs.Views.{flat_of, flats};

use crate::class::{Class, ranges};
use crate::lexemes::Lexeme;
use crate::token::Token;
use std::alloc::{AllocError, Global};

/// A lexeme of a glob, and where it is.
#[derive(Clone, Copy)]
pub struct Position<'a, 'b> {
    /// Whether a branch starts at the lexeme.
    pub start: bool,
    pub lexeme: Lexeme<'b>,
    /// The lexemes after it.
    pub after: &'a [Lexeme<'b>],
}

/// Returns whether the lexeme is a run of two stars.
fn is_run(lexeme: Lexeme<'_>) -> bool
    ensures { result ≡ is_run (lexeme_of lexeme.entry) }
{
    matches!(lexeme, Lexeme::Stars(2))
}

/// Returns whether the lexeme is an unescaped `/`.
fn is_slash(lexeme: Lexeme<'_>) -> bool
    ensures { result ≡ is_slash (lexeme_of lexeme.entry) }
{
    match lexeme {
        Lexeme::Char { escaped, c } => !escaped && c == '/',
        _ => false,
    }
}

/// Returns whether a branch ends before the lexeme.
fn ends_branch(lexeme: Lexeme<'_>) -> bool
    ensures { result ≡ ends_branch (lexeme_of lexeme.entry) }
{
    matches!(lexeme, Lexeme::Comma | Lexeme::Close)
}

/// Returns whether a branch ends before these lexemes.
fn at_end(lexemes: &[Lexeme<'_>]) -> bool
    ensures { result ≡ at_end (lexemes_of lexemes.now) }
{
    match lexemes {
        [] => true,
        [lexeme, ..] => ends_branch(*lexeme),
    }
}

/// Returns whether the first lexeme is a run of two stars that ends the branch.
fn last_run(lexemes: &[Lexeme<'_>]) -> bool
    ensures value { result ≡ last_run (lexemes_of lexemes.now) }
    ensures some { IsTrue result → 0 < length lexemes.now }
{
    match lexemes {
        [] => false,
        [lexeme, after @ ..] => is_run(*lexeme) && at_end(after),
    }
}

/// Returns how many lexemes at the front make up pairs of a run of two stars and an unescaped `/`.
fn pairs(lexemes: &[Lexeme<'_>]) -> usize
    ensures value { result ≡ pairs (lexemes_of lexemes.now) }
    ensures within { result ≤ length lexemes.now }
{
    let mut count = 0;
    let mut rest = lexemes;
    while let [run, slash, after @ ..] = rest {
        if !(is_run(*run) && is_slash(*slash)) {
            break;
        }
        count += 2;
        rest = after;
    }
    count
}

/// Returns whether the only lexeme is a run of two stars.
pub fn is_whole_run(lexemes: &[Lexeme<'_>]) -> bool
    ensures { result ≡ is_whole_run (lexemes_of lexemes.now) }
{
    match lexemes {
        [lexeme] => is_run(*lexeme),
        _ => false,
    }
}

/// Pushes the tokens of a piece that begins with a run of `n` stars, followed by `after`. Returns how many lexemes belong to the
/// piece after its first.
fn push_run(
    out: &mut Vec<Token>,
    start: bool,
    n: usize,
    after: &[Lexeme<'_>],
) -> Result<usize, AllocError>
    ensures adds { IfOk result
        (λ more. Adds out.old.items out.new.items
        (run_piece start n (Stars n ∷ lexemes_of after.now)) more) }
    ensures within { IfOk result (λ more. more ≤ length after.now) }
{
    match after {
        [slash, later @ ..] if start && n == 2 && is_slash(*slash) => {
            let count = pairs(later) + 1;
            let more = if last_run(after.split_at(count).1) {
                count + 1
            } else {
                count
            };
            push_token(out, Token::RecursivePrefix, more)
        }
        _ => {
            push_stars(out, n)?;
            Ok(0)
        }
    }
}

/// Pushes the only token of a piece. Returns `more`, the number of lexemes in the piece after its first.
fn push_token(out: &mut Vec<Token>, token: Token, more: usize) -> Result<usize, AllocError>
    ensures { IfOk result
        (λ n. (flats out.new.items ≡ flats out.old.items ++ flat_of token ∷ []) × (n ≡ more)) }
{
    out.push(token)?;
    Ok(more)
}

/// Pushes `n` tokens `*`.
fn push_stars(out: &mut Vec<Token>, n: usize) -> Result<(), AllocError>
    ensures { OnOk result
        (flats out.new.items ≡ flats out.old.items ++ map simple (replicate n ZeroOrMore)) }
{
    for _i in 0..n {
        out.push(Token::ZeroOrMore)?;
    }
    Ok(())
}

/// Pushes the tokens of a piece that begins with a `/`, followed by `after`. Returns how many lexemes belong to the piece after
/// its first.
fn push_slash(out: &mut Vec<Token>, after: &[Lexeme<'_>]) -> Result<usize, AllocError>
    ensures adds { IfOk result
        (λ more. Adds out.old.items out.new.items (slash_piece (lexemes_of after.now)) more) }
    ensures within { IfOk result (λ more. more ≤ length after.now) }
{
    let count = pairs(after);
    if last_run(after.split_at(count).1) {
        push_token(out, Token::RecursiveSuffix, count + 1)
    } else if count > 0 {
        push_token(out, Token::RecursiveZeroOrMore, count)
    } else {
        push_token(out, Token::Literal('/'), 0)
    }
}

/// Pushes the tokens of the piece that begins at this position. Returns how many lexemes belong to the piece after its first. A
/// brace or a comma has no tokens.
#[tactic(auto, unfolding(crate::specs::Stars::piece))]
pub fn push_piece(
    alloc: Global,
    out: &mut Vec<Token>,
    position: Position<'_, '_>,
) -> Result<usize, AllocError>
    ensures adds { IfOk result
        (λ more. Adds out.old.items out.new.items
        (piece position.entry.start (lexeme_of position.entry.lexeme)
        (lexemes_of position.entry.after.now)) more) }
    ensures within { IfOk result (λ more. more ≤ length position.entry.after.now) }
{
    let after = position.after;
    match position.lexeme {
        Lexeme::Stars(n) => push_run(out, position.start, n, after),
        Lexeme::Char { escaped: _, c } => {
            if c == '/' {
                push_slash(out, after)
            } else {
                push_token(out, Token::Literal(c), 0)
            }
        }
        Lexeme::One => push_token(out, Token::Any, 0),
        Lexeme::Class { negated, body } => {
            let ranges = ranges(alloc, body)?;
            let class = Class::new(alloc, negated, ranges)?;
            push_token(out, Token::Class(class), 0)
        }
        Lexeme::Open | Lexeme::Comma | Lexeme::Close | Lexeme::Bad(_) => Ok(0),
    }
}
