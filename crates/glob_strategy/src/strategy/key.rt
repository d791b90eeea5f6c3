//! The keys of globs: bytes of their literals.

ghost use Rattle.std.specs.Prelude.{◌≡◌, IfOk, IfSome, [], ◌∷◌, ◌++◌};
ghost use Rattle.std.specs.Option.{option_map};
ghost use Rattle.glob_syntax.specs.Views.{flats};
ghost use Rattle.glob_syntax.specs.TokenMatches.{slash};
ghost use Rattle.glob_strategy.specs.inner.FlatTests.{EndsInExtension, ending, literal_text};

use crate::strategy::conditions::{is_dot, is_literal_except};
use glob_syntax::Token;
use std::alloc::{AllocError, Global};

/// Returns the bytes of the tokens that are literals, in order. Its memory has no room for more.
pub fn literal_text(alloc: Global, tokens: &[Token]) -> Result<Vec<u8>, AllocError>
    ensures { IfOk result (λ text. text.items ≡ literal_text (flats tokens.now)) }
{
    literal_text_in(alloc, literal_len(tokens), tokens)
}

/// Returns the bytes of the tokens that are literals, in order, and `/`. Its memory has no room for more.
pub fn literal_text_and_slash(alloc: Global, tokens: &[Token]) -> Result<Vec<u8>, AllocError>
    ensures { IfOk result (λ text. text.items ≡ literal_text (flats tokens.now) ++ slash ∷ []) }
{
    let mut text = literal_text_in(alloc, literal_len(tokens).saturating_add(1), tokens)?;
    text.push(b'/')?;
    Ok(text)
}

/// Returns the bytes of the tokens that are literals, in order, in memory that has room for so many.
fn literal_text_in(alloc: Global, capacity: usize, tokens: &[Token]) -> Result<Vec<u8>, AllocError>
    ensures { IfOk result (λ text. text.items ≡ literal_text (flats tokens.now)) }
{
    let mut text = String::with_capacity(alloc, capacity)?;
    for token in tokens {
        if let Token::Literal(c) = token {
            text.push(*c)?;
        }
    }
    Ok(text.into_bytes())
}

/// Returns how many bytes the tokens that are literals have.
fn literal_len(tokens: &[Token]) -> usize {
    let mut len: usize = 0;
    for token in tokens {
        if let Token::Literal(c) = token {
            len = len.saturating_add(c.len_utf8());
        }
    }
    len
}

/// Returns the tokens from the last literal `.` on if all tokens after it are literals other than `/`, and `None` otherwise. It
/// reads the tokens from the end to that `.`, or to the first that is not such a literal.
pub fn ending(tokens: &[Token]) -> Option<&[Token]>
    ensures text { option_map (λ last. literal_text (flats last.now)) result
        ≡ ending (flats tokens.now) }
    ensures last { IfSome result (λ last. EndsInExtension tokens.now last.now) }
{
    for i in 0..tokens.len() {
        let at = tokens.len() - 1 - i;
        let token = &tokens[at];
        if is_dot(token) {
            return Some(&tokens[at..]);
        }
        if !is_literal_except(token, ['.', '/'].as_slice()) {
            return None;
        }
    }
    None
}
