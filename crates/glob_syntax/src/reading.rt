//! Reads a glob's text as tokens, and finds where its first error stands.

ghost use Rattle.std.specs.Prelude.{◌≡◌, ◌*◌, ◌≤◌, length, IfOk, ◌<◌, ◌^◌, IfSome, encode_utf8_all};
ghost use Rattle.std.specs.Str.{chars};
ghost use Rattle.glob_syntax.specs.Reading.{reading};
ghost use Rattle.glob_syntax.specs.FlatTokens.{IsNested};
ghost use Rattle.glob_syntax.specs.StatesPerByte.{states_per_byte};
ghost use Rattle.glob_syntax.specs.Views.{AgreesWith, flats, tokens_of};
ghost use Rattle.glob_syntax.specs.inner.Weight.{weight};
ghost use Rattle.glob_syntax.specs.inner.WellFormed.{AreWellFormed};
ghost use Rattle.std.specs.Option.{option_map};
ghost use Rattle.glob_syntax.specs.ErrorOffset.{first_error, error_offset};

use crate::groups::tokens;
use crate::lexemes::{lex, lexeme_at, nested_lexeme};
use crate::options::Options;
use crate::parse_error_kind::ReadError;
use crate::token::Token;
use std::alloc::{AllocError, Global};

/// Returns the characters of a text.
fn characters(alloc: Global, text: &str) -> Result<Vec<char>, AllocError>
    ensures { IfOk result (λ v. v.items ≡ chars text.now) }
{
    text.chars().collect(alloc)
}

/// Returns the tokens of a glob's text.
///
/// This takes time and memory linear in the length of the text. A first pass splits the text into lexemes, and another makes
/// tokens of the lexemes. The first pass looks ahead for the `]` of each class; once there is none, it stops looking. Each class
/// has a table of 256 entries, filled in a step for each byte that a range contains.
///
/// # Errors
///
/// Returns `ReadError::Syntax` with the first error of the text, from left to right:
///
/// - `InvalidRange` for a class with a range that goes down, as `[z-a]`. If no `]` closes the class, this is the
///   error only without `allow_unclosed_class`;
/// - `UnclosedClass` for any other class that no `]` closes, without `allow_unclosed_class`;
/// - `UnopenedAlternates` for a `}` that closes no group;
/// - `DanglingEscape` for a `\` at the end of the text, under `backslash_escape`;
/// - `UnclosedAlternates` for a group that is still open at the end of the text.
///
/// Returns `ReadError::Memory` if memory runs out.
#[tactic(auto, unfolding(crate::specs::Reading::reading))]
pub fn read_tokens(alloc: Global, options: Options, text: &str) -> Result<Vec<Token>, ReadError>
    ensures value { AgreesWith (λ v. tokens_of v.items) result (reading options (chars text.now)) }
    ensures nested { IfOk result (λ v. IsNested (flats v.items)) }
    ensures well_formed { IfOk result (λ v. AreWellFormed (tokens_of v.items)) }
    ensures weight { IfOk result
        (λ v. weight options (tokens_of v.items) ≤ states_per_byte options * length text.now) }
{
    let characters = characters(alloc, text)?;
    let lexemes = lex(alloc, options, &characters)?;
    Ok(tokens(alloc, &lexemes)?)
}

/// Returns the text from its first error on, if there is any.
fn from_error<'a>(options: Options, text: &'a [char]) -> Option<&'a [char]>
    ensures value { option_map (λ l. l.now) result
        ≡ option_map (λ e. e.1) (first_error options text.now) }
    ensures within { IfSome result
        (λ l. length (encode_utf8_all l.now) ≤ length (encode_utf8_all text.now)) }
{
    let mut depth = 0;
    let mut closable = true;
    let mut outer = text;
    let mut rest = text;
    while let [c, after @ ..] = rest {
        let (lexeme, more) = lexeme_at(options, &mut closable, *c, after);
        match nested_lexeme(depth, lexeme) {
            Err(_) => return Some(rest),
            Ok(kept) => {
                if depth == 0 {
                    outer = rest;
                }
                depth = kept.0;
                rest = after.split_at(more).1;
            }
        }
    }
    if depth > 0 { Some(outer) } else { None }
}

/// Returns how many bytes the characters take in UTF-8.
fn utf8_len(characters: &[char]) -> usize
    requires { length (encode_utf8_all characters.now) < 2 ^ 64 }
    ensures { result ≡ length (encode_utf8_all characters.now) }
{
    let mut len = 0;
    for c in characters {
        len += c.len_utf8();
    }
    len
}

/// Returns the offset of the first error of a text, in bytes, if there is any. This is the offset of:
///
/// - the `[` of a class that no `]` closes, or of the class of a range that goes down;
/// - the `}` that closes no group;
/// - the `\` at the end of the text;
/// - the outermost `{` that is still open at the end of the text.
///
/// This takes time and memory linear in the length of the text.
pub fn error_offset(
    alloc: Global,
    options: Options,
    text: &str,
) -> Result<Option<usize>, AllocError>
    ensures { IfOk result (λ n. n ≡ error_offset options (chars text.now)) }
{
    let characters = characters(alloc, text)?;
    match from_error(options, &characters) {
        None => Ok(None),
        Some(rest) => Ok(Some(text.len() - utf8_len(rest))),
    }
}
