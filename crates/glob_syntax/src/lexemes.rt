//! Splits a glob's text into lexemes, and checks that its braces match.

ghost use Rattle.std.specs.Prelude.{◌≡◌, ◌+◌, ◌<◌, ◌^◌, zero, IfOk, ◌≤◌, length, None, IfSome, IsFalse, drop, ◌==◌};
ghost use Rattle.glob_syntax.specs.inner.LexemeViews.{map_ok, lexeme_of, lexemes_of, NoCloser};
ghost use Rattle.glob_syntax.specs.Lexemes.{lexemes, is_closer, members, unclosed_lexeme, class_lexeme, class_at, lexeme_at};
ghost use Rattle.glob_syntax.specs.Nesting.{nested_lexeme, nested};
ghost use Rattle.glob_syntax.specs.Views.{AgreesWith};
ghost use Rattle.std.specs.List.{prefix_len, position};

use crate::class::bad_range;
use crate::options::Options;
use crate::parse_error_kind::{ParseErrorKind, ReadError};
use std::alloc::Global;

/// A lexeme of a glob's text.
#[derive(Clone, Copy)]
pub enum Lexeme<'a> {
    /// A plain character, escaped or not.
    Char { escaped: bool, c: char },
    /// `?`
    One,
    /// A run of unescaped `*`, as long as possible, by its length.
    Stars(usize),
    /// A closed class. The body does not include the negation.
    Class { negated: bool, body: &'a [char] },
    /// `{`
    Open,
    /// `,`
    Comma,
    /// `}`
    Close,
    /// An error at this position.
    Bad(ParseErrorKind),
}

/// Returns a lexeme inside `depth` open groups, and how many are open after it.
pub fn nested_lexeme<'a>(
    depth: usize,
    lexeme: Lexeme<'a>,
) -> Result<(usize, Lexeme<'a>), ParseErrorKind>
    requires { depth + 1 < 2 ^ 64 }
    ensures value { map_ok (λ s. (s.0, lexeme_of s.1)) result
        ≡ nested_lexeme depth (lexeme_of lexeme.entry) }
    ensures one_more { IfOk result (λ s. s.0 ≤ depth + 1) }
{
    match lexeme {
        Lexeme::Bad(parse_error_kind) => Err(parse_error_kind),
        Lexeme::Open => Ok((depth + 1, lexeme)),
        Lexeme::Close if depth == 0 => Err(ParseErrorKind::UnopenedAlternates),
        Lexeme::Close => Ok((depth - 1, lexeme)),
        Lexeme::Comma if depth == 0 => Ok((
            0,
            Lexeme::Char {
                escaped: false,
                c: ',',
            },
        )),
        _ => Ok((depth, lexeme)),
    }
}

/// Returns the lexemes of a text, or its first error.
pub fn lex<'a>(
    alloc: Global,
    options: Options,
    text: &'a [char],
) -> Result<Vec<Lexeme<'a>>, ReadError>
    ensures { AgreesWith (λ v. lexemes_of v.items) result
        (nested zero (lexemes options zero text.now)) }
{
    let mut out = Vec::with_capacity(alloc, text.len())?;
    let mut depth = 0;
    let mut closable = true;
    let mut rest = text;
    while let [c, after @ ..] = rest {
        let (lexeme, more) = lexeme_at(options, &mut closable, *c, after);
        match nested_lexeme(depth, lexeme) {
            Err(parse_error_kind) => return Err(ReadError::Syntax(parse_error_kind)),
            Ok(kept) => {
                out.push(kept.1)?;
                depth = kept.0;
                rest = after.split_at(more).1;
            }
        }
    }
    if depth > 0 {
        return Err(ReadError::Syntax(ParseErrorKind::UnclosedAlternates));
    }
    Ok(out)
}

/// Returns the position of the first `]`.
fn first_closer(rest: &[char]) -> Option<usize>
    ensures { result ≡ position is_closer rest.now }
{
    rest.iter().position(|c| *c == ']')
}

/// Returns how many members a class has, where `rest` begins with the first; `None` if no `]` closes the class.
fn members(rest: &[char]) -> Option<usize>
    ensures value { result ≡ members rest.now }
    ensures within { IfSome result (λ n. n < length rest.now) }
{
    match rest {
        [] => None,
        [_, after @ ..] => match first_closer(after) {
            None => None,
            Some(n) => Some(n + 1),
        },
    }
}

/// Returns the lexeme at a `[`, and the number of its characters after the `[`. After the `[` come `skipped` characters of
/// negation, and then `rest`.
///
/// `closable` becomes false once no `]` closes a `[`. Then none closes a later `[`, so this never searches again.
fn class_at<'a>(
    options: Options,
    closable: &mut bool,
    skipped: usize,
    negated: bool,
    rest: &'a [char],
) -> (Lexeme<'a>, usize)
    // At most one character negates the class. If `closable` is false, no `]` closes the class.
    requires skips { skipped ≤ 1 }
    requires known { IsFalse closable.old → NoCloser (drop 1 rest.now) }

    // Afterwards `closable` is false exactly if no `]` closes the class. It never becomes true again.
    ensures known { IsFalse closable.new → NoCloser (drop 1 rest.now) }
    ensures remembered { members rest.now ≡ None → IsFalse closable.new }
    ensures kept { IsFalse closable.old → IsFalse closable.new }

    // The lexeme is that of the definition `class_at`, and it ends within the text.
    ensures value { (lexeme_of result.0, result.1) ≡ class_at options skipped negated rest.now }
    ensures within { result.1 ≤ skipped + length rest.now }
{
    let count = if *closable { members(rest) } else { None };
    match count {
        None => {
            *closable = false;
            (unclosed_lexeme(options, rest), 0)
        }
        Some(n) => {
            let (body, _) = rest.split_at(n);
            (class_lexeme(negated, body), skipped + n + 1)
        }
    }
}

/// Returns the lexeme at a `[` that no `]` closes, followed by `rest`.
fn unclosed_lexeme<'a>(options: Options, rest: &[char]) -> Lexeme<'a>
    ensures { lexeme_of result ≡ unclosed_lexeme options rest.now }
{
    if options.allow_unclosed_class {
        Lexeme::Char {
            escaped: false,
            c: '[',
        }
    } else {
        Lexeme::Bad(bad_range(rest).unwrap_or(ParseErrorKind::UnclosedClass))
    }
}

/// Returns the lexeme of a closed class with this body.
fn class_lexeme(negated: bool, body: &[char]) -> Lexeme<'_>
    ensures { lexeme_of result ≡ class_lexeme negated body.now }
{
    match bad_range(body) {
        None => Lexeme::Class { negated, body },
        Some(parse_error_kind) => Lexeme::Bad(parse_error_kind),
    }
}

/// Returns the lexeme that begins with `c`, followed by `rest`, and how many characters belong to it after `c`.
#[tactic(auto, unfolding(crate::specs::Lexemes::lexeme_at))]
pub fn lexeme_at<'a>(
    options: Options,
    closable: &mut bool,
    c: char,
    rest: &'a [char],
) -> (Lexeme<'a>, usize)
    requires { IsFalse closable.old → NoCloser (drop 1 rest.now) }
    ensures known { IsFalse closable.new → NoCloser (drop 2 rest.now) }
    ensures kept { IsFalse closable.old → IsFalse closable.new }
    ensures value { (lexeme_of result.0, result.1) ≡ lexeme_at options c rest.now }
    ensures within { result.1 ≤ length rest.now }
{
    match c {
        '?' => (Lexeme::One, 0),
        '*' => {
            let more = count_stars(rest);
            (Lexeme::Stars(more + 1), more)
        }
        '[' => match rest {
            ['!' | '^', after @ ..] => class_at(options, closable, 1, true, after),
            _ => class_at(options, closable, 0, false, rest),
        },
        '{' => (Lexeme::Open, 0),
        '}' => (Lexeme::Close, 0),
        ',' => (Lexeme::Comma, 0),
        '\\' if options.backslash_escape => match rest {
            [] => (Lexeme::Bad(ParseErrorKind::DanglingEscape), 0),
            [next, ..] => (
                Lexeme::Char {
                    escaped: true,
                    c: *next,
                },
                1,
            ),
        },
        _ => (Lexeme::Char { escaped: false, c }, 0),
    }
}

/// Returns how many stars are at the front.
fn count_stars(rest: &[char]) -> usize
    ensures value { result ≡ prefix_len (λ d. d == 42) rest.now }
    ensures within { result ≤ length rest.now }
{
    rest.iter().take_while(|c| **c == '*').count()
}
