//! Escaping: globs that match a single text.

ghost use Rattle.std.specs.Prelude.{◌≡◌, ◌++◌, IfOk, IsOkUnless, OnOk, IsTrue, string_bytes, encode_utf8_all};
ghost use Rattle.glob_text.specs.Errors.{out_of_memory};
ghost use Rattle.glob_text.specs.GlobMatches.{default_glob};
ghost use Rattle.glob_text.specs.Escape.{is_special, escaped_char, escaped, has_no_backslash, plain_options, MeansOnly};

use crate::error::Error;
use std::alloc::{AllocError, Global};

/// Returns the text with each of `?`, `*`, `[`, `]`, `{` and `}` in brackets: `a*b` becomes `a[*]b`.
///
/// The result is a glob that matches only the text, if the glob's options are the default options and the text contains no `\`. A
/// `\` is not changed, and under the default options it escapes the next character. With `backslash_escape` off and the other
/// default options, the result matches only the text, for every text.
///
/// The time is linear in the length of the text.
///
/// ```rust
/// use globset::{Glob, escape};
///
/// let text = escape(alloc, "a[1].c")?;
/// assert_eq!(rt; text.as_str(), "a[[]1[]].c");
/// let matcher = Glob::new(alloc, text.as_str())?.compile_matcher()?;
/// assert!(rt; matcher.is_match("a[1].c")? && !matcher.is_match("a1.c")?);
/// ```
pub fn escape(alloc: Global, text: &str) -> Result<String, Error>
    ensures text { IfOk result (λ s. string_bytes s ≡ escaped text.now) }
    ensures escape_default { IfOk result
        (λ s. IsTrue (has_no_backslash text.now)
        → MeansOnly (default_glob (string_bytes s)) text.now) }
    ensures escape_plain { IfOk result
        (λ s. MeansOnly (record { text = string_bytes s; options = plain_options }) text.now) }
    ensures err { IsOkUnless result out_of_memory }
{
    let mut out = String::new(alloc);
    for c in text.chars() {
        push_escaped(&mut out, c)?;
    }
    Ok(out)
}

/// Appends a character, in brackets if it is special.
fn push_escaped(out: &mut String, c: char) -> Result<(), AllocError>
    ensures { OnOk result
        (string_bytes out.new ≡ string_bytes out.old ++ encode_utf8_all (escaped_char c)) }
{
    if is_special(c) {
        out.push('[')?;
        out.push(c)?;
        out.push(']')
    } else {
        out.push(c)
    }
}

/// Returns whether a character is put in brackets by `escape`. `\`, `,` and `!` are not.
fn is_special(c: char) -> bool
    ensures { result ≡ is_special c }
{
    matches!(c, '?' | '*' | '[' | ']' | '{' | '}')
}
