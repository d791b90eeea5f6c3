//! The text that a glob has as a regular expression.

ghost use Rattle.std.specs.Prelude.{◌≡◌, ◌<◌, ◌++◌, [], ◌∷◌, ◌&&◌, ◌||◌, not, IfOk, OnOk, take, codes, string_bytes, string_len};
ghost use Rattle.std.specs.String.Boundary.{IsSplitPoint};
ghost use Rattle.glob_syntax.specs.FlatTokens.{IsNested, IsSimple};
ghost use Rattle.glob_syntax.specs.Views.{flat_of, flats, tokens_of};
ghost use Rattle.glob_text.specs.RegexText.{is_escaped, hexadecimal_digit, byte_text, char_text, range_text, class_text, group_text, ascii_text, longer_texts, any_text, tokens_text, flags_text, body_text, regex_text};
ghost use Rattle.glob_text.specs.inner.RegexWriting.{chosen, opener, closer, simple_text};

use glob_syntax::{Class, Options, Token, is_prefix_alone};
use std::alloc::{AllocError, Global};

/// The most bytes of what stands around the text of the tokens: the flags, `^` and `$`.
const AROUND: usize = 11;

/// Returns the text of a glob's tokens, in time linear in the tokens.
pub fn regex_of_tokens(
    alloc: Global,
    options: Options,
    tokens: &[Token],
) -> Result<String, AllocError>
    requires { IsNested (flats tokens.now) }
    ensures { IfOk result (λ text. string_bytes text ≡ regex_text options (tokens_of tokens.now)) }
{
    // Most tokens are a character of their text, or two.
    let capacity = tokens.len().saturating_add(tokens.len() / 4);
    let mut text = String::with_capacity(alloc, capacity.saturating_add(AROUND))?;
    push_flags(&mut text, options)?;
    text.push_str("^")?;
    push_body(alloc, &mut text, options, tokens)?;
    text.push_str("$")?;
    Ok(text)
}

/// Pushes what stands before the `^`.
fn push_flags(text: &mut String, options: Options) -> Result<(), AllocError>
    ensures { OnOk result (string_bytes text.new ≡ string_bytes text.old ++ flags_text options) }
{
    text.push_str(if options.case_insensitive {
        "(?-u)(?i)"
    } else {
        "(?-u)"
    })
}

/// Pushes what stands between the `^` and the `$`.
fn push_body(
    alloc: Global,
    text: &mut String,
    options: Options,
    tokens: &[Token],
) -> Result<(), AllocError>
    requires { IsNested (flats tokens.now) }
    ensures { OnOk result
        (string_bytes text.new
        ≡ string_bytes text.old ++ body_text options (tokens_of tokens.now)) }
{
    if is_prefix_alone(tokens) {
        text.push_str(".*")
    } else {
        push_tokens(alloc, text, options, tokens)
    }
}

/// A group whose text is being written.
#[derive(Clone, Copy, Drop)]
struct OpenGroup {
    /// The length of the text before the branch that is being written.
    len: usize,
    /// Whether no branch of the group has been written.
    first: bool,
    /// Whether the branch around the group is kept by its tokens before the group.
    outer_kept: bool,
}

/// Pushes the texts of the tokens, in order.
fn push_tokens(
    alloc: Global,
    text: &mut String,
    options: Options,
    tokens: &[Token],
) -> Result<(), AllocError>
    requires { IsNested (flats tokens.now) }
    ensures { OnOk result
        (string_bytes text.new
        ≡ string_bytes text.old ++ tokens_text options (tokens_of tokens.now)) }
{
    push_each(text, options, tokens, &mut Vec::new(alloc))
}

/// Pushes the texts of the tokens. `groups` has the open groups, and none before.
///
/// Only its tokens tell whether a branch is kept, so its text is written, and removed if it is not.
fn push_each(
    text: &mut String,
    options: Options,
    tokens: &[Token],
    groups: &mut Vec<OpenGroup>,
) -> Result<(), AllocError>
    requires nested { IsNested (flats tokens.now) }
    requires none { groups.old.items ≡ [] }
    ensures { OnOk result
        (string_bytes text.new
        ≡ string_bytes text.old ++ tokens_text options (tokens_of tokens.now)) }
{
    let mut kept = false;
    for token in tokens {
        match token {
            Token::Open => {
                start_branch(text, groups, true, kept)?;
                kept = false;
            }
            Token::Comma => {
                let Some(group) = groups.pop() else {
                    unreachable!()
                };
                let first = end_branch(text, options, group, kept);
                start_branch(text, groups, first, group.outer_kept)?;
                kept = false;
            }
            Token::Close => {
                let Some(group) = groups.pop() else {
                    unreachable!()
                };
                let none = end_branch(text, options, group, kept);
                kept = end_group(text, group, none)?;
            }
            _ => {
                push_simple(text, options, token)?;
                kept = true;
            }
        }
    }
    Ok(())
}

/// Pushes the text before a branch of a group, the first or a later one that is written, and adds the group to the open groups.
fn start_branch(
    text: &mut String,
    groups: &mut Vec<OpenGroup>,
    first: bool,
    outer_kept: bool,
) -> Result<(), AllocError>
    ensures text { OnOk result (string_bytes text.new ≡ string_bytes text.old ++ opener first) }
    ensures group { OnOk result
        (groups.new.items ≡ groups.old.items
        ++ record { len = string_len text.old; first = first; outer_kept = outer_kept } ∷ []) }
{
    let len = text.len();
    text.push_str(if first { "(?:" } else { "|" })?;
    groups.push(OpenGroup {
        len,
        first,
        outer_kept,
    })?;
    Ok(())
}

/// Ends a branch: it is kept under `empty_alternates` and where `kept` says so, and otherwise removed. Returns whether no
/// branch of the group has been written.
fn end_branch(text: &mut String, options: Options, group: OpenGroup, kept: bool) -> bool
    requires { IsSplitPoint (string_bytes text.old) group.len }
    ensures text { string_bytes text.new
        ≡ chosen (options.empty_alternates || kept) (string_bytes text.old)
        (take group.len (string_bytes text.old)) }
    ensures none { result ≡ (group.first && not (options.empty_alternates || kept)) }
{
    if options.empty_alternates || kept {
        return false;
    }
    text.truncate(group.len);
    group.first
}

/// Pushes the text after the last branch of a group, if any was written. Returns whether the branch around it is kept so far.
fn end_group(text: &mut String, group: OpenGroup, none: bool) -> Result<bool, AllocError>
    ensures text { OnOk result (string_bytes text.new ≡ string_bytes text.old ++ closer none) }
    ensures kept { IfOk result (λ kept. kept ≡ (group.outer_kept || not none)) }
{
    if !none {
        text.push_str(")")?;
    }
    Ok(group.outer_kept || !none)
}

/// Pushes the text of a token that is no brace or comma.
fn push_simple(text: &mut String, options: Options, token: &Token) -> Result<(), AllocError>
    requires { IsSimple (flat_of token.now) }
    ensures { OnOk result
        (string_bytes text.new ≡ string_bytes text.old ++ simple_text options (flat_of token.now)) }
{
    match token {
        Token::Literal(c) => push_char(text, *c),
        Token::Any => push_any(text, options),
        Token::ZeroOrMore if options.literal_separator => text.push_str("[^/]*"),
        Token::ZeroOrMore => text.push_str(".*"),
        Token::RecursivePrefix => text.push_str("(?:/?|.*/)"),
        Token::RecursiveSuffix => text.push_str("/.*"),
        Token::RecursiveZeroOrMore => text.push_str("(?:/|/.*/)"),
        Token::Class(class) => push_class(text, class),
        Token::Open | Token::Comma | Token::Close => unreachable!(),
    }
}

/// The characters of two bytes or more, after the characters of a single byte.
const LONGER_CHARACTERS: &str = "|[\\xc2-\\xdf][\\x80-\\xbf]\
    |\\xe0[\\xa0-\\xbf][\\x80-\\xbf]\
    |[\\xe1-\\xec][\\x80-\\xbf][\\x80-\\xbf]\
    |\\xed[\\x80-\\x9f][\\x80-\\xbf]\
    |[\\xee-\\xef][\\x80-\\xbf][\\x80-\\xbf]\
    |\\xf0[\\x90-\\xbf][\\x80-\\xbf][\\x80-\\xbf]\
    |[\\xf1-\\xf3][\\x80-\\xbf][\\x80-\\xbf][\\x80-\\xbf]\
    |\\xf4[\\x80-\\x8f][\\x80-\\xbf][\\x80-\\xbf])";

/// Pushes the text of a `?`.
fn push_any(text: &mut String, options: Options) -> Result<(), AllocError>
    ensures { OnOk result (string_bytes text.new ≡ string_bytes text.old ++ any_text options) }
{
    if options.whole_character {
        push_character(text, options)
    } else if options.literal_separator {
        text.push_str("[^/]")
    } else {
        text.push_str(".")
    }
}

/// Pushes the text of a `?` that matches a whole character.
fn push_character(text: &mut String, options: Options) -> Result<(), AllocError>
    ensures { OnOk result
        (string_bytes text.new
        ≡ string_bytes text.old ++ group_text (ascii_text options ∷ longer_texts)) }
{
    text.push_str(ascii_characters(options))?;
    text.push_str(LONGER_CHARACTERS)?;
    Ok(())
}

/// Returns the text before `LONGER_CHARACTERS`.
fn ascii_characters(options: Options) -> &'static str
    ensures { result.now ≡ codes "(?:" ++ ascii_text options }
{
    if options.literal_separator {
        "(?:[\\x00-\\x2e\\x30-\\x7f]"
    } else {
        "(?:[\\x00-\\x7f]"
    }
}

/// Pushes the text of a class.
fn push_class(text: &mut String, class: &Class) -> Result<(), AllocError>
    ensures { OnOk result
        (string_bytes text.new
        ≡ string_bytes text.old ++ class_text class.now.negated class.now.ranges) }
{
    text.push_str(if class.negated() { "[^" } else { "[" })?;
    for range in class.ranges() {
        push_range(text, *range)?;
    }
    text.push_str("]")
}

/// Pushes the text of a range of a class.
fn push_range(text: &mut String, range: (char, char)) -> Result<(), AllocError>
    ensures { OnOk result (string_bytes text.new ≡ string_bytes text.old ++ range_text range) }
{
    let (first, last) = range;
    push_char(text, first)?;
    if first == last {
        return Ok(());
    }
    text.push_str("-")?;
    push_char(text, last)
}

/// Pushes the text of a character.
fn push_char(text: &mut String, c: char) -> Result<(), AllocError>
    ensures { OnOk result (string_bytes text.new ≡ string_bytes text.old ++ char_text c) }
{
    let mut buffer = [0u8; 4];
    for byte in c.encode_utf8(&mut buffer).as_bytes() {
        push_byte(text, *byte)?;
    }
    Ok(())
}

/// Pushes the text of a byte.
fn push_byte(text: &mut String, byte: u8) -> Result<(), AllocError>
    ensures { OnOk result (string_bytes text.new ≡ string_bytes text.old ++ byte_text byte) }
{
    if byte >= 128 {
        text.push_str("\\x")?;
        push_ascii(text, hexadecimal_digit(byte / 16))?;
        return push_ascii(text, hexadecimal_digit(byte % 16));
    }
    if is_escaped(byte) {
        text.push_str("\\")?;
    }
    push_ascii(text, byte)
}

/// Pushes an ASCII character as it is.
fn push_ascii(text: &mut String, byte: u8) -> Result<(), AllocError>
    requires { byte < 128 }
    ensures { OnOk result (string_bytes text.new ≡ string_bytes text.old ++ byte ∷ []) }
{
    text.push(byte as char)
}

/// The ASCII characters that have a backslash before them.
const ESCAPED: &[u8] = b"\\.+*?()|[]{}^$#&-~";

/// Returns whether an ASCII character has a backslash before it.
fn is_escaped(byte: u8) -> bool
    ensures { result ≡ is_escaped byte }
{
    ESCAPED.iter().any(|escaped| byte == *escaped)
}

/// Returns the digit of a number below 16, `0` to `9` or `a` to `f`.
fn hexadecimal_digit(value: u8) -> u8
    requires { value < 16 }
    ensures value { result ≡ hexadecimal_digit value }
    ensures ascii { result < 128 }
{
    if value < 10 {
        b'0' + value
    } else {
        b'a' - 10 + value
    }
}
