//! The states of tokens, from the last token to the first. Groups may nest to any depth: no function calls itself.

ghost use Rattle.std.specs.Prelude.{◌≡◌, ◌+◌, ◌<◌, ◌≤◌, length, OnOk, IfOk, ◌++◌, ◌∷◌, [], List, OnErr, ◌&&◌, ◌||◌, not, reverse};
ghost use Rattle.glob_syntax.specs.ClassBytes.{class_has};
ghost use Rattle.glob_syntax.specs.FlatTokens.{IsSimple, IsNested};
ghost use Rattle.glob_syntax.specs.Token.{Any};
ghost use Rattle.glob_syntax.specs.Views.{flat_of, flats, tokens_of};
ghost use Rattle.glob_syntax.specs.inner.Weight.{any_weight, weight};
ghost use Rattle.glob_syntax.specs.TokenMatches.{is_wild};
ghost use Rattle.byte_nfa.specs.Runs.{size, max_reads};
ghost use Rattle.glob_strategy.specs.inner.TokenStates.{is_letter};
ghost use Rattle.bit_sets.specs.Bytes.{IsSetOf};
ghost use Rattle.glob_strategy.specs.inner.Building.{BuildsText, BuildsToken, BuildsWhole, Builds};
ghost use Rattle.byte_nfa.specs.Building.{Grows};
ghost use Rattle.glob_strategy.specs.inner.Frames.{flat_weight, BuildsFlat};
ghost use Rattle.glob_syntax.specs.TokensMatch.{is_prefix_alone};
ghost use Rattle.glob_strategy.specs.IndexedTokens.{IndexedTokens, indexed, IsFor};

use crate::characters::add_character;
use bit_sets::ByteSet;
use byte_nfa::Builder;
use glob_syntax::{Class, Options, Token, is_prefix_alone};
use std::alloc::{AllocError, Global};

/// Returns the bytes that `?` and `*` match.
fn wild_bytes(options: Options) -> ByteSet
    ensures { IsSetOf (is_wild options) result }
{
    if options.literal_separator {
        ByteSet::everything().without(b'/')
    } else {
        ByteSet::everything()
    }
}

/// Returns the bytes that a byte of a literal matches.
fn letter_bytes(options: Options, byte: u8) -> ByteSet
    ensures { IsSetOf (is_letter options byte) result }
{
    if options.case_insensitive {
        ByteSet::only(byte.to_ascii_lowercase()).with(byte.to_ascii_uppercase())
    } else {
        ByteSet::only(byte)
    }
}

/// Returns the bytes that a class matches.
fn class_bytes(options: Options, class: &Class) -> ByteSet
    ensures { IsSetOf (class_has options class.now.negated class.now.ranges) result }
{
    let mut table = [false; 256];
    for byte in 0..256usize {
        table[byte] = class.has(options, byte as u8);
    }
    ByteSet::from_table(&table)
}

/// Adds the states of the bytes of a literal.
fn add_text(
    builder: &mut Builder,
    options: Options,
    bytes: &[u8],
    exit: usize,
) -> Result<usize, AllocError>
    requires { exit < size builder.old }
    ensures within { IfOk result (λ s. s < size builder.new) }
    ensures count { OnOk result (size builder.new ≡ size builder.old + length bytes.now) }
    ensures grows { Grows builder.old builder.new }
    ensures builds { IfOk result
        (λ s. BuildsText options bytes.now builder.old.states builder.new.states s exit) }
{
    let mut at = exit;
    for i in 0..bytes.len() {
        at = builder.push_bytes(letter_bytes(options, bytes[bytes.len() - 1 - i]), at)?;
    }
    Ok(at)
}

/// Adds the states of a `?`.
fn add_any(builder: &mut Builder, options: Options, exit: usize) -> Result<usize, AllocError>
    requires { exit < size builder.old }
    ensures within { IfOk result (λ s. s < size builder.new) }
    ensures count { OnOk result (size builder.new ≡ size builder.old + any_weight options) }
    ensures grows { Grows builder.old builder.new }
    ensures builds { IfOk result
        (λ s. BuildsToken options Any builder.old.states builder.new.states s exit) }
{
    if options.whole_character {
        add_character(builder, options, exit)
    } else {
        builder.push_bytes(wild_bytes(options), exit)
    }
}

/// Adds the states of a token that is no brace or comma, which lead to a state. Returns where they begin. A matching run begins
/// there, and is at the exit after it.
fn add_token(
    builder: &mut Builder,
    options: Options,
    token: &Token,
    exit: usize,
) -> Result<usize, AllocError>
    // The token is no brace or comma, and the exit exists.
    requires simple { IsSimple (flat_of token.now) }
    requires exit { exit < size builder.old }

    // On success the returned state exists, and the number of added states is at most the token's weight.
    ensures within { IfOk result (λ s. s < size builder.new) }
    ensures count { OnOk result
        (size builder.new ≤ size builder.old + flat_weight options (flat_of token.now)) }

    // Nothing but states is added. From the returned state on they are the states of the token, and lead to the exit.
    ensures grows { Grows builder.old builder.new }
    ensures builds { IfOk result
        (λ s. BuildsFlat options (flat_of token.now) builder.old.states builder.new.states s exit) }
{
    match token {
        Token::Literal(c) => {
            let mut buffer = [0u8; 4];
            let text = c.encode_utf8(&mut buffer);
            add_text(builder, options, text.as_bytes(), exit)
        }
        Token::Any => add_any(builder, options, exit),
        Token::ZeroOrMore => builder.push_loop(wild_bytes(options), exit),
        Token::RecursivePrefix => builder.push_up_to(b'/', exit),
        Token::RecursiveSuffix => {
            let rest = builder.push_loop(ByteSet::everything(), exit)?;
            builder.push_bytes(ByteSet::only(b'/'), rest)
        }
        Token::RecursiveZeroOrMore => {
            let rest = builder.push_up_to(b'/', exit)?;
            builder.push_bytes(ByteSet::only(b'/'), rest)
        }
        Token::Class(class) => builder.push_bytes(class_bytes(options, class), exit),
        Token::Open | Token::Comma | Token::Close => unreachable!(),
    }
}

/// An open group, or the whole glob: the branch that is being built, and the group's later branches.
#[derive(Drop)]
struct Frame {
    /// Where the branch begins so far.
    start: usize,
    /// Whether the branch is blank so far.
    blank: bool,
    /// Where the branches lead to.
    exit: usize,
    /// Where the later branches that are kept begin, the last first.
    starts: Vec<usize>,
    /// Whether the later branches are all blank.
    rest_blank: bool,
}

impl Frame {
    ghost use Rattle.glob_strategy.specs.inner.Frames.{fresh, led, ended, frame_of, targets_of};

    /// Returns a group with nothing built.
    fn new(alloc: Global, exit: usize) -> Frame
        ensures { frame_of result ≡ fresh exit }
    {
        Frame {
            start: exit,
            blank: true,
            exit,
            starts: Vec::new(alloc),
            rest_blank: true,
        }
    }

    /// Returns the frame with one more token of the branch.
    fn lead(self, start: usize, blank: bool) -> Frame
        ensures { frame_of result ≡ led start blank (frame_of self) }
    {
        Frame {
            start,
            blank: both(blank, self.blank),
            exit: self.exit,
            starts: self.starts,
            rest_blank: self.rest_blank,
        }
    }

    /// Returns the frame after the end of a branch.
    fn end_branch(self, options: Options) -> Result<Frame, AllocError>
        ensures { IfOk result (λ new. frame_of new ≡ ended options (frame_of self)) }
    {
        let mut starts = self.starts;
        if keeps_branch(options, self.blank) {
            starts.push(self.start)?;
        }
        Ok(Frame {
            start: self.exit,
            blank: true,
            exit: self.exit,
            starts,
            rest_blank: both(self.blank, self.rest_blank),
        })
    }

    /// Returns what the group skips to: its kept branches, or its exit if it has none.
    fn targets(self) -> Result<Vec<usize>, AllocError>
        ensures { IfOk result
            (λ targets. targets.items ≡ targets_of (frame_of self).starts self.exit) }
    {
        let mut targets = self.starts;
        if targets.is_empty() {
            targets.push(self.exit)?;
        } else {
            targets.reverse();
        }
        Ok(targets)
    }
}

fn both(a: bool, b: bool) -> bool
    ensures { result ≡ (a && b) }
{
    a && b
}

/// Returns whether a branch is kept.
fn keeps_branch(options: Options, blank: bool) -> bool
    ensures { result ≡ (options.empty_alternates || not blank) }
{
    options.empty_alternates || !blank
}

/// Adds the states of tokens, which lead to a state. Returns where they begin.
fn add_sequence(
    alloc: Global,
    builder: &mut Builder,
    options: Options,
    tokens: &[Token],
    exit: usize,
) -> Result<usize, AllocError>
    // Each group of the tokens is closed, each comma is in a group, and the exit exists.
    requires nested { IsNested (flats tokens.now) }
    requires exit { exit < size builder.old }

    // On success the returned state exists, and the number of added states is at most the tokens' weight.
    ensures within { IfOk result (λ s. s < size builder.new) }
    ensures count { OnOk result
        (size builder.new ≤ size builder.old + weight options (tokens_of tokens.now)) }

    // Nothing but states is added. From the returned state on they are the states of the tokens, and lead to the exit.
    ensures grows { Grows builder.old builder.new }
    ensures builds { IfOk result
        (λ s. Builds options (tokens_of tokens.now) builder.old.states builder.new.states s exit) }
{
    let mut frame = Frame::new(alloc, exit);
    let mut around = Vec::new(alloc);
    for i in 0..tokens.len() {
        let token = &tokens[tokens.len() - 1 - i];
        match token {
            Token::Close => {
                let inner = Frame::new(alloc, frame.start);
                around.push(frame)?;
                frame = inner;
            }
            Token::Comma => {
                frame = frame.end_branch(options)?;
            }
            Token::Open => {
                let group = frame.end_branch(options)?;
                let blank = group.rest_blank;
                let targets = group.targets()?;
                let start = builder.push_union(&targets)?;
                let Some(outer) = around.pop() else {
                    unreachable!()
                };
                frame = outer.lead(start, blank);
            }
            _ => {
                let start = add_token(builder, options, token, frame.start)?;
                frame = frame.lead(start, false);
            }
        }
    }
    Ok(frame.start)
}

/// Returns a builder of an automaton that no tokens were added to. The indexes of those that are added have to be below
/// `index_count`. It allocates nothing.
pub fn new_builder(alloc: Global, index_count: usize) -> Builder
    ensures tokens { IsFor result [] }
    ensures index_count { result.index_count ≡ index_count }
    ensures size { size result ≡ 0 }
    ensures reads { max_reads result ≡ 0 }
{
    Builder::new(alloc, index_count)
}

/// Adds the states of the tokens, and returns the state where they begin.
fn add_whole(
    alloc: Global,
    builder: &mut Builder,
    options: Options,
    tokens: &[Token],
    index: usize,
) -> Result<usize, AllocError>
    // Each group of the tokens is closed, each comma is in a group, and the index is below the builder's `index_count`.
    requires nested { IsNested (flats tokens.now) }
    requires index { index < builder.old.index_count }

    // On success the returned state exists, and the number of added states is at most the tokens' weight and 1.
    ensures within { IfOk result (λ s. s < size builder.new) }
    ensures count { OnOk result
        (size builder.new ≤ size builder.old + (weight options (tokens_of tokens.now) + 1)) }

    // Nothing but states is added. From the returned state they accept the paths that the tokens match, for the index alone.
    ensures grows { Grows builder.old builder.new }
    ensures builds { IfOk result
        (λ s. BuildsWhole options (tokens_of tokens.now) index builder.old.states builder.new.states
        s) }
{
    let end = builder.push_match(index)?;
    if is_prefix_alone(tokens) {
        let every = builder.push_loop(ByteSet::everything(), end)?;
        Ok(every)
    } else {
        let start = add_sequence(alloc, builder, options, tokens, end)?;
        Ok(start)
    }
}

/// Adds tokens to an automaton that is being built, as the tokens of a whole glob. They get an index, which a run finds where
/// they match the path under the options.
///
/// It takes time and memory linear in the tokens. After an error the automaton is for the same tokens as before, although it may
/// have more states.
pub fn add_tokens(
    alloc: Global,
    builder: &mut Builder,
    options: Options,
    tokens: &[Token],
    index: usize,
) -> Result<(), AllocError>
    // Each group of the tokens is closed, each comma is in a group, and the index is below the builder's `index_count`.
    requires nested { IsNested (flats tokens.now) }
    requires index { index < builder.old.index_count }

    // Success adds the tokens to those that the automaton is for. After an error it is for the same tokens as before.
    ensures tokens { OnOk result
        ((xs : List IndexedTokens) → IsFor builder.old xs
        → IsFor builder.new (xs ++ indexed options (tokens_of tokens.now) index ∷ [])) }
    ensures kept { OnErr result
        ((xs : List IndexedTokens) → IsFor builder.old xs → IsFor builder.new xs) }

    // The number of indexes stays. On success the states grow by at most the tokens' weight and 1, and the most reads by 3 more.
    ensures index_count { builder.new.index_count ≡ builder.old.index_count }
    ensures size { OnOk result
        (size builder.new ≤ size builder.old + (weight options (tokens_of tokens.now) + 1)) }
    ensures reads { OnOk result
        (max_reads builder.new
        ≤ max_reads builder.old + (weight options (tokens_of tokens.now) + 4)) }
{
    let start = add_whole(alloc, builder, options, tokens, index)?;
    builder.add_start(start)?;
    Ok(())
}
