//! The states of a `?` that matches a whole character, by the rows of Table 3-7 of the Unicode Standard.
//!
//! Second, third and fourth bytes that may be the same are read by the same states, for every first byte: there are 16 states,
//! which a table of a row each would exceed.

ghost use Rattle.std.specs.Prelude.{◌≡◌, ◌+◌, ◌<◌, ◌∷◌, [], OnOk, IfOk};
ghost use Rattle.byte_nfa.specs.Runs.{size};
ghost use Rattle.glob_syntax.specs.Characters.{is_between};
ghost use Rattle.glob_syntax.specs.inner.CharacterRows.{continues, is_ascii_wild, begins_three};
ghost use Rattle.bit_sets.specs.Bytes.{IsSetOf};
ghost use Rattle.glob_strategy.specs.inner.Building.{BuildsRow, BuildsCharacter};
ghost use Rattle.byte_nfa.specs.Building.{Grows};

use bit_sets::ByteSet;
use byte_nfa::Builder;
use glob_syntax::Options;
use std::alloc::AllocError;

/// Returns whether a byte is in a range.
fn is_between(first: u8, last: u8, byte: u8) -> bool
    ensures { result ≡ is_between (first, last) byte }
{
    first <= byte && byte <= last
}

/// Returns the bytes of a range.
fn bytes_between(first: u8, last: u8) -> ByteSet
    ensures { IsSetOf (is_between (first, last)) result }
{
    let mut table = [false; 256];
    for byte in 0..256usize {
        table[byte] = is_between(first, last, byte as u8);
    }
    ByteSet::from_table(&table)
}

/// Returns the characters of one byte that `?` matches.
fn ascii_bytes(options: Options) -> ByteSet
    ensures { IsSetOf (is_ascii_wild options) result }
{
    if options.literal_separator {
        bytes_between(0x00, 0x7F).without(b'/')
    } else {
        bytes_between(0x00, 0x7F)
    }
}

/// The states that read the last bytes of a character, where these may be any: one byte, two and three.
#[derive(Clone, Copy)]
struct LastBytes {
    one: usize,
    two: usize,
    three: usize,
}

/// The states of the first bytes of characters of one length: of the lowest first byte and the highest, which want a second byte of
/// their own, and of those between.
#[derive(Clone, Copy)]
struct FirstBytes {
    low: usize,
    middle: usize,
    high: usize,
}

/// Adds the states that read the last byte of a character, the last two and the last three, where these may be any.
fn add_last_bytes(builder: &mut Builder, exit: usize) -> Result<LastBytes, AllocError>
    // The exit exists. On success the returned states exist, and three states were added.
    requires { exit < size builder.old }
    ensures within { IfOk result
        (λ r. (r.one < size builder.new) × (r.two < size builder.new)
        × (r.three < size builder.new)) }
    ensures count { OnOk result (size builder.new ≡ size builder.old + 3) }

    // Nothing but states is added. From the returned states, one, two and three last bytes of a character lead to the exit.
    ensures grows { Grows builder.old builder.new }
    ensures one { IfOk result
        (λ r. BuildsRow (continues ∷ []) builder.old.states builder.new.states r.one exit) }
    ensures two { IfOk result
        (λ r. BuildsRow (continues ∷ continues ∷ []) builder.old.states builder.new.states r.two
        exit) }
    ensures three { IfOk result
        (λ r. BuildsRow (continues ∷ continues ∷ continues ∷ []) builder.old.states
        builder.new.states r.three exit) }
{
    let bytes = bytes_between(0x80, 0xBF);
    let one = builder.push_bytes(bytes, exit)?;
    let two = builder.push_bytes(bytes, one)?;
    let three = builder.push_bytes(bytes, two)?;
    Ok(LastBytes { one, two, three })
}

/// Adds the states of a first byte that wants a second byte of its own.
fn add_first_two(
    builder: &mut Builder,
    first: u8,
    second: (u8, u8),
    next: usize,
) -> Result<usize, AllocError>
    requires { next < size builder.old }
    ensures within { IfOk result (λ s. s < size builder.new) }
    ensures count { OnOk result (size builder.new ≡ size builder.old + 2) }
    ensures grows { Grows builder.old builder.new }
    ensures builds { IfOk result
        (λ s. BuildsRow (is_between (first, first) ∷ is_between second ∷ []) builder.old.states
        builder.new.states s next) }
{
    let then = builder.push_bytes(bytes_between(second.0, second.1), next)?;
    builder.push_bytes(bytes_between(first, first), then)
}

/// Adds the states of the first bytes of characters of three bytes. `one` and `two` are the states of the last byte and of the
/// last two.
fn add_three_bytes(builder: &mut Builder, one: usize, two: usize) -> Result<FirstBytes, AllocError>
    // The states of the last bytes exist.
    requires one { one < size builder.old }
    requires two { two < size builder.old }

    // On success the returned states exist, and five states were added.
    ensures within { IfOk result
        (λ r. (r.low < size builder.new) × (r.middle < size builder.new)
        × (r.high < size builder.new)) }
    ensures count { OnOk result (size builder.new ≡ size builder.old + 5) }

    // Nothing but states is added. A first byte with second bytes of its own leads by these to `one`, and the others to `two`.
    ensures grows { Grows builder.old builder.new }
    ensures low { IfOk result
        (λ r. BuildsRow (is_between (0xE0, 0xE0) ∷ is_between (0xA0, 0xBF) ∷ []) builder.old.states
        builder.new.states r.low one) }
    ensures middle { IfOk result
        (λ r. BuildsRow (begins_three ∷ []) builder.old.states builder.new.states r.middle two) }
    ensures high { IfOk result
        (λ r. BuildsRow (is_between (0xED, 0xED) ∷ is_between (0x80, 0x9F) ∷ []) builder.old.states
        builder.new.states r.high one) }
{
    let low = add_first_two(builder, 0xE0, (0xA0, 0xBF), one)?;
    let high = add_first_two(builder, 0xED, (0x80, 0x9F), one)?;
    let middle = builder.push_bytes(bytes_between(0xE1, 0xEF).without(0xED), two)?;
    Ok(FirstBytes { low, middle, high })
}

/// Adds the states of the first bytes of characters of four bytes. `two` and `three` are the states of the last two bytes and
/// of the last three.
fn add_four_bytes(builder: &mut Builder, two: usize, three: usize) -> Result<FirstBytes, AllocError>
    // The states of the last bytes exist.
    requires two { two < size builder.old }
    requires three { three < size builder.old }

    // On success the returned states exist, and five states were added.
    ensures within { IfOk result
        (λ r. (r.low < size builder.new) × (r.middle < size builder.new)
        × (r.high < size builder.new)) }
    ensures count { OnOk result (size builder.new ≡ size builder.old + 5) }

    // Nothing but states is added. A first byte with second bytes of its own leads by these to `two`, and the others to `three`.
    ensures grows { Grows builder.old builder.new }
    ensures low { IfOk result
        (λ r. BuildsRow (is_between (0xF0, 0xF0) ∷ is_between (0x90, 0xBF) ∷ []) builder.old.states
        builder.new.states r.low two) }
    ensures middle { IfOk result
        (λ r. BuildsRow (is_between (0xF1, 0xF3) ∷ []) builder.old.states builder.new.states
        r.middle three) }
    ensures high { IfOk result
        (λ r. BuildsRow (is_between (0xF4, 0xF4) ∷ is_between (0x80, 0x8F) ∷ []) builder.old.states
        builder.new.states r.high two) }
{
    let low = add_first_two(builder, 0xF0, (0x90, 0xBF), two)?;
    let high = add_first_two(builder, 0xF4, (0x80, 0x8F), two)?;
    let middle = builder.push_bytes(bytes_between(0xF1, 0xF3), three)?;
    Ok(FirstBytes { low, middle, high })
}

/// Adds the states of a character, which lead to a state. Returns where they begin.
pub fn add_character(
    builder: &mut Builder,
    options: Options,
    exit: usize,
) -> Result<usize, AllocError>
    requires { exit < size builder.old }
    ensures within { IfOk result (λ s. s < size builder.new) }
    ensures count { OnOk result (size builder.new ≡ size builder.old + 16) }
    ensures grows { Grows builder.old builder.new }
    ensures builds { IfOk result
        (λ s. BuildsCharacter options builder.old.states builder.new.states s exit) }
{
    let last = add_last_bytes(builder, exit)?;
    let ascii = builder.push_bytes(ascii_bytes(options), exit)?;
    let pair = builder.push_bytes(bytes_between(0xC2, 0xDF), last.one)?;
    let three = add_three_bytes(builder, last.one, last.two)?;
    let four = add_four_bytes(builder, last.two, last.three)?;
    let start = builder.push_union(&[
        ascii,
        pair,
        three.low,
        three.middle,
        three.high,
        four.low,
        four.middle,
        four.high,
    ])?;
    Ok(start)
}
