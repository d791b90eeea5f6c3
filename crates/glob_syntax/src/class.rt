//! Character classes: the ranges of a body, and the table of the bytes that they contain.

ghost use Rattle.std.specs.Prelude.{◌≡◌, IfOk, ◌==◌, ◌&&◌, nat_le};
ghost use Rattle.glob_syntax.specs.Ranges.{ranges, bad_range};
ghost use Rattle.glob_syntax.specs.ClassBytes.{range_has, is_one_of, is_from_last};
ghost use Rattle.glob_syntax.specs.inner.ClassTable.{IsTableOf, Puts, other_case, with_other_case};

use crate::options::Options;
use crate::parse_error_kind::ParseErrorKind;
use std::alloc::{AllocError, Global};
use std::marker::Model;

/// Returns the error of the first bad range of a class's body, if there is any.
#[tactic(auto, unfolding(crate::specs::Ranges::bad_range))]
pub fn bad_range(body: &[char]) -> Option<ParseErrorKind>
    ensures { result ≡ bad_range body.now }
{
    let [first, rest @ ..] = body else {
        return None;
    };
    let mut start = *first;
    let mut rest = rest;
    loop {
        match rest {
            ['-', x, after @ ..] => {
                if *x < start {
                    return Some(ParseErrorKind::InvalidRange(start, *x));
                }
                rest = after;
            }
            [d, after @ ..] => {
                start = *d;
                rest = after;
            }
            [] => return None,
        }
    }
}

/// Returns the ranges of a class's body.
#[tactic(auto, unfolding(crate::specs::Ranges::ranges))]
pub fn ranges(alloc: Global, body: &[char]) -> Result<Vec<(char, char)>, AllocError>
    ensures { IfOk result (λ v. v.items ≡ ranges body.now) }
{
    let mut out = Vec::with_capacity(alloc, body.len())?;
    let [first, rest @ ..] = body else {
        return Ok(out);
    };
    let mut start = *first;
    let mut last = *first;
    let mut rest = rest;
    loop {
        match rest {
            ['-', x, after @ ..] => {
                last = *x;
                rest = after;
            }
            ['-'] => {
                out.push((start, last))?;
                out.push(('-', '-'))?;
                return Ok(out);
            }
            [c, after @ ..] => {
                out.push((start, last))?;
                start = *c;
                last = *c;
                rest = after;
            }
            [] => {
                out.push((start, last))?;
                return Ok(out);
            }
        }
    }
}

/// The membership of a byte in the ranges of a class.
#[derive(Clone, Copy)]
enum Membership {
    /// Not at all.
    Absent,
    /// As the other case of an ASCII letter that they contain.
    OtherCase,
    /// As the byte itself.
    Present,
}

/// A character class.
///
/// Contracts see whether it is negated, and its ranges in order. Its table of bytes is made once, when the class is read,
/// and works under all options.
#[derive(Drop)]
pub struct Class {
    parts: Box<Parts>,
}

/// The parts of a class. They are large, and on the heap, since most tokens are no classes.
#[derive(Drop)]
struct Parts {
    negated: bool,
    ranges: Vec<(char, char)>,
    /// The membership of each byte.
    table: [Membership; 256],
}

impl Model for Class {
    ghost use Rattle.glob_syntax.specs.ClassValue.{ClassValue};
    ghost use Rattle.glob_syntax.specs.inner.ClassTable.{IsTableOf};

    ghost Value = { ClassValue };

    ghost view = { λ c. record { negated = c.parts.value.negated; ranges = c.parts.value.ranges.items } };

    ghost invariant = { λ c. IsTableOf c.parts.value.ranges.items c.parts.value.table };
}

impl Class {
    ghost use Rattle.glob_syntax.specs.ClassBytes.{class_has};

    /// Returns the class of these ranges. This takes a step for each byte that a range contains, and memory for a table of 256
    /// entries.
    pub fn new(alloc: Global, negated: bool, ranges: Vec<(char, char)>) -> Result<Class, AllocError>
        ensures { IfOk result (λ c. c ≡ record { negated = negated; ranges = ranges.items }) }
    {
        let table = table_of(&ranges);
        let parts = Box::new(
            alloc,
            Parts {
                negated,
                ranges,
                table,
            },
        )?;
        Ok(Class { parts })
    }

    /// Returns whether the class contains a byte under these options. This reads an entry of its table.
    pub fn has(&self, options: Options, byte: u8) -> bool
        ensures { result ≡ class_has options self.now.negated self.now.ranges byte }
    {
        let contained = match self.parts.table[byte as usize] {
            Membership::Present => true,
            Membership::OtherCase => options.case_insensitive,
            Membership::Absent => false,
        };
        contained != self.parts.negated
    }

    /// Returns whether the class is negated.
    pub fn negated(&self) -> bool
        ensures { result ≡ self.now.negated }
    {
        self.parts.negated
    }

    /// Returns the ranges of the class, in order, each with its first and last character.
    pub fn ranges(&self) -> &[(char, char)]
        ensures { result.now ≡ self.now.ranges }
    {
        &self.parts.ranges
    }

    /// Returns an equal class with memory of its own.
    pub fn clone(&self, alloc: Global) -> Result<Class, AllocError>
        ensures { IfOk result (λ c. c ≡ self.now) }
    {
        let ranges = Vec::from_slice(alloc, &self.parts.ranges)?;
        let parts = Box::new(
            alloc,
            Parts {
                negated: self.parts.negated,
                ranges,
                table: self.parts.table,
            },
        )?;
        Ok(Class { parts })
    }
}

/// Returns for each byte how the ranges contain it.
///
/// The table is filled range by range, so a range takes as many steps as it contains bytes.
fn table_of(ranges: &[(char, char)]) -> [Membership; 256]
    ensures { IsTableOf ranges.now result }
{
    let mut table = [Membership::Absent; 256];
    for range in ranges {
        put_range(&mut table, *range);
    }
    table
}

/// Puts the bytes of a range into the table.
fn put_range(table: &mut [Membership; 256], range: (char, char))
    ensures { Puts (range_has range) table.old table.new }
{
    let (low, high) = range;
    let mut low_buffer = [0u8; 4];
    let first = low.encode_utf8(&mut low_buffer).as_bytes();
    if low == high {
        put_all(table, first);
        return;
    }
    let mut high_buffer = [0u8; 4];
    if let [upper, others @ ..] = high.encode_utf8(&mut high_buffer).as_bytes() {
        put_from_last(table, first, *upper);
        put_all(table, others);
    }
}

/// Puts each of these bytes into the table.
fn put_all(table: &mut [Membership; 256], bytes: &[u8])
    ensures { Puts (λ b. is_one_of b bytes.now) table.old table.new }
{
    for byte in bytes {
        put(table, *byte);
    }
}

/// Puts these bytes except the last into the table, and the bytes from the last up to `upper`.
fn put_from_last(table: &mut [Membership; 256], bytes: &[u8], upper: u8)
    ensures { Puts (λ b. is_from_last b bytes.now upper) table.old table.new }
{
    if let [before @ .., last] = bytes {
        put_all(table, before);
        put_span(table, *last, upper);
    }
}

/// Puts the bytes from `low` up to `high` into the table.
fn put_span(table: &mut [Membership; 256], low: u8, high: u8)
    ensures { Puts (λ b. nat_le low b && nat_le b high) table.old table.new }
{
    for byte in low..=high {
        put(table, byte);
    }
}

/// Puts a byte into the table, and the other case of an ASCII letter where the table has nothing yet.
fn put(table: &mut [Membership; 256], byte: u8)
    ensures { Puts (λ b. b == byte) table.old table.new }
{
    let other = other_case(byte) as usize;
    table[other] = with_other_case(table[other]);
    table[byte as usize] = Membership::Present;
}

/// Returns the other case of an ASCII letter, and any other byte as it is.
fn other_case(byte: u8) -> u8
    ensures { result ≡ other_case byte }
{
    let lower = byte.to_ascii_lowercase();
    if byte == lower {
        byte.to_ascii_uppercase()
    } else {
        lower
    }
}

/// Returns how a byte is contained after its other case was put.
fn with_other_case(membership: Membership) -> Membership
    ensures { result ≡ with_other_case membership }
{
    match membership {
        Membership::Absent => Membership::OtherCase,
        _ => membership,
    }
}
