//! Bytes that are read alike.

ghost use Rattle.std.specs.Prelude.{◌↔◌, IsTrue, IfOk};
ghost use Rattle.byte_nfa.specs.Steps.{NfaValue};
ghost use Rattle.glob_relations.specs.inner.Rows.{AreAlike, AreBoundaries, AreRepresentatives, BeginsClass};

use bit_sets::ByteSet;
use byte_nfa::Nfa;
use std::alloc::{AllocError, Global};

/// Returns a byte of each class of bytes that all states of an automaton, and the places of domains, read alike.
///
/// A class is a range of bytes. Classes with letters, digits or `/` come first, each by the lowest of these bytes. The others
/// follow, each by its lowest byte.
pub fn representatives(alloc: Global, automaton: &Nfa) -> Result<Vec<u8>, AllocError>
    ensures { IfOk result (λ bytes. AreRepresentatives automaton.now bytes.items) }
{
    let boundaries = boundaries_of(automaton);
    let mut bytes = Vec::new(alloc);
    let mut others = Vec::new(alloc);
    for i in 0..256usize {
        let first = i as u8;
        if begins_class(&boundaries, first) {
            let byte = representative(&boundaries, first);
            if is_preferred(byte) {
                bytes.push(byte)?;
            } else {
                others.push(byte)?;
            }
        }
    }
    bytes.extend_from_slice(&others)?;
    Ok(bytes)
}

/// Returns the set of the bytes that are not read like the byte after them.
fn boundaries_of(automaton: &Nfa) -> ByteSet
    ensures { AreBoundaries automaton.now result }
{
    automaton
        .class_boundaries()
        .with(0)
        .with(b'.' - 1)
        .with(b'.')
        .with(b'/')
}

/// Returns whether a byte is the first of its class.
fn begins_class(boundaries: &ByteSet, byte: u8) -> bool
    ensures { IsTrue result ↔ BeginsClass boundaries.now byte }
{
    byte == 0 || boundaries.has(byte - 1)
}

/// Returns the first preferred byte of the class that begins with a byte, or that byte if there is none.
fn representative(boundaries: &ByteSet, first: u8) -> u8
    ensures { (m : NfaValue) → AreBoundaries m boundaries.now → AreAlike m result first }
{
    let mut byte = first;
    while !is_preferred(byte) {
        if byte == 255 || boundaries.has(byte) {
            return first;
        }
        byte += 1;
    }
    byte
}

/// Returns whether a byte is a letter, a digit or `/`.
fn is_preferred(byte: u8) -> bool {
    byte.is_ascii_alphanumeric() || byte == b'/'
}
