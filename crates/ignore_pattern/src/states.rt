//! The states of elements, from the last element to the first.

ghost use Rattle.std.specs.Prelude.{◌<◌, ◌==◌, IfOk};
ghost use Rattle.byte_nfa.specs.Runs.{size};
ghost use Rattle.ignore_pattern.specs.Classes.{compared, class_matches};
ghost use Rattle.ignore_pattern.specs.Elements.{is_inner, element_matches, elements_match};
ghost use Rattle.ignore_pattern.specs.inner.States.{BuildsBelow};
ghost use Rattle.byte_nfa.specs.Building.{Grows};
ghost use Rattle.byte_nfa.specs.Leading.{Builds};
ghost use Rattle.bit_sets.specs.Bytes.{IsSetOf};
ghost use Rattle.ignore_pattern.specs.inner.Views.{element_of, elements_of};

use crate::class::class_matches;
use crate::element::Element;
use crate::item::Item;
use bit_sets::ByteSet;
use byte_nfa::Builder;
use std::alloc::AllocError;

/// Returns the bytes that a byte matches that stands for itself.
fn literal_bytes(ignore_case: bool, byte: u8) -> ByteSet
    ensures { IsSetOf (λ b. compared ignore_case b == compared ignore_case byte) result }
{
    if ignore_case {
        ByteSet::only(byte.to_ascii_lowercase()).with(byte.to_ascii_uppercase())
    } else {
        ByteSet::only(byte)
    }
}

/// Returns the bytes that a byte after a `\` matches. If case is ignored, git compares it with bytes in lower case, so an upper
/// case letter matches nothing.
fn escaped_bytes(ignore_case: bool, byte: u8) -> ByteSet
    ensures { IsSetOf (λ b. compared ignore_case b == byte) result }
{
    if ignore_case && byte.is_ascii_uppercase() {
        ByteSet::nothing()
    } else {
        literal_bytes(ignore_case, byte)
    }
}

/// Returns the bytes but `/`.
fn inner_bytes() -> ByteSet
    ensures { IsSetOf is_inner result }
{
    ByteSet::everything().without(b'/')
}

/// Returns the bytes that a class matches.
fn class_bytes(ignore_case: bool, negated: bool, items: &[Item]) -> ByteSet
    ensures { IsSetOf (class_matches ignore_case negated items.now) result }
{
    let mut table = [false; 256];
    for byte in 0..256usize {
        table[byte] = class_matches(ignore_case, negated, items, byte as u8);
    }
    ByteSet::from_table(&table)
}

/// Pushes the states of `/` and whatever follows, which lead to an end that names an index. Returns where they begin.
pub fn push_below(builder: &mut Builder, index: usize) -> Result<usize, AllocError>
    requires { index < builder.old.index_count }
    ensures within { IfOk result (λ s. s < size builder.new) }
    ensures grows { Grows builder.old builder.new }
    ensures builds { IfOk result (λ s. BuildsBelow index builder.old.states builder.new.states s) }
{
    let end = builder.push_match(index)?;
    let stay = builder.push_loop(ByteSet::everything(), end)?;
    builder.push_bytes(ByteSet::only(b'/'), stay)
}

/// Pushes the states of an element, which lead to a state. Returns where they begin.
fn push_element(
    builder: &mut Builder,
    ignore_case: bool,
    element: &Element,
    exit: usize,
) -> Result<usize, AllocError>
    requires { exit < size builder.old }
    ensures within { IfOk result (λ s. s < size builder.new) }
    ensures grows { Grows builder.old builder.new }
    ensures builds { IfOk result
        (λ s. Builds (element_matches ignore_case (element_of element.now)) builder.old.states
        builder.new.states s exit) }
{
    match element {
        Element::Literal(byte) => builder.push_bytes(literal_bytes(ignore_case, *byte), exit),
        Element::Escaped(byte) => builder.push_bytes(escaped_bytes(ignore_case, *byte), exit),
        Element::Any => builder.push_bytes(inner_bytes(), exit),
        Element::Star => builder.push_loop(inner_bytes(), exit),
        Element::Folders => builder.push_up_to(b'/', exit),
        Element::Everything => builder.push_loop(ByteSet::everything(), exit),
        Element::Class(negated, items) => {
            builder.push_bytes(class_bytes(ignore_case, *negated, items), exit)
        }
    }
}

/// Pushes the states of elements, which lead to a state. Returns where they begin.
pub fn push_elements(
    builder: &mut Builder,
    ignore_case: bool,
    elements: &[Element],
    exit: usize,
) -> Result<usize, AllocError>
    requires { exit < size builder.old }
    ensures within { IfOk result (λ s. s < size builder.new) }
    ensures grows { Grows builder.old builder.new }
    ensures builds { IfOk result
        (λ s. Builds (elements_match ignore_case (elements_of elements.now)) builder.old.states
        builder.new.states s exit) }
{
    let mut at = exit;
    for i in 0..elements.len() {
        at = push_element(builder, ignore_case, &elements[elements.len() - 1 - i], at)?;
    }
    Ok(at)
}
