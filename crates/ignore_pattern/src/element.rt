//! Elements of a pattern, and how each is read.

ghost use Rattle.std.specs.Prelude.{◌≡◌, ◌≤◌, ◌<◌, ◌+◌, ◌^◌, ◌==◌, zero, IfOk, IfSome, length};
ghost use Rattle.std.specs.List.{prefix_len};
ghost use Rattle.std.specs.Option.{option_map};
ghost use Rattle.ignore_pattern.specs.Elements.{crossing_at, run_at, class_after, class_at, escaped_at, element_at, elements};
ghost use Rattle.ignore_pattern.specs.declared.place.Place.TheVariants.{Start};
ghost use Rattle.ignore_pattern.specs.inner.Views.{elements_of, at_of};

use crate::class::class_items;
use crate::item::Item;
use crate::place::Place;
use std::alloc::{AllocError, Global};

/// A part of a pattern.
#[derive(Debug, Drop)]
pub enum Element {
    /// A byte that stands for itself.
    Literal(u8),
    /// A byte after a `\`.
    Escaped(u8),
    /// `?`
    Any,
    /// A run of `*`.
    Star,
    /// `**/` where the stars stand for folders.
    Folders,
    /// `**` where the stars stand for everything.
    Everything,
    /// `[..]`: whether it is negated, and its items.
    Class(bool, Vec<Item>),
}

/// The element at a position of a pattern.
#[derive(Drop)]
pub struct ElementAt {
    pub element: Element,
    /// The number of bytes that belong to the element after its first.
    pub more: usize,
    /// The place of the byte after it.
    pub place: Place,
}

/// Returns the element at a run of stars that can stand for folders: a first star, `more` others, at least one, and then `rest`.
fn crossing_at(more: usize, rest: &[u8]) -> ElementAt
    requires { more + length rest.now < 2 ^ 64 }
    ensures value { at_of result ≡ crossing_at more rest.now }
    ensures within { result.more ≤ more + length rest.now }
{
    match rest {
        [] | [b'\\', b'/', ..] => ElementAt {
            element: Element::Everything,
            more,
            place: Place::Elsewhere,
        },
        [b'/', ..] => ElementAt {
            element: Element::Folders,
            more: more + 1,
            place: Place::AfterSlash,
        },
        _ => ElementAt {
            element: Element::Star,
            more,
            place: Place::Elsewhere,
        },
    }
}

/// Returns the element at a run of stars: a first star, `more` others, and then `rest`.
fn run_at(crosses: bool, more: usize, rest: &[u8]) -> ElementAt
    requires { more + length rest.now < 2 ^ 64 }
    ensures value { at_of result ≡ run_at crosses more rest.now }
    ensures within { result.more ≤ more + length rest.now }
{
    if crosses && more > 0 {
        crossing_at(more, rest)
    } else {
        ElementAt {
            element: Element::Star,
            more,
            place: Place::Elsewhere,
        }
    }
}

/// Returns how many stars are at the front.
fn count_stars(rest: &[u8]) -> usize
    ensures value { result ≡ prefix_len (λ d. d == 42) rest.now }
    ensures within { result ≤ length rest.now }
{
    rest.iter().take_while(|c| **c == b'*').count()
}

/// Returns the class after a `[` and `skipped` bytes of negation, before `cs`.
fn class_after(
    alloc: Global,
    skipped: usize,
    negated: bool,
    cs: &[u8],
) -> Result<Option<ElementAt>, AllocError>
    requires { skipped + length cs.now < 2 ^ 64 }
    ensures value { IfOk result (λ r. option_map at_of r ≡ class_after skipped negated cs.now) }
    ensures within { IfOk result (λ r. IfSome r (λ e. e.more ≤ skipped + length cs.now)) }
{
    match class_items(alloc, cs)? {
        None => Ok(None),
        Some((items, count)) => Ok(Some(ElementAt {
            element: Element::Class(negated, items),
            more: skipped + count,
            place: Place::Elsewhere,
        })),
    }
}

/// Returns the class after a `[`, before `cs`.
fn class_at(alloc: Global, cs: &[u8]) -> Result<Option<ElementAt>, AllocError>
    ensures value { IfOk result (λ r. option_map at_of r ≡ class_at cs.now) }
    ensures within { IfOk result (λ r. IfSome r (λ e. e.more ≤ length cs.now)) }
{
    match cs {
        [] => Ok(None),
        [b'!' | b'^', after @ ..] => class_after(alloc, 1, true, after),
        _ => class_after(alloc, 0, false, cs),
    }
}

/// Returns the element after a `\`, before `cs`.
fn escaped_at(cs: &[u8]) -> Option<ElementAt>
    ensures value { option_map at_of result ≡ escaped_at cs.now }
    ensures within { IfSome result (λ e. e.more ≤ length cs.now) }
{
    match cs {
        [] => None,
        [c, ..] => Some(ElementAt {
            element: Element::Escaped(*c),
            more: 1,
            place: Place::after_escaped(*c),
        }),
    }
}

/// Returns the element at `c`, before `cs`; `None` if it cannot be read. `whole` says whether the pattern is matched against
/// whole paths.
#[tactic(auto, unfolding(crate::specs::Elements::element_at))]
fn element_at(
    alloc: Global,
    whole: bool,
    place: Place,
    c: u8,
    cs: &[u8],
) -> Result<Option<ElementAt>, AllocError>
    ensures value { IfOk result (λ r. option_map at_of r ≡ element_at whole place c cs.now) }
    ensures within { IfOk result (λ r. IfSome r (λ e. e.more ≤ length cs.now)) }
{
    match c {
        b'\\' => Ok(escaped_at(cs)),
        b'?' => Ok(Some(ElementAt {
            element: Element::Any,
            more: 0,
            place: Place::Elsewhere,
        })),
        b'*' => {
            let more = count_stars(cs);
            Ok(Some(run_at(whole && place.may_cross(), more, cs.split_at(more).1)))
        }
        b'[' => class_at(alloc, cs),
        _ => Ok(Some(ElementAt {
            element: Element::Literal(c),
            more: 0,
            place: place.after(c),
        })),
    }
}

/// Returns the elements of these bytes; `None` if an escape or a class cannot be read.
pub fn read_elements(
    alloc: Global,
    whole: bool,
    bytes: &[u8],
) -> Result<Option<Vec<Element>>, AllocError>
    ensures { IfOk result
        (λ r. option_map (λ v. elements_of v.items) r ≡ elements whole Start zero bytes.now) }
{
    let mut elements = Vec::new(alloc);
    let mut place = Place::Start;
    let mut rest = bytes;
    while let [byte, after @ ..] = rest {
        match element_at(alloc, whole, place, *byte, after)? {
            None => return Ok(None),
            Some(found) => {
                elements.push(found.element)?;
                place = found.place;
                rest = after.split_at(found.more).1;
            }
        }
    }
    Ok(Some(elements))
}
