//! Character classes.

ghost use Rattle.std.specs.Prelude.{◌≡◌, ◌≤◌, ◌==◌, ◌&&◌, not, zero, true, None, IfOk, IfSome, drop, length};
ghost use Rattle.std.specs.List.{list_any, position};
ghost use Rattle.std.specs.Option.{option_map};
ghost use Rattle.ignore_pattern.specs.Classes.{compared, item_has, class_matches, class_items};

use crate::item::{Item, item_at};
use std::alloc::{AllocError, Global};

/// Returns whether the byte closes a class.
fn closes(first: bool, c: u8) -> bool
    ensures { result ≡ (c == 93 && not first) }
{
    c == b']' && !first
}

/// Returns the items of a class that begins with `cs`, after its `[` and its negation, and its number of bytes with its `]`.
/// `None` if it cannot be read.
pub fn class_items(alloc: Global, cs: &[u8]) -> Result<Option<(Vec<Item>, usize)>, AllocError>
    ensures value { IfOk result
        (λ r. option_map (λ class. (class.0.items, class.1)) r
        ≡ class_items zero true None cs.now) }
    ensures within { IfOk result (λ r. IfSome r (λ class. class.1 ≤ length cs.now)) }
{
    let mut items = Vec::new(alloc);
    let mut first = true;
    let mut last = None;
    let mut rest = cs;
    let mut closer = first_closer(cs);
    while let [c, after @ ..] = rest {
        if closes(first, *c) {
            return Ok(Some((items, cs.len() - after.len())));
        }
        closer = closer_after(closer, 1, rest);
        match item_at(last, *c, after, closer) {
            None => return Ok(None),
            Some(found) => {
                items.push(found.item)?;
                first = false;
                last = found.last;
                closer = closer_after(closer, found.more, after);
                rest = after.split_at(found.more).1;
            }
        }
    }
    Ok(None)
}

/// Returns where the first `]` is.
fn first_closer(cs: &[u8]) -> Option<usize>
    ensures { result ≡ position (λ d. d == 93) cs.now }
{
    cs.iter().position(|c| *c == b']')
}

/// Returns where the first `]` is after the first `count` bytes. `closer` is where the first of all is, so this searches only if
/// that is among those bytes.
fn closer_after(closer: Option<usize>, count: usize, cs: &[u8]) -> Option<usize>
    requires known { closer ≡ position (λ d. d == 93) cs.now }
    requires within { count ≤ length cs.now }
    ensures { result ≡ position (λ d. d == 93) (drop count cs.now) }
{
    match closer {
        None => None,
        Some(at) if at >= count => Some(at - count),
        Some(_) => first_closer(cs.split_at(count).1),
    }
}

/// Returns the byte as it is compared: an ASCII letter in lower case, if case is ignored.
fn compared(ignore_case: bool, byte: u8) -> u8
    ensures { result ≡ compared ignore_case byte }
{
    if ignore_case {
        byte.to_ascii_lowercase()
    } else {
        byte
    }
}

/// Returns whether some item has the byte of a path.
fn some_item_has(ignore_case: bool, items: &[Item], byte: u8) -> bool
    ensures { result ≡ list_any (item_has ignore_case (compared ignore_case byte)) items.now }
{
    let byte = compared(ignore_case, byte);
    items.iter().any(|item| item.has(ignore_case, byte))
}

/// Returns whether a class matches the byte of a path.
#[tactic(auto, unfolding(crate::specs::Classes::class_matches))]
pub fn class_matches(ignore_case: bool, negated: bool, items: &[Item], byte: u8) -> bool
    ensures { result ≡ class_matches ignore_case negated items.now byte }
{
    byte != b'/' && negated != some_item_has(ignore_case, items, byte)
}
