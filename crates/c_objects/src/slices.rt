//! Slices for C: those that objects lend, those that are written into a caller's room, and the ends of many paths.

ghost use Rattle.std.specs.Prelude.{◌≡◌, ◌≢◌, ◌↔◌, [], ◌∷◌, IsTrue};
ghost use Rattle.c_objects.specs.Capacity.{IsWritten, IsTooLong};
ghost use Rattle.c_objects.specs.Paths.{AreEnds};
ghost use Rattle.c_objects.specs.Statuses.{IsOneOf};

use crate::status::{DONE, Status, TOO_SMALL};

/// Bytes that answers or a walk lend.
#[repr(C)]
pub struct Bytes<'a> {
    pub items: &'a [u8],
}

/// Indexes that a searcher or answers lend, or numbers of lines that answers or a walk lend.
#[repr(C)]
pub struct Indexes<'a> {
    pub items: &'a [usize],
}

/// Writes a text or indexes to the beginning of the room, if they are not too long, and says how long they are.
pub fn write<T: Copy>(items: &[T], room: &mut [T], needed: &mut usize) -> Status
    ensures done { result ≡ DONE → IsWritten items.now room.old room.new needed.new }
    ensures too_small { result ≡ TOO_SMALL → IsTooLong items.now room.old room.new needed.new }
    ensures refused { result ≢ DONE → room.new ≡ room.old }
    ensures same_needed { result ≢ DONE → result ≢ TOO_SMALL → needed.new ≡ needed.old }
    ensures statuses { IsOneOf (DONE ∷ TOO_SMALL ∷ []) result }
{
    let len = items.len();
    *needed = len;
    if room.len() < len {
        return TOO_SMALL;
    }
    room[..len].copy_from_slice(items);
    DONE
}

/// Returns whether these are ends of paths in `len` bytes.
#[tactic(auto, using(crate::proofs::lemmas::Ends::ends_join, crate::proofs::lemmas::Ends::ends_part, crate::proofs::lemmas::Ends::no_ends_left))]
pub fn are_ends(len: usize, ends: &[usize]) -> bool
    ensures { IsTrue result ↔ AreEnds len 0 ends.now }
{
    let mut start = 0;
    let mut rest = ends;
    'each: while let Some((end, tail)) = rest.split_first() {
        if start > *end || *end > len {
            return false;
        }
        start = *end;
        rest = tail;
    }
    true
}
