//! Lists of numbers in memory of fixed size, and the sets that they are made of.

ghost use Rattle.std.specs.Prelude.{◌≡◌, ℕ, ◌+◌, ◌<◌, ◌≤◌, ◌↔◌, ◌||◌, ◌++◌, ◌∷◌, [], length, replicate, vec_capacity, IsTrue};
ghost use Rattle.std.specs.List.Sorted.{IsStrictlyIncreasing};
ghost use Rattle.bit_sets.specs.Indexes.{has_index, AreFound};
ghost use Rattle.bit_sets.specs.Numbers.{has_number, AreBelow};
ghost use Rattle.bit_sets.specs.StateSets.{has_state, state_capacity};
ghost use Rattle.lazy_dfa.specs.inner.Hashes.{list_hash};

use bit_sets::{IndexSet, StateSet, Visits};
use std::hash::{FoldHasher, Hasher};

/// Makes `list` the list of the states below a bound that a set has. It allocates nothing if there is room for `limit` states,
/// and is at most `limit` visits.
pub fn list_of(set: &StateSet, limit: usize, list: &mut Vec<u32>, visits: &mut Visits)
    // The states below the limit fit a `u32` and the set, and the list has room for all of them.
    requires fits { limit ≤ 4294967296 }
    requires within { limit ≤ state_capacity set.now }
    requires room { limit ≤ vec_capacity list.old }

    // The list has exactly the states of the set below the limit. It is no longer than the limit, and loses no room.
    ensures below { AreBelow limit list.new.items }
    ensures few { length list.new.items ≤ limit }
    ensures has { (t : ℕ)
        → IsTrue (has_number t list.new.items) ↔ ((t < limit) × IsTrue (has_state set.now t)) }
    ensures capacity { vec_capacity list.old ≤ vec_capacity list.new }

    // The visits are bounded, and do not become fewer.
    ensures visits { visits.new ≤ visits.old + limit }
    ensures counted { visits.old ≤ visits.new }
{
    list.clear();
    let mut high = limit;
    while let Some(s) = set.last_below(high, visits) {
        push_within(list, s);
        high = s;
    }
}

/// Makes `list` the list of the indexes below a bound that a set has, if there is room for them. Returns whether there is. It
/// allocates nothing.
pub fn list_indexes(set: &IndexSet, limit: usize, list: &mut Vec<u32>) -> bool
    // The indexes below the limit fit a `u32`.
    requires fits { limit ≤ 4294967296 }

    // If there is room, the list has exactly the indexes of the set below the limit. It is no longer than the limit.
    ensures below { IsTrue result → AreBelow limit list.new.items }
    ensures few { length list.new.items ≤ limit }
    ensures has { IsTrue result → (k : ℕ)
        → IsTrue (has_number k list.new.items) ↔ ((k < limit) × IsTrue (has_index set.now k)) }
{
    list.clear();
    let mut at = 0;
    while let Some(index) = set.next_below(at, limit) {
        if list.len() == list.capacity() {
            return false;
        }
        push_within(list, index);
        at = index + 1;
    }
    true
}

/// Appends a number to a vector that has room for it. It does not allocate.
pub fn push_within(numbers: &mut Vec<u32>, number: usize)
    requires fits { number < 4294967296 }
    requires room { length numbers.old.items < vec_capacity numbers.old }
    ensures items { numbers.new.items ≡ numbers.old.items ++ number ∷ [] }
    ensures capacity { vec_capacity numbers.old ≤ vec_capacity numbers.new }
{
    let _ = numbers.push(number as u32);
}

/// Appends numbers to a vector that has room for them. It does not allocate.
pub fn extend_within(numbers: &mut Vec<u32>, more: &[u32])
    requires { length numbers.old.items + length more.now ≤ vec_capacity numbers.old }
    ensures items { numbers.new.items ≡ numbers.old.items ++ more.now }
    ensures capacity { vec_capacity numbers.old ≤ vec_capacity numbers.new }
{
    let _ = numbers.extend_from_slice(more);
}

/// Makes a vector that has room for some numbers hold these, and no others. It does not allocate.
pub fn copy_within(numbers: &mut Vec<u32>, others: &[u32])
    requires { length others.now ≤ vec_capacity numbers.old }
    ensures items { numbers.new.items ≡ others.now }
    ensures capacity { vec_capacity numbers.old ≤ vec_capacity numbers.new }
{
    numbers.clear();
    extend_within(numbers, others);
}

/// Appends `count` zeros to a vector that has room for them. It does not allocate.
pub fn zeros_within(numbers: &mut Vec<u32>, count: usize)
    requires { length numbers.old.items + count ≤ vec_capacity numbers.old }
    ensures items { numbers.new.items ≡ numbers.old.items ++ replicate count 0 }
    ensures capacity { vec_capacity numbers.old ≤ vec_capacity numbers.new }
{
    let _ = numbers.resize(numbers.len() + count, 0);
}

/// Puts the states of a list into a set, next to its contents.
pub fn put_states(states: &[u32], into: &mut StateSet)
    requires { AreBelow (state_capacity into.old) states.now }
    ensures room { state_capacity into.new ≡ state_capacity into.old }
    ensures has { (t : ℕ)
        → has_state into.new t ≡ (has_number t states.now || has_state into.old t) }
{
    for state in states {
        into.put(*state as usize);
    }
}

/// Returns how many indexes at the front of a list are in a set. The first `from` are known to be.
pub fn found_count(indexes: &[usize], from: usize, found: &IndexSet) -> usize
    requires { AreFound indexes.now from found.now }
    ensures { AreFound indexes.now result found.now }
{
    let mut count = from;
    while count < indexes.len() && found.has(indexes[count]) {
        count += 1;
    }
    count
}

/// Sorts a list of numbers, and drops doubles. A list that descends without doubles, as most passes make it, is only reversed.
pub fn put_in_order(list: &mut Vec<u32>)
    // The list ascends without doubles, and has the same numbers.
    ensures ordered { IsStrictlyIncreasing list.new.items }
    ensures has { (t : ℕ)
        → IsTrue (has_number t list.new.items) ↔ IsTrue (has_number t list.old.items) }

    // It is no longer than before, and loses no room.
    ensures few { length list.new.items ≤ length list.old.items }
    ensures capacity { vec_capacity list.old ≤ vec_capacity list.new }
{
    list.reverse();
    if ascends(list) {
        return;
    }
    list.sort_unstable();
    list.dedup();
}

/// Returns whether each number of a list is below the next.
fn ascends(list: &[u32]) -> bool
    ensures { IsTrue result → IsStrictlyIncreasing list.now }
{
    for at in 1..list.len() {
        if list[at - 1] >= list[at] {
            return false;
        }
    }
    true
}

/// Returns the hash of a seed and a list of numbers.
#[tactic(auto, unfolding(crate::specs::inner::Hashes::list_hash))]
pub fn hash_of(seed: usize, list: &[u32]) -> u64
    ensures { result ≡ list_hash seed list.now }
{
    let mut hasher = FoldHasher::default();
    hasher.write_usize(seed);
    // Two numbers are hashed by one multiplication.
    let (pairs, rest) = list.as_chunks::<2>();
    for pair in pairs {
        let [first, second] = *pair;
        hasher.write_u64(first as u64 | (second as u64) << 32);
    }
    for number in rest {
        hasher.write_u32(*number);
    }
    hasher.finish()
}
