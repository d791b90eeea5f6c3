//! Sets of numbers, as the bits of machine words.

ghost use Rattle.std.specs.Prelude.{◌≡◌, ℕ, ◌+◌, ◌-◌, ◌*◌, ◌/◌, ◌%◌, ◌^◌, ◌<◌, ◌≤◌, ◌&&◌, ◌||◌, ◌==◌, max, not, true, false, length, OnOk, IsOk};
ghost use Rattle.std.specs.Int.{bit_at};
ghost use Rattle.bit_sets.specs.Bits.{bit_of, TellsFirst, TellsFirstInWord, TellsLastInWord};

use std::alloc::AllocError;

/// Returns the number of words with room for `bits` bits.
pub fn words_for(bits: usize) -> usize
    ensures room { bits ≤ 64 * result }
    ensures least { 64 * result < bits + 64 }
    ensures fits { 64 * result ≤ 2 ^ 64 }
{
    if bits % 64 == 0 {
        bits / 64
    } else {
        bits / 64 + 1
    }
}

/// Adds words without a bit until there are `count` words. After an error the words are unchanged.
pub fn grow(words: &mut Vec<u64>, count: usize) -> Result<(), AllocError>
    ensures ok { OnOk result (count ≤ length words.new.items) }
    ensures kept { length words.old.items ≤ length words.new.items }
    ensures maximum { length words.new.items ≤ max count (length words.old.items) }
    ensures bits { (k : ℕ) → bit_of words.new.items k ≡ bit_of words.old.items k }
    ensures memory { count ≤ length words.old.items → IsOk result }
{
    if count > words.len() {
        words.resize(count, 0)?;
    }
    Ok(())
}

/// Returns whether a bit is set.
pub fn has_bit(words: &[u64], k: usize) -> bool
    requires { k < 64 * length words.now }
    ensures { result ≡ bit_of words.now k }
{
    (words[k / 64] >> (k % 64)) & 1 == 1
}

/// Sets a bit.
pub fn set_bit(words: &mut [u64], k: usize)
    requires { k < 64 * length words.old }
    ensures { (j : ℕ) → bit_of words.new j ≡ ((j == k) || bit_of words.old j) }
{
    let word = words[k / 64];
    words[k / 64] = word | (1u64 << (k % 64));
}

/// Clears a bit.
pub fn clear_bit(words: &mut [u64], k: usize)
    requires { k < 64 * length words.old }
    ensures { (j : ℕ) → bit_of words.new j ≡ (not (j == k) && bit_of words.old j) }
{
    let word = words[k / 64];
    words[k / 64] = word & !(1u64 << (k % 64));
}

/// Returns a word that has each bit that differs between a word and the same word moved down by a bit. The lowest bit of `next`
/// moves in.
pub fn changes(word: u64, next: u64) -> u64
    ensures inside { (i : ℕ) → i < 63
        → bit_at result i ≡ (bit_at word i + bit_at word (i + 1)) % 2 }
    ensures last { bit_at result 63 ≡ (bit_at word 63 + bit_at next 0) % 2 }
{
    word ^ ((word >> 1) | ((next & 1) << 63))
}

/// Clears the bits between these two, and all others of their words.
pub fn clear_between(words: &mut [u64], first: usize, last: usize)
    requires order { first ≤ last }
    requires within { last < 64 * length words.old }
    ensures between { (k : ℕ) → first ≤ k → k ≤ last → bit_of words.new k ≡ false }
    ensures others { (k : ℕ) → bit_of words.new k ≡ true → bit_of words.old k ≡ true }
{
    words[first / 64..last / 64 + 1].fill(0);
}

/// Clears all bits.
pub fn clear_all(words: &mut [u64])
    ensures { (k : ℕ) → bit_of words.new k ≡ false }
{
    words.fill(0);
}

/// Clears all bits of the words whose places are set in other words.
pub fn clear_words(words: &mut [u64], places: &[u64])
    requires { 64 * length places.now ≤ 2 ^ 64 }
    ensures { (k : ℕ) → bit_of words.new k
        ≡ (not (bit_of places.now (k / 64)) && bit_of words.old k) }
{
    let mut from = 0;
    while let Some(place) = first_from(places, from) {
        if place >= words.len() {
            break;
        }
        words[place] = 0;
        from = place + 1;
    }
}

/// Returns the highest bit that is set in a bit's word, up to this bit.
pub fn last_in_word(words: &[u64], to: usize) -> Option<usize>
    requires { to < 64 * length words.now }
    ensures { TellsLastInWord (bit_of words.now) to result }
{
    let at = to / 64;
    let word = words[at] & (u64::MAX >> (63 - to % 64));
    if word == 0 {
        return None;
    }
    Some(at * 64 + (63 - word.leading_zeros() as usize))
}

/// Returns the lowest bit that is set in a bit's word, from this bit on.
pub fn first_in_word(words: &[u64], from: usize) -> Option<usize>
    ensures { TellsFirstInWord (bit_of words.now) from result }
{
    let at = from / 64;
    if at >= words.len() {
        return None;
    }
    let word = words[at] & (u64::MAX << (from % 64));
    if word == 0 {
        return None;
    }
    Some(at * 64 + word.trailing_zeros() as usize)
}

/// Returns the lowest bit that is set from a bit on.
pub fn first_from(words: &[u64], from: usize) -> Option<usize>
    requires { 64 * length words.now ≤ 2 ^ 64 }
    ensures { TellsFirst (bit_of words.now) from result }
{
    let mut at = from / 64;
    let mut mask = u64::MAX << (from % 64);
    while at < words.len() {
        let word = words[at] & mask;
        if word != 0 {
            return Some(at * 64 + word.trailing_zeros() as usize);
        }
        mask = u64::MAX;
        at += 1;
    }
    None
}
