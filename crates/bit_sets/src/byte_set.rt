//! Sets of bytes.

ghost use Rattle.std.specs.Prelude.{◌≡◌, ℕ, ◌+◌, ◌<◌, ◌&&◌, ◌||◌, ◌==◌, not, true, false, slice_index_or, IsTrue, ◌↔◌};
ghost use Rattle.bit_sets.specs.Bits.{TellsFirst};
ghost use Rattle.bit_sets.specs.Bytes.{differ, has_byte, HasEvery};

use crate::words::{changes, clear_bit, first_from, has_bit, set_bit};

/// A set of bytes, as 256 bits.
///
/// ```
/// let digits_but_zero = ByteSet::from_table(&is_digit).without(b'0');
/// let either_case = ByteSet::only(b'a').with(b'A');
/// ```
#[derive(Clone, Copy)]
pub struct ByteSet {
    words: [u64; 4],
}

impl ByteSet {
    /// Returns the set of all bytes.
    pub fn everything() -> ByteSet
        ensures { (c : ℕ) → c < 256 → has_byte result c ≡ true }
    {
        ByteSet {
            words: [u64::MAX; 4],
        }
    }

    /// Returns the set of no bytes.
    pub fn nothing() -> ByteSet
        ensures { (c : ℕ) → has_byte result c ≡ false }
    {
        ByteSet { words: [0; 4] }
    }

    /// Returns the set of a single byte.
    pub fn only(byte: u8) -> ByteSet
        ensures { (c : ℕ) → has_byte result c ≡ (c == byte) }
    {
        let mut words = [0u64; 4];
        set_bit(&mut words, byte as usize);
        ByteSet { words }
    }

    /// Returns the set of the bytes that a table has `true` for.
    pub fn from_table(table: &[bool; 256]) -> ByteSet
        ensures { (c : ℕ) → has_byte result c ≡ slice_index_or table.now c false }
    {
        let mut words = [0u64; 4];
        for i in 0..256usize {
            if table[i] {
                set_bit(&mut words, i);
            }
        }
        ByteSet { words }
    }

    /// Returns the set with another byte.
    pub fn with(self, byte: u8) -> ByteSet
        ensures { (c : ℕ) → has_byte result c ≡ ((c == byte) || has_byte self c) }
    {
        let mut words = self.words;
        set_bit(&mut words, byte as usize);
        ByteSet { words }
    }

    /// Returns the set without a byte.
    pub fn without(self, byte: u8) -> ByteSet
        ensures { (c : ℕ) → has_byte result c ≡ (not (c == byte) && has_byte self c) }
    {
        let mut words = self.words;
        clear_bit(&mut words, byte as usize);
        ByteSet { words }
    }

    /// Returns the set with every byte of another set more.
    pub fn with_all(self, other: &ByteSet) -> ByteSet
        ensures { (c : ℕ) → has_byte result c ≡ (has_byte other.now c || has_byte self c) }
    {
        let [a, b, c, d] = other.words;
        ByteSet {
            words: [
                self.words[0] | a,
                self.words[1] | b,
                self.words[2] | c,
                self.words[3] | d,
            ],
        }
    }

    /// Returns the set together with each byte `b` where another set has exactly one of `b` and `b + 1`.
    pub fn with_boundaries(self, other: &ByteSet) -> ByteSet
        ensures { (b : ℕ) → b + 1 < 256
            → has_byte result b
            ≡ (differ (has_byte other.now b) (has_byte other.now (b + 1)) || has_byte self b) }
    {
        let [a, b, c, d] = other.words;
        ByteSet {
            words: [
                self.words[0] | changes(a, b),
                self.words[1] | changes(b, c),
                self.words[2] | changes(c, d),
                self.words[3] | changes(d, 0),
            ],
        }
    }

    /// Returns whether the set has a byte.
    pub fn has(&self, byte: u8) -> bool
        ensures { result ≡ has_byte self.now byte }
    {
        has_bit(&self.words, byte as usize)
    }

    /// Returns whether the set is another set.
    pub fn is(&self, other: &ByteSet) -> bool
        ensures { IsTrue result → self.now ≡ other.now }
    {
        self.words == other.words
    }

    /// Returns a place for the set in a table of 256 places. The sets of a printable ASCII byte, of all bytes and of all bytes
    /// but `/` have different places.
    pub fn place(&self) -> usize
        ensures { result < 256 }
    {
        let [a, b, c, d] = self.words;
        let low = a.wrapping_add(d).wrapping_mul(0xCAE7_7516_AE09_E9A3);
        let high = b.wrapping_add(c).wrapping_mul(0x7321_53A1_D97B_F2B1);
        (low.wrapping_add(high) >> 56) as usize
    }

    /// Returns whether the set has some byte.
    pub fn has_some(&self) -> bool
        ensures { IsTrue result ↔ ((c : ℕ) × (c < 256) × IsTrue (has_byte self.now c)) }
    {
        self.first_from(0).is_some()
    }

    /// Returns whether the set has every byte.
    pub fn is_everything(&self) -> bool
        ensures { IsTrue result ↔ HasEvery self.now }
    {
        for i in 0..4usize {
            if self.words[i] != u64::MAX {
                return false;
            }
        }
        true
    }

    /// Returns the lowest byte of the set that is not below a number.
    fn first_from(&self, from: usize) -> Option<u8>
        ensures { TellsFirst (has_byte self.now) from result }
    {
        match first_from(&self.words, from) {
            Some(at) => Some(at as u8),
            None => None,
        }
    }
}
