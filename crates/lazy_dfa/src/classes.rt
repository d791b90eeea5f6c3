//! Classes of bytes.

ghost use Rattle.std.specs.Prelude.{ℕ, ◌<◌, ◌≤◌, slice_index, IfSome};
ghost use Rattle.byte_nfa.specs.Equivalent.{AreEquivalent};
ghost use Rattle.lazy_dfa.specs.inner.Classes.{AreEquivalenceClasses};

use byte_nfa::Nfa;

/// Classes of bytes that each state of an automaton reads alike.
#[derive(Drop)]
pub struct ByteClasses {
    /// The class of each byte.
    pub class_of: [u8; 256],
    /// The first byte of each class.
    pub representatives: [u8; 256],
    pub count: usize,
}

impl ByteClasses {
    /// Returns the classes of an automaton.
    pub fn new(automaton: &Nfa) -> ByteClasses
        ensures some { 0 < result.count }
        ensures few { result.count ≤ 256 }
        ensures equivalence { AreEquivalenceClasses automaton.now.states result.class_of
            result.representatives result.count }
    {
        let changes = automaton.class_boundaries();
        let mut class_of = [0u8; 256];
        let mut representatives = [0u8; 256];
        let mut kinds = [0u64; 256];
        kinds[0] = automaton.kind_of(0);
        let mut last = 0u8;
        let mut class = 0u8;
        for i in 1..256usize {
            let byte = i as u8;
            if changes.has(byte - 1) {
                let kind = automaton.kind_of(byte);
                class = match class_like(automaton, &representatives, &kinds, last, byte, kind) {
                    Some(found) => found,
                    None => {
                        last += 1;
                        representatives[last as usize] = byte;
                        kinds[last as usize] = kind;
                        last
                    }
                };
            }
            class_of[i] = class;
        }
        ByteClasses {
            class_of,
            representatives,
            count: last as usize + 1,
        }
    }
}

/// Returns the first class, up to `last`, whose bytes are read as `byte` is, or `None`. `kind` is that of the byte.
fn class_like(
    automaton: &Nfa,
    representatives: &[u8; 256],
    kinds: &[u64; 256],
    last: u8,
    byte: u8,
    kind: u64,
) -> Option<u8>
    ensures { IfSome result
        (λ class. (class ≤ last)
        × AreEquivalent automaton.now.states (slice_index representatives.now class) byte) }
{
    for class in 0..=last {
        if kinds[class as usize] == kind {
            if automaton.reads_alike(representatives[class as usize], byte) {
                return Some(class);
            }
        }
    }
    None
}
