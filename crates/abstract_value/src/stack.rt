//! The set of written stack bytes, one bit per byte.
ghost use Rattle.std.specs.Prelude.{◌≡◌, ℕ, ◌+◌, ◌<◌, ◌≤◌, false, ◌&&◌, ◌==◌, if◌then◌else◌, bit_and, length, slice_index};

use instruction_set::STACK_LEN;

/// The set of written stack bytes, as eight words of 64 bits.
///
/// Bytes are counted from the stack's lowest: byte `k` is bit `k % 64` of word `k / 64`.
#[derive(Clone, Copy, Debug, PartialEq, Eq)]
pub struct StackState {
    words: [u64; 8],
    ghost eight: { length words ≡ 8 },
}

impl StackState {
    ghost use Rattle.abstract_value.specs.StackBytes.{is_written, all_written, with_marks};

    /// Returns the empty set.
    pub fn empty() -> StackState
        ensures { (k : ℕ) → is_written result k ≡ false }
    {
        StackState { words: [0; 8] }
    }

    /// Returns whether a byte is written.
    pub fn is_written(&self, at: usize) -> bool
        requires { at < STACK_LEN }
        ensures { result ≡ is_written self.now at }
    {
        (self.words[at / 64] >> (at % 64)) & 1 == 1
    }

    /// Returns whether `count` bytes from `from` on are written.
    pub fn all_written(&self, from: usize, count: usize) -> bool
        requires { from + count ≤ STACK_LEN }
        ensures { result ≡ all_written (is_written self.now) from count }
    {
        for at in from..from + count {
            if !self.is_written(at) {
                return false;
            }
        }
        true
    }

    /// Adds `count` bytes from `from` on.
    pub fn mark(&mut self, from: usize, count: usize)
        requires { from + count ≤ STACK_LEN }
        ensures { (k : ℕ) → is_written self.new k ≡ with_marks (is_written self.old) from count k }
    {
        for at in from..from + count {
            self.mark_one(at);
        }
    }

    // Adds one byte.
    fn mark_one(&mut self, at: usize)
        requires { at < STACK_LEN }
        ensures { (k : ℕ) → is_written self.new k ≡ with_marks (is_written self.old) at 1 k }
    {
        self.words[at / 64] |= 1 << (at % 64);
    }

    /// Keeps only the bytes that `other` also has.
    pub fn intersect(&mut self, other: &StackState)
        ensures { (k : ℕ) → is_written self.new k ≡ (is_written self.old k && is_written other.now k) }
    {
        for i in 0..8 {
            self.intersect_word(i, other);
        }
    }

    // Keeps only the bytes of one word that `other` also has.
    fn intersect_word(&mut self, i: usize, other: &StackState)
        requires { i < 8 }
        ensures { (j : ℕ) → slice_index self.new.words j
            ≡ (if j == i then bit_and (slice_index self.old.words i) (slice_index other.now.words i)
            else slice_index self.old.words j) }
    {
        self.words[i] &= other.words[i];
    }
}
