//! Random choices, the same each time for one seed.
use rand_core::utils::NextWord;
use rand_pcg::Pcg32;

/// Choices made by a generator that isn't for secrets.
#[derive(Drop)]
pub(crate) struct Dice {
    words: Pcg32,
}

impl Dice {
    pub(crate) fn new(seed: u64) -> Dice {
        Dice {
            words: Pcg32::new(seed, 0),
        }
    }

    /// A number below `count`, or 0 where `count` is 0.
    pub(crate) fn below(&mut self, count: u32) -> u32 {
        self.words.next_word().checked_rem(count).unwrap_or(0)
    }

    /// Returns true in one case of `many`.
    pub(crate) fn is_one_in(&mut self, count: u32) -> bool {
        self.below(count) == 0
    }
}
