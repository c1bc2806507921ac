//! The exchange of a board, and the words of its clashes.
ghost use Rattle.std.specs.Prelude.{◌≡◌, length, is_some, IfSome};
ghost use Rattle.partition_table.specs.Tables.{word_of};
ghost use Rattle.partition_table.specs.Rulings.{is_one_of_four};

use partition_table::{ClashList, round_of};

// The exchange whose clashes are judged.
#[derive(Clone, Copy)]
pub(crate) struct Site<'p> {
    pub number: u64,
    pub seed: u64,
    pub clashes: &'p ClashList,
}

impl<'p> Site<'p> {
    // Returns the round of a word of clash k, if the word is one of its four.
    pub(crate) fn round_of(self, k: u32, found: u64) -> Option<u32>
        ensures any { is_some result ≡ is_one_of_four found self.entry.seed (length self.entry.clashes.now) k }
        ensures word { IfSome result (λ round.
            found ≡ word_of self.entry.seed round (length self.entry.clashes.now) k) }
    {
        round_of(found, self.seed, self.clashes.len() as u32, k)
    }

    // Checks whether the word is one of the four of clash k.
    pub(crate) fn is_word(self, k: u32, found: u64) -> bool
        ensures { result ≡ is_one_of_four found self.entry.seed (length self.entry.clashes.now) k }
    {
        self.round_of(k, found).is_some()
    }
}
