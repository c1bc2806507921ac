//! The law of what a pass sees.
ghost use Rattle.std.specs.Prelude.{◌≡◌, ℕ, ◌<◌, Some, IsTrue, slice_get};
ghost use Rattle.partition_table.specs.Rulings.{Ruling, is_lawful};
ghost use Rattle.exchange_law.specs.Sides.{Offer};
ghost use Rattle.exchange_law.specs.Worlds.{clashes_between, ruling_on};
ghost use Rattle.verdict_board.specs.Boards.{Pass, seen};
ghost use Rattle.verdict_board.specs.Draws.{rounds};
ghost use Rattle.registry_lock.specs.Telling.{IsBoardOf};

/// States that what a pass has seen of a clash is a ruling that a judging step of the exchange adds.
///
/// Does nothing at run time: its contract is the law.
pub fn seen_theorem()
    // Where the board was opened with the number, the seed and the clashes of two offers, it is what some judging step
    // adds.
    ensures judged { (pass : Pass) (k : ℕ) (ruling : Ruling) (a b : Offer) → IsBoardOf a b pass.place
        → seen pass k ≡ Some ruling
        → (round : ℕ) × (round < rounds) × (ruling_on pass.place.number k round (Some a) (Some b) ≡ Some ruling) }
    // Its word is one of the clash's four, and its answer the resolver's there.
    ensures lawful { (pass : Pass) (k : ℕ) (ruling : Ruling) → seen pass k ≡ Some ruling
        → IsTrue (is_lawful pass.place.clashes pass.place.seed k ruling.judged) }
    // It is of this exchange and of this clash.
    ensures own { (pass : Pass) (k : ℕ) (ruling : Ruling) → seen pass k ≡ Some ruling
        → (ruling.number ≡ pass.place.number) × (ruling.k ≡ k)
        × (slice_get pass.place.clashes k ≡ Some ruling.clash) }
{}
