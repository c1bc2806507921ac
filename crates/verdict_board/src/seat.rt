//! The seats of a board.
ghost use Rattle.std.specs.Prelude.{◌≡◌, []};
ghost use Rattle.verdict_board.specs.model.Given.{hand};

use crate::given::Hand;
use std::fmt;
use std::marker::Model;

pub(crate) type Token = atomic_table::Seat<(), Hand>;

/// A seat of a board. Contracts see it as the draws that it made and the board that they belong to.
#[derive(Drop)]
pub struct Seat {
    pub(crate) token: Token,
    // The number of draws in each round.
    pub(crate) used: [u32; 4],
}

impl Model for Seat {
    ghost use Rattle.std.specs.Prelude.{◌≡◌, ℕ, ◌<◌, ◌≤◌, [], slice_index};
    ghost use Rattle.verdict_board.specs.Draws.{Seat, rounds, taken, most_drawn};
    ghost use Rattle.verdict_board.specs.model.Given.{hand};

    ghost Value = { Seat };

    ghost view = { λ s. record { draws = s.token.table_id; drawn = s.token.me.0.drawn } };

    ghost invariant = { λ s. (s.token.me ≡ (hand 1 s.token.me.0.drawn, [])) × ((round : ℕ) → round < rounds
        → (slice_index s.used round ≡ taken round s.token.me.0.drawn)
        × (taken round s.token.me.0.drawn ≤ most_drawn)) };
}

impl fmt::Debug for Seat {
    fn fmt<W: fmt::Write>(&self, f: &mut fmt::Formatter<W>) -> fmt::Result {
        f.debug_struct("Seat").field("used", &self.used).finish()
    }
}

impl Seat {
    pub(crate) fn new(token: Token) -> Seat
        requires { token.me ≡ (hand 1 [], []) }
        ensures { (result.draws ≡ token.table_id) × (result.drawn ≡ []) }
    {
        Seat {
            token,
            used: [0; 4],
        }
    }

    pub(crate) fn into_token(self) -> Token
        ensures { (result.table_id ≡ self.draws) × (result.me ≡ (hand 1 self.drawn, [])) }
    {
        let Seat { token, used: _ } = self;
        token
    }
}
