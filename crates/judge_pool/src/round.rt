//! The data that the workers of a round share.
ghost use Rattle.std.specs.Prelude.{◌<◌};
ghost use Rattle.verdict_board.specs.Draws.{rounds};

use verdict_board::Board;

// The board and the number of a round, the gate before each post, and the two listeners.
#[derive(Drop)]
pub(crate) struct Round<'a, 'p, G, E> {
    pub board: &'a Board<'p>,
    pub number: u32,
    pub gate: &'a G,
    pub left: &'a E,
    pub right: &'a E,
    pub ghost in_range: { number < rounds },
}
