//! Hooks that the workers of a round call.
ghost use Rattle.std.specs.Prelude.{◌≡◌, Some};
ghost use Rattle.verdict_board.specs.Boards.{as_ruling, seen};

use partition_table::Ruling;
use std::sync::Wait;
use verdict_board::Pass;

/// A hook before each post.
pub trait Gate {
    /// Runs before a worker posts its verdict of clash `k` in this round.
    fn before_post<R: Wait>(&self, rt: &R, round: u32, k: u32);
}

/// A gate that delays no post.
#[derive(Clone, Copy, Debug, Default)]
pub struct OpenGate;

impl Gate for OpenGate {
    fn before_post<R: Wait>(&self, _rt: &R, _round: u32, _k: u32) {}
}

/// A listener for rulings.
pub trait Ear {
    /// Receives a ruling that the pass has seen.
    fn told<'p, R: Wait>(&self, rt: &R, ruling: Ruling<'p>, pass: &Pass<'p>)
        requires { seen pass.now ruling.k ≡ Some (as_ruling ruling) };
}
