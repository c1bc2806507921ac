//! The work of one worker.
ghost use Rattle.std.specs.Prelude.{◌≡◌, ◌+◌, ◌<◌, ◌^◌};
ghost use Rattle.judge_pool.specs.Work.{posts};

use verdict_board::{Posted, Seat};

/// A worker's seat, and the number of its posts by outcome.
#[derive(Debug, Drop)]
pub struct Done {
    /// The worker's seat.
    pub seat: Seat,
    /// The number of posts that were kept.
    pub kept: u32,
    /// The number of posts that came after another verdict of their clash.
    pub earlier: u32,
    /// The number of posts that were refused when out of memory.
    pub refused: u32,
}

impl Done {
    // Nothing was posted yet.
    pub(crate) fn new(seat: Seat) -> Done
        ensures seat { result.seat ≡ seat }
        ensures none { posts result ≡ 0 }
    {
        Done {
            seat,
            kept: 0,
            earlier: 0,
            refused: 0,
        }
    }

    // One post more.
    pub(crate) fn count(&mut self, posted: Posted<'_>)
        requires { posts self.old + 1 < 2 ^ 32 }
        ensures seat { self.new.seat ≡ self.old.seat }
        ensures one_more { posts self.new ≡ posts self.old + 1 }
    {
        match posted {
            Posted::Kept => self.kept += 1,
            Posted::Earlier => self.earlier += 1,
            Posted::Refused(_) => self.refused += 1,
        }
    }
}
