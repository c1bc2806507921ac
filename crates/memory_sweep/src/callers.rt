//! A caller of a board: one that has its seats and a pass of it.
ghost use Rattle.std.specs.Prelude.{◌≡◌, All, vec_len};

use crate::exchange::{NUMBER, SEED};
use exchange_core::Finished;
use judge_pool::judge;
use partition_table::{ClashList, word};
use registry_lock::meet;
use std::alloc::{AllocError, Global};
use verdict_board::{Board, Pass, Posted, Seat, open};

/// The count of seats of each board.
pub(crate) const SEATS: u32 = 2;

/// A board with two seats, and a pass of it.
#[derive(Drop)]
pub(crate) struct Caller<'p> {
    board: Board<'p>,
    seats: Vec<Seat>,
    pass: Pass<'p>,
    ghost of_board: { pass.place ≡ board.place },
    ghost all: { vec_len seats ≡ board.seats },
    ghost seats_of_board: { All (λ seat. seat.draws ≡ board.draws) seats.items },
}

impl<'p> Caller<'p> {
    /// A board of these clashes, and a pass that has seen nothing.
    pub(crate) fn new(alloc: Global, list: &'p ClashList) -> Result<Caller<'p>, AllocError> {
        let (board, seats) = open(alloc, NUMBER, SEED, list, SEATS)?;
        let pass = board.pass()?;
        Ok(Caller { board, seats, pass })
    }

    /// Posts the verdict of the first clash at its word in the first round. Returns whether it was kept, or `None` if it
    /// was refused, and the word that the pass has then seen.
    pub(crate) fn post(self) -> (Caller<'p>, Option<bool>, Option<u64>) {
        let Caller {
            board,
            seats,
            mut pass,
            ..
        } = self;
        let list = board.clashes();
        if list.len() == 0 {
            return (Caller { board, seats, pass }, None, None);
        }
        let verdict = judge(list, 0, word(board.seed(), 0, list.len() as u32, 0));
        let is_kept = match board.post(0, verdict, &mut pass) {
            Posted::Kept => Some(true),
            // The verdict is returned.
            Posted::Refused(back) if back.word() == verdict.word() => None,
            Posted::Earlier | Posted::Refused(_) => Some(false),
        };
        let seen = board.read(0, &mut pass);
        let seen = seen.map(|ruling| ruling.verdict.word());
        (Caller { board, seats, pass }, is_kept, seen)
    }

    /// The word of the first clash that the pass is shown.
    pub(crate) fn read(self) -> Option<u64> {
        let Caller {
            board,
            mut pass,
            ..
        } = self;
        let ruling = board.read(0, &mut pass);
        ruling.map(|ruling| ruling.verdict.word())
    }

    /// Returns the word of the first clash that a new pass sees, or the error if memory runs out.
    pub(crate) fn word_shown(&self) -> Result<Option<u64>, AllocError> {
        let mut pass = self.board.pass()?;
        let ruling = self.board.read(0, &mut pass);
        Ok(ruling.map(|ruling| ruling.verdict.word()))
    }

    /// Whether the boards are of one exchange, have as many clashes and seats, and show the same of the first clash.
    pub(crate) fn is_same(&self, other: &Caller<'p>) -> bool {
        self.board.number() == other.board.number()
            && self.board.seed() == other.board.seed()
            && self.board.clashes().len() == other.board.clashes().len()
            && self.seats.len() == other.seats.len()
            && self.word_shown() == other.word_shown()
    }

    /// Returns the count of names in the table of two sides that finished and meet.
    pub(crate) fn meet(self, first: Finished, second: Finished) -> Option<usize> {
        let Caller {
            board,
            mut pass,
            ..
        } = self;
        let healed = meet(&board, &mut pass, first, second).ok();
        healed.map(|healed| healed.table().len())
    }
}
