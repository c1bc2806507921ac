//! The loop of one worker.
ghost use Rattle.std.specs.Prelude.{◌≡◌, ◌+◌, ◌-◌, ◌^◌, ◌<◌, ◌≤◌, Some, length, slice_get};
ghost use Rattle.partition_table.specs.Tables.{word_of};
ghost use Rattle.partition_table.specs.Judged.{clash_of_verdict, word_of_verdict};
ghost use Rattle.verdict_board.specs.Draws.{rounds};
ghost use Rattle.judge_pool.specs.Work.{posts, clashes_drawn, DrewIn, IsSpent};

use crate::done::Done;
use crate::hooks::{Ear, Gate};
use crate::judging::judge_in;
use crate::round::Round;
use interpreter::Scratch;
use partition_table::{Verdict, word};
use std::ops::Range;
use std::sync::Wait;
use verdict_board::{Board, Pass, Posted, Seat};

// The maximum number of draws of a seat in a round.
const MOST_DRAWN: u32 = 1_048_577;

// The maximum number of clashes that a worker draws in a row. Workers wait for one another at the word that counts the
// draws, and where cells and answers of adjacent clashes share a line of memory.
const LONGEST_ROW: u32 = 16;

/// Draws clashes of a round until none is left: judges each, calls the gate, posts the verdict, and passes the ruling
/// that it then reads, if any, to both listeners.
///
/// Requires a seat and a pass of this board, and a round from 0 to 3. Draws up to 16 clashes in a row before it judges
/// them: one, and one more for each 256 clashes of the board. Runs all resolvers in one scratch memory. Each post
/// allocates one word.
pub fn work<'p, G: Gate, E: Ear, R: Wait>(
    rt: &R,
    board: &Board<'p>,
    seat: Seat,
    pass: Pass<'p>,
    round: u32,
    gate: &G,
    left: &E,
    right: &E,
) -> Done
    requires seat { seat.draws ≡ board.now.draws }
    requires pass { pass.place ≡ board.now.place }
    requires round { round < rounds }
    ensures board { result.seat.draws ≡ board.entry.now.draws }
    // It drew in this round alone, until none was left, and counts one post for each clash that it drew.
    ensures round { DrewIn round seat.drawn result.seat.drawn }
    ensures spent { IsSpent (length board.entry.now.place.clashes) round result.seat.drawn }
    ensures posts { let n = length board.entry.now.place.clashes in
        posts result + clashes_drawn n round seat.drawn ≡ clashes_drawn n round result.seat.drawn }
{
    let shared = Round {
        board,
        number: round,
        gate,
        left,
        right,
    };
    shared.work(rt, seat, pass)
}

impl<'a, 'p, G: Gate, E: Ear> Round<'a, 'p, G, E> {
    // Works with a new pass. Draws nothing if the pass can't be allocated.
    pub(crate) fn work_alone<R: Wait>(&self, rt: &R, seat: Seat) -> Done
        requires { seat.draws ≡ self.now.board.now.draws }
        ensures { result.seat.draws ≡ self.entry.now.board.now.draws }
    {
        match self.board.pass() {
            Ok(pass) => self.work(rt, seat, pass),
            Err(_) => Done::new(seat),
        }
    }

    fn work<R: Wait>(&self, rt: &R, seat: Seat, pass: Pass<'p>) -> Done
        requires seat { seat.draws ≡ self.now.board.now.draws }
        requires pass { pass.place ≡ self.now.board.now.place }
        ensures board { result.seat.draws ≡ self.entry.now.board.now.draws }
        ensures round { DrewIn self.entry.now.number seat.drawn result.seat.drawn }
        ensures spent { IsSpent (length self.entry.now.board.now.place.clashes) self.entry.now.number
            result.seat.drawn }
        ensures posts { let n = length self.entry.now.board.now.place.clashes in
            posts result + clashes_drawn n self.entry.now.number seat.drawn
            ≡ clashes_drawn n self.entry.now.number result.seat.drawn }
    {
        let mut pass = pass;
        let mut scratch = Scratch::new();
        let mut done = Done::new(seat);
        let wanted = self.row_len();
        for _turn in 0..MOST_DRAWN {
            let row = self.board.draw_row(&mut done.seat, self.number, wanted);
            let count = row.end - row.start;
            self.serve_row(rt, &mut pass, &mut scratch, row, &mut done);
            if count < wanted {
                return done;
            }
        }
        done
    }

    // Returns how many clashes a worker draws in a row: a single one from a short list, so that each worker gets some.
    fn row_len(&self) -> u32
        ensures { (0 < result) × (result ≤ LONGEST_ROW) }
    {
        (1 + self.board.clashes().len() as u32 / 256).min(LONGEST_ROW)
    }

    // Judges and posts the clashes of a row, one after another.
    fn serve_row<R: Wait>(
        &self,
        rt: &R,
        pass: &mut Pass<'p>,
        scratch: &mut Scratch,
        row: Range<u32>,
        done: &mut Done,
    )
        requires pass { pass.old.place ≡ self.now.board.now.place }
        requires clashes { (row.start ≤ row.end) × (row.end ≤ length self.now.board.now.place.clashes) }
        requires room { posts done.old + (row.end - row.start) < 2 ^ 32 }
        ensures pass { pass.new.place ≡ pass.old.place }
        ensures seat { done.new.seat ≡ done.old.seat }
        ensures posts { posts done.new ≡ posts done.old + (row.end - row.start) }
    {
        for k in row.start..row.end {
            done.count(self.serve(rt, pass, scratch, k));
        }
    }

    // Judges clash k, posts the verdict, and passes on the ruling on the board.
    fn serve<R: Wait>(
        &self,
        rt: &R,
        pass: &mut Pass<'p>,
        scratch: &mut Scratch,
        k: u32,
    ) -> Posted<'p>
        requires pass { pass.old.place ≡ self.now.board.now.place }
        requires clash { k < length self.now.board.now.place.clashes }
        ensures { pass.new.place ≡ pass.old.place }
    {
        let verdict = self.verdict(scratch, k);
        self.gate.before_post(rt, self.number, k);
        let posted = self.board.post(k, verdict, pass);
        if let Some(ruling) = self.board.read(k, pass) {
            self.left.told(rt, ruling, pass);
            self.right.told(rt, ruling, pass);
        }
        posted
    }

    // Returns the verdict of clash k at its word in this round.
    fn verdict(&self, scratch: &mut Scratch, k: u32) -> Verdict<'p>
        requires { k < length self.now.board.now.place.clashes }
        ensures clash { slice_get self.entry.now.board.now.place.clashes k ≡ Some (clash_of_verdict result) }
        ensures word { word_of_verdict result ≡ word_of self.entry.now.board.now.place.seed self.entry.now.number
            (length self.entry.now.board.now.place.clashes) k }
    {
        let clashes = self.board.clashes();
        let count = clashes.len() as u32;
        let word = word(self.board.seed(), self.number, count, k);
        judge_in(scratch, clashes, k, word)
    }
}
