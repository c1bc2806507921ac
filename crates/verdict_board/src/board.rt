//! The board of one exchange.
ghost use Rattle.std.specs.Prelude.{◌≡◌, ℕ, ◌<◌, ◌≤◌, [], All, length, IfOk, Some, None, vec_len, slice_get, slice_index};
ghost use Rattle.std.specs.Option.{option_map};
ghost use Rattle.partition_table.specs.Tables.{IsOneOfFour};
ghost use Rattle.partition_table.specs.Judged.{clash_of_verdict, word_of_verdict};
ghost use Rattle.partition_table.specs.Rulings.{ruling_of};
ghost use Rattle.verdict_board.specs.Boards.{as_ruling, most_seats, board_ruling, seen, LooksAt, IsAnswer};
ghost use Rattle.verdict_board.specs.Draws.{rounds, taken, most_drawn, Draws, DrawsRow, EachOnce};
ghost use Rattle.verdict_board.specs.model.Given.{hand};

use crate::answers::{AnswerTable, keep_answer, kept_answer, no_answers};
use crate::draw::Draw;
use crate::draw_words::{deal, drawn_in, join_all};
use crate::given::{GivenOnce, Hand, Took};
use crate::pass::Pass;
use crate::posted::Posted;
use crate::seat::Seat;
use crate::site::Site;
use atomic_table::Table;
use once_cell::race::OnceBox;
use partition_table::{ClashList, Ruling, Verdict};
use std::alloc::{AllocError, Global};
use std::fmt;
use std::marker::Model;
use std::ops::Range;

// The maximum number of draws of a seat in a round. One of them is past the count of clashes.
const MOST_DRAWN: u32 = 1_048_577;

/// The draws and the verdicts of one exchange.
///
/// The cell of a clash holds the word of its first verdict. `post` then keeps that verdict's answer too, and `read` runs
/// the resolver only until it has.
pub struct Board<'p> {
    site: Site<'p>,
    cells: Vec<OnceBox<u64>>,
    answers: AnswerTable,
    words: Table<(), Hand, u64, GivenOnce, Global>,
    seats: u32,
    alloc: Global,
}

// Written out, so that a drop is one call in the proofs of callers.
impl<'p> Drop for Board<'p> {
    fn drop(self) {
        let Board {
            site: _,
            cells: _,
            answers: _,
            words: _,
            seats: _,
            alloc: _,
        } = self;
    }
}

impl<'p> Model for Board<'p> {
    ghost use Rattle.std.specs.Prelude.{◌≡◌, ◌<◌, ◌≤◌, map, length};
    ghost use Rattle.once_cell.specs.Once.{cell_name};
    ghost use Rattle.partition_table.specs.Tables.{most_names};
    ghost use Rattle.verdict_board.specs.Boards.{Board, most_seats};
    ghost use Rattle.verdict_board.specs.Draws.{rounds};
    ghost use Rattle.verdict_board.specs.Views.{place_of};

    ghost Value = { Board };

    ghost view = { λ b. record {
      place = place_of b.site.number b.site.seed b.site.clashes.now (map cell_name b.cells.items);
      seats = b.seats;
      draws = b.words.shared.table_id;
    } };

    ghost invariant = { λ b. (length b.cells.items ≡ length b.site.clashes.now)
        × (length b.site.clashes.now ≤ most_names)
        × (0 < b.seats) × (b.seats ≤ most_seats) × (b.words.shared.key ≡ b.seats)
        × (b.words.shared.table_id.words ≡ rounds) × (b.words.shared.table_id.slots ≡ 0)
        × (b.answers.shared.table_id.words ≡ length b.site.clashes.now)
        × (b.answers.shared.key.seed ≡ b.site.seed)
        × (b.answers.shared.key.clashes.value ≡ b.site.clashes.now) };
}

/// Opens the board of an exchange with this number, seed and clashes. Returns it with its seats, which have drawn
/// nothing.
///
/// Requires 1 to 16 seats. Allocates one cell and one word for each clash.
pub fn open<'p>(
    alloc: Global,
    number: u64,
    seed: u64,
    clashes: &'p ClashList,
    seats: u32,
) -> Result<(Board<'p>, Vec<Seat>), AllocError>
    requires { (0 < seats) × (seats ≤ most_seats) }
    ensures number { IfOk result (λ opened. opened.0.place.number ≡ number) }
    ensures seed { IfOk result (λ opened. opened.0.place.seed ≡ seed) }
    ensures clashes { IfOk result (λ opened. opened.0.place.clashes ≡ clashes.now) }
    ensures count { IfOk result (λ opened. (opened.0.seats ≡ seats) × (vec_len opened.1 ≡ seats)) }
    ensures seats { IfOk result (λ opened.
        All (λ seat. (seat.draws ≡ opened.0.draws) × (seat.drawn ≡ [])) opened.1.items) }
{
    let site = Site {
        number,
        seed,
        clashes,
    };
    let mut cells = Vec::new(alloc);
    while cells.len() < clashes.len() {
        cells.push(OnceBox::new(alloc))?;
    }
    let answers = no_answers(alloc, seed, clashes)?;
    let (words, token) = Table::of_words(alloc, &[0, 0, 0, 0], &u64::from(seats))?;
    let all = deal(alloc, &words.shared, token, seats)?;
    let board = Board {
        site,
        cells,
        answers,
        words,
        seats,
        alloc,
    };
    Ok((board, all))
}

impl<'p> fmt::Debug for Board<'p> {
    fn fmt<W: fmt::Write>(&self, f: &mut fmt::Formatter<W>) -> fmt::Result {
        f.debug_struct("Board")
            .field("number", &self.site.number)
            .field("seed", &self.site.seed)
            .field("seats", &self.seats)
            .finish()
    }
}

impl<'p> Board<'p> {
    /// Returns the number of the exchange.
    pub fn number(&self) -> u64
        ensures { result ≡ self.now.place.number }
    {
        self.site.number
    }

    /// Returns the seed of the exchange.
    pub fn seed(&self) -> u64
        ensures { result ≡ self.now.place.seed }
    {
        self.site.seed
    }

    /// Returns the clashes of the exchange.
    pub fn clashes(&self) -> &'p ClashList
        ensures { result.now ≡ self.entry.now.place.clashes }
    {
        self.site.clashes
    }

    /// Returns a pass that has seen nothing. Allocates one note for each clash.
    pub fn pass(&self) -> Result<Pass<'p>, AllocError>
        ensures board { IfOk result (λ pass. pass.place ≡ self.now.place) }
        ensures nothing { IfOk result (λ pass. (k : ℕ) → seen pass k ≡ None) }
    {
        let mut notes = Vec::new(self.alloc);
        for cell in &self.cells {
            notes.push(cell.note())?;
        }
        Ok(Pass::new(self.site, notes))
    }

    /// Draws the next number of a round, counted from 0. Below the count of clashes it is the position of a clash.
    ///
    /// Requires a seat of this board and a round from 0 to 3. Never waits.
    pub fn draw(&self, seat: &mut Seat, round: u32) -> Draw
        requires board { seat.old.draws ≡ self.now.draws }
        requires round { round < rounds }
        ensures board { seat.new.draws ≡ seat.old.draws }
        ensures draws { Draws (length self.now.place.clashes) round seat.old.drawn seat.new.drawn result }
    {
        let row = self.draw_row(seat, round, 1);
        if row.start < row.end {
            Draw::Clash(row.start)
        } else {
            Draw::Spent
        }
    }

    /// Draws the next numbers of a round in one step, and returns those that are positions of clashes.
    ///
    /// Draws as many as are wanted, but no more than 1,048,577 with one seat. Returns fewer than wanted only if no clash is left
    /// in the round. Requires a seat of this board and a round from 0 to 3. Never waits.
    pub fn draw_row(&self, seat: &mut Seat, round: u32, wanted: u32) -> Range<u32>
        requires board { seat.old.draws ≡ self.now.draws }
        requires round { round < rounds }
        ensures board { seat.new.draws ≡ seat.old.draws }
        ensures draws { DrawsRow (length self.now.place.clashes) round wanted seat.old.drawn seat.new.drawn result }
        // No seat has drawn more.
        ensures few { taken round seat.old.drawn ≤ most_drawn }
    {
        let used = seat.used[round as usize];
        let count = wanted.min(MOST_DRAWN - used);
        let more = u64::from(count);
        let first = self
            .words
            .shared
            .fetch_add::<Took>(&mut seat.token, round as usize, more);
        seat.used[round as usize] = used + count;
        let n = self.site.clashes.len() as u64;
        first.min(n) as u32..first.saturating_add(more).min(n) as u32
    }

    /// Posts a verdict of clash `k` and returns what the pass has then seen of that clash.
    ///
    /// Requires a pass of this board, and a verdict of clash `k` at one of its four words. Keeps the verdict, word and
    /// answer, if it is the first; keeps nothing if an allocation fails. Never waits.
    pub fn post(&self, k: u32, verdict: Verdict<'p>, pass: &mut Pass<'p>) -> Posted<'p>
        requires board { pass.old.place ≡ self.now.place }
        requires clash { slice_get self.now.place.clashes k ≡ Some (clash_of_verdict verdict) }
        requires word { IsOneOfFour (word_of_verdict verdict) self.now.place.seed (length self.now.place.clashes) k }
        ensures answer { IsAnswer (seen pass.new k) self.now.place.number k verdict.entry result }
        ensures looks { LooksAt k pass.old pass.new }
    {
        let place = k as usize;
        let word = verdict.word();
        match pass.offer(self.alloc, &self.cells[place], place, word) {
            Some(first) if first == word => {
                self.keep(k, verdict);
                Posted::Kept
            }
            Some(first) if self.site.is_word(k, first) => Posted::Earlier,
            _ => Posted::Refused(verdict),
        }
    }

    /// Returns the ruling of clash `k`, if any. A pass that has seen a ruling sees it again. Returns none past the count.
    ///
    /// Requires a pass of this board. Runs the clash's resolver only while the answer of the first verdict isn't kept yet.
    /// Allocates nothing and never waits.
    pub fn read(&self, k: u32, pass: &mut Pass<'p>) -> Option<Ruling<'p>>
        requires board { pass.old.place ≡ self.now.place }
        ensures answer { option_map as_ruling result ≡ seen pass.new k }
        ensures looks { LooksAt k pass.old pass.new }
    {
        let cell = self.cells.get(k as usize)?;
        let word = pass.look(cell, k as usize)?;
        self.ruling(k, word)
    }

    /// Returns the ruling of clash `k` at a word, or none if the word isn't one of its four or `k` is past the count.
    ///
    /// Runs the clash's resolver only if the board doesn't keep its answer at this word. Allocates nothing and never
    /// waits.
    pub fn ruling(&self, k: u32, word: u64) -> Option<Ruling<'p>>
        ensures { option_map as_ruling result ≡ board_ruling self.entry.now.place.number self.entry.now.place.seed
            self.entry.now.place.clashes k word }
    {
        let clash = self.site.clashes.get(k)?;
        let round = self.site.round_of(k, word)?;
        let verdict = match kept_answer(&self.answers.shared, k, round) {
            Some(answer) => Verdict::known(clash, word, answer),
            None => Verdict::judged(clash, word),
        };
        Some(Ruling {
            number: self.site.number,
            k,
            verdict,
        })
    }

    // Keeps the answer of a verdict of clash k.
    fn keep(&self, k: u32, verdict: Verdict<'p>)
        requires { slice_get self.now.place.clashes k ≡ Some (clash_of_verdict verdict) }
    {
        if let Some(round) = self.site.round_of(k, verdict.word()) {
            keep_answer(&self.answers.shared, k, round, verdict.answer());
        }
    }

    /// Takes all seats and returns the number of draws in each round. The numbers drawn in a round are those below its
    /// count, each once.
    ///
    /// Requires all seats of this board.
    pub fn gather(&self, seats: Vec<Seat>) -> [u64; 4]
        requires all { vec_len seats ≡ self.now.seats }
        requires board { All (λ seat. seat.draws ≡ self.now.draws) seats.items }
        ensures { (round : ℕ) → round < rounds → EachOnce round seats.items (slice_index result round) }
    {
        let words = &self.words.shared;
        let mut all = join_all(words, seats);
        [
            drawn_in(words, &mut all, 0),
            drawn_in(words, &mut all, 1),
            drawn_in(words, &mut all, 2),
            drawn_in(words, &mut all, 3),
        ]
    }
}
