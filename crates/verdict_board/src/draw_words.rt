//! The words that count the draws, one a round.
ghost use Rattle.std.specs.Prelude.{◌≡◌, ℕ, ◌+◌, ◌<◌, ◌≤◌, [], ◌∷◌, List, All, length, slice_index, IfOk, vec_len};
ghost use Rattle.verdict_board.specs.Draws.{rounds, weigh, weigh_all, times, once_below};
ghost use Rattle.verdict_board.specs.model.Given.{hand};

use crate::given::{GivenOnce, Hand, Looked, OnePart, Together};
use crate::seat::{Seat, Token};
use atomic_table::Shared;
use std::alloc::{AllocError, Global};

pub(crate) type DrawWords = Shared<(), Hand, u64, GivenOnce>;

// Splits the seat that has all parts into this many.
pub(crate) fn deal(
    alloc: Global,
    words: &DrawWords,
    token: Token,
    seats: u32,
) -> Result<Vec<Seat>, AllocError>
    requires words { (token.table_id ≡ words.now.table_id) × (words.now.key ≡ seats)
        × (0 < words.now.table_id.words) }
    requires whole { (token.me ≡ (hand seats [], [])) × (0 < seats) }
    ensures { IfOk result (λ all. (vec_len all ≡ seats)
        × All (λ s. (s.draws ≡ words.entry.now.table_id) × (s.drawn ≡ [])) all.items) }
{
    let mut whole = token;
    let mut all = Vec::new(alloc);
    let mut left = seats;
    while left > 1 {
        all.push(Seat::new(words.split_seat::<OnePart>(&mut whole)))?;
        left -= 1;
    }
    all.push(Seat::new(whole))?;
    Ok(all)
}

// Joins the seats into one, with the draws of all.
pub(crate) fn join_all(words: &DrawWords, seats: Vec<Seat>) -> Token
    requires some { 0 < vec_len seats }
    requires words { All (λ s. s.draws ≡ words.now.table_id) seats.items × (0 < words.now.table_id.words) }
    ensures words { result.table_id ≡ words.entry.now.table_id }
    ensures whole { (result.me.0.parts ≡ vec_len seats) × (result.me.1 ≡ []) }
    ensures drawn { (f : ℕ × ℕ → ℕ) → weigh f result.me.0.drawn ≡ weigh_all f seats.items }
{
    let mut rest = seats;
    let Some(first) = rest.pop() else {
        unreachable!()
    };
    let mut all = first.into_token();
    while let Some(next) = rest.pop() {
        words.join_seat::<Together>(&mut all, next.into_token());
    }
    all
}

// Returns the number of draws in a round, for the owner of all parts.
pub(crate) fn drawn_in(words: &DrawWords, all: &mut Token, round: usize) -> u64
    requires words { (all.old.table_id ≡ words.now.table_id) × (words.now.table_id.words ≡ rounds) }
    requires whole { (all.old.me.0.parts ≡ words.now.key) × (all.old.me.1 ≡ []) }
    requires round { round < rounds }
    ensures same { (all.new.table_id ≡ all.old.table_id) × (all.new.me ≡ all.old.me) }
    ensures once { (x : ℕ) → times round x all.old.me.0.drawn ≡ once_below x result }
{
    words.load::<Looked>(all, round)
}
