//! A round of healing, with one worker for each seat.
ghost use Rattle.std.specs.Prelude.{◌≡◌, ◌≤◌, ◌<◌, ◌+◌, All, vec_len, vec_capacity};
ghost use Rattle.verdict_board.specs.Draws.{rounds};
ghost use Rattle.judge_pool.specs.Work.{round_posts};

use crate::done::Done;
use crate::hooks::{Ear, Gate};
use crate::round::Round;
use crate::scoped::{Worker, run_all};
use std::alloc::Global;
use std::sync::Wait;
use std::thread::Threads;
use verdict_board::{Board, Seat};

/// The outcome of a round: the seats that were returned, the number of workers, and the number of their posts by
/// outcome.
#[derive(Debug, Drop)]
pub struct RoundDone {
    /// The returned seats. The seat of a worker that couldn't be started may be lost.
    pub seats: Vec<Seat>,
    /// The number of workers that were started, the calling thread among them.
    pub started: u32,
    /// The number of posts that were kept.
    pub kept: u32,
    /// The number of posts that came after another verdict of their clash.
    pub earlier: u32,
    /// The number of posts that were refused when out of memory.
    pub refused: u32,
}

impl<'a, 'p, G: Gate, E: Ear> Worker for Round<'a, 'p, G, E> {
    ghost draws = { λ w. w.board.now.draws };

    fn run<R: Wait>(&self, rt: &R, seat: Seat) -> Done {
        self.work_alone(rt, seat)
    }
}

/// Runs one worker for each seat, one of them in the calling thread and each other in a new thread, and returns once all
/// have ended.
///
/// Requires seats of this board and a round from 0 to 3. A worker that gets no pass leaves its share to the others. So
/// does a worker whose thread can't be started, and its seat is lost. If the list of threads can't be allocated, the
/// calling thread works alone and all seats are returned.
pub fn heal_round<'p, G: Gate + Sync, E: Ear + Sync, R: Threads + Wait + Sync>(
    rt: &R,
    alloc: Global,
    board: &Board<'p>,
    seats: Vec<Seat>,
    round: u32,
    gate: &G,
    left: &E,
    right: &E,
) -> RoundDone
    requires seats { All (λ s. s.draws ≡ board.now.draws) seats.items }
    requires round { round < rounds }
    ensures seats { All (λ s. s.draws ≡ board.entry.now.draws) result.seats.items }
    // At least as many seats are returned as workers were started.
    ensures back { result.started ≤ vec_len result.seats }
    // Given a seat, at least one worker was started.
    ensures some { 0 < vec_len seats → 0 < result.started }
    // Without workers no post is counted.
    ensures none { result.started ≡ 0 → round_posts result ≡ 0 }
{
    let shared = Round {
        board,
        number: round,
        gate,
        left,
        right,
    };
    run_all(rt, alloc, &shared, seats)
}

impl RoundDone {
    // No worker was started.
    pub(crate) fn new(seats: Vec<Seat>) -> RoundDone
        ensures seats { result.seats ≡ seats }
        ensures none { (result.started ≡ 0) × (round_posts result ≡ 0) }
    {
        RoundDone {
            seats,
            started: 0,
            kept: 0,
            earlier: 0,
            refused: 0,
        }
    }

    // One worker more has ended.
    pub(crate) fn add(&mut self, done: Done)
        requires { vec_len self.old.seats < vec_capacity self.old.seats }
        ensures same { All (λ s. s.draws ≡ done.seat.draws) self.old.seats.items
            → All (λ s. s.draws ≡ done.seat.draws) self.new.seats.items }
        ensures seats { vec_len self.new.seats ≡ vec_len self.old.seats + 1 }
        ensures room { vec_capacity self.old.seats ≤ vec_capacity self.new.seats }
        ensures started { (0 < self.new.started) × (self.new.started ≤ self.old.started + 1) }
    {
        let Done {
            seat,
            kept,
            earlier,
            refused,
        } = done;
        self.started = self.started.saturating_add(1);
        self.kept = self.kept.saturating_add(kept);
        self.earlier = self.earlier.saturating_add(earlier);
        self.refused = self.refused.saturating_add(refused);
        let Ok(()) = self.seats.push(seat) else {
            unreachable!()
        };
    }
}
